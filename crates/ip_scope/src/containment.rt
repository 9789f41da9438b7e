ghost use Rattle.std.specs.Prelude.{◌≡◌};
ghost use Rattle.std.specs.List.{list_any};
ghost use Rattle.ip_scope.specs.Prefix.{inside, meets, holds};

use crate::address::Addr;
use crate::prefix::{Prefix, leading_part};

/// Whether each address of `a` is one of `b`.
pub fn inside(a: &Prefix, b: &Prefix) -> bool
    ensures { result ≡ inside a.now b.now }
{
    b.length() <= a.length()
        && b.family().is_same(a.family())
        && leading_part(a.number(), b.host_bits()) == leading_part(b.number(), b.host_bits())
}

/// Whether one is inside the other, so that they share an address.
pub fn meets(a: &Prefix, b: &Prefix) -> bool
    ensures { result ≡ meets a.now b.now }
{
    inside(a, b) || inside(b, a)
}

/// Whether a prefix of the list has `a` inside it.
pub fn inside_any(a: &Prefix, list: &[Prefix]) -> bool
    ensures { result ≡ list_any (λ b. inside a.now b) list.now }
{
    list.iter().any(|b| inside(a, b))
}

/// Whether the address is one of the prefix.
pub fn holds(p: &Prefix, a: &Addr) -> bool
    ensures { result ≡ holds p.now a.now.family a.now.number }
{
    p.family().is_same(a.family)
        && leading_part(a.number, p.host_bits()) == leading_part(p.number(), p.host_bits())
}
