//! When two requests ask for the same, and when one refreshes a mitigation.

ghost use Rattle.std.specs.Prelude.{◌≡◌, Bool, nat_eq, bytes_eq};
ghost use Rattle.std.specs.List.{list_any};
ghost use Rattle.conflict_rules.specs.Asking.{same_prefix, same_ports, all_among, same_set, asks_the_same, would_refresh};

use acl_lists::Asked;
use dots_history::Put;
use dots_lists::Name;
use ip_scope::{PortRange, Prefix};

/// What a request lists as a set.
trait Listed {
    ghost same: { Self → Self → Bool };

    fn is_same(&self, other: &Self) -> bool
        ensures { result ≡ same self.now other.now };
}

impl Listed for Prefix {
    ghost same = { same_prefix };

    fn is_same(&self, other: &Self) -> bool {
        self.family().is_same(other.family())
            && self.number() == other.number()
            && self.length() == other.length()
    }
}

impl Listed for PortRange {
    ghost same = { same_ports };

    fn is_same(&self, other: &Self) -> bool {
        self.lower() == other.lower() && self.upper() == other.upper()
    }
}

impl Listed for u8 {
    ghost same = { nat_eq };

    fn is_same(&self, other: &Self) -> bool {
        *self == *other
    }
}

impl Listed for Name {
    ghost same = { bytes_eq };

    fn is_same(&self, other: &Self) -> bool {
        self.bytes() == other.bytes()
    }
}

/// Whether each of the one is among the other.
fn are_among<T: Listed>(items: &[T], others: &[T]) -> bool
    ensures { result ≡ all_among T.same items.now others.now }
{
    items.iter().all(|item| is_among(item, others))
}

/// Whether the item is among the others.
fn is_among<T: Listed>(item: &T, others: &[T]) -> bool
    ensures { result ≡ list_any (T.same item.now) others.now }
{
    others.iter().any(|other| item.is_same(other))
}

/// Whether the lists are the same as sets.
fn are_same_set<T: Listed>(items: &[T], others: &[T]) -> bool
    ensures { result ≡ same_set T.same items.now others.now }
{
    are_among(items, others) && are_among(others, items)
}

/// Whether the two ask for the same prefixes, ports, protocols, names and aliases, whatever their order and repeats.
fn asks_the_same(a: &Asked, b: &Asked) -> bool
    ensures { result ≡ asks_the_same a.now b.now }
{
    are_same_set(a.prefixes.items(), b.prefixes.items())
        && are_same_set(a.ports.items(), b.ports.items())
        && are_same_set(a.protocols.items(), b.protocols.items())
        && are_same_set(a.names.items(), b.names.items())
        && are_same_set(a.aliases.items(), b.aliases.items())
}

/// Whether such a request would refresh the mitigation: it asks for the same, with the same trigger value.
pub(crate) fn would_refresh(asked: &Asked, trigger: bool, put: &Put) -> bool
    ensures { result ≡ would_refresh asked.now trigger put.now }
{
    asks_the_same(&put.asked, asked) && put.trigger == trigger
}
