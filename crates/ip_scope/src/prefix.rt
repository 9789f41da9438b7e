ghost use Rattle.std.specs.Prelude.{◌≡◌, ◌*◌, ◌/◌, ◌-◌, ◌^◌, ◌<◌, ◌≤◌, Some, None};
ghost use Rattle.ip_scope.specs.Family.{width};
ghost use Rattle.ip_scope.specs.Prefix.{IsPrefix, prefix_of};

use crate::address::Addr;
use crate::family::Family;
use std::marker::Model;

/// A prefix: a family, a number whose host bits are zero, and a length of at most 32 or 128.
#[derive(Clone, Copy)]
pub struct Prefix {
    family: Family,
    number: u128,
    length: u8,
}

impl Model for Prefix {
    ghost use Rattle.ip_scope.specs.Prefix.{PrefixValue, IsPrefix};

    ghost Value = { PrefixValue };

    ghost view = { λ p. record { family = p.family; number = p.number; length = p.length } };

    ghost invariant = { λ p. IsPrefix (record { family = p.family; number = p.number; length = p.length }) };

    ghost inverse = { λ p. record { family = p.family; number = p.number; length = p.length } };
}

/// The number without its lowest bits.
pub(crate) fn leading_part(number: u128, low_bits: u8) -> u128
    requires { low_bits ≤ 128 }
    ensures { result ≡ number / 2 ^ low_bits }
{
    if low_bits == 128 {
        return 0;
    }
    number >> low_bits
}

/// The number with its lowest bits cleared.
fn cleared(number: u128, low_bits: u8) -> u128
    requires { low_bits ≤ 128 }
    ensures { result ≡ number / 2 ^ low_bits * 2 ^ low_bits }
{
    if low_bits == 128 {
        return 0;
    }
    number >> low_bits << low_bits
}

impl Prefix {
    /// The prefix of an address, its host bits cleared, or None exactly where the length is too large.
    pub fn new(addr: Addr, length: u8) -> Option<Prefix>
        ensures some { length ≤ width addr.family → result ≡ Some (prefix_of addr.family addr.number length) }
        ensures none { width addr.family < length → result ≡ None }
    {
        let width = addr.family.width();
        if width < length {
            return None;
        }
        Some(Prefix {
            family: addr.family,
            number: cleared(addr.number, width - length),
            length,
        })
    }

    /// The family of its addresses.
    pub fn family(&self) -> Family
        ensures value { result ≡ self.now.family }
        ensures valid { IsPrefix self.now }
    {
        self.family
    }

    /// The number of its lowest address, whose host bits are zero.
    pub fn number(&self) -> u128
        ensures value { result ≡ self.now.number }
        ensures valid { IsPrefix self.now }
    {
        self.number
    }

    /// How many leading bits its addresses share: at most 32 or 128.
    pub fn length(&self) -> u8
        ensures value { result ≡ self.now.length }
        ensures valid { IsPrefix self.now }
    {
        self.length
    }

    /// How many bits follow the leading ones.
    pub(crate) fn host_bits(&self) -> u8
        ensures value { result ≡ width self.now.family - self.now.length }
        ensures within { result ≤ 128 }
    {
        self.family.width() - self.length
    }
}
