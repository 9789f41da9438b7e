//! Where something stands among the others.

ghost use Rattle.std.specs.Prelude.{◌≡◌, ◌%◌, ◌^◌};
ghost use Rattle.ip_scope.specs.Prefix.{IsPrefix};
ghost use Rattle.filter_table.specs.Ranks.{kind_of, rank_of, is_before, before_by};
ghost use Rattle.filter_table.specs.Numbers.{low_of};

use ip_scope::{Family, Prefix};

/// What an order of prefixes looks at: the kind, and where it is the same the number, then the place and the slot. Other things with a kind and a number may stand in an
/// order of their own.
#[derive(Clone, Copy, Drop)]
pub struct Rank {
    /// Of a prefix its number.
    pub number: u128,
    /// Where it stands among those of its number.
    pub place: u64,
    /// What it stands for. No two have the same.
    pub slot: u32,
    /// Of a prefix its family and length, as one number. It decides first.
    pub kind: u16,
}

/// The family and length of a prefix as one number: those of IPv4 come first, and then the shorter ones.
pub fn kind_of(family: Family, length: u8) -> u16
    ensures { result ≡ kind_of family length }
{
    match family {
        Family::V4 => u16::from(length),
        Family::V6 => 256 + u16::from(length),
    }
}

impl Rank {
    /// The rank of a prefix.
    pub fn of(prefix: &Prefix, place: u64, slot: u32) -> Rank
        ensures value { result ≡ rank_of prefix.now place slot }
        ensures valid { IsPrefix prefix.now }
    {
        Rank {
            kind: kind_of(prefix.family(), prefix.length()),
            number: prefix.number(),
            place,
            slot,
        }
    }

    /// Whether this rank comes before the other.
    pub fn is_before(&self, other: &Rank) -> bool
        ensures { result ≡ is_before self.now other.now }
    {
        before_by(
            u128::from(self.kind),
            u128::from(other.kind),
            before_by(
                self.number,
                other.number,
                before_by(
                    u128::from(self.place),
                    u128::from(other.place),
                    self.slot < other.slot,
                ),
            ),
        )
    }

    /// The lower half of its number: the whole number of a prefix of IPv4.
    pub(crate) fn low_number(&self) -> u64
        ensures { result ≡ low_of self.now }
    {
        (self.number % (1 << 64)) as u64
    }
}

/// Whether the first number is less, or they are equal and what follows comes before.
fn before_by(number: u128, other: u128, next: bool) -> bool
    ensures { result ≡ before_by number other next }
{
    number < other || (number == other && next)
}
