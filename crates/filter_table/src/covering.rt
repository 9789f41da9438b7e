//! The slots of the prefixes that an address lies in.

ghost use Rattle.std.specs.Prelude.{◌≡◌, ◌+◌, ◌<◌, ◌≤◌, ◌^◌, [], ◌++◌, map, filter, length, IfNone, IfSome};
ghost use Rattle.std.specs.List.{AllByRecursion};
ghost use Rattle.ip_scope.specs.Family.{width};
ghost use Rattle.filter_table.specs.Ranks.{slot_of};
ghost use Rattle.filter_table.specs.Numbers.{low_of};
ghost use Rattle.filter_table.specs.RankLaws.{AreRanked};
ghost use Rattle.filter_table.specs.Levels.{levels_of};
ghost use Rattle.filter_table.specs.Beside.{StandBeside};
ghost use Rattle.filter_table.specs.Covers.{cleared, covers, IsShort, CoveringValue};

use crate::finding::{slots_of_long_number, slots_of_number};
use crate::level::Level;
use crate::rank::Rank;
use ip_scope::{Addr, Family};
use std::marker::Model;

/// The slots of the ranks that cover an address, length by length.
#[derive(Drop)]
pub struct Covering<'a> {
    address: Addr,
    levels: &'a [Level],
    ranks: &'a [Rank],
    numbers: &'a [u64],
    slots: &'a [u32],
}

impl<'a> Model for Covering<'a> {
    ghost use Rattle.std.specs.Prelude.{◌<◌, ◌^◌, map, filter, length};
    ghost use Rattle.std.specs.List.{AllByRecursion};
    ghost use Rattle.ip_scope.specs.Family.{width};
    ghost use Rattle.filter_table.specs.Ranks.{slot_of};
    ghost use Rattle.filter_table.specs.Beside.{StandBeside};
    ghost use Rattle.filter_table.specs.Covers.{covers, IsShort, CoveringValue};

    ghost Value = { CoveringValue };

    ghost view = { λ covering. record {
      levels = length covering.levels.now;
      slots = map slot_of (filter (covers covering.address.family covering.address.number) covering.ranks.now);
    } };

    ghost invariant = { λ covering.
        StandBeside covering.ranks.now covering.numbers.now covering.slots.now covering.levels.now
        × AllByRecursion IsShort covering.ranks.now
        × (covering.address.number < 2 ^ width covering.address.family) };
}

impl<'a> Covering<'a> {
    /// Of these ranks, and what stands beside them.
    pub(crate) fn new(
        address: Addr,
        levels: &'a [Level],
        ranks: &'a [Rank],
        numbers: &'a [u64],
        slots: &'a [u32],
    ) -> Covering<'a>
        requires beside { StandBeside ranks.now numbers.now slots.now levels.now }
        requires short { AllByRecursion IsShort ranks.now }
        ensures { result ≡ record {
          levels = length (levels_of ranks.now);
          slots = map slot_of (filter (covers address.family address.number) ranks.now);
        } }
    {
        Covering {
            address,
            levels,
            ranks,
            numbers,
            slots,
        }
    }

    /// The slots of the next length, of which there may be none; and None where no length is left.
    #[inline(always)]
    pub fn next(&mut self) -> Option<&'a [u32]>
        ensures none { IfNone result (self.old.slots ≡ []) }
        ensures some { IfSome result (λ found. self.old.slots ≡ found.now ++ self.new.slots) }
        ensures fewer { IfSome result (λ found. self.new.levels < self.old.levels) }
    {
        let (level, levels) = self.levels.split_first()?;
        let (ranks, later_ranks) = self.ranks.split_at(level.len);
        let (numbers, later_numbers) = self.numbers.split_at(level.len);
        let (slots, later_slots) = self.slots.split_at(level.len);
        self.levels = levels;
        self.ranks = later_ranks;
        self.numbers = later_numbers;
        self.slots = later_slots;
        Some(slots_covering(self.address, level.kind, ranks, numbers, slots))
    }
}

/// The slots of the ranks that cover the address, where all are of this kind.
#[inline(always)]
fn slots_covering<'a>(
    address: Addr,
    kind: u16,
    ranks: &[Rank],
    numbers: &[u64],
    slots: &'a [u32],
) -> &'a [u32]
    requires in_order { AreRanked ranks.now }
    requires of_kind { AllByRecursion (λ rank. rank.kind ≡ kind) ranks.now }
    requires short { AllByRecursion IsShort ranks.now }
    requires numbers { numbers.now ≡ map low_of ranks.now }
    requires slots { slots.now ≡ map slot_of ranks.now }
    ensures { result.now ≡ map slot_of (filter (covers address.family address.number) ranks.now) }
{
    match address.family {
        Family::V4 => {
            if 256 <= kind {
                return &[];
            }
            let number = clear_short(address.number as u64, 32u16.saturating_sub(kind));
            slots_of_number(number, numbers, slots)
        }
        Family::V6 => {
            if kind < 256 {
                return &[];
            }
            let number = clear_long(address.number, 384u16.saturating_sub(kind));
            slots_of_long_number(number, ranks, slots)
        }
    }
}

/// The number with its lowest bits cleared.
#[inline(always)]
fn clear_short(number: u64, low_bits: u16) -> u64
    requires { low_bits < 64 }
    ensures value { result ≡ cleared number low_bits }
    ensures within { result ≤ number }
{
    number >> low_bits << low_bits
}

/// The number with its lowest bits cleared.
fn clear_long(number: u128, low_bits: u16) -> u128
    requires { low_bits ≤ 128 }
    ensures { result ≡ cleared number low_bits }
{
    if low_bits == 128 {
        return 0;
    }
    number >> low_bits << low_bits
}
