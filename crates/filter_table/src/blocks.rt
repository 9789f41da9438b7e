//! Rows of a mitigation that stand together, taken out at once.

ghost use Rattle.std.specs.Prelude.{◌≡◌, ◌+◌, ◌≤◌, ◌<◌, ◌++◌, map, length, take, drop, vec_capacity};
ghost use Rattle.std.specs.List.{list_all, AllByRecursion};
ghost use Rattle.filter_table.specs.Rows.{slot_is_of};
ghost use Rattle.filter_table.specs.Blocks.{emptied, slot_of_turn};

use crate::rank::Rank;
use crate::slot_rows::{empty_slot, is_in_slot};
use crate::turn::Turn;
use acl_lists::ScrubRow;

/// The places of the first and of the last of these marks.
pub fn ends_of(marks: &[Rank]) -> Option<(u64, u64)> {
    let first = marks.first()?;
    let last = marks.last()?;
    Some((first.place, last.place))
}

/// Whether the row of each of these turns is one of this mitigation.
pub fn are_of(turns: &[Turn], rows: &[Option<ScrubRow>], domain: u16, cuid: &[u8], mid: u32) -> bool
    ensures { result ≡ list_all (λ turn. slot_is_of domain cuid.now mid rows.now turn.slot) turns.now }
{
    turns
        .iter()
        .all(|turn| is_in_slot(turn.slot, rows, domain, cuid, mid))
}

/// Takes the rows out of the slots of these turns, which are free then.
pub fn empty_run(turns: &[Turn], rows: &mut Vec<Option<ScrubRow>>, free: &mut Vec<u32>)
    requires within { AllByRecursion (λ turn. turn.slot < length rows.old.items) turns.now }
    requires room { length free.old.items + length turns.now ≤ vec_capacity free.old }
    ensures rows { rows.new.items ≡ emptied turns.now rows.old.items }
    ensures free { free.new.items ≡ free.old.items ++ map slot_of_turn turns.now }
    ensures capacity { vec_capacity free.new ≡ vec_capacity free.old }
{
    for turn in turns {
        let _row = empty_slot(rows, turn.slot);
        free.push_reserved(turn.slot);
    }
}

/// Takes the turns from one position to another out, and moves those behind them once.
pub fn cut_turns(turns: &mut Vec<Turn>, start: usize, end: usize)
    requires order { start ≤ end }
    requires within { end ≤ length turns.old.items }
    ensures items { turns.new.items ≡ take start turns.old.items ++ drop end turns.old.items }
    ensures capacity { vec_capacity turns.new ≡ vec_capacity turns.old }
{
    let left = turns.len() - (end - start);
    turn_back(turns.as_mut_slice(), start, end - start);
    turns.truncate(left);
}

/// Moves so many turns from this position on behind all others.
fn turn_back(turns: &mut [Turn], start: usize, count: usize)
    requires { start + count ≤ length turns.old }
    ensures { turns.new ≡ take start turns.old ++ (drop count (drop start turns.old) ++ take count (drop start turns.old)) }
{
    let (_, part) = turns.split_at_mut(start);
    part.rotate_left(count);
}
