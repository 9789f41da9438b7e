//! Rows that come at once.

ghost use Rattle.std.specs.Prelude.{◌≡◌, ◌+◌, ◌<◌, ◌≤◌, ◌^◌, [], length, vec_capacity};
ghost use Rattle.filter_table.specs.Storing.{AreStored, IsStored, BecomeRows};

use crate::marks::mark_of;
use crate::rank::Rank;
use crate::ranking::Ranking;
use crate::scrubs::{place_after, put_turn};
use crate::slot_rows::fill_slot;
use crate::turn::Turn;
use acl_lists::ScrubRow;

/// Puts a row into a free slot, and its turn behind those whose place is not greater. Its rank and its mark are put among the
/// others that come.
fn store_one(
    row: ScrubRow,
    place: u64,
    rows: &mut Vec<Option<ScrubRow>>,
    turns: &mut Vec<Turn>,
    free: &mut Vec<u32>,
    ranks: &mut Ranking,
    marks: &mut Ranking,
)
    requires stand { AreStored rows.old.items turns.old.items free.old.items }
    requires some { 0 < length free.old.items }
    requires room { length rows.old.items ≤ vec_capacity turns.old }
    requires ranks_room { length ranks.old.ranks < ranks.old.room }
    requires marks_room { length marks.old.ranks < marks.old.room }
    ensures stored { IsStored place row rows.old.items rows.new.items turns.old.items turns.new.items free.old.items free.new.items ranks.old.ranks ranks.new.ranks marks.old.ranks marks.new.ranks }
    ensures turns_capacity { vec_capacity turns.new ≡ vec_capacity turns.old }
    ensures free_capacity { vec_capacity free.new ≡ vec_capacity free.old }
    ensures ranks_same { ranks.new.room ≡ ranks.old.room }
    ensures marks_same { marks.new.room ≡ marks.old.room }
{
    let slot = match free.pop() {
        Some(slot) => slot,
        None => unreachable!(),
    };
    let at = place_after(place, turns.as_slice());
    ranks.put(Rank::of(&row.prefix, place, slot));
    marks.put(mark_of(&row, place, slot));
    put_turn(turns, at, Turn { place, slot });
    fill_slot(rows, slot, row);
}

/// Puts rows into free slots, the first at this place and each other at the next one. Their ranks and marks are put where there
/// are none.
pub fn store_all(
    own: Vec<ScrubRow>,
    place: u64,
    rows: &mut Vec<Option<ScrubRow>>,
    turns: &mut Vec<Turn>,
    free: &mut Vec<u32>,
    ranks: &mut Ranking,
    marks: &mut Ranking,
)
    requires stand { AreStored rows.old.items turns.old.items free.old.items }
    requires enough { length own.items ≤ length free.old.items }
    requires places { place + length own.items < 2 ^ 64 }
    requires room { length rows.old.items ≤ vec_capacity turns.old }
    requires no_ranks { ranks.old.ranks ≡ [] }
    requires no_marks { marks.old.ranks ≡ [] }
    requires ranks_room { length own.items ≤ ranks.old.room }
    requires marks_room { length own.items ≤ marks.old.room }
    ensures stored { BecomeRows place own.items rows.old.items rows.new.items turns.old.items turns.new.items free.old.items free.new.items ranks.new.ranks marks.new.ranks }
    ensures turns_capacity { vec_capacity turns.new ≡ vec_capacity turns.old }
    ensures free_capacity { vec_capacity free.new ≡ vec_capacity free.old }
    ensures ranks_same { ranks.new.room ≡ ranks.old.room }
    ensures marks_same { marks.new.room ≡ marks.old.room }
{
    let mut next = place;
    for row in own {
        store_one(row, next, rows, turns, free, ranks, marks);
        next += 1;
    }
}
