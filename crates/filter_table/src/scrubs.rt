//! The rows of mitigations, each in a slot of its own.

ghost use Rattle.std.specs.Prelude.{◌≡◌, ℕ, ◌+◌, ◌<◌, ◌≤◌, ◌^◌, [], None, Some, true, false, map, filter, length, nat_le, nat_lt, not, option_map, IsSome, IfSome, IfNone, IfOk, vec_capacity};
ghost use Rattle.std.specs.List.{prefix_len, position, insert, remove, AllByRecursion};
ghost use Rattle.acl_lists.specs.Fates.{scrubbing_mid};
ghost use Rattle.filter_table.specs.Ranks.{kind_of, ranked, is_of_kind, slot_of};
ghost use Rattle.filter_table.specs.TableRows.{ScrubsValue, scrub_in, with_scrub, AreInstalled, without_mitigation, woken, renumbered, scrub_at_place, place_of_scrub, rank_of, row_of_scrub, active_rows};
ghost use Rattle.filter_table.specs.Laws.{AreInOrder};
ghost use Rattle.filter_table.specs.Sifting.{is_between};
ghost use Rattle.filter_table.specs.Blocks.{stays_outside};
ghost use Rattle.filter_table.specs.Rows.{gathered, place_of_turn, turn_at_place, mark_of, is_turn, IsTied};

use crate::blocks::{are_of, cut_turns, empty_run, ends_of};
use crate::greater::greatest_covered;
use crate::marks::{first_of, mark_of, marks_of, wake_marked};
use crate::placed::number_after;
use crate::rank::{Rank, kind_of};
use crate::ranking::Ranking;
use crate::rows::ScrubRows;
use crate::slot_rows::{all_slots, empty_slot, empty_slots, fill_slot, row_in};
use crate::storing::store_all;
use crate::turn::Turn;
use acl_lists::{Packet, ScrubRow};
use dots_lists::NoMemory;
use ip_scope::Family;
use std::alloc::Global;
use std::marker::Model;

/// The rows by slot, the turns of those that are held, and their ranks.
#[derive(Drop)]
pub struct Scrubs {
    rows: Vec<Option<ScrubRow>>,
    turns: Vec<Turn>,
    /// The slots that no row stands in.
    free: Vec<u32>,
    /// The slots in order of what their rows cover.
    ranking: Ranking,
    /// The slots in order of the domains and mids of their rows.
    marks: Ranking,
    /// The ranks of rows that come at once, before they are put among the others, and their marks.
    new_ranks: Ranking,
    new_marks: Ranking,
    room: usize,
}

impl Model for Scrubs {
    ghost use Rattle.std.specs.Prelude.{◌≡◌, ◌≤◌, vec_capacity};
    ghost use Rattle.filter_table.specs.TableRows.{ScrubsValue};
    ghost use Rattle.filter_table.specs.Rows.{gathered};
    ghost use Rattle.filter_table.specs.Slots.{StandInSlots};

    ghost Value = { ScrubsValue };

    ghost view = { λ scrubs. record { room = scrubs.room; placed = gathered scrubs.rows.items scrubs.turns.items } };

    ghost invariant = { λ scrubs.
        StandInSlots scrubs.room scrubs.rows.items scrubs.turns.items scrubs.free.items scrubs.ranking scrubs.marks
        × (scrubs.room ≤ vec_capacity scrubs.turns)
        × (scrubs.room ≤ vec_capacity scrubs.free)
        × (scrubs.new_ranks.room ≡ scrubs.room)
        × (scrubs.new_marks.room ≡ scrubs.room) };
}

impl Scrubs {
    /// No rows, and room for so many.
    pub fn new(alloc: Global, room: usize) -> Result<Self, NoMemory>
        requires { room < 2 ^ 32 }
        ensures { IfOk result (λ made. made ≡ record { room = room; placed = [] }) }
    {
        Ok(Scrubs {
            rows: empty_slots(alloc, room)?,
            turns: Vec::with_capacity(alloc, room)?,
            free: all_slots(alloc, room as u32)?,
            ranking: Ranking::new(alloc, room)?,
            marks: Ranking::new(alloc, room)?,
            new_ranks: Ranking::new(alloc, room)?,
            new_marks: Ranking::new(alloc, room)?,
            room,
        })
    }

    /// Whether there is room for one more row.
    pub fn has_room(&self) -> bool
        ensures { result ≡ nat_lt (length self.now.placed) self.now.room }
    {
        self.turns.len() < self.room
    }

    /// Puts a row into a free slot, behind those whose place is not greater.
    pub fn install(&mut self, place: u64, row: ScrubRow)
        requires { length self.old.placed < self.old.room }
        ensures { (slot : ℕ) × (slot < self.old.room) × (scrub_in slot self.old.placed ≡ None) × (self.new ≡ record {
          room = self.old.room;
          placed = with_scrub (record { slot = slot; place = place; row = row }) self.old.placed;
        }) }
    {
        let slot = match self.free.pop() {
            Some(slot) => slot,
            None => unreachable!(),
        };
        let at = place_after(place, self.turns.as_slice());
        self.ranking.put(Rank::of(&row.prefix, place, slot));
        self.marks.put(mark_of(&row, place, slot));
        put_turn(&mut self.turns, at, Turn { place, slot });
        fill_slot(&mut self.rows, slot, row);
    }

    /// Puts rows into free slots, each behind those whose place is not greater. The first has this place, and each other the next
    /// one. What stands between their ranks is moved once.
    pub fn install_all(&mut self, place: u64, own: Vec<ScrubRow>)
        requires room { length self.old.placed + length own.items ≤ self.old.room }
        requires places { place + length own.items < 2 ^ 64 }
        ensures room { self.new.room ≡ self.old.room }
        ensures rows { AreInstalled self.old.room place own.items self.old.placed self.new.placed }
    {
        self.new_ranks.clear();
        self.new_marks.clear();
        store_all(
            own,
            place,
            &mut self.rows,
            &mut self.turns,
            &mut self.free,
            &mut self.new_ranks,
            &mut self.new_marks,
        );
        self.ranking.put_all(&self.new_ranks);
        self.marks.put_all(&self.new_marks);
    }

    /// Takes the row whose turn is at this position out.
    fn take_out(&mut self, at: usize)
        requires { at < length self.old.placed }
        ensures { self.new ≡ record { room = self.old.room; placed = remove self.old.placed at } }
    {
        let turn = self.turns.remove(at);
        let row = match empty_slot(&mut self.rows, turn.slot) {
            Some(row) => row,
            None => unreachable!(),
        };
        self.ranking
            .take(&Rank::of(&row.prefix, turn.place, turn.slot));
        self.marks.take(&mark_of(&row, turn.place, turn.slot));
        self.free.push_reserved(turn.slot);
    }

    /// The position of a row of this mitigation.
    fn position_of(&self, domain: u16, cuid: &[u8], mid: u32) -> Option<usize>
        ensures some { IfSome result (λ at. (at < length self.now.placed)
            × (without_mitigation domain cuid.now mid (remove self.now.placed at) ≡ without_mitigation domain cuid.now mid self.now.placed)) }
        ensures none { IfNone result (self.now.placed ≡ without_mitigation domain cuid.now mid self.now.placed) }
    {
        let marks = marks_of(&self.marks, domain, mid);
        let mark = first_of(marks, self.rows.as_slice(), domain, cuid, mid)?;
        turn_at(mark.place, mark.slot, self.turns.as_slice())
    }

    /// Takes a row of this mitigation out, and says whether there was one.
    fn remove_one(&mut self, domain: u16, cuid: &[u8], mid: u32) -> bool
        ensures room { self.new.room ≡ self.old.room }
        ensures others { without_mitigation domain cuid.now mid self.new.placed ≡ without_mitigation domain cuid.now mid self.old.placed }
        ensures fewer { result ≡ true → length self.new.placed < length self.old.placed }
        ensures done { result ≡ false → self.new.placed ≡ without_mitigation domain cuid.now mid self.old.placed }
    {
        match self.position_of(domain, cuid, mid) {
            Some(at) => {
                self.take_out(at);
                true
            }
            None => false,
        }
    }

    /// Takes the rows out whose places are neither below the first number nor above the other. What stands behind them is
    /// moved once.
    fn keep_outside(&mut self, low: u64, high: u64)
        requires { low ≤ high }
        ensures { self.new ≡ record { room = self.old.room; placed = filter (stays_outside low high) self.old.placed } }
    {
        let run = run_between(low, high, self.turns.as_slice());
        empty_run(run, &mut self.rows, &mut self.free);
        cut_between(low, high, &mut self.turns);
        self.ranking.keep_outside(low, high);
        self.marks.keep_outside(low, high);
    }

    /// Whether each row whose place is neither below the first number nor above the other is one of this mitigation.
    fn has_run(&self, low: u64, high: u64, domain: u16, cuid: &[u8], mid: u32) -> bool
        requires { low ≤ high }
        ensures { result ≡ true → without_mitigation domain cuid.now mid (filter (stays_outside low high) self.now.placed) ≡ without_mitigation domain cuid.now mid self.now.placed }
    {
        let run = run_between(low, high, self.turns.as_slice());
        are_of(run, self.rows.as_slice(), domain, cuid, mid)
    }

    /// Takes the rows of this mitigation out at once, where none of another one stands between its first and its last.
    fn remove_block(&mut self, domain: u16, cuid: &[u8], mid: u32)
        ensures room { self.new.room ≡ self.old.room }
        ensures others { without_mitigation domain cuid.now mid self.new.placed ≡ without_mitigation domain cuid.now mid self.old.placed }
    {
        let Some((low, high)) = ends_of(marks_of(&self.marks, domain, mid)) else {
            return;
        };
        if low <= high && self.has_run(low, high, domain, cuid, mid) {
            self.keep_outside(low, high);
        }
    }

    /// Takes each row of this mitigation out.
    pub fn remove(&mut self, domain: u16, cuid: &[u8], mid: u32)
        ensures { self.new ≡ record { room = self.old.room; placed = without_mitigation domain cuid.now mid self.old.placed } }
    {
        self.remove_block(domain, cuid, mid);
        while self.remove_one(domain, cuid, mid) {}
    }

    /// Says of each row of this mitigation whether it is active.
    pub fn wake(&mut self, domain: u16, cuid: &[u8], mid: u32, active: bool)
        ensures { self.new ≡ record { room = self.old.room; placed = map (woken domain cuid.now mid active) self.old.placed } }
    {
        let marks = marks_of(&self.marks, domain, mid);
        wake_marked(marks, &mut self.rows, domain, cuid, mid, active);
    }

    /// Gives the rows places from 0 on in their order, equal places staying equal.
    pub fn renumber(&mut self)
        ensures { self.new ≡ record { room = self.old.room; placed = renumbered place_of_scrub scrub_at_place self.old.placed } }
    {
        renumber_turns(&mut self.turns);
        rank_all(
            &mut self.ranking,
            &mut self.marks,
            self.turns.as_slice(),
            self.rows.as_slice(),
        );
    }

    /// How many rows there are.
    pub fn len(&self) -> usize
        ensures { result ≡ length self.now.placed }
    {
        self.turns.len()
    }

    /// The active rows, in order.
    pub fn active(&self) -> ScrubRows<'_>
        ensures { result ≡ active_rows self.now.placed }
    {
        ScrubRows::of(self.turns.as_slice(), self.rows.as_slice())
    }

    /// The slots of the rows whose prefix has this family and length, in order of the prefix's number and then of place.
    pub fn slots_of(&self, family: Family, length: u8) -> &[u32]
        ensures { result.now ≡ map slot_of (filter (is_of_kind (kind_of family length)) (ranked (map rank_of self.now.placed))) }
    {
        self.ranking.slots_of(kind_of(family, length))
    }

    /// The row of a slot.
    pub fn scrub_at(&self, slot: u32) -> &ScrubRow
        requires { IsSome (scrub_in slot self.now.placed) }
        ensures { option_map row_of_scrub (scrub_in slot self.now.placed) ≡ Some result.now }
    {
        match row_in(slot, self.rows.as_slice()) {
            Some(row) => row,
            None => unreachable!(),
        }
    }

    /// The greatest mid of the active rows that match.
    pub fn greatest_mid(&self, packet: &Packet) -> Option<u32>
        ensures { result ≡ scrubbing_mid packet.now (map row_of_scrub self.now.placed) }
    {
        let covering = self.ranking.covering(packet.destination);
        greatest_covered(covering, self.rows.as_slice(), packet)
    }
}

/// How many turns stand before one that is put in at this place.
pub(crate) fn place_after(place: u64, turns: &[Turn]) -> usize
    requires { AreInOrder place_of_turn turns.now }
    ensures value { result ≡ prefix_len (λ other. nat_le other.place place) turns.now }
    ensures within { result ≤ length turns.now }
{
    turns.partition_point(|other| other.place <= place)
}

/// The position of the turn of this place and slot.
fn turn_at(place: u64, slot: u32, turns: &[Turn]) -> Option<usize>
    requires { AreInOrder place_of_turn turns.now }
    ensures { result ≡ position (is_turn place slot) turns.now }
{
    let before = turns_before(place, turns);
    let (_, rest) = turns.split_at(before);
    let at = first_at(place, slot, rest)?;
    Some(before + at)
}

/// The position of the first turn of this place and slot.
fn first_at(place: u64, slot: u32, turns: &[Turn]) -> Option<usize>
    ensures value { result ≡ position (is_turn place slot) turns.now }
    ensures within { IfSome result (λ at. at < length turns.now) }
{
    turns
        .iter()
        .position(|turn| turn.place == place && turn.slot == slot)
}

/// How many turns have a lower place.
fn turns_before(place: u64, turns: &[Turn]) -> usize
    requires { AreInOrder place_of_turn turns.now }
    ensures value { result ≡ prefix_len (λ other. nat_lt other.place place) turns.now }
    ensures within { result ≤ length turns.now }
{
    turns.partition_point(|other| other.place < place)
}

/// The turns whose places are neither below the first number nor above the other.
fn run_between(low: u64, high: u64, turns: &[Turn]) -> &[Turn]
    requires numbers { low ≤ high }
    requires in_order { AreInOrder place_of_turn turns.now }
    ensures { result.now ≡ filter (λ turn. is_between low high turn.place) turns.now }
{
    let start = turns_before(low, turns);
    let end = place_after(high, turns);
    let (_, rest) = turns.split_at(start);
    let (run, _) = rest.split_at(end - start);
    run
}

/// Takes those turns out.
fn cut_between(low: u64, high: u64, turns: &mut Vec<Turn>)
    requires numbers { low ≤ high }
    requires in_order { AreInOrder place_of_turn turns.old.items }
    ensures items { turns.new.items ≡ filter (λ turn. not (is_between low high turn.place)) turns.old.items }
    ensures capacity { vec_capacity turns.new ≡ vec_capacity turns.old }
{
    let start = turns_before(low, turns.as_slice());
    let end = place_after(high, turns.as_slice());
    cut_turns(turns, start, end);
}

/// Puts a turn in at this position, for which there is room.
pub(crate) fn put_turn(turns: &mut Vec<Turn>, at: usize, turn: Turn)
    requires within { at ≤ length turns.old.items }
    requires room { length turns.old.items < vec_capacity turns.old }
    ensures items { turns.new.items ≡ insert turns.old.items at turn }
    ensures capacity { vec_capacity turns.new ≡ vec_capacity turns.old }
{
    let _room_was_reserved = turns.insert(at, turn);
}

fn renumber_turns(turns: &mut Vec<Turn>)
    ensures items { turns.new.items ≡ renumbered place_of_turn turn_at_place turns.old.items }
    ensures capacity { vec_capacity turns.new ≡ vec_capacity turns.old }
{
    renumber_all(turns.as_mut_slice());
}

fn renumber_all(turns: &mut [Turn])
    ensures { turns.new ≡ renumbered place_of_turn turn_at_place turns.old }
{
    let Some(first) = turns.first() else {
        return;
    };
    let mut last = first.place;
    let mut number = 0;
    for turn in turns.iter_mut() {
        let place = turn.place;
        number = number_after(last, number, place);
        last = place;
        turn.place = number;
    }
}

/// Ranks the rows of these turns and no others, by prefix and by mitigation.
fn rank_all(ranking: &mut Ranking, marks: &mut Ranking, turns: &[Turn], rows: &[Option<ScrubRow>])
    requires tied { AllByRecursion (IsTied rows.now) turns.now }
    requires room { length turns.now ≤ ranking.old.room }
    requires marks_room { length turns.now ≤ marks.old.room }
    ensures ranking { ranking.new ≡ record { room = ranking.old.room; ranks = ranked (map rank_of (gathered rows.now turns.now)) } }
    ensures marks { marks.new ≡ record { room = marks.old.room; ranks = ranked (map mark_of (gathered rows.now turns.now)) } }
{
    ranking.clear();
    marks.clear();
    for turn in turns {
        let row = match row_in(turn.slot, rows) {
            Some(row) => row,
            None => unreachable!(),
        };
        ranking.put(Rank::of(&row.prefix, turn.place, turn.slot));
        marks.put(mark_of(row, turn.place, turn.slot));
    }
}
