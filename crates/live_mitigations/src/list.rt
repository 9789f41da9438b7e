//! The live mitigations of one domain.

ghost use Rattle.std.specs.Prelude.{◌≡◌, ◌≤◌, ◌++◌, ◌∷◌, ◌==◌, ◌&&◌, [], None, length, map, option_copied, slice_get, IfOk, vec_capacity};
ghost use Rattle.std.specs.List.{list_any, position, position_or_len};
ghost use Rattle.dots_history.specs.Rows.{triggers, waits};
ghost use Rattle.dots_history.specs.Tables.{bare};
ghost use Rattle.dots_history.specs.Views.{mitigations_at, mitigations_with};
ghost use Rattle.live_mitigations.specs.Ends.{never, first_end};
ghost use Rattle.dots_history.specs.Slots.{Rises};
ghost use Rattle.dots_history.specs.KeptPlaces.{union};
ghost use Rattle.live_mitigations.specs.Rows.{aged, noted, grown, moved_all, of_entry};
ghost use Rattle.live_mitigations.specs.LiveRows.{mitigations_in, slots_in, row_moved};
ghost use Rattle.live_mitigations.specs.Slots.{put_in, slots_at, slots_left, slots_first};
ghost use Rattle.live_mitigations.specs.declared.slots.MitigationSlots.{MitigationSlots};
ghost use Rattle.live_mitigations.specs.declared.live_row.LiveRow.{LiveRow};
ghost use Rattle.live_mitigations.specs.Numbers.{numbers_in, renumbered, table_renumbered};

use crate::live_row::LiveRow;
use crate::row::Row;
use crate::slotting::{put_numbers, renumber};
use dots_history::{Entry, SlotList};
use dots_lists::NoMemory;
use std::alloc::Global;
use std::marker::Model;

/// The live mitigations of one domain, in order of their entries, and room for a number of them.
#[derive(Drop)]
pub(crate) struct LiveList {
    rows: Vec<LiveRow>,
    room: usize,
}

impl Model for LiveList {
    ghost use Rattle.std.specs.Prelude.{◌≤◌, vec_capacity};
    ghost use Rattle.live_mitigations.specs.Rows.{LiveTable};
    ghost use Rattle.live_mitigations.specs.LiveRows.{mitigations_in, slots_in};

    ghost Value = { LiveTable };

    ghost view = { λ list. record { room = list.room; rows = mitigations_in list.rows.items; slots = slots_in list.rows.items } };

    ghost invariant = { λ list. list.room ≤ vec_capacity list.rows };
}

impl LiveList {
    /// None, and room for so many.
    pub fn new(alloc: Global, room: usize) -> Result<Self, NoMemory>
        ensures { IfOk result (λ list. list ≡ record { room = room; rows = []; slots = [] }) }
    {
        Ok(LiveList {
            rows: Vec::with_capacity(alloc, room)?,
            room,
        })
    }

    /// Those that are there.
    pub fn rows(&self) -> &[LiveRow]
        ensures { mitigations_in result.now ≡ self.now.rows }
    {
        self.rows.as_slice()
    }

    /// Whether one of them has this peer and filters at once.
    pub fn triggers(&self, peer: u32) -> bool
        ensures { result ≡ list_any (λ m. (m.put.peer == peer) && triggers m.put.change) self.now.rows }
    {
        self.rows.iter().any(|row| row.mitigation.peer() == peer && row.mitigation.triggers())
    }

    /// Whether one of them has this peer and waits for a lost signal.
    pub fn waits(&self, peer: u32) -> bool
        ensures { result ≡ list_any (λ m. (m.put.peer == peer) && waits m.put.change) self.now.rows }
    {
        self.rows.iter().any(|row| row.mitigation.peer() == peer && row.mitigation.waits())
    }

    /// Takes those out that are over.
    pub fn expire(&mut self, now: u64)
        ensures { self.new ≡ aged now self.old }
    {
        retain_live(&mut self.rows, now);
    }

    /// Does to each what the entry in this slot does, and takes those out that are then over.
    pub fn note(&mut self, entry: &Entry, slot: u32)
        ensures { self.new ≡ noted (record { entry = entry.now; slot = slot }) self.old }
    {
        move_rows(&mut self.rows, entry, slot);
    }

    /// Does the same, and puts the mitigation of the entry behind them, where it is live.
    #[tactic(auto, using(crate::proofs::Rows::grown_rows))]
    pub fn put(&mut self, entry: Entry, slot: u32)
        requires { length (mitigations_with (bare entry) self.old.rows) ≤ self.old.room }
        ensures { self.new ≡ grown (record { entry = entry; slot = slot }) self.old }
    {
        move_rows(&mut self.rows, &entry, slot);
        push_put(&mut self.rows, entry, slot);
    }

    /// The one whose entry stands in this slot.
    pub fn put_in(&self, slot: u32) -> Option<&Row>
        ensures { option_copied result ≡ put_in slot self.now.rows self.now.slots }
    {
        match row_in(self.rows.as_slice(), slot) {
            Some(row) => Some(&row.mitigation),
            None => None,
        }
    }

    /// Puts the slots of each into the list.
    pub fn put_into(&self, into: &mut SlotList)
        requires { length (union (numbers_in self.now.slots) into.old.items) ≤ into.old.room }
        ensures { into.new ≡ record into.old { items = union (numbers_in self.now.slots) into.old.items } }
    {
        put_slots(self.rows.as_slice(), into);
    }

    /// Gives the slots their new numbers.
    pub fn renumber(&mut self, keep: &[u32])
        requires { Rises keep.now }
        ensures { self.new ≡ table_renumbered keep.now self.old }
    {
        renumber_all(self.rows.as_mut_slice(), keep);
    }

    /// The first second at which one of them is over.
    pub fn due(&self) -> u64
        ensures value { result ≡ first_end self.now.rows }
        ensures most { result ≤ never }
    {
        first_end(self.rows.as_slice())
    }
}

/// The one whose entry stands in this slot.
fn row_in(rows: &[LiveRow], slot: u32) -> Option<&LiveRow>
    ensures { option_copied result ≡ slice_get rows.now (position_or_len (λ (s : MitigationSlots). s.put == slot) (slots_in rows.now)) }
{
    rows.get(place_in(rows, slot))
}

/// The place of the mitigation whose entry stands in this slot; their number where there is none.
fn place_in(rows: &[LiveRow], slot: u32) -> usize
    ensures { result ≡ position_or_len (λ (s : MitigationSlots). s.put == slot) (slots_in rows.now) }
{
    match place_of(rows, slot) {
        Some(place) => place,
        None => rows.len(),
    }
}

fn place_of(rows: &[LiveRow], slot: u32) -> Option<usize>
    ensures { result ≡ position (λ (row : LiveRow). row.slots.put == slot) rows.now }
{
    rows.iter().position(|row| row.slots.put == slot)
}

/// Takes those out that are over at the time t.
fn retain_live(rows: &mut Vec<LiveRow>, t: u64)
    ensures mitigations { mitigations_in rows.new.items ≡ mitigations_at t (mitigations_in rows.old.items) }
    ensures slots { slots_in rows.new.items ≡ slots_at t (mitigations_in rows.old.items) (slots_in rows.old.items) }
    ensures capacity { vec_capacity rows.new ≡ vec_capacity rows.old }
{
    rows.retain(|row| row.mitigation.is_live(t));
}

/// Does to each what the entry in this slot does, and takes those out that are then over.
fn move_rows(rows: &mut Vec<LiveRow>, entry: &Entry, slot: u32)
    ensures mitigations { mitigations_in rows.new.items ≡ moved_all entry.now (mitigations_in rows.old.items) }
    ensures slots { slots_in rows.new.items
        ≡ slots_left (record { entry = entry.now; slot = slot }) (mitigations_in rows.old.items) (slots_in rows.old.items) }
    ensures capacity { vec_capacity rows.new ≡ vec_capacity rows.old }
{
    move_each(rows, entry, slot);
    retain_live(rows, entry.time);
}

fn move_each(rows: &mut Vec<LiveRow>, entry: &Entry, slot: u32)
    ensures items { rows.new.items ≡ map (row_moved (record { entry = entry.now; slot = slot })) rows.old.items }
    ensures capacity { vec_capacity rows.new ≡ vec_capacity rows.old }
{
    move_all(rows.as_mut_slice(), entry, slot);
}

/// Does to each what the entry in this slot does.
fn move_all(rows: &mut [LiveRow], entry: &Entry, slot: u32)
    ensures { rows.new ≡ map (row_moved (record { entry = entry.now; slot = slot })) rows.old }
{
    for row in rows.iter_mut() {
        row.take(entry, slot);
    }
}

/// Puts the mitigation of the entry in this slot behind the others, where it is live at the entry's time.
fn push_put(rows: &mut Vec<LiveRow>, entry: Entry, slot: u32)
    requires { length (mitigations_in rows.old.items ++ of_entry (bare entry)) ≤ vec_capacity rows.old }
    ensures mitigations { mitigations_in rows.new.items ≡ mitigations_in rows.old.items ++ of_entry (bare entry) }
    ensures slots { slots_in rows.new.items ≡ slots_in rows.old.items ++ slots_first (record { entry = entry; slot = slot }) }
    ensures capacity { vec_capacity rows.new ≡ vec_capacity rows.old }
{
    let time = entry.time;
    match LiveRow::of(entry, slot) {
        Some(row) => push_live(rows, row, time),
        None => {}
    }
}

/// Puts the mitigation behind the others, where it is live at the time t.
fn push_live(rows: &mut Vec<LiveRow>, row: LiveRow, t: u64)
    requires { length (mitigations_in rows.old.items ++ mitigations_at t (row.mitigation ∷ [])) ≤ vec_capacity rows.old }
    ensures mitigations { mitigations_in rows.new.items ≡ mitigations_in rows.old.items ++ mitigations_at t (row.mitigation ∷ []) }
    ensures slots { slots_in rows.new.items ≡ slots_in rows.old.items ++ slots_at t (row.mitigation ∷ []) (row.slots ∷ []) }
    ensures capacity { vec_capacity rows.new ≡ vec_capacity rows.old }
{
    if row.mitigation.is_live(t) {
        rows.push_reserved(row);
    }
}

/// Puts the slots of each into the list.
fn put_slots(rows: &[LiveRow], into: &mut SlotList)
    requires { length (union (numbers_in (slots_in rows.now)) into.old.items) ≤ into.old.room }
    ensures { into.new ≡ record into.old { items = union (numbers_in (slots_in rows.now)) into.old.items } }
{
    for row in rows {
        put_numbers(&row.slots, into);
    }
}

/// Gives the slots of each their new numbers.
fn renumber_all(rows: &mut [LiveRow], keep: &[u32])
    requires { Rises keep.now }
    ensures mitigations { mitigations_in rows.new ≡ mitigations_in rows.old }
    ensures slots { slots_in rows.new ≡ map (renumbered keep.now) (slots_in rows.old) }
{
    for row in rows.iter_mut() {
        renumber(&mut row.slots, keep);
    }
}

/// The first second at which one of these is over.
fn first_end(rows: &[LiveRow]) -> u64
    ensures value { result ≡ first_end (mitigations_in rows.now) }
    ensures most { result ≤ never }
{
    let mut first = u64::MAX;
    for row in rows {
        first = first.min(row.mitigation.end());
    }
    first
}
