//! The rows of all that is held.

ghost use Rattle.std.specs.Prelude.{◌≡◌, ◌≤◌, ◌++◌, [], not, filter, length, map, option_to_list, vec_capacity, IfOk};
ghost use Rattle.dots_history.specs.Slots.{Rises, number_in};
ghost use Rattle.dots_history.specs.KeptPlaces.{union};
ghost use Rattle.dots_history.specs.Fits.{is_of_mitigations};
ghost use Rattle.held_resources.specs.Rows.{row_of, rows_with, is_undone, slots_in, renumbered};

use crate::row::{HeldSlot, is_undone, row_of};
use dots_history::{Change, Entry, SlotList, is_of_mitigations, number_in};
use dots_lists::NoMemory;
use std::alloc::Global;
use std::marker::Model;

/// The slots of the entries that wrote what is held, in order of writing, and room for a number of them.
#[derive(Drop)]
pub struct HeldSlots {
    rows: Vec<HeldSlot>,
    room: usize,
}

impl Model for HeldSlots {
    ghost use Rattle.std.specs.Prelude.{◌≤◌, vec_capacity};
    ghost use Rattle.held_resources.specs.Rows.{HeldRows};

    ghost Value = { HeldRows };

    ghost view = { λ slots. record { room = slots.room; rows = slots.rows.items } };

    ghost invariant = { λ slots. slots.room ≤ vec_capacity slots.rows };
}

impl HeldSlots {
    /// None, and room for so many. This is the only call that takes memory.
    pub fn new(alloc: Global, room: usize) -> Result<Self, NoMemory>
        ensures { IfOk result (λ slots. slots ≡ record { room = room; rows = [] }) }
    {
        Ok(HeldSlots {
            rows: Vec::with_capacity(alloc, room)?,
            room,
        })
    }

    /// Takes an entry in a slot: what it undoes goes, and what it writes comes last, for which there is room. Its cuid has at most 64
    /// bytes.
    pub fn take(&mut self, entry: &Entry, slot: u32)
        requires name { length entry.now.cuid ≤ 64 }
        requires room { length (rows_with (record { entry = entry.now; slot = slot }) self.old.rows) ≤ self.old.room }
        ensures { self.new ≡ record { room = self.old.room; rows = rows_with (record { entry = entry.now; slot = slot }) self.old.rows } }
    {
        remove_undone(&mut self.rows, entry);
        push_written(&mut self.rows, entry, slot);
    }

    /// Puts each slot into the list, which has room for them.
    pub fn slots(&self, into: &mut SlotList)
        requires { length (union (slots_in self.now.rows) into.old.items) ≤ into.old.room }
        ensures { into.new ≡ record into.old { items = union (slots_in self.now.rows) into.old.items } }
    {
        put_slots(self.rows.as_slice(), into);
    }

    /// Gives the slots new numbers: the slot `keep[i]` becomes the slot `i`, and one that isn't in `keep` stays.
    pub fn moved(&mut self, keep: &[u32])
        requires { Rises keep.now }
        ensures { self.new ≡ record { room = self.old.room; rows = map (renumbered keep.now) self.old.rows } }
    {
        renumber(&mut self.rows, keep);
    }
}

/// Takes out what the entry undoes.
fn remove_undone(rows: &mut Vec<HeldSlot>, entry: &Entry)
    ensures items { rows.new.items ≡ filter (λ row. not (is_undone row entry.now)) rows.old.items }
    ensures capacity { vec_capacity rows.new ≡ vec_capacity rows.old }
{
    if is_of_mitigations(&entry.change) {
        return;
    }
    remove_each(rows, entry);
}

/// The same, looking at each row.
fn remove_each(rows: &mut Vec<HeldSlot>, entry: &Entry)
    ensures items { rows.new.items ≡ filter (λ row. not (is_undone row entry.now)) rows.old.items }
    ensures capacity { vec_capacity rows.new ≡ vec_capacity rows.old }
{
    rows.retain(|row| !is_undone(row, entry));
}

/// Puts what the entry writes behind the others.
fn push_written(rows: &mut Vec<HeldSlot>, entry: &Entry, slot: u32)
    requires name { length entry.now.cuid ≤ 64 }
    requires room { length (rows.old.items ++ option_to_list (row_of (record { entry = entry.now; slot = slot }))) ≤ vec_capacity rows.old }
    ensures items { rows.new.items ≡ rows.old.items ++ option_to_list (row_of (record { entry = entry.now; slot = slot })) }
    ensures capacity { vec_capacity rows.new ≡ vec_capacity rows.old }
{
    if let Some(row) = row_of(entry, slot) {
        rows.push_reserved(row);
    }
}

/// Puts each slot into the list.
fn put_slots(rows: &[HeldSlot], into: &mut SlotList)
    requires { length (union (slots_in rows.now) into.old.items) ≤ into.old.room }
    ensures { into.new ≡ record into.old { items = union (slots_in rows.now) into.old.items } }
{
    for row in rows {
        into.put(row.slot);
    }
}

fn renumber(rows: &mut Vec<HeldSlot>, keep: &[u32])
    requires { Rises keep.now }
    ensures items { rows.new.items ≡ map (renumbered keep.now) rows.old.items }
    ensures capacity { vec_capacity rows.new ≡ vec_capacity rows.old }
{
    renumber_all(rows.as_mut_slice(), keep);
}

fn renumber_all(rows: &mut [HeldSlot], keep: &[u32])
    requires { Rises keep.now }
    ensures { rows.new ≡ map (renumbered keep.now) rows.old }
{
    for row in rows.iter_mut() {
        renumber_one(row, keep);
    }
}

fn renumber_one(row: &mut HeldSlot, keep: &[u32])
    requires { Rises keep.now }
    ensures { row.new ≡ renumbered keep.now row.old }
{
    row.slot = number_in(keep, row.slot);
}
