//! The entries of the half in use.

ghost use Rattle.std.specs.Prelude.{◌≡◌, ℕ, ◌+◌, ◌%◌, ◌<◌, ◌≤◌, length, IfOk, IfErr, OnOk};
ghost use Rattle.std.specs.List.{AllByRecursion};
ghost use Rattle.dots_host.specs.Becoming.{KeepsMedia};
ghost use Rattle.slot_journal.specs.Layout.{record_bytes};
ghost use Rattle.slot_store.specs.Layout.{needed_of, IsSlot, IsHalf};
ghost use Rattle.slot_store.specs.Gates.{Sees};
ghost use Rattle.slot_store.specs.Refusing.{IsCount};
ghost use Rattle.slot_journal.specs.DiskEntries.{HasRecord, records_of};
ghost use Rattle.slot_journal.specs.Refused.{IsNoRecord, IsNoSize, IsNoWant, RefusesSlot, RefusesRest, RefusesHalf, HasFirst, AreClosed, Caused};

use crate::entries::EntryList;
use crate::fault::JournalFault;
use crate::record_fault::EntryFault;
use crate::record_reading::entry_of;
use dots_history::Entry;
use dots_host::{Disk, Failed};
use slot_store::{Format, SLOT, SlotStore, Wanted, find_gate, read_slot};
use std::alloc::Global;

/// The entry whose record in this format the bytes are, which were read of the slot at the place.
fn entry_in(alloc: Global, bytes: &[u8], format: Format, at: u64) -> Result<Entry, JournalFault>
    ensures entry { IfOk result (λ entry. HasRecord entry × (bytes.now ≡ record_bytes format entry)) }
    ensures refused { IfErr result (λ fault. IsNoRecord format bytes.now at fault) }
    ensures sized { IfErr result IsNoSize }
{
    match entry_of(alloc, bytes, format) {
        Ok(entry) => return Ok(entry),
        Err(EntryFault::NotEntry { .. }) => return Err(JournalFault::NotOurs { at }),
        Err(EntryFault::NoMemory) => return Err(JournalFault::NoMemory),
    }
}

/// Reads the entry of the slot at the place, whose gate is open and whose record is of this format.
fn read_entry<D: Disk>(
    alloc: Global,
    disk: &mut D,
    format: Format,
    at: u64,
) -> Result<Entry, JournalFault>
    requires { at + 8192 ≤ D.extent disk.old }
    ensures record { IfOk result HasRecord }
    ensures entry { IfOk result (λ entry. (seen : ℕ → ℕ) → Sees (D.media disk.old) seen → seen at ≡ 165 → IsSlot seen at (record_bytes format entry)) }
    ensures refused { IfErr result (λ fault. (seen : ℕ → ℕ) → Sees (D.media disk.old) seen → RefusesSlot format seen at fault) }
    ensures sized { IfErr result IsNoSize }
    ensures keeps { KeepsMedia (D.media disk.old) (D.media disk.new) }
    ensures extent { D.extent disk.new ≡ D.extent disk.old }
    ensures cause { Caused (D.faults disk.old) (D.faults disk.new) result }
    ensures beside { D.beside disk.old disk.new }
{
    let mut room = [0; SLOT];
    match read_slot(disk, at, &mut room) {
        Ok(Some(len)) => return entry_in(alloc, &room[3..3 + len], format, at),
        Ok(None) => return Err(JournalFault::NotOurs { at }),
        Err(Failed) => return Err(JournalFault::DiskFault),
    }
}

/// Reads the entries of the slots of the half in use, as many as have an open gate before the first that has none.
fn read_entries<D: Disk>(
    alloc: Global,
    disk: &mut D,
    store: &SlotStore,
) -> Result<EntryList, JournalFault>
    requires size { needed_of store.now.slots ≤ D.extent disk.old }
    ensures count { IfOk result (λ entries. length entries ≡ store.now.used) }
    ensures each { IfOk result (AllByRecursion HasRecord) }
    ensures entries { IfOk result (λ entries. (seen : ℕ → ℕ) → Sees (D.media disk.old) seen →
        IsCount store.now.slots (store.now.selector % 2) seen store.now.used →
        HasFirst store.now.slots (store.now.selector % 2) store.now.format seen entries) }
    ensures refused { IfErr result (λ fault. (seen : ℕ → ℕ) → Sees (D.media disk.old) seen →
        IsCount store.now.slots (store.now.selector % 2) seen store.now.used →
        RefusesHalf store.now.slots (store.now.selector % 2) store.now.format seen fault) }
    ensures sized { IfErr result IsNoSize }
    ensures some { IfErr result (λ fault. 0 < store.now.used) }
    ensures keeps { KeepsMedia (D.media disk.old) (D.media disk.new) }
    ensures extent { D.extent disk.new ≡ D.extent disk.old }
    ensures cause { Caused (D.faults disk.old) (D.faults disk.new) result }
    ensures beside { D.beside disk.old disk.new }
{
    let mut entries = EntryList::new(alloc);
    for slot in 0..store.used() {
        let entry = read_entry(alloc, disk, store.format(), store.place(slot))?;
        entries.push(entry)?;
    }
    Ok(entries)
}

/// Refuses a half of which a slot behind those of the entries has an open gate.
fn check_rest<D: Disk>(disk: &mut D, store: &SlotStore) -> Result<(), JournalFault>
    requires size { needed_of store.now.slots ≤ D.extent disk.old }
    ensures closed { OnOk result ((seen : ℕ → ℕ) → Sees (D.media disk.old) seen →
        AreClosed store.now.slots (store.now.selector % 2) seen store.now.used store.now.slots) }
    ensures refused { IfErr result (λ fault. (seen : ℕ → ℕ) → Sees (D.media disk.old) seen →
        RefusesRest store.now.slots (store.now.selector % 2) seen store.now.used fault) }
    ensures sized { IfErr result IsNoSize }
    ensures memory { IfErr result IsNoWant }
    ensures keeps { KeepsMedia (D.media disk.old) (D.media disk.new) }
    ensures extent { D.extent disk.new ≡ D.extent disk.old }
    ensures cause { Caused (D.faults disk.old) (D.faults disk.new) result }
    ensures beside { D.beside disk.old disk.new }
{
    let used = store.used();
    let slots = store.slots();
    if used == slots {
        return Ok(());
    }
    let first = store.place(0);
    match find_gate(disk, first, u64::from(used), u64::from(slots), Wanted::Open) {
        Ok(None) => return Ok(()),
        Ok(Some(slot)) => {
            let at = store.place(slot as u32);
            return Err(JournalFault::NotOurs { at });
        }
        Err(Failed) => return Err(JournalFault::DiskFault),
    }
}

/// Reads the entries of the half in use, and refuses a half that holds anything else.
pub fn read_half<D: Disk>(
    alloc: Global,
    disk: &mut D,
    store: &SlotStore,
) -> Result<EntryList, JournalFault>
    requires size { needed_of store.now.slots ≤ D.extent disk.old }
    ensures count { IfOk result (λ entries. length entries ≡ store.now.used) }
    ensures each { IfOk result (AllByRecursion HasRecord) }
    ensures half { IfOk result (λ entries. (seen : ℕ → ℕ) → Sees (D.media disk.old) seen →
        IsCount store.now.slots (store.now.selector % 2) seen store.now.used →
        IsHalf store.now.slots (store.now.selector % 2) seen (records_of store.now.format entries)) }
    ensures refused { IfErr result (λ fault. (seen : ℕ → ℕ) → Sees (D.media disk.old) seen →
        IsCount store.now.slots (store.now.selector % 2) seen store.now.used →
        RefusesHalf store.now.slots (store.now.selector % 2) store.now.format seen fault) }
    ensures sized { IfErr result IsNoSize }
    ensures some { IfErr result (λ fault. fault ≡ JournalFault.NoMemory → 0 < store.now.used) }
    ensures keeps { KeepsMedia (D.media disk.old) (D.media disk.new) }
    ensures extent { D.extent disk.new ≡ D.extent disk.old }
    ensures cause { Caused (D.faults disk.old) (D.faults disk.new) result }
    ensures beside { D.beside disk.old disk.new }
{
    let entries = read_entries(alloc, disk, store)?;
    check_rest(disk, store)?;
    Ok(entries)
}
