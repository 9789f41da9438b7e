//! The entries of a journal in lines.

ghost use Rattle.std.specs.Prelude.{◌≡◌, ◌+◌, ◌<◌, ◌≤◌, ◌^◌, ◌++◌, ℕ, List, length, IfOk, OnOk};
ghost use Rattle.slot_store.specs.Gates.{Sees};
ghost use Rattle.slot_store.specs.Layout.{needed_of};
ghost use Rattle.dots_script.specs.declared.checked.Checked.TheVariants as checked;
ghost use Rattle.host_checks.specs.EntryLines.{entry_lines};
ghost use Rattle.host_checks.specs.Listings.{listed_with, ListsJournal};

use crate::entry_line::add_entry;
use crate::journal_state::add_refused;
use dots_history::Entry;
use dots_host::Disk;
use dots_lists::{Bytes, NoMemory};
use dots_script::Checked;
use dots_settings::Settings;
use slot_journal::{EntryFault, EntryList, Journal, JournalFault, entry_of, slots};
use slot_store::{Format, SLOT, SlotStore, read_slot};
use std::alloc::Global;

/// The lines of the entries that the journal of a disk holds under these settings, in the order of its slots. Where a server refuses the
/// journal, the lines of what can be read of it, and behind them why it is refused. Over a disk that refuses each write nothing is written.
pub fn list_journal<D: Disk>(
    alloc: Global,
    disk: &mut D,
    settings: &Settings,
) -> Result<Checked, NoMemory>
    ensures { IfOk result (λ told. (seen : ℕ → ℕ) → Sees (D.media disk.old) seen → ListsJournal settings.now (D.extent disk.old) seen told) }
{
    match Journal::recover(alloc, disk, settings) {
        Ok((_journal, entries)) => list_all(alloc, settings, entries.items()),
        Err(JournalFault::NoMemory) => Err(NoMemory),
        Err(fault) => {
            let entries = readable(alloc, disk, settings)?;
            list_before(alloc, settings, entries.items(), fault)
        }
    }
}

/// The lines of these entries.
fn list_all(alloc: Global, settings: &Settings, entries: &[Entry]) -> Result<Checked, NoMemory>
    ensures { IfOk result (λ told. told ≡ checked.Good (entry_lines settings.now 0 entries.now)) }
{
    let mut text = Vec::new(alloc);
    add_entries(&mut text, settings, entries)?;
    Ok(Checked::Good(Bytes::from_vec(text)))
}

/// The lines of these entries, and behind them why the journal is refused.
fn list_before(
    alloc: Global,
    settings: &Settings,
    entries: &[Entry],
    fault: JournalFault,
) -> Result<Checked, NoMemory>
    ensures { IfOk result (λ told. told ≡ checked.AtFault (listed_with settings.now entries.now fault)) }
{
    let mut text = Vec::new(alloc);
    add_entries(&mut text, settings, entries)?;
    add_refused(&mut text, fault)?;
    Ok(Checked::AtFault(Bytes::from_vec(text)))
}

fn add_entries(text: &mut Vec<u8>, settings: &Settings, entries: &[Entry]) -> Result<(), NoMemory>
    ensures { OnOk result (text.new.items ≡ text.old.items ++ entry_lines settings.now 0 entries.now) }
{
    let mut slot = 0;
    for entry in entries {
        add_entry(text, settings, slot, entry)?;
        slot += 1;
    }
    Ok(())
}

/// The entries of the first slots, as far as they can be read; none where the slots can't be opened.
fn readable<D: Disk>(
    alloc: Global,
    disk: &mut D,
    settings: &Settings,
) -> Result<EntryList, NoMemory> {
    match SlotStore::open(alloc, disk, slots(settings), &settings.digest()) {
        Ok(store) => read_slots(alloc, disk, &store),
        Err(_) => Ok(EntryList::new(alloc)),
    }
}

/// The entries of the slots in use, up to the first that can't be read.
fn read_slots<D: Disk>(
    alloc: Global,
    disk: &mut D,
    store: &SlotStore,
) -> Result<EntryList, NoMemory>
    requires { needed_of store.now.slots ≤ D.extent disk.old }
{
    let mut entries = EntryList::new(alloc);
    for slot in 0..store.used() {
        let place = store.place(slot);
        match read_entry(alloc, disk, store.format(), place)? {
            Some(entry) => entries.push(entry)?,
            None => return Ok(entries),
        }
    }
    Ok(entries)
}

/// The entry whose record of this format stands in the slot at the place, where one does.
fn read_entry<D: Disk>(
    alloc: Global,
    disk: &mut D,
    format: Format,
    at: u64,
) -> Result<Option<Entry>, NoMemory>
    requires { at + 8192 ≤ D.extent disk.old }
    ensures extent { D.extent disk.new ≡ D.extent disk.old }
{
    let mut room = [0; SLOT];
    let Ok(Some(len)) = read_slot(disk, at, &mut room) else {
        return Ok(None);
    };
    match entry_of(alloc, &room[3..3 + len], format) {
        Ok(entry) => Ok(Some(entry)),
        Err(EntryFault::NotEntry { .. }) => Ok(None),
        Err(EntryFault::NoMemory) => Err(NoMemory),
    }
}
