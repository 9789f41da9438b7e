//! Journals that go over to other settings, and what a server finds in the new file.

use crate::registry::entries::{push_entries, settings};
use crate::registry::survivors::has_room;
use crate::registry::words::small;
use dots_history::{Entry, is_within_bounds};
use dots_host::MemoryDisk;
use dots_lists::List;
use dots_registry::Ledger;
use dots_settings::Settings;
use host_checks::{make_journal, write_whole};
use slot_journal::{EntryList, Journal, MAX_RECORD, bytes_needed, record_into, record_len};
use slot_store::Format;
use std::alloc::Global;
use std::test::Fail;

/// Puts the entries into the journal, one behind the other.
fn put_all(journal: &mut Journal, disk: &mut MemoryDisk, entries: &[Entry]) -> Option<()> {
    for entry in entries {
        if !has_room(journal, disk) || journal.used() == journal.slots() {
            return None;
        }
        if !is_within_bounds(entry) {
            return None;
        }
        journal.append(disk, entry).ok()?;
    }
    Some(())
}

/// A disk with the journal of these entries.
fn disk_of(alloc: Global, settings: &Settings, entries: &[Entry]) -> Option<MemoryDisk> {
    let mut disk = MemoryDisk::new(alloc, bytes_needed(settings));
    let (mut journal, _) = Journal::recover(alloc, &mut disk, settings).ok()?;
    put_all(&mut journal, &mut disk, entries)?;
    Some(disk)
}

/// A disk of so many bytes, to which the image is written.
fn written(alloc: Global, room: u64, image: &[u8]) -> Option<MemoryDisk> {
    if image.len() as u64 > room {
        return None;
    }
    let mut disk = MemoryDisk::new(alloc, room);
    write_whole(&mut disk, image).ok()?;
    Some(disk)
}

/// The entries with which a server begins over the disk.
fn found(alloc: Global, disk: &mut MemoryDisk, settings: &Settings, now: u16) -> Option<EntryList> {
    let ledger = Ledger::begin(alloc, disk, settings, u64::from(now)).ok()?;
    ledger.let_go();
    let (_, entries) = Journal::recover(alloc, disk, settings).ok()?;
    Some(entries)
}

/// The entries with which a server begins under the new settings, where the journal of these goes over to a new file.
fn moved(
    alloc: Global,
    old: &Settings,
    new: &Settings,
    entries: &[Entry],
    now: u16,
) -> Option<EntryList> {
    let mut disk = disk_of(alloc, old, entries)?;
    let room = bytes_needed(new);
    let made = make_journal(alloc, &mut disk, old, new, room, u64::from(now)).ok()?;
    let mut file = written(alloc, room, made.disk.image())?;
    found(alloc, &mut file, new, now)
}

/// Whether both have the same record.
fn is_same(one: &Entry, other: &Entry) -> bool {
    if !is_within_bounds(one) || !is_within_bounds(other) {
        return false;
    }
    let mut room = [0; MAX_RECORD];
    let mut beside = [0; MAX_RECORD];
    let count = record_len(one, Format::Two);
    let length = record_len(other, Format::Two);
    record_into(one, Format::Two, &mut room);
    record_into(other, Format::Two, &mut beside);
    room[..count] == beside[..length]
}

fn are_same(some: &[Entry], others: &[Entry]) -> bool {
    if some.len() != others.len() {
        return false;
    }
    for (place, one) in some.iter().enumerate() {
        if !is_same(one, &others[place]) {
            return false;
        }
    }
    true
}

/// Whether a server under the new settings finds these entries at a second, of a journal of those: `SECOND ? ENTRIES = ENTRIES`.
pub fn is_found(alloc: Global, old: &str, new: &str, row: &str) -> Result<bool, Fail> {
    let (second, lists) = row.split_once(" ? ").ok_or("a second")?;
    let (before, after) = lists.split_once(" = ").ok_or("a row")?;
    let now = small(second)?;
    let old = settings(alloc, old)?;
    let new = settings(alloc, new)?;
    let mut entries = List::new(alloc);
    push_entries(alloc, &mut entries, before)?;
    let mut wanted = List::new(alloc);
    push_entries(alloc, &mut wanted, after)?;
    let found = moved(alloc, &old, &new, entries.items(), now).ok_or("a journal")?;
    Ok(are_same(found.items(), wanted.items()))
}
