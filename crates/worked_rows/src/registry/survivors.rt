//! An append on one disk, and what is recovered of another one after a crash.

ghost use Rattle.std.specs.Prelude.{◌≡◌, ◌≤◌, true};
ghost use Rattle.slot_store.specs.Layout.{needed_of};

use crate::registry::entries::entry;
use crate::registry::spelled::Spelled;
use crate::registry::words::digit;
use dots_history::{Entry, is_within_bounds};
use dots_host::{Disk, MemoryDisk};
use dots_settings::Settings;
use slot_journal::laws::survives_crash;
use slot_journal::{Journal, bytes_needed};
use std::alloc::Global;
use std::test::Fail;

/// Whether the disk has the bytes of the journal.
pub fn has_room(journal: &Journal, disk: &MemoryDisk) -> bool
    ensures { result ≡ true → needed_of journal.now.slots ≤ disk.now.extent }
{
    8192 * (1 + 2 * u64::from(journal.slots())) <= disk.size()
}

/// The slot in which the entry is appended on one disk, and how many entries are recovered of the other one after it.
fn appended(
    alloc: Global,
    settings: &Settings,
    journal: &mut Journal,
    disk: &mut MemoryDisk,
    left: &mut MemoryDisk,
    entry: &Entry,
) -> Option<(u32, usize)> {
    if !has_room(journal, disk) || journal.used() == journal.slots() || !is_within_bounds(entry) {
        return None;
    }
    let (slot, entries) = survives_crash(alloc, settings, journal, disk, left, entry).ok()?;
    let count = entries.items().len();
    drop(entries);
    Some((slot.ok()?, count))
}

fn survivor(
    alloc: Global,
    settings: &Settings,
    disk: &mut MemoryDisk,
    left: &mut MemoryDisk,
    entry: &Entry,
) -> Option<(u32, usize)> {
    let (mut journal, _) = Journal::recover(alloc, disk, settings).ok()?;
    appended(alloc, settings, &mut journal, disk, left, entry)
}

/// The same where the disks hold nothing: the other one was never written.
fn survivor_of_nothing(alloc: Global, settings: &Settings, entry: &Entry) -> Option<(u32, usize)> {
    let mut disk = MemoryDisk::new(alloc, bytes_needed(settings));
    let mut left = MemoryDisk::new(alloc, bytes_needed(settings));
    survivor(alloc, settings, &mut disk, &mut left, entry)
}

/// The same of the entry of these words.
fn survivor_of(
    alloc: Global,
    settings: &Settings,
    words: &str,
) -> Result<Option<(u32, usize)>, Fail> {
    let entry = entry(alloc, words)?;
    let survivor = survivor_of_nothing(alloc, settings, &entry);
    drop(entry);
    Ok(survivor)
}

/// The slot of the entry of these words, and how many entries are recovered where a crash lost it.
pub fn spell_survivor(
    alloc: Global,
    spelled: &mut Spelled,
    settings: &Settings,
    words: &str,
) -> Result<(), Fail> {
    let (slot, count) = survivor_of(alloc, settings, words)?.ok_or("a survivor")?;
    spelled.extend(&[digit(u64::from(slot)), digit(count as u64)]);
    Ok(())
}
