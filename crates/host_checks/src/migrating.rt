//! How entries are taken into the journal of other settings.

ghost use Rattle.std.specs.Prelude.{◌≡◌, ◌≤◌, ◌++◌, ◌∷◌, ℕ, [], List, map, length, Some, None, true, IsTrue, OnOk};
ghost use Rattle.std.specs.List.{AllByRecursion};
ghost use Rattle.dots_host.specs.Stored.{media_of};
ghost use Rattle.dots_settings.specs.Settings.{SettingsValue};
ghost use Rattle.dots_history.specs.declared.entry.Entry.{Entry};
ghost use Rattle.dots_history.specs.Bounds.{within_bounds};
ghost use Rattle.dots_history.specs.Histories.{Within};
ghost use Rattle.dots_history.specs.Filed.{Filed, entry_of};
ghost use Rattle.slot_store.specs.Layout.{needed_of};
ghost use Rattle.dots_registry.specs.RegistryValues.{IsOf, time_of};
ghost use Rattle.dots_registry.specs.RegistryValues as registry;
ghost use Rattle.dots_registry.specs.Beginning.{joins_now};
ghost use Rattle.dots_registry.specs.LedgerValues.{Represents, CanAccept, joins_at};
ghost use Rattle.host_checks.specs.Migrating.{with_domain};
ghost use Rattle.host_checks.specs.KeptEntries.{IsBounded, judged, flags_of};
ghost use Rattle.host_checks.specs.Leavings.{cause_among};
ghost use Rattle.host_checks.specs.Making.{HasTaken, HasTakenSome, HasTakenNext, HasTakenAll, offered, cause_offered};

use crate::kept_entry::{KeptEntry, number_in};
use crate::left_out::{LeftOut, add_left, cause_alone};
use dots_history::{Entry, came_rightly, is_of_settings};
use dots_host::MemoryDisk;
use dots_lists::NoMemory;
use dots_registry::{Ledger, Registry};
use dots_settings::Settings;
use slot_journal::DiskFault;

/// Takes these entries into a ledger, one after the other: each that has a domain in the new settings and joins those that were taken.
/// It adds the lines of the others.
pub(crate) fn take_all(
    disk: &mut MemoryDisk,
    ledger: &mut Ledger,
    old: &Settings,
    new: &Settings,
    list: Vec<KeptEntry>,
    over: &[bool],
    text: &mut Vec<u8>,
) -> Result<(), NoMemory>
    requires size { needed_of ledger.old.journal.slots ≤ disk.old.extent }
    requires some { HasTakenSome new.now ledger.old (Some (media_of disk.old)) }
    requires each { AllByRecursion IsBounded list.items }
    requires over { over.now ≡ flags_of list.items }
    requires long { length over.now ≡ length list.items }
    ensures some { OnOk result (HasTakenSome new.now ledger.new (Some (media_of disk.new))) }

    // Of entries whose times don't fall, from that of the ledger on, those that join are taken, and each other one has its line.
    ensures all { OnOk result ((before : List Entry) (filed : List Filed) (t : ℕ) → HasTaken new.now before ledger.old (Some (media_of disk.old))
        → list.items ≡ map (judged old.now new.now) filed → Within (time_of ledger.old.registry) (map entry_of filed) t
        → HasTakenAll old.now new.now before filed t ledger.new (Some (media_of disk.new)) text.old.items text.new.items) }
{
    let mut place = 0;
    for kept in list {
        take_one(disk, ledger, old, new, kept, over[place], text)?;
        place += 1;
    }
    Ok(())
}

/// Takes the entry, where it has a domain in the new settings and joins those that were taken, and else adds its line. One that might
/// stand again isn't taken.
fn take_one(
    disk: &mut MemoryDisk,
    ledger: &mut Ledger,
    old: &Settings,
    new: &Settings,
    kept: KeptEntry,
    over: bool,
    text: &mut Vec<u8>,
) -> Result<(), NoMemory>
    requires size { needed_of ledger.old.journal.slots ≤ disk.old.extent }
    requires some { HasTakenSome new.now ledger.old (Some (media_of disk.old)) }
    requires bounded { IsBounded kept }
    ensures some { OnOk result (HasTakenSome new.now ledger.new (Some (media_of disk.new))) }
    ensures next { OnOk result ((before : List Entry) → HasTaken new.now before ledger.old (Some (media_of disk.old)) → time_of ledger.old.registry ≤ kept.entry.time
        → HasTakenNext old.now new.now before kept over ledger.new (Some (media_of disk.new)) text.old.items text.new.items) }
    ensures size { needed_of ledger.new.journal.slots ≤ disk.new.extent }
{
    let KeptEntry {
        slot,
        mut entry,
        ..
    } = kept;
    let domain = entry.domain;
    match judge(ledger, old, new, &mut entry, over) {
        None => accept(disk, ledger, entry),
        Some(why) => {
            entry.domain = domain;
            let added = add_left(text, old, slot, &entry, why);
            drop(entry);
            added
        }
    }
}

/// Gives the entry the number of its domain in the new settings, and answers why it is left out then, if it is.
fn judge(
    ledger: &mut Ledger,
    old: &Settings,
    new: &Settings,
    entry: &mut Entry,
    over: bool,
) -> Option<LeftOut>
    requires some { (history few : List Entry) × Represents ledger.old new.now history few }
    requires bounded { IsTrue (within_bounds entry.old) }
    ensures represents { (settings : SettingsValue) (history few : List Entry) → Represents ledger.old settings history few → Represents ledger.new settings history few }
    ensures joins { result ≡ None → (history few : List Entry) → Represents ledger.old new.now history few → joins_at new.now (time_of ledger.new.registry) history entry.new ≡ true }
    ensures offered { result ≡ None → offered old.now new.now entry.old over ≡ Some entry.new }
    ensures cause { time_of ledger.old.registry ≤ entry.old.time → (history few : List Entry) → Represents ledger.old new.now history few
        → result ≡ cause_offered old.now new.now history entry.old over }
    ensures same { with_domain entry.new entry.old.domain ≡ entry.old }
    ensures bounded { within_bounds entry.new ≡ within_bounds entry.old }
    ensures early { time_of ledger.old.registry ≤ entry.old.time → time_of ledger.new.registry ≤ entry.old.time }
    ensures journal { ledger.new.journal ≡ ledger.old.journal }
{
    if over {
        return Some(LeftOut::Over);
    }
    let Some(number) = number_in(old, new, entry.domain) else {
        return Some(LeftOut::DomainGone);
    };
    entry.domain = number;
    cause_among(ledger, new, entry)
}

/// Why an entry doesn't join those that were taken, if it doesn't. The time is then not after the entry's.
fn cause_among(ledger: &mut Ledger, new: &Settings, entry: &Entry) -> Option<LeftOut>
    requires some { (history few : List Entry) × Represents ledger.old new.now history few }
    requires bounded { IsTrue (within_bounds entry.now) }
    ensures represents { (settings : SettingsValue) (history few : List Entry) → Represents ledger.old settings history few → Represents ledger.new settings history few }
    ensures joins { result ≡ None → (history few : List Entry) → Represents ledger.old new.now history few → joins_at new.now (time_of ledger.new.registry) history entry.now ≡ true }
    ensures cause { time_of ledger.old.registry ≤ entry.now.time → (history few : List Entry) → Represents ledger.old new.now history few
        → result ≡ cause_among new.now history entry.now }
    ensures early { time_of ledger.old.registry ≤ entry.now.time → time_of ledger.new.registry ≤ entry.now.time }
    ensures journal { ledger.new.journal ≡ ledger.old.journal }
{
    if !is_of_settings(new, entry) {
        return Some(cause_alone(new, entry));
    }
    if entry.time < ledger.registry().time() {
        return Some(LeftOut::NoRoom);
    }
    ledger.tick(entry.time);
    if joins(ledger.registry(), new, entry) {
        return None;
    }
    Some(LeftOut::NoRoom)
}

/// Whether an entry at the time joins those of which these are the tables.
fn joins(tables: &Registry, new: &Settings, entry: &Entry) -> bool
    requires is_of { IsOf new.now tables.now }
    requires at { time_of tables.now ≡ entry.now.time }
    requires bounded { IsTrue (within_bounds entry.now) }
    ensures { (entries : List Entry) → registry.Represents tables.now entries → result ≡ joins_now new.now tables.now entries entry.now }
{
    tables.fits(new, entry) && came_rightly(entry) && tables.has_one_peer(entry)
}

/// Takes an entry that joins. A call of the disk fails for want of memory alone.
fn accept(disk: &mut MemoryDisk, ledger: &mut Ledger, entry: Entry) -> Result<(), NoMemory>
    requires size { needed_of ledger.old.journal.slots ≤ disk.old.extent }
    requires can { CanAccept ledger.old entry }
    ensures taken { OnOk result ((settings : SettingsValue) (history : List Entry) → HasTaken settings history ledger.old (Some (media_of disk.old))
        → joins_at settings (time_of ledger.old.registry) history entry ≡ true → HasTaken settings (history ++ entry ∷ []) ledger.new (Some (media_of disk.new))) }
    ensures time { OnOk result (time_of ledger.new.registry ≡ entry.time) }
    ensures size { needed_of ledger.new.journal.slots ≤ disk.new.extent }
{
    let staged = ledger.registry().stage(entry)?;
    match ledger.accept(disk, staged) {
        Ok(()) => Ok(()),
        Err(DiskFault) => Err(NoMemory),
    }
}
