//! How the entries of a journal are taken into tables.

ghost use Rattle.std.specs.Prelude.{◌≡◌, ◌<◌, ◌^◌, ◌∷◌, ◌++◌, [], true, false, List, length, IsTrue, IfOk, IfErr, OnOk};
ghost use Rattle.std.specs.List.{AllByRecursion};
ghost use Rattle.dots_history.specs.declared.entry.Entry.{Entry};
ghost use Rattle.dots_history.specs.Bounds.{within_bounds};
ghost use Rattle.dots_history.specs.Fits.{joins};
ghost use Rattle.dots_registry.specs.RegistryValues.{IsOf};
ghost use Rattle.slot_journal.specs.DiskEntries.{HasRecord};
ghost use Rattle.dots_registry.specs.Beginning.{joins_now};
ghost use Rattle.dots_registry.specs.Gathering.{Gathers, HasGathered, HasGatheredSome, IsReady};
ghost use Rattle.slot_journal.specs.Untaken.{RefusesEntries};

use crate::gathering::Gathering;
use dots_history::{Entry, came_rightly};
use dots_lists::NoMemory;
use dots_settings::Settings;
use slot_journal::{EntryList, Journal, JournalFault};

/// Takes the entries of a journal, each with the slot in which it stands, into tables that have none, moves the time to the greater of this
/// one and that of the last entry, and makes the rows of the mitigations that are live then. The entries are as many as slots are in use.
///
/// # Errors
///
/// Those of [`take_all`].
pub(crate) fn gather(
    gathering: &mut Gathering,
    settings: &Settings,
    journal: &Journal,
    entries: EntryList,
    at: u64,
) -> Result<(), JournalFault>
    requires early { at < 2 ^ 48 }
    requires first { HasGathered settings.now [] gathering.old }
    requires each { AllByRecursion HasRecord entries }
    requires used { journal.now.used ≡ length entries }
    ensures ready { OnOk result (IsReady settings.now entries at gathering.new.tables) }
    ensures refused { IfErr result (RefusesEntries settings.now journal.now entries) }
{
    let _used = journal.used();
    take_all(gathering, settings, journal, entries)?;
    let now = at.max(gathering.time());
    gathering.tick(now);
    gathering.install()?;
    Ok(())
}

/// Takes the entries of a journal, each with the slot in which it stands, into tables that have none. They are as many as slots
/// are in use.
///
/// # Errors
///
/// `NotOurs` with the place of the first entry that doesn't join those before it, and `NoMemory`.
fn take_all(
    gathering: &mut Gathering,
    settings: &Settings,
    journal: &Journal,
    entries: EntryList,
) -> Result<(), JournalFault>
    requires first { HasGathered settings.now [] gathering.old }
    requires each { AllByRecursion HasRecord entries }
    requires used { journal.now.used ≡ length entries }
    ensures taken { OnOk result (HasGathered settings.now entries gathering.new) }
    ensures refused { IfErr result (RefusesEntries settings.now journal.now entries) }
{
    let used = journal.used();
    let mut slot = 0;
    for entry in entries.into_vec() {
        if !take(gathering, settings, entry, slot)? {
            return Err(JournalFault::NotOurs {
                at: journal.place(slot),
            });
        }
        slot += 1;
    }
    Ok(())
}

/// Takes the entry that stands in this slot, where it joins those that were taken. The time is then the entry's.
fn take(
    gathering: &mut Gathering,
    settings: &Settings,
    entry: Entry,
    slot: u32,
) -> Result<bool, NoMemory>
    requires taken { HasGatheredSome settings.now gathering.old }
    requires within { IsTrue (within_bounds entry) }
    ensures yes { IfOk result (λ joined. joined ≡ true → (before : List Entry) → slot ≡ length before → HasGathered settings.now before gathering.old
        → HasGathered settings.now (before ++ entry ∷ []) gathering.new) }
    ensures no { IfOk result (λ joined. joined ≡ false → (before : List Entry) → HasGathered settings.now before gathering.old
        → joins settings.now before entry ≡ false) }
{
    if entry.time < gathering.time() {
        drop(entry);
        return Ok(false);
    }
    gathering.tick(entry.time);
    if !joins(gathering, settings, &entry) {
        drop(entry);
        return Ok(false);
    }
    gathering.take(entry, slot)?;
    Ok(true)
}

/// Whether an entry at the time joins the entries of which these are the tables.
fn joins(gathering: &Gathering, settings: &Settings, entry: &Entry) -> bool
    requires { IsOf settings.now gathering.now.tables }
    ensures { (before : List Entry) → Gathers before gathering.now → result ≡ joins_now settings.now gathering.now.tables before entry.now }
{
    gathering.fits(settings, entry) && came_rightly(entry) && gathering.has_one_peer(entry)
}
