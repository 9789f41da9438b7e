//! How a ledger begins.

ghost use Rattle.std.specs.Prelude.{◌≡◌, ◌≢◌, ℕ, ◌^◌, ◌<◌, ◌≤◌, ◌⊎◌, [], true, List, IfOk, IfErr};
ghost use Rattle.dots_host.specs.Becoming.{Leaves, RestsWith};
ghost use Rattle.dots_settings.specs.Settings.{SettingsValue};
ghost use Rattle.dots_history.specs.declared.entry.Entry.{Entry};
ghost use Rattle.dots_history.specs.Fits.{is_calm};
ghost use Rattle.dots_registry.specs.RegistryValues.{RegistryValue, IsOf};
ghost use Rattle.dots_registry.specs.Filed.{HasSlots, most_kept};
ghost use Rattle.slot_store.specs.Layout.{needed_of};
ghost use Rattle.slot_store.specs.Opening.{Is};
ghost use Rattle.slot_store.specs.Gates.{Sees};
ghost use Rattle.slot_journal.specs.declared.fault.JournalFault.{JournalFault};
ghost use Rattle.slot_journal.specs.Sizes.{slots_of};
ghost use Rattle.slot_journal.specs.DiskEntries.{HasEntries};
ghost use Rattle.slot_journal.specs.Refused.{IsSmallBy, Caused};
ghost use Rattle.dots_registry.specs.Beginning.{HasBegun};
ghost use Rattle.dots_registry.specs.Gathering.{HasGathered};
ghost use Rattle.slot_journal.specs.Untaken.{RefusesLedger, IsFailure};

use crate::gathering::Gathering;
use crate::ledger::Ledger;
use crate::taking::gather;
use dots_history::SlotList;
use dots_host::Disk;
use dots_lists::NoMemory;
use dots_settings::Settings;
use slot_journal::{Journal, JournalFault, slots};
use std::alloc::Global;

impl Ledger {
    /// Recovers what the disk holds, and makes the tables anew of it. The time is then the greater of this one, in seconds, below
    /// 2^48, and that of the last entry. It takes the memory of all tables.
    ///
    /// # Errors
    ///
    /// Those of [`Journal::recover`], and `NotOurs` also with the slot of the first entry that doesn't join those before it.
    pub fn begin<D: Disk>(
        alloc: Global,
        disk: &mut D,
        settings: &Settings,
        at: u64,
    ) -> Result<Self, JournalFault>
        requires early { at < 2 ^ 48 }

        // A disk on which nothing was pending holds the same list at each moment.
        ensures moments { (seen : ℕ → ℕ) (entries : List Entry) → RestsWith (D.media disk.old) (Is seen) → HasEntries settings.now seen entries
            → Leaves (D.media disk.old) (D.media disk.new) (λ image. HasEntries settings.now image entries) }

        // It represents what the disk held, which is calm, and the disk rests with that.
        ensures recovered { IfOk result (HasBegun settings.now at (D.media disk.old) (D.media disk.new)) }
        ensures size { IfOk result (λ ledger. (ledger.journal.slots ≡ slots_of settings.now) × (needed_of (slots_of settings.now) ≤ D.extent disk.new)) }

        // A disk is refused for a cause that it has, and one that holds calm entries isn't refused.
        ensures refused { IfErr result (λ fault. (seen : ℕ → ℕ) → Sees (D.media disk.old) seen
            → RefusesLedger settings.now (D.extent disk.old) seen (D.media disk.new) fault) }
        ensures complete { IfErr result (λ fault. (seen : ℕ → ℕ) (entries : List Entry) → Sees (D.media disk.old) seen → HasEntries settings.now seen entries
            → is_calm settings.now entries ≡ true → needed_of (slots_of settings.now) ≤ D.extent disk.old → IsFailure fault) }

        // A disk whose content isn't told is too small for the same cause.
        ensures small { IfErr result (IsSmallBy settings.now (D.extent disk.old)) }

        // Where the disk is refused, and none of its calls failed, nothing was written; or it held a list, and holds it still.
        ensures unwritten { IfErr result (λ fault. (seen : ℕ → ℕ) → fault ≢ JournalFault.DiskFault → RestsWith (D.media disk.old) (Is seen)
            → RestsWith (D.media disk.new) (Is seen) ⊎ ((entries : List Entry) × HasEntries settings.now seen entries)) }

        ensures extent { D.extent disk.new ≡ D.extent disk.old }
        ensures cause { Caused (D.faults disk.old) (D.faults disk.new) result }
        ensures beside { D.beside disk.old disk.new }
    {
        let keep = keep_list(alloc, settings)?;
        let mut gathering = Gathering::new(alloc, settings)?;
        match fill(alloc, disk, settings, at, &mut gathering) {
            Ok(journal) => {
                return Ok(Ledger {
                    registry: gathering.into_registry(),
                    journal,
                    keep,
                });
            }
            Err(fault) => return Err(give_up(gathering, fault)),
        }
    }
}

/// Recovers what the disk holds into tables that have nothing. The time is then the greater of this one and that of the last entry.
///
/// # Errors
///
/// Those of [`Ledger::begin`]. The tables are used no more.
fn fill<D: Disk>(
    alloc: Global,
    disk: &mut D,
    settings: &Settings,
    at: u64,
    gathering: &mut Gathering,
) -> Result<Journal, JournalFault>
    requires early { at < 2 ^ 48 }
    requires first { HasGathered settings.now [] gathering.old }
    requires fewer { (r : RegistryValue) → IsOf settings.now r → most_kept r < slots_of settings.now }
    ensures moments { (seen : ℕ → ℕ) (entries : List Entry) → RestsWith (D.media disk.old) (Is seen) → HasEntries settings.now seen entries
        → Leaves (D.media disk.old) (D.media disk.new) (λ image. HasEntries settings.now image entries) }
    ensures recovered { IfOk result (λ journal. HasBegun settings.now at (D.media disk.old) (D.media disk.new)
        (record { registry = gathering.new.tables; journal = journal })) }
    ensures room { IfOk result (λ journal. HasSlots gathering.new.tables) }
    ensures size { IfOk result (λ journal. (journal.slots ≡ slots_of settings.now) × (needed_of (slots_of settings.now) ≤ D.extent disk.new)) }
    ensures refused { IfErr result (λ fault. (seen : ℕ → ℕ) → Sees (D.media disk.old) seen
        → RefusesLedger settings.now (D.extent disk.old) seen (D.media disk.new) fault) }
    ensures complete { IfErr result (λ fault. (seen : ℕ → ℕ) (entries : List Entry) → Sees (D.media disk.old) seen → HasEntries settings.now seen entries
        → is_calm settings.now entries ≡ true → needed_of (slots_of settings.now) ≤ D.extent disk.old → IsFailure fault) }
    ensures small { IfErr result (IsSmallBy settings.now (D.extent disk.old)) }
    ensures unwritten { IfErr result (λ fault. (seen : ℕ → ℕ) → fault ≢ JournalFault.DiskFault → RestsWith (D.media disk.old) (Is seen)
        → RestsWith (D.media disk.new) (Is seen) ⊎ ((entries : List Entry) × HasEntries settings.now seen entries)) }
    ensures extent { D.extent disk.new ≡ D.extent disk.old }
    ensures cause { Caused (D.faults disk.old) (D.faults disk.new) result }
    ensures beside { D.beside disk.old disk.new }
{
    let (journal, entries) = Journal::recover(alloc, disk, settings)?;
    gather(gathering, settings, &journal, entries, at)?;
    Ok(journal)
}

/// Lets the tables go, for this fault.
fn give_up(gathering: Gathering, fault: JournalFault) -> JournalFault
    ensures { result ≡ fault }
{
    gathering.let_go();
    fault
}

/// An empty list with room for the slots that a compaction keeps under these settings, which are fewer than a half has.
fn keep_list(alloc: Global, settings: &Settings) -> Result<SlotList, NoMemory>
    ensures room { IfOk result (λ list. (registry : RegistryValue) → IsOf settings.now registry → most_kept registry ≤ list.room) }
    ensures fewer { (registry : RegistryValue) → IsOf settings.now registry → most_kept registry < slots_of settings.now }
{
    let _limits = settings.limits();
    SlotList::new(alloc, slots(settings) as usize)
}
