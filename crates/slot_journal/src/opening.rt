//! How the slots of a disk are opened for a journal.

ghost use Rattle.std.specs.Prelude.{◌≡◌, ◌≢◌, ℕ, ◌≤◌, List, IfOk, IfErr};
ghost use Rattle.dots_host.specs.Becoming.{Leaves, RestsWith};
ghost use Rattle.slot_store.specs.Layout.{needed_of, HasRecords};
ghost use Rattle.slot_store.specs.Opening.{Is};
ghost use Rattle.slot_store.specs.Gates.{Sees};
ghost use Rattle.slot_store.specs.StoreValues.{IsKnown};
ghost use Rattle.slot_journal.specs.Sizes.{slots_of};
ghost use Rattle.slot_journal.specs.Refused.{Refuses, IsSmallBy, Caused, IsFaultFor};

use crate::fault::JournalFault;
use crate::size::slots;
use dots_host::Disk;
use dots_settings::Settings;
use slot_store::{Format, OpenFault, SlotStore};
use std::alloc::Global;

/// What is told where the slots aren't opened under settings with this digest.
fn fault_for(fault: OpenFault, given: [u8; 32]) -> JournalFault
    ensures { IsFaultFor fault given result }
{
    match fault {
        OpenFault::TooSmall { needed, found } => return JournalFault::TooSmall { needed, found },
        OpenFault::NotOurs { at } => return JournalFault::NotOurs { at },
        OpenFault::SettingsChanged { stored } => return JournalFault::SettingsChanged {
            stored,
            given,
        },
        OpenFault::DiskFault => return JournalFault::DiskFault,
        OpenFault::NoMemory => return JournalFault::NoMemory,
    }
}

/// Opens the slots of a disk, or formats them. It syncs first.
pub fn open_store<D: Disk>(
    alloc: Global,
    disk: &mut D,
    settings: &Settings,
) -> Result<SlotStore, JournalFault>
    ensures moments { (seen : ℕ → ℕ) (format : Format) (records : List (List ℕ)) → RestsWith (D.media disk.old) (Is seen) →
        HasRecords (slots_of settings.now) settings.now.digest format seen records →
        Leaves (D.media disk.old) (D.media disk.new) (λ image. HasRecords (slots_of settings.now) settings.now.digest format image records) }
    ensures known { IfOk result (λ store. (seen : ℕ → ℕ) → Sees (D.media disk.old) seen →
        RestsWith (D.media disk.new) (IsKnown store settings.now.digest seen)) }
    ensures size { IfOk result (λ store. (store.slots ≡ slots_of settings.now) × (needed_of (slots_of settings.now) ≤ D.extent disk.new)) }
    ensures refused { IfErr result (λ fault. (seen : ℕ → ℕ) → Sees (D.media disk.old) seen →
        Refuses settings.now (D.extent disk.old) seen fault) }
    ensures small { IfErr result (IsSmallBy settings.now (D.extent disk.old)) }
    ensures unwritten { IfErr result (λ fault. (seen : ℕ → ℕ) → fault ≢ JournalFault.DiskFault →
        RestsWith (D.media disk.old) (Is seen) → RestsWith (D.media disk.new) (Is seen)) }
    ensures extent { D.extent disk.new ≡ D.extent disk.old }
    ensures cause { Caused (D.faults disk.old) (D.faults disk.new) result }
    ensures beside { D.beside disk.old disk.new }
{
    let digest = settings.digest();
    match SlotStore::open(alloc, disk, slots(settings), &digest) {
        Ok(store) => return Ok(store),
        Err(fault) => return Err(fault_for(fault, digest)),
    }
}
