//! The report of a journal.

ghost use Rattle.std.specs.Prelude.{◌≡◌, ℕ, ◌<◌, ◌≤◌, ◌^◌, true, max, List, IfOk, IfErr};
ghost use Rattle.dots_history.specs.declared.entry.Entry.{Entry};
ghost use Rattle.dots_history.specs.Fits.{last_time, is_calm};
ghost use Rattle.slot_store.specs.Layout.{needed_of};
ghost use Rattle.slot_store.specs.Gates.{Sees};
ghost use Rattle.slot_journal.specs.Sizes.{slots_of};
ghost use Rattle.slot_journal.specs.DiskEntries.{HasEntries};
ghost use Rattle.slot_journal.specs.Refused.{Caused};
ghost use Rattle.slot_journal.specs.Untaken.{RefusesLedger, IsFailure};
ghost use Rattle.dots_machine.specs.Machine.{afresh};
ghost use Rattle.dots_machine.specs.Report.{report_of};

use crate::report::report_of;
use dots_host::Disk;
use dots_lists::{Bytes, NoMemory};
use dots_registry::Ledger;
use dots_settings::Settings;
use slot_journal::JournalFault;
use std::alloc::Global;

/// The report of the filters that the journal of a disk comes to under these settings, at the greater of this time, in seconds, below 2^48,
/// and that of its last entry. Over a disk that refuses each write nothing is written.
///
/// # Errors
///
/// Those of [`Ledger::begin`].
pub fn report_at<D: Disk>(
    alloc: Global,
    disk: &mut D,
    settings: &Settings,
    at: u64,
) -> Result<Bytes, JournalFault>
    requires early { at < 2 ^ 48 }
    ensures report { IfOk result (λ text. (entries : List Entry) × ((seen : ℕ → ℕ) → Sees (D.media disk.old) seen → HasEntries settings.now seen entries)
        × (text ≡ report_of settings.now (afresh settings.now entries (max at (last_time entries))))) }

    // A disk is refused for a cause that it has, and one that holds calm entries isn't refused.
    ensures refused { IfErr result (λ fault. (seen : ℕ → ℕ) → Sees (D.media disk.old) seen
        → RefusesLedger settings.now (D.extent disk.old) seen (D.media disk.new) fault) }
    ensures complete { IfErr result (λ fault. (seen : ℕ → ℕ) (entries : List Entry) → Sees (D.media disk.old) seen → HasEntries settings.now seen entries
        → is_calm settings.now entries ≡ true → needed_of (slots_of settings.now) ≤ D.extent disk.old → IsFailure fault) }
    ensures extent { D.extent disk.new ≡ D.extent disk.old }
    ensures cause { Caused (D.faults disk.old) (D.faults disk.new) result }
    ensures beside { D.beside disk.old disk.new }
{
    let ledger = Ledger::begin(alloc, disk, settings, at)?;
    let text = report_of(alloc, settings, ledger.registry());
    ledger.let_go();
    match text {
        Ok(text) => Ok(text),
        Err(NoMemory) => Err(JournalFault::NoMemory),
    }
}
