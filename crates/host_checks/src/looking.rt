//! Looking at the journal of a disk.

ghost use Rattle.std.specs.Prelude.{◌≡◌, ℕ, IfOk};
ghost use Rattle.slot_store.specs.Gates.{Sees};
ghost use Rattle.host_checks.specs.Journals.{last_of, IsFound};

use crate::journal_state::JournalState;
use dots_history::Entry;
use dots_host::Disk;
use dots_lists::NoMemory;
use dots_settings::Settings;
use slot_journal::{Journal, JournalFault};
use std::alloc::Global;

/// What is found of the journal of a disk under these settings: what a server would find there. Over a disk that refuses each write
/// nothing is written.
pub fn look_at<D: Disk>(
    alloc: Global,
    disk: &mut D,
    settings: &Settings,
) -> Result<JournalState, NoMemory>
    ensures { IfOk result (λ state. (seen : ℕ → ℕ) → Sees (D.media disk.old) seen → IsFound settings.now (D.extent disk.old) seen state) }
{
    match Journal::recover(alloc, disk, settings) {
        Ok((journal, entries)) => Ok(JournalState::Filled {
            used: entries.items().len() as u64,
            slots: journal.slots(),
            last: last_of(entries.items()),
        }),
        Err(JournalFault::NoMemory) => Err(NoMemory),
        Err(fault) => Ok(JournalState::Refused(fault)),
    }
}

/// The time of the last entry.
fn last_of(entries: &[Entry]) -> Option<u64>
    ensures { result ≡ last_of entries.now }
{
    let mut last = None;
    for entry in entries {
        last = Some(entry.time);
    }
    last
}
