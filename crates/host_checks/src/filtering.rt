//! The filters of a journal.

ghost use Rattle.std.specs.Prelude.{◌≡◌, ◌+◌, ◌≤◌, ◌<◌, ◌^◌, ℕ, true, max, length, List, IfOk, IfErr};
ghost use Rattle.slot_store.specs.Layout.{needed_of};
ghost use Rattle.slot_store.specs.Gates.{Sees};
ghost use Rattle.slot_journal.specs.DiskEntries.{HasEntries};
ghost use Rattle.slot_journal.specs.Sizes.{slots_of};
ghost use Rattle.slot_journal.specs.Untaken.{RefusesLedger, IsFailure};
ghost use Rattle.dots_history.specs.declared.entry.Entry.{Entry};
ghost use Rattle.dots_history.specs.Fits.{last_time, is_calm};
ghost use Rattle.dots_script.specs.declared.checked.Checked.TheVariants as checked;
ghost use Rattle.host_checks.specs.Filters.{HasForm, ReportsFilters};
ghost use Rattle.host_checks.specs.Journals.{refused_text};

use crate::journal_state::add_refused;
use crate::reading::report_at;
use crate::script::script_at;
use dots_edge::JournalReader;
use dots_host::{Disk, Failed};
use dots_lists::{Bytes, NoMemory};
use dots_script::Checked;
use dots_settings::Settings;
use slot_journal::{JournalFault, slots};
use slot_store::SLOT;
use std::alloc::Global;

/// How often a journal that may have changed meanwhile is read anew.
const MORE_TRIES: u32 = 64;

/// How much of the header, and of the first record of each half, shows that a half was taken into use.
const MARK: usize = 64;

/// How filters are written.
#[derive(Clone, Copy)]
pub enum FilterForm {
    /// The report that a server prints at its end.
    Report,
    /// A script for `nft -f`.
    Script,
}

/// The filters that the journal of a disk comes to at this second, or at that of its last entry where that is later, in this form; or
/// why the journal is refused. Over a disk that refuses each write nothing is written.
pub fn filters_journal<D: Disk>(
    alloc: Global,
    disk: &mut D,
    settings: &Settings,
    now: u64,
    form: FilterForm,
) -> Result<Checked, NoMemory>
    requires early { now < 2 ^ 48 }
    ensures told { IfOk result (λ told. (seen : ℕ → ℕ) → Sees (D.media disk.old) seen
        → ReportsFilters form settings.now now (D.extent disk.old) seen (D.media disk.new) told) }
    ensures extent { D.extent disk.new ≡ D.extent disk.old }
{
    match text_at(alloc, disk, settings, now, form) {
        Ok(text) => Ok(Checked::Good(text)),
        Err(JournalFault::NoMemory) => Err(NoMemory),
        Err(fault) => refused(alloc, fault),
    }
}

/// The same, where the journal isn't refused.
fn text_at<D: Disk>(
    alloc: Global,
    disk: &mut D,
    settings: &Settings,
    now: u64,
    form: FilterForm,
) -> Result<Bytes, JournalFault>
    requires early { now < 2 ^ 48 }
    ensures text { IfOk result (λ text. (entries : List Entry) × ((seen : ℕ → ℕ) → Sees (D.media disk.old) seen → HasEntries settings.now seen entries)
        × HasForm form settings.now (max now (last_time entries)) entries text) }
    ensures refused { IfErr result (λ fault. (seen : ℕ → ℕ) → Sees (D.media disk.old) seen
        → RefusesLedger settings.now (D.extent disk.old) seen (D.media disk.new) fault) }
    ensures complete { IfErr result (λ fault. (seen : ℕ → ℕ) (entries : List Entry) → Sees (D.media disk.old) seen → HasEntries settings.now seen entries
        → is_calm settings.now entries ≡ true → needed_of (slots_of settings.now) ≤ D.extent disk.old → IsFailure fault) }
    ensures extent { D.extent disk.new ≡ D.extent disk.old }
{
    match form {
        FilterForm::Report => report_at(alloc, disk, settings, now),
        FilterForm::Script => script_at(alloc, disk, settings, now),
    }
}

/// Why a journal is refused.
fn refused(alloc: Global, fault: JournalFault) -> Result<Checked, NoMemory>
    ensures { IfOk result (λ told. told ≡ checked.AtFault (refused_text fault)) }
{
    let mut text = Vec::new(alloc);
    add_refused(&mut text, fault)?;
    Ok(Checked::AtFault(Bytes::from_vec(text)))
}

/// The same of a journal that a server may write meanwhile. Records are written before their gates, and the other half before the selector.
/// So where the selector and the first records are the same before and behind, what was read is one journal. Else it is read anew, and so is
/// one that is refused: what is written while it is read makes it one that no server leaves.
pub(crate) fn filters_read(
    alloc: Global,
    reader: &mut JournalReader,
    settings: &Settings,
    now: u64,
    form: FilterForm,
) -> Result<Checked, NoMemory>
    requires early { now < 2 ^ 48 }
{
    for _ in 0..MORE_TRIES {
        let before = marks(reader, slots(settings));
        let told = filters_journal(alloc, reader, settings, now, form)?;
        let is_same = before.as_slice() == marks(reader, slots(settings)).as_slice();
        if is_same && matches!(told, Checked::Good(_)) {
            return Ok(told);
        }
    }
    filters_journal(alloc, reader, settings, now, form)
}

/// The header, and the first bytes of the first record of each half; zeros where they can't be read.
fn marks(reader: &mut JournalReader, slots: u32) -> [u8; 3 * MARK] {
    let mut marks = [0; 3 * MARK];
    let (header, records) = marks.split_at_mut(MARK);
    let (first, second) = records.split_at_mut(MARK);
    read_mark(reader, 0, header);
    read_mark(reader, SLOT as u64, first);
    read_mark(reader, SLOT as u64 * (1 + u64::from(slots)), second);
    marks
}

/// Reads what the journal has from the place on.
fn read_mark(reader: &mut JournalReader, at: u64, into: &mut [u8])
    requires { length into.old ≤ 64 }
{
    if at > reader.size() || reader.size() - at < into.len() as u64 {
        return;
    }
    match reader.read(at, into) {
        Ok(()) => return,
        Err(Failed) => return,
    }
}
