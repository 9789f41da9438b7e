//! What holds of every journal.

ghost use Rattle.std.specs.Prelude.{◌≡◌, ◌⊎◌, ℕ, ◌≤◌, ◌<◌, List, [], ◌∷◌, ◌++◌, IsTrue, IfOk, IfErr, OnOk};
ghost use Rattle.slot_journal.specs.declared.fault.JournalFault.{JournalFault};
ghost use Rattle.dots_host.specs.Causes.{HasCause};
ghost use Rattle.dots_host.specs.Becoming.{RestsWith};
ghost use Rattle.dots_settings.specs.Settings.{SettingsValue};
ghost use Rattle.dots_history.specs.declared.entry.Entry.{Entry};
ghost use Rattle.dots_history.specs.Bounds.{within_bounds};
ghost use Rattle.slot_store.specs.Layout.{needed_of};
ghost use Rattle.slot_store.specs.Gates.{Sees};
ghost use Rattle.slot_journal.specs.DiskEntries.{HasEntries, Represents};
ghost use Rattle.slot_journal.specs.Left.{IsLeft};
ghost use Rattle.slot_journal.specs.Refused.{Refuses, IsRefusal, Caused};

use crate::entries::EntryList;
use crate::fault::JournalFault;
use crate::journal::Journal;
use dots_history::Entry;
use dots_host::Disk;
use dots_settings::Settings;
use slot_store::DiskFault;
use std::alloc::Global;

/// An image of a disk holds one list of entries at most.
pub fn one_history()
    ensures { (settings : SettingsValue) (image : ℕ → ℕ) (first second : List Entry) → HasEntries settings image first → HasEntries settings image second → first ≡ second }
{}

/// A disk that holds a list of entries is not refused for what it holds.
pub fn what_is_stored_is_recovered()
    ensures { (settings : SettingsValue) (extent : ℕ) (image : ℕ → ℕ) (entries : List Entry) (fault : JournalFault) → HasEntries settings image entries → Refuses settings extent image fault → IsRefusal fault → ⊥ }
{}

/// Appends an entry on one disk, and recovers another one, on which a crash in the middle of that left an image of the
/// first. Answers what the append answered, and the entries that are recovered.
///
/// # Errors
///
/// Those of [`Journal::recover`], but none for what the other disk holds.
pub fn survives_crash<D: Disk, C: Disk>(
    alloc: Global,
    settings: &Settings,
    journal: &mut Journal,
    disk: &mut D,
    left: &mut C,
    entry: &Entry,
) -> Result<(Result<u32, DiskFault>, EntryList), JournalFault>
    requires room { journal.old.used < journal.old.slots }
    requires size { needed_of journal.old.slots ≤ D.extent disk.old }
    requires within { IsTrue (within_bounds entry.now) }

    // What the append answered: the slot, or a fault of its disk.
    ensures slot { IfOk result (λ answer. IfOk answer.0 (λ slot. slot ≡ journal.old.used)) }
    ensures fault { IfOk result (λ answer. HasCause (D.faults disk.old) (D.faults disk.new) answer.0) }

    // Where the entry was appended, the journal rests with it behind those from before.
    ensures appended { IfOk result (λ answer. OnOk answer.0 ((before : List Entry) →
        RestsWith (D.media disk.old) (Represents journal.old settings.now before) →
        RestsWith (D.media disk.new) (Represents journal.new settings.now (before ++ entry.now ∷ [])))) }

    // Whatever the other disk held, it held the entries that are recovered.
    ensures recovered { IfOk result (λ answer. (seen : ℕ → ℕ) → Sees (C.media left.old) seen →
        HasEntries settings.now seen answer.1) }

    // They are those from before, or these and the new one, at whichever moment the crash comes, and whatever it leaves.
    ensures survived { IfOk result (λ answer. (before : List Entry) (image : ℕ → ℕ) →
        RestsWith (D.media disk.old) (Represents journal.old settings.now before) →
        IsLeft (D.media disk.old) (D.media disk.new) image → Sees (C.media left.old) image →
        (answer.1 ≡ before) ⊎ (answer.1 ≡ before ++ entry.now ∷ [])) }

    // The disk that was left is never refused for what it holds, and another only for what it holds.
    ensures spared { IfErr result (λ fault. (before : List Entry) (image : ℕ → ℕ) →
        RestsWith (D.media disk.old) (Represents journal.old settings.now before) →
        IsLeft (D.media disk.old) (D.media disk.new) image → Sees (C.media left.old) image →
        IsRefusal fault → ⊥) }
    ensures refused { IfErr result (λ fault. (seen : ℕ → ℕ) → Sees (C.media left.old) seen →
        Refuses settings.now (C.extent left.old) seen fault) }
    ensures cause { Caused (C.faults left.old) (C.faults left.new) result }
{
    let answer = journal.append(disk, entry);
    let (_, entries) = Journal::recover(alloc, left, settings)?;
    Ok((answer, entries))
}
