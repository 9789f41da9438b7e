//! A run, and another one over what a crash of it left.

ghost use Rattle.std.specs.Prelude.{◌≡◌, ◌≤◌, ◌++◌, ◌⊎◌, ℕ, List, map, string_bytes, true, Some, None};
ghost use Rattle.dots_host.specs.Acts.{Timed};
ghost use Rattle.dots_host.specs.Causes.{Rose};
ghost use Rattle.dots_host.specs.Becoming.{RestsWith};
ghost use Rattle.slot_store.specs.Gates.{Sees};
ghost use Rattle.slot_store.specs.Opening.{Is};
ghost use Rattle.slot_store.specs.Layout.{needed_of};
ghost use Rattle.slot_journal.specs.Sizes.{slots_of};
ghost use Rattle.slot_journal.specs.DiskEntries.{HasEntries};
ghost use Rattle.slot_journal.specs.declared.fault.JournalFault.{JournalFault};
ghost use Rattle.dots_history.specs.declared.entry.Entry.{Entry};
ghost use Rattle.dots_settings.specs.Settings.{SettingsValue};
ghost use Rattle.dots_machine.specs.declared.ending.Ending as endings;
ghost use Rattle.dots_machine.specs.Commands.{is_served};
ghost use Rattle.dots_machine.specs.Endings.{status_of, Behaves, Unrecovers, GivesSettings};
ghost use Rattle.dots_machine.specs.Machine.{begun_from};
ghost use Rattle.dots_machine.specs.Outside.{Outside, outside};
ghost use Rattle.dots_run.specs.Leaving.{CrashLeaves, HasServed, GoesOn};
ghost use Rattle.dots_run.specs.Topics.{topic_of};

use crate::running::run;
use dots_host::{Host, Sink, Source};
use std::alloc::Global;

/// Runs over a host, and then over another one, on whose disk a crash at any moment of the first run left an image. Answers both exit statuses.
/// The second run has a source of the settings and a report of its own.
pub fn run_again<H: Host, S: Source, K: Sink, G: Host, T: Source, L: Sink>(
    alloc: Global,
    words: &[String],
    settings: &mut S,
    host: &mut H,
    report: &mut K,
    again: &mut T,
    other: &mut G,
    last: &mut L,
) -> (u8, u8)
    // What each run has done is what `run` says of it.
    ensures first { topic_of (map string_bytes words.now) ≡ None → (ending : endings.Ending) × (result.0 ≡ status_of ending) × Behaves ending (map string_bytes words.now)
        (outside (S.left settings.old) (S.faults settings.old) (H.acts host.old) (H.Wire.faults host.old) (H.media host.old) (H.extent host.old) (H.Disk.faults host.old) (K.holds report.old) (K.faults report.old))
        (outside (S.left settings.new) (S.faults settings.new) (H.acts host.new) (H.Wire.faults host.new) (H.media host.new) (H.extent host.new) (H.Disk.faults host.new) (K.holds report.new) (K.faults report.new)) }
    ensures second { topic_of (map string_bytes words.now) ≡ None → (ending : endings.Ending) × (result.1 ≡ status_of ending) × Behaves ending (map string_bytes words.now)
        (outside (T.left again.old) (T.faults again.old) (G.acts other.old) (G.Wire.faults other.old) (G.media other.old) (G.extent other.old) (G.Disk.faults other.old) (L.holds last.old) (L.faults last.old))
        (outside (T.left again.new) (T.faults again.new) (G.acts other.new) (G.Wire.faults other.new) (G.media other.new) (G.extent other.new) (G.Disk.faults other.new) (L.holds last.new) (L.faults last.new)) }

    // What the second run begins from is what the first one's clause says of the crash: a front of what that accepted, with all that it had told
    // before. So it is at each moment, whatever the crash leaves and however the two ended, where the first disk had nothing pending at the start and
    // both tell.
    ensures goes_on { (settings_of : SettingsValue) (before now : Outside) (first : HasServed settings_of before now)
        → before.media ≡ H.media host.old → now.media ≡ H.media host.new
        → (seen : ℕ → ℕ) (sees : Sees before.media seen) → RestsWith before.media (Is seen) → (xs ys : List Timed) → before.acts ≡ Some xs → now.acts ≡ Some ys
        → (m : ℕ) (image : ℕ → ℕ) → CrashLeaves m (H.media host.old) (H.media host.new) image → Sees (G.media other.old) image
        → (then after : Outside) (second : HasServed settings_of then after) → then.media ≡ G.media other.old
        → (acts : List Timed) × (ys ≡ xs ++ acts) × GoesOn settings_of (begun_from settings_of first.stored) acts (first.runs_from seen sees).trace (first.runs_from seen sees).end.last.history m second.stored }

    // Where the first run recovered nothing, the second one recovers what the disk had held.
    ensures opens { (settings_of : SettingsValue) (fault : JournalFault) (before now : Outside) (first : Unrecovers settings_of fault before now)
        → before.media ≡ H.media host.old → now.media ≡ H.media host.new
        → (seen : ℕ → ℕ) (entries : List Entry) → RestsWith before.media (Is seen) → HasEntries settings_of seen entries
        → (m : ℕ) (image : ℕ → ℕ) → CrashLeaves m (H.media host.old) (H.media host.new) image → Sees (G.media other.old) image
        → (then after : Outside) (second : HasServed settings_of then after) → then.media ≡ G.media other.old → second.stored ≡ entries }

    // And that disk isn't refused: where it is large enough and nothing fails, the second run goes well, want of memory and 2^40 events without End
    // aside.
    ensures well { (settings_of : SettingsValue) (before now : Outside) (first : HasServed settings_of before now)
        → before.media ≡ H.media host.old → now.media ≡ H.media host.new
        → (seen : ℕ → ℕ) (sees : Sees before.media seen) → RestsWith before.media (Is seen) → (xs ys : List Timed) → before.acts ≡ Some xs → now.acts ≡ Some ys
        → (m : ℕ) (image : ℕ → ℕ) → CrashLeaves m (H.media host.old) (H.media host.new) image → Sees (G.media other.old) image
        → (gives : GivesSettings (T.left again.old)) → gives.settings ≡ settings_of → needed_of (slots_of settings_of) ≤ G.extent other.old
        → is_served (map string_bytes words.now) ≡ true
        → ¬ (Rose (T.faults again.old) (T.faults again.new)) → ¬ (Rose (G.Wire.faults other.old) (G.Wire.faults other.new))
        → ¬ (Rose (G.Disk.faults other.old) (G.Disk.faults other.new)) → ¬ (Rose (L.faults last.old) (L.faults last.new))
        → (result.1 ≡ 0) ⊎ (result.1 ≡ 4) ⊎ (result.1 ≡ 11) }
{
    let status = run(alloc, words, settings, host, report);
    let second = run(alloc, words, again, other, last);
    (status, second)
}
