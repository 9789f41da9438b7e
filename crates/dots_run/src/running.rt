//! The top call.

ghost use Rattle.std.specs.Prelude.{◌≡◌, ◌≢◌, ◌≤◌, ◌⊎◌, ◌↔◌, map, false, true, string_bytes, Some, None};
ghost use Rattle.dots_host.specs.Causes.{Rose};
ghost use Rattle.dots_machine.specs.declared.ending.Ending as endings;
ghost use Rattle.dots_machine.specs.Commands.{is_served, is_show, second_of};
ghost use Rattle.dots_machine.specs.Endings.{status_of, has_hosted, Behaves, GivesFault, IsReady, IsReadable};
ghost use Rattle.dots_machine.specs.Outside.{outside};
ghost use Rattle.dots_run.specs.declared.topic.Topic as topics;
ghost use Rattle.dots_run.specs.declared.topic_outcome.TopicOutcome as tolds;
ghost use Rattle.dots_run.specs.Reporting.{outcome_status, ReportsTopic, IsSound, IsAtFault};
ghost use Rattle.dots_run.specs.Outcomes.{IsTooSmall};
ghost use Rattle.dots_run.specs.Onlooking.{SawWhereKnown};
ghost use Rattle.dots_run.specs.Topics.{is_check, is_check_script, topic_of, is_known};

use crate::outcome::run_machine;
use crate::reporting::report_topic;
use crate::topics::topic_of;
use dots_host::{Host, Sink, Source};
use dots_server::{Nobody, Onlooker};
use std::alloc::Global;

/// Does all that the program does, and answers its exit status.
///
/// `words` are the command line's words without the program's name. With `replay SETTINGS` the settings are read
/// from the source, what the host's disk holds is recovered, the events are taken from the host, and at End the filters that stand are written
/// to the report. With `show HEX` the lines of a message are written to the report, or that of its fault, and neither source
/// nor host is called. With `check SETTINGS` and `check-script` the source gives what is checked, and what it comes to, or its
/// first fault and why it is one, is written to the report; with `help` or `--help` the usage is, and with `version` or `--version` the
/// version; and with `load N` the report of a generated run is. None of these calls the host.
pub fn run<H: Host, S: Source, K: Sink>(
    alloc: Global,
    words: &[String],
    settings: &mut S,
    host: &mut H,
    report: &mut K,
) -> u8
    // What the run has done, by the ending that its status is of. Where it didn't come to its host, that was not called.
    ensures machine { topic_of (map string_bytes words.now) ≡ None → (ending : endings.Ending) × (result ≡ status_of ending)
        × Behaves ending (map string_bytes words.now)
        (outside (S.left settings.old) (S.faults settings.old) (H.acts host.old) (H.Wire.faults host.old) (H.media host.old) (H.extent host.old) (H.Disk.faults host.old) (K.holds report.old) (K.faults report.old))
        (outside (S.left settings.new) (S.faults settings.new) (H.acts host.new) (H.Wire.faults host.new) (H.media host.new) (H.extent host.new) (H.Disk.faults host.new) (K.holds report.new) (K.faults report.new))
        × (has_hosted ending ≡ false → host.new ≡ host.old) }
    // What is told without serving, where the words ask for that: what was found in the source, and what of it was written.
    ensures told { (topic : topics.Topic) → topic_of (map string_bytes words.now) ≡ Some topic
        → (end : tolds.TopicOutcome) × (result ≡ outcome_status end) × ReportsTopic topic end (S.left settings.old) (K.holds report.old) (K.holds report.new)
        (Rose (S.faults settings.old) (S.faults settings.new)) (Rose (K.faults report.old) (K.faults report.new)) }
    // What the host says of its own calls.
    ensures leads { H.leads host.old host.new }
    // When the words are no line that the program knows; which faults there must have been, and where none was.
    ensures words { (result ≡ 2) ↔ (is_known (map string_bytes words.now) ≡ false) }
    ensures read { result ≡ 5 → Rose (S.faults settings.old) (S.faults settings.new)
        ⊎ Rose (H.Wire.faults host.old) (H.Wire.faults host.new) }
    ensures heard { result ≢ 4 → result ≢ 5 → S.faults settings.new ≡ S.faults settings.old }
    ensures written { result ≡ 9 → Rose (K.faults report.old) (K.faults report.new) }
    // What isn't called: the source for words that name no file and check no script, nor the host where nothing was served.
    ensures unread { is_served (map string_bytes words.now) ≡ false → is_check (map string_bytes words.now) ≡ false
        → is_check_script (map string_bytes words.now) ≡ false → settings.new ≡ settings.old }
    ensures unserved { is_served (map string_bytes words.now) ≡ false → host.new ≡ host.old }
    ensures uncalled { 1 ≤ result → result ≤ 3 → host.new ≡ host.old }
    // When there must have been a failure of the disk, and when there was none; and when the disk is too small, whatever it tells of its content.
    ensures disk { result ≡ 6 → Rose (H.Disk.faults host.old) (H.Disk.faults host.new) }
    ensures unfailed { result ≢ 6 → H.Disk.faults host.new ≡ H.Disk.faults host.old }
    ensures small { result ≡ 10 → IsTooSmall (S.left settings.old) (H.extent host.old) }
    // When the settings are refused, and when a run must go well, want of memory and 2^40 events without End aside: where the disk holds what a
    // server leaves there.
    ensures refused { is_served (map string_bytes words.now) ≡ true → GivesFault (S.left settings.old)
        → ((result ≡ 3) × (S.faults settings.new ≡ S.faults settings.old)) ⊎ (result ≡ 4) ⊎ ((result ≡ 5) × Rose (S.faults settings.old) (S.faults settings.new)) }
    ensures complete { is_served (map string_bytes words.now) ≡ true → IsReady (S.left settings.old) (H.media host.old) (H.extent host.old)
        → ¬ (Rose (S.faults settings.old) (S.faults settings.new)) → ¬ (Rose (H.Wire.faults host.old) (H.Wire.faults host.new))
        → ¬ (Rose (H.Disk.faults host.old) (H.Disk.faults host.new)) → ¬ (Rose (K.faults report.old) (K.faults report.new))
        → (result ≡ 0) ⊎ (result ≡ 4) ⊎ (result ≡ 11) }
    // When a message is shown, and when a fault is, want of memory aside.
    ensures readable { is_show (map string_bytes words.now) ≡ true → IsReadable (second_of (map string_bytes words.now))
        → ¬ (Rose (K.faults report.old) (K.faults report.new)) → (result ≡ 0) ⊎ (result ≡ 4) }
    ensures unreadable { is_show (map string_bytes words.now) ≡ true → ¬ (IsReadable (second_of (map string_bytes words.now)))
        → (result ≡ 1) ⊎ (result ≡ 4) }
    // When what is checked has no fault, and when it has one, want of memory aside.
    ensures sound { (topic : topics.Topic) → topic_of (map string_bytes words.now) ≡ Some topic → IsSound topic (S.left settings.old)
        → ¬ (Rose (S.faults settings.old) (S.faults settings.new)) → ¬ (Rose (K.faults report.old) (K.faults report.new))
        → (result ≡ 0) ⊎ (result ≡ 4) }
    ensures at_fault { (topic : topics.Topic) → topic_of (map string_bytes words.now) ≡ Some topic → IsAtFault topic (S.left settings.old)
        → ¬ (Rose (S.faults settings.old) (S.faults settings.new)) → (result ≡ 3) ⊎ (result ≡ 4) }
{
    run_shown(alloc, words, settings, host, report, &mut Nobody)
}

/// Does what [`run`] does, and shows the server to an onlooker at each tick.
pub fn run_shown<H: Host, S: Source, K: Sink, W: Onlooker<H>>(
    alloc: Global,
    words: &[String],
    settings: &mut S,
    host: &mut H,
    report: &mut K,
    onlooker: &mut W,
) -> u8
    // What the run has done, by the ending that its status is of. Where it didn't come to its host, that was not called. Where it served events, the
    // onlooker saw at each tick a server that represents the state after it, and nothing else; and where it didn't, nothing.
    ensures machine { topic_of (map string_bytes words.now) ≡ None → (ending : endings.Ending) × (result ≡ status_of ending)
        × Behaves ending (map string_bytes words.now)
        (outside (S.left settings.old) (S.faults settings.old) (H.acts host.old) (H.Wire.faults host.old) (H.media host.old) (H.extent host.old) (H.Disk.faults host.old) (K.holds report.old) (K.faults report.old))
        (outside (S.left settings.new) (S.faults settings.new) (H.acts host.new) (H.Wire.faults host.new) (H.media host.new) (H.extent host.new) (H.Disk.faults host.new) (K.holds report.new) (K.faults report.new))
        × (has_hosted ending ≡ false → host.new ≡ host.old)
        × SawWhereKnown ending
        (outside (S.left settings.old) (S.faults settings.old) (H.acts host.old) (H.Wire.faults host.old) (H.media host.old) (H.extent host.old) (H.Disk.faults host.old) (K.holds report.old) (K.faults report.old))
        (outside (S.left settings.new) (S.faults settings.new) (H.acts host.new) (H.Wire.faults host.new) (H.media host.new) (H.extent host.new) (H.Disk.faults host.new) (K.holds report.new) (K.faults report.new))
        (onlooker.new ≡ onlooker.old) (W.sees onlooker.old onlooker.new) }
    // What is told without serving, where the words ask for that: what was found in the source, and what of it was written.
    ensures told { (topic : topics.Topic) → topic_of (map string_bytes words.now) ≡ Some topic
        → (end : tolds.TopicOutcome) × (result ≡ outcome_status end) × ReportsTopic topic end (S.left settings.old) (K.holds report.old) (K.holds report.new)
        (Rose (S.faults settings.old) (S.faults settings.new)) (Rose (K.faults report.old) (K.faults report.new)) }
    // What the host says of its own calls.
    ensures leads { H.leads host.old host.new }
    // When the words are no line that the program knows; which faults there must have been, and where none was.
    ensures words { (result ≡ 2) ↔ (is_known (map string_bytes words.now) ≡ false) }
    ensures read { result ≡ 5 → Rose (S.faults settings.old) (S.faults settings.new)
        ⊎ Rose (H.Wire.faults host.old) (H.Wire.faults host.new) }
    ensures heard { result ≢ 4 → result ≢ 5 → S.faults settings.new ≡ S.faults settings.old }
    ensures written { result ≡ 9 → Rose (K.faults report.old) (K.faults report.new) }
    // What isn't called: the source for words that name no file and check no script, nor the host where nothing was served.
    ensures unread { is_served (map string_bytes words.now) ≡ false → is_check (map string_bytes words.now) ≡ false
        → is_check_script (map string_bytes words.now) ≡ false → settings.new ≡ settings.old }
    ensures unserved { is_served (map string_bytes words.now) ≡ false → host.new ≡ host.old }
    ensures unshown { is_served (map string_bytes words.now) ≡ false → onlooker.new ≡ onlooker.old }
    ensures uncalled { 1 ≤ result → result ≤ 3 → host.new ≡ host.old }
    // When there must have been a failure of the disk, and when there was none; and when the disk is too small, whatever it tells of its content.
    ensures disk { result ≡ 6 → Rose (H.Disk.faults host.old) (H.Disk.faults host.new) }
    ensures unfailed { result ≢ 6 → H.Disk.faults host.new ≡ H.Disk.faults host.old }
    ensures small { result ≡ 10 → IsTooSmall (S.left settings.old) (H.extent host.old) }
    // When the settings are refused, and when a run must go well, want of memory and 2^40 events without End aside: where the disk holds what a
    // server leaves there.
    ensures refused { is_served (map string_bytes words.now) ≡ true → GivesFault (S.left settings.old)
        → ((result ≡ 3) × (S.faults settings.new ≡ S.faults settings.old)) ⊎ (result ≡ 4) ⊎ ((result ≡ 5) × Rose (S.faults settings.old) (S.faults settings.new)) }
    ensures complete { is_served (map string_bytes words.now) ≡ true → IsReady (S.left settings.old) (H.media host.old) (H.extent host.old)
        → ¬ (Rose (S.faults settings.old) (S.faults settings.new)) → ¬ (Rose (H.Wire.faults host.old) (H.Wire.faults host.new))
        → ¬ (Rose (H.Disk.faults host.old) (H.Disk.faults host.new)) → ¬ (Rose (K.faults report.old) (K.faults report.new))
        → (result ≡ 0) ⊎ (result ≡ 4) ⊎ (result ≡ 11) }
    // When a message is shown, and when a fault is, want of memory aside.
    ensures readable { is_show (map string_bytes words.now) ≡ true → IsReadable (second_of (map string_bytes words.now))
        → ¬ (Rose (K.faults report.old) (K.faults report.new)) → (result ≡ 0) ⊎ (result ≡ 4) }
    ensures unreadable { is_show (map string_bytes words.now) ≡ true → ¬ (IsReadable (second_of (map string_bytes words.now)))
        → (result ≡ 1) ⊎ (result ≡ 4) }
    // When what is checked has no fault, and when it has one, want of memory aside.
    ensures sound { (topic : topics.Topic) → topic_of (map string_bytes words.now) ≡ Some topic → IsSound topic (S.left settings.old)
        → ¬ (Rose (S.faults settings.old) (S.faults settings.new)) → ¬ (Rose (K.faults report.old) (K.faults report.new))
        → (result ≡ 0) ⊎ (result ≡ 4) }
    ensures at_fault { (topic : topics.Topic) → topic_of (map string_bytes words.now) ≡ Some topic → IsAtFault topic (S.left settings.old)
        → ¬ (Rose (S.faults settings.old) (S.faults settings.new)) → (result ≡ 3) ⊎ (result ≡ 4) }
{
    match topic_of(words) {
        Some(topic) => return report_topic(alloc, topic, settings, report).status(),
        None => return run_machine(alloc, words, settings, host, report, onlooker),
    }
}
