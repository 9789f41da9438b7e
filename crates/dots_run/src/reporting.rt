//! Telling of a topic.

ghost use Rattle.std.specs.Prelude.{◌≡◌, ◌⊎◌, false, Result, Ok, IfSome};
ghost use Rattle.dots_host.specs.Causes.{Rose};
ghost use Rattle.dots_script.specs.declared.checked.Checked.{Checked};
ghost use Rattle.dots_script.specs.declared.checked.Checked.TheVariants as checked;
ghost use Rattle.dots_script.specs.declared.checked.Unchecked.{Unchecked};
ghost use Rattle.dots_run.specs.Load.{FindsLoad};
ghost use Rattle.dots_run.specs.declared.topic_outcome.TopicOutcome.TheVariants as outcomes;
ghost use Rattle.dots_run.specs.Reporting.{has_source, Reports, ReportsTopic, IsSound, IsAtFault};

use crate::load::run_load;
use crate::topic::Topic;
use crate::topic_outcome::TopicOutcome;
use crate::wording::{usage, version};
use dots_host::{Sink, Source, write_all};
use dots_script::{Checked, Unchecked, check_script, check_settings};
use std::alloc::Global;

/// Writes to the report what is to be told of the topic: for settings and scripts what the source's bytes come to, or their
/// first fault and why it is one. The source is read to its end, or past the greatest size of a settings file; for other topics
/// it isn't called.
pub fn report_topic<S: Source, K: Sink>(
    alloc: Global,
    topic: Topic,
    source: &mut S,
    report: &mut K,
) -> TopicOutcome
    // What was found, and what of it was written.
    ensures reported { ReportsTopic topic result (S.left source.old) (K.holds report.old) (K.holds report.new)
        (Rose (S.faults source.old) (S.faults source.new)) (Rose (K.faults report.old) (K.faults report.new)) }
    // The calls of the source.
    ensures unread { has_source topic ≡ false → source.new ≡ source.old }
    ensures heard { (result ≡ outcomes.NoMemory) ⊎ ((result ≡ outcomes.Unread) ⊎ (S.faults source.new ≡ S.faults source.old)) }
    // What must have failed.
    ensures read { result ≡ outcomes.Unread → Rose (S.faults source.old) (S.faults source.new) }
    ensures written { result ≡ outcomes.Failed → Rose (K.faults report.old) (K.faults report.new) }
    // When there is no fault, and when there is one, want of memory aside.
    ensures sound { IsSound topic (S.left source.old) → ¬ (Rose (S.faults source.old) (S.faults source.new))
        → ¬ (Rose (K.faults report.old) (K.faults report.new)) → (result ≡ outcomes.Written) ⊎ (result ≡ outcomes.NoMemory) }
    ensures at_fault { IsAtFault topic (S.left source.old) → ¬ (Rose (S.faults source.old) (S.faults source.new))
        → (result ≡ outcomes.AtFault) ⊎ (result ≡ outcomes.NoMemory) }
{
    match topic {
        Topic::Settings => return report_found(check_settings(alloc, source), report),
        Topic::Script => return report_found(check_script(alloc, source), report),
        Topic::Usage => return write_good(usage(), report),
        Topic::Version => return write_good(version(), report),
        Topic::Load(number) => return report_load(alloc, number, report),
    }
}

/// Writes the report of a generated run.
fn report_load<K: Sink>(alloc: Global, number: u64, report: &mut K) -> TopicOutcome
    ensures { (found : Result Checked Unchecked) × FindsLoad number found
        × Reports found result (K.holds report.old) (K.holds report.new) (Rose (K.faults report.old) (K.faults report.new)) }
{
    match run_load(alloc, number) {
        Ok(text) => return write_good(text.as_bytes(), report),
        Err(_) => return TopicOutcome::NoMemory,
    }
}

/// Writes what was found.
pub fn report_found<K: Sink>(found: Result<Checked, Unchecked>, report: &mut K) -> TopicOutcome
    ensures { Reports found result (K.holds report.old) (K.holds report.new) (Rose (K.faults report.old) (K.faults report.new)) }
{
    match found {
        Ok(Checked::Good(text)) => return write_good(text.items(), report),
        Ok(Checked::AtFault(text)) => {
            let _ = write_all(report, text.items());
            return TopicOutcome::AtFault;
        }
        Err(Unchecked::ReadFailed) => return TopicOutcome::Unread,
        Err(Unchecked::NoMemory) => return TopicOutcome::NoMemory,
    }
}

/// Writes the text of what has no fault.
fn write_good<K: Sink>(text: &[u8], report: &mut K) -> TopicOutcome
    ensures { Reports (Ok (checked.Good text.now)) result (K.holds report.old) (K.holds report.new)
        (Rose (K.faults report.old) (K.faults report.new)) }
{
    match write_all(report, text) {
        Ok(()) => return TopicOutcome::Written,
        Err(_) => return TopicOutcome::Failed,
    }
}
