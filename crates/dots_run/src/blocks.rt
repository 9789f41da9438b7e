//! The top call over a host from which long replies leave in blocks (RFC 7959).

ghost use Rattle.std.specs.Prelude.{◌≡◌, ◌≤◌, map, false, string_bytes, Some, None};
ghost use Rattle.dots_host.specs.Causes.{Rose};
ghost use Rattle.dots_machine.specs.Commands.{is_served};
ghost use Rattle.dots_machine.specs.Outside.{outside};
ghost use Rattle.dots_run.specs.declared.topic.Topic as topics;
ghost use Rattle.dots_run.specs.declared.topic_outcome.TopicOutcome as tolds;
ghost use Rattle.dots_run.specs.Reporting.{outcome_status, ReportsTopic};
ghost use Rattle.dots_run.specs.Topics.{is_check, is_check_script, topic_of};
ghost use Rattle.dots_run.specs.Outcomes.{Outcome};
ghost use Rattle.dots_run.specs.Onlooking.{ShowsInBlocks};

use crate::running::run_shown;
use crate::words::is_served;
use coap_block::BlockHost;
use dots_host::{Host, Sink, Source};
use dots_server::{Nobody, Onlooker};
use std::alloc::Global;

/// The exit status where no memory is found.
const NO_MEMORY: u8 = 4;

/// What is left of a run.
#[derive(Drop)]
pub struct Ended<H> {
    /// The exit status of the program.
    pub status: u8,
    /// The host that it ran over.
    pub host: H,
}

/// Does all that the program does, as [`run_shown`], and replies leave in blocks: where a GET asks for a block of its reply, and where the
/// payload of the reply has more than 1,024 bytes. A notification with such a payload leaves as its first block. With `replay` and `serve` a
/// [`BlockHost`] is put around the host and taken away again. Status 4 where no memory is found for that: then nothing was read, taken or sent.
pub fn run_blocks<H: Host, S: Source, K: Sink, W: Onlooker<BlockHost<H>>>(
    alloc: Global,
    words: &[String],
    settings: &mut S,
    host: H,
    report: &mut K,
    onlooker: &mut W,
) -> Ended<H>
    // What the run has done, of the acts as they were seen above, by the ending that its status is of; how the host's acts stand to these; and what of
    // it the onlooker saw.
    ensures machine { topic_of (map string_bytes words.now) ≡ None → ShowsInBlocks (map string_bytes words.now) result.status
        (outside (S.left settings.old) (S.faults settings.old) (H.acts host) (H.Wire.faults host) (H.media host) (H.extent host) (H.Disk.faults host) (K.holds report.old) (K.faults report.old))
        (outside (S.left settings.new) (S.faults settings.new) (H.acts result.host) (H.Wire.faults result.host) (H.media result.host) (H.extent result.host) (H.Disk.faults result.host) (K.holds report.new) (K.faults report.new))
        (result.host ≡ host) (onlooker.new ≡ onlooker.old) (W.sees onlooker.old onlooker.new) }
    // What is told without serving, as by `run`.
    ensures told { (topic : topics.Topic) → topic_of (map string_bytes words.now) ≡ Some topic
        → (end : tolds.TopicOutcome) × (result.status ≡ outcome_status end) × ReportsTopic topic end (S.left settings.old) (K.holds report.old) (K.holds report.new)
        (Rose (S.faults settings.old) (S.faults settings.new)) (Rose (K.faults report.old) (K.faults report.new)) }
    // What the host says of its own calls.
    ensures leads { H.leads host result.host }
    // What the status says of the words, of the settings and of what failed, as by `run`: no clause speaks of acts.
    ensures outcome { Outcome (map string_bytes words.now) result.status
        (outside (S.left settings.old) (S.faults settings.old) (H.acts host) (H.Wire.faults host) (H.media host) (H.extent host) (H.Disk.faults host) (K.holds report.old) (K.faults report.old))
        (outside (S.left settings.new) (S.faults settings.new) (H.acts result.host) (H.Wire.faults result.host) (H.media result.host) (H.extent result.host) (H.Disk.faults result.host) (K.holds report.new) (K.faults report.new)) }
    // What isn't called, as by `run`.
    ensures unread { is_served (map string_bytes words.now) ≡ false → is_check (map string_bytes words.now) ≡ false
        → is_check_script (map string_bytes words.now) ≡ false → settings.new ≡ settings.old }
    ensures unserved { is_served (map string_bytes words.now) ≡ false → result.host ≡ host }
    ensures unshown { is_served (map string_bytes words.now) ≡ false → onlooker.new ≡ onlooker.old }
    ensures uncalled { 1 ≤ result.status → result.status ≤ 3 → result.host ≡ host }
{
    if !is_served(words) {
        let mut host = host;
        let status = run_shown(alloc, words, settings, &mut host, report, &mut Nobody);
        return Ended { status, host };
    }
    match BlockHost::new(alloc, host) {
        Ok(mut around) => {
            let status = run_shown(alloc, words, settings, &mut around, report, onlooker);
            return Ended {
                status,
                host: around.into_inner(),
            };
        }
        Err(host) => {
            return Ended {
                status: NO_MEMORY,
                host,
            };
        }
    }
}
