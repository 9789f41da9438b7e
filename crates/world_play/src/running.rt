//! The whole program.

ghost use Rattle.std.specs.Prelude.{map, string_bytes, IfOk, Some};
ghost use Rattle.dots_host.specs.Causes.{Rose};
ghost use Rattle.world_play.specs.Commands.{world_of};
ghost use Rattle.world_play.specs.Report.{WorldReported};
ghost use Rattle.world_play.specs.Outcomes.{EndsOf, Ends};

use crate::report::report_of;
use crate::run_playing::play_drawn;
use crate::words::world_of;
use dots_host::{Sink, write_all};
use dots_lists::NoMemory;
use std::alloc::Global;

/// The exit statuses.
const WRITTEN: u8 = 0;

const WRONG_WORDS: u8 = 2;

const NO_MEMORY: u8 = 4;

const UNWRITTEN: u8 = 9;

/// Does what the words `world N` ask for: plays the generated world of the seed N, and writes its report. The status that it answers is 0
/// where all of the report is written, 2 where the words are others, 4 for want of memory, and 9 where the sink failed.
pub fn run_world<K: Sink>(alloc: Global, words: &[String], report: &mut K) -> u8
    ensures { Ends (world_of (map string_bytes words.now)) result (K.holds report.old) (K.holds report.new) (Rose (K.faults report.old) (K.faults report.new)) }
{
    match world_of(words) {
        Some(seed) => return write_world(alloc, seed, report),
        None => {
            let _ = write_all(report, b"words\n");
            return WRONG_WORDS;
        }
    }
}

/// Writes the report of a generated world, and answers the exit status.
fn write_world<K: Sink>(alloc: Global, seed: u64, report: &mut K) -> u8
    ensures { EndsOf seed result (K.holds report.old) (K.holds report.new) (Rose (K.faults report.old) (K.faults report.new)) }
{
    match world_report(alloc, seed) {
        Ok(text) => match write_all(report, text.as_bytes()) {
            Ok(()) => return WRITTEN,
            Err(_) => return UNWRITTEN,
        },
        Err(NoMemory) => return NO_MEMORY,
    }
}

/// The report of the generated world of a seed.
///
/// # Errors
///
/// Only for want of memory: of this call, of a party, or of a host.
pub fn world_report(alloc: Global, seed: u64) -> Result<String, NoMemory>
    ensures { IfOk result (λ text. WorldReported seed (string_bytes text)) }
{
    let played = play_drawn(alloc, seed)?;
    let report = report_of(alloc, &played);
    played.let_go();
    report
}
