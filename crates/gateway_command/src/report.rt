//! What is written at the end.

ghost use Rattle.dots_host.specs.AgentWriting.{Wrote};
ghost use Rattle.gateway_command.specs.Report.{waiting_line};

use dots_host::{Failed, Sink, write_pieces};
use itoa::Buffer;

/// Writes how many exchanges wait. Where the sink fails a beginning of that was written.
pub fn write_waiting<K: Sink>(waiting: usize, report: &mut K) -> Result<(), Failed>
    ensures { Wrote (K.holds report.old) (K.faults report.old) (K.holds report.new) (K.faults report.new) result (waiting_line waiting) }
{
    let mut digits = Buffer::new();
    let pieces = [
        b"waiting ".as_slice(),
        digits.format(waiting).as_bytes(),
        b"\n".as_slice(),
    ];
    write_pieces(report, &pieces)
}
