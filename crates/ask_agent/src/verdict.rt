//! What became of the ask of a client that asks once.

ghost use Rattle.std.specs.Prelude.{◌≡◌};
ghost use Rattle.dots_host.specs.AgentWriting.{Wrote};
ghost use Rattle.ask_agent.specs.declared.verdict.Verdict.TheVariants as said;
ghost use Rattle.ask_agent.specs.Protecting.{verdict_of, verdict_line, verdict_status};

use crate::asker::Asker;
use crate::refusal::Refusal;
use coap_message::code_text;
use dots_host::{Failed, Sink, write_pieces};
use itoa::Buffer;

/// What became of an ask.
#[derive(Clone, Copy)]
pub enum Verdict {
    /// The server granted it under this mid, for so many seconds, or -1 for an indefinite lifetime.
    Granted { mid: u32, lifetime: i32 },
    /// The server answered it with this code.
    Refused { mid: u32, code: u8 },
    /// No answer came.
    NoAnswer,
    /// Memory ran out before it was sent.
    Unasked,
}

impl Verdict {
    /// The exit status.
    pub fn status(self) -> u8
        ensures { result ≡ verdict_status self }
    {
        match self {
            Verdict::Granted { .. } => 0,
            Verdict::Refused { .. } => 12,
            Verdict::NoAnswer => 13,
            Verdict::Unasked => 4,
        }
    }
}

/// What became of the one ask of a client.
pub fn verdict_of(asker: &Asker) -> Verdict
    ensures { result ≡ verdict_of asker.now }
{
    if let [_, ..] = asker.unsent() {
        return Verdict::Unasked;
    }
    if let [row, ..] = asker.client().ledger() {
        return Verdict::Granted {
            mid: row.mid,
            lifetime: row.lifetime,
        };
    }
    match asker.refused() {
        Some(Refusal { mid, code }) => Verdict::Refused { mid, code },
        None => Verdict::NoAnswer,
    }
}

/// Writes the line of a verdict. Where the sink fails a beginning of it was written.
pub fn write_verdict<K: Sink>(verdict: Verdict, report: &mut K) -> Result<(), Failed>
    ensures { Wrote (K.holds report.old) (K.faults report.old) (K.holds report.new) (K.faults report.new) result (verdict_line verdict) }
{
    match verdict {
        Verdict::Granted { mid, lifetime } => return write_granted(mid, lifetime, report),
        Verdict::Refused { mid, code } => return write_refused(mid, code, report),
        Verdict::NoAnswer => return write_pieces(report, &[b"no answer\n".as_slice()]),
        Verdict::Unasked => return write_pieces(report, &[]),
    }
}

/// Writes `granted MID LIFETIME`.
fn write_granted<K: Sink>(mid: u32, lifetime: i32, report: &mut K) -> Result<(), Failed>
    ensures { Wrote (K.holds report.old) (K.faults report.old) (K.holds report.new) (K.faults report.new) result (verdict_line (said.Granted mid lifetime)) }
{
    let mut number = Buffer::new();
    let mut seconds = Buffer::new();
    let pieces = [
        b"granted ".as_slice(),
        number.format(mid).as_bytes(),
        b" ".as_slice(),
        seconds.format(lifetime).as_bytes(),
        b"\n".as_slice(),
    ];
    write_pieces(report, &pieces)
}

/// Writes `refused MID C.DD`.
fn write_refused<K: Sink>(mid: u32, code: u8, report: &mut K) -> Result<(), Failed>
    ensures { Wrote (K.holds report.old) (K.faults report.old) (K.holds report.new) (K.faults report.new) result (verdict_line (said.Refused mid code)) }
{
    let mut number = Buffer::new();
    let code = code_text(code);
    let pieces = [
        b"refused ".as_slice(),
        number.format(mid).as_bytes(),
        b" ".as_slice(),
        code.as_slice(),
        b"\n".as_slice(),
    ];
    write_pieces(report, &pieces)
}
