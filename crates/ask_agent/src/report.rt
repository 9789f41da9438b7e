//! The report of a client.

ghost use Rattle.std.specs.Prelude.{◌≡◌, flat_map};
ghost use Rattle.dots_host.specs.AgentWriting.{Wrote};
ghost use Rattle.ask_agent.specs.Report.{why_words, why_number, digits_of, unsent_line, granted_line, refusal_line, report_of};

use crate::asker::Asker;
use crate::unsent::{Unsent, Why};
use dots_client::{AskFault, Granted};
use dots_host::{Failed, Sink, write_pieces};
use itoa::Buffer;

/// Writes what wasn't sent, and what is granted. Where the sink fails a beginning of that was written.
pub fn write_report<K: Sink>(asker: &Asker, report: &mut K) -> Result<(), Failed>
    ensures { Wrote (K.holds report.old) (K.faults report.old) (K.holds report.new) (K.faults report.new) result (report_of asker.now) }
{
    match write_unsent(asker.unsent(), report) {
        Ok(()) => return write_granted(asker.client().ledger(), report),
        Err(Failed) => return Err(Failed),
    }
}

/// Writes a line for each ask that wasn't sent.
fn write_unsent<K: Sink>(asks: &[Unsent], report: &mut K) -> Result<(), Failed>
    ensures { Wrote (K.holds report.old) (K.faults report.old) (K.holds report.new) (K.faults report.new) result (flat_map unsent_line asks.now) }
{
    for ask in asks {
        match write_ask(ask, report) {
            Ok(()) => {}
            Err(Failed) => return Err(Failed),
        }
    }
    Ok(())
}

/// Writes a line for each mitigation that is granted.
fn write_granted<K: Sink>(rows: &[Granted], report: &mut K) -> Result<(), Failed>
    ensures { Wrote (K.holds report.old) (K.faults report.old) (K.holds report.new) (K.faults report.new) result (flat_map granted_line rows.now) }
{
    for row in rows {
        match write_row(row, report) {
            Ok(()) => {}
            Err(Failed) => return Err(Failed),
        }
    }
    Ok(())
}

/// Writes `ask N WHY`.
fn write_ask<K: Sink>(ask: &Unsent, report: &mut K) -> Result<(), Failed>
    ensures { Wrote (K.holds report.old) (K.faults report.old) (K.holds report.new) (K.faults report.new) result (unsent_line ask.now) }
{
    let mut number = Buffer::new();
    let mut digits = Buffer::new();
    let behind = digits_of(&mut digits, why_number(ask.why));
    let pieces = [
        b"ask ".as_slice(),
        number.format(ask.number).as_bytes(),
        why_words(ask.why),
        behind,
        b"\n".as_slice(),
    ];
    write_pieces(report, &pieces)
}

/// The digits of a number, where there is one.
fn digits_of(buffer: &mut Buffer, number: Option<u64>) -> &[u8]
    ensures { result.now ≡ digits_of number }
{
    match number {
        Some(number) => buffer.format(number).as_bytes(),
        None => b"",
    }
}

fn why_words(why: Why) -> &'static [u8]
    ensures { result.now ≡ why_words why }
{
    match why {
        Why::Unknown { .. } => b" unknown ",
        Why::Refused(AskFault::Busy { .. }) => b" busy ",
        Why::Refused(AskFault::MidSpent) => b" spent",
        Why::Refused(AskFault::Full { .. }) => b" full ",
        Why::Refused(AskFault::NoMemory) => b" memory",
    }
}

fn why_number(why: Why) -> Option<u64>
    ensures { result ≡ why_number why }
{
    match why {
        Why::Unknown { mid } | Why::Refused(AskFault::Busy { mid }) => Some(u64::from(mid)),
        Why::Refused(AskFault::Full { number }) => Some(number),
        Why::Refused(AskFault::MidSpent | AskFault::NoMemory) => None,
    }
}

/// Writes `granted MID LIFETIME AT`.
fn write_row<K: Sink>(row: &Granted, report: &mut K) -> Result<(), Failed>
    ensures { Wrote (K.holds report.old) (K.faults report.old) (K.holds report.new) (K.faults report.new) result (granted_line row.now) }
{
    let mut mid = Buffer::new();
    let mut lifetime = Buffer::new();
    let mut at = Buffer::new();
    let pieces = [
        b"granted ".as_slice(),
        mid.format(row.mid).as_bytes(),
        b" ".as_slice(),
        lifetime.format(row.lifetime).as_bytes(),
        b" ".as_slice(),
        at.format(row.at).as_bytes(),
        b"\n".as_slice(),
    ];
    write_pieces(report, &pieces)
}

/// Writes the line that names a line of the settings at fault.
pub fn write_refusal<K: Sink>(line: u32, report: &mut K) -> Result<(), Failed>
    ensures { Wrote (K.holds report.old) (K.faults report.old) (K.holds report.new) (K.faults report.new) result (refusal_line line) }
{
    let mut digits = Buffer::new();
    let pieces = [
        b"settings line ".as_slice(),
        digits.format(line).as_bytes(),
        b"\n".as_slice(),
    ];
    write_pieces(report, &pieces)
}
