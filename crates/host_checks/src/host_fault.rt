//! What is told of a host file with a fault.

ghost use Rattle.std.specs.Prelude.{◌≡◌, ◌≢◌, ◌-◌, ◌++◌, drop, map, Some, IfOk, OnOk};
ghost use Rattle.dots_lists.specs.Lines.{lines_of, fields_of};
ghost use Rattle.dots_script.specs.Checks.{quoted_part};
ghost use Rattle.dots_edge.specs.HostFile.{IsRefused};
ghost use Rattle.dots_edge.specs.FaultText.{fault_text};
ghost use Rattle.dots_edge.specs.declared.host_fault.HostFault.TheVariants as fault;
ghost use Rattle.host_checks.specs.HostChecks.{line_at, number_of, report_of, IsAtFault};

use crate::findings::add_numbered;
use crate::reasons::reason_words;
use dots_edge::{Complaint, HostFault, complaint_about};
use dots_lists::{Bytes, NoMemory, fields_of, split_line};
use dots_script::{end_quoted, quoted_part};
use itoa::Buffer;
use std::alloc::Global;

/// The line of the first fault of a host file, and another that says why in plain words and quotes what is to be mended.
pub fn host_fault_report(alloc: Global, file: &[u8], why: HostFault) -> Result<Bytes, NoMemory>
    requires refused { IsRefused file.now why }
    ensures { IfOk result (λ text. IsAtFault file.now text) }
{
    let line = line_at(file, number_of(why));
    match complaint_about(why, line) {
        Some(complaint) => report_of(alloc, why, complaint, line),
        None => Err(NoMemory),
    }
}

/// The number of the line at fault; 0 where none is.
fn number_of(why: HostFault) -> u64
    ensures { result ≡ number_of why }
{
    match why {
        HostFault::Line { n } => n,
        HostFault::Twice { n } => n,
        HostFault::Many { n } => n,
        HostFault::Wildcard { n } => n,
        HostFault::NoMemory => 0,
    }
}

/// The line of this number; no bytes where there is none.
fn line_at(file: &[u8], number: u64) -> &[u8]
    ensures { result.now ≡ line_at file.now number }
{
    match split_line(from_line(file, number)) {
        Some((line, _)) => line,
        None => &[],
    }
}

/// What stands from the line of this number on.
fn from_line(file: &[u8], number: u64) -> &[u8]
    ensures { lines_of result.now ≡ drop (number - 1) (lines_of file.now) }
{
    let before = number.saturating_sub(1);
    let mut rest = file;
    for _turn in 0..before {
        match split_line(rest) {
            Some((_, behind)) => rest = behind,
            None => return rest,
        }
    }
    rest
}

fn report_of(
    alloc: Global,
    why: HostFault,
    complaint: Complaint,
    line: &[u8],
) -> Result<Bytes, NoMemory>
    ensures { IfOk result (λ text. text ≡ report_of why complaint line.now) }
{
    let fields = fields_of(alloc, line)?;
    let mut text = Vec::new(alloc);
    add_report(&mut text, why, complaint, line, fields.as_slice())?;
    Ok(Bytes::from_vec(text))
}

fn add_report(
    text: &mut Vec<u8>,
    why: HostFault,
    complaint: Complaint,
    line: &[u8],
    fields: &[&[u8]],
) -> Result<(), NoMemory>
    requires fields { map (λ field. field.now) fields.now ≡ fields_of line.now }
    ensures { OnOk result (text.new.items ≡ text.old.items ++ report_of why complaint line.now) }
{
    let mut buffer = Buffer::new();
    add_fault(text, why)?;
    text.extend_from_slice(b"\nline ")?;
    text.extend_from_slice(buffer.format(number_of(why)).as_bytes())?;
    text.extend_from_slice(b": ")?;
    text.extend_from_slice(reason_words(complaint.reason))?;
    text.extend_from_slice(b": ")?;
    end_quoted(text, quoted_part(complaint.field, line, fields))
}

/// Adds the words of the fault.
fn add_fault(text: &mut Vec<u8>, why: HostFault) -> Result<(), NoMemory>
    ensures { OnOk result (text.new.items ≡ text.old.items ++ fault_text why) }
{
    match why {
        HostFault::Line { n } => add_numbered(text, b"host file line ", n, b""),
        HostFault::Twice { n } => add_numbered(text, b"host file twice ", n, b""),
        HostFault::Many { n } => add_numbered(text, b"host file many ", n, b""),
        HostFault::Wildcard { n } => add_numbered(text, b"host file wildcard ", n, b""),
        HostFault::NoMemory => {
            text.extend_from_slice(b"out of memory")?;
            Ok(())
        }
    }
}
