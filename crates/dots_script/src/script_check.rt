//! What is told of a script.

ghost use Rattle.std.specs.Prelude.{◌≡◌, ◌+◌, ◌<◌, ◌≤◌, ◌++◌, List, ℕ, codes, decimal, length, map, IfOk, IfSome, IfNone, OnOk, IsTrue, ◌↔◌, ◌⊎◌};
ghost use Rattle.dots_host.specs.Causes.{Rose};
ghost use Rattle.dots_host.specs.Memory.{Coming};
ghost use Rattle.dots_host.specs.declared.TheConstants.{MAX_EVENT_BYTES};
ghost use Rattle.dots_settings.specs.Lines.{lines_of, fields_of};
ghost use Rattle.dots_script.specs.Accounts.{LineSays};
ghost use Rattle.dots_script.specs.Lines.{IsLine, IsTooLong, IsUnended, IsFault, with_feed};
ghost use Rattle.dots_script.specs.Script.{IsSkipped};
ghost use Rattle.dots_script.specs.Checks.{ChecksScript, remark_line, script_report, has_feed, line_in};
ghost use Rattle.dots_script.specs.Quoting.{quoted};

use crate::checked::{Checked, Unchecked};
use crate::event_line::parse_event;
use crate::lines::MAX_LINE_BYTES;
use crate::pieces::add_head;
use crate::quoting::end_quoted;
use crate::reading::read_whole;
use crate::remark::Remark;
use crate::script_remarks::script_remark;
use crate::settings_check::add_remark;
use crate::summary::add_count;
use dots_host::{MAX_EVENT_BYTES, Source};
use dots_lists::{Bytes, NoMemory, fields_of, split_line};
use memchr::memchr;
use std::alloc::Global;

/// How many events the lines of the script say, or the first line that is none of a script, and why. The script is
/// read to its end first.
pub fn check_script<S: Source>(alloc: Global, source: &mut S) -> Result<Checked, Unchecked>
    ensures checks { IfOk result (λ told. IfSome (S.left source.old) (λ script. ChecksScript script told)) }
    ensures same { OnOk result (S.faults source.new ≡ S.faults source.old) }
    ensures cause { result ≡ Err Unchecked.ReadFailed → Rose (S.faults source.old) (S.faults source.new) }
{
    match read_whole(alloc, source) {
        Ok(bytes) => match check_lines(alloc, bytes.as_slice()) {
            Ok(told) => return Ok(told),
            Err(NoMemory) => return Err(Unchecked::NoMemory),
        },
        Err(fault) => return Err(fault),
    }
}

/// The same of these bytes.
fn check_lines(alloc: Global, script: &[u8]) -> Result<Checked, NoMemory>
    ensures { IfOk result (ChecksScript script.now) }
{
    let mut room = [0; MAX_EVENT_BYTES];
    let mut rest = script;
    let mut number = 0;
    let mut events = 0;
    while !rest.is_empty() {
        let Some((more, behind)) = pass_line(rest, &mut room) else {
            match script_report(alloc, number + 1, rest) {
                Ok(text) => return Ok(Checked::AtFault(text)),
                Err(NoMemory) => return Err(NoMemory),
            }
        };
        number += 1;
        events += more;
        rest = behind;
    }
    let mut text = Vec::new(alloc);
    add_count(&mut text, b"events", events)?;
    Ok(Checked::Good(Bytes::from_vec(text)))
}

/// How many events the first line says, one or none, and what stands behind it; None where it is no line of a script.
fn pass_line<'a>(rest: &'a [u8], room: &mut [u8]) -> Option<(u64, &'a [u8])>
    requires some { 0 < length rest.now }
    requires room { length room.old ≡ MAX_EVENT_BYTES }
    ensures passed { IfSome result (λ passed. (line : List ℕ) × (said : List Coming) × (rest.now ≡ with_feed line ++ passed.1.now)
        × LineSays line said × (length said ≡ passed.0) × (passed.0 ≤ 1)) }
    ensures fault { IfNone result (IsFault rest.now) }
{
    let Some((line, behind)) = whole_line(rest) else {
        return None;
    };
    if is_skipped(line) {
        return Some((0, behind));
    }
    match parse_event(line, room) {
        Some(_) => return Some((1, behind)),
        None => return None,
    }
}

/// The first line, which has a line feed and at most 8,400 bytes before it, and what stands behind.
fn whole_line(rest: &[u8]) -> Option<(&[u8], &[u8])>
    requires { 0 < length rest.now }
    ensures some { IfSome result (λ split. (rest.now ≡ with_feed split.0.now ++ split.1.now) × IsLine split.0.now) }
    ensures none { IfNone result (IsTooLong rest.now ⊎ IsUnended rest.now) }
{
    match memchr(b'\n', rest) {
        Some(end) => {
            if end > MAX_LINE_BYTES {
                return None;
            }
            return Some((&rest[..end], &rest[end + 1..]));
        }
        None => return None,
    }
}

/// Whether the line is empty or begins with `#`.
fn is_skipped(line: &[u8]) -> bool
    ensures { IsTrue result ↔ IsSkipped line.now }
{
    match line {
        [] => true,
        [first, ..] => *first == b'#',
    }
}

/// The line at fault, with which the text begins, and why it is.
fn script_report(alloc: Global, number: u64, rest: &[u8]) -> Result<Bytes, NoMemory>
    ensures { IfOk result (λ text. text ≡ script_report number rest.now (line_in (lines_of rest.now))) }
{
    let line = first_line(rest);
    let fields = fields_of(alloc, line)?;
    let remark = script_remark(has_feed(rest), line, fields.as_slice());
    let mut text = Vec::new(alloc);
    match add_report(&mut text, number, remark, line, fields.as_slice()) {
        Ok(()) => Ok(Bytes::from_vec(text)),
        Err(NoMemory) => Err(NoMemory),
    }
}

/// Adds the line of this number, and why it is at fault.
fn add_report(
    text: &mut Vec<u8>,
    number: u64,
    remark: Remark,
    line: &[u8],
    fields: &[&[u8]],
) -> Result<(), NoMemory>
    ensures { OnOk result (text.new.items ≡ text.old.items
        ++ codes "script line " ++ decimal number ++ codes ": " ++ quoted line.now ++ codes "\n"
        ++ remark_line number remark line.now (map (λ field. field.now) fields.now)) }
{
    add_head(text, b"script line ", number)?;
    end_quoted(text, line)?;
    add_remark(text, number, remark, line, fields)
}

/// The first line of a text; no bytes where there is none.
fn first_line(text: &[u8]) -> &[u8]
    ensures { result.now ≡ line_in (lines_of text.now) }
{
    match split_line(text) {
        Some((line, _)) => line,
        None => &[],
    }
}

fn has_feed(text: &[u8]) -> bool
    ensures { result ≡ has_feed text.now }
{
    text.iter().any(|byte| *byte == b'\n')
}
