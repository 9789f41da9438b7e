//! What is told of a settings file.

ghost use Rattle.std.specs.Prelude.{◌≡◌, ◌+◌, ◌-◌, ◌^◌, ◌≤◌, ◌<◌, ◌++◌, [], length, map, drop, IfOk, IfSome, OnOk};
ghost use Rattle.dots_host.specs.Causes.{Rose};
ghost use Rattle.dots_settings.specs.File.{SettingsFail};
ghost use Rattle.dots_settings.specs.Lines.{lines_of};
ghost use Rattle.dots_script.specs.Checks.{ChecksSettings, remark_line, quoted_part, number_of, lines_from, line_in, past_in, fault_report};
ghost use Rattle.dots_script.specs.Remarks.{field_of};
ghost use Rattle.dots_script.specs.Summary.{summary};

use crate::checked::{Checked, Unchecked};
use crate::pieces::add_head;
use crate::quoting::end_quoted;
use crate::reading::read_front;
use crate::reason::add_reason;
use crate::remark::Remark;
use crate::settings_remarks::remark_of;
use crate::summary::summary;
use dots_host::Source;
use dots_lists::{Bytes, NoMemory, fields_of, split_line};
use dots_settings::{MAX_FILE, Settings, SettingsFault, is_past, settings_of};
use std::alloc::Global;

/// How much of a file is read: one byte more than it can have.
const MAX_READ: usize = MAX_FILE + 1;

/// What the settings file comes to, or its first fault: the line that a server prints of it, and another that says why in
/// plain words and quotes what is to be mended.
pub fn check_settings<S: Source>(alloc: Global, source: &mut S) -> Result<Checked, Unchecked>
    ensures checks { IfOk result (λ told. IfSome (S.left source.old) (λ file. ChecksSettings file told)) }
    ensures same { OnOk result (S.faults source.new ≡ S.faults source.old) }
    ensures cause { result ≡ Err Unchecked.ReadFailed → Rose (S.faults source.old) (S.faults source.new) }
{
    match read_front(alloc, source, MAX_READ) {
        Ok(bytes) => match check_content(alloc, bytes.as_slice()) {
            Ok(told) => return Ok(told),
            Err(NoMemory) => return Err(Unchecked::NoMemory),
        },
        Err(fault) => return Err(fault),
    }
}

/// The same of a file of which these are the first 65,537 bytes.
pub fn check_content(alloc: Global, content: &[u8]) -> Result<Checked, NoMemory>
    requires { length content.now ≤ 2 ^ 16 + 1 }
    ensures { IfOk result (ChecksSettings content.now) }
{
    match settings_of(alloc, content) {
        Ok(settings) => match summary_of(alloc, settings) {
            Ok(text) => return Ok(Checked::Good(text)),
            Err(NoMemory) => return Err(NoMemory),
        },
        Err(SettingsFault::NoMemory) => return Err(NoMemory),
        Err(SettingsFault::ReadFault) => unreachable!(),
        Err(fault) => return answer_fault(alloc, content, fault),
    }
}

/// The summary of settings, which are let go.
fn summary_of(alloc: Global, settings: Settings) -> Result<Bytes, NoMemory>
    ensures { IfOk result (λ text. text ≡ summary settings) }
{
    summary(alloc, &settings)
}

/// That the file has this fault.
fn answer_fault(alloc: Global, content: &[u8], fault: SettingsFault) -> Result<Checked, NoMemory>
    requires short { length content.now ≤ 2 ^ 16 + 1 }
    requires fails { SettingsFail content.now fault }
    ensures { IfOk result (ChecksSettings content.now) }
{
    match fault_report(alloc, content, fault) {
        Ok(text) => return Ok(Checked::AtFault(text)),
        Err(NoMemory) => return Err(NoMemory),
    }
}

/// The line of the fault and the one that says why.
fn fault_report(alloc: Global, content: &[u8], fault: SettingsFault) -> Result<Bytes, NoMemory>
    ensures { IfOk result (λ text. text ≡ fault_report content.now fault) }
{
    let number = number_of(fault);
    let (line, past) = line_at(content, number);
    let fields = fields_of(alloc, line)?;
    let remark = remark_of(fault, past, fields.as_slice());
    let mut text = Vec::new(alloc);
    text.extend_from_slice(fault.line().as_bytes())?;
    add_remark(
        &mut text,
        u64::from(number),
        remark,
        line,
        fields.as_slice(),
    )?;
    Ok(Bytes::from_vec(text))
}

/// The number of the line at fault; 0 where none is.
fn number_of(fault: SettingsFault) -> u32
    ensures { result ≡ number_of fault }
{
    match fault {
        SettingsFault::Line { n } => n,
        SettingsFault::Twice { n } => n,
        SettingsFault::Unknown { n } => n,
        SettingsFault::Overlap { b, .. } => b,
        SettingsFault::Capacity { n } => n,
        SettingsFault::ReadFault => 0,
        SettingsFault::NoMemory => 0,
    }
}

/// The line of this number, and whether the file is too long in it.
fn line_at(content: &[u8], number: u32) -> (&[u8], bool)
    ensures line { result.0.now ≡ line_in (lines_from content.now number) }
    ensures past { result.1 ≡ past_in content.now (lines_from content.now number) }
{
    match split_line(from_line(content, number)) {
        Some((line, behind)) => return (line, is_past(content, behind)),
        None => return (&[], false),
    }
}

/// What stands from the line of this number on.
fn from_line(content: &[u8], number: u32) -> &[u8]
    ensures { lines_of result.now ≡ lines_from content.now number }
{
    let before = number.saturating_sub(1);
    let mut rest = content;
    for _turn in 0..before {
        match split_line(rest) {
            Some((_, behind)) => rest = behind,
            None => return rest,
        }
    }
    rest
}

/// Adds `line N: why: "field"`.
pub fn add_remark(
    text: &mut Vec<u8>,
    number: u64,
    remark: Remark,
    line: &[u8],
    fields: &[&[u8]],
) -> Result<(), NoMemory>
    ensures { OnOk result (text.new.items ≡ text.old.items
        ++ remark_line number remark line.now (map (λ field. field.now) fields.now)) }
{
    add_head(text, b"line ", number)?;
    add_reason(text, remark.reason)?;
    text.extend_from_slice(b": ")?;
    end_quoted(text, quoted_part(remark.field, line, fields))
}

/// What is quoted: the field of this place, or the whole line.
pub fn quoted_part<'a>(field: Option<usize>, line: &'a [u8], fields: &[&'a [u8]]) -> &'a [u8]
    ensures { result.now ≡ quoted_part field line.now (map (λ field. field.now) fields.now) }
{
    match field {
        Some(place) => field_at(fields, place),
        None => line,
    }
}

/// The field at a place, counted from 0; no bytes where there is none.
fn field_at<'a>(fields: &[&'a [u8]], place: usize) -> &'a [u8]
    ensures { result.now ≡ field_of (map (λ field. field.now) fields.now) place }
{
    match fields.get(place) {
        Some(field) => field,
        None => &[],
    }
}
