//! What is told of the settings of a client, without asking.

ghost use Rattle.std.specs.Prelude.{◌≡◌, ◌++◌, Err, IfOk, IfSome, OnOk};
ghost use Rattle.dots_host.specs.Causes.{Rose};
ghost use Rattle.ask_agent.specs.Checking.{ChecksAsk, name_line, settings_lines};
ghost use Rattle.ask_agent.specs.Report.{refusal_line};

use crate::fault::AskSettingsFault;
use crate::settings::AskSettings;
use crate::source::read_ask_settings;
use dots_host::Source;
use dots_lists::{Bytes, NoMemory};
use dots_script::{Checked, Unchecked, add_count};
use itoa::Buffer;
use std::alloc::Global;

/// What the settings of a client come to: the peer that is its server, its name, and how many asks there are; or their first line at
/// fault.
pub fn check_ask_settings<S: Source>(alloc: Global, source: &mut S) -> Result<Checked, Unchecked>
    ensures checks { IfOk result (λ told. IfSome (S.left source.old) (λ file. ChecksAsk file told)) }
    ensures same { OnOk result (S.faults source.new ≡ S.faults source.old) }
    ensures cause { result ≡ Err Unchecked.ReadFailed → Rose (S.faults source.old) (S.faults source.new) }
{
    match read_ask_settings(alloc, source) {
        Ok(settings) => match text_of(alloc, &settings) {
            Ok(text) => return Ok(Checked::Good(text)),
            Err(_) => return Err(Unchecked::NoMemory),
        },
        Err(AskSettingsFault::Line { n }) => match refusal_of(alloc, n) {
            Ok(text) => return Ok(Checked::AtFault(text)),
            Err(_) => return Err(Unchecked::NoMemory),
        },
        Err(AskSettingsFault::ReadFault) => return Err(Unchecked::ReadFailed),
        Err(AskSettingsFault::NoMemory) => return Err(Unchecked::NoMemory),
    }
}

/// The lines of settings.
fn text_of(alloc: Global, settings: &AskSettings) -> Result<Bytes, NoMemory>
    ensures { IfOk result (λ text. text ≡ settings_lines settings.now) }
{
    let mut text = Vec::new(alloc);
    add_count(&mut text, b"server", u64::from(settings.server))?;
    add_name(&mut text, settings.cuid.bytes())?;
    add_count(&mut text, b"asks", settings.asks.items().len() as u64)?;
    Ok(Bytes::from_vec(text))
}

/// Adds `cuid: NAME`.
fn add_name(text: &mut Vec<u8>, name: &[u8]) -> Result<(), NoMemory>
    ensures { OnOk result (text.new.items ≡ text.old.items ++ name_line name.now) }
{
    text.extend_from_slice(b"cuid: ")?;
    text.extend_from_slice(name)?;
    text.extend_from_slice(b"\n")?;
    Ok(())
}

/// The line that names a line at fault.
fn refusal_of(alloc: Global, line: u32) -> Result<Bytes, NoMemory>
    ensures { IfOk result (λ text. text ≡ refusal_line line) }
{
    let mut text = Vec::new(alloc);
    let mut digits = Buffer::new();
    text.extend_from_slice(b"settings line ")?;
    text.extend_from_slice(digits.format(line).as_bytes())?;
    text.extend_from_slice(b"\n")?;
    Ok(Bytes::from_vec(text))
}
