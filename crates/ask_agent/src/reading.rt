//! From the bytes of the file to settings, line by line.

ghost use Rattle.std.specs.Prelude.{◌≡◌, ◌≢◌, ◌+◌, ◌^◌, ◌≤◌, ◌&&◌, length, IfOk, IfErr, OnOk, Ok, Err};
ghost use Rattle.ask_agent.specs.File.{IsMidFit, meaning, IsRefused, is_long};
ghost use Rattle.ask_agent.specs.Taking.{Takes, Refuses, is_past};

use crate::draft::Draft;
use crate::fault::AskSettingsFault;
use crate::line::read_line;
use crate::settings::AskSettings;
use dots_lists::{fields_of, split_line};
use std::alloc::Global;

/// The greatest size of a file, in bytes.
pub const MAX_FILE: usize = 65_536;

/// The settings of a file of which these are the first 65,537 bytes.
pub fn settings_of(alloc: Global, content: &[u8]) -> Result<AskSettings, AskSettingsFault>
    requires { length content.now ≤ 2 ^ 16 + 1 }
    ensures ok { IfOk result (λ settings. meaning content.now ≡ Ok settings) }
    ensures refused { IfErr result (IsRefused content.now) }
    ensures mid { IfOk result IsMidFit }
    ensures unread { result ≢ Err AskSettingsFault.ReadFault }
{
    let mut number = 0;
    let mut draft = Draft::new(alloc);
    let mut rest = content;
    while let Some((line, behind)) = split_line(rest) {
        number += 1;
        if is_past(content, behind) {
            return Err(AskSettingsFault::Line { n: number });
        }
        if let Err(fault) = take_line(alloc, &mut draft, line, number) {
            return Err(fault);
        }
        rest = behind;
    }
    match draft.finish() {
        Some(settings) => Ok(settings),
        None => Err(AskSettingsFault::Line { n: number + 1 }),
    }
}

/// Takes the line of this number.
fn take_line(
    alloc: Global,
    draft: &mut Draft,
    line: &[u8],
    number: u32,
) -> Result<(), AskSettingsFault>
    ensures ok { OnOk result (Takes line.now draft.old draft.new) }
    ensures refused { IfErr result (Refuses line.now number draft.old) }
{
    let fields = fields_of(alloc, line)?;
    let Some(said) = read_line(alloc, fields.as_slice())? else {
        return Err(AskSettingsFault::Line { n: number });
    };
    if !draft.may_follow(&said) {
        return Err(AskSettingsFault::Line { n: number });
    }
    draft.admit(said)?;
    Ok(())
}

/// Whether the 65,537th byte stands in the line that ends where these bytes are left.
fn is_past(content: &[u8], behind: &[u8]) -> bool
    ensures { result ≡ is_past (is_long content.now) behind.now }
{
    behind.is_empty() && content.len() > MAX_FILE
}
