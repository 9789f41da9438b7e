//! Reading a source of client settings.

ghost use Rattle.std.specs.Prelude.{◌≡◌, IfOk, IfErr, IfSome, Ok, Err};
ghost use Rattle.dots_host.specs.Causes.{Rose};
ghost use Rattle.ask_agent.specs.File.{IsMidFit, meaning, IsRefused, WhereJudged};

use crate::fault::AskSettingsFault;
use crate::reading::{MAX_FILE, settings_of};
use crate::settings::AskSettings;
use dots_host::Source;
use dots_script::{Unchecked, read_front};
use std::alloc::Global;

/// How much of a file is read: one byte more than it can have.
const MAX_READ: usize = MAX_FILE + 1;

/// Reads client settings: the file is read to its end, or past its 65,536th byte, before a line is judged.
///
/// `ReadFault` comes only where the source failed, and `NoMemory` only for want of memory; a line at fault is the first one. Where
/// there are settings, or a line is refused, no read has failed.
pub fn read_ask_settings<S: Source>(
    alloc: Global,
    source: &mut S,
) -> Result<AskSettings, AskSettingsFault>
    ensures ok { IfOk result (λ settings. IfSome (S.left source.old) (λ file. meaning file ≡ Ok settings)) }
    ensures refused { IfErr result (λ fault. IfSome (S.left source.old) (λ file. IsRefused file fault)) }
    ensures mid { IfOk result IsMidFit }
    ensures same { WhereJudged result (S.faults source.new ≡ S.faults source.old) }
    ensures cause { result ≡ Err AskSettingsFault.ReadFault → Rose (S.faults source.old) (S.faults source.new) }
{
    match read_front(alloc, source, MAX_READ) {
        Ok(bytes) => return settings_of(alloc, bytes.as_slice()),
        Err(Unchecked::ReadFailed) => return Err(AskSettingsFault::ReadFault),
        Err(Unchecked::NoMemory) => return Err(AskSettingsFault::NoMemory),
    }
}
