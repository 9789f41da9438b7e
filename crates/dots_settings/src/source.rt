//! Reading a source of settings.

ghost use Rattle.std.specs.Prelude.{◌≡◌, ◌+◌, ◌^◌, ◌≤◌, length, take, IfOk, IfErr, IfSome, OnOk};
ghost use Rattle.dots_host.specs.Causes.{Rose};
ghost use Rattle.dots_settings.specs.File.{SettingsAre, IsRefused, IsNoLineFault, IsReadThrough, WhereJudged};
ghost use Rattle.dots_settings.specs.Settings.{IsSettings};

use crate::fault::SettingsFault;
use crate::reading::{MAX_FILE, settings_of};
use crate::settings::Settings;
use dots_host::Source;
use std::alloc::Global;

/// How much of a file is read: one byte more than it can have.
const MAX_READ: usize = MAX_FILE + 1;

/// How many bytes are asked for at a time.
const BLOCK: usize = 4096;

/// The bytes of the file, or the first 65,537 of them.
fn read_file<S: Source>(alloc: Global, source: &mut S) -> Result<Vec<u8>, SettingsFault>
    ensures bytes { IfOk result (λ bytes. IfSome (S.left source.old) (λ left. bytes.items ≡ take (2 ^ 16 + 1) left)) }
    ensures few { IfOk result (λ bytes. length bytes.items ≤ 2 ^ 16 + 1) }
    ensures through { OnOk result (IsReadThrough (S.left source.old) (S.left source.new)) }
    ensures same { OnOk result (S.faults source.new ≡ S.faults source.old) }
    ensures unread { IfErr result IsNoLineFault }
    ensures cause { result ≡ Err SettingsFault.ReadFault → Rose (S.faults source.old) (S.faults source.new) }
    ensures later { S.faults source.old ≤ S.faults source.new }
{
    let mut block = [0; BLOCK];
    let mut bytes = Vec::new(alloc);
    while bytes.len() < MAX_READ {
        let Ok(count) = source.read(&mut block) else {
            return Err(SettingsFault::ReadFault);
        };
        if count == 0 {
            return Ok(bytes);
        }
        bytes.extend_from_slice(&block[..count])?;
    }
    bytes.truncate(MAX_READ);
    Ok(bytes)
}

/// Reads the settings: the file is read to its end, or past its 65,536th byte, before a line is judged.
///
/// `ReadFault` comes only where the source failed, and `NoMemory` only for want of memory; every other fault is that of
/// the first line that has one. Where there are settings, or a line is refused, no read has failed.
pub fn read_settings<S: Source>(alloc: Global, source: &mut S) -> Result<Settings, SettingsFault>
    ensures ok { IfOk result (λ settings. IfSome (S.left source.old) (λ file. SettingsAre file settings)) }
    ensures valid { IfOk result (λ settings. IsSettings settings) }
    ensures refused { IfErr result (λ fault. IfSome (S.left source.old) (λ file. IsRefused file fault)) }
    ensures through { WhereJudged result (IsReadThrough (S.left source.old) (S.left source.new)) }
    ensures same { WhereJudged result (S.faults source.new ≡ S.faults source.old) }
    ensures cause { result ≡ Err SettingsFault.ReadFault → Rose (S.faults source.old) (S.faults source.new) }
    ensures later { S.faults source.old ≤ S.faults source.new }
{
    match read_file(alloc, source) {
        Ok(bytes) => return settings_of(alloc, bytes.as_slice()),
        Err(fault) => return Err(fault),
    }
}
