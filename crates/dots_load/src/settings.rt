//! The settings of a generated run.

ghost use Rattle.std.specs.Prelude.{IfOk};
ghost use Rattle.dots_settings.specs.File.{SettingsAre};
ghost use Rattle.dots_load.specs.Domains.{settings_text};

use dots_host::MemorySource;
use dots_lists::NoMemory;
use dots_settings::{Settings, read_settings};
use std::alloc::Global;

/// Four domains and eight clients.
const SETTINGS: &[u8] = b"\
domain d0\ndomain d1\ndomain d2\ndomain d3\n\
prefix d0 10.0.0.0/16\nprefix d1 10.1.0.0/16\nprefix d2 10.2.0.0/16\nprefix d3 10.3.0.0/16\n\
client 0 d0\nclient 1 d1\nclient 2 d2\nclient 3 d3\nclient 4 d0\nclient 5 d1\nclient 6 d2\nclient 7 d3\n";

/// The settings of four domains and eight clients.
pub fn load_settings(alloc: Global) -> Result<Settings, NoMemory>
    ensures { IfOk result (λ settings. SettingsAre settings_text settings) }
{
    settings_of(alloc, SETTINGS)
}

/// The settings of a file without a fault; any other is taken for want of memory.
fn settings_of(alloc: Global, file: &[u8]) -> Result<Settings, NoMemory>
    ensures { IfOk result (λ settings. SettingsAre file.now settings) }
{
    let mut source = MemorySource::new(alloc, file)?;
    match read_settings(alloc, &mut source) {
        Ok(settings) => Ok(settings),
        Err(_) => Err(NoMemory),
    }
}
