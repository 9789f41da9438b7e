//! What is told of a host file.

ghost use Rattle.std.specs.Prelude.{◌≡◌, ℕ, List, map, IfOk};
ghost use Rattle.dots_lists.specs.Lines.{lines_of};
ghost use Rattle.dots_edge.specs.HostLine.{line_value};
ghost use Rattle.dots_edge.specs.HostFile.{Stand};
ghost use Rattle.host_checks.specs.HostChecks.{ChecksHost};

use crate::findings::{add_findings, is_startable};
use crate::journal_state::{JournalState, add_journal};
use dots_edge::HostLine;
use dots_lists::{Bytes, NoMemory};
use dots_script::Checked;
use dots_settings::Settings;
use std::alloc::Global;

/// What is told at this second of the lines of a host file that is used with these settings, and of its journal: how many lines there
/// are of each kind, what may be wrong with them, and what a server would refuse. It is at fault where a server wouldn't start.
pub fn check_host(
    alloc: Global,
    settings: &Settings,
    said: &[HostLine<'_>],
    state: JournalState,
    now: u64,
) -> Result<Checked, NoMemory>
    ensures { (file : List ℕ) → Stand (lines_of file) (map line_value said.now) → IfOk result (ChecksHost settings.now now state file) }
{
    let mut text = Vec::new(alloc);
    add_findings(&mut text, settings, said)?;
    add_journal(&mut text, now, state)?;
    let text = Bytes::from_vec(text);
    if is_startable(settings, said) && state.is_fit(now) {
        return Ok(Checked::Good(text));
    }
    Ok(Checked::AtFault(text))
}
