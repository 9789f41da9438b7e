//! The top call over a script.

ghost use Rattle.std.specs.Prelude.{◌≡◌, map, string_bytes, Some, None, IfSome};
ghost use Rattle.dots_script.specs.Accounts.{outer};
ghost use Rattle.dots_run.specs.Scripted.{outside_first, outside_with};
ghost use Rattle.dots_run.specs.Programs.{Runs};

use crate::blocks::{Ended, run_blocks};
use dots_host::{Sink, Source};
use dots_script::ScriptHost;
use dots_server::Nobody;
use std::alloc::Global;

/// The exit status where no memory is found.
const NO_MEMORY: u8 = 4;

/// What is left of a run over a script.
#[derive(Drop)]
pub struct Scripted<P, K> {
    /// The exit status of the program.
    pub status: u8,
    /// The host, with its source and its sink. None where no memory was found to make it, and nothing was read or written.
    pub host: Option<ScriptHost<P, K>>,
}

/// Does all that the program does over a script: its events are the lines that the source gives, and its sends are written to
/// the sink as lines, long replies in blocks. Status 4 where no memory is found to make the host.
pub fn run_script<P: Source + Drop, K: Sink + Drop, S: Source, R: Sink>(
    alloc: Global,
    words: &[String],
    settings: &mut S,
    script: P,
    sends: K,
    report: &mut R,
) -> Scripted<P, K>
    // Without a host nothing was read or written.
    ensures lacks { result.host ≡ None → (result.status ≡ 4) × (settings.new ≡ settings.old) × (report.new ≡ report.old) }
    // With one: what the run has done.
    ensures runs { IfSome result.host (λ host. Runs (map string_bytes words.now) result.status
        (outside_first (S.left settings.old) (S.faults settings.old) (R.holds report.old) (R.faults report.old))
        (outside_with (S.left settings.new) (S.faults settings.new) host (R.holds report.new) (R.faults report.new))
        (record { script = P.left script; written = K.holds sends; failures = P.faults script })
        (outer P.left P.faults K.holds host)) }
{
    match ScriptHost::new(alloc, script, sends) {
        Ok(host) => {
            let Ended { status, host } = run_blocks(
                alloc,
                words,
                settings,
                host,
                report,
                &mut Nobody,
            );
            return Scripted {
                status,
                host: Some(host),
            };
        }
        Err(_) => {
            return Scripted {
                status: NO_MEMORY,
                host: None,
            };
        }
    }
}
