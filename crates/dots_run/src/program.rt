//! The whole program over the streams that it is handed.

ghost use Rattle.std.specs.Prelude.{◌≡◌, true, false, map, string_bytes, Option, Some, None, option_and_then, IfOk, OnErr, MatchOption};
ghost use Rattle.std.specs.Fn.{FnOnceReturnsAt};
ghost use Rattle.dots_script.specs.Accounts.{outer};
ghost use Rattle.dots_run.specs.Scripted.{outside_first, outside_with};
ghost use Rattle.dots_run.specs.Programs.{Runs, IsOpened};
ghost use Rattle.dots_run.specs.Topics.{is_check_script};

use crate::scripted::{Scripted, run_script};
use crate::topics::is_check_script;
use crate::words::settings_name;
use dots_host::{Sink, Source, StdSink, StdSource};
use dots_lists::NoMemory;
use dots_script::ScriptHost;
use std::alloc::Global;
use std::io::{Read, Write};

/// The exit status where no memory is found.
const NO_MEMORY: u8 = 4;

/// What is left of a run of the program.
#[derive(Drop)]
pub struct Finished<F, I, O, R> {
    /// The exit status.
    pub status: u8,
    /// The file of the settings.
    pub settings: StdSource<F>,
    /// The script where it was checked, and not served.
    pub checked: Option<StdSource<I>>,
    /// The script that is served and the sink of its sends, in their host. None where no memory was found, and nothing was read or written.
    pub host: Option<ScriptHost<StdSource<I>, StdSink<O>>>,
    /// The sink of the report.
    pub report: StdSink<R>,
}

impl<F: Drop, I: Drop, O: Drop, R: Drop> Finished<F, I, O, R> {
    /// The exit status. All else is let go.
    pub fn into_status(self) -> u8
        ensures { result ≡ self.status }
    {
        self.status
    }
}

/// Does all that the program does with the words of its command line, without its name: `opening` opens the file of the settings, the script is
/// read from `input`, its sends are written to `sends`, and what is reported to `report`. A file that can't be opened, where `opening` gives
/// None, fails when it is read. With `check-script` the script is checked and not served. Status 4 where no memory was found for the
/// words, or is found for the host.
pub fn run_program<
    F: Read + Drop,
    I: Read + Drop,
    O: Write + Drop,
    R: Write + Drop,
    Open: FnOnce(&str) -> Option<F> + Drop,
>(
    alloc: Global,
    words: &Result<Vec<String>, NoMemory>,
    opening: Open,
    input: I,
    sends: O,
    report: R,
) -> Finished<F, I, O, R>
    requires { Open.IsAlwaysCallable opening }
    // Where the words found no memory, or the host finds none, nothing was read or written.
    ensures lacks { OnErr words.now (result.status ≡ 4) }
    ensures ran { IfOk words.now (λ list. is_check_script (map string_bytes list.items) ≡ false → (file : Option F) × IsOpened (FnOnceReturnsAt Open.FnOnce opening) (map string_bytes list.items) file
        × MatchOption result.host ((result.status ≡ 4) × (⟦<StdSource<F> as Source>⟧.left result.settings ≡ option_and_then F.remaining file) × (⟦<StdSink<R> as Sink>⟧.holds result.report ≡ R.contents report))
        (λ host. Runs (map string_bytes list.items) result.status
        (outside_first (option_and_then F.remaining file) 0 (R.contents report) 0)
        (outside_with (⟦<StdSource<F> as Source>⟧.left result.settings) (⟦<StdSource<F> as Source>⟧.faults result.settings) host (⟦<StdSink<R> as Sink>⟧.holds result.report) (⟦<StdSink<R> as Sink>⟧.faults result.report))
        (record { script = I.remaining input; written = O.contents sends; failures = 0 })
        (outer ⟦<StdSource<I> as Source>⟧.left ⟦<StdSource<I> as Source>⟧.faults ⟦<StdSink<O> as Sink>⟧.holds host))) }
    // With `check-script` the script stands in the place of the settings, no file is opened, and no script is left to be served.
    ensures checked { IfOk words.now (λ list. is_check_script (map string_bytes list.items) ≡ true → MatchOption result.checked ⊥ (λ script.
        MatchOption result.host ((result.status ≡ 4) × (⟦<StdSource<I> as Source>⟧.left script ≡ I.remaining input) × (⟦<StdSink<R> as Sink>⟧.holds result.report ≡ R.contents report))
        (λ host. Runs (map string_bytes list.items) result.status
        (outside_first (I.remaining input) 0 (R.contents report) 0)
        (outside_with (⟦<StdSource<I> as Source>⟧.left script) (⟦<StdSource<I> as Source>⟧.faults script) host (⟦<StdSink<R> as Sink>⟧.holds result.report) (⟦<StdSink<R> as Sink>⟧.faults result.report))
        (record { script = None; written = O.contents sends; failures = 0 })
        (outer ⟦<StdSource<I> as Source>⟧.left ⟦<StdSource<I> as Source>⟧.faults ⟦<StdSink<O> as Sink>⟧.holds host)))) }
{
    let mut report = StdSink::new(report);
    let words = match words {
        Ok(words) => words.as_slice(),
        Err(_) => {
            return Finished {
                status: NO_MEMORY,
                settings: StdSource::new(None),
                checked: None,
                host: None,
                report,
            };
        }
    };
    if is_check_script(words) {
        return check_input(alloc, words, input, sends, report);
    }
    let file = match settings_name(words) {
        Some(name) => opening(name),
        None => None,
    };
    let mut settings = StdSource::new(file);
    let script = StdSource::new(Some(input));
    let Scripted { status, host } = run_script(
        alloc,
        words,
        &mut settings,
        script,
        StdSink::new(sends),
        &mut report,
    );
    Finished {
        status,
        settings,
        checked: None,
        host,
        report,
    }
}

/// Checks the script that the input gives. No file is opened, and the host has no script.
fn check_input<F: Read + Drop, I: Read + Drop, O: Write + Drop, R: Write + Drop>(
    alloc: Global,
    words: &[String],
    input: I,
    sends: O,
    report: StdSink<R>,
) -> Finished<F, I, O, R>
    ensures { MatchOption result.checked ⊥ (λ script.
        MatchOption result.host ((result.status ≡ 4) × (⟦<StdSource<I> as Source>⟧.left script ≡ I.remaining input) × (result.report ≡ report))
        (λ host. Runs (map string_bytes words.now) result.status
        (outside_first (I.remaining input) 0 (⟦<StdSink<R> as Sink>⟧.holds report) (⟦<StdSink<R> as Sink>⟧.faults report))
        (outside_with (⟦<StdSource<I> as Source>⟧.left script) (⟦<StdSource<I> as Source>⟧.faults script) host (⟦<StdSink<R> as Sink>⟧.holds result.report) (⟦<StdSink<R> as Sink>⟧.faults result.report))
        (record { script = None; written = O.contents sends; failures = 0 })
        (outer ⟦<StdSource<I> as Source>⟧.left ⟦<StdSource<I> as Source>⟧.faults ⟦<StdSink<O> as Sink>⟧.holds host))) }
{
    let mut report = report;
    let mut script = StdSource::new(Some(input));
    let nothing = StdSource::new(None);
    let sends = StdSink::new(sends);
    let Scripted { status, host } = run_script(
        alloc,
        words,
        &mut script,
        nothing,
        sends,
        &mut report,
    );
    Finished {
        status,
        settings: StdSource::new(None),
        checked: Some(script),
        host,
        report,
    }
}
