//! What is told of a settings file and a host file, without serving them.

ghost use Rattle.std.specs.Prelude.{◌≡◌, map, string_bytes, Option, Some, true, is_some, option_and_then};
ghost use Rattle.std.specs.Fn.{FnReturnsAt};
ghost use Rattle.dots_host.specs.Causes.{Rose};
ghost use Rattle.dots_machine.specs.Commands.{second_of, third_of};
ghost use Rattle.host_checks.specs.declared.files.Task.{Task};
ghost use Rattle.dots_run.specs.HostReports.{host_task, task_of, task_for, ReportsHost};

use crate::reporting::report_found;
use crate::words::is_word;
use dots_host::{Sink, Source, StdSink, StdSource};
use host_checks::{FilterForm, Task, check_files};
use std::alloc::Global;
use std::fs::{File, Files};
use std::io::{Read, Write};
use std::time::Clock;

/// What is left of a check of both files.
#[derive(Drop)]
pub struct HostChecked<F, K> {
    /// The exit status.
    pub status: u8,
    /// The file of the settings.
    pub settings: StdSource<F>,
    /// The host file.
    pub host_file: StdSource<F>,
    /// The sink of what is told.
    pub report: StdSink<K>,
}

impl<F: Drop, K: Drop> HostChecked<F, K> {
    /// The exit status. All else is let go.
    pub fn into_status(self) -> u8
        ensures { result ≡ self.status }
    {
        self.status
    }
}

/// What `check SETTINGS HOSTFILE`, `journal SETTINGS HOSTFILE` and `filters SETTINGS HOSTFILE`, with `nft` behind it or without, ask for; None
/// where the words are none of these.
pub fn host_task(words: &[String]) -> Option<Task>
    ensures { result ≡ host_task (map string_bytes words.now) }
{
    match words {
        [name, settings, host] => {
            if is_word(settings.as_bytes()) && is_word(host.as_bytes()) {
                return task_of(name);
            }
            None
        }
        [name, settings, host, last] => {
            if is_word(settings.as_bytes()) && is_word(host.as_bytes()) {
                return task_for(name, last);
            }
            None
        }
        _ => None,
    }
}

/// What this word asks for in front of two files.
fn task_of(name: &str) -> Option<Task>
    ensures { result ≡ task_of name.now }
{
    match name {
        "check" => Some(Task::Check),
        "journal" => Some(Task::List),
        "filters" => Some(Task::Filters(FilterForm::Report)),
        _ => None,
    }
}

/// And `filters` with `nft` behind both.
fn task_for(name: &str, last: &str) -> Option<Task>
    ensures { result ≡ task_for name.now last.now }
{
    if name == "filters" && last == "nft" {
        return Some(Task::Filters(FilterForm::Script));
    }
    None
}

/// The second and the third word, and what the words ask for.
fn asked_of(words: &[String]) -> (Task, &str, &str)
    requires { is_some (host_task (map string_bytes words.now)) ≡ true }
    ensures task { host_task (map string_bytes words.now) ≡ Some result.0 }
    ensures settings { result.1.now ≡ second_of (map string_bytes words.now) }
    ensures host { result.2.now ≡ third_of (map string_bytes words.now) }
{
    match (host_task(words), words) {
        (Some(task), [_, settings, host] | [_, settings, host, _]) => {
            (task, settings.as_str(), host.as_str())
        }
        _ => unreachable!(),
    }
}

/// Does what the words `check SETTINGS HOSTFILE`, `journal SETTINGS HOSTFILE` or `filters SETTINGS HOSTFILE` (`nft`) ask for: `opening` opens both
/// files by their names, and what they come to is written to `report`, with what is found of the journal that the host file names, or the
/// entries of that, or its filters; or the first fault of either file, and why it is one. Status 3 where a server wouldn't start with
/// them. A file that can't be opened, where `opening` gives None, fails when it is read. Nothing is bound, and nothing else is written.
pub fn check_host<
    F: Read + Drop,
    K: Write + Drop,
    R: Files<File = File> + Clock + Drop,
    Open: Fn(&str) -> Option<F> + Drop,
>(alloc: Global, words: &[String], opening: Open, rt: R, report: K) -> HostChecked<F, K>
    requires opens { Open.IsAlwaysCallable opening }
    requires asks { is_some (host_task (map string_bytes words.now)) ≡ true }
    // The two files are what opening the second and the third word gave, and this was found of them and written.
    ensures { (asked : Task) × (host_task (map string_bytes words.now) ≡ Some asked) × (file named : Option F) × FnReturnsAt Open.Fn opening (second_of (map string_bytes words.now)) file
        × FnReturnsAt Open.Fn opening (third_of (map string_bytes words.now)) named
        × ReportsHost asked result.status (option_and_then F.remaining file) (option_and_then F.remaining named)
        (K.contents report) (⟦<StdSink<K> as Sink>⟧.holds result.report)
        (Rose 0 (⟦<StdSource<F> as Source>⟧.faults result.settings)) (Rose 0 (⟦<StdSource<F> as Source>⟧.faults result.host_file))
        (Rose 0 (⟦<StdSink<K> as Sink>⟧.faults result.report)) }
{
    let (task, settings, host_file) = asked_of(words);
    let mut settings = StdSource::new(opening(settings));
    let mut host_file = StdSource::new(opening(host_file));
    let mut report = StdSink::new(report);
    let found = check_files(alloc, &rt, task, &mut settings, &mut host_file);
    let status = report_found(found, &mut report).status();
    HostChecked {
        status,
        settings,
        host_file,
        report,
    }
}
