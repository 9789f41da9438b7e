//! The journal that goes over to other settings.

ghost use Rattle.std.specs.Prelude.{◌≡◌, ◌⊎◌, ◌&&◌, map, string_bytes, true, ⊤, Option, option_and_then};
ghost use Rattle.std.specs.Fn.{FnReturnsAt};
ghost use Rattle.dots_host.specs.Causes.{Rose};
ghost use Rattle.dots_machine.specs.Commands.{is_word, second_of, third_of};
ghost use Rattle.dots_run.specs.Migrate.{is_migrate, fourth_of, migrate_status, Migrates};

use crate::words::is_word;
use dots_host::{Sink, Source, StdSink, StdSource, write_all};
use dots_script::Unchecked;
use host_checks::{Aim, MigrateEnd, Migration, migrate_files};
use std::alloc::Global;
use std::fs::{File, Files};
use std::io::{Read, Write};
use std::time::Clock;

/// The exit status where no memory is found.
const NO_MEMORY: u8 = 4;

/// That where a file can't be read.
const UNREAD: u8 = 5;

/// That where the report can't be written.
const UNWRITTEN: u8 = 9;

/// Whether they are `migrate OLD NEW HOSTFILE NEWJOURNAL`, with `dry` behind it or without.
pub fn is_migrate(words: &[String]) -> bool
    ensures { result ≡ is_migrate (map string_bytes words.now) }
{
    match words {
        [name, old, new, host, path] => {
            name.as_str() == "migrate" && (are_words(old, new) && are_words(host, path))
        }
        [name, old, new, host, path, last] => {
            name.as_str() == "migrate"
                && ((are_words(old, new) && are_words(host, path)) && last.as_str() == "dry")
        }
        _ => false,
    }
}

/// Whether neither is empty or begins with `-`.
fn are_words(one: &str, other: &str) -> bool
    ensures { result ≡ (is_word one.now && is_word other.now) }
{
    is_word(one.as_bytes()) && is_word(other.as_bytes())
}

/// The names of both settings files and of the host file, and where the new journal goes.
fn names_of(words: &[String]) -> (&str, &str, &str, Aim<'_>)
    requires { is_migrate (map string_bytes words.now) ≡ true }
    ensures old { result.0.now ≡ second_of (map string_bytes words.now) }
    ensures new { result.1.now ≡ third_of (map string_bytes words.now) }
    ensures host { result.2.now ≡ fourth_of (map string_bytes words.now) }
{
    match words {
        [_, old, new, host, path] | [_, old, new, host, path, _] => {
            let dry = words.len() > 5;
            let path = path.as_str();
            (old.as_str(), new.as_str(), host.as_str(), Aim { path, dry })
        }
        _ => unreachable!(),
    }
}

/// Does what the words `migrate OLD NEW HOSTFILE NEWJOURNAL` (`dry`) ask for: `opening` opens the three files by their names, what counts of the
/// journal goes over to a new file, and what is left out is written to `report`. Answers the exit status. A file that can't be opened,
/// where `opening` gives None, fails when it is read.
pub fn migrate<
    F: Read + Drop,
    K: Write + Drop,
    R: Files<File = File> + Clock + Drop,
    Open: Fn(&str) -> Option<F> + Drop,
>(alloc: Global, words: &[String], opening: Open, rt: R, report: K) -> u8
    requires opens { Open.IsAlwaysCallable opening }
    requires asks { is_migrate (map string_bytes words.now) ≡ true }
    // The three files are what opening the second, third and fourth word gave, and the status is that of what is found of them.
    ensures { (former later lines : Option F) × FnReturnsAt Open.Fn opening (second_of (map string_bytes words.now)) former
        × FnReturnsAt Open.Fn opening (third_of (map string_bytes words.now)) later × FnReturnsAt Open.Fn opening (fourth_of (map string_bytes words.now)) lines
        × Migrates result (option_and_then F.remaining former) (option_and_then F.remaining later) (option_and_then F.remaining lines) ⊤ ⊤ }
{
    let (old, new, host, aim) = names_of(words);
    let mut former = StdSource::new(opening(old));
    let mut later = StdSource::new(opening(new));
    let mut lines = StdSource::new(opening(host));
    let mut report = StdSink::new(report);
    migrate_sources(
        alloc,
        &rt,
        &mut former,
        &mut later,
        &mut lines,
        aim,
        &mut report,
    )
}

/// The same of files that are open.
fn migrate_sources<S: Source, T: Source, U: Source, K: Sink, R: Files<File = File> + Clock>(
    alloc: Global,
    rt: &R,
    old: &mut S,
    new: &mut T,
    host: &mut U,
    aim: Aim<'_>,
    report: &mut K,
) -> u8
    ensures { Migrates result (S.left old.old) (T.left new.old) (U.left host.old)
        (Rose (S.faults old.old) (S.faults old.new) ⊎ (Rose (T.faults new.old) (T.faults new.new) ⊎ Rose (U.faults host.old) (U.faults host.new)))
        (Rose (K.faults report.old) (K.faults report.new)) }
{
    match migrate_files(alloc, rt, old, new, host, aim) {
        Ok(Migration { end, text }) => match write_all(report, text.items()) {
            Ok(()) => status_of(end),
            Err(_) => UNWRITTEN,
        },
        Err(Unchecked::ReadFailed) => UNREAD,
        Err(Unchecked::NoMemory) => NO_MEMORY,
    }
}

/// The exit status: that with which a server ends for the same cause.
fn status_of(end: MigrateEnd) -> u8
    ensures { result ≡ migrate_status end }
{
    match end {
        MigrateEnd::Done => 0,
        MigrateEnd::SettingsAtFault => 3,
        MigrateEnd::DiskFailed => 6,
        MigrateEnd::NotOurs => 7,
        MigrateEnd::OtherSettings => 8,
        MigrateEnd::TooSmall => 10,
    }
}
