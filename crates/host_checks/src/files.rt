//! What is told of a settings file and a host file together.

ghost use Rattle.std.specs.Prelude.{◌≡◌, ◌⊎◌, ◌+◌, ◌^◌, ◌<◌, ◌≤◌, length, map, Ok, IfOk, IfSome, OnOk};
ghost use Rattle.dots_host.specs.Causes.{Rose};
ghost use Rattle.dots_lists.specs.Lines.{lines_of};
ghost use Rattle.dots_settings.specs.File.{SettingsFail};
ghost use Rattle.dots_script.specs.Checks.{ChecksSettings};
ghost use Rattle.dots_edge.specs.HostLine.{line_value};
ghost use Rattle.dots_edge.specs.HostFile.{Stand};
ghost use Rattle.dots_script.specs.declared.checked.Checked.TheVariants as checked;
ghost use Rattle.host_checks.specs.HostChecks.{ChecksFiles, ReportsChecked, ReportsHost, front_of, too_long};

use crate::checking::check_host;
use crate::filtering::{FilterForm, filters_read};
use crate::host_fault::host_fault_report;
use crate::journal_state::{JournalState, add_journal};
use crate::listing::list_journal;
use crate::looking::look_at;
use dots_edge::{
    FoundJournal, HostFault, HostLine, JournalReader, journal_in, read_host_file, reserve_in,
};
use dots_host::Source;
use dots_lists::{Bytes, NoMemory};
use dots_script::{Checked, Unchecked, check_content, read_front};
use dots_settings::{Settings, SettingsFault, settings_of};
use std::alloc::Global;
use std::fs::{File, Files};
use std::time::Clock;

/// The most bytes that either file may have.
pub(crate) const MAX_FILE: usize = 65_536;

/// How much of a file is read: one byte more than it may have.
pub(crate) const MAX_READ: usize = MAX_FILE + 1;

/// The greatest second that an entry may have.
const MAX_SECOND: u64 = 0xffff_ffff_ffff;

/// What is to be told where neither file has a fault.
#[derive(Clone, Copy)]
pub enum Task {
    /// What the files and the journal come to, and what a server would refuse.
    Check,
    /// The entries of the journal.
    List,
    /// The filters that the journal comes to now, in this form.
    Filters(FilterForm),
}

/// What is told of a settings file and of the host file that a server would be started with beside it: the first fault of the settings; or
/// that of the host file; or what its lines come to, and what is found of the journal now, with what a server would refuse and its status
/// then; or the entries of the journal; or its filters. Nothing is bound, and nothing is written.
pub fn check_files<S: Source, T: Source, R: Files<File = File> + Clock>(
    alloc: Global,
    rt: &R,
    task: Task,
    settings: &mut S,
    host: &mut T,
) -> Result<Checked, Unchecked>
    ensures checks { IfOk result (λ told. IfSome (S.left settings.old) (λ file. IfSome (T.left host.old) (λ text. ChecksFiles task (front_of file) (front_of text) told))) }
    ensures same { OnOk result ((S.faults settings.new ≡ S.faults settings.old) × (T.faults host.new ≡ T.faults host.old)) }
    ensures cause { result ≡ Err Unchecked.ReadFailed → Rose (S.faults settings.old) (S.faults settings.new) ⊎ Rose (T.faults host.old) (T.faults host.new) }
{
    let content = read_front(alloc, settings, MAX_READ)?;
    let text = read_front(alloc, host, MAX_READ)?;
    match check_texts(alloc, rt, task, content.as_slice(), text.as_slice()) {
        Ok(told) => Ok(told),
        Err(NoMemory) => Err(Unchecked::NoMemory),
    }
}

/// The same of files of which these are the first 65,537 bytes.
fn check_texts<R: Files<File = File> + Clock>(
    alloc: Global,
    rt: &R,
    task: Task,
    content: &[u8],
    text: &[u8],
) -> Result<Checked, NoMemory>
    requires { length content.now ≤ 2 ^ 16 + 1 }
    ensures { IfOk result (ChecksFiles task content.now text.now) }
{
    match settings_of(alloc, content) {
        Ok(settings) => check_beside(alloc, rt, task, &settings, text),
        Err(SettingsFault::NoMemory) => Err(NoMemory),
        Err(SettingsFault::ReadFault) => unreachable!(),
        Err(_) => check_content(alloc, content),
    }
}

/// What is told of the host file beside these settings.
fn check_beside<R: Files<File = File> + Clock>(
    alloc: Global,
    rt: &R,
    task: Task,
    settings: &Settings,
    text: &[u8],
) -> Result<Checked, NoMemory>
    ensures { IfOk result (ReportsHost task settings.now text.now) }
{
    if text.len() > MAX_FILE {
        return too_long(alloc);
    }
    match read_host_file(alloc, text) {
        Ok(said) => match task {
            Task::Check => check_said(alloc, rt, settings, said.as_slice(), text),
            Task::List => list_said(alloc, rt, settings, said.as_slice()),
            Task::Filters(form) => filters_said(alloc, rt, settings, said.as_slice(), form),
        },
        Err(HostFault::NoMemory) => Err(NoMemory),
        Err(fault) => match host_fault_report(alloc, text, fault) {
            Ok(report) => Ok(Checked::AtFault(report)),
            Err(NoMemory) => Err(NoMemory),
        },
    }
}

pub(crate) fn too_long(alloc: Global) -> Result<Checked, NoMemory>
    ensures { IfOk result (λ told. told ≡ checked.AtFault too_long) }
{
    let text = Vec::from_slice(alloc, b"fault 6: the host file has more than 65536 bytes\n")?;
    Ok(Checked::AtFault(Bytes::from_vec(text)))
}

/// What is told of the lines that the host file has, and of the journal that they name, as it is found now.
fn check_said<R: Files<File = File> + Clock>(
    alloc: Global,
    rt: &R,
    settings: &Settings,
    said: &[HostLine<'_>],
    text: &[u8],
) -> Result<Checked, NoMemory>
    requires { Stand (lines_of text.now) (map line_value said.now) }
    ensures { IfOk result (ReportsChecked settings.now text.now) }
{
    let state = find_journal(alloc, rt, settings, said)?;
    let now = match rt.since_1970() {
        Ok(wall) => wall.as_secs(),
        Err(_) => 0,
    };
    check_host(alloc, settings, said, state, now)
}

/// What is found at the path of the journal that the lines name.
fn find_journal<R: Files<File = File>>(
    alloc: Global,
    rt: &R,
    settings: &Settings,
    said: &[HostLine<'_>],
) -> Result<JournalState, NoMemory> {
    let Some(path) = journal_in(said) else {
        return Ok(JournalState::Missing);
    };
    match JournalReader::open(rt, path, reserve_in(said)) {
        FoundJournal::Missing => Ok(JournalState::Missing),
        FoundJournal::Blank => Ok(JournalState::Blank),
        FoundJournal::NotOne => Ok(JournalState::NotOne),
        FoundJournal::Unreadable => Ok(JournalState::Unreadable),
        FoundJournal::There(mut reader) => look_at(alloc, &mut reader, settings),
    }
}

/// The entries of the journal that the lines name, or what else is found there.
fn list_said<R: Files<File = File>>(
    alloc: Global,
    rt: &R,
    settings: &Settings,
    said: &[HostLine<'_>],
) -> Result<Checked, NoMemory> {
    let Some(path) = journal_in(said) else {
        return state_alone(alloc, JournalState::Unreadable);
    };
    match JournalReader::open(rt, path, reserve_in(said)) {
        FoundJournal::Missing => state_alone(alloc, JournalState::Missing),
        FoundJournal::Blank => state_alone(alloc, JournalState::Blank),
        FoundJournal::NotOne => state_alone(alloc, JournalState::NotOne),
        FoundJournal::Unreadable => state_alone(alloc, JournalState::Unreadable),
        FoundJournal::There(mut reader) => list_journal(alloc, &mut reader, settings),
    }
}

/// The filters that the journal of these lines comes to now. Where there is no journal yet that is a fault.
fn filters_said<R: Files<File = File> + Clock>(
    alloc: Global,
    rt: &R,
    settings: &Settings,
    said: &[HostLine<'_>],
    form: FilterForm,
) -> Result<Checked, NoMemory> {
    let Some(path) = journal_in(said) else {
        return no_filters(alloc, JournalState::Unreadable);
    };
    match JournalReader::open(rt, path, reserve_in(said)) {
        FoundJournal::Missing => no_filters(alloc, JournalState::Missing),
        FoundJournal::Blank => no_filters(alloc, JournalState::Blank),
        FoundJournal::NotOne => no_filters(alloc, JournalState::NotOne),
        FoundJournal::Unreadable => no_filters(alloc, JournalState::Unreadable),
        FoundJournal::There(mut reader) => filters_read(
            alloc,
            &mut reader,
            settings,
            now(rt),
            form,
        ),
    }
}

/// The second since 1970, below 2^48.
pub(crate) fn now<R: Clock>(rt: &R) -> u64
    ensures { result < 2 ^ 48 }
{
    match rt.since_1970() {
        Ok(wall) => wall.as_secs().min(MAX_SECOND),
        Err(_) => 0,
    }
}

/// What is said of a journal that has no filters.
fn no_filters(alloc: Global, state: JournalState) -> Result<Checked, NoMemory> {
    let mut text = Vec::new(alloc);
    add_journal(&mut text, 0, state)?;
    Ok(Checked::AtFault(Bytes::from_vec(text)))
}

/// What is said of a journal of which no entry can be listed.
fn state_alone(alloc: Global, state: JournalState) -> Result<Checked, NoMemory> {
    let mut text = Vec::new(alloc);
    add_journal(&mut text, 0, state)?;
    let text = Bytes::from_vec(text);
    if state.is_fit(0) {
        return Ok(Checked::Good(text));
    }
    Ok(Checked::AtFault(text))
}
