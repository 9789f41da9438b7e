//! What stands in a journal goes over to a new one, of other settings.

ghost use Rattle.std.specs.Prelude.{◌≡◌, ◌⊎◌, ◌+◌, ◌^◌, ◌≤◌, ◌++◌, length, true, false, Ok, Err, IfOk, IfSome, OnOk};
ghost use Rattle.dots_host.specs.Causes.{Rose};
ghost use Rattle.dots_host.specs.Becoming.{Leaves, RestsWith};
ghost use Rattle.dots_host.specs.Stored.{media_of};
ghost use Rattle.dots_settings.specs.declared.fault.SettingsFault.{SettingsFault};
ghost use Rattle.dots_settings.specs.File.{SettingsFail};
ghost use Rattle.dots_edge.specs.HostFile.{IsRefused};
ghost use Rattle.slot_store.specs.Layout.{IsZeroFrom};
ghost use Rattle.host_checks.specs.HostChecks.{IsAtFault, front_of};
ghost use Rattle.host_checks.specs.Making.{IsNoneOr};
ghost use Rattle.host_checks.specs.Moving.{IsToldOf, EndsBy, EndsByNew, EndsByHost, Finishes, is_of_settings, end_of, text_in};
ghost use Rattle.host_checks.specs.declared.moving_files.MigrateEnd.TheVariants as end;

use crate::files::{MAX_FILE, MAX_READ, now};
use crate::host_fault::host_fault_report;
use crate::journal_state::add_refused;
use crate::made_journal::{MadeJournal, MakeFault, make_journal};
use crate::new_journal::NewJournal;
use crate::whole_image::write_whole;
use dots_edge::{
    FoundJournal, HostFault, HostLine, JournalReader, journal_in, read_host_file, reserve_in,
    room_of,
};
use dots_host::{Disk, MemoryDisk, Source};
use dots_lists::{Bytes, NoMemory};
use dots_script::{Checked, Unchecked, check_content, read_front};
use dots_settings::{Settings, SettingsFault, settings_of};
use slot_journal::JournalFault;
use std::alloc::Global;
use std::fs;
use std::fs::{File, Files};
use std::time::Clock;

/// How a migration ended.
#[derive(Clone, Copy)]
pub enum MigrateEnd {
    /// The new journal is written, or would be.
    Done,
    /// One of the settings files has a fault.
    SettingsAtFault,
    /// The host file has a fault, a file is there or isn't, or a call failed.
    DiskFailed,
    /// What stands in the journal is no journal's.
    NotOurs,
    /// The journal was written under other settings than the old ones.
    OtherSettings,
    /// The journal, or the room for the new one, has fewer bytes than are needed.
    TooSmall,
}

/// How a migration ended, and what is to be told.
#[derive(Drop)]
pub struct Migration {
    pub end: MigrateEnd,
    pub text: Bytes,
}

/// Where what is made goes.
#[derive(Clone, Copy)]
pub struct Aim<'a> {
    /// The path of the new journal.
    pub path: &'a str,
    /// Whether it is only told what would be done.
    pub dry: bool,
}

/// Reads the journal that a host file names, under the old settings, and writes what counts of it now to a new file, as the journal of the new
/// settings. Tells which entries are left out, and why. The old journal is locked meanwhile, and nothing is written to it; a file at the path of
/// the new one stays as it is.
///
/// # Errors
///
/// `ReadFailed` where a settings file or the host file can't be read, and `NoMemory`.
pub fn migrate_files<S: Source, T: Source, U: Source, R: Files<File = File> + Clock>(
    alloc: Global,
    rt: &R,
    old: &mut S,
    new: &mut T,
    host: &mut U,
    aim: Aim<'_>,
) -> Result<Migration, Unchecked>
    ensures ends { IfOk result (λ migration. IfSome (S.left old.old) (λ former. IfSome (T.left new.old) (λ later. IfSome (U.left host.old) (λ lines.
        EndsBy (front_of former) (front_of later) (front_of lines) migration.end migration.text)))) }
    ensures cause { result ≡ Err Unchecked.ReadFailed → Rose (S.faults old.old) (S.faults old.new)
        ⊎ (Rose (T.faults new.old) (T.faults new.new) ⊎ Rose (U.faults host.old) (U.faults host.new)) }
{
    let former = read_front(alloc, old, MAX_READ)?;
    let later = read_front(alloc, new, MAX_READ)?;
    let lines = read_front(alloc, host, MAX_READ)?;
    match migrate_texts(
        alloc,
        rt,
        former.as_slice(),
        later.as_slice(),
        lines.as_slice(),
        aim,
    ) {
        Ok(migration) => Ok(migration),
        Err(NoMemory) => Err(Unchecked::NoMemory),
    }
}

/// The same of files of which these are the first 65,537 bytes.
fn migrate_texts<R: Files<File = File> + Clock>(
    alloc: Global,
    rt: &R,
    old: &[u8],
    new: &[u8],
    host: &[u8],
    aim: Aim<'_>,
) -> Result<Migration, NoMemory>
    requires old { length old.now ≤ 2 ^ 16 + 1 }
    requires new { length new.now ≤ 2 ^ 16 + 1 }
    ensures { IfOk result (λ migration. EndsBy old.now new.now host.now migration.end migration.text) }
{
    match settings_of(alloc, old) {
        Ok(settings) => migrate_from(alloc, rt, &settings, new, host, aim),
        Err(SettingsFault::NoMemory) => Err(NoMemory),
        Err(SettingsFault::ReadFault) => unreachable!(),
        Err(_) => settings_at_fault(alloc, b"the old settings: ", old),
    }
}

/// The same under these old settings.
fn migrate_from<R: Files<File = File> + Clock>(
    alloc: Global,
    rt: &R,
    old: &Settings,
    new: &[u8],
    host: &[u8],
    aim: Aim<'_>,
) -> Result<Migration, NoMemory>
    requires { length new.now ≤ 2 ^ 16 + 1 }
    ensures { IfOk result (λ migration. EndsByNew new.now host.now migration.end migration.text) }
{
    match settings_of(alloc, new) {
        Ok(settings) => migrate_beside(alloc, rt, old, &settings, host, aim),
        Err(SettingsFault::NoMemory) => Err(NoMemory),
        Err(SettingsFault::ReadFault) => unreachable!(),
        Err(_) => settings_at_fault(alloc, b"the new settings: ", new),
    }
}

/// What is told of settings with a fault.
fn settings_at_fault(alloc: Global, which: &[u8], content: &[u8]) -> Result<Migration, NoMemory>
    requires { length content.now ≤ 2 ^ 16 + 1 }
    ensures { (why : SettingsFault) → SettingsFail content.now why
        → IfOk result (λ migration. (migration.end ≡ end.SettingsAtFault) × IsToldOf which.now content.now migration.text) }
{
    let checked = check_content(alloc, content)?;
    let mut text = Vec::from_slice(alloc, which)?;
    add_checked(&mut text, &checked)?;
    Ok(Migration {
        end: MigrateEnd::SettingsAtFault,
        text: Bytes::from_vec(text),
    })
}

/// Adds what a check told.
fn add_checked(text: &mut Vec<u8>, checked: &Checked) -> Result<(), NoMemory>
    ensures { OnOk result (text.new.items ≡ text.old.items ++ text_in checked.now) }
{
    match checked {
        Checked::Good(told) | Checked::AtFault(told) => text.extend_from_slice(told.items())?,
    }
    Ok(())
}

/// What ends so, with these words.
fn ended(alloc: Global, end: MigrateEnd, words: &[u8]) -> Result<Migration, NoMemory>
    ensures { IfOk result (λ migration. (migration.end ≡ end) × (migration.text ≡ words.now)) }
{
    let text = Vec::from_slice(alloc, words)?;
    Ok(Migration {
        end,
        text: Bytes::from_vec(text),
    })
}

/// A call of the disk failed, or a file is there or isn't.
fn failed(alloc: Global, words: &[u8]) -> Result<Migration, NoMemory>
    ensures { IfOk result (λ migration. (migration.end ≡ end.DiskFailed) × (migration.text ≡ words.now)) }
{
    ended(alloc, MigrateEnd::DiskFailed, words)
}

fn migrate_beside<R: Files<File = File> + Clock>(
    alloc: Global,
    rt: &R,
    old: &Settings,
    new: &Settings,
    host: &[u8],
    aim: Aim<'_>,
) -> Result<Migration, NoMemory>
    ensures { IfOk result (λ migration. EndsByHost host.now migration.end migration.text) }
{
    if host.len() > MAX_FILE {
        return failed(alloc, b"fault 6: the host file has more than 65536 bytes\n");
    }
    match read_host_file(alloc, host) {
        Ok(said) => migrate_said(alloc, rt, old, new, said.as_slice(), aim),
        Err(HostFault::NoMemory) => Err(NoMemory),
        Err(fault) => host_failed(alloc, host, fault),
    }
}

/// What is told of a host file with this fault.
fn host_failed(alloc: Global, host: &[u8], fault: HostFault) -> Result<Migration, NoMemory>
    requires { IsRefused host.now fault }
    ensures { IfOk result (λ migration. (migration.end ≡ end.DiskFailed) × IsAtFault host.now migration.text) }
{
    let text = host_fault_report(alloc, host, fault)?;
    Ok(Migration {
        end: MigrateEnd::DiskFailed,
        text,
    })
}

/// Migrates the journal that these lines name. It is locked meanwhile.
fn migrate_said<R: Files<File = File> + Clock>(
    alloc: Global,
    rt: &R,
    old: &Settings,
    new: &Settings,
    said: &[HostLine<'_>],
    aim: Aim<'_>,
) -> Result<Migration, NoMemory>
    ensures { IfOk result (λ migration. is_of_settings migration.end ≡ false) }
{
    let Some(path) = journal_in(said) else {
        return failed(alloc, b"fault 6: the host file has no journal line\n");
    };
    if fs::metadata(rt, aim.path).is_ok() {
        return failed(
            alloc,
            b"fault 6: there is a file at the path of the new journal\n",
        );
    }
    let Ok(held) = File::open(rt, path) else {
        return failed(alloc, b"fault 6: the journal can't be read\n");
    };
    if held.try_lock().is_err() {
        return failed(
            alloc,
            b"fault 6: another program has the journal: stop the server\n",
        );
    }
    migrate_held(alloc, rt, old, new, path, reserve_in(said), aim)
}

/// Migrates the journal at the path, which is locked.
fn migrate_held<R: Files<File = File> + Clock>(
    alloc: Global,
    rt: &R,
    old: &Settings,
    new: &Settings,
    path: &str,
    reserve: Option<u64>,
    aim: Aim<'_>,
) -> Result<Migration, NoMemory>
    ensures { IfOk result (λ migration. is_of_settings migration.end ≡ false) }
{
    match JournalReader::open(rt, path, reserve) {
        FoundJournal::There(mut reader) => {
            let room = room_of(reserve);
            let made = make_journal(alloc, &mut reader, old, new, room, now(rt));
            finish(alloc, rt, made, room, aim)
        }
        FoundJournal::Missing | FoundJournal::Unreadable => {
            failed(alloc, b"fault 6: the journal can't be read\n")
        }
        FoundJournal::Blank => failed(alloc, b"fault 6: the journal is empty\n"),
        FoundJournal::NotOne => failed(
            alloc,
            b"fault 6: at the path of the journal stands what is no journal\n",
        ),
    }
}

/// Writes what was made, or tells why nothing was.
fn finish<R: Files<File = File>>(
    alloc: Global,
    rt: &R,
    made: Result<MadeJournal, MakeFault>,
    room: u64,
    aim: Aim<'_>,
) -> Result<Migration, NoMemory>
    ensures finishes { IfOk result (λ migration. Finishes made aim.entry.dry migration.end migration.text) }
    ensures other { IfOk result (λ migration. is_of_settings migration.end ≡ false) }
{
    match made {
        Ok(made) => put(alloc, rt, made, room, aim),
        Err(MakeFault::Refused(fault)) => refused(alloc, fault),
        Err(MakeFault::TooSmall) => ended(
            alloc,
            MigrateEnd::TooSmall,
            b"fault 10: the new settings need more bytes than the host file reserves\n",
        ),
        Err(MakeFault::NoMemory) => Err(NoMemory),
    }
}

/// Why the journal is refused.
fn refused(alloc: Global, fault: JournalFault) -> Result<Migration, NoMemory>
    ensures end { IfOk result (λ migration. migration.end ≡ end_of fault) }
    ensures other { IfOk result (λ migration. is_of_settings migration.end ≡ false) }
{
    let mut text = Vec::new(alloc);
    add_refused(&mut text, fault)?;
    Ok(Migration {
        end: end_of(fault),
        text: Bytes::from_vec(text),
    })
}

/// How it ends where the journal is refused.
fn end_of(fault: JournalFault) -> MigrateEnd
    ensures end { result ≡ end_of fault }
    ensures other { is_of_settings result ≡ false }
{
    match fault {
        JournalFault::TooSmall { .. } => MigrateEnd::TooSmall,
        JournalFault::NotOurs { .. } => MigrateEnd::NotOurs,
        JournalFault::SettingsChanged { .. } => MigrateEnd::OtherSettings,
        JournalFault::DiskFault | JournalFault::NoMemory => MigrateEnd::DiskFailed,
    }
}

/// Writes the journal to a new file, unless it is only to be told.
fn put<R: Files<File = File>>(
    alloc: Global,
    rt: &R,
    made: MadeJournal,
    room: u64,
    aim: Aim<'_>,
) -> Result<Migration, NoMemory>
    ensures finishes { IfOk result (λ migration. Finishes (Ok made) aim.entry.dry migration.end migration.text) }
    ensures other { IfOk result (λ migration. is_of_settings migration.end ≡ false) }
{
    let MadeJournal { disk, text } = made;
    if !aim.dry {
        let Ok(mut file) = NewJournal::make(rt, aim.path, room) else {
            return failed(alloc, b"fault 6: the new journal can't be made\n");
        };
        if !write_to(&mut file, &disk) {
            return failed(
                alloc,
                b"fault 6: the new journal can't be written: remove the file\n",
            );
        }
    }
    drop(disk);
    Ok(Migration {
        end: MigrateEnd::Done,
        text: Bytes::from_vec(text),
    })
}

/// Writes what was made in memory to a new disk of zeros, and answers whether it is there: at each moment no journal is there, or the whole one.
fn write_to<D: Disk>(disk: &mut D, made: &MemoryDisk) -> bool
    ensures moments { RestsWith (D.media disk.old) (IsZeroFrom 0)
        → Leaves (D.media disk.old) (D.media disk.new) (IsNoneOr (media_of made.now).now.seen) }
    ensures written { result ≡ true → (media_of made.now).now.seen 0 ≡ 165 → RestsWith (D.media disk.old) (IsZeroFrom 0)
        → RestsWith (D.media disk.new) (λ left. left ≡ (media_of made.now).now.seen) }
{
    let image = made.image();
    if image.len() as u64 <= disk.size() {
        return write_whole(disk, image).is_ok();
    }
    false
}
