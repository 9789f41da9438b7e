//! The file of a journal that wasn't there.

ghost use Rattle.std.specs.Prelude.{◌≡◌, ◌+◌, ◌≤◌, length, None, IfOk, OnOk, OnErr, ⊤};
ghost use Rattle.dots_host.specs.Causes.{HasCause};

use dots_host::{Disk, Failed};
use std::fs::{File, Files, OpenOptions};
use std::io;
use std::os::unix::fs::{FileExt, OpenOptionsExt};

/// The length of a journal is a multiple of so many bytes.
const PAGE: u64 = 4096;

/// Nobody else may read or write the file.
const MODE: u32 = 0o600;

/// A new file of zeros, which this process alone has.
#[derive(Drop)]
pub(crate) struct NewJournal {
    file: File,
    /// How many bytes it may have.
    room: u64,
    faults: u64,
}

impl NewJournal {
    /// Makes the file of the path, readable by its owner alone, and locks it; its entry in the folder is synced. A file that is there is an
    /// error, and stays as it is.
    pub fn make<R: Files<File = File>>(rt: &R, path: &str, room: u64) -> io::Result<NewJournal>
        ensures { IfOk result (λ journal. journal.room ≡ room) }
    {
        let mut how = OpenOptions::new();
        how.read(true).write(true).create_new(true);
        how.mode(MODE);
        let file = how.open(rt, path)?;
        keep_name(rt, &file, path)?;
        Ok(NewJournal {
            file,
            room,
            faults: 0,
        })
    }

    /// A call that failed.
    fn fail(&mut self) -> Result<(), Failed>
        ensures err { OnOk result ⊥ }
        ensures room { self.new.room ≡ self.old.room }
        ensures cause { HasCause self.old.faults self.new.faults result }
    {
        self.faults = self.faults.saturating_add(1);
        Err(Failed)
    }
}

/// Locks a new file, and makes its name stay in the folder.
fn keep_name<R: Files<File = File>>(rt: &R, file: &File, path: &str) -> io::Result<()> {
    file.try_lock()?;
    file.sync_all()?;
    let folder = File::open(rt, folder_of(path))?;
    folder.sync_all()
}

/// The folder in which the file of the path stands.
fn folder_of(path: &str) -> &str {
    match path.rfind('/') {
        Some(0) => "/",
        Some(slash) => &path[..slash],
        None => ".",
    }
}

/// Writes the bytes from the place on. The file is then of whole pages.
fn put(file: &File, at: u64, bytes: &[u8]) -> io::Result<()> {
    let end = at.saturating_add(bytes.len() as u64);
    let whole = end.saturating_add(PAGE - 1) / PAGE * PAGE;
    if file.metadata()?.len() < whole {
        file.set_len(whole)?;
    }
    file.write_all_at(bytes, at)
}

impl Disk for NewJournal {
    ghost media = { λ _. None };

    ghost extent = { λ journal. journal.room };

    ghost faults = { λ journal. journal.faults };

    ghost beside = { λ _ _. ⊤ };

    ghost beside_same = { λ _. tt };

    ghost beside_then = { λ _ _ _ _ _. tt };

    fn size(&self) -> u64
        ensures { result ≡ self.now.room }
    {
        self.room
    }

    fn read(&mut self, at: u64, into: &mut [u8]) -> Result<(), Failed>
        requires { at + length into.old ≤ self.old.room }
        ensures bytes { OnOk result ⊤ }
        ensures ok { OnOk result ⊤ }
        ensures err { OnErr result ⊤ }
        ensures extent { self.new.room ≡ self.old.room }
        ensures cause { HasCause self.old.faults self.new.faults result }
        ensures beside { ⊤ }
    {
        if self.file.read_exact_at(into, at).is_ok() {
            return Ok(());
        }
        self.fail()
    }

    fn write_at(&mut self, at: u64, bytes: &[u8]) -> Result<(), Failed>
        requires { at + length bytes.now ≤ self.old.room }
        ensures ok { OnOk result ⊤ }
        ensures err { OnErr result ⊤ }
        ensures extent { self.new.room ≡ self.old.room }
        ensures cause { HasCause self.old.faults self.new.faults result }
        ensures beside { ⊤ }
    {
        if put(&self.file, at, bytes).is_ok() {
            return Ok(());
        }
        self.fail()
    }

    fn sync(&mut self) -> Result<(), Failed>
        ensures ok { OnOk result ⊤ }
        ensures err { OnErr result ⊤ }
        ensures extent { self.new.room ≡ self.old.room }
        ensures cause { HasCause self.old.faults self.new.faults result }
        ensures beside { ⊤ }
    {
        if self.file.sync_all().is_ok() {
            return Ok(());
        }
        self.fail()
    }
}
