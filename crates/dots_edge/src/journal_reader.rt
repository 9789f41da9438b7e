//! The file of a journal, to be read alone.

ghost use Rattle.std.specs.Prelude.{◌≡◌, ◌+◌, ◌≤◌, length, None, OnOk, OnErr, ⊤};
ghost use Rattle.dots_host.specs.Causes.{HasCause};
ghost use Rattle.dots_edge.specs.JournalFile.{room_of};

use crate::journal::room_of;
use crate::journal_file::{Front, front_of, is_whole};
use dots_host::{Disk, Failed};
use std::fs::{File, Files};
use std::io;
use std::io::ErrorKind;
use std::os::unix::fs::FileExt;

/// The file of a journal that is read, and never written, made, locked or grown. Beyond its end a read gives zeros.
#[derive(Drop)]
pub struct JournalReader {
    file: File,
    /// How long the file was found.
    made: u64,
    /// How many bytes of the journal are reserved, where that is said.
    pub reserve: Option<u64>,
    pub faults: u64,
}

/// What is found at the path of a journal.
#[derive(Drop)]
pub enum FoundJournal {
    /// No file. A server makes it.
    Missing,
    /// A file that is empty, or whose header isn't whole yet and behind it nothing stands. A server begins a journal there.
    Blank,
    /// What can't be a journal: no regular file of whole pages, or one that begins otherwise. A server refuses it.
    NotOne,
    /// A file that can't be opened or read.
    Unreadable,
    /// A file that may be a journal.
    There(JournalReader),
}

impl JournalReader {
    /// Looks what is at the path, and opens it to be read. Nothing is written.
    pub fn open<R: Files<File = File>>(rt: &R, path: &str, reserve: Option<u64>) -> FoundJournal {
        match find(rt, path, reserve) {
            Ok(found) => found,
            Err(error) => match error.kind() {
                ErrorKind::NotFound => FoundJournal::Missing,
                _ => FoundJournal::Unreadable,
            },
        }
    }
}

/// What is at the path, or why that can't be seen.
fn find<R: Files<File = File>>(
    rt: &R,
    path: &str,
    reserve: Option<u64>,
) -> io::Result<FoundJournal> {
    let found = std::fs::metadata(rt, path)?;
    if !is_whole(&found) {
        return Ok(FoundJournal::NotOne);
    }
    let made = found.len();
    let file = File::open(rt, path)?;
    match front_of(&file, made)? {
        Front::Blank => Ok(FoundJournal::Blank),
        Front::Other => Ok(FoundJournal::NotOne),
        Front::Open => Ok(FoundJournal::There(JournalReader {
            file,
            made,
            reserve,
            faults: 0,
        })),
    }
}

/// Reads the bytes from the place on, of a file that is so long.
fn read_made(file: &File, made: u64, at: u64, into: &mut [u8]) -> bool {
    let there = made.saturating_sub(at).min(into.len() as u64) as usize;
    let (front, behind) = into.split_at_mut(there);
    behind.fill(0);
    file.read_exact_at(front, at).is_ok()
}

impl Disk for JournalReader {
    ghost media = { λ _. None };

    ghost extent = { λ reader. room_of reader.reserve };

    ghost faults = { λ reader. reader.faults };

    ghost beside = { λ _ _. ⊤ };

    ghost beside_same = { λ _. tt };

    ghost beside_then = { λ _ _ _ _ _. tt };

    fn size(&self) -> u64
        ensures { result ≡ room_of self.now.reserve }
    {
        room_of(self.reserve)
    }

    fn read(&mut self, at: u64, into: &mut [u8]) -> Result<(), Failed>
        requires { at + length into.old ≤ room_of self.old.reserve }
        ensures bytes { OnOk result ⊤ }
        ensures ok { OnOk result ⊤ }
        ensures err { OnErr result ⊤ }
        ensures extent { room_of self.new.reserve ≡ room_of self.old.reserve }
        ensures cause { HasCause self.old.faults self.new.faults result }
        ensures beside { ⊤ }
    {
        if read_made(&self.file, self.made, at, into) {
            return Ok(());
        }
        self.faults = self.faults.saturating_add(1);
        Err(Failed)
    }

    fn write_at(&mut self, at: u64, bytes: &[u8]) -> Result<(), Failed>
        requires { at + length bytes.now ≤ room_of self.old.reserve }
        ensures ok { OnOk result ⊤ }
        ensures err { OnErr result ⊤ }
        ensures extent { room_of self.new.reserve ≡ room_of self.old.reserve }
        ensures cause { HasCause self.old.faults self.new.faults result }
        ensures beside { ⊤ }

        // Nothing is written.
        ensures never { OnOk result ⊥ }
    {
        self.faults = self.faults.saturating_add(1);
        Err(Failed)
    }

    fn sync(&mut self) -> Result<(), Failed>
        ensures ok { OnOk result ⊤ }
        ensures err { OnErr result ⊤ }
        ensures extent { room_of self.new.reserve ≡ room_of self.old.reserve }
        ensures cause { HasCause self.old.faults self.new.faults result }
        ensures beside { ⊤ }

        // Nothing was written, so there is nothing to do.
        ensures kept { self.new ≡ self.old }
    {
        Ok(())
    }
}
