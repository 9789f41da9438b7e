//! The file of the journal.

ghost use Rattle.std.specs.Prelude.{◌≡◌, ◌+◌, ◌-◌, ◌<◌, ◌≤◌, ◌^◌, max, length, drop, replicate, true, false, is_some, IfOk, OnOk, OnErr};
ghost use Rattle.dots_edge.specs.JournalFile.{room_of};

use crate::journal_file::{Identity, admit, keep_new, open_file};
use std::fs::{File, Files};
use std::io;
use std::io::{Error, ErrorKind, Seek, SeekFrom};
use std::os::unix::fs::FileExt;

/// How many bytes the journal may have.
const DISK_BYTES: u64 = 1_073_741_824;

/// The length of the file is a multiple of so many bytes.
const PAGE: u64 = 4096;

/// The file grows by so many bytes at most at a time, so that most writes find their place made.
const PIECE: u64 = 4_194_304;

/// And it is filled by so many at a time.
const BLOCK: usize = 16_384;

/// A file that this process alone writes. Beyond its end a read gives zeros.
#[derive(Drop)]
pub struct Journal {
    file: File,
    /// How long the file was found or made. It is never shorter while this process has it.
    pub made: u64,
    /// Whether all the room that it may have was made when it was opened. Then the file isn't grown.
    pub reserved: bool,
    /// Where it stands.
    path: String,
    identity: Identity,
    /// Whether the path was seen to lead elsewhere: then no call goes well any more.
    pub lost: bool,
}

impl Journal {
    /// Opens the file, or makes it, and locks it. Another process that has it open so is an error, and so is a file that can't be a
    /// journal, to which nothing is written. Where the file is empty, its entry in the folder is synced. Where room is reserved, the file
    /// is filled with zeros up to there, and it is an error where there is none.
    pub fn open<R: Files<File = File>>(
        rt: &R,
        path: String,
        reserve: Option<u64>,
    ) -> io::Result<Journal>
        ensures lost { IfOk result (λ journal. journal.lost ≡ false) }
        ensures reserved { IfOk result (λ journal. (journal.reserved ≡ is_some reserve) × (journal.reserved ≡ true → room_of reserve ≤ journal.made)) }
    {
        let file = open_file(rt, path.as_str())?;
        match take(rt, &file, path.as_str(), reserve) {
            Ok((made, identity)) => Ok(Journal {
                file,
                made,
                reserved: reserve.is_some(),
                path,
                identity,
                lost: false,
            }),
            Err(error) => Err(error),
        }
    }

    /// Reads the bytes from the place `at` on.
    pub fn read(&self, at: u64, into: &mut [u8]) -> io::Result<()>
        ensures zeros { OnOk result (drop (self.now.made - at) into.new
            ≡ replicate (length into.old - (self.now.made - at)) 0) }
        ensures lost { self.now.lost ≡ true → OnOk result ⊥ }
    {
        self.check_path()?;
        let there = self.made.saturating_sub(at).min(into.len() as u64) as usize;
        let (front, behind) = into.split_at_mut(there);
        behind.fill(0);
        self.file.read_exact_at(front, at)
    }

    /// Writes the bytes from the place `at` on. The file is grown before where it ends before their end.
    pub fn write(&mut self, at: u64, bytes: &[u8]) -> io::Result<()>
        requires { at + length bytes.now ≤ 2 ^ 30 }
        ensures made { OnOk result (at + length bytes.now ≤ self.new.made) }
        ensures lost { self.old.lost ≡ true → OnOk result ⊥ }
        ensures kept { (self.new.lost ≡ self.old.lost) × (self.new.reserved ≡ self.old.reserved) }
        ensures reserved { self.old.reserved ≡ true → self.new.made ≡ self.old.made }
    {
        self.check_path()?;
        let end = at + bytes.len() as u64;
        if self.made < end {
            self.grow(end)?;
        }
        self.file.write_all_at(bytes, at)
    }

    /// Makes all that was written stay. A file that is shorter than it was is an error.
    pub fn sync(&self) -> io::Result<()>
        ensures lost { self.now.lost ≡ true → OnOk result ⊥ }
    {
        self.check_path()?;
        self.file.sync_data()?;
        // This costs a third of what asking for the metadata does. No call reads or writes at the file's own position.
        let mut file = &self.file;
        if file.seek(SeekFrom::End(0))? < self.made {
            return Err(Error::from(ErrorKind::UnexpectedEof));
        }
        Ok(())
    }

    /// Looks whether the path still leads to the file. Where it doesn't, what is written would be gone with the process.
    pub fn look<R: Files>(&mut self, rt: &R)
        ensures kept { (self.new.made ≡ self.old.made) × (self.new.reserved ≡ self.old.reserved) }
        ensures lost { self.old.lost ≡ true → self.new.lost ≡ true }
    {
        if !self.identity.is_at(rt, self.path.as_str()) {
            self.lost = true;
        }
    }

    /// Whether the path led to the file whenever it was looked at.
    fn check_path(&self) -> io::Result<()>
        ensures there { OnOk result (self.now.lost ≡ false) }
        ensures lost { OnErr result (self.now.lost ≡ true) }
    {
        if self.lost {
            return Err(Error::from(ErrorKind::NotFound));
        }
        Ok(())
    }

    /// Makes the file so long that the place stands in it, up to the end of a piece, and fills that piece. Answers how many zeros were written.
    fn grow(&mut self, end: u64) -> io::Result<u64>
        requires end { end ≤ 2 ^ 30 }
        requires more { self.old.made < end }
        ensures made { OnOk result (end ≤ self.new.made) }
        ensures few { IfOk result (λ written. written ≤ 4194304) }
        ensures kept { OnErr result (self.new.made ≡ self.old.made) }
        ensures path { (self.new.lost ≡ self.old.lost) × (self.new.reserved ≡ self.old.reserved) }
        ensures reserved { self.old.reserved ≡ true → OnOk result ⊥ }
    {
        if self.reserved {
            return Err(Error::from(ErrorKind::StorageFull));
        }
        let target = end.div_ceil(PIECE) * PIECE;
        let from = self.made.max(target - PIECE);
        match fill(&self.file, from, target) {
            Ok(written) => {
                self.made = target;
                Ok(written)
            }
            Err(error) => {
                // A part of a page at the end would be refused at the next start.
                let _ = self.file.set_len(self.made);
                Err(error)
            }
        }
    }
}

/// Writes zeros from the one place of the file up to the other, and answers how many.
fn fill(file: &File, from: u64, to: u64) -> io::Result<u64>
    requires { from ≤ to }
    ensures { IfOk result (λ written. written ≡ to - from) }
{
    let zeros = [0; BLOCK];
    let mut at = from;
    while at < to {
        let count = (to - at).min(BLOCK as u64) as usize;
        file.write_all_at(&zeros[..count], at)?;
        at += count as u64;
    }
    Ok(to - from)
}

/// Locks the file of the path, and answers how long it is and which. Where it is empty, its entry in the folder is synced. Where room is
/// reserved, it is made.
fn take<R: Files<File = File>>(
    rt: &R,
    file: &File,
    path: &str,
    reserve: Option<u64>,
) -> io::Result<(u64, Identity)>
    ensures { IfOk result (λ taken. is_some reserve ≡ true → room_of reserve ≤ taken.0) }
{
    let found = admit(file)?;
    let len = found.len();
    let identity = Identity::of(&found);
    if len == 0 {
        keep_new(rt, file, path)?;
    }
    match reserve {
        Some(_) => Ok((make_room(file, len, room_of(reserve))?, identity)),
        None => Ok((len, identity)),
    }
}

/// Fills the file of this length with zeros up to the room, and answers how long it is then. Where that fails it is as long as before.
fn make_room(file: &File, len: u64, room: u64) -> io::Result<u64>
    ensures { IfOk result (λ made. made ≡ max len room) }
{
    if room <= len {
        return Ok(len);
    }
    match fill_and_sync(file, len, room) {
        Ok(()) => Ok(room),
        Err(error) => {
            let _ = file.set_len(len);
            Err(error)
        }
    }
}

fn fill_and_sync(file: &File, from: u64, to: u64) -> io::Result<()>
    requires { from ≤ to }
{
    fill(file, from, to)?;
    file.sync_all()
}

/// How many bytes the disk has: those that are reserved, as whole pages, and else as many as a journal may have.
pub fn room_of(reserve: Option<u64>) -> u64
    ensures { result ≡ room_of reserve }
{
    match reserve {
        Some(bytes) => bytes.min(DISK_BYTES).div_ceil(PAGE) * PAGE,
        None => DISK_BYTES,
    }
}
