//! Which file is taken for a journal. What looks at a file here writes nothing to it.

ghost use Rattle.std.specs.Prelude.{◌≡◌, ◌==◌, ◌%◌, ◌↔◌, drop, true};
ghost use Rattle.std.specs.List.{list_all};
ghost use Rattle.std.specs.Fs.{metadata_len, file_type, IsFile};
ghost use Rattle.dots_edge.specs.JournalFile.{is_front, is_journal_front, IsWhole};

use std::fs::{File, Files, Metadata, OpenOptions};
use std::io::{Error, ErrorKind};
use std::os::unix::fs::{FileExt, MetadataExt, OpenOptionsExt};
use std::{fs, io};

/// The length of a journal is a multiple of so many bytes.
const PAGE: u64 = 4096;

/// How many bytes the first slot has, in which the header of a journal stands.
const FRONT: usize = 8192;

/// How many the header has.
const HEADER: usize = 64;

/// The gate before a header that is whole: its first byte.
const OPEN: u8 = 0xa5;

/// Nobody else may read or write a new file.
const MODE: u32 = 0o600;

/// Which file it is, of all that the system has.
#[derive(Clone, Copy)]
pub struct Identity {
    device: u64,
    inode: u64,
}

impl Identity {
    pub fn of(found: &Metadata) -> Identity {
        Identity {
            device: found.dev(),
            inode: found.ino(),
        }
    }

    /// Whether the path leads to the file.
    pub fn is_at<R: Files>(&self, rt: &R, path: &str) -> bool {
        match fs::metadata(rt, path) {
            Ok(found) => found.dev() == self.device && found.ino() == self.inode,
            Err(_) => false,
        }
    }
}

/// Opens the file of the path, or makes it, readable by its owner alone. What isn't a regular file isn't opened.
pub fn open_file<R: Files<File = File>>(rt: &R, path: &str) -> io::Result<File> {
    if let Ok(found) = fs::metadata(rt, path) {
        if !found.is_file() {
            return Err(Error::from(ErrorKind::InvalidInput));
        }
    }
    let mut how = OpenOptions::new();
    how.read(true).write(true).create(true);
    how.mode(MODE);
    how.open(rt, path)
}

/// Locks the file, and answers what is known of it, where it may be a journal.
pub fn admit(file: &File) -> io::Result<Metadata> {
    file.try_lock()?;
    let found = file.metadata()?;
    if !is_whole(&found) || !has_front(file, found.len())? {
        return Err(Error::from(ErrorKind::InvalidData));
    }
    Ok(found)
}

/// Whether it is a regular file of whole pages.
pub fn is_whole(found: &Metadata) -> bool
    ensures { result ≡ true ↔ IsWhole found.now }
{
    found.is_file() && found.len() % PAGE == 0
}

/// Whether the file of this length begins as a journal does.
fn has_front(file: &File, len: u64) -> io::Result<bool> {
    match front_of(file, len)? {
        Front::Open | Front::Blank => Ok(true),
        Front::Other => Ok(false),
    }
}

/// How a file begins.
#[derive(Clone, Copy)]
pub enum Front {
    /// With an open gate.
    Open,
    /// As a journal does whose header isn't whole yet: behind that nothing stands.
    Blank,
    /// As no journal does.
    Other,
}

/// How the file of this length begins.
pub fn front_of(file: &File, len: u64) -> io::Result<Front> {
    let mut room = [0; FRONT];
    let front = &mut room[..len.min(FRONT as u64) as usize];
    file.read_exact_at(front, 0)?;
    Ok(kind_of(front))
}

/// How a journal begins with these bytes, which are all of its first slot that there are.
fn kind_of(front: &[u8]) -> Front
    ensures { is_journal_front result ≡ is_front front.now }
{
    if !is_front(front) {
        return Front::Other;
    }
    match front {
        [gate, ..] if *gate == OPEN => Front::Open,
        _ => Front::Blank,
    }
}

/// Whether a journal may begin with these bytes, which are all of its first slot that there are: with an open gate, or with a header that
/// isn't whole yet, behind which nothing stands.
fn is_front(front: &[u8]) -> bool
    ensures { result ≡ is_front front.now }
{
    match front {
        [] => true,
        [gate, ..] => *gate == OPEN || (*gate == 0 && is_blank(front)),
    }
}

/// Whether only zeros stand behind the header.
fn is_blank(front: &[u8]) -> bool
    ensures { result ≡ list_all (λ byte. byte == 0) (drop 64 front.now) }
{
    front.iter().skip(HEADER).all(|byte| *byte == 0)
}

/// Makes a new file stay in its folder.
pub fn keep_new<R: Files<File = File>>(rt: &R, file: &File, path: &str) -> io::Result<()> {
    file.sync_all()?;
    let folder = File::open(rt, folder_of(path))?;
    folder.sync_all()
}

/// The folder in which the file of the path stands.
fn folder_of(path: &str) -> &str {
    match path.rfind('/') {
        Some(0) => "/",
        Some(slash) => &path[..slash],
        None => ".",
    }
}
