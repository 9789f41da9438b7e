//! A file that is replaced as a whole.

ghost use Rattle.std.specs.Prelude.{◌≡◌, [], ◌∷◌, string_bytes, IfOk, is_ok};
ghost use Rattle.dots_edge.specs.HostLine.{beside};

use crate::file_log::{FileLog, Put};
use dots_lists::{NoMemory, Text};
use std::alloc::{AllocError, Global};
use std::fs::{File, Files, OpenOptions};
use std::io::Write;
use std::os::unix::fs::OpenOptionsExt;
use std::{fs, io};

/// What stands behind a path in the name under which its file is written first.
pub const BESIDE: &str = ".new";

/// Its owner may write a new file, and everybody may read it.
const MODE: u32 = 0o644;

/// A path at which files are put as a whole, each in the place of the one before.
#[derive(Drop)]
pub struct WholeFile {
    pub path: Text,
    pub log: FileLog,
}

impl WholeFile {
    /// The file at this path. Nothing is put there yet.
    pub fn at(alloc: Global, path: &str) -> Result<WholeFile, NoMemory>
        ensures { IfOk result (λ file. (file.path ≡ path.now) × (file.log.puts ≡ [])) }
    {
        let path = Text::from_string(String::from_str(alloc, path)?);
        Ok(WholeFile {
            path,
            log: FileLog::new(),
        })
    }

    /// Puts a file of these bytes at the path, in the place of what stands there. Whoever opens the path finds the old file or the new one, each
    /// whole. The new one is written beside it, with `.new` behind its path, is synced, and is renamed then. What stood at that name is removed
    /// before, and isn't followed where it is a link. The mode of the new file is 0644 without the bits of the process's mask.
    ///
    /// # Errors
    ///
    /// [`io::ErrorKind::OutOfMemory`] where there is no memory for the name, and else what the system answered. The path leads to the old file
    /// then, and of the new one nothing is left, as far as it can be removed.
    pub fn put<R: Files<File = File>>(
        &mut self,
        alloc: Global,
        files: &R,
        bytes: &[u8],
    ) -> io::Result<()>
        ensures puts { self.new.log.puts ≡ (bytes.now, is_ok result) ∷ self.old.log.puts }
        ensures path { self.new.path ≡ self.old.path }
    {
        let replaced = replace(alloc, files, self.path.as_str(), bytes);
        let stands = replaced.is_ok();
        self.log = self.log.after(&Put { bytes, stands });
        replaced
    }
}

/// Puts a file of these bytes at the path.
fn replace<R: Files<File = File>>(
    alloc: Global,
    rt: &R,
    path: &str,
    bytes: &[u8],
) -> io::Result<()> {
    let name = name_beside(alloc, path)?;
    let _ = fs::remove_file(rt, name.as_str());
    let written = write_new(rt, name.as_str(), bytes);
    let replaced = written.and_then(|()| fs::rename(rt, name.as_str(), path));
    if replaced.is_err() {
        let _ = fs::remove_file(rt, name.as_str());
    }
    replaced
}

/// The name under which the file of the path is written first.
fn name_beside(alloc: Global, path: &str) -> Result<String, AllocError>
    ensures { IfOk result (λ name. string_bytes name ≡ beside path.now) }
{
    let mut name = String::from_str(alloc, path)?;
    name.push_str(BESIDE)?;
    Ok(name)
}

/// Makes a file of these bytes where none stands, and waits until the disk has them.
fn write_new<R: Files<File = File>>(rt: &R, path: &str, bytes: &[u8]) -> io::Result<()> {
    let mut how = OpenOptions::new();
    how.write(true).create_new(true);
    how.mode(MODE);
    let mut file = how.open(rt, path)?;
    file.write_all(bytes)?;
    file.sync_all()
}
