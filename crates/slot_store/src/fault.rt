use std::error::Error;
use std::fmt;

/// A call of the disk failed. The journal isn't used again after it, and the disk is recovered.
#[derive(Clone, Copy, Debug)]
pub struct DiskFault;

impl fmt::Display for DiskFault {
    ghost use Rattle.std.specs.Prelude.{codes, Some};

    ghost output = { λ _. Some (codes "the disk failed") };

    fn fmt<W: fmt::Write>(&self, f: &mut fmt::Formatter<W>) -> fmt::Result {
        f.write_str("the disk failed")
    }
}

impl Error for DiskFault {}

/// Why a disk isn't opened.
#[derive(Clone, Copy)]
pub enum OpenFault {
    /// The disk has `found` bytes, and fewer than are needed.
    TooSmall { needed: u64, found: u64 },
    /// The byte at this place isn't this format's.
    NotOurs { at: u64 },
    /// The header has the digest of other settings.
    SettingsChanged { stored: [u8; 32] },
    /// A call of the disk failed.
    DiskFault,
    /// Memory ran out.
    NoMemory,
}
