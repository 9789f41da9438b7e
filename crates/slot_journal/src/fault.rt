use dots_lists::NoMemory;
use std::error::Error;
use std::fmt;

/// Why a disk isn't recovered.
#[derive(Clone, Copy, Debug)]
pub enum JournalFault {
    /// The disk has `found` bytes, and fewer than are needed.
    TooSmall { needed: u64, found: u64 },
    /// The byte at this place isn't this format's, or the slot there holds the record of no entry, or stands behind a gap.
    NotOurs { at: u64 },
    /// The header has the digest of other settings than the given ones.
    SettingsChanged { stored: [u8; 32], given: [u8; 32] },
    /// A call of the disk failed.
    DiskFault,
    /// Memory ran out.
    NoMemory,
}

impl fmt::Display for JournalFault {
    ghost use Rattle.std.specs.Prelude.{Some};
    ghost use Rattle.slot_journal.specs.FaultText.{fault_text};

    ghost output = { λ fault. Some (fault_text fault) };

    fn fmt<W: fmt::Write>(&self, f: &mut fmt::Formatter<W>) -> fmt::Result {
        match self {
            JournalFault::TooSmall { needed, found } => {
                write!(f, "the disk has {found} bytes of {needed}")
            }
            JournalFault::NotOurs { at } => write!(f, "not a journal's at {at}"),
            JournalFault::SettingsChanged { .. } => f.write_str(
                "the journal is that of other settings",
            ),
            JournalFault::DiskFault => f.write_str("the disk failed"),
            JournalFault::NoMemory => f.write_str("out of memory"),
        }
    }
}

impl Error for JournalFault {}

impl From<NoMemory> for JournalFault {
    ghost use Rattle.std.specs.Prelude.{◌≡◌};
    ghost use Rattle.slot_journal.specs.declared.fault.JournalFault.TheVariants.{NoMemory};

    ghost from_gives = { λ _ fault. fault ≡ NoMemory };

    fn from(_: NoMemory) -> Self {
        Self::NoMemory
    }
}
