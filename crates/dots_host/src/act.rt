use crate::event::Event;
use crate::out::OwnedOut;
use dots_lists::Bytes;

/// A call of a host: an event taken, a send given, or a call of its disk.
#[derive(Drop)]
pub enum Act {
    /// An event was taken, with the time beside it in seconds.
    Took { event: Event, at: u64 },
    /// A send was given, and done or lost.
    Gave { out: OwnedOut, done: bool },
    /// The disk was read.
    Read { ok: bool },
    /// The bytes were written to the disk, from the byte `at` on.
    Wrote { at: u64, bytes: Bytes, ok: bool },
    /// The disk was synced.
    Synced { ok: bool },
}
