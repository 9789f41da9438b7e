ghost use Rattle.std.specs.Prelude.{◌≡◌};
ghost use Rattle.dots_host.specs.Memory.{is_given};

use crate::MAX_EVENT_BYTES;
use dots_lists::Bytes;

/// What came to a host. Connections are named by numbers that the host gives them.
#[derive(Drop)]
pub enum Event {
    /// A datagram from a peer, of at most [`MAX_EVENT_BYTES`] bytes.
    Datagram { from: u32, bytes: Bytes },
    /// A peer opened a connection.
    Opened { conn: u32, from: u32 },
    /// The next bytes of a connection, at most [`MAX_EVENT_BYTES`].
    Piece { conn: u32, bytes: Bytes },
    /// A connection was closed.
    Closed { conn: u32 },
    /// Time has passed.
    Tick,
    /// The server lost all but its disk, and begins again.
    Restart,
    /// Nothing comes after this.
    End,
    /// The host failed.
    Failed,
}

impl Event {
    /// Whether it has at most [`MAX_EVENT_BYTES`] bytes and isn't `Failed`, so that a host over lists may
    /// hand it in.
    pub fn is_given(&self) -> bool
        ensures { result ≡ is_given self.now }
    {
        match self {
            Event::Datagram { bytes, .. } | Event::Piece { bytes, .. } => {
                bytes.items().len() <= MAX_EVENT_BYTES
            }
            Event::Failed => false,
            _ => true,
        }
    }
}

/// An event whose bytes, `len` of them, stand at the front of the room that [`crate::Wire::next`] was given.
#[derive(Clone, Copy)]
pub enum What {
    Datagram { from: u32, len: usize },
    Opened { conn: u32, from: u32 },
    Piece { conn: u32, len: usize },
    Closed { conn: u32 },
    Tick,
    Restart,
    End,
    Failed,
}

/// An event and the time beside it, in seconds, below 2^48.
#[derive(Clone, Copy)]
pub struct Got {
    pub what: What,
    pub at: u64,
}
