use dots_lists::Bytes;

/// What is sent: a datagram to a peer, bytes on a connection, or the end of a connection.
#[derive(Clone, Copy)]
pub enum Out<'a> {
    To { peer: u32, bytes: &'a [u8] },
    Conn { conn: u32, bytes: &'a [u8] },
    Close { conn: u32 },
}

/// A send that owns its bytes.
#[derive(Drop)]
pub enum OwnedOut {
    To { peer: u32, bytes: Bytes },
    Conn { conn: u32, bytes: Bytes },
    Close { conn: u32 },
}

/// Whether a send left.
#[derive(Clone, Copy)]
pub enum Sent {
    Done,
    /// It was lost on the way, which is no fault of the wire.
    Lost,
}
