/// What is done with a datagram that can't be read, and with a message that asks nothing (RFC 7252, sections 4.2 and 4.3).
#[derive(Clone, Copy)]
pub enum Dismissal {
    /// Nothing is sent.
    Ignored,
    /// A reset with this Message ID is sent.
    Reset { id: u16 },
    /// It is a reset itself, and nothing is sent. It rejects the message with this Message ID that was sent to its peer.
    Rejected { id: u16 },
}
