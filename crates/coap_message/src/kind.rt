/// The type of a message (RFC 7252, section 4.2 and 4.3).
#[derive(Clone, Copy, PartialEq, Eq)]
pub enum Kind {
    /// Confirmable.
    Con,
    /// Non-confirmable.
    Non,
    /// Acknowledgement.
    Ack,
    /// Reset.
    Rst,
}
