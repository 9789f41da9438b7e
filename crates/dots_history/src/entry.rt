use crate::change::Change;
use dots_lists::{Bytes, Text};

/// One accepted change.
#[derive(Drop)]
pub struct Entry {
    /// When it was accepted, in seconds.
    pub time: u64,
    /// Who asked for it.
    pub peer: u32,
    /// The domain of the client, by its number in the settings; 65,535 in a session configuration of a gateway.
    pub domain: u16,
    /// The client's name in its domain, its `cuid`; empty in a session configuration.
    pub cuid: Text,
    /// The message that asked for it.
    pub key: MessageKey,
    /// The datagram that answered it; empty where it came by HTTP.
    pub reply: Bytes,
    pub change: Change,
}

/// The message that asked for a change, by which its repeats are known (RFC 7252, section 4.5).
#[derive(Clone, Copy)]
pub enum MessageKey {
    /// A request of the data channel; it has no Message ID.
    Http,
    /// A non-confirmable message with this Message ID.
    Non(u16),
    /// A confirmable message with this Message ID.
    Con(u16),
}
