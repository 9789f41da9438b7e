use dots_history::MessageKey;
use dots_lists::Bytes;

/// An accepted message of the signal channel, with its reply.
#[derive(Drop)]
pub struct Message {
    /// By which its repeats are known.
    pub key: MessageKey,
    /// When it was accepted, in seconds.
    pub time: u64,
    /// Where its entry stands in the journal.
    pub slot: u32,
    /// The datagram that answered it.
    pub reply: Bytes,
}
