use dots_keys::{Exchange, ShortMessage};
use dots_lists::Bytes;

/// What is decided on a datagram. An accepted entry is an `E`: the entry alone, or one beside which stands what it takes to carry it out.
#[derive(Drop)]
pub enum Verdict<E> {
    /// Nothing is sent and nothing changes.
    Silent,
    /// A reply that changes nothing.
    Reply(ShortMessage),
    /// The same, with a body of any length.
    LongReply(Bytes),
    /// Mitigations are shown by this body, in a reply to the exchange that may have Observe with a number (RFC 7641, section 2).
    Retrieves { exchange: Exchange, body: Bytes },
    /// An accepted change, and the reply that it carries.
    Accept { reply: ShortMessage, entry: E },
}
