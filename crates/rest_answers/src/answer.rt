use crate::reply::RestReply;
use dots_lists::Bytes;

/// What is answered to a request of the data channel. An accepted entry is an `E`: the entry alone, or one beside which stands what it takes
/// to carry it out.
#[derive(Drop)]
pub enum RestAnswer<E> {
    /// A reply without a body, which changes nothing.
    Reply(RestReply),
    /// The bytes of a reply with a body, which changes nothing.
    LongReply(Bytes),
    /// An accepted change, and its reply.
    Accept { reply: RestReply, entry: E },
}
