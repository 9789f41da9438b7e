use dots_keys::{Dismissal, Exchange, Reject, Request};

/// What a datagram is.
#[derive(Drop)]
pub enum Received {
    /// It can't be read.
    Unread(Dismissal),
    /// A message that asks nothing.
    Dismissed(Dismissal),
    /// A message that is refused for what it has.
    Refused {
        exchange: Exchange,
        reject: Reject,
    },
    /// A request.
    Asked {
        exchange: Exchange,
        request: Request,
    },
}
