//! What a message is answered before it is looked at what it asks.

ghost use Rattle.std.specs.Prelude.{◌≡◌};
ghost use Rattle.coap_message.specs.Salvage.{salvaged};
ghost use Rattle.dots_keys.specs.Exchanges.{dismissed, may_ask, is_request, emptied, rejected, dismissed_unread};

use crate::dismissal::Dismissal;
use coap_message::codes::EMPTY;
use coap_message::{Kind, Message, salvage};

/// What is done with a datagram that can't be read: where its type and Message ID can be told and it is confirmable it
/// is reset (RFC 7252, section 4.2).
pub fn dismissed_unread(datagram: &[u8]) -> Dismissal
    ensures { result ≡ dismissed_unread (salvaged datagram.now) }
{
    match salvage(datagram) {
        Some((kind, id)) => rejected(kind, id),
        None => Dismissal::Ignored,
    }
}

/// What is rejected is reset where it is confirmable, and else ignored (RFC 7252, sections 4.2 and 4.3).
pub fn rejected(kind: Kind, id: u16) -> Dismissal
    ensures { result ≡ rejected kind id }
{
    match kind {
        Kind::Con => Dismissal::Reset { id },
        _ => Dismissal::Ignored,
    }
}

/// What is done with an empty message: a ping, which is confirmable, is reset, and a reset rejects the message with its Message ID.
fn emptied(kind: Kind, id: u16) -> Dismissal
    ensures { result ≡ emptied kind id }
{
    match kind {
        Kind::Con => Dismissal::Reset { id },
        Kind::Rst => Dismissal::Rejected { id },
        Kind::Non | Kind::Ack => Dismissal::Ignored,
    }
}

/// What is done with a message, unless it asks something.
pub fn dismissed(message: &Message<'_>) -> Option<Dismissal>
    ensures { result ≡ dismissed message.now }
{
    if message.code() == EMPTY {
        return Some(emptied(message.kind(), message.id()));
    }
    if !may_ask(message.kind()) {
        return Some(Dismissal::Ignored);
    }
    if message.code() / 32 != 0 {
        return Some(rejected(message.kind(), message.id()));
    }
    None
}

/// Whether the message is a request: confirmable or not, and of the class 0 (RFC 7252, section 3).
pub fn is_request(message: &Message<'_>) -> bool
    ensures { result ≡ is_request message.now }
{
    may_ask(message.kind()) && message.code() != EMPTY && message.code() / 32 == 0
}

/// Whether the type is that of a request (RFC 7252, section 3).
pub fn may_ask(kind: Kind) -> bool
    ensures { result ≡ may_ask kind }
{
    match kind {
        Kind::Con | Kind::Non => true,
        Kind::Ack | Kind::Rst => false,
    }
}
