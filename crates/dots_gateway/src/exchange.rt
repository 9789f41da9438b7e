ghost use Rattle.std.specs.Prelude.{◌≡◌};
ghost use Rattle.dots_gateway.specs.Exchanges.{id_of, key_for, key_of};

use coap_message::{Kind, Message, Token};
use dots_history::MessageKey;
use dots_lists::Bytes;

/// For how many seconds an exchange waits (RFC 7252, section 4.8.2, EXCHANGE_LIFETIME).
pub const EXCHANGE_LIFETIME: u64 = 247;

/// The greatest number, which no exchange has: the next one would have none.
pub const LAST_NUMBER: u64 = 18_446_744_073_709_551_615;

/// A request of a client, and the number under which it was passed on.
#[derive(Clone, Copy)]
pub struct Exchange {
    /// From 1 on, and below [`LAST_NUMBER`]. Its 8 bytes are the token of the request that was passed on, and it modulo 65,536 the Message
    /// ID.
    pub number: u64,
    /// The client.
    pub peer: u32,
    /// The type and the Message ID of the client's request, which is none of the data channel.
    pub key: MessageKey,
    /// The token of the client's request.
    pub token: Token,
    /// When it was passed on first, in seconds.
    pub time: u64,
}

/// An exchange that waits for its answer, or for its request to come again.
#[derive(Drop)]
pub struct Waiting {
    pub exchange: Exchange,
    /// The client's datagram. None where it was lost in a crash.
    pub asked: Option<Bytes>,
}

/// A request of a client, as it is told from its others.
#[derive(Clone, Copy, PartialEq, Eq, Hash)]
pub struct Key {
    pub peer: u32,
    /// Its Message ID.
    pub id: u16,
}

/// The Message ID of a request, and 0 for one of the data channel, which has none.
pub fn id_of(key: MessageKey) -> u16
    ensures { result ≡ id_of key }
{
    match key {
        MessageKey::Http => 0,
        MessageKey::Non(id) | MessageKey::Con(id) => id,
    }
}

/// The type and the Message ID of a request.
pub fn key_for(kind: Kind, id: u16) -> MessageKey
    ensures { result ≡ key_for kind id }
{
    match kind {
        Kind::Con => MessageKey::Con(id),
        _ => MessageKey::Non(id),
    }
}

/// The peer and the Message ID of an exchange.
pub fn key_of(exchange: &Exchange) -> Key
    ensures { result ≡ key_of exchange.now }
{
    Key {
        peer: exchange.peer,
        id: id_of(exchange.key),
    }
}

/// The exchange of a request.
pub fn exchange_for(number: u64, time: u64, peer: u32, message: &Message<'_>) -> Exchange
    ensures { result ≡ record { number = number; peer = peer; key = key_for message.now.kind message.now.identifier; token = message.now.token; time = time } }
{
    Exchange {
        number,
        peer,
        key: key_for(message.kind(), message.id()),
        token: Token::new(message.token()).unwrap(),
        time,
    }
}
