//! An exchange as an entry.

ghost use Rattle.std.specs.Prelude.{◌≡◌, ◌≤◌, ◌+◌, ◌++◌, length};
ghost use Rattle.std.specs.Int.{w64, to_be_bytes};
ghost use Rattle.dots_history.specs.Calm.{is_http};
ghost use Rattle.gateway_agent.specs.Forms.{entry_of, is_form, is_form_of_reply, is_of_request, exchange_in};

use coap_message::Token;
use dots_gateway::Exchange;
use dots_history::{Change, Entry, MessageKey, is_registration};
use dots_lists::{Bytes, Text};
use std::alloc::Global;

/// The domain of an exchange's entry. No settings have it, so no server has an entry in it.
pub const EXCHANGE_DOMAIN: u16 = 65_534;

/// How many bytes a number takes.
const NUMBER_SIZE: usize = 8;

/// Whether a message is one of the data channel.
fn is_http(key: MessageKey) -> bool
    ensures { result ≡ is_http key }
{
    match key {
        MessageKey::Http => true,
        MessageKey::Non(_) | MessageKey::Con(_) => false,
    }
}

/// Whether a reply of so many bytes is a number and a token.
fn is_form_of_reply(size: usize) -> bool
    ensures { result ≡ is_form_of_reply size }
{
    size >= NUMBER_SIZE && size <= 16
}

/// Whether the entry is that of an exchange.
fn is_form(entry: &Entry) -> bool
    ensures { result ≡ is_form entry.now }
{
    entry.domain == EXCHANGE_DOMAIN
        && entry.cuid.bytes().is_empty()
        && !is_http(entry.key)
        && is_form_of_reply(entry.reply.items().len())
        && is_registration(&entry.change)
}

/// The exchange of an entry; None where the entry is none of an exchange.
pub fn exchange_in(entry: &Entry) -> Option<Exchange>
    ensures { result ≡ exchange_in entry.now }
{
    if !is_form(entry) {
        return None;
    }
    let (front, token) = entry.reply.items().split_at(NUMBER_SIZE);
    let mut number = [0; NUMBER_SIZE];
    number.copy_from_slice(front);
    Some(Exchange {
        number: u64::from_be_bytes(number),
        peer: entry.peer,
        key: entry.key,
        token: Token::new(token).unwrap(),
        time: entry.time,
    })
}

/// The reply of an exchange's entry, in bytes that are as many. Takes no memory.
fn reply_of(spare: Bytes, exchange: &Exchange) -> Bytes
    requires { length spare ≡ 8 + length exchange.now.token }
    ensures { result ≡ to_be_bytes w64 exchange.now.number ++ exchange.now.token }
{
    let mut bytes = spare.into_vec();
    let (front, token) = bytes.as_mut_slice().split_at_mut(NUMBER_SIZE);
    front.copy_from_slice(&exchange.number.to_be_bytes());
    token.copy_from_slice(exchange.token.bytes());
    Bytes::from_vec(bytes)
}

/// The entry of an exchange, whose reply is written into bytes that are as many. Takes no memory.
pub fn entry_of(alloc: Global, spare: Bytes, exchange: &Exchange) -> Entry
    requires { length spare ≡ 8 + length exchange.now.token }
    ensures { result ≡ entry_of exchange.now }
{
    Entry {
        time: exchange.time,
        peer: exchange.peer,
        domain: EXCHANGE_DOMAIN,
        cuid: Text::from_string(String::new(alloc)),
        key: exchange.key,
        reply: reply_of(spare, exchange),
        change: Change::Register,
    }
}

/// Whether the exchange is one of a request of the signal channel.
pub fn is_of_request(exchange: &Exchange) -> bool
    ensures token { length exchange.now.token ≤ 8 }
    ensures is { result ≡ is_of_request exchange.now }
{
    let size = exchange.token.bytes().len();
    !is_http(exchange.key) && size <= 8
}
