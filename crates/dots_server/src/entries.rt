//! What is kept of an accepted change.

ghost use Rattle.std.specs.Prelude.{◌≡◌, ◌≤◌, true, length, [], IfOk, OnOk};
ghost use Rattle.dots_lists.specs.Name.{is_name};
ghost use Rattle.dots_machine.specs.Mitigations.{key_of, entry_of};
ghost use Rattle.dots_machine.specs.Deciding.{config_entry};
ghost use Rattle.dots_machine.specs.Signals.{signal_entry};

use coap_message::Kind;
use dots_history::{Change, Entry, MessageKey};
use dots_keys::{Exchange, ShortMessage};
use dots_lists::{Bytes, Name, NoMemory, Text};
use dots_machine::ClientRequest;
use std::alloc::Global;

/// What is kept of a change that is accepted at this time, in seconds, with the client's name and the reply.
pub fn entry_of(time: u64, from: &ClientRequest, copies: (Text, Bytes), change: Change) -> Entry
    requires { copies.0 ≡ from.now.cuid }
    ensures { result ≡ entry_of time from.now copies.1 change }
{
    let (cuid, reply) = copies;
    Entry {
        time,
        peer: from.peer,
        domain: from.domain,
        cuid,
        key: key_of(from.exchange.kind, from.exchange.id),
        reply,
        change,
    }
}

/// What is kept of a change of the configuration of a peer's session, which is of no client, at this time, in seconds.
pub fn config_entry(
    alloc: Global,
    time: u64,
    peer: u32,
    domain: u16,
    exchange: &Exchange,
    reply: &ShortMessage,
    change: Change,
) -> Result<Entry, NoMemory>
    ensures entry { IfOk result (λ entry. entry ≡ config_entry time peer domain exchange.now reply.now change) }
    ensures reply { OnOk result (length reply.now ≤ 64) }
{
    let reply = Bytes::from_slice(alloc, reply.bytes())?;
    Ok(Entry {
        time,
        peer,
        domain,
        cuid: Text::from_string(String::new(alloc)),
        key: key_of(exchange.kind, exchange.id),
        reply,
        change,
    })
}

/// What is kept of the signal of a client's peer that is lost, or back, at this time, in seconds. It is of no client and of no message. Takes no
/// memory.
pub fn signal_entry(alloc: Global, time: u64, peer: u32, domain: u16, change: Change) -> Entry
    ensures { result ≡ signal_entry time peer change domain }
{
    Entry {
        time,
        peer,
        domain,
        cuid: Text::from_string(String::new(alloc)),
        key: MessageKey::Http,
        reply: Bytes::new(alloc),
        change,
    }
}

/// The client's name and the reply, as an entry has them.
pub fn copies(alloc: Global, cuid: &Name, reply: &ShortMessage) -> Result<(Text, Bytes), NoMemory>
    ensures copies { IfOk result (λ copies. (copies.0 ≡ cuid.now) × (copies.1 ≡ reply.now)) }
    ensures cuid { OnOk result (is_name cuid.now ≡ true) }
    ensures reply { OnOk result (length reply.now ≤ 64) }
{
    let reply = Bytes::from_slice(alloc, reply.bytes())?;
    let cuid = text_of(alloc, cuid)?;
    Ok((cuid, reply))
}

/// The message by which repeats of a request are known.
fn key_of(kind: Kind, id: u16) -> MessageKey
    ensures { result ≡ key_of kind id }
{
    match kind {
        Kind::Con => MessageKey::Con(id),
        _ => MessageKey::Non(id),
    }
}

/// The name as a text.
fn text_of(alloc: Global, name: &Name) -> Result<Text, NoMemory>
    ensures text { IfOk result (λ text. text ≡ name.now) }
    ensures name { OnOk result (is_name name.now ≡ true) }
{
    match Text::new(alloc, name.bytes())? {
        Some(text) => Ok(text),
        None => unreachable!(),
    }
}
