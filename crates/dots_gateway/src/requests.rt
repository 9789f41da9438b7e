//! What is done with the datagram of a client.

ghost use Rattle.std.specs.Prelude.{◌≡◌, ◌≢◌, None};
ghost use Rattle.std.specs.List.{find};
ghost use Rattle.coap_message.specs.Salvage.{salvaged};
ghost use Rattle.dots_keys.specs.Exchanges.{dismissed_unread};
ghost use Rattle.dots_gateway.specs.Exchanges.{is_from};
ghost use Rattle.dots_gateway.specs.Gateway.{dismissed_said, refused, same_message, came_again, passed_again, passed_first, passed_on, asked_said};
ghost use Rattle.dots_gateway.specs.Steps.{Gives, NowWaits, IsOld, is_ignored, replied};
ghost use Rattle.dots_gateway.specs.WantedValues.{passage_value, CanPass};

use crate::exchange::{Waiting, key_for};
use crate::exchanges::Exchanges;
use crate::forwarding::forwarded;
use crate::passed::{GatewayFault, HOP_LIMIT_REACHED, Passed};
use crate::replies::{plain_bytes, rejection_bytes, reset_bytes};
use crate::wanted::{Passage, Wanted, read_wanted};
use coap_message::codes::CHANGED;
use coap_message::{Kind, Message};
use dots_history::MessageKey;
use dots_keys::{Dismissal, Reject, dismissed_unread, is_request, rejected};
use dots_lists::Name;
use std::alloc::Global;

/// A message of a client, and the datagram that spells it.
#[derive(Clone, Copy)]
pub struct Asking<'a> {
    pub peer: u32,
    /// The name of the client's domain.
    pub domain: &'a Name,
    pub datagram: &'a [u8],
    pub message: &'a Message<'a>,
}

/// What is confirmable and can't be read, or is no request, is reset; any other is ignored (RFC 7252, sections 4.2 and 4.3).
fn dismiss(alloc: Global, peer: u32, dismissal: Dismissal) -> Result<Passed, GatewayFault>
    ensures gives { Gives result (dismissed_said peer dismissal) }
    ensures old { IsOld result }
{
    match dismissal {
        Dismissal::Reset { id } => {
            let bytes = reset_bytes(alloc, id)?;
            Ok(Passed::Reply { to: peer, bytes })
        }
        _ => Ok(Passed::Nothing),
    }
}

/// What is done with a datagram of a client that is no message.
pub fn unread(alloc: Global, peer: u32, datagram: &[u8]) -> Result<Passed, GatewayFault>
    ensures gives { Gives result (dismissed_said peer (dismissed_unread (salvaged datagram.now))) }
    ensures old { IsOld result }
{
    dismiss(alloc, peer, dismissed_unread(datagram))
}

/// The answer to a request that is refused. One that isn't confirmable, with a critical option that isn't recognised, is ignored (RFC
/// 7252, section 5.4.1).
fn refused(
    alloc: Global,
    peer: u32,
    message: &Message<'_>,
    reject: &Reject,
) -> Result<Passed, GatewayFault>
    ensures gives { Gives result (refused peer message.now reject.now) }
    ensures old { IsOld result }
{
    if is_ignored(message.kind(), reject) {
        return Ok(Passed::Nothing);
    }
    let bytes = rejection_bytes(alloc, message, reject)?;
    Ok(Passed::Reply { to: peer, bytes })
}

fn is_ignored(kind: Kind, reject: &Reject) -> bool
    ensures { result ≡ is_ignored kind reject.now }
{
    match (reject, kind) {
        (Reject::Critical(_), Kind::Con) => false,
        (Reject::Critical(_), _) => true,
        _ => false,
    }
}

/// What is done with a message of a client. An exchange that is new waits from then on.
pub fn ask(
    alloc: Global,
    exchanges: &mut Exchanges,
    asking: &Asking<'_>,
) -> Result<Passed, GatewayFault>
    ensures gives { Gives result (asked_said exchanges.old asking.now.peer asking.now.domain.now asking.now.datagram.now asking.now.message.now) }
    ensures leaves { NowWaits exchanges.old asking.now.datagram.now result exchanges.new }
{
    let message = asking.message;
    if !is_request(message) {
        let dismissal = rejected(message.kind(), message.id());
        return dismiss(alloc, asking.peer, dismissal);
    }
    match read_wanted(message) {
        Err(reject) => refused(alloc, asking.peer, message, &reject),
        Ok(Wanted::Beat) => reply(alloc, asking, CHANGED),
        Ok(Wanted::Passage(passage)) => pass_on(alloc, exchanges, asking, &passage),
    }
}

/// A reply with this code alone.
fn reply(alloc: Global, asking: &Asking<'_>, code: u8) -> Result<Passed, GatewayFault>
    requires { code ≢ 0 }
    ensures gives { Gives result (replied asking.now.peer code asking.now.message.now) }
    ensures old { IsOld result }
{
    let bytes = plain_bytes(alloc, asking.message, code)?;
    Ok(Passed::Reply {
        to: asking.peer,
        bytes,
    })
}

/// Passes a request on, unless its Hop-Limit is used up (RFC 8768, section 3).
fn pass_on(
    alloc: Global,
    exchanges: &mut Exchanges,
    asking: &Asking<'_>,
    passage: &Passage<'_>,
) -> Result<Passed, GatewayFault>
    requires code { asking.now.message.now.code ≢ 0 }
    requires passable { CanPass passage.now }
    ensures gives { Gives result (passed_on exchanges.old asking.now.peer asking.now.domain.now asking.now.datagram.now asking.now.message.now (passage_value passage.now)) }
    ensures leaves { NowWaits exchanges.old asking.now.datagram.now result exchanges.new }
{
    if passage.hop == 1 {
        return reply(alloc, asking, HOP_LIMIT_REACHED);
    }
    match exchanges.of_request(asking.peer, asking.message.id()) {
        Some(waiting) => pass_again(alloc, waiting, asking, passage),
        None => pass_first(alloc, exchanges, asking, passage),
    }
}

/// Passes a request on once more with the number that it had, if it is the same one.
fn pass_again(
    alloc: Global,
    waiting: &Waiting,
    asking: &Asking<'_>,
    passage: &Passage<'_>,
) -> Result<Passed, GatewayFault>
    requires code { asking.now.message.now.code ≢ 0 }
    requires passable { CanPass passage.now }
    ensures gives { Gives result (passed_again asking.now.domain.now asking.now.datagram.now asking.now.message.now (passage_value passage.now) waiting.now) }
    ensures old { IsOld result }
{
    if !came_again(waiting, asking) {
        return Ok(Passed::Nothing);
    }
    let number = waiting.exchange.number;
    let bytes = forwarded(alloc, number, asking.domain, passage, asking.message)?;
    Ok(Passed::Forward { bytes, fresh: None })
}

/// Whether the request of an exchange came again: as the same bytes, or, where these were lost, with the same type, Message ID and token.
fn came_again(waiting: &Waiting, asking: &Asking<'_>) -> bool
    ensures { result ≡ came_again waiting.now.asked waiting.now.exchange asking.now.datagram.now asking.now.message.now }
{
    match &waiting.asked {
        Some(asked) => asked.items() == asking.datagram,
        None => {
            let message = asking.message;
            is_same(waiting.exchange.key, key_for(message.kind(), message.id()))
                && waiting.exchange.token.bytes() == message.token()
        }
    }
}

fn is_same(one: MessageKey, other: MessageKey) -> bool
    ensures { result ≡ same_message one other }
{
    match (one, other) {
        (MessageKey::Http, MessageKey::Http) => true,
        (MessageKey::Non(one), MessageKey::Non(other)) => one == other,
        (MessageKey::Con(one), MessageKey::Con(other)) => one == other,
        _ => false,
    }
}

/// Passes a request on as a new exchange.
fn pass_first(
    alloc: Global,
    exchanges: &mut Exchanges,
    asking: &Asking<'_>,
    passage: &Passage<'_>,
) -> Result<Passed, GatewayFault>
    requires new { find (is_from asking.now.peer asking.now.message.now.identifier) exchanges.old.waiting ≡ None }
    requires code { asking.now.message.now.code ≢ 0 }
    requires passable { CanPass passage.now }
    ensures gives { Gives result (passed_first exchanges.old asking.now.peer asking.now.domain.now asking.now.message.now (passage_value passage.now)) }
    ensures leaves { NowWaits exchanges.old asking.now.datagram.now result exchanges.new }
{
    if exchanges.is_full() {
        return Err(GatewayFault::TableFull);
    }
    let number = exchanges.next();
    let bytes = forwarded(alloc, number, asking.domain, passage, asking.message)?;
    let exchange = exchanges.add(alloc, asking.peer, asking.message, asking.datagram)?;
    Ok(Passed::Forward {
        bytes,
        fresh: Some(exchange),
    })
}
