//! What is done with the datagram of the upstream.

ghost use Rattle.std.specs.Prelude.{◌≡◌, true, false, IfOk};
ghost use Rattle.dots_gateway.specs.Gateway.{may_answer, is_response, IsBeat, beat_answer, response_said};
ghost use Rattle.dots_gateway.specs.Steps.{Yields, said_to};

use crate::exchanges::Exchanges;
use crate::forwarding::answered;
use crate::passed::Passed;
use crate::replies::{plain_bytes, rejection_bytes};
use crate::wanted::hop_of;
use coap_message::codes::{CHANGED, PUT};
use coap_message::{Kind, Message};
use dots_keys::{Reject, Resource, may_ask, resource_of};
use dots_lists::{Bytes, NoMemory};
use std::alloc::Global;

/// Whether the message is a heartbeat (RFC 9132, section 4.7).
pub fn is_beat(message: &Message<'_>) -> bool
    ensures yes { result ≡ true → IsBeat message.now }
    ensures no { result ≡ false → IsBeat message.now → ⊥ }
{
    if !may_ask(message.kind()) || message.code() != PUT {
        return false;
    }
    matches!(resource_of(message), Some(Resource::Heartbeat))
}

/// The answer to a heartbeat of the upstream.
pub fn beat(alloc: Global, upstream: u32, message: &Message<'_>) -> Result<Passed, NoMemory>
    ensures { Yields result (said_to upstream (beat_answer message.now)) }
{
    let bytes = beat_answer(alloc, message)?;
    Ok(Passed::Reply {
        to: upstream,
        bytes,
    })
}

/// The bytes of the answer to a heartbeat: 4.00 where its Hop-Limit is 0 (RFC 8768, section 3), and else 2.04.
fn beat_answer(alloc: Global, message: &Message<'_>) -> Result<Bytes, NoMemory>
    ensures { IfOk result (λ bytes. bytes ≡ beat_answer message.now) }
{
    if hop_of(message) == 0 {
        return rejection_bytes(alloc, message, &Reject::HopLimit);
    }
    plain_bytes(alloc, message, CHANGED)
}

fn may_answer(kind: Kind) -> bool
    ensures { result ≡ may_answer kind }
{
    match kind {
        Kind::Non | Kind::Ack => true,
        Kind::Con | Kind::Rst => false,
    }
}

/// Whether the message is a response of the classes 2, 4 or 5 (RFC 7252, section 5.9).
fn is_response(message: &Message<'_>) -> bool
    ensures { result ≡ is_response message.now }
{
    may_answer(message.kind()) && matches!(message.code() / 32, 2 | 4 | 5)
}

/// The answer for the client whose request the message answers.
pub fn response(
    alloc: Global,
    exchanges: &Exchanges,
    message: &Message<'_>,
) -> Result<Passed, NoMemory>
    ensures { Yields result (response_said exchanges.now message.now) }
{
    if !is_response(message) {
        return Ok(Passed::Nothing);
    }
    let Some(waiting) = exchanges.of_answer(message.token(), message.id()) else {
        return Ok(Passed::Nothing);
    };
    let bytes = answered(alloc, &waiting.exchange, message)?;
    Ok(Passed::Reply {
        to: waiting.exchange.peer,
        bytes,
    })
}
