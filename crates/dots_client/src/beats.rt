//! Heartbeats of the server.

ghost use Rattle.std.specs.Prelude.{◌≡◌, ◌≢◌, true, false};
ghost use Rattle.dots_keys.specs.Options.{value_of};
ghost use Rattle.dots_client.specs.Receiving.{IsBeat, is_spent_hop, beat_code, beat_answer};

use crate::short::Short;
use coap_message::codes::{BAD_REQUEST, CHANGED, PUT};
use coap_message::option_numbers::HOP_LIMIT;
use coap_message::{Kind, Message, Parts};
use dots_keys::{Resource, option_number, resource_of, value_of};

/// Whether the message is a heartbeat (RFC 9132, section 4.7).
pub fn is_beat(message: &Message<'_>) -> bool
    ensures yes { result ≡ true → IsBeat message.now }
    ensures no { result ≡ false → IsBeat message.now → ⊥ }
{
    if message.kind() != Kind::Non || message.code() != PUT {
        return false;
    }
    matches!(resource_of(message), Some(Resource::Heartbeat))
}

/// Whether the Hop-Limit of a message is 0 (RFC 8768, section 3).
fn is_spent_hop(message: &Message<'_>) -> bool
    ensures { result ≡ is_spent_hop (value_of 16 message.now.options) }
{
    match value_of(message, HOP_LIMIT) {
        Some(value) => option_number(value) == 0,
        None => false,
    }
}

fn beat_code(stopped: bool) -> u8
    ensures code { result ≡ beat_code stopped }
    ensures class { result ≢ 0 }
{
    if stopped { BAD_REQUEST } else { CHANGED }
}

/// The answer to a heartbeat.
pub fn beat_answer(message: &Message<'_>) -> Short
    ensures { result ≡ beat_answer message.now }
{
    Short::encode(&Parts {
        kind: Kind::Non,
        code: beat_code(is_spent_hop(message)),
        id: message.id(),
        token: message.token(),
        options: &[],
        values: &[],
        payload: &[],
    })
}
