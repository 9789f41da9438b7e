//! What a gateway answers by itself.

ghost use Rattle.std.specs.Prelude.{◌≡◌, ◌≢◌, [], IfOk};
ghost use Rattle.dots_keys.specs.Exchanges.{exchange_in};
ghost use Rattle.dots_keys.specs.Replies.{plain, rejection, reset_message};

use coap_message::Message;
use dots_keys::{Exchange, Reject, plain, rejection, reset};
use dots_lists::{Bytes, NoMemory};
use std::alloc::Global;

/// A reply of a code alone.
pub fn plain_bytes(alloc: Global, message: &Message<'_>, code: u8) -> Result<Bytes, NoMemory>
    requires { code ≢ 0 }
    ensures { IfOk result (λ bytes. bytes ≡ plain code (exchange_in message.now) []) }
{
    let reply = plain(code, &Exchange::of(message), &[]);
    Bytes::from_slice(alloc, reply.bytes())
}

/// The refusal of a message, by its cause.
pub fn rejection_bytes(
    alloc: Global,
    message: &Message<'_>,
    reject: &Reject,
) -> Result<Bytes, NoMemory>
    ensures { IfOk result (λ bytes. bytes ≡ rejection (exchange_in message.now) reject.now) }
{
    let reply = rejection(&Exchange::of(message), reject);
    Bytes::from_slice(alloc, reply.bytes())
}

/// An empty reset (RFC 7252, section 4.2).
pub fn reset_bytes(alloc: Global, id: u16) -> Result<Bytes, NoMemory>
    ensures { IfOk result (λ bytes. bytes ≡ reset_message id) }
{
    Bytes::from_slice(alloc, reset(id).bytes())
}
