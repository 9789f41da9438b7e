//! Replies with a body of any length.

ghost use Rattle.std.specs.Prelude.{◌≡◌, ◌≢◌, IfOk, option_map};
ghost use Rattle.dots_keys.specs.Replies.{with_body};
ghost use Rattle.dots_machine.specs.Replies.{conflicting, configuration_reply, showing};
ghost use Rattle.reply_bodies.specs.Mitigations.{views_tree};
ghost use Rattle.cbor_profile.specs.Canon.{canon};

use crate::configurations::session_view;
use coap_message::codes::{CONFLICT, CONTENT};
use coap_message::option_numbers::CONTENT_FORMAT;
use coap_message::{DOTS_CBOR, OptionPart, Parts, encode_into, encoded_len};
use dots_history::Config;
use dots_keys::Exchange;
use dots_lists::{Bytes, NoMemory};
use reply_bodies::{Conflict, ConflictCause, Reply, ViewList, body_of};
use session_core::{Front, numbered_content};
use std::alloc::Global;

/// 4.09, for what stands in the way of a request; `mid` is the request's (RFC 9132, section 4.4.1.3).
pub fn conflicting(
    alloc: Global,
    exchange: &Exchange,
    mid: Option<u32>,
    cause: ConflictCause,
) -> Result<Bytes, NoMemory>
    ensures { IfOk result (λ reply. reply ≡ conflicting exchange.now mid cause) }
{
    let body = body_of(alloc, &Reply::Conflict(Conflict { mid, cause }))?;
    long_reply(alloc, CONFLICT, exchange, body.items())
}

/// The body that shows these mitigations (RFC 9132, section 4.4.2).
pub fn retrieved_body(alloc: Global, views: ViewList<'_>) -> Result<Bytes, NoMemory>
    ensures { IfOk result (λ body. body ≡ canon (views_tree views.entry)) }
{
    body_of(alloc, &Reply::Mitigations(views))
}

/// 2.05, with the body that shows mitigations, and with Observe where there is a number for it (RFC 7641, section 2).
pub fn showing(
    alloc: Global,
    exchange: &Exchange,
    number: Option<u32>,
    body: &[u8],
) -> Result<Bytes, NoMemory>
    ensures { IfOk result (λ reply. reply ≡ showing exchange.now number body.now) }
{
    match number {
        Some(number) => {
            let front = Front {
                kind: exchange.reply_kind(),
                id: exchange.id,
                token: &exchange.token,
            };
            numbered_content(alloc, &front, number, body)
        }
        None => long_reply(alloc, CONTENT, exchange, body),
    }
}

/// 2.05, with the configuration of a session and its sid, or with what holds where none is held (RFC 9132, section 4.5.1).
pub fn configuration_reply(
    alloc: Global,
    exchange: &Exchange,
    configured: Option<(u32, &Config)>,
) -> Result<Bytes, NoMemory>
    ensures { IfOk result (λ reply. reply ≡ configuration_reply exchange.now (option_map (λ held. (held.0, held.1.now)) configured.entry)) }
{
    let body = body_of(alloc, &Reply::Session(session_view(configured)))?;
    long_reply(alloc, CONTENT, exchange, body.items())
}

/// A reply with a body of CBOR, in memory that is taken once.
fn long_reply(alloc: Global, code: u8, exchange: &Exchange, body: &[u8]) -> Result<Bytes, NoMemory>
    requires { code ≢ 0 }
    ensures { IfOk result (λ reply. reply ≡ with_body code exchange.now body.now) }
{
    let parts = Parts {
        kind: exchange.reply_kind(),
        code,
        id: exchange.id,
        token: exchange.token.bytes(),
        options: &[OptionPart {
            number: CONTENT_FORMAT,
            length: 2,
        }],
        values: &[(DOTS_CBOR / 256) as u8, (DOTS_CBOR % 256) as u8],
        payload: body,
    };
    let mut reply = vec![in alloc; 0; encoded_len(&parts)]?;
    encode_into(&parts, &mut reply);
    Ok(Bytes::from_vec(reply))
}
