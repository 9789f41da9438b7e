//! The replies.

ghost use Rattle.std.specs.Prelude.{◌≡◌, ◌≢◌, ◌≤◌, length, IfOk};
ghost use Rattle.dots_machine.specs.Replies.{granting, grant_code, deleted, absent, bad_request, at_capacity, bad_parameter, unavailable, bad_target, configuring, older_sid, out_of_range, heartbeat_reply};

use coap_message::codes::{
    BAD_REQUEST, CHANGED, CONFLICT, CREATED, DELETED, INTERNAL_SERVER_ERROR, NOT_FOUND,
    SERVICE_UNAVAILABLE, UNPROCESSABLE_ENTITY,
};
use conflict_rules::Judged;
use dots_keys::{Exchange, MAX_TEXT, Reject, ShortMessage, plain, rejection, with_body};
use dots_lists::NoMemory;
use dots_machine::TargetFault;
use itoa::Buffer;
use reply_bodies::{Reply, body_of};
use std::alloc::Global;

/// 2.04 where a mitigation that stands is refreshed, else 2.01; with the mid and the granted lifetime in seconds, -1 for an
/// indefinite one (RFC 9132, section 4.4.1.3).
pub fn granting(
    alloc: Global,
    exchange: &Exchange,
    judged: &Judged,
) -> Result<ShortMessage, NoMemory>
    ensures { IfOk result (λ reply. reply ≡ granting exchange.now judged.now) }
{
    let granted = Reply::Granted {
        mid: judged.put.mid,
        lifetime: judged.put.granted,
    };
    let body = body_of(alloc, &granted)?;
    Ok(with_body(grant_code(judged.refreshed), exchange, body.items()))
}

fn grant_code(refreshed: bool) -> u8
    ensures code { result ≡ grant_code refreshed }
    ensures class { result ≢ 0 }
{
    if refreshed { CHANGED } else { CREATED }
}

/// 2.02, whether or not there was something to withdraw (RFC 9132, section 4.4.4).
pub fn deleted(exchange: &Exchange) -> ShortMessage
    ensures { result ≡ deleted exchange.now }
{
    plain(DELETED, exchange, &[])
}

/// 4.04, where there is no mitigation to tell of (RFC 9132, section 4.4.2).
pub fn absent(exchange: &Exchange) -> ShortMessage
    ensures { result ≡ absent exchange.now }
{
    plain(NOT_FOUND, exchange, b"absent")
}

/// 4.00, with a text that says why a request can't be granted.
pub fn bad_request(exchange: &Exchange, text: &[u8]) -> ShortMessage
    requires { length text.now ≤ 28 }
    ensures { result ≡ bad_request exchange.now text.now }
{
    plain(BAD_REQUEST, exchange, text)
}

/// 5.03, where as many mitigations live as may be.
pub fn at_capacity(exchange: &Exchange) -> ShortMessage
    ensures { result ≡ at_capacity exchange.now }
{
    plain(SERVICE_UNAVAILABLE, exchange, b"capacity")
}

/// 2.04 where the configuration of the same sid is replaced, else 2.01 (RFC 9132, section 4.5.2).
pub fn configuring(exchange: &Exchange, replaced: bool) -> ShortMessage
    ensures { result ≡ configuring exchange.now replaced }
{
    plain(grant_code(replaced), exchange, &[])
}

/// 4.09, where a configuration with a higher sid is held (RFC 9132, section 4.5.2).
pub fn older_sid(exchange: &Exchange) -> ShortMessage
    ensures { result ≡ older_sid exchange.now }
{
    plain(CONFLICT, exchange, b"sid")
}

/// 4.22, where the value of this key is out of its range (RFC 9132, section 4.5.2).
pub fn out_of_range(exchange: &Exchange, key: u8) -> ShortMessage
    ensures { result ≡ out_of_range exchange.now key }
{
    let mut buffer = Buffer::new();
    let digits = buffer.format(key).as_bytes();
    let mut text = [0; MAX_TEXT];
    let (front, rest) = text.split_at_mut(6);
    front.copy_from_slice(b"range ");
    rest[..digits.len()].copy_from_slice(digits);
    plain(UNPROCESSABLE_ENTITY, exchange, &text[..6 + digits.len()])
}

/// 2.04, of a heartbeat (RFC 9132, section 4.7).
pub fn heartbeat_reply(exchange: &Exchange) -> ShortMessage
    ensures { result ≡ heartbeat_reply exchange.now }
{
    plain(CHANGED, exchange, &[])
}

/// 5.00, for want of memory.
pub fn unavailable(exchange: &Exchange) -> ShortMessage
    ensures { result ≡ unavailable exchange.now }
{
    plain(INTERNAL_SERVER_ERROR, exchange, &[])
}

/// 4.00, for what may not be asked for in a domain.
pub fn bad_target(exchange: &Exchange, fault: TargetFault) -> ShortMessage
    ensures { result ≡ bad_target exchange.now fault }
{
    plain(BAD_REQUEST, exchange, fault.text())
}

/// 4.00, for a parameter that is missing, or a domain that there isn't.
pub fn bad_parameter(exchange: &Exchange) -> ShortMessage
    ensures { result ≡ bad_parameter exchange.now }
{
    rejection(exchange, &Reject::Parameter)
}
