//! What the answer to a request says.

ghost use Rattle.std.specs.Prelude.{IfOk, OnErr, IsSome};
ghost use Rattle.dots_client.specs.Answers.{Says, SaysGrant, SaysWithdrawn};

use crate::grants::granted_in;
use crate::request::Request;
use cbor_profile::{CborFault, decode};
use coap_message::Message;
use coap_message::codes::{CHANGED, CREATED, DELETED};
use dots_lists::NoMemory;
use std::alloc::Global;

/// What a request comes to.
#[derive(Clone, Copy)]
pub enum Answer {
    /// What was asked for is granted, for this lifetime in seconds, or -1 for an indefinite one.
    Granted { lifetime: i32 },
    /// What was granted is withdrawn.
    Withdrawn,
    /// Neither.
    Refused,
}

/// What the answer to a request says.
pub fn answer_of(
    alloc: Global,
    request: &Request,
    message: &Message<'_>,
) -> Result<Answer, NoMemory>
    ensures says { IfOk result (Says request.now message.now) }
    ensures lacks { OnErr result (IsSome request.now.scope) }
{
    match &request.scope {
        Some(_) => grant_of(alloc, request.mid, message),
        None => Ok(withdrawal_of(message)),
    }
}

/// What the answer to a withdrawal says.
fn withdrawal_of(message: &Message<'_>) -> Answer
    ensures { SaysWithdrawn message.now result }
{
    if message.code() == DELETED {
        return Answer::Withdrawn;
    }
    Answer::Refused
}

/// What the answer to a request for a mitigation says.
fn grant_of(alloc: Global, mid: u32, message: &Message<'_>) -> Result<Answer, NoMemory>
    ensures { IfOk result (SaysGrant mid message.now) }
{
    let code = message.code();
    if code != CREATED && code != CHANGED {
        return Ok(Answer::Refused);
    }
    let item = match decode(alloc, message.payload()) {
        Ok(item) => item,
        Err(CborFault::NoMemory) => return Err(NoMemory),
        Err(_) => return Ok(Answer::Refused),
    };
    match granted_in(&item, mid) {
        Some(lifetime) => Ok(Answer::Granted { lifetime }),
        None => Ok(Answer::Refused),
    }
}
