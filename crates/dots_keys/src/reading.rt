//! Reading a request.

ghost use Rattle.std.specs.Prelude.{◌≡◌, ◌≢◌, ◌/◌, Err, IsOk, IfOk, IfErr};
ghost use Rattle.cbor_profile.specs.Spelling.{Spells};
ghost use Rattle.cbor_profile.specs.ItemTrees.{tree_of};
ghost use Rattle.dots_keys.specs.HeadValues.{head_value};
ghost use Rattle.dots_keys.specs.Heads.{head_of};
ghost use Rattle.dots_keys.specs.Askable.{IsAskable};
ghost use Rattle.dots_keys.specs.Lifetimes.{HasLifetime};
ghost use Rattle.dots_keys.specs.Waiting.{WaitsForClient};
ghost use Rattle.dots_keys.specs.Meaning.{IsBody, AnswersBody, ReadsAs, Means, put_mitigation_with, put_config_with, put_heartbeat_with};
ghost use Rattle.dots_keys.specs.OperationValues.{IsNamed};
ghost use Rattle.dots_keys.specs.Results.{Fulfils, UnlessNoMemory};

use crate::configuration::configuration_of;
use crate::head::{Head, read_head};
use crate::head_request::MitigationPath;
use crate::heartbeat::heartbeat_of;
use crate::mitigation::mitigation_of;
use crate::operation::Operation;
use crate::reject::{Cause, Reject};
use crate::request::Request;
use cbor_profile::{CborFault, Item, decode};
use coap_message::Message;
use std::alloc::Global;

/// What a readable message whose code is that of a request asks (RFC 9132, section 4), or the first refusal that applies, in
/// the order of [`Reject`]. `gateway` says whether it comes from a gateway, which has to name a domain.
pub fn read_request(alloc: Global, message: &Message<'_>, gateway: bool) -> Result<Request, Reject>
    requires class { message.now.code / 32 ≡ 0 }
    requires detail { message.now.code ≢ 0 }
    // the request, or the first refusal
    ensures means { UnlessNoMemory result (Means message.now gateway result) }
    // What later steps rest on: the mid of a PUT and a DELETE, names without a slash, the lists within their numbers, a target,
    // a lifetime that can be granted, a value of a configuration.
    ensures askable { IfOk result IsAskable }
    ensures lifetime { IfOk result HasLifetime }
    // A mitigation that waits for a lost signal is asked for by a client alone.
    ensures waits { IfOk result WaitsForClient }
    // No memory is taken before what stands before the body is found right.
    ensures memory { result ≡ Err Reject.NoMemory → IsOk (head_of message.now gateway) }
{
    let head = read_head(message, gateway)?;
    complete(alloc, &head, message.payload())
}

/// The request of this head with this payload.
fn complete(alloc: Global, head: &Head<'_>, payload: &[u8]) -> Result<Request, Reject>
    requires { IsNamed head.now.operation }
    ensures { UnlessNoMemory result (ReadsAs (Ok (head_value head.now)) payload.now result) }
{
    match head.operation {
        Operation::PutMitigation(parameters) => {
            let path = parameters.path(alloc)?;
            put_mitigation(alloc, path, payload)
        }
        Operation::GetMitigation(parameters) => {
            let path = parameters.path(alloc)?;
            Ok(Request::GetMitigation {
                path,
                content: head.content,
                observe: head.observe,
            })
        }
        Operation::DeleteMitigation(parameters) => {
            let path = parameters.path(alloc)?;
            Ok(Request::DeleteMitigation { path })
        }
        Operation::PutConfig(sid) => put_config(alloc, sid, payload),
        Operation::GetConfig(sid) => Ok(Request::GetConfig { sid }),
        Operation::DeleteConfig(sid) => Ok(Request::DeleteConfig { sid }),
        Operation::PutHeartbeat => put_heartbeat(alloc, payload),
    }
}

fn put_mitigation(alloc: Global, path: MitigationPath, payload: &[u8]) -> Result<Request, Reject>
    ensures { UnlessNoMemory result (AnswersBody payload.now (put_mitigation_with path) result) }
{
    let item = decode_body(alloc, payload)?;
    let body = mitigation_of(alloc, path.cdid.is_some(), &item)?;
    Ok(Request::PutMitigation { path, body })
}

fn put_config(alloc: Global, sid: u32, payload: &[u8]) -> Result<Request, Reject>
    ensures { UnlessNoMemory result (AnswersBody payload.now (put_config_with sid) result) }
{
    let item = decode_body(alloc, payload)?;
    let body = configuration_of(&item)?;
    Ok(Request::PutConfig { sid, body })
}

fn put_heartbeat(alloc: Global, payload: &[u8]) -> Result<Request, Reject>
    ensures { UnlessNoMemory result (AnswersBody payload.now put_heartbeat_with result) }
{
    let item = decode_body(alloc, payload)?;
    let heard = heartbeat_of(&item)?;
    Ok(Request::PutHeartbeat { heard })
}

/// The item that a payload spells.
fn decode_body(alloc: Global, payload: &[u8]) -> Result<Item, Reject>
    ensures found { IfOk result (λ item. Spells payload.now (tree_of item) 0) }
    ensures refused { IfErr result (λ reject. Fulfils reject (IsBody payload.now (Err reject))) }
{
    match decode(alloc, payload) {
        Ok(item) => Ok(item),
        Err(CborFault::NoMemory) => Err(Reject::NoMemory),
        Err(fault) => Err(Reject::Body(Cause::Cbor(fault))),
    }
}
