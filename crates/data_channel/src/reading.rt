//! Requests of the data channel.

ghost use Rattle.std.specs.Prelude.{◌≡◌, Some, None, option_map, IfOk, IfErr, Err};
ghost use Rattle.http_cut.specs.Requests.{request_value};
ghost use Rattle.serde_json.specs.View.{view};
ghost use Rattle.list_json.specs.Steps.{Gives as GivesBody};
ghost use Rattle.data_channel.specs.Bodies.{whole_request};
ghost use Rattle.data_channel.specs.Heads.{Gives, Fulfils, UnlessNoMemory};
ghost use Rattle.data_channel.specs.Rest.{IsJson, rest_result, IsAnswer, Rest};

use crate::bodies::whole_request;
use crate::heads::{head_of, is_yang_json};
use crate::reject::{RestReject, reject_of};
use crate::request::{Head, RestRequest, Wanted};
use http_cut::HttpRequest;
use list_json::{JsonFault, JsonRoom, read_json};
use serde_json::Value;
use std::alloc::Global;

/// The value that the body is as JSON.
fn json_of(alloc: Global, room: &mut JsonRoom, body: &[u8]) -> Result<Value, RestReject>
    ensures found { IfOk result (λ value. IsJson body.now (Some (view value))) }
    ensures refused { IfErr result (λ e. Fulfils e ((e ≡ RestReject.NotJson) × IsJson body.now None)) }
{
    match read_json(alloc, room, body) {
        Ok(value) => Ok(value),
        Err(JsonFault::NotJson) => Err(RestReject::NotJson),
        Err(JsonFault::NoMemory) => Err(RestReject::NoMemory),
    }
}

/// The request that a body makes whole.
fn with_body(alloc: Global, wanted: Wanted, value: &Value) -> Result<RestRequest, RestReject>
    ensures { Gives result (rest_result (whole_request wanted (view value.now))) }
{
    match whole_request(alloc, wanted, value) {
        Ok(request) => Ok(request),
        Err(fault) => Err(reject_of(fault)),
    }
}

/// The answer to a request that wants a body.
fn answer(
    alloc: Global,
    room: &mut JsonRoom,
    wanted: Wanted,
    request: &HttpRequest,
) -> Result<RestRequest, RestReject>
    ensures { UnlessNoMemory result (IsAnswer wanted (request_value request.now).media request.now.body.now result) }
{
    if is_yang_json(&request.media) {
        let value = json_of(alloc, room, request.body)?;
        return with_body(alloc, wanted, &value);
    }
    Err(RestReject::Media)
}

/// What a message of the data channel asks, or the first refusal that applies: the path, its names, the query, the method,
/// the media type, and then the body. The room serves one message after the other.
pub fn read_rest(
    alloc: Global,
    room: &mut JsonRoom,
    request: &HttpRequest,
) -> Result<RestRequest, RestReject>
    ensures { UnlessNoMemory result (Rest (request_value request.now) result) }
{
    match head_of(alloc, request.method, request.target)? {
        Head::Plain(asked) => Ok(asked),
        Head::Wants(wanted) => answer(alloc, room, wanted, request),
    }
}
