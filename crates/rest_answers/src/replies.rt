//! The replies.

ghost use Rattle.std.specs.Prelude.{◌≡◌, IfOk};
ghost use Rattle.rest_answers.specs.Replies.{decision_reply, content_reply, rejection, refusal, unavailable, status_of_fault};
ghost use Rattle.http_cut.specs.Reply.{is_reply_status};
ghost use Rattle.std.specs.Prelude.{IsTrue};

use crate::reply::RestReply;
use data_channel::{
    RestDecision, RestReject, RestRequest, RestVerb, location_of, status_of_reject, verb_of,
};
use dots_lists::{Bytes, NoMemory};
use http_cut::{HttpFault, ReplyHead, write_head};
use std::alloc::Global;

/// The reply to a request on which this is decided, which isn't shown.
pub fn decision_reply(
    alloc: Global,
    close: bool,
    request: &RestRequest,
    decision: RestDecision,
) -> Result<RestReply, NoMemory>
    ensures { IfOk result (λ reply. reply ≡ decision_reply close request.now decision) }
{
    match (decision, verb_of(request)) {
        (RestDecision::Created, RestVerb::Post) => {
            let location = location_of(alloc, request)?;
            Ok(RestReply::located(decision.status(), close, location))
        }
        _ => Ok(RestReply::new(alloc, decision.status(), close)),
    }
}

/// The reply to what isn't a request of the data channel.
pub fn rejection(alloc: Global, close: bool, reject: &RestReject) -> RestReply
    ensures { result ≡ rejection close reject.now }
{
    let status = status_of_reject(reject);
    match reject {
        RestReject::Method { allow } => RestReply::allowing(alloc, status, close, Some(*allow)),
        _ => RestReply::new(alloc, status, close),
    }
}

/// The reply to a stream that is refused, whose connection is closed behind it.
pub fn refusal(alloc: Global, fault: HttpFault) -> RestReply
    ensures { result ≡ refusal fault }
{
    RestReply::new(alloc, status_of_fault(fault), true)
}

/// The reply for want of memory.
pub fn unavailable(alloc: Global, close: bool) -> RestReply
    ensures { result ≡ unavailable close }
{
    RestReply::new(alloc, 500, close)
}

fn status_of_fault(fault: HttpFault) -> u16
    ensures status { result ≡ status_of_fault fault }
    ensures known { IsTrue (is_reply_status result) }
{
    match fault {
        HttpFault::BadHead => 400,
        HttpFault::LengthRequired => 411,
        HttpFault::BodyTooLong => 413,
    }
}

/// The reply to a GET, with what is shown as its body.
pub fn content_reply(alloc: Global, close: bool, text: &Bytes) -> Result<Bytes, NoMemory>
    ensures { IfOk result (λ reply. reply ≡ content_reply close text.now) }
{
    let text = text.items();
    let mut head = [0; 1024];
    let size = write_head(
        &ReplyHead {
            status: 200,
            close,
            location: b"",
            allow: b"",
            json: true,
            length: text.len(),
        },
        &mut head,
    );
    let mut reply = Vec::new(alloc);
    reply.extend_from_slice(&head[..size])?;
    reply.extend_from_slice(text)?;
    Ok(Bytes::from_vec(reply))
}
