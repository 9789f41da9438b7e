//! What is accepted.

ghost use Rattle.std.specs.Prelude.{◌≡◌, IfOk};
ghost use Rattle.dots_registry.specs.RegistryValues.{time_of};
ghost use Rattle.rest_answers.specs.declared.answer.RestAnswer.TheVariants as answers;
ghost use Rattle.rest_answers.specs.Changes.{entry_of};
ghost use Rattle.rest_answers.specs.Replies.{decision_reply};
ghost use Rattle.rest_answers.specs.Answers.{changing};

use crate::desk::Desk;
use data_channel::{RestDecision, RestRequest};
use dots_history::Entry;
use dots_lists::NoMemory;
use installed_filters::Staged;
use rest_answers::{Caller, RestAnswer, RestReply, decision_reply, entry_of};

/// The answer to a request that is accepted with this outcome.
pub fn accept(
    desk: &Desk<'_>,
    caller: Caller,
    close: bool,
    request: RestRequest,
    decision: RestDecision,
) -> Result<RestAnswer<Staged>, NoMemory>
    ensures { IfOk result (λ answer. answer ≡ changing (decision_reply close request decision) (entry_of (time_of desk.now.registry.now) caller request)) }
{
    match decision_reply(desk.alloc, close, &request, decision) {
        Ok(reply) => accept_with(desk, caller, reply, request),
        Err(fault) => Err(without(request, fault)),
    }
}

/// The same with the reply.
fn accept_with(
    desk: &Desk<'_>,
    caller: Caller,
    reply: RestReply,
    request: RestRequest,
) -> Result<RestAnswer<Staged>, NoMemory>
    ensures { IfOk result (λ answer. answer ≡ changing reply (entry_of (time_of desk.now.registry.now) caller request)) }
{
    match entry_of(desk.alloc, desk.registry.time(), caller, request) {
        Ok(Some(entry)) => take(desk, reply, entry),
        Ok(None) => Ok(RestAnswer::Reply(reply)),
        Err(fault) => Err(fault),
    }
}

/// An entry is accepted with this reply.
fn take(desk: &Desk<'_>, reply: RestReply, entry: Entry) -> Result<RestAnswer<Staged>, NoMemory>
    ensures { IfOk result (λ answer. answer ≡ answers.Accept reply entry) }
{
    match desk.registry.stage(entry) {
        Ok(entry) => Ok(RestAnswer::Accept { reply, entry }),
        Err(fault) => Err(fault),
    }
}

/// There is no memory for a request, which is let go.
fn without(_request: RestRequest, fault: NoMemory) -> NoMemory {
    fault
}
