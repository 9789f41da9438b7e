//! What is decided on a request.

ghost use Rattle.std.specs.Prelude.{◌≡◌, ◌⊎◌, ◌<◌, true, List, IfOk};
ghost use Rattle.http_cut.specs.Requests.{request_value};
ghost use Rattle.serde_json.specs.Written.{compact_text};
ghost use Rattle.data_channel.specs.Replies.{body_data};
ghost use Rattle.dots_settings.specs.Lookups.{role_of};
ghost use Rattle.dots_history.specs.declared.entry.Entry.{Entry};
ghost use Rattle.dots_history.specs.Histories.{held};
ghost use Rattle.dots_history.specs.Calm.{may_act};
ghost use Rattle.dots_history.specs.Held.{aliases_of, acls_of};
ghost use Rattle.dots_registry.specs.RegistryValues.{Represents, IsOf, time_of, domains_of};
ghost use Rattle.rest_answers.specs.declared.answer.RestAnswer.TheVariants as answers;
ghost use Rattle.rest_answers.specs.Known.{client_for, known_of};
ghost use Rattle.rest_answers.specs.Replies.{content_reply, decision_reply, unavailable};
ghost use Rattle.rest_answers.specs.Answers.{showing, telling, body_of, rest_answer, Answers};
ghost use Rattle.data_channel.specs.Asking.{verb_of, kind_of};
ghost use Rattle.dots_data.specs.Accepting.{IsInUse, CanCarryOut};

use crate::accepting::accept;
use crate::bodies::body_of;
use crate::desk::Desk;
use crate::facts::facts;
use data_channel::{
    RestBody, RestDecision, RestRequest, body_text, judge, kind_of, read_rest, verb_of,
};
use dots_lists::{Bytes, NoMemory};
use http_cut::HttpRequest;
use installed_filters::Staged;
use list_json::JsonRoom;
use rest_answers::{Caller, RestAnswer, content_reply, decision_reply, rejection, unavailable};
use std::alloc::Global;

/// What is answered to a message of a client peer of the settings, of which the registry is. The room serves one message after the other.
///
/// It is answered by the rules, or by 500 where memory ran out. What is accepted can be carried out, which takes no memory.
pub fn decide_rest(
    desk: &Desk<'_>,
    room: &mut JsonRoom,
    caller: Caller,
    message: &HttpRequest<'_>,
) -> RestAnswer<Staged>
    requires is_of { IsOf desk.now.settings.now desk.now.registry.now }
    requires in_use { IsInUse desk.now.settings.now desk.now.registry.now }
    requires acts { may_act desk.now.settings.now (role_of desk.now.settings.now caller.peer) caller.domain ≡ true }
    ensures decides { (entries : List Entry) → Represents desk.now.registry.now entries
        → Answers desk.now.settings.now (time_of desk.now.registry.now) entries caller (request_value message.now) result }
    ensures ready { CanCarryOut desk.now.settings.now desk.now.registry.now result }
{
    match read_rest(desk.alloc, room, message) {
        Ok(request) => decide_or_fail(desk, caller, message.close, request),
        Err(reject) => RestAnswer::Reply(rejection(desk.alloc, message.close, &reject)),
    }
}

/// What is answered to a request, or 500 where memory ran out.
fn decide_or_fail(
    desk: &Desk<'_>,
    caller: Caller,
    close: bool,
    request: RestRequest,
) -> RestAnswer<Staged>
    requires is_of { IsOf desk.now.settings.now desk.now.registry.now }
    requires inside { caller.domain < domains_of desk.now.registry.now }
    ensures { (entries : List Entry) → Represents desk.now.registry.now entries
        → (result ≡ rest_answer (known_of desk.now.settings.now (time_of desk.now.registry.now) entries caller request) caller close request) ⊎ (result ≡ answers.Reply (unavailable close)) }
{
    match decide(desk, caller, close, request) {
        Ok(answer) => answer,
        Err(NoMemory) => RestAnswer::Reply(unavailable(desk.alloc, close)),
    }
}

/// What the rules answer to a request.
fn decide(
    desk: &Desk<'_>,
    caller: Caller,
    close: bool,
    request: RestRequest,
) -> Result<RestAnswer<Staged>, NoMemory>
    requires is_of { IsOf desk.now.settings.now desk.now.registry.now }
    requires inside { caller.domain < domains_of desk.now.registry.now }
    ensures { (entries : List Entry) → Represents desk.now.registry.now entries
        → IfOk result (λ answer. answer ≡ rest_answer (known_of desk.now.settings.now (time_of desk.now.registry.now) entries caller request) caller close request) }
{
    let facts = facts(desk, caller, &request);
    let decision = judge(verb_of(&request), kind_of(&request), facts);
    if decision.is_accepted() {
        return accept(desk, caller, close, request, decision);
    }
    let answer = answer_for(desk, caller, close, &request, decision);
    drop(request);
    answer
}

/// What is answered to a request on which this is decided, which changes nothing.
fn answer_for(
    desk: &Desk<'_>,
    caller: Caller,
    close: bool,
    request: &RestRequest,
    decision: RestDecision,
) -> Result<RestAnswer<Staged>, NoMemory>
    ensures { (entries : List Entry) → Represents desk.now.registry.now entries
        → IfOk result (λ answer. answer ≡ telling close request.now (body_of request.now (aliases_of (client_for caller request.now) (held entries)) (acls_of (client_for caller request.now) (held entries))) decision) }
{
    match decision {
        RestDecision::Retrieved => retrieve(desk, caller, close, request),
        _ => decision_answer(desk.alloc, close, request, decision),
    }
}

/// What is answered to a GET of what is there.
fn retrieve(
    desk: &Desk<'_>,
    caller: Caller,
    close: bool,
    request: &RestRequest,
) -> Result<RestAnswer<Staged>, NoMemory>
    ensures { (entries : List Entry) → Represents desk.now.registry.now entries
        → IfOk result (λ answer. answer ≡ showing close request.now (body_of request.now (aliases_of (client_for caller request.now) (held entries)) (acls_of (client_for caller request.now) (held entries)))) }
{
    match body_of(desk.alloc, desk.registry, caller, request)? {
        Some(body) => body_answer(desk.alloc, close, body),
        None => decision_answer(desk.alloc, close, request, RestDecision::Absent),
    }
}

/// A reply without a body, which changes nothing.
fn decision_answer(
    alloc: Global,
    close: bool,
    request: &RestRequest,
    decision: RestDecision,
) -> Result<RestAnswer<Staged>, NoMemory>
    ensures { IfOk result (λ answer. answer ≡ answers.Reply (decision_reply close request.now decision)) }
{
    let reply = decision_reply(alloc, close, request, decision)?;
    Ok(RestAnswer::Reply(reply))
}

/// A reply with this body.
fn body_answer(alloc: Global, close: bool, body: RestBody) -> Result<RestAnswer<Staged>, NoMemory>
    ensures { IfOk result (λ answer. answer ≡ answers.LongReply (content_reply close (compact_text (body_data body)))) }
{
    match body_reply(alloc, close, &body) {
        Ok(reply) => Ok(RestAnswer::LongReply(reply)),
        Err(fault) => Err(fault),
    }
}

/// The bytes of a reply with this body.
fn body_reply(alloc: Global, close: bool, body: &RestBody) -> Result<Bytes, NoMemory>
    ensures { IfOk result (λ reply. reply ≡ content_reply close (compact_text (body_data body.now))) }
{
    let text = body_text(alloc, body)?;
    content_reply(alloc, close, &text)
}
