//! The order in which a request is judged.

ghost use Rattle.std.specs.Prelude.{◌≡◌};
ghost use Rattle.data_channel.specs.Judging.{made, of_client, of_one, of_resource, judge};

use crate::asking::{RestKind, RestVerb};
use crate::decision::RestDecision;
use crate::facts::RestFacts;

/// What is decided on a request of this verb and kind, by what is known.
pub fn judge(verb: RestVerb, kind: RestKind, facts: RestFacts) -> RestDecision
    ensures { result ≡ judge verb kind facts }
{
    if facts.fault {
        return RestDecision::BadTarget;
    }
    if facts.taken {
        return RestDecision::Taken;
    }
    judge_resource(verb, kind, facts)
}

/// The same, where nothing is wrong with what is asked for or with who asks.
fn judge_resource(verb: RestVerb, kind: RestKind, facts: RestFacts) -> RestDecision
    ensures { result ≡ of_resource verb kind facts }
{
    match kind {
        RestKind::Client => judge_client(verb, facts),
        _ if !facts.registered => RestDecision::Absent,
        RestKind::Alias | RestKind::Acl => judge_one(verb, facts),
        RestKind::Aliases | RestKind::Acls => RestDecision::Retrieved,
    }
}

/// The client itself.
fn judge_client(verb: RestVerb, facts: RestFacts) -> RestDecision
    ensures { result ≡ of_client verb facts }
{
    match verb {
        RestVerb::Put if facts.there => RestDecision::Unchanged,
        _ => judge_one(verb, facts),
    }
}

/// One resource.
fn judge_one(verb: RestVerb, facts: RestFacts) -> RestDecision
    ensures { result ≡ of_one verb facts }
{
    match (verb, facts.there) {
        (RestVerb::Get, true) => RestDecision::Retrieved,
        (RestVerb::Delete, true) => RestDecision::Deleted,
        (RestVerb::Get | RestVerb::Delete, false) => RestDecision::Absent,
        (RestVerb::Put, true) => RestDecision::Replaced,
        (RestVerb::Post, true) => RestDecision::Exists,
        (RestVerb::Put | RestVerb::Post, false) => create(facts),
    }
}

/// What isn't there is created, where there is room.
fn create(facts: RestFacts) -> RestDecision
    ensures { result ≡ made facts }
{
    if facts.full {
        return RestDecision::Full;
    }
    RestDecision::Created
}
