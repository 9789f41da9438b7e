//! What is decided, and its status.

ghost use Rattle.std.specs.Prelude.{◌≡◌, IsTrue};
ghost use Rattle.http_cut.specs.Reply.{is_reply_status};
ghost use Rattle.data_channel.specs.Decisions.{status_of, is_accepted, status_of_reject};

use crate::reject::RestReject;

/// What is decided on a request. The statuses are those of RFC 9110, section 15.
#[derive(Clone, Copy)]
pub enum RestDecision {
    /// What is asked for may not be asked for: 400.
    BadTarget,
    /// Another peer uses the client's name: 409.
    Taken,
    /// The resource isn't there, or is below a client that isn't registered: 404.
    Absent,
    /// What was to be created is there: 409.
    Exists,
    /// There is no room for what was to be created: 503.
    Full,
    /// It is retrieved: 200.
    Retrieved,
    /// It is there already as it was asked for: 204. Nothing changes.
    Unchanged,
    /// It is created: 201.
    Created,
    /// It is written in place of what was there: 204.
    Replaced,
    /// It is deleted: 204.
    Deleted,
}

impl RestDecision {
    /// The status of the reply.
    pub fn status(self) -> u16
        ensures status { result ≡ status_of self }
        // It is one that the head of a reply may have.
        ensures known { IsTrue (is_reply_status result) }
    {
        match self {
            RestDecision::Retrieved => 200,
            RestDecision::Created => 201,
            RestDecision::Unchanged | RestDecision::Replaced | RestDecision::Deleted => 204,
            RestDecision::BadTarget => 400,
            RestDecision::Absent => 404,
            RestDecision::Taken | RestDecision::Exists => 409,
            RestDecision::Full => 503,
        }
    }

    /// Whether something changes: an entry is made of it.
    pub fn is_accepted(self) -> bool
        ensures { result ≡ is_accepted self }
    {
        match self {
            RestDecision::Created | RestDecision::Replaced | RestDecision::Deleted => true,
            RestDecision::BadTarget
            | RestDecision::Taken
            | RestDecision::Absent
            | RestDecision::Exists
            | RestDecision::Full
            | RestDecision::Retrieved
            | RestDecision::Unchanged => false,
        }
    }
}

/// The status of the reply to what isn't a request of the data channel; 500 for want of memory.
pub fn status_of_reject(reject: &RestReject) -> u16
    ensures status { result ≡ status_of_reject reject.now }
    ensures known { IsTrue (is_reply_status result) }
{
    match reject {
        RestReject::NotFound => 404,
        RestReject::BadName | RestReject::Query | RestReject::NotJson | RestReject::Body(_) => 400,
        RestReject::Method { .. } => 405,
        RestReject::Media => 415,
        RestReject::NoMemory => 500,
    }
}
