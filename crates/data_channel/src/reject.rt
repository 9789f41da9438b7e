ghost use Rattle.std.specs.Prelude.{◌≡◌, ◌≤◌, length, IsTrue};
ghost use Rattle.http_cut.specs.Reply.{is_in_line};
ghost use Rattle.data_channel.specs.Heads.{allow_text, reject_of};

use dots_lists::NoMemory;
use list_json::ListFault;
use std::alloc::AllocError;
use std::error::Error;
use std::fmt;

/// Why a message is no request of the data channel: the first of these that applies, in this order.
#[derive(Clone, Copy, Debug)]
pub enum RestReject {
    /// No resource has this path: 404.
    NotFound,
    /// A name of the path is none: 400.
    BadName,
    /// A query in another request than a GET: 400.
    Query,
    /// The resource doesn't have this method: 405 with those that it has.
    Method { allow: Allow },
    /// The body of a PUT or POST isn't YANG data in JSON: 415.
    Media,
    /// The body isn't JSON: 400.
    NotJson,
    /// The body isn't that of the request, or has another name than the path: 400.
    Body(ListFault),
    /// Memory ran out.
    NoMemory,
}

/// The methods of a resource.
#[derive(Clone, Copy, Debug)]
pub enum Allow {
    /// Those of the root.
    Root,
    /// Those of a client.
    Client,
    /// Those of an alias or an access list.
    Inner,
    /// Those of all aliases or access lists of a client.
    List,
}

impl Allow {
    /// The value of an Allow field (RFC 9110, section 10.2.1).
    pub fn text(self) -> &'static str
        ensures text { result.now ≡ allow_text self }
        // No byte of it ends the line of the field, and it has 64 bytes at most.
        ensures line { IsTrue (is_in_line result.now) }
        ensures size { length result.now ≤ 64 }
    {
        match self {
            Allow::Root => "POST",
            Allow::Client => "GET, PUT, POST, DELETE",
            Allow::Inner => "GET, PUT, DELETE",
            Allow::List => "GET",
        }
    }
}

/// A fault of a body as a refusal.
pub fn reject_of(fault: ListFault) -> RestReject
    ensures { result ≡ reject_of fault }
{
    match fault {
        ListFault::NoMemory => RestReject::NoMemory,
        fault => RestReject::Body(fault),
    }
}

impl fmt::Display for RestReject {
    ghost use Rattle.std.specs.Prelude.{Some};
    ghost use Rattle.data_channel.specs.RejectText.{reject_text};

    ghost output = { λ reject. Some (reject_text reject) };

    fn fmt<W: fmt::Write>(&self, f: &mut fmt::Formatter<W>) -> fmt::Result {
        match self {
            RestReject::NotFound => f.write_str("no such resource"),
            RestReject::BadName => f.write_str("a name of the path is none"),
            RestReject::Query => f.write_str("a query"),
            RestReject::Method { .. } => f.write_str("no such method"),
            RestReject::Media => f.write_str("another media type"),
            RestReject::NotJson => f.write_str("no JSON"),
            RestReject::Body(_) => f.write_str("another body"),
            RestReject::NoMemory => f.write_str("out of memory"),
        }
    }
}

impl Error for RestReject {}

impl From<NoMemory> for RestReject {
    ghost use Rattle.std.specs.Prelude.{◌≡◌};
    ghost use Rattle.data_channel.specs.declared.reject.RestReject.TheVariants as rejects;

    ghost from_gives = { λ _ reject. reject ≡ rejects.NoMemory };

    fn from(_: NoMemory) -> Self {
        Self::NoMemory
    }
}

impl From<AllocError> for RestReject {
    ghost use Rattle.std.specs.Prelude.{◌≡◌};
    ghost use Rattle.data_channel.specs.declared.reject.RestReject.TheVariants as rejects;

    ghost from_gives = { λ _ reject. reject ≡ rejects.NoMemory };

    fn from(_: AllocError) -> Self {
        Self::NoMemory
    }
}
