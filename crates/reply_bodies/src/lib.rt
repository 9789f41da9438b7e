//! The bodies of replies of the signal channel (RFC 9132, sections 4.4 to 4.7 and 6).
//!
//! [`body_of`] spells the body of a [`Reply`]: a map of CBOR in its one deterministic encoding (RFC 8949, section 4.2.1), whose keys are
//! those of RFC 9132, section 6. The body of a heartbeat is the same in a request, so the heartbeats of a server are spelled here too.
//! [`request_body`] spells the body of a request for a mitigation, which has the same maps as the replies to it.
//!
//! Start reading at `specs/Replies.antt`, which has the tree of each reply; `specs/Mitigations.antt`, `specs/Conflicts.antt` and
//! `specs/Sessions.antt` have the maps inside, over `specs/Maps.antt`. `specs/Within.antt` says which fields can be encoded.
#![tactic(auto)]

mod conflict;
mod fields;
mod keys;
mod reply;
mod request;
mod scope;
mod session;
mod targets;

pub use conflict::{Conflict, ConflictCause};
pub use dots_keys::Content;
pub use reply::{Reply, body_of};
pub use request::request_body;
pub use scope::{MitigationView, ViewList};
pub use session::{Current, SessionView};
