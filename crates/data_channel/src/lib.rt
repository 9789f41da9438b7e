//! Requests of the data channel, and the bodies of its replies (RFC 8783).
//!
//! [`read_rest`] answers what a message of HTTP asks: one request, or the first refusal that applies, in the order path, names,
//! query, method, media type, JSON, body. [`RestReject`] says which status each of them has. [`body_text`] gives the body of a
//! reply to a GET, [`location_of`] the path of what a request is about, and [`Allow::text`] the methods of a resource. The last two
//! hold no byte that ends a line, and are as short as the head of a reply wants them (`http_cut`). Nothing here keeps anything, so
//! whether a resource is there, and what it costs to make it, is for the caller.
//!
//! The resources, their methods and the bodies are those of RFC 8783, sections 4.3, 5, 6 and 7; paths, queries, media types and
//! Location are those of RESTCONF (RFC 8040, sections 3 and 4). JSON is what the reader of `serde_json` reads; aliases and access
//! lists in it are those of `list_json`.
//!
//! In which order a request is judged, and nothing else, is in `specs/Judging.antt`: [`judge`] answers what is decided on a request of this
//! [`RestVerb`] and [`RestKind`] by what is known of it, [`RestFacts`]: one [`RestDecision`], with its status and whether something changes.
//! What can't be read as a request has the status that [`status_of_reject`] says. [`verb_of`], [`kind_of`], [`cuid_of`] and [`name_of`] say what
//! a request does, and to which resource.
//!
//! Start reading at `specs/Rest.antt`, which says what a message means. `specs/Paths.antt` is the grammar of targets,
//! `specs/Heads.antt` what is judged before the body, `specs/Bodies.antt` what a body makes of a request, and `specs/Replies.antt`
//! what replies hold. [`laws`] says that a message means one thing, and that what it asks is within bounds.
#![tactic(auto)]

mod asking;
mod bodies;
mod decision;
mod facts;
mod heads;
mod judging;
pub mod laws;
mod location;
mod place;
mod reading;
mod reject;
mod replies;
mod request;

pub use asking::{RestKind, RestVerb, cuid_of, kind_of, name_of, verb_of};
pub use bodies::{acl_body, alias_body};
pub use decision::{RestDecision, status_of_reject};
pub use facts::RestFacts;
pub use judging::judge;
pub use location::location_of;
pub use reading::read_rest;
pub use reject::{Allow, RestReject};
pub use replies::{AclList, AliasList, RestBody, body_text};
pub use request::RestRequest;
