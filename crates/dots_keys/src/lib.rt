//! What a request of the signal channel asks (RFC 9132, sections 4.4 to 4.7 and 6).
//!
//! [`read_request`] turns a readable CoAP message into a [`Request`], or into the first [`Reject`] that applies: the
//! options (RFC 7252, section 5.10), the path, the method, Hop-Limit and the parameters of the path, Accept, Content-Format
//! and the query, and then the body, a map of CBOR whose keys are those of RFC 9132, section 6. The bodies of
//! replies are spelled by the crate `reply_bodies`.
//!
//! What stands before a body is read by [`read_head`]: the options, the path, the method, Hop-Limit and the parameters of the path, Accept,
//! Content-Format and the query. It can also be asked for by itself, by agents that look at less of a message or in another order:
//! [`resource_of`] reads the path, [`value_of`] an option that may stand once, and [`first_critical`] finds an option that isn't recognised.
//! A [`Reject`] has the code and the text of the reply that says so.
//!
//! What any party answers is here, too (RFC 7252, sections 4.2, 4.3 and 5.2): [`dismissed`] says what is done with a message that asks nothing,
//! an [`Exchange`] is what a reply takes from its request, a [`plain`] reply has a text or nothing, and one [`with_body`] has a body of CBOR.
//! Both are a [`ShortMessage`], which takes no memory. The definitions are in `specs/Exchanges.antt` and `specs/Replies.antt`.
//!
//! Start reading at `specs/Meaning.antt`, which says what a message means. It stands on `specs/Heads.antt`, which has the order of the checks
//! before the body, and on `specs/Keys.antt`, `specs/Fields.antt`, `specs/Mitigations.antt`, `specs/Configurations.antt` and
//! `specs/Heartbeats.antt` for bodies. Nothing is allocated before the body's turn.
#![tactic(auto)]

mod configuration;
mod dismissal;
mod dismissing;
mod exchange;
mod fields;
mod head;
pub mod head_laws;
mod head_request;
mod heartbeat;
mod keys;
pub mod laws;
mod mitigation;
mod numbers;
mod offer;
mod operation;
mod options;
mod path;
mod ports;
mod reading;
mod refusing;
mod reject;
mod replies;
mod request;
mod scope;
mod short_message;
mod targets;
mod wording;

pub use dismissal::Dismissal;
pub use dismissing::{dismissed, dismissed_unread, is_request, may_ask, rejected};
pub use exchange::Exchange;
pub use head::{Head, read_head};
pub use head_request::{Content, MitigationPath, Observe};
pub use operation::{Method, Operation, Parameters};
pub use options::{first_critical, next_value, option_number, value_of};
pub use path::{Resource, resource_of};
pub use reading::read_request;
pub use reject::{Cause, Reject};
pub use replies::{MAX_BODY, plain, rejection, reset, with_body};
pub use request::{ConfigBody, MitigationBody, Offer, Request};
pub use short_message::{MAX_SHORT, ShortMessage};
pub use wording::MAX_TEXT;
