//! A client of the signal channel (RFC 9132, section 4.4): it asks for mitigations, repeats what isn't answered, and keeps a ledger of
//! what was granted.
//!
//! A [`ClientCore`] makes no call of a socket or a clock. [`ClientCore::ask`] takes an [`Ask`], [`ClientCore::tick`] hands out the next
//! message that is due, and [`ClientCore::got`] takes a datagram of the server and says what was [`Heard`]. [`cuid_of`] is the name that
//! a client has by its key.
//!
//! [`asking`] writes the request for a mitigation and [`withdrawing`] its withdrawal (RFC 9132, sections 4.4.1 and 4.4.4). Each is a message of
//! its own number: its token is the number's 8 bytes, and its Message ID is the number modulo 65,536. [`granted_in`] reads the body of a grant.
//! `specs/Requests.antt` has the messages, and [`message_laws`] what a server reads of them: what was asked.
//!
//! Start reading at `specs/Client.antt`, which has the client as a value and what an ask and the time do to it, and at
//! `specs/Receiving.antt`, which says what a datagram does.
#![tactic(auto)]

mod answers;
mod ask;
mod beats;
mod client;
mod cuid;
mod granted;
mod grants;
mod heard;
pub mod laws;
mod ledger;
pub mod message_laws;
mod options;
mod request;
mod requests;
mod short;
mod waiting;
mod writing;

pub use ask::{Ask, AskFault};
pub use client::{ClientCore, MAX_MID, MAX_ROOM};
pub use cuid::cuid_of;
pub use granted::Granted;
pub use grants::granted_in;
pub use heard::Heard;
pub use options::OptionList;
pub use request::Request;
pub use requests::{asking, withdrawing};
pub use short::{MAX_SHORT, Short};
