//! What a DOTS server decides on a request of the data channel, over the registry of what it has accepted (RFC 8783, sections 5 to 7).
//!
//! [`decide_rest`] reads a message of HTTP and answers it: by the rules, which are definitions of `rest_answers` over what the history comes
//! to, or by 500 where memory ran out. Nothing is changed here: an accepted change is answered as its entry, beside which stands what it takes
//! to carry it out without memory, and which can be carried out (`specs/Accepting.antt`). A registry takes whatever the rules accept, and stays
//! in use ([`laws`]).
//!
//! [`front`] does the same for what stands at the front of a connection, whose bytes a [`RestStream`] holds; [`caller_at`] says who asks on it.
#![tactic(auto)]

mod accepting;
mod bodies;
mod copies;
mod deciding;
mod desk;
mod facts;
mod fronts;
pub mod laws;
mod stream;

pub use deciding::decide_rest;
pub use desk::Desk;
pub use fronts::{caller_at, front};
pub use stream::RestStream;
