//! What comes and goes on a wire, counted.
//!
//! A [`TallyHost`] is a host around a host. It hands every call on unchanged and keeps a [`Tally`] of what came and what was sent: datagrams, and those
//! of strangers, connections, datagrams by the code of their message, replies on connections by their status, sends that were lost, and the time
//! beside the last event. Memory is taken where it is made, and for no call.
//!
//! Read `specs/Counting.antt` first: each count is how many of the calls have a property.
#![tactic(auto)]

mod calls;
mod counters;
mod host;
mod tally;

pub use host::TallyHost;
pub use tally::{CODES, STATUSES, STRANGERS, Tally};
