//! What an agent keeps between messages of the signal channel: replies to messages that may be repeated, and messages of its own that
//! wait for an acknowledgement.
//!
//! - [`Pairs`] are the peers of the settings with the domains that they may act for, each found at once.
//! - [`Remembered`] keeps the last accepted messages of each peer and domain with their replies (RFC 7252, section 4.5).
//!   Contracts see it as its rings, one for each peer and domain.
//! - [`Sender`] keeps confirmable messages until they are acknowledged or given up (RFC 7252, section 4.2).
//!
//! Neither knows a clock or a socket: times and random words are handed in. Only their calls of the name `new` take memory.
//!
//! Start reading at `specs/Rings.antt` and `specs/Resending.antt`; [`laws`] has what they come to, and how the rings represent a
//! history.
#![tactic(auto)]

pub mod laws;
mod message;
mod pair;
mod pairs;
mod remembered;
mod ring;
mod sender;
mod sent;

pub use message::Message;
pub use pair::Pair;
pub use pairs::Pairs;
pub use remembered::Remembered;
pub use ring::Ring;
pub use sender::{Resend, SendFault, Sender, Turn};
pub use sent::Sent;
