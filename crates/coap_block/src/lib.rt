//! Long answers in blocks (RFC 7959, Block2), as values and for any server over a host.
//!
//! A [`BlockOption`] is the value of a Block2 option, and [`Cutting`] what is known between datagrams: the GET whose reply
//! is awaited, the bodies that are stored, and what is observed. [`Cutting::see`] takes the option off a request and
//! [`Cutting::reply`] cuts the reply, or a notification. Memory is taken where a [`Cutting`] is made, where a body is stored
//! and where an observer is noted.
//!
//! A [`BlockHost`] is a host around a host. Those above it are handed requests without Block2 and send whole replies; what
//! leaves is cut. `specs/Around.antt` says how the acts of the two hosts stand to each other, and [`host_laws`] what follows.
//!
//! Read `specs/Blocks.antt` first.
#![tactic(auto)]

mod asks;
mod awaiting;
mod block;
mod cut;
mod cutting;
mod host;
pub mod host_laws;
pub mod laws;
mod noticing;
mod observed;
mod replying;
mod room;
mod seeing;
mod spelling;
mod stored;

pub use asks::Asks;
pub use block::{BlockOption, Uint};
pub use cutting::{Cutting, MOST};
pub use host::BlockHost;
pub use observed::{MAX_OBSERVED, ObservedRequest};
pub use replying::MAX_STORED;
pub use room::Room;
pub use spelling::Which;
pub use stored::StoredBody;
