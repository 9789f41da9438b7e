//! Lifetimes that are granted, and the times at which what was granted is over.
//!
//! [`grant`] turns the lifetime that a mitigation request asks for into the granted one (RFC 9132, section 4.4.1).
//! [`Deadlines`] keeps a time for each of some keys and hands out the keys that are due, the one with the least time
//! first. Contracts see it as `Times`: a finite map from keys to times, and its room. The entries stand in a balanced
//! tree, of which no public contract speaks. Only [`Deadlines::new`] takes memory.
//!
//! Start reading at `specs/Lifetime.antt` and `specs/Times.antt`. What the count of keys comes to is said in [`laws`].
#![tactic(auto)]

mod deadlines;
pub mod laws;
mod lifetime;
mod tree;

pub use deadlines::Deadlines;
pub use lifetime::grant;
