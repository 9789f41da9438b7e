//! Generated runs of a server, over a host in memory.
//!
//! Start at `specs/Events.antt`, which has the events that belong to a seed, over `specs/Draws.antt` and `specs/Requests.antt`.
//! [`loaded_host`] is a host to which they come.
#![tactic(auto)]

mod bodies;
mod counting;
mod draws;
mod events;
pub mod laws;
mod requests;
mod settings;

pub use counting::{is_served, report_of};
pub use draws::Draws;
pub use events::loaded_host;
pub use settings::load_settings;
