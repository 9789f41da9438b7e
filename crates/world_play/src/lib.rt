//! A world that is played: a server, a gateway and clients over hosts in memory, and packets that come as often, and as late, as the events say.
//!
//! Start at [`play`]. Each call of a party (`serving`, `passing`, `clients`) is a step of the relation of `dots_world`, and `played` puts them together.
//!
//! [`run_world`] plays a world whose events are draws from a seed, and reports it: `specs/Drawing.antt` has the events of a seed, and
//! `specs/Running.antt` a run by them.
#![tactic(auto)]

mod askable;
mod asking;
mod asks;
mod clients;
mod drawing;
mod handing;
pub mod laws;
mod parties;
mod passing;
mod plan;
mod played;
mod playing;
mod possible;
mod report;
mod run_plan;
mod run_playing;
mod running;
mod sending;
mod serving;
mod words;

pub use asks::ask_for;
pub use parties::Parties;
pub use passing::GatewaySide;
pub use plan::{ClientList, WorldPlan};
pub use played::Played;
pub use playing::play;
pub use run_plan::world_plan;
pub use running::{run_world, world_report};
pub use serving::ServerSide;
