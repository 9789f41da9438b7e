//! The command of a server-domain gateway, `gateway SETTINGS HOSTFILE`, over any host (RFC 8811, section 2.2.3).
//!
//! [`run_gateway_command`] does what the words ask for, and [`gateway_over`] is the whole run: it reads the settings, runs the gateway
//! (`gateway_agent`) until the end, and writes how many exchanges wait then. Where the settings or the disk are refused the line of that is
//! written, which is a server's.
//!
//! Start reading at `specs/Running.antt`, which has what a run has done by its ending, and which settings are at fault for a gateway.
//! `specs/Outcomes.antt` has what a status says. What the gateway itself does is in `gateway_agent`, and what stands outside a run, the
//! statuses and the lines of a disk that isn't recovered are in `dots_machine`.
#![tactic(auto)]

mod command;
mod ending;
mod report;
mod running;
mod words;

pub use command::run_gateway_command;
pub use ending::CommandEnding;
pub use running::gateway_over;
pub use words::{gateway_names, is_gateway};
