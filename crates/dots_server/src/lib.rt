//! The server: what it decides on an event, what it keeps, and what it sends.
//!
//! Start at [`Server`]. A datagram's bytes become what was received (`receiving`), that becomes a verdict, which is a value
//! (`deciding`, `mitigations`, `configuring`, `remembered_replies`), and one function carries a verdict out. What the server keeps represents a state of the machine
//! of `dots_machine` (`specs/ServerValues.antt`), and each call of [`Server::handle`] is one of its steps. Where a message of a client can be read whose
//! signal was lost, it is kept first that this is back; and at a tick each peer has its turn, in which a signal is lost for which a mitigation waits
//! (`signals`). Each of these entries is on the disk before anything is sent. Then the heartbeats that are due are sent (`beating`). A
//! client has two connections at most (`connections`), and what comes on one is answered request by request, each in a turn of its own (`pieces`, over
//! `dots_data`). The report has a line for each row of a mitigation that filters, and one for each sample packet (`report`), gathered in a block on the way to its sink
//! (`gathering`). At each tick the server is shown to an [`Onlooker`] (`onlooking`). Each reply of the signal channel is made in `replies`, with what an entry keeps of the one that granted it (`entries`).
#![tactic(auto)]

mod beating;
mod configurations;
mod configuring;
mod connections;
mod deciding;
mod entries;
mod events;
mod gathering;
mod long_replies;
mod mitigations;
mod naming;
mod observing;
mod onlooking;
mod pieces;
mod receiving;
mod remembered_replies;
mod replies;
mod report;
mod server;
mod signals;
mod verdict;

pub use events::take_events;
pub use onlooking::{Nobody, Onlooker};
pub use server::{ReportFault, Server};
