//! Sessions of the signal channel: their configuration and their heartbeats (RFC 9132, sections 4.5 and 4.7).
//!
//! - [`negotiate`] judges the values that a client asks for, and answers the configuration that they make.
//! - [`Sessions`] keeps when each peer of the settings was heard and sent a heartbeat, and the Message IDs of the messages that begin
//!   here. At a tick its caller asks [`Sessions::next_lost`] until None, or gives the peer at each place its turn by
//!   [`Sessions::turn_at`], and then asks [`Sessions::next_beat`] until None. Contracts see it
//!   as a list with one row for each peer, in the order of the settings. What a peer's interval is comes from a [`Configs`], a trait that
//!   whoever keeps the configurations implements.
//!
//! A [`Watch`] is the observers of a server beside its sessions: notifications and heartbeats take the Message IDs of one count. After an event
//! [`notify`] notifies each observer that is due of what there is to see (RFC 7641, section 4.2); what that is, and the bodies, come from a
//! [`ViewBodies`], a trait that whoever keeps the mitigations implements. At a tick [`beat`] sends the heartbeats that are due (RFC 9132, section
//! 4.7). Both send through any host, and only [`notify`] takes memory (`specs/Notifying.antt`, `specs/Beats.antt`, [`notice_laws`]).
//!
//! Neither knows a clock or a socket: times are handed in, in seconds. Of sessions only [`Sessions::new`] takes memory.
//!
//! Start reading at `specs/Ranges.antt` and `specs/Beating.antt`; [`laws`] has what they come to.
#![tactic(auto)]

mod beating;
mod configs;
mod contact;
pub mod laws;
mod negotiating;
pub mod notice_laws;
mod notices;
mod notifying;
mod sending;
mod sessions;
mod setting;
mod view_bodies;
mod watch;

pub use beating::beat;
pub use configs::Configs;
pub use contact::{Beat, Contact, PeerContact, Session};
pub use negotiating::{ConfigFault, negotiate};
pub use notices::{Front, numbered_content};
pub use notifying::notify;
pub use sending::send_to;
pub use sessions::Sessions;
pub use setting::Setting;
pub use view_bodies::ViewBodies;
pub use watch::Watch;
