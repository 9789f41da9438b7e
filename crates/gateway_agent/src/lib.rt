//! A server-domain gateway of the signal channel with its store, over a host (RFC 8811, section 2.2.3).
//!
//! [`run_gateway`] opens the store on the disk of the host and takes one event after the other until the end. The gateway (`dots_gateway`) says
//! what is to be sent, and a [`Store`] has a new exchange on the disk before its first packet is sent. So after a crash no number
//! is used again, and an answer finds its client.
//!
//! A [`Store`] keeps each exchange as an entry of a journal before the request is passed on first. Whenever a crash comes, what is left on the
//! disk holds each exchange that was kept and is at most 246 seconds old, and the last number. [`Store::open`] reads the exchanges of a disk,
//! and [`Store::keep`] adds one; where no slot is free it lets those go that are older. `specs/Forms.antt` has an exchange as an entry,
//! `specs/Exchanges.antt` the exchanges of a store in their order, `specs/Refusing.antt` why no store opens on a disk, `specs/Crashes.antt` what
//! a crash may leave, and [`store_laws`] what they come to.
//!
//! Read `specs/Passing.antt` first, which has the gateway as a machine over events, then `specs/Turning.antt`, which says what an event does to
//! the disk and to the wire, `specs/Surviving.antt`, which says what a crash may leave, and `specs/Running.antt`.
#![tactic(auto)]

mod beginning;
mod form;
mod giving;
mod keeping;
pub mod laws;
mod opening;
mod order;
mod refusing;
mod replies;
mod running;
mod stopping;
mod store;
pub mod store_laws;
mod taking;
mod turns;

pub use beginning::{begin, restart};
pub use form::EXCHANGE_DOMAIN;
pub use opening::ExchangeList;
pub use order::MAX_AGE;
pub use running::{run_gateway, take_events};
pub use slot_journal::{DiskFault, JournalFault};
pub use stopping::{GatewayEnding, GatewayHalt};
pub use store::Store;
pub use turns::{take, take_telling};
