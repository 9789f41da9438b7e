//! What is held of clients and peers: the registrations of clients with their aliases and access lists, the session
//! configurations of peers, and which client peers have lost their signal.
//!
//! A [`HeldResources`] represents histories (`specs/Tables`, `Represents`): what they leave held, by the definitions of
//! `dots_history`, is in its tables. [`HeldResources::apply`] makes it represent the history with one more entry, and each reader
//! answers what the definitions of `Held` of `dots_history`, and `specs/Numbers`, say of the history. What a client holds depends on its own entries alone, and
//! whether a signal is lost on those of its peer and domain, which [`laws`] says. Only [`HeldResources::new`] takes memory.
//!
//! Each entry stands in a slot of a journal. Of all that is held the slot of the entry is kept that wrote it, in a row that says what
//! undoes it (`specs/Rows`): [`HeldResources::put_slots`] gives them, for they are the slots that a compaction keeps, and
//! [`HeldResources::renumber`] gives them new numbers.
//!
//! A call takes time in the clients of one domain, of which there are at most 8, and in what one client holds; an entry that
//! configures a session, or says that a signal is lost or back, takes time in the peers of the settings, and so does asking for these.
#![tactic(auto)]

mod configurations;
mod domain_clients;
mod kind;
pub mod laws;
mod name;
mod reading;
mod registered_client;
mod resources;
mod rooms;
mod row;
mod rows;
mod signals;
mod size;

pub use kind::RoomKind;
pub use name::ShortName;
pub use resources::HeldResources;
pub use row::{HeldName, HeldSlot};
