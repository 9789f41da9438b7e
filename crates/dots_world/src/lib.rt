//! The world: clients, a gateway and a server over a network that loses, repeats and reorders what is sent.
//!
//! Read `specs/Plans.antt` first, which has the parties, then `specs/Worlds.antt`: a world, an event of it, and a run over any list of events,
//! with restarts of the server and of the gateway among them. The server is any machine over the events of a wire there. `specs/Granted.antt` says
//! what a ledger shows and what an entry carries, `specs/Once.antt` when an ask has one entry, and `specs/OneWorld.antt` when the events decide a
//! world. Each law is the contract of a function whose body does nothing, with the machine of `dots_machine` as the server:
//! [`ledgers_are_granted`], [`entries_are_asked`], [`an_ask_has_one_entry`], [`acts_are_a_run`] and [`one_world`].
//!
//! They rest on laws of the machine beside its clients, which are contracts of the same kind: [`adds`] (what a datagram adds to the history, in
//! the words of `specs/Adding.antt`), [`grants`] (what stands behind a grant that is sent, `Granting`), [`reads`] (what a message that a client
//! writes is received as, `ReceivedAs`) and [`forwards`] (what is read of a request that a gateway passes on, `Forwarding`).
#![tactic(auto)]

mod event;
mod law;
mod laws;
mod party;
mod plan;

pub use event::WorldEvent;
pub use law::{adds, forwards, grants, reads};
pub use laws::{
    acts_are_a_run, an_ask_has_one_entry, entries_are_asked, ledgers_are_granted, one_world,
};
pub use party::{Packet, Party};
pub use plan::PlanClient;
