//! The registry: the tables that represent a history at a time.
//!
//! A [`Registry`] keeps no old entries. Its value is what a history comes to, as far as its tables show it (`specs/RegistryValues`),
//! and the contract of each call is said for every history that it represents: [`Registry::apply`] makes it represent the
//! history with one more entry, [`Registry::tick`] for the same history at a later time, and each reader answers what the
//! definitions of `dots_history` say of that history at that time. Only [`Registry::new`], [`Registry::stage`],
//! [`Registry::judge_request`] and [`Registry::judge_put`] take memory, and [`Ledger::begin`].
//!
//! The entries of a history may stand in slots of a journal (`specs/Filed`). [`Registry::kept`] gives the slots of those that a
//! compaction keeps, and after [`Registry::moved`] what it kept stands in the first slots. Each slot is kept where what its entry came
//! to is kept: with a live mitigation, with a thing that is held, with a message that is remembered; and that of the last entry in the
//! registry itself. [`slot_laws`] joins them.
//!
//! A [`Ledger`] has a journal and a registry: what a server has accepted, on its disk and in the tables that represent it. [`Ledger::begin`]
//! recovers the entries of a disk, and makes the tables anew of them (`specs/Beginning`): the entries are taken in their order into tables
//! without rows of mitigations (`specs/Gathering`), and of what is live in the end the rows are made once. [`Ledger::accept`] appends an entry to the journal, and
//! then takes it into the tables; where no slot is free it compacts the journal before. So the tables never have what the disk doesn't. Whenever
//! a crash comes, what is left on the disk holds entries with the view of the history, or of the history with the entry (`specs/Crashes`), and
//! once `accept` has answered, of the latter alone.
//!
//! It joins the tables of `live_mitigations`, `held_resources`, `coap_exchange` and `installed_filters`. The settings of which it is
//! (`IsOf`) stay with the caller. [`laws`] says that it also represents what a compaction keeps, and that nothing of it is left
//! open. [`configuration_laws`] says how what a peer configures of its session goes into a history, and of which domain it is.
#![tactic(auto)]

mod awaited;
mod beginning;
mod compacting;
pub mod configuration_laws;
mod expiring;
mod fitting;
mod gathering;
pub mod judgement_laws;
mod judging;
pub mod laws;
mod ledger;
mod reading;
mod registry;
pub mod slot_laws;
mod statuses;
mod taking;
mod viewing;

pub use ledger::Ledger;
pub use registry::Registry;
pub use statuses::StatusViews;
