//! The live mitigations of all domains, with the times at which they are over.
//!
//! [`LiveMitigations`] represents a history at a time (`specs/LiveValues`): of each domain it keeps what the entries of that
//! domain come to, and no other entries. The contract of each call is said for every history that it represents. `Ends`
//! says at which second a mitigation is over, `Lives` and `LiveViews` of `conflict_rules` what is read; `Rows` and `LiveValues` have the tables.
//! Only [`LiveMitigations::new`] takes memory.
//!
//! Who keeps more by the live mitigations, as rows of filters, learns of each that goes before it goes:
//!
//! - Time: while [`LiveMitigations::next_due`] answers a domain, those of its [`LiveMitigations::rows`] that aren't
//!   [`Row::is_live`] at the new time go; take out what was kept by them, and then call [`LiveMitigations::expire`] for this
//!   domain. After that a client of which no row that filters is left in the domain is no longer mitigating. In the end
//!   [`LiveMitigations::tick`] moves the time. Between these calls what is kept `ComesTo` the histories that it stood for,
//!   and the rows of the other domains are as they were.
//! - An entry at the time: of a domain's rows those go that [`Row::is_ended_by`] it. A mitigation is handed over with
//!   [`LiveMitigations::put`], where [`LiveMitigations::has_room`]; any other entry is shown to [`LiveMitigations::note`], so
//!   that it can be moved elsewhere.
//!
//! Each entry stands in a slot of a journal. Of each live mitigation the slot of its entry is kept, and that of the entry that first
//! withdrew it, where it is terminating (`specs/Slots`): [`LiveMitigations::put_slots`] gives them, for they are the slots that a
//! compaction keeps, and [`LiveMitigations::renumber`] gives them new numbers.
#![tactic(auto)]

mod counting;
mod judging;
pub mod laws;
mod list;
mod live;
mod live_row;
mod reading;
mod row;
mod slots;
mod slotting;
mod tables;

pub use live::{LiveMitigations, puts};
pub use live_row::LiveRow;
pub use reading::{MitigationRow, Mitigations};
pub use row::Row;
pub use slots::MitigationSlots;
