//! Records in the slots of a disk that may stop at any moment.
//!
//! A disk has a header and two halves of slots. A record is written behind the closed gate of its slot, and the gate is
//! opened once the record is on the disk; so whenever a crash comes, the disk holds the records from before the call, or
//! those after it. The header says of each half in which format its records are spelled; a compaction writes the second.
//! Read `specs/Layout.antt` first, then [`SlotStore`].
//!
//! A record of the second format ends with a seal, eight bytes of a digest of all before them, so that bytes that were damaged are told from
//! bytes that were written. [`upgrade`] makes of a record of the first format, where it stands, that of the same entry in the second. It knows
//! where the number of the change stands, and nothing else of an entry. `specs/Formats.antt` says the bytes. Both formats are this server's own.
#![tactic(auto)]

mod copying;
mod fault;
mod format;
mod formatting;
mod found;
mod gates;
mod header;
mod laws;
mod layout;
mod opening;
mod sealing;
mod selecting;
mod sizing;
mod store;
mod upgrading;
mod wanted;

pub use fault::{DiskFault, OpenFault};
pub use format::{Format, format_byte};
pub use formatting::format_one;
pub use found::read_slot;
pub use gates::find_gate;
pub use laws::one_list;
pub use layout::{MAX_RECORD, SLOT};
pub use sealing::{SEAL, seal};
pub use store::SlotStore;
pub use upgrading::upgrade;
pub use wanted::Wanted;
