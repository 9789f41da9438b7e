//! The journal of a server: its accepted entries on a disk that may stop at any moment.
//!
//! A [`Journal`] keeps one record of each entry in a slot of the disk. Whenever a crash comes, what is left on the disk
//! holds the entries from before the call, or those after it, and [`Journal::recover`] answers them. Read `specs/DiskEntries.antt`
//! first, then [`Journal`]; `specs/Refused.antt` says why a disk isn't recovered, `Kept` when a
//! disk holds what is left of a history, and `Untaken` why the entries of a disk are no history.
//!
//! The record of an entry is the bytes by which the journal keeps it, in both formats: `specs/Layout` says them, field by field, `specs/Values`
//! what the types of its fields say, and `specs/Records` which bytes are the record of an entry and at which place no record can go on. In each
//! format an entry that is within bounds has one record, and no other entry has any. The record of the second format ends with a seal, and is
//! what the upgrade of the first one's comes to.
#![tactic(auto)]

mod addresses;
mod changes;
mod entries;
mod fault;
mod journal;
pub mod laws;
mod lists;
mod opening;
mod reader;
mod reading;
mod record_fault;
pub mod record_laws;
mod record_reading;
mod room;
mod size;
mod writer;
mod writing;
mod written_changes;
mod written_lists;

pub use entries::EntryList;
pub use fault::JournalFault;
pub use journal::Journal;
pub use record_fault::EntryFault;
pub use record_reading::entry_of;
pub use room::RecordRoom;
pub use size::{bytes_needed, slots};
pub use slot_store::DiskFault;
pub use writer::MAX_RECORD;
pub use writing::{record_into, record_len};
