//! Histories: the accepted changes in order, and what they come to at a time.
//!
//! An [`Entry`] is one accepted [`Change`] with its time, its peer, its client, the message that asked for it and the
//! reply that it got. A history is a list of entries whose times don't fall. The definitions are in `specs/`, each
//! with the section of the standard that it comes from: `Entries` (what entries are to each other: of one client,
//! overlapping, ending, withdrawing, undoing), `Histories` (what a list of entries comes to at a time), `Places` (which
//! mitigations are live, in the words of a reader, by places in the list) and `Rows` (the rows of the filter table, and
//! the fate of a packet). `Bounds` says which entries are within bounds. What the definitions come to is said by the
//! contracts in [`laws`].
//!
//! What time, one more entry and a list of turns make of a view is in `specs/Views` and `Turns`, what is read of a history in
//! `HistoryReading`, how much it may come to in `Capacities`, which entries fit and when a history is calm by the settings of a server in `Fits`
//! and `Calm`, what tables cite in `Tables` and `KeptPlaces`, what is left held of a client in `Held`, rows inside domains in `Containing`, and
//! the first entry that ends a mitigation in `Firsts`. Each function in [`view_laws`], [`calm`] and [`tables`] has a law of these as its
//! contract, and its body does nothing.
//!
//! The programs here are plain and slow: each scans the entries, and its contract is the definition.
#![tactic(auto)]

mod admission;
mod bounds;
pub mod calm;
mod change;
mod config;
mod entry;
mod holding;
pub mod laws;
mod lives;
mod overlap;
mod put;
mod reach;
mod relations;
mod reply;
mod settings_own;
mod slots;
mod status;
pub mod tables;
pub mod view_laws;
mod views;

pub use admission::{fits, is_alias, is_calm, is_list, is_of_mitigations, is_registration, joins};
pub use bounds::{are_few, is_within_bounds};
pub use change::Change;
pub use config::{Config, Values};
pub use entry::{Entry, MessageKey};
pub use holding::{
    is_configuration, is_deregister, is_loss, is_lost, is_still_held, undoes_acl, undoes_alias,
};
pub use lives::{is_granted_at, is_live, is_live_after};
pub use overlap::{meets_some, overlaps, share_name, some_target_meets};
pub use put::{Put, Target, TargetList};
pub use relations::{ends, is_same_client, is_signal, put_of, waits, withdrawn_mid};
pub use reply::{is_remembered, remembered};
pub use settings_own::{came_rightly, is_of_settings};
pub use slots::{SlotList, number_in};
pub use status::Status;
pub use views::{Mitigation, held, mitigations};
