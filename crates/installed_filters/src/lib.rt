//! The rows that filter, in their order, as mitigations and access lists come and go.
//!
//! An [`InstalledFilters`] keeps a filter table and gives each row a place behind all others, so that the rows stand in order of
//! the entries that they come from. Contracts see two lists of rows (`specs/Filters`), and each call says what it makes of them.
//! `specs/HistoryRows` says when they are the rows that a history comes to at a time: [`InstalledFilters::put`],
//! [`InstalledFilters::write`] and [`InstalledFilters::lose`] keep them so with one more entry. When time moves,
//! [`InstalledFilters::retain_live`] takes those of one domain out whose mitigations are over.
//!
//! A mitigation that waits for a lost signal has its rows from the beginning, and they are active only while the signal is lost
//! (RFC 9132, section 4.4.1: `trigger-mitigation`). Who is lost is asked of a `HeldResources`.
//!
//! The copies that the rows of an entry need are made before, by [`Staged::of`]. [`InstalledFilters::install`] makes the rows of a mitigation
//! that is live already. After [`InstalledFilters::new`] no other call takes memory.
#![tactic(auto)]

mod filters;
mod installing;
mod lists;
mod losses;
mod mitigations;
mod placing;
mod staged;
mod working;

pub use filters::InstalledFilters;
pub use staged::Staged;
pub use working::is_mitigating;
