//! The table of the rows that filter: the rows of mitigations and of access lists, in their order.
//!
//! Contracts see a [`FilterTable`] as a `TableValue`: the rows of mitigations with their slots and places, the rows of access lists
//! with their places, and how many of each there may be. Each call says what the two lists are after it, and [`FilterTable::fate`]
//! is the definition of `acl_lists` on them. Only [`FilterTable::new`] and [`Ranking::new`] take memory.
//!
//! Rows of mitigations are stored by slot. Beside them stand their turns in order of place, and their ranks ([`Ranking`])
//! by prefix and by mitigation. So what is moved where a row comes or goes is small numbers, and the rows of a mitigation are
//! searched for by its domain and mid. Those that come at once ([`FilterTable::install_all`]) are ranked in one pass. Rows of
//! access lists are few, and each call on them passes over all.
//!
//! A [`Rank`] is what the order of prefixes looks at: family, length and number, each with the slot that it stands for. Contracts see a
//! [`Ranking`] as the list of its ranks, and a [`Covering`] as the slots of those whose prefix has an address. Beside the ranks stand their
//! numbers and slots, and how many ranks each length has, so a search compares plain numbers and looks at no length without ranks. Ranks of
//! places that follow one another go in one pass ([`Ranking::keep_outside`]), in which each of the others is moved once, and so do ranks that
//! come ([`Ranking::put_all`]).
//!
//! Start reading at `specs/Table.antt` and `specs/TableRows.antt`; `specs/Rows.antt` has how the rows are stored, `specs/Ranks.antt` the order
//! of prefixes, and `specs/Covers.antt` what an address is covered by.
#![tactic(auto)]

mod acls;
mod blocks;
mod covering;
mod fates;
mod finding;
mod greater;
pub mod laws;
mod level;
mod marks;
mod merging;
mod placed;
mod rank;
pub mod rank_laws;
mod ranking;
mod rows;
mod scrubs;
mod sifting;
mod slot_rows;
mod storing;
mod table;
mod turn;

pub use covering::Covering;
pub use placed::PlacedAcl;
pub use rank::{Rank, kind_of};
pub use ranking::Ranking;
pub use rows::{AclRows, ScrubRows};
pub use table::FilterTable;
