//! The filters of a table as a script for `nft -f`.
//!
//! [`nft_script`] writes what `specs/Script.antt` defines: a script that replaces the filters of the table `inet dots` in one transaction.
//! A row and a list come with the seconds that are left of them ([`TimedRow`], [`TimedList`]), so that each filter ends by itself where
//! no later script comes. `specs/Falling.antt` has the order of the rows, and [`laws`] that the first rule of that order decides as the
//! table does. Nothing is read or written here but the text.
#![tactic(auto)]

mod entries;
mod falling;
mod head;
pub mod laws;
mod parts;
mod rows;
mod script;
mod timed;

pub use script::nft_script;
pub use timed::{TimedList, TimedRow};
