//! Data items of CBOR (RFC 8949) in each of their spellings.
#![tactic(auto)]

mod argument;
mod fault;
mod gathering;
mod head;
mod head_bytes;
mod item;
mod law;
mod major;
mod order;
mod reading;
mod strings;
mod validity;
mod writing;

pub use fault::CborFault;
pub use item::{Item, ItemList, PairList};
pub use law::{encoding_spells, one_reading, one_spelling};
pub use reading::{MAX_DEPTH, decode};
pub use validity::is_valid;
pub use writing::encode;
