//! IP addresses and prefixes, port ranges, and the text of prefixes.
//!
//! The words are those of RFC 4632, section 3.1 and RFC 4291, section 2.3 for prefixes, of RFC 4291, section 2.2 for
//! the text that [`parse_prefix`] and [`parse_address`] read, and of RFC 5952, section 4 for the text that [`write_prefix`] writes.
//! Contracts see a [`Prefix`] as a `PrefixValue`: a family, a number whose host bits are zero, and a length.
//! No call takes memory.
//!
//! Start reading at `specs/Prefix.antt`, where [`inside`], [`meets`] and [`holds`] are defined by whole parts of
//! division, and `specs/PrefixText.antt`, which has the grammar. `specs/PrefixReader.antt` has the prefix that a text writes as
//! a value. What these come to is said by the contracts in [`laws`].
#![tactic(auto)]

mod address;
mod bad_prefix;
mod containment;
mod family;
pub mod laws;
mod parse;
mod port_range;
mod prefix;
mod put;
mod write;

pub use address::Addr;
pub use bad_prefix::BadPrefix;
pub use containment::{holds, inside, inside_any, meets};
pub use family::Family;
pub use parse::{parse_address, parse_prefix, split_at_last_slash};
pub use port_range::PortRange;
pub use prefix::Prefix;
pub use put::MAX_PREFIX_TEXT;
pub use write::write_prefix;
