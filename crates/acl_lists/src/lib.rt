//! What the data channel holds, as values: what a request names as its targets, aliases, access lists, and the
//! packets that an access list is asked about.
//!
//! [`Asked`] is the targets of a mitigation request (RFC 9132, section 4.4.1) or of an alias (RFC 8783, section
//! 6.1), [`Alias`] an alias and [`Acl`] an access list with its entries, [`Ace`] (RFC 8783, section 7.2).
//! When an entry matches a packet is defined in `specs/Matching.antt`, and [`ace_matches`] is by it.
//!
//! The rows of a filter table are plain values, too: a [`ScrubRow`] is one prefix of a mitigation's target, an [`AclRow`] an access list, each
//! with its client and whether it is active. What becomes of a packet is defined in `specs/Fates.antt`, by lists of rows in their order and by
//! nothing else; [`fate_by_rows`] is the plain program by that definition.
//!
//! The `copy` of each type answers an equal value, or `NoMemory`, and changes nothing.
#![tactic(auto)]

mod ace;
mod acl;
mod alias;
mod asked;
mod deciding;
mod limits;
mod matching;
mod packet;
mod port_test;
mod row_matching;
mod rows;

pub use ace::Ace;
pub use acl::{AceList, Acl, Activation};
pub use alias::Alias;
pub use asked::{Asked, ByteList, NameList, PortList, PrefixList};
pub use deciding::{Fate, decision, fate_by_rows, greatest_from};
pub use limits::{MAX_ACES, MAX_ITEMS, MAX_NAMES, MAX_RESOLVED, MAX_TARGETS};
pub use matching::ace_matches;
pub use packet::Packet;
pub use port_test::PortTest;
pub use row_matching::is_scrubbed;
pub use rows::{AclRow, ScrubRow};
