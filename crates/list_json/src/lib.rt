//! Aliases and access lists as JSON.
//!
//! [`alias_of`] and [`acl_of`] read a value of `serde_json`, and answer the alias or the access list that it is, or its first
//! fault. [`alias_value`] and [`acl_value`] give the value that one is printed as: the members that say something, in the bytewise
//! order of their names. One that was read is within bounds, and what is printed of it is read as the same ([`laws`]).
//!
//! The members and their values are those of RFC 8783 (aliases in section 6.1, access lists in section 7.2), the latter after
//! RFC 8519, section 4; names, prefixes and numbers are written as RFC 7951 and RFC 6991 say. Of them those are served that an
//! [`Alias`](acl_lists::Alias) or an [`Acl`](acl_lists::Acl) can hold. An object that has any other member is refused.
//!
//! Start reading at `specs/Aliases.antt` and `specs/Lists.antt`, which say member by member what a value is and in which order its
//! faults come. `specs/AliasPrinting.antt` and `specs/ListPrinting.antt` say what is printed. [`check_members`], [`name_of`] and
//! [`name_value`] serve the bodies that an alias or a list stands in.
//!
//! [`read_json`] gives the value that `serde_json` reads from the same bytes, and refuses what it refuses, in a room that is kept from one text
//! to the next. `Value::from_slice` makes a room of 16 kilobytes for each text, which takes longer than to read a short one.
#![tactic(auto)]

mod alias_members;
mod alias_reading;
mod alias_writing;
mod fault;
mod json_fault;
pub mod laws;
mod list_reading;
mod list_writing;
mod matches;
mod number;
mod operator;
mod reading;
mod shape;
mod values;
mod writing;

pub use alias_reading::alias_of;
pub use alias_writing::alias_value;
pub use fault::{ListFault, Member};
pub use json_fault::JsonFault;
pub use list_reading::acl_of;
pub use list_writing::acl_value;
pub use reading::{JsonRoom, read_json};
pub use shape::{Shape, check_members};
pub use values::name_of;
pub use writing::name_value;
