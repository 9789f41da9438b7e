//! The open connections of a server, with what is buffered of each.
//!
//! A [`StreamTable`] has a row for each client peer of the settings, in their order, and at most two connections in each.
//! [`StreamTable::open`] takes a connection or refuses it, [`StreamTable::take`] takes bytes that came of one, and
//! [`StreamTable::forget`] lets one go. [`StreamTable::place`] finds a connection by its number; at the place [`StreamTable::stream`]
//! lends what is buffered, for a reader of requests, and [`StreamTable::discard`] drops the bytes of a request that is answered.
//!
//! What buffers the bytes is any [`Buffers`]. Only [`StreamTable::new`] takes memory, that of two streams for each client peer: a connection
//! that is opened finds its stream made.
//!
//! [`laws`] say that each row is of a client. Contracts see a table as the list of its rows. Start reading at `specs/Lines.antt`.
#![tactic(auto)]

mod buffers;
pub mod laws;
mod numbers;
mod place;
mod refused;
mod row;
mod seat;
mod table;

pub use buffers::Buffers;
pub use place::LinePlace;
pub use refused::Refused;
pub use table::StreamTable;
