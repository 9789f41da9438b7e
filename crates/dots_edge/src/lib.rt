//! The host of real sockets, a real journal file and the clock.
//!
//! A host file says which. [`read_host_file`] reads it: `specs/HostLine.antt` has the forms of its lines, `specs/HostFile.antt` what the lines come
//! to, or the first fault, and [`complaint_about`] says of the line at fault which field is to be mended, and why (`specs/Complaints.antt`).
//! [`FileSocketHost`] opens what it names. Files for other programs are replaced as a whole ([`WholeFile`]). `docs/OPERATING.md` says for
//! an operator how it behaves.
//!
//! What a socket, a file or a clock does no contract can say. So of the host it is proved that it is safe, that it fails only where it
//! counts a fault, and what depends on the host file and on the calls alone: whose an address is, when a tick is due, when the end
//! comes, that times don't fall, and that no datagram or piece is longer than its room. An event is what a socket gave since, with its very
//! bytes, or a tick that is due (`specs/Came`). Which event comes when is for the tests (`worked_rows`).
//!
//! The sockets don't block. Readiness is told once, when it begins: a source that was told of has to be found empty before a wait tells
//! of it again. So the host waits only where each source was found empty, and else goes on: a tick that is due, the end of a stale
//! connection, a datagram, then one piece of each connection in turn. After 64 events at most it looks at the sockets without
//! waiting, and what came to the connections has a turn.
//!
//! What a socket doesn't take of a send on a connection is kept, at most 524,288 bytes of each. In a turn of its connection, and before more
//! is sent on it, what is kept is written on. Nothing is read from the connection before all is written. Where the server closes it over
//! what is kept, it lives until that is written, or until a new connection finds no place and this is the one that moved longest ago of
//! those that the server has closed.
//!
//! A server that speaks CoAP names of each datagram only the peer to which it goes. But an observer is an endpoint, which is an address
//! and a port (RFC 7641, section 4.1), and a peer may have many. [`Endpoints`] has those of one peer. It reads the header of each
//! datagram that comes and goes, and nothing else of it (`specs/Returns.antt`); [`laws`] has what it comes to over all that came and went.
//!
//! What a socket took is kept in a log that exists in proofs alone: the bytes that were sent on a connection are those that its socket took
//! and, behind them, those that are kept. That the socket got them is what `connection::write_once` says, and isn't proved.
#![tactic(auto)]

mod address;
mod answer;
mod calls;
mod complaint;
mod connection;
mod connections;
mod endpoint_text;
mod endpoints;
mod ends;
mod file_log;
mod file_socket_host;
mod found;
mod getter;
mod getters;
mod gone;
mod head;
mod host_fault;
mod host_line;
mod host_lines;
mod journal;
mod journal_file;
mod journal_reader;
pub mod laws;
mod listener;
mod passing;
mod peers;
mod place;
mod reading;
mod rest;
mod rooms;
mod seconds;
mod signal;
mod socket_log;
mod sockets;
mod waiting;
mod way;
mod whole_file;

pub use complaint::{Complaint, Reason, complaint_about};
pub use endpoints::Endpoints;
pub use file_log::FileLog;
pub use file_socket_host::FileSocketHost;
pub use found::{events_in, figures_in, filters_in, filters_nft_in, journal_in, reserve_in};
pub use getter::Getter;
pub use getters::MAX_GETTERS;
pub use head::{Head, read_head};
pub use host_fault::HostFault;
pub use host_line::{Endpoint, HostLine, MAPPED, key_of};
pub use host_lines::STRANGER;
pub use journal::room_of;
pub use journal_reader::{FoundJournal, JournalReader};
pub use reading::read_host_file;
pub use way::Way;
pub use whole_file::WholeFile;
