//! The outside of the agents: where bytes come from, where they go, and what a host hands in and takes.
//!
//! Each trait says by ghost members what an object tells of its content, which may be nothing, and how often
//! it failed. A failure comes only where that count rose, so a body can't make one up. The memory forms tell
//! everything and are for tests and for generated runs; [`StdSource`] and [`StdSink`] adapt std's readers and
//! writers, and tell what those tell: of files, nothing.
//!
//! Read [`Wire`] first, then `specs/Acts.antt` (what a wire did) and `specs/Runs.antt` (what a run of a machine
//! over these acts is).
//!
//! [`Disk`] says by ghost members what a read gave and what was pending at each moment so far, where the disk
//! tells that, and how often it failed. What a crash may leave is a definition over that: read `specs/Media.antt`, then [`Disk`] and
//! [`Host`], which has a disk and a wire.
//!
//! An [`Agent`] takes the events of a wire one after the other, and sends what it has to send, by a step of its own. [`take_turns`] is the loop
//! until the end, or until the agent has nothing left to do. [`send_to`] is a send in a turn, and [`write_pieces`] writes a report.
#![tactic(auto)]

/// The greatest number of bytes of a datagram or of a piece of a connection.
pub const MAX_EVENT_BYTES: usize = 4096;

mod act;
mod agent;
mod call_log;
mod calls;
mod content;
mod copying;
mod disk;
mod event;
mod failed;
mod handing;
mod host;
mod logged_disk;
mod memory_disk;
mod memory_host;
mod memory_sink;
mod memory_source;
mod out;
mod pieces;
mod sending;
mod sink;
mod source;
mod standard;
mod tape;
mod turns;
mod wire;
mod writing;

pub use act::Act;
pub use agent::Agent;
pub use call_log::{Call, CallLog};
pub use calls::Calls;
pub use disk::Disk;
pub use dots_lists::{Bytes, NoMemory};
pub use event::{Event, Got, What};
pub use failed::Failed;
pub use host::Host;
pub use logged_disk::LoggedDisk;
pub use memory_disk::MemoryDisk;
pub use memory_host::MemoryHost;
pub use memory_sink::MemorySink;
pub use memory_source::MemorySource;
pub use out::{Out, OwnedOut, Sent};
pub use pieces::write_pieces;
pub use sending::send_to;
pub use sink::Sink;
pub use source::Source;
pub use standard::{StdSink, StdSource};
pub use tape::Tape;
pub use turns::{Halt, Stop, take_turns};
pub use wire::Wire;
pub use writing::write_all;
