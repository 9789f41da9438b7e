//! CoAP messages in a stream of bytes: the frames of TCP (RFC 8323, section 3.2), and the rules of one connection of the signal channel over
//! them (RFC 8323, section 5; RFC 9132, section 4.4).
//!
//! A [`Frames`] buffers what came of a connection and isn't taken yet. [`Frames::take`] appends a piece, [`Frames::cut`]
//! answers what stands at the front (a frame, the beginning of one, or a refusal), and [`Frames::discard`] drops a frame
//! that is done. [`as_datagram`] spells the message of a frame as a datagram of UDP has it, for those who read these, and
//! [`frame_into`] writes the frame of some parts. Only [`Frames::new`] and [`SignalStream::new`] take memory.
//!
//! A [`SignalStream`] buffers what came of a connection and isn't done yet, and knows whether the connection has begun.
//! [`SignalStream::take`] appends a piece, [`SignalStream::turn`] answers what is to be done with what stands at the front, and
//! [`SignalStream::done`] drops that. The turn of a request lends its frame. [`SignalStream::clear`] makes a stream ready for the next
//! connection. Where a connection opens, the server sends [`PLAIN_CSM`]. At [`Turn::Aborts`] it sends [`PLAIN_ABORT`] and closes.
//!
//! Contracts see a [`Frames`] as the bytes that it buffers. Start reading at `specs/Frames.antt`, which says how a frame is
//! spelled; `specs/FrameReading.antt` has what stands at the front of some bytes as a function of them, and
//! `specs/Streams.antt` which frames a stream has. [`laws`] has what holds of all of them: frames are read as they are
//! spelled, and however a stream is cut into pieces, its frames and its first fault are the same.
//!
//! Contracts see a [`SignalStream`] as whether it has begun and the bytes that it buffers. `specs/Turns.antt` says which turn stands at the
//! front of some bytes, and `specs/Connections.antt` which turns a whole connection has; [`stream_laws`] says that however a connection is cut
//! into pieces, its turns are the same.
#![tactic(auto)]

mod codes;
mod cutting;
mod fault;
mod frame;
mod frames;
pub mod laws;
mod pong;
mod stream;
pub mod stream_laws;
mod turn;
mod writing;

pub use codes::{PLAIN_ABORT, PLAIN_CSM};
pub use fault::FrameFault;
pub use frame::{Frame, FrameCut};
pub use frames::Frames;
pub use pong::Pong;
pub use stream::SignalStream;
pub use turn::Turn;
pub use writing::{as_datagram, frame_into};
