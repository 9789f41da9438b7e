//! CoAP messages (RFC 7252, section 3).
//!
//! Start at [`decode`], which reads the message that a datagram spells, or names its first fault with its place;
//! [`decode_rest`] reads what stands behind the token of one, for a transport with a header of its own.
//! A [`Message`] hands out parts of the bytes that it was decoded from, and [`Options`] goes over its options.
//! [`encode_into`] writes the message of some [`Parts`], and [`salvage`] reads what can still be answered to a
//! datagram that is no message. None of them takes memory.
//!
//! Contracts see a message as the record `CoapMessage` of `specs/Message.antt`, in the words of the standard, and
//! its bytes as `spelling` of that record. `specs/Breaks.antt` says what the first fault is. [`laws`] has what holds
//! of all messages: no bytes spell two of them, and none that has a fault.
//!
//! [`lines_of`] gives the text of a message, for people who look at a capture: it takes the bytes in hexadecimal and answers the lines that say
//! the message that they spell, or the one that names their first fault (`specs/MessageText.antt`). [`code_text`] writes a code alone. These
//! two take memory.
#![tactic(auto)]

/// The content format `application/dots+cbor`, as a value of Content-Format and Accept (RFC 9132, section 10.3).
pub const DOTS_CBOR: u16 = 271;

/// The byte in front of a payload (RFC 7252, section 3).
const PAYLOAD_MARKER: u8 = 0xff;

pub mod codes;
mod decoding;
mod encoding;
mod fault;
mod head;
mod head_reading;
mod kind;
pub mod laws;
mod message;
mod message_lines;
mod message_rest;
mod option;
pub mod option_numbers;
mod option_reading;
mod options;
mod parts;
mod pieces;
mod printing;
mod salvaging;
mod token;
mod writing;

pub use decoding::{decode, decode_rest};
pub use encoding::{encode_into, encoded_len};
pub use fault::CoapFault;
pub use kind::Kind;
pub use message::Message;
pub use message_lines::code_text;
pub use message_rest::MessageRest;
pub use option::OptionRow;
pub use options::Options;
pub use parts::{OptionPart, Parts};
pub use printing::{Printed, lines_of};
pub use salvaging::salvage;
pub use token::Token;
