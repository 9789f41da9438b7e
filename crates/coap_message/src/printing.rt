//! What is shown of a word.

ghost use Rattle.std.specs.Prelude.{◌≡◌, IfOk};
ghost use Rattle.coap_message.specs.Printing.{IsPrinted};

use crate::decoding::decode;
use crate::message_lines::{add_fault, add_message};
use crate::pieces::add;
use dots_lists::{Bytes, MAX_BYTES, NoMemory, read_hex};
use std::alloc::Global;

/// What is shown of a word, its lines.
#[derive(Drop)]
pub enum Printed {
    /// The word writes a message: its kind, code, Message ID and token, its options, and its payload.
    Message(Bytes),
    /// It writes none: the first fault with its place, or that the word isn't hexadecimal.
    Fault(Bytes),
}

/// The lines that say which message the word writes, or why it writes none. The word is 1 to 4,096 pairs of
/// hexadecimal digits of either case.
pub fn lines_of(alloc: Global, word: &[u8]) -> Result<Printed, NoMemory>
    ensures { IfOk result (IsPrinted word.now) }
{
    let mut room = [0; MAX_BYTES];
    let mut text = Vec::new(alloc);
    let Some(len) = read_hex(word, &mut room) else {
        add(&mut text, &[b"fault hex\n".as_slice()])?;
        return Ok(Printed::Fault(Bytes::from_vec(text)));
    };
    match decode(&room[..len]) {
        Ok(message) => {
            add_message(alloc, &mut text, &message)?;
            return Ok(Printed::Message(Bytes::from_vec(text)));
        }
        Err(fault) => {
            add_fault(&mut text, fault)?;
            return Ok(Printed::Fault(Bytes::from_vec(text)));
        }
    }
}
