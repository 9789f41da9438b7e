ghost use Rattle.std.specs.Prelude.{◌≡◌, ◌≤◌, length};
ghost use Rattle.coap_message.specs.Message.{spelling};
ghost use Rattle.coap_message.specs.Parts.{IsValid, message_of};
ghost use Rattle.dots_keys.specs.declared.short_message.TheConstants.{MAX_SHORT};

use coap_message::{Parts, encode_into};
use std::marker::Model;

/// The most bytes of a [`ShortMessage`].
pub const MAX_SHORT: usize = 64;

/// A message of at most [`MAX_SHORT`] bytes, which takes no memory.
#[derive(Drop)]
pub struct ShortMessage {
    bytes: [u8; MAX_SHORT],
    size: usize,
}

impl Model for ShortMessage {
    ghost use Rattle.std.specs.Prelude.{ℕ, List, ◌≤◌, take};

    ghost Value = { List ℕ };

    ghost view = { λ message. take message.size message.bytes };

    ghost invariant = { λ message. message.size ≤ 64 };
}

impl ShortMessage {
    /// The message of these parts.
    pub fn encode(parts: &Parts) -> Self
        requires valid { IsValid parts.now }
        requires short { length (spelling (message_of parts.now)) ≤ MAX_SHORT }
        ensures { result ≡ spelling (message_of parts.now) }
    {
        let mut bytes = [0; MAX_SHORT];
        let size = encode_into(parts, &mut bytes);
        ShortMessage { bytes, size }
    }

    /// The message with these bytes.
    pub fn copy_of(message: &[u8]) -> Self
        requires short { length message.now ≤ MAX_SHORT }
        ensures { result ≡ message.now }
    {
        let mut bytes = [0; MAX_SHORT];
        let size = message.len();
        bytes[..size].copy_from_slice(message);
        ShortMessage { bytes, size }
    }

    pub fn bytes(&self) -> &[u8]
        ensures value { result.now ≡ self.now }
        ensures short { length self.now ≤ MAX_SHORT }
    {
        &self.bytes[..self.size]
    }
}
