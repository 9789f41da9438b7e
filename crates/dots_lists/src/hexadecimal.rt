//! Bytes in hexadecimal text, as a script line and a word of the command line write a datagram.
//!
//! A text has pairs of digits of either case. It writes at least one byte, and at most those of a datagram that is
//! handed in.

ghost use Rattle.std.specs.Prelude.{◌≡◌, ◌≤◌, ℕ, List, length, take, IfSome, IfNone};
ghost use Rattle.dots_lists.specs.HexText.{IsHex};

use hex::decode_to_slice;

/// The most bytes that a text writes.
pub const MAX_BYTES: usize = 4096;

/// Puts the bytes that the digits write to the front of the room, and answers how many they are. Where they write
/// none, what then stands in the room isn't said.
pub fn read_hex(digits: &[u8], into: &mut [u8]) -> Option<usize>
    requires { length into.old ≡ MAX_BYTES }
    ensures some { IfSome result (λ len. IsHex digits.now (take len into.new)) }
    ensures none { IfNone result ((bytes : List ℕ) → ¬ (IsHex digits.now bytes)) }
    ensures few { IfSome result (λ len. len ≤ MAX_BYTES) }
{
    let len = digits.len() / 2;
    if len == 0 {
        return None;
    }
    if len > MAX_BYTES {
        return None;
    }
    match decode_to_slice(digits, &mut into[..len]) {
        Ok(()) => return Some(len),
        Err(_) => return None,
    }
}
