//! The digits of a line. Each costs the same whatever it is, so that several are read at once.

ghost use Rattle.std.specs.Prelude.{◌≡◌, ◌≤◌, ◌*◌, ℕ, List, length, take, unwrap_or, Ok, IfSome, IfNone, MatchBool};
ghost use Rattle.hex.specs.Hex.{decode_of, hex_digit_value};
ghost use Rattle.dots_host.specs.declared.TheConstants.{MAX_EVENT_BYTES};
ghost use Rattle.dots_lists.specs.HexText.{IsHex};

use dots_host::MAX_EVENT_BYTES;

/// What a byte that is no digit counts as. Every digit counts less.
const NO_DIGIT: u8 = 16;

/// Puts the bytes that the digits write to the front of the room, and answers how many they are: at least one. Where they
/// write none, what then stands in the room isn't said.
pub fn read_digits(digits: &[u8], into: &mut [u8]) -> Option<usize>
    requires { length into.old ≡ MAX_EVENT_BYTES }
    ensures some { IfSome result (λ len. IsHex digits.now (take len into.new)) }
    ensures none { IfNone result ((bytes : List ℕ) → ¬ (IsHex digits.now bytes)) }
    ensures few { IfSome result (λ len. len ≤ MAX_EVENT_BYTES) }
{
    let len = digits.len() / 2;
    if digits.len() % 2 != 0 {
        return None;
    }
    if len == 0 {
        return None;
    }
    if len > MAX_EVENT_BYTES {
        return None;
    }
    if !read_pairs(digits, &mut into[..len]) {
        return None;
    }
    Some(len)
}

/// Puts the byte of each pair of digits into the list, and answers whether all were digits. Where one wasn't, what then
/// stands in the list isn't said.
fn read_pairs(digits: &[u8], into: &mut [u8]) -> bool
    requires { length digits.now ≡ 2 * length into.old }
    ensures { MatchBool result (decode_of digits.now ≡ Ok into.new)
        ((bytes : List ℕ) → ¬ (decode_of digits.now ≡ Ok bytes)) }
{
    let mut greatest = 0u8;
    'pairs: for at in 0..into.len() {
        let high = digit_value(digits[2 * at]);
        let low = digit_value(digits[2 * at + 1]);
        into[at] = high % 16 * 16 + low % 16;
        greatest = greatest.max(high).max(low);
    }
    greatest < NO_DIGIT
}

/// The value of a digit in hexadecimal, of either case, and that of no digit for any other byte.
fn digit_value(byte: u8) -> u8
    ensures { result ≡ unwrap_or (hex_digit_value byte) 16 }
{
    match byte {
        b'0'..=b'9' => byte - b'0',
        b'a'..=b'f' => byte - b'a' + 10,
        b'A'..=b'F' => byte - b'A' + 10,
        _ => NO_DIGIT,
    }
}
