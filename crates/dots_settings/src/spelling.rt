//! What a field has to be.

ghost use Rattle.std.specs.Prelude.{◌≡◌};
ghost use Rattle.std.specs.Char.{is_ascii_digit};
ghost use Rattle.std.specs.List.{list_all};
ghost use Rattle.dots_settings.specs.Form.{granted_in, is_domain_byte, is_domain_name, is_number, length_mistake, prefix_mistake};

use crate::mistake::Mistake;
use dots_lists::is_word;
use ip_scope::{Family, parse_address, split_at_last_slash};

/// Whether this is 1 to 64 of `a` to `z`, `0` to `9`, `.` and `-`.
pub fn is_domain_name(name: &[u8]) -> bool
    ensures { result ≡ is_domain_name name.now }
{
    if name.is_empty() || name.len() > 64 {
        return false;
    }
    are_domain_bytes(name)
}

fn are_domain_bytes(name: &[u8]) -> bool
    ensures { result ≡ list_all is_domain_byte name.now }
{
    name.iter().all(|byte| is_domain_byte(*byte))
}

fn is_domain_byte(byte: u8) -> bool
    ensures { result ≡ is_domain_byte byte }
{
    byte.is_ascii_lowercase() || byte.is_ascii_digit() || byte == b'.' || byte == b'-'
}

/// Whether the text is a number of any size with no leading zeros.
pub fn is_number(text: &[u8]) -> bool
    ensures { result ≡ is_number text.now }
{
    match text {
        [] => false,
        [first, rest @ ..] => are_digits(text) && (*first != b'0' || rest.is_empty()),
    }
}

fn are_digits(text: &[u8]) -> bool
    ensures { result ≡ list_all is_ascii_digit text.now }
{
    text.iter().all(|byte| byte.is_ascii_digit())
}

/// Whether `yes` or `no` is said; None where the text is neither.
pub fn granted_in(text: &[u8]) -> Option<bool>
    ensures { result ≡ granted_in text.now }
{
    if is_word(text, b"yes") {
        return Some(true);
    }
    if is_word(text, b"no") {
        return Some(false);
    }
    None
}

/// Why a text that is no prefix is none.
pub fn prefix_mistake(text: &[u8]) -> Mistake
    ensures { result ≡ prefix_mistake text.now }
{
    let Some((address, digits)) = split_at_last_slash(text) else {
        return Mistake::NoSlash;
    };
    let Some(address) = parse_address(address) else {
        return Mistake::NoAddress;
    };
    length_mistake(address.family, digits)
}

/// Why a text that is no length of a prefix of this family is none.
fn length_mistake(family: Family, digits: &[u8]) -> Mistake
    ensures { result ≡ length_mistake family digits.now }
{
    if !is_number(digits) {
        return Mistake::NoLength;
    }
    match family {
        Family::V4 => Mistake::LengthV4,
        Family::V6 => Mistake::LengthV6,
    }
}
