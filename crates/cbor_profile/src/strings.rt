//! Byte strings and texts, of definite length or in parts (RFC 8949, sections 3.1 and 3.2.3).

ghost use Rattle.std.specs.Prelude.{◌≡◌, ◌≤◌, ◌<◌, ◌+◌, ℕ, length, IfOk};
ghost use Rattle.cbor_profile.specs.declared.major.Major.TheVariants as major_type;
ghost use Rattle.cbor_profile.specs.ItemReading.{item_read, Gives, argument_at, content_at, raw_at, string_at, is_part, parts_at, as_bytes, as_text};

use crate::argument::read_argument;
use crate::fault::CborFault;
use crate::head::BREAK;
use crate::item::Item;
use crate::major::Major;
use dots_lists::{Bytes, Text};
use std::alloc::Global;
use std::str;

/// A byte string of definite length, whose initial byte stands at the place `at` and has this additional
/// information, and the bytes behind it. The input ends at the place `end`.
pub(crate) fn read_byte_string(
    alloc: Global,
    end: usize,
    at: usize,
    info: u8,
    bytes: &[u8],
) -> Result<(Item, &[u8]), CborFault>
    ensures value { Gives item_read result (as_bytes (string_at end at major_type.Bytes info bytes.now)) }
    ensures shorter { IfOk result (λ x. length x.1.now ≤ length bytes.now) }
{
    let (content, rest) = read_raw(end, at, info, bytes)?;
    Ok((Item::Bytes(Bytes::from_slice(alloc, content)?), rest))
}

/// A text of definite length, whose initial byte stands at the place `at`.
#[tactic(auto, unfolding(crate::specs::ItemReading::string_at))]
pub(crate) fn read_text(
    alloc: Global,
    end: usize,
    at: usize,
    info: u8,
    bytes: &[u8],
) -> Result<(Item, &[u8]), CborFault>
    ensures value { Gives item_read result (as_text (string_at end at major_type.Text info bytes.now)) }
    ensures shorter { IfOk result (λ x. length x.1.now ≤ length bytes.now) }
{
    let (count, rest) = read_argument(end, info, bytes)?;
    let (content, rest) = take_content(end, count, rest)?;
    match Text::new(alloc, content)? {
        Some(text) => Ok((Item::Text(text), rest)),
        None => Err(CborFault::NotUtf8 { at }),
    }
}

/// So many bytes, and the bytes behind them.
fn take_content(end: usize, count: u64, bytes: &[u8]) -> Result<(&[u8], &[u8]), CborFault>
    ensures value { Gives (λ x. (x.0.now, x.1.now)) result (content_at end count bytes.now) }
    ensures shorter { IfOk result (λ x. length x.1.now ≤ length bytes.now) }
{
    if (bytes.len() as u64) < count {
        return Err(CborFault::Short { at: end });
    }
    Ok(bytes.split_at(count as usize))
}

/// The parts of a byte string up to the end of its indefinite length, joined.
pub(crate) fn read_byte_parts(
    alloc: Global,
    end: usize,
    bytes: &[u8],
) -> Result<(Item, &[u8]), CborFault>
    requires { length bytes.now ≤ end }
    ensures value { Gives item_read result (as_bytes (parts_at (length bytes.now) end major_type.Bytes bytes.now)) }
    ensures shorter { IfOk result (λ x. length x.1.now ≤ length bytes.now) }
{
    let mut string = Vec::new(alloc);
    let mut rest = bytes;
    for _ in 0..bytes.len() {
        let Some((first, behind)) = rest.split_first() else {
            return Err(CborFault::Short { at: end });
        };
        if *first == BREAK {
            return Ok((Item::Bytes(Bytes::from_vec(string)), behind));
        }
        if !is_part(Major::Bytes, *first) {
            return Err(CborFault::Reserved {
                at: end - rest.len(),
            });
        }
        let (part, after) = read_raw(end, end - rest.len(), *first % 32, behind)?;
        string.extend_from_slice(part)?;
        rest = after;
    }
    Err(CborFault::Short { at: end })
}

/// The parts of a text up to the end of its indefinite length, joined.
pub(crate) fn read_text_parts(
    alloc: Global,
    end: usize,
    bytes: &[u8],
) -> Result<(Item, &[u8]), CborFault>
    requires { length bytes.now ≤ end }
    ensures value { Gives item_read result (as_text (parts_at (length bytes.now) end major_type.Text bytes.now)) }
    ensures shorter { IfOk result (λ x. length x.1.now ≤ length bytes.now) }
{
    let mut string = String::new(alloc);
    let mut rest = bytes;
    for _ in 0..bytes.len() {
        let Some((first, behind)) = rest.split_first() else {
            return Err(CborFault::Short { at: end });
        };
        if *first == BREAK {
            return Ok((Item::Text(Text::from_string(string)), behind));
        }
        if !is_part(Major::Text, *first) {
            return Err(CborFault::Reserved {
                at: end - rest.len(),
            });
        }
        let (part, after) = read_str(end, end - rest.len(), *first % 32, behind)?;
        string.push_str(part)?;
        rest = after;
    }
    Err(CborFault::Short { at: end })
}

/// Whether an initial byte begins a string of this type and of definite length.
fn is_part(major: Major, first: u8) -> bool
    ensures { result ≡ is_part major first }
{
    first / 32 == major.number() && first % 32 < 28
}

/// The content of a byte string of definite length, whose initial byte stands at the place `at`.
#[tactic(auto, unfolding(crate::specs::ItemReading::string_at))]
fn read_raw(end: usize, at: usize, info: u8, bytes: &[u8]) -> Result<(&[u8], &[u8]), CborFault>
    ensures value { Gives (λ x. (x.0.now, x.1.now)) result (string_at end at major_type.Bytes info bytes.now) }
    ensures shorter { IfOk result (λ x. length x.1.now ≤ length bytes.now) }
{
    let _at = at;
    let (count, rest) = read_argument(end, info, bytes)?;
    take_content(end, count, rest)
}

/// The content of a text of definite length, whose initial byte stands at the place `at`.
#[tactic(auto, unfolding(crate::specs::ItemReading::string_at))]
fn read_str(end: usize, at: usize, info: u8, bytes: &[u8]) -> Result<(&str, &[u8]), CborFault>
    ensures value { Gives (λ x. (x.0.now, x.1.now)) result (string_at end at major_type.Text info bytes.now) }
    ensures shorter { IfOk result (λ x. length x.1.now ≤ length bytes.now) }
{
    let (count, rest) = read_argument(end, info, bytes)?;
    let (content, rest) = take_content(end, count, rest)?;
    match str::from_utf8(content) {
        Ok(text) => Ok((text, rest)),
        Err(_) => Err(CborFault::NotUtf8 { at }),
    }
}
