//! The options of a request.

ghost use Rattle.std.specs.Prelude.{◌≡◌, [], ◌∷◌, ◌≤◌, length, None, MatchOption};
ghost use Rattle.std.specs.Option.{option_copied};
ghost use Rattle.dots_keys.specs.Options.{first_critical, is_recognised, is_critical, has_length, is_repeatable, values_of, value_of, option_number};

use coap_message::{Message, OptionRow, Options};

/// The numbers of the options that are read (RFC 7252, section 5.10; RFC 7641, section 2; RFC 8768, section 3).
pub const OBSERVE: u16 = 6;

pub const URI_PATH: u16 = 11;

pub const CONTENT_FORMAT: u16 = 12;

pub const URI_QUERY: u16 = 15;

pub const HOP_LIMIT: u16 = 16;

pub const ACCEPT: u16 = 17;

/// The number of the first critical option that isn't recognised.
pub fn first_critical(message: &Message<'_>) -> Option<u16>
    ensures { result ≡ first_critical None message.now.options }
{
    let mut options = message.options();
    first_critical_of(&mut options)
}

fn first_critical_of(options: &mut Options<'_>) -> Option<u16>
    ensures { result ≡ first_critical None options.old }
{
    let mut previous = None;
    while let Some(row) = options.next() {
        if is_critical(row.number) && !is_recognised(previous, &row) {
            return Some(row.number);
        }
        previous = Some(row.number);
    }
    None
}

/// Whether an option of this number is critical (RFC 7252, section 5.4.6).
fn is_critical(number: u16) -> bool
    ensures { result ≡ is_critical number }
{
    number % 2 == 1
}

/// Whether an option behind one of the number `previous` is recognised.
fn is_recognised(previous: Option<u16>, row: &OptionRow<'_>) -> bool
    ensures { result ≡ is_recognised previous (record { number = row.now.number; value = row.now.value.now }) }
{
    has_length(row.number, row.value.len())
        && (is_repeatable(row.number) || previous != Some(row.number))
}

/// Whether an option of this number is known and may have so many bytes.
fn has_length(number: u16, len: usize) -> bool
    ensures { result ≡ has_length number len }
{
    match number {
        3 => len >= 1 && len <= 255,
        OBSERVE => len <= 3,
        7 | CONTENT_FORMAT | ACCEPT => len <= 2,
        URI_PATH | URI_QUERY => len <= 255,
        HOP_LIMIT => len == 1,
        _ => false,
    }
}

/// Whether an option of this number may stand more than once.
fn is_repeatable(number: u16) -> bool
    ensures { result ≡ is_repeatable number }
{
    number == URI_PATH || number == URI_QUERY
}

/// The value of the next option of this number.
pub fn next_value<'a>(options: &mut Options<'a>, number: u16) -> Option<&'a [u8]>
    ensures { MatchOption result (values_of number options.old ≡ [])
        (λ value. values_of number options.old ≡ value.now ∷ values_of number options.new) }
{
    while let Some(row) = options.next() {
        if row.number == number {
            return Some(row.value);
        }
    }
    None
}

/// The recognised value of an option that may stand once only.
pub fn value_of<'a>(message: &Message<'a>, number: u16) -> Option<&'a [u8]>
    ensures { option_copied result ≡ value_of number message.now.options }
{
    let mut options = message.options();
    let Some(value) = next_value(&mut options, number) else {
        return None;
    };
    if !has_length(number, value.len()) {
        return None;
    }
    Some(value)
}

/// The number in the value of an option, which may have leading zeros (RFC 7252, section 3.2).
pub fn option_number(value: &[u8]) -> u32
    requires { length value.now ≤ 3 }
    ensures { result ≡ option_number value.now }
{
    match value {
        [] => 0,
        [a] => u32::from(*a),
        [a, b] => 256 * u32::from(*a) + u32::from(*b),
        [a, b, c] => 256 * (256 * u32::from(*a) + u32::from(*b)) + u32::from(*c),
        _ => unreachable!(),
    }
}
