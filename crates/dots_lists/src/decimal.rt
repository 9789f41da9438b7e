//! Numbers in decimal text, with no leading zeros, as the settings, the script and the report write them.
//!
//! Of each number there is one such text, std's `decimal`. Numbers end below 10^19, at nineteen digits, which is
//! less than 2^64.

ghost use Rattle.std.specs.Prelude.{◌≡◌, ◌≢◌, ℕ, ◌^◌, ◌<◌, ◌≤◌, length, slice_index, decimal, IfSome, IfNone, IsTrue, ◌↔◌};
ghost use Rattle.std.specs.Str.Parse.{AllDigits, digits_value};
ghost use Rattle.dots_lists.specs.Numbers.{number_in};

/// The greatest number of digits that are read.
pub const MAX_DIGITS: usize = 19;

/// The number below 10^19 that the text writes with no leading zeros.
pub fn parse_decimal(text: &[u8]) -> Option<u64>
    ensures found { IfSome result (λ n. (n < 10 ^ 19) × (text.now ≡ decimal n)) }
    ensures none { IfNone result ((n : ℕ) → n < 10 ^ 19 → text.now ≢ decimal n) }
{
    if text.is_empty() {
        return None;
    }
    if text.len() > MAX_DIGITS {
        return None;
    }
    if has_leading_zero(text) {
        return None;
    }
    value_of(text)
}

/// The number from `least` to `most` that the text writes with no leading zeros.
pub fn number_in(least: u64, most: u64, text: &[u8]) -> Option<u64>
    requires { most < 10 ^ 19 }
    ensures { result ≡ number_in least most text.now }
{
    let number = parse_decimal(text)?;
    if number < least || number > most {
        return None;
    }
    Some(number)
}

fn has_leading_zero(digits: &[u8]) -> bool
    ensures { IsTrue result ↔ ((1 < length digits.now) × (slice_index digits.now 0 ≡ 48)) }
{
    digits.len() > 1 && digits[0] == b'0'
}

/// What decimal digits are worth, leading zeros or not; None where there is anything else.
pub fn value_of(digits: &[u8]) -> Option<u64>
    requires { length digits.now ≤ 19 }
    ensures found { IfSome result (λ n. AllDigits 10 digits.now × (digits_value 10 digits.now ≡ n)) }
    ensures none { IfNone result (¬ (AllDigits 10 digits.now)) }
{
    let mut number = 0;
    for digit in digits {
        if !digit.is_ascii_digit() {
            return None;
        }
        number = number * 10 + (*digit - b'0') as u64;
    }
    Some(number)
}
