ghost use Rattle.std.specs.Prelude.{◌≡◌, ◌≢◌, ℕ, ◌<◌, ◌∷◌, ◌++◌, length, slice_index, decimal, IfSome, IfNone, IfOk, Ok, Err};
ghost use Rattle.std.specs.Option.{option_map};
ghost use Rattle.std.specs.Result.{result_ok};
ghost use Rattle.ip_scope.specs.Prefix.{PrefixValue, IsPrefix};
ghost use Rattle.ip_scope.specs.PrefixText.{IsAddressText, IsPrefixText, Reads, IsTooLong, reading_of, prefix_text};
ghost use Rattle.ip_scope.specs.PrefixReader.{addr_in, prefix_in, split_last};
ghost use Rattle.ip_scope.specs.declared.family.Family as families;

use crate::address::Addr;
use crate::bad_prefix::BadPrefix;
use crate::family::Family;
use crate::prefix::Prefix;
use dots_lists::parse_decimal;
use memchr::memrchr;
use std::net::{Ipv4Addr, Ipv6Addr};

/// What stands between the address and the length.
const SLASH: u8 = b'/';

/// The greatest length that a text can write: three digits.
const MAX_LENGTH: u64 = 999;

/// Reads a prefix: an address, a slash, and a length of one to three digits with no leading zero. Host bits are
/// cleared.
pub fn parse_prefix(text: &[u8]) -> Result<Prefix, BadPrefix>
    ensures found { IfOk result (λ p. Reads text.now p) }
    ensures too_long { result ≡ Err BadPrefix.Length → IsTooLong text.now }
    ensures not_prefix { result ≡ Err BadPrefix.NotPrefix
        → (family : families.Family) (number length : ℕ) → ¬ (IsPrefixText text.now family number length) }

    // A text has one reading.
    ensures only { (family : families.Family) (number length : ℕ) → IsPrefixText text.now family number length
        → result ≡ reading_of family number length }

    // It is the prefix that the text has by the grammar's own reader.
    ensures value { result_ok result ≡ prefix_in text.now }

    // What `write_prefix` writes is read again.
    ensures written { (p : PrefixValue) → IsPrefix p → text.now ≡ prefix_text p → result ≡ Ok p }
{
    let Some((addr, length)) = read(text) else {
        return Err(BadPrefix::NotPrefix);
    };
    with_length(addr, length)
}

/// The address and the length that the text writes.
fn read(text: &[u8]) -> Option<(Addr, u16)>
    ensures found { IfSome result (λ read. IsPrefixText text.now read.0.family read.0.number read.1) }
    ensures none { IfNone result ((family : families.Family) (number length : ℕ)
        → ¬ (IsPrefixText text.now family number length)) }
{
    let (address, digits) = split_at_last_slash(text)?;
    let length = length_of(digits)?;
    let addr = parse_address(address)?;
    Some((addr, length))
}

/// The prefix of the address, unless the length is too large.
fn with_length(addr: Addr, length: u16) -> Result<Prefix, BadPrefix>
    ensures { result ≡ reading_of addr.family addr.number length }
{
    if length > addr.family.width() as u16 {
        return Err(BadPrefix::Length);
    }
    Prefix::new(addr, length as u8).ok_or(BadPrefix::Length)
}

/// What stands before the last slash, and after it; None where there is no slash.
pub fn split_at_last_slash(text: &[u8]) -> Option<(&[u8], &[u8])>
    ensures found { IfSome result (λ parts. text.now ≡ parts.0.now ++ SLASH ∷ parts.1.now) }
    ensures last { IfSome result (λ parts. (k : ℕ) → k < length parts.1.now → slice_index parts.1.now k ≢ SLASH) }
    ensures none { IfNone result ((k : ℕ) → k < length text.now → slice_index text.now k ≢ SLASH) }
    ensures value { option_map (λ parts. (parts.0.now, parts.1.now)) result ≡ split_last text.now }
{
    let slash = memrchr(SLASH, text)?;
    Some((&text[..slash], &text[slash + 1..]))
}

/// The number below 1000 whose decimal digits these are, with no leading zero.
fn length_of(digits: &[u8]) -> Option<u16>
    ensures found { IfSome result (λ n. (n < 1000) × (digits.now ≡ decimal n)) }
    ensures none { IfNone result ((n : ℕ) → n < 1000 → digits.now ≢ decimal n) }
{
    let length = parse_decimal(digits)?;
    if length > MAX_LENGTH {
        return None;
    }
    Some(length as u16)
}

/// The address of either family that the text writes (RFC 4291, section 2.2; dotted decimal with no leading zeros), or
/// None where it writes none.
pub fn parse_address(text: &[u8]) -> Option<Addr>
    ensures found { IfSome result (λ a. IsAddressText text.now a.family a.number) }
    ensures none { IfNone result ((family : families.Family) (number : ℕ) → ¬ (IsAddressText text.now family number)) }

    // It is the address that the text has by the grammar's own reader.
    ensures value { result ≡ addr_in text.now }
{
    if let Ok(address) = Ipv4Addr::parse_ascii(text) {
        return Some(Addr {
            family: Family::V4,
            number: address.to_bits() as u128,
        });
    }
    if let Ok(address) = Ipv6Addr::parse_ascii(text) {
        return Some(Addr {
            family: Family::V6,
            number: address.to_bits(),
        });
    }
    None
}
