//! What a field has to be.

ghost use Rattle.std.specs.Prelude.{◌≡◌, ◌-◌, ◌^◌, ◌≤◌, length, map, IfOk, IfSome};
ghost use Rattle.dots_lists.specs.Numbers.{number_in};
ghost use Rattle.ask_agent.specs.Lines.{word_in, lifetime_in, parts_of, prefixes_in, all_some, bytes_in};
ghost use Rattle.ip_scope.specs.PrefixReader.{prefix_in};
ghost use Rattle.dots_client.specs.Cuid.{cuid_text};
ghost use Rattle.std.specs.Option.{option_map};

use acl_lists::{MAX_ITEMS, PrefixList};
use dots_client::cuid_of;
use dots_lists::{List, MAX_BYTES, NoMemory, is_word, number_in, read_hex};
use ip_scope::parse_prefix;
use itoa::Buffer;
use std::alloc::{AllocError, Global};

/// The greatest number of a peer or a mitigation.
const MAX_WORD: u64 = 4_294_967_295;

/// The greatest lifetime, in seconds.
const MAX_LIFETIME: u64 = 2_147_483_647;

/// The number of a peer or of a mitigation.
pub fn word_in(text: &[u8]) -> Option<u32>
    ensures { result ≡ word_in text.now }
{
    let number = number_in(0, MAX_WORD, text)?;
    Some(number as u32)
}

/// A number below 2^64, without leading zeros.
pub fn long_in(text: &[u8]) -> Option<u64>
    ensures { result ≡ number_in 0 (2 ^ 64 - 1) text.now }
{
    let Ok(digits) = str::from_utf8(text) else {
        return None;
    };
    let Ok(number) = digits.parse::<u64>() else {
        return None;
    };
    let mut buffer = Buffer::new();
    if !is_word(text, buffer.format(number).as_bytes()) {
        return None;
    }
    Some(number)
}

/// A lifetime, in seconds, or -1 for an indefinite one (RFC 9132, section 4.4.1).
pub fn lifetime_in(text: &[u8]) -> Option<i32>
    ensures { result ≡ lifetime_in text.now }
{
    if is_word(text, b"-1") {
        return Some(-1);
    }
    let seconds = number_in(1, MAX_LIFETIME, text)?;
    Some(seconds as i32)
}

/// The name of the client with the key that the digits write. Takes no memory.
pub fn cuid_in(digits: &[u8]) -> Option<[u8; 22]>
    ensures { result ≡ option_map cuid_text (bytes_in digits.now) }
{
    let mut key = [0; MAX_BYTES];
    let size = read_hex(digits, &mut key)?;
    Some(cuid_of(&key[..size]))
}

/// The prefixes between commas, where there are at most 32.
pub fn prefixes_in(alloc: Global, text: &[u8]) -> Result<Option<PrefixList>, NoMemory>
    ensures { IfOk result (λ prefixes. prefixes ≡ prefixes_in text.now) }
{
    let parts = parts_of(alloc, text)?;
    if parts.len() > MAX_ITEMS {
        return Ok(None);
    }
    read_prefixes(alloc, parts.as_slice())
}

/// What stands between commas.
fn parts_of(alloc: Global, text: &[u8]) -> Result<Vec<&[u8]>, AllocError>
    ensures { IfOk result (λ parts. map (λ part. part.now) parts.items ≡ parts_of text.now) }
{
    text.split(|byte| *byte == b',').collect(alloc)
}

/// The prefixes that the texts write, where each writes one.
#[tactic(auto, using(crate::proofs::Lists::behind_none))]
fn read_prefixes(alloc: Global, texts: &[&[u8]]) -> Result<Option<PrefixList>, NoMemory>
    ensures { IfOk result (λ prefixes. prefixes ≡ all_some (map prefix_in (map (λ text. text.now) texts.now))) }
{
    let mut prefixes = List::new(alloc);
    let mut rest = texts;
    while let [text, behind @ ..] = rest {
        let Ok(prefix) = parse_prefix(text) else {
            return Ok(None);
        };
        prefixes.push(prefix)?;
        rest = behind;
    }
    Ok(Some(prefixes))
}
