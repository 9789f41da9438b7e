//! The forms of a host file's lines.

ghost use Rattle.std.specs.Prelude.{◌≡◌, ◌≢◌, ℕ, List, [], ◌-◌, ◌^◌, ◌<◌, ◌≤◌, bytes_eq, codes, decimal, Option, MatchOption, IsUtf8};
ghost use Rattle.ip_scope.specs.declared.address.Addr.{Addr};
ghost use Rattle.dots_edge.specs.HostLine.{IsPeerText, Reads, ReadsBehind};

use crate::endpoint_text::endpoint_of;
use crate::host_line::HostLine;
use dots_lists::{one_field, parse_decimal, split_field, two_fields};
use ip_scope::{Addr, parse_address};

/// The number of all addresses that no line names. No peer has it.
pub const STRANGER: u32 = u32::MAX;

/// The most bytes that can be reserved: a journal has no more.
const MAX_RESERVE: u64 = 1_073_741_824;

/// What the line says, or None where it has none of the forms.
pub fn parse_line(line: &[u8]) -> Option<HostLine<'_>>
    ensures { Reads line.now result }
{
    let (word, fields) = split_field(line)?;
    if is_word(word, b"journal") {
        return journal_of(fields);
    }
    if is_word(word, b"signal") {
        return signal_of(fields);
    }
    if is_word(word, b"http") {
        return http_of(fields);
    }
    if is_word(word, b"peer") {
        return peer_of(fields);
    }
    if is_word(word, b"reserve") {
        return reserve_of(fields);
    }
    if is_word(word, b"events") {
        return events_of(fields);
    }
    if is_word(word, b"filters") {
        return filters_of(fields);
    }
    if is_word(word, b"filters-nft") {
        return filters_nft_of(fields);
    }
    if is_word(word, b"figures") {
        return figures_of(fields);
    }
    None
}

/// Whether the field is this word.
pub fn is_word(field: &[u8], word: &[u8]) -> bool
    ensures { result ≡ bytes_eq field.now word.now }
{
    field == word
}

fn journal_of(fields: &[u8]) -> Option<HostLine<'_>>
    ensures { ReadsBehind (codes "journal") fields.now result }
{
    let field = one_field(fields)?;
    let path = path_of(field)?;
    Some(HostLine::Journal { path })
}

fn signal_of(fields: &[u8]) -> Option<HostLine<'_>>
    ensures { ReadsBehind (codes "signal") fields.now result }
{
    let text = one_field(fields)?;
    let Some(at) = endpoint_of(text) else {
        return None;
    };
    Some(HostLine::Signal { at })
}

fn http_of(fields: &[u8]) -> Option<HostLine<'_>>
    ensures { ReadsBehind (codes "http") fields.now result }
{
    let text = one_field(fields)?;
    let Some(at) = endpoint_of(text) else {
        return None;
    };
    Some(HostLine::Http { at })
}

fn peer_of(fields: &[u8]) -> Option<HostLine<'_>>
    ensures { ReadsBehind (codes "peer") fields.now result }
{
    let (digits, text) = two_fields(fields)?;
    let number = peer_number_of(digits)?;
    let (address, port) = peer_text_of(text)?;
    Some(HostLine::Peer {
        number,
        address,
        port,
    })
}

fn reserve_of(fields: &[u8]) -> Option<HostLine<'_>>
    ensures { ReadsBehind (codes "reserve") fields.now result }
{
    let digits = one_field(fields)?;
    let bytes = bytes_of(digits)?;
    Some(HostLine::Reserve { bytes })
}

fn events_of(fields: &[u8]) -> Option<HostLine<'_>>
    ensures { ReadsBehind (codes "events") fields.now result }
{
    let digits = one_field(fields)?;
    let count = parse_decimal(digits)?;
    Some(HostLine::Events { count })
}

fn filters_of(fields: &[u8]) -> Option<HostLine<'_>>
    ensures { ReadsBehind (codes "filters") fields.now result }
{
    let field = one_field(fields)?;
    let path = path_of(field)?;
    Some(HostLine::Filters { path })
}

fn filters_nft_of(fields: &[u8]) -> Option<HostLine<'_>>
    ensures { ReadsBehind (codes "filters-nft") fields.now result }
{
    let field = one_field(fields)?;
    let path = path_of(field)?;
    Some(HostLine::FiltersNft { path })
}

fn figures_of(fields: &[u8]) -> Option<HostLine<'_>>
    ensures { ReadsBehind (codes "figures") fields.now result }
{
    let field = one_field(fields)?;
    let path = path_of(field)?;
    Some(HostLine::Figures { path })
}

/// The path that the field is: some UTF-8 text.
pub fn path_of(field: &[u8]) -> Option<&str>
    ensures { MatchOption result (¬ ((field.now ≢ []) × IsUtf8 field.now))
        (λ path. (path.now ≡ field.now) × (field.now ≢ []) × IsUtf8 field.now) }
{
    if field.is_empty() {
        return None;
    }
    str::from_utf8(field).ok()
}

/// The number of bytes that the text writes, up to [`MAX_RESERVE`].
pub fn bytes_of(text: &[u8]) -> Option<u64>
    ensures { MatchOption result ((bytes : ℕ) → bytes ≤ 2 ^ 30 → text.now ≢ decimal bytes)
        (λ bytes. (bytes ≤ 2 ^ 30) × (text.now ≡ decimal bytes)) }
{
    let bytes = parse_decimal(text)?;
    if bytes > MAX_RESERVE {
        return None;
    }
    Some(bytes)
}

/// The number of a peer that the text writes.
pub fn peer_number_of(text: &[u8]) -> Option<u32>
    ensures { MatchOption result ((number : ℕ) → number < 2 ^ 32 - 1 → text.now ≢ decimal number)
        (λ number. (number < 2 ^ 32 - 1) × (text.now ≡ decimal number)) }
{
    let number = parse_decimal(text)?;
    if number >= u64::from(STRANGER) {
        return None;
    }
    Some(number as u32)
}

/// The address that the text writes, alone or with a port.
pub fn peer_text_of(text: &[u8]) -> Option<(Addr, Option<u16>)>
    ensures { MatchOption result ((address : Addr) (port : Option ℕ) → ¬ (IsPeerText text.now address port))
        (λ found. IsPeerText text.now found.0 found.1) }
{
    if let Some(address) = parse_address(text) {
        return Some((address, None));
    }
    let endpoint = endpoint_of(text)?;
    Some((endpoint.address, Some(endpoint.port)))
}
