//! The text of an address and a port.

ghost use Rattle.std.specs.Prelude.{◌≡◌, ◌≢◌, ℕ, List, [], ◌∷◌, ◌++◌, ◌^◌, ◌<◌, length, slice_index, decimal, MatchOption};
ghost use Rattle.ip_scope.specs.PrefixText.{IsAddressText};
ghost use Rattle.ip_scope.specs.declared.address.Addr.{Addr};
ghost use Rattle.ip_scope.specs.declared.family.Family.TheVariants as family;
ghost use Rattle.dots_edge.specs.HostLine.{IsHostText, IsEndpointText};

use crate::host_line::Endpoint;
use dots_lists::parse_decimal;
use ip_scope::{Addr, Family, parse_address};
use memchr::memrchr;

/// What stands between an address and a port.
const COLON: u8 = b':';

/// The address and the port that the text writes, as `192.0.2.1:4646` or `[2001:db8::1]:4646`.
pub fn endpoint_of(text: &[u8]) -> Option<Endpoint>
    ensures { MatchOption result ((address : Addr) (port : ℕ) → ¬ (IsEndpointText text.now address port))
        (λ endpoint. IsEndpointText text.now endpoint.address endpoint.port) }
{
    let (host, digits) = split_at_last_colon(text)?;
    let Some(port) = port_of(digits) else {
        return None;
    };
    let Some(address) = host_of(host) else {
        return None;
    };
    Some(Endpoint { address, port })
}

/// What stands before the last colon, and after it.
fn split_at_last_colon(text: &[u8]) -> Option<(&[u8], &[u8])>
    ensures { MatchOption result ((k : ℕ) → k < length text.now → slice_index text.now k ≢ COLON)
        (λ parts. (text.now ≡ parts.0.now ++ COLON ∷ parts.1.now)
        × ((k : ℕ) → k < length parts.1.now → slice_index parts.1.now k ≢ COLON)) }
{
    let colon = memrchr(COLON, text)?;
    Some((&text[..colon], &text[colon + 1..]))
}

/// The port that the text writes in decimal, with no leading zeros.
fn port_of(text: &[u8]) -> Option<u16>
    ensures { MatchOption result ((port : ℕ) → port < 2 ^ 16 → text.now ≢ decimal port)
        (λ port. (port < 2 ^ 16) × (text.now ≡ decimal port)) }
{
    let port = parse_decimal(text)?;
    if port > u64::from(u16::MAX) {
        return None;
    }
    Some(port as u16)
}

/// The address that the text writes before a port.
fn host_of(text: &[u8]) -> Option<Addr>
    ensures { MatchOption result ((address : Addr) → ¬ (IsHostText text.now address.family address.number))
        (λ address. IsHostText text.now address.family address.number) }
{
    if let Some(address) = v4_of(text) {
        return Some(address);
    }
    let Some(inner) = in_brackets(text) else {
        return None;
    };
    let Some(address) = v6_of(inner) else {
        return None;
    };
    Some(address)
}

/// The IPv4 address that the text writes.
fn v4_of(text: &[u8]) -> Option<Addr>
    ensures { MatchOption result ((number : ℕ) → ¬ (IsAddressText text.now family.V4 number))
        (λ address. (address.family ≡ family.V4) × IsAddressText text.now family.V4 address.number) }
{
    let Some(address) = parse_address(text) else {
        return None;
    };
    match address.family {
        Family::V4 => Some(address),
        Family::V6 => None,
    }
}

/// The IPv6 address that the text writes.
fn v6_of(text: &[u8]) -> Option<Addr>
    ensures { MatchOption result ((number : ℕ) → ¬ (IsAddressText text.now family.V6 number))
        (λ address. (address.family ≡ family.V6) × IsAddressText text.now family.V6 address.number) }
{
    let Some(address) = parse_address(text) else {
        return None;
    };
    match address.family {
        Family::V4 => None,
        Family::V6 => Some(address),
    }
}

/// What stands in brackets.
fn in_brackets(text: &[u8]) -> Option<&[u8]>
    ensures { MatchOption result ((inner : List ℕ) → text.now ≢ 91 ∷ (inner ++ 93 ∷ []))
        (λ inner. text.now ≡ 91 ∷ (inner.now ++ 93 ∷ [])) }
{
    match text {
        [b'[', behind @ ..] => before_bracket(behind),
        _ => None,
    }
}

/// What stands before a closing bracket at the end.
fn before_bracket(text: &[u8]) -> Option<&[u8]>
    ensures { MatchOption result ((inner : List ℕ) → text.now ≢ inner ++ 93 ∷ [])
        (λ inner. text.now ≡ inner.now ++ 93 ∷ []) }
{
    match text {
        [inner @ .., b']'] => Some(inner),
        _ => None,
    }
}
