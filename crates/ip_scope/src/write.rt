ghost use Rattle.std.specs.Prelude.{◌≡◌, ◌≤◌, take, drop, IsUtf8};
ghost use Rattle.ip_scope.specs.PrefixText.{address_text, prefix_text, v4_octets, v6_groups};
ghost use Rattle.std.specs.Net.Text.{ipv4_text, hex_groups_text};
ghost use Rattle.ip_scope.specs.Puts.{Puts};

use crate::family::Family;
use crate::prefix::Prefix;
use crate::put::{MAX_PREFIX_TEXT, put_all, put_decimal, put_dotted, put_hex_groups};
use std::net::{Ipv4Addr, Ipv6Addr};

/// Writes the canonical text (RFC 5952, section 4), always in hexadecimal groups for IPv6, at the front of `into`, and
/// answers its length.
pub fn write_prefix(prefix: &Prefix, into: &mut [u8; MAX_PREFIX_TEXT]) -> usize
    ensures text { take result into.new ≡ prefix_text prefix.now }
    ensures rest { drop result into.new ≡ drop result into.old }
    ensures within { result ≤ 43 }
    ensures utf8 { IsUtf8 (prefix_text prefix.now) }
{
    let end = put_address(into, prefix);
    let end = put_all(into, end, b"/");
    put_decimal(into, end, prefix.length())
}

fn put_address(into: &mut [u8; MAX_PREFIX_TEXT], prefix: &Prefix) -> usize
    ensures text { Puts into.old into.new 0 result (address_text prefix.now.family prefix.now.number) }
    ensures within { result ≤ 39 }
{
    match prefix.family() {
        Family::V4 => put_v4(into, prefix.number() as u32),
        Family::V6 => put_v6(into, prefix.number()),
    }
}

fn put_v4(into: &mut [u8; MAX_PREFIX_TEXT], number: u32) -> usize
    ensures text { Puts into.old into.new 0 result (ipv4_text (v4_octets number)) }
    ensures within { result ≤ 15 }
{
    put_dotted(into, Ipv4Addr::from_bits(number).octets())
}

fn put_v6(into: &mut [u8; MAX_PREFIX_TEXT], number: u128) -> usize
    ensures text { Puts into.old into.new 0 result (hex_groups_text (v6_groups number)) }
    ensures within { result ≤ 39 }
{
    put_hex_groups(into, &Ipv6Addr::from_bits(number).segments())
}
