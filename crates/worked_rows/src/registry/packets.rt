//! Packets, and what is told of their fates.

use crate::registry::words::{NONE, digit};
use acl_lists::{Fate, Packet};
use dots_lists::Name;
use ip_scope::{Addr, Family};

pub fn v4(number: u32) -> Addr {
    Addr {
        family: Family::V4,
        number: u128::from(number),
    }
}

/// A packet to 192.0.2.9.
fn packet(source: u32, protocol: u8, port: u16) -> Packet {
    Packet {
        source: v4(source),
        destination: v4(0xc000_0209),
        protocol,
        ports: Some((4000, port)),
    }
}

/// Packets to port 53 of UDP, from 203.0.113.5 and from 198.18.0.1; from the second to port 443 of UDP; and from it to ports 53 and 443 of
/// TCP.
pub fn packets() -> [Packet; 5] {
    [
        packet(0xcb00_7105, 17, 53),
        packet(0xc612_0001, 17, 53),
        packet(0xc612_0001, 17, 443),
        packet(0xc612_0001, 6, 53),
        packet(0xc612_0001, 6, 443),
    ]
}

/// The first letter of a name.
pub fn letter(name: &Name) -> u8 {
    match name.bytes() {
        [first, ..] => *first,
        [] => NONE,
    }
}

/// The fate of a packet, with the list or the mid that decides.
pub fn letters(fate: Fate<'_>) -> [u8; 2] {
    match fate {
        Fate::Pass => [b'p', NONE],
        Fate::Accepted { acl } => [b'a', letter(acl)],
        Fate::Dropped { acl } => [b'd', letter(acl)],
        Fate::Scrubbed { mid } => [b's', digit(u64::from(mid))],
    }
}
