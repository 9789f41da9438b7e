//! Which packets a row scrubs.

ghost use Rattle.std.specs.Prelude.{◌≡◌, ◌&&◌, ◌==◌, nat_le};
ghost use Rattle.std.specs.List.{list_any};
ghost use Rattle.acl_lists.specs.RowMatching.{has_protocol, has_port, is_scrubbed};

use crate::packet::Packet;
use ip_scope::{PortRange, Prefix, holds};

/// Whether the packet goes to an address of the prefix, its protocol is listed or none is, and its destination port
/// lies in a range or there is none.
pub fn is_scrubbed(prefix: &Prefix, protocols: &[u8], ranges: &[PortRange], packet: &Packet) -> bool
    ensures { result ≡ is_scrubbed prefix.now protocols.now ranges.now packet.now }
{
    holds(prefix, &packet.destination)
        && has_protocol(protocols, packet)
        && has_port(ranges, packet.ports)
}

#[tactic(auto, unfolding(crate::specs::RowMatching::has_protocol))]
fn has_protocol(protocols: &[u8], packet: &Packet) -> bool
    ensures { result ≡ has_protocol protocols.now packet.now }
{
    if protocols.is_empty() {
        return true;
    }
    is_listed(protocols, packet.protocol)
}

fn is_listed(protocols: &[u8], wanted: u8) -> bool
    ensures { result ≡ list_any (λ protocol. protocol == wanted) protocols.now }
{
    protocols.iter().any(|protocol| *protocol == wanted)
}

#[tactic(auto, unfolding(crate::specs::RowMatching::has_port))]
fn has_port(ranges: &[PortRange], ports: Option<(u16, u16)>) -> bool
    ensures { result ≡ has_port ranges.now ports }
{
    if ranges.is_empty() {
        return true;
    }
    match ports {
        Some((_, port)) => is_in_range(ranges, port),
        None => false,
    }
}

fn is_in_range(ranges: &[PortRange], port: u16) -> bool
    ensures { result ≡ list_any (λ range. nat_le range.lower port && nat_le port range.upper) ranges.now }
{
    ranges
        .iter()
        .any(|range| range.lower() <= port && port <= range.upper())
}
