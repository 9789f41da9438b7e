ghost use Rattle.std.specs.Prelude.{◌≡◌, option_map};
ghost use Rattle.acl_lists.specs.Matching.{ace_matches, source_matches, destination_matches, protocol_matches, goes_to};

use crate::ace::Ace;
use crate::acl::Acl;
use crate::packet::Packet;
use ip_scope::{Addr, Family, Prefix, holds};

/// Whether the entry of the list matches the packet; `domain` is the prefixes of the client's domain.
pub fn ace_matches(acl: &Acl, ace: &Ace, domain: &[Prefix], packet: &Packet) -> bool
    ensures { result ≡ ace_matches acl.now ace.now domain.now packet.now }
{
    let source_port = packet.ports.map(|(source, _)| source);
    let destination_port = packet.ports.map(|(_, destination)| destination);
    source_matches(ace, packet)
        && destination_matches(acl, ace, domain, packet)
        && protocol_matches(ace, packet)
        && ace.source_port.passes(source_port)
        && ace.destination_port.passes(destination_port)
}

fn source_matches(ace: &Ace, packet: &Packet) -> bool
    ensures { result ≡ source_matches ace.now packet.now }
{
    match &ace.source {
        Some(prefix) => holds(prefix, &packet.source),
        None => true,
    }
}

fn destination_matches(acl: &Acl, ace: &Ace, domain: &[Prefix], packet: &Packet) -> bool
    ensures { result ≡ destination_matches acl.now ace.now domain.now packet.now }
{
    match &ace.destination {
        Some(prefix) => holds(prefix, &packet.destination),
        None => goes_to(domain, acl.family, &packet.destination),
    }
}

fn protocol_matches(ace: &Ace, packet: &Packet) -> bool
    ensures { result ≡ protocol_matches ace.now packet.now }
{
    match ace.protocol {
        Some(protocol) => packet.protocol == protocol,
        None => true,
    }
}

/// Whether a prefix of the domain that is of this family has the address.
fn goes_to(domain: &[Prefix], family: Family, address: &Addr) -> bool
    ensures { result ≡ goes_to domain.now family address.now }
{
    domain.iter().any(|prefix| prefix.family().is_same(family) && holds(prefix, address))
}
