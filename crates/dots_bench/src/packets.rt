//! Drawn packets, with their fates.

use crate::draws::{Draws, has_ports};
use acl_lists::{AclRow, Fate, Packet, PrefixList, ScrubRow, fate_by_rows};
use anyhow::Result;
use ip_scope::Family;
use std::alloc::Global;

fn packet(draws: &mut Draws) -> Packet {
    let family = draws.family();
    let source = draws.address(family);
    let destination = draws.address(family);
    let protocol = draws.protocol();
    let ports = if has_ports(protocol) {
        Some((draws.port(), draws.port()))
    } else {
        None
    };
    Packet {
        source,
        destination,
        protocol,
        ports,
    }
}

fn family_of(packet: &Packet) -> u8 {
    match packet.source.family {
        Family::V4 => 4,
        Family::V6 => 6,
    }
}

/// The words of a fate.
fn fate(alloc: Global, fate: &Fate<'_>) -> Result<String> {
    let text = match fate {
        Fate::Pass => format!(in alloc; "pass 0")?,
        Fate::Accepted { acl } => { format!(in alloc; "accepted {}", acl.bytes().escape_ascii())? }
        Fate::Dropped { acl } => { format!(in alloc; "dropped {}", acl.bytes().escape_ascii())? }
        Fate::Scrubbed { mid } => format!(in alloc; "scrubbed {mid}")?,
    };
    Ok(text)
}

/// The line of a drawn packet with its fate by these rows and lists.
pub fn line(
    alloc: Global,
    draws: &mut Draws,
    domains: &[PrefixList],
    rows: &[ScrubRow],
    lists: &[AclRow],
) -> Result<String> {
    let packet = packet(draws);
    let found = fate_by_rows(domains, rows, lists, &packet);
    let words = fate(alloc, &found)?;
    let (source, destination) = packet.ports.unwrap_or((0, 0));
    let text = format!(in alloc;
        "packet {} {} {} {} {source} {destination} {}\n",
        family_of(&packet),
        packet.source.number,
        packet.destination.number,
        packet.protocol,
        words.as_str()
    )?;
    Ok(text)
}
