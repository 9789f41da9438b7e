//! What becomes of a packet.

ghost use Rattle.std.specs.Prelude.{◌≡◌, option_map, option_copied, filter, map, find};
ghost use Rattle.acl_lists.specs.Matching.{ace_matches};
ghost use Rattle.acl_lists.specs.Fates.{decision, decision_of_row, decision_of_rows, scrubs, greatest, greatest_from, fate_by_rows};
ghost use Rattle.acl_lists.specs.HandedOut.{fate_of, prefixes_in};

use crate::ace::Ace;
use crate::acl::Acl;
use crate::asked::PrefixList;
use crate::matching::ace_matches;
use crate::packet::Packet;
use crate::row_matching::is_scrubbed;
use crate::rows::{AclRow, ScrubRow};
use dots_lists::Name;
use ip_scope::Prefix;

/// What becomes of a packet.
#[derive(Clone, Copy, Drop)]
pub enum Fate<'a> {
    /// No filter matches.
    Pass,
    /// An entry of this access list accepts it.
    Accepted { acl: &'a Name },
    /// An entry of this access list drops it.
    Dropped { acl: &'a Name },
    /// It is scrubbed for the mitigation of this mid.
    Scrubbed { mid: u32 },
}

/// The fate of a packet by rows in order: what the first matching entry of the active access lists says (RFC 8519,
/// section 2); else it is scrubbed for the greatest mid of the active scrub rows that match; else it passes. `domains`
/// has the prefixes of each domain, by its number.
pub fn fate_by_rows<'a>(
    domains: &[PrefixList],
    scrubs: &[ScrubRow],
    lists: &'a [AclRow],
    packet: &Packet,
) -> Fate<'a>
    ensures { fate_of result ≡ fate_by_rows (prefixes_in domains.now) scrubs.now lists.now packet.now }
{
    if let Some(decided) = decision_of_rows(domains, lists, packet) {
        return decided;
    }
    match greatest_mid(scrubs, packet) {
        Some(mid) => Fate::Scrubbed { mid },
        None => Fate::Pass,
    }
}

/// The greatest mid of the active rows that match.
#[tactic(auto, using(crate::proofs::Greatest::greater_more))]
fn greatest_mid(rows: &[ScrubRow], packet: &Packet) -> Option<u32>
    ensures { result ≡ greatest (map (λ row. row.mid) (filter (scrubs packet.now) rows.now)) }
{
    let mut found = None;
    for row in rows {
        if scrubs(packet, row) {
            found = Some(greatest_from(row.mid, found));
        }
    }
    found
}

/// Whether the row is active and matches.
fn scrubs(packet: &Packet, row: &ScrubRow) -> bool
    ensures { result ≡ scrubs packet.now row.now }
{
    row.active
        && is_scrubbed(
            &row.prefix,
            row.protocols.items(),
            row.ports.items(),
            packet,
        )
}

/// The greater of the two, where there are two.
pub fn greatest_from(mid: u32, other: Option<u32>) -> u32
    ensures { result ≡ greatest_from mid other }
{
    match other {
        Some(other) => mid.max(other),
        None => mid,
    }
}

/// What the first active list with an entry that matches says.
fn decision_of_rows<'a>(
    domains: &[PrefixList],
    lists: &'a [AclRow],
    packet: &Packet,
) -> Option<Fate<'a>>
    ensures { option_map fate_of result ≡ decision_of_rows (prefixes_in domains.now) packet.now lists.now }
{
    for row in lists {
        if let Some(decided) = decision_of_row(domains, row, packet) {
            return Some(decided);
        }
    }
    None
}

/// What the list says, where it is active.
fn decision_of_row<'a>(domains: &[PrefixList], row: &'a AclRow, packet: &Packet) -> Option<Fate<'a>>
    ensures { option_map fate_of result ≡ decision_of_row (prefixes_in domains.now) packet.now row.now }
{
    if !row.active {
        return None;
    }
    decision(prefixes_in(domains, row.domain), packet, &row.acl)
}

/// The prefixes of the domain of this number; none where there is no such domain.
fn prefixes_in(domains: &[PrefixList], domain: u16) -> &[Prefix]
    ensures { result.now ≡ prefixes_in domains.now domain }
{
    match domains.get(usize::from(domain)) {
        Some(prefixes) => prefixes.items(),
        None => &[],
    }
}

/// What the first entry of a list that matches does, in a domain of these prefixes.
pub fn decision<'a>(domain: &[Prefix], packet: &Packet, acl: &'a Acl) -> Option<Fate<'a>>
    ensures { option_map fate_of result ≡ decision domain.now packet.now acl.now }
{
    let ace = first_match(domain, packet, acl)?;
    if ace.accept {
        return Some(Fate::Accepted { acl: &acl.name });
    }
    Some(Fate::Dropped { acl: &acl.name })
}

fn first_match<'a>(domain: &[Prefix], packet: &Packet, acl: &'a Acl) -> Option<&'a Ace>
    ensures { option_copied result ≡ find (λ ace. ace_matches acl.now ace domain.now packet.now) acl.now.aces }
{
    for ace in acl.aces.items() {
        if ace_matches(acl, ace, domain, packet) {
            return Some(ace);
        }
    }
    None
}
