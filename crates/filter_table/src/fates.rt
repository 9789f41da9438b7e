//! What becomes of a packet by the rows that a table holds.

ghost use Rattle.std.specs.Prelude.{◌≡◌, map, option_map};
ghost use Rattle.acl_lists.specs.Fates.{decision_of_row, decision_of_rows, fate_by_rows};
ghost use Rattle.acl_lists.specs.HandedOut.{fate_of};
ghost use Rattle.filter_table.specs.TableRows.{row_of_scrub, row_of_acl};
ghost use Rattle.dots_settings.specs.Lookups.{prefixes_of};

use crate::placed::PlacedAcl;
use crate::scrubs::Scrubs;
use acl_lists::{AclRow, Fate, Packet, decision};
use dots_settings::Settings;
use ip_scope::Prefix;

/// What the first matching entry of the active access lists says; else the packet is scrubbed for the greatest mid of the active
/// rows of mitigations that match; else it passes.
pub fn fate_by_placed<'a>(
    settings: &Settings,
    scrubs: &Scrubs,
    acls: &'a [PlacedAcl],
    packet: &Packet,
) -> Fate<'a>
    ensures { fate_of result ≡ fate_by_rows (prefixes_of settings.now) (map row_of_scrub scrubs.now.placed) (map row_of_acl acls.now) packet.now }
{
    if let Some(decided) = decision_of_acls(settings, acls, packet) {
        return decided;
    }
    match scrubs.greatest_mid(packet) {
        Some(mid) => Fate::Scrubbed { mid },
        None => Fate::Pass,
    }
}

/// What the first active list with an entry that matches says.
fn decision_of_acls<'a>(
    settings: &Settings,
    acls: &'a [PlacedAcl],
    packet: &Packet,
) -> Option<Fate<'a>>
    ensures { option_map fate_of result ≡ decision_of_rows (prefixes_of settings.now) packet.now (map row_of_acl acls.now) }
{
    for list in acls {
        if let Some(decided) = decision_of_row(settings, &list.row, packet) {
            return Some(decided);
        }
    }
    None
}

/// What the list says, where it is active.
fn decision_of_row<'a>(settings: &Settings, row: &'a AclRow, packet: &Packet) -> Option<Fate<'a>>
    ensures { option_map fate_of result ≡ decision_of_row (prefixes_of settings.now) packet.now row.now }
{
    if !row.active {
        return None;
    }
    decision(settings.prefixes_of(row.domain), packet, &row.acl)
}
