//! The greatest mid of some rows that scrub a packet.

ghost use Rattle.std.specs.Prelude.{◌≡◌};
ghost use Rattle.acl_lists.specs.Fates.{scrubs};
ghost use Rattle.filter_table.specs.Best.{best, greater_of, mid_in};

use crate::covering::Covering;
use crate::slot_rows::row_in;
use acl_lists::{Packet, ScrubRow, greatest_from, is_scrubbed};

/// The greatest mid of the rows in the slots to come that scrub the packet.
pub fn greatest_covered(
    mut covering: Covering<'_>,
    rows: &[Option<ScrubRow>],
    packet: &Packet,
) -> Option<u32>
    ensures { result ≡ best (mid_in packet.now rows.now) covering.entry.slots }
{
    let mut found = None;
    while let Some(slots) = covering.next() {
        found = greater_in(rows, slots, packet, found);
    }
    found
}

/// The greatest of the mid found and of those of the rows in these slots that scrub the packet.
#[tactic(auto, using(crate::proofs::Bests::greater_more))]
#[inline(always)]
fn greater_in(
    rows: &[Option<ScrubRow>],
    slots: &[u32],
    packet: &Packet,
    before: Option<u32>,
) -> Option<u32>
    ensures { result ≡ greater_of before (best (mid_in packet.now rows.now) slots.now) }
{
    let mut found = before;
    for slot in slots {
        if let Some(mid) = mid_in(rows, *slot, packet) {
            found = Some(greatest_from(mid, found));
        }
    }
    found
}

/// The mid of the row in this slot, where it is active and matches.
fn mid_in(rows: &[Option<ScrubRow>], slot: u32, packet: &Packet) -> Option<u32>
    ensures { result ≡ mid_in packet.now rows.now slot }
{
    let row = row_in(slot, rows)?;
    if !scrubs(packet, row) {
        return None;
    }
    Some(row.mid)
}

/// Whether the row is active and matches.
fn scrubs(packet: &Packet, row: &ScrubRow) -> bool
    ensures { result ≡ scrubs packet.now row.now }
{
    row.active
        && is_scrubbed(
            &row.prefix,
            row.protocols.items(),
            row.ports.items(),
            packet,
        )
}
