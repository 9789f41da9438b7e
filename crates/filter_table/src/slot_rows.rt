//! Rows by the slot that they stand in.

ghost use Rattle.std.specs.Prelude.{◌≡◌, ◌==◌, ◌&&◌, ◌<◌, ◌≤◌, None, Some, map, length, option_map, option_copied, [], IfOk, slice_set, vec_capacity};
ghost use Rattle.filter_table.specs.TableRows.{is_of_client, row_is_of, row_woken};
ghost use Rattle.filter_table.specs.Rows.{in_slot, slot_is_of, woken_at};
ghost use Rattle.filter_table.specs.Slots.{HasEachSlot};

use crate::placed::is_of_client;
use acl_lists::ScrubRow;
use dots_lists::NoMemory;
use std::alloc::Global;

/// So many slots without rows.
pub fn empty_slots(alloc: Global, room: usize) -> Result<Vec<Option<ScrubRow>>, NoMemory>
    ensures { IfOk result (λ rows. length rows.items ≡ room) }
{
    let mut rows = Vec::with_capacity(alloc, room)?;
    rows.resize_with(room, || None)?;
    Ok(rows)
}

/// Each slot below the room.
pub fn all_slots(alloc: Global, room: u32) -> Result<Vec<u32>, NoMemory>
    ensures slots { IfOk result (λ slots. HasEachSlot room slots.items []) }
    ensures capacity { IfOk result (λ slots. room ≤ vec_capacity slots) }
{
    let mut slots = Vec::with_capacity(alloc, room as usize)?;
    for slot in 0..room {
        slots.push_reserved(slot);
    }
    Ok(slots)
}

/// The row that stands in this slot.
#[inline(always)]
pub fn row_in(slot: u32, rows: &[Option<ScrubRow>]) -> Option<&ScrubRow>
    ensures { option_copied result ≡ in_slot rows.now slot }
{
    match rows.get(slot as usize) {
        Some(Some(row)) => Some(row),
        Some(None) => None,
        None => None,
    }
}

/// Puts a row into a slot.
pub fn fill_slot(rows: &mut Vec<Option<ScrubRow>>, slot: u32, row: ScrubRow)
    requires { slot < length rows.old.items }
    ensures { rows.new.items ≡ slice_set rows.old.items slot (Some row) }
{
    rows[slot as usize] = Some(row);
}

/// Takes the row out of a slot.
pub fn empty_slot(rows: &mut Vec<Option<ScrubRow>>, slot: u32) -> Option<ScrubRow>
    requires { slot < length rows.old.items }
    ensures row { result ≡ in_slot rows.old.items slot }
    ensures items { rows.new.items ≡ slice_set rows.old.items slot None }
{
    rows[slot as usize].take()
}

/// Whether the row is one of this mitigation.
fn is_of(row: &ScrubRow, domain: u16, cuid: &[u8], mid: u32) -> bool
    ensures { result ≡ row_is_of domain cuid.now mid row.now }
{
    is_of_client(domain, cuid, row.domain, &row.cuid) && row.mid == mid
}

/// Whether the row in this slot is one of this mitigation.
pub fn is_in_slot(slot: u32, rows: &[Option<ScrubRow>], domain: u16, cuid: &[u8], mid: u32) -> bool
    ensures { result ≡ slot_is_of domain cuid.now mid rows.now slot }
{
    match row_in(slot, rows) {
        Some(row) => is_of(row, domain, cuid, mid),
        None => false,
    }
}

/// Says of the row in this slot, where it is one of this mitigation, whether it is active.
pub fn wake_in_slot(
    slot: u32,
    rows: &mut Vec<Option<ScrubRow>>,
    domain: u16,
    cuid: &[u8],
    mid: u32,
    active: bool,
)
    ensures { rows.new.items ≡ woken_at domain cuid.now mid active slot rows.old.items }
{
    let at = slot as usize;
    if rows.len() <= at {
        return;
    }
    wake_slot(&mut rows[at], domain, cuid, mid, active);
}

fn wake_slot(slot: &mut Option<ScrubRow>, domain: u16, cuid: &[u8], mid: u32, active: bool)
    ensures { slot.new ≡ option_map (row_woken domain cuid.now mid active) slot.old }
{
    if let Some(row) = slot {
        wake_row(row, domain, cuid, mid, active);
    }
}

fn wake_row(row: &mut ScrubRow, domain: u16, cuid: &[u8], mid: u32, active: bool)
    ensures { row.new ≡ row_woken domain cuid.now mid active row.old }
{
    if is_of(row, domain, cuid, mid) {
        row.active = active;
    }
}
