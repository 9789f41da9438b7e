//! What becomes of the slots of a mitigation.

ghost use Rattle.std.specs.Prelude.{◌≡◌, ◌≤◌, length, option_map};
ghost use Rattle.dots_history.specs.Keeping.{is_open};
ghost use Rattle.dots_history.specs.Slots.{Rises, number_in};
ghost use Rattle.dots_history.specs.KeptPlaces.{union};
ghost use Rattle.live_mitigations.specs.Slots.{slots_moved};
ghost use Rattle.live_mitigations.specs.Numbers.{numbers_of, renumbered};

use crate::row::Row;
use crate::slots::MitigationSlots;
use dots_history::{Entry, SlotList, Status, number_in};

/// Notes the slot of an entry where it withdraws the mitigation.
pub(crate) fn note_withdrawal(slots: &mut MitigationSlots, row: &Row, entry: &Entry, slot: u32)
    ensures { slots.new ≡ slots_moved (record { entry = entry.now; slot = slot }) row.now slots.old }
{
    if is_open(row.status()) && row.is_withdrawn_by(entry) {
        slots.withdrawal = Some(slot);
    }
}

/// Puts the slots of a mitigation into the list.
pub(crate) fn put_numbers(slots: &MitigationSlots, into: &mut SlotList)
    requires { length (union (numbers_of slots.now) into.old.items) ≤ into.old.room }
    ensures { into.new ≡ record into.old { items = union (numbers_of slots.now) into.old.items } }
{
    if let Some(slot) = slots.withdrawal {
        into.put(slot);
    }
    into.put(slots.put);
}

/// Gives each its new number.
pub(crate) fn renumber(slots: &mut MitigationSlots, keep: &[u32])
    requires { Rises keep.now }
    ensures { slots.new ≡ renumbered keep.now slots.old }
{
    slots.put = number_in(keep, slots.put);
    slots.withdrawal = number_of(keep, slots.withdrawal);
}

fn number_of(keep: &[u32], slot: Option<u32>) -> Option<u32>
    requires { Rises keep.now }
    ensures { result ≡ option_map (number_in keep.now) slot }
{
    match slot {
        Some(slot) => Some(number_in(keep, slot)),
        None => None,
    }
}

/// Whether it is neither withdrawn nor ended.
fn is_open(status: Status) -> bool
    ensures { result ≡ is_open status }
{
    match status {
        Status::Open => true,
        Status::Withdrawn(_) | Status::Ended => false,
    }
}
