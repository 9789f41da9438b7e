//! How the kept slots of a half are copied to the other half.

ghost use Rattle.std.specs.Prelude.{◌≡◌, ℕ, ◌+◌, ◌-◌, ◌*◌, ◌%◌, ◌<◌, ◌≤◌, List, length, IfOk, OnOk};
ghost use Rattle.dots_host.specs.Causes.{HasCause};
ghost use Rattle.dots_host.specs.Media.{byte_of};
ghost use Rattle.dots_host.specs.Becoming.{KeepsMedia, Leaves, RestsWith};
ghost use Rattle.slot_store.specs.Formats.{upgraded, rewritten};
ghost use Rattle.slot_store.specs.Layout.{needed_of, place_of, IsSlot};
ghost use Rattle.slot_store.specs.Opening.{Is};
ghost use Rattle.slot_store.specs.Gates.{Sees};
ghost use Rattle.slot_store.specs.Copying.{AreSlots, IsCopy, IsEnough, BesideHalf, HalfIsCopied, IsMoving, IsMoved, other_selector, len_of};

use crate::format::{Format, format_byte};
use crate::header::InUse;
use crate::layout::{MAX_RECORD, SLOT, format_place, place_of};
use crate::selecting::{other_selector, select};
use crate::upgrading::upgrade;
use dots_host::{Disk, Failed};

/// Makes the slot in the room one of the second format, and answers how many bytes its gate, length and record are. A slot that says that its
/// record is longer than a slot stays as it is.
fn rewrite(format: Format, room: &mut [u8]) -> usize
    requires { length room.old ≡ 8192 }
    ensures slot { (filled : List ℕ) → IsSlot (byte_of room.old) 0 filled → IsSlot (byte_of room.new) 0 (rewritten format filled) }
    ensures enough { (0 < result) × (result ≤ 8192) }
    ensures all { (offset : ℕ) → offset < 8192 → offset < 3 + len_of (byte_of room.new) 0 → offset < result }
{
    let len = 256 * usize::from(room[1]) + usize::from(room[2]);
    if len > MAX_RECORD {
        return SLOT;
    }
    match format {
        Format::One => put_upgraded(room, len),
        Format::Two => 3 + len,
    }
}

/// Makes the record of the slot in the room, of this length, one of the second format, and answers how many bytes gate, length and record are.
fn put_upgraded(room: &mut [u8], len: usize) -> usize
    requires room { length room.old ≡ 8192 }
    requires len { len ≤ 8189 }
    ensures slot { (filled : List ℕ) → IsSlot (byte_of room.old) 0 filled → len ≡ length filled → IsSlot (byte_of room.new) 0 (upgraded filled) }
    ensures size { result ≡ 3 + len_of (byte_of room.new) 0 }
    ensures fits { result ≤ 8192 }
{
    let upgraded = upgrade(&mut room[3..], len);
    room[1] = (upgraded / 256) as u8;
    room[2] = (upgraded % 256) as u8;
    3 + upgraded
}

/// Reads what the slot of the other half is to hold, and answers how many bytes that are: gate, length and record of
/// the slot that the list names there, in the second format, or a closed gate behind the list.
fn fill_slot<D: Disk>(
    disk: &mut D,
    slots: u32,
    half: u8,
    format: Format,
    keep: &[u32],
    slot: u32,
    room: &mut [u8],
) -> Result<usize, Failed>
    requires half { half < 2 }
    requires size { needed_of slots ≤ D.extent disk.old }
    requires keep { AreSlots slots keep.now }
    requires room { length room.old ≡ 8192 }
    ensures copy { OnOk result ((seen : ℕ → ℕ) → Sees (D.media disk.old) seen → IsCopy slots half format keep.now seen slot (byte_of room.new) 0) }
    ensures enough { IfOk result (IsEnough keep.now slot (byte_of room.new)) }
    ensures keeps { KeepsMedia (D.media disk.old) (D.media disk.new) }
    ensures extent { D.extent disk.new ≡ D.extent disk.old }
    ensures cause { HasCause (D.faults disk.old) (D.faults disk.new) result }
    ensures beside { D.beside disk.old disk.new }
{
    let index = slot as usize;
    if index >= keep.len() {
        room[0] = 0;
        return Ok(1);
    }
    let at = place_of(slots, half, keep[index]);
    disk.read(at, room)?;
    Ok(rewrite(format, room))
}

/// Copies the kept slots to the other half in the second format, closes the gates behind them, says the format in the header, and syncs.
///
/// What stood behind a record or a closed gate stays, since it means nothing.
pub fn copy_half<D: Disk>(
    disk: &mut D,
    slots: u32,
    half: u8,
    format: Format,
    keep: &[u32],
    room: &mut [u8],
) -> Result<(), Failed>
    requires half { half < 2 }
    requires size { needed_of slots ≤ D.extent disk.old }
    requires keep { AreSlots slots keep.now }
    requires room { length room.old ≡ 8192 }
    ensures moments { (seen : ℕ → ℕ) → RestsWith (D.media disk.old) (Is seen) →
        Leaves (D.media disk.old) (D.media disk.new) (BesideHalf slots (1 - half) seen) }
    ensures copied { OnOk result ((seen : ℕ → ℕ) → RestsWith (D.media disk.old) (Is seen) →
        RestsWith (D.media disk.new) (HalfIsCopied slots half format keep.now seen)) }
    ensures extent { D.extent disk.new ≡ D.extent disk.old }
    ensures cause { HasCause (D.faults disk.old) (D.faults disk.new) result }
    ensures beside { D.beside disk.old disk.new }
{
    for slot in 0..slots {
        let size = fill_slot(disk, slots, half, format, keep, slot, room)?;
        let at = place_of(slots, 1 - half, slot);
        disk.write_at(at, &room[..size])?;
    }
    let second = format_byte(Format::Two);
    disk.write_at(format_place(1 - half), &[second])?;
    disk.sync()?;
    Ok(())
}

/// Copies the kept slots of the half in use to the other half, and then names that half by the selector.
pub fn move_half<D: Disk>(
    disk: &mut D,
    slots: u32,
    in_use: InUse,
    keep: &[u32],
    room: &mut [u8],
) -> Result<(), Failed>
    requires size { needed_of slots ≤ D.extent disk.old }
    requires keep { AreSlots slots keep.now }
    requires room { length room.old ≡ 8192 }
    ensures moments { (seen : ℕ → ℕ) → RestsWith (D.media disk.old) (Is seen) →
        Leaves (D.media disk.old) (D.media disk.new) (IsMoving slots (in_use.selector % 2) in_use.format keep.now seen) }
    ensures moved { OnOk result ((seen : ℕ → ℕ) → RestsWith (D.media disk.old) (Is seen) →
        RestsWith (D.media disk.new) (IsMoved slots (in_use.selector % 2) in_use.format keep.now seen (other_selector in_use.selector))) }
    ensures extent { D.extent disk.new ≡ D.extent disk.old }
    ensures cause { HasCause (D.faults disk.old) (D.faults disk.new) result }
    ensures beside { D.beside disk.old disk.new }
{
    copy_half(disk, slots, in_use.selector % 2, in_use.format, keep, room)?;
    let other = other_selector(in_use.selector);
    select(disk, other)?;
    Ok(())
}
