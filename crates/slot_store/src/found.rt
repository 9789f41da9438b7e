//! The record of a slot, as it stands on a disk.

ghost use Rattle.std.specs.Prelude.{◌≡◌, ℕ, ◌+◌, ◌≤◌, IfOk, MatchOption};
ghost use Rattle.dots_host.specs.Causes.{HasCause};
ghost use Rattle.dots_host.specs.Becoming.{KeepsMedia};
ghost use Rattle.slot_store.specs.Gates.{Sees};
ghost use Rattle.slot_store.specs.StoreValues.{IsFound};

use crate::layout::{MAX_RECORD, SLOT};
use dots_host::{Disk, Failed};

/// Reads the slot at the place, and answers the length of its record, which stands in the room behind the gate and the
/// two bytes of length, or None where it would be longer than a slot.
pub fn read_slot<D: Disk>(
    disk: &mut D,
    at: u64,
    room: &mut [u8; SLOT],
) -> Result<Option<usize>, Failed>
    requires { at + 8192 ≤ D.extent disk.old }
    ensures record { IfOk result (λ found. (seen : ℕ → ℕ) → Sees (D.media disk.old) seen → IsFound seen at room.new found) }
    ensures fits { IfOk result (λ found. MatchOption found (Unit {0}) (λ len. len ≤ 8189)) }
    ensures keeps { KeepsMedia (D.media disk.old) (D.media disk.new) }
    ensures extent { D.extent disk.new ≡ D.extent disk.old }
    ensures cause { HasCause (D.faults disk.old) (D.faults disk.new) result }
    ensures beside { D.beside disk.old disk.new }
{
    disk.read(at, room)?;
    let len = 256 * usize::from(room[1]) + usize::from(room[2]);
    if len > MAX_RECORD {
        return Ok(None);
    }
    Ok(Some(len))
}
