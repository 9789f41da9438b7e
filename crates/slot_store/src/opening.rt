//! The one way in which a gate is opened.

ghost use Rattle.std.specs.Prelude.{◌≡◌, ℕ, ◌+◌, ◌<◌, ◌≤◌, ◌^◌, length, OnOk};
ghost use Rattle.dots_host.specs.Causes.{HasCause};
ghost use Rattle.dots_host.specs.Becoming.{Leaves, RestsWith};
ghost use Rattle.slot_store.specs.Opening.{IsOpening, IsOpened, Is};

use crate::wanted::OPEN;
use dots_host::{Disk, Failed};

/// Writes the bytes behind the gate at the place, and opens the gate by a write of its own once they are on the disk.
pub fn open_gate<D: Disk>(disk: &mut D, at: u64, bytes: &[u8]) -> Result<(), Failed>
    requires room { at + 1 + length bytes.now ≤ D.extent disk.old }
    requires small { at + 1 < 2 ^ 64 }
    ensures moments { (seen : ℕ → ℕ) → RestsWith (D.media disk.old) (Is seen) →
        Leaves (D.media disk.old) (D.media disk.new) (IsOpening seen at bytes.now) }
    ensures opened { OnOk result ((seen : ℕ → ℕ) → RestsWith (D.media disk.old) (Is seen) →
        RestsWith (D.media disk.new) (IsOpened seen at bytes.now)) }
    ensures extent { D.extent disk.new ≡ D.extent disk.old }
    ensures cause { HasCause (D.faults disk.old) (D.faults disk.new) result }
    ensures beside { D.beside disk.old disk.new }
{
    disk.write_at(at + 1, bytes)?;
    disk.sync()?;
    disk.write_at(at, &[OPEN])?;
    disk.sync()?;
    Ok(())
}
