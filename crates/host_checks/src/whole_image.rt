//! A journal that is written whole.

ghost use Rattle.std.specs.Prelude.{◌≡◌, ℕ, ◌+◌, ◌≤◌, ◌∷◌, List, length, OnOk};
ghost use Rattle.dots_host.specs.Causes.{HasCause};
ghost use Rattle.dots_host.specs.Media.{byte_of};
ghost use Rattle.dots_host.specs.Becoming.{Leaves, RestsWith};
ghost use Rattle.slot_store.specs.Layout.{IsZeroFrom};
ghost use Rattle.slot_store.specs.Opening.{IsOpening, IsOpened, Is};
ghost use Rattle.host_checks.specs.Making.{IsNoneOrWhole};

use dots_host::{Disk, Failed};

/// The open gate, with which a journal begins.
const OPEN: u8 = 0xa5;

/// Writes the bytes behind the gate at the front of a disk, and opens the gate by a write of its own once they are on the disk.
fn open_front<D: Disk>(disk: &mut D, bytes: &[u8]) -> Result<(), Failed>
    requires { 1 + length bytes.now ≤ D.extent disk.old }
    ensures moments { (seen : ℕ → ℕ) → RestsWith (D.media disk.old) (Is seen) →
        Leaves (D.media disk.old) (D.media disk.new) (IsOpening seen 0 bytes.now) }
    ensures opened { OnOk result ((seen : ℕ → ℕ) → RestsWith (D.media disk.old) (Is seen) →
        RestsWith (D.media disk.new) (IsOpened seen 0 bytes.now)) }
    ensures extent { D.extent disk.new ≡ D.extent disk.old }
    ensures cause { HasCause (D.faults disk.old) (D.faults disk.new) result }
    ensures beside { D.beside disk.old disk.new }
{
    disk.write_at(1, bytes)?;
    disk.sync()?;
    disk.write_at(0, &[OPEN])?;
    disk.sync()?;
    Ok(())
}

/// Writes the image of a journal to a disk of zeros: the gate at its front is opened once all the rest is on the disk. An image that
/// doesn't begin with an open gate isn't written.
///
/// # Errors
///
/// `Failed` where the disk's count of faults rose.
pub fn write_whole<D: Disk>(disk: &mut D, image: &[u8]) -> Result<(), Failed>
    requires { length image.now ≤ D.extent disk.old }
    // At each moment each image has no journal, or the whole one; in the end that alone.
    ensures moments { RestsWith (D.media disk.old) (IsZeroFrom 0) → Leaves (D.media disk.old) (D.media disk.new) (IsNoneOrWhole image.now) }
    ensures written { OnOk result (byte_of image.now 0 ≡ 165 → RestsWith (D.media disk.old) (IsZeroFrom 0)
        → RestsWith (D.media disk.new) (λ left. left ≡ byte_of image.now)) }
    ensures extent { D.extent disk.new ≡ D.extent disk.old }
    ensures cause { HasCause (D.faults disk.old) (D.faults disk.new) result }
    ensures beside { D.beside disk.old disk.new }
{
    match image {
        [gate, rest @ ..] if *gate == OPEN => open_front(disk, rest),
        _ => Ok(()),
    }
}
