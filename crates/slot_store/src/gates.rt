//! The gates of slots on a disk.

ghost use Rattle.std.specs.Prelude.{◌≡◌, ℕ, ◌+◌, ◌*◌, ◌<◌, ◌≤◌, ◌^◌, IfOk, IfErr, MatchOption};
ghost use Rattle.dots_host.specs.Causes.{HasCause};
ghost use Rattle.dots_host.specs.Becoming.{KeepsMedia};
ghost use Rattle.slot_store.specs.Gates.{Sees, NoneIs, IsFirst};
ghost use Rattle.slot_store.specs.Layout.{place_of, needed_of};
ghost use Rattle.slot_store.specs.Refusing.{IsCount, Caused};

use crate::fault::OpenFault;
use crate::layout::{SLOT, place_of};
use crate::wanted::{Wanted, is_wanted};
use dots_host::{Disk, Failed};

/// The byte at the place.
pub fn byte_at<D: Disk>(disk: &mut D, at: u64) -> Result<u8, Failed>
    requires { at + 1 ≤ D.extent disk.old }
    ensures byte { IfOk result (λ byte. (seen : ℕ → ℕ) → Sees (D.media disk.old) seen → byte ≡ seen at) }
    ensures keeps { KeepsMedia (D.media disk.old) (D.media disk.new) }
    ensures extent { D.extent disk.new ≡ D.extent disk.old }
    ensures cause { HasCause (D.faults disk.old) (D.faults disk.new) result }
    ensures beside { D.beside disk.old disk.new }
{
    let mut byte = [0];
    disk.read(at, &mut byte)?;
    Ok(byte[0])
}

/// The first of the gates that are looked for, in a range of slots behind the place of slot 0.
pub fn find_gate<D: Disk>(
    disk: &mut D,
    first: u64,
    from: u64,
    to: u64,
    what: Wanted,
) -> Result<Option<u64>, Failed>
    requires room { first + 8192 * to ≤ D.extent disk.old }
    requires small { first + 8192 * to < 2 ^ 64 }
    ensures found { IfOk result (λ found. (seen : ℕ → ℕ) → Sees (D.media disk.old) seen →
        MatchOption found (NoneIs what seen first from to) (IsFirst what seen first from to)) }
    ensures within { IfOk result (λ found. MatchOption found (Unit {0}) (λ at. (from ≤ at) × (at < to))) }
    ensures keeps { KeepsMedia (D.media disk.old) (D.media disk.new) }
    ensures extent { D.extent disk.new ≡ D.extent disk.old }
    ensures cause { HasCause (D.faults disk.old) (D.faults disk.new) result }
    ensures beside { D.beside disk.old disk.new }
{
    for index in from..to {
        let byte = byte_at(disk, first + SLOT as u64 * index)?;
        if is_wanted(what, byte) {
            return Ok(Some(index));
        }
    }
    Ok(None)
}

/// How many slots of the half have an open gate before the first that has none.
pub fn count_open<D: Disk>(disk: &mut D, slots: u32, half: u8) -> Result<u32, OpenFault>
    requires half { half < 2 }
    requires size { needed_of slots ≤ D.extent disk.old }
    ensures count { IfOk result (λ count. (seen : ℕ → ℕ) → Sees (D.media disk.old) seen → IsCount slots half seen count) }
    ensures fits { IfOk result (λ count. count ≤ slots) }
    ensures fault { IfErr result (λ fault. fault ≡ OpenFault.DiskFault) }
    ensures keeps { KeepsMedia (D.media disk.old) (D.media disk.new) }
    ensures extent { D.extent disk.new ≡ D.extent disk.old }
    ensures cause { Caused (D.faults disk.old) (D.faults disk.new) result }
    ensures beside { D.beside disk.old disk.new }
{
    let first = place_of(slots, half, 0);
    match find_gate(disk, first, 0, slots as u64, Wanted::NotOpen) {
        Ok(None) => return Ok(slots),
        Ok(Some(count)) => return Ok(count as u32),
        Err(Failed) => return Err(OpenFault::DiskFault),
    }
}
