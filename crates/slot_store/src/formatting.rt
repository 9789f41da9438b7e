//! How a disk is opened: the header is tested, or written on a disk that has none.

ghost use Rattle.std.specs.Prelude.{◌≡◌, ◌≢◌, ℕ, ◌+◌, ◌*◌, ◌%◌, ◌<◌, ◌≤◌, ◌⊎◌, [], List, OnOk, IfOk, IfErr};
ghost use Rattle.dots_host.specs.Causes.{HasCause};
ghost use Rattle.dots_host.specs.Media.{bytes_at};
ghost use Rattle.dots_host.specs.Becoming.{KeepsMedia, Leaves, RestsWith};
ghost use Rattle.slot_store.specs.Layout.{needed_of, header_of, place_of, IsZeroFrom, IsBlank, IsJournal, HasRecords};
ghost use Rattle.slot_store.specs.Opening.{Is};
ghost use Rattle.slot_store.specs.Gates.{Sees};
ghost use Rattle.slot_store.specs.Refusing.{RefusesGates, RefusesDisk, IsNoSize, IsOpen, Caused};

use crate::fault::{DiskFault, OpenFault};
use crate::format::Format;
use crate::gates::find_gate;
use crate::header::{HEADER, InUse, check_header, header};
use crate::layout::SLOT;
use crate::opening::open_gate;
use crate::wanted::{OPEN, Wanted};
use dots_host::{Disk, Failed};

/// Refuses a disk without a header of whose gates one isn't zero.
fn check_gates<D: Disk>(disk: &mut D, slots: u32) -> Result<(), OpenFault>
    requires { needed_of slots ≤ D.extent disk.old }
    ensures none { OnOk result ((seen : ℕ → ℕ) → Sees (D.media disk.old) seen → seen 0 ≢ 165 → IsBlank slots seen []) }
    ensures refused { IfErr result (λ fault. (seen : ℕ → ℕ) → Sees (D.media disk.old) seen → RefusesGates slots seen fault) }
    ensures sized { IfErr result IsNoSize }
    ensures keeps { KeepsMedia (D.media disk.old) (D.media disk.new) }
    ensures extent { D.extent disk.new ≡ D.extent disk.old }
    ensures cause { Caused (D.faults disk.old) (D.faults disk.new) result }
    ensures beside { D.beside disk.old disk.new }
{
    match find_gate(disk, SLOT as u64, 0, 2 * u64::from(slots), Wanted::NotZero) {
        Ok(None) => return Ok(()),
        Ok(Some(index)) => {
            let at = SLOT as u64 * (1 + index);
            return Err(OpenFault::NotOurs { at });
        }
        Err(Failed) => return Err(OpenFault::DiskFault),
    }
}

/// Formats a disk without a header, each of whose gates is zero, in the second format.
pub fn format_disk<D: Disk>(disk: &mut D, slots: u32, digest: &[u8; 32]) -> Result<(), OpenFault>
    requires { needed_of slots ≤ D.extent disk.old }

    // The disk held no record, and holds none at each moment.
    ensures moments { (seen : ℕ → ℕ) → RestsWith (D.media disk.old) (Is seen) → IsBlank slots seen [] →
        Leaves (D.media disk.old) (D.media disk.new) (λ image. HasRecords slots digest.now Format.Two image []) }
    ensures blank { OnOk result ((seen : ℕ → ℕ) → RestsWith (D.media disk.old) (Is seen) → seen 0 ≢ 165 → IsBlank slots seen []) }
    ensures formatted { OnOk result ((seen : ℕ → ℕ) → RestsWith (D.media disk.old) (Is seen) → seen 0 ≢ 165 →
        RestsWith (D.media disk.new) (λ image. IsJournal slots digest.now Format.Two image [] × (image 48 ≡ 0))) }
    ensures refused { IfErr result (λ fault. (seen : ℕ → ℕ) → RestsWith (D.media disk.old) (Is seen) → RefusesGates slots seen fault) }
    ensures sized { IfErr result IsNoSize }
    ensures unwritten { IfErr result (λ fault. fault ≢ OpenFault.DiskFault → KeepsMedia (D.media disk.old) (D.media disk.new)) }
    ensures extent { D.extent disk.new ≡ D.extent disk.old }
    ensures cause { Caused (D.faults disk.old) (D.faults disk.new) result }
    ensures beside { D.beside disk.old disk.new }
{
    check_gates(disk, slots)?;
    let header = header(slots, digest, Format::Two);
    match open_gate(disk, 0, &header[1..]) {
        Ok(()) => return Ok(()),
        Err(Failed) => return Err(OpenFault::DiskFault),
    }
}

/// Formats a disk of zeros in the first format. It exists so that journals of that format can be made and tried.
///
/// It makes two writes and two syncs. What stands behind the header stays.
pub fn format_one<D: Disk>(disk: &mut D, slots: u32, digest: &[u8; 32]) -> Result<(), DiskFault>
    requires { needed_of slots ≤ D.extent disk.old }

    // At each moment each image is blank, or it is a journal of the first format that holds no record; in the end it is that alone.
    ensures moments { RestsWith (D.media disk.old) (IsZeroFrom 0) →
        Leaves (D.media disk.old) (D.media disk.new) (λ image. IsBlank slots image [] ⊎ IsJournal slots digest.now Format.One image []) }
    ensures formatted { OnOk result (RestsWith (D.media disk.old) (IsZeroFrom 0) →
        RestsWith (D.media disk.new) (λ image. IsJournal slots digest.now Format.One image [] × IsZeroFrom 64 image)) }

    ensures extent { D.extent disk.new ≡ D.extent disk.old }
    ensures cause { HasCause (D.faults disk.old) (D.faults disk.new) result }
    ensures beside { D.beside disk.old disk.new }
{
    let header = header(slots, digest, Format::One);
    match open_gate(disk, 0, &header[1..]) {
        Ok(()) => return Ok(()),
        Err(Failed) => return Err(DiskFault),
    }
}

/// Syncs, and reads the header.
fn read_header<D: Disk>(disk: &mut D, found: &mut [u8; HEADER]) -> Result<(), Failed>
    requires { 64 ≤ D.extent disk.old }
    ensures moments { (seen : ℕ → ℕ) → RestsWith (D.media disk.old) (Is seen) →
        Leaves (D.media disk.old) (D.media disk.new) (Is seen) }
    ensures rests { OnOk result ((seen : ℕ → ℕ) → Sees (D.media disk.old) seen → RestsWith (D.media disk.new) (Is seen)) }
    ensures bytes { OnOk result ((seen : ℕ → ℕ) → Sees (D.media disk.old) seen → found.new ≡ bytes_at seen 0 64) }
    ensures extent { D.extent disk.new ≡ D.extent disk.old }
    ensures cause { HasCause (D.faults disk.old) (D.faults disk.new) result }
    ensures beside { D.beside disk.old disk.new }
{
    disk.sync()?;
    disk.read(0, found)?;
    Ok(())
}

/// Tests the header that was read, or formats a disk that has none. Answers what the header then says of the half in use.
fn open_found<D: Disk>(
    disk: &mut D,
    slots: u32,
    digest: &[u8; 32],
    found: &[u8; HEADER],
) -> Result<InUse, OpenFault>
    requires { needed_of slots ≤ D.extent disk.old }
    ensures moments { (seen : ℕ → ℕ) (format : Format) (records : List (List ℕ)) → RestsWith (D.media disk.old) (Is seen) →
        found.now ≡ bytes_at seen 0 64 → HasRecords slots digest.now format seen records →
        Leaves (D.media disk.old) (D.media disk.new) (λ image. HasRecords slots digest.now format image records) }
    ensures opened { IfOk result (λ in_use. (seen : ℕ → ℕ) → RestsWith (D.media disk.old) (Is seen) →
        found.now ≡ bytes_at seen 0 64 → RestsWith (D.media disk.new) (IsOpen slots digest.now seen in_use.selector in_use.format)) }
    ensures refused { IfErr result (λ fault. (seen : ℕ → ℕ) → RestsWith (D.media disk.old) (Is seen) →
        found.now ≡ bytes_at seen 0 64 → RefusesDisk slots digest.now seen fault) }
    ensures sized { IfErr result IsNoSize }
    ensures unwritten { IfErr result (λ fault. fault ≢ OpenFault.DiskFault → KeepsMedia (D.media disk.old) (D.media disk.new)) }
    ensures extent { D.extent disk.new ≡ D.extent disk.old }
    ensures cause { Caused (D.faults disk.old) (D.faults disk.new) result }
    ensures beside { D.beside disk.old disk.new }
{
    let gate = found[0];
    if gate != OPEN {
        format_disk(disk, slots, digest)?;
        return Ok(InUse {
            selector: 0,
            format: Format::Two,
        });
    }
    check_header(found, slots, digest)
}

/// Syncs, then tests the header of a disk, or formats a disk that has none. Answers what the header then says of the half in use.
pub fn open_header<D: Disk>(disk: &mut D, slots: u32, digest: &[u8; 32]) -> Result<InUse, OpenFault>
    requires { needed_of slots ≤ D.extent disk.old }

    // A disk on which nothing was pending holds the same list at each moment.
    ensures moments { (seen : ℕ → ℕ) (format : Format) (records : List (List ℕ)) → RestsWith (D.media disk.old) (Is seen) →
        HasRecords slots digest.now format seen records →
        Leaves (D.media disk.old) (D.media disk.new) (λ image. HasRecords slots digest.now format image records) }
    ensures opened { IfOk result (λ in_use. (seen : ℕ → ℕ) → Sees (D.media disk.old) seen →
        RestsWith (D.media disk.new) (IsOpen slots digest.now seen in_use.selector in_use.format)) }
    ensures refused { IfErr result (λ fault. (seen : ℕ → ℕ) → Sees (D.media disk.old) seen →
        RefusesDisk slots digest.now seen fault) }
    ensures sized { IfErr result IsNoSize }
    ensures unwritten { IfErr result (λ fault. (seen : ℕ → ℕ) → fault ≢ OpenFault.DiskFault →
        RestsWith (D.media disk.old) (Is seen) → RestsWith (D.media disk.new) (Is seen)) }
    ensures extent { D.extent disk.new ≡ D.extent disk.old }
    ensures cause { Caused (D.faults disk.old) (D.faults disk.new) result }
    ensures beside { D.beside disk.old disk.new }
{
    let mut found = [0; HEADER];
    match read_header(disk, &mut found) {
        Ok(()) => return open_found(disk, slots, digest, &found),
        Err(Failed) => return Err(OpenFault::DiskFault),
    }
}
