ghost use Rattle.std.specs.Prelude.{◌≡◌, ◌≢◌, ℕ, ◌+◌, ◌*◌, ◌%◌, ◌<◌, ◌≤◌, List, [], ◌∷◌, ◌++◌, length, map, IfOk, IfErr, OnOk, OnErr};
ghost use Rattle.dots_host.specs.Causes.{HasCause};
ghost use Rattle.dots_host.specs.Becoming.{Leaves, RestsWith};
ghost use Rattle.slot_store.specs.Formats.{rewritten};
ghost use Rattle.slot_store.specs.Layout.{place_of, needed_of, HasRecords};
ghost use Rattle.slot_store.specs.Opening.{Is};
ghost use Rattle.slot_store.specs.Gates.{Sees};
ghost use Rattle.slot_store.specs.Refusing.{Refuses, IsSmallBy, Caused};
ghost use Rattle.slot_store.specs.StoreValues.{RepresentsRecords, IsKnown, HasEither};
ghost use Rattle.slot_store.specs.Copying.{AreSlots, kept_of, other_selector};

use crate::copying::move_half;
use crate::fault::{DiskFault, OpenFault};
use crate::format::Format;
use crate::formatting::open_header;
use crate::gates::count_open;
use crate::header::InUse;
use crate::layout::{SLOT, needed_of, place_of};
use crate::opening::open_gate;
use crate::selecting::other_selector;
use crate::sizing::put_sized;
use dots_host::Disk;
use std::alloc::Global;
use std::marker::Model;

/// A journal of records on a disk, in the half of its slots that the selector names. The records of a half are all of one format.
#[derive(Drop)]
pub struct SlotStore {
    slots: u32,
    selector: u8,
    used: u32,
    format: Format,
    /// Room for a slot.
    room: Vec<u8>,
}

impl Model for SlotStore {
    ghost use Rattle.std.specs.Prelude.{◌≡◌, ◌≤◌, length};
    ghost use Rattle.slot_store.specs.StoreValues.{JournalValue};

    ghost Value = { JournalValue };

    ghost view = { λ store. record { slots = store.slots; selector = store.selector; used = store.used; format = store.format } };

    ghost invariant = { λ store. (length store.room.items ≡ 8192) × (store.used ≤ store.slots) };
}

impl SlotStore {
    /// Opens the store on a disk, under settings with this digest. It syncs first, and formats a disk that has no
    /// header and whose gates are all zero, in the second format. It takes the memory of the store.
    ///
    /// Of a disk whose half in use has an open gate behind a closed one it knows the records before that gate.
    pub fn open<D: Disk>(
        alloc: Global,
        disk: &mut D,
        slots: u32,
        digest: &[u8; 32],
    ) -> Result<Self, OpenFault>
        // A disk on which nothing was pending holds the same list, in the same format, at each moment.
        ensures moments { (seen : ℕ → ℕ) (format : Format) (records : List (List ℕ)) → RestsWith (D.media disk.old) (Is seen) →
            HasRecords slots digest.now format seen records →
            Leaves (D.media disk.old) (D.media disk.new) (λ image. HasRecords slots digest.now format image records) }

        // In the end it represents the list that the disk held, in the format in which the disk held it.
        ensures opened { IfOk result (λ store. (seen : ℕ → ℕ) (format : Format) (records : List (List ℕ)) → Sees (D.media disk.old) seen →
            HasRecords slots digest.now format seen records →
            RestsWith (D.media disk.new) (RepresentsRecords store digest.now records)) }
        ensures format { IfOk result (λ store. (seen : ℕ → ℕ) (format : Format) (records : List (List ℕ)) → Sees (D.media disk.old) seen →
            HasRecords slots digest.now format seen records → store.format ≡ format) }
        ensures size { IfOk result (λ store. (store.slots ≡ slots) × (needed_of slots ≤ D.extent disk.new)) }
        ensures known { IfOk result (λ store. (seen : ℕ → ℕ) → Sees (D.media disk.old) seen →
            RestsWith (D.media disk.new) (IsKnown store digest.now seen)) }
        ensures refused { IfErr result (λ fault. (seen : ℕ → ℕ) → Sees (D.media disk.old) seen →
            Refuses slots digest.now (D.extent disk.old) seen fault) }

        // A disk whose content isn't told is too small for the same cause.
        ensures small { IfErr result (IsSmallBy slots (D.extent disk.old)) }

        // Where it is refused, and no call of the disk failed, nothing was written.
        ensures unwritten { IfErr result (λ fault. (seen : ℕ → ℕ) → fault ≢ OpenFault.DiskFault →
            RestsWith (D.media disk.old) (Is seen) → RestsWith (D.media disk.new) (Is seen)) }

        ensures extent { D.extent disk.new ≡ D.extent disk.old }
        ensures cause { Caused (D.faults disk.old) (D.faults disk.new) result }
        ensures beside { D.beside disk.old disk.new }
    {
        let needed = needed_of(slots);
        let found = disk.size();
        if found < needed {
            return Err(OpenFault::TooSmall { needed, found });
        }
        let Ok(room) = vec![in alloc; 0u8; SLOT] else {
            return Err(OpenFault::NoMemory);
        };
        let in_use = open_header(disk, slots, digest)?;
        let used = count_open(disk, slots, in_use.selector % 2)?;
        Ok(SlotStore {
            slots,
            selector: in_use.selector,
            used,
            format: in_use.format,
            room,
        })
    }

    /// How many slots of the half in use hold a record.
    pub fn used(&self) -> u32
        ensures used { result ≡ self.now.used }
        ensures fits { result ≤ self.now.slots }
    {
        self.used
    }

    /// The format of the records of the half in use. A record that is appended is to be of it.
    pub fn format(&self) -> Format
        ensures { result ≡ self.now.format }
    {
        self.format
    }

    /// How many slots a half has.
    pub fn slots(&self) -> u32
        ensures { result ≡ self.now.slots }
    {
        self.slots
    }

    /// The place on the disk of a slot of the half in use.
    pub fn place(&self, slot: u32) -> u64
        requires { slot < self.now.slots }
        ensures { result ≡ place_of self.now.slots (self.now.selector % 2) slot }
    {
        place_of(self.slots, self.selector % 2, slot)
    }

    /// Appends a record of at most [`MAX_RECORD`] bytes, and answers its slot. It makes two writes and two syncs.
    ///
    /// After a fault the store isn't used again, and the disk is recovered.
    pub fn append<D: Disk>(&mut self, disk: &mut D, bytes: &[u8]) -> Result<u32, DiskFault>
        requires room { self.old.used < self.old.slots }
        requires size { needed_of self.old.slots ≤ D.extent disk.old }
        requires fits { length bytes.now ≤ 8189 }
        ensures slot { IfOk result (λ slot. slot ≡ self.old.used) }
        ensures next { OnOk result (self.new ≡ record self.old { used = self.old.used + 1 }) }
        ensures same { OnErr result (self.new ≡ self.old) }

        // At each moment each image holds the records, or one more; in the end one more alone.
        ensures moments { (digest : List ℕ) (records : List (List ℕ)) →
            RestsWith (D.media disk.old) (RepresentsRecords self.old digest records) →
            Leaves (D.media disk.old) (D.media disk.new)
            (HasEither self.old.slots digest self.old.format records self.old.format (records ++ bytes.now ∷ [])) }
        ensures rests { OnOk result ((digest : List ℕ) (records : List (List ℕ)) →
            RestsWith (D.media disk.old) (RepresentsRecords self.old digest records) →
            RestsWith (D.media disk.new) (RepresentsRecords self.new digest (records ++ bytes.now ∷ []))) }

        ensures extent { D.extent disk.new ≡ D.extent disk.old }
        ensures cause { HasCause (D.faults disk.old) (D.faults disk.new) result }
        ensures beside { D.beside disk.old disk.new }
    {
        let slot = self.used;
        let at = self.place(slot);
        let room = self.room.as_mut_slice();
        let size = put_sized(room, bytes);
        match open_gate(disk, at, &room[..size]) {
            Ok(()) => {
                self.used = slot + 1;
                return Ok(slot);
            }
            Err(_) => return Err(DiskFault),
        }
    }

    /// Keeps the records of these slots alone, in the order of the list, in the other half, each rewritten in the second format.
    ///
    /// After a fault the store isn't used again, and the disk is recovered.
    pub fn compact<D: Disk>(&mut self, disk: &mut D, keep: &[u32]) -> Result<(), DiskFault>
        requires size { needed_of self.old.slots ≤ D.extent disk.old }
        requires keep { AreSlots self.old.used keep.now }
        requires few { length keep.now ≤ self.old.slots }
        ensures next { OnOk result (self.new ≡ record self.old
            { selector = other_selector self.old.selector; used = length keep.now; format = Format.Two }) }
        ensures same { OnErr result (self.new ≡ self.old) }

        // At each moment each image holds the records, or the kept ones; in the end the kept ones alone.
        ensures moments { (digest : List ℕ) (records : List (List ℕ)) →
            RestsWith (D.media disk.old) (RepresentsRecords self.old digest records) →
            Leaves (D.media disk.old) (D.media disk.new)
            (HasEither self.old.slots digest self.old.format records Format.Two (map (rewritten self.old.format) (kept_of records keep.now))) }
        ensures rests { OnOk result ((digest : List ℕ) (records : List (List ℕ)) →
            RestsWith (D.media disk.old) (RepresentsRecords self.old digest records) →
            RestsWith (D.media disk.new) (RepresentsRecords self.new digest (map (rewritten self.old.format) (kept_of records keep.now)))) }

        ensures extent { D.extent disk.new ≡ D.extent disk.old }
        ensures cause { HasCause (D.faults disk.old) (D.faults disk.new) result }
        ensures beside { D.beside disk.old disk.new }
    {
        let selector = other_selector(self.selector);
        let in_use = InUse {
            selector: self.selector,
            format: self.format,
        };
        let room = self.room.as_mut_slice();
        match move_half(disk, self.slots, in_use, keep, room) {
            Ok(()) => {
                self.selector = selector;
                self.used = keep.len() as u32;
                self.format = Format::Two;
                return Ok(());
            }
            Err(_) => return Err(DiskFault),
        }
    }
}
