ghost use Rattle.std.specs.Prelude.{◌≡◌, ◌≢◌, ℕ, ◌+◌, ◌%◌, ◌<◌, ◌≤◌, List, [], ◌∷◌, ◌++◌, length, IsTrue, IfOk, IfErr, OnOk, OnErr};
ghost use Rattle.std.specs.List.{AllByRecursion};
ghost use Rattle.dots_host.specs.Causes.{HasCause};
ghost use Rattle.dots_host.specs.Becoming.{Leaves, RestsWith};
ghost use Rattle.dots_settings.specs.Settings.{SettingsValue};
ghost use Rattle.dots_history.specs.declared.entry.Entry.{Entry};
ghost use Rattle.dots_history.specs.Bounds.{within_bounds};
ghost use Rattle.slot_store.specs.Layout.{place_of, needed_of, IsJournal, IsZeroFrom};
ghost use Rattle.slot_store.specs.Opening.{Is};
ghost use Rattle.slot_store.specs.Gates.{Sees};
ghost use Rattle.slot_store.specs.Copying.{AreSlots, other_selector};
ghost use Rattle.slot_journal.specs.Sizes.{slots_of};
ghost use Rattle.slot_journal.specs.DiskEntries.{HasEntries, HasEither, HasRecord, Represents, entries_at};
ghost use Rattle.slot_journal.specs.Refused.{Refuses, IsSmallBy, Caused};

use crate::entries::EntryList;
use crate::fault::JournalFault;
use crate::opening::open_store;
use crate::reading::read_half;
use crate::room::RecordRoom;
use crate::size::slots;
use dots_history::Entry;
use dots_host::Disk;
use dots_settings::Settings;
use slot_store::{DiskFault, Format, SlotStore, format_one};
use std::alloc::Global;
use std::marker::Model;

/// The accepted entries on a disk, in the order of their acceptance.
#[derive(Drop)]
pub struct Journal {
    store: SlotStore,
    room: Box<RecordRoom>,
}

impl Model for Journal {
    ghost use Rattle.slot_store.specs.StoreValues.{JournalValue};

    ghost Value = { JournalValue };

    ghost view = { λ journal. journal.store };
}

impl Journal {
    /// The journal of a disk under these settings, and the entries that the disk holds. It syncs first, and formats a disk
    /// that has no header and whose gates are all zero. It takes the memory of the journal and of the entries.
    ///
    /// # Errors
    ///
    /// `TooSmall`, `NotOurs` with the first place that isn't this format's, `SettingsChanged` with both digests,
    /// `DiskFault` where the disk's count of faults rose, and `NoMemory`. Nothing is written before a disk is refused.
    pub fn recover<D: Disk>(
        alloc: Global,
        disk: &mut D,
        settings: &Settings,
    ) -> Result<(Self, EntryList), JournalFault>
        // A disk on which nothing was pending holds the same list at each moment.
        ensures moments { (seen : ℕ → ℕ) (entries : List Entry) → RestsWith (D.media disk.old) (Is seen) →
            HasEntries settings.now seen entries →
            Leaves (D.media disk.old) (D.media disk.new) (λ image. HasEntries settings.now image entries) }

        // What is answered is what the disk held, and in the end it rests with that.
        ensures recovered { IfOk result (λ found. (seen : ℕ → ℕ) → Sees (D.media disk.old) seen →
            HasEntries settings.now seen found.1 × RestsWith (D.media disk.new) (Represents found.0 settings.now found.1)) }
        ensures each { IfOk result (λ found. AllByRecursion HasRecord found.1) }

        // As many slots are in use as there are entries, and where a header stood nothing was written.
        ensures count { IfOk result (λ found. found.0.used ≡ length found.1) }
        ensures kept { OnOk result ((seen : ℕ → ℕ) → RestsWith (D.media disk.old) (Is seen) → seen 0 ≡ 165 → RestsWith (D.media disk.new) (Is seen)) }
        ensures size { IfOk result (λ found. (found.0.slots ≡ slots_of settings.now) × (needed_of (slots_of settings.now) ≤ D.extent disk.new)) }
        ensures refused { IfErr result (λ fault. (seen : ℕ → ℕ) → Sees (D.media disk.old) seen →
            Refuses settings.now (D.extent disk.old) seen fault) }

        // A disk whose content isn't told is too small for the same cause.
        ensures small { IfErr result (IsSmallBy settings.now (D.extent disk.old)) }

        // Where the disk is refused, and none of its calls failed, nothing was written.
        ensures unwritten { IfErr result (λ fault. (seen : ℕ → ℕ) → fault ≢ JournalFault.DiskFault →
            RestsWith (D.media disk.old) (Is seen) → RestsWith (D.media disk.new) (Is seen)) }

        ensures extent { D.extent disk.new ≡ D.extent disk.old }
        ensures cause { Caused (D.faults disk.old) (D.faults disk.new) result }
        ensures beside { D.beside disk.old disk.new }
    {
        let Ok(room) = Box::new(alloc, RecordRoom::new()) else {
            return Err(JournalFault::NoMemory);
        };
        let store = open_store(alloc, disk, settings)?;
        let entries = read_half(alloc, disk, &store)?;
        Ok((Journal { store, room }, entries))
    }

    /// Formats a disk of zeros in the first format, with no entry. It exists so that journals of that format can be made and tried; a journal is
    /// formatted in the second by [`Journal::recover`]. It makes two writes and two syncs.
    ///
    /// # Errors
    ///
    /// `DiskFault` where the disk's count of faults rose.
    pub fn format_one<D: Disk>(disk: &mut D, settings: &Settings) -> Result<(), DiskFault>
        requires { needed_of (slots_of settings.now) ≤ D.extent disk.old }

        // At each moment each image holds no entry; in the end it has a header of the first format, and zeros behind it.
        ensures moments { RestsWith (D.media disk.old) (IsZeroFrom 0) →
            Leaves (D.media disk.old) (D.media disk.new) (λ image. HasEntries settings.now image []) }
        ensures formatted { OnOk result (RestsWith (D.media disk.old) (IsZeroFrom 0) →
            RestsWith (D.media disk.new) (λ image. IsJournal (slots_of settings.now) settings.now.digest Format.One image [] × IsZeroFrom 64 image)) }

        ensures extent { D.extent disk.new ≡ D.extent disk.old }
        ensures cause { HasCause (D.faults disk.old) (D.faults disk.new) result }
        ensures beside { D.beside disk.old disk.new }
    {
        format_one(disk, slots(settings), &settings.digest())
    }

    /// How many slots of the half in use hold an entry.
    pub fn used(&self) -> u32
        ensures used { result ≡ self.now.used }
        ensures fits { result ≤ self.now.slots }
    {
        self.store.used()
    }

    /// How many slots a half has.
    pub fn slots(&self) -> u32
        ensures { result ≡ self.now.slots }
    {
        self.store.slots()
    }

    /// The place on the disk of a slot of the half in use.
    pub fn place(&self, slot: u32) -> u64
        requires { slot < self.now.slots }
        ensures { result ≡ place_of self.now.slots (self.now.selector % 2) slot }
    {
        self.store.place(slot)
    }

    /// Appends an entry within bounds, and answers its slot. It makes two writes and two syncs, and takes no memory.
    ///
    /// # Errors
    ///
    /// `DiskFault` where the disk's count of faults rose. The journal isn't used again after it, and the disk is recovered.
    pub fn append<D: Disk>(&mut self, disk: &mut D, entry: &Entry) -> Result<u32, DiskFault>
        requires room { self.old.used < self.old.slots }
        requires size { needed_of self.old.slots ≤ D.extent disk.old }
        requires within { IsTrue (within_bounds entry.now) }
        ensures slot { IfOk result (λ slot. slot ≡ self.old.used) }
        ensures next { OnOk result (self.new ≡ record self.old { used = self.old.used + 1 }) }
        ensures same { OnErr result (self.new ≡ self.old) }

        // At each moment each image holds the entries, or one more; in the end one more alone.
        ensures moments { (settings : SettingsValue) (entries : List Entry) →
            RestsWith (D.media disk.old) (Represents self.old settings entries) →
            Leaves (D.media disk.old) (D.media disk.new) (HasEither settings entries (entries ++ entry.now ∷ [])) }
        ensures rests { OnOk result ((settings : SettingsValue) (entries : List Entry) →
            RestsWith (D.media disk.old) (Represents self.old settings entries) →
            RestsWith (D.media disk.new) (Represents self.new settings (entries ++ entry.now ∷ []))) }

        ensures extent { D.extent disk.new ≡ D.extent disk.old }
        ensures cause { HasCause (D.faults disk.old) (D.faults disk.new) result }
        ensures beside { D.beside disk.old disk.new }
    {
        self.room.put(entry, self.store.format());
        let slot = self.store.append(disk, self.room.record())?;
        Ok(slot)
    }

    /// Keeps the entries of these slots alone, in the order of the list, in the other half, whose records are of the second format. It takes
    /// no memory.
    ///
    /// # Errors
    ///
    /// `DiskFault` where the disk's count of faults rose. The journal isn't used again after it, and the disk is recovered.
    pub fn compact<D: Disk>(&mut self, disk: &mut D, keep: &[u32]) -> Result<(), DiskFault>
        requires size { needed_of self.old.slots ≤ D.extent disk.old }
        requires keep { AreSlots self.old.used keep.now }
        requires few { length keep.now ≤ self.old.slots }
        ensures next { OnOk result (self.new ≡ record self.old
            { selector = other_selector self.old.selector; used = length keep.now; format = Format.Two }) }
        ensures same { OnErr result (self.new ≡ self.old) }

        // At each moment each image holds the entries, or the kept ones; in the end the kept ones alone.
        ensures moments { (settings : SettingsValue) (entries : List Entry) →
            RestsWith (D.media disk.old) (Represents self.old settings entries) →
            Leaves (D.media disk.old) (D.media disk.new) (HasEither settings entries (entries_at entries keep.now)) }
        ensures rests { OnOk result ((settings : SettingsValue) (entries : List Entry) →
            RestsWith (D.media disk.old) (Represents self.old settings entries) →
            RestsWith (D.media disk.new) (Represents self.new settings (entries_at entries keep.now))) }

        ensures extent { D.extent disk.new ≡ D.extent disk.old }
        ensures cause { HasCause (D.faults disk.old) (D.faults disk.new) result }
        ensures beside { D.beside disk.old disk.new }
    {
        self.store.compact(disk, keep)?;
        Ok(())
    }
}
