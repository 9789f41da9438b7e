//! The journal and the registry, side by side.

ghost use Rattle.std.specs.Prelude.{◌≡◌, ◌+◌, ◌<◌, ◌≤◌, ◌++◌, ◌∷◌, [], ℕ, true, false, List, Option, OnOk, OnErr};
ghost use Rattle.dots_host.specs.Becoming.{Leaves, RestsWith};
ghost use Rattle.dots_host.specs.Causes.{HasCause};
ghost use Rattle.dots_history.specs.declared.entry.Entry.{Entry};
ghost use Rattle.dots_history.specs.Keeping.{kept};
ghost use Rattle.dots_settings.specs.Settings.{SettingsValue};
ghost use Rattle.live_mitigations.specs.Ends.{never};
ghost use Rattle.dots_registry.specs.RegistryValues.{time_of, number_remembered};
ghost use Rattle.dots_registry.specs.ObserverViews.{views_of};
ghost use Rattle.coap_observe.specs.DueAmong.{includes};
ghost use Rattle.slot_store.specs.Layout.{needed_of};
ghost use Rattle.slot_store.specs.Copying.{other_selector};
ghost use Rattle.slot_journal.specs.DiskEntries as journal;
ghost use Rattle.dots_registry.specs.LedgerValues.{Represents, CanAccept, joins_at, once_free};
ghost use Rattle.dots_registry.specs.Crashes.{HasEither, HasOne};

use crate::registry::Registry;
use coap_observe::DueAmong;
use dots_history::SlotList;
use dots_host::Disk;
use installed_filters::Staged;
use slot_journal::{DiskFault, Journal};
use std::marker::Model;

/// The journal of what was accepted, and its tables.
#[derive(Drop)]
pub struct Ledger {
    pub(crate) registry: Registry,
    pub(crate) journal: Journal,
    pub(crate) keep: SlotList,
}

impl Model for Ledger {
    ghost use Rattle.std.specs.Prelude.{◌≤◌};
    ghost use Rattle.dots_registry.specs.Filed.{most_kept};
    ghost use Rattle.dots_registry.specs.LedgerValues.{LedgerValue, RepresentsSome};

    ghost Value = { LedgerValue };

    ghost view = { λ ledger. record { registry = ledger.registry; journal = ledger.journal } };

    ghost invariant = { λ ledger. RepresentsSome (record { registry = ledger.registry; journal = ledger.journal }) × (most_kept ledger.registry ≤ ledger.keep.room) };
}

impl Ledger {
    /// The tables.
    pub fn registry(&self) -> &Registry
        ensures { result.now ≡ self.now.registry }
    {
        &self.registry
    }

    /// How many slots of the half in use hold an entry.
    pub fn used(&self) -> u32
        ensures used { result ≡ self.now.journal.used }
        ensures fits { result ≤ self.now.journal.slots }
    {
        self.journal.used()
    }

    /// How many slots a half of the journal has. An entry that finds none free makes the journal compact.
    pub fn slots(&self) -> u32
        ensures { result ≡ self.now.journal.slots }
    {
        self.journal.slots()
    }

    /// Moves the time, in seconds, below 2^64 - 1, and takes out of the tables what is over then. The disk stays as it is. The answer has
    /// the domains of which something is over, as that of [`Registry::tick`].
    pub fn tick(&mut self, now: u64) -> DueAmong
        requires later { time_of self.old.registry ≤ now }
        requires bounded { now < never }
        ensures represents { (settings : SettingsValue) (history entries : List Entry) → Represents self.old settings history entries
            → Represents self.new settings history entries }
        ensures seen { (domain : ℕ) (cuid : List ℕ) (mid : Option ℕ) → includes result domain ≡ false
            → views_of self.new.registry domain cuid mid ≡ views_of self.old.registry domain cuid mid }
        ensures time { time_of self.new.registry ≡ now }
        ensures journal { self.new.journal ≡ self.old.journal }
    {
        self.registry.tick(now)
    }

    /// Lets all of it go. The disk stays as it is.
    pub fn let_go(self) {
        self.registry.let_go();
    }

    /// Accepts an entry that keeps the history calm: it is appended to the journal, and then it is in the tables. Where no slot is free,
    /// the journal is compacted before. It takes no memory.
    ///
    /// # Errors
    ///
    /// `DiskFault` where the disk's count of faults rose. The tables don't have the entry then. The ledger isn't used again after
    /// it, and the disk is recovered.
    pub fn accept<D: Disk>(&mut self, disk: &mut D, staged: Staged) -> Result<(), DiskFault>
        requires size { needed_of self.old.journal.slots ≤ D.extent disk.old }
        requires can { CanAccept self.old staged }

        // At each moment each image holds what has the view of the history, or of the history with the entry.
        ensures moments { (settings : SettingsValue) (history entries : List Entry) → Represents self.old settings history entries
            → joins_at settings (time_of self.old.registry) history staged ≡ true
            → RestsWith (D.media disk.old) (journal.Represents self.old.journal settings entries)
            → Leaves (D.media disk.old) (D.media disk.new) (HasEither settings (number_remembered self.old.registry) (time_of self.old.registry) history staged) }

        // In the end it represents the history with the entry, and the disk rests with what it then represents.
        ensures accepted { OnOk result ((settings : SettingsValue) (history entries : List Entry) → Represents self.old settings history entries
            → joins_at settings (time_of self.old.registry) history staged ≡ true
            → (few : List Entry) × Represents self.new settings (history ++ staged ∷ []) few
            × (RestsWith (D.media disk.old) (journal.Represents self.old.journal settings entries)
            → RestsWith (D.media disk.new) (journal.Represents self.new.journal settings few))) }
        ensures refused { OnErr result ((settings : SettingsValue) (history entries : List Entry) → Represents self.old settings history entries
            → (few : List Entry) × Represents self.new settings history few) }

        // Where a slot is free, the entry is put into it, and at each moment each image holds the same entries as before, or these and the
        // entry. Where none is, the other half is used from then on, and holds those alone that the view names, and the entry.
        ensures next { OnOk result (self.old.journal.used < self.old.journal.slots → self.new.journal ≡ record self.old.journal { used = self.old.journal.used + 1 }) }
        ensures appends { self.old.journal.used < self.old.journal.slots → (settings : SettingsValue) (history entries : List Entry) → Represents self.old settings history entries
            → RestsWith (D.media disk.old) (journal.Represents self.old.journal settings entries)
            → Leaves (D.media disk.old) (D.media disk.new) (HasOne settings entries (entries ++ staged ∷ [])) }
        ensures half { OnOk result (self.old.journal.slots ≤ self.old.journal.used → self.new.journal.selector ≡ other_selector self.old.journal.selector) }
        ensures entries { OnOk result ((settings : SettingsValue) (history entries : List Entry) → Represents self.old settings history entries
            → joins_at settings (time_of self.old.registry) history staged ≡ true
            → Represents self.new settings (history ++ staged ∷ []) (once_free self.old entries ++ staged ∷ [])) }

        ensures time { OnOk result (time_of self.new.registry ≡ staged.time) }
        ensures still { OnErr result (time_of self.new.registry ≡ time_of self.old.registry) }
        ensures slots { self.new.journal.slots ≡ self.old.journal.slots }
        ensures extent { D.extent disk.new ≡ D.extent disk.old }
        ensures cause { HasCause (D.faults disk.old) (D.faults disk.new) result }
        ensures beside { D.beside disk.old disk.new }
    {
        match self.make_room(disk) {
            Ok(()) => return self.append(disk, staged),
            Err(fault) => return Err(refuse(staged, fault)),
        }
    }

    /// Compacts the journal where no slot is free.
    fn make_room<D: Disk>(&mut self, disk: &mut D) -> Result<(), DiskFault>
        requires size { needed_of self.old.journal.slots ≤ D.extent disk.old }
        ensures moments { (settings : SettingsValue) (history entries : List Entry) → Represents self.old settings history entries
            → RestsWith (D.media disk.old) (journal.Represents self.old.journal settings entries)
            → Leaves (D.media disk.old) (D.media disk.new) (HasOne settings entries (kept (number_remembered self.old.registry) (time_of self.old.registry) entries)) }
        ensures compacted { OnOk result ((settings : SettingsValue) (history entries : List Entry) → Represents self.old settings history entries
            → Represents self.new settings history (once_free self.old entries)
            × (RestsWith (D.media disk.old) (journal.Represents self.old.journal settings entries)
            → RestsWith (D.media disk.new) (journal.Represents self.new.journal settings (once_free self.old entries)))) }
        ensures free { self.old.journal.used < self.old.journal.slots → (self.new ≡ self.old) × (D.media disk.new ≡ D.media disk.old) }
        ensures half { OnOk result (self.old.journal.slots ≤ self.old.journal.used → self.new.journal.selector ≡ other_selector self.old.journal.selector) }
        ensures full { OnErr result (self.old.journal.slots ≤ self.old.journal.used) }
        ensures room { OnOk result (self.new.journal.used < self.new.journal.slots) }
        ensures same { OnErr result (self.new ≡ self.old) }
        ensures time { time_of self.new.registry ≡ time_of self.old.registry }
        ensures number { number_remembered self.new.registry ≡ number_remembered self.old.registry }
        ensures slots { self.new.journal.slots ≡ self.old.journal.slots }
        ensures extent { D.extent disk.new ≡ D.extent disk.old }
        ensures cause { HasCause (D.faults disk.old) (D.faults disk.new) result }
        ensures beside { D.beside disk.old disk.new }
    {
        if self.journal.used() < self.journal.slots() {
            return Ok(());
        }
        self.compact(disk)
    }

    /// Keeps in the journal what the view names alone.
    fn compact<D: Disk>(&mut self, disk: &mut D) -> Result<(), DiskFault>
        requires size { needed_of self.old.journal.slots ≤ D.extent disk.old }
        ensures moments { (settings : SettingsValue) (history entries : List Entry) → Represents self.old settings history entries
            → RestsWith (D.media disk.old) (journal.Represents self.old.journal settings entries)
            → Leaves (D.media disk.old) (D.media disk.new) (HasOne settings entries (kept (number_remembered self.old.registry) (time_of self.old.registry) entries)) }
        ensures compacted { OnOk result ((settings : SettingsValue) (history entries : List Entry) → Represents self.old settings history entries
            → Represents self.new settings history (kept (number_remembered self.old.registry) (time_of self.old.registry) entries)
            × (RestsWith (D.media disk.old) (journal.Represents self.old.journal settings entries)
            → RestsWith (D.media disk.new) (journal.Represents self.new.journal settings (kept (number_remembered self.old.registry) (time_of self.old.registry) entries)))) }
        ensures half { OnOk result (self.new.journal.selector ≡ other_selector self.old.journal.selector) }
        ensures room { OnOk result (self.new.journal.used < self.new.journal.slots) }
        ensures same { OnErr result (self.new ≡ self.old) }
        ensures time { time_of self.new.registry ≡ time_of self.old.registry }
        ensures number { number_remembered self.new.registry ≡ number_remembered self.old.registry }
        ensures slots { self.new.journal.slots ≡ self.old.journal.slots }
        ensures extent { D.extent disk.new ≡ D.extent disk.old }
        ensures cause { HasCause (D.faults disk.old) (D.faults disk.new) result }
        ensures beside { D.beside disk.old disk.new }
    {
        self.keep.clear();
        self.registry.kept(&mut self.keep);
        self.journal.compact(disk, self.keep.items())?;
        self.registry.moved(self.keep.items());
        Ok(())
    }

    /// Appends the entry, for which a slot is free, and takes it into the tables.
    fn append<D: Disk>(&mut self, disk: &mut D, staged: Staged) -> Result<(), DiskFault>
        requires size { needed_of self.old.journal.slots ≤ D.extent disk.old }
        requires room { self.old.journal.used < self.old.journal.slots }
        requires can { CanAccept self.old staged }
        ensures moments { (settings : SettingsValue) (history entries : List Entry) → Represents self.old settings history entries
            → RestsWith (D.media disk.old) (journal.Represents self.old.journal settings entries)
            → Leaves (D.media disk.old) (D.media disk.new) (HasOne settings entries (entries ++ staged ∷ [])) }
        ensures appended { OnOk result ((settings : SettingsValue) (history entries : List Entry) → Represents self.old settings history entries
            → joins_at settings (time_of self.old.registry) history staged ≡ true
            → Represents self.new settings (history ++ staged ∷ []) (entries ++ staged ∷ [])
            × (RestsWith (D.media disk.old) (journal.Represents self.old.journal settings entries)
            → RestsWith (D.media disk.new) (journal.Represents self.new.journal settings (entries ++ staged ∷ [])))) }
        ensures next { OnOk result (self.new.journal ≡ record self.old.journal { used = self.old.journal.used + 1 }) }
        ensures same { OnErr result (self.new ≡ self.old) }
        ensures time { OnOk result (time_of self.new.registry ≡ staged.time) }
        ensures slots { self.new.journal.slots ≡ self.old.journal.slots }
        ensures extent { D.extent disk.new ≡ D.extent disk.old }
        ensures cause { HasCause (D.faults disk.old) (D.faults disk.new) result }
        ensures beside { D.beside disk.old disk.new }
    {
        match self.journal.append(disk, staged.entry()) {
            Ok(slot) => {
                self.registry.apply(staged, slot);
                return Ok(());
            }
            Err(failed) => return Err(refuse(staged, failed)),
        }
    }
}

/// Lets an entry go that wasn't appended, for this fault.
fn refuse(staged: Staged, fault: DiskFault) -> DiskFault
    ensures { result ≡ fault }
{
    drop(staged);
    fault
}
