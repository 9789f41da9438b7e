//! Tables into which the entries of a journal are taken. The rows of mitigations are made of them once, when all entries are there.

ghost use Rattle.std.specs.Prelude.{◌≡◌, ℕ, ◌<◌, ◌≤◌, ◌++◌, ◌∷◌, [], true, false, List, length, IfOk, OnOk};
ghost use Rattle.dots_settings.specs.Settings.{SettingsValue};
ghost use Rattle.dots_history.specs.declared.entry.Entry.{Entry};
ghost use Rattle.dots_history.specs.Fits.{has_one_peer};
ghost use Rattle.dots_history.specs.Histories.{mitigations};
ghost use Rattle.live_mitigations.specs.Ends.{never};
ghost use Rattle.live_mitigations.specs.LiveValues.{puts};
ghost use Rattle.installed_filters.specs.Filters.{list_put};
ghost use Rattle.dots_registry.specs.RegistryValues.{IsOf, time_of};
ghost use Rattle.dots_registry.specs.Filed.{HasSlots, IsFiled};
ghost use Rattle.dots_registry.specs.Fitting.{fits_now};
ghost use Rattle.dots_registry.specs.Gathering.{AwaitsRows, Gathers, GathersSome, HasGathered, FitsSome, with_rows_of};

use crate::awaited::install_all;
use crate::fitting::{fits, has_one_peer};
use crate::registry::{Registry, remember};
use acl_lists::AclRow;
use coap_exchange::Remembered;
use dots_history::Entry;
use dots_lists::NoMemory;
use dots_settings::Settings;
use held_resources::HeldResources;
use installed_filters::{InstalledFilters, Staged};
use live_mitigations::{LiveMitigations, puts};
use std::alloc::Global;
use std::marker::Model;

/// The tables of a registry but for the rows of mitigations. The entries stand in the first slots of a journal, in order.
#[derive(Drop)]
pub(crate) struct Gathering {
    alloc: Global,
    live: LiveMitigations,
    held: HeldResources,
    remembered: Remembered,
    /// The rows of access lists, as they are where nobody mitigates.
    filters: InstalledFilters,
    last: Option<u32>,
    /// Of each entry its domain.
    domains: Vec<u16>,
}

impl Model for Gathering {
    ghost use Rattle.dots_registry.specs.Gathering.{GatheringValue};

    ghost Value = { GatheringValue };

    ghost view = { λ gathering. record {
      tables = record {
        live = gathering.live;
        held = gathering.held;
        rings = gathering.remembered;
        filters = gathering.filters;
        last = gathering.last;
      };
      domains = gathering.domains.items;
    } };
}

impl Gathering {
    /// Tables of no entries at time 0, with the room that the settings say.
    pub fn new(alloc: Global, settings: &Settings) -> Result<Self, NoMemory>
        ensures { IfOk result (HasGathered settings.now []) }
    {
        let registry = Registry::new(alloc, settings)?;
        Ok(Self::of(registry))
    }

    /// Those of a registry, into which nothing was taken yet.
    fn of(registry: Registry) -> Self
        ensures tables { result.tables ≡ registry }
        ensures room { HasSlots registry }
        ensures domains { result.domains ≡ [] }
    {
        Gathering {
            alloc: registry.alloc,
            live: registry.live,
            held: registry.held,
            remembered: registry.remembered,
            filters: registry.filters,
            last: registry.last,
            domains: Vec::new(registry.alloc),
        }
    }

    /// The registry that has these tables.
    pub fn into_registry(self) -> Registry
        requires { IsFiled self.tables }
        ensures { result ≡ self.tables }
    {
        Registry {
            alloc: self.alloc,
            live: self.live,
            held: self.held,
            remembered: self.remembered,
            filters: self.filters,
            last: self.last,
        }
    }

    /// Lets all of it go.
    pub fn let_go(self) {
        drop(self);
    }

    /// Its time, in seconds.
    pub fn time(&self) -> u64
        ensures { result ≡ time_of self.now.tables }
    {
        self.live.time()
    }

    /// Moves the time, in seconds, below 2^64 - 1, and takes out what is over then.
    pub fn tick(&mut self, now: u64)
        requires later { time_of self.old.tables ≤ now }
        requires bounded { now < never }
        ensures gathers { (entries : List Entry) → Gathers entries self.old → Gathers entries self.new }
        ensures settings { (settings : SettingsValue) → IsOf settings self.old.tables → IsOf settings self.new.tables }
        ensures time { time_of self.new.tables ≡ now }
    {
        self.live.tick(now);
    }

    /// Whether an entry fits, as [`Registry::fits`] says.
    pub fn fits(&self, settings: &Settings, entry: &Entry) -> bool
        requires { IsOf settings.now self.now.tables }
        ensures { (entries : List Entry) → Gathers entries self.now → result ≡ fits_now settings.now self.now.tables entries entry.now }
    {
        fits(&self.live, &self.held, settings, entry)
    }

    /// Whether an entry that puts or withdraws a mitigation has the peer of each live mitigation of its client.
    pub fn has_one_peer(&self, entry: &Entry) -> bool
        ensures { (entries : List Entry) → Gathers entries self.now → result ≡ has_one_peer entry.now (mitigations (time_of self.now.tables) entries) }
    {
        has_one_peer(&self.live, entry)
    }

    /// Takes an entry at the time that fits, which stands in this slot of the journal.
    pub fn take(&mut self, entry: Entry, slot: u32) -> Result<(), NoMemory>
        requires fits { FitsSome self.old.tables entry }
        requires at { entry.time ≡ time_of self.old.tables }
        ensures gathers { OnOk result ((settings : SettingsValue) (before : List Entry) → IsOf settings self.old.tables → Gathers before self.old → slot ≡ length before
            → fits_now settings self.old.tables before entry ≡ true → Gathers (before ++ entry ∷ []) self.new) }
        ensures settings { OnOk result ((settings : SettingsValue) → IsOf settings self.old.tables → IsOf settings self.new.tables) }
        ensures time { OnOk result (time_of self.new.tables ≡ time_of self.old.tables) }
    {
        self.domains.push(entry.domain)?;
        if puts(&entry) {
            self.put(entry, slot);
            return Ok(());
        }
        let (entry, scrubs, list) = Staged::of(self.alloc, entry)?.into_parts();
        drop(scrubs);
        self.write(entry, list, slot);
        Ok(())
    }

    /// Takes an entry that puts a mitigation.
    fn put(&mut self, entry: Entry, slot: u32)
        requires fits { FitsSome self.old.tables entry }
        requires at { entry.time ≡ time_of self.old.tables }
        requires puts { puts entry ≡ true }
        ensures awaits { (settings : SettingsValue) (before : List Entry) → IsOf settings self.old.tables → AwaitsRows before self.old.tables → slot ≡ length before
            → fits_now settings self.old.tables before entry ≡ true → AwaitsRows (before ++ entry ∷ []) self.new.tables }
        ensures settings { (settings : SettingsValue) → IsOf settings self.old.tables → IsOf settings self.new.tables }
        ensures time { time_of self.new.tables ≡ time_of self.old.tables }
        ensures domains { self.new.domains ≡ self.old.domains }
    {
        let entry = remember(&mut self.remembered, self.alloc, entry, slot);
        self.live.put(entry, slot);
        self.last = Some(slot);
    }

    /// Takes any other entry, with the row of the access list that it writes.
    fn write(&mut self, entry: Entry, list: Option<AclRow>, slot: u32)
        requires fits { FitsSome self.old.tables entry }
        requires at { entry.time ≡ time_of self.old.tables }
        requires puts { puts entry ≡ false }
        requires staged { list ≡ list_put entry }
        ensures awaits { (settings : SettingsValue) (before : List Entry) → IsOf settings self.old.tables → AwaitsRows before self.old.tables → slot ≡ length before
            → fits_now settings self.old.tables before entry ≡ true → AwaitsRows (before ++ entry ∷ []) self.new.tables }
        ensures settings { (settings : SettingsValue) → IsOf settings self.old.tables → IsOf settings self.new.tables }
        ensures time { time_of self.new.tables ≡ time_of self.old.tables }
        ensures domains { self.new.domains ≡ self.old.domains }
    {
        let acls = self.held.acls(entry.domain, entry.cuid.bytes());
        self.filters.write(&entry, list, false, acls);
        self.live.note(&entry, slot);
        let entry = remember(&mut self.remembered, self.alloc, entry, slot);
        self.held.apply(entry, slot);
        self.last = Some(slot);
    }

    /// Makes the rows of the live mitigations, and says of each access list whether it is active.
    pub fn install(&mut self) -> Result<(), NoMemory>
        requires { GathersSome self.old }
        ensures { OnOk result ((entries : List Entry) → Gathers entries self.old → self.new.tables ≡ with_rows_of entries self.old.tables) }
    {
        install_all(
            self.alloc,
            &self.live,
            &self.held,
            self.domains.as_slice(),
            &mut self.filters,
        )?;
        Ok(())
    }
}
