//! What a registry keeps, and how it goes on.

ghost use Rattle.std.specs.Prelude.{◌≡◌, ◌≤◌, ◌<◌, ◌++◌, ◌∷◌, [], ℕ, true, false, map, List, Option, IfOk, OnErr};
ghost use Rattle.std.specs.List.{list_any};
ghost use Rattle.dots_settings.specs.Settings.{SettingsValue};
ghost use Rattle.dots_history.specs.declared.entry.Entry.{Entry};
ghost use Rattle.coap_exchange.specs.Rings.{RingValue};
ghost use Rattle.live_mitigations.specs.Ends.{never};
ghost use Rattle.live_mitigations.specs.LiveValues.{puts, rows_for};
ghost use Rattle.filter_table.specs.TableRows.{row_of_scrub, row_of_acl, active_rows};
ghost use Rattle.dots_history.specs.Rows.{plain_rows, acl_rows};
ghost use Rattle.installed_filters.specs.Filters.{rows_put, list_put, needs_rows, some_of, is_working};
ghost use Rattle.dots_history.specs.Entries.{is_loss};
ghost use Rattle.held_resources.specs.Tables.{lost_in};
ghost use Rattle.dots_registry.specs.RegistryValues.{Represents, IsOf, time_of, has_ring, silent, answered, rings_with};
ghost use Rattle.coap_observe.specs.DueAmong.{includes};
ghost use Rattle.dots_registry.specs.ObserverViews.{views_of};
ghost use Rattle.dots_registry.specs.Fitting.{FitsIn};
ghost use Rattle.dots_history.specs.Filed.{Filed};
ghost use Rattle.dots_registry.specs.Filed.{RepresentsFiled};

use crate::expiring::expire_all;
use acl_lists::{AclRow, ScrubRow};
use coap_exchange::Remembered;
use coap_observe::DueAmong;
use dots_history::{Entry, is_loss, is_signal};
use dots_lists::{Bytes, NoMemory};
use dots_settings::Settings;
use filter_table::FilterTable;
use held_resources::HeldResources;
use installed_filters::{InstalledFilters, Staged, is_mitigating};
use live_mitigations::{LiveMitigations, puts};
use std::alloc::Global;
use std::marker::Model;
use std::mem;

/// What a history comes to at a time.
#[derive(Drop)]
pub struct Registry {
    pub(crate) alloc: Global,
    pub(crate) live: LiveMitigations,
    pub(crate) held: HeldResources,
    pub(crate) remembered: Remembered,
    pub(crate) filters: InstalledFilters,
    /// The slot of a journal in which the last entry stands.
    pub(crate) last: Option<u32>,
}

impl Model for Registry {
    ghost use Rattle.dots_registry.specs.RegistryValues.{RegistryValue};
    ghost use Rattle.dots_registry.specs.Filed.{IsFiled};

    ghost Value = { RegistryValue };

    ghost view = { λ registry. record {
      live = registry.live;
      held = registry.held;
      rings = registry.remembered;
      filters = registry.filters;
      last = registry.last;
    } };

    ghost invariant = { λ registry. IsFiled (record {
      live = registry.live;
      held = registry.held;
      rings = registry.remembered;
      filters = registry.filters;
      last = registry.last;
    }) };
}

impl Registry {
    /// That of the empty history at time 0, with the room that the settings say. Only this call and [`Registry::stage`] take
    /// memory.
    pub fn new(alloc: Global, settings: &Settings) -> Result<Self, NoMemory>
        ensures represents { IfOk result (λ registry. Represents registry []) }
        ensures filed { IfOk result (λ registry. RepresentsFiled registry []) }
        ensures settings { IfOk result (λ registry. IsOf settings.now registry) }
        ensures time { IfOk result (λ registry. time_of registry ≡ 0) }
    {
        let live = LiveMitigations::new(alloc, settings)?;
        let held = match HeldResources::new(alloc, settings) {
            Ok(held) => held,
            Err(fault) => return Err(give_up(live, fault)),
        };
        let remembered = match Remembered::new(alloc, settings) {
            Ok(remembered) => remembered,
            Err(fault) => return Err(give_up((live, held), fault)),
        };
        let filters = match InstalledFilters::new(alloc, settings) {
            Ok(filters) => filters,
            Err(fault) => return Err(give_up((live, held, remembered), fault)),
        };
        Ok(Registry {
            alloc,
            live,
            held,
            remembered,
            filters,
            last: None,
        })
    }

    /// Lets all of it go.
    pub fn let_go(self) {
        drop(self);
    }

    /// Its time, in seconds.
    pub fn time(&self) -> u64
        ensures { result ≡ time_of self.now }
    {
        self.live.time()
    }

    /// Moves the time, in seconds, below 2^64 - 1, and takes out what is over then. The answer has the domains of which something is, so
    /// an observer may be due among those of them.
    pub fn tick(&mut self, now: u64) -> DueAmong
        requires later { time_of self.old ≤ now }
        requires bounded { now < never }
        ensures represents { (entries : List Entry) → Represents self.old entries → Represents self.new entries }
        ensures filed { (filed : List Filed) → RepresentsFiled self.old filed → RepresentsFiled self.new filed }
        // Of the other domains there is to see what there was.
        ensures seen { (domain : ℕ) (cuid : List ℕ) (mid : Option ℕ) → includes result domain ≡ false → views_of self.new domain cuid mid ≡ views_of self.old domain cuid mid }
        ensures time { time_of self.new ≡ now }
        ensures rings { self.new.rings ≡ self.old.rings }
        ensures settings { (settings : SettingsValue) → IsOf settings self.old → IsOf settings self.new }
    {
        let ended = expire_all(&mut self.live, &mut self.filters, &self.held, now);
        self.live.tick(now);
        ended
    }

    /// Makes the copies that the rows of an entry need, so that it can be applied without memory. This takes memory only for
    /// an entry that puts a mitigation or writes an access list.
    pub fn stage(&self, entry: Entry) -> Result<Staged, NoMemory>
        ensures value { IfOk result (λ staged. staged ≡ entry) }
        ensures no_memory { OnErr result (needs_rows entry.change ≡ true) }
    {
        Staged::of(self.alloc, entry)
    }

    /// The rows that filter where they are active: those of the live mitigations, in order of the entries, their targets and their
    /// prefixes; and those of the access lists that are held, in order of writing. Those of a mitigation that waits for a lost
    /// signal are active while it is lost.
    pub fn filters(&self) -> &FilterTable
        ensures scrubs { (entries : List Entry) → Represents self.now entries → map row_of_scrub result.now.scrubs ≡ plain_rows (time_of self.now) entries }
        ensures acls { (entries : List Entry) → Represents self.now entries → map row_of_acl result.now.acls ≡ acl_rows (time_of self.now) entries }
    {
        self.filters.table()
    }

    /// Takes an entry that fits, which stands in this slot of the journal. The time is then the entry's. The reply to a signal
    /// entry is remembered with the slot.
    pub fn apply(&mut self, staged: Staged, slot: u32)
        requires { FitsIn self.old staged }
        ensures represents { (entries : List Entry) → Represents self.old entries → Represents self.new (entries ++ staged ∷ []) }
        ensures filed { (filed : List Filed) → RepresentsFiled self.old filed → RepresentsFiled self.new (filed ++ record { entry = staged; slot = slot } ∷ []) }
        ensures time { time_of self.new ≡ staged.time }
        ensures slot { self.new.rings ≡ rings_with slot staged self.old.rings }
        ensures settings { (settings : SettingsValue) → IsOf settings self.old → IsOf settings self.new }
    {
        let (entry, scrubs, list) = staged.into_parts();
        self.tick(entry.time);
        if puts(&entry) {
            drop(list);
            self.put(entry, scrubs, slot);
        } else {
            drop(scrubs);
            self.write_or_lose(entry, list, slot);
        }
    }

    /// Takes an entry at the time that puts no mitigation, with the row of the access list that it writes.
    fn write_or_lose(&mut self, entry: Entry, list: Option<AclRow>, slot: u32)
        requires fits { FitsIn self.old entry }
        requires at { entry.time ≡ time_of self.old }
        requires puts { puts entry ≡ false }
        requires staged { list ≡ list_put entry }
        ensures represents { (entries : List Entry) → Represents self.old entries → Represents self.new (entries ++ entry ∷ []) }
        ensures filed { (filed : List Filed) → RepresentsFiled self.old filed → RepresentsFiled self.new (filed ++ record { entry = entry; slot = slot } ∷ []) }
        ensures time { time_of self.new ≡ time_of self.old }
        ensures slot { self.new.rings ≡ rings_with slot entry self.old.rings }
        ensures settings { (settings : SettingsValue) → IsOf settings self.old → IsOf settings self.new }
    {
        if is_loss(&entry.change) {
            drop(list);
            self.lose(entry, slot);
        } else {
            self.write(entry, list, slot);
        }
    }

    /// Takes an entry at the time that puts a mitigation, with the rows of the mitigation.
    fn put(&mut self, entry: Entry, scrubs: Vec<ScrubRow>, slot: u32)
        requires fits { FitsIn self.old entry }
        requires at { entry.time ≡ time_of self.old }
        requires puts { puts entry ≡ true }
        requires staged { scrubs.items ≡ rows_put entry }
        ensures represents { (entries : List Entry) → Represents self.old entries → Represents self.new (entries ++ entry ∷ []) }
        ensures filed { (filed : List Filed) → RepresentsFiled self.old filed → RepresentsFiled self.new (filed ++ record { entry = entry; slot = slot } ∷ []) }
        ensures time { time_of self.new ≡ time_of self.old }
        ensures slot { self.new.rings ≡ rings_with slot entry self.old.rings }
        ensures settings { (settings : SettingsValue) → IsOf settings self.old → IsOf settings self.new }
    {
        self.filters
            .put(&entry, scrubs, self.live.rows(entry.domain), &self.held);
        let entry = remember(&mut self.remembered, self.alloc, entry, slot);
        self.live.put(entry, slot);
        self.last = Some(slot);
    }

    /// Takes an entry at the time that says that the signal of a client peer is lost, or back.
    fn lose(&mut self, entry: Entry, slot: u32)
        requires fits { FitsIn self.old entry }
        requires at { entry.time ≡ time_of self.old }
        requires loss { is_loss entry.change ≡ true }
        ensures represents { (entries : List Entry) → Represents self.old entries → Represents self.new (entries ++ entry ∷ []) }
        ensures filed { (filed : List Filed) → RepresentsFiled self.old filed → RepresentsFiled self.new (filed ++ record { entry = entry; slot = slot } ∷ []) }
        ensures time { time_of self.new ≡ time_of self.old }
        ensures slot { self.new.rings ≡ rings_with slot entry self.old.rings }
        ensures settings { (settings : SettingsValue) → IsOf settings self.old → IsOf settings self.new }
    {
        let (peer, domain) = (entry.peer, entry.domain);
        self.live.note(&entry, slot);
        let entry = remember(&mut self.remembered, self.alloc, entry, slot);
        self.held.apply(entry, slot);
        self.filters
            .lose(peer, domain, self.live.rows(domain), &self.held);
        self.last = Some(slot);
    }

    /// Takes an entry at the time that puts no mitigation and says nothing of a signal, with the row of the access list that it
    /// writes.
    fn write(&mut self, entry: Entry, list: Option<AclRow>, slot: u32)
        requires fits { FitsIn self.old entry }
        requires at { entry.time ≡ time_of self.old }
        requires puts { puts entry ≡ false }
        requires quiet { is_loss entry.change ≡ false }
        requires staged { list ≡ list_put entry }
        ensures represents { (entries : List Entry) → Represents self.old entries → Represents self.new (entries ++ entry ∷ []) }
        ensures filed { (filed : List Filed) → RepresentsFiled self.old filed → RepresentsFiled self.new (filed ++ record { entry = entry; slot = slot } ∷ []) }
        ensures time { time_of self.new ≡ time_of self.old }
        ensures slot { self.new.rings ≡ rings_with slot entry self.old.rings }
        ensures settings { (settings : SettingsValue) → IsOf settings self.old → IsOf settings self.new }
    {
        let mitigating = has_working(&self.live, &self.held, &entry);
        let acls = self.held.acls(entry.domain, entry.cuid.bytes());
        self.filters.write(&entry, list, mitigating, acls);
        self.live.note(&entry, slot);
        let entry = remember(&mut self.remembered, self.alloc, entry, slot);
        self.held.apply(entry, slot);
        self.last = Some(slot);
    }
}

/// Lets tables go, for this fault.
fn give_up<T: Drop>(tables: T, fault: NoMemory) -> NoMemory {
    drop(tables);
    fault
}

/// Whether the entry's client has a live mitigation that filters, where its domain is one of these.
fn has_working(live: &LiveMitigations, held: &HeldResources, entry: &Entry) -> bool
    ensures { entry.now.domain < live.now.domains
        → result ≡ some_of (is_working (lost_in held.now)) entry.now.cuid (rows_for live.now entry.now.domain) }
{
    if entry.domain < live.domains() {
        return is_mitigating(live.rows(entry.domain), entry.cuid.bytes(), held);
    }
    false
}

/// Remembers the message of a signal entry with its reply, and gives the entry back without the reply.
pub(crate) fn remember(
    remembered: &mut Remembered,
    alloc: Global,
    mut entry: Entry,
    slot: u32,
) -> Entry
    requires { has_ring remembered.old entry ≡ true }
    ensures entry { result ≡ silent entry }
    ensures rings { remembered.new ≡ rings_with slot entry remembered.old }
{
    let reply = mem::replace(&mut entry.reply, Bytes::new(alloc));
    note_signal(remembered, &entry, slot, reply);
    entry
}

/// Remembers the message of a signal entry with this reply.
fn note_signal(remembered: &mut Remembered, entry: &Entry, slot: u32, reply: Bytes)
    requires { has_ring remembered.old entry.now ≡ true }
    ensures { remembered.new ≡ rings_with slot (answered reply entry.now) remembered.old }
{
    if is_signal(&entry.change) {
        remembered.note(entry.peer, entry.domain, entry.key, entry.time, slot, reply);
    }
}
