//! The live mitigations of all domains at a time.

ghost use Rattle.std.specs.Prelude.{◌≡◌, ◌≢◌, ℕ, ◌<◌, ◌≤◌, ◌++◌, ◌∷◌, ◌==◌, ◌&&◌, [], true, false, List, length, map, option_copied, IfOk, IfSome, IfNone};
ghost use Rattle.std.specs.List.{list_any};
ghost use Rattle.dots_history.specs.declared.entry.Entry.{Entry};
ghost use Rattle.dots_history.specs.Histories.{mitigations, alone};
ghost use Rattle.dots_history.specs.Rows.{triggers, waits};
ghost use Rattle.dots_history.specs.Slots.{Rises};
ghost use Rattle.dots_history.specs.Filed.{Filed, entry_of};
ghost use Rattle.dots_history.specs.KeptPlaces.{union};
ghost use Rattle.dots_history.specs.HistoryReading.{is_waiting};
ghost use Rattle.dots_history.specs.Tables.{bare};
ghost use Rattle.dots_history.specs.Views.{mitigations_at, mitigations_with, mitigations_of};
ghost use Rattle.live_mitigations.specs.Ends.{never};
ghost use Rattle.live_mitigations.specs.LiveValues.{rows_for, count_live, has_due, puts, Represents, ComesTo, SameButRows, SlotsAre, SlotsCome, keeps_limits, has_live_room};
ghost use Rattle.live_mitigations.specs.LiveRows.{mitigations_in};
ghost use Rattle.live_mitigations.specs.Rows.{slots_of};
ghost use Rattle.live_mitigations.specs.Slots.{put_in};
ghost use Rattle.live_mitigations.specs.Numbers.{all_numbers, live_renumbered};

use crate::counting::keep_limits;
use crate::live_row::LiveRow;
use crate::row::Row;
use crate::tables::LiveTables;
use dots_history::{Entry, SlotList, put_of};
use dots_lists::NoMemory;
use dots_settings::{Limits, Settings};
use std::alloc::Global;
use std::marker::Model;

/// The live mitigations of each domain, standing and terminating ones, with room for as many as the settings say.
#[derive(Drop)]
pub struct LiveMitigations {
    tables: LiveTables,
    domains: u16,
    limits: Limits,
    time: u64,
}

impl Model for LiveMitigations {
    ghost use Rattle.live_mitigations.specs.LiveValues.{LiveValue, AreTables};

    ghost Value = { LiveValue };

    ghost view = { λ live. record {
      domains = live.domains;
      limits = live.limits;
      time = live.time;
      tables = live.tables;
    } };

    ghost invariant = { λ live. AreTables (record {
      domains = live.domains;
      limits = live.limits;
      time = live.time;
      tables = live.tables;
    }) };
}

impl LiveMitigations {
    /// Those of no entries, at time 0. This is the only call that takes memory.
    #[tactic(auto, using(crate::proofs::LiveValues::represents_empty, crate::proofs::LiveValues::are_empty_tables))]
    pub fn new(alloc: Global, settings: &Settings) -> Result<Self, NoMemory>
        ensures represents { IfOk result (λ live. Represents live []) }
        ensures slots { IfOk result (λ live. SlotsAre 0 live.tables []) }
        ensures domains { IfOk result (λ live. live.domains ≡ length settings.now.domains) }
        ensures limits { IfOk result (λ live. live.limits ≡ settings.now.limits) }
        ensures time { IfOk result (λ live. live.time ≡ 0) }
    {
        let limits = settings.limits();
        let domains = settings.domains();
        let room = limits.domain_mitigations as usize;
        Ok(LiveMitigations {
            tables: LiveTables::new(alloc, domains, room)?,
            domains,
            limits,
            time: 0,
        })
    }

    /// The time at which they are live, in seconds.
    pub fn time(&self) -> u64
        ensures { result ≡ self.now.time }
    {
        self.time
    }

    /// How many domains there are.
    pub fn domains(&self) -> u16
        ensures { result ≡ self.now.domains }
    {
        self.domains
    }

    /// How much there is room for.
    pub fn limits(&self) -> Limits
        ensures { result ≡ self.now.limits }
    {
        self.limits
    }

    /// The live mitigations of a domain, in order of their entries.
    pub fn rows(&self, domain: u16) -> &[LiveRow]
        requires { domain < self.now.domains }
        ensures kept { mitigations_in result.now ≡ rows_for self.now domain }
        ensures live { (entries : List Entry) → Represents self.now entries → mitigations_in result.now ≡ mitigations_of domain (mitigations self.now.time (map bare entries)) }
    {
        self.tables.rows(domain)
    }

    /// The live mitigation of a domain whose entry stands in this slot of the journal.
    pub fn put_in(&self, domain: u16, slot: u32) -> Option<&Row>
        ensures { option_copied result ≡ put_in slot (rows_for self.now domain) (slots_of domain self.now.tables) }
    {
        self.tables.put_in(domain, slot)
    }

    /// Whether a live mitigation of this peer filters at once (RFC 9132, section 4.4.1: `trigger-mitigation`).
    pub fn triggers(&self, peer: u32) -> bool
        ensures { (entries : List Entry) → Represents self.now entries
            → result ≡ list_any (λ m. (m.put.peer == peer) && triggers m.put.change) (mitigations self.now.time entries) }
    {
        self.tables.triggers(peer)
    }

    /// Whether a live mitigation of this peer filters only while the signal of its client is lost.
    pub fn waits(&self, peer: u32) -> bool
        ensures { (entries : List Entry) → Represents self.now entries → result ≡ is_waiting self.now.time entries peer }
    {
        self.tables.waits(peer)
    }

    /// The number of a domain in which a mitigation is over by this time; None where there is none.
    pub fn next_due(&mut self, now: u64) -> Option<u16>
        requires { now < never }
        ensures same { self.new ≡ self.old }
        ensures none { IfNone result ((domain : ℕ) → has_due now self.old domain ≡ false) }
        ensures some { IfSome result (λ domain. (domain < self.old.domains) × (has_due now self.old domain ≡ true)) }
    {
        self.tables.next_due(now)
    }

    /// Takes the mitigations of a domain out that are over by this time.
    pub fn expire(&mut self, domain: u16, now: u64)
        requires { domain < self.old.domains }
        ensures own { rows_for self.new domain ≡ mitigations_at now (rows_for self.old domain) }
        ensures others { (other : ℕ) → other ≢ domain → rows_for self.new other ≡ rows_for self.old other }
        ensures comes { (entries : List Entry) → ComesTo now self.old entries → ComesTo now self.new entries }
        ensures slots { (filed : List Filed) → SlotsCome now self.old.tables filed → SlotsCome now self.new.tables filed }
        ensures fewer { has_due now self.old domain ≡ true → count_live self.new < count_live self.old }
        ensures same { SameButRows self.old self.new }
    {
        self.tables.expire(domain, now);
    }

    /// Moves the time, and takes out what is over then.
    pub fn tick(&mut self, now: u64)
        requires later { self.old.time ≤ now }
        requires bounded { now < never }
        ensures represents { (entries : List Entry) → ComesTo now self.old entries → Represents self.new entries }
        ensures slots { (filed : List Filed) → SlotsCome now self.old.tables filed → SlotsAre now self.new.tables filed }
        // A domain in which none is over stays as it was.
        ensures still { (domain : ℕ) → has_due now self.old domain ≡ false → rows_for self.new domain ≡ rows_for self.old domain }
        ensures time { self.new.time ≡ now }
        ensures domains { self.new.domains ≡ self.old.domains }
        ensures limits { self.new.limits ≡ self.old.limits }
    {
        self.expire_all(now);
        self.time = now;
    }

    /// Takes all out that are over by this time.
    fn expire_all(&mut self, now: u64)
        requires { now < never }
        ensures none { (domain : ℕ) → has_due now self.new domain ≡ false }
        ensures comes { (entries : List Entry) → ComesTo now self.old entries → ComesTo now self.new entries }
        ensures slots { (filed : List Filed) → SlotsCome now self.old.tables filed → SlotsCome now self.new.tables filed }
        ensures still { (domain : ℕ) → has_due now self.old domain ≡ false → rows_for self.new domain ≡ rows_for self.old domain }
        ensures same { SameButRows self.old self.new }
    {
        while let Some(domain) = self.next_due(now) {
            self.expire(domain, now);
        }
    }

    /// Whether with the entry, at its time, its domain and its client have at most as many live mitigations as the settings
    /// say. Terminating ones count.
    pub fn has_room(&self, entry: &Entry) -> bool
        requires later { self.now.time ≤ entry.now.time }
        requires inside { entry.now.domain < self.now.domains }
        ensures kept { result ≡ keeps_limits self.now.limits entry.now (rows_for self.now entry.now.domain) }
        ensures room { (entries : List Entry) → Represents self.now entries → result ≡ has_live_room self.now.limits entries entry.now }
    {
        keep_limits(self.tables.rows(entry.domain), entry, &self.limits)
    }

    /// Takes an entry that puts no mitigation, at the time, in this slot of the journal: a withdrawal, or one that changes nothing
    /// here.
    pub fn note(&mut self, entry: &Entry, slot: u32)
        requires at { entry.now.time ≡ self.old.time }
        requires quiet { puts entry.now ≡ false }
        ensures represents { (entries : List Entry) → Represents self.old entries → Represents self.new (entries ++ entry.now ∷ []) }
        ensures slots { (filed : List Filed) → Represents self.old (map entry_of filed) → SlotsAre self.old.time self.old.tables filed
            → SlotsAre self.old.time self.new.tables (filed ++ record { entry = entry.now; slot = slot } ∷ []) }
        ensures own { entry.now.domain < self.old.domains → rows_for self.new entry.now.domain ≡ mitigations_with (bare entry.now) (rows_for self.old entry.now.domain) }
        ensures others { (other : ℕ) → other ≢ entry.now.domain → rows_for self.new other ≡ rows_for self.old other }
        ensures same { SameButRows self.old self.new }
    {
        if entry.domain < self.domains {
            self.tables.note(entry, slot);
        }
    }

    /// Takes an entry at the time, of one of the domains, in this slot of the journal: one that puts a mitigation for which there is
    /// room, as [`LiveMitigations::has_room`] says. Its message and its reply don't matter, so they may be taken out of it before.
    pub fn put(&mut self, entry: Entry, slot: u32)
        requires at { entry.time ≡ self.old.time }
        requires inside { entry.domain < self.old.domains }
        requires room { keeps_limits self.old.limits entry (rows_for self.old entry.domain) ≡ true }
        ensures represents { (entries : List Entry) (e : Entry) → bare e ≡ bare entry → Represents self.old entries → Represents self.new (entries ++ e ∷ []) }
        ensures slots { (filed : List Filed) (e : Entry) → bare e ≡ bare entry → Represents self.old (map entry_of filed) → SlotsAre self.old.time self.old.tables filed
            → SlotsAre self.old.time self.new.tables (filed ++ record { entry = e; slot = slot } ∷ []) }
        ensures own { rows_for self.new entry.domain ≡ mitigations_with (bare entry) (rows_for self.old entry.domain) }
        ensures others { (other : ℕ) → other ≢ entry.domain → rows_for self.new other ≡ rows_for self.old other }
        ensures same { SameButRows self.old self.new }
    {
        self.tables.put(entry, slot);
    }

    /// Puts the slots of a journal in which the entries of the mitigations stand into the list, which has room for them: of each that of
    /// its entry, and that of the entry that first withdrew it, where it is terminating.
    pub fn put_slots(&self, into: &mut SlotList)
        requires { length (union (all_numbers self.now.tables) into.old.items) ≤ into.old.room }
        ensures { into.new ≡ record into.old { items = union (all_numbers self.now.tables) into.old.items } }
    {
        self.tables.put_into(into);
    }

    /// Gives the slots new numbers: the slot `keep[i]` becomes the slot `i`, and one that isn't in `keep` stays.
    pub fn renumber(&mut self, keep: &[u32])
        requires { Rises keep.now }
        ensures { self.new ≡ live_renumbered keep.now self.old }
    {
        self.tables.renumber(keep);
    }
}

/// Whether the entry puts a mitigation.
pub fn puts(entry: &Entry) -> bool
    ensures { result ≡ puts entry.now }
{
    put_of(&entry.change).is_some()
}
