//! The live mitigations of each domain, and when the first of each are over.

ghost use Rattle.std.specs.Prelude.{◌≡◌, ℕ, ◌<◌, ◌≤◌, ◌==◌, ◌&&◌, length, map, option_copied, IfOk, IfSome, IfNone, Some, slice_get};
ghost use Rattle.dots_history.specs.Rows.{triggers, waits};
ghost use Rattle.dots_history.specs.Tables.{bare};
ghost use Rattle.dots_history.specs.Views.{mitigations_with};
ghost use Rattle.live_mitigations.specs.Ends.{never, first_end};
ghost use Rattle.dots_history.specs.Slots.{Rises};
ghost use Rattle.dots_history.specs.KeptPlaces.{union};
ghost use Rattle.live_mitigations.specs.Rows.{LiveTable, AreEmpty, aged, noted, grown, update, rows_at, slots_of, any_row};
ghost use Rattle.live_mitigations.specs.LiveRows.{mitigations_in};
ghost use Rattle.live_mitigations.specs.Slots.{put_in};
ghost use Rattle.live_mitigations.specs.Numbers.{all_numbers, table_renumbered};

use crate::list::LiveList;
use crate::live_row::LiveRow;
use crate::row::Row;
use dots_history::{Entry, SlotList};
use dots_lists::NoMemory;
use lifetime_clock::Deadlines;
use std::alloc::Global;
use std::marker::Model;

/// A list for each domain, and for each the first second at which one of its mitigations is over.
#[derive(Drop)]
pub(crate) struct LiveTables {
    lists: Vec<LiveList>,
    deadlines: Deadlines,
}

impl Model for LiveTables {
    ghost use Rattle.std.specs.Prelude.{List, ◌≤◌, length};
    ghost use Rattle.live_mitigations.specs.Rows.{LiveTable, Tied};

    ghost Value = { List LiveTable };

    ghost view = { λ tables. tables.lists.items };

    ghost invariant = { λ tables.
        Tied tables.deadlines tables.lists.items × (length tables.lists.items ≤ 65535) };
}

impl LiveTables {
    /// No mitigations, and room for so many of each of so many domains.
    pub fn new(alloc: Global, domains: u16, room: usize) -> Result<Self, NoMemory>
        ensures { IfOk result (λ tables. AreEmpty domains room tables) }
    {
        let count = usize::from(domains);
        let mut lists = Vec::with_capacity(alloc, count)?;
        let mut deadlines = Deadlines::new(alloc, count)?;
        for domain in 0..domains {
            lists.push_reserved(LiveList::new(alloc, room)?);
            deadlines.set(u32::from(domain), u64::MAX);
        }
        Ok(LiveTables { lists, deadlines })
    }

    /// Those of a domain; none where there is no such domain.
    pub fn rows(&self, domain: u16) -> &[LiveRow]
        ensures { mitigations_in result.now ≡ rows_at domain self.now }
    {
        match self.lists.get(usize::from(domain)) {
            Some(list) => list.rows(),
            None => &[],
        }
    }

    /// The one of a domain whose entry stands in this slot; None where there is no such domain.
    pub fn put_in(&self, domain: u16, slot: u32) -> Option<&Row>
        ensures { option_copied result ≡ put_in slot (rows_at domain self.now) (slots_of domain self.now) }
    {
        match self.lists.get(usize::from(domain)) {
            Some(list) => list.put_in(slot),
            None => None,
        }
    }

    /// Whether one of a domain has this peer and filters at once.
    pub fn triggers(&self, peer: u32) -> bool
        ensures { result ≡ any_row (λ m. (m.put.peer == peer) && triggers m.put.change) self.now }
    {
        self.lists.iter().any(|list| list.triggers(peer))
    }

    /// Whether one of a domain has this peer and waits for a lost signal.
    pub fn waits(&self, peer: u32) -> bool
        ensures { result ≡ any_row (λ m. (m.put.peer == peer) && waits m.put.change) self.now }
    {
        self.lists.iter().any(|list| list.waits(peer))
    }

    /// The number of a domain in which a mitigation is over by this time, where there is one.
    pub fn next_due(&mut self, now: u64) -> Option<u16>
        requires { now < never }
        ensures same { self.new ≡ self.old }
        ensures none { IfNone result ((domain : ℕ) → now < first_end (rows_at domain self.old)) }
        ensures some { IfSome result (λ domain. (domain < length self.old) × (first_end (rows_at domain self.old) ≤ now)) }
    {
        let key = self.deadlines.due(now)?;
        let due = self.lists[key as usize].due();
        self.deadlines.set(key, due);
        Some(key as u16)
    }

    /// Takes those of a domain out that are over by this time.
    pub fn expire(&mut self, domain: u16, now: u64)
        requires { domain < length self.old }
        ensures { self.new ≡ update (aged now) domain self.old }
    {
        let list = &mut self.lists[usize::from(domain)];
        list.expire(now);
        let due = list.due();
        self.deadlines.set(u32::from(domain), due);
    }

    /// Does to those of the entry's domain what the entry in this slot does, and takes those out that are then over.
    pub fn note(&mut self, entry: &Entry, slot: u32)
        requires { entry.now.domain < length self.old }
        ensures { self.new ≡ update (noted (record { entry = entry.now; slot = slot })) entry.now.domain self.old }
    {
        let list = &mut self.lists[usize::from(entry.domain)];
        list.note(entry, slot);
        let due = list.due();
        self.deadlines.set(u32::from(entry.domain), due);
    }

    /// Does the same, and puts the mitigation of the entry behind them, where it is live.
    pub fn put(&mut self, entry: Entry, slot: u32)
        requires domain { entry.domain < length self.old }
        requires room { (table : LiveTable) → slice_get self.old entry.domain ≡ Some table → length (mitigations_with (bare entry) table.rows) ≤ table.room }
        ensures { self.new ≡ update (grown (record { entry = entry; slot = slot })) entry.domain self.old }
    {
        let domain = entry.domain;
        let list = &mut self.lists[usize::from(domain)];
        list.put(entry, slot);
        let due = list.due();
        self.deadlines.set(u32::from(domain), due);
    }

    /// Puts the slots of each into the list, which has room for them.
    pub fn put_into(&self, into: &mut SlotList)
        requires { length (union (all_numbers self.now) into.old.items) ≤ into.old.room }
        ensures { into.new ≡ record into.old { items = union (all_numbers self.now) into.old.items } }
    {
        put_lists(self.lists.as_slice(), into);
    }

    /// Gives the slots their new numbers.
    pub fn renumber(&mut self, keep: &[u32])
        requires { Rises keep.now }
        ensures { self.new ≡ map (table_renumbered keep.now) self.old }
    {
        renumber_lists(self.lists.as_mut_slice(), keep);
    }
}

fn put_lists(lists: &[LiveList], into: &mut SlotList)
    requires { length (union (all_numbers lists.now) into.old.items) ≤ into.old.room }
    ensures { into.new ≡ record into.old { items = union (all_numbers lists.now) into.old.items } }
{
    for list in lists {
        list.put_into(into);
    }
}

fn renumber_lists(lists: &mut [LiveList], keep: &[u32])
    requires { Rises keep.now }
    ensures { lists.new ≡ map (table_renumbered keep.now) lists.old }
{
    for list in lists.iter_mut() {
        list.renumber(keep);
    }
}
