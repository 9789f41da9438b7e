ghost use Rattle.std.specs.Prelude.{◌≡◌, ℕ, ◌+◌, ◌<◌, ◌≤◌, ◌^◌, [], None, Some, map, filter, length, nat_lt, option_map, IsSome, IfOk};
ghost use Rattle.std.specs.List.{All, AllByRecursion};
ghost use Rattle.acl_lists.specs.HandedOut.{fate_of};
ghost use Rattle.acl_lists.specs.Fates.{fate_by_rows};
ghost use Rattle.filter_table.specs.TableRows.{scrub_in, with_scrub, AreInstalled, without_mitigation, woken, with_acl, without_acl, activated, renumbered, place_of_scrub, scrub_at_place, place_of_acl, acl_at_place, row_of_scrub, row_of_acl, active_rows};
ghost use Rattle.dots_settings.specs.Lookups.{prefixes_of};
ghost use Rattle.filter_table.specs.Table.{TableValue, slots_of};

use crate::acls::Acls;
use crate::fates::fate_by_placed;
use crate::rows::{AclRows, ScrubRows};
use crate::scrubs::Scrubs;
use acl_lists::{AclRow, Fate, Packet, ScrubRow};
use dots_lists::{Name, NoMemory};
use dots_settings::Settings;
use ip_scope::Family;
use std::alloc::Global;
use std::marker::Model;

/// The rows that filter now, or may.
///
/// A row of a mitigation stands in a slot of its own as long as it is held. Rows of mitigations and rows of access lists are
/// each in order of place; a row that is put in at a place that others have stands behind those.
#[derive(Drop)]
pub struct FilterTable {
    scrubs: Scrubs,
    acls: Acls,
}

impl Model for FilterTable {
    ghost use Rattle.filter_table.specs.Table.{TableValue};

    ghost Value = { TableValue };

    ghost view = { λ table. record {
      scrub_room = table.scrubs.room;
      acl_room = table.acls.room;
      scrubs = table.scrubs.placed;
      acls = table.acls.placed;
    } };
}

impl FilterTable {
    /// No rows, and room for so many of mitigations and of access lists. This is the only call that takes memory.
    pub fn new(alloc: Global, scrubs: usize, acls: usize) -> Result<Self, NoMemory>
        requires { scrubs < 2 ^ 32 }
        ensures { IfOk result (λ table. table ≡ record { scrub_room = scrubs; acl_room = acls; scrubs = []; acls = [] }) }
    {
        Ok(FilterTable {
            scrubs: Scrubs::new(alloc, scrubs)?,
            acls: Acls::new(alloc, acls)?,
        })
    }

    /// Whether there is room for one more row of a mitigation.
    pub fn has_scrub_room(&self) -> bool
        ensures { result ≡ nat_lt (length self.now.scrubs) self.now.scrub_room }
    {
        self.scrubs.has_room()
    }

    /// Puts the row of a mitigation into a free slot. Which one is left open. No other row changes its slot.
    pub fn install(&mut self, place: u64, row: ScrubRow)
        requires { length self.old.scrubs < self.old.scrub_room }
        ensures { (slot : ℕ) × (slot < self.old.scrub_room) × (scrub_in slot self.old.scrubs ≡ None) × (self.new ≡ record {
          scrub_room = self.old.scrub_room;
          acl_room = self.old.acl_room;
          scrubs = with_scrub (record { slot = slot; place = place; row = row }) self.old.scrubs;
          acls = self.old.acls;
        }) }
    {
        self.scrubs.install(place, row);
    }

    /// Puts rows of mitigations into free slots, the first at this place and each other at the next one. Which slots is left open.
    /// No other row changes its slot.
    pub fn install_all(&mut self, place: u64, rows: Vec<ScrubRow>)
        requires room { length self.old.scrubs + length rows.items ≤ self.old.scrub_room }
        requires places { place + length rows.items < 2 ^ 64 }
        ensures rows { AreInstalled self.old.scrub_room place rows.items self.old.scrubs self.new.scrubs }
        ensures others { self.new ≡ record {
          scrub_room = self.old.scrub_room;
          acl_room = self.old.acl_room;
          scrubs = self.new.scrubs;
          acls = self.old.acls;
        } }
    {
        self.scrubs.install_all(place, rows);
    }

    /// Takes each row of this mitigation out.
    pub fn remove(&mut self, domain: u16, cuid: &[u8], mid: u32)
        ensures { self.new ≡ record {
          scrub_room = self.old.scrub_room;
          acl_room = self.old.acl_room;
          scrubs = without_mitigation domain cuid.now mid self.old.scrubs;
          acls = self.old.acls;
        } }
    {
        self.scrubs.remove(domain, cuid, mid);
    }

    /// Says of each row of this mitigation whether it is active. No place changes.
    pub fn wake(&mut self, domain: u16, cuid: &[u8], mid: u32, active: bool)
        ensures { self.new ≡ record {
          scrub_room = self.old.scrub_room;
          acl_room = self.old.acl_room;
          scrubs = map (woken domain cuid.now mid active) self.old.scrubs;
          acls = self.old.acls;
        } }
    {
        self.scrubs.wake(domain, cuid, mid, active);
    }

    /// Puts the row of an access list in place of that of the same client and name. It is there, or there is room.
    pub fn set_acl(&mut self, place: u64, row: AclRow)
        requires { length (without_acl row.domain row.cuid row.acl.name self.old.acls) < self.old.acl_room }
        ensures { self.new ≡ record {
          scrub_room = self.old.scrub_room;
          acl_room = self.old.acl_room;
          scrubs = self.old.scrubs;
          acls = with_acl (record { place = place; row = row }) (without_acl row.domain row.cuid row.acl.name self.old.acls);
        } }
    {
        self.acls.set(place, row);
    }

    /// Takes the row of this client's list of this name out, where there is one.
    pub fn drop_acl(&mut self, domain: u16, cuid: &[u8], name: &Name)
        ensures { self.new ≡ record {
          scrub_room = self.old.scrub_room;
          acl_room = self.old.acl_room;
          scrubs = self.old.scrubs;
          acls = without_acl domain cuid.now name.now self.old.acls;
        } }
    {
        self.acls.drop_acl(domain, cuid, name.bytes());
    }

    /// Says of each row of this client whose list is active while the client mitigates (RFC 8783, section 7.2) whether it
    /// is. No place changes.
    pub fn activate(&mut self, domain: u16, cuid: &[u8], active: bool)
        ensures { self.new ≡ record {
          scrub_room = self.old.scrub_room;
          acl_room = self.old.acl_room;
          scrubs = self.old.scrubs;
          acls = map (activated domain cuid.now active) self.old.acls;
        } }
    {
        self.acls.activate(domain, cuid, active);
    }

    /// Gives the rows of mitigations, and by themselves the rows of access lists, places from 0 on in their order, equal places
    /// staying equal. Answers a number that is above all of them, and at most the number of rows.
    pub fn renumber(&mut self) -> u64
        ensures value { self.new ≡ record {
          scrub_room = self.old.scrub_room;
          acl_room = self.old.acl_room;
          scrubs = renumbered place_of_scrub scrub_at_place self.old.scrubs;
          acls = renumbered place_of_acl acl_at_place self.old.acls;
        } }
        ensures above_scrubs { AllByRecursion (λ scrub. scrub.place < result) self.new.scrubs }
        ensures above_acls { AllByRecursion (λ list. list.place < result) self.new.acls }
        ensures most { result ≤ length self.old.scrubs + length self.old.acls }
    {
        self.scrubs.renumber();
        self.acls.renumber();
        let scrubs = self.scrubs.len();
        let acls = self.acls.placed().len();
        scrubs.max(acls) as u64
    }

    /// What the first matching entry of the active access lists says, in order of place (RFC 8519, section 2); else the packet
    /// is scrubbed for the greatest mid of the active rows of mitigations that match; else it passes. A list of a domain that
    /// the settings don't have has no prefixes by default.
    pub fn fate<'a>(&'a self, packet: &Packet, settings: &Settings) -> Fate<'a>
        ensures { fate_of result ≡ fate_by_rows (prefixes_of settings.now) (map row_of_scrub self.now.scrubs) (map row_of_acl self.now.acls) packet.now }
    {
        fate_by_placed(settings, &self.scrubs, self.acls.placed(), packet)
    }

    /// The active rows of mitigations, in order of place.
    pub fn scrubs(&self) -> ScrubRows<'_>
        ensures { result ≡ active_rows self.now.scrubs }
    {
        self.scrubs.active()
    }

    /// All rows of access lists, in order of place.
    pub fn acls(&self) -> AclRows<'_>
        ensures { result ≡ map row_of_acl self.now.acls }
    {
        AclRows::of(self.acls.placed())
    }

    /// The slots of the rows of mitigations, active or not, whose prefix has this family and length, each once, in order of
    /// the prefix's number and then of place.
    pub fn slots_of(&self, family: Family, length: u8) -> &[u32]
        ensures value { result.now ≡ slots_of family length self.now.scrubs }
        ensures there { All (λ slot. IsSome (scrub_in slot self.now.scrubs)) result.now }
    {
        self.scrubs.slots_of(family, length)
    }

    /// The row that stands in a slot.
    pub fn scrub_at(&self, slot: u32) -> &ScrubRow
        requires { IsSome (scrub_in slot self.now.scrubs) }
        ensures { option_map row_of_scrub (scrub_in slot self.now.scrubs) ≡ Some result.now }
    {
        self.scrubs.scrub_at(slot)
    }
}
