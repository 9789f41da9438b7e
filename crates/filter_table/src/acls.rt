//! The rows of access lists.

ghost use Rattle.std.specs.Prelude.{◌≡◌, ◌<◌, ◌≤◌, [], not, map, length, nat_le, IfOk, vec_capacity};
ghost use Rattle.std.specs.List.{prefix_len};
ghost use Rattle.filter_table.specs.TableRows.{AclsValue, with_acl, is_named, without_acl, activated, waits, renumbered, acl_at_place, place_of_acl};

use crate::placed::{PlacedAcl, is_of_client, number_after};
use acl_lists::{AclRow, Activation};
use dots_lists::NoMemory;
use std::alloc::Global;
use std::marker::Model;

/// The rows in order of place.
#[derive(Drop)]
pub struct Acls {
    placed: Vec<PlacedAcl>,
    room: usize,
}

impl Model for Acls {
    ghost use Rattle.std.specs.Prelude.{◌≤◌, vec_capacity};
    ghost use Rattle.filter_table.specs.TableRows.{AclsValue};

    ghost Value = { AclsValue };

    ghost view = { λ acls. record { room = acls.room; placed = acls.placed.items } };

    ghost invariant = { λ acls. acls.room ≤ vec_capacity acls.placed };
}

impl Acls {
    /// No rows, and room for so many.
    pub fn new(alloc: Global, room: usize) -> Result<Self, NoMemory>
        ensures { IfOk result (λ made. made ≡ record { room = room; placed = [] }) }
    {
        Ok(Acls {
            placed: Vec::with_capacity(alloc, room)?,
            room,
        })
    }

    /// Puts the row of a list in place of that of the same client and name, behind those whose place is not greater.
    pub fn set(&mut self, place: u64, row: AclRow)
        requires { length (without_acl row.domain row.cuid row.acl.name self.old.placed) < self.old.room }
        ensures { self.new ≡ record {
          room = self.old.room;
          placed = with_acl (record { place = place; row = row }) (without_acl row.domain row.cuid row.acl.name self.old.placed);
        } }
    {
        self.drop_acl(row.domain, row.cuid.bytes(), row.acl.name.bytes());
        self.put(PlacedAcl { place, row });
    }

    fn put(&mut self, list: PlacedAcl)
        requires { length self.old.placed < self.old.room }
        ensures { self.new ≡ record { room = self.old.room; placed = with_acl list self.old.placed } }
    {
        let at = place_after(list.place, self.placed.as_slice());
        let _room_was_reserved = self.placed.insert(at, list);
    }

    /// Takes the row of this client's list of this name out, where there is one.
    pub fn drop_acl(&mut self, domain: u16, cuid: &[u8], name: &[u8])
        ensures { self.new ≡ record { room = self.old.room; placed = without_acl domain cuid.now name.now self.old.placed } }
    {
        retain_others(&mut self.placed, domain, cuid, name);
    }

    /// Says of each row of this client whose list is active while the client mitigates whether it is.
    pub fn activate(&mut self, domain: u16, cuid: &[u8], active: bool)
        ensures { self.new ≡ record { room = self.old.room; placed = map (activated domain cuid.now active) self.old.placed } }
    {
        activate_rows(&mut self.placed, domain, cuid, active);
    }

    /// Gives the rows places from 0 on in their order, equal places staying equal.
    pub fn renumber(&mut self)
        ensures { self.new ≡ record { room = self.old.room; placed = renumbered place_of_acl acl_at_place self.old.placed } }
    {
        renumber_rows(&mut self.placed);
    }

    /// The rows in order of place.
    pub fn placed(&self) -> &[PlacedAcl]
        ensures { result.now ≡ self.now.placed }
    {
        self.placed.as_slice()
    }
}

/// How many rows stand before one that is put in at this place.
fn place_after(place: u64, placed: &[PlacedAcl]) -> usize
    ensures value { result ≡ prefix_len (λ other. nat_le other.place place) placed.now }
    ensures within { result ≤ length placed.now }
{
    placed
        .iter()
        .take_while(|other| other.place <= place)
        .count()
}

/// Whether the row is that of this client's list of this name.
fn is_named(list: &PlacedAcl, domain: u16, cuid: &[u8], name: &[u8]) -> bool
    ensures { result ≡ is_named domain cuid.now name.now list.now }
{
    is_of_client(domain, cuid, list.row.domain, &list.row.cuid) && list.row.acl.name.bytes() == name
}

fn retain_others(placed: &mut Vec<PlacedAcl>, domain: u16, cuid: &[u8], name: &[u8])
    ensures items { placed.new.items ≡ without_acl domain cuid.now name.now placed.old.items }
    ensures capacity { vec_capacity placed.new ≡ vec_capacity placed.old }
{
    placed.retain(|list| !is_named(list, domain, cuid, name));
}

fn activate_rows(placed: &mut Vec<PlacedAcl>, domain: u16, cuid: &[u8], active: bool)
    ensures items { placed.new.items ≡ map (activated domain cuid.now active) placed.old.items }
    ensures capacity { vec_capacity placed.new ≡ vec_capacity placed.old }
{
    activate_all(placed.as_mut_slice(), domain, cuid, active);
}

fn activate_all(placed: &mut [PlacedAcl], domain: u16, cuid: &[u8], active: bool)
    ensures { placed.new ≡ map (activated domain cuid.now active) placed.old }
{
    for list in placed.iter_mut() {
        activate_one(list, domain, cuid, active);
    }
}

fn activate_one(list: &mut PlacedAcl, domain: u16, cuid: &[u8], active: bool)
    ensures { list.new ≡ activated domain cuid.now active list.old }
{
    if is_of_client(domain, cuid, list.row.domain, &list.row.cuid)
        && waits(list.row.acl.activation)
    {
        list.row.active = active;
    }
}

/// Whether a list is active while its client mitigates, and not else.
fn waits(activation: Activation) -> bool
    ensures { result ≡ waits activation }
{
    match activation {
        Activation::WhenMitigating => true,
        Activation::Immediate | Activation::Deactivate => false,
    }
}

fn renumber_rows(placed: &mut Vec<PlacedAcl>)
    ensures items { placed.new.items ≡ renumbered place_of_acl acl_at_place placed.old.items }
    ensures capacity { vec_capacity placed.new ≡ vec_capacity placed.old }
{
    renumber_all(placed.as_mut_slice());
}

fn renumber_all(placed: &mut [PlacedAcl])
    ensures { placed.new ≡ renumbered place_of_acl acl_at_place placed.old }
{
    let Some(first) = placed.first() else {
        return;
    };
    let mut last = first.place;
    let mut number = 0;
    for list in placed.iter_mut() {
        let place = list.place;
        number = number_after(last, number, place);
        last = place;
        list.place = number;
    }
}
