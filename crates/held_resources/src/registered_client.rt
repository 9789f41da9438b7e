//! A registered client.

ghost use Rattle.std.specs.Prelude.{◌≡◌, ◌≤◌, ◌++◌, [], not, filter, length, nat_le, IfOk, vec_capacity, option_to_list, is_some, Some};
ghost use Rattle.dots_history.specs.Entries.{undoes_alias, undoes_acl};
ghost use Rattle.dots_history.specs.Rows.{acl_of};
ghost use Rattle.dots_history.specs.Held.{alias_of};
ghost use Rattle.held_resources.specs.Tables.{no_holding, holding_with, aliases_with, acls_with, KeepsRoom};
ghost use Rattle.held_resources.specs.Accepting.{keeps_room};

use crate::rooms::Rooms;
use acl_lists::{Acl, Alias};
use dots_history::{Change, undoes_acl, undoes_alias};
use dots_lists::{Name, NoMemory, Text};
use std::alloc::Global;
use std::marker::Model;

/// A registered client with its aliases and access lists, each in order of writing, and room for so many.
#[derive(Drop)]
pub struct RegisteredClient {
    rooms: Rooms,
    /// Who registered it.
    peer: u32,
    cuid: Text,
    aliases: Vec<Alias>,
    acls: Vec<Acl>,
}

impl Model for RegisteredClient {
    ghost use Rattle.std.specs.Prelude.{◌≤◌, vec_capacity};
    ghost use Rattle.held_resources.specs.Tables.{Holding};

    ghost Value = { Holding };

    ghost view = { λ client. record {
      rooms = client.rooms;
      peer = client.peer;
      cuid = client.cuid;
      aliases = client.aliases.items;
      acls = client.acls.items;
    } };

    ghost invariant = { λ client.
        (client.rooms.aliases ≤ vec_capacity client.aliases) × (client.rooms.acls ≤ vec_capacity client.acls) };
}

impl RegisteredClient {
    /// A client without a name that holds nothing, with the memory for what it may hold.
    pub fn new(alloc: Global, rooms: Rooms) -> Result<Self, NoMemory>
        ensures { IfOk result (λ client. client ≡ no_holding rooms 0 []) }
    {
        Ok(RegisteredClient {
            rooms,
            peer: 0,
            cuid: Text::from_string(String::new(alloc)),
            aliases: Vec::with_capacity(alloc, rooms.aliases)?,
            acls: Vec::with_capacity(alloc, rooms.acls)?,
        })
    }

    /// The peer that registered it.
    pub fn peer(&self) -> u32
        ensures { result ≡ self.now.peer }
    {
        self.peer
    }

    /// Its name in its domain.
    pub fn cuid(&self) -> &[u8]
        ensures { result.now ≡ self.now.cuid }
    {
        self.cuid.bytes()
    }

    pub fn aliases(&self) -> &[Alias]
        ensures { result.now ≡ self.now.aliases }
    {
        self.aliases.as_slice()
    }

    pub fn acls(&self) -> &[Acl]
        ensures { result.now ≡ self.now.acls }
    {
        self.acls.as_slice()
    }

    /// Makes it the client of this name that this peer registers.
    pub fn rename(&mut self, peer: u32, cuid: Text)
        ensures { self.new ≡ record self.old { peer = peer; cuid = cuid } }
    {
        self.peer = peer;
        self.cuid = cuid;
    }

    /// Empties it.
    pub fn clear(&mut self)
        ensures { self.new ≡ no_holding self.old.rooms self.old.peer self.old.cuid }
    {
        self.aliases.clear();
        self.acls.clear();
    }

    /// Whether there is room for what a change of the client makes of its aliases and access lists.
    pub fn has_room(&self, change: &Change) -> bool
        ensures { result ≡ keeps_room change.now (Some self.now) }
    {
        aliases_fit(self.aliases.as_slice(), change, self.rooms.aliases)
            && acls_fit(self.acls.as_slice(), change, self.rooms.acls)
    }

    /// What a change of the client makes of it. There is room for that.
    pub fn apply(&mut self, change: Change)
        requires { KeepsRoom change self.old }
        ensures { self.new ≡ holding_with change self.old }
    {
        retain_aliases(&mut self.aliases, &change);
        retain_acls(&mut self.acls, &change);
        push_written(&mut self.aliases, &mut self.acls, change);
    }
}

fn retain_aliases(aliases: &mut Vec<Alias>, change: &Change)
    ensures items { aliases.new.items ≡ filter (λ alias. not (undoes_alias alias.name change.now)) aliases.old.items }
    ensures capacity { vec_capacity aliases.new ≡ vec_capacity aliases.old }
{
    aliases.retain(|alias| !undoes_alias(&alias.name, change));
}

fn retain_acls(acls: &mut Vec<Acl>, change: &Change)
    ensures items { acls.new.items ≡ filter (λ acl. not (undoes_acl acl.name change.now)) acls.old.items }
    ensures capacity { vec_capacity acls.new ≡ vec_capacity acls.old }
{
    acls.retain(|acl| !undoes_acl(&acl.name, change));
}

/// Puts what the change writes behind the others.
fn push_written(aliases: &mut Vec<Alias>, acls: &mut Vec<Acl>, change: Change)
    requires aliases { length (aliases.old.items ++ option_to_list (alias_of change)) ≤ vec_capacity aliases.old }
    requires acls { length (acls.old.items ++ option_to_list (acl_of change)) ≤ vec_capacity acls.old }
    ensures aliases { aliases.new.items ≡ aliases.old.items ++ option_to_list (alias_of change) }
    ensures acls { acls.new.items ≡ acls.old.items ++ option_to_list (acl_of change) }
    ensures alias_room { vec_capacity aliases.new ≡ vec_capacity aliases.old }
    ensures acl_room { vec_capacity acls.new ≡ vec_capacity acls.old }
{
    match change {
        Change::SetAlias(alias) => aliases.push_reserved(alias),
        Change::SetAcl(acl) => acls.push_reserved(acl),
        _ => drop(change),
    }
}

/// Whether there are at most so many aliases after a change.
#[tactic(auto, using(crate::proofs::Places::written_fits, crate::proofs::Places::nothing_fits))]
fn aliases_fit(aliases: &[Alias], change: &Change, most: usize) -> bool
    ensures { result ≡ nat_le (length (aliases_with change.now aliases.now)) most }
{
    let left = aliases_left(aliases, change);
    if writes_alias(change) {
        left < most
    } else {
        left <= most
    }
}

/// Whether there are at most so many access lists after a change.
#[tactic(auto, using(crate::proofs::Places::written_fits, crate::proofs::Places::nothing_fits))]
fn acls_fit(acls: &[Acl], change: &Change, most: usize) -> bool
    ensures { result ≡ nat_le (length (acls_with change.now acls.now)) most }
{
    let left = acls_left(acls, change);
    if writes_acl(change) {
        left < most
    } else {
        left <= most
    }
}

fn aliases_left(aliases: &[Alias], change: &Change) -> usize
    ensures { result ≡ length (filter (λ alias. not (undoes_alias alias.name change.now)) aliases.now) }
{
    aliases
        .iter()
        .filter(|alias| !undoes_alias(&alias.name, change))
        .count()
}

fn acls_left(acls: &[Acl], change: &Change) -> usize
    ensures { result ≡ length (filter (λ acl. not (undoes_acl acl.name change.now)) acls.now) }
{
    acls.iter()
        .filter(|acl| !undoes_acl(&acl.name, change))
        .count()
}

fn writes_alias(change: &Change) -> bool
    ensures { result ≡ is_some (alias_of change.now) }
{
    match change {
        Change::SetAlias(_) => true,
        _ => false,
    }
}

fn writes_acl(change: &Change) -> bool
    ensures { result ≡ is_some (acl_of change.now) }
{
    match change {
        Change::SetAcl(_) => true,
        _ => false,
    }
}
