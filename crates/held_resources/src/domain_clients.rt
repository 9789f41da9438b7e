//! The clients of a domain.

ghost use Rattle.std.specs.Prelude.{◌≡◌, ℕ, ◌<◌, ◌++◌, ◌∷◌, [], not, filter, map, length, nat_le, IfOk, false, option_copied, position, Some, slice_index_or, slice_set, vec_capacity};
ghost use Rattle.std.specs.List.{list_any, find};
ghost use Rattle.dots_history.specs.Capacities.{is_registration};
ghost use Rattle.held_resources.specs.Tables.{Holding, no_holding, holding_with, has_cuid, changed, list_with, clients_with, KeepsRoom};
ghost use Rattle.held_resources.specs.Accepting.{keeps_room, takes, Takes};

use crate::registered_client::RegisteredClient;
use crate::rooms::Rooms;
use dots_history::{Change, is_registration};
use dots_lists::{NoMemory, Text};
use std::alloc::Global;
use std::marker::Model;

/// The registered clients of a domain, in order of registration.
#[derive(Drop)]
pub struct DomainClients {
    rooms: Rooms,
    list: Vec<RegisteredClient>,
    /// Clients that hold nothing, one for each further client that may register.
    spare: Vec<RegisteredClient>,
}

impl Model for DomainClients {
    ghost use Rattle.std.specs.Prelude.{◌≡◌, ◌≤◌, ◌+◌, length, vec_capacity};
    ghost use Rattle.held_resources.specs.Tables.{Clients, AreApart, AreEmpty, HaveRooms};

    ghost Value = { Clients };

    ghost view = { λ clients. record { rooms = clients.rooms; list = clients.list.items } };

    ghost invariant = { λ clients.
        (length clients.list.items + length clients.spare.items ≡ clients.rooms.clients)
        × AreApart clients.list.items
        × HaveRooms clients.rooms clients.list.items
        × AreEmpty clients.rooms clients.spare.items
        × (clients.rooms.clients ≤ vec_capacity clients.list)
        × (clients.rooms.clients ≤ vec_capacity clients.spare) };
}

impl DomainClients {
    /// No clients, with the memory for so many.
    pub fn new(alloc: Global, rooms: Rooms) -> Result<Self, NoMemory>
        ensures { IfOk result (λ clients. clients ≡ record { rooms = rooms; list = [] }) }
    {
        let mut spare = Vec::with_capacity(alloc, rooms.clients)?;
        for _ in 0..rooms.clients {
            spare.push_reserved(RegisteredClient::new(alloc, rooms)?);
        }
        Ok(DomainClients {
            rooms,
            list: Vec::with_capacity(alloc, rooms.clients)?,
            spare,
        })
    }

    /// How many are registered.
    pub fn number(&self) -> usize
        ensures { result ≡ length self.now.list }
    {
        self.list.len()
    }

    /// The client of this cuid, where it is registered.
    pub fn client(&self, cuid: &[u8]) -> Option<&RegisteredClient>
        ensures { option_copied result ≡ find (has_cuid cuid.now) self.now.list }
    {
        self.list.iter().find(|client| cuid == client.cuid())
    }

    /// Whether the domain and the client have room for what a change of the client of this cuid makes of them.
    pub fn takes(&self, cuid: &[u8], change: &Change) -> bool
        ensures { (peer : ℕ) → result ≡ takes peer cuid.now change.now self.now }
    {
        self.keeps_number(cuid, change) && has_room(self.client(cuid), change)
    }

    fn keeps_number(&self, cuid: &[u8], change: &Change) -> bool
        ensures { (peer : ℕ) → result ≡ nat_le (length (list_with self.now.rooms peer cuid.now change.now self.now.list)) self.now.rooms.clients }
    {
        if is_registration(change) {
            return self.number() < self.rooms.clients;
        }
        true
    }

    /// What a change by this peer of the client of this cuid makes of the domain's clients. There is room for that, and a client that
    /// registers isn't registered.
    pub fn apply(&mut self, peer: u32, cuid: Text, change: Change)
        requires { Takes peer cuid change self.old }
        ensures { self.new ≡ clients_with peer cuid change self.old }
    {
        match change {
            Change::Register => self.register(peer, cuid),
            Change::Deregister => self.deregister(cuid.bytes()),
            change => self.change(cuid.bytes(), change),
        }
    }

    fn register(&mut self, peer: u32, cuid: Text)
        requires room { length self.old.list < self.old.rooms.clients }
        requires fresh { list_any (has_cuid cuid) self.old.list ≡ false }
        ensures { self.new ≡ record { rooms = self.old.rooms; list = self.old.list ++ no_holding self.old.rooms peer cuid ∷ [] } }
    {
        let mut client = self.spare.pop().unwrap();
        client.rename(peer, cuid);
        self.list.push_reserved(client);
    }

    fn deregister(&mut self, cuid: &[u8])
        ensures { self.new ≡ record { rooms = self.old.rooms; list = filter (λ holding. not (has_cuid cuid.now holding)) self.old.list } }
    {
        if let Some(place) = place_of(self.list.as_slice(), cuid) {
            let mut client = self.list.remove(place);
            client.clear();
            self.spare.push_reserved(client);
        }
    }

    fn change(&mut self, cuid: &[u8], change: Change)
        requires { (holding : Holding) → find (has_cuid cuid.now) self.old.list ≡ Some holding → KeepsRoom change holding }
        ensures { self.new ≡ record { rooms = self.old.rooms; list = map (changed cuid.now change) self.old.list } }
    {
        if let Some(place) = place_of(self.list.as_slice(), cuid) {
            change_in(&mut self.list, place, change);
        } else {
            drop(change);
        }
    }
}

fn change_in(list: &mut Vec<RegisteredClient>, place: usize, change: Change)
    requires within { place < length list.old.items }
    requires room { (holding : Holding) → holding ≡ slice_index_or list.old.items place holding → KeepsRoom change holding }
    ensures items { (holding : Holding) → holding ≡ slice_index_or list.old.items place holding → list.new.items ≡ slice_set list.old.items place (holding_with change holding) }
    ensures capacity { vec_capacity list.new ≡ vec_capacity list.old }
{
    change_one(list.as_mut_slice(), place, change);
}

fn change_one(list: &mut [RegisteredClient], place: usize, change: Change)
    requires within { place < length list.old }
    requires room { (holding : Holding) → holding ≡ slice_index_or list.old place holding → KeepsRoom change holding }
    ensures { (holding : Holding) → holding ≡ slice_index_or list.old place holding → list.new ≡ slice_set list.old place (holding_with change holding) }
{
    let client = &mut list[place];
    client.apply(change);
}

/// Whether the client, where there is one, has room for what a change makes of it.
fn has_room(client: Option<&RegisteredClient>, change: &Change) -> bool
    ensures { result ≡ keeps_room change.now (option_copied client.entry) }
{
    match client {
        Some(client) => client.has_room(change),
        None => true,
    }
}

/// The place of the client of this cuid.
fn place_of(list: &[RegisteredClient], cuid: &[u8]) -> Option<usize>
    ensures { result ≡ position (has_cuid cuid.now) list.now }
{
    list.iter().position(|client| cuid == client.cuid())
}
