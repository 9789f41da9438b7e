//! What is held of clients and peers.

ghost use Rattle.std.specs.Prelude.{◌≡◌, ◌==◌, ◌++◌, ◌∷◌, ◌≤◌, [], List, Some, length, map, replicate, IfOk, option_copied, option_map, is_some, slice_get};
ghost use Rattle.std.specs.List.{list_any, find};
ghost use Rattle.dots_history.specs.declared.entry.Entry.{Entry};
ghost use Rattle.dots_history.specs.Entries.{is_configuration};
ghost use Rattle.dots_history.specs.Rows.{is_lost_in};
ghost use Rattle.dots_history.specs.Histories.{held};
ghost use Rattle.dots_history.specs.Capacities.{is_registration, is_alias, is_list, loses_as};
ghost use Rattle.dots_history.specs.Held.{aliases_of, acls_of, alias_named, acl_named, is_registered, registrant, config_of, is_lost_of};
ghost use Rattle.held_resources.specs.Numbers.{number_of, reached};
ghost use Rattle.held_resources.specs.Tables.{Represents, Clients, sizes_of, rooms_of, no_clients, peer_of, update, clients_with, tables_with, tables_renumbered, is_placed, is_known, client_at, registrant_in, aliases_in, acls_in, number_in, config_in, most_of, config_now, lost_in};
ghost use Rattle.dots_history.specs.Slots.{Rises};
ghost use Rattle.dots_history.specs.KeptPlaces.{union};
ghost use Rattle.held_resources.specs.Rows.{rows_with, rows_more, slots_in};
ghost use Rattle.held_resources.specs.Sizes.{most_held};
ghost use Rattle.held_resources.specs.Accepting.{accepts, accepts_by, FitsIn, Takes, rightly, takes_in};

use crate::configurations::{Configuration, configure, no_configurations};
use crate::domain_clients::DomainClients;
use crate::kind::RoomKind;
use crate::reading::{
    acl_named, acls_of, alias_named, aliases_of, config_in, is_there, registrant_of,
};
use crate::registered_client::RegisteredClient;
use crate::rooms::Rooms;
use crate::rows::HeldSlots;
use crate::signals::{Signal, has_lost, has_signal, is_lost, no_losses, note};
use crate::size::most_held;
use acl_lists::{Acl, Alias};
use dots_history::{Change, Config, Entry, SlotList, is_configuration, is_loss};
use dots_lists::{Name, NoMemory};
use dots_settings::{Limits, Settings};
use std::alloc::Global;
use std::marker::Model;

/// The registered clients of each domain with their aliases and access lists, the session configuration of each peer, and whether the
/// signal of each client peer is lost.
#[derive(Drop)]
pub struct HeldResources {
    rooms: Rooms,
    /// By the number of the domain.
    domains: Vec<DomainClients>,
    /// One for each peer of the settings.
    configurations: Vec<Configuration>,
    /// One for each client peer.
    signals: Vec<Signal>,
    slots: HeldSlots,
}

impl Model for HeldResources {
    ghost use Rattle.std.specs.Prelude.{length, map};
    ghost use Rattle.held_resources.specs.Tables.{Tables, peer_of, own_of};

    ghost Value = { Tables };

    ghost view = { λ things. record {
      sizes = record {
        domains = length things.domains.items;
        rooms = things.rooms;
        peers = map peer_of things.configurations.items;
        own = map own_of things.signals.items;
      };
      clients = things.domains.items;
      configurations = things.configurations.items;
      signals = things.signals.items;
      slots = things.slots;
    } };
}

impl HeldResources {
    /// Stands for the empty history, with the memory for all that the settings allow.
    pub fn new(alloc: Global, settings: &Settings) -> Result<Self, NoMemory>
        ensures represents { IfOk result (λ things. Represents things []) }
        ensures sizes { IfOk result (λ things. things.sizes ≡ sizes_of settings.now) }
        ensures slots { IfOk result (λ things. things.slots ≡ record { room = most_held settings.now; rows = [] }) }
    {
        let rooms = rooms_of(settings.limits());
        let domains = no_clients(alloc, settings.domains(), rooms)?;
        let configurations = no_configurations(alloc, settings.peers())?;
        let signals = no_losses(alloc, settings.peers())?;
        let slots = HeldSlots::new(alloc, most_held(settings) as usize)?;
        Ok(HeldResources {
            rooms,
            domains,
            configurations,
            signals,
            slots,
        })
    }

    /// Whether an entry fits a history, as far as it concerns what is held: it is of a domain of the settings, or configures the
    /// session of one of their peers; a loss, and that it is over, is of one of their client peers and its domain; only a client that
    /// isn't registered registers, and only one that is writes aliases and access lists (RFC 8783, sections 5.1, 6.1 and 7.2); and after
    /// it its domain and its client keep the capacities of the settings.
    pub fn fits(&self, entry: &Entry) -> bool
        ensures { (entries : List Entry) → Represents self.now entries → result ≡ accepts self.now.sizes entries entry.now }
    {
        self.accepts(entry)
    }

    fn accepts(&self, entry: &Entry) -> bool
        ensures { result ≡ accepts_by self.now entry.now }
    {
        let registered = is_there(self.client(entry.domain, entry.cuid.bytes()));
        self.knows(entry) && registers_rightly(&entry.change, registered) && self.takes(entry)
    }

    /// Stands for a history with one more entry, which fits it, in this slot of the journal. Its cuid has at most 64 bytes, and there is
    /// room for its slot.
    pub fn apply(&mut self, entry: Entry, slot: u32)
        requires fits { FitsIn self.old entry }
        requires name { length entry.cuid ≤ 64 }
        requires room { length (rows_with (record { entry = entry; slot = slot }) self.old.slots.rows) ≤ self.old.slots.room }
        ensures represents { (entries : List Entry) → Represents self.old entries → Represents self.new (entries ++ entry ∷ []) }
        ensures sizes { self.new.sizes ≡ self.old.sizes }
        ensures slots { self.new.slots ≡ rows_more (record { entry = entry; slot = slot }) self.old.slots }
    {
        self.put(entry, slot);
    }

    fn put(&mut self, entry: Entry, slot: u32)
        requires takes { (clients : Clients) → slice_get self.old.clients entry.domain ≡ Some clients → Takes entry.peer entry.cuid entry.change clients }
        requires name { length entry.cuid ≤ 64 }
        requires room { length (rows_with (record { entry = entry; slot = slot }) self.old.slots.rows) ≤ self.old.slots.room }
        ensures { self.new ≡ tables_with (record { entry = entry; slot = slot }) self.old }
    {
        self.slots.take(&entry, slot);
        configure(&mut self.configurations, &entry);
        note(&mut self.signals, &entry);
        change_clients(&mut self.domains, entry);
    }

    /// Puts the slots of a journal in which the entries stand that wrote what is held into the list, which has room for them.
    pub fn put_slots(&self, into: &mut SlotList)
        requires { length (union (slots_in self.now.slots.rows) into.old.items) ≤ into.old.room }
        ensures { into.new ≡ record into.old { items = union (slots_in self.now.slots.rows) into.old.items } }
    {
        self.slots.slots(into);
    }

    /// Gives the slots new numbers: the slot `keep[i]` becomes the slot `i`, and one that isn't in `keep` stays.
    pub fn renumber(&mut self, keep: &[u32])
        requires { Rises keep.now }
        ensures { self.new ≡ tables_renumbered keep.now self.old }
    {
        self.slots.moved(keep);
    }

    /// Whether the client is registered.
    pub fn registered(&self, domain: u16, cuid: &[u8]) -> bool
        ensures { (entries : List Entry) → Represents self.now entries → result ≡ is_registered (record { domain = domain; cuid = cuid.now }) (held entries) }
    {
        is_there(self.client(domain, cuid))
    }

    /// The peer that registered the client; None where it isn't registered.
    pub fn registrant(&self, domain: u16, cuid: &[u8]) -> Option<u32>
        ensures { (entries : List Entry) → Represents self.now entries → result ≡ registrant (record { domain = domain; cuid = cuid.now }) (held entries) }
    {
        registrant_of(self.client(domain, cuid))
    }

    /// The aliases of a client, in order of writing; none where it isn't registered.
    pub fn aliases(&self, domain: u16, cuid: &[u8]) -> &[Alias]
        ensures { (entries : List Entry) → Represents self.now entries → result.now ≡ aliases_of (record { domain = domain; cuid = cuid.now }) (held entries) }
    {
        aliases_of(self.client(domain, cuid))
    }

    /// The access lists of a client, in order of writing; none where it isn't registered.
    pub fn acls(&self, domain: u16, cuid: &[u8]) -> &[Acl]
        ensures { (entries : List Entry) → Represents self.now entries → result.now ≡ acls_of (record { domain = domain; cuid = cuid.now }) (held entries) }
    {
        acls_of(self.client(domain, cuid))
    }

    /// The alias of this name of a client.
    pub fn alias(&self, domain: u16, cuid: &[u8], name: &Name) -> Option<&Alias>
        ensures { (entries : List Entry) → Represents self.now entries
            → option_copied result ≡ alias_named name.now (aliases_of (record { domain = domain; cuid = cuid.now }) (held entries)) }
    {
        alias_named(self.aliases(domain, cuid), name)
    }

    /// The access list of this name of a client.
    pub fn acl(&self, domain: u16, cuid: &[u8], name: &Name) -> Option<&Acl>
        ensures { (entries : List Entry) → Represents self.now entries
            → option_copied result ≡ acl_named name.now (acls_of (record { domain = domain; cuid = cuid.now }) (held entries)) }
    {
        acl_named(self.acls(domain, cuid), name)
    }

    /// The session configuration of a peer, with its sid.
    pub fn config(&self, peer: u32) -> Option<(u32, &Config)>
        ensures { (entries : List Entry) → Represents self.now entries → option_map config_now result ≡ config_of peer (held entries) }
    {
        config_in(self.configuration(peer))
    }

    fn configuration(&self, peer: u32) -> Option<&Configuration>
        ensures { option_copied result ≡ find (λ configuration. peer == configuration.peer) self.now.configurations }
    {
        self.configurations
            .iter()
            .find(|configuration| peer == configuration.peer)
    }

    /// Whether the signal of this peer is lost, in whichever domain it is a client of.
    pub fn has_lost(&self, peer: u32) -> bool
        ensures { (entries : List Entry) → Represents self.now entries → result ≡ is_lost_of (held entries) peer }
    {
        has_lost(self.signals.as_slice(), peer)
    }

    /// Whether the signal of this peer is lost in this domain. It is so of no peer that isn't a client of the domain by the settings.
    pub fn lost(&self, peer: u32, domain: u16) -> bool
        ensures value { result ≡ lost_in self.now peer domain }
        ensures history { (entries : List Entry) → Represents self.now entries → result ≡ is_lost_in (held entries) peer domain }
    {
        is_lost(self.signals.as_slice(), peer, domain)
    }

    /// None where the client's domain has room for one more client, or the client for one more alias or access list; else the number
    /// that there may be, which is reached.
    pub fn room_for(&self, domain: u16, cuid: &[u8], kind: RoomKind) -> Option<u64>
        ensures { (entries : List Entry) → Represents self.now entries
            → result ≡ reached (most_of self.now.sizes.rooms kind) (number_of kind (record { domain = domain; cuid = cuid.now }) (held entries)) }
    {
        reached(
            most_of(self.rooms, kind),
            self.number_of(kind, domain, cuid),
        )
    }

    /// How many registered clients the domain has, or how many aliases or access lists the client.
    pub fn number_of(&self, kind: RoomKind, domain: u16, cuid: &[u8]) -> usize
        ensures { (entries : List Entry) → Represents self.now entries → result ≡ number_of kind (record { domain = domain; cuid = cuid.now }) (held entries) }
    {
        match kind {
            RoomKind::Client => self.number(domain),
            RoomKind::Alias => self.aliases(domain, cuid).len(),
            RoomKind::Acl => self.acls(domain, cuid).len(),
        }
    }

    /// How many clients of the domain are registered.
    fn number(&self, domain: u16) -> usize
        ensures { result ≡ number_in (slice_get self.now.clients domain) }
    {
        match self.clients(domain) {
            Some(clients) => clients.number(),
            None => 0,
        }
    }

    /// The clients of a domain, where there is such a domain.
    fn clients(&self, domain: u16) -> Option<&DomainClients>
        ensures { option_copied result ≡ slice_get self.now.clients domain }
    {
        self.domains.get(usize::from(domain))
    }

    fn client(&self, domain: u16, cuid: &[u8]) -> Option<&RegisteredClient>
        ensures { option_copied result ≡ client_at domain cuid.now self.now.clients }
    {
        match self.clients(domain) {
            Some(clients) => clients.client(cuid),
            None => None,
        }
    }

    /// Whether the entry is of one of the domains, or configures the session of one of the peers; and a loss, and that it is over, is of
    /// one of the client peers and its domain.
    fn knows(&self, entry: &Entry) -> bool
        ensures { result ≡ is_known self.now.sizes entry.now }
    {
        self.places(entry) && (!is_loss(&entry.change) || self.is_of_client_peer(entry))
    }

    /// Whether the entry is of one of the client peers and its domain.
    fn is_of_client_peer(&self, entry: &Entry) -> bool
        ensures { result ≡ list_any (loses_as entry.now) self.now.sizes.own }
    {
        has_signal(self.signals.as_slice(), entry)
    }

    /// Whether the entry is of one of the domains, or configures the session of one of the peers.
    fn places(&self, entry: &Entry) -> bool
        ensures { result ≡ is_placed self.now.sizes entry.now }
    {
        if is_configuration(&entry.change) {
            return has_peer(self.configurations.as_slice(), entry.peer);
        }
        usize::from(entry.domain) < self.domains.len()
    }

    /// Whether the entry's domain and client have room for what it makes of them.
    fn takes(&self, entry: &Entry) -> bool
        ensures { result ≡ takes_in entry.now (slice_get self.now.clients entry.now.domain) }
    {
        match self.clients(entry.domain) {
            Some(clients) => clients.takes(entry.cuid.bytes(), &entry.change),
            None => true,
        }
    }
}

fn rooms_of(limits: Limits) -> Rooms
    ensures { result ≡ rooms_of limits }
{
    Rooms {
        clients: limits.clients as usize,
        aliases: limits.aliases as usize,
        acls: limits.acls as usize,
    }
}

/// For each domain no clients.
fn no_clients(alloc: Global, count: u16, rooms: Rooms) -> Result<Vec<DomainClients>, NoMemory>
    ensures { IfOk result (λ domains. domains.items ≡ replicate count (no_clients rooms)) }
{
    let mut domains = Vec::new(alloc);
    for _ in 0..count {
        domains.push(DomainClients::new(alloc, rooms)?)?;
    }
    Ok(domains)
}

/// What an entry makes of the clients of its domain, where there is such a domain.
fn change_clients(domains: &mut Vec<DomainClients>, entry: Entry)
    requires { (clients : Clients) → slice_get domains.old.items entry.domain ≡ Some clients → Takes entry.peer entry.cuid entry.change clients }
    ensures { domains.new.items ≡ update (clients_with entry.peer entry.cuid entry.change) entry.domain domains.old.items }
{
    change_domain(domains.as_mut_slice(), entry);
}

#[tactic(auto, using(crate::proofs::HistoryTables::updated_past))]
fn change_domain(domains: &mut [DomainClients], entry: Entry)
    requires { (clients : Clients) → slice_get domains.old entry.domain ≡ Some clients → Takes entry.peer entry.cuid entry.change clients }
    ensures { domains.new ≡ update (clients_with entry.peer entry.cuid entry.change) entry.domain domains.old }
{
    let place = usize::from(entry.domain);
    if place < domains.len() {
        let clients = &mut domains[place];
        clients.apply(entry.peer, entry.cuid, entry.change);
    } else {
        drop(entry);
    }
}

/// Whether a change of a client that is registered, or isn't, registers rightly.
#[tactic(auto, unfolding(dots_history::specs::Capacities::is_registration, dots_history::specs::Capacities::is_alias, dots_history::specs::Capacities::is_list))]
fn registers_rightly(change: &Change, registered: bool) -> bool
    ensures { result ≡ rightly change.now registered }
{
    match change {
        Change::Register => !registered,
        Change::SetAlias(_) | Change::SetAcl(_) => registered,
        _ => true,
    }
}

fn has_peer(configurations: &[Configuration], peer: u32) -> bool
    ensures { result ≡ list_any (λ configuration. peer == configuration.peer) configurations.now }
{
    configurations
        .iter()
        .any(|configuration| peer == configuration.peer)
}

fn most_of(rooms: Rooms, kind: RoomKind) -> usize
    ensures { result ≡ most_of rooms kind }
{
    match kind {
        RoomKind::Client => rooms.clients,
        RoomKind::Alias => rooms.aliases,
        RoomKind::Acl => rooms.acls,
    }
}

fn reached(most: usize, number: usize) -> Option<u64>
    ensures { result ≡ reached most number }
{
    if number < most {
        None
    } else {
        Some(most as u64)
    }
}
