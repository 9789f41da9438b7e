//! What is read of a registry.

ghost use Rattle.std.specs.Prelude.{◌≡◌, ◌<◌, ◌==◌, ◌&&◌, List, length, option_copied, option_map};
ghost use Rattle.std.specs.List.{list_any};
ghost use Rattle.dots_history.specs.declared.entry.Entry.{Entry};
ghost use Rattle.dots_history.specs.Histories.{mitigations, held, remembered};
ghost use Rattle.dots_history.specs.Rows.{is_lost_in};
ghost use Rattle.dots_history.specs.HistoryReading.{is_mitigated, is_waiting};
ghost use Rattle.dots_history.specs.Views.{mitigations_of};
ghost use Rattle.dots_history.specs.Held.{aliases_of, acls_of, alias_named, acl_named, is_registered, registrant, is_of_another, config_of, is_lost_of};
ghost use Rattle.held_resources.specs.Numbers.{number_of, reached};
ghost use Rattle.held_resources.specs.Tables.{most_of, config_now};
ghost use Rattle.live_mitigations.specs.LiveRows.{mitigations_in};
ghost use Rattle.dots_registry.specs.RegistryValues.{Represents, time_of, domains_of, number_remembered};
ghost use Rattle.conflict_rules.specs.ByHistory.{collides};
ghost use Rattle.conflict_rules.specs.Statuses.{views_in};

use crate::registry::Registry;
use crate::statuses::StatusViews;
use acl_lists::{Acl, Alias};
use dots_history::Config;
use dots_lists::Name;
use held_resources::RoomKind;
use live_mitigations::LiveRow;

impl Registry {
    /// The reply to a repeat of a message of this peer for this domain with this Message ID (RFC 7252, section 4.5).
    pub fn repeat(&self, peer: u32, domain: u16, id: u16) -> Option<&[u8]>
        ensures { (entries : List Entry) → Represents self.now entries
            → option_copied result ≡ option_map (λ e. e.reply) (remembered (number_remembered self.now) (time_of self.now) peer domain id entries) }
    {
        self.remembered.look(peer, domain, id, self.live.time())
    }

    /// Whether the client's name is in use by another peer: a live mitigation of the client, standing or terminating, or its
    /// registration has another one (RFC 9132, section 4.4.1.3).
    pub fn collides(&self, domain: u16, cuid: &[u8], peer: u32) -> bool
        requires { domain < domains_of self.now }
        ensures { (entries : List Entry) → Represents self.now entries → result ≡ collides (time_of self.now) entries peer (record { domain = domain; cuid = cuid.now }) }
    {
        self.live.collides(domain, cuid, peer) || self.is_of_another(domain, cuid, peer)
    }

    /// Whether another peer registered the client.
    fn is_of_another(&self, domain: u16, cuid: &[u8], peer: u32) -> bool
        ensures { (entries : List Entry) → Represents self.now entries → result ≡ is_of_another peer (record { domain = domain; cuid = cuid.now }) (held entries) }
    {
        match self.held.registrant(domain, cuid) {
            Some(registrant) => registrant != peer,
            None => false,
        }
    }

    /// The live mitigations of a client, in order of their entries, as they are shown (RFC 9132, section 4.4.2).
    pub fn mitigations<'a>(&'a self, domain: u16, cuid: &'a [u8]) -> StatusViews<'a>
        requires { domain < domains_of self.now }
        ensures { (entries : List Entry) → Represents self.now entries → result ≡ views_in domain cuid.now (time_of self.now) entries }
    {
        StatusViews {
            rows: self.live.mitigations(domain, cuid),
            domain,
            held: &self.held,
        }
    }

    /// Whether a live mitigation that filters has this peer: one that filters at once, or that waits for the peer's signal, which
    /// is lost.
    pub fn mitigating(&self, peer: u32) -> bool
        ensures { (entries : List Entry) → Represents self.now entries → result ≡ is_mitigated (time_of self.now) entries peer }
    {
        self.live.triggers(peer) || self.has_lost_one(peer)
    }

    /// Whether a live mitigation has this peer, in a domain in which the peer's signal is lost.
    fn has_lost_one(&self, peer: u32) -> bool
        ensures { (entries : List Entry) → Represents self.now entries
            → result ≡ list_any (λ m. (m.put.peer == peer) && is_lost_in (held entries) m.put.peer m.put.domain) (mitigations (time_of self.now) entries) }
    {
        for domain in 0..self.live.domains() {
            if self.held.lost(peer, domain) && is_of_peer(self.live.rows(domain), peer) {
                return true;
            }
        }
        false
    }

    /// Whether a live mitigation of this peer waits for a lost signal.
    pub fn waits(&self, peer: u32) -> bool
        ensures { (entries : List Entry) → Represents self.now entries → result ≡ is_waiting (time_of self.now) entries peer }
    {
        self.live.waits(peer)
    }

    /// Whether the signal of this peer is lost.
    pub fn lost(&self, peer: u32) -> bool
        ensures { (entries : List Entry) → Represents self.now entries → result ≡ is_lost_of (held entries) peer }
    {
        self.held.has_lost(peer)
    }

    /// Whether the client is registered (RFC 8783, section 5.1).
    pub fn registered(&self, domain: u16, cuid: &[u8]) -> bool
        ensures { (entries : List Entry) → Represents self.now entries → result ≡ is_registered (record { domain = domain; cuid = cuid.now }) (held entries) }
    {
        self.held.registered(domain, cuid)
    }

    /// The peer that registered the client; None where it isn't registered.
    pub fn registrant(&self, domain: u16, cuid: &[u8]) -> Option<u32>
        ensures { (entries : List Entry) → Represents self.now entries → result ≡ registrant (record { domain = domain; cuid = cuid.now }) (held entries) }
    {
        self.held.registrant(domain, cuid)
    }

    /// The aliases of a client, in order of writing; none where it isn't registered (RFC 8783, section 6).
    pub fn aliases(&self, domain: u16, cuid: &[u8]) -> &[Alias]
        ensures { (entries : List Entry) → Represents self.now entries → result.now ≡ aliases_of (record { domain = domain; cuid = cuid.now }) (held entries) }
    {
        self.held.aliases(domain, cuid)
    }

    /// The access lists of a client, in order of writing; none where it isn't registered (RFC 8783, section 7).
    pub fn acls(&self, domain: u16, cuid: &[u8]) -> &[Acl]
        ensures { (entries : List Entry) → Represents self.now entries → result.now ≡ acls_of (record { domain = domain; cuid = cuid.now }) (held entries) }
    {
        self.held.acls(domain, cuid)
    }

    /// The alias of this name of a client.
    pub fn alias(&self, domain: u16, cuid: &[u8], name: &Name) -> Option<&Alias>
        ensures { (entries : List Entry) → Represents self.now entries
            → option_copied result ≡ alias_named name.now (aliases_of (record { domain = domain; cuid = cuid.now }) (held entries)) }
    {
        self.held.alias(domain, cuid, name)
    }

    /// The access list of this name of a client.
    pub fn acl(&self, domain: u16, cuid: &[u8], name: &Name) -> Option<&Acl>
        ensures { (entries : List Entry) → Represents self.now entries
            → option_copied result ≡ acl_named name.now (acls_of (record { domain = domain; cuid = cuid.now }) (held entries)) }
    {
        self.held.acl(domain, cuid, name)
    }

    /// The session configuration of a peer, with its sid (RFC 9132, section 4.5.2).
    pub fn config(&self, peer: u32) -> Option<(u32, &Config)>
        ensures { (entries : List Entry) → Represents self.now entries → option_map config_now result ≡ config_of peer (held entries) }
    {
        self.held.config(peer)
    }

    /// How many mitigations of the domain are live.
    pub fn live_in(&self, domain: u16) -> usize
        requires { domain < domains_of self.now }
        ensures { (entries : List Entry) → Represents self.now entries
            → result ≡ length (mitigations_of domain (mitigations (time_of self.now) entries)) }
    {
        self.live.rows(domain).len()
    }

    /// How many registered clients the domain has, or how many aliases or access lists the client.
    pub fn number_of(&self, kind: RoomKind, domain: u16, cuid: &[u8]) -> usize
        ensures { (entries : List Entry) → Represents self.now entries
            → result ≡ number_of kind (record { domain = domain; cuid = cuid.now }) (held entries) }
    {
        self.held.number_of(kind, domain, cuid)
    }

    /// None where the client's domain has room for one more client, or the client for one more alias or access list; else
    /// the number that there may be, which is reached.
    pub fn room_for(&self, domain: u16, cuid: &[u8], kind: RoomKind) -> Option<u64>
        ensures { (entries : List Entry) → Represents self.now entries
            → result ≡ reached (most_of self.now.held.sizes.rooms kind) (number_of kind (record { domain = domain; cuid = cuid.now }) (held entries)) }
    {
        self.held.room_for(domain, cuid, kind)
    }
}

/// Whether one of these mitigations has this peer.
fn is_of_peer(rows: &[LiveRow], peer: u32) -> bool
    ensures { result ≡ list_any (λ m. m.put.peer == peer) (mitigations_in rows.now) }
{
    rows.iter().any(|row| row.mitigation.peer() == peer)
}
