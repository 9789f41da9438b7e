//! The settings that a draft comes to, once every line has been read.

ghost use Rattle.std.specs.Prelude.{◌≡◌, ◌≤◌, ◌^◌, length, map, filter, position, bytes_eq, IfOk};
ghost use Rattle.dots_settings.specs.Admitting.{draft_value};
ghost use Rattle.dots_settings.specs.Draft.{same_name};
ghost use Rattle.dots_settings.specs.File.{IsSound};
ghost use Rattle.dots_settings.specs.Settings.{settings_by, draft_prefixes, draft_addresses, name_row_of, peer_row_of, draft_role, limit_of, limits_of, domain_of};

use crate::capacity::Capacity;
use crate::domains::DomainRow;
use crate::draft::{Address, Draft, Peer, Scope};
use crate::judging::is_same_name;
use crate::limits::Limits;
use crate::names::NameRow;
use crate::peer::{PeerRow, Role};
use crate::settings::Settings;
use acl_lists::PrefixList;
use dots_lists::{Bytes, List, Name, NoMemory};
use ip_scope::Prefix;
use std::alloc::{AllocError, Global};

/// The ceiling where no line gives one, in seconds.
const DEFAULT_CEILING: u32 = 86_400;

/// The rows of the settings.
#[derive(Drop)]
struct Rows {
    domains: Vec<DomainRow>,
    peers: Vec<PeerRow>,
    names: Vec<NameRow>,
}

impl Draft {
    /// The settings of a file of so many lines, with this digest.
    pub fn finish(self, lines: u32, digest: [u8; 32]) -> Result<Settings, NoMemory>
        requires sound { IsSound (draft_value self) }
        requires few { lines ≤ 2 ^ 16 }
        ensures { IfOk result (λ settings. settings ≡ settings_by (draft_value self) lines digest) }
    {
        let limits = self.make_limits();
        match self.make_rows() {
            Ok(rows) => Ok(Settings {
                domains: rows.domains,
                peers: rows.peers,
                upstream: self.upstream,
                names: rows.names,
                ceiling: self.ceiling.unwrap_or(DEFAULT_CEILING),
                indefinite: self.indefinite.unwrap_or(false),
                limits,
                packets: self.packets,
                lines,
                digest,
            }),
            Err(NoMemory) => {
                drop(self);
                Err(NoMemory)
            }
        }
    }

    fn make_rows(&self) -> Result<Rows, NoMemory>
        requires { length (draft_value self.now).domains ≤ 16 }
        ensures domains { IfOk result (λ rows. rows.domains.items ≡ map (domain_of (draft_value self.now)) (draft_value self.now).domains) }
        ensures peers { IfOk result (λ rows. rows.peers.items ≡ map (peer_row_of (draft_value self.now)) (draft_value self.now).peers) }
        ensures names { IfOk result (λ rows. rows.names.items ≡ map (name_row_of (draft_value self.now)) (draft_value self.now).names) }
    {
        let peers = self.make_peers()?;
        let names = self.make_names()?;
        let domains = self.make_domains()?;
        Ok(Rows {
            domains,
            peers,
            names,
        })
    }

    fn make_domains(&self) -> Result<Vec<DomainRow>, NoMemory>
        ensures { IfOk result (λ domains. domains.items ≡ map (domain_of (draft_value self.now)) (draft_value self.now).domains) }
    {
        let mut domains = Vec::new(self.alloc);
        for name in &self.domains {
            let row = self.make_domain(name)?;
            domains.push(row)?;
        }
        Ok(domains)
    }

    fn make_domain(&self, name: &Bytes) -> Result<DomainRow, NoMemory>
        ensures { IfOk result (λ row. row ≡ domain_of (draft_value self.now) name.now) }
    {
        let prefixes = self.make_prefixes(name.items())?;
        let name = name.copy()?;
        Ok(DomainRow { name, prefixes })
    }

    fn make_prefixes(&self, name: &[u8]) -> Result<PrefixList, NoMemory>
        ensures { IfOk result (λ prefixes. prefixes ≡ draft_prefixes (draft_value self.now) name.now) }
    {
        let prefixes = prefixes_among(self.alloc, &self.scopes, name)?;
        Ok(List::from_vec(prefixes))
    }

    fn make_peers(&self) -> Result<Vec<PeerRow>, NoMemory>
        requires { length (draft_value self.now).domains ≤ 16 }
        ensures { IfOk result (λ peers. peers.items ≡ map (peer_row_of (draft_value self.now)) (draft_value self.now).peers) }
    {
        let mut peers = Vec::new(self.alloc);
        for peer in &self.peers {
            peers.push(PeerRow {
                peer: peer.number,
                role: self.role_declared(peer),
            })?;
        }
        Ok(peers)
    }

    fn role_declared(&self, peer: &Peer) -> Role
        requires { length (draft_value self.now).domains ≤ 16 }
        ensures { result ≡ draft_role (draft_value self.now) peer.now.domain }
    {
        let Some(name) = &peer.domain else {
            return Role::Gateway;
        };
        match self.place_of(name.items()) {
            Some(place) => Role::Client(place as u16),
            None => Role::Stranger,
        }
    }

    fn place_of(&self, name: &[u8]) -> Option<usize>
        ensures { result ≡ position (bytes_eq name.now) (draft_value self.now).domains }
    {
        self.domains
            .iter()
            .position(|domain| name == domain.items())
    }

    fn make_names(&self) -> Result<Vec<NameRow>, NoMemory>
        ensures { IfOk result (λ names. names.items ≡ map (name_row_of (draft_value self.now)) (draft_value self.now).names) }
    {
        let mut names = Vec::new(self.alloc);
        for fqdn in &self.names {
            let row = self.make_name(fqdn)?;
            names.push(row)?;
        }
        Ok(names)
    }

    fn make_name(&self, fqdn: &Name) -> Result<NameRow, NoMemory>
        ensures { IfOk result (λ row. row ≡ name_row_of (draft_value self.now) fqdn.now) }
    {
        let name = fqdn.copy()?;
        let prefixes = self.make_addresses(fqdn.bytes())?;
        Ok(NameRow { name, prefixes })
    }

    fn make_addresses(&self, fqdn: &[u8]) -> Result<PrefixList, NoMemory>
        ensures { IfOk result (λ prefixes. prefixes ≡ draft_addresses (draft_value self.now) fqdn.now) }
    {
        let prefixes = addresses_among(self.alloc, &self.addresses, fqdn)?;
        Ok(List::from_vec(prefixes))
    }

    fn make_limits(&self) -> Limits
        ensures { result ≡ limits_of (draft_value self.now) }
    {
        Limits {
            client_mitigations: self.limit_of(Capacity::ClientMitigations),
            domain_mitigations: self.limit_of(Capacity::DomainMitigations),
            clients: self.limit_of(Capacity::Clients),
            aliases: self.limit_of(Capacity::Aliases),
            acls: self.limit_of(Capacity::Acls),
            remembered: self.limit_of(Capacity::Remembered),
            observers: self.limit_of(Capacity::Observers),
        }
    }

    fn limit_of(&self, what: Capacity) -> u32
        ensures { result ≡ limit_of (draft_value self.now) what }
    {
        self.capacities
            .iter()
            .find(|chosen| chosen.what.is_same(what))
            .map(|chosen| chosen.limit)
            .unwrap_or(what.default_limit())
    }
}

/// The prefixes of a domain.
fn prefixes_among(alloc: Global, scopes: &[Scope], name: &[u8]) -> Result<Vec<Prefix>, AllocError>
    ensures { IfOk result (λ prefixes. prefixes.items
        ≡ map (λ scope. scope.prefix) (filter (λ scope. bytes_eq scope.domain name.now) scopes.now)) }
{
    scopes
        .iter()
        .filter(|scope| scope.domain.items() == name)
        .map(|scope| scope.prefix)
        .collect(alloc)
}

/// The prefixes of a host name.
fn addresses_among(
    alloc: Global,
    addresses: &[Address],
    fqdn: &[u8],
) -> Result<Vec<Prefix>, AllocError>
    ensures { IfOk result (λ prefixes. prefixes.items
        ≡ map (λ address. address.prefix) (filter (λ address. same_name fqdn.now address.name) addresses.now)) }
{
    addresses
        .iter()
        .filter(|address| is_same_name(fqdn, address.name.items()))
        .map(|address| address.prefix)
        .collect(alloc)
}
