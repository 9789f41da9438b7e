ghost use Rattle.std.specs.Prelude.{◌≡◌, ◌<◌, ◌≤◌, ◌^◌, pos, ◌==◌, [], Some, length, slice_get, find, unwrap_or, position, bytes_eq, IfSome};
ghost use Rattle.std.specs.List.{AllByRecursion};
ghost use Rattle.std.specs.Option.{option_map, option_copied};
ghost use Rattle.dots_settings.specs.Draft.{same_name};
ghost use Rattle.dots_settings.specs.Settings.{AreApart, AreLimits, IsKnown, IsSettings};
ghost use Rattle.dots_settings.specs.Sizes.{most_of_domain};
ghost use Rattle.dots_settings.specs.Lookups.{role_of, prefixes_of, addresses_of};
ghost use Rattle.dots_settings.specs.declared.peer.Role.TheVariants as role;

use crate::domains::DomainRow;
use crate::judging::is_same_name;
use crate::limits::{Limits, of_clients};
use crate::names::NameRow;
use crate::peer::{PeerRow, Role};
use acl_lists::Packet;
use ip_scope::Prefix;
use std::marker::Model;

/// What the settings file of a server says. Domains are numbered from 0, in the file's order.
#[derive(Drop)]
pub struct Settings {
    pub(crate) domains: Vec<DomainRow>,
    pub(crate) peers: Vec<PeerRow>,
    pub(crate) upstream: Option<u32>,
    pub(crate) names: Vec<NameRow>,
    pub(crate) ceiling: u32,
    pub(crate) indefinite: bool,
    pub(crate) limits: Limits,
    pub(crate) packets: Vec<Packet>,
    pub(crate) lines: u32,
    pub(crate) digest: [u8; 32],
}

impl Model for Settings {
    ghost use Rattle.dots_settings.specs.Settings.{SettingsValue, IsSettings};

    ghost Value = { SettingsValue };

    ghost view = { λ s. record {
      domains = s.domains.items;
      peers = s.peers.items;
      upstream = s.upstream;
      names = s.names.items;
      ceiling = s.ceiling;
      indefinite = s.indefinite;
      limits = s.limits;
      packets = s.packets.items;
      lines = s.lines;
      digest = s.digest;
    } };

    ghost invariant = { λ s. IsSettings (record {
      domains = s.domains.items;
      peers = s.peers.items;
      upstream = s.upstream;
      names = s.names.items;
      ceiling = s.ceiling;
      indefinite = s.indefinite;
      limits = s.limits;
      packets = s.packets.items;
      lines = s.lines;
      digest = s.digest;
    }) };
}

impl Settings {
    /// How many domains there are: at most 16. No prefix of one meets a prefix of another.
    pub fn domains(&self) -> u16
        ensures number { result ≡ length self.now.domains }
        ensures apart { AreApart self.now.domains }
        ensures valid { IsSettings self.now }
    {
        self.domains.len() as u16
    }

    /// The name of a domain: 1 to 64 of `a` to `z`, `0` to `9`, `.` and `-`.
    pub fn domain_name(&self, domain: u16) -> &[u8]
        requires { domain < length self.now.domains }
        ensures value { option_map (λ domain. domain.name) (slice_get self.now.domains domain) ≡ Some result.now }
        ensures valid { IsSettings self.now }
    {
        self.domains[usize::from(domain)].name.items()
    }

    /// The prefixes of a domain, in the file's order.
    pub fn prefixes(&self, domain: u16) -> &[Prefix]
        requires { domain < length self.now.domains }
        ensures value { option_map (λ domain. domain.prefixes) (slice_get self.now.domains domain) ≡ Some result.now }
        ensures valid { IsSettings self.now }
    {
        self.domains[usize::from(domain)].prefixes.items()
    }

    /// The prefixes of a domain, in the file's order; none where there is no domain of this number.
    #[tactic(auto, using(crate::proofs::Lookups::prefixes_there, crate::proofs::Lookups::prefixes_beyond))]
    pub fn prefixes_of(&self, domain: u16) -> &[Prefix]
        ensures value { result.now ≡ prefixes_of self.now domain }
        ensures valid { IsSettings self.now }
    {
        if domain < self.domains() {
            return self.prefixes(domain);
        }
        &[]
    }

    /// The number of the domain of this name.
    pub fn domain_named(&self, name: &[u8]) -> Option<u16>
        ensures number { result ≡ position (λ domain. bytes_eq name.now domain.name) self.now.domains }
        ensures within { IfSome result (λ number. number < length self.now.domains) }
        ensures valid { IsSettings self.now }
    {
        let number = place_named(&self.domains, name)?;
        Some(number as u16)
    }

    /// The clients and the gateways, in the file's order.
    pub fn peers(&self) -> &[PeerRow]
        ensures value { result.now ≡ self.now.peers }
        ensures known { AllByRecursion (λ row. IsKnown (length self.now.domains) row.role) self.now.peers }
        ensures valid { IsSettings self.now }
    {
        self.peers.as_slice()
    }

    /// What a peer is: a stranger where the settings don't name it.
    pub fn domain_of(&self, peer: u32) -> Role
        ensures role { result ≡ role_of self.now peer }
        ensures known { IsKnown (length self.now.domains) result }
        ensures valid { IsSettings self.now }
    {
        self.peers
            .iter()
            .find(|row| row.peer == peer)
            .map(|row| row.role)
            .unwrap_or(Role::Stranger)
    }

    /// The peer that a gateway asks; None where no line names it. It is none of the clients and gateways, so it is a stranger to the
    /// server.
    pub fn upstream(&self) -> Option<u32>
        ensures value { result ≡ self.now.upstream }
        ensures stranger { IfSome result (λ peer. role_of self.now peer ≡ role.Stranger) }
        ensures valid { IsSettings self.now }
    {
        self.upstream
    }

    /// The host names and their addresses, in the order of their first lines.
    pub fn names(&self) -> &[NameRow]
        ensures value { result.now ≡ self.now.names }
        ensures valid { IsSettings self.now }
    {
        self.names.as_slice()
    }

    /// The addresses of a host name, whatever the case of its letters; none where the settings don't name it.
    pub fn addresses(&self, fqdn: &[u8]) -> &[Prefix]
        ensures value { result.now ≡ addresses_of self.now fqdn.now }
        ensures valid { IsSettings self.now }
    {
        match row_named(&self.names, fqdn) {
            Some(row) => row.prefixes.items(),
            None => &[],
        }
    }

    /// The greatest lifetime that is granted, in seconds: 1 to 604800.
    pub fn ceiling(&self) -> i32
        ensures value { result ≡ pos self.now.ceiling }
        ensures range { (1 ≤ self.now.ceiling) × (self.now.ceiling ≤ 604800) }
        ensures valid { IsSettings self.now }
    {
        self.ceiling as i32
    }

    /// Whether a lifetime of -1, without end, is granted (RFC 9132, section 4.4.1).
    pub fn indefinite(&self) -> bool
        ensures value { result ≡ self.now.indefinite }
        ensures valid { IsSettings self.now }
    {
        self.indefinite
    }

    /// How much the server takes on at a time.
    pub fn limits(&self) -> Limits
        ensures value { result ≡ self.now.limits }
        ensures ranges { AreLimits result }
        ensures valid { IsSettings self.now }
    {
        self.limits
    }

    /// How many entries are kept of one domain at most: the request and the withdrawal of each live mitigation, and of
    /// each client its registration, its aliases and its access lists.
    pub fn most_of_domain(&self) -> u32
        ensures kept { result ≡ most_of_domain self.now.limits }
        ensures most { result ≤ 328 }
        ensures valid { IsSettings self.now }
    {
        let limits = self.limits();
        let held = of_clients(limits.clients, limits.aliases + limits.acls);
        2 * limits.domain_mitigations + limits.clients + held
    }

    /// The sample packets whose fates the server tells, in the file's order: at most 256.
    pub fn packets(&self) -> &[Packet]
        ensures value { result.now ≡ self.now.packets }
        ensures valid { IsSettings self.now }
    {
        self.packets.as_slice()
    }

    /// How many lines the file has, those that are skipped too: at most 65,536.
    pub fn lines(&self) -> u32
        ensures value { result ≡ self.now.lines }
        ensures few { result ≤ 2 ^ 16 }
        ensures valid { IsSettings self.now }
    {
        self.lines
    }

    /// SHA-256 of the lines that aren't skipped and aren't packets, each with one line feed.
    pub fn digest(&self) -> [u8; 32]
        ensures value { result ≡ self.now.digest }
        ensures valid { IsSettings self.now }
    {
        self.digest
    }
}

/// The row of a host name.
fn row_named<'a>(rows: &'a [NameRow], fqdn: &[u8]) -> Option<&'a NameRow>
    ensures { option_copied result ≡ find (λ row. same_name fqdn.now row.name) rows.now }
{
    rows.iter().find(|row| is_same_name(fqdn, row.name.bytes()))
}

/// The place of the domain of this name.
fn place_named(domains: &[DomainRow], name: &[u8]) -> Option<usize>
    ensures { result ≡ position (λ domain. bytes_eq name.now domain.name) domains.now }
{
    domains
        .iter()
        .position(|domain| name == domain.name.items())
}
