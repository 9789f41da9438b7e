//! What is wrong with a line that has a form.

ghost use Rattle.std.specs.Prelude.{◌≡◌, nat_le, if◌then◌else◌, length, bytes_eq, count_by};
ghost use Rattle.std.specs.List.{find};
ghost use Rattle.std.specs.Option.{option_map};
ghost use Rattle.dots_settings.specs.Admitting.{draft_value, form_value};
ghost use Rattle.dots_settings.specs.Faults.{has_domain, has_peer, is_declared, has_capacity, has_name, is_twice, is_unknown, is_overlap, overlap_of, is_too_much, is_gateway, fault_of};
ghost use Rattle.dots_settings.specs.Draft.{same_name};

use crate::capacity::Capacity;
use crate::draft::Draft;
use crate::fault::SettingsFault;
use crate::form::Form;
use ip_scope::{Prefix, meets};

/// The most domains that a file has.
const MAX_DOMAINS: usize = 16;

/// The most prefixes of one domain.
const MAX_PREFIXES: usize = 16;

/// The most peers, clients and gateways together.
const MAX_PEERS: usize = 64;

/// The most gateways.
const MAX_GATEWAYS: usize = 4;

/// The most host names.
const MAX_NAMES: usize = 64;

/// The most prefixes of one host name.
const MAX_ADDRESSES: usize = 4;

/// The most sample packets.
const MAX_PACKETS: usize = 256;

impl Draft {
    /// The fault of a line of this number and form behind those so far.
    pub fn fault_of(&self, line: u32, form: &Form<'_>) -> Option<SettingsFault>
        ensures { result ≡ fault_of (draft_value self.now) line (form_value form.now) }
    {
        if self.is_twice(form) {
            return Some(SettingsFault::Twice { n: line });
        }
        if self.is_unknown(form) {
            return Some(SettingsFault::Unknown { n: line });
        }
        if let Some(first) = self.overlap_of(form) {
            return Some(SettingsFault::Overlap { a: first, b: line });
        }
        if self.is_too_much(form) {
            return Some(SettingsFault::Capacity { n: line });
        }
        None
    }

    fn is_twice(&self, form: &Form<'_>) -> bool
        ensures { result ≡ is_twice (draft_value self.now) (form_value form.now) }
    {
        match form {
            Form::Domain { name } => self.has_domain(*name),
            Form::Client { peer, .. } => self.is_declared(*peer),
            Form::Gateway { peer } => self.is_declared(*peer),
            Form::Upstream { peer } => self.upstream.is_some() || self.has_peer(*peer),
            Form::Ceiling { .. } => self.ceiling.is_some(),
            Form::Indefinite { .. } => self.indefinite.is_some(),
            Form::Capacity { what, .. } => self.has_capacity(*what),
            Form::Prefix { .. } => false,
            Form::Name { .. } => false,
            Form::Packet(_) => false,
        }
    }

    fn is_unknown(&self, form: &Form<'_>) -> bool
        ensures { result ≡ is_unknown (draft_value self.now) (form_value form.now) }
    {
        match form {
            Form::Prefix { name, .. } => !self.has_domain(*name),
            Form::Client { name, .. } => !self.has_domain(*name),
            _ => false,
        }
    }

    /// The first line whose prefix meets that of this one and is another domain's.
    fn overlap_of(&self, form: &Form<'_>) -> Option<u32>
        ensures { result ≡ overlap_of (draft_value self.now) (form_value form.now) }
    {
        match form {
            Form::Prefix { name, prefix } => self.first_meeting(*name, prefix),
            _ => None,
        }
    }

    fn first_meeting(&self, domain: &[u8], prefix: &Prefix) -> Option<u32>
        ensures { result ≡ option_map (λ scope. scope.line)
            (find (is_overlap domain.now prefix.now) (draft_value self.now).scopes) }
    {
        self.scopes
            .iter()
            .find(|scope| scope.domain.items() != domain && meets(&scope.prefix, prefix))
            .map(|scope| scope.line)
    }

    fn is_too_much(&self, form: &Form<'_>) -> bool
        ensures { result ≡ is_too_much (draft_value self.now) (form_value form.now) }
    {
        match form {
            Form::Domain { .. } => self.domains.len() >= MAX_DOMAINS,
            Form::Prefix { name, .. } => self.count_prefixes(*name) >= MAX_PREFIXES,
            Form::Client { .. } => self.peers.len() >= MAX_PEERS,
            Form::Gateway { .. } => {
                self.peers.len() >= MAX_PEERS || self.count_gateways() >= MAX_GATEWAYS
            }
            Form::Upstream { .. } => false,
            Form::Name { fqdn, .. } => self.has_many_names(*fqdn),
            Form::Ceiling { .. } => false,
            Form::Indefinite { .. } => false,
            Form::Capacity { limit, .. } => limit.is_none(),
            Form::Packet(_) => self.packets.len() >= MAX_PACKETS,
        }
    }

    fn has_many_names(&self, fqdn: &[u8]) -> bool
        ensures { result ≡ (if has_name (draft_value self.now) fqdn.now
            then nat_le 4 (count_by (λ address. same_name fqdn.now address.name) (draft_value self.now).addresses)
            else nat_le 64 (length (draft_value self.now).names)) }
    {
        if self.has_name(fqdn) {
            return self.count_addresses(fqdn) >= MAX_ADDRESSES;
        }
        self.names.len() >= MAX_NAMES
    }

    fn has_domain(&self, name: &[u8]) -> bool
        ensures { result ≡ has_domain (draft_value self.now) name.now }
    {
        self.domains.iter().any(|domain| name == domain.items())
    }

    fn has_peer(&self, number: u32) -> bool
        ensures { result ≡ has_peer (draft_value self.now) number }
    {
        self.peers.iter().any(|peer| peer.number == number)
    }

    /// Whether a client, a gateway or the upstream has this number.
    fn is_declared(&self, number: u32) -> bool
        ensures { result ≡ is_declared (draft_value self.now) number }
    {
        match self.upstream {
            Some(upstream) => self.has_peer(number) || number == upstream,
            None => self.has_peer(number),
        }
    }

    fn has_capacity(&self, what: Capacity) -> bool
        ensures { result ≡ has_capacity (draft_value self.now) what }
    {
        self.capacities
            .iter()
            .any(|chosen| chosen.what.is_same(what))
    }

    pub fn has_name(&self, fqdn: &[u8]) -> bool
        ensures { result ≡ has_name (draft_value self.now) fqdn.now }
    {
        self.names
            .iter()
            .any(|name| is_same_name(fqdn, name.bytes()))
    }

    fn count_prefixes(&self, domain: &[u8]) -> usize
        ensures { result ≡ count_by (λ scope. bytes_eq scope.domain domain.now) (draft_value self.now).scopes }
    {
        self.scopes
            .iter()
            .filter(|scope| scope.domain.items() == domain)
            .count()
    }

    fn count_gateways(&self) -> usize
        ensures { result ≡ count_by is_gateway (draft_value self.now).peers }
    {
        self.peers
            .iter()
            .filter(|peer| peer.domain.is_none())
            .count()
    }

    fn count_addresses(&self, fqdn: &[u8]) -> usize
        ensures { result ≡ count_by (λ address. same_name fqdn.now address.name) (draft_value self.now).addresses }
    {
        self.addresses
            .iter()
            .filter(|address| is_same_name(fqdn, address.name.items()))
            .count()
    }
}

/// Whether two host names are the same: the case of letters makes no difference (RFC 4343).
pub fn is_same_name(one: &[u8], other: &[u8]) -> bool
    ensures { result ≡ same_name one.now other.now }
{
    one.eq_ignore_ascii_case(other)
}
