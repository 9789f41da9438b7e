ghost use Rattle.std.specs.Prelude.{◌≡◌, [], ◌∷◌, ◌++◌, true, OnOk};
ghost use Rattle.dots_lists.specs.Name.{is_name};
ghost use Rattle.dots_settings.specs.Admitting.{admitted, draft_value, form_value, IsNamed};
ghost use Rattle.dots_settings.specs.Draft.{draft_of};
ghost use Rattle.dots_settings.specs.Form.{domain_line, prefix_line, client_line, gateway_line, name_line, capacity_line, packet_line};

use crate::capacity::Capacity;
use crate::form::Form;
use acl_lists::Packet;
use dots_lists::{Bytes, Name, NoMemory};
use ip_scope::Prefix;
use std::alloc::Global;

/// A prefix of a domain, and the line that gives it.
#[derive(Drop)]
pub struct Scope {
    pub domain: Bytes,
    pub prefix: Prefix,
    pub line: u32,
}

/// A peer: a client of the domain, or a gateway where there is none.
#[derive(Drop)]
pub struct Peer {
    pub number: u32,
    pub domain: Option<Bytes>,
}

/// A prefix of a host name.
#[derive(Drop)]
pub struct Address {
    pub name: Bytes,
    pub prefix: Prefix,
}

/// A capacity that a line gives.
#[derive(Clone, Copy)]
pub struct Chosen {
    pub what: Capacity,
    pub limit: u32,
}

/// What the lines so far have said, in the file's order.
#[derive(Drop)]
pub struct Draft {
    pub alloc: Global,
    pub domains: Vec<Bytes>,
    pub scopes: Vec<Scope>,
    pub peers: Vec<Peer>,
    pub upstream: Option<u32>,
    /// The host names, each with the spelling of its first line.
    pub names: Vec<Name>,
    pub addresses: Vec<Address>,
    pub ceiling: Option<u32>,
    pub indefinite: Option<bool>,
    pub capacities: Vec<Chosen>,
    pub packets: Vec<Packet>,
}

impl Draft {
    /// What no line has said. Takes no memory.
    pub fn new(alloc: Global) -> Self
        ensures { draft_value result ≡ draft_of [] }
    {
        Draft {
            alloc,
            domains: Vec::new(alloc),
            scopes: Vec::new(alloc),
            peers: Vec::new(alloc),
            upstream: None,
            names: Vec::new(alloc),
            addresses: Vec::new(alloc),
            ceiling: None,
            indefinite: None,
            capacities: Vec::new(alloc),
            packets: Vec::new(alloc),
        }
    }

    /// Adds what the line of this number and form says.
    pub fn admit(&mut self, line: u32, form: &Form<'_>) -> Result<(), NoMemory>
        requires { IsNamed (form_value form.now) }
        ensures { OnOk result (draft_value self.new ≡ admitted (draft_value self.old) line (form_value form.now)) }
    {
        match form {
            Form::Domain { name } => self.admit_domain(*name),
            Form::Prefix { name, prefix } => self.admit_prefix(*name, *prefix, line),
            Form::Client { peer, name } => self.admit_client(*peer, *name),
            Form::Gateway { peer } => self.admit_gateway(*peer),
            Form::Upstream { peer } => {
                self.upstream = Some(*peer);
                Ok(())
            }
            Form::Name { fqdn, prefix } => self.admit_address(*fqdn, *prefix),
            Form::Ceiling { seconds } => {
                self.ceiling = Some(*seconds);
                Ok(())
            }
            Form::Indefinite { granted } => {
                self.indefinite = Some(*granted);
                Ok(())
            }
            Form::Capacity { what, limit } => self.admit_capacity(*what, *limit),
            Form::Packet(packet) => self.admit_packet(*packet),
        }
    }

    fn admit_domain(&mut self, name: &[u8]) -> Result<(), NoMemory>
        ensures { OnOk result (draft_value self.new ≡ admitted (draft_value self.old) 0 (domain_line name.now)) }
    {
        let name = Bytes::from_slice(self.alloc, name)?;
        self.domains.push(name)?;
        Ok(())
    }

    fn admit_prefix(&mut self, name: &[u8], prefix: Prefix, line: u32) -> Result<(), NoMemory>
        ensures { OnOk result
            (draft_value self.new ≡ admitted (draft_value self.old) line (prefix_line name.now prefix)) }
    {
        let domain = Bytes::from_slice(self.alloc, name)?;
        self.scopes.push(Scope {
            domain,
            prefix,
            line,
        })?;
        Ok(())
    }

    fn admit_client(&mut self, peer: u32, name: &[u8]) -> Result<(), NoMemory>
        ensures { OnOk result
            (draft_value self.new ≡ admitted (draft_value self.old) 0 (client_line peer name.now)) }
    {
        let domain = Bytes::from_slice(self.alloc, name)?;
        self.peers.push(Peer {
            number: peer,
            domain: Some(domain),
        })?;
        Ok(())
    }

    fn admit_gateway(&mut self, peer: u32) -> Result<(), NoMemory>
        ensures { OnOk result (draft_value self.new ≡ admitted (draft_value self.old) 0 (gateway_line peer)) }
    {
        self.peers.push(Peer {
            number: peer,
            domain: None,
        })?;
        Ok(())
    }

    fn admit_address(&mut self, fqdn: &[u8], prefix: Prefix) -> Result<(), NoMemory>
        requires { is_name fqdn.now ≡ true }
        ensures { OnOk result
            (draft_value self.new ≡ admitted (draft_value self.old) 0 (name_line fqdn.now prefix)) }
    {
        if !self.has_name(fqdn) {
            self.admit_name(fqdn)?;
        }
        let name = Bytes::from_slice(self.alloc, fqdn)?;
        self.addresses.push(Address { name, prefix })?;
        Ok(())
    }

    fn admit_name(&mut self, fqdn: &[u8]) -> Result<(), NoMemory>
        requires { is_name fqdn.now ≡ true }
        ensures { OnOk result (self.new ≡ record self.old { names = self.new.names }
            × (self.new.names.items ≡ self.old.names.items ++ fqdn.now ∷ [])) }
    {
        let Some(name) = Name::new(self.alloc, fqdn)? else {
            unreachable!();
        };
        self.names.push(name)?;
        Ok(())
    }

    fn admit_capacity(&mut self, what: Capacity, limit: Option<u32>) -> Result<(), NoMemory>
        ensures { OnOk result
            (draft_value self.new ≡ admitted (draft_value self.old) 0 (capacity_line what limit)) }
    {
        let Some(limit) = limit else {
            return Ok(());
        };
        self.capacities.push(Chosen { what, limit })?;
        Ok(())
    }

    fn admit_packet(&mut self, packet: Packet) -> Result<(), NoMemory>
        ensures { OnOk result (draft_value self.new ≡ admitted (draft_value self.old) 0 (packet_line packet)) }
    {
        self.packets.push(packet)?;
        Ok(())
    }
}
