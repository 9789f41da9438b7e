//! Which peer an address is, and where a peer's messages go.

ghost use Rattle.std.specs.Prelude.{◌≡◌, ℕ, ◌==◌, if◌then◌else◌, None, Some, false, map, IfOk, OnOk};
ghost use Rattle.std.specs.Ordering.{nat_cmp};
ghost use Rattle.std.specs.BTreeMap.{get};
ghost use Rattle.std.specs.Net.Socket.{socket_ip};
ghost use Rattle.dots_edge.specs.Address.{key_of_ip};
ghost use Rattle.dots_edge.specs.HostLine.{line_value};
ghost use Rattle.dots_edge.specs.Peers.{whose, or_stranger};
ghost use Rattle.dots_edge.specs.Headers.{head_in};
ghost use Rattle.dots_edge.specs.Ways.{way_from, after_received_by, after_sent_by, way_by};

use crate::address::{key_of_ip, socket_address};
use crate::endpoints::Endpoints;
use crate::host_line::{Endpoint, HostLine, key_of};
use crate::host_lines::STRANGER;
use crate::way::Way;
use dots_lists::NoMemory;
use std::alloc::Global;
use std::collections::BTreeMap;
use std::net::SocketAddr;

/// The peers of a host file.
#[derive(Drop)]
pub struct Peers {
    /// The number of the peer whose address it is, by the key of the address.
    numbers: BTreeMap<u128, u32>,
    /// Where the messages of a peer go. Before it was heard that is the first of its lines that has a port.
    endpoints: BTreeMap<u32, Endpoints>,
}

impl Peers {
    /// The peers of the lines, none of which was heard.
    pub fn new(alloc: Global, lines: &[HostLine<'_>]) -> Result<Peers, NoMemory>
        ensures { IfOk result (λ peers. (key : ℕ) →
            get nat_cmp peers.numbers key ≡ whose None (map line_value lines.now) key) }
    {
        let mut peers = Peers {
            numbers: BTreeMap::new(alloc),
            endpoints: BTreeMap::new(alloc),
        };
        for line in lines {
            if let HostLine::Peer {
                number,
                address,
                port,
            } = line
            {
                let way = port.map(|port| Endpoint {
                    address: *address,
                    port,
                });
                peers.add(alloc, key_of(*address), *number, way)?;
            }
        }
        Ok(peers)
    }

    fn add(
        &mut self,
        alloc: Global,
        key: u128,
        number: u32,
        way: Option<Endpoint>,
    ) -> Result<(), NoMemory>
        ensures { OnOk result ((other : ℕ) → get nat_cmp self.new.numbers other
            ≡ (if key == other then Some number else get nat_cmp self.old.numbers other)) }
    {
        self.numbers.insert(key, number)?;
        let known = match self.last_way_to(number) {
            Some(known) => Some(known),
            None => way.map(|at| unheard(at)),
        };
        let endpoints = Endpoints::new(alloc, known)?;
        self.endpoints.insert(number, endpoints)?;
        Ok(())
    }

    /// Where the peer was heard last, or is known to be.
    fn last_way_to(&self, number: u32) -> Option<Way> {
        match self.endpoints.get(&number) {
            Some(endpoints) => endpoints.last(),
            None => None,
        }
    }

    /// The peer whose address it is, or the number of strangers.
    pub fn number_of(&self, from: SocketAddr) -> u32
        ensures { result ≡ or_stranger (get nat_cmp self.now.numbers (key_of_ip (socket_ip from))) }
    {
        match self.numbers.get(&key_of_ip(from.ip())) {
            Some(number) => *number,
            None => STRANGER,
        }
    }

    /// The peer whose address it is. Its datagram came from there to the socket of this place.
    pub fn note_datagram(&mut self, from: SocketAddr, via: usize, bytes: &[u8]) -> u32
        ensures whose { result ≡ or_stranger (get nat_cmp self.old.numbers (key_of_ip (socket_ip from))) }
        ensures kept { self.new.numbers ≡ self.old.numbers }
        ensures heard { get nat_cmp self.new.endpoints result
            ≡ after_received_by (way_from from via) (head_in bytes.now) (get nat_cmp self.old.endpoints result) }
        ensures others { (other : ℕ) → (result == other) ≡ false → get nat_cmp self.new.endpoints other ≡ get nat_cmp self.old.endpoints other }
    {
        let number = self.number_of(from);
        if let Some(endpoints) = self.endpoints.get_mut(&number) {
            let way = Way {
                to: from,
                via: Some(via),
            };
            endpoints.receive(way, bytes);
        }
        number
    }

    /// Where this datagram to the peer goes.
    pub fn way_for(&mut self, number: u32, bytes: &[u8]) -> Option<Way>
        ensures way { result ≡ way_by (head_in bytes.now) (get nat_cmp self.old.endpoints number) }
        ensures kept { self.new.numbers ≡ self.old.numbers }
        ensures sent { get nat_cmp self.new.endpoints number
            ≡ after_sent_by (head_in bytes.now) (get nat_cmp self.old.endpoints number) }
        ensures others { (other : ℕ) → (number == other) ≡ false → get nat_cmp self.new.endpoints other ≡ get nat_cmp self.old.endpoints other }
    {
        match self.endpoints.get_mut(&number) {
            Some(endpoints) => endpoints.way_for(bytes),
            None => None,
        }
    }
}

/// The way to a peer that wasn't heard yet.
fn unheard(at: Endpoint) -> Way {
    Way {
        to: socket_address(at),
        via: None,
    }
}
