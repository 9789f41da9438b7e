//! Numbers that are drawn, and what is drawn of few: addresses, prefixes, protocols and ports that often meet.

ghost use Rattle.std.specs.Prelude.{◌≡◌, ◌<◌, ◌≤◌, ◌^◌, ◌⊎◌, IfSome};

use ip_scope::{Addr, Family, PortRange, Prefix};

/// The lowest of the sixteen addresses of each family that packets go to.
const FIRST_V4: u32 = 0x0a00_0000;

const FIRST_V6: u128 = 0xfd00_0000_0000_0000_0000_0000_0000_0000;

/// Numbers in an order that the seed fixes.
#[derive(Drop)]
pub struct Draws {
    state: u64,
}

impl Draws {
    pub fn new(seed: u64) -> Draws {
        Draws { state: seed }
    }

    /// A number below 2^31.
    fn next(&mut self) -> u32 {
        self.state = self
            .state
            .wrapping_mul(6_364_136_223_846_793_005)
            .wrapping_add(1_442_695_040_888_963_407);
        (self.state >> 33) as u32
    }

    /// A number below 16.
    pub fn of_sixteen(&mut self) -> u32
        ensures { result < 16 }
    {
        self.next() % 16
    }

    /// A number below 4.
    pub fn of_four(&mut self) -> u32
        ensures { result < 4 }
    {
        self.next() % 4
    }

    /// A number below 8.
    pub fn of_eight(&mut self) -> u32
        ensures { result < 8 }
    {
        self.next() % 8
    }

    /// Whether a coin falls on its head.
    pub fn coin(&mut self) -> bool {
        self.next() % 2 == 0
    }

    pub fn family(&mut self) -> Family {
        if self.coin() { Family::V4 } else { Family::V6 }
    }

    /// One of sixteen addresses of a family.
    pub fn address(&mut self, family: Family) -> Addr
        ensures { result.family ≡ family }
    {
        let place = self.of_sixteen();
        match family {
            Family::V4 => Addr {
                family: Family::V4,
                number: u128::from(FIRST_V4 + place),
            },
            Family::V6 => Addr {
                family: Family::V6,
                number: FIRST_V6 + u128::from(place),
            },
        }
    }

    /// A prefix of one to sixteen of these addresses, and now and then of all addresses.
    pub fn prefix(&mut self, family: Family) -> Prefix
        ensures { result.family ≡ family }
    {
        let address = self.address(family);
        let bits = self.of_eight();
        if bits >= 5 {
            if self.of_eight() == 0 {
                return Prefix::new(address, 0).unwrap();
            }
            return Prefix::new(address, family.width()).unwrap();
        }
        Prefix::new(address, family.width() - bits as u8).unwrap()
    }

    /// A prefix of this family or none.
    pub fn some_prefix(&mut self, family: Family) -> Option<Prefix>
        ensures { IfSome result (λ prefix. prefix.family ≡ family) }
    {
        if self.coin() {
            return None;
        }
        Some(self.prefix(family))
    }

    /// A protocol, with ports or without.
    pub fn protocol(&mut self) -> u8 {
        match self.of_eight() {
            0 => 1,
            1 => 58,
            2 => 132,
            3 => 33,
            4 => 136,
            5 => 47,
            6 => 17,
            _ => 6,
        }
    }

    /// One of eight ports, the lowest and the greatest among them.
    pub fn port(&mut self) -> u16
        ensures { (result < 4) ⊎ (65532 ≤ result) }
    {
        let place = self.of_eight() as u16;
        if place < 4 { place } else { 65_528 + place }
    }

    /// A range of ports, where the second that is drawn isn't below the first.
    pub fn ports(&mut self) -> Option<PortRange> {
        let lower = self.port();
        let upper = self.port();
        PortRange::new(lower, upper)
    }

    /// From 1,000 to 87,399 seconds, or no end.
    pub fn left(&mut self) -> Option<u32>
        ensures { IfSome result (λ seconds. (1000 ≤ seconds) × (seconds < 87400)) }
    {
        if self.of_four() == 0 {
            return None;
        }
        Some(1_000 + self.next() % 86_400)
    }
}

/// Whether a protocol has ports: TCP, UDP, DCCP, SCTP and UDP-Lite have.
pub fn has_ports(protocol: u8) -> bool {
    protocol == 6 || (protocol == 17 || (protocol == 33 || (protocol == 132 || protocol == 136)))
}
