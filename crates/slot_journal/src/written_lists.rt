//! Writing prefixes, ports, and what requests and aliases name.

ghost use Rattle.std.specs.Prelude.{◌≡◌, ◌+◌, ◌*◌, ◌^◌, ◌<◌, ◌≤◌, ◌∷◌, length, IsTrue};
ghost use Rattle.std.specs.List.{AllByRecursion};
ghost use Rattle.std.specs.Int.{w16, to_be_bytes};
ghost use Rattle.ip_scope.specs.Prefix.{IsPrefix};
ghost use Rattle.dots_history.specs.Bounds.{asked_within, alias_within};
ghost use Rattle.slot_journal.specs.Layout.{alias_bytes, asked_bytes, byte, counted, listed, optional, ports_bytes, prefix_bytes, test_bytes, version};
ghost use Rattle.slot_journal.specs.Values.{IsAlias, IsAsked, IsByte, IsName, IsRange, IsTest, IfThere};
ghost use Rattle.slot_journal.specs.Writing.{Writes};

use crate::writer::Writer;
use acl_lists::{Alias, Asked, PortTest};
use dots_lists::Name;
use ip_scope::{Family, PortRange, Prefix};

/// The version of the protocol that stands for a family.
fn version_of(family: Family) -> u8
    ensures { result ≡ version family }
{
    match family {
        Family::V4 => 4,
        Family::V6 => 6,
    }
}

impl Writer {
    pub(crate) fn prefix(&mut self, prefix: &Prefix)
        ensures written { Writes 18 (prefix_bytes prefix.now) self.old self.new }
        ensures typed { IsPrefix prefix.now }
    {
        self.byte(version_of(prefix.family()));
        self.byte(prefix.length());
        self.u128(prefix.number());
    }

    pub(crate) fn prefixes(&mut self, prefixes: &[Prefix])
        requires { length prefixes.now ≤ 128 }
        ensures written { Writes (1 + 18 * length prefixes.now) (listed prefix_bytes prefixes.now) self.old self.new }
        ensures typed { AllByRecursion IsPrefix prefixes.now }
    {
        self.byte(prefixes.len() as u8);
        for prefix in prefixes {
            self.prefix(prefix);
        }
    }

    pub(crate) fn ports(&mut self, ports: &PortRange)
        ensures written { Writes 4 (ports_bytes ports.now) self.old self.new }
        ensures typed { IsRange ports.now }
    {
        self.u16(ports.lower());
        self.u16(ports.upper());
    }

    pub(crate) fn ranges(&mut self, ranges: &[PortRange])
        requires { length ranges.now ≤ 32 }
        ensures written { Writes 129 (listed ports_bytes ranges.now) self.old self.new }
        ensures typed { AllByRecursion IsRange ranges.now }
    {
        self.byte(ranges.len() as u8);
        for ports in ranges {
            self.ports(ports);
        }
    }

    fn names(&mut self, names: &[Name])
        requires { length names.now ≤ 8 }
        ensures written { Writes 521 (listed counted names.now) self.old self.new }
        ensures typed { AllByRecursion IsName names.now }
    {
        self.byte(names.len() as u8);
        for name in names {
            self.name(name);
        }
    }

    pub(crate) fn asked(&mut self, asked: &Asked)
        requires { IsTrue (asked_within asked.now) }
        ensures written { Writes 1781 (asked_bytes asked.now) self.old self.new }
        ensures typed { IsAsked asked.now }
    {
        self.prefixes(asked.prefixes.items());
        self.ranges(asked.ports.items());
        self.counted(asked.protocols.items());
        self.names(asked.names.items());
        self.names(asked.aliases.items());
    }

    pub(crate) fn alias(&mut self, alias: &Alias)
        requires { IsTrue (alias_within alias.now) }
        ensures written { Writes 1846 (alias_bytes alias.now) self.old self.new }
        ensures typed { IsAlias alias.now }
    {
        self.name(&alias.name);
        self.asked(&alias.asked);
    }

    pub(crate) fn optional_prefix(&mut self, prefix: &Option<Prefix>)
        ensures written { Writes 19 (optional prefix_bytes prefix.now) self.old self.new }
        ensures typed { IfThere IsPrefix prefix.now }
    {
        match prefix {
            None => self.byte(0),
            Some(prefix) => {
                self.byte(1);
                self.prefix(prefix);
            }
        }
    }

    pub(crate) fn optional_protocol(&mut self, protocol: Option<u8>)
        ensures written { Writes 2 (optional byte protocol) self.old self.new }
        ensures typed { IfThere IsByte protocol }
    {
        match protocol {
            None => self.byte(0),
            Some(protocol) => {
                self.byte(1);
                self.byte(protocol);
            }
        }
    }

    /// A number of one byte, and one of two.
    pub(crate) fn pair(&mut self, number: u8, port: u16)
        ensures written { Writes 3 (number ∷ to_be_bytes w16 port) self.old self.new }
        ensures typed { port < 2 ^ 16 }
    {
        self.byte(number);
        self.u16(port);
    }

    pub(crate) fn port_test(&mut self, test: &PortTest)
        ensures written { Writes 5 (test_bytes test.now) self.old self.new }
        ensures typed { IsTest test.now }
    {
        match test {
            PortTest::Any => self.byte(0),
            PortTest::Eq(port) => self.pair(1, *port),
            PortTest::Neq(port) => self.pair(2, *port),
            PortTest::Lte(port) => self.pair(3, *port),
            PortTest::Gte(port) => self.pair(4, *port),
            PortTest::Range(ports) => {
                self.byte(5);
                self.ports(ports);
            }
        }
    }
}
