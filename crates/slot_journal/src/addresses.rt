//! Reading prefixes and ports.

ghost use Rattle.std.specs.Prelude.{◌≡◌, ◌-◌, ◌*◌, ◌%◌, ◌^◌, ◌<◌, ◌≤◌, min, IfOk, OnOk};
ghost use Rattle.ip_scope.specs.Family.{width};
ghost use Rattle.ip_scope.specs.Prefix.{IsPrefix};
ghost use Rattle.slot_journal.specs.RecordReading.{Gives, address_at, byte_at, leads, lowest_at, ports_at, prefix_at, test_at, upper_at, value_at, version_at, zeros};

use crate::reader::Reader;
use crate::record_fault::EntryFault;
use acl_lists::PortTest;
use ip_scope::{Addr, Family, PortRange, Prefix};

/// How many bytes an address takes, whatever its family.
const ADDRESS: u8 = 16;

/// How many bytes of an address of this family are always zero.
fn zeros_of(family: Family) -> u8
    ensures value { result ≡ zeros family }
    ensures most { result ≤ 16 }
{
    match family {
        Family::V4 => 12,
        Family::V6 => 0,
    }
}

impl Reader<'_> {
    /// The family of a prefix, by the version of its protocol.
    #[tactic(auto, unfolding(crate::specs::RecordReading::version_at, crate::specs::RecordReading::byte_at))]
    fn version(&mut self) -> Result<Family, EntryFault>
        ensures value { Gives (λ x. (x, self.new.rest.now)) result (version_at self.old.end self.old.rest.now) }
        ensures end { OnOk result (self.new.end ≡ self.old.end) }
    {
        let Some((byte, rest)) = self.rest.split_first() else {
            return Err(EntryFault::NotEntry { at: self.end });
        };
        if *byte != 4 && *byte != 6 {
            return Err(self.fault());
        }
        self.rest = rest;
        Ok(if *byte == 4 { Family::V4 } else { Family::V6 })
    }

    /// A byte whose bits behind so many leading ones are zero.
    #[tactic(auto, unfolding(crate::specs::RecordReading::byte_at))]
    fn leading(&mut self, bits: u8) -> Result<u8, EntryFault>
        ensures value { Gives (λ x. (x, self.new.rest.now)) result (byte_at (leads bits) self.old.end self.old.rest.now) }
        ensures end { OnOk result (self.new.end ≡ self.old.end) }
        ensures zeros { IfOk result (λ x. x % 2 ^ (8 - min bits 8) ≡ 0) }
    {
        let Some((byte, rest)) = self.rest.split_first() else {
            return Err(EntryFault::NotEntry { at: self.end });
        };
        let host_bits = 8 - bits.min(8);
        if u16::from(*byte) % (1 << host_bits) != 0 {
            return Err(self.fault());
        }
        self.rest = rest;
        Ok(*byte)
    }

    /// A number of so many bytes, whose bits behind so many leading ones are zero.
    fn address(&mut self, count: u8, bits: u8) -> Result<u128, EntryFault>
        requires { count ≤ 16 }
        ensures value { Gives (λ x. (x, self.new.rest.now)) result (address_at count bits self.old.end self.old.rest.now) }
        ensures end { OnOk result (self.new.end ≡ self.old.end) }
        ensures fits { IfOk result (λ x. x < 256 ^ count) }
        ensures zeros { IfOk result (λ x. x % 2 ^ (8 * count - bits) ≡ 0) }
    {
        let mut number = 0;
        let mut bits = bits;
        for _ in 0..count {
            let byte = self.leading(bits)?;
            number = number * 256 + u128::from(byte);
            bits = bits.saturating_sub(8);
        }
        Ok(number)
    }

    /// The number of the lowest address of a prefix of this family and length.
    #[tactic(auto, unfolding(crate::specs::RecordReading::lowest_at))]
    fn lowest(&mut self, family: Family, bits: u8) -> Result<u128, EntryFault>
        requires { bits ≤ width family }
        ensures value { Gives (λ x. (x, self.new.rest.now)) result (lowest_at family bits self.old.end self.old.rest.now) }
        ensures end { OnOk result (self.new.end ≡ self.old.end) }
        ensures valid { IfOk result (λ x. IsPrefix (record { family = family; number = x; length = bits })) }
    {
        let zeros = zeros_of(family);
        self.address(zeros, 0)?;
        self.address(ADDRESS - zeros, bits)
    }

    #[tactic(auto, unfolding(crate::specs::RecordReading::prefix_at))]
    pub(crate) fn prefix(&mut self) -> Result<Prefix, EntryFault>
        ensures value { Gives (λ x. (x, self.new.rest.now)) result (prefix_at self.old.end self.old.rest.now) }
        ensures end { OnOk result (self.new.end ≡ self.old.end) }
    {
        let family = self.version()?;
        let bits = self.within(0, family.width())?;
        let number = self.lowest(family, bits)?;
        let Some(prefix) = Prefix::new(Addr { family, number }, bits) else {
            unreachable!()
        };
        Ok(prefix)
    }

    /// A port from this one on.
    #[tactic(auto, unfolding(crate::specs::RecordReading::upper_at))]
    fn upper(&mut self, lower: u16) -> Result<u16, EntryFault>
        ensures value { Gives (λ x. (x, self.new.rest.now)) result (upper_at lower self.old.end self.old.rest.now) }
        ensures end { OnOk result (self.new.end ≡ self.old.end) }
        ensures least { IfOk result (λ x. lower ≤ x) }
    {
        let least_high = (lower / 256) as u8;
        let high = self.within(least_high, u8::MAX)?;
        let least_low = if high == least_high {
            (lower % 256) as u8
        } else {
            0
        };
        let low = self.within(least_low, u8::MAX)?;
        Ok(u16::from(high) * 256 + u16::from(low))
    }

    #[tactic(auto, unfolding(crate::specs::RecordReading::ports_at))]
    pub(crate) fn ports(&mut self) -> Result<PortRange, EntryFault>
        ensures value { Gives (λ x. (x, self.new.rest.now)) result (ports_at self.old.end self.old.rest.now) }
        ensures end { OnOk result (self.new.end ≡ self.old.end) }
    {
        let lower = self.u16()?;
        let upper = self.upper(lower)?;
        let Some(ports) = PortRange::new(lower, upper) else {
            unreachable!()
        };
        Ok(ports)
    }

    /// What a test of this number asks.
    fn test_value(&mut self, number: u8) -> Result<PortTest, EntryFault>
        requires { number ≤ 5 }
        ensures value { Gives (λ x. (x, self.new.rest.now)) result (value_at number self.old.end self.old.rest.now) }
        ensures end { OnOk result (self.new.end ≡ self.old.end) }
    {
        match number {
            0 => Ok(PortTest::Any),
            1 => Ok(PortTest::Eq(self.u16()?)),
            2 => Ok(PortTest::Neq(self.u16()?)),
            3 => Ok(PortTest::Lte(self.u16()?)),
            4 => Ok(PortTest::Gte(self.u16()?)),
            _ => Ok(PortTest::Range(self.ports()?)),
        }
    }

    #[tactic(auto, unfolding(crate::specs::RecordReading::test_at))]
    pub(crate) fn port_test(&mut self) -> Result<PortTest, EntryFault>
        ensures value { Gives (λ x. (x, self.new.rest.now)) result (test_at self.old.end self.old.rest.now) }
        ensures end { OnOk result (self.new.end ≡ self.old.end) }
    {
        let number = self.within(0, 5)?;
        self.test_value(number)
    }
}
