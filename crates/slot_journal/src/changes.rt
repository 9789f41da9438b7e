//! Reading access lists, mitigations, session configurations and whole entries.

ghost use Rattle.std.specs.Prelude.{◌≡◌, ◌≤◌, length, IfOk, OnOk};
ghost use Rattle.slot_journal.specs.RecordReading.{Gives, ace_at, acl_at, activation_at, all_targets_at, change_at, closing_at, conditions_at, tail_at, config_at, entry_at, family_at, fields_at, granted_at, id_at, items_at, key_at, last_number, list_at, optional_at, prefix_at, put_at, reply_at, target_at, targets_at, trigger_at, values_at, whole_at, within_at};

use crate::lists::MAX_ITEMS;
use crate::reader::Reader;
use crate::record_fault::EntryFault;
use acl_lists::{Ace, AceList, Acl, Activation, PortTest};
use dots_history::{Change, Config, Entry, MessageKey, Put, Target, TargetList, Values};
use dots_lists::Bytes;
use ip_scope::{Family, Prefix};
use slot_store::{Format, seal};

/// How many entries an access list has at most.
const MAX_ACES: u8 = acl_lists::MAX_ACES as u8;

/// How many targets a mitigation has at most, and how many prefixes they have together.
const MAX_TARGETS: u8 = acl_lists::MAX_TARGETS as u8;

const MAX_RESOLVED: u8 = acl_lists::MAX_RESOLVED as u8;

/// The greatest length of a reply, in bytes.
const MAX_REPLY: u8 = 64;

/// How many names of aliases a request has at most.
const MAX_ALIASES: u8 = acl_lists::MAX_NAMES as u8;

/// The greatest number of a change.
fn last_number(format: Format) -> u8
    ensures value { result ≡ last_number format }
    ensures most { result ≤ 13 }
{
    match format {
        Format::One => 13,
        Format::Two => 12,
    }
}

impl Reader<'_> {
    /// A prefix that may be there.
    #[tactic(auto, unfolding(crate::specs::RecordReading::optional_at))]
    fn optional_prefix(&mut self) -> Result<Option<Prefix>, EntryFault>
        ensures value { Gives (λ x. (x, self.new.rest.now)) result (optional_at prefix_at self.old.end self.old.rest.now) }
        ensures end { OnOk result (self.new.end ≡ self.old.end) }
    {
        if self.within(0, 1)? == 0 {
            return Ok(None);
        }
        Ok(Some(self.prefix()?))
    }

    /// A protocol number that may be there.
    #[tactic(auto, unfolding(crate::specs::RecordReading::optional_at))]
    fn optional_protocol(&mut self) -> Result<Option<u8>, EntryFault>
        ensures value { Gives (λ x. (x, self.new.rest.now)) result (optional_at (within_at 0 255) self.old.end self.old.rest.now) }
        ensures end { OnOk result (self.new.end ≡ self.old.end) }
    {
        if self.within(0, 1)? == 0 {
            return Ok(None);
        }
        Ok(Some(self.within(0, u8::MAX)?))
    }

    /// What an entry asks of a packet beside its addresses, and whether such a packet is accepted.
    fn conditions(&mut self) -> Result<(Option<u8>, PortTest, PortTest, bool), EntryFault>
        ensures value { Gives (λ x. ((x.0, (x.1, (x.2, x.3))), self.new.rest.now)) result (conditions_at self.old.end self.old.rest.now) }
        ensures end { OnOk result (self.new.end ≡ self.old.end) }
    {
        Ok((
            self.optional_protocol()?,
            self.port_test()?,
            self.port_test()?,
            self.flag()?,
        ))
    }

    #[tactic(auto, unfolding(crate::specs::RecordReading::ace_at))]
    fn ace(&mut self) -> Result<Ace, EntryFault>
        ensures value { Gives (λ x. (x, self.new.rest.now)) result (ace_at self.old.end self.old.rest.now) }
        ensures end { OnOk result (self.new.end ≡ self.old.end) }
    {
        let name = self.name()?;
        let source = self.optional_prefix()?;
        let destination = self.optional_prefix()?;
        let (protocol, source_port, destination_port, accept) = self.conditions()?;
        Ok(Ace {
            name,
            source,
            destination,
            protocol,
            source_port,
            destination_port,
            accept,
        })
    }

    /// So many entries of an access list.
    fn aces_of(&mut self, count: u8) -> Result<AceList, EntryFault>
        ensures value { Gives (λ x. (x, self.new.rest.now)) result (items_at ace_at count self.old.end self.old.rest.now) }
        ensures end { OnOk result (self.new.end ≡ self.old.end) }
    {
        let mut aces = AceList::new(self.alloc);
        for _ in 0..count {
            let ace = self.ace()?;
            aces.push(ace)?;
        }
        Ok(aces)
    }

    #[tactic(auto, unfolding(crate::specs::RecordReading::list_at))]
    fn aces(&mut self) -> Result<AceList, EntryFault>
        ensures value { Gives (λ x. (x, self.new.rest.now)) result (list_at 64 ace_at self.old.end self.old.rest.now) }
        ensures end { OnOk result (self.new.end ≡ self.old.end) }
    {
        let count = self.within(0, MAX_ACES)?;
        self.aces_of(count)
    }

    fn family(&mut self) -> Result<Family, EntryFault>
        ensures value { Gives (λ x. (x, self.new.rest.now)) result (family_at self.old.end self.old.rest.now) }
        ensures end { OnOk result (self.new.end ≡ self.old.end) }
    {
        match self.within(0, 1)? {
            0 => Ok(Family::V4),
            _ => Ok(Family::V6),
        }
    }

    fn activation(&mut self) -> Result<Activation, EntryFault>
        ensures value { Gives (λ x. (x, self.new.rest.now)) result (activation_at self.old.end self.old.rest.now) }
        ensures end { OnOk result (self.new.end ≡ self.old.end) }
    {
        match self.within(0, 2)? {
            0 => Ok(Activation::WhenMitigating),
            1 => Ok(Activation::Immediate),
            _ => Ok(Activation::Deactivate),
        }
    }

    #[tactic(auto, unfolding(crate::specs::RecordReading::acl_at))]
    fn acl(&mut self) -> Result<Acl, EntryFault>
        ensures value { Gives (λ x. (x, self.new.rest.now)) result (acl_at self.old.end self.old.rest.now) }
        ensures end { OnOk result (self.new.end ≡ self.old.end) }
    {
        Ok(Acl {
            name: self.name()?,
            family: self.family()?,
            activation: self.activation()?,
            aces: self.aces()?,
        })
    }

    /// A target with at most so many prefixes.
    #[tactic(auto, unfolding(crate::specs::RecordReading::target_at))]
    fn target(&mut self, room: u8) -> Result<Target, EntryFault>
        ensures value { Gives (λ x. (x, self.new.rest.now)) result (target_at room self.old.end self.old.rest.now) }
        ensures end { OnOk result (self.new.end ≡ self.old.end) }
        ensures few { IfOk result (λ x. length x.prefixes ≤ room) }
    {
        Ok(Target {
            prefixes: self.prefixes(room)?,
            ports: self.ranges()?,
            protocols: self.counted(MAX_ITEMS)?,
        })
    }

    #[tactic(auto, unfolding(crate::specs::RecordReading::values_at))]
    fn values(&mut self) -> Result<Values, EntryFault>
        ensures value { Gives (λ x. (x, self.new.rest.now)) result (values_at self.old.end self.old.rest.now) }
        ensures end { OnOk result (self.new.end ≡ self.old.end) }
    {
        Ok(Values {
            interval: u64::from(self.u32()?),
            missing: u64::from(self.u32()?),
            retransmit: u64::from(self.u32()?),
            timeout: u64::from(self.u32()?),
            factor: u64::from(self.u32()?),
            rate: u64::from(self.u32()?),
        })
    }

    #[tactic(auto, unfolding(crate::specs::RecordReading::config_at))]
    fn config(&mut self) -> Result<Config, EntryFault>
        ensures value { Gives (λ x. (x, self.new.rest.now)) result (config_at self.old.end self.old.rest.now) }
        ensures end { OnOk result (self.new.end ≡ self.old.end) }
    {
        Ok(Config {
            mitigating: self.values()?,
            idle: self.values()?,
        })
    }

    /// The key of a message without a Message ID, in whose place zeros stand.
    fn http_key(&mut self) -> Result<MessageKey, EntryFault>
        ensures value { Gives (λ x. (x, self.new.rest.now)) result (id_at 0 self.old.end self.old.rest.now) }
        ensures end { OnOk result (self.new.end ≡ self.old.end) }
    {
        self.within(0, 0)?;
        self.within(0, 0)?;
        Ok(MessageKey::Http)
    }

    /// What a key of this number says of the message.
    fn id(&mut self, number: u8) -> Result<MessageKey, EntryFault>
        requires { number ≤ 2 }
        ensures value { Gives (λ x. (x, self.new.rest.now)) result (id_at number self.old.end self.old.rest.now) }
        ensures end { OnOk result (self.new.end ≡ self.old.end) }
    {
        match number {
            0 => self.http_key(),
            1 => Ok(MessageKey::Non(self.u16()?)),
            _ => Ok(MessageKey::Con(self.u16()?)),
        }
    }

    #[tactic(auto, unfolding(crate::specs::RecordReading::key_at))]
    fn key(&mut self) -> Result<MessageKey, EntryFault>
        ensures value { Gives (λ x. (x, self.new.rest.now)) result (key_at self.old.end self.old.rest.now) }
        ensures end { OnOk result (self.new.end ≡ self.old.end) }
    {
        let number = self.within(0, 2)?;
        self.id(number)
    }

    #[tactic(auto, unfolding(crate::specs::RecordReading::reply_at))]
    fn reply(&mut self) -> Result<Bytes, EntryFault>
        ensures value { Gives (λ x. (x, self.new.rest.now)) result (reply_at self.old.end self.old.rest.now) }
        ensures end { OnOk result (self.new.end ≡ self.old.end) }
    {
        self.within(0, 0)?;
        self.counted(MAX_REPLY)
    }

    /// So many targets, with at most so many prefixes together.
    fn targets_of(&mut self, count: u8) -> Result<TargetList, EntryFault>
        ensures value { Gives (λ x. (x, self.new.rest.now)) result (targets_at count 128 self.old.end self.old.rest.now) }
        ensures end { OnOk result (self.new.end ≡ self.old.end) }
    {
        let mut targets = TargetList::new(self.alloc);
        let mut room = MAX_RESOLVED;
        for _ in 0..count {
            let target = self.target(room)?;
            room -= target.prefixes.items().len() as u8;
            targets.push(target)?;
        }
        Ok(targets)
    }

    #[tactic(auto, unfolding(crate::specs::RecordReading::all_targets_at))]
    fn targets(&mut self) -> Result<TargetList, EntryFault>
        ensures value { Gives (λ x. (x, self.new.rest.now)) result (all_targets_at self.old.end self.old.rest.now) }
        ensures end { OnOk result (self.new.end ≡ self.old.end) }
    {
        let count = self.within(0, MAX_TARGETS)?;
        self.targets_of(count)
    }

    fn granted(&mut self) -> Result<i32, EntryFault>
        ensures value { Gives (λ x. (x, self.new.rest.now)) result (granted_at self.old.end self.old.rest.now) }
        ensures end { OnOk result (self.new.end ≡ self.old.end) }
    {
        Ok(self.u32()?.cast_signed())
    }

    /// The trigger of a mitigation. In the first format the number of the change has it.
    fn trigger(&mut self, format: Format, numbered: bool) -> Result<bool, EntryFault>
        ensures value { Gives (λ x. (x, self.new.rest.now)) result (trigger_at format numbered self.old.end self.old.rest.now) }
        ensures end { OnOk result (self.new.end ≡ self.old.end) }
    {
        match format {
            Format::One => Ok(numbered),
            Format::Two => self.flag(),
        }
    }

    /// A mitigation, where the number of the change has this trigger.
    #[tactic(auto, unfolding(crate::specs::RecordReading::put_at))]
    fn put(&mut self, format: Format, numbered: bool) -> Result<Put, EntryFault>
        ensures value { Gives (λ x. (x, self.new.rest.now)) result (put_at format numbered self.old.end self.old.rest.now) }
        ensures end { OnOk result (self.new.end ≡ self.old.end) }
    {
        Ok(Put {
            mid: self.u32()?,
            asked: self.asked(MAX_ALIASES)?,
            targets: self.targets()?,
            granted: self.granted()?,
            start: self.u64()?,
            trigger: self.trigger(format, numbered)?,
        })
    }

    #[tactic(auto, unfolding(crate::specs::RecordReading::fields_at))]
    fn set_config(&mut self, format: Format) -> Result<Change, EntryFault>
        ensures value { Gives (λ x. (x, self.new.rest.now)) result (fields_at format 9 self.old.end self.old.rest.now) }
        ensures end { OnOk result (self.new.end ≡ self.old.end) }
    {
        let sid = self.u32()?;
        let config = self.config()?;
        Ok(Change::SetConfig { sid, config })
    }

    /// The fields of a change of this number.
    #[tactic(auto, unfolding(crate::specs::RecordReading::fields_at))]
    fn fields(&mut self, format: Format, number: u8) -> Result<Change, EntryFault>
        requires least { 1 ≤ number }
        requires most { number ≤ 13 }
        ensures value { Gives (λ x. (x, self.new.rest.now)) result (fields_at format number self.old.end self.old.rest.now) }
        ensures end { OnOk result (self.new.end ≡ self.old.end) }
    {
        match number {
            1 => Ok(Change::Put(self.put(format, true)?)),
            2 => Ok(Change::Withdraw { mid: self.u32()? }),
            3 => Ok(Change::SetAlias(self.alias()?)),
            4 => Ok(Change::DropAlias { name: self.name()? }),
            5 => Ok(Change::SetAcl(self.acl()?)),
            6 => Ok(Change::DropAcl { name: self.name()? }),
            7 => Ok(Change::Register),
            8 => Ok(Change::Deregister),
            9 => self.set_config(format),
            10 => Ok(Change::ClearConfig),
            11 => Ok(Change::Lost),
            12 => Ok(Change::Back),
            _ => Ok(Change::Put(self.put(format, false)?)),
        }
    }

    #[tactic(auto, unfolding(crate::specs::RecordReading::change_at))]
    fn change(&mut self, format: Format) -> Result<Change, EntryFault>
        ensures value { Gives (λ x. (x, self.new.rest.now)) result (change_at format self.old.end self.old.rest.now) }
        ensures end { OnOk result (self.new.end ≡ self.old.end) }
    {
        let number = self.within(1, last_number(format))?;
        self.fields(format, number)
    }

    /// The message of an entry, the reply that it got, and the change.
    fn tail(&mut self, format: Format) -> Result<(MessageKey, Bytes, Change), EntryFault>
        ensures value { Gives (λ x. ((x.0, (x.1, x.2)), self.new.rest.now)) result (tail_at format self.old.end self.old.rest.now) }
        ensures end { OnOk result (self.new.end ≡ self.old.end) }
    {
        Ok((self.key()?, self.reply()?, self.change(format)?))
    }

    /// An entry without what stands behind its fields.
    #[tactic(auto, unfolding(crate::specs::RecordReading::entry_at))]
    fn entry(&mut self, format: Format) -> Result<Entry, EntryFault>
        ensures value { Gives (λ x. (x, self.new.rest.now)) result (entry_at format self.old.end self.old.rest.now) }
        ensures end { OnOk result (self.new.end ≡ self.old.end) }
    {
        let time = self.time()?;
        let peer = self.u32()?;
        let domain = self.u16()?;
        let cuid = self.cuid()?;
        let (key, reply, change) = self.tail(format)?;
        Ok(Entry {
            time,
            peer,
            domain,
            cuid,
            key,
            reply,
            change,
        })
    }

    /// What stands behind these bytes of the fields: nothing, or in the second format their seal.
    fn closing(&mut self, format: Format, fields: &[u8]) -> Result<(), EntryFault>
        ensures value { Gives (λ x. (x, self.new.rest.now)) result (closing_at format fields.now self.old.end self.old.rest.now) }
        ensures end { OnOk result (self.new.end ≡ self.old.end) }
    {
        match format {
            Format::One => Ok(()),
            Format::Two => self.exactly(&seal(fields)),
        }
    }

    /// An entry whose whole record the bytes begin with.
    pub(crate) fn whole(&mut self, format: Format, bytes: &[u8]) -> Result<Entry, EntryFault>
        requires { self.old.rest.now ≡ bytes.now }
        ensures value { Gives (λ x. (x, self.new.rest.now)) result (whole_at format self.old.end self.old.rest.now) }
        ensures end { OnOk result (self.new.end ≡ self.old.end) }
    {
        let entry = self.entry(format)?;
        let fields = &bytes[..bytes.len() - self.rest.len()];
        self.closing(format, fields)?;
        Ok(entry)
    }
}
