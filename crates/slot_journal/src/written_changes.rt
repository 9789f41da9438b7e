//! Writing access lists, mitigations, session configurations and whole entries.

ghost use Rattle.std.specs.Prelude.{◌≡◌, ◌+◌, ◌*◌, ◌^◌, ◌<◌, ◌≤◌, [], ◌++◌, length, IsTrue};
ghost use Rattle.std.specs.List.{AllByRecursion, list_all};
ghost use Rattle.std.specs.Int.{w32, to_be_bytes};
ghost use Rattle.dots_history.specs.Bounds.{change_within, prefix_count, put_within, target_within, values_within, within_bounds};
ghost use Rattle.slot_journal.specs.Layout.{ace_bytes, acl_bytes, activation_number, body_bytes, change_fields, change_number, config_bytes, family_number, key_bytes, listed, put_bytes, put_number, record_bytes, reply_bytes, target_bytes, trigger_bytes, values_bytes};
ghost use Rattle.slot_journal.specs.Values.{IsAce, IsAcl, IsByte, IsChange, IsEntry, IsKey, IsPut, IsTarget};
ghost use Rattle.slot_journal.specs.Writing.{Writes};

use crate::writer::Writer;
use acl_lists::{Ace, Acl, Activation};
use dots_history::{Change, Config, Entry, MessageKey, Put, Target, Values};
use ip_scope::Family;
use slot_store::Format;

/// The number of a family that is a field of its own.
fn family_byte(family: Family) -> u8
    ensures { result ≡ family_number family }
{
    match family {
        Family::V4 => 0,
        Family::V6 => 1,
    }
}

fn activation_byte(activation: Activation) -> u8
    ensures { result ≡ activation_number activation }
{
    match activation {
        Activation::WhenMitigating => 0,
        Activation::Immediate => 1,
        Activation::Deactivate => 2,
    }
}

/// The lifetime of a mitigation, or -1.
fn granted_of(put: &Put) -> i32
    ensures { result ≡ put.now.granted }
{
    put.granted
}

/// The number of a change that asks for a mitigation with this trigger.
fn put_byte(format: Format, trigger: bool) -> u8
    ensures { result ≡ put_number format trigger }
{
    match format {
        Format::One if !trigger => 13,
        _ => 1,
    }
}

/// The number of a change.
fn change_byte(format: Format, change: &Change) -> u8
    ensures { result ≡ change_number format change.now }
{
    match change {
        Change::Put(put) => put_byte(format, put.trigger),
        Change::Withdraw { .. } => 2,
        Change::SetAlias(_) => 3,
        Change::DropAlias { .. } => 4,
        Change::SetAcl(_) => 5,
        Change::DropAcl { .. } => 6,
        Change::Register => 7,
        Change::Deregister => 8,
        Change::SetConfig { .. } => 9,
        Change::ClearConfig => 10,
        Change::Lost => 11,
        Change::Back => 12,
    }
}

impl Writer {
    fn ace(&mut self, ace: &Ace)
        ensures written { Writes 116 (ace_bytes ace.now) self.old self.new }
        ensures typed { IsAce ace.now }
    {
        self.name(&ace.name);
        self.optional_prefix(&ace.source);
        self.optional_prefix(&ace.destination);
        self.optional_protocol(ace.protocol);
        self.port_test(&ace.source_port);
        self.port_test(&ace.destination_port);
        self.byte(u8::from(ace.accept));
    }

    fn aces(&mut self, aces: &[Ace])
        requires { length aces.now ≤ 64 }
        ensures written { Writes 7425 (listed ace_bytes aces.now) self.old self.new }
        ensures typed { AllByRecursion IsAce aces.now }
    {
        self.byte(aces.len() as u8);
        for ace in aces {
            self.ace(ace);
        }
    }

    fn acl(&mut self, acl: &Acl)
        requires { length acl.now.aces ≤ 64 }
        ensures written { Writes 7492 (acl_bytes acl.now) self.old self.new }
        ensures typed { IsAcl acl.now }
    {
        self.name(&acl.name);
        self.byte(family_byte(acl.family));
        self.byte(activation_byte(acl.activation));
        self.aces(acl.aces.items());
    }

    fn target(&mut self, target: &Target)
        requires within { IsTrue (target_within target.now) }
        requires prefixes { length target.now.prefixes ≤ 128 }
        ensures written { Writes (163 + 18 * length target.now.prefixes) (target_bytes target.now) self.old self.new }
        ensures typed { IsTarget target.now }
    {
        self.prefixes(target.prefixes.items());
        self.ranges(target.ports.items());
        self.counted(target.protocols.items());
    }

    fn targets(&mut self, targets: &[Target])
        requires count { length targets.now ≤ 9 }
        requires within { IsTrue (list_all target_within targets.now) }
        requires prefixes { prefix_count targets.now ≤ 128 }
        ensures written { Writes 3772 (listed target_bytes targets.now) self.old self.new }
        ensures typed { AllByRecursion IsTarget targets.now }
    {
        self.byte(targets.len() as u8);
        for target in targets {
            self.target(target);
        }
    }

    /// The trigger of a mitigation. In the first format the number of the change has it.
    fn trigger(&mut self, format: Format, trigger: bool)
        ensures { Writes 1 (trigger_bytes format trigger) self.old self.new }
    {
        match format {
            Format::One => {}
            Format::Two => self.byte(u8::from(trigger)),
        }
    }

    fn put(&mut self, format: Format, put: &Put)
        requires { IsTrue (put_within put.now) }
        ensures written { Writes 5570 (put_bytes format put.now) self.old self.new }
        ensures typed { IsPut put.now }
    {
        self.u32(put.mid);
        self.asked(&put.asked);
        self.targets(put.targets.items());
        self.u32(granted_of(put).cast_unsigned());
        self.u64(put.start);
        self.trigger(format, put.trigger);
    }

    fn values(&mut self, values: &Values)
        requires { IsTrue (values_within values.now) }
        ensures { Writes 24 (values_bytes values.now) self.old self.new }
    {
        self.u32(values.interval as u32);
        self.u32(values.missing as u32);
        self.u32(values.retransmit as u32);
        self.u32(values.timeout as u32);
        self.u32(values.factor as u32);
        self.u32(values.rate as u32);
    }

    fn config(&mut self, config: &Config)
        requires mitigating { IsTrue (values_within config.now.mitigating) }
        requires idle { IsTrue (values_within config.now.idle) }
        ensures { Writes 48 (config_bytes config.now) self.old self.new }
    {
        self.values(&config.mitigating);
        self.values(&config.idle);
    }

    /// The key of the message, with 0 in place of a Message ID that isn't there.
    fn key(&mut self, key: MessageKey)
        ensures written { Writes 3 (key_bytes key) self.old self.new }
        ensures typed { IsKey key }
    {
        match key {
            MessageKey::Http => self.pair(0, 0),
            MessageKey::Non(id) => self.pair(1, id),
            MessageKey::Con(id) => self.pair(2, id),
        }
    }

    fn reply(&mut self, reply: &[u8])
        requires { length reply.now ≤ 64 }
        ensures written { Writes 66 (reply_bytes reply.now) self.old self.new }
        ensures typed { AllByRecursion IsByte reply.now }
    {
        self.u16(reply.len() as u16);
        self.bytes(reply);
    }

    fn set_config(&mut self, sid: u32, config: &Config)
        requires mitigating { IsTrue (values_within config.now.mitigating) }
        requires idle { IsTrue (values_within config.now.idle) }
        ensures written { Writes 52 (to_be_bytes w32 sid ++ config_bytes config.now) self.old self.new }
        ensures typed { sid < 2 ^ 32 }
    {
        self.u32(sid);
        self.config(config);
    }

    /// The fields of a change.
    fn fields(&mut self, format: Format, change: &Change)
        requires { IsTrue (change_within change.now) }
        ensures written { Writes 7492 (change_fields format change.now) self.old self.new }
        ensures typed { IsChange change.now }
    {
        match change {
            Change::Put(put) => self.put(format, put),
            Change::Withdraw { mid } => self.u32(*mid),
            Change::SetAlias(alias) => self.alias(alias),
            Change::DropAlias { name } => self.name(name),
            Change::SetAcl(acl) => self.acl(acl),
            Change::DropAcl { name } => self.name(name),
            Change::SetConfig { sid, config } => self.set_config(*sid, config),
            Change::Register => {}
            Change::Deregister => {}
            Change::ClearConfig => {}
            Change::Lost => {}
            Change::Back => {}
        }
    }

    /// The fields of an entry, in front of its seal.
    fn body(&mut self, format: Format, entry: &Entry)
        requires { IsTrue (within_bounds entry.now) }
        ensures written { Writes 7641 (body_bytes format entry.now) self.old self.new }
        ensures typed { IsEntry entry.now }
    {
        self.u64(entry.time);
        self.u32(entry.peer);
        self.u16(entry.domain);
        self.counted(entry.cuid.bytes());
        self.key(entry.key);
        self.reply(entry.reply.items());
        self.byte(change_byte(format, &entry.change));
        self.fields(format, &entry.change);
    }

    /// The record of an entry, with nothing before it.
    pub(crate) fn entry(&mut self, format: Format, entry: &Entry)
        requires empty { self.old ≡ [] }
        requires within { IsTrue (within_bounds entry.now) }
        ensures written { self.new ≡ record_bytes format entry.now }
        ensures short { length self.new ≤ 7649 }
        ensures typed { IsEntry entry.now }
    {
        self.body(format, entry);
        match format {
            Format::One => {}
            Format::Two => self.seal(),
        }
    }
}
