//! The store.

ghost use Rattle.std.specs.Prelude.{◌≡◌, ℕ, ◌+◌, ◌-◌, ◌^◌, ◌<◌, ◌≤◌, ◌⊎◌, ◌++◌, ◌∷◌, ◌↔◌, [], true, List, drop, length, max, vec_capacity, IfOk, OnOk, OnErr};
ghost use Rattle.dots_host.specs.Becoming.{Leaves, RestsWith};
ghost use Rattle.dots_host.specs.Causes.{HasCause};
ghost use Rattle.dots_settings.specs.Settings.{SettingsValue};
ghost use Rattle.dots_history.specs.declared.entry.Entry.{Entry};
ghost use Rattle.slot_store.specs.Copying.{other_selector};
ghost use Rattle.slot_store.specs.Layout.{needed_of};
ghost use Rattle.slot_journal.specs.DiskEntries.{HasEither, Represents};
ghost use Rattle.dots_gateway.specs.Exchanges.{AreRestorable};
ghost use Rattle.gateway_agent.specs.Crashes.{AreLeft, HasOne, HasStep, HasYoung};
ghost use Rattle.gateway_agent.specs.Exchanges.{IsStore, joins, kept_at, last_number, last_time, most_young, next_number, young_at};
ghost use Rattle.gateway_agent.specs.Forms.{entry_of};
ghost use Rattle.gateway_agent.specs.Stores.{AreReplies, CanKeep, IsOn, once_free};

use crate::form::entry_of;
use crate::order::{count_young, joins, most_young, young_among};
use dots_gateway::Exchange;
use dots_history::Entry;
use dots_host::Disk;
use dots_lists::Bytes;
use slot_journal::{DiskFault, Journal};
use std::alloc::Global;
use std::marker::Model;
use std::mem;

/// Times are below this many seconds.
const TIME_END: u64 = 0x1_0000_0000_0000;

/// The exchanges of a gateway, each in an entry of a journal.
#[derive(Drop)]
pub struct Store {
    pub(crate) alloc: Global,
    pub(crate) journal: Journal,
    /// Those of the entries, in their order. There is room for as many as a half has slots.
    pub(crate) exchanges: Vec<Exchange>,
    /// The numbers of all slots of a half.
    pub(crate) numbers: Vec<u32>,
    /// Bytes for the reply of an entry, by the size of its token.
    pub(crate) replies: Vec<Bytes>,
}

impl Model for Store {
    ghost use Rattle.std.specs.Prelude.{◌≡◌, ◌<◌, ◌≤◌, length, vec_capacity};
    ghost use Rattle.std.specs.List.{range_with_len};
    ghost use Rattle.gateway_agent.specs.Exchanges.{IsStore, most_young};
    ghost use Rattle.gateway_agent.specs.Stores.{AreReplies, StoreValue};

    ghost Value = { StoreValue };

    ghost view = { λ store. record { journal = store.journal; exchanges = store.exchanges.items } };

    ghost invariant = { λ store. record {
      order : IsStore (most_young store.journal.slots) store.exchanges.items;
      used : store.journal.used ≡ length store.exchanges.items;
      fits : store.journal.used ≤ store.journal.slots;
      slots : 8 < store.journal.slots;
      room : store.journal.slots ≤ vec_capacity store.exchanges;
      numbers : store.numbers.items ≡ range_with_len 0 store.journal.slots;
      replies : AreReplies store.replies.items;
    } };
}

impl Store {
    /// How many bytes the disk needs.
    pub fn bytes_needed(&self) -> u64
        ensures { result ≡ needed_of self.now.journal.slots }
    {
        8192 * (1 + 2 * u64::from(self.journal.slots()))
    }

    /// How many exchanges may be at most 246 seconds old at once. A gateway that keeps its exchanges here has room for as many
    /// (`GatewayCore::new`).
    pub fn most_young(&self) -> usize
        ensures most { result ≡ most_young self.now.journal.slots }
        ensures some { 0 < result }
        ensures room { result ≤ 1024 }
    {
        most_young(self.journal.slots())
    }

    /// The exchanges that are at most 246 seconds old at the time `now`, in seconds, or at the time of the last one, if that is later: so
    /// many at the end. A gateway that has room for them lets them wait again (`GatewayCore::restore`). Takes no memory.
    pub fn young(&self, now: u64) -> &[Exchange]
        ensures young { result.now ≡ young_at (max now (last_time self.now.exchanges)) self.now.exchanges }
        ensures few { length result.now ≤ most_young self.now.journal.slots }
        ensures restorable { AreRestorable result.now (next_number self.now.exchanges) }
    {
        young_among(self.exchanges.as_slice(), now)
    }

    /// Whether an exchange may be kept at the time `now`, in seconds.
    pub fn can_keep(&self, exchange: &Exchange, now: u64) -> bool
        ensures { (result ≡ true) ↔ CanKeep self.now now exchange.now }
    {
        let most = most_young(self.journal.slots());
        now < TIME_END && exchange.time == now && joins(self.exchanges.as_slice(), most, exchange)
    }

    /// Keeps an exchange at the time `now`, in seconds. The time is the exchange's own, below 2^48 and not before that of the last one, and
    /// fewer than may be young at once are at most 246 seconds old then. The exchange is of a request of the signal channel, and its number
    /// is above that of the last one and isn't the greatest u64. [`Store::can_keep`] tells. Where no slot is free, the journal is
    /// compacted before: the exchanges that are older go, but for the last. It takes no memory.
    ///
    /// # Errors
    ///
    /// `DiskFault` where the disk's count of faults rose. The store isn't used again after it, and the disk is opened anew.
    pub fn keep<D: Disk>(
        &mut self,
        disk: &mut D,
        exchange: &Exchange,
        now: u64,
    ) -> Result<(), DiskFault>
        requires size { needed_of self.old.journal.slots ≤ D.extent disk.old }
        requires can { CanKeep self.old now exchange.now }

        // At each moment each image holds a store with the young exchanges, or with these and the new one.
        ensures moments { (settings : SettingsValue) → RestsWith (D.media disk.old) (IsOn settings self.old)
            → Leaves (D.media disk.old) (D.media disk.new) (HasYoung settings (most_young self.old.journal.slots) now self.old.exchanges exchange.now) }

        // It holds the exchanges as before, those that are left once a slot is free, or these and the new one; in the end the last alone.
        ensures steps { (settings : SettingsValue) → RestsWith (D.media disk.old) (IsOn settings self.old)
            → Leaves (D.media disk.old) (D.media disk.new) (HasStep settings self.old.exchanges (once_free now self.old) exchange.now) }
        ensures rests { OnOk result ((settings : SettingsValue) → RestsWith (D.media disk.old) (IsOn settings self.old)
            → RestsWith (D.media disk.new) (IsOn settings self.new)) }
        ensures kept { OnOk result (self.new.exchanges ≡ once_free now self.old ++ exchange.now ∷ []) }
        ensures young { OnOk result (young_at now self.new.exchanges ≡ young_at now self.old.exchanges ++ exchange.now ∷ []) }
        ensures number { OnOk result (last_number self.new.exchanges ≡ exchange.now.number) }
        ensures left { OnErr result ((self.new.exchanges ≡ self.old.exchanges) ⊎ (self.new.exchanges ≡ once_free now self.old)) }

        ensures slots { self.new.journal.slots ≡ self.old.journal.slots }
        ensures extent { D.extent disk.new ≡ D.extent disk.old }
        ensures cause { HasCause (D.faults disk.old) (D.faults disk.new) result }
        ensures beside { D.beside disk.old disk.new }
    {
        match self.make_room(disk, now) {
            Ok(()) => return self.append(disk, exchange),
            Err(fault) => return Err(fault),
        }
    }

    /// Compacts the journal where no slot is free.
    fn make_room<D: Disk>(&mut self, disk: &mut D, now: u64) -> Result<(), DiskFault>
        requires size { needed_of self.old.journal.slots ≤ D.extent disk.old }
        requires room { length (young_at now self.old.exchanges) < most_young self.old.journal.slots }
        ensures moments { (settings : SettingsValue) → RestsWith (D.media disk.old) (IsOn settings self.old)
            → Leaves (D.media disk.old) (D.media disk.new) (HasOne settings self.old.exchanges (once_free now self.old)) }
        ensures store { IsStore (most_young self.old.journal.slots) self.old.exchanges }
        ensures few { AreLeft (most_young self.old.journal.slots) now (once_free now self.old) self.old.exchanges }
        ensures made { OnOk result (self.new.exchanges ≡ once_free now self.old) }
        ensures free { OnOk result (self.new.journal.used < self.new.journal.slots) }
        ensures rests { OnOk result ((settings : SettingsValue) → RestsWith (D.media disk.old) (IsOn settings self.old)
            → RestsWith (D.media disk.new) (IsOn settings self.new)) }
        ensures same { OnErr result (self.new ≡ self.old) }
        ensures slots { self.new.journal.slots ≡ self.old.journal.slots }
        ensures extent { D.extent disk.new ≡ D.extent disk.old }
        ensures cause { HasCause (D.faults disk.old) (D.faults disk.new) result }
        ensures beside { D.beside disk.old disk.new }
    {
        if self.journal.used() < self.journal.slots() {
            return Ok(());
        }
        self.compact(disk, now)
    }

    /// Keeps the exchanges that are at most 246 seconds old, and the last, in the other half.
    fn compact<D: Disk>(&mut self, disk: &mut D, now: u64) -> Result<(), DiskFault>
        requires size { needed_of self.old.journal.slots ≤ D.extent disk.old }
        requires some { 0 < self.old.journal.used }
        requires room { length (young_at now self.old.exchanges) < most_young self.old.journal.slots }
        ensures moments { (settings : SettingsValue) → RestsWith (D.media disk.old) (IsOn settings self.old)
            → Leaves (D.media disk.old) (D.media disk.new) (HasOne settings self.old.exchanges (kept_at now self.old.exchanges)) }
        ensures made { OnOk result (self.new.exchanges ≡ kept_at now self.old.exchanges) }
        ensures free { OnOk result (self.new.journal.used < self.new.journal.slots) }
        ensures rests { OnOk result ((settings : SettingsValue) → RestsWith (D.media disk.old) (IsOn settings self.old)
            → RestsWith (D.media disk.new) (IsOn settings self.new)) }
        ensures same { OnErr result (self.new ≡ self.old) }
        ensures slots { self.new.journal.slots ≡ self.old.journal.slots }
        ensures extent { D.extent disk.new ≡ D.extent disk.old }
        ensures cause { HasCause (D.faults disk.old) (D.faults disk.new) result }
        ensures beside { D.beside disk.old disk.new }
    {
        let first = first_kept(self.exchanges.as_slice(), now);
        let many = self.exchanges.len();
        self.journal.compact(disk, &self.numbers[first..many])?;
        drop_front(&mut self.exchanges, first);
        Ok(())
    }

    /// Appends the exchange, for which a slot is free.
    fn append<D: Disk>(&mut self, disk: &mut D, exchange: &Exchange) -> Result<(), DiskFault>
        requires size { needed_of self.old.journal.slots ≤ D.extent disk.old }
        requires room { self.old.journal.used < self.old.journal.slots }
        requires early { exchange.now.time < 2 ^ 48 }
        requires joins { length exchange.now.token ≤ 8 → joins (most_young self.old.journal.slots) self.old.exchanges exchange.now ≡ true }
        ensures joins { joins (most_young self.old.journal.slots) self.old.exchanges exchange.now ≡ true }
        ensures moments { (settings : SettingsValue) → RestsWith (D.media disk.old) (IsOn settings self.old)
            → Leaves (D.media disk.old) (D.media disk.new) (HasOne settings self.old.exchanges (self.old.exchanges ++ exchange.now ∷ [])) }
        ensures appended { OnOk result (self.new.exchanges ≡ self.old.exchanges ++ exchange.now ∷ []) }
        ensures rests { OnOk result ((settings : SettingsValue) → RestsWith (D.media disk.old) (IsOn settings self.old)
            → RestsWith (D.media disk.new) (IsOn settings self.new)) }
        ensures same { OnErr result (self.new ≡ self.old) }
        ensures slots { self.new.journal.slots ≡ self.old.journal.slots }
        ensures extent { D.extent disk.new ≡ D.extent disk.old }
        ensures cause { HasCause (D.faults disk.old) (D.faults disk.new) result }
        ensures beside { D.beside disk.old disk.new }
    {
        append_entry(
            self.alloc,
            &mut self.journal,
            &mut self.replies,
            disk,
            exchange,
        )?;
        self.exchanges.push_reserved(*exchange);
        Ok(())
    }
}

/// The place of the first exchange that a compaction keeps at the time `now`, in seconds. All behind it are kept, too.
fn first_kept(exchanges: &[Exchange], now: u64) -> usize
    requires some { 0 < length exchanges.now }
    requires store { (most : ℕ) × IsStore most exchanges.now }
    ensures first { result < length exchanges.now }
    ensures many { (length exchanges.now ≤ result + 1) ⊎ (length exchanges.now ≤ result + length (young_at now exchanges.now)) }
    ensures kept { drop result exchanges.now ≡ kept_at now exchanges.now }
{
    let young = count_young(exchanges, now);
    if young == 0 {
        return exchanges.len() - 1;
    }
    exchanges.len() - young
}

/// Lets the first exchanges go, so many.
fn drop_front(exchanges: &mut Vec<Exchange>, many: usize)
    requires { many ≤ length exchanges.old.items }
    ensures items { exchanges.new.items ≡ drop many exchanges.old.items }
    ensures capacity { vec_capacity exchanges.new ≡ vec_capacity exchanges.old }
{
    let left = exchanges.len() - many;
    exchanges.as_mut_slice().copy_within(many.., 0);
    exchanges.truncate(left);
}

/// Appends the entry of an exchange to a journal, in bytes that are taken already.
fn append_entry<D: Disk>(
    alloc: Global,
    journal: &mut Journal,
    replies: &mut Vec<Bytes>,
    disk: &mut D,
    exchange: &Exchange,
) -> Result<u32, DiskFault>
    requires room { journal.old.used < journal.old.slots }
    requires size { needed_of journal.old.slots ≤ D.extent disk.old }
    requires replies { AreReplies replies.old.items }
    requires early { exchange.now.time < 2 ^ 48 }
    ensures token { length exchange.now.token ≤ 8 }
    ensures replies { AreReplies replies.new.items }
    ensures next { OnOk result (journal.new ≡ record journal.old { used = journal.old.used + 1 }) }
    ensures same { OnErr result (journal.new ≡ journal.old) }
    ensures moments { (settings : SettingsValue) (entries : List Entry) → RestsWith (D.media disk.old) (Represents journal.old settings entries)
        → Leaves (D.media disk.old) (D.media disk.new) (HasEither settings entries (entries ++ entry_of exchange.now ∷ [])) }
    ensures rests { OnOk result ((settings : SettingsValue) (entries : List Entry) → RestsWith (D.media disk.old) (Represents journal.old settings entries)
        → RestsWith (D.media disk.new) (Represents journal.new settings (entries ++ entry_of exchange.now ∷ []))) }
    ensures extent { D.extent disk.new ≡ D.extent disk.old }
    ensures cause { HasCause (D.faults disk.old) (D.faults disk.new) result }
    ensures beside { D.beside disk.old disk.new }
{
    let size = exchange.token.bytes().len();
    let spare = mem::replace(&mut replies[size], Bytes::new(alloc));
    let entry = entry_of(alloc, spare, exchange);
    let answer = journal.append(disk, &entry);
    replies[size] = reply_in(entry);
    answer
}

/// The reply of an entry that is used no more.
fn reply_in(entry: Entry) -> Bytes
    ensures { result ≡ entry.reply }
{
    entry.reply
}
