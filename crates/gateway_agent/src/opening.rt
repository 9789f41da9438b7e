//! How a store opens.

ghost use Rattle.std.specs.Prelude.{◌≡◌, ◌≢◌, ℕ, ◌^◌, ◌<◌, ◌≤◌, ◌⊎◌, ◌++◌, List, [], length, vec_capacity, IfOk, IfErr, OnOk};
ghost use Rattle.std.specs.List.{range_with_len};
ghost use Rattle.dots_host.specs.Becoming.{Leaves, RestsWith};
ghost use Rattle.dots_gateway.specs.declared.exchange.Exchange.{Exchange};
ghost use Rattle.dots_gateway.specs.Exchanges.{AreRestorable};
ghost use Rattle.dots_history.specs.declared.entry.Entry.{Entry};
ghost use Rattle.slot_store.specs.Gates.{Sees};
ghost use Rattle.slot_store.specs.Layout.{needed_of};
ghost use Rattle.slot_store.specs.Opening.{Is};
ghost use Rattle.slot_journal.specs.DiskEntries.{HasEntries, Represents};
ghost use Rattle.slot_journal.specs.Refused.{IsSmallBy, Caused};
ghost use Rattle.slot_journal.specs.Sizes.{slots_of};
ghost use Rattle.slot_journal.specs.Untaken.{IsFailure};
ghost use Rattle.slot_journal.specs.declared.fault.JournalFault.{JournalFault};
ghost use Rattle.gateway_agent.specs.Crashes.{HasThe};
ghost use Rattle.gateway_agent.specs.Exchanges.{IsStore, last_time, most_young, next_number};
ghost use Rattle.gateway_agent.specs.Forms.{entries_of};
ghost use Rattle.gateway_agent.specs.Refusing.{RefusesStore};
ghost use Rattle.gateway_agent.specs.Stores.{AreReplies, IsOn};

use crate::order::last_number;
use crate::replies::{slot_numbers, spare_replies};
use crate::store::Store;
use crate::taking::take_all;
use dots_gateway::Exchange;
use dots_host::Disk;
use dots_lists::{Bytes, List, NoMemory};
use dots_settings::Settings;
use slot_journal::{Journal, JournalFault, slots};
use std::alloc::Global;

/// Exchanges in the order in which they were passed on.
pub type ExchangeList = List<Exchange>;

impl Store {
    /// Recovers what the disk holds under these settings, and answers the store, the exchanges of all entries in their order, and
    /// the number of the next one. Those at the list's end that are at most 246 seconds old wait again (`GatewayCore::restore`). It syncs
    /// first, and formats a disk that has no header and whose gates are all zero. It takes all memory of the store.
    ///
    /// # Errors
    ///
    /// Those of [`Journal::recover`], and `NotOurs` also with the slot of the first entry that is no exchange, or doesn't join those
    /// before it: its number is the greatest u64 or isn't above that of the entry before it, or from 1 on where it is the first; its
    /// time is before that of the entry before it; or with it more are at most 246 seconds old at its time than 1,024, or than a half has
    /// slots less 8. Nothing is written before a disk is refused that holds no list.
    pub fn open<D: Disk>(
        alloc: Global,
        disk: &mut D,
        settings: &Settings,
    ) -> Result<(Self, ExchangeList, u64), JournalFault>
        // A disk on which nothing was pending holds the same list at each moment.
        ensures moments { (seen : ℕ → ℕ) (entries : List Entry) → RestsWith (D.media disk.old) (Is seen) → HasEntries settings.now seen entries
            → Leaves (D.media disk.old) (D.media disk.new) (λ image. HasEntries settings.now image entries) }

        // The store has what the disk held, and the disk rests with that.
        ensures opened { IfOk result (λ found. (seen : ℕ → ℕ) → Sees (D.media disk.old) seen
            → HasThe settings.now found.0.exchanges seen × RestsWith (D.media disk.new) (IsOn settings.now found.0)) }
        ensures store { IfOk result (λ found. IsStore (most_young found.0.journal.slots) found.0.exchanges) }
        ensures early { IfOk result (λ found. last_time found.0.exchanges < 2 ^ 48) }
        ensures exchanges { IfOk result (λ found. (found.1 ≡ found.0.exchanges) × (found.2 ≡ next_number found.0.exchanges)) }
        ensures restorable { IfOk result (λ found. (gone left : List Exchange) → found.1 ≡ gone ++ left → AreRestorable left found.2) }
        ensures size { IfOk result (λ found. (found.0.journal.slots ≡ slots_of settings.now) × (needed_of (slots_of settings.now) ≤ D.extent disk.new)) }

        // A disk is refused for a cause that it has, and one that holds a store isn't refused.
        ensures refused { IfErr result (λ fault. (seen : ℕ → ℕ) → Sees (D.media disk.old) seen
            → RefusesStore settings.now (D.extent disk.old) seen (D.media disk.new) fault) }
        ensures complete { IfErr result (λ fault. (seen : ℕ → ℕ) (exchanges : List Exchange) → Sees (D.media disk.old) seen → HasThe settings.now exchanges seen
            → IsStore (most_young (slots_of settings.now)) exchanges → needed_of (slots_of settings.now) ≤ D.extent disk.old → IsFailure fault) }

        // A disk whose content isn't told is too small for the same cause.
        ensures small { IfErr result (IsSmallBy settings.now (D.extent disk.old)) }

        // Where the disk is refused, and none of its calls failed, nothing was written; or it held a list, and holds it still.
        ensures unwritten { IfErr result (λ fault. (seen : ℕ → ℕ) → fault ≢ JournalFault.DiskFault → RestsWith (D.media disk.old) (Is seen)
            → RestsWith (D.media disk.new) (Is seen) ⊎ ((entries : List Entry) × HasEntries settings.now seen entries)) }

        ensures extent { D.extent disk.new ≡ D.extent disk.old }
        ensures cause { Caused (D.faults disk.old) (D.faults disk.new) result }
        ensures beside { D.beside disk.old disk.new }
    {
        let (mut exchanges, numbers, replies) = take_memory(alloc, slots(settings))?;
        let journal = fill(alloc, disk, settings, &mut exchanges)?;
        let found = copied(alloc, exchanges.as_slice())?;
        let next = last_number(exchanges.as_slice()) + 1;
        let store = Store {
            alloc,
            journal,
            exchanges,
            numbers,
            replies,
        };
        Ok((store, found, next))
    }
}

/// The memory of a store whose journal has so many slots.
fn take_memory(alloc: Global, slots: u32) -> Result<(Vec<Exchange>, Vec<u32>, Vec<Bytes>), NoMemory>
    ensures exchanges { IfOk result (λ memory. (memory.0.items ≡ []) × (slots ≤ vec_capacity memory.0)) }
    ensures numbers { IfOk result (λ memory. memory.1.items ≡ range_with_len 0 slots) }
    ensures replies { IfOk result (λ memory. AreReplies memory.2.items) }
{
    let exchanges = Vec::with_capacity(alloc, slots as usize)?;
    let numbers = slot_numbers(alloc, slots)?;
    let replies = spare_replies(alloc)?;
    Ok((exchanges, numbers, replies))
}

/// A copy of the exchanges.
fn copied(alloc: Global, exchanges: &[Exchange]) -> Result<ExchangeList, NoMemory>
    ensures { IfOk result (λ copy. copy ≡ exchanges.now) }
{
    let items = Vec::from_slice(alloc, exchanges)?;
    Ok(List::from_vec(items))
}

/// Recovers the journal of a disk, and takes the exchanges of its entries.
///
/// # Errors
///
/// Those of [`Store::open`].
fn fill<D: Disk>(
    alloc: Global,
    disk: &mut D,
    settings: &Settings,
    exchanges: &mut Vec<Exchange>,
) -> Result<Journal, JournalFault>
    requires first { exchanges.old.items ≡ [] }
    requires room { slots_of settings.now ≤ vec_capacity exchanges.old }
    ensures moments { (seen : ℕ → ℕ) (entries : List Entry) → RestsWith (D.media disk.old) (Is seen) → HasEntries settings.now seen entries
        → Leaves (D.media disk.old) (D.media disk.new) (λ image. HasEntries settings.now image entries) }
    ensures recovered { IfOk result (λ journal. (seen : ℕ → ℕ) → Sees (D.media disk.old) seen
        → HasThe settings.now exchanges.new.items seen
        × RestsWith (D.media disk.new) (Represents journal settings.now (entries_of exchanges.new.items))) }
    ensures store { OnOk result (IsStore (most_young (slots_of settings.now)) exchanges.new.items) }
    ensures early { OnOk result (last_time exchanges.new.items < 2 ^ 48) }
    ensures used { IfOk result (λ journal. (journal.used ≡ length exchanges.new.items) × (journal.used ≤ journal.slots)) }
    ensures size { IfOk result (λ journal. (journal.slots ≡ slots_of settings.now) × (needed_of (slots_of settings.now) ≤ D.extent disk.new)) }
    ensures capacity { vec_capacity exchanges.new ≡ vec_capacity exchanges.old }
    ensures refused { IfErr result (λ fault. (seen : ℕ → ℕ) → Sees (D.media disk.old) seen
        → RefusesStore settings.now (D.extent disk.old) seen (D.media disk.new) fault) }
    ensures small { IfErr result (IsSmallBy settings.now (D.extent disk.old)) }
    ensures unwritten { IfErr result (λ fault. (seen : ℕ → ℕ) → fault ≢ JournalFault.DiskFault → RestsWith (D.media disk.old) (Is seen)
        → RestsWith (D.media disk.new) (Is seen) ⊎ ((entries : List Entry) × HasEntries settings.now seen entries)) }
    ensures extent { D.extent disk.new ≡ D.extent disk.old }
    ensures cause { Caused (D.faults disk.old) (D.faults disk.new) result }
    ensures beside { D.beside disk.old disk.new }
{
    let (journal, entries) = Journal::recover(alloc, disk, settings)?;
    let _used = journal.used();
    take_all(exchanges, &journal, entries.items())?;
    Ok(journal)
}
