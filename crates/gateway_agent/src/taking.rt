//! How the exchanges of a journal's entries are taken.

ghost use Rattle.std.specs.Prelude.{◌≡◌, ◌≤◌, ◌<◌, ◌^◌, [], length, vec_capacity, OnOk, IfErr};
ghost use Rattle.std.specs.List.{AllByRecursion};
ghost use Rattle.slot_journal.specs.DiskEntries.{HasRecord};
ghost use Rattle.gateway_agent.specs.Exchanges.{IsStore, last_time, most_young};
ghost use Rattle.gateway_agent.specs.Forms.{entries_of};
ghost use Rattle.gateway_agent.specs.Refusing.{Joining, RefusesEntries};

use crate::form::exchange_in;
use crate::order::{joins, most_young};
use dots_gateway::Exchange;
use dots_history::Entry;
use slot_journal::{Journal, JournalFault};

/// The exchange of an entry, where it is one and joins those before it.
fn joining(before: &[Exchange], most: usize, entry: &Entry) -> Option<Exchange>
    requires store { IsStore most before.now }
    requires some { 0 < most }
    ensures { Joining most before.now entry.now result }
{
    let exchange = exchange_in(entry)?;
    if !joins(before, most, &exchange) {
        return None;
    }
    Some(exchange)
}

/// Takes the exchanges of the entries of a journal, which are as many as slots are in use. Takes no memory.
///
/// # Errors
///
/// `NotOurs` with the place of the first entry that is no exchange, or that doesn't join those before it.
pub fn take_all(
    exchanges: &mut Vec<Exchange>,
    journal: &Journal,
    entries: &[Entry],
) -> Result<(), JournalFault>
    requires first { exchanges.old.items ≡ [] }
    requires room { length entries.now ≤ vec_capacity exchanges.old }
    requires each { AllByRecursion HasRecord entries.now }
    requires used { journal.now.used ≡ length entries.now }
    requires slots { 8 < journal.now.slots }
    ensures store { OnOk result (IsStore (most_young journal.now.slots) exchanges.new.items) }
    ensures taken { OnOk result (entries.now ≡ entries_of exchanges.new.items) }
    ensures early { OnOk result (last_time exchanges.new.items < 2 ^ 48) }
    ensures refused { IfErr result (RefusesEntries journal.now entries.now) }
    ensures capacity { vec_capacity exchanges.new ≡ vec_capacity exchanges.old }
{
    let most = most_young(journal.slots());
    for slot in 0..journal.used() {
        let entry = &entries[slot as usize];
        let Some(exchange) = joining(exchanges.as_slice(), most, entry) else {
            return Err(JournalFault::NotOurs {
                at: journal.place(slot),
            });
        };
        exchanges.push_reserved(exchange);
    }
    Ok(())
}
