//! Keeping an exchange before its first packet is sent.

ghost use Rattle.std.specs.Prelude.{◌≡◌, ℕ, ◌≤◌, Ok, OnOk, option_to_list};
ghost use Rattle.dots_host.specs.Becoming.{Leaves, RestsWith};
ghost use Rattle.dots_host.specs.Causes.{HasCause};
ghost use Rattle.dots_settings.specs.Settings.{SettingsValue};
ghost use Rattle.slot_store.specs.Layout.{needed_of};
ghost use Rattle.gateway_agent.specs.Exchanges.{IsStore, most_young};
ghost use Rattle.gateway_agent.specs.Stores.{IsOn};
ghost use Rattle.gateway_agent.specs.Passing.{fresh_in};
ghost use Rattle.gateway_agent.specs.Keeping.{CanKeepAll, HasMore, IsMore};

use crate::store::Store;
use dots_gateway::{Exchange, Passed};
use dots_host::Disk;
use slot_journal::DiskFault;

/// The exchange that is new, if one is.
fn fresh_in(said: &Passed) -> Option<Exchange>
    ensures { fresh_in (Ok said.now) ≡ option_to_list result }
{
    match said {
        Passed::Forward { fresh, .. } => *fresh,
        Passed::Reply { .. } | Passed::Nothing | Passed::NoMemory => None,
    }
}

/// Keeps the exchange that is new, if one is. Takes no memory.
///
/// # Errors
///
/// `DiskFault` where the disk's count of faults rose.
pub fn keep_fresh<D: Disk>(store: &mut Store, disk: &mut D, said: &Passed) -> Result<(), DiskFault>
    requires size { needed_of store.old.journal.slots ≤ D.extent disk.old }
    requires can { CanKeepAll store.old (fresh_in (Ok said.now)) }
    requires store { IsStore (most_young store.old.journal.slots) store.old.exchanges }
    ensures moments { (settings : SettingsValue) → RestsWith (D.media disk.old) (IsOn settings store.old)
        → Leaves (D.media disk.old) (D.media disk.new) (HasMore settings (most_young store.old.journal.slots) store.old.exchanges (fresh_in (Ok said.now))) }
    ensures rests { OnOk result ((settings : SettingsValue) → RestsWith (D.media disk.old) (IsOn settings store.old)
        → RestsWith (D.media disk.new) (IsOn settings store.new)) }
    ensures more { OnOk result (IsMore store.old store.new (fresh_in (Ok said.now))) }
    ensures slots { store.new.journal.slots ≡ store.old.journal.slots }
    ensures extent { D.extent disk.new ≡ D.extent disk.old }
    ensures cause { HasCause (D.faults disk.old) (D.faults disk.new) result }
    ensures beside { D.beside disk.old disk.new }
{
    match fresh_in(said) {
        Some(exchange) => return store.keep(disk, &exchange, exchange.time),
        None => return Ok(()),
    }
}
