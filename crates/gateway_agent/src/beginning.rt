//! How a gateway begins: with the store that its disk holds.

ghost use Rattle.std.specs.Prelude.{◌≡◌, ◌≢◌, ℕ, ◌≤◌, ◌<◌, ◌^◌, ◌⊎◌, List, IfOk, IfErr, OnOk};
ghost use Rattle.dots_host.specs.Becoming.{Leaves, RestsWith};
ghost use Rattle.dots_gateway.specs.declared.exchange.Exchange.{Exchange};
ghost use Rattle.dots_gateway.specs.Routes.{routes_of};
ghost use Rattle.dots_history.specs.declared.entry.Entry.{Entry};
ghost use Rattle.slot_store.specs.Gates.{Sees};
ghost use Rattle.slot_store.specs.Layout.{needed_of};
ghost use Rattle.slot_store.specs.Opening.{Is};
ghost use Rattle.slot_journal.specs.DiskEntries.{HasEntries};
ghost use Rattle.slot_journal.specs.Refused.{Caused};
ghost use Rattle.slot_journal.specs.Sizes.{slots_of};
ghost use Rattle.slot_journal.specs.Untaken.{IsFailure};
ghost use Rattle.slot_journal.specs.declared.fault.JournalFault.{JournalFault};
ghost use Rattle.gateway_agent.specs.Crashes.{HasThe};
ghost use Rattle.gateway_agent.specs.Exchanges.{IsStore, most_young, next_number};
ghost use Rattle.gateway_agent.specs.Refusing.{RefusesStore};
ghost use Rattle.gateway_agent.specs.Stores.{IsOn};
ghost use Rattle.gateway_agent.specs.Passing.{GatewayState, begun, opened, restarted};
ghost use Rattle.gateway_agent.specs.Keeping.{AreJoined, IsFor, IsIn, agent};

use crate::store::Store;
use dots_gateway::GatewayCore;
use dots_host::Disk;
use dots_lists::NoMemory;
use dots_settings::Settings;
use slot_journal::JournalFault;
use std::alloc::Global;

/// The gateway that begins with a store at the time `at`, in seconds. Its young exchanges wait again.
pub fn core_with(
    alloc: Global,
    settings: &Settings,
    upstream: u32,
    store: &Store,
    next: u64,
    at: u64,
) -> Result<GatewayCore, NoMemory>
    requires next { next ≡ next_number store.now.exchanges }
    requires store { IsStore (most_young store.now.journal.slots) store.now.exchanges }
    ensures { IfOk result (λ core. core ≡ (begun (routes_of settings.now) upstream (most_young store.now.journal.slots) store.now.exchanges at).core) }
{
    let mut core = GatewayCore::new(alloc, settings, upstream, store.most_young())?;
    core.restore(store.young(at), next);
    core.pass_time(at);
    Ok(core)
}

/// Opens the store on the disk, and begins with what it holds at the time `at`, in seconds, or at that of the last exchange, if that is
/// later. It takes all memory of the store and of the exchanges that wait.
///
/// # Errors
///
/// Those of [`Store::open`].
pub fn begin<D: Disk>(
    alloc: Global,
    disk: &mut D,
    settings: &Settings,
    upstream: u32,
    at: u64,
) -> Result<(GatewayCore, Store), JournalFault>
    requires early { at < 2 ^ 48 }
    // A disk on which nothing was pending holds the same list at each moment.
    ensures moments { (seen : ℕ → ℕ) (entries : List Entry) → RestsWith (D.media disk.old) (Is seen) → HasEntries settings.now seen entries
        → Leaves (D.media disk.old) (D.media disk.new) (λ image. HasEntries settings.now image entries) }
    // The store has what the disk held, and the disk rests with that. The gateway begins with it.
    ensures opened { IfOk result (λ begun. (seen : ℕ → ℕ) → Sees (D.media disk.old) seen
        → HasThe settings.now begun.1.exchanges seen × RestsWith (D.media disk.new) (IsOn settings.now begun.1)) }
    ensures begun { IfOk result (λ begun. IsFor settings.now upstream (agent begun.0 begun.1)
        × IsIn (agent begun.0 begun.1) (opened settings.now upstream begun.1.exchanges at)) }
    ensures size { OnOk result (needed_of (slots_of settings.now) ≤ D.extent disk.new) }
    // A disk is refused for a cause that it has, and one that holds a store isn't refused.
    ensures refused { IfErr result (λ fault. (seen : ℕ → ℕ) → Sees (D.media disk.old) seen
        → RefusesStore settings.now (D.extent disk.old) seen (D.media disk.new) fault) }
    ensures complete { IfErr result (λ fault. (seen : ℕ → ℕ) (exchanges : List Exchange) → Sees (D.media disk.old) seen → HasThe settings.now exchanges seen
        → IsStore (most_young (slots_of settings.now)) exchanges → needed_of (slots_of settings.now) ≤ D.extent disk.old → IsFailure fault) }
    // Where the disk is refused, and none of its calls failed, nothing was written; or it held a list, and holds it still.
    ensures unwritten { IfErr result (λ fault. (seen : ℕ → ℕ) → fault ≢ JournalFault.DiskFault → RestsWith (D.media disk.old) (Is seen)
        → RestsWith (D.media disk.new) (Is seen) ⊎ ((entries : List Entry) × HasEntries settings.now seen entries)) }
    ensures extent { D.extent disk.new ≡ D.extent disk.old }
    ensures cause { Caused (D.faults disk.old) (D.faults disk.new) result }
    ensures beside { D.beside disk.old disk.new }
{
    let (store, _, next) = Store::open(alloc, disk, settings)?;
    let core = core_with(alloc, settings, upstream, &store, next, at)?;
    Ok((core, store))
}

/// The gateway that begins anew after a restart of its machine, with what is on the disk alone.
///
/// # Errors
///
/// Those of [`begin`].
pub fn restart<D: Disk>(
    alloc: Global,
    core: GatewayCore,
    store: Store,
    disk: &mut D,
    settings: &Settings,
    upstream: u32,
    at: u64,
) -> Result<(GatewayCore, Store), JournalFault>
    requires early { at < 2 ^ 48 }
    requires of { IsFor settings.now upstream (agent core store) }
    ensures restarted { IfOk result (λ begun. (state : GatewayState) → IsIn (agent core store) state → RestsWith (D.media disk.old) (IsOn settings.now store)
        → IsIn (agent begun.0 begun.1) (restarted state at) × RestsWith (D.media disk.new) (IsOn settings.now begun.1)) }
    ensures of { IfOk result (λ begun. IsFor settings.now upstream (agent begun.0 begun.1) × AreJoined begun.0 begun.1) }
    ensures size { OnOk result (needed_of (slots_of settings.now) ≤ D.extent disk.new) }
    ensures moments { RestsWith (D.media disk.old) (IsOn settings.now store)
        → Leaves (D.media disk.old) (D.media disk.new) (HasThe settings.now store.exchanges) }
    // What a gateway left is found again: there may be no memory, or the disk may fail, and else nothing is refused.
    ensures found { IfErr result (λ fault. AreJoined core store → RestsWith (D.media disk.old) (IsOn settings.now store)
        → needed_of (slots_of settings.now) ≤ D.extent disk.old → IsFailure fault) }
    ensures extent { D.extent disk.new ≡ D.extent disk.old }
    ensures cause { Caused (D.faults disk.old) (D.faults disk.new) result }
    ensures beside { D.beside disk.old disk.new }
{
    drop(core);
    drop(store);
    begin(alloc, disk, settings, upstream, at)
}
