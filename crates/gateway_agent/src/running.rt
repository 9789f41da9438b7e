//! The loop over the events of a host, and the whole run of a gateway.

ghost use Rattle.std.specs.Prelude.{◌≡◌, ◌≤◌, ℕ, ⊤, List, length, IfErr};
ghost use Rattle.dots_host.specs.Becoming.{RestsWith};
ghost use Rattle.dots_host.specs.Causes.{Rose};
ghost use Rattle.dots_host.specs.Runs.{Owing, Added};
ghost use Rattle.dots_host.specs.declared.TheConstants.{MAX_EVENT_BYTES};
ghost use Rattle.dots_gateway.specs.declared.exchange.Exchange.{Exchange};
ghost use Rattle.slot_store.specs.Gates.{Sees};
ghost use Rattle.slot_store.specs.Layout.{needed_of};
ghost use Rattle.slot_journal.specs.Sizes.{slots_of};
ghost use Rattle.gateway_agent.specs.Crashes.{HasThe};
ghost use Rattle.gateway_agent.specs.Exchanges.{IsStore, most_young};
ghost use Rattle.gateway_agent.specs.Stores.{IsOn};
ghost use Rattle.gateway_agent.specs.Passing.{GatewayState};
ghost use Rattle.gateway_agent.specs.Keeping.{AreJoined, IsFor, IsIn, agent};
ghost use Rattle.gateway_agent.specs.Running.{Came, IsFollowed, StopsFor, Behaves, EndsFor, Completes};

use crate::beginning::{begin, restart};
use crate::stopping::{GatewayEnding, GatewayHalt};
use crate::store::Store;
use crate::turns::take;
use dots_gateway::GatewayCore;
use dots_host::{Host, MAX_EVENT_BYTES, What};
use dots_settings::Settings;
use std::alloc::Global;

/// The most events of a run.
const MAX_EVENTS: u64 = 1 << 40;

/// How many exchanges wait. Takes no memory.
fn waiting_in(core: &GatewayCore, store: &Store) -> usize
    requires { AreJoined core.now store.now }
    ensures { result ≡ length core.now.exchanges.waiting }
{
    core.waiting(0)
}

/// Takes one event after the other, and answers how many exchanges wait when End is taken; else how the events stopped. The room has the
/// bytes of one event.
pub fn take_events<H: Host>(
    alloc: Global,
    core: GatewayCore,
    store: Store,
    host: &mut H,
    settings: &Settings,
    upstream: u32,
    room: &mut [u8],
) -> Result<usize, GatewayHalt>
    requires room { length room.old ≡ MAX_EVENT_BYTES }
    requires of { IsFor settings.now upstream (agent core store) }
    requires joined { AreJoined core store }
    requires size { needed_of (slots_of settings.now) ≤ H.extent host.old }
    // A run of the machine, where the disk rested at the start, or where the acts are told and none is a restart. Where the disk rested, the run
    // survives a crash at any moment.
    ensures came { (start : GatewayState) → IsIn (agent core store) start
        → IsFollowed (RestsWith (H.media host.old) (IsOn settings.now store)) (H.acts host.old) (H.acts host.new)
        → (end : Owing GatewayState) × Came settings.now (most_young (slots_of settings.now)) start result (H.media host.old) (H.media host.new)
        (RestsWith (H.media host.old) (IsOn settings.now store)) (H.acts host.old) (H.acts host.new) end }
    ensures adds { Added (H.acts host.old) (H.acts host.new) (λ _. ⊤) }
    ensures stopped { IfErr result (λ how. StopsFor how (Rose (H.Wire.faults host.old) (H.Wire.faults host.new)) (Rose (H.Disk.faults host.old) (H.Disk.faults host.new))) }
    ensures leads { H.leads host.old host.new }
    ensures later { H.Wire.faults host.old ≤ H.Wire.faults host.new }
{
    let mut core = core;
    let mut store = store;
    for _turn in 0..MAX_EVENTS {
        let got = host.next(room);
        match got.what {
            What::End => return Ok(waiting_in(&core, &store)),
            What::Failed => return Err(GatewayHalt::NextFailed),
            What::Restart => {
                match restart(alloc, core, store, host, settings, upstream, got.at) {
                    Ok(begun) => (core, store) = begun,
                    Err(fault) => return Err(GatewayHalt::Unrecovered(fault)),
                }
            }
            _ => match take(&mut core, &mut store, host, upstream, &got, room) {
                Ok(()) => {}
                Err(_) => return Err(GatewayHalt::DiskFailed),
            },
        }
    }
    Err(GatewayHalt::TooMany)
}

/// The same, with a room of its own.
fn take_all<H: Host>(
    alloc: Global,
    core: GatewayCore,
    store: Store,
    host: &mut H,
    settings: &Settings,
    upstream: u32,
) -> Result<usize, GatewayHalt>
    requires of { IsFor settings.now upstream (agent core store) }
    requires joined { AreJoined core store }
    requires size { needed_of (slots_of settings.now) ≤ H.extent host.old }
    ensures came { (start : GatewayState) → IsIn (agent core store) start
        → IsFollowed (RestsWith (H.media host.old) (IsOn settings.now store)) (H.acts host.old) (H.acts host.new)
        → (end : Owing GatewayState) × Came settings.now (most_young (slots_of settings.now)) start result (H.media host.old) (H.media host.new)
        (RestsWith (H.media host.old) (IsOn settings.now store)) (H.acts host.old) (H.acts host.new) end }
    ensures adds { Added (H.acts host.old) (H.acts host.new) (λ _. ⊤) }
    ensures stopped { IfErr result (λ how. StopsFor how (Rose (H.Wire.faults host.old) (H.Wire.faults host.new)) (Rose (H.Disk.faults host.old) (H.Disk.faults host.new))) }
    ensures leads { H.leads host.old host.new }
{
    let mut room = [0; MAX_EVENT_BYTES];
    take_events(alloc, core, store, host, settings, upstream, &mut room)
}

/// Opens the store on the disk of the host, takes the events until the end, and says how many exchanges wait then; else how it ended. What
/// comes from no client of the settings is passed over, and `upstream` is the peer to which requests are passed on.
pub fn run_gateway<H: Host>(
    alloc: Global,
    settings: &Settings,
    upstream: u32,
    host: &mut H,
) -> GatewayEnding
    // What the run has done, by how it ended.
    ensures machine { Behaves settings.now upstream result (H.extent host.old) (H.media host.old) (H.media host.new) (H.acts host.old) (H.acts host.new) }
    // What must have failed, and what the host says of its own calls.
    ensures ended { EndsFor result (Rose (H.Wire.faults host.old) (H.Wire.faults host.new)) (Rose (H.Disk.faults host.old) (H.Disk.faults host.new)) }
    ensures leads { H.leads host.old host.new }
    // A disk that holds a store is opened, and found again, want of memory and failures aside.
    ensures complete { (seen : ℕ → ℕ) (exchanges : List Exchange) → Sees (H.media host.old) seen → HasThe settings.now exchanges seen
        → IsStore (most_young (slots_of settings.now)) exchanges → needed_of (slots_of settings.now) ≤ H.extent host.old → Completes result }
{
    let (core, store) = match begin(alloc, host, settings, upstream, 0) {
        Ok(begun) => begun,
        Err(fault) => return GatewayEnding::Unopened(fault),
    };
    match take_all(alloc, core, store, host, settings, upstream) {
        Ok(waiting) => return GatewayEnding::Ended { waiting },
        Err(how) => return GatewayEnding::Halted(how),
    }
}
