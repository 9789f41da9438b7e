//! What an event does: first an exchange that is new is kept, and then the sends are given.

ghost use Rattle.std.specs.Prelude.{◌≡◌, ◌≢◌, ◌≤◌, ◌<◌, ◌^◌, ⊤, IfOk, OnOk, OnErr, length};
ghost use Rattle.dots_host.specs.Acts.{IsWithin, event_of};
ghost use Rattle.dots_host.specs.Causes.{HasCause};
ghost use Rattle.dots_host.specs.Runs.{Added};
ghost use Rattle.dots_host.specs.declared.event.Event.TheVariants as event;
ghost use Rattle.dots_settings.specs.Settings.{SettingsValue};
ghost use Rattle.slot_store.specs.Layout.{needed_of};
ghost use Rattle.gateway_agent.specs.Passing.{GatewayState, GoesUp, state_at};
ghost use Rattle.gateway_agent.specs.PassingWell.{GoesUpAs, GoesDownAs, PassesAs, is_enough, is_table_full};
ghost use Rattle.gateway_agent.specs.Keeping.{AreJoined, IsIn, IsSame, agent};
ghost use Rattle.gateway_agent.specs.Turning.{Took, TookBy, BrokeOff, BrokeBy, IsTaken};

use crate::giving::give;
use crate::keeping::keep_fresh;
use crate::refusing::refuse_for;
use crate::store::Store;
use dots_gateway::{GatewayCore, GatewayFault, Passed};
use dots_host::{Got, Host, What};
use slot_journal::DiskFault;

/// Takes one event, its bytes at the front of the room: one step of the machine. An exchange that is new is on the disk before its packet
/// is handed to the host.
///
/// # Errors
///
/// `DiskFault` where the disk's count of faults rose. Then nothing was sent, and neither the gateway nor its store is used again.
pub fn take<H: Host>(
    core: &mut GatewayCore,
    store: &mut Store,
    host: &mut H,
    upstream: u32,
    got: &Got,
    room: &[u8],
) -> Result<(), DiskFault>
    requires within { IsWithin got.now.what (length room.now) }
    requires early { got.now.at < 2 ^ 48 }
    requires taken { IsTaken got.now.what }
    requires upstream { upstream ≡ core.old.upstream }
    requires joined { AreJoined core.old store.old }
    requires size { needed_of store.old.journal.slots ≤ H.extent host.old }
    ensures done { OnOk result ((settings : SettingsValue) (state : GatewayState) → IsIn (agent core.old store.old) state
        → Took settings state (event_of got.now.what room.now) got.now.at (agent core.old store.old) (agent core.new store.new)
        (H.media host.old) (H.media host.new) (H.acts host.old) (H.acts host.new)) }
    ensures failed { OnErr result ((settings : SettingsValue) (state : GatewayState) → IsIn (agent core.old store.old) state
        → BrokeOff settings state (event_of got.now.what room.now) got.now.at (agent core.old store.old)
        (H.media host.old) (H.media host.new) (H.acts host.old) (H.acts host.new)) }
    ensures joined { OnOk result (AreJoined core.new store.new) }
    ensures same { IsSame (agent core.old store.old) (agent core.new store.new) }
    ensures adds { Added (H.acts host.old) (H.acts host.new) (λ _. ⊤) }
    ensures cause { HasCause (H.Disk.faults host.old) (H.Disk.faults host.new) result }
    ensures extent { H.extent host.new ≡ H.extent host.old }
    ensures wire { H.Wire.faults host.new ≡ H.Wire.faults host.old }
    ensures leads { H.leads host.old host.new }
{
    match take_telling(core, store, host, upstream, got, room) {
        Ok(_) => return Ok(()),
        Err(fault) => return Err(fault),
    }
}

/// Takes one event, its bytes at the front of the room: one step of the machine. An exchange that is new is on the disk before its packet
/// is handed to the host. Answers whether memory was enough for all that was to be sent.
///
/// # Errors
///
/// `DiskFault` where the disk's count of faults rose. Then nothing was sent, and neither the gateway nor its store is used again.
pub fn take_telling<H: Host>(
    core: &mut GatewayCore,
    store: &mut Store,
    host: &mut H,
    upstream: u32,
    got: &Got,
    room: &[u8],
) -> Result<bool, DiskFault>
    requires within { IsWithin got.now.what (length room.now) }
    requires early { got.now.at < 2 ^ 48 }
    requires taken { IsTaken got.now.what }
    requires upstream { upstream ≡ core.old.upstream }
    requires joined { AreJoined core.old store.old }
    requires size { needed_of store.old.journal.slots ≤ H.extent host.old }
    ensures done { IfOk result (λ enough. (settings : SettingsValue) (state : GatewayState) → IsIn (agent core.old store.old) state
        → TookBy (λ outs new. PassesAs enough state (event_of got.now.what room.now) got.now.at outs new) settings state (agent core.old store.old) (agent core.new store.new)
        (H.media host.old) (H.media host.new) (H.acts host.old) (H.acts host.new)) }
    ensures failed { OnErr result ((settings : SettingsValue) (state : GatewayState) → IsIn (agent core.old store.old) state
        → BrokeOff settings state (event_of got.now.what room.now) got.now.at (agent core.old store.old)
        (H.media host.old) (H.media host.new) (H.acts host.old) (H.acts host.new)) }
    ensures joined { OnOk result (AreJoined core.new store.new) }
    ensures same { IsSame (agent core.old store.old) (agent core.new store.new) }
    ensures adds { Added (H.acts host.old) (H.acts host.new) (λ _. ⊤) }
    ensures cause { HasCause (H.Disk.faults host.old) (H.Disk.faults host.new) result }
    ensures extent { H.extent host.new ≡ H.extent host.old }
    ensures wire { H.Wire.faults host.new ≡ H.Wire.faults host.old }
    ensures leads { H.leads host.old host.new }
{
    match got.what {
        What::Datagram { from, len } => {
            return take_datagram(core, store, host, upstream, from, &room[..len], got.at);
        }
        _ => {
            core.pass_time(got.at);
            return Ok(true);
        }
    }
}

/// Takes a datagram: one of the upstream goes down, and any other up. Answers whether memory was enough.
fn take_datagram<H: Host>(
    core: &mut GatewayCore,
    store: &mut Store,
    host: &mut H,
    upstream: u32,
    from: u32,
    bytes: &[u8],
    at: u64,
) -> Result<bool, DiskFault>
    requires early { at < 2 ^ 48 }
    requires upstream { upstream ≡ core.old.upstream }
    requires joined { AreJoined core.old store.old }
    requires size { needed_of store.old.journal.slots ≤ H.extent host.old }
    ensures done { IfOk result (λ enough. (settings : SettingsValue) (state : GatewayState) → IsIn (agent core.old store.old) state
        → TookBy (λ outs new. PassesAs enough state (event.Datagram from bytes.now) at outs new) settings state (agent core.old store.old) (agent core.new store.new)
        (H.media host.old) (H.media host.new) (H.acts host.old) (H.acts host.new)) }
    ensures failed { OnErr result ((settings : SettingsValue) (state : GatewayState) → IsIn (agent core.old store.old) state
        → BrokeOff settings state (event.Datagram from bytes.now) at (agent core.old store.old)
        (H.media host.old) (H.media host.new) (H.acts host.old) (H.acts host.new)) }
    ensures joined { OnOk result (AreJoined core.new store.new) }
    ensures same { IsSame (agent core.old store.old) (agent core.new store.new) }
    ensures adds { Added (H.acts host.old) (H.acts host.new) (λ _. ⊤) }
    ensures cause { HasCause (H.Disk.faults host.old) (H.Disk.faults host.new) result }
    ensures extent { H.extent host.new ≡ H.extent host.old }
    ensures wire { H.Wire.faults host.new ≡ H.Wire.faults host.old }
    ensures leads { H.leads host.old host.new }
{
    if from == upstream {
        return Ok(take_down(core, store, host, upstream, bytes, at));
    }
    take_up(core, store, host, upstream, from, bytes, at)
}

/// Takes a datagram of the upstream. The store stays as it is. Answers whether memory was enough.
fn take_down<H: Host>(
    core: &mut GatewayCore,
    store: &Store,
    host: &mut H,
    upstream: u32,
    bytes: &[u8],
    at: u64,
) -> bool
    requires early { at < 2 ^ 48 }
    requires upstream { upstream ≡ core.old.upstream }
    requires joined { AreJoined core.old store.now }
    ensures done { (settings : SettingsValue) (state : GatewayState) → IsIn (agent core.old store.now) state
        → TookBy (λ outs new. GoesDownAs result (state_at state at) bytes.now outs new) settings state (agent core.old store.now) (agent core.new store.now)
        (H.media host.old) (H.media host.new) (H.acts host.old) (H.acts host.new) }
    ensures joined { AreJoined core.new store.now }
    ensures same { IsSame (agent core.old store.now) (agent core.new store.now) }
    ensures adds { Added (H.acts host.old) (H.acts host.new) (λ _. ⊤) }
    ensures disk { H.Disk.faults host.new ≡ H.Disk.faults host.old }
    ensures extent { H.extent host.new ≡ H.extent host.old }
    ensures wire { H.Wire.faults host.new ≡ H.Wire.faults host.old }
    ensures leads { H.leads host.old host.new }
{
    let said = core.down(bytes, at);
    give(host, upstream, &said);
    is_enough(&said)
}

/// Takes a datagram of a peer that isn't the upstream. Answers whether memory was enough.
fn take_up<H: Host>(
    core: &mut GatewayCore,
    store: &mut Store,
    host: &mut H,
    upstream: u32,
    from: u32,
    bytes: &[u8],
    at: u64,
) -> Result<bool, DiskFault>
    requires early { at < 2 ^ 48 }
    requires upstream { upstream ≡ core.old.upstream }
    requires joined { AreJoined core.old store.old }
    requires size { needed_of store.old.journal.slots ≤ H.extent host.old }
    ensures done { IfOk result (λ enough. (settings : SettingsValue) (state : GatewayState) → IsIn (agent core.old store.old) state
        → TookBy (λ outs new. GoesUpAs enough (state_at state at) from bytes.now outs new) settings state (agent core.old store.old) (agent core.new store.new)
        (H.media host.old) (H.media host.new) (H.acts host.old) (H.acts host.new)) }
    ensures failed { OnErr result ((settings : SettingsValue) (state : GatewayState) → IsIn (agent core.old store.old) state
        → BrokeBy (λ outs new. GoesUp (state_at state at) from bytes.now outs new) settings state (agent core.old store.old)
        (H.media host.old) (H.media host.new) (H.acts host.old) (H.acts host.new)) }
    ensures joined { OnOk result (AreJoined core.new store.new) }
    ensures same { IsSame (agent core.old store.old) (agent core.new store.new) }
    ensures adds { Added (H.acts host.old) (H.acts host.new) (λ _. ⊤) }
    ensures cause { HasCause (H.Disk.faults host.old) (H.Disk.faults host.new) result }
    ensures extent { H.extent host.new ≡ H.extent host.old }
    ensures wire { H.Wire.faults host.new ≡ H.Wire.faults host.old }
    ensures leads { H.leads host.old host.new }
{
    match core.up(from, bytes, at) {
        Ok(said) => match keep_fresh(store, host, &said) {
            Ok(()) => {
                give(host, upstream, &said);
                return Ok(true);
            }
            Err(fault) => return Err(fault),
        },
        Err(fault) => {
            refuse_for(host, from, bytes, fault);
            return Ok(is_table_full(fault));
        }
    }
}

/// Whether memory was enough for what is said.
fn is_enough(said: &Passed) -> bool
    ensures { result ≡ is_enough said.now }
{
    match said {
        Passed::NoMemory => false,
        Passed::Nothing | Passed::Reply { .. } | Passed::Forward { .. } => true,
    }
}

/// Whether it was for what isn't passed on.
fn is_table_full(fault: GatewayFault) -> bool
    ensures { result ≡ is_table_full fault }
{
    match fault {
        GatewayFault::TableFull => true,
        GatewayFault::NoMemory => false,
    }
}
