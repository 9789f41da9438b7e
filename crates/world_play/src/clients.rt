//! The clients of a world, by their places.

ghost use Rattle.std.specs.Prelude.{◌≡◌, ◌<◌, ◌^◌, ◌++◌, ℕ, List, [], length, map, slice_get, Some, IfOk, OnOk};
ghost use Rattle.std.specs.List.{AllByRecursion, slice_set, range_with_len};
ghost use Rattle.dots_settings.specs.Settings.{SettingsValue};
ghost use Rattle.dots_client.specs.Client.{ClientValue};
ghost use Rattle.dots_world.specs.Worlds.{Drains, new_client};
ghost use Rattle.world_play.specs.Clients.{AskedAt, ReceivedAt, HandedOut, AllHanded};
ghost use Rattle.world_play.specs.Packets.{packet_of};

use crate::asking::ask;
use crate::handing::hand_out;
use crate::sending::post_by;
use dots_client::{Ask, ClientCore, Heard};
use dots_lists::NoMemory;
use dots_world::{Packet, PlanClient};
use std::alloc::Global;

/// The most requests of a client that wait at once.
const ROOM: usize = 16;

/// The clients of a plan, which have asked nothing yet.
pub fn begin_clients(alloc: Global, clients: &[PlanClient]) -> Result<Vec<ClientCore>, NoMemory>
    ensures { IfOk result (λ cores. cores.items ≡ map new_client clients.now) }
{
    let mut cores = Vec::new(alloc);
    for client in clients {
        let core = ClientCore::new(alloc, client.cuid.copy()?, ROOM)?;
        match cores.push(core) {
            Ok(()) => {}
            Err(_) => return Err(NoMemory),
        }
    }
    Ok(cores)
}

/// The client at a place asks, where there is one and it may.
pub fn ask_at(
    alloc: Global,
    clients: &mut Vec<ClientCore>,
    place: u32,
    what: &Ask,
    now: u64,
) -> Result<(), NoMemory>
    ensures asked { OnOk result (AskedAt clients.old.items place what.now now clients.new.items) }
    ensures length { length clients.new.items ≡ length clients.old.items }
{
    let place = place as usize;
    if place >= clients.len() {
        return Ok(());
    }
    let _made = ask(alloc, &mut clients[place], what, now)?;
    Ok(())
}

/// The client at a place gets a packet. A heartbeat is answered, behind the packets.
pub fn receive_at(
    alloc: Global,
    clients: &mut Vec<ClientCore>,
    place: u32,
    behind: bool,
    bytes: &[u8],
    now: u64,
    packets: &mut Vec<Packet>,
) -> Result<(), NoMemory>
    requires there { place < length clients.old.items }
    ensures received { OnOk result (ReceivedAt clients.old.items place behind bytes.now now clients.new.items packets.old.items packets.new.items) }
    ensures length { length clients.new.items ≡ length clients.old.items }
{
    let place_of = place as usize;
    let client = &mut clients[place_of];
    match client.got(bytes, now) {
        Heard::Beat(answer) => post_by(alloc, place, behind, answer.bytes(), packets),
        Heard::NoMemory => Err(NoMemory),
        Heard::Granted { .. } => Ok(()),
        Heard::Withdrawn { .. } => Ok(()),
        Heard::Refused { .. } => Ok(()),
        Heard::Nothing => Ok(()),
    }
}

/// Each client hands out what is due, in the plan's order.
pub fn hand_all_out(
    alloc: Global,
    plan: &[PlanClient],
    clients: &mut Vec<ClientCore>,
    now: u64,
    packets: &mut Vec<Packet>,
) -> Result<(), NoMemory>
    requires few { length plan.now < 2 ^ 32 }
    requires length { length clients.old.items ≡ length plan.now }
    ensures handed { OnOk result (AllHanded plan.now now (range_with_len 0 (length plan.now)) clients.old.items packets.old.items clients.new.items packets.new.items) }
    ensures length { length clients.new.items ≡ length clients.old.items }
{
    let mut place: usize = 0;
    while place < plan.len() {
        hand_out_at(alloc, &plan[place], clients, place as u32, now, packets)?;
        place += 1;
    }
    Ok(())
}

fn hand_out_at(
    alloc: Global,
    plan: &PlanClient,
    clients: &mut Vec<ClientCore>,
    place: u32,
    now: u64,
    packets: &mut Vec<Packet>,
) -> Result<(), NoMemory>
    requires there { place < length clients.old.items }
    ensures handed { OnOk result (HandedOut plan.now now place clients.old.items packets.old.items clients.new.items packets.new.items) }
    ensures length { length clients.new.items ≡ length clients.old.items }
{
    let client = &mut clients[place as usize];
    hand_out(alloc, client, place, plan.behind, now, packets)
}
