//! A client hands out what is due.

ghost use Rattle.std.specs.Prelude.{◌≡◌, ◌++◌, ℕ, List, map, is_some, option_to_list, IfOk, OnOk};
ghost use Rattle.dots_client.specs.Client.{tick_answer, tick_after};
ghost use Rattle.dots_world.specs.Worlds.{Drains};
ghost use Rattle.world_play.specs.Packets.{packet_of};

use crate::sending::post_by;
use dots_client::ClientCore;
use dots_lists::NoMemory;
use dots_world::Packet;
use std::alloc::Global;

/// The client at a place hands out all that is due at the time `now`, in seconds. It is put behind the packets.
pub fn hand_out(
    alloc: Global,
    client: &mut ClientCore,
    place: u32,
    behind: bool,
    now: u64,
    packets: &mut Vec<Packet>,
) -> Result<(), NoMemory>
    ensures { OnOk result ((messages : List (List ℕ)) × Drains now client.old messages client.new
        × (packets.new.items ≡ packets.old.items ++ map (packet_of place behind) messages)) }
{
    while hand_next(alloc, client, place, behind, now, packets)? {}
    Ok(())
}

/// Hands out the next message that is due, and says whether there was one.
fn hand_next(
    alloc: Global,
    client: &mut ClientCore,
    place: u32,
    behind: bool,
    now: u64,
    packets: &mut Vec<Packet>,
) -> Result<bool, NoMemory>
    ensures any { IfOk result (λ any. any ≡ is_some (tick_answer now client.old)) }
    ensures after { client.new ≡ tick_after now client.old }
    ensures posted { OnOk result (packets.new.items ≡ packets.old.items ++ map (packet_of place behind) (option_to_list (tick_answer now client.old))) }
{
    match client.tick(now) {
        Some(bytes) => {
            post_by(alloc, place, behind, bytes.items(), packets)?;
            Ok(true)
        }
        None => Ok(false),
    }
}
