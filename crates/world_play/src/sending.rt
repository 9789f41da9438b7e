//! What was sent, as packets.

ghost use Rattle.std.specs.Prelude.{◌≡◌, ◌<◌, ◌≤◌, ◌^◌, ◌++◌, [], ◌∷◌, length, drop, flat_map, OnOk};
ghost use Rattle.world_play.specs.Calls.{given_in};
ghost use Rattle.world_play.specs.Packets.{packets_in, packet_of, IsInner, AreRouted};

use crate::parties::Parties;
use dots_host::{Act, Bytes, NoMemory, Out, OwnedOut, Sent, Tape};
use dots_world::{Packet, Party};
use std::alloc::Global;

/// The calls behind the first so many.
pub fn since(calls: &[Act], before: usize) -> &[Act]
    requires { before ≤ length calls.now }
    ensures { result.now ≡ drop before calls.now }
{
    &calls[before..]
}

/// Puts behind the packets what the source sent by these calls.
pub fn post(
    parties: &Parties,
    source: Party,
    calls: &[Act],
    packets: &mut Vec<Packet>,
) -> Result<(), NoMemory>
    requires few { length parties.now.clients < 2 ^ 32 }
    requires inner { IsInner source }
    ensures posted { OnOk result (packets.new.items ≡ packets.old.items ++ flat_map (packets_in parties.now source) calls.now) }
    ensures routed { OnOk result (AreRouted parties.now packets.old.items packets.new.items) }
{
    for call in calls {
        post_call(parties, source, call, packets)?;
    }
    Ok(())
}

fn post_call(
    parties: &Parties,
    source: Party,
    call: &Act,
    packets: &mut Vec<Packet>,
) -> Result<(), NoMemory>
    requires few { length parties.now.clients < 2 ^ 32 }
    ensures { OnOk result (packets.new.items ≡ packets.old.items ++ packets_in parties.now source call.now) }
{
    let Act::Gave { out, .. } = call else {
        return Ok(());
    };
    let OwnedOut::To { peer, bytes } = out else {
        return Ok(());
    };
    let packet = Packet {
        source,
        target: parties.target(source, *peer),
        bytes: bytes.copy()?,
    };
    match packets.push(packet) {
        Ok(()) => Ok(()),
        Err(_) => Err(NoMemory),
    }
}

/// Puts behind the acts what was sent by these calls.
pub fn tell(alloc: Global, calls: &[Act], acts: &mut Tape) -> Result<(), NoMemory>
    ensures { OnOk result (acts.new.acts ≡ acts.old.acts ++ flat_map given_in calls.now) }
{
    for call in calls {
        tell_call(alloc, call, acts)?;
    }
    Ok(())
}

fn tell_call(alloc: Global, call: &Act, acts: &mut Tape) -> Result<(), NoMemory>
    ensures { OnOk result (acts.new.acts ≡ acts.old.acts ++ given_in call.now) }
{
    let Act::Gave { out, .. } = call else {
        return Ok(());
    };
    let out = match out {
        OwnedOut::To { peer, bytes } => Out::To {
            peer: *peer,
            bytes: bytes.items(),
        },
        OwnedOut::Conn { conn, bytes } => Out::Conn {
            conn: *conn,
            bytes: bytes.items(),
        },
        OwnedOut::Close { conn } => Out::Close { conn: *conn },
    };
    if acts.record_given(alloc, &out, Sent::Done) {
        return Ok(());
    }
    Err(NoMemory)
}

/// Puts a message of the client at a place behind the packets.
pub fn post_by(
    alloc: Global,
    place: u32,
    behind: bool,
    message: &[u8],
    packets: &mut Vec<Packet>,
) -> Result<(), NoMemory>
    ensures { OnOk result (packets.new.items ≡ packets.old.items ++ packet_of place behind message.now ∷ []) }
{
    let target = if behind {
        Party::Gateway
    } else {
        Party::Server
    };
    let packet = Packet {
        source: Party::Client(place),
        target: Some(target),
        bytes: Bytes::from_slice(alloc, message)?,
    };
    match packets.push(packet) {
        Ok(()) => Ok(()),
        Err(_) => Err(NoMemory),
    }
}
