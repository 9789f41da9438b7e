//! One ask, whose packets and replies come twice.

ghost use Rattle.std.specs.List.{AllByRecursion};
ghost use Rattle.world_play.specs.Playing.{IsEarly};

use dots_host::{Act, OwnedOut};
use dots_world::WorldEvent;
use std::alloc::Global;
use world_play::{Played, ask_for, play, world_plan};

/// What is seen of a world that was played.
#[derive(Clone, Copy)]
struct Seen {
    packets: usize,
    /// In the ledger of the client that asks.
    granted: usize,
    /// The datagrams of the server.
    sends: usize,
    /// Those with the bytes of the first.
    repeats: usize,
    rows: usize,
}

impl Seen {
    /// Whether one mitigation is granted and filters, both requests had one reply, and so many packets were sent.
    fn is_one_grant(self, packets: usize) -> bool {
        let replied = self.sends == 2 && self.repeats == 2;
        replied && self.granted == 1 && self.rows == 1 && self.packets == packets
    }
}

/// The bytes of a datagram that the server sent.
fn sent_by(act: &Act) -> Option<&[u8]> {
    match act {
        Act::Gave {
            out: OwnedOut::To { bytes, .. },
            ..
        } => Some(bytes.items()),
        _ => None,
    }
}

/// The bytes of the first, or none where there is none.
fn first_sent(acts: &[Act]) -> &[u8] {
    for act in acts {
        if let Some(bytes) = sent_by(act) {
            return bytes;
        }
    }
    &[]
}

/// Whether the act sent these bytes.
fn sends(act: &Act, wanted: &[u8]) -> bool {
    match sent_by(act) {
        Some(bytes) => bytes == wanted,
        None => false,
    }
}

/// What is seen where the client at a place asked.
fn seen_in(played: &Played, place: u32) -> Option<Seen> {
    let acts = played.acts();
    let first = first_sent(acts);
    Some(Seen {
        packets: played.packets().len(),
        granted: played.ledger(place).len(),
        sends: acts.iter().filter(|act| sent_by(act).is_some()).count(),
        repeats: acts.iter().filter(|act| sends(act, first)).count(),
        rows: played.rows().ok()?,
    })
}

/// What is seen after the events.
fn seen_after(alloc: Global, events: &[WorldEvent], place: u32) -> Option<Seen>
    requires early { AllByRecursion IsEarly events.now }
{
    let Ok(plan) = world_plan(alloc) else {
        return None;
    };
    match play(alloc, plan, events) {
        Ok(played) => {
            let seen = seen_in(&played, place);
            played.let_go();
            seen
        }
        Err(_) => None,
    }
}

/// The request and the reply of a client of the server come twice.
fn is_granted_once(alloc: Global) -> Option<bool> {
    let ask = ask_for(alloc, 0, 5).ok()?;
    let events = [
        WorldEvent::Tick { at: 1000 },
        WorldEvent::Ask { client: 0, ask },
        WorldEvent::Deliver { packet: 0 },
        WorldEvent::Deliver { packet: 0 },
        WorldEvent::Deliver { packet: 1 },
        WorldEvent::Deliver { packet: 1 },
    ];
    let seen = seen_after(alloc, &events, 0)?;
    Some(seen.is_one_grant(3))
}

/// The request that the gateway passes on comes to the server twice, with a restart between the two, and the reply that the gateway passes on
/// comes to its client twice.
fn is_granted_once_behind(alloc: Global) -> Option<bool> {
    let ask = ask_for(alloc, 2, 5).ok()?;
    let events = [
        WorldEvent::Tick { at: 1000 },
        WorldEvent::Ask { client: 2, ask },
        WorldEvent::Deliver { packet: 0 },
        WorldEvent::Deliver { packet: 1 },
        WorldEvent::Restart,
        WorldEvent::Deliver { packet: 1 },
        WorldEvent::Deliver { packet: 2 },
        WorldEvent::Deliver { packet: 4 },
        WorldEvent::Deliver { packet: 4 },
    ];
    let seen = seen_after(alloc, &events, 2)?;
    Some(seen.is_one_grant(5))
}

#[test]
fn what_comes_twice_is_granted_once(rt: HostRuntime) {
    assert!(rt; is_granted_once(rt.alloc()) == Some(true));
}

#[test]
fn what_comes_twice_behind_a_gateway_is_granted_once(rt: HostRuntime) {
    assert!(rt; is_granted_once_behind(rt.alloc()) == Some(true));
}
