ghost use Rattle.std.specs.Prelude.{◌≡◌, ◌<◌, ◌≤◌, ◌∷◌, [], map, length, option_copied, true, IfOk};
ghost use Rattle.std.specs.List.{list_any};
ghost use Rattle.dots_history.specs.Slots.{Rises};
ghost use Rattle.dots_history.specs.KeptPlaces.{union};
ghost use Rattle.coap_exchange.specs.Firsts.{replace_at};
ghost use Rattle.coap_exchange.specs.Pairs.{pairs_of};
ghost use Rattle.coap_exchange.specs.Rings.{empty_ring, grown, is_ring_of, messages_of, reply_to, noted, all_slots, ring_renumbered};

use crate::message::Message;
use crate::pair::Pair;
use crate::pairs::Pairs;
use crate::ring::Ring;
use dots_history::{MessageKey, SlotList};
use dots_lists::{Bytes, NoMemory};
use dots_settings::Settings;
use std::alloc::Global;
use std::marker::Model;

/// The last accepted messages of each peer and domain, by which repeats are known and get the same reply (RFC 7252,
/// section 4.5).
#[derive(Drop)]
pub struct Remembered {
    pairs: Pairs,
    /// One for each pair, in their order.
    rings: Vec<Ring>,
}

impl Model for Remembered {
    ghost use Rattle.std.specs.Prelude.{◌≡◌, List, map};
    ghost use Rattle.coap_exchange.specs.Rings.{RingValue, pair_of};

    ghost Value = { List RingValue };

    ghost view = { λ remembered. remembered.rings.items };

    ghost invariant = { λ remembered. map pair_of remembered.rings.items ≡ remembered.pairs };
}

impl Remembered {
    /// No messages, and room for `remembered` of each peer of the settings and each domain that it may act for; a gateway
    /// may act for all, and for 65,535, which stands for its own session. This is the only call that takes memory.
    pub fn new(alloc: Global, settings: &Settings) -> Result<Self, NoMemory>
        ensures { IfOk result (λ made. made ≡ map (empty_ring settings.now.limits.remembered) (pairs_of settings.now)) }
    {
        let room = settings.limits().remembered as usize;
        let pairs = Pairs::new(alloc, settings)?;
        let rings = rings_for(alloc, pairs.pairs(), room)?;
        Ok(Remembered { pairs, rings })
    }

    /// Whether messages of this peer for this domain are remembered: the settings let it act for the domain.
    pub fn holds(&self, peer: u32, domain: u16) -> bool
        ensures { result ≡ list_any (is_ring_of peer domain) self.now }
    {
        self.pairs.holds(peer, domain)
    }

    /// Remembers an accepted message of this peer for this domain, which is a pair that the settings gave: its key, when
    /// it was accepted in seconds, where its entry stands in the journal, and its reply. The oldest of the pair goes where
    /// its room is used.
    pub fn note(
        &mut self,
        peer: u32,
        domain: u16,
        key: MessageKey,
        time: u64,
        slot: u32,
        reply: Bytes,
    )
        requires { list_any (is_ring_of peer domain) self.old ≡ true }
        ensures { self.new ≡ noted peer domain (record { key = key; time = time; slot = slot; reply = reply }) self.old }
    {
        let message = Message {
            key,
            time,
            slot,
            reply,
        };
        match self.pairs.place(peer, domain) {
            Some(place) => note_at(&mut self.rings, place, message),
            None => {}
        }
    }

    /// The reply to a repeat of a message at the time `now`, in seconds: that of the last one that is remembered of this
    /// peer and domain, had this Message ID, and may still be repeated, 145 seconds long where it was non-confirmable
    /// and 247 where it was confirmable (RFC 7252, section 4.8.2).
    pub fn look(&self, peer: u32, domain: u16, id: u16, now: u64) -> Option<&[u8]>
        ensures { option_copied result ≡ reply_to id now (messages_of peer domain self.now) }
    {
        match self.pairs.place(peer, domain) {
            Some(place) => self.rings[place].reply_to(id, now),
            None => None,
        }
    }

    /// Puts the slot of each message that is remembered into the list, which has room for them.
    pub fn slots(&self, into: &mut SlotList)
        requires { length (union (all_slots self.now) into.old.items) ≤ into.old.room }
        ensures { into.new ≡ record into.old { items = union (all_slots self.now) into.old.items } }
    {
        put_slots(self.rings.as_slice(), into);
    }

    /// Gives the messages new slots: the slot `keep[i]` becomes the slot `i`, and one that isn't in `keep` stays.
    pub fn moved(&mut self, keep: &[u32])
        requires { Rises keep.now }
        ensures { self.new ≡ map (ring_renumbered keep.now) self.old }
    {
        renumber_rings(&mut self.rings, keep);
    }
}

/// An empty ring for each pair.
fn rings_for(alloc: Global, pairs: &[Pair], room: usize) -> Result<Vec<Ring>, NoMemory>
    requires { 1 ≤ room }
    ensures { IfOk result (λ rings. rings.items ≡ map (empty_ring room) pairs.now) }
{
    let mut rings = Vec::new(alloc);
    for pair in pairs {
        let ring = Ring::new(alloc, *pair, room)?;
        rings.push(ring)?;
    }
    Ok(rings)
}

/// One more message in the ring at this place.
fn note_at(rings: &mut Vec<Ring>, place: usize, message: Message)
    requires { place < length rings.old.items }
    ensures { rings.new.items ≡ replace_at place (λ ring. grown message ring ∷ []) rings.old.items }
{
    rings[place].push(message);
}

fn put_slots(rings: &[Ring], into: &mut SlotList)
    requires { length (union (all_slots rings.now) into.old.items) ≤ into.old.room }
    ensures { into.new ≡ record into.old { items = union (all_slots rings.now) into.old.items } }
{
    for ring in rings {
        ring.slots(into);
    }
}

fn renumber_rings(rings: &mut Vec<Ring>, keep: &[u32])
    requires { Rises keep.now }
    ensures { rings.new.items ≡ map (ring_renumbered keep.now) rings.old.items }
{
    renumber_all(rings.as_mut_slice(), keep);
}

fn renumber_all(rings: &mut [Ring], keep: &[u32])
    requires { Rises keep.now }
    ensures { rings.new ≡ map (ring_renumbered keep.now) rings.old }
{
    for ring in rings.iter_mut() {
        ring.renumber(keep);
    }
}
