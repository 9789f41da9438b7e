//! Several orders of slots over the same links.

ghost use Rattle.std.specs.Prelude.{◌≡◌, ℕ, ◌+◌, ◌-◌, ◌^◌, ◌<◌, ◌∷◌, [], true, length, IfOk, get_or, slice_index_or};
ghost use Rattle.coap_observe.specs.Orders.{has_slot};
ghost use Rattle.coap_observe.specs.declared.rings.Ring.{Ring};
ghost use Rattle.coap_observe.specs.Rings.{RingsValue, ring_at, begun, with_ring, one_more, one_less, IsOutside, counted, discounted, numbers_from, rings_from};

use crate::order::link;
use dots_lists::NoMemory;
use std::alloc::Global;
use std::marker::Model;

/// Where an order begins, and how many slots it has.
#[derive(Clone, Copy)]
struct Ring {
    /// The one behind it is the first slot, and the one before it is the last.
    start: usize,
    count: usize,
}

/// Several orders of slots below a room, each slot in one of them at most.
#[derive(Drop)]
pub struct Rings {
    /// The slot behind each; behind the start of an order is its first one, and behind its last one is the start.
    behind: Vec<usize>,
    /// The slot before each; before the start of an order is its last one, and before its first one is the start.
    before: Vec<usize>,
    rings: Vec<Ring>,
    room: usize,
}

impl Model for Rings {
    ghost use Rattle.std.specs.Prelude.{map};
    ghost use Rattle.coap_observe.specs.Rings.{RingsValue, ring_of, AreRings};

    ghost Value = { RingsValue };

    ghost view = { λ r. record { room = r.room; rings = map (ring_of r.behind.items) r.rings.items } };

    ghost invariant = { λ r. AreRings r.behind.items r.before.items r.rings.items r.room };
}

impl Rings {
    /// So many orders without slots, and room for slots below `room`. This is the only call that takes memory.
    pub fn new(alloc: Global, room: usize, count: usize) -> Result<Self, NoMemory>
        ensures { IfOk result (λ made. made ≡ record { room = room; rings = begun room count }) }
    {
        let Some(size) = room.checked_add(count) else {
            return Err(NoMemory);
        };
        let behind = numbers(alloc, size)?;
        let before = numbers(alloc, size)?;
        let rings = rings_from(alloc, room, count)?;
        Ok(Rings {
            behind,
            before,
            rings,
            room,
        })
    }

    /// How many slots the order at this place has.
    pub fn len(&self, at: usize) -> usize
        requires { at < length self.now.rings }
        ensures { result ≡ length (ring_at at self.now.rings).slots }
    {
        self.rings[at].count
    }

    /// Where the order at this place begins: the one behind it is the first slot.
    pub fn start(&self, at: usize) -> usize
        requires { at < length self.now.rings }
        ensures { result ≡ (ring_at at self.now.rings).start }
    {
        self.rings[at].start
    }

    /// The slot at this place of the order, which stands behind the one before it, or behind the start.
    pub fn behind(&self, at: usize, slot: usize, place: usize) -> usize
        requires at { at < length self.now.rings }
        requires there { place < length (ring_at at self.now.rings).slots }
        requires before { slot ≡ slice_index_or ((ring_at at self.now.rings).start ∷ (ring_at at self.now.rings).slots) place 0 }
        ensures { result ≡ slice_index_or (ring_at at self.now.rings).slots place 0 }
    {
        self.behind[slot]
    }

    /// One more slot of the order, which is its last.
    pub fn push(&mut self, at: usize, slot: usize)
        requires at { at < length self.old.rings }
        requires below { slot < self.old.room }
        requires few { length (ring_at at self.old.rings).slots < 2 ^ 64 - 1 }
        requires outside { IsOutside slot self.old.rings }
        ensures { self.new ≡ record { room = self.old.room; rings = with_ring at (one_more slot) self.old.rings } }
    {
        let start = self.rings[at].start;
        let last = self.before[start];
        link(&mut self.behind, &mut self.before, last, slot);
        link(&mut self.behind, &mut self.before, slot, start);
        count_more(&mut self.rings, at);
    }

    /// This slot of the order goes.
    pub fn depart(&mut self, at: usize, slot: usize)
        requires at { at < length self.old.rings }
        requires there { has_slot slot (ring_at at self.old.rings).slots ≡ true }
        ensures others { self.new ≡ record { room = self.old.room; rings = with_ring at (one_less slot) self.old.rings } }
        ensures outside { IsOutside slot self.new.rings }
    {
        let before = self.before[slot];
        let behind = self.behind[slot];
        link(&mut self.behind, &mut self.before, before, behind);
        count_less(&mut self.rings, at);
    }
}

fn count_more(rings: &mut Vec<Ring>, at: usize)
    requires at { at < length rings.old.items }
    requires few { (ring : Ring) → (get_or rings.old.items at ring).count < 2 ^ 64 - 1 }
    ensures { rings.new.items ≡ with_ring at counted rings.old.items }
{
    rings[at].count += 1;
}

fn count_less(rings: &mut Vec<Ring>, at: usize)
    requires at { at < length rings.old.items }
    requires some { (ring : Ring) → 0 < (get_or rings.old.items at ring).count }
    ensures { rings.new.items ≡ with_ring at discounted rings.old.items }
{
    rings[at].count -= 1;
}

/// The numbers below this one, in order.
fn numbers(alloc: Global, count: usize) -> Result<Vec<usize>, NoMemory>
    ensures { IfOk result (λ numbers. numbers.items ≡ numbers_from 0 count) }
{
    let mut numbers = Vec::with_capacity(alloc, count)?;
    for number in 0..count {
        numbers.push_reserved(number);
    }
    Ok(numbers)
}

/// So many rings without slots, which start at the numbers from this one on.
fn rings_from(alloc: Global, start: usize, count: usize) -> Result<Vec<Ring>, NoMemory>
    requires { start + count < 2 ^ 64 }
    ensures { IfOk result (λ rings. rings.items ≡ rings_from start count) }
{
    let mut rings = Vec::with_capacity(alloc, count)?;
    for place in 0..count {
        rings.push_reserved(Ring {
            start: start + place,
            count: 0,
        });
    }
    Ok(rings)
}
