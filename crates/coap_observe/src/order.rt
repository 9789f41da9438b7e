ghost use Rattle.std.specs.Prelude.{◌≡◌, ◌+◌, ◌<◌, ◌≤◌, ◌∷◌, [], ◌++◌, true, false, length, Some, IfOk, slice_get, slice_set, slice_index_or, replicate};
ghost use Rattle.coap_observe.specs.Links.{Each, Distinct, walk};
ghost use Rattle.coap_observe.specs.Orders.{OrderValue, has_slot, without};

use crate::places::Places;
use dots_lists::NoMemory;
use std::alloc::Global;
use std::marker::Model;

/// Slots below a room, each once at most, in an order.
#[derive(Drop)]
pub struct Order {
    /// The slot behind each; behind the room is the first one, and behind the last one is the room.
    behind: Vec<usize>,
    /// The slot before each; before the room is the last one, and before the first one is the room.
    before: Vec<usize>,
    /// The slots by their places.
    places: Places,
    count: usize,
    room: usize,
}

impl Model for Order {
    ghost use Rattle.std.specs.Prelude.{◌≡◌, ◌+◌};
    ghost use Rattle.coap_observe.specs.Links.{walk, IsRing};
    ghost use Rattle.coap_observe.specs.Orders.{OrderValue};

    ghost Value = { OrderValue };

    ghost view = { λ o. record { room = o.room; slots = walk o.count o.behind.items o.room } };

    ghost invariant = { λ o. record {
      ring : IsRing o.behind.items o.before.items o.count o.room;
      placed : o.places.slots ≡ walk o.count o.behind.items o.room;
      room : o.places.room ≡ o.room;
      width : o.places.width ≡ o.room + o.room;
    } };
}

impl Order {
    /// No slots, and room for those below `room`. This is the only call that takes memory.
    pub fn new(alloc: Global, room: usize) -> Result<Self, NoMemory>
        ensures { IfOk result (λ made. made ≡ record { room = room; slots = [] }) }
    {
        let Some(width) = room.checked_add(room) else {
            return Err(NoMemory);
        };
        let places = Places::new(alloc, room, width)?;
        let behind = links_to(alloc, room)?;
        let before = links_to(alloc, room)?;
        Ok(Order {
            behind,
            before,
            places,
            count: 0,
            room,
        })
    }

    /// How many slots there are.
    pub fn len(&self) -> usize
        ensures { result ≡ length self.now.slots }
    {
        self.count
    }

    /// Where the order begins: the one behind it is the first slot.
    pub fn start(&self) -> usize
        ensures { result ≡ self.now.room }
    {
        self.room
    }

    /// The slot at this place, which stands behind the one before it, or behind the start.
    pub fn behind(&self, slot: usize, place: usize) -> usize
        requires there { place < length self.now.slots }
        requires before { slot ≡ slice_index_or (self.now.room ∷ self.now.slots) place 0 }
        ensures value { result ≡ slice_index_or self.now.slots place 0 }
        ensures below { result < self.now.room }
    {
        self.behind[slot]
    }

    /// The slot at this place, which is found in a time that grows with the logarithm of the room.
    pub fn at(&self, place: usize) -> usize
        requires { place < length self.now.slots }
        ensures value { result ≡ slice_index_or self.now.slots place 0 }
        ensures below { result < self.now.room }
    {
        self.places.at(place)
    }

    /// One more slot, which is the last.
    pub fn push(&mut self, slot: usize)
        requires below { slot < self.old.room }
        requires few { length self.old.slots < self.old.room }
        requires new { has_slot slot self.old.slots ≡ false }
        ensures { self.new ≡ record { room = self.old.room; slots = self.old.slots ++ slot ∷ [] } }
    {
        make_room(&mut self.places, &self.behind, self.count, self.room);
        self.places.push(slot);
        let last = self.before[self.room];
        link(&mut self.behind, &mut self.before, last, slot);
        link(&mut self.behind, &mut self.before, slot, self.room);
        self.count += 1;
    }

    /// This slot goes.
    pub fn depart(&mut self, slot: usize)
        requires { has_slot slot self.old.slots ≡ true }
        ensures { self.new ≡ record { room = self.old.room; slots = without slot self.old.slots } }
    {
        self.places.depart(slot);
        let before = self.before[slot];
        let behind = self.behind[slot];
        link(&mut self.behind, &mut self.before, before, behind);
        self.count -= 1;
    }
}

/// Links of the room and of each slot below it to the room.
fn links_to(alloc: Global, room: usize) -> Result<Vec<usize>, NoMemory>
    ensures { IfOk result (λ links. links.items ≡ replicate (room + 1) room) }
{
    let Some(count) = room.checked_add(1) else {
        return Err(NoMemory);
    };
    let mut links = Vec::with_capacity(alloc, count)?;
    for _ in 0..count {
        links.push_reserved(room);
    }
    Ok(links)
}

/// There is a position to give: where all were given, the slots get them anew. They are those that are linked from the room on.
fn make_room(places: &mut Places, behind: &[usize], count: usize, room: usize)
    requires slots { places.old.slots ≡ walk count behind.now room }
    requires few { count < places.old.width }
    requires room { places.old.room ≡ room }
    requires links { length behind.now ≡ room + 1 }
    requires below { Each (λ x. x < room) (walk count behind.now room) }
    requires distinct { Distinct (walk count behind.now room) }
    ensures slots { places.new.slots ≡ places.old.slots }
    ensures room { places.new.room ≡ places.old.room }
    ensures width { places.new.width ≡ places.old.width }
    ensures left { places.new.given < places.new.width }
{
    if places.has_more() {
        return;
    }
    places.clear();
    let mut slot = room;
    for _ in 0..count {
        slot = behind[slot];
        places.push(slot);
    }
}

/// The second stands behind the first.
pub(crate) fn link(behind: &mut Vec<usize>, before: &mut Vec<usize>, first: usize, second: usize)
    requires first { first < length behind.old.items }
    requires second { second < length before.old.items }
    ensures behind { behind.new.items ≡ slice_set behind.old.items first second }
    ensures before { before.new.items ≡ slice_set before.old.items second first }
{
    behind[first] = second;
    before[second] = first;
}
