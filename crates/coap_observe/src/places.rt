//! Slots in an order, found by their places.

ghost use Rattle.std.specs.Prelude.{◌≡◌, ◌+◌, ◌<◌, ◌∷◌, [], ◌++◌, true, false, length, IfOk, None, nat_lt, replicate, slice_index_or, slice_set};
ghost use Rattle.coap_observe.specs.Orders.{has_slot, without};

use crate::spots::Spots;
use dots_lists::NoMemory;
use std::alloc::Global;
use std::marker::Model;
use std::mem;

/// Slots below a room, each once at most, in an order. Each has a position in a row of spots, and a new one gets the first position
/// that wasn't given yet, so that positions rise along the order.
#[derive(Drop)]
pub struct Places {
    spots: Spots,
    /// The position of each slot that is there.
    positions: Vec<usize>,
    /// How many positions were given.
    given: usize,
}

impl Model for Places {
    ghost use Rattle.std.specs.Prelude.{length};
    ghost use Rattle.coap_observe.specs.Places.{PlacesValue, ArePlaced};
    ghost use Rattle.coap_observe.specs.Spots.{filled};

    ghost Value = { PlacesValue };

    ghost view = { λ places. record { room = length places.positions.items; width = length places.spots; given = places.given; slots = filled places.spots } };

    ghost invariant = { λ places. ArePlaced places.spots places.positions.items places.given };
}

impl Places {
    /// No slots, room for those below `room`, and so many positions. This is the only call that takes memory.
    pub fn new(alloc: Global, room: usize, width: usize) -> Result<Self, NoMemory>
        ensures { IfOk result (λ made. made ≡ record { room = room; width = width; given = 0; slots = [] }) }
    {
        let spots = Spots::vacant(alloc, width)?;
        let positions = zeros(alloc, room)?;
        Ok(Places {
            spots,
            positions,
            given: 0,
        })
    }

    /// Whether there is a position that wasn't given.
    pub fn has_more(&self) -> bool
        ensures { result ≡ nat_lt self.now.given self.now.width }
    {
        self.given < self.spots.width()
    }

    /// The slot at this place.
    pub fn at(&self, place: usize) -> usize
        requires { place < length self.now.slots }
        ensures { result ≡ slice_index_or self.now.slots place 0 }
    {
        self.spots.at(place)
    }

    /// One more slot, which is the last.
    pub fn push(&mut self, slot: usize)
        requires below { slot < self.old.room }
        requires left { self.old.given < self.old.width }
        requires new { has_slot slot self.old.slots ≡ false }
        ensures { self.new ≡ record self.old { given = self.old.given + 1; slots = self.old.slots ++ slot ∷ [] } }
    {
        let _width = self.spots.width();
        put(&mut self.spots, self.given, Some(slot));
        self.positions[slot] = self.given;
        self.given += 1;
    }

    /// This slot goes. Its position isn't given again.
    pub fn depart(&mut self, slot: usize)
        requires { has_slot slot self.old.slots ≡ true }
        ensures { self.new ≡ record self.old { slots = without slot self.old.slots } }
    {
        put(&mut self.spots, self.positions[slot], None);
    }

    /// All slots go, and no position is given.
    pub fn clear(&mut self)
        ensures { self.new ≡ record self.old { given = 0; slots = [] } }
    {
        clear(&mut self.spots);
        self.given = 0;
    }
}

fn put(spots: &mut Spots, position: usize, slot: Option<usize>)
    requires { position < length spots.old }
    ensures { spots.new ≡ slice_set spots.old position slot }
{
    let taken = mem::replace(spots, Spots::new());
    let _none = mem::replace(spots, taken.put(position, slot));
}

fn clear(spots: &mut Spots)
    ensures { spots.new ≡ replicate (length spots.old) None }
{
    let taken = mem::replace(spots, Spots::new());
    let _none = mem::replace(spots, taken.cleared());
}

fn zeros(alloc: Global, count: usize) -> Result<Vec<usize>, NoMemory>
    ensures { IfOk result (λ numbers. numbers.items ≡ replicate count 0) }
{
    let mut numbers = Vec::with_capacity(alloc, count)?;
    for _ in 0..count {
        numbers.push_reserved(0);
    }
    Ok(numbers)
}
