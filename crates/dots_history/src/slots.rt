//! Lists of slots.

ghost use Rattle.std.specs.Prelude.{◌≡◌, ◌≤◌, [], length, IfOk, IfSome, MatchOption, insert};
ghost use Rattle.dots_history.specs.Slots.{Rises, placed, number_in};

use dots_lists::NoMemory;
use std::alloc::Global;
use std::marker::Model;

/// A strictly rising list of slots, with room that is taken once.
#[derive(Drop)]
pub struct SlotList {
    slots: Vec<u32>,
    room: usize,
}

impl Model for SlotList {
    ghost use Rattle.std.specs.Prelude.{◌≤◌, vec_capacity};
    ghost use Rattle.dots_history.specs.Slots.{Slots, Rises};

    ghost Value = { Slots };

    ghost view = { λ list. record { items = list.slots.items; room = list.room } };

    ghost invariant = { λ list. Rises list.slots.items × (list.room ≤ vec_capacity list.slots) };
}

impl SlotList {
    /// An empty list with room for so many slots.
    pub fn new(alloc: Global, room: usize) -> Result<Self, NoMemory>
        ensures { IfOk result (λ list. list ≡ record { items = []; room = room }) }
    {
        let slots = Vec::with_capacity(alloc, room)?;
        Ok(SlotList { slots, room })
    }

    /// The slots, in rising order.
    pub fn items(&self) -> &[u32]
        ensures { result.now ≡ self.now.items }
    {
        self.slots.as_slice()
    }

    /// Puts a slot into its place, where it isn't there; there is room for it then. Takes no memory.
    #[tactic(auto, using(crate::proofs::Placing::rises_placed))]
    pub fn put(&mut self, slot: u32)
        requires { length (placed slot self.old.items) ≤ self.old.room }
        ensures { self.new ≡ record self.old { items = placed slot self.old.items } }
    {
        if let Some(place) = place_of(self.slots.as_slice(), slot) {
            self.slots.insert(place, slot).unwrap();
        }
    }

    /// Empties the list. Takes no memory, and gives none back.
    pub fn clear(&mut self)
        ensures { self.new ≡ record self.old { items = [] } }
    {
        self.slots.clear();
    }
}

/// The place of a slot that isn't among these: before the first that is above it.
fn place_of(slots: &[u32], slot: u32) -> Option<usize>
    ensures bound { IfSome result (λ place. place ≤ length slots.now) }
    ensures placed { MatchOption result (placed slot slots.now ≡ slots.now) (λ place. placed slot slots.now ≡ insert slots.now place slot) }
{
    for (place, other) in slots.iter().enumerate() {
        if *other == slot {
            return None;
        }
        if *other > slot {
            return Some(place);
        }
    }
    Some(slots.len())
}

/// The place of a slot in the list, which is its new number; the slot itself where it isn't there.
pub fn number_in(keep: &[u32], slot: u32) -> u32
    requires { Rises keep.now }
    ensures { result ≡ number_in keep.now slot }
{
    match keep.binary_search(&slot) {
        Ok(place) => place as u32,
        Err(_) => slot,
    }
}
