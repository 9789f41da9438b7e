//! The observers that there are, each under a key that it keeps.

ghost use Rattle.std.specs.Prelude.{◌≡◌, ◌+◌, ◌<◌, ◌≤◌, ◌∷◌, [], ◌++◌, true, false, length, option_copied, option_map, slice_index_or, Some, IfOk};
ghost use Rattle.coap_observe.specs.Observed.{notified, registered_again};
ghost use Rattle.coap_observe.specs.Rolls.{RollValue, keys_of, has_key, one_at, without_key, with_key};

use crate::observed::Observed;
use crate::observer::Observer;
use crate::order::Order;
use crate::seen::SeenList;
use dots_lists::NoMemory;
use slab::Slab;
use std::alloc::Global;
use std::marker::Model;

/// Observers in the order of their registration, each under a key that it keeps. One comes and goes without passing over the others.
#[derive(Drop)]
pub struct Roll {
    ones: Slab<Observed>,
    order: Order,
}

impl Model for Roll {
    ghost use Rattle.std.specs.Prelude.{◌≡◌, ◌≤◌, length};
    ghost use Rattle.slab.specs.Slab.{get, slab_len};
    ghost use Rattle.coap_observe.specs.Rolls.{RollValue, members_of, AreThere};

    ghost Value = { RollValue };

    ghost view = { λ roll. record { room = roll.order.room; members = members_of (get roll.ones) roll.order.slots } };

    ghost invariant = { λ roll. record {
      kept : AreThere (get roll.ones) roll.order.slots;
      count : slab_len roll.ones ≡ length roll.order.slots;
      room : roll.order.room ≡ roll.ones.capacity;
    } };
}

impl Roll {
    /// No observers, and room for `count` at least. This is the only call that takes memory.
    pub fn new(alloc: Global, count: usize) -> Result<Self, NoMemory>
        ensures rows { IfOk result (λ made. made.members ≡ []) }
        ensures room { IfOk result (λ made. count ≤ made.room) }
    {
        let ones = Slab::with_capacity(alloc, count)?;
        let order = Order::new(alloc, ones.capacity())?;
        Ok(Roll { ones, order })
    }

    /// How many there may be; keys are below this number.
    pub fn room(&self) -> usize
        ensures { result ≡ self.now.room }
    {
        self.ones.capacity()
    }

    /// How many there are.
    pub fn len(&self) -> usize
        ensures { result ≡ length self.now.members }
    {
        self.order.len()
    }

    /// The observer under this key.
    pub fn get(&self, key: usize) -> Option<&Observed>
        ensures { option_copied result ≡ one_at key self.now.members }
    {
        self.ones.get(key)
    }

    /// The observer under this key, which is there.
    pub fn one(&self, key: usize) -> &Observed
        requires { has_key key self.now.members ≡ true }
        ensures { one_at key self.now.members ≡ Some result.now }
    {
        &self.ones[key]
    }

    /// Where the order begins: the key behind it is the first one.
    pub fn start(&self) -> usize
        ensures { result ≡ self.now.room }
    {
        self.order.start()
    }

    /// The key at this place, which stands behind the one before it, or behind the start.
    pub fn behind(&self, key: usize, place: usize) -> usize
        requires there { place < length self.now.members }
        requires before { key ≡ slice_index_or (self.now.room ∷ keys_of self.now.members) place 0 }
        ensures { result ≡ slice_index_or (keys_of self.now.members) place 0 }
    {
        self.order.behind(key, place)
    }

    /// The key of the observer at this place.
    pub fn at(&self, place: usize) -> usize
        requires { place < length self.now.members }
        ensures { result ≡ slice_index_or (keys_of self.now.members) place 0 }
    {
        self.order.at(place)
    }

    /// One more observer, which is the last; answers its key.
    pub fn push(&mut self, one: Observed) -> usize
        requires { length self.old.members < self.old.room }
        ensures below { result < self.old.room }
        ensures new { has_key result self.old.members ≡ false }
        ensures last { self.new ≡ record { room = self.old.room; members = self.old.members ++ (result, one) ∷ [] } }
    {
        let key = self.ones.insert_reserved(one);
        self.order.push(key);
        key
    }

    /// The observer under this key goes.
    pub fn remove(&mut self, key: usize)
        requires { has_key key self.old.members ≡ true }
        ensures { self.new ≡ record { room = self.old.room; members = without_key key self.old.members } }
    {
        let _gone = self.ones.remove(key);
        self.order.depart(key);
    }

    /// The observer under this key was notified of this with this Message ID.
    pub fn notify(&mut self, key: usize, seen: SeenList, id: u16)
        requires { has_key key self.old.members ≡ true }
        ensures { self.new ≡ record { room = self.old.room; members = with_key key (notified id seen) self.old.members } }
    {
        let mut one = self.ones.remove(key);
        one.notify(seen, id);
        self.ones.insert_reserved(one);
    }

    /// The observer under this key is registered again and has seen this in the reply; answers the number of that.
    pub fn register_again(&mut self, key: usize, observer: Observer, seen: SeenList) -> u32
        requires { has_key key self.old.members ≡ true }
        ensures number { Some result ≡ option_map (λ one. one.number) (one_at key self.old.members) }
        ensures again { self.new ≡ record { room = self.old.room; members = with_key key (registered_again observer seen) self.old.members } }
    {
        let mut one = self.ones.remove(key);
        let number = one.register_again(observer, seen);
        self.ones.insert_reserved(one);
        number
    }
}
