//! Spots in a row, in a tree that knows how many slots stand on each side of a spot.

ghost use Rattle.std.specs.Prelude.{◌≡◌, ◌∷◌, [], ◌++◌, ◌+◌, ◌<◌, ℕ, None, IfOk, IfNone, IfSome, length, replicate, slice_index_or, slice_set};
ghost use Rattle.coap_observe.specs.Spots.{filled};

use dots_lists::NoMemory;
use std::alloc::Global;
use std::marker::Model;
use std::mem;

/// A spot between those before it and those behind it.
#[cycle(spots)]
#[derive(Drop)]
pub struct Fork {
    slot: Option<usize>,
    /// How many spots the tree has whose root this is, and how many of them have a slot.
    width: usize,
    count: usize,
    left: Spots,
    right: Spots,
}

/// Spots in a row, each of which has a slot or none. Each side of a fork is made with half of the other spots, and none is made later,
/// so a call goes down as many levels as the logarithm of their number says.
#[cycle(spots)]
#[derive(Drop)]
pub struct Spots {
    root: Option<Box<Fork>>,
}

impl Model for Spots {
    ghost use Rattle.std.specs.Prelude.{ℕ, List, Option, length};

    ghost Value = { List (Option ℕ) };

    ghost use Rattle.coap_observe.specs.Rooted.{spots_of, IsCounted};

    ghost view = { λ spots. spots_of spots.root };

    ghost invariant = { λ spots. IsCounted spots.root };

    ghost size = { length };

    ghost use Rattle.coap_observe.specs.Smaller.{deep_le-length};

    ghost size_decreases = { λ spots h. deep_le-length spots.root };
}

impl Spots {
    /// No spots.
    pub fn new() -> Spots
        ensures { result ≡ [] }
    {
        Spots { root: None }
    }

    /// So many spots with no slots. This is the only call that takes memory.
    pub fn vacant(alloc: Global, width: usize) -> Result<Spots, NoMemory>
        ensures { IfOk result (λ spots. spots ≡ replicate width None) }
    {
        if width == 0 {
            return Ok(Spots::new());
        }
        let half = (width - 1) / 2;
        let left = Spots::vacant(alloc, half)?;
        let right = Spots::vacant(alloc, width - 1 - half)?;
        let fork = Box::new(
            alloc,
            Fork {
                slot: None,
                width,
                count: 0,
                left,
                right,
            },
        )?;
        Ok(Spots { root: Some(fork) })
    }

    /// How many spots there are.
    pub fn width(&self) -> usize
        ensures { result ≡ length self.now }
    {
        match &self.root {
            None => 0,
            Some(fork) => fork.width,
        }
    }

    /// How many slots there are.
    pub fn count(&self) -> usize
        ensures { result ≡ length (filled self.now) }
    {
        match &self.root {
            None => 0,
            Some(fork) => fork.count,
        }
    }

    /// The slot before which so many others stand.
    pub fn at(&self, place: usize) -> usize
        requires { place < length (filled self.now) }
        ensures { result ≡ slice_index_or (filled self.now) place 0 }
    {
        let Some(fork) = &self.root else {
            return 0;
        };
        let before = fork.left.count();
        if place < before {
            return fork.left.at(place);
        }
        let place = place - before;
        match fork.slot {
            None => fork.right.at(place),
            Some(slot) if place == 0 => slot,
            Some(_) => fork.right.at(place - 1),
        }
    }

    /// The spot at this position has this slot, or none.
    pub fn put(self, position: usize, slot: Option<usize>) -> Spots
        requires { position < length self }
        ensures { result ≡ slice_set self position slot }
    {
        let Some((left, mut fork, right)) = self.open() else {
            return Spots::new();
        };
        let before = left.width();
        if position < before {
            return Spots::close(left.put(position, slot), fork, right);
        }
        if position > before {
            return Spots::close(left, fork, right.put(position - before - 1, slot));
        }
        fork.slot = slot;
        Spots::close(left, fork, right)
    }

    /// The spots with no slots.
    pub fn cleared(self) -> Spots
        ensures { result ≡ replicate (length self) None }
    {
        let Some((left, mut fork, right)) = self.open() else {
            return Spots::new();
        };
        fork.slot = None;
        Spots::close(left.cleared(), fork, right.cleared())
    }

    /// The spots before the root, the root, and those behind it.
    fn open(self) -> Option<(Spots, Box<Fork>, Spots)>
        ensures none { IfNone result (self ≡ []) }
        ensures parts { IfSome result (λ parts. self ≡ parts.0 ++ parts.1.value.slot ∷ parts.2) }
        ensures width { IfSome result (λ parts. parts.1.value.width ≡ length parts.0 + length parts.2 + 1) }
    {
        let mut fork = self.root?;
        let left = mem::replace(&mut fork.left, Spots::new());
        let right = mem::replace(&mut fork.right, Spots::new());
        Some((left, fork, right))
    }

    /// The spots with this root between these, which it was open between, or others as many as they.
    fn close(left: Spots, mut fork: Box<Fork>, right: Spots) -> Spots
        requires { fork.value.width ≡ length left + length right + 1 }
        ensures { result ≡ left ++ fork.value.slot ∷ right }
    {
        let _width = fork.width;
        fork.count = left.count() + right.count() + own_count(fork.slot);
        fork.left = left;
        fork.right = right;
        Spots { root: Some(fork) }
    }
}

fn own_count(slot: Option<usize>) -> usize
    ensures { result ≡ length (filled (slot ∷ [])) }
{
    match slot {
        None => 0,
        Some(_) => 1,
    }
}
