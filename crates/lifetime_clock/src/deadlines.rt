ghost use Rattle.std.specs.Prelude.{◌≡◌, ◌↔◌, [], None, IfOk, IsOk, IfSome, IfNone, Some};
ghost use Rattle.lifetime_clock.specs.Times.{IsMap, HasRoomFor, Updates, NothingIsDue, IsNextDue};

use crate::tree::{Branch, Split, Tree};
use dots_lists::NoMemory;
use std::alloc::Global;
use std::marker::Model;
use std::mem;

/// The times at which keys are due, with room for a number of keys that is set at the start.
///
/// A key is any number, and has at most one time. Times are in whatever unit the caller counts in. Each call but `new`
/// takes time that grows with the logarithm of the number of keys.
#[derive(Debug, Drop)]
pub struct Deadlines {
    /// Keys with their times.
    tree: Tree,
    /// Branches that hold no key, one for each further key that there is room for.
    spare: Vec<Box<Branch>>,
    room: usize,
}

impl Model for Deadlines {
    ghost use Rattle.std.specs.Prelude.{◌≡◌, ◌+◌, ◌≤◌, length, vec_capacity};
    ghost use Rattle.lifetime_clock.specs.Times.{Times};
    ghost use Rattle.lifetime_clock.specs.Tree.{KeysRise};

    ghost Value = { Times };

    ghost view = { λ deadlines. record { room = deadlines.room; entries = deadlines.tree } };

    ghost invariant = { λ deadlines.
        KeysRise deadlines.tree
        × (length deadlines.tree + length deadlines.spare.items ≡ deadlines.room)
        × (deadlines.room ≤ vec_capacity deadlines.spare) };
}

impl Deadlines {
    /// No keys, and room for so many; `NoMemory` only where that room isn't found. No room is always found.
    pub fn new(alloc: Global, room: usize) -> Result<Self, NoMemory>
        ensures ok { IfOk result (λ made. made ≡ record { room = room; entries = [] }) }
        ensures no_room { room ≡ 0 → IsOk result }
    {
        let mut spare = Vec::with_capacity(alloc, room)?;
        for _ in 0..room {
            spare.push_reserved(Box::new(alloc, Branch::new())?);
        }
        Ok(Deadlines {
            tree: Tree::new(),
            spare,
            room,
        })
    }

    /// Gives the key this time, in place of the one that it has. The key is there, or there is room for one more.
    pub fn set(&mut self, key: u32, at: u64)
        requires { HasRoomFor self.old key }
        ensures updates { Updates self.old self.new key (Some at) }
        ensures map { IsMap self.new }
    {
        let Split {
            below,
            found,
            above,
        } = mem::replace(&mut self.tree, Tree::new()).split(key);
        match found {
            Some(branch) => {
                let branch = branch.holding(key, at);
                self.tree.store(Tree::join(below, branch, above));
            }
            None => {
                let branch = self.spare.pop().unwrap().holding(key, at);
                self.tree.store(Tree::join(below, branch, above));
            }
        }
    }

    /// Takes the key out, if it is there.
    pub fn clear(&mut self, key: u32)
        ensures updates { Updates self.old self.new key None }
        ensures map { IsMap self.new }
    {
        let Split {
            below,
            found,
            above,
        } = mem::replace(&mut self.tree, Tree::new()).split(key);
        self.tree.store(Tree::merge(below, above));
        if let Some(branch) = found {
            self.spare.push_reserved(branch);
        }
    }

    /// Takes out and answers a key with the least time, exactly where that is at most `now`. Which one, of keys with
    /// equal times, is left open.
    pub fn due(&mut self, now: u64) -> Option<u32>
        ensures none { (result ≡ None) ↔ NothingIsDue self.old now }
        ensures unchanged { IfNone result (self.new ≡ self.old) }
        ensures next { IfSome result (λ key. IsNextDue self.old now key) }
        ensures taken { IfSome result (λ key. Updates self.old self.new key None) }
        ensures map { IsMap self.new }
    {
        if self.tree.is_empty() {
            return None;
        }
        if self.tree.least() > now {
            return None;
        }
        let key = self.tree.least_key();
        self.clear(key);
        Some(key)
    }
}
