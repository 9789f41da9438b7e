ghost use Rattle.std.specs.Prelude.{◌≡◌, ◌≤◌, ◌+◌, ◌++◌, [], length, IfOk};

use dots_lists::NoMemory;
use std::alloc::Global;
use std::marker::Model;

/// A room for bytes that are written one after the other. It never grows.
#[derive(Drop)]
pub struct Room {
    bytes: Vec<u8>,
    most: usize,
}

impl Model for Room {
    ghost use Rattle.std.specs.Prelude.{vec_capacity, ◌≤◌};
    ghost use Rattle.coap_block.specs.Writing.{Written};

    ghost Value = { Written };

    ghost view = { λ room. record { filled = room.bytes.items; most = room.most } };

    ghost invariant = { λ room. room.most ≤ vec_capacity room.bytes };
}

impl Room {
    /// An empty room for so many bytes.
    pub fn new(alloc: Global, most: usize) -> Result<Room, NoMemory>
        ensures { IfOk result (λ room. room ≡ record { filled = []; most = most }) }
    {
        let bytes = Vec::with_capacity(alloc, most)?;
        Ok(Room { bytes, most })
    }

    /// What was written.
    pub fn bytes(&self) -> &[u8]
        ensures { result.now ≡ self.now.filled }
    {
        self.bytes.as_slice()
    }

    /// Begins anew.
    pub fn clear(&mut self)
        ensures { self.new ≡ record self.old { filled = [] } }
    {
        self.bytes.clear();
    }

    /// Writes the bytes behind the others.
    pub fn put(&mut self, bytes: &[u8])
        requires { length self.old.filled + length bytes.now ≤ self.old.most }
        ensures { self.new ≡ record self.old { filled = self.old.filled ++ bytes.now } }
    {
        if self.bytes.extend_from_slice(bytes).is_err() {
            unreachable!();
        }
    }
}
