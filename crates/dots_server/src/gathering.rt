//! Writing texts to a sink, in blocks.

ghost use Rattle.std.specs.Prelude.{◌≡◌, ◌≤◌, ◌<◌, ◌+◌, ◌⊎◌, ℕ, List, [], ◌++◌, length, flat_map, true, false, OnOk, OnErr};
ghost use Rattle.std.specs.Io.KnownBytes.{Appends};
ghost use Rattle.dots_host.specs.Causes.{HasCause};
ghost use Rattle.dots_host.specs.Writing.{AppendsBeginning};
ghost use Rattle.dots_server.specs.Gathering.{Sunk, sunk, HasWritten, Puts};
ghost use Rattle.dots_server.specs.declared.gathering.TheConstants.{BLOCK};

use dots_host::{Failed, Sink, write_all};
use std::marker::Model;

/// How many bytes are gathered before they are written.
pub const BLOCK: usize = 4096;

/// Texts on their way to a sink, gathered in a block. Once the sink has failed nothing more is written.
#[derive(Drop)]
pub struct Gatherer {
    bytes: [u8; BLOCK],
    size: usize,
    failed: bool,
}

impl Model for Gatherer {
    ghost use Rattle.std.specs.Prelude.{◌≤◌, take};
    ghost use Rattle.dots_server.specs.Gathering.{Gathered};

    ghost Value = { Gathered };

    ghost view = { λ gatherer. record { block = take gatherer.size gatherer.bytes; failed = gatherer.failed } };

    ghost invariant = { λ gatherer. gatherer.size ≤ 4096 };
}

impl Gatherer {
    pub fn new() -> Self
        ensures { result ≡ record { block = []; failed = false } }
    {
        Gatherer {
            bytes: [0; BLOCK],
            size: 0,
            failed: false,
        }
    }

    /// Adds the bytes to the block, which has room for them.
    fn gather(&mut self, bytes: &[u8])
        requires { length self.old.block + length bytes.now ≤ BLOCK }
        ensures block { self.new.block ≡ self.old.block ++ bytes.now }
        ensures failed { self.new.failed ≡ self.old.failed }
    {
        let end = self.size + bytes.len();
        self.bytes[self.size..end].copy_from_slice(bytes);
        self.size = end;
    }

    /// Whether the block has room for the bytes.
    fn has_room(&self, bytes: &[u8]) -> bool
        ensures room { result ≡ true → length self.now.block + length bytes.now ≤ BLOCK }
        ensures none { result ≡ false → BLOCK < length self.now.block + length bytes.now }
    {
        bytes.len() <= BLOCK - self.size
    }

    /// Writes what the block has gathered.
    fn flush<K: Sink>(&mut self, sink: &mut K)
        ensures puts { Puts (sunk K.holds K.faults sink.old) self.old (sunk K.holds K.faults sink.new) self.new [] }
        ensures empty { (self.new.failed ≡ true) ⊎ (self.new.block ≡ []) }
    {
        if self.failed {
            return;
        }
        match write_all(sink, &self.bytes[..self.size]) {
            Ok(()) => {
                self.size = 0;
                return;
            }
            Err(Failed) => {
                self.failed = true;
                return;
            }
        }
    }

    /// Writes the bytes, where nothing is gathered.
    fn write<K: Sink>(&mut self, sink: &mut K, bytes: &[u8])
        requires { (self.old.failed ≡ true) ⊎ (self.old.block ≡ []) }
        ensures { Puts (sunk K.holds K.faults sink.old) self.old (sunk K.holds K.faults sink.new) self.new bytes.now }
    {
        if self.failed {
            return;
        }
        match write_all(sink, bytes) {
            Ok(()) => return,
            Err(Failed) => {
                self.failed = true;
                return;
            }
        }
    }

    /// Puts the bytes behind what was put before.
    pub fn put<K: Sink>(&mut self, sink: &mut K, bytes: &[u8])
        ensures { Puts (sunk K.holds K.faults sink.old) self.old (sunk K.holds K.faults sink.new) self.new bytes.now }
    {
        if self.has_room(bytes) {
            return self.gather(bytes);
        }
        self.flush(sink);
        if self.has_room(bytes) {
            return self.gather(bytes);
        }
        self.write(sink, bytes);
    }

    /// Puts the pieces, one after the other.
    pub fn put_all<K: Sink>(&mut self, sink: &mut K, pieces: &[&[u8]])
        ensures { Puts (sunk K.holds K.faults sink.old) self.old (sunk K.holds K.faults sink.new) self.new (flat_map (λ piece. piece.now) pieces.now) }
    {
        for piece in pieces {
            self.put(sink, piece);
        }
    }

    /// Writes what is left, and says whether all went well.
    pub fn finish<K: Sink>(self, sink: &mut K) -> Result<(), Failed>
        ensures { (start : Sunk) (text : List ℕ) → HasWritten start (sunk K.holds K.faults sink.old) self.failed self.block text
            → OnOk result (Appends start.written (K.holds sink.new) text)
            × OnErr result (AppendsBeginning start.written (K.holds sink.new) text) × HasCause start.faults (K.faults sink.new) result }
    {
        let mut gatherer = self;
        gatherer.flush(sink);
        if gatherer.failed {
            return Err(Failed);
        }
        Ok(())
    }
}
