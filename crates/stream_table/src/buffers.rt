ghost use Rattle.std.specs.Prelude.{◌≡◌, ℕ, ◌-◌, ◌≤◌, ◌++◌, List, [], length, min, take, drop, IfOk};

use dots_lists::NoMemory;
use std::alloc::Global;

/// What buffers the bytes of a connection that came and aren't answered yet.
pub trait Buffers {
    /// The bytes that are buffered.
    ghost bytes: { Self → List ℕ };

    /// How many bytes it buffers at most.
    ghost most: { ℕ };

    /// One with nothing buffered. `NoMemory` only where its room isn't found.
    fn new(alloc: Global) -> Result<Self, NoMemory>
        ensures { IfOk result (λ made. bytes made ≡ []) };

    /// Takes as many bytes of the piece as there is room for, and answers how many. Takes no memory.
    fn take(&mut self, piece: &[u8]) -> usize
        ensures count { result ≡ min (length piece.now) (most - length (bytes self.old)) }
        ensures held { bytes self.new ≡ bytes self.old ++ take result piece.now };

    /// Drops bytes from the front, those of a request that is answered. Takes no memory.
    fn discard(&mut self, n: usize)
        requires { n ≤ length (bytes self.old) }
        ensures { bytes self.new ≡ drop n (bytes self.old) };

    /// Drops all bytes. Takes no memory.
    fn clear(&mut self)
        ensures { bytes self.new ≡ [] };
}
