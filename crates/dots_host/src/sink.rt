ghost use Rattle.std.specs.Prelude.{ℕ, List, Option, ◌<◌, length, IfOk};
ghost use Rattle.std.specs.Io.{WritesAtMost};
ghost use Rattle.std.specs.Io.KnownBytes.{WriteAppends};
ghost use Rattle.dots_host.specs.Causes.{HasCause};

use crate::failed::Failed;

/// Where bytes go. Nothing is held back.
pub trait Sink {
    /// The bytes that it holds, where the sink tells them.
    ghost holds: { Self → Option (List ℕ) };

    /// How often a write failed.
    ghost faults: { Self → ℕ };

    /// Writes from the front of the bytes and answers how many it took: at least 1 where there are
    /// any.
    fn write(&mut self, bytes: &[u8]) -> Result<usize, Failed>
        ensures bound { WritesAtMost result bytes.now }
        ensures progress { 0 < length bytes.now → IfOk result (λ count. 0 < count) }
        ensures written { WriteAppends (holds self.old) (holds self.new) result bytes.now }
        ensures cause { HasCause (faults self.old) (faults self.new) result };
}
