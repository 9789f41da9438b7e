ghost use Rattle.std.specs.Prelude.{ℕ, List, Option};
ghost use Rattle.std.specs.Io.{ReadsAtMost};
ghost use Rattle.std.specs.Io.KnownBytes.{ReadConsumes};
ghost use Rattle.dots_host.specs.Causes.{HasCause};

use crate::failed::Failed;

/// Where bytes come from.
pub trait Source {
    /// The bytes that are left, where the source tells them.
    ghost left: { Self → Option (List ℕ) };

    /// How often a read failed.
    ghost faults: { Self → ℕ };

    /// Reads into the front of the room and answers how many bytes came: 0 only at the end, where
    /// there is room.
    fn read(&mut self, into: &mut [u8]) -> Result<usize, Failed>
        ensures bound { ReadsAtMost result into.new }
        ensures bytes { ReadConsumes (left self.old) (left self.new) result into.new }
        ensures cause { HasCause (faults self.old) (faults self.new) result };
}
