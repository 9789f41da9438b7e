ghost use Rattle.std.specs.Prelude.{◌≡◌, ◌+◌, ◌≤◌, ℕ, Option, length, OnOk, OnErr, IfSome};
ghost use Rattle.dots_host.specs.Causes.{HasCause};
ghost use Rattle.dots_host.specs.Media.{Media, bytes_at, written, IsTorn, settled};
ghost use Rattle.dots_host.specs.Becoming.{Becomes, MayBecome, Stays};

use crate::failed::Failed;

/// A disk of a fixed size, whose bytes a crash may change where they were written since the last sync.
///
/// Between two syncs each written range may hold any bytes after a crash; bytes outside of these ranges hold what
/// a read gives. After a sync that went well a crash leaves what a read gives, until the next write.
pub trait Disk {
    /// The disk at each moment so far, where it tells that.
    ghost media: { Self → Option Media };

    /// Its size in bytes.
    ghost extent: { Self → ℕ };

    /// How often a call of the disk failed.
    ghost faults: { Self → ℕ };

    /// Beside the disk all is as before.
    ghost beside: { Self → Self → Type 0 };

    /// The size in bytes, which never changes.
    fn size(&self) -> u64
        ensures { result ≡ extent self.now };

    /// Reads the bytes from the place `at` on. It fails only where the count of faults rose.
    fn read(&mut self, at: u64, into: &mut [u8]) -> Result<(), Failed>
        requires { at + length into.old ≤ extent self.old }
        ensures bytes { OnOk result (IfSome (media self.old) (λ media.
            into.new ≡ bytes_at media.now.seen at (length into.old))) }
        ensures ok { OnOk result (Becomes (media self.old) (media self.new) Stays) }
        ensures err { OnErr result (MayBecome (media self.old) (media self.new) Stays) }
        ensures extent { extent self.new ≡ extent self.old }
        ensures cause { HasCause (faults self.old) (faults self.new) result }
        ensures beside { beside self.old self.new };

    /// Writes the bytes from the place `at` on. It fails only where the count of faults rose, and may then have
    /// written some of them.
    fn write_at(&mut self, at: u64, bytes: &[u8]) -> Result<(), Failed>
        requires { at + length bytes.now ≤ extent self.old }
        ensures ok { OnOk result (Becomes (media self.old) (media self.new) (λ old new.
            new ≡ written old at bytes.now)) }
        ensures err { OnErr result (MayBecome (media self.old) (media self.new)
            (IsTorn at (length bytes.now))) }
        ensures extent { extent self.new ≡ extent self.old }
        ensures cause { HasCause (faults self.old) (faults self.new) result }
        ensures beside { beside self.old self.new };

    /// Makes all that was written stay after a crash. It fails only where the count of faults rose.
    fn sync(&mut self) -> Result<(), Failed>
        ensures ok { OnOk result (Becomes (media self.old) (media self.new) (λ old new. new ≡ settled old)) }
        ensures err { OnErr result (MayBecome (media self.old) (media self.new) Stays) }
        ensures extent { extent self.new ≡ extent self.old }
        ensures cause { HasCause (faults self.old) (faults self.new) result }
        ensures beside { beside self.old self.new };

    ghost beside_same: { (disk : Self) → beside disk disk };

    ghost beside_then: { (old mid new : Self) → beside old mid → beside mid new → beside old new };
}
