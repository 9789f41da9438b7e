ghost use Rattle.std.specs.Prelude.{◌≡◌};
ghost use Rattle.dots_host.specs.Becoming.{KeepsMedia, IsMoment};
ghost use Rattle.dots_host.specs.Beside.{KeepsActs};

use crate::disk::Disk;
use crate::wire::Wire;

/// All of the outside that a server with a journal uses: a disk and a wire, which share one count of moments.
///
/// A call of the one side changes nothing of the other. A call of the disk keeps the acts of the wire, unless they
/// are no longer told after it; a call of the wire keeps what the disk holds and what is pending on it.
pub trait Host: Disk + Wire {
    /// Each call of either side is one moment.
    ghost one_moment: { (host : Self) → IsMoment (Self.moment host) (Self.media host) };

    ghost disk_keeps: { (old new : Self) → Self.Disk.beside old new →
        KeepsActs (Self.acts old) (Self.acts new) × (Self.Wire.faults new ≡ Self.Wire.faults old) × Self.leads old new };

    ghost wire_keeps: { (old new : Self) → Self.Wire.beside old new →
        KeepsMedia (Self.media old) (Self.media new) × (Self.extent new ≡ Self.extent old)
        × (Self.Disk.faults new ≡ Self.Disk.faults old) };
}
