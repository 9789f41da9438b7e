ghost use Rattle.std.specs.Prelude.{◌≡◌, ℕ, List, Option, ◌≤◌, ◌<◌, ◌^◌, length};
ghost use Rattle.dots_host.specs.Causes.{Rose};
ghost use Rattle.dots_host.specs.Acts.{Timed, IsWithin, OnFailed, Adds, taken, given};
ghost use Rattle.dots_host.specs.declared.TheConstants.{MAX_EVENT_BYTES};

use crate::event::Got;
use crate::out::{Out, Sent};

/// The side of a host on which events come and sends leave.
pub trait Wire {
    /// The events taken and the sends given so far, each with the moment of its call, where the wire
    /// tells them.
    ghost acts: { Self → Option (List Timed) };

    /// How many calls were made so far.
    ghost moment: { Self → ℕ };

    /// How often the wire failed.
    ghost faults: { Self → ℕ };

    /// Beside the wire all is as before.
    ghost beside: { Self → Self → Type 0 };

    /// What the wire says of its own calls: such calls led from the one state to the other.
    ghost leads: { Self → Self → Type 0 };

    /// The next event, its bytes at the front of the room, and the time beside it, in seconds below
    /// 2^48. It answers `Failed` only where the count of faults rose.
    fn next(&mut self, into: &mut [u8]) -> Got
        requires { length into.old ≡ MAX_EVENT_BYTES }
        ensures at { result.at < 2 ^ 48 }
        ensures within { IsWithin result.what MAX_EVENT_BYTES }
        ensures acts { Adds (acts self.old) (moment self.old)
            (acts self.new) (moment self.new) (taken result into.new) }
        ensures later { faults self.old ≤ faults self.new }
        ensures cause { OnFailed result.what (Rose (faults self.old) (faults self.new)) }
        ensures beside { beside self.old self.new }
        ensures leads { leads self.old self.new };

    /// Sends. A loss is no fault.
    fn send(&mut self, out: &Out) -> Sent
        ensures acts { Adds (acts self.old) (moment self.old)
            (acts self.new) (moment self.new) (given out.now result) }
        ensures faults { faults self.new ≡ faults self.old }
        ensures beside { beside self.old self.new }
        ensures leads { leads self.old self.new };

    ghost beside_same: { (wire : Self) → beside wire wire };

    ghost beside_then: { (old mid new : Self) → beside old mid → beside mid new → beside old new };

    ghost leads_same: { (wire : Self) → leads wire wire };

    ghost leads_then: { (old mid new : Self) → leads old mid → leads mid new → leads old new };
}
