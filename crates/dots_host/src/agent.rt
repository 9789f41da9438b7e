ghost use Rattle.std.specs.Prelude.{◌≡◌, ◌<◌, ◌^◌, ℕ, Bool, List, [], length};
ghost use Rattle.dots_host.specs.Acts.{IsWithin, event_of};
ghost use Rattle.dots_host.specs.Runs.{Added, Gives, each_telling};
ghost use Rattle.dots_host.specs.declared.event.Event.{Event};
ghost use Rattle.dots_host.specs.declared.event.Event.TheVariants as event;
ghost use Rattle.dots_host.specs.declared.out.OwnedOut.{OwnedOut};

use crate::event::Got;
use crate::wire::Wire;

/// What handles one event after the other over a wire.
pub trait Agent<W: Wire> {
    /// What an event and the time beside it come to: the sends, each beside the agent that it tells, and the agent after it.
    ghost step: { Self → Event → ℕ → List (Self × OwnedOut) → Self → Type 0 };

    /// Which agents have nothing left to do.
    ghost over: { Self → Bool };

    /// Whether it has nothing left to do, so that no further event is taken.
    fn is_over(&self) -> bool
        ensures { result ≡ over self.now };

    /// Takes one event, its bytes at the front of the room, and gives its sends.
    fn turn(&mut self, wire: &mut W, got: &Got, room: &[u8])
        requires within { IsWithin got.now.what (length room.now) }
        requires early { got.now.at < 2 ^ 48 }
        ensures step { (outs : List OwnedOut) × step self.old (event_of got.now.what room.now) got.now.at (each_telling self.new outs) self.new
            × Added (W.acts wire.old) (W.acts wire.new) (Gives (W.moment wire.old) outs) }
        ensures faults { W.faults wire.new ≡ W.faults wire.old }
        ensures leads { W.leads wire.old wire.new };

    /// The end changes nothing.
    ghost ends: { (agent : Self) (at : ℕ) → step agent event.End at [] agent };

    /// Nor does a failure of the wire.
    ghost fails: { (agent : Self) (at : ℕ) → step agent event.Failed at [] agent };
}
