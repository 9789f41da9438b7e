//! The loop over the events of a wire.

ghost use Rattle.std.specs.Prelude.{◌≡◌, ◌≤◌, ◌^◌, List, false, length, IfErr};
ghost use Rattle.dots_host.specs.Causes.{Rose};
ghost use Rattle.dots_host.specs.Runs.{Added, Trace, resting};
ghost use Rattle.dots_host.specs.declared.TheConstants.{MAX_EVENT_BYTES};
ghost use Rattle.dots_host.specs.Stopping.{StopsBy, until, is_over_by};

use crate::MAX_EVENT_BYTES;
use crate::agent::Agent;
use crate::event::What;
use crate::wire::Wire;

/// The most events of a run.
const MAX_EVENTS: u64 = 1 << 40;

/// Why no further event is taken.
#[derive(Clone, Copy)]
pub enum Stop {
    /// The end came.
    End,
    /// The agent has nothing left to do.
    Over,
}

/// What stopped the events before that.
#[derive(Clone, Copy)]
pub enum Halt {
    /// The wire failed.
    NextFailed,
    /// 2^40 events came, and none was the end.
    TooMany,
}

/// Takes one event after the other until the end comes or the agent is over. The room has the bytes of one event.
pub fn take_turns<W: Wire, A: Agent<W>>(
    agent: &mut A,
    wire: &mut W,
    room: &mut [u8],
) -> Result<Stop, Halt>
    requires room { length room.old ≡ MAX_EVENT_BYTES }
    requires begins { A.over agent.old ≡ false }
    ensures came { Added (W.acts wire.old) (W.acts wire.new) (λ more. ((trace : List A) × Trace (until A.over A.step) (resting agent.old) more trace (resting agent.new)) × StopsBy result more) }
    ensures over { A.over agent.new ≡ is_over_by result }
    ensures failed { IfErr result (λ how. how ≡ Halt.NextFailed → Rose (W.faults wire.old) (W.faults wire.new)) }
    ensures leads { W.leads wire.old wire.new }
    ensures later { W.faults wire.old ≤ W.faults wire.new }
{
    for _turn in 0..MAX_EVENTS {
        let got = wire.next(room);
        match got.what {
            What::End => return Ok(Stop::End),
            What::Failed => return Err(Halt::NextFailed),
            _ => agent.turn(wire, &got, room),
        }
        if agent.is_over() {
            return Ok(Stop::Over);
        }
    }
    Err(Halt::TooMany)
}
