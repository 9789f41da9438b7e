//! The events of a generated world.

ghost use Rattle.std.specs.Prelude.{◌≡◌, ◌==◌, ◌<◌, ◌≤◌, ◌%◌, ◌^◌, if◌then◌else◌, IfOk};
ghost use Rattle.dots_world.specs.declared.event.WorldEvent.TheVariants as event;
ghost use Rattle.dots_load.specs.Draws.{next, high};
ghost use Rattle.world_play.specs.Playing.{IsEarly};
ghost use Rattle.world_play.specs.Drawing.{raise, number_among, event_by};

use crate::asks::ask_for;
use dots_lists::NoMemory;
use dots_load::Draws;
use dots_world::WorldEvent;
use std::alloc::Global;

/// The three draws of an event.
#[derive(Clone, Copy)]
pub struct Drawn {
    pub first: u32,
    pub second: u32,
    pub third: u32,
}

impl Drawn {
    /// The next three draws.
    pub fn next(draws: &mut Draws) -> Self
        ensures number { draws.new.number ≡ next (next (next draws.old.number)) }
        ensures first { result.first ≡ high (next draws.old.number) }
        ensures second { result.second ≡ high (next (next draws.old.number)) }
        ensures third { result.third ≡ high (next (next (next draws.old.number))) }
    {
        let first = draws.draw();
        let second = draws.draw();
        let third = draws.draw();
        Drawn {
            first,
            second,
            third,
        }
    }

    /// By how many seconds the event raises the time.
    pub fn raise(self) -> u64
        ensures raise { result ≡ raise self }
        ensures small { result ≤ 30 }
    {
        if self.first % 8 == 1 {
            return u64::from(self.third % 30);
        }
        if self.first % 8 == 2 && self.third % 16 > 1 {
            return 1;
        }
        0
    }

    /// The event, where it is `time` behind it, in seconds, and so many packets were sent before.
    pub fn event(self, alloc: Global, time: u64, packets: usize) -> Result<WorldEvent, NoMemory>
        requires early { time < 2 ^ 48 }
        ensures event { IfOk result (λ event. event ≡ event_by self time packets) }
        ensures early { IfOk result IsEarly }
    {
        let kind = self.first % 8;
        if kind == 0 {
            let client = self.second % 3;
            let ask = ask_for(alloc, client, self.third)?;
            return Ok(WorldEvent::Ask { client, ask });
        }
        if kind == 2 && self.third % 16 < 2 {
            return Ok(self.restart());
        }
        if kind < 3 {
            return Ok(WorldEvent::Tick { at: time });
        }
        let packet = self.number_among(packets);
        Ok(WorldEvent::Deliver { packet })
    }

    /// A restart of the server, or of the gateway.
    fn restart(self) -> WorldEvent
        ensures { result ≡ (if self.third % 16 == 0 then event.Restart else event.GatewayRestart) }
    {
        if self.third % 16 == 0 {
            return WorldEvent::Restart;
        }
        WorldEvent::GatewayRestart
    }

    /// The number of one of so many packets, or 0 where there are none.
    fn number_among(self, packets: usize) -> u64
        ensures { result ≡ number_among self packets }
    {
        let number = 256 * u64::from(self.second) + u64::from(self.third);
        number % (packets as u64).max(1)
    }
}
