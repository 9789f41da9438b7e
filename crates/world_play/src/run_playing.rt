//! A generated world is played, one event after the other.

ghost use Rattle.std.specs.Prelude.{◌≡◌, ◌<◌, ◌^◌, ℕ, length, IfOk};
ghost use Rattle.dots_settings.specs.Settings.{SettingsValue};
ghost use Rattle.world_play.specs.Playing.{IsSound, Goes, HappensSo};
ghost use Rattle.world_play.specs.Drawing.{event_by};
ghost use Rattle.world_play.specs.Running.{PlaysDrawn};

use crate::drawing::Drawn;
use crate::played::Played;
use crate::run_plan::world_plan;
use dots_lists::NoMemory;
use dots_load::Draws;
use std::alloc::Global;

/// How many events there are.
const EVENTS: u16 = 2000;

/// In seconds.
const FIRST_TIME: u64 = 1000;

/// Plays the events of a seed.
pub fn play_drawn(alloc: Global, seed: u64) -> Result<Played, NoMemory>
    ensures { IfOk result (λ played. PlaysDrawn seed 2000 played) }
{
    let mut played = begin(alloc)?;
    let mut draws = Draws::new(seed);
    let mut time = FIRST_TIME;
    for _k in 0..EVENTS {
        let drawn = Drawn::next(&mut draws);
        time += drawn.raise();
        match go_on(alloc, played, drawn, time) {
            Ok(next) => played = next,
            Err(NoMemory) => return Err(NoMemory),
        }
    }
    Ok(played)
}

/// A generated world before its first event.
fn begin(alloc: Global) -> Result<Played, NoMemory>
    ensures sound { IfOk result IsSound }
    ensures plays { (seed : ℕ) → IfOk result (λ played. PlaysDrawn seed 0 played) }
{
    let plan = world_plan(alloc)?;
    Played::begin(alloc, plan)
}

/// One event, by its draws; it is `time` behind it, in seconds.
fn go_on(alloc: Global, played: Played, drawn: Drawn, time: u64) -> Result<Played, NoMemory>
    requires sound { IsSound played }
    requires early { time < 2 ^ 48 }
    ensures sound { IfOk result IsSound }
    ensures parties { IfOk result (λ next. next.parties ≡ played.parties) }
    ensures happens { IfOk result (λ next. (settings : SettingsValue) → Goes settings (HappensSo settings played.parties (event_by drawn time (length played.packets))) played next) }
{
    let packets = played.packets().len();
    match drawn.event(alloc, time, packets) {
        Ok(event) => played.happen(&event),
        Err(NoMemory) => {
            played.let_go();
            Err(NoMemory)
        }
    }
}
