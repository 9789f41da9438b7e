//! Laws of generated worlds. No program needs to call these functions.

ghost use Rattle.std.specs.Prelude.{◌≡◌, ℕ, List, []};
ghost use Rattle.dots_machine.specs.Machine.{State, Step, begun_from};
ghost use Rattle.dots_world.specs.Plans.{Plan};
ghost use Rattle.dots_world.specs.Worlds.{World, begun, Runs};
ghost use Rattle.dots_world.specs.OneWorld.{RunsWell};
ghost use Rattle.dots_world.specs.declared.event.WorldEvent.{WorldEvent};
ghost use Rattle.world_play.specs.Running.{RunsFrom};
ghost use Rattle.world_play.specs.Report.{WorldReported};

/// A run of a generated world is a run of a world in which nobody lacks memory (`well`), and so a run of a world, of which the laws of
/// [`dots_world`] are (`run`).
pub fn generated_runs_are_runs()
    ensures well { (seed : ℕ) (plan : Plan) (events : List WorldEvent) (world : World State) → RunsFrom seed plan events world
        → RunsWell (Step plan.settings) plan (begun plan (begun_from plan.settings [])) events world }
    ensures run { (seed : ℕ) (plan : Plan) (events : List WorldEvent) (world : World State) → RunsFrom seed plan events world
        → Runs (Step plan.settings) plan (begun plan (begun_from plan.settings [])) events world }
{}

/// A seed has one report: two texts that are reports of its generated world are the same.
pub fn one_report()
    ensures { (seed : ℕ) (text other : List ℕ) → WorldReported seed text → WorldReported seed other → text ≡ other }
{}
