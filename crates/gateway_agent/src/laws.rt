//! What the definitions come to: each function's contract is a law, and its body does nothing.

ghost use Rattle.std.specs.Prelude.{List};
ghost use Rattle.dots_host.specs.Acts.{Timed};
ghost use Rattle.dots_host.specs.Runs.{Owing, Trace};
ghost use Rattle.gateway_agent.specs.Passing.{GatewayState, step};
ghost use Rattle.gateway_agent.specs.Surviving.{Story};

/// A run with all that it tells is a run of the machine.
pub fn stories_are_runs()
    ensures { (old new : Owing GatewayState) (acts : List Timed) (trace : List GatewayState) → Story old acts trace new → Trace step old acts trace new }
{}
