//! What the definitions come to: each function's contract is a law, and its body does nothing.

ghost use Rattle.std.specs.Prelude.{◌≢◌, ℕ, ◌+◌, ◌<◌, List};
ghost use Rattle.dots_host.specs.Acts.{Timed};
ghost use Rattle.dots_host.specs.Runs.{Trace, resting};
ghost use Rattle.ask_agent.specs.declared.settings.AskSettings.{AskSettings};
ghost use Rattle.ask_agent.specs.declared.firsts.Firsts.{Firsts};
ghost use Rattle.ask_agent.specs.Asking.{AskState, step, start_of};
ghost use Rattle.ask_agent.specs.Numbers.{number_at, message_id};
ghost use Rattle.ask_agent.specs.Said.{WasSaid};

/// Two runs that begin at different seconds, less than 1,024 apart, with 64 requests each share no number and no Message ID.
pub fn numbers_stay_apart()
    ensures ids { (first second a b : ℕ) → first < second → second < first + 1024 → a < 64 → b < 64 → message_id first a ≢ message_id second b }
    ensures numbers { (first second a b : ℕ) → first < second → a < 64 → b < 64 → number_at first + a ≢ number_at second + b }
{}

/// However a run goes, the server granted each row of the ledger in a datagram that was taken, with its mid and its lifetime; and the code of
/// a refusal was the server's.
pub fn the_server_said()
    ensures { (settings : AskSettings) (firsts : Firsts) (acts : List Timed) (trace : List AskState) (end : AskState)
        → Trace step (resting (start_of settings firsts)) acts trace (resting end) → WasSaid settings.server acts end }
{}
