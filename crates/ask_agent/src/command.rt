//! The command of a client over any wire.

ghost use Rattle.std.specs.Prelude.{◌≡◌, ◌≤◌, map, string_bytes, true, codes};
ghost use Rattle.dots_host.specs.Causes.{Rose};
ghost use Rattle.dots_host.specs.Writing.{Writes};
ghost use Rattle.dots_client.specs.declared.client.TheConstants.{MAX_MID};
ghost use Rattle.ask_agent.specs.Commands.{is_ask};
ghost use Rattle.ask_agent.specs.Outcomes.{RunsAsk, AskOutcome};
ghost use Rattle.ask_agent.specs.Running.{around};

use crate::firsts::Firsts;
use crate::running::run_ask;
use crate::words::is_ask;
use dots_host::{Sink, Source, Wire, write_all};
use std::alloc::Global;

/// The exit status of words that ask for no client.
const WRONG_WORDS: u8 = 2;

/// Does what the words `ask SETTINGS HOSTFILE` ask for, and answers the exit status: the settings of a client are read from the source,
/// the client runs over the events of the wire, and at End what is granted is written to the report. The numbers of `firsts`
/// stand where the settings don't say them. Other words are refused, and neither source nor wire is called.
pub fn run_client<S: Source, W: Wire, K: Sink>(
    alloc: Global,
    words: &[String],
    settings: &mut S,
    firsts: Firsts,
    wire: &mut W,
    report: &mut K,
) -> u8
    requires { firsts.mid ≤ MAX_MID }
    // What the run has done. Where it didn't come to its wire, that was not called.
    ensures machine { is_ask (map string_bytes words.now) ≡ true → RunsAsk result firsts
        (around (S.left settings.old) (S.faults settings.old) (W.acts wire.old) (W.faults wire.old) (K.holds report.old) (K.faults report.old))
        (around (S.left settings.new) (S.faults settings.new) (W.acts wire.new) (W.faults wire.new) (K.holds report.new) (K.faults report.new))
        (wire.new ≡ wire.old) }
    // What the status says of the words, of the settings and of what failed.
    ensures outcome { AskOutcome (map string_bytes words.now) result
        (around (S.left settings.old) (S.faults settings.old) (W.acts wire.old) (W.faults wire.old) (K.holds report.old) (K.faults report.old))
        (around (S.left settings.new) (S.faults settings.new) (W.acts wire.new) (W.faults wire.new) (K.holds report.new) (K.faults report.new)) }
    // What is written of other words, and what isn't called.
    ensures refusal { result ≡ 2 → Writes (K.holds report.old) (K.holds report.new) (codes "words\n") (Rose (K.faults report.old) (K.faults report.new)) }
    ensures unread { result ≡ 2 → settings.new ≡ settings.old }
    ensures uncalled { 1 ≤ result → result ≤ 4 → wire.new ≡ wire.old }
    // What the wire says of its own calls.
    ensures leads { W.leads wire.old wire.new }
{
    if !is_ask(words) {
        let _ = write_all(report, b"words\n");
        return WRONG_WORDS;
    }
    run_ask(alloc, settings, firsts, wire, report).status()
}
