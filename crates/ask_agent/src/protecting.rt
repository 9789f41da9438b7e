//! The whole run of a client that asks once.

ghost use Rattle.std.specs.Prelude.{◌≡◌, ◌≤◌, false, true, map, string_bytes, None};
ghost use Rattle.dots_host.specs.Causes.{Rose};
ghost use Rattle.dots_client.specs.declared.client.TheConstants.{MAX_MID};
ghost use Rattle.ask_agent.specs.File.{IsMidFit};
ghost use Rattle.ask_agent.specs.declared.protect_ending.ProtectEnding.TheVariants as ending;
ghost use Rattle.ask_agent.specs.Asking.{start_of};
ghost use Rattle.ask_agent.specs.Commands.{is_protect};
ghost use Rattle.ask_agent.specs.Protecting.{has_protected, is_over, word_name, ReportsVerdict, ProtectedTo, Protects, HasDone, NamesWord, ReachesVerdict};
ghost use Rattle.ask_agent.specs.Running.{around};

use crate::asker::Asker;
use crate::firsts::Firsts;
use crate::protect_ending::ProtectEnding;
use crate::settings::AskSettings;
use crate::settings_protecting::{ProtectFault, ProtectWord, protect_settings};
use crate::until_answered::UntilAnswered;
use crate::verdict::{verdict_of, write_verdict};
use crate::words::protect_words;
use dots_host::{Halt, MAX_EVENT_BYTES, Sink, Wire, take_turns, write_all};
use std::alloc::Global;

/// Does what the words `protect HOSTFILE SERVER NAME LIFETIME PREFIXES` ask for, over any wire: at the first event the client asks, and
/// when no request waits any more, or at End, what became of the ask is written to the report. The mid and the number of the request are
/// those of `firsts`. Where a word isn't of its form the first such one is written, and the wire isn't called.
pub fn run_protect<W: Wire, K: Sink>(
    alloc: Global,
    words: &[String],
    firsts: Firsts,
    wire: &mut W,
    report: &mut K,
) -> ProtectEnding
    requires words { is_protect (map string_bytes words.now) ≡ true }
    requires first { firsts.mid ≤ MAX_MID }
    // What the run has done, by its ending. Where it didn't come to its wire, that was not called.
    ensures machine { HasDone (map string_bytes words.now) result firsts
        (around None 0 (W.acts wire.old) (W.faults wire.old) (K.holds report.old) (K.faults report.old))
        (around None 0 (W.acts wire.new) (W.faults wire.new) (K.holds report.new) (K.faults report.new)) }
    ensures uncalled { has_protected result ≡ false → wire.new ≡ wire.old }
    // What the wire says of its own calls.
    ensures leads { W.leads wire.old wire.new }
    // Which faults there must have been.
    ensures taken { result ≡ ending.NextFailed → Rose (W.faults wire.old) (W.faults wire.new) }
    ensures written { result ≡ ending.ReportFailed → Rose (K.faults report.old) (K.faults report.new) }
    // When the words are refused, and when what became of the ask must be told.
    ensures refused { NamesWord (map string_bytes words.now) result }
    ensures complete { ReachesVerdict (map string_bytes words.now) result
        (around None 0 (W.acts wire.old) (W.faults wire.old) (K.holds report.old) (K.faults report.old))
        (around None 0 (W.acts wire.new) (W.faults wire.new) (K.holds report.new) (K.faults report.new)) }
{
    let (server, name, lifetime, prefixes) = protect_words(words);
    match protect_settings(alloc, server, name, lifetime, prefixes) {
        Ok(settings) => return protect(alloc, settings, firsts, wire, report),
        Err(ProtectFault::Word(word)) => {
            let _ = write_all(report, word_name(word));
            return ProtectEnding::WrongWord(word);
        }
        Err(ProtectFault::NoMemory) => return ProtectEnding::NoMemory,
    }
}

/// The line that names a word at fault.
fn word_name(word: ProtectWord) -> &'static [u8]
    ensures { result.now ≡ word_name word }
{
    match word {
        ProtectWord::Server => b"words SERVER\n",
        ProtectWord::Name => b"words NAME\n",
        ProtectWord::Lifetime => b"words LIFETIME\n",
        ProtectWord::Prefixes => b"words PREFIXES\n",
    }
}

/// Runs the client of these settings.
fn protect<W: Wire, K: Sink>(
    alloc: Global,
    settings: AskSettings,
    firsts: Firsts,
    wire: &mut W,
    report: &mut K,
) -> ProtectEnding
    requires mid { IsMidFit settings }
    requires asks { is_over (start_of settings firsts) ≡ false }
    requires first { firsts.mid ≤ MAX_MID }
    ensures protects { Protects settings firsts result
        (around None 0 (W.acts wire.old) (W.faults wire.old) (K.holds report.old) (K.faults report.old))
        (around None 0 (W.acts wire.new) (W.faults wire.new) (K.holds report.new) (K.faults report.new)) }
    ensures uncalled { has_protected result ≡ false → wire.new ≡ wire.old }
    ensures leads { W.leads wire.old wire.new }
{
    match Asker::new(alloc, settings, firsts) {
        Ok(asker) => {
            let mut client = UntilAnswered { asker };
            return take_until_over(&mut client, wire, report);
        }
        Err(_) => return ProtectEnding::NoMemory,
    }
}

/// Takes the events of the wire until no request waits any more, or until the end, and writes what became of the ask.
fn take_until_over<W: Wire, K: Sink>(
    client: &mut UntilAnswered,
    wire: &mut W,
    report: &mut K,
) -> ProtectEnding
    requires { is_over client.old ≡ false }
    ensures ran { ProtectedTo client.old result
        (around None 0 (W.acts wire.old) (W.faults wire.old) (K.holds report.old) (K.faults report.old))
        (around None 0 (W.acts wire.new) (W.faults wire.new) (K.holds report.new) (K.faults report.new)) client.new }
    ensures leads { W.leads wire.old wire.new }
{
    let mut room = [0; MAX_EVENT_BYTES];
    match take_turns(client, wire, &mut room) {
        Ok(_) => return report_verdict(&client.asker, report),
        Err(Halt::NextFailed) => return ProtectEnding::NextFailed,
        Err(Halt::TooMany) => return ProtectEnding::TooMany,
    }
}

/// Writes what became of the ask.
fn report_verdict<K: Sink>(asker: &Asker, report: &mut K) -> ProtectEnding
    ensures { ReportsVerdict asker.now result (K.holds report.old) (K.faults report.old) (K.holds report.new) (K.faults report.new) }
{
    let verdict = verdict_of(asker);
    match write_verdict(verdict, report) {
        Ok(()) => return ProtectEnding::Judged(verdict),
        Err(_) => return ProtectEnding::ReportFailed,
    }
}
