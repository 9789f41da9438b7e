//! The whole run of a client.

ghost use Rattle.std.specs.Prelude.{◌≡◌, ℕ, ◌≤◌, ◌⊎◌, false, None};
ghost use Rattle.dots_host.specs.Causes.{Rose};
ghost use Rattle.dots_client.specs.declared.client.TheConstants.{MAX_MID};
ghost use Rattle.ask_agent.specs.File.{IsMidFit};
ghost use Rattle.ask_agent.specs.declared.ending.AskEnding.TheVariants as ending;
ghost use Rattle.ask_agent.specs.Running.{around, has_asked, RanTo, Begins, Behaves, GivesSettings, GivesFault};

use crate::asker::Asker;
use crate::ending::AskEnding;
use crate::fault::AskSettingsFault;
use crate::firsts::Firsts;
use crate::report::{write_refusal, write_report};
use crate::settings::AskSettings;
use crate::source::read_ask_settings;
use dots_host::{Halt, MAX_EVENT_BYTES, Sink, Source, Wire, take_turns};
use std::alloc::Global;

/// Reads the settings of a client, takes the events of the wire until the end, and writes the report. The numbers of `firsts` stand
/// where the settings don't say them.
pub fn run_ask<S: Source, W: Wire, K: Sink>(
    alloc: Global,
    settings: &mut S,
    firsts: Firsts,
    wire: &mut W,
    report: &mut K,
) -> AskEnding
    requires { firsts.mid ≤ MAX_MID }
    // What the run has done, by its ending. Where it didn't come to its wire, that was not called.
    ensures machine { Behaves result firsts
        (around (S.left settings.old) (S.faults settings.old) (W.acts wire.old) (W.faults wire.old) (K.holds report.old) (K.faults report.old))
        (around (S.left settings.new) (S.faults settings.new) (W.acts wire.new) (W.faults wire.new) (K.holds report.new) (K.faults report.new)) }
    ensures uncalled { has_asked result ≡ false → wire.new ≡ wire.old }
    // What the wire says of its own calls.
    ensures leads { W.leads wire.old wire.new }
    // Which faults there must have been, and where none was.
    ensures read { result ≡ ending.SettingsFailed → Rose (S.faults settings.old) (S.faults settings.new) }
    ensures taken { result ≡ ending.NextFailed → Rose (W.faults wire.old) (W.faults wire.new) }
    ensures written { result ≡ ending.ReportFailed → Rose (K.faults report.old) (K.faults report.new) }
    ensures heard { (result ≡ ending.NoMemory) ⊎ ((result ≡ ending.SettingsFailed) ⊎ (S.faults settings.new ≡ S.faults settings.old)) }
    // When the settings are refused, and when a run must go well, want of memory and 2^40 events without End aside.
    ensures refused { GivesFault (S.left settings.old) → ¬ (Rose (S.faults settings.old) (S.faults settings.new))
        → ((line : ℕ) × (result ≡ ending.Refused line)) ⊎ (result ≡ ending.NoMemory) }
    ensures complete { GivesSettings (S.left settings.old) → ¬ (Rose (S.faults settings.old) (S.faults settings.new))
        → ¬ (Rose (W.faults wire.old) (W.faults wire.new)) → ¬ (Rose (K.faults report.old) (K.faults report.new))
        → (result ≡ ending.Reported) ⊎ ((result ≡ ending.NoMemory) ⊎ (result ≡ ending.TooMany)) }
{
    match read_ask_settings(alloc, settings) {
        Ok(settings) => return begin(alloc, settings, firsts, wire, report),
        Err(AskSettingsFault::Line { n }) => {
            let _ = write_refusal(n, report);
            return AskEnding::Refused { line: n };
        }
        Err(AskSettingsFault::ReadFault) => return AskEnding::SettingsFailed,
        Err(AskSettingsFault::NoMemory) => return AskEnding::NoMemory,
    }
}

/// Runs the client of these settings.
fn begin<W: Wire, K: Sink>(
    alloc: Global,
    settings: AskSettings,
    firsts: Firsts,
    wire: &mut W,
    report: &mut K,
) -> AskEnding
    requires mid { IsMidFit settings }
    requires first { firsts.mid ≤ MAX_MID }
    ensures begins { Begins settings firsts result
        (around None 0 (W.acts wire.old) (W.faults wire.old) (K.holds report.old) (K.faults report.old))
        (around None 0 (W.acts wire.new) (W.faults wire.new) (K.holds report.new) (K.faults report.new)) }
    ensures uncalled { has_asked result ≡ false → wire.new ≡ wire.old }
    ensures leads { W.leads wire.old wire.new }
{
    match Asker::new(alloc, settings, firsts) {
        Ok(mut asker) => return ask_over(&mut asker, wire, report),
        Err(_) => return AskEnding::NoMemory,
    }
}

/// Takes the events of the wire until the end, and writes the report.
pub fn ask_over<W: Wire, K: Sink>(asker: &mut Asker, wire: &mut W, report: &mut K) -> AskEnding
    // The acts are a run of the client's machine, and what was written is the report of its last state.
    ensures ran { RanTo asker.old result
        (around None 0 (W.acts wire.old) (W.faults wire.old) (K.holds report.old) (K.faults report.old))
        (around None 0 (W.acts wire.new) (W.faults wire.new) (K.holds report.new) (K.faults report.new)) asker.new }
    ensures leads { W.leads wire.old wire.new }
{
    let mut room = [0; MAX_EVENT_BYTES];
    match take_turns(asker, wire, &mut room) {
        Ok(_) => match write_report(asker, report) {
            Ok(()) => return AskEnding::Reported,
            Err(_) => return AskEnding::ReportFailed,
        },
        Err(Halt::NextFailed) => return AskEnding::NextFailed,
        Err(Halt::TooMany) => return AskEnding::TooMany,
    }
}
