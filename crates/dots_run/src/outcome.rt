//! The commands of the machine, `replay` and `show`.

ghost use Rattle.std.specs.Prelude.{◌≡◌, ◌≢◌, ◌≤◌, ◌⊎◌, ◌↔◌, ℕ, List, Option, map, false, true, string_bytes, IfOk, OnErr, ⊤};
ghost use Rattle.std.specs.List.{list_all};
ghost use Rattle.dots_host.specs.Becoming.{RestsWith};
ghost use Rattle.dots_host.specs.Causes.{Rose};
ghost use Rattle.dots_host.specs.Runs.{Owing, Added};
ghost use Rattle.dots_settings.specs.Settings.{SettingsValue, IsSettings};
ghost use Rattle.dots_history.specs.declared.entry.Entry.{Entry};
ghost use Rattle.dots_history.specs.Calm.{is_own};
ghost use Rattle.slot_store.specs.Layout.{needed_of};
ghost use Rattle.slot_journal.specs.DiskEntries as journal;
ghost use Rattle.dots_machine.specs.declared.ending.Ending as endings;
ghost use Rattle.dots_machine.specs.declared.ending.Ending.TheVariants as ending;
ghost use Rattle.dots_machine.specs.declared.ending.Stop.{Stop};
ghost use Rattle.dots_machine.specs.Commands.{is_served, is_show, is_command, second_of};
ghost use Rattle.dots_machine.specs.Endings.{status_of, has_hosted, Prints, ServesTo, Behaves, GivesFault, IsReady, IsReadable, IsKnown};
ghost use Rattle.dots_machine.specs.Machine.{State};
ghost use Rattle.dots_machine.specs.Outside.{Outside, outside};
ghost use Rattle.dots_server.specs.ServerValues.{ServerValue, RestartsWith};
ghost use Rattle.dots_server.specs.Onlooking.{RunIsSeen};
ghost use Rattle.dots_server.specs.Running.{Came, IsFollowed};
ghost use Rattle.dots_run.specs.Refusals.{Counts, Wrote, WritesStop, FailsOnly, EndsSized};
ghost use Rattle.dots_run.specs.Outcomes.{IsTooSmall};
ghost use Rattle.dots_run.specs.Onlooking.{SawBy, SawRun, SawWhereKnown};

use crate::words::{is_served, word_to_show};
use coap_message::{Printed, lines_of};
use dots_host::{Host, MAX_EVENT_BYTES, Sink, Source, write_all};
use dots_lists::NoMemory;
use dots_machine::{Ending, Printing, Stop, write_refusal};
use dots_server::{Onlooker, Server, take_events};
use dots_settings::{Settings, SettingsFault, read_settings};
use std::alloc::Global;

/// Does what the words ask of the machine, and answers the exit status. With `replay SETTINGS` the settings are read
/// from the source, what the host's disk holds is recovered, the events are taken from the host, and at End the filters that stand are written
/// to the report; at each tick the server is shown to the onlooker. With `show HEX` the lines of a message are written to the report, or that of its
/// fault, and neither source nor host is called. Other words are refused.
pub fn run_machine<H: Host, S: Source, K: Sink, W: Onlooker<H>>(
    alloc: Global,
    words: &[String],
    settings: &mut S,
    host: &mut H,
    report: &mut K,
    onlooker: &mut W,
) -> u8
    // What the run has done, by the ending that its status is of. Where it didn't come to its host, that was not called. Where it served events, the
    // onlooker saw at each tick a server that represents the state after it, and nothing else; and where it didn't, nothing.
    ensures machine { (ending : endings.Ending) × (result ≡ status_of ending)
        × Behaves ending (map string_bytes words.now)
        (outside (S.left settings.old) (S.faults settings.old) (H.acts host.old) (H.Wire.faults host.old) (H.media host.old) (H.extent host.old) (H.Disk.faults host.old) (K.holds report.old) (K.faults report.old))
        (outside (S.left settings.new) (S.faults settings.new) (H.acts host.new) (H.Wire.faults host.new) (H.media host.new) (H.extent host.new) (H.Disk.faults host.new) (K.holds report.new) (K.faults report.new))
        × (has_hosted ending ≡ false → host.new ≡ host.old)
        × SawWhereKnown ending
        (outside (S.left settings.old) (S.faults settings.old) (H.acts host.old) (H.Wire.faults host.old) (H.media host.old) (H.extent host.old) (H.Disk.faults host.old) (K.holds report.old) (K.faults report.old))
        (outside (S.left settings.new) (S.faults settings.new) (H.acts host.new) (H.Wire.faults host.new) (H.media host.new) (H.extent host.new) (H.Disk.faults host.new) (K.holds report.new) (K.faults report.new))
        (onlooker.new ≡ onlooker.old) (W.sees onlooker.old onlooker.new) }
    // What the host says of its own calls.
    ensures leads { H.leads host.old host.new }
    // When the words are no command; which faults there must have been, and where none was.
    ensures words { (result ≡ 2) ↔ (is_command (map string_bytes words.now) ≡ false) }
    ensures read { result ≡ 5 → Rose (S.faults settings.old) (S.faults settings.new)
        ⊎ Rose (H.Wire.faults host.old) (H.Wire.faults host.new) }
    ensures heard { result ≢ 4 → result ≢ 5 → S.faults settings.new ≡ S.faults settings.old }
    ensures written { result ≡ 9 → Rose (K.faults report.old) (K.faults report.new) }
    // What isn't called: neither settings, nor host, nor onlooker for other words, nor the host where nothing was served.
    ensures unread { is_served (map string_bytes words.now) ≡ false → (settings.new ≡ settings.old) × (host.new ≡ host.old) }
    ensures unshown { is_served (map string_bytes words.now) ≡ false → onlooker.new ≡ onlooker.old }
    ensures uncalled { 1 ≤ result → result ≤ 3 → host.new ≡ host.old }
    // When there must have been a failure of the disk, and when there was none; and when the disk is too small, whatever it tells of its content.
    ensures disk { result ≡ 6 → Rose (H.Disk.faults host.old) (H.Disk.faults host.new) }
    ensures unfailed { result ≢ 6 → H.Disk.faults host.new ≡ H.Disk.faults host.old }
    ensures small { result ≡ 10 → IsTooSmall (S.left settings.old) (H.extent host.old) }
    // When the settings are refused, and when a run must go well, want of memory and 2^40 events without End aside: where the disk holds what a
    // server leaves there.
    ensures refused { is_served (map string_bytes words.now) ≡ true → GivesFault (S.left settings.old)
        → ((result ≡ 3) × (S.faults settings.new ≡ S.faults settings.old)) ⊎ (result ≡ 4) ⊎ ((result ≡ 5) × Rose (S.faults settings.old) (S.faults settings.new)) }
    ensures complete { is_served (map string_bytes words.now) ≡ true → IsReady (S.left settings.old) (H.media host.old) (H.extent host.old)
        → ¬ (Rose (S.faults settings.old) (S.faults settings.new)) → ¬ (Rose (H.Wire.faults host.old) (H.Wire.faults host.new))
        → ¬ (Rose (H.Disk.faults host.old) (H.Disk.faults host.new)) → ¬ (Rose (K.faults report.old) (K.faults report.new))
        → (result ≡ 0) ⊎ (result ≡ 4) ⊎ (result ≡ 11) }
    // When a message is shown, and when a fault is, want of memory aside.
    ensures readable { is_show (map string_bytes words.now) ≡ true → IsReadable (second_of (map string_bytes words.now))
        → ¬ (Rose (K.faults report.old) (K.faults report.new)) → (result ≡ 0) ⊎ (result ≡ 4) }
    ensures unreadable { is_show (map string_bytes words.now) ≡ true → ¬ (IsReadable (second_of (map string_bytes words.now)))
        → (result ≡ 1) ⊎ (result ≡ 4) }
{
    ending_of(alloc, words, settings, host, report, onlooker).status()
}

/// How the run ends.
fn ending_of<H: Host, S: Source, K: Sink, W: Onlooker<H>>(
    alloc: Global,
    words: &[String],
    settings: &mut S,
    host: &mut H,
    report: &mut K,
    onlooker: &mut W,
) -> Ending
    ensures machine { Behaves result (map string_bytes words.now)
        (outside (S.left settings.old) (S.faults settings.old) (H.acts host.old) (H.Wire.faults host.old) (H.media host.old) (H.extent host.old) (H.Disk.faults host.old) (K.holds report.old) (K.faults report.old))
        (outside (S.left settings.new) (S.faults settings.new) (H.acts host.new) (H.Wire.faults host.new) (H.media host.new) (H.extent host.new) (H.Disk.faults host.new) (K.holds report.new) (K.faults report.new)) }
    ensures seen { SawWhereKnown result
        (outside (S.left settings.old) (S.faults settings.old) (H.acts host.old) (H.Wire.faults host.old) (H.media host.old) (H.extent host.old) (H.Disk.faults host.old) (K.holds report.old) (K.faults report.old))
        (outside (S.left settings.new) (S.faults settings.new) (H.acts host.new) (H.Wire.faults host.new) (H.media host.new) (H.extent host.new) (H.Disk.faults host.new) (K.holds report.new) (K.faults report.new))
        (onlooker.new ≡ onlooker.old) (W.sees onlooker.old onlooker.new) }
    ensures leads { H.leads host.old host.new }
    ensures heard { (result ≡ ending.NoMemory) ⊎ (result ≡ ending.SettingsFailed) ⊎ (S.faults settings.new ≡ S.faults settings.old) }
    ensures counts { FailsOnly result (H.Disk.faults host.old) (H.Disk.faults host.new) }
    ensures untouched { is_served (map string_bytes words.now) ≡ false → (settings.new ≡ settings.old) × (host.new ≡ host.old) }
    ensures unshown { is_served (map string_bytes words.now) ≡ false → onlooker.new ≡ onlooker.old }
    ensures uncalled { has_hosted result ≡ false → host.new ≡ host.old }
{
    if let Some(word) = word_to_show(words) {
        match print_word(alloc, word, report) {
            Ok(how) => return Ending::Printed(how),
            Err(_) => return Ending::NoMemory,
        }
    }
    if !is_served(words) {
        let _ = write_all(report, b"words\n");
        return Ending::WrongWords;
    }
    match read_settings(alloc, settings) {
        Ok(settings) => return host_events(alloc, settings, host, report, onlooker),
        Err(SettingsFault::ReadFault) => return Ending::SettingsFailed,
        Err(SettingsFault::NoMemory) => return Ending::NoMemory,
        Err(fault) => {
            let line = fault.line();
            let _ = write_all(report, line.as_bytes());
            return Ending::Refused(fault);
        }
    }
}

/// Shows the message that a word writes, or its fault.
fn print_word<K: Sink>(alloc: Global, word: &[u8], report: &mut K) -> Result<Printing, NoMemory>
    ensures prints { IfOk result (λ how. Prints how word.now (K.holds report.old) (K.holds report.new) (Rose (K.faults report.old) (K.faults report.new))) }
    ensures err { OnErr result (report.new ≡ report.old) }
{
    match lines_of(alloc, word)? {
        Printed::Message(text) => match write_all(report, text.items()) {
            Ok(()) => return Ok(Printing::Written),
            Err(_) => return Ok(Printing::Failed),
        },
        Printed::Fault(text) => {
            let _ = write_all(report, text.items());
            return Ok(Printing::Unreadable);
        }
    }
}

/// Recovers what the disk holds, and serves the events of the host from there.
fn host_events<H: Host, K: Sink, W: Onlooker<H>>(
    alloc: Global,
    settings: Settings,
    host: &mut H,
    report: &mut K,
    onlooker: &mut W,
) -> Ending
    requires valid { IsSettings settings }
    ensures machine { (left left_now : Option (List ℕ)) (faults faults_now : ℕ) → ServesTo result settings
        (outside left faults (H.acts host.old) (H.Wire.faults host.old) (H.media host.old) (H.extent host.old) (H.Disk.faults host.old) (K.holds report.old) (K.faults report.old))
        (outside left_now faults_now (H.acts host.new) (H.Wire.faults host.new) (H.media host.new) (H.extent host.new) (H.Disk.faults host.new) (K.holds report.new) (K.faults report.new)) }
    ensures seen { (left left_now : Option (List ℕ)) (faults faults_now : ℕ) → SawBy result (λ how. IsKnown
        (outside left faults (H.acts host.old) (H.Wire.faults host.old) (H.media host.old) (H.extent host.old) (H.Disk.faults host.old) (K.holds report.old) (K.faults report.old))
        (outside left_now faults_now (H.acts host.new) (H.Wire.faults host.new) (H.media host.new) (H.extent host.new) (H.Disk.faults host.new) (K.holds report.new) (K.faults report.new))
        → SawRun settings (H.acts host.old) (H.acts host.new) how (W.sees onlooker.old onlooker.new)) (onlooker.new ≡ onlooker.old) }
    ensures counts { FailsOnly result (H.Disk.faults host.old) (H.Disk.faults host.new) }
    ensures hosted { has_hosted result ≡ true }
    ensures leads { H.leads host.old host.new }
{
    match Server::begin(alloc, settings, host, 0) {
        Ok(server) => return serve(server, host, report, onlooker),
        Err(fault) => {
            write_refusal(&fault, report);
            return Ending::Unrecovered(fault);
        }
    }
}

/// Serves the events of the host, and reports the filters that stand at End.
fn serve<H: Host, K: Sink, W: Onlooker<H>>(
    server: Server,
    host: &mut H,
    report: &mut K,
    onlooker: &mut W,
) -> Ending
    requires size { needed_of server.journal.slots ≤ H.extent host.old }
    // The run, and what was written of its last state: where the disk is told, or where the acts are and none is a restart.
    ensures came { (settings : SettingsValue) (start : State) (stored : List Entry) → RestartsWith server settings start stored
        → IsFollowed (RestsWith (H.media host.old) (journal.Represents server.journal settings stored)) (H.acts host.old) (H.acts host.new)
        → (how : Stop) × (end : Owing State) × Came settings start how (H.media host.old) (H.media host.new) (RestsWith (H.media host.old) (journal.Represents server.journal settings stored))
        (H.acts host.old) (H.acts host.new) end
        × ((before now : Outside) → Counts before (K.holds report.old) (K.faults report.old) (H.Wire.faults host.old) (H.Disk.faults host.old)
        → Counts now (K.holds report.new) (K.faults report.new) (H.Wire.faults host.new) (H.Disk.faults host.new) → Wrote result how settings end.last before now) }
    ensures seen { (settings : SettingsValue) (start : State) (stored : List Entry) → RestartsWith server settings start stored
        → IsFollowed (RestsWith (H.media host.old) (journal.Represents server.journal settings stored)) (H.acts host.old) (H.acts host.new)
        → SawBy result (λ how. (trace : List State) × (end : Owing State) × (seen : List ServerValue) × W.sees onlooker.old onlooker.new seen
        × Added (H.acts host.old) (H.acts host.new) (RunIsSeen settings start trace end how seen)) ⊥ }
    ensures served { SawBy result (λ _. ⊤) ⊥ }
    ensures adds { Added (H.acts host.old) (H.acts host.new) (λ _. ⊤) }
    // For every host, it is said of some state that has entries of the settings alone.
    ensures any { (how : Stop) × (state : State) × (list_all (is_own server.settings) state.history ≡ true)
        × ((before now : Outside) → Counts before (K.holds report.old) (K.faults report.old) (H.Wire.faults host.old) (H.Disk.faults host.old)
        → Counts now (K.holds report.new) (K.faults report.new) (H.Wire.faults host.new) (H.Disk.faults host.new) → Wrote result how server.settings state before now) }
    ensures counts { FailsOnly result (H.Disk.faults host.old) (H.Disk.faults host.new) }
    ensures sized { EndsSized result }
    ensures hosted { has_hosted result ≡ true }
    ensures leads { H.leads host.old host.new }
{
    let mut room = [0; MAX_EVENT_BYTES];
    match take_events(server, host, &mut room, onlooker) {
        Ok(server) => match server.write_report(report) {
            Ok(()) => {
                server.let_go();
                return Ending::Served(Stop::Ended);
            }
            Err(_) => {
                server.let_go();
                return Ending::ReportFailed;
            }
        },
        Err(how) => {
            write_stop(how, report);
            return Ending::Served(how);
        }
    }
}

/// Where the disk wasn't recovered at a restart, why not; and else nothing.
fn write_stop<K: Sink>(how: Stop, report: &mut K)
    ensures { WritesStop how (K.holds report.old) (K.holds report.new) (Rose (K.faults report.old) (K.faults report.new)) }
{
    match how {
        Stop::Unrecovered(fault) => write_refusal(&fault, report),
        Stop::Ended | Stop::NextFailed | Stop::TooMany | Stop::DiskFailed => {}
    }
}
