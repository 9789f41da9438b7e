//! The loop over the events of a host.

ghost use Rattle.std.specs.Prelude.{◌≡◌, ◌≤◌, List, length, IfOk, IfErr, ⊤};
ghost use Rattle.dots_host.specs.Becoming.{RestsWith};
ghost use Rattle.dots_host.specs.Causes.{Rose};
ghost use Rattle.dots_host.specs.Runs.{Owing, Added};
ghost use Rattle.dots_host.specs.declared.TheConstants.{MAX_EVENT_BYTES};
ghost use Rattle.dots_settings.specs.Settings.{SettingsValue};
ghost use Rattle.dots_history.specs.declared.entry.Entry.{Entry};
ghost use Rattle.slot_store.specs.Layout.{needed_of};
ghost use Rattle.slot_journal.specs.DiskEntries as journal;
ghost use Rattle.dots_machine.specs.Machine.{State};
ghost use Rattle.dots_machine.specs.Endings.{IsSized};
ghost use Rattle.dots_server.specs.ServerValues.{Represents, RestartsWith};
ghost use Rattle.dots_server.specs.Running.{Came, IsFollowed, StopsFor, FailsOnlyFor, stop_of};
ghost use Rattle.dots_server.specs.ServerValues.{ServerValue};
ghost use Rattle.dots_server.specs.Onlooking.{RunIsSeen};

use crate::onlooking::{Onlooker, show};
use crate::server::Server;
use dots_host::{Host, MAX_EVENT_BYTES, What};
use dots_machine::Stop;

/// The most events of a run.
const MAX_EVENTS: u64 = 1 << 40;

/// Takes one event after the other, and answers the server as it is at End; else how the events stopped. The room has the bytes of one
/// event. Behind each tick the server is shown to the onlooker.
pub fn take_events<H: Host, W: Onlooker<H>>(
    server: Server,
    host: &mut H,
    room: &mut [u8],
    onlooker: &mut W,
) -> Result<Server, Stop>
    requires room { length room.old ≡ MAX_EVENT_BYTES }
    requires size { needed_of server.journal.slots ≤ H.extent host.old }
    // A run of the machine, where the disk is told, or where the acts are and none is a restart. Where the disk is told, and rested, the run
    // survives a crash at any moment.
    ensures came { (settings : SettingsValue) (start : State) (stored : List Entry) → RestartsWith server settings start stored
        → IsFollowed (RestsWith (H.media host.old) (journal.Represents server.journal settings stored)) (H.acts host.old) (H.acts host.new)
        → (end : Owing State) × Came settings start (stop_of result) (H.media host.old) (H.media host.new) (RestsWith (H.media host.old) (journal.Represents server.journal settings stored))
        (H.acts host.old) (H.acts host.new) end
        × IfOk result (λ server. Represents server settings end.last) }
    // What the onlooker saw: at each tick a server that represents the state after it, and nothing else.
    ensures seen { (settings : SettingsValue) (start : State) (stored : List Entry) → RestartsWith server settings start stored
        → IsFollowed (RestsWith (H.media host.old) (journal.Represents server.journal settings stored)) (H.acts host.old) (H.acts host.new)
        → (trace : List State) × (end : Owing State) × (seen : List ServerValue) × W.sees onlooker.old onlooker.new seen
        × Added (H.acts host.old) (H.acts host.new) (RunIsSeen settings start trace end (stop_of result) seen) }
    ensures adds { Added (H.acts host.old) (H.acts host.new) (λ _. ⊤) }
    ensures settings { IfOk result (λ now. now.settings ≡ server.settings) }
    ensures stopped { IfErr result (λ how. StopsFor how (Rose (H.Wire.faults host.old) (H.Wire.faults host.new)) (Rose (H.Disk.faults host.old) (H.Disk.faults host.new))) }
    // No call of the disk failed, unless the events stopped for that; and no restart found it too small.
    ensures counts { FailsOnlyFor (stop_of result) (H.Disk.faults host.old) (H.Disk.faults host.new) }
    ensures sized { IfErr result IsSized }
    ensures leads { H.leads host.old host.new }
    ensures later { H.Wire.faults host.old ≤ H.Wire.faults host.new }
{
    let mut server = server;
    for _turn in 0..MAX_EVENTS {
        let got = host.next(room);
        match got.what {
            What::End => return Ok(server),
            What::Failed => {
                server.let_go();
                return Err(Stop::NextFailed);
            }
            What::Restart => match server.restart(host, got.at) {
                Ok(begun) => server = begun,
                Err(fault) => return Err(Stop::Unrecovered(fault)),
            },
            _ => match server.handle(host, &got, room) {
                Ok(()) => show(host, &server, got.what, onlooker),
                Err(_) => {
                    server.let_go();
                    return Err(Stop::DiskFailed);
                }
            },
        }
    }
    server.let_go();
    Err(Stop::TooMany)
}
