//! The report of a generated world.

ghost use Rattle.std.specs.Prelude.{◌≡◌, string_bytes, IfOk};
ghost use Rattle.dots_settings.specs.Settings.{SettingsValue};
ghost use Rattle.dots_machine.specs.Machine.{State};
ghost use Rattle.dots_world.specs.Worlds.{World};
ghost use Rattle.world_play.specs.Playing.{PlaysAs};
ghost use Rattle.world_play.specs.Report.{granted_to, text_of, world_text};

use crate::played::Played;
use dots_client::ClientCore;
use dots_lists::NoMemory;
use std::alloc::Global;

/// The report of a world that was played, in three lines.
pub fn report_of(alloc: Global, played: &Played) -> Result<String, NoMemory>
    ensures { IfOk result (λ text. (settings : SettingsValue) (world : World State) → PlaysAs settings played.now world → string_bytes text ≡ world_text world) }
{
    let packets = played.packets().len();
    let granted = granted_to(played.clients())?;
    let rows = played.rows()?;
    text_of(alloc, packets, granted, rows)
}

/// How many mitigations the ledgers of clients have in all. There is no memory for more than can be counted.
fn granted_to(clients: &[ClientCore]) -> Result<usize, NoMemory>
    ensures { IfOk result (λ granted. granted ≡ granted_to clients.now) }
{
    let mut granted: usize = 0;
    for client in clients {
        match granted.checked_add(client.ledger().len()) {
            Some(more) => granted = more,
            None => return Err(NoMemory),
        }
    }
    Ok(granted)
}

fn text_of(alloc: Global, packets: usize, granted: usize, rows: usize) -> Result<String, NoMemory>
    ensures { IfOk result (λ text. string_bytes text ≡ text_of packets granted rows) }
{
    Ok(format!(in alloc; "packets {packets}\ngranted {granted}\nrows {rows}\n")?)
}
