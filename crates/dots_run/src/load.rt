//! A generated run: 20,000 events over a host in memory.

ghost use Rattle.std.specs.Prelude.{◌≡◌, [], true, length, string_bytes, IfOk};
ghost use Rattle.dots_host.specs.Acts.{wire_acts};
ghost use Rattle.dots_host.specs.Hosted.{HandsOut};
ghost use Rattle.filter_table.specs.TableRows.{active_rows};
ghost use Rattle.dots_run.specs.Load.{LoadReported, RunsToEnd};

use dots_host::{MAX_EVENT_BYTES, MemoryHost};
use dots_lists::NoMemory;
use dots_load::{is_served, load_settings, loaded_host, report_of};
use dots_server::{Nobody, Server, take_events};
use filter_table::FilterTable;
use std::alloc::Global;

/// Serves the generated events of a seed from an empty disk, and answers the report: how many events came, how many sends have each code, and how
/// many rows filter in the end, in eight lines. A seed has one report.
///
/// # Errors
///
/// Only for want of memory: of this call, or of a call of the server or of its host.
pub fn run_load(alloc: Global, seed: u64) -> Result<String, NoMemory>
    ensures { IfOk result (λ text. LoadReported seed (string_bytes text)) }
{
    let mut host = loaded_host(alloc, seed)?;
    let rows = serve_to_end(alloc, &mut host)?;
    if host.whole() && is_served(host.acts()) {
        return report_of(alloc, host.acts(), rows);
    }
    Err(NoMemory)
}

/// Serves the events of a host from its empty disk, and answers how many rows filter at End.
fn serve_to_end(alloc: Global, host: &mut MemoryHost) -> Result<usize, NoMemory>
    requires disk { host.old.disk.base ≡ [] }
    requires acts { host.old.disk.acts ≡ [] }
    requires whole { host.old.disk.whole ≡ true }
    ensures served { IfOk result (λ rows. host.new.disk.whole ≡ true → RunsToEnd (wire_acts 0 host.new.disk.acts) rows) }
    ensures hands { HandsOut host.old host.new }
{
    let settings = load_settings(alloc)?;
    let Ok(server) = Server::begin(alloc, settings, host, 0) else {
        return Err(NoMemory);
    };
    let mut room = [0; MAX_EVENT_BYTES];
    let Ok(server) = take_events(server, host, &mut room, &mut Nobody) else {
        return Err(NoMemory);
    };
    match count_rows(server.registry().filters()) {
        Ok(rows) => {
            server.let_go();
            Ok(rows)
        }
        Err(NoMemory) => {
            server.let_go();
            Err(NoMemory)
        }
    }
}

/// How many rows of mitigations filter. There is no memory for more than can be counted.
fn count_rows(table: &FilterTable) -> Result<usize, NoMemory>
    ensures { IfOk result (λ rows. rows ≡ length (active_rows table.now.scrubs)) }
{
    let mut rows = 0;
    for _row in table.scrubs() {
        if rows == usize::MAX {
            return Err(NoMemory);
        }
        rows += 1;
    }
    Ok(rows)
}
