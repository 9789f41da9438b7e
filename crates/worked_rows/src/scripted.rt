//! Runs over scripts, as the program makes them: long replies leave in blocks.

ghost use Rattle.std.specs.Prelude.{◌≡◌, map, string_bytes, true};
ghost use Rattle.ask_agent.specs.Commands.{is_protect};

use crate::runs::{Parts, has_ended, parts_of_row};
use crate::tables::Row;
use ask_agent::{Firsts, is_ask, is_protect, run_client, run_protect};
use dots_host::{MemorySink, MemorySource, NoMemory};
use dots_run::{Ended, ScriptHost, run_blocks};
use dots_server::Nobody;
use std::alloc::Global;

pub type Scripted = ScriptHost<MemorySource, MemorySink>;

/// A host over a script, whose sends go to a list.
pub fn host_of(alloc: Global, script: &str) -> Result<Scripted, NoMemory> {
    let source = MemorySource::new(alloc, script.as_bytes())?;
    ScriptHost::new(alloc, source, MemorySink::new(alloc))
}

/// Whether a run of the row over the host goes as it says.
fn leaves(
    alloc: Global,
    row: Row,
    parts: &mut Parts,
    host: Scripted,
    sink: &mut MemorySink,
) -> bool {
    let words = parts.words.as_slice();
    if is_ask(words) {
        return asks(alloc, row, parts, host, sink);
    }
    if is_protect(words) {
        return protects(alloc, row, words, host, sink);
    }
    let Ended { status, host } = run_blocks(
        alloc,
        words,
        &mut parts.settings,
        host,
        sink,
        &mut Nobody,
    );
    let goes = has_ended(alloc, row, status, sink) && row.has(alloc, ">", host.sink().bytes());
    drop(host);
    goes
}

/// Whether a run of a client goes as the row says.
fn asks(alloc: Global, row: Row, parts: &mut Parts, host: Scripted, sink: &mut MemorySink) -> bool {
    let mut host = host;
    let status = run_client(
        alloc,
        parts.words.as_slice(),
        &mut parts.settings,
        Firsts::ones(),
        &mut host,
        sink,
    );
    let goes = has_ended(alloc, row, status, sink) && row.has(alloc, ">", host.sink().bytes());
    drop(host);
    goes
}

/// Whether a run of a client that asks once goes as the row says.
fn protects(
    alloc: Global,
    row: Row,
    words: &[String],
    host: Scripted,
    sink: &mut MemorySink,
) -> bool
    requires { is_protect (map string_bytes words.now) ≡ true }
{
    let mut host = host;
    let status = run_protect(alloc, words, Firsts::ones(), &mut host, sink).status();
    let goes = has_ended(alloc, row, status, sink) && row.has(alloc, ">", host.sink().bytes());
    drop(host);
    goes
}

/// Whether a run of the row over this script goes as it says.
fn goes_over(alloc: Global, row: Row, script: &str, sink: &mut MemorySink) -> Option<bool> {
    let mut parts = parts_of_row(alloc, row)?;
    let host = host_of(alloc, script).ok()?;
    Some(leaves(alloc, row, &mut parts, host, sink))
}

/// Whether a run of the row over its script goes as it says.
pub fn goes_over_script(alloc: Global, row: Row, sink: &mut MemorySink) -> Option<bool> {
    let script = row.text(alloc, "<")?;
    goes_over(alloc, row, script.as_str(), sink)
}
