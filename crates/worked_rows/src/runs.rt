//! Runs of the program.

use crate::tables::Row;
use dots_host::{Host, MemorySink, MemorySource, NoMemory};
use dots_run::run;
use std::alloc::Global;

/// What the program is run with.
#[derive(Clone, Copy)]
pub struct Asked<'a> {
    /// The words of the command line.
    pub words: &'a str,
    /// What the source of the settings has.
    pub settings: &'a [u8],
    /// The number of the call to this source that fails, of those from 1 on.
    pub failing: u64,
}

/// The words of a command line.
pub fn words_of(alloc: Global, line: &str) -> Result<Vec<String>, NoMemory> {
    let mut words = Vec::new(alloc);
    for word in line.split(' ') {
        words.push(String::from_str(alloc, word)?)?;
    }
    Ok(words)
}

/// A source of these bytes, where the call of this number fails, of those from 1 on.
fn source_of(alloc: Global, bytes: &[u8], failing: u64) -> Result<MemorySource, NoMemory> {
    let mut source = MemorySource::new(alloc, bytes)?;
    source.fail_at(failing)?;
    Ok(source)
}

/// A sink where the call of this number fails, of those from 1 on.
pub fn sink_of(alloc: Global, failing: u64) -> Result<MemorySink, NoMemory> {
    let mut sink = MemorySink::new(alloc);
    sink.fail_at(failing)?;
    Ok(sink)
}

/// The words of a run and the source of its settings.
#[derive(Drop)]
pub struct Parts {
    pub words: Vec<String>,
    pub settings: MemorySource,
}

fn parts_of(alloc: Global, asked: Asked) -> Result<Parts, NoMemory> {
    let words = words_of(alloc, asked.words)?;
    let settings = source_of(alloc, asked.settings, asked.failing)?;
    Ok(Parts { words, settings })
}

/// The words of a row and the source of its settings.
pub fn parts_of_row(alloc: Global, row: Row) -> Option<Parts> {
    let settings = row.text(alloc, ":")?;
    let asked = Asked {
        words: row.word("$ "),
        settings: settings.as_bytes(),
        failing: row.number("! read "),
    };
    parts_of(alloc, asked).ok()
}

/// Whether a run of the row with this status ended as the row says, and reported what it says.
pub fn has_ended(alloc: Global, row: Row, status: u8, sink: &MemorySink) -> bool {
    u64::from(status) == row.number("? ") && row.has(alloc, "=", sink.bytes())
}

/// The status of a run over the host. What it reports is in the sink.
pub fn run_over<H: Host>(
    alloc: Global,
    asked: Asked,
    host: &mut H,
    sink: &mut MemorySink,
) -> Result<u8, NoMemory> {
    let mut parts = parts_of(alloc, asked)?;
    Ok(run(
        alloc,
        parts.words.as_slice(),
        &mut parts.settings,
        host,
        sink,
    ))
}

/// Whether a run of the row over the host ends with its status, and reports what it says.
pub fn run_of<H: Host>(
    alloc: Global,
    row: Row,
    host: &mut H,
    sink: &mut MemorySink,
) -> Option<bool> {
    let mut parts = parts_of_row(alloc, row)?;
    let status = run(
        alloc,
        parts.words.as_slice(),
        &mut parts.settings,
        host,
        sink,
    );
    Some(has_ended(alloc, row, status, sink))
}
