//! Runs over disks in memory.

use crate::acts::{calls_of, sends_of};
use crate::events::push_all;
use crate::images::{holds_all, image_of};
use crate::runs::run_of;
use crate::tables::Row;
use dots_host::{MemoryHost, MemorySink};
use std::alloc::Global;

/// A host whose disk has this size and holds the image.
pub fn host_over(alloc: Global, size: u64, image: &[u8]) -> Option<MemoryHost> {
    let mut host = MemoryHost::new(alloc, size).ok()?;
    if image.len() as u64 <= size && host.load(image).is_ok() {
        return Some(host);
    }
    drop(host);
    None
}

/// Whether the host sent what the row says, and had so many writes and syncs; any where nothing is said.
fn has_acts(alloc: Global, row: Row, host: &MemoryHost) -> Option<bool> {
    let sends = sends_of(alloc, host.acts())?;
    let calls = calls_of(alloc, host.acts())?;
    let has_calls = row.word("%").is_empty() || row.has(alloc, "%", calls.as_bytes());
    Some(has_calls && row.has(alloc, ">", sends.as_bytes()))
}

/// Whether the disk holds what the row says.
fn has_image(alloc: Global, row: Row, host: &MemoryHost) -> Option<bool> {
    let lines = row.text(alloc, "+")?;
    holds_all(alloc, host.image(), lines.as_str())
}

/// Whether a run of the row over the host goes as it says, and the host still tells its acts.
fn leaves(alloc: Global, row: Row, host: &mut MemoryHost, sink: &mut MemorySink) -> Option<bool> {
    let events = row.text(alloc, "<")?;
    push_all(alloc, host, events.as_str())?;
    let ends = run_of(alloc, row, host, sink)?;
    let acts = has_acts(alloc, row, host)?;
    let image = has_image(alloc, row, host)?;
    Some(ends && host.whole() && acts && image)
}

fn goes_over(
    alloc: Global,
    row: Row,
    size: u64,
    image: &[u8],
    sink: &mut MemorySink,
) -> Option<bool> {
    let mut host = host_over(alloc, size, image)?;
    let goes = leaves(alloc, row, &mut host, sink);
    drop(host);
    goes
}

/// Whether a run of the row over its disk, which has this size, goes as it says.
pub fn goes_over_disk(alloc: Global, row: Row, size: u64, sink: &mut MemorySink) -> Option<bool> {
    let before = row.text(alloc, "*")?;
    let image = image_of(alloc, size as usize, before.as_str())?;
    goes_over(alloc, row, size, image.as_slice(), sink)
}
