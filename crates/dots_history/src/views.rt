//! The view of a history, each part in order of the entries.

ghost use Rattle.std.specs.Prelude.{◌≡◌, IfOk, map};
ghost use Rattle.dots_history.specs.Histories.{mitigations, held};
ghost use Rattle.dots_history.specs.HandedOut.{mitigation_of};

use crate::entry::Entry;
use crate::holding::is_still_held;
use crate::lives::{is_live, status_after};
use crate::status::Status;
use dots_lists::NoMemory;
use std::alloc::Global;

/// A live mitigation, and what was done to it.
#[derive(Clone, Copy, Drop)]
pub struct Mitigation<'a> {
    pub put: &'a Entry,
    pub status: Status,
}

/// The mitigations that are live at the time t.
pub fn mitigations<'a>(
    alloc: Global,
    t: u64,
    entries: &'a [Entry],
) -> Result<Vec<Mitigation<'a>>, NoMemory>
    ensures { IfOk result (λ list. map mitigation_of list.items ≡ mitigations t entries.now) }
{
    let mut list = Vec::new(alloc);
    for (place, put) in entries.iter().enumerate() {
        let status = status_after(put, Status::Open, &entries[place + 1..]);
        if is_live(t, put, status) {
            list.push(Mitigation { put, status })?;
        }
    }
    Ok(list)
}

/// What was written and no later entry undoes.
pub fn held<'a>(alloc: Global, entries: &'a [Entry]) -> Result<Vec<&'a Entry>, NoMemory>
    ensures { IfOk result (λ list. map (λ e. e.now) list.items ≡ held entries.now) }
{
    let mut list = Vec::new(alloc);
    for (place, entry) in entries.iter().enumerate() {
        if is_still_held(entry, &entries[place + 1..]) {
            list.push(entry)?;
        }
    }
    Ok(list)
}
