//! Which mitigations might stand again, since what ended them is left out.

ghost use Rattle.std.specs.Prelude.{◌≡◌, length, IfOk};
ghost use Rattle.std.specs.List.{list_any};
ghost use Rattle.dots_history.specs.Entries.{ends};
ghost use Rattle.host_checks.specs.KeptEntries.{is_lost, might_return_by, flags_of};

use crate::kept_entry::KeptEntry;
use dots_history::{Entry, ends, is_same_client, put_of};
use dots_lists::NoMemory;
use std::alloc::Global;

/// Of each entry whether it might stand again: a later one ended it, and its client loses one of those that it put later.
pub(crate) fn returns(alloc: Global, list: &[KeptEntry]) -> Result<Vec<bool>, NoMemory>
    ensures flags { IfOk result (λ flags. flags.items ≡ flags_of list.now) }
    ensures each { IfOk result (λ flags. length flags.items ≡ length list.now) }
{
    let mut flags = Vec::new(alloc);
    for (place, kept) in list.iter().enumerate() {
        flags.push(might_return(&kept.entry, &list[place + 1..]))?;
    }
    Ok(flags)
}

fn might_return(entry: &Entry, later: &[KeptEntry]) -> bool
    ensures { result ≡ might_return_by entry.now later.now }
{
    is_ended(entry, later) && loses_later(entry, later)
}

/// Whether one of these ended the mitigation.
fn is_ended(entry: &Entry, later: &[KeptEntry]) -> bool
    ensures { result ≡ list_any (λ kept. ends entry.now kept.entry) later.now }
{
    later.iter().any(|kept| ends(entry, &kept.entry))
}

/// Whether one of these is a mitigation of the entry's client that isn't the new settings' own.
fn loses_later(entry: &Entry, later: &[KeptEntry]) -> bool
    ensures { result ≡ list_any (is_lost entry.now) later.now }
{
    later.iter().any(|kept| is_lost(entry, kept))
}

fn is_lost(entry: &Entry, kept: &KeptEntry) -> bool
    ensures { result ≡ is_lost entry.now kept.now }
{
    is_same_client(entry, &kept.entry) && put_of(&kept.entry.change).is_some() && !kept.own
}
