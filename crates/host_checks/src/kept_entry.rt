//! Entries that the view of a journal names, with what the new settings say of each.

ghost use Rattle.std.specs.Prelude.{◌≡◌, ◌<◌, ◌^◌, ◌++◌, ◌∷◌, [], map, length, IfOk, OnOk};
ghost use Rattle.host_checks.specs.Migrating.{number_in, is_still_own};
ghost use Rattle.host_checks.specs.KeptEntries.{is_one_of, judged, picked};

use dots_history::{Entry, is_of_settings};
use dots_lists::NoMemory;
use dots_settings::{NO_DOMAIN, Settings};
use slot_journal::EntryList;
use std::alloc::Global;

/// An entry of a journal, with its slot.
#[derive(Drop)]
pub(crate) struct KeptEntry {
    /// The slot in which it stands.
    pub slot: u32,
    pub entry: Entry,
    /// Whether the new settings have its domain, and it is their own.
    pub own: bool,
}

/// The number in the new settings of a domain of the old ones, by its name.
#[tactic(auto, using(crate::proofs::Naming::number_there, crate::proofs::Naming::number_beyond))]
pub(crate) fn number_in(old: &Settings, new: &Settings, domain: u16) -> Option<u16>
    ensures { result ≡ number_in old.now new.now domain }
{
    if domain == NO_DOMAIN {
        return Some(NO_DOMAIN);
    }
    if domain < old.domains() {
        return new.domain_named(old.domain_name(domain));
    }
    None
}

/// Whether the new settings have the entry's domain, and the entry is their own. The entry stays as it is.
fn is_still_own(old: &Settings, new: &Settings, entry: &mut Entry) -> bool
    ensures own { result ≡ is_still_own old.now new.now entry.old }
    ensures same { entry.new ≡ entry.old }
{
    let domain = entry.domain;
    let Some(number) = number_in(old, new, domain) else {
        return false;
    };
    entry.domain = number;
    let own = is_of_settings(new, entry);
    entry.domain = domain;
    own
}

/// Whether the slot is one of these.
fn is_one_of(keep: &[u32], slot: u32) -> bool
    ensures { result ≡ is_one_of keep.now slot }
{
    keep.iter().any(|other| *other == slot)
}

/// Adds the entry, where its slot is one of these.
fn put(
    list: &mut Vec<KeptEntry>,
    old: &Settings,
    new: &Settings,
    keep: &[u32],
    slot: u32,
    mut entry: Entry,
) -> Result<(), NoMemory>
    ensures { OnOk result (list.new.items ≡ list.old.items ++ map (judged old.now new.now) (picked keep.now slot (entry ∷ []))) }
{
    if !is_one_of(keep, slot) {
        drop(entry);
        return Ok(());
    }
    let own = is_still_own(old, new, &mut entry);
    list.push(KeptEntry { slot, entry, own })?;
    Ok(())
}

/// The entries that stand in these slots, each with its slot.
pub(crate) fn pick(
    alloc: Global,
    old: &Settings,
    new: &Settings,
    entries: EntryList,
    keep: &[u32],
) -> Result<Vec<KeptEntry>, NoMemory>
    requires { length entries < 2 ^ 32 }
    ensures { IfOk result (λ list. list.items ≡ map (judged old.now new.now) (picked keep.now 0 entries)) }
{
    let mut list = Vec::new(alloc);
    let mut slot = 0;
    for entry in entries.into_vec() {
        put(&mut list, old, new, keep, slot, entry)?;
        slot += 1;
    }
    Ok(list)
}
