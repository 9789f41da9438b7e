//! The rows of the mitigations that are live, made in order of their entries.

ghost use Rattle.std.specs.Prelude.{◌≡◌, ◌+◌, ◌≤◌, Some, List, length, OnOk};
ghost use Rattle.dots_history.specs.declared.entry.Entry.{Entry};
ghost use Rattle.dots_history.specs.Histories.{Mitigation};
ghost use Rattle.held_resources.specs.Tables.{lost_in};
ghost use Rattle.live_mitigations.specs.LiveValues.{rows_for};
ghost use Rattle.live_mitigations.specs.Rows.{slots_of};
ghost use Rattle.live_mitigations.specs.Slots.{put_in};
ghost use Rattle.installed_filters.specs.Filters.{rows_put};
ghost use Rattle.dots_registry.specs.Gathering.{rows_at};
ghost use Rattle.dots_registry.specs.Awaited.{Awaits, AwaitsSome, filters_found};

use dots_lists::NoMemory;
use held_resources::HeldResources;
use installed_filters::InstalledFilters;
use live_mitigations::LiveMitigations;
use std::alloc::Global;

/// Makes the rows of the mitigations that are live, and says of each access list whether it is active. The domains are those of all
/// entries; each entry stands in the slot of its place.
pub(crate) fn install_all(
    alloc: Global,
    live: &LiveMitigations,
    held: &HeldResources,
    domains: &[u16],
    filters: &mut InstalledFilters,
) -> Result<(), NoMemory>
    requires { AwaitsSome live.now held.now domains.now filters.old }
    ensures { OnOk result ((entries : List Entry) → Awaits entries live.now held.now domains.now filters.old
        → filters.new ≡ rows_at live.now.time entries filters.old) }
{
    let mut slot = 0;
    for domain in domains {
        install_at(alloc, live, held, *domain, slot, filters)?;
        slot += 1;
    }
    Ok(())
}

/// Makes the rows of the mitigation of this domain whose entry stands in this slot, where it is live.
fn install_at(
    alloc: Global,
    live: &LiveMitigations,
    held: &HeldResources,
    domain: u16,
    slot: u32,
    filters: &mut InstalledFilters,
) -> Result<(), NoMemory>
    requires { (m : Mitigation) → put_in slot (rows_for live.now domain) (slots_of domain live.now.tables) ≡ Some m
        → length filters.old.scrubs + length (rows_put m.put) ≤ filters.old.scrub_room }
    ensures { OnOk result (filters.new ≡ filters_found (lost_in held.now) (put_in slot (rows_for live.now domain) (slots_of domain live.now.tables)) filters.old) }
{
    match live.put_in(domain, slot) {
        Some(row) => {
            filters.install(alloc, row, held)?;
            Ok(())
        }
        None => Ok(()),
    }
}
