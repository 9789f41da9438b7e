//! Which mitigations filter.

ghost use Rattle.std.specs.Prelude.{◌≡◌};
ghost use Rattle.std.specs.List.{list_any};
ghost use Rattle.dots_history.specs.Rows.{triggers};
ghost use Rattle.held_resources.specs.Tables.{lost_in};
ghost use Rattle.installed_filters.specs.Filters as filters;
ghost use Rattle.live_mitigations.specs.LiveRows.{mitigations_in};
ghost use Rattle.installed_filters.specs.Filters.{works_by, some_of};

use dots_history::{Change, Entry, put_of};
use held_resources::HeldResources;
use live_mitigations::{LiveRow, Row};

/// Whether a client of this name has a mitigation that filters, among those of its domain. What is held says whose signal
/// is lost.
pub fn is_mitigating(rows: &[LiveRow], cuid: &[u8], held: &HeldResources) -> bool
    ensures { result ≡ some_of (filters.is_working (lost_in held.now)) cuid.now (mitigations_in rows.now) }
{
    rows.iter().any(|row| {
        is_working(&row.mitigation, held) && row.mitigation.cuid().bytes() == cuid
    })
}

/// Whether a mitigation filters: at once, or because the signal of its peer is lost (RFC 9132, section 4.4.1).
pub(crate) fn is_working(row: &Row, held: &HeldResources) -> bool
    ensures { result ≡ filters.is_working (lost_in held.now) row.now }
{
    row.triggers() || held.lost(row.peer(), row.domain())
}

/// The same of the mitigation that an entry puts.
pub(crate) fn works(entry: &Entry, held: &HeldResources) -> bool
    ensures { result ≡ works_by (lost_in held.now) entry.now }
{
    triggers(&entry.change) || held.lost(entry.peer, entry.domain)
}

/// Whether a change puts a mitigation that filters at once.
fn triggers(change: &Change) -> bool
    ensures { result ≡ triggers change.now }
{
    put_of(change).is_some_and(|put| put.trigger)
}

/// Whether a mitigation filters only while the signal of this peer is lost.
pub(crate) fn is_waiting_for(row: &Row, peer: u32) -> bool
    ensures { result ≡ filters.is_waiting_for peer row.now }
{
    row.waits() && row.peer() == peer
}
