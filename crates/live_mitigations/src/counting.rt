//! How many live mitigations there are after an entry.

ghost use Rattle.std.specs.Prelude.{◌≡◌, ◌+◌, ◌≤◌, ◌&&◌, if◌then◌else◌, length, nat_le};
ghost use Rattle.dots_history.specs.Entries.{same_client};
ghost use Rattle.dots_history.specs.Histories.{tally};
ghost use Rattle.live_mitigations.specs.Rows.{is_left};
ghost use Rattle.live_mitigations.specs.LiveRows.{mitigations_in};
ghost use Rattle.live_mitigations.specs.LiveValues.{keeps_limits};

use crate::live_row::LiveRow;
use dots_history::{Entry, Status, is_live};
use dots_settings::Limits;

/// Whether after the entry, at its time, these live mitigations of its domain and its own are as many as may be at most.
pub(crate) fn keep_limits(rows: &[LiveRow], entry: &Entry, limits: &Limits) -> bool
    ensures { result ≡ keeps_limits limits.now entry.now (mitigations_in rows.now) }
{
    let more = is_live(entry.time, entry, Status::Open);
    are_few(count_left(rows, entry), more, limits.domain_mitigations)
        && are_few(count_own_left(rows, entry), more, limits.client_mitigations)
}

/// Whether so many, and perhaps one more, are at most the limit.
fn are_few(count: usize, more: bool, limit: u32) -> bool
    ensures { result ≡ nat_le (count + (if more then 1 else 0)) limit }
{
    if more {
        return count < limit as usize;
    }
    count <= limit as usize
}

/// How many of these are live after the entry, at its time.
fn count_left(rows: &[LiveRow], entry: &Entry) -> usize
    ensures { result ≡ tally (is_left entry.now) (mitigations_in rows.now) }
{
    let mut count = 0;
    for row in rows {
        if row.mitigation.is_left(entry) {
            count += 1;
        }
    }
    count
}

/// How many of these are of the entry's client and are live after the entry, at its time.
fn count_own_left(rows: &[LiveRow], entry: &Entry) -> usize
    ensures { result ≡ tally (λ m. is_left entry.now m && same_client entry.now m.put) (mitigations_in rows.now) }
{
    let mut count = 0;
    for row in rows {
        if row.mitigation.is_left(entry) && row.mitigation.is_of_one_client(entry) {
            count += 1;
        }
    }
    count
}
