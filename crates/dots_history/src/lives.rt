//! Which mitigations are live.

ghost use Rattle.std.specs.Prelude.{◌≡◌, ◌+◌, nat_lt};
ghost use Rattle.dots_history.specs.Entries.{granted_at, is_unexpired, runs};
ghost use Rattle.dots_history.specs.Histories.{step, status, live};
ghost use Rattle.dots_history.specs.declared.status.Status.TheVariants.{Open};

use crate::change::Change;
use crate::entry::Entry;
use crate::relations::{ends, put_of, withdraws};
use crate::status::Status;

/// The lifetime that has no end.
const INDEFINITE: i32 = -1;

/// For how long a withdrawn mitigation goes on, in seconds (RFC 9132, section 4.4.4).
const TERMINATING: u64 = 120;

/// Whether a lifetime granted at one time, in seconds or -1, isn't over at the time t.
#[tactic(auto, unfolding(crate::specs::Entries::granted_at))]
pub fn is_granted_at(t: u64, at: u64, granted: i32) -> bool
    ensures { result ≡ granted_at t at granted }
{
    granted == INDEFINITE || i128::from(t) < i128::from(at) + i128::from(granted)
}

#[tactic(auto, unfolding(crate::specs::Entries::is_unexpired))]
fn is_unexpired(t: u64, at: u64, change: &Change) -> bool
    ensures { result ≡ is_unexpired t at change.now }
{
    match put_of(change) {
        Some(put) => is_granted_at(t, at, put.granted),
        None => false,
    }
}

/// Whether the entry is a mitigation whose lifetime isn't over at the time t.
#[tactic(auto, unfolding(crate::specs::Entries::runs))]
fn runs(t: u64, entry: &Entry) -> bool
    ensures { result ≡ runs t entry.now }
{
    is_unexpired(t, entry.time, &entry.change)
}

/// The status of a mitigation after one more entry.
fn step(put: &Entry, old: Status, entry: &Entry) -> Status
    ensures { result ≡ step put.now old entry.now }
{
    match old {
        Status::Ended => Status::Ended,
        Status::Open => {
            if ends(put, entry) {
                return Status::Ended;
            }
            if withdraws(put, entry) {
                return Status::Withdrawn(entry.time);
            }
            Status::Open
        }
        Status::Withdrawn(at) => {
            if ends(put, entry) {
                return Status::Ended;
            }
            Status::Withdrawn(at)
        }
    }
}

/// What these entries make of the status of a mitigation before them.
pub(crate) fn status_after(put: &Entry, old: Status, later: &[Entry]) -> Status
    ensures { result ≡ status put.now old later.now }
{
    let mut now = old;
    for entry in later {
        now = step(put, now, entry);
    }
    now
}

/// Whether a mitigation of this status is live at the time t: it stands, or is terminating for 120 seconds after its
/// withdrawal (RFC 9132, section 4.4.4).
pub fn is_live(t: u64, put: &Entry, status: Status) -> bool
    ensures { result ≡ live t put.now status }
{
    match status {
        Status::Ended => false,
        Status::Open => runs(t, put),
        Status::Withdrawn(at) => runs(at, put) && is_before(t, at),
    }
}

/// Whether t is less than 120 seconds after the other time.
fn is_before(t: u64, at: u64) -> bool
    ensures { result ≡ nat_lt t (at + 120) }
{
    t < at || t - at < TERMINATING
}

/// Whether the entry is a mitigation that is live at the time t, with these entries after it.
pub fn is_live_after(t: u64, put: &Entry, later: &[Entry]) -> bool
    ensures { result ≡ live t put.now (status put.now Open later.now) }
{
    is_live(t, put, status_after(put, Status::Open, later))
}
