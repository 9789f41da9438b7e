//! What a later entry does to an earlier mitigation.

ghost use Rattle.std.specs.Prelude.{◌≡◌, option_copied};
ghost use Rattle.dots_history.specs.Entries.{same_client, put_of, withdrawn_mid, replaces, ends, takes_back, withdraws, signals, is_signal, same_flag};
ghost use Rattle.dots_history.specs.Rows.{waits};

use crate::change::Change;
use crate::entry::Entry;
use crate::overlap::overlaps;
use crate::put::Put;

/// Whether two entries are of one client.
#[tactic(auto, unfolding(crate::specs::Entries::same_client))]
pub fn is_same_client(a: &Entry, b: &Entry) -> bool
    ensures { result ≡ same_client a.now b.now }
{
    a.domain == b.domain && a.cuid.bytes() == b.cuid.bytes()
}

/// Whether the later entry ends the earlier: both are mitigations of one client, with one mid or overlapping.
#[tactic(auto, unfolding(crate::specs::Entries::ends))]
pub fn ends(earlier: &Entry, later: &Entry) -> bool
    ensures { result ≡ ends earlier.now later.now }
{
    is_same_client(earlier, later) && replaces(&earlier.change, &later.change)
}

#[tactic(auto, unfolding(crate::specs::Entries::replaces))]
fn replaces(earlier: &Change, later: &Change) -> bool
    ensures { result ≡ replaces earlier.now later.now }
{
    let Some(a) = put_of(earlier) else {
        return false;
    };
    let Some(b) = put_of(later) else {
        return false;
    };
    a.mid == b.mid || (is_same_flag(a.trigger, b.trigger) && overlaps(true, a, b))
}

fn is_same_flag(a: bool, b: bool) -> bool
    ensures { result ≡ same_flag a b }
{
    if a { b } else { !b }
}

/// Whether the later entry withdraws the earlier, which is a mitigation of its client with the mid that it names.
#[tactic(auto, unfolding(crate::specs::Entries::withdraws))]
pub(crate) fn withdraws(earlier: &Entry, later: &Entry) -> bool
    ensures { result ≡ withdraws earlier.now later.now }
{
    is_same_client(earlier, later) && takes_back(&earlier.change, &later.change)
}

#[tactic(auto, unfolding(crate::specs::Entries::takes_back))]
fn takes_back(earlier: &Change, later: &Change) -> bool
    ensures { result ≡ takes_back earlier.now later.now }
{
    let Some(put) = put_of(earlier) else {
        return false;
    };
    withdrawn_mid(later) == Some(put.mid)
}

/// The mitigation of a change, where it is one.
pub fn put_of(change: &Change) -> Option<&Put>
    ensures { option_copied result ≡ put_of change.now }
{
    match change {
        Change::Put(put) => Some(put),
        _ => None,
    }
}

/// Whether a mitigation filters only while the signal of its client is lost (RFC 9132, section 4.4.1:
/// `trigger-mitigation` false).
pub fn waits(change: &Change) -> bool
    ensures { result ≡ waits change.now }
{
    put_of(change).is_some_and(|put| !put.trigger)
}

/// The mid that a change withdraws.
pub fn withdrawn_mid(change: &Change) -> Option<u32>
    ensures { result ≡ withdrawn_mid change.now }
{
    match change {
        Change::Withdraw { mid } => Some(*mid),
        _ => None,
    }
}

/// Whether the entry is a change that the peer made for the domain on the signal channel.
#[tactic(auto, unfolding(crate::specs::Entries::signals))]
pub(crate) fn signals(peer: u32, domain: u16, entry: &Entry) -> bool
    ensures { result ≡ signals peer domain entry.now }
{
    is_signal(&entry.change) && entry.peer == peer && entry.domain == domain
}

/// Whether the signal channel makes such changes.
#[tactic(auto, unfolding(crate::specs::Entries::is_signal))]
pub fn is_signal(change: &Change) -> bool
    ensures { result ≡ is_signal change.now }
{
    matches!(
        change,
        Change::Put(_) | Change::Withdraw { .. } | Change::SetConfig { .. } | Change::ClearConfig
    )
}
