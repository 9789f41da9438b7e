//! Which replies are remembered.

ghost use Rattle.std.specs.Prelude.{◌≡◌, ◌&&◌, option_copied};
ghost use Rattle.dots_history.specs.Entries.{signals, may_repeat};
ghost use Rattle.dots_history.specs.Histories.{tally, is_recent, remembered};

use crate::entry::{Entry, MessageKey};
use crate::relations::{is_signal, signals};

/// For how long a non-confirmable message may be repeated, in seconds (RFC 7252, section 4.8.2).
const NON_LIFETIME: u64 = 145;

/// For how long a confirmable message may be repeated, in seconds (RFC 7252, section 4.8.2).
const EXCHANGE_LIFETIME: u64 = 247;

/// The entry whose reply a repeat of a message gets at the time t: of the last `count` signal entries of this peer and
/// domain, the last one of this Message ID that isn't too old (RFC 7252, section 4.5).
pub fn remembered(
    count: usize,
    t: u64,
    peer: u32,
    domain: u16,
    id: u16,
    entries: &[Entry],
) -> Option<&Entry>
    ensures { option_copied result ≡ remembered count t peer domain id entries.now }
{
    let mut found = None;
    for (place, entry) in entries.iter().enumerate() {
        let answers = signals(peer, domain, entry)
            && is_recent(count, entry, &entries[place + 1..])
            && is_remembered(t, id, entry.time, entry.key);
        if answers {
            found = Some(entry);
        }
    }
    found
}

/// Whether the message of an entry of this time and key had this Message ID and may still be repeated at the time t.
#[tactic(auto, unfolding(crate::specs::Entries::may_repeat))]
pub fn is_remembered(t: u64, id: u16, at: u64, key: MessageKey) -> bool
    ensures { result ≡ may_repeat t id at key }
{
    match key {
        MessageKey::Http => false,
        MessageKey::Non(other) => id == other && t.saturating_sub(at) <= NON_LIFETIME,
        MessageKey::Con(other) => id == other && t.saturating_sub(at) <= EXCHANGE_LIFETIME,
    }
}

/// Whether the entry is a signal entry with fewer than `count` of its peer and domain after it.
fn is_recent(count: usize, entry: &Entry, later: &[Entry]) -> bool
    ensures { result ≡ is_recent count entry.now later.now }
{
    is_signal(&entry.change) && signals_of(entry.peer, entry.domain, later) < count
}

/// How many of the entries are signal entries of the peer and domain.
fn signals_of(peer: u32, domain: u16, entries: &[Entry]) -> usize
    ensures { result ≡ tally (signals peer domain) entries.now }
{
    let mut count = 0;
    for entry in entries {
        if signals(peer, domain, entry) {
            count += 1;
        }
    }
    count
}
