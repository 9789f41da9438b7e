//! A live mitigation.

ghost use Rattle.std.specs.Prelude.{◌≡◌, ◌≤◌, ◌+◌, IfSome, IfNone, None, Some, nat_lt};
ghost use Rattle.dots_history.specs.Entries.{ends, withdraws, runs, same_client, replaces, takes_back, is_unexpired, put_of};
ghost use Rattle.dots_history.specs.Histories.{step, live, seconds_left, seconds_of};
ghost use Rattle.dots_history.specs.Rows.{triggers, waits};
ghost use Rattle.dots_history.specs.Keeping.{moved};
ghost use Rattle.dots_history.specs.declared.status.Status.TheVariants.{Open};
ghost use Rattle.dots_history.specs.declared.change.Change.TheVariants as change;
ghost use Rattle.dots_history.specs.Tables.{bare, end_of_grant};
ghost use Rattle.live_mitigations.specs.Ends.{never, second_of, end_second};
ghost use Rattle.live_mitigations.specs.Rows.{is_left};
ghost use Rattle.conflict_rules.specs.Lives.{put_or_nothing};
ghost use Rattle.conflict_rules.specs.LiveViews.{fitted, status_number};

use dots_history::{Change, Entry, Put, Status, is_granted_at, overlaps, put_of, withdrawn_mid};
use dots_lists::Text;
use std::marker::Model;

/// For how long a withdrawn mitigation goes on, in seconds (RFC 9132, section 4.4.4).
const TERMINATING: u64 = 120;

/// The lifetime that has no end.
const INDEFINITE: i32 = -1;

/// A mitigation that is live, and what was done to it since it was put. Contracts see it as the entry that put it,
/// without its message and reply, beside its status.
#[derive(Drop)]
pub struct Row {
    time: u64,
    peer: u32,
    domain: u16,
    cuid: Text,
    put: Put,
    status: Status,
}

impl Model for Row {
    ghost use Rattle.std.specs.Prelude.{[]};
    ghost use Rattle.dots_history.specs.Histories.{Mitigation};
    ghost use Rattle.dots_history.specs.declared.entry.MessageKey.TheVariants as key;
    ghost use Rattle.dots_history.specs.declared.change.Change.TheVariants as change;

    ghost Value = { Mitigation };

    ghost view = { λ row. record {
      put = record {
        time = row.time;
        peer = row.peer;
        domain = row.domain;
        cuid = row.cuid;
        key = key.Http;
        reply = [];
        change = change.Put row.put;
      };
      status = row.status;
    } };
}

impl Row {
    /// The mitigation that an entry puts, to which nothing was done yet; None where it puts none.
    pub(crate) fn of(entry: Entry) -> Option<Row>
        ensures none { IfNone result (put_of entry.change ≡ None) }
        ensures some { IfSome result (λ row. row ≡ record { put = bare entry; status = Open }) }
    {
        let Entry {
            time,
            peer,
            domain,
            cuid,
            change,
            ..
        } = entry;
        match change {
            Change::Put(put) => Some(Row {
                time,
                peer,
                domain,
                cuid,
                put,
                status: Status::Open,
            }),
            _ => None,
        }
    }

    /// Who asked for it.
    pub fn peer(&self) -> u32
        ensures { result ≡ self.now.put.peer }
    {
        self.peer
    }

    /// The domain that it is of.
    pub fn domain(&self) -> u16
        ensures { result ≡ self.now.put.domain }
    {
        self.domain
    }

    /// The client's name in its domain.
    pub fn cuid(&self) -> &Text
        ensures { result.now ≡ self.now.put.cuid }
    {
        &self.cuid
    }

    /// What was granted.
    pub fn put(&self) -> &Put
        ensures change { self.now.put.change ≡ change.Put result.now }
        ensures value { result.now ≡ put_or_nothing (put_of self.now.put.change) }
    {
        &self.put
    }

    /// Whether it filters at once, and not only while the signal of its client is lost (RFC 9132, section 4.4.1:
    /// `trigger-mitigation`).
    pub fn triggers(&self) -> bool
        ensures { result ≡ triggers self.now.put.change }
    {
        self.put.trigger
    }

    /// Whether it filters only while the signal of its client is lost.
    pub fn waits(&self) -> bool
        ensures { result ≡ waits self.now.put.change }
    {
        !self.put.trigger
    }

    /// The seconds left of it at the time t, as an i32.
    pub(crate) fn left(&self, t: u64) -> i32
        ensures { result ≡ fitted (seconds_left t self.now.put self.now.status) }
    {
        fit(self.seconds_left(t))
    }

    fn seconds_left(&self, t: u64) -> i128
        ensures { result ≡ seconds_left t self.now.put self.now.status }
    {
        match self.status {
            Status::Open => seconds_of(t, self.time, self.put.granted),
            Status::Withdrawn(at) => i128::from(at) + i128::from(TERMINATING) - i128::from(t),
            Status::Ended => 0,
        }
    }

    /// 2 where it stands, 5 where it is terminating.
    pub(crate) fn status_number(&self) -> u8
        ensures { result ≡ status_number self.now.status }
    {
        match self.status {
            Status::Open => 2,
            Status::Withdrawn(_) => 5,
            Status::Ended => 0,
        }
    }

    /// What was done to it.
    pub fn status(&self) -> Status
        ensures { result ≡ self.now.status }
    {
        self.status
    }

    /// Whether the entry ends it: it is a mitigation of its client with its mid, or with its trigger value, and overlaps
    /// with it.
    #[tactic(auto, unfolding(dots_history::specs::Entries::ends))]
    pub fn is_ended_by(&self, entry: &Entry) -> bool
        ensures { result ≡ ends self.now.put entry.now }
    {
        self.is_of_client_of(entry) && self.is_replaced_by(&entry.change)
    }

    #[tactic(auto, unfolding(dots_history::specs::Entries::same_client))]
    fn is_of_client_of(&self, entry: &Entry) -> bool
        ensures { result ≡ same_client self.now.put entry.now }
    {
        self.domain == entry.domain && self.cuid.bytes() == entry.cuid.bytes()
    }

    #[tactic(auto, unfolding(dots_history::specs::Entries::replaces))]
    fn is_replaced_by(&self, change: &Change) -> bool
        ensures { result ≡ replaces self.now.put.change change.now }
    {
        match put_of(change) {
            Some(put) => {
                self.put.mid == put.mid
                    || (self.put.trigger == put.trigger && overlaps(true, &self.put, put))
            }
            None => false,
        }
    }

    #[tactic(auto, unfolding(dots_history::specs::Entries::withdraws))]
    /// Whether the entry withdraws it: it is a withdrawal of its client with its mid.
    pub fn is_withdrawn_by(&self, entry: &Entry) -> bool
        ensures { result ≡ withdraws self.now.put entry.now }
    {
        self.is_of_client_of(entry) && self.is_taken_back_by(&entry.change)
    }

    #[tactic(auto, unfolding(dots_history::specs::Entries::takes_back))]
    fn is_taken_back_by(&self, change: &Change) -> bool
        ensures { result ≡ takes_back self.now.put.change change.now }
    {
        withdrawn_mid(change) == Some(self.put.mid)
    }

    /// Its status after one more entry. Once it is withdrawn it stays so: a second withdrawal changes nothing.
    pub(crate) fn step(&self, entry: &Entry) -> Status
        ensures { result ≡ step self.now.put self.now.status entry.now }
    {
        match self.status {
            Status::Ended => Status::Ended,
            Status::Open => {
                if self.is_ended_by(entry) {
                    return Status::Ended;
                }
                if self.is_withdrawn_by(entry) {
                    return Status::Withdrawn(entry.time);
                }
                Status::Open
            }
            Status::Withdrawn(at) => {
                if self.is_ended_by(entry) {
                    return Status::Ended;
                }
                Status::Withdrawn(at)
            }
        }
    }

    /// Whether the entry is of its client.
    #[tactic(auto, unfolding(dots_history::specs::Entries::same_client))]
    pub(crate) fn is_of_one_client(&self, entry: &Entry) -> bool
        ensures { result ≡ same_client entry.now self.now.put }
    {
        entry.domain == self.domain && entry.cuid.bytes() == self.cuid.bytes()
    }

    /// Whether it is live after the entry, at the entry's time.
    pub fn is_left(&self, entry: &Entry) -> bool
        ensures { result ≡ is_left entry.now self.now }
    {
        self.is_live_as(entry.time, self.step(entry))
    }

    /// Does to it what the entry does.
    pub(crate) fn take(&mut self, entry: &Entry)
        ensures { self.new ≡ moved entry.now self.old }
    {
        self.status = self.step(entry);
    }

    #[tactic(auto, unfolding(dots_history::specs::Entries::runs, dots_history::specs::Entries::is_unexpired))]
    fn runs(&self, t: u64) -> bool
        ensures { result ≡ runs t self.now.put }
    {
        is_granted_at(t, self.time, self.put.granted)
    }

    /// Whether it is live at the time t: it stands, or is terminating.
    pub fn is_live(&self, t: u64) -> bool
        ensures { result ≡ live t self.now.put self.now.status }
    {
        self.is_live_as(t, self.status)
    }

    /// Whether it is live at the time t with this status.
    pub(crate) fn is_live_as(&self, t: u64, status: Status) -> bool
        ensures { result ≡ live t self.now.put status }
    {
        match status {
            Status::Ended => false,
            Status::Open => self.runs(t),
            Status::Withdrawn(at) => self.runs(at) && is_terminating(t, at),
        }
    }

    /// The first second at which it is over.
    pub(crate) fn end(&self) -> u64
        ensures value { result ≡ end_second self.now }
        ensures most { result ≤ never }
    {
        match self.status {
            Status::Ended => 0,
            Status::Open => end_of_grant(self.time, self.put.granted),
            Status::Withdrawn(at) => {
                if self.runs(at) {
                    return at.saturating_add(TERMINATING);
                }
                0
            }
        }
    }
}

/// The seconds from the time t until a lifetime granted at one time is over, or -1 where it is indefinite.
fn seconds_of(t: u64, at: u64, granted: i32) -> i128
    ensures { result ≡ seconds_of t at granted }
{
    if granted == INDEFINITE {
        return -1;
    }
    i128::from(at) + i128::from(granted) - i128::from(t)
}

/// The nearest number of an i32.
fn fit(seconds: i128) -> i32
    ensures { result ≡ fitted seconds }
{
    seconds.max(i128::from(i32::MIN)).min(i128::from(i32::MAX)) as i32
}

/// Whether t is less than 120 seconds after the other time.
fn is_terminating(t: u64, at: u64) -> bool
    ensures { result ≡ nat_lt t (at + 120) }
{
    t < at || t - at < TERMINATING
}

/// The first second at which a lifetime granted at this time is over.
fn end_of_grant(at: u64, granted: i32) -> u64
    ensures { result ≡ second_of (end_of_grant at granted) }
{
    if granted == INDEFINITE {
        return u64::MAX;
    }
    match u64::try_from(granted) {
        Ok(seconds) => at.saturating_add(seconds),
        Err(_) => at.saturating_sub(u64::from(granted.unsigned_abs())),
    }
}
