//! What is counted of the calls of a wire.

ghost use Rattle.std.specs.Prelude.{◌≡◌, ◌<◌, ◌++◌, ◌∷◌, [], IfOk, if◌then◌else◌};
ghost use Rattle.dots_host.specs.LoggedCalls.{act_of};
ghost use Rattle.wire_figures.specs.Counting.{is_event, is_datagram, is_stranger, is_opening, is_loss, with_code, with_status, counted, more_if, last_time};

use crate::calls::{
    code_of, is_datagram, is_event, is_loss, is_opening, is_stranger, status_of, time_after,
};
use crate::counters::Counters;
use dots_host::{Call, CallLog};
use dots_lists::NoMemory;
use std::alloc::Global;
use std::marker::Model;

/// The number under which a host hands in what comes from an address that it doesn't know.
pub const STRANGERS: u32 = u32::MAX;

/// Each code of a message is below this.
pub const CODES: usize = 256;

/// Each status of a reply is below this.
pub const STATUSES: usize = 600;

/// What is counted of the calls of a wire. Contracts see it as these calls: each count is how many of them have a property, and one that has reached the
/// end of its type stands still.
#[derive(Drop)]
pub struct Tally {
    log: CallLog,
    events: u64,
    datagrams: u64,
    strangers: u64,
    connections: u64,
    losses: u64,
    last: u64,
    codes: Counters,
    statuses: Counters,
}

impl Model for Tally {
    ghost use Rattle.std.specs.Prelude.{◌≡◌, List};
    ghost use Rattle.dots_host.specs.declared.act.Act.{Act};
    ghost use Rattle.wire_figures.specs.Counting.{is_event, is_datagram, is_stranger, is_opening, is_loss, counted, last_time, with_code, with_status, AreCounted};

    ghost Value = { List Act };

    ghost view = { λ tally. tally.log.acts };

    ghost invariant = { λ tally. (tally.events ≡ counted is_event tally.log.acts)
        × (tally.datagrams ≡ counted is_datagram tally.log.acts)
        × (tally.strangers ≡ counted is_stranger tally.log.acts)
        × (tally.connections ≡ counted is_opening tally.log.acts)
        × (tally.losses ≡ counted is_loss tally.log.acts)
        × (tally.last ≡ last_time tally.log.acts)
        × AreCounted with_code 256 tally.codes tally.log.acts
        × AreCounted with_status 600 tally.statuses tally.log.acts };
}

impl Tally {
    /// No call was made.
    pub fn new(alloc: Global) -> Result<Tally, NoMemory>
        ensures { IfOk result (λ tally. tally ≡ []) }
    {
        let codes = Counters::new(alloc, CODES)?;
        let statuses = Counters::new(alloc, STATUSES)?;
        Ok(Tally {
            log: CallLog::new(),
            events: 0,
            datagrams: 0,
            strangers: 0,
            connections: 0,
            losses: 0,
            last: 0,
            codes,
            statuses,
        })
    }

    /// Counts a call.
    pub fn note(&mut self, call: &Call<'_>)
        ensures { self.new ≡ self.old ++ act_of call.now ∷ [] }
    {
        self.log = self.log.after(call);
        self.events = more_if(is_event(call), self.events);
        self.datagrams = more_if(is_datagram(call), self.datagrams);
        self.strangers = more_if(is_stranger(call), self.strangers);
        self.connections = more_if(is_opening(call), self.connections);
        self.losses = more_if(is_loss(call), self.losses);
        self.last = time_after(call, self.last);
        self.codes.add(code_of(call));
        self.statuses.add(status_of(call));
    }

    /// How many events were handed in.
    pub fn events(&self) -> u64
        ensures { result ≡ counted is_event self.now }
    {
        self.events
    }

    /// How many datagrams came.
    pub fn datagrams(&self) -> u64
        ensures { result ≡ counted is_datagram self.now }
    {
        self.datagrams
    }

    /// How many of them came from nobody whose address is known.
    pub fn strangers(&self) -> u64
        ensures { result ≡ counted is_stranger self.now }
    {
        self.strangers
    }

    /// How many connections were opened.
    pub fn connections(&self) -> u64
        ensures { result ≡ counted is_opening self.now }
    {
        self.connections
    }

    /// How many sends were lost.
    pub fn losses(&self) -> u64
        ensures { result ≡ counted is_loss self.now }
    {
        self.losses
    }

    /// The time beside the last event, or 0 where none came.
    pub fn last_time(&self) -> u64
        ensures { result ≡ last_time self.now }
    {
        self.last
    }

    /// How many datagrams were sent with the code.
    pub fn with_code(&self, code: u8) -> u64
        ensures { result ≡ with_code code self.now }
    {
        self.codes.at(usize::from(code))
    }

    /// How many replies with the status were sent on connections.
    pub fn with_status(&self, status: u16) -> u64
        requires { status < 600 }
        ensures { result ≡ with_status status self.now }
    {
        self.statuses.at(usize::from(status))
    }
}

/// One more, where the call counts.
fn more_if(counts: bool, count: u64) -> u64
    ensures { result ≡ more_if counts count }
{
    if counts {
        return count.saturating_add(1);
    }
    count
}
