ghost use Rattle.std.specs.Prelude.{◌≡◌, OnOk, OnErr};
ghost use Rattle.dots_host.specs.Calls.{no_calls, failing_at, earlier, stopping_at, is_to_fail, is_stopped, counted};

use dots_lists::{List, NoMemory};
use std::alloc::Global;

/// The calls of a memory form so far, counted from 1, and those that are to fail.
#[derive(Drop)]
pub struct Calls {
    pub made: u64,
    pub failing: List<u64>,
    pub stop: Option<u64>,
}

impl Calls {
    pub fn new(alloc: Global) -> Self
        ensures { result ≡ no_calls }
    {
        Calls {
            made: 0,
            failing: List::new(alloc),
            stop: None,
        }
    }

    pub fn fail_at(&mut self, call: u64) -> Result<(), NoMemory>
        ensures ok { OnOk result (self.new ≡ failing_at self.old call) }
        ensures err { OnErr result (self.new ≡ self.old) }
    {
        self.failing.push(call)
    }

    pub fn stop_at(&mut self, call: u64)
        ensures { self.new ≡ stopping_at self.old call }
    {
        self.stop = Some(earlier(self.stop, call));
    }

    /// Counts one more call and tells whether it is to fail.
    pub fn next_fails(&mut self) -> bool
        ensures told { result ≡ is_to_fail self.old }
        ensures counted { self.new ≡ counted self.old }
    {
        self.made = self.made.saturating_add(1);
        let listed = self.failing.items().contains(&self.made);
        listed || is_stopped(self.made, self.stop)
    }
}

/// From where on all calls fail, once those from `call` on do.
fn earlier(stop: Option<u64>, call: u64) -> u64
    ensures { result ≡ earlier stop call }
{
    match stop {
        Some(from) => from.min(call),
        None => call,
    }
}

/// Whether all calls from this one on fail.
fn is_stopped(call: u64, stop: Option<u64>) -> bool
    ensures { result ≡ is_stopped call stop }
{
    match stop {
        Some(from) => from <= call,
        None => false,
    }
}
