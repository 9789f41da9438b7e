ghost use Rattle.std.specs.Prelude.{◌≡◌, ◌<◌, [], length, IfOk, OnOk, OnErr, true, Some};
ghost use Rattle.std.specs.Io.{WritesAtMost};
ghost use Rattle.std.specs.Io.KnownBytes.{WriteAppends};
ghost use Rattle.dots_host.specs.Causes.{HasCause};
ghost use Rattle.dots_host.specs.Calls.{no_calls, failing_at, is_to_fail, counted};

use crate::calls::Calls;
use crate::failed::Failed;
use crate::sink::Sink;
use dots_lists::NoMemory;
use std::alloc::Global;
use std::marker::Model;

/// A sink over a list of bytes, which tells what it holds. Want of memory is a failure of the write.
#[derive(Drop)]
pub struct MemorySink {
    written: Vec<u8>,
    calls: Calls,
    faults: u64,
}

impl Model for MemorySink {
    ghost use Rattle.dots_host.specs.Memory.{Writing};

    ghost Value = { Writing };

    ghost view = { λ sink. record { written = sink.written.items; calls = sink.calls; faults = sink.faults } };
}

impl MemorySink {
    /// An empty sink. Takes no memory.
    pub fn new(alloc: Global) -> Self
        ensures { result ≡ record { written = []; calls = no_calls; faults = 0 } }
    {
        MemorySink {
            written: Vec::new(alloc),
            calls: Calls::new(alloc),
            faults: 0,
        }
    }

    /// What was written.
    pub fn bytes(&self) -> &[u8]
        ensures { result.now ≡ self.now.written }
    {
        self.written.as_slice()
    }

    /// Lets the call of this number fail; the first call is number 1.
    pub fn fail_at(&mut self, call: u64) -> Result<(), NoMemory>
        ensures ok { OnOk result
            (self.new ≡ record self.old { calls = failing_at self.old.calls call }) }
        ensures err { OnErr result (self.new ≡ self.old) }
    {
        self.calls.fail_at(call)
    }

    fn fail(&mut self) -> Result<usize, Failed>
        ensures held { self.new.written ≡ self.old.written }
        ensures calls { self.new.calls ≡ self.old.calls }
        ensures cause { HasCause self.old.faults self.new.faults result }
        ensures err { OnOk result ⊥ }
    {
        self.faults = self.faults.saturating_add(1);
        Err(Failed)
    }
}

impl Sink for MemorySink {
    ghost holds = { λ sink. Some sink.written };

    ghost faults = { λ sink. sink.faults };

    fn write(&mut self, bytes: &[u8]) -> Result<usize, Failed>
        ensures bound { WritesAtMost result bytes.now }
        ensures progress { 0 < length bytes.now → IfOk result (λ count. 0 < count) }
        ensures written { WriteAppends (Some self.old.written) (Some self.new.written) result bytes.now }
        ensures cause { HasCause self.old.faults self.new.faults result }

        // It takes all, and fails where the call was to fail, or for want of memory.
        ensures calls { self.new.calls ≡ counted self.old.calls }
        ensures fails { is_to_fail self.old.calls ≡ true → OnOk result ⊥ }
        ensures whole { IfOk result (λ count. count ≡ length bytes.now) }
        ensures no_fault { OnOk result (self.new.faults ≡ self.old.faults) }
    {
        if self.calls.next_fails() {
            return self.fail();
        }
        match self.written.extend_from_slice(bytes) {
            Ok(()) => Ok(bytes.len()),
            Err(_) => self.fail(),
        }
    }
}
