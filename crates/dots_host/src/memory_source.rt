ghost use Rattle.std.specs.Prelude.{◌≡◌, min, length, IfOk, OnOk, OnErr, true, false, Some, Ok, take, drop, ◌≤◌};
ghost use Rattle.std.specs.Io.{ReadsAtMost};
ghost use Rattle.std.specs.Io.KnownBytes.{ReadConsumes};
ghost use Rattle.dots_host.specs.Causes.{HasCause};
ghost use Rattle.dots_host.specs.Calls.{no_calls, failing_at, is_to_fail, counted};

use crate::calls::Calls;
use crate::failed::Failed;
use crate::source::Source;
use dots_lists::{Bytes, NoMemory};
use std::alloc::Global;
use std::marker::Model;

/// A source over a list of bytes, which tells what it has left.
#[derive(Drop)]
pub struct MemorySource {
    bytes: Bytes,
    read: usize,
    calls: Calls,
    faults: u64,
}

impl Model for MemorySource {
    ghost use Rattle.std.specs.Prelude.{drop, length, ◌≤◌};
    ghost use Rattle.dots_host.specs.Memory.{Reading};

    ghost Value = { Reading };

    ghost view = { λ source. record { left = drop source.read source.bytes; calls = source.calls; faults = source.faults } };

    ghost invariant = { λ source. source.read ≤ length source.bytes };
}

impl MemorySource {
    /// A source of a copy of the bytes.
    pub fn new(alloc: Global, bytes: &[u8]) -> Result<Self, NoMemory>
        ensures { IfOk result (λ source.
            source ≡ record { left = bytes.now; calls = no_calls; faults = 0 }) }
    {
        let bytes = Bytes::from_slice(alloc, bytes)?;
        Ok(MemorySource {
            bytes,
            read: 0,
            calls: Calls::new(alloc),
            faults: 0,
        })
    }

    /// What is left to be read.
    pub fn left(&self) -> &[u8]
        ensures { result.now ≡ self.now.left }
    {
        rest_of(self.bytes.items(), self.read)
    }

    /// Lets the call of this number fail; the first call is number 1.
    pub fn fail_at(&mut self, call: u64) -> Result<(), NoMemory>
        ensures ok { OnOk result
            (self.new ≡ record self.old { calls = failing_at self.old.calls call }) }
        ensures err { OnErr result (self.new ≡ self.old) }
    {
        self.calls.fail_at(call)
    }
}

impl Source for MemorySource {
    ghost left = { λ source. Some source.left };

    ghost faults = { λ source. source.faults };

    fn read(&mut self, into: &mut [u8]) -> Result<usize, Failed>
        ensures bound { ReadsAtMost result into.new }
        ensures bytes { ReadConsumes (Some self.old.left) (Some self.new.left) result into.new }
        ensures cause { HasCause self.old.faults self.new.faults result }

        // It fails exactly where the call was to fail, and else gives as much as there is room for.
        ensures calls { self.new.calls ≡ counted self.old.calls }
        ensures fails { is_to_fail self.old.calls ≡ true → OnOk result ⊥ }
        ensures gives { is_to_fail self.old.calls ≡ false →
            result ≡ Ok (min (length self.old.left) (length into.old)) }
        ensures no_fault { OnOk result (self.new.faults ≡ self.old.faults) }
    {
        if self.calls.next_fails() {
            self.faults = self.faults.saturating_add(1);
            return Err(Failed);
        }
        let count = copy_front(rest_of(self.bytes.items(), self.read), into);
        self.read += count;
        Ok(count)
    }
}

/// The bytes that stand after the first ones.
fn rest_of(bytes: &[u8], read: usize) -> &[u8]
    requires { read ≤ length bytes.now }
    ensures { result.now ≡ drop read bytes.now }
{
    &bytes[read..]
}

/// Copies as many bytes as fit to the front of the room, and answers how many.
fn copy_front(bytes: &[u8], into: &mut [u8]) -> usize
    ensures count { result ≡ min (length bytes.now) (length into.old) }
    ensures copied { take result into.new ≡ take result bytes.now }
{
    let count = bytes.len().min(into.len());
    into[..count].copy_from_slice(&bytes[..count]);
    count
}
