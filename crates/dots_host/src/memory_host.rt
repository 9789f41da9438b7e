ghost use Rattle.std.specs.Prelude.{◌≡◌, ◌+◌, ◌<◌, ◌≤◌, ◌^◌, [], length, drop, true, false, IsTrue, Some, IfOk, OnOk, OnErr};
ghost use Rattle.dots_host.specs.Causes.{Rose, HasCause};
ghost use Rattle.dots_host.specs.Acts.{IsWithin, OnFailed, OnEvent, Adds, taken, given};
ghost use Rattle.dots_host.specs.Memory.{told, is_given, first_coming, first_taken};
ghost use Rattle.dots_host.specs.declared.TheConstants.{MAX_EVENT_BYTES};
ghost use Rattle.dots_host.specs.Calls.{no_calls, failing_at, stopping_at, is_to_fail, counted};
ghost use Rattle.dots_host.specs.Media.{byte_of, bytes_at, written, IsTorn, settled};
ghost use Rattle.dots_host.specs.Becoming.{Becomes, MayBecome, Stays};
ghost use Rattle.dots_host.specs.Stored.{media_of, KeepsDisk};
ghost use Rattle.dots_host.specs.Hosted.{with_event, HandsOut, KeepsWire};
ghost use Rattle.dots_host.specs.StoredLaws.{keeps_disk_same, keeps_disk_then, one_moment, keeps_acts};
ghost use Rattle.dots_host.specs.HostedLaws.{hands_out_same, hands_out_then, keeps_wire_same, keeps_wire_then, disk_leads};

use crate::MAX_EVENT_BYTES;
use crate::act::Act;
use crate::calls::Calls;
use crate::disk::Disk;
use crate::event::{Event, Got, What};
use crate::failed::Failed;
use crate::handing::hand_in;
use crate::host::Host;
use crate::memory_disk::MemoryDisk;
use crate::out::{Out, Sent};
use crate::wire::Wire;
use dots_lists::NoMemory;
use std::alloc::Global;
use std::collections::VecDeque;
use std::marker::Model;

/// An event that will be handed in.
#[derive(Drop)]
struct Planned {
    event: Event,
    at: u64,
}

impl Model for Planned {
    ghost use Rattle.std.specs.Prelude.{◌<◌, ◌^◌, IsTrue};
    ghost use Rattle.dots_host.specs.Memory.{Coming, is_given};

    ghost Value = { Coming };

    ghost view = { λ planned. record { event = planned.event; at = planned.at } };

    ghost invariant = { λ planned. IsTrue (is_given planned.event) × (planned.at < 2 ^ 48) };
}

/// Takes out the first event and the time beside it, or answers `End` where there is none.
fn first(coming: &mut VecDeque<Planned>) -> (Event, u64)
    ensures event { result.0 ≡ (first_coming coming.old.items).event }
    ensures at { result.1 ≡ (first_coming coming.old.items).at }
    ensures given { IsTrue (is_given result.0) }
    ensures timely { result.1 < 2 ^ 48 }
    ensures rest { coming.new.items ≡ drop 1 coming.old.items }
{
    match coming.pop_front() {
        Some(planned) => {
            let Planned { event, at } = planned;
            (event, at)
        }
        None => (Event::End, 0),
    }
}

/// A host over a list of events and a memory disk, which records each call and tells its acts.
///
/// A call that can't be recorded for want of memory fails, and from then on the acts are no longer told. When
/// the events are used up, `next` answers `End` at time 0.
#[derive(Drop)]
pub struct MemoryHost {
    alloc: Global,
    coming: VecDeque<Planned>,
    disk: MemoryDisk,
    calls: Calls,
    faults: u64,
}

impl Model for MemoryHost {
    ghost use Rattle.dots_host.specs.Hosted.{Hosted};

    ghost Value = { Hosted };

    ghost view = { λ host. record { coming = host.coming.items; disk = host.disk; calls = host.calls; faults = host.faults } };
}

const FAILED: Got = Got {
    what: What::Failed,
    at: 0,
};

impl MemoryHost {
    /// A host to which nothing comes yet, with a disk of zeros of a size in bytes.
    pub fn new(alloc: Global, size: u64) -> Result<Self, NoMemory>
        ensures coming { IfOk result (λ host. host.coming ≡ []) }
        ensures calls { IfOk result (λ host. host.calls ≡ no_calls) }
        ensures faults { IfOk result (λ host. (host.faults ≡ 0) × (host.disk.faults ≡ 0)) }
        ensures acts { IfOk result (λ host. (host.disk.acts ≡ []) × (host.disk.whole ≡ true)) }
        ensures disk { IfOk result (λ host. (host.disk.extent ≡ size) × (host.disk.base ≡ [])) }
    {
        Ok(MemoryHost {
            alloc,
            coming: VecDeque::new(alloc),
            disk: MemoryDisk::new(alloc, size),
            calls: Calls::new(alloc),
            faults: 0,
        })
    }

    /// Lets an event come after those that were pushed before, with a time in seconds beside it.
    pub fn push(&mut self, event: Event, at: u64) -> Result<(), NoMemory>
        requires given { IsTrue (is_given event) }
        requires at { at < 2 ^ 48 }
        ensures ok { OnOk result (self.new ≡ with_event self.old event at) }
        ensures err { OnErr result (self.new ≡ self.old) }
    {
        self.coming.push_back(Planned { event, at })?;
        Ok(())
    }

    /// Lets the call of this number fail, of the disk or of the wire; the first call is number 1.
    pub fn fail_at(&mut self, call: u64) -> Result<(), NoMemory>
        ensures ok { OnOk result
            (self.new ≡ record self.old { calls = failing_at self.old.calls call }) }
        ensures err { OnErr result (self.new ≡ self.old) }
    {
        self.calls.fail_at(call)
    }

    /// Lets the call of this number and every later one fail, beside those that were to fail before.
    pub fn stop_at(&mut self, call: u64)
        ensures { self.new ≡ record self.old { calls = stopping_at self.old.calls call } }
    {
        self.calls.stop_at(call);
    }

    /// Lets the disk hold these bytes and then zeros, before any call.
    pub fn load(&mut self, image: &[u8]) -> Result<(), NoMemory>
        requires size { length image.now ≤ self.old.disk.extent }
        requires calls { self.old.disk.acts ≡ [] }
        ensures ok { OnOk result (self.new ≡ record self.old { disk = record self.old.disk { base = image.now } }) }
        ensures err { OnErr result (self.new ≡ self.old) }
    {
        self.disk.load(image)
    }

    /// What a read gives, up to the highest place that was written or loaded; after it a read gives zeros.
    pub fn image(&self) -> &[u8]
        ensures { byte_of result.now ≡ (media_of self.now.disk).now.seen }
    {
        self.disk.image()
    }

    /// Whether each call so far was recorded.
    pub fn whole(&self) -> bool
        ensures { result ≡ self.now.disk.whole }
    {
        self.disk.is_whole()
    }

    /// The calls recorded so far.
    pub fn acts(&self) -> &[Act]
        ensures { result.now ≡ self.now.disk.acts }
    {
        self.disk.acts()
    }

    /// Counts a fault of the wire.
    fn fail(&mut self) -> Got
        ensures what { result ≡ record { what = What.Failed; at = 0 } }
        ensures rose { Rose self.old.faults self.new.faults }
        ensures later { self.old.faults ≤ self.new.faults }
        ensures kept { self.new ≡ record self.old { faults = self.new.faults } }
    {
        self.faults = self.faults.saturating_add(1);
        FAILED
    }
}

impl Wire for MemoryHost {
    ghost acts = { λ host. told host.disk.whole host.disk.acts };

    ghost moment = { λ host. length host.disk.acts };

    ghost faults = { λ host. host.faults };

    ghost beside = { λ old new. KeepsDisk old.disk new.disk };

    ghost beside_same = { λ host. keeps_disk_same host.disk };

    ghost beside_then = { λ old mid new. keeps_disk_then old.disk mid.disk new.disk };

    ghost leads = { HandsOut };

    ghost leads_same = { hands_out_same };

    ghost leads_then = { hands_out_then };

    fn next(&mut self, into: &mut [u8]) -> Got
        requires { length into.old ≡ MAX_EVENT_BYTES }
        ensures at { result.at < 2 ^ 48 }
        ensures within { IsWithin result.what MAX_EVENT_BYTES }
        ensures acts { Adds (told self.old.disk.whole self.old.disk.acts) (length self.old.disk.acts)
            (told self.new.disk.whole self.new.disk.acts) (length self.new.disk.acts) (taken result into.new) }
        ensures later { self.old.faults ≤ self.new.faults }
        ensures cause { OnFailed result.what (Rose self.old.faults self.new.faults) }
        ensures beside { KeepsDisk self.old.disk self.new.disk }
        ensures leads { HandsOut self.old self.new }

        // It fails where the call was to fail, and else only for want of memory.
        ensures calls { self.new.calls ≡ counted self.old.calls }
        ensures fails { is_to_fail self.old.calls ≡ true → result.what ≡ What.Failed }
        ensures memory { is_to_fail self.old.calls ≡ false → self.new.disk.whole ≡ true →
            OnFailed result.what ⊥ }

        // A failed call keeps the events to come; any other hands in the first of them and is recorded.
        ensures kept { OnFailed result.what (self.new.coming ≡ self.old.coming) }
        ensures first { OnEvent result.what (taken result into.new ≡ first_taken self.old.coming) }
        ensures rest { OnEvent result.what (self.new.coming ≡ drop 1 self.old.coming) }
        ensures whole { OnEvent result.what (self.new.disk.whole ≡ self.old.disk.whole) }
        ensures no_fault { OnEvent result.what (self.new.faults ≡ self.old.faults) }
    {
        let fails = self.calls.next_fails();
        if !self.disk.make_room() {
            return self.fail();
        }
        if fails {
            self.disk.log(Act::Took {
                event: Event::Failed,
                at: FAILED.at,
            });
            return self.fail();
        }
        let (event, at) = first(&mut self.coming);
        let what = hand_in(&event, into);
        self.disk.log(Act::Took { event, at });
        Got { what, at }
    }

    fn send(&mut self, out: &Out) -> Sent
        ensures acts { Adds (told self.old.disk.whole self.old.disk.acts) (length self.old.disk.acts)
            (told self.new.disk.whole self.new.disk.acts) (length self.new.disk.acts) (given out.now result) }
        ensures faults { self.new.faults ≡ self.old.faults }
        ensures beside { KeepsDisk self.old.disk self.new.disk }
        ensures leads { HandsOut self.old self.new }

        // It is lost where the call was to fail, and else done unless memory ran out.
        ensures calls { self.new.calls ≡ counted self.old.calls }
        ensures fails { is_to_fail self.old.calls ≡ true → result ≡ Sent.Lost }
        ensures does { is_to_fail self.old.calls ≡ false → self.new.disk.whole ≡ true →
            result ≡ Sent.Done }
        ensures whole { result ≡ Sent.Done → self.new.disk.whole ≡ self.old.disk.whole }
        ensures coming { self.new.coming ≡ self.old.coming }
    {
        let sent = if self.calls.next_fails() {
            Sent::Lost
        } else {
            Sent::Done
        };
        if self.disk.record_given(self.alloc, out, sent) {
            return sent;
        }
        Sent::Lost
    }
}

impl Disk for MemoryHost {
    ghost media = { λ host. Some (media_of host.disk) };

    ghost extent = { λ host. host.disk.extent };

    ghost faults = { λ host. host.disk.faults };

    ghost beside = { KeepsWire };

    ghost beside_same = { keeps_wire_same };

    ghost beside_then = { keeps_wire_then };

    fn size(&self) -> u64
        ensures { result ≡ self.now.disk.extent }
    {
        self.disk.size()
    }

    fn read(&mut self, at: u64, into: &mut [u8]) -> Result<(), Failed>
        requires { at + length into.old ≤ self.old.disk.extent }
        ensures bytes { OnOk result (into.new ≡ bytes_at (media_of self.old.disk).now.seen at (length into.old)) }
        ensures ok { OnOk result (Becomes (Some (media_of self.old.disk)) (Some (media_of self.new.disk)) Stays) }
        ensures err { OnErr result (MayBecome (Some (media_of self.old.disk)) (Some (media_of self.new.disk)) Stays) }
        ensures extent { self.new.disk.extent ≡ self.old.disk.extent }
        ensures cause { HasCause self.old.disk.faults self.new.disk.faults result }
        ensures beside { KeepsWire self.old self.new }

        // It fails where the call was to fail, and else only for want of memory.
        ensures calls { self.new.calls ≡ counted self.old.calls }
        ensures fails { is_to_fail self.old.calls ≡ true → OnOk result ⊥ }
        ensures memory { is_to_fail self.old.calls ≡ false → OnErr result (self.new.disk.whole ≡ false) }
        ensures whole { OnOk result (self.new.disk.whole ≡ self.old.disk.whole) }
    {
        if self.calls.next_fails() {
            return self.disk.fail_read();
        }
        self.disk.read(at, into)
    }

    fn write_at(&mut self, at: u64, bytes: &[u8]) -> Result<(), Failed>
        requires { at + length bytes.now ≤ self.old.disk.extent }
        ensures ok { OnOk result (Becomes (Some (media_of self.old.disk)) (Some (media_of self.new.disk)) (λ old new.
            new ≡ written old at bytes.now)) }
        ensures err { OnErr result (MayBecome (Some (media_of self.old.disk)) (Some (media_of self.new.disk))
            (IsTorn at (length bytes.now))) }
        ensures extent { self.new.disk.extent ≡ self.old.disk.extent }
        ensures cause { HasCause self.old.disk.faults self.new.disk.faults result }
        ensures beside { KeepsWire self.old self.new }

        // It fails where the call was to fail, and else only for want of memory.
        ensures calls { self.new.calls ≡ counted self.old.calls }
        ensures fails { is_to_fail self.old.calls ≡ true → OnOk result ⊥ }
        ensures memory { is_to_fail self.old.calls ≡ false → OnErr result (self.new.disk.whole ≡ false) }
        ensures whole { OnOk result (self.new.disk.whole ≡ self.old.disk.whole) }
    {
        if self.calls.next_fails() {
            return self.disk.fail_write(at, bytes);
        }
        self.disk.write_at(at, bytes)
    }

    fn sync(&mut self) -> Result<(), Failed>
        ensures ok { OnOk result (Becomes (Some (media_of self.old.disk)) (Some (media_of self.new.disk)) (λ old new. new ≡ settled old)) }
        ensures err { OnErr result (MayBecome (Some (media_of self.old.disk)) (Some (media_of self.new.disk)) Stays) }
        ensures extent { self.new.disk.extent ≡ self.old.disk.extent }
        ensures cause { HasCause self.old.disk.faults self.new.disk.faults result }
        ensures beside { KeepsWire self.old self.new }

        // It fails where the call was to fail, and else only for want of memory.
        ensures calls { self.new.calls ≡ counted self.old.calls }
        ensures fails { is_to_fail self.old.calls ≡ true → OnOk result ⊥ }
        ensures memory { is_to_fail self.old.calls ≡ false → OnErr result (self.new.disk.whole ≡ false) }
        ensures whole { OnOk result (self.new.disk.whole ≡ self.old.disk.whole) }
    {
        if self.calls.next_fails() {
            return self.disk.fail_sync();
        }
        self.disk.sync()
    }
}

impl Host for MemoryHost {
    ghost one_moment = { λ host. one_moment host.disk };

    ghost disk_keeps = { λ old new keeps. (keeps_acts old.disk new.disk keeps.disk, keeps.faults, disk_leads old new keeps) };

    ghost wire_keeps = { λ old new keeps. (keeps.media, keeps.extent, keeps.faults) };
}
