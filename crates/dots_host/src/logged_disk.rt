ghost use Rattle.std.specs.Prelude.{◌≡◌, ◌+◌, ◌≤◌, length, true, Some, OnOk, OnErr};
ghost use Rattle.dots_host.specs.declared.act.Act.TheVariants as act;
ghost use Rattle.dots_host.specs.Causes.{HasCause};
ghost use Rattle.dots_host.specs.Acts.{Adds, event_of, owned_of, is_done, taken, given};
ghost use Rattle.dots_host.specs.Media.{bytes_at, written, IsTorn, settled};
ghost use Rattle.dots_host.specs.Becoming.{Becomes, MayBecome, Stays};
ghost use Rattle.dots_host.specs.Logged.{zeros, with_call, media_since, acts_told, AddsCalls, KeepsLogged};
ghost use Rattle.dots_host.specs.LoggedLaws.{adds_calls_same, adds_calls_then};

use crate::call_log::{Call, CallLog};
use crate::content::Content;
use crate::disk::Disk;
use crate::event::Got;
use crate::failed::Failed;
use crate::out::{Out, Sent};
use dots_lists::NoMemory;
use std::alloc::Global;
use std::marker::Model;

/// A disk in memory. Its calls, and those of the wire beside it, stand in a log that exists in proofs alone, so it takes
/// memory for what is written to it and for nothing else.
///
/// It holds zeros above the highest place that was written. A write that finds no memory fails and changes nothing of what
/// a read gives. No other call fails.
#[derive(Drop)]
pub struct LoggedDisk {
    size: u64,
    content: Content,
    log: CallLog,
    faults: u64,
}

impl Model for LoggedDisk {
    ghost use Rattle.std.specs.Prelude.{◌≡◌};
    ghost use Rattle.dots_host.specs.Media.{byte_of};
    ghost use Rattle.dots_host.specs.Logged.{Logged, media_since};

    ghost Value = { Logged };

    ghost view = { λ disk. record { extent = disk.size; acts = disk.log.acts; faults = disk.faults } };

    ghost invariant = { λ disk. byte_of disk.content ≡ (media_since disk.log.acts).now.seen };
}

impl LoggedDisk {
    /// A disk of zeros, of a size in bytes. Takes no memory.
    pub fn new(alloc: Global, size: u64) -> Self
        ensures { result ≡ zeros size }
    {
        LoggedDisk {
            size,
            content: Content::new(alloc),
            log: CallLog::new(),
            faults: 0,
        }
    }

    /// Takes down that the wire beside the disk handed in an event, its bytes at the front of the room.
    pub fn note_taken(&mut self, got: Got, room: &[u8])
        ensures call { self.new ≡ with_call self.old (act.Took (event_of got.what room.now) got.at) }
        ensures adds { Adds (acts_told self.old) (length self.old.acts) (acts_told self.new) (length self.new.acts) (taken got room.now) }
        ensures beside { KeepsLogged self.old self.new }
    {
        self.log = self.log.after(&Call::Took {
            what: got.what,
            room,
            at: got.at,
        });
    }

    /// Takes down a send of the wire beside the disk.
    pub fn note_given(&mut self, out: &Out, sent: Sent)
        ensures call { self.new ≡ with_call self.old (act.Gave (owned_of out.now) (is_done sent)) }
        ensures adds { Adds (acts_told self.old) (length self.old.acts) (acts_told self.new) (length self.new.acts) (given out.now sent) }
        ensures beside { KeepsLogged self.old self.new }
    {
        self.log = self.log.after(&Call::Gave { out: *out, sent });
    }
}

impl Disk for LoggedDisk {
    ghost media = { λ disk. Some (media_since disk.acts) };

    ghost extent = { λ disk. disk.extent };

    ghost faults = { λ disk. disk.faults };

    ghost beside = { AddsCalls };

    ghost beside_same = { adds_calls_same };

    ghost beside_then = { adds_calls_then };

    fn size(&self) -> u64
        ensures { result ≡ self.now.extent }
    {
        self.size
    }

    fn read(&mut self, at: u64, into: &mut [u8]) -> Result<(), Failed>
        requires { at + length into.old ≤ self.old.extent }
        ensures bytes { OnOk result (into.new ≡ bytes_at (media_since self.old.acts).now.seen at (length into.old)) }
        ensures ok { OnOk result (Becomes (Some (media_since self.old.acts)) (Some (media_since self.new.acts)) Stays) }
        ensures err { OnErr result (MayBecome (Some (media_since self.old.acts)) (Some (media_since self.new.acts)) Stays) }
        ensures extent { self.new.extent ≡ self.old.extent }
        ensures cause { HasCause self.old.faults self.new.faults result }
        ensures beside { AddsCalls self.old self.new }

        // It never fails.
        ensures never { OnErr result ⊥ }
        ensures call { self.new ≡ with_call self.old (act.Read true) }
    {
        self.content.read(at as usize, into);
        self.log = self.log.after(&Call::Read { ok: true });
        Ok(())
    }

    fn write_at(&mut self, at: u64, bytes: &[u8]) -> Result<(), Failed>
        requires { at + length bytes.now ≤ self.old.extent }
        ensures ok { OnOk result (Becomes (Some (media_since self.old.acts)) (Some (media_since self.new.acts)) (λ old new.
            new ≡ written old at bytes.now)) }
        ensures err { OnErr result (MayBecome (Some (media_since self.old.acts)) (Some (media_since self.new.acts))
            (IsTorn at (length bytes.now))) }
        ensures extent { self.new.extent ≡ self.old.extent }
        ensures cause { HasCause self.old.faults self.new.faults result }
        ensures beside { AddsCalls self.old self.new }

        // Where it fails, a read gives what it gave before.
        ensures unwritten { OnErr result ((media_since self.new.acts).now.seen ≡ (media_since self.old.acts).now.seen) }
    {
        match self.content.write(at as usize, bytes) {
            Ok(()) => {
                let ok = true;
                self.log = self.log.after(&Call::Wrote { at, bytes, ok });
                return Ok(());
            }
            Err(NoMemory) => {
                let ok = false;
                self.log = self.log.after(&Call::Wrote { at, bytes, ok });
                self.faults = self.faults.saturating_add(1);
                return Err(Failed);
            }
        }
    }

    fn sync(&mut self) -> Result<(), Failed>
        ensures ok { OnOk result (Becomes (Some (media_since self.old.acts)) (Some (media_since self.new.acts)) (λ old new. new ≡ settled old)) }
        ensures err { OnErr result (MayBecome (Some (media_since self.old.acts)) (Some (media_since self.new.acts)) Stays) }
        ensures extent { self.new.extent ≡ self.old.extent }
        ensures cause { HasCause self.old.faults self.new.faults result }
        ensures beside { AddsCalls self.old self.new }

        // It never fails.
        ensures never { OnErr result ⊥ }
        ensures call { self.new ≡ with_call self.old (act.Synced true) }
    {
        self.log = self.log.after(&Call::Synced { ok: true });
        Ok(())
    }
}
