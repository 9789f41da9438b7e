ghost use Rattle.std.specs.Prelude.{◌≡◌, ◌⊎◌, ◌+◌, ◌≤◌, ◌<◌, [], length, true, false, Some, OnOk, OnErr, MatchBool};
ghost use Rattle.dots_host.specs.declared.act.Act.TheVariants as act;
ghost use Rattle.dots_host.specs.Causes.{HasCause};
ghost use Rattle.dots_host.specs.Acts.{IsWithin, Adds, event_of, owned_of, is_done, taken, given};
ghost use Rattle.dots_host.specs.Memory.{told};
ghost use Rattle.dots_host.specs.Media.{Medium, byte_of, bytes_at, written, IsTorn, settled, after};
ghost use Rattle.dots_host.specs.Becoming.{Becomes, MayBecome, Stays};
ghost use Rattle.dots_host.specs.Stored.{media_of, IsOfWire, IsOfDisk, GoesOn, KeepsDisk, Records, Forgets, MakesRoom};
ghost use Rattle.dots_host.specs.StoredLaws.{goes_on_same, goes_on_then};

use crate::act::Act;
use crate::content::Content;
use crate::disk::Disk;
use crate::event::Got;
use crate::failed::Failed;
use crate::out::{Out, Sent};
use crate::tape::Tape;
use dots_lists::{Bytes, NoMemory};
use std::alloc::Global;
use std::marker::Model;

/// A disk in memory, the disk of the hosts over memory. It records its calls, and those of the wire beside it.
///
/// It holds zeros above the highest place that was written. A call that finds no memory fails, changes nothing,
/// and isn't recorded; from then on the acts are no longer told.
#[derive(Drop)]
pub struct MemoryDisk {
    alloc: Global,
    size: u64,
    base: Content,
    content: Content,
    tape: Tape,
    faults: u64,
}

impl Model for MemoryDisk {
    ghost use Rattle.std.specs.Prelude.{◌≡◌, ◌≤◌, length};
    ghost use Rattle.dots_host.specs.Media.{byte_of, blank, grown};
    ghost use Rattle.dots_host.specs.Stored.{Stored};

    ghost Value = { Stored };

    ghost view = { λ disk. record { extent = disk.size; base = disk.base; acts = disk.tape.acts; whole = disk.tape.whole; room = disk.tape.room; faults = disk.faults } };

    ghost invariant = { λ disk. byte_of disk.content ≡ (grown (blank disk.base) disk.tape.acts).now.seen };
}

impl MemoryDisk {
    /// A disk of zeros, of a size in bytes. Takes no memory.
    pub fn new(alloc: Global, size: u64) -> Self
        ensures extent { result.extent ≡ size }
        ensures base { result.base ≡ [] }
        ensures acts { result.acts ≡ [] }
        ensures whole { result.whole ≡ true }
        ensures faults { result.faults ≡ 0 }
    {
        MemoryDisk {
            alloc,
            size,
            base: Content::new(alloc),
            content: Content::new(alloc),
            tape: Tape::new(alloc),
            faults: 0,
        }
    }

    /// Lets the disk hold these bytes and then zeros, before any call.
    pub fn load(&mut self, image: &[u8]) -> Result<(), NoMemory>
        requires size { length image.now ≤ self.old.extent }
        requires calls { self.old.acts ≡ [] }
        ensures ok { OnOk result (self.new ≡ record self.old { base = image.now }) }
        ensures err { OnErr result (self.new ≡ self.old) }
    {
        let base = Content::from_slice(self.alloc, image)?;
        let content = Content::from_slice(self.alloc, image)?;
        self.base = base;
        self.content = content;
        Ok(())
    }

    /// What a read gives, up to the highest place that was written or loaded; after it a read gives zeros.
    pub fn image(&self) -> &[u8]
        ensures { byte_of result.now ≡ (media_of self.now).now.seen }
    {
        self.content.bytes()
    }

    /// The calls recorded so far.
    pub fn acts(&self) -> &[Act]
        ensures { result.now ≡ self.now.acts }
    {
        self.tape.acts()
    }

    /// Whether each call so far was recorded.
    pub fn is_whole(&self) -> bool
        ensures { result ≡ self.now.whole }
    {
        self.tape.is_whole()
    }

    /// Makes room for one more call, or gives up being whole.
    pub fn make_room(&mut self) -> bool
        ensures room { MatchBool result (MakesRoom self.old self.new) (Forgets self.old self.new) }
        ensures faults { self.new.faults ≡ self.old.faults }
    {
        self.tape.make_room()
    }

    /// Records a call of the wire beside the disk, for which there is room.
    pub fn log(&mut self, act: Act)
        requires room { 0 < self.old.room }
        requires wire { IsOfWire act }
        ensures call { Records self.old self.new act }
        ensures faults { self.new.faults ≡ self.old.faults }
    {
        self.tape.log(act);
    }

    /// Records that the wire beside the disk handed in an event, its bytes at the front of the room, and answers whether
    /// that could be done.
    pub fn record_taken(&mut self, alloc: Global, got: Got, room: &[u8]) -> bool
        requires { IsWithin got.what (length room.now) }
        ensures call { MatchBool result (Records self.old self.new (act.Took (event_of got.what room.now) got.at))
            (Forgets self.old self.new) }
        ensures adds { Adds (told self.old.whole self.old.acts) (length self.old.acts)
            (told self.new.whole self.new.acts) (length self.new.acts) (taken got room.now) }
        ensures beside { KeepsDisk self.old self.new }
    {
        self.tape.record_taken(alloc, got, room)
    }

    /// Records a send of the wire beside the disk, and answers whether that could be done.
    pub fn record_given(&mut self, alloc: Global, out: &Out, sent: Sent) -> bool
        ensures call { MatchBool result (Records self.old self.new (act.Gave (owned_of out.now) (is_done sent)))
            (Forgets self.old self.new) }
        ensures adds { Adds (told self.old.whole self.old.acts) (length self.old.acts)
            (told self.new.whole self.new.acts) (length self.new.acts) (given out.now sent) }
        ensures beside { KeepsDisk self.old self.new }
    {
        self.tape.record_given(alloc, out, sent)
    }

    /// A call for which memory ran out.
    fn give_up(&mut self) -> Result<(), Failed>
        ensures err { OnOk result ⊥ }
        ensures call { Forgets self.old self.new }
        ensures cause { HasCause self.old.faults self.new.faults result }
    {
        self.tape.forget();
        self.faults = self.faults.saturating_add(1);
        Err(Failed)
    }

    /// Records a call of the disk that changes nothing of what a read gives.
    fn record(&mut self, act: Act)
        requires room { 0 < self.old.room }
        requires disk { IsOfDisk act }
        requires seen { (medium : Medium) → (after medium act).seen ≡ medium.seen }
        ensures call { Records self.old self.new act }
        ensures faults { self.new.faults ≡ self.old.faults }
    {
        self.tape.log(act);
    }

    /// Fails, and records this call where there is room.
    fn fail(&mut self, act: Act) -> Result<(), Failed>
        requires disk { IsOfDisk act }
        requires seen { (medium : Medium) → (after medium act).seen ≡ medium.seen }
        ensures err { OnOk result ⊥ }
        ensures call { Records self.old self.new act ⊎ Forgets self.old self.new }
        ensures cause { HasCause self.old.faults self.new.faults result }
    {
        if !self.tape.make_room() {
            return self.give_up();
        }
        self.record(act);
        self.faults = self.faults.saturating_add(1);
        Err(Failed)
    }

    /// A read that fails.
    pub fn fail_read(&mut self) -> Result<(), Failed>
        ensures err { OnOk result ⊥ }
        ensures media { MayBecome (Some (media_of self.old)) (Some (media_of self.new)) Stays }
        ensures extent { self.new.extent ≡ self.old.extent }
        ensures cause { HasCause self.old.faults self.new.faults result }
        ensures beside { GoesOn self.old self.new }
    {
        self.fail(Act::Read { ok: false })
    }

    /// A write that fails.
    pub fn fail_write(&mut self, at: u64, bytes: &[u8]) -> Result<(), Failed>
        ensures err { OnOk result ⊥ }
        ensures media { MayBecome (Some (media_of self.old)) (Some (media_of self.new))
            (IsTorn at (length bytes.now)) }
        ensures extent { self.new.extent ≡ self.old.extent }
        ensures cause { HasCause self.old.faults self.new.faults result }
        ensures beside { GoesOn self.old self.new }
    {
        let Ok(bytes) = Bytes::from_slice(self.alloc, bytes) else {
            return self.give_up();
        };
        let ok = false;
        self.fail(Act::Wrote { at, bytes, ok })
    }

    /// A sync that fails.
    pub fn fail_sync(&mut self) -> Result<(), Failed>
        ensures err { OnOk result ⊥ }
        ensures media { MayBecome (Some (media_of self.old)) (Some (media_of self.new)) Stays }
        ensures extent { self.new.extent ≡ self.old.extent }
        ensures cause { HasCause self.old.faults self.new.faults result }
        ensures beside { GoesOn self.old self.new }
    {
        self.fail(Act::Synced { ok: false })
    }
}

impl Disk for MemoryDisk {
    ghost media = { λ disk. Some (media_of disk) };

    ghost extent = { λ disk. disk.extent };

    ghost faults = { λ disk. disk.faults };

    ghost beside = { GoesOn };

    ghost beside_same = { goes_on_same };

    ghost beside_then = { goes_on_then };

    fn size(&self) -> u64
        ensures { result ≡ self.now.extent }
    {
        self.size
    }

    fn read(&mut self, at: u64, into: &mut [u8]) -> Result<(), Failed>
        requires { at + length into.old ≤ self.old.extent }
        ensures bytes { OnOk result (into.new ≡ bytes_at (media_of self.old).now.seen at (length into.old)) }
        ensures ok { OnOk result (Becomes (Some (media_of self.old)) (Some (media_of self.new)) Stays) }
        ensures err { OnErr result (MayBecome (Some (media_of self.old)) (Some (media_of self.new)) Stays) }
        ensures extent { self.new.extent ≡ self.old.extent }
        ensures cause { HasCause self.old.faults self.new.faults result }
        ensures beside { GoesOn self.old self.new }

        // It fails for want of memory alone.
        ensures memory { OnErr result (self.new.whole ≡ false) }
        ensures whole { OnOk result (self.new.whole ≡ self.old.whole) }
    {
        if !self.tape.make_room() {
            return self.give_up();
        }
        self.content.read(at as usize, into);
        self.record(Act::Read { ok: true });
        Ok(())
    }

    fn write_at(&mut self, at: u64, bytes: &[u8]) -> Result<(), Failed>
        requires { at + length bytes.now ≤ self.old.extent }
        ensures ok { OnOk result (Becomes (Some (media_of self.old)) (Some (media_of self.new)) (λ old new.
            new ≡ written old at bytes.now)) }
        ensures err { OnErr result (MayBecome (Some (media_of self.old)) (Some (media_of self.new))
            (IsTorn at (length bytes.now))) }
        ensures extent { self.new.extent ≡ self.old.extent }
        ensures cause { HasCause self.old.faults self.new.faults result }
        ensures beside { GoesOn self.old self.new }

        // It fails for want of memory alone.
        ensures memory { OnErr result (self.new.whole ≡ false) }
        ensures whole { OnOk result (self.new.whole ≡ self.old.whole) }
    {
        let Ok(copy) = Bytes::from_slice(self.alloc, bytes) else {
            return self.give_up();
        };
        if !self.tape.make_room() {
            return self.give_up();
        }
        let Ok(()) = self.content.write(at as usize, bytes) else {
            return self.give_up();
        };
        self.tape.log(Act::Wrote {
            at,
            bytes: copy,
            ok: true,
        });
        Ok(())
    }

    fn sync(&mut self) -> Result<(), Failed>
        ensures ok { OnOk result (Becomes (Some (media_of self.old)) (Some (media_of self.new)) (λ old new. new ≡ settled old)) }
        ensures err { OnErr result (MayBecome (Some (media_of self.old)) (Some (media_of self.new)) Stays) }
        ensures extent { self.new.extent ≡ self.old.extent }
        ensures cause { HasCause self.old.faults self.new.faults result }
        ensures beside { GoesOn self.old self.new }

        // It fails for want of memory alone.
        ensures memory { OnErr result (self.new.whole ≡ false) }
        ensures whole { OnOk result (self.new.whole ≡ self.old.whole) }
    {
        if !self.tape.make_room() {
            return self.give_up();
        }
        self.record(Act::Synced { ok: true });
        Ok(())
    }
}
