ghost use Rattle.std.specs.Prelude.{◌≡◌, List, [], Some, None, IfOk, IfErr, refl};
ghost use Rattle.coap_block.specs.Around.{seen_above, no_blocks, GoesOnSeen};
ghost use Rattle.coap_block.specs.AroundLaws.{same_then, stored_above, seen_still};

use crate::cutting::Cutting;
use crate::seeing::{reply, see, send_written};
use dots_host::{Call, CallLog, Disk, Failed, Got, Host, NoMemory, Out, Sent, Wire};
use std::alloc::Global;
use std::marker::Model;

/// A host around a host: requests are handed in without Block2, replies leave cut into the blocks that were asked for, and long notifications leave as
/// their first blocks.
///
/// Each call makes one call of the host inside, so moments and faults are its own.
#[derive(Drop)]
pub struct BlockHost<H> {
    inner: H,
    log: CallLog,
    cutting: Cutting,
}

impl<H> Model for BlockHost<H> {
    ghost use Rattle.coap_block.specs.Around.{Wrapped};

    ghost Value = { Wrapped H };

    ghost view = { λ host. record { inner = host.inner; log = host.log.acts; blocks = host.cutting.blocks } };
}

impl<H: Host> BlockHost<H> {
    /// A host around this one. Nothing is awaited, stored or observed. Hands the host back where there is no memory.
    pub fn new(alloc: Global, inner: H) -> Result<BlockHost<H>, H>
        ensures ok { IfOk result (λ host. host ≡ record { inner = inner; log = []; blocks = no_blocks }) }
        ensures err { IfErr result (λ host. host ≡ inner) }
    {
        match Cutting::new(alloc) {
            Ok(cutting) => Ok(BlockHost {
                inner,
                log: CallLog::new(),
                cutting,
            }),
            Err(NoMemory) => Err(inner),
        }
    }

    /// The host inside.
    pub fn inner(&self) -> &H
        ensures { result.now ≡ self.now.inner }
    {
        &self.inner
    }

    /// The host inside again.
    pub fn into_inner(self) -> H
        ensures { result ≡ self.inner }
    {
        self.inner
    }
}

impl<H: Host> Wire for BlockHost<H> {
    ghost acts = { λ host. seen_above (H.acts host.inner) host.log };

    ghost moment = { λ host. H.moment host.inner };

    ghost faults = { λ host. H.Wire.faults host.inner };

    ghost beside = { λ old new. H.Wire.beside old.inner new.inner };

    ghost beside_same = { λ host. H.Wire.beside_same host.inner };

    ghost beside_then = { λ old mid new. H.Wire.beside_then old.inner mid.inner new.inner };

    // The host inside went on, and what was seen above goes on being what its acts come to.
    ghost leads = { λ old new. H.leads old.inner new.inner
        × GoesOnSeen (H.acts old.inner) old.log old.blocks (H.acts new.inner) new.log new.blocks };

    ghost leads_same = { λ host. (H.leads_same host.inner, λ start since. since) };

    ghost leads_then = { λ old mid new a b.
        (H.leads_then old.inner mid.inner new.inner a.0 b.0, λ start since. b.1 start (a.1 start since)) };

    fn next(&mut self, into: &mut [u8]) -> Got {
        let got = self.inner.next(into);
        let what = see(&mut self.cutting, got.what, into);
        let at = got.at;
        self.log = self.log.after(&Call::Took {
            what,
            room: into,
            at,
        });
        Got { what, at }
    }

    fn send(&mut self, out: &Out) -> Sent {
        let written = reply(&mut self.cutting, out);
        let sent = send_written(&mut self.inner, self.cutting.written(), written, out);
        self.log = self.log.after(&Call::Gave { out: *out, sent });
        sent
    }
}

impl<H: Host> Disk for BlockHost<H> {
    ghost media = { λ host. H.media host.inner };

    ghost extent = { λ host. H.extent host.inner };

    ghost faults = { λ host. H.Disk.faults host.inner };

    ghost beside = { λ old new. H.Disk.beside old.inner new.inner × (new.log ≡ old.log) × (new.blocks ≡ old.blocks) };

    ghost beside_same = { λ host. (H.Disk.beside_same host.inner, refl, refl) };

    ghost beside_then = { λ old mid new a b.
        (H.Disk.beside_then old.inner mid.inner new.inner a.0 b.0, same_then old.log mid.log new.log a.1 b.1, same_then old.blocks mid.blocks new.blocks a.2 b.2) };

    fn size(&self) -> u64 {
        self.inner.size()
    }

    fn read(&mut self, at: u64, into: &mut [u8]) -> Result<(), Failed> {
        self.inner.read(at, into)
    }

    fn write_at(&mut self, at: u64, bytes: &[u8]) -> Result<(), Failed> {
        self.inner.write_at(at, bytes)
    }

    fn sync(&mut self) -> Result<(), Failed> {
        self.inner.sync()
    }
}

impl<H: Host> Host for BlockHost<H> {
    ghost one_moment = { λ host. H.one_moment host.inner };

    ghost disk_keeps = { λ old new keeps. (
      stored_above (H.acts old.inner) (H.acts new.inner) old.log new.log keeps.1 (H.disk_keeps old.inner new.inner keeps.0).0,
      (H.disk_keeps old.inner new.inner keeps.0).1,
      (
        (H.disk_keeps old.inner new.inner keeps.0).2,
        seen_still (H.acts old.inner) (H.acts new.inner) old.log new.log old.blocks new.blocks keeps.1 keeps.2 (H.disk_keeps old.inner new.inner keeps.0).0,
      ),
    ) };

    ghost wire_keeps = { λ old new keeps. H.wire_keeps old.inner new.inner keeps };
}
