ghost use Rattle.std.specs.Prelude.{◌≡◌, [], IfOk, IfErr, refl};
ghost use Rattle.wire_figures.specs.Tallied.{Tallies};
ghost use Rattle.wire_figures.specs.TalliedLaws.{same_then, tallies_none, tallies_same, tallies_then};

use crate::tally::Tally;
use dots_host::{Call, Disk, Failed, Got, Host, NoMemory, Out, Sent, Wire};
use std::alloc::Global;
use std::marker::Model;

/// A host around a host, which hands every call on unchanged and counts what comes and what is sent.
#[derive(Drop)]
pub struct TallyHost<H> {
    inner: H,
    tally: Tally,
}

impl<H> Model for TallyHost<H> {
    ghost use Rattle.wire_figures.specs.Tallied.{Tallied};

    ghost Value = { Tallied H };

    ghost view = { λ host. record { inner = host.inner; calls = host.tally } };
}

impl<H: Host> TallyHost<H> {
    /// A host around this one, whose calls are counted from now on. Hands the host back where there is no memory.
    pub fn new(alloc: Global, inner: H) -> Result<TallyHost<H>, H>
        ensures ok { IfOk result (λ host. host ≡ record { inner = inner; calls = [] }) }
        ensures err { IfErr result (λ host. host ≡ inner) }
    {
        match Tally::new(alloc) {
            Ok(tally) => Ok(TallyHost { inner, tally }),
            Err(NoMemory) => Err(inner),
        }
    }

    /// The host inside.
    pub fn inner(&self) -> &H
        ensures { result.now ≡ self.now.inner }
    {
        &self.inner
    }

    /// What was counted.
    pub fn tally(&self) -> &Tally
        ensures { result.now ≡ self.now.calls }
    {
        &self.tally
    }

    /// The host inside again.
    pub fn into_inner(self) -> H
        ensures { result ≡ self.inner }
    {
        self.inner
    }
}

impl<H: Host> Wire for TallyHost<H> {
    ghost acts = { λ host. H.acts host.inner };

    ghost moment = { λ host. H.moment host.inner };

    ghost faults = { λ host. H.Wire.faults host.inner };

    ghost beside = { λ old new. H.Wire.beside old.inner new.inner };

    ghost beside_same = { λ host. H.Wire.beside_same host.inner };

    ghost beside_then = { λ old mid new. H.Wire.beside_then old.inner mid.inner new.inner };

    // The host inside went on, and what was counted are the acts that it tells of this.
    ghost leads = { λ old new. H.leads old.inner new.inner × Tallies (H.acts old.inner) (H.acts new.inner) old.calls new.calls };

    ghost leads_same = { λ host. (H.leads_same host.inner, tallies_same (H.acts host.inner) host.calls) };

    ghost leads_then = { λ old mid new a b. (
      H.leads_then old.inner mid.inner new.inner a.0 b.0,
      tallies_then (H.acts old.inner) (H.acts mid.inner) (H.acts new.inner) old.calls mid.calls new.calls a.1 b.1,
    ) };

    fn next(&mut self, into: &mut [u8]) -> Got {
        let got = self.inner.next(into);
        self.tally.note(&Call::Took {
            what: got.what,
            room: into,
            at: got.at,
        });
        got
    }

    fn send(&mut self, out: &Out) -> Sent {
        let sent = self.inner.send(out);
        self.tally.note(&Call::Gave { out: *out, sent });
        sent
    }
}

impl<H: Host> Disk for TallyHost<H> {
    ghost media = { λ host. H.media host.inner };

    ghost extent = { λ host. H.extent host.inner };

    ghost faults = { λ host. H.Disk.faults host.inner };

    ghost beside = { λ old new. H.Disk.beside old.inner new.inner × (new.calls ≡ old.calls) };

    ghost beside_same = { λ host. (H.Disk.beside_same host.inner, refl) };

    ghost beside_then = { λ old mid new a b.
        (H.Disk.beside_then old.inner mid.inner new.inner a.0 b.0, same_then old.calls mid.calls new.calls a.1 b.1) };

    fn size(&self) -> u64 {
        self.inner.size()
    }

    fn read(&mut self, at: u64, into: &mut [u8]) -> Result<(), Failed> {
        self.inner.read(at, into)
    }

    fn write_at(&mut self, at: u64, bytes: &[u8]) -> Result<(), Failed> {
        self.inner.write_at(at, bytes)
    }

    fn sync(&mut self) -> Result<(), Failed> {
        self.inner.sync()
    }
}

impl<H: Host> Host for TallyHost<H> {
    ghost one_moment = { λ host. H.one_moment host.inner };

    ghost disk_keeps = { λ old new keeps. (
      (H.disk_keeps old.inner new.inner keeps.0).0,
      (H.disk_keeps old.inner new.inner keeps.0).1,
      (
        (H.disk_keeps old.inner new.inner keeps.0).2,
        tallies_none (H.acts old.inner) (H.acts new.inner) old.calls new.calls keeps.1 (H.disk_keeps old.inner new.inner keeps.0).0,
      ),
    ) };

    ghost wire_keeps = { λ old new keeps. H.wire_keeps old.inner new.inner keeps };
}
