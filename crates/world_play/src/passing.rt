//! The gateway of a world, with its store on a disk in memory.

ghost use Rattle.std.specs.Prelude.{◌≡◌, ◌<◌, ◌≤◌, ◌^◌, [], length, IfOk, OnOk};
ghost use Rattle.dots_host.specs.declared.event.Event.TheVariants as event;
ghost use Rattle.gateway_agent.specs.Passing.{GatewayState, opened, restarted};
ghost use Rattle.world_play.specs.Packets.{AreRouted};
ghost use Rattle.world_play.specs.Parties.{upstream_for};
ghost use Rattle.world_play.specs.Passing.{IsReady, IsIn, HasPassed};

use crate::parties::Parties;
use crate::sending::{post, since};
use dots_gateway::GatewayCore;
use dots_host::{Got, MemoryHost, NoMemory, What};
use dots_world::{Packet, Party};
use gateway_agent::{Store, begin, restart, take_telling};
use std::alloc::Global;

/// The bytes of a disk: as many as any settings need. What isn't written takes no memory.
pub const DISK_SIZE: u64 = 1 << 30;

/// The gateway, what it keeps, and the host that it runs over.
#[derive(Drop)]
pub struct GatewaySide {
    pub core: GatewayCore,
    pub store: Store,
    pub host: MemoryHost,
}

impl GatewaySide {
    /// A gateway that keeps nothing yet.
    pub fn begin(alloc: Global, parties: &Parties) -> Result<Self, NoMemory>
        ensures ready { IfOk result (λ side. IsReady parties.now side) }
        ensures is_in { IfOk result (λ side. IsIn parties.now side (opened parties.now.gateway_settings (upstream_for parties.now) [] 0)) }
    {
        let mut host = MemoryHost::new(alloc, DISK_SIZE)?;
        match begin(
            alloc,
            &mut host,
            &parties.gateway_settings,
            parties.upstream(),
            0,
        ) {
            Ok((core, store)) => Ok(GatewaySide { core, store, host }),
            Err(_) => Err(NoMemory),
        }
    }

    /// The gateway begins anew with what it keeps.
    pub fn restart(self, alloc: Global, parties: &Parties, at: u64) -> Result<Self, NoMemory>
        requires early { at < 2 ^ 48 }
        requires ready { IsReady parties.now self }
        ensures ready { IfOk result (λ side. IsReady parties.now side) }
        ensures restarted { IfOk result (λ side. (state : GatewayState) → IsIn parties.now self state → IsIn parties.now side (restarted state at)) }
    {
        let GatewaySide {
            core,
            store,
            mut host,
        } = self;
        let settings = &parties.gateway_settings;
        match restart(
            alloc,
            core,
            store,
            &mut host,
            settings,
            parties.upstream(),
            at,
        ) {
            Ok((core, store)) => Ok(GatewaySide { core, store, host }),
            Err(_) => Err(NoMemory),
        }
    }

    /// Lets all of it go.
    pub fn let_go(self) {}

    /// The gateway takes a datagram of a peer. What it sends is put behind the packets.
    ///
    /// # Errors
    ///
    /// Only for want of memory: of this call, or of the gateway for what it was to send.
    pub fn pass(
        &mut self,
        parties: &Parties,
        from: u32,
        bytes: &[u8],
        at: u64,
        packets: &mut Vec<Packet>,
    ) -> Result<(), NoMemory>
        requires few { length parties.now.clients < 2 ^ 32 }
        requires early { at < 2 ^ 48 }
        requires ready { IsReady parties.now self.old }
        ensures ready { OnOk result (IsReady parties.now self.new) }
        ensures routed { OnOk result (AreRouted parties.now packets.old.items packets.new.items) }
        ensures passed { OnOk result ((state : GatewayState) → IsIn parties.now self.old state
            → HasPassed parties.now state (event.Datagram from bytes.now) at self.new packets.old.items packets.new.items) }
    {
        let before = self.host.acts().len();
        let got = Got {
            what: What::Datagram {
                from,
                len: bytes.len(),
            },
            at,
        };
        let upstream = parties.upstream();
        let Ok(true) = take_telling(
            &mut self.core,
            &mut self.store,
            &mut self.host,
            upstream,
            &got,
            bytes,
        ) else {
            return Err(NoMemory);
        };
        if !self.host.whole() {
            return Err(NoMemory);
        }
        post(
            parties,
            Party::Gateway,
            since(self.host.acts(), before),
            packets,
        )
    }
}
