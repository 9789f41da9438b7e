//! The server of a world, with its journal on a disk in memory.

ghost use Rattle.std.specs.Prelude.{◌≡◌, ◌<◌, ◌≤◌, ◌^◌, [], length, IfOk, OnOk};
ghost use Rattle.dots_host.specs.Acts.{IsWithin, event_of};
ghost use Rattle.dots_settings.specs.Settings.{SettingsValue};
ghost use Rattle.dots_machine.specs.Machine.{State, begun_from};
ghost use Rattle.dots_server.specs.Turning.{IsServed};
ghost use Rattle.world_play.specs.Packets.{AreRouted};
ghost use Rattle.world_play.specs.Serving.{IsReady, IsIn, HasServed, HasRestarted};

use crate::parties::Parties;
use crate::passing::DISK_SIZE;
use crate::sending::{post, since, tell};
use dots_host::{Got, MemoryHost, NoMemory, Tape, What};
use dots_load::is_served;
use dots_server::Server;
use dots_settings::Settings;
use dots_world::{Packet, Party};
use std::alloc::Global;

/// The server, the host that it runs over, and its acts: the events that it took, and what it sent.
#[derive(Drop)]
pub struct ServerSide {
    pub server: Server,
    pub host: MemoryHost,
    pub acts: Tape,
}

impl ServerSide {
    /// A server that has accepted nothing yet.
    pub fn begin(alloc: Global, settings: Settings) -> Result<Self, NoMemory>
        ensures ready { IfOk result (λ side. IsReady side) }
        ensures is_in { IfOk result (λ side. IsIn settings side (begun_from settings [])) }
        ensures acts { IfOk result (λ side. side.acts.acts ≡ []) }
    {
        let mut host = MemoryHost::new(alloc, DISK_SIZE)?;
        match Server::begin(alloc, settings, &mut host, 0) {
            Ok(server) => Ok(ServerSide {
                server,
                host,
                acts: Tape::new(alloc),
            }),
            Err(_) => Err(NoMemory),
        }
    }

    /// The server restarts, with what its disk holds.
    pub fn restart(self, alloc: Global, at: u64) -> Result<Self, NoMemory>
        requires early { at < 2 ^ 48 }
        requires ready { IsReady self }
        ensures ready { IfOk result (λ side. IsReady side) }
        ensures restarted { IfOk result (λ side. (settings : SettingsValue) (state : State) → IsIn settings self state
            → HasRestarted settings state at side self.acts.acts) }
    {
        let ServerSide {
            server,
            mut host,
            mut acts,
        } = self;
        let got = Got {
            what: What::Restart,
            at,
        };
        if !acts.record_taken(alloc, got, &[]) {
            server.let_go();
            return Err(NoMemory);
        }
        match server.restart(&mut host, at) {
            Ok(server) => Ok(ServerSide { server, host, acts }),
            Err(_) => Err(NoMemory),
        }
    }

    /// Lets all of it go.
    pub fn let_go(self) {
        self.server.let_go();
    }

    /// The server takes an event, its bytes in the room. What it sends is put behind the packets.
    ///
    /// # Errors
    ///
    /// Only for want of memory: of this call, or of the server, which tells it by 5.00.
    pub fn serve(
        &mut self,
        alloc: Global,
        parties: &Parties,
        what: What,
        room: &[u8],
        at: u64,
        packets: &mut Vec<Packet>,
    ) -> Result<(), NoMemory>
        requires few { length parties.now.clients < 2 ^ 32 }
        requires within { IsWithin what (length room.now) }
        requires early { at < 2 ^ 48 }
        requires served { IsServed what }
        requires ready { IsReady self.old }
        ensures ready { OnOk result (IsReady self.new) }
        ensures routed { OnOk result (AreRouted parties.now packets.old.items packets.new.items) }
        ensures served { OnOk result ((settings : SettingsValue) (state : State) → IsIn settings self.old state
            → HasServed settings parties.now state (event_of what room.now) at self.new self.old.acts.acts packets.old.items packets.new.items) }
    {
        let got = Got { what, at };
        if !self.acts.record_taken(alloc, got, room) {
            return Err(NoMemory);
        }
        let before = self.host.acts().len();
        match self.server.handle(&mut self.host, &got, room) {
            Ok(()) => {}
            Err(_) => return Err(NoMemory),
        }
        if !self.host.whole() {
            return Err(NoMemory);
        }
        let calls = since(self.host.acts(), before);
        if !is_served(calls) {
            return Err(NoMemory);
        }
        tell(alloc, calls, &mut self.acts)?;
        post(parties, Party::Server, calls, packets)
    }
}
