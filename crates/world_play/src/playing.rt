//! The events of a world, one after the other.

ghost use Rattle.std.specs.Prelude.{◌≡◌, ◌<◌, ◌≤◌, ◌^◌, ℕ, List, [], length, IfOk, OnOk, Some};
ghost use Rattle.std.specs.List.{AllByRecursion, range_with_len};
ghost use Rattle.dots_settings.specs.Settings.{SettingsValue};
ghost use Rattle.dots_machine.specs.Answering.{AreBytes};
ghost use Rattle.dots_machine.specs.Machine.{State, Step, begun_from};
ghost use Rattle.dots_world.specs.Worlds.{World, begun, AsksFor, Serves, AllHandOut};
ghost use Rattle.dots_world.specs.OneWorld.{StepsWell, PassesOnWell, ReceivesWell, RunsWell};
ghost use Rattle.dots_world.specs.declared.party.Party.TheVariants.{Gateway as the_gateway, Server as the_server};
ghost use Rattle.dots_host.specs.declared.event.Event.TheVariants as incoming;
ghost use Rattle.dots_world.specs.declared.event.WorldEvent.TheVariants as event;
ghost use Rattle.dots_host.specs.Acts.{IsWithin, event_of};
ghost use Rattle.dots_server.specs.Turning.{IsServed};
ghost use Rattle.world_play.specs.Packets.{Reaches};
ghost use Rattle.world_play.specs.Parties.{plan_of, plan_with};
ghost use Rattle.world_play.specs.Playing.{PlaysAs, IsSound, IsEarly, IsTaken, Goes, ComesToServer, ComesToGateway, timed, ComesSo, BeginsSo, HappensSo, RunsSo};

use crate::clients::{ask_at, begin_clients, hand_all_out, receive_at};
use crate::parties::Parties;
use crate::passing::GatewaySide;
use crate::plan::WorldPlan;
use crate::played::Played;
use crate::serving::ServerSide;
use dots_client::{Ask, ClientCore};
use dots_host::What;
use dots_lists::NoMemory;
use dots_world::{Party, WorldEvent};
use std::alloc::Global;

/// Plays the events of a world, one after the other, from its beginning on. Times are in seconds, below 2^48.
///
/// What it answers plays a world that the plan and the events lead to, whatever is lost, repeated and reordered by them, and whenever server
/// and gateway restart.
///
/// # Errors
///
/// Only for want of memory: of this call, of a party, or of a host.
pub fn play(alloc: Global, plan: WorldPlan, events: &[WorldEvent]) -> Result<Played, NoMemory>
    requires few { length plan.clients < 2 ^ 32 }
    requires early { AllByRecursion IsEarly events.now }
    ensures runs { IfOk result (λ played. (world : World State)
        × RunsWell (Step plan.settings) (plan_of plan) (begun (plan_of plan) (begun_from plan.settings [])) events.now world × PlaysAs plan.settings played world) }
{
    let played = Played::begin(alloc, plan)?;
    played.run(events)
}

/// Lets clients go.
fn let_clients_go(_clients: Vec<ClientCore>) {}

impl Played {
    /// Lets all of it go.
    pub fn let_go(self) {
        let Played {
            server,
            gateway,
            clients,
            ..
        } = self;
        server.let_go();
        gateway.let_go();
        let_clients_go(clients);
    }

    /// The world before its first event.
    ///
    /// # Errors
    ///
    /// Only for want of memory: of this call, of a party, or of a host.
    pub fn begin(alloc: Global, plan: WorldPlan) -> Result<Self, NoMemory>
        requires few { length plan.clients < 2 ^ 32 }
        ensures sound { IfOk result IsSound }
        ensures plan { IfOk result (λ played. plan_with plan.settings played.parties ≡ plan_of plan) }
        ensures plays { IfOk result (λ played. PlaysAs plan.settings played (begun (plan_of plan) (begun_from plan.settings []))) }
    {
        let WorldPlan {
            settings,
            gateway_settings,
            gateway,
            clients,
        } = plan;
        let parties = Parties {
            gateway_settings,
            gateway,
            clients,
        };
        let clients = begin_clients(alloc, parties.clients.items())?;
        let gateway = GatewaySide::begin(alloc, &parties)?;
        let server = ServerSide::begin(alloc, settings)?;
        Ok(Played {
            alloc,
            parties,
            time: 0,
            server,
            gateway,
            clients,
            packets: Vec::new(alloc),
        })
    }

    fn run(self, events: &[WorldEvent]) -> Result<Self, NoMemory>
        requires sound { IsSound self }
        requires early { AllByRecursion IsEarly events.now }
        ensures runs { IfOk result (λ played. (settings : SettingsValue) → Goes settings (RunsSo settings self.parties events.now) self played) }
    {
        let mut played = self;
        for event in events {
            match played.happen(event) {
                Ok(next) => played = next,
                Err(NoMemory) => return Err(NoMemory),
            }
        }
        Ok(played)
    }

    /// One event, and then each client hands out what is due. From each world that was shown before, what is shown now is one that the event
    /// leads to.
    ///
    /// # Errors
    ///
    /// Those of [`Played::begin`].
    pub fn happen(self, event: &WorldEvent) -> Result<Self, NoMemory>
        requires sound { IsSound self }
        requires early { IsEarly event.now }
        ensures sound { IfOk result IsSound }
        ensures parties { IfOk result (λ played. played.parties ≡ self.parties) }
        ensures happens { IfOk result (λ played. (settings : SettingsValue) → Goes settings (HappensSo settings self.parties event.now) self played) }
    {
        match self.begin_event(event) {
            Ok(played) => {
                let mut played = played;
                match played.hand_out() {
                    Ok(()) => Ok(played),
                    Err(NoMemory) => {
                        played.let_go();
                        Err(NoMemory)
                    }
                }
            }
            Err(NoMemory) => Err(NoMemory),
        }
    }

    fn begin_event(self, event: &WorldEvent) -> Result<Self, NoMemory>
        requires sound { IsSound self }
        requires early { IsEarly event.now }
        ensures sound { IfOk result IsSound }
        ensures parties { IfOk result (λ played. played.parties ≡ self.parties) }
        ensures begins { IfOk result (λ played. (settings : SettingsValue) → Goes settings (BeginsSo settings self.parties event.now) self played) }
    {
        match event {
            WorldEvent::Restart => self.restart_server(),
            WorldEvent::GatewayRestart => self.restart_gateway(),
            _ => {
                let mut played = self;
                match played.take(event) {
                    Ok(()) => Ok(played),
                    Err(NoMemory) => {
                        played.let_go();
                        Err(NoMemory)
                    }
                }
            }
        }
    }

    fn restart_server(self) -> Result<Self, NoMemory>
        requires sound { IsSound self }
        ensures sound { IfOk result IsSound }
        ensures parties { IfOk result (λ played. played.parties ≡ self.parties) }
        ensures begins { IfOk result (λ played. (settings : SettingsValue) → Goes settings (λ old new. Serves (StepsWell (Step settings)) (plan_with settings self.parties) old incoming.Restart new) self played) }
    {
        let Played {
            alloc,
            parties,
            time,
            server,
            gateway,
            clients,
            packets,
        } = self;
        match server.restart(alloc, time) {
            Ok(server) => Ok(Played {
                alloc,
                parties,
                time,
                server,
                gateway,
                clients,
                packets,
            }),
            Err(NoMemory) => {
                gateway.let_go();
                let_clients_go(clients);
                Err(NoMemory)
            }
        }
    }

    fn restart_gateway(self) -> Result<Self, NoMemory>
        requires sound { IsSound self }
        ensures sound { IfOk result IsSound }
        ensures parties { IfOk result (λ played. played.parties ≡ self.parties) }
        ensures begins { IfOk result (λ played. (settings : SettingsValue) → Goes settings (λ old new. PassesOnWell (plan_with settings self.parties) old incoming.Restart new) self played) }
    {
        let Played {
            alloc,
            parties,
            time,
            server,
            gateway,
            clients,
            packets,
        } = self;
        match gateway.restart(alloc, &parties, time) {
            Ok(gateway) => Ok(Played {
                alloc,
                parties,
                time,
                server,
                gateway,
                clients,
                packets,
            }),
            Err(NoMemory) => {
                server.let_go();
                let_clients_go(clients);
                Err(NoMemory)
            }
        }
    }

    /// An event that is no restart.
    fn take(&mut self, event: &WorldEvent) -> Result<(), NoMemory>
        requires sound { IsSound self.old }
        requires early { IsEarly event.now }
        requires taken { IsTaken event.now }
        ensures sound { OnOk result (IsSound self.new) }
        ensures parties { self.new.parties ≡ self.old.parties }
        ensures begins { OnOk result ((settings : SettingsValue) → Goes settings (BeginsSo settings self.old.parties event.now) self.old self.new) }
    {
        match event {
            WorldEvent::Ask { client, ask } => self.ask(*client, ask),
            WorldEvent::Tick { at } => self.tick(*at),
            WorldEvent::Deliver { packet } => self.deliver(*packet),
            WorldEvent::Restart => Ok(()),
            WorldEvent::GatewayRestart => Ok(()),
        }
    }

    /// The client at a place asks, where it may.
    fn ask(&mut self, place: u32, what: &Ask) -> Result<(), NoMemory>
        requires sound { IsSound self.old }
        ensures sound { OnOk result (IsSound self.new) }
        ensures parties { self.new.parties ≡ self.old.parties }
        ensures begins { OnOk result ((settings : SettingsValue) → Goes settings (λ old new. AsksFor (plan_with settings self.old.parties) old place what.now new) self.old self.new) }
    {
        ask_at(self.alloc, &mut self.clients, place, what, self.time)
    }

    /// It is `at`, in seconds, unless it was later before.
    fn tick(&mut self, at: u64) -> Result<(), NoMemory>
        requires sound { IsSound self.old }
        requires early { at < 2 ^ 48 }
        ensures sound { OnOk result (IsSound self.new) }
        ensures parties { self.new.parties ≡ self.old.parties }
        ensures begins { OnOk result ((settings : SettingsValue) → Goes settings (λ old new. Serves (StepsWell (Step settings)) (plan_with settings self.old.parties) (timed at old) incoming.Tick new) self.old self.new) }
    {
        self.time = self.time.max(at);
        self.serve(What::Tick, &[])
    }

    /// The packet of this number, where there is one, comes to whom it was sent.
    fn deliver(&mut self, number: u64) -> Result<(), NoMemory>
        requires sound { IsSound self.old }
        ensures sound { OnOk result (IsSound self.new) }
        ensures parties { self.new.parties ≡ self.old.parties }
        ensures begins { OnOk result ((settings : SettingsValue) → Goes settings (BeginsSo settings self.old.parties (event.Deliver number)) self.old self.new) }
    {
        let place = number as usize;
        if place >= self.packets.len() {
            return Ok(());
        }
        let packet = &self.packets[place];
        let source = packet.source;
        let target = packet.target;
        let bytes = packet.bytes.copy()?;
        self.deliver_to(source, target, bytes.items())
    }

    fn deliver_to(
        &mut self,
        source: Party,
        target: Option<Party>,
        bytes: &[u8],
    ) -> Result<(), NoMemory>
        requires sound { IsSound self.old }
        requires reaches { Reaches self.old.parties source target }
        ensures sound { OnOk result (IsSound self.new) }
        ensures parties { self.new.parties ≡ self.old.parties }
        ensures bytes { AreBytes bytes.now }
        ensures comes { OnOk result ((settings : SettingsValue) → Goes settings (ComesSo settings self.old.parties source target bytes.now) self.old self.new) }
    {
        match target {
            None => Ok(()),
            Some(party) => self.come_to(source, party, bytes),
        }
    }

    fn come_to(&mut self, source: Party, party: Party, bytes: &[u8]) -> Result<(), NoMemory>
        requires sound { IsSound self.old }
        requires reaches { Reaches self.old.parties source (Some party) }
        ensures sound { OnOk result (IsSound self.new) }
        ensures parties { self.new.parties ≡ self.old.parties }
        ensures comes { OnOk result ((settings : SettingsValue) → Goes settings (ComesSo settings self.old.parties source (Some party) bytes.now) self.old self.new) }
    {
        match party {
            Party::Server => self.to_server(source, bytes),
            Party::Gateway => self.to_gateway(source, bytes),
            Party::Client(place) => self.to_client(place, bytes),
        }
    }

    fn to_server(&mut self, source: Party, bytes: &[u8]) -> Result<(), NoMemory>
        requires sound { IsSound self.old }
        requires reaches { Reaches self.old.parties source (Some the_server) }
        ensures sound { OnOk result (IsSound self.new) }
        ensures parties { self.new.parties ≡ self.old.parties }
        ensures comes { OnOk result ((settings : SettingsValue) → Goes settings (λ old new. ComesToServer (StepsWell (Step settings)) (plan_with settings self.old.parties) old source bytes.now new) self.old self.new) }
    {
        let Some(from) = self.parties.for_server(source) else {
            unreachable!();
        };
        let what = What::Datagram {
            from,
            len: bytes.len(),
        };
        self.serve(what, bytes)
    }

    fn to_gateway(&mut self, source: Party, bytes: &[u8]) -> Result<(), NoMemory>
        requires sound { IsSound self.old }
        requires reaches { Reaches self.old.parties source (Some the_gateway) }
        ensures sound { OnOk result (IsSound self.new) }
        ensures parties { self.new.parties ≡ self.old.parties }
        ensures comes { OnOk result ((settings : SettingsValue) → Goes settings (ComesToGateway (plan_with settings self.old.parties) source bytes.now) self.old self.new) }
    {
        let Some(from) = self.parties.for_gateway(source) else {
            unreachable!();
        };
        self.pass(from, bytes)
    }

    fn pass(&mut self, from: u32, bytes: &[u8]) -> Result<(), NoMemory>
        requires sound { IsSound self.old }
        ensures sound { OnOk result (IsSound self.new) }
        ensures parties { self.new.parties ≡ self.old.parties }
        ensures passes { OnOk result ((settings : SettingsValue) → Goes settings (λ old new. PassesOnWell (plan_with settings self.old.parties) old (incoming.Datagram from bytes.now) new) self.old self.new) }
    {
        self.gateway
            .pass(&self.parties, from, bytes, self.time, &mut self.packets)
    }

    /// The server takes an event, its bytes in the room.
    fn serve(&mut self, what: What, room: &[u8]) -> Result<(), NoMemory>
        requires sound { IsSound self.old }
        requires within { IsWithin what (length room.now) }
        requires served { IsServed what }
        ensures sound { OnOk result (IsSound self.new) }
        ensures parties { self.new.parties ≡ self.old.parties }
        ensures serves { OnOk result ((settings : SettingsValue) → Goes settings (λ old new. Serves (StepsWell (Step settings)) (plan_with settings self.old.parties) old (event_of what room.now) new) self.old self.new) }
    {
        self.server.serve(
            self.alloc,
            &self.parties,
            what,
            room,
            self.time,
            &mut self.packets,
        )
    }

    fn to_client(&mut self, place: u32, bytes: &[u8]) -> Result<(), NoMemory>
        requires sound { IsSound self.old }
        requires there { place < length self.old.parties.clients }
        ensures sound { OnOk result (IsSound self.new) }
        ensures parties { self.new.parties ≡ self.old.parties }
        ensures receives { OnOk result ((settings : SettingsValue) → Goes settings (λ old new. ReceivesWell (plan_with settings self.old.parties) old place bytes.now new) self.old self.new) }
    {
        let behind = self.parties.clients.items()[place as usize].behind;
        receive_at(
            self.alloc,
            &mut self.clients,
            place,
            behind,
            bytes,
            self.time,
            &mut self.packets,
        )
    }

    /// Each client hands out what is due, in the plan's order.
    fn hand_out(&mut self) -> Result<(), NoMemory>
        requires sound { IsSound self.old }
        ensures sound { OnOk result (IsSound self.new) }
        ensures parties { self.new.parties ≡ self.old.parties }
        ensures hands { OnOk result ((settings : SettingsValue) → Goes settings (λ old new. AllHandOut (plan_with settings self.old.parties) (range_with_len 0 (length self.old.parties.clients)) old new) self.old self.new) }
    {
        hand_all_out(
            self.alloc,
            self.parties.clients.items(),
            &mut self.clients,
            self.time,
            &mut self.packets,
        )
    }
}
