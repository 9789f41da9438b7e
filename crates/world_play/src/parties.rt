//! Where packets go.

ghost use Rattle.std.specs.Prelude.{◌≡◌, ◌<◌, ◌^◌, length, position, option_map, slice_get, IfSome};
ghost use Rattle.dots_world.specs.declared.party.Party.TheVariants.{Client as a_client};
ghost use Rattle.dots_world.specs.Plans.{is_direct, is_behind, from_server, from_gateway, to_server, to_gateway};
ghost use Rattle.dots_world.specs.declared.plan.PlanClient.{PlanClient};
ghost use Rattle.world_play.specs.Parties.{plan_for, target_from, upstream_for};

use crate::plan::ClientList;
use dots_settings::Settings;
use dots_world::{Party, PlanClient};

/// All of a plan but the settings of the server.
#[derive(Drop)]
pub struct Parties {
    pub gateway_settings: Settings,
    /// The peer that the gateway is for the server.
    pub gateway: u32,
    pub clients: ClientList,
}

impl Parties {
    /// The peer that the server is for the gateway, or 0 where the settings name none.
    pub fn upstream(&self) -> u32
        ensures { result ≡ upstream_for self.now }
    {
        self.gateway_settings.upstream().unwrap_or(0)
    }

    /// To whom a party sends what it sends to a peer; None where that is nobody of the plan.
    pub fn target(&self, source: Party, peer: u32) -> Option<Party>
        requires few { length self.now.clients < 2 ^ 32 }
        ensures { result ≡ target_from self.now source peer }
    {
        match source {
            Party::Gateway => self.from_gateway(peer),
            Party::Server => self.from_server(peer),
            Party::Client(_) => self.from_server(peer),
        }
    }

    fn from_server(&self, peer: u32) -> Option<Party>
        requires few { length self.now.clients < 2 ^ 32 }
        ensures { result ≡ from_server (plan_for self.now) peer }
    {
        if peer == self.gateway {
            return Some(Party::Gateway);
        }
        client_at(direct_place(self.clients.items(), peer))
    }

    fn from_gateway(&self, peer: u32) -> Option<Party>
        requires few { length self.now.clients < 2 ^ 32 }
        ensures { result ≡ from_gateway (plan_for self.now) peer }
    {
        if peer == self.upstream() {
            return Some(Party::Server);
        }
        client_at(place_behind(self.clients.items(), peer))
    }

    /// The peer as which the server gets what a party sends.
    pub fn for_server(&self, source: Party) -> Option<u32>
        ensures { result ≡ to_server (plan_for self.now) source }
    {
        match source {
            Party::Client(place) => peer_at(self.clients.items(), place),
            Party::Gateway => Some(self.gateway),
            Party::Server => None,
        }
    }

    /// The peer as which the gateway gets what a party sends.
    pub fn for_gateway(&self, source: Party) -> Option<u32>
        ensures { result ≡ to_gateway (plan_for self.now) source }
    {
        match source {
            Party::Client(place) => peer_at(self.clients.items(), place),
            Party::Server => Some(self.upstream()),
            Party::Gateway => None,
        }
    }
}

fn direct_place(clients: &[PlanClient], peer: u32) -> Option<usize>
    ensures { result ≡ position (is_direct peer) clients.now }
{
    clients
        .iter()
        .position(|client| !client.behind && client.peer == peer)
}

fn place_behind(clients: &[PlanClient], peer: u32) -> Option<usize>
    ensures { result ≡ position (is_behind peer) clients.now }
{
    clients
        .iter()
        .position(|client| client.behind && client.peer == peer)
}

fn client_at(place: Option<usize>) -> Option<Party>
    requires few { IfSome place (λ n. n < 2 ^ 32) }
    ensures { result ≡ option_map a_client place }
{
    match place {
        Some(place) => Some(Party::Client(place as u32)),
        None => None,
    }
}

fn peer_at(clients: &[PlanClient], place: u32) -> Option<u32>
    ensures { result ≡ option_map (λ (c : PlanClient). c.peer) (slice_get clients.now place) }
{
    match clients.get(place as usize) {
        Some(client) => Some(client.peer),
        None => None,
    }
}
