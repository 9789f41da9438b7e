use dots_lists::List;
use dots_settings::Settings;
use dots_world::PlanClient;

/// The clients of a world, by their places.
pub type ClientList = List<PlanClient>;

/// Who there is in a world: a server, a gateway, and clients of either.
#[derive(Drop)]
pub struct WorldPlan {
    /// Of the server.
    pub settings: Settings,
    /// Of the gateway: its clients, their domains, and the peer that the server is for it.
    pub gateway_settings: Settings,
    /// The peer that the gateway is for the server.
    pub gateway: u32,
    pub clients: ClientList,
}
