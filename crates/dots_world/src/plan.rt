use dots_lists::Name;

/// A client of a world.
#[derive(Drop)]
pub struct PlanClient {
    /// Its number in the gateway's settings where it asks the gateway, and else in the server's.
    pub peer: u32,
    pub cuid: Name,
    /// Whether it asks the gateway.
    pub behind: bool,
}
