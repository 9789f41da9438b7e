/// How much may be held.
#[derive(Clone, Copy)]
pub struct Rooms {
    /// Registered clients of a domain.
    pub clients: usize,
    /// Aliases of a client.
    pub aliases: usize,
    /// Access lists of a client.
    pub acls: usize,
}
