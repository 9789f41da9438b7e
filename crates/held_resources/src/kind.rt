/// What may be full.
#[derive(Clone, Copy)]
pub enum RoomKind {
    /// The registered clients of a domain.
    Client,
    /// The aliases of a client.
    Alias,
    /// The access lists of a client.
    Acl,
}
