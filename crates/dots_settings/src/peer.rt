/// The domain in which a gateway configures its session, which is no domain of the settings: they have at most 16.
pub const NO_DOMAIN: u16 = 65_535;

/// What a peer is in the settings.
#[derive(Clone, Copy, PartialEq, Eq)]
pub enum Role {
    /// The settings don't name it.
    Stranger,
    /// A client of the domain of this number.
    Client(u16),
    /// A server-domain gateway (RFC 8811, section 2.2.3), which speaks for clients of every domain.
    Gateway,
}

/// A peer that the settings name.
#[derive(Clone, Copy)]
pub struct PeerRow {
    pub peer: u32,
    /// A client or a gateway.
    pub role: Role,
}
