use ip_scope::Addr;

/// What an access list and a filter see of a packet.
#[derive(Clone, Copy)]
pub struct Packet {
    pub source: Addr,
    pub destination: Addr,
    /// The protocol number of IANA's registry.
    pub protocol: u8,
    /// The source port and the destination port, where the protocol has ports.
    pub ports: Option<(u16, u16)>,
}
