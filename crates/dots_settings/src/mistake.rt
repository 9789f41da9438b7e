/// Why a line has none of the ten forms.
#[derive(Clone, Copy)]
pub enum Mistake {
    /// It begins with none of the ten words.
    Word,
    /// `domain NAME` has other fields.
    DomainFields,
    /// So has `prefix NAME PREFIX`.
    PrefixFields,
    /// So has `client PEER NAME`.
    ClientFields,
    /// So has `gateway PEER`.
    GatewayFields,
    /// So has `upstream PEER`.
    UpstreamFields,
    /// So has `name FQDN PREFIX`.
    NameFields,
    /// So has `ceiling SECONDS`.
    CeilingFields,
    /// So has `indefinite yes` or `indefinite no`.
    IndefiniteFields,
    /// So has `capacity WHAT LIMIT`.
    CapacityFields,
    /// So has `packet SOURCE DESTINATION PROTOCOL SPORT DPORT`.
    PacketFields,
    /// The name of a domain is none.
    DomainName,
    /// A host name is none.
    HostName,
    /// A peer is none.
    Peer,
    /// A prefix has no slash.
    NoSlash,
    /// No address stands before its slash.
    NoAddress,
    /// No number stands behind its slash.
    NoLength,
    /// Its length is too large for IPv4.
    LengthV4,
    /// Its length is too large for IPv6.
    LengthV6,
    /// The ceiling is none.
    Ceiling,
    /// `indefinite` has another word.
    YesOrNo,
    /// A capacity is none.
    CapacityName,
    /// The limit of a capacity is no number.
    Limit,
    /// An address of a packet is none.
    Address,
    /// A protocol is none.
    Protocol,
    /// A port is none, or one of the two alone is missing.
    Port,
}
