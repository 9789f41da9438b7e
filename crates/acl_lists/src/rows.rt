use crate::acl::Acl;
use crate::asked::{ByteList, PortList};
use dots_lists::Text;
use ip_scope::Prefix;

/// A row of a mitigation: one prefix of one of its targets (RFC 9132, section 4.4.1).
#[derive(Drop)]
pub struct ScrubRow {
    /// The domain of the client, by its number in the settings.
    pub domain: u16,
    /// The client's name in its domain.
    pub cuid: Text,
    /// The number that the client gave the mitigation.
    pub mid: u32,
    pub prefix: Prefix,
    /// None means every port.
    pub ports: PortList,
    /// None means every protocol.
    pub protocols: ByteList,
    /// Whether the row filters now.
    pub active: bool,
}

/// The row of an access list (RFC 8783, section 7.2).
#[derive(Drop)]
pub struct AclRow {
    /// The domain of the client, by its number in the settings.
    pub domain: u16,
    /// The client's name in its domain.
    pub cuid: Text,
    pub acl: Acl,
    /// Whether the list filters now.
    pub active: bool,
}
