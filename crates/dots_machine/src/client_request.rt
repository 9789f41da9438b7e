use dots_keys::Exchange;
use dots_lists::Name;

/// Who asks for a client, and for which domain (RFC 9132, section 4.4.1).
#[derive(Drop)]
pub struct ClientRequest {
    pub peer: u32,
    /// The number of the domain in the settings.
    pub domain: u16,
    pub exchange: Exchange,
    /// The client, which has this name in the domain.
    pub cuid: Name,
}
