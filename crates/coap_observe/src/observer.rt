use coap_message::Token;
use dots_keys::Content;
use dots_lists::Name;

/// Who observes what (RFC 7641; RFC 9132, section 4.4.2.1). A peer and a token are one observer.
#[derive(Drop)]
pub struct Observer {
    pub peer: u32,
    /// The domain of the client, by its number in the settings.
    pub domain: u16,
    /// That of the GET that registered it.
    pub token: Token,
    /// The client whose mitigations it observes.
    pub cuid: Name,
    /// The mitigation that it observes; all of the client where there is none.
    pub mid: Option<u32>,
    /// Which part of a mitigation it wants.
    pub content: Content,
}
