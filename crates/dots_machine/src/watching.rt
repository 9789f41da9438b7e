use coap_message::Token;
use coap_observe::Observer;

/// What a message asks of observation (RFC 7641, sections 2 and 3.6).
#[derive(Drop)]
pub enum Watching {
    /// Nothing.
    Nothing,
    /// Who sent it is to be registered as this observer, where it is shown what it asks for.
    Registers(Observer),
    /// The observer of this token is to go.
    Cancels(Token),
    /// The observer is to go whose last notification had this Message ID.
    Rejects(u16),
}
