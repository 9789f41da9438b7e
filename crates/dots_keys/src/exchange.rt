ghost use Rattle.std.specs.Prelude.{◌≡◌};
ghost use Rattle.dots_keys.specs.Exchanges.{exchange_in, reply_kind};

use coap_message::{Kind, Message, Token};

/// What a reply takes from its request (RFC 7252, section 5.2).
#[derive(Clone, Copy)]
pub struct Exchange {
    pub kind: Kind,
    /// The Message ID.
    pub id: u16,
    pub token: Token,
}

impl Exchange {
    /// What a reply to the message takes from it.
    pub fn of(message: &Message<'_>) -> Self
        ensures { result ≡ exchange_in message.now }
    {
        Exchange {
            kind: message.kind(),
            id: message.id(),
            token: Token::new(message.token()).unwrap(),
        }
    }

    /// The type of a reply: an acknowledgement of what is confirmable (RFC 7252, section 5.2).
    pub fn reply_kind(&self) -> Kind
        ensures { result ≡ reply_kind self.now.kind }
    {
        match self.kind {
            Kind::Con => Kind::Ack,
            _ => Kind::Non,
        }
    }
}
