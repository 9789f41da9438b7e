use crate::head::Head;
use crate::kind::Kind;
use crate::options::Options;
use std::marker::Model;

/// A message that was decoded. What it hands out are parts of the bytes that it was decoded from.
#[derive(Drop)]
pub struct Message<'a> {
    kind: Kind,
    code: u8,
    id: u16,
    token: &'a [u8],
    options: &'a [u8],
    payload: &'a [u8],
}

impl<'a> Model for Message<'a> {
    ghost use Rattle.std.specs.Prelude.{ℕ, List};
    ghost use Rattle.coap_message.specs.Message.{CoapMessage, IsMessage};
    ghost use Rattle.coap_message.specs.MessageReading.{message_in};

    ghost Value = { CoapMessage };

    ghost view = { λ m. message_in m.kind m.code m.id m.token.now m.options.now m.payload.now };

    ghost invariant = { λ m. IsMessage (message_in m.kind m.code m.id m.token.now m.options.now m.payload.now) };
}

impl<'a> Message<'a> {
    ghost use Rattle.std.specs.Prelude.{◌≡◌, ◌≤◌, length};
    ghost use Rattle.coap_message.specs.Message.{IsMessage, AreOptions};
    ghost use Rattle.coap_message.specs.CodeValues.{head_value};
    ghost use Rattle.coap_message.specs.MessageReading.{message_from};

    pub(crate) fn new(head: Head<'a>, options: &'a [u8], payload: &'a [u8]) -> Self
        requires { IsMessage (message_from (head_value head) options.now payload.now) }
        ensures { result ≡ message_from (head_value head.entry) options.now payload.now }
    {
        Message {
            kind: head.kind,
            code: head.code,
            id: head.id,
            token: head.token,
            options,
            payload,
        }
    }

    pub fn kind(&self) -> Kind
        ensures { result ≡ self.now.kind }
    {
        self.kind
    }

    pub fn code(&self) -> u8
        ensures { result ≡ self.now.code }
    {
        self.code
    }

    /// The Message ID.
    pub fn id(&self) -> u16
        ensures { result ≡ self.now.identifier }
    {
        self.id
    }

    pub fn token(&self) -> &'a [u8]
        ensures value { result.now ≡ self.now.token }
        ensures size { length result.now ≤ 8 }
    {
        self.token
    }

    /// The payload, with no bytes where the message has none.
    pub fn payload(&self) -> &'a [u8]
        ensures { result.now ≡ self.now.payload }
    {
        self.payload
    }

    /// The options in their order.
    pub fn options(&self) -> Options<'a>
        ensures value { result ≡ self.now.options }
        ensures are { AreOptions 0 self.now.options }
    {
        Options {
            previous: 0,
            rest: self.options,
        }
    }
}
