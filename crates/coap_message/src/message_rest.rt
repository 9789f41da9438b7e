use crate::options::Options;
use std::marker::Model;

/// What stands behind the token of a message: its options and its payload. What it hands out are parts of the bytes that
/// it was decoded from.
#[derive(Drop)]
pub struct MessageRest<'a> {
    options: &'a [u8],
    payload: &'a [u8],
}

impl<'a> Model for MessageRest<'a> {
    ghost use Rattle.std.specs.Prelude.{ℕ, List};
    ghost use Rattle.coap_message.specs.Message.{AreOptions};
    ghost use Rattle.coap_message.specs.MessageReading.{Rest, options_in};

    ghost Value = { Rest };

    ghost view = { λ rest. record {
      options = options_in 0 rest.options.now;
      payload = rest.payload.now;
    } };

    ghost invariant = { λ rest. AreOptions 0 (options_in 0 rest.options.now) };
}

impl<'a> MessageRest<'a> {
    ghost use Rattle.std.specs.Prelude.{◌≡◌};
    ghost use Rattle.coap_message.specs.Message.{AreOptions};
    ghost use Rattle.coap_message.specs.MessageReading.{options_in};

    pub(crate) fn new(options: &'a [u8], payload: &'a [u8]) -> Self
        requires { AreOptions 0 (options_in 0 options.now) }
        ensures { result ≡ record { options = options_in 0 options.now; payload = payload.now } }
    {
        MessageRest { options, payload }
    }

    /// The payload, with no bytes where the message has none.
    pub fn payload(&self) -> &'a [u8]
        ensures { result.now ≡ self.now.payload }
    {
        self.payload
    }

    /// The options in their order.
    pub fn options(&self) -> Options<'a>
        ensures value { result ≡ self.now.options }
        ensures are { AreOptions 0 self.now.options }
    {
        Options {
            previous: 0,
            rest: self.options,
        }
    }
}
