ghost use Rattle.std.specs.Prelude.{◌≡◌};
ghost use Rattle.coap_message.specs.FaultText.{fault_place, fault_words};

use std::error::Error;
use std::fmt;

/// The first fault of bytes that are no message, and the place where it is (RFC 7252, sections 3, 3.1 and 4.1).
#[derive(Clone, Copy, Debug)]
pub enum CoapFault {
    /// The bytes end too early.
    Short { at: usize },
    /// The version isn't 1.
    Version { at: usize },
    /// The token has more than 8 bytes.
    TokenLength { at: usize },
    /// Code 0.00 with more than the header.
    EmptyWithMore { at: usize },
    /// A delta or a length with the nibble 15.
    ReservedNibble { at: usize },
    /// An option's number is above 65,535.
    NumberTooLarge { at: usize },
    /// The payload marker stands at the end.
    EmptyPayload { at: usize },
}

impl CoapFault {
    fn words(&self) -> &'static str
        ensures { result.now ≡ fault_words self.now }
    {
        match self {
            CoapFault::Short { .. } => "the bytes end too early",
            CoapFault::Version { .. } => "the version isn't 1",
            CoapFault::TokenLength { .. } => "the token is longer than 8 bytes",
            CoapFault::EmptyWithMore { .. } => "an empty message has more than a header",
            CoapFault::ReservedNibble { .. } => "a nibble of an option is 15",
            CoapFault::NumberTooLarge { .. } => "an option's number is above 65535",
            CoapFault::EmptyPayload { .. } => "no payload follows the marker",
        }
    }

    fn place(&self) -> usize
        ensures { result ≡ fault_place self.now }
    {
        match *self {
            CoapFault::Short { at }
            | CoapFault::Version { at }
            | CoapFault::TokenLength { at }
            | CoapFault::EmptyWithMore { at }
            | CoapFault::ReservedNibble { at }
            | CoapFault::NumberTooLarge { at }
            | CoapFault::EmptyPayload { at } => at,
        }
    }
}

impl fmt::Display for CoapFault {
    ghost use Rattle.std.specs.Prelude.{Some};
    ghost use Rattle.coap_message.specs.FaultText.{fault_text};

    ghost output = { λ fault. Some (fault_text fault) };

    fn fmt<W: fmt::Write>(&self, f: &mut fmt::Formatter<W>) -> fmt::Result {
        write!(f, "{} at {}", self.words(), self.place())
    }
}

impl Error for CoapFault {}
