//! The header of a datagram.

ghost use Rattle.std.specs.Prelude.{◌≡◌, Some, bytes_eq};
ghost use Rattle.coap_message.specs.Message.{CoapMessage, IsMessage, spelling};
ghost use Rattle.dots_edge.specs.Headers.{head_in, head_of, is_get, is_response, is_reply_to};
ghost use Rattle.coap_message.specs.MessageReading.{kind_of};

use coap_message::codes::GET;
use coap_message::{Kind, Token};

/// What stands in front of the options of a message (RFC 7252, section 3).
#[derive(Clone, Copy)]
pub struct Head {
    pub kind: Kind,
    pub code: u8,
    /// The Message ID.
    pub id: u16,
    pub token: Token,
}

/// The header and the token at the front of a datagram. None exactly where no message begins so.
pub fn read_head(bytes: &[u8]) -> Option<Head>
    ensures read { result ≡ head_in bytes.now }
    ensures message { (m : CoapMessage) → IsMessage m → bytes.now ≡ spelling m → result ≡ Some (head_of m) }
{
    read_front(bytes)
}

#[tactic(auto, unfolding(coap_message::specs::MessageReading::head_at))]
fn read_front(bytes: &[u8]) -> Option<Head>
    ensures { result ≡ head_in bytes.now }
{
    let [first, code, high, low, rest @ ..] = bytes else {
        return None;
    };
    let token_length = (*first % 16) as usize;
    if *first / 64 != 1 || token_length > 8 {
        return None;
    }
    if *code == 0 && (token_length > 0 || !rest.is_empty()) {
        return None;
    }
    if rest.len() < token_length {
        return None;
    }
    let (token, _options) = rest.split_at(token_length);
    Some(Head {
        kind: kind_of(*first / 16 % 4),
        code: *code,
        id: u16::from_be_bytes([*high, *low]),
        token: Token::new(token)?,
    })
}

/// The type that two bits stand for.
fn kind_of(bits: u8) -> Kind
    ensures { result ≡ kind_of bits }
{
    match bits {
        0 => Kind::Con,
        1 => Kind::Non,
        2 => Kind::Ack,
        _ => Kind::Rst,
    }
}

impl Head {
    /// Whether it is of a GET, which has the code 0.01.
    pub fn is_get(&self) -> bool
        ensures { result ≡ is_get self.now }
    {
        self.code == GET
    }

    /// Whether it is of a response, whose code is of the classes 2 to 5.
    pub fn is_response(&self) -> bool
        ensures { result ≡ is_response self.now }
    {
        2 <= self.code / 32 && self.code / 32 <= 5
    }

    /// Whether a datagram with this header is the reply to one with the other.
    pub fn is_reply_to(&self, asked: &Head) -> bool
        ensures { result ≡ is_reply_to asked.now self.now }
    {
        if self.id != asked.id {
            return false;
        }
        match self.kind {
            Kind::Ack | Kind::Rst => true,
            Kind::Con | Kind::Non => self.token.bytes() == asked.token.bytes(),
        }
    }
}
