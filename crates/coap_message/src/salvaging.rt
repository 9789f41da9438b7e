ghost use Rattle.std.specs.Prelude.{◌≡◌, Some};
ghost use Rattle.coap_message.specs.Message.{CoapMessage, IsMessage, spelling};
ghost use Rattle.coap_message.specs.Salvage.{salvaged};

use crate::head_reading::kind_of;
use crate::kind::Kind;

/// The type and the Message ID of a datagram, whether or not it is a message. None exactly where it has fewer
/// than four bytes or another version than 1.
pub fn salvage(bytes: &[u8]) -> Option<(Kind, u16)>
    ensures value { result ≡ salvaged bytes.now }
    ensures message { (m : CoapMessage) → IsMessage m → bytes.now ≡ spelling m → result ≡ Some (m.kind, m.identifier) }
{
    match bytes {
        [first, _, high, low, ..] if *first / 64 == 1 => {
            Some((kind_of(*first / 16 % 4), u16::from_be_bytes([*high, *low])))
        }
        _ => None,
    }
}
