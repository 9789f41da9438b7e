ghost use Rattle.std.specs.Prelude.{◌≡◌, ◌≤◌, ℕ, List, length, IfOk, IfErr, Ok};
ghost use Rattle.coap_message.specs.Breaks.{Breaks, OptionsBreak};
ghost use Rattle.coap_message.specs.Message.{CoapMessage, CoapOption, IsMessage, spelling};
ghost use Rattle.coap_message.specs.MessageReading.{Splits, options_in};

use crate::PAYLOAD_MARKER;
use crate::fault::CoapFault;
use crate::head_reading::read_head;
use crate::message::Message;
use crate::message_rest::MessageRest;
use crate::option_reading::read_option;

/// The bytes of the options, and the payload behind them. The bytes end at the place `end`.
fn split_options(end: usize, bytes: &[u8]) -> Result<(&[u8], &[u8]), CoapFault>
    requires { length bytes.now ≤ end }
    ensures found { IfOk result (λ x. Splits bytes.now (options_in 0 x.0.now) x.1.now) }
    ensures breaks { IfErr result (λ fault. OptionsBreak end bytes.now fault) }
{
    let mut previous = 0;
    let mut rest = bytes;
    while let Some((first, behind)) = rest.split_first() {
        if *first == PAYLOAD_MARKER {
            if behind.is_empty() {
                return Err(CoapFault::EmptyPayload { at: end - 1 });
            }
            return Ok((&bytes[..bytes.len() - rest.len()], behind));
        }
        let (row, behind) = read_option(end, previous, rest)?;
        previous = row.number;
        rest = behind;
    }
    Ok((bytes, rest))
}

/// The options and the payload that these bytes spell behind a token, or their first fault with its place in these bytes (RFC
/// 7252, section 3.1; RFC 8323, section 3.2, has them so behind a header of its own).
pub fn decode_rest(bytes: &[u8]) -> Result<MessageRest<'_>, CoapFault>
    // What is read is spelled so.
    ensures found { IfOk result (λ rest. Splits bytes.now rest.options rest.payload) }
    // What is spelled so is read.
    ensures only { (options : List CoapOption) (payload : List ℕ) → Splits bytes.now options payload → result ≡ Ok (record { options = options; payload = payload }) }
    // Else it is the first fault.
    ensures breaks { IfErr result (λ fault. OptionsBreak (length bytes.now) bytes.now fault) }
{
    match split_options(bytes.len(), bytes) {
        Ok((options, payload)) => Ok(MessageRest::new(options, payload)),
        Err(fault) => Err(fault),
    }
}

/// The message that the bytes spell, or their first fault (RFC 7252, section 3).
pub fn decode(bytes: &[u8]) -> Result<Message<'_>, CoapFault>
    // What is read is spelled so.
    ensures found { IfOk result (λ m. IsMessage m × (bytes.now ≡ spelling m)) }
    // What is spelled so is read.
    ensures only { (m : CoapMessage) → IsMessage m → bytes.now ≡ spelling m → result ≡ Ok m }
    // Else it is the first fault.
    ensures breaks { IfErr result (λ fault. Breaks bytes.now fault) }
{
    let (head, rest) = read_head(bytes)?;
    let (options, payload) = split_options(bytes.len(), rest)?;
    Ok(Message::new(head, options, payload))
}
