//! The bytes of notifications.

ghost use Rattle.std.specs.Prelude.{◌≡◌, ◌≤◌, take, drop, length, ◌+◌, ◌∷◌, [], IfOk};
ghost use Rattle.coap_message.specs.Message.{spelling};
ghost use Rattle.coap_message.specs.declared.codes.TheConstants.{CONTENT};
ghost use Rattle.coap_message.specs.declared.option_numbers.TheConstants.{OBSERVE, CONTENT_FORMAT};
ghost use Rattle.session_core.specs.Notices.{content_notice, gone_notice, numbered_content};

use coap_message::codes::{CONTENT, NOT_FOUND};
use coap_message::option_numbers::{CONTENT_FORMAT, OBSERVE};
use coap_message::{DOTS_CBOR, Kind, OptionPart, Parts, Token, encode_into, encoded_len};
use dots_lists::{Bytes, NoMemory};
use std::alloc::Global;

/// The bytes of the content format, the higher first.
const HIGH: u8 = (DOTS_CBOR / 256) as u8;

const LOW: u8 = (DOTS_CBOR % 256) as u8;

/// 4.04, where nothing is left to see (RFC 7641, section 4.2).
pub fn gone_notice(alloc: Global, id: u16, token: &Token) -> Result<Bytes, NoMemory>
    ensures { IfOk result (λ bytes. bytes ≡ gone_notice id token.now) }
{
    let parts = Parts {
        kind: Kind::Non,
        code: NOT_FOUND,
        id,
        token: token.bytes(),
        options: &[],
        values: &[],
        payload: b"absent",
    };
    let mut bytes = vec![in alloc; 0; encoded_len(&parts)]?;
    encode_into(&parts, &mut bytes);
    Ok(Bytes::from_vec(bytes))
}

/// 2.05, with the number of the notification in as few bytes as there can be (RFC 7252, section 3.2), and the body.
pub fn content_notice(
    alloc: Global,
    id: u16,
    token: &Token,
    number: u32,
    body: &[u8],
) -> Result<Bytes, NoMemory>
    ensures { IfOk result (λ bytes. bytes ≡ content_notice id token.now number body.now) }
{
    let front = Front {
        kind: Kind::Non,
        id,
        token,
    };
    numbered_content(alloc, &front, number, body)
}

/// What stands before the options of a message (RFC 7252, section 3).
#[derive(Clone, Copy)]
pub struct Front<'a> {
    pub kind: Kind,
    /// The Message ID.
    pub id: u16,
    pub token: &'a Token,
}

/// 2.05 with this number as its Observe, in as few bytes as there can be (RFC 7252, section 3.2), and the body.
pub fn numbered_content(
    alloc: Global,
    front: &Front<'_>,
    number: u32,
    body: &[u8],
) -> Result<Bytes, NoMemory>
    ensures { IfOk result (λ bytes. bytes ≡ numbered_content front.now.kind front.now.id front.now.token.now number body.now) }
{
    if number == 0 {
        return content_with(alloc, front, 0, &[HIGH, LOW], body);
    }
    let low = (number % 256) as u8;
    if number < 256 {
        return content_with(alloc, front, 1, &[number as u8, HIGH, LOW], body);
    }
    if number < 65_536 {
        return content_with(
            alloc,
            front,
            2,
            &[(number / 256) as u8, low, HIGH, LOW],
            body,
        );
    }
    let high = (number / 65_536 % 256) as u8;
    let middle = (number / 256 % 256) as u8;
    content_with(alloc, front, 3, &[high, middle, low, HIGH, LOW], body)
}

/// The same, where the number takes so many bytes, and these are the values of both options.
fn content_with(
    alloc: Global,
    front: &Front<'_>,
    size: usize,
    values: &[u8],
    body: &[u8],
) -> Result<Bytes, NoMemory>
    requires few { size ≤ 3 }
    requires values { size + 2 ≡ length values.now }
    ensures { IfOk result (λ bytes. bytes ≡ spelling (record {
      kind = front.now.kind;
      code = CONTENT;
      identifier = front.now.id;
      token = front.now.token.now;
      options = record { number = OBSERVE; value = take size values.now } ∷ record { number = CONTENT_FORMAT; value = take 2 (drop size values.now) } ∷ [];
      payload = body.now;
    })) }
{
    let parts = Parts {
        kind: front.kind,
        code: CONTENT,
        id: front.id,
        token: front.token.bytes(),
        options: &[
            OptionPart {
                number: OBSERVE,
                length: size,
            },
            OptionPart {
                number: CONTENT_FORMAT,
                length: 2,
            },
        ],
        values,
        payload: body,
    };
    let mut bytes = vec![in alloc; 0; encoded_len(&parts)]?;
    encode_into(&parts, &mut bytes);
    Ok(Bytes::from_vec(bytes))
}
