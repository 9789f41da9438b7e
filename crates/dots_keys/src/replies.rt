//! The replies that take no memory.

ghost use Rattle.std.specs.Prelude.{◌≡◌, ◌≢◌, ◌≤◌, length};
ghost use Rattle.dots_keys.specs.Replies.{reset_message, plain, with_body, rejection};

use crate::exchange::Exchange;
use crate::reject::Reject;
use crate::short_message::ShortMessage;
use crate::wording::MAX_TEXT;
use coap_message::codes::EMPTY;
use coap_message::option_numbers::CONTENT_FORMAT;
use coap_message::{DOTS_CBOR, Kind, OptionPart, Parts};

/// The most bytes of the body of a short reply.
pub const MAX_BODY: usize = 40;

/// A reply without options, with a text that says why it isn't what was asked for, or an empty one (RFC 7252, section
/// 5.5.2).
pub fn plain(code: u8, exchange: &Exchange, text: &[u8]) -> ShortMessage
    requires code { code ≢ 0 }
    requires text { length text.now ≤ 28 }
    ensures { result ≡ plain code exchange.now text.now }
{
    ShortMessage::encode(&Parts {
        kind: exchange.reply_kind(),
        code,
        id: exchange.id,
        token: exchange.token.bytes(),
        options: &[],
        values: &[],
        payload: text,
    })
}

/// An empty reset (RFC 7252, section 4.2).
pub fn reset(id: u16) -> ShortMessage
    ensures { result ≡ reset_message id }
{
    ShortMessage::encode(&Parts {
        kind: Kind::Rst,
        code: EMPTY,
        id,
        token: &[],
        options: &[],
        values: &[],
        payload: &[],
    })
}

/// A reply with a body of CBOR.
pub fn with_body(code: u8, exchange: &Exchange, body: &[u8]) -> ShortMessage
    requires code { code ≢ 0 }
    requires body { length body.now ≤ MAX_BODY }
    ensures { result ≡ with_body code exchange.now body.now }
{
    ShortMessage::encode(&Parts {
        kind: exchange.reply_kind(),
        code,
        id: exchange.id,
        token: exchange.token.bytes(),
        options: &[OptionPart {
            number: CONTENT_FORMAT,
            length: 2,
        }],
        values: &[(DOTS_CBOR / 256) as u8, (DOTS_CBOR % 256) as u8],
        payload: body,
    })
}

/// The refusal of a message, by its cause.
pub fn rejection(exchange: &Exchange, reject: &Reject) -> ShortMessage
    ensures { result ≡ rejection exchange.now reject.now }
{
    let mut text = [0; MAX_TEXT];
    let len = reject.put_text(&mut text);
    plain(reject.code(), exchange, &text[..len])
}
