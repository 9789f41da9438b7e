ghost use Rattle.std.specs.Prelude.{◌≡◌, ◌<◌, ◌≤◌, length, drop};
ghost use Rattle.coap_message.specs.MessageReading.{Gives};
ghost use Rattle.coap_tcp.specs.Frames.{BeginsWith, length_extension, frame_bytes};
ghost use Rattle.coap_tcp.specs.FrameReading.{IfFrame, frame_at, frame_value, is_rest, length_at, cut_value_behind, cut_value, waits};

use crate::fault::FrameFault;
use crate::frame::{Frame, FrameCut};
use coap_message::decode_rest;

/// The greatest number of bytes of a token.
const GREATEST_TOKEN: usize = 8;

/// The greatest number of bytes of options, marker and payload.
const GREATEST_REST: usize = 4_096;

/// The length that a nibble tells with its extension in front of the bytes, and the bytes behind that.
#[tactic(auto, unfolding(crate::specs::FrameReading::length_at, coap_message::specs::MessageReading::extended_at))]
fn read_length(nibble: u8, bytes: &[u8]) -> Option<(usize, &[u8])>
    requires { nibble ≤ 15 }
    ensures { Gives (λ x. (x.0, x.1.now)) result (length_at nibble bytes.now) }
{
    match nibble {
        0..=12 => Some((nibble as usize, bytes)),
        13 => match bytes {
            [] => None,
            [byte, rest @ ..] => Some((*byte as usize + 13, rest)),
        },
        14 => match bytes {
            [high, low, rest @ ..] => {
                Some((u16::from_be_bytes([*high, *low]) as usize + 269, rest))
            }
            _ => None,
        },
        _ => match bytes {
            [a, b, c, d, rest @ ..] => {
                Some((u32::from_be_bytes([*a, *b, *c, *d]) as usize + 65_805, rest))
            }
            _ => None,
        },
    }
}

/// How many bytes the extension of a length has.
pub(crate) fn extension_len(size: usize) -> usize
    ensures value { result ≡ length (length_extension size) }
    ensures bound { result ≤ 4 }
{
    if size < 13 {
        0
    } else if size < 269 {
        1
    } else if size < 65_805 {
        2
    } else {
        4
    }
}

/// Whether the bytes are options, and nothing or the marker and a payload.
fn is_rest(bytes: &[u8]) -> bool
    ensures { result ≡ is_rest bytes.now }
{
    match decode_rest(bytes) {
        Ok(_) => true,
        Err(_) => false,
    }
}

/// What stands in front of the bytes behind the lengths of a token and of the rest.
#[tactic(auto, unfolding(crate::specs::FrameReading::cut_value_behind))]
fn cut_behind(token: usize, size: usize, bytes: &[u8]) -> FrameCut<'_>
    requires token { token ≤ 8 }
    requires size { size ≤ 4096 }
    ensures cut { cut_value result ≡ cut_value_behind token size bytes.now }
    ensures length { IfFrame result (λ frame. frame.length ≡ length (frame_bytes (frame_value frame))) }
{
    let Some((code, bytes)) = bytes.split_first() else {
        return FrameCut::More;
    };
    if bytes.len() < token + size {
        return FrameCut::More;
    }
    let (token, bytes) = bytes.split_at(token);
    let rest = &bytes[..size];
    if !is_rest(rest) {
        return FrameCut::Refused(FrameFault::Options);
    }
    FrameCut::Message(Frame {
        code: *code,
        token,
        rest,
        length: 2 + extension_len(size) + token.len() + size,
    })
}

/// What stands at the front of the bytes, with the length of a frame.
#[tactic(auto, unfolding(crate::specs::FrameReading::frame_at, crate::specs::FrameReading::with_length))]
fn cut_front(bytes: &[u8]) -> FrameCut<'_>
    ensures cut { cut_value result ≡ frame_at bytes.now }
    ensures length { IfFrame result (λ frame. frame.length ≡ length (frame_bytes (frame_value frame))) }
{
    let Some((first, bytes)) = bytes.split_first() else {
        return FrameCut::More;
    };
    let token = (*first % 16) as usize;
    if token > GREATEST_TOKEN {
        return FrameCut::Refused(FrameFault::Token);
    }
    let Some((size, bytes)) = read_length(*first / 16, bytes) else {
        return FrameCut::More;
    };
    if size > GREATEST_REST {
        return FrameCut::Refused(FrameFault::TooLong);
    }
    cut_behind(token, size, bytes)
}

/// What stands at the front of the bytes that are buffered.
pub(crate) fn cut_buffered(buffered: &[u8]) -> FrameCut<'_>
    ensures cut { cut_value result ≡ frame_at buffered.now }
    ensures begins { IfFrame result (λ frame. BeginsWith buffered.now (frame_value frame) (drop frame.length buffered.now)) }
    ensures length { IfFrame result (λ frame. frame.length ≡ length (frame_bytes (frame_value frame))) }
    ensures size { IfFrame result (λ frame. (0 < frame.length) × (frame.length ≤ length buffered.now)) }
    ensures room { cut_value result ≡ waits → length buffered.now < 4108 }
{
    cut_front(buffered)
}
