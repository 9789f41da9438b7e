ghost use Rattle.std.specs.Prelude.{◌≡◌, ◌≢◌, ◌≤◌, ◌<◌, ◌^◌, ◌+◌, ◌++◌, length, take};
ghost use Rattle.coap_message.specs.declared.kind.Kind.TheVariants.{Con};
ghost use Rattle.coap_message.specs.Message.{header};
ghost use Rattle.coap_message.specs.Parts.{IsValid};
ghost use Rattle.coap_message.specs.Writing.{put_at};
ghost use Rattle.coap_tcp.specs.Frames.{IsFrame, frame_bytes, front_bytes, length_extension, length_nibble};
ghost use Rattle.coap_tcp.specs.FrameReading.{frame_value};
ghost use Rattle.coap_tcp.specs.Datagrams.{IsDatagram, frame_of, rest_of};

use crate::cutting::extension_len;
use crate::frame::Frame;
use coap_message::{Parts, encode_into};

/// Writes the bytes at a place, and answers the place behind them.
fn put(into: &mut [u8], at: usize, bytes: &[u8]) -> usize
    requires { at + length bytes.now ≤ length into.old }
    ensures behind { result ≡ at + length bytes.now }
    ensures written { into.new ≡ put_at at bytes.now into.old }
{
    let behind = at + bytes.len();
    into[at..behind].copy_from_slice(bytes);
    behind
}

/// Writes a confirmable message with Message ID 0 in front of the bytes, and answers how many bytes it has.
fn put_datagram(into: &mut [u8], frame: &Frame) -> usize
    requires token { length frame.now.token.now ≤ 8 }
    requires room { 4 + length frame.now.token.now + length frame.now.rest.now ≤ length into.old }
    ensures behind { result ≡ 4 + length frame.now.token.now + length frame.now.rest.now }
    ensures written { into.new ≡ put_at 0 (header Con frame.now.code 0 frame.now.token.now ++ frame.now.rest.now) into.old }
{
    let first = 64 + frame.token.len() as u8;
    let behind = put(into, 0, &[first, frame.code, 0, 0]);
    let behind = put(into, behind, frame.token);
    put(into, behind, frame.rest)
}

/// Spells the message of a frame as a datagram: a confirmable one with Message ID 0 (RFC 7252, section 3). Answers how many
/// bytes it has. The frame is one that [`Frames::cut`](crate::Frames::cut) gives, and its code isn't 0.
pub fn as_datagram(frame: &Frame, into: &mut [u8; 4_200]) -> usize
    requires frame { IsFrame (frame_value frame.now) }
    requires code { frame.now.code ≢ 0 }
    ensures len { result ≡ 4 + length frame.now.token.now + length frame.now.rest.now }
    ensures bound { result ≤ 4108 }
    ensures message { IsDatagram (take result into.new) (frame_value frame.now) }
{
    put_datagram(into, frame)
}

/// The four bits of a length.
fn nibble_of(size: usize) -> u8
    ensures value { result ≡ length_nibble size }
    ensures bound { result ≤ 15 }
{
    if size < 13 {
        size as u8
    } else if size < 269 {
        13
    } else if size < 65_805 {
        14
    } else {
        15
    }
}

fn put_extension(into: &mut [u8], at: usize, size: usize) -> usize
    requires bound { size < 2 ^ 32 }
    requires room { at + length (length_extension size) ≤ length into.old }
    ensures behind { result ≡ at + length (length_extension size) }
    ensures written { into.new ≡ put_at at (length_extension size) into.old }
{
    if size < 13 {
        put(into, at, &[])
    } else if size < 269 {
        put(into, at, &[(size - 13) as u8])
    } else if size < 65_805 {
        put(into, at, &((size - 269) as u16).to_be_bytes())
    } else {
        put(into, at, &((size - 65_805) as u32).to_be_bytes())
    }
}

/// Writes what stands in front of a rest of so many bytes.
fn put_front(into: &mut [u8], code: u8, token: &[u8], size: usize)
    requires token { length token.now ≤ 8 }
    requires bound { size < 2 ^ 32 }
    requires room { length (front_bytes code token.now size) ≤ length into.old }
    ensures { into.new ≡ put_at 0 (front_bytes code token.now size) into.old }
{
    let first = 16 * nibble_of(size) + token.len() as u8;
    let behind = put(into, 0, &[first]);
    let behind = put_extension(into, behind, size);
    let behind = put(into, behind, &[code]);
    put(into, behind, token);
}

/// Writes the frame of these parts in front of the bytes, and answers how many bytes it has (RFC 8323, section 3.2). Their kind
/// and their Message ID are in no frame. There is room for a header of 6 bytes with the token and the rest. Up to two bytes
/// behind the frame may change.
pub fn frame_into(parts: &Parts, into: &mut [u8]) -> usize
    requires valid { IsValid parts.now }
    requires size { length (rest_of parts.now) < 2 ^ 32 }
    requires room { 6 + length parts.now.token.now + length (rest_of parts.now) ≤ length into.old }
    ensures len { result ≡ length (frame_bytes (frame_of parts.now)) }
    ensures written { take result into.new ≡ frame_bytes (frame_of parts.now) }
{
    let len = encode_into(parts, into);
    let header = 4 + parts.token.len();
    let size = len - header;
    let start = 2 + extension_len(size) + parts.token.len();
    into.copy_within(header..len, start);
    put_front(into, parts.code, parts.token, size);
    start + size
}
