ghost use Rattle.std.specs.Prelude.{◌≡◌, ◌+◌, ◌*◌, ◌<◌, ◌≤◌, [], ◌∷◌, ◌++◌, length, take, decimal, OnOk, OnErr};
ghost use Rattle.std.specs.Io.KnownBytes.{Appends};
ghost use Rattle.hex.specs.Hex.{encode_lower};
ghost use Rattle.dots_host.specs.Acts.{owned_of};
ghost use Rattle.dots_host.specs.Causes.{HasCause};
ghost use Rattle.dots_host.specs.Writing.{AppendsBeginning};
ghost use Rattle.dots_script.specs.Sends.{line_of, head_of};

use dots_host::{Failed, MAX_EVENT_BYTES, Out, Sink, write_all};
use hex::encode_to_slice;
use itoa::Buffer;

/// The room for the line of a send of at most [`MAX_EVENT_BYTES`] bytes: the longest word, ten digits, a space, two
/// digits for each byte, and a line feed.
pub const SEND_ROOM: usize = 8_209;

/// Writes the line of a send, in one call of the sink where that takes it all and the send has at most
/// [`MAX_EVENT_BYTES`] bytes. A longer one takes a call for as many bytes.
pub fn write_line<K: Sink>(sink: &mut K, room: &mut [u8], out: &Out) -> Result<(), Failed>
    requires { length room.old ≡ 8209 }
    ensures ok { OnOk result (Appends (K.holds sink.old) (K.holds sink.new) (line_of (owned_of out.now))) }
    ensures err { OnErr result (AppendsBeginning (K.holds sink.old) (K.holds sink.new) (line_of (owned_of out.now))) }
    ensures cause { HasCause (K.faults sink.old) (K.faults sink.new) result }
{
    let head = put_head(room, out);
    match out {
        Out::To { bytes, .. } => return write_hex(sink, room, head, bytes),
        Out::Conn { bytes, .. } => return write_hex(sink, room, head, bytes),
        Out::Close { .. } => return write_hex(sink, room, head, &[]),
    }
}

/// Puts the words of a send before its bytes to the front of the room, and answers how many bytes they have.
fn put_head(room: &mut [u8], out: &Out) -> usize
    requires { length room.old ≡ 8209 }
    ensures within { result ≤ 16 }
    ensures text { take result room.new ≡ head_of (owned_of out.now) }
{
    match out {
        Out::To { peer, .. } => return put_words(room, b"to ", *peer, b" "),
        Out::Conn { conn, .. } => return put_words(room, b"conn ", *conn, b" "),
        Out::Close { conn } => return put_words(room, b"close ", *conn, b""),
    }
}

fn put_words(room: &mut [u8], word: &[u8], number: u32, back: &[u8]) -> usize
    requires room { length room.old ≡ 8209 }
    requires word { length word.now + length back.now ≤ 6 }
    ensures within { result ≤ 16 }
    ensures text { take result room.new ≡ word.now ++ (decimal number ++ back.now) }
{
    let mut buffer = Buffer::new();
    let digits = buffer.format(number).as_bytes();
    let end = put(room, 0, word);
    let end = put(room, end, digits);
    put(room, end, back)
}

/// Puts bytes to a place, and answers the place behind them.
fn put(room: &mut [u8], at: usize, bytes: &[u8]) -> usize
    requires { at + length bytes.now ≤ length room.old }
    ensures end { result ≡ at + length bytes.now }
    ensures text { take result room.new ≡ take at room.old ++ bytes.now }
{
    let end = at + bytes.len();
    room[at..end].copy_from_slice(bytes);
    end
}

/// Puts bytes in hexadecimal to a place, and answers the place behind them.
fn put_hex(room: &mut [u8], at: usize, bytes: &[u8]) -> usize
    requires { at + 2 * length bytes.now ≤ length room.old }
    ensures end { result ≡ at + 2 * length bytes.now }
    ensures text { take result room.new ≡ take at room.old ++ encode_lower bytes.now }
{
    let end = at + 2 * bytes.len();
    match encode_to_slice(bytes, &mut room[at..end]) {
        Ok(()) => return end,
        Err(_) => unreachable!(),
    }
}

/// Writes what stands at the front of the room, then bytes in hexadecimal, and a line feed.
fn write_hex<K: Sink>(
    sink: &mut K,
    room: &mut [u8],
    head: usize,
    bytes: &[u8],
) -> Result<(), Failed>
    requires { (length room.old ≡ 8209) × (head ≤ 16) }
    ensures ok { OnOk result (Appends (K.holds sink.old) (K.holds sink.new)
        (take head room.old ++ (encode_lower bytes.now ++ 10 ∷ []))) }
    ensures err { OnErr result (AppendsBeginning (K.holds sink.old) (K.holds sink.new)
        (take head room.old ++ (encode_lower bytes.now ++ 10 ∷ []))) }
    ensures cause { HasCause (K.faults sink.old) (K.faults sink.new) result }
{
    let mut end = head;
    let mut rest = bytes;
    while rest.len() > MAX_EVENT_BYTES {
        let (first, later) = split(rest);
        end = put_hex(room, end, first);
        match write_all(sink, &room[..end]) {
            Ok(()) => (),
            Err(Failed) => return Err(Failed),
        }
        end = 0;
        rest = later;
    }
    end = put_hex(room, end, rest);
    end = put(room, end, b"\n");
    write_all(sink, &room[..end])
}

/// The first [`MAX_EVENT_BYTES`] bytes, and the later ones.
fn split(bytes: &[u8]) -> (&[u8], &[u8])
    requires { 4096 < length bytes.now }
    ensures whole { bytes.now ≡ result.0.now ++ result.1.now }
    ensures first { length result.0.now ≡ 4096 }
    ensures later { length result.1.now + 4096 ≡ length bytes.now }
{
    (&bytes[..MAX_EVENT_BYTES], &bytes[MAX_EVENT_BYTES..])
}
