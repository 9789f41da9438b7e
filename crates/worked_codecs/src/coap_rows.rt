//! Messages of CoAP (RFC 7252, section 3).

ghost use Rattle.std.specs.Prelude.{◌≤◌};
ghost use Rattle.coap_message.specs.Parts.{IsValid};

use crate::row::Row;
use crate::tables::{Rows, Worded, all_hold};
use coap_message::{
    Kind, Message, OptionPart, Options, Parts, Token, decode, encode_into, encoded_len, salvage,
};
use std::alloc::{AllocError, Global};

/// A NON PUT with six options and a payload.
const REQUEST: [u8; 97] = *b"\x51\x03\x00\x01\x4a\xbb.well-known\x04dots\x08mitigate\
    \x0d\x0ecuid=dz6pHjaADkaFTbjr0JGBpw\x07mid=123\x12\x01\x0f\
    \xff\xa1\x01\xa1\x02\x81\xa2\x06\x81\x6c192.0.2.0/24\x0e\x19\x0e\x10";

/// A NON 2.01 with one option and a payload.
const REPLY: &[u8] =
    b"\x51\x41\x00\x01\x4a\xc2\x01\x0f\xff\xa1\x01\xa1\x02\x81\xa2\x05\x18\x7b\x0e\x19\x0e\x10";

/// The header of a CON GET without a token.
const HEADER: &[u8] = b"\x40\x01\x12\x34";

/// An option behind that header: its number, how many bytes its value has, and what stands in front of these, in hexadecimal.
/// Each number and each length is the last or the first with so long an extension. In the last two the extension of the delta
/// comes first.
const FORMS: &str = "\
12 0 = c0
13 0 = d000
268 0 = d0ff
269 0 = e00000
65535 0 = e0fef2
1 12 = 1c
1 13 = 1d00
1 268 = 1dff
1 269 = 1e0000
1 65804 = 1effff
14 527 = de010102
1041 15 = ed030402";

/// One or two of each fault, in front of what is told of it, and where several are in one place.
const FAULTS: &str = "\
890012 = the bytes end too early at 3
00011234 = the version isn't 1 at 0
89001234ff = the version isn't 1 at 0
49001234ff = the token is longer than 8 bytes at 0
4f030001 = the token is longer than 8 bytes at 0
42001234 = an empty message has more than a header at 0
40001234ff = an empty message has more than a header at 4
48011234ff = the bytes end too early at 5
40011234df = a nibble of an option is 15 at 4
40011234f0 = a nibble of an option is 15 at 4
40030002b00f = a nibble of an option is 15 at 5
40011234e000 = the bytes end too early at 6
40011234edffff = the bytes end too early at 7
40011234e1ffff = an option's number is above 65535 at 4
410300034ae0fef210 = an option's number is above 65535 at 8
40030003e0fef3 = an option's number is above 65535 at 4
50011236b261 = the bytes end too early at 6
40011235ff = no payload follows the marker at 4
40011235b0ff = no payload follows the marker at 5";

/// What is written of a CON GET with one option, whose value has so many zeros.
fn written(alloc: Global, number: u16, size: usize) -> Result<Vec<u8>, AllocError>
    requires { size ≤ 65804 }
{
    let values = vec![in alloc; 0; size]?;
    let parts = Parts {
        kind: Kind::Con,
        code: 0x01,
        id: 0x1234,
        token: &[],
        options: &[OptionPart {
            number,
            length: size,
        }],
        values: values.as_slice(),
        payload: &[],
    };
    let mut bytes = vec![in alloc; 0xee; encoded_len(&parts)]?;
    let len = encode_into(&parts, &mut bytes);
    bytes.truncate(len);
    Ok(bytes)
}

fn are_all(bytes: &[u8], want: u8) -> bool {
    let mut right = true;
    for byte in bytes {
        right &= *byte == want;
    }
    right
}

/// Whether the bytes are the header, these bytes, and then zeros alone, of which there are so many.
fn is_spelled(bytes: &[u8], front: &[u8], size: usize) -> bool {
    let Some(rest) = bytes.strip_prefix(HEADER) else {
        return false;
    };
    match rest.strip_prefix(front) {
        Some(zeros) => zeros.len() == size && are_all(zeros, 0),
        None => false,
    }
}

/// Whether what is written of the option of a row is spelled as the row says.
pub fn is_written(alloc: Global, row: &mut Row<'_>) -> Option<bool> {
    let number = row.number::<u16>(" ");
    let size = row.number::<usize>(" ");
    let digits = row.want();
    let front = row.bytes(alloc, digits);
    if size > 65_804 {
        return None;
    }
    let bytes = written(alloc, number, size).ok()?;
    Some(is_spelled(bytes.as_slice(), front.as_slice(), size))
}

/// Whether the next of the options has this number and this value.
fn is_next(options: &mut Options<'_>, number: u16, value: &str) -> bool {
    match options.next() {
        Some(row) => row.number == number && row.value == value.as_bytes(),
        None => false,
    }
}

fn has_options(message: &Message<'_>) -> bool {
    let mut options = message.options();
    let mut right = true;
    for (number, value) in [
        (11, ".well-known"),
        (11, "dots"),
        (11, "mitigate"),
        (11, "cuid=dz6pHjaADkaFTbjr0JGBpw"),
        (11, "mid=123"),
        (12, "\x01\x0f"),
    ] {
        right &= is_next(&mut options, number, value);
    }
    right && options.next().is_none()
}

fn has_parts(message: &Message<'_>) -> bool {
    message.kind() == Kind::Non
        && message.code() == 0x03
        && message.id() == 1
        && message.token() == b"\x4a".as_slice()
        && message.payload() == &REQUEST[72..]
}

/// Whether the request is read as it was written.
fn is_read() -> bool {
    match decode(&REQUEST) {
        Ok(message) => has_options(&message) && has_parts(&message),
        Err(_) => false,
    }
}

/// What is told of the fault of the bytes of a row; None where they are a message.
pub fn fault_of(alloc: Global, row: &mut Row<'_>) -> Option<String> {
    let digits = row.rest();
    let bytes = row.bytes(alloc, digits);
    match decode(bytes.as_slice()) {
        Ok(_) => None,
        Err(fault) => format!(in alloc; "{fault}").ok(),
    }
}

/// What is salvaged of bytes, a kind and an id.
const SALVAGED: &str = "\
400112 = nothing
f0011234 = nothing
4f011234 = con 4660
5001ff00f0 = non 65280
610000ff = ack 255
7000ffffff = rst 65535";

fn word_of(kind: Kind) -> &'static str {
    match kind {
        Kind::Con => "con",
        Kind::Non => "non",
        Kind::Ack => "ack",
        Kind::Rst => "rst",
    }
}

/// What is salvaged of the bytes of a row.
pub fn salvaged(alloc: Global, row: &mut Row<'_>) -> Option<String> {
    let digits = row.rest();
    let bytes = row.bytes(alloc, digits);
    match salvage(bytes.as_slice()) {
        Some((kind, id)) => format!(in alloc; "{} {id}", word_of(kind)).ok(),
        None => String::from_str(alloc, "nothing").ok(),
    }
}

/// Whether these parts take the bytes that are wanted at the front of the room, behind which it stays.
fn is_encoded(parts: &Parts<'_>, want: &[u8]) -> bool
    requires { IsValid parts.now }
{
    let mut room = [0xee; 24];
    let len = encoded_len(parts);
    if len != want.len() || len > room.len() {
        return false;
    }
    encode_into(parts, &mut room) == len && room.starts_with(want) && are_all(&room[len..], 0xee)
}

/// A reply with a token, an option and a payload.
fn is_reply_written() -> bool {
    let Some(token) = Token::new(b"\x4a") else {
        return false;
    };
    let parts = Parts {
        kind: Kind::Non,
        code: 0x41,
        id: 1,
        token: token.bytes(),
        options: &[OptionPart {
            number: 12,
            length: 2,
        }],
        values: b"\x01\x0f",
        payload: &REPLY[9..],
    };
    is_encoded(&parts, REPLY)
}

/// Without options and a payload, and so without a marker.
fn is_header_written(kind: Kind, code: u8, token: &[u8], want: &[u8]) -> bool {
    if token.len() > 8 || code == 0 && !token.is_empty() {
        return false;
    }
    let parts = Parts {
        kind,
        code,
        id: 0x1234,
        token,
        options: &[],
        values: &[],
        payload: &[],
    };
    is_encoded(&parts, want)
}

fn are_written() -> bool {
    is_reply_written()
        && Token::new(b"ninebytes").is_none()
        && is_header_written(Kind::Ack, 0, b"", b"\x60\x00\x12\x34")
        && is_header_written(Kind::Rst, 0xff, b"coltsabb", b"\x78\xff\x12\x34coltsabb")
}

#[test]
fn messages_are_read_and_written(rt: HostRuntime) {
    assert!(rt; is_read() && are_written());
    all_hold(&rt, rt.alloc(), Rows::Options, FORMS);
    all_hold(&rt, rt.alloc(), Rows::Worded(Worded::Messages), FAULTS);
    all_hold(&rt, rt.alloc(), Rows::Worded(Worded::Salvaged), SALVAGED);
}
