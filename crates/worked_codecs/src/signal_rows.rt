//! What a connection comes to, by the rules of RFC 8323, section 5. The expected values come from the RFC and not from the program.

ghost use Rattle.std.specs.Prelude.{◌≢◌};
ghost use Rattle.coap_tcp.specs.Frames.{IsFrame};
ghost use Rattle.coap_tcp.specs.FrameReading.{frame_value};

use coap_tcp::{Frame, PLAIN_ABORT, PLAIN_CSM, SignalStream, Turn, as_datagram};
use std::alloc::Global;

/// What comes, and what is seen of it: a datagram of each request, what is sent, and at the end `.` where the connection is closed.
type Row = (&'static [u8], &'static [u8]);

const ROWS: &[Row] = &[
    // A CSM and a Ping: a Pong.
    (b"\x00\xe1\x00\xe2", b"\x00\xe3"),
    // The Pong has the token of the Ping, and not its options (Custody).
    (b"\x00\xe1\x12\xe2\xab\xcd\x20", b"\x02\xe3\xab\xcd"),
    // A CSM with options (Max-Message-Size 1,152), and later another.
    (b"\x30\xe1\x22\x04\x80\x00\xe1\x00\xe2", b"\x00\xe3"),
    // A first message that isn't a CSM: an Abort, and what follows isn't looked at.
    (b"\x00\xe2\x00\xe1", b"\x00\xe5."),
    (b"\x00\x01\x00\xe1", b"\x00\xe5."),
    // A request with a token and 92 bytes of options and payload, and then a Ping.
    (
        b"\x00\xe1\xd1\x4f\x03\x4a\xbb.well-known\x04dots\x08mitigate\
        \x0d\x0ecuid=dz6pHjaADkaFTbjr0JGBpw\x07mid=123\x12\x01\x0f\
        \xff\xa1\x01\xa1\x02\x81\xa2\x06\x81\x6c192.0.2.0/24\x0e\x19\x0e\x10\x00\xe2",
        b"\x41\x03\0\0\x4a\xbb.well-known\x04dots\x08mitigate\
        \x0d\x0ecuid=dz6pHjaADkaFTbjr0JGBpw\x07mid=123\x12\x01\x0f\
        \xff\xa1\x01\xa1\x02\x81\xa2\x06\x81\x6c192.0.2.0/24\x0e\x19\x0e\x10\x00\xe3",
    ),
    // An empty message, a response and a Pong are nothing.
    (b"\x00\xe1\x00\x00\x00\x45\x00\xe3\x00\xe2", b"\x00\xe3"),
    // A token of nine bytes, also as the first thing that comes.
    (b"\x00\xe1\x09", b"\x00\xe5."),
    (b"\x09", b"\x00\xe5."),
    // 4,097 bytes of options and payload.
    (b"\x00\xe1\xe0\x0e\xf4", b"\x00\xe5."),
    // A reserved nibble, and a marker without a payload.
    (b"\x00\xe1\x10\x02\xf0", b"\x00\xe5."),
    (b"\x00\xe1\x10\x02\xff", b"\x00\xe5."),
    // A Release, and an Abort with a text.
    (b"\x00\xe1\x00\xe4\x00\xe2", b"."),
    (b"\x00\xe1\x30\xe5\xffno\x00\xe2", b"."),
    // Less than a message.
    (b"\x00\xe1\x01\xe2", b""),
    (b"", b""),
];

/// Puts the datagram of a request behind what was seen.
fn see_request(seen: &mut Vec<u8>, frame: &Frame) -> Option<()>
    requires frame { IsFrame (frame_value frame.now) }
    requires code { frame.now.code ≢ 0 }
{
    let mut into = [0; 4_200];
    let len = as_datagram(frame, &mut into);
    seen.extend_from_slice(&into[..len]).ok()
}

/// Does the turn at the front. False where none follows yet or any more.
fn do_turn(seen: &mut Vec<u8>, stream: &SignalStream) -> Option<bool> {
    match stream.turn() {
        Turn::Waits => return Some(false),
        Turn::Begins => return Some(true),
        Turn::Passes => return Some(true),
        Turn::Answers(pong) => seen.extend_from_slice(pong.as_slice()).ok()?,
        Turn::Serves(frame) => see_request(seen, &frame)?,
        Turn::Aborts => {
            seen.extend_from_slice(&PLAIN_ABORT).ok()?;
            seen.push(b'.').ok()?;
            return Some(false);
        }
        Turn::Closes => {
            seen.push(b'.').ok()?;
            return Some(false);
        }
    }
    Some(true)
}

/// Does the turns that are there. False where the connection is closed.
fn do_turns(seen: &mut Vec<u8>, stream: &mut SignalStream) -> Option<bool> {
    for _ in 0..10 {
        if !do_turn(seen, stream)? {
            break;
        }
        stream.done();
    }
    Some(!seen.as_slice().ends_with(b"."))
}

/// Whether this is seen of a connection whose bytes come in pieces of so many.
fn is_seen(alloc: Global, stream: &mut SignalStream, row: &Row, step: usize) -> Option<bool>
    requires { step ≢ 0 }
{
    let (bytes, want) = *row;
    let mut seen = Vec::new(alloc);
    stream.clear();
    for piece in bytes.chunks(step) {
        stream.take(piece);
        if !do_turns(&mut seen, stream)? {
            break;
        }
    }
    Some(seen.as_slice() == want)
}

fn are_seen(alloc: Global) -> Option<bool> {
    let mut stream = SignalStream::new(alloc).ok()?;
    let mut right = true;
    for row in ROWS {
        right &= is_seen(alloc, &mut stream, row, 1)?;
        right &= is_seen(alloc, &mut stream, row, 3)?;
        right &= is_seen(alloc, &mut stream, row, 8_192)?;
    }
    Some(right)
}

#[test]
fn connections_come_to_this(rt: HostRuntime) {
    assert!(rt; are_seen(rt.alloc()) == Some(true));
    assert!(rt; PLAIN_CSM == [0x00, 0xe1]);
}
