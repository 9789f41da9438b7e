//! What stands at the front of some bytes, by the rules of RFC 8323, section 3.2.

ghost use Rattle.coap_tcp.specs.Frames.{IsFrame};
ghost use Rattle.coap_tcp.specs.FrameReading.{frame_value};

use coap_message::{Kind, OptionPart, Parts};
use coap_tcp::{Frame, FrameCut, FrameFault, Frames, as_datagram, frame_into};
use std::alloc::Global;

/// A frame is told by the datagram of its message, and else a word tells what stands there.
type Row = (&'static [u8], &'static [u8]);

const ROWS: &[Row] = &[
    // The capabilities of a connection.
    (b"\x00\xe1", b"\x40\xe1\0\0"),
    // The next frame isn't taken.
    (b"\x10\x01\x40\x00\xe1", b"\x40\x01\0\0\x40"),
    // One byte of length, with a token, and its beginning.
    (
        b"\xd1\x00\x03\x4a\xffabcdefghijkl",
        b"\x41\x03\0\0\x4a\xffabcdefghijkl",
    ),
    (b"\xd1\x00\x03\x4a\xffabcdefghijk", b"more"),
    (b"\xd1\x4f", b"more"),
    (b"", b"more"),
    // A token of nine bytes.
    (b"\x09", b"token"),
    // 4,096 and 4,097 bytes, and 65,805.
    (b"\xe0\x0e\xf3", b"more"),
    (b"\xe0\x0e\xf4", b"long"),
    (b"\xf0\0\0\0", b"more"),
    (b"\xf0\0\0\0\0", b"long"),
    // A reserved nibble, and a marker without a payload.
    (b"\x10\x02\xf0", b"options"),
    (b"\x10\x45\xff", b"options"),
];

/// Whether the message of a frame is this datagram.
fn is_message(frame: &Frame, want: &[u8]) -> bool
    requires { IsFrame (frame_value frame.now) }
{
    let mut into = [0; 4_200];
    if frame.code == 0 {
        return false;
    }
    let len = as_datagram(frame, &mut into);
    &into[..len] == want
}

/// Whether this stands at the front of the bytes.
fn is_seen(frames: &mut Frames, row: &Row) -> bool {
    let (bytes, want) = *row;
    frames.clear();
    frames.take(bytes);
    let word: &[u8] = match frames.cut() {
        FrameCut::Message(frame) => return is_message(&frame, want),
        FrameCut::More => b"more",
        FrameCut::Refused(FrameFault::Token) => b"token",
        FrameCut::Refused(FrameFault::TooLong) => b"long",
        FrameCut::Refused(FrameFault::Options) => b"options",
    };
    word == want
}

fn are_seen(alloc: Global) -> bool {
    let Ok(mut frames) = Frames::new(alloc) else {
        return false;
    };
    let mut right = true;
    for row in ROWS {
        right = right && is_seen(&mut frames, row);
    }
    right
}

/// Whether an answer with a format and a payload is written so.
fn is_written() -> bool {
    let mut into = [0; 64];
    let format = [OptionPart {
        number: 12,
        length: 2,
    }];
    let parts = Parts {
        kind: Kind::Ack,
        code: 0x45,
        id: 7,
        token: b"\x4a",
        options: &format,
        values: b"\x01\x0f",
        payload: b"hi",
    };
    let len = frame_into(&parts, &mut into);
    &into[..len] == b"\x61\x45\x4a\xc2\x01\x0f\xffhi".as_slice()
}

#[test]
fn fronts_of_streams(rt: HostRuntime) {
    assert!(rt; are_seen(rt.alloc()));
    assert!(rt; is_written());
}
