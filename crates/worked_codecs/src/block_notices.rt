//! Notifications that are longer than a block, and GETs of their rest.

use coap_block::BlockHost;
use dots_host::{Act, Bytes, Event, MAX_EVENT_BYTES, MemoryHost, Out, OwnedOut, Wire};
use std::alloc::Global;

/// What comes before a send.
#[derive(Clone, Copy)]
enum Came {
    Nothing,
    Restart,
    /// A datagram of the peer to which the send goes.
    Datagram(&'static [u8]),
}

/// A datagram whose payload is one byte so many times.
#[derive(Clone, Copy)]
struct Filled {
    head: &'static [u8],
    byte: u8,
    count: usize,
}

/// What comes, what a server sends then, and what leaves.
#[derive(Clone, Copy)]
struct Step {
    came: Came,
    peer: u32,
    sent: Filled,
    wanted: Filled,
}

fn with_payload(head: &'static [u8], byte: u8, count: usize) -> Filled {
    Filled { head, byte, count }
}

/// A step of peer 0.
fn sent_to_0(came: Came, sent: Filled, wanted: Filled) -> Step {
    Step {
        came,
        peer: 0,
        sent,
        wanted,
    }
}

/// A GET of `a` with Observe 0 and the token 4a, and its reply.
const GET_A: Came = Came::Datagram(b"\x51\x01\0\x01\x4a\x60\x51a");

const SEEN_A: Filled = Filled {
    head: b"\x51\x45\0\x01\x4a\x61\x01\x62\x01\x0f\xff",
    byte: b'a',
    count: 3,
};

/// The same of `b` with the token 4b.
const GET_B: Came = Came::Datagram(b"\x51\x01\0\x02\x4b\x60\x51b");

const SEEN_B: Filled = Filled {
    head: b"\x51\x45\0\x02\x4b\x61\x01\x62\x01\x0f\xff",
    byte: b'b',
    count: 3,
};

/// A GET of block 1 of `a` without Observe, of 1,024 bytes; and its reply.
const REST_A: Came = Came::Datagram(b"\x51\x01\0\x03\x4c\xb1a\xc1\x16");

const NEW_A: Filled = Filled {
    head: b"\x51\x45\0\x03\x4c\xc2\x01\x0f\xff",
    byte: b'n',
    count: 1028,
};

/// The same of `b`.
const REST_B: Came = Came::Datagram(b"\x51\x01\0\x03\x4c\xb1b\xc1\x16");

/// Block 1 as the reply to either.
const BLOCK_1: &[u8] = b"\x51\x45\0\x03\x4c\xc2\x01\x0f\xb1\x16\xff";

/// A notification with the token 4a, and its block 0.
const NOTICE: &[u8] = b"\x51\x45\x03\xe8\x4a\x61\x02\x62\x01\x0f\xff";

const BLOCK_0: &[u8] = b"\x51\x45\x03\xe8\x4a\x61\x02\x62\x01\x0f\xb1\x0e\xff";

const LONG: Filled = Filled {
    head: NOTICE,
    byte: b'm',
    count: 1030,
};

/// Two resources are observed, and the first is told of.
fn told() -> [Step; 3] {
    [
        sent_to_0(GET_A, SEEN_A, SEEN_A),
        sent_to_0(GET_B, SEEN_B, SEEN_B),
        sent_to_0(Came::Nothing, LONG, with_payload(BLOCK_0, b'm', 1024)),
    ]
}

fn bytes_of(alloc: Global, datagram: Filled) -> Option<Bytes> {
    let mut bytes = Vec::new(alloc);
    bytes.extend_from_slice(datagram.head).ok()?;
    for _ in 0..datagram.count {
        bytes.push(datagram.byte).ok()?;
    }
    Some(Bytes::from_vec(bytes))
}

/// Lets come what comes before a send.
fn plan(alloc: Global, host: &mut MemoryHost, step: Step) -> Option<()> {
    let event = match step.came {
        Came::Nothing => return Some(()),
        Came::Restart => Event::Restart,
        Came::Datagram(bytes) => Event::Datagram {
            from: step.peer,
            bytes: bytes_of(alloc, with_payload(bytes, 0, 0))?,
        },
    };
    if !event.is_given() {
        return None;
    }
    host.push(event, 1100).ok()
}

/// Whether the last act is this send to the peer.
fn has_sent(acts: &[Act], to: u32, wanted: &[u8]) -> bool {
    match acts.last() {
        Some(
            Act::Gave {
                out: OwnedOut::To { peer, bytes },
                ..
            },
        ) => *peer == to && bytes.items() == wanted,
        _ => false,
    }
}

/// Whether the send of a step leaves as it should.
fn goes(alloc: Global, host: &mut BlockHost<MemoryHost>, step: Step) -> Option<bool> {
    let mut room = [0; MAX_EVENT_BYTES];
    match step.came {
        Came::Nothing => {}
        Came::Restart | Came::Datagram(_) => {
            host.next(&mut room);
        }
    }
    let sent = bytes_of(alloc, step.sent)?;
    let wanted = bytes_of(alloc, step.wanted)?;
    host.send(&Out::To {
        peer: step.peer,
        bytes: sent.items(),
    });
    Some(has_sent(host.inner().acts(), step.peer, wanted.items()))
}

fn all_go(alloc: Global, steps: &[Step]) -> Option<bool> {
    let mut inner = MemoryHost::new(alloc, 0).ok()?;
    for step in steps {
        plan(alloc, &mut inner, *step)?;
    }
    let mut host = BlockHost::new(alloc, inner).ok()?;
    let mut right = true;
    for step in steps {
        right &= goes(alloc, &mut host, *step)?;
    }
    Some(right)
}

/// Whether these go behind those.
fn go_then(alloc: Global, steps: &[Step]) -> bool {
    let mut all = Vec::new(alloc);
    if all.extend_from_slice(&told()).is_err() || all.extend_from_slice(steps).is_err() {
        return false;
    }
    all_go(alloc, all.as_slice()) == Some(true)
}

#[test]
fn the_rest_is_fetched(rt: HostRuntime) {
    let rest = [sent_to_0(REST_A, NEW_A, with_payload(BLOCK_1, b'm', 6))];
    assert!(rt; go_then(rt.alloc(), &rest));
}

#[test]
fn others_get_their_own(rt: HostRuntime) {
    let of_b = [sent_to_0(REST_B, NEW_A, with_payload(BLOCK_1, b'n', 4))];
    assert!(rt; go_then(rt.alloc(), &of_b));
    let of_peer = [Step {
        peer: 1,
        ..sent_to_0(REST_A, NEW_A, with_payload(BLOCK_1, b'n', 4))
    }];
    assert!(rt; go_then(rt.alloc(), &of_peer));
}

#[test]
fn other_notifications_stay(rt: HostRuntime) {
    let short = with_payload(NOTICE, b'm', 1024);
    let unknown = with_payload(b"\x51\x45\x03\xe8\x4f\x61\x02\x62\x01\x0f\xff", b'm', 1030);
    let stay = [
        sent_to_0(Came::Nothing, short, short),
        sent_to_0(Came::Nothing, unknown, unknown),
        Step {
            peer: 1,
            ..sent_to_0(Came::Nothing, LONG, LONG)
        },
        sent_to_0(Came::Restart, LONG, LONG),
    ];
    assert!(rt; go_then(rt.alloc(), &stay));
}
