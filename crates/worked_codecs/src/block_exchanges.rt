//! Requests, the replies of a server, and what leaves of these.

use coap_block::BlockHost;
use dots_host::{Act, Bytes, Event, MAX_EVENT_BYTES, MemoryHost, Out, OwnedOut, What, Wire};
use std::alloc::Global;

/// The path of a GET of one mitigation.
const PATH: &[u8] = b"\xbb.well-known\x04dots\x08mitigate\
    \x0d\x0ecuid=dz6pHjaADkaFTbjr0JGBpw\x07mid=123";

/// A body of 34 bytes, and the same a second later and with another status.
const BODY: &[u8] = b"\xa1\x01\xa1\x02\x81\xa5\x05\x18\x7b\x06\x81\x6c192.0.2.0/24\
    \x0e\x19\x0d\xac\x0f\x19\x03\xe8\x10\x02";

const LATER: &[u8] = b"\xa1\x01\xa1\x02\x81\xa5\x05\x18\x7b\x06\x81\x6c192.0.2.0/24\
    \x0e\x19\x0d\xab\x0f\x19\x03\xe8\x10\x05";

/// A request with this Message ID and this Block2, which a server answers with the body, or with a restart before it.
#[derive(Clone, Copy)]
struct Exchange {
    restarts: bool,
    id: u8,
    block: &'static [u8],
    body: &'static [u8],
    /// What leaves.
    wanted: &'static [u8],
}

/// A request of this exchange without a restart.
const fn asked(
    id: u8,
    block: &'static [u8],
    body: &'static [u8],
    wanted: &'static [u8],
) -> Exchange {
    Exchange {
        restarts: false,
        id,
        block,
        body,
        wanted,
    }
}

fn bytes_of(alloc: Global, parts: &[&[u8]]) -> Option<Bytes> {
    let mut bytes = Vec::new(alloc);
    for part in parts {
        if bytes.extend_from_slice(part).is_err() {
            return None;
        }
    }
    Some(Bytes::from_vec(bytes))
}

/// A NON GET with the token 4a.
fn request(alloc: Global, id: u8, block: &[u8]) -> Option<Bytes> {
    bytes_of(alloc, &[&[0x51, 0x01, 0, id, 0x4a], PATH, block])
}

/// A NON 2.05 to it.
fn reply(alloc: Global, id: u8, body: &[u8]) -> Option<Bytes> {
    bytes_of(
        alloc,
        &[&[0x51, 0x45, 0, id, 0x4a, 0xc2, 0x01, 0x0f, 0xff], body],
    )
}

/// Lets the request of an exchange come.
fn plan(alloc: Global, host: &mut MemoryHost, exchange: Exchange) -> Option<()> {
    if exchange.restarts {
        host.push(Event::Restart, 1100).ok()?;
    }
    let event = Event::Datagram {
        from: 0,
        bytes: request(alloc, exchange.id, exchange.block)?,
    };
    if !event.is_given() {
        return None;
    }
    host.push(event, 1100).ok()
}

/// Whether the last act is this send to peer 0.
fn has_sent(acts: &[Act], wanted: &[u8]) -> bool {
    match acts.last() {
        Some(
            Act::Gave {
                out: OwnedOut::To { peer: 0, bytes },
                ..
            },
        ) => bytes.items() == wanted,
        _ => false,
    }
}

/// Whether the request is seen without a block, and its reply leaves as it should.
fn goes(alloc: Global, host: &mut BlockHost<MemoryHost>, exchange: Exchange) -> Option<bool> {
    let mut room = [0; MAX_EVENT_BYTES];
    if exchange.restarts {
        host.next(&mut room);
    }
    let What::Datagram { from: 0, len } = host.next(&mut room).what else {
        return Some(false);
    };
    let seen = request(alloc, exchange.id, &[])?;
    let sent = reply(alloc, exchange.id, exchange.body)?;
    host.send(&Out::To {
        peer: 0,
        bytes: sent.items(),
    });
    Some(&room[..len] == seen.items() && has_sent(host.inner().acts(), exchange.wanted))
}

fn all_go(alloc: Global, exchanges: &[Exchange]) -> Option<bool> {
    let mut inner = MemoryHost::new(alloc, 0).ok()?;
    for exchange in exchanges {
        plan(alloc, &mut inner, *exchange)?;
    }
    let mut host = BlockHost::new(alloc, inner).ok()?;
    let mut right = true;
    for exchange in exchanges {
        right &= goes(alloc, &mut host, *exchange)?;
    }
    Some(right)
}

#[test]
fn blocks_are_fetched(rt: HostRuntime) {
    let exchanges = [
        asked(
            32,
            b"\xc0",
            BODY,
            b"\x51\x45\0\x20\x4a\xc2\x01\x0f\xb1\x08\xff\xa1\x01\xa1\x02\x81\xa5\x05\x18\x7b\x06\x81\x6c192.",
        ),
        asked(
            34,
            b"\xc1\x20",
            LATER,
            b"\x51\x45\0\x22\x4a\xc2\x01\x0f\xb1\x20\xff\x10\x02",
        ),
        asked(36, b"\xc1\x30", LATER, b"\x51\x80\0\x24\x4a\xffblock"),
        asked(38, b"\xc1\x07", LATER, b"\x51\x80\0\x26\x4a\xffblock"),
        Exchange {
            restarts: true,
            ..asked(
                40,
                b"\xc1\x20",
                LATER,
                b"\x51\x45\0\x28\x4a\xc2\x01\x0f\xb1\x20\xff\x10\x05",
            )
        },
    ];
    assert!(rt; all_go(rt.alloc(), &exchanges) == Some(true));
}
