//! The requests of whole streams, and how these go on.

use crate::connection::Connection;
use crate::row::Row;
use crate::tables::{Rows, Worded, all_hold, unescaped};
use http_cut::{HeadRoom, OwnedRequest, Stream, StreamEnd, Taken, take_requests};
use std::alloc::Global;

fn are(bytes: &[u8], want: &[u8]) -> bool {
    bytes == want
}

/// Whether the request is a PUT of this resource with this body in JSON.
fn is_put(request: &OwnedRequest, target: &[u8], body: &[u8]) -> bool {
    let Some(media) = &request.media else {
        return false;
    };
    are(request.method.items(), b"PUT")
        && are(request.target.items(), target)
        && are(media.items(), b"application/yang-data+json")
        && !request.close
        && are(request.body.items(), body)
}

/// Whether the requests are the PUT of a client and that of its alias.
fn are_puts(requests: &[OwnedRequest]) -> bool {
    let [client, alias] = requests else {
        return false;
    };
    is_put(
        client,
        b"/restconf/data/ietf-dots-data-channel:dots-data/dots-client=dz6pHjaADkaFTbjr0JGBpw",
        b"{\"ietf-dots-data-channel:dots-client\":[{\"cuid\":\"dz6pHjaADkaFTbjr0JGBpw\"}]}",
    ) && is_put(
        alias,
        b"/restconf/data/ietf-dots-data-channel:dots-data/dots-client=dz6pHjaADkaFTbjr0JGBpw/aliases/alias=web",
        b"{\"ietf-dots-data-channel:alias\":[{\"name\":\"web\",\"target-prefix\":[\"192.0.2.80/32\"]}]}",
    )
}

/// Whether the requests in these pieces are the PUT of a client and that of its alias, and more is waited for.
fn gives_puts(alloc: Global, stream: &mut Stream, room: &mut HeadRoom, pieces: &[&[u8]]) -> bool {
    let taken = take_requests(alloc, stream, room, pieces);
    matches!(&taken.end, Ok(StreamEnd::Waits)) && are_puts(taken.requests.items())
}

fn are_puts_in(alloc: Global, room: &mut HeadRoom, pieces: &[&[u8]]) -> bool {
    match Stream::new(alloc) {
        Ok(mut stream) => gives_puts(alloc, &mut stream, room, pieces),
        Err(_) => false,
    }
}

/// The PUTs of a client and of its alias.
const PUTS: &[u8] =
    b"PUT /restconf/data/ietf-dots-data-channel:dots-data/dots-client=dz6pHjaADkaFTbjr0JGBpw HTTP/1.1\r\nHost: dots.example\r\nContent-Type: application/yang-data+json\r\nContent-Length: 74\r\n\r\n{\"ietf-dots-data-channel:dots-client\":[{\"cuid\":\"dz6pHjaADkaFTbjr0JGBpw\"}]}PUT /restconf/data/ietf-dots-data-channel:dots-data/dots-client=dz6pHjaADkaFTbjr0JGBpw/aliases/alias=web HTTP/1.1\r\nHost: dots.example\r\nContent-Type: application/yang-data+json\r\nContent-Length: 83\r\n\r\n{\"ietf-dots-data-channel:alias\":[{\"name\":\"web\",\"target-prefix\":[\"192.0.2.80/32\"]}]}";

/// Whether they are the same in two pieces, cut at each place. The first such cut leaves them in one piece.
fn are_puts_in_two(alloc: Global, room: &mut HeadRoom) -> bool {
    let mut right = true;
    for at in 0..PUTS.len() {
        let (front, back) = PUTS.split_at(at);
        right &= are_puts_in(alloc, room, &[front, back]);
    }
    right
}

/// Whether they are the same however they are cut, byte by byte too.
fn are_puts_however_cut(alloc: Global) -> Option<bool> {
    let single = PUTS.chunks(1).collect::<Vec<&[u8]>>(alloc).ok()?;
    let mut room = HeadRoom::new(alloc).ok()?;
    Some(are_puts_in(alloc, &mut room, single.as_slice()) && are_puts_in_two(alloc, &mut room))
}

/// Two pieces of a stream, how many requests they have, and how it goes on (RFC 9112, sections 2.2, 6.3 and 9.6, and the bounds on heads
/// and bodies). A number stands for so many letters.
const STREAMS: &str = "\
4096|4096 = 0 bad head
GET / HTTP/1.1%0d%0a|: x%0d%0a%0d%0a = 0 bad head
GET / HTTP/1.1%0d%0a%0d%0aPUT / HTTP/1.1%0d%0aTransfer-Encoding: chu|nked%0d%0a%0d%0a = 1 length required
PUT / HTTP/1.1%0d%0aContent-Length: 8|193%0d%0a%0d%0a = 0 body too long
GET / HTTP/1.1%0d%0aConnection: close%0d%0a%0d%0a|GET / HTTP/1.1%0d%0a%0d%0a = 1 closes
GET / HTTP/1.0%0d%0a%0d%0aGET / HTTP/1.1%0d%0a%0d%0a| = 1 closes
PUT / HTTP/1.1%0d%0aContent-Length: 8192%0d%0a%0d%0a|8192 = 1 waits";

/// The bytes of a piece.
fn piece(alloc: Global, text: &str) -> Option<Vec<u8>> {
    match text.parse::<usize>() {
        Ok(count) => vec![in alloc; b'A'; count].ok(),
        Err(_) => unescaped(alloc, text),
    }
}

/// How many requests were taken, and how the stream goes on.
fn worded_of(alloc: Global, taken: &Taken) -> Option<String> {
    let count = taken.requests.items().len();
    match &taken.end {
        Ok(StreamEnd::Waits) => format!(in alloc; "{count} waits").ok(),
        Ok(StreamEnd::Closes) => format!(in alloc; "{count} closes").ok(),
        Ok(StreamEnd::Refused(fault)) => format!(in alloc; "{count} {fault}").ok(),
        Err(_) => None,
    }
}

fn worded_in(alloc: Global, pieces: &[&[u8]]) -> Option<String> {
    let mut connection = Connection::new(alloc)?;
    let taken = take_requests(alloc, &mut connection.stream, &mut connection.room, pieces);
    worded_of(alloc, &taken)
}

/// How the stream of a row goes on.
pub fn worded(alloc: Global, row: &mut Row<'_>) -> Option<String> {
    let front = piece(alloc, row.text("|"))?;
    let back = piece(alloc, row.rest())?;
    worded_in(alloc, &[front.as_slice(), back.as_slice()])
}

#[test]
fn streams_have_their_requests(rt: HostRuntime) {
    assert!(rt; matches!(are_puts_however_cut(rt.alloc()), Some(true)));
    all_hold(&rt, rt.alloc(), Rows::Worded(Worded::Streams), STREAMS);
}
