//! What stands at the front of some bytes (RFC 9112, sections 2.2 and 6).

use crate::connection::Connection;
use crate::row::Row;
use crate::tables::{Rows, Worded, all_hold, unescaped};
use http_cut::{Cut, HeadRoom, HttpRequest, Stream};
use std::alloc::Global;

/// Bytes, and what is seen at their front and then at the front of what is left behind a first request.
const FRONTS: &str = "\
GET / HTTP/1.1%0d%0a = more, more
%0d%0aGET / HTTP/1.0%0a%0aGET / HTTP/1.1%0d%0a%0d%0a = 18, 18
PUT / HTTP/1.1%0d%0aContent-Length: 2%0d%0a%0d%0aa = more, more
PUT / HTTP/1.1%0d%0aContent-Length: 8193%0d%0a%0d%0a = body too long, body too long";

/// The length of a request at the front, or the fault.
fn view_of(alloc: Global, cut: &Cut) -> Option<String> {
    match cut {
        Cut::Request(request) => format!(in alloc; "{}", request.length).ok(),
        Cut::More => String::from_str(alloc, "more").ok(),
        Cut::Refused(fault) => format!(in alloc; "{fault}").ok(),
    }
}

fn front_of(alloc: Global, connection: &mut Connection) -> Option<String> {
    let cut = connection.stream.cut(&mut connection.room);
    view_of(alloc, &cut)
}

fn discard_first(stream: &mut Stream, room: &mut HeadRoom) {
    if let Cut::Request(request) = stream.cut(room) {
        let length = request.length;
        stream.discard(length);
    }
}

fn take_bytewise(stream: &mut Stream, bytes: &[u8]) {
    for byte in bytes.chunks(1) {
        let _count = stream.take(byte);
    }
}

/// What is seen of what came.
fn fronts(alloc: Global, connection: &mut Connection) -> Option<String> {
    let first = front_of(alloc, connection)?;
    discard_first(&mut connection.stream, &mut connection.room);
    let second = front_of(alloc, connection)?;
    format!(in alloc; "{first}, {second}").ok()
}

/// What is seen of the bytes of a row, which come one by one.
pub fn seen(alloc: Global, row: &Row<'_>) -> Option<String> {
    let bytes = unescaped(alloc, row.rest())?;
    let mut connection = Connection::new(alloc)?;
    take_bytewise(&mut connection.stream, bytes.as_slice());
    fronts(alloc, &mut connection)
}

/// A request whose fields have blanks, capitals, parameters and several values, with the front of the next.
const REQUEST: &[u8] =
    b"PUT /a HTTP/1.1\r\ncontent-type:\t a/b ;c=d\r\nConnection: keep-alive , CLOSE\r\nContent-Length: 2\r\n\r\nxyGET";

fn are(bytes: &[u8], want: &[u8]) -> bool {
    bytes == want
}

/// Whether the parts are those of that request.
fn has_its_parts(request: &HttpRequest) -> bool {
    let Some(media) = request.media else {
        return false;
    };
    are(request.method, b"PUT")
        && are(request.target, b"/a")
        && are(media, b"a/b")
        && request.close
        && are(request.body, b"xy")
}

/// Whether the parts of the request are handed out.
fn are_handed_out(alloc: Global) -> Option<bool> {
    let mut connection = Connection::new(alloc)?;
    let _count = connection.stream.take(REQUEST);
    match connection.stream.cut(&mut connection.room) {
        Cut::Request(request) => Some(has_its_parts(&request)),
        _ => None,
    }
}

#[test]
fn requests_stand_in_front(rt: HostRuntime) {
    assert!(rt; matches!(are_handed_out(rt.alloc()), Some(true)));
    all_hold(&rt, rt.alloc(), Rows::Worded(Worded::Fronts), FRONTS);
}
