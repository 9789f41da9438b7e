//! Messages as they come on a connection.

use crate::connection::Connection;
use crate::data_asking::answer;
use crate::row::Row;
use crate::tables::{Rows, Worded, all_hold};
use http_cut::Cut;
use std::alloc::{AllocError, Global};
use std::test::Fail;

/// What the message at the front of a connection's bytes asks.
pub fn asked(alloc: Global, row: &Row<'_>) -> Option<String> {
    let mut connection = Connection::new(alloc)?;
    let _taken = connection.stream.take(row.rest().as_bytes());
    match connection.stream.cut(&mut connection.room) {
        Cut::Request(request) => answer(alloc, &request),
        _ => None,
    }
}

/// Registering a client and writing an alias (RFC 8783, sections 5.1 and 6.1), and looking for the root, which is where it is said to
/// be.
const MESSAGES: &str =
    r#"PUT /restconf/data/ietf-dots-data-channel:dots-data/dots-client=dz6pHjaADkaFTbjr0JGBpw HTTP/1.1
Host: example.com
Content-Type: application/yang-data+json
Content-Length: 74

{"ietf-dots-data-channel:dots-client":[{"cuid":"dz6pHjaADkaFTbjr0JGBpw"}]} = PutClient /dots-client=dz6pHjaADkaFTbjr0JGBpw|
===
PUT /restconf/data/ietf-dots-data-channel:dots-data/dots-client=dz6pHjaADkaFTbjr0JGBpw/aliases/alias=web HTTP/1.1
Host: example.com
Content-Type: application/yang-data+json
Content-Length: 83

{"ietf-dots-data-channel:alias":[{"name":"web","target-prefix":["192.0.2.80/32"]}]} = PutAlias /dots-client=dz6pHjaADkaFTbjr0JGBpw/aliases/alias=web|{"name":"web","target-prefix":["192.0.2.80/32"]}
===
POST /restconf/data/ietf-dots-data-channel:dots-data/dots-client=a%2fb HTTP/1.1
Content-Length: 72

{"ietf-dots-data-channel:alias":[{"name":"w/b","target-fqdn":["a.b"]}]}  = PostAlias /dots-client=a%2Fb/aliases/alias=w%2Fb|{"name":"w/b","target-fqdn":["a.b"]}
===
GET /.well-known/host-meta HTTP/1.1
Host: example.com
Accept: application/xrd+xml

 = NotFound"#;

/// A body of 8,192 bytes that is no JSON, and is refused as any other.
fn longest(alloc: Global) -> Result<String, AllocError> {
    let body = "{\"cuid\":".repeat(alloc, 1_024)?;
    format!(in alloc;
        "POST /restconf/data/ietf-dots-data-channel:dots-data HTTP/1.1\nContent-Length: 8192\n\n{body} = NotJson"
    )
}

#[test]
fn messages_are_read_from_connections(rt: HostRuntime) -> Result<(), Fail> {
    let longest = longest(rt.alloc())?;
    all_hold(&rt, rt.alloc(), Rows::Worded(Worded::Exchanges), MESSAGES);
    all_hold(&rt, rt.alloc(), Rows::Worded(Worded::Exchanges), &longest);
    Ok(())
}
