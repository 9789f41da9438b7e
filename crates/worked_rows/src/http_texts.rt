//! Texts of HTTP in rows, and the pieces in which they come.
//!
//! In a text `~` stands for each end of a line, CR and LF. Its parts are joined by `^`: names of [`TEXTS`], texts that are repeated, as `3*a`, and
//! others.

ghost use Rattle.std.specs.Prelude.{◌<◌};

use crate::tables::repeated;
use std::alloc::Global;
use std::fmt::Write;

/// What stands for a name in a text: each line is a name and a text.
///
/// ROOT, CLIENT and WEB are the paths of the root, of the client and of its alias `web`. PUT_CLIENT registers the client and PUT_WEB writes the
/// alias, of 192.0.2.80/32; GET_CLIENT and GET_WEB read them, and AND_CLIENT and AND_WEB stand behind the path of a PUT or POST of them. ALIAS stands
/// behind the path of an alias up to its name, of three letters; TO between the name and its prefix, of 13 letters; and END behind that. LIST stands
/// behind the path of an access list up to its name, of one letter, and DROPS behind that: while the client mitigates the list drops what comes over UDP
/// from port 123.
///
/// YANG is the head of what is read, up to its length. NOTHING is what is read of the client where it has nothing, and HELD where it has that alias.
/// The other replies have the status that their names say. CLOSED is 400 and GONE 404 with a close behind it, and NOT_ALLOWED is 405 up to the methods.
const TEXTS: &str = r#"ROOT /restconf/data/ietf-dots-data-channel:dots-data
CLIENT /restconf/data/ietf-dots-data-channel:dots-data/dots-client=dz6pHjaADkaFTbjr0JGBpw
WEB /restconf/data/ietf-dots-data-channel:dots-data/dots-client=dz6pHjaADkaFTbjr0JGBpw/aliases/alias=web
PUT_CLIENT PUT /restconf/data/ietf-dots-data-channel:dots-data/dots-client=dz6pHjaADkaFTbjr0JGBpw HTTP/1.1~Content-Length: 74~~{"ietf-dots-data-channel:dots-client":[{"cuid":"dz6pHjaADkaFTbjr0JGBpw"}]}
PUT_WEB PUT /restconf/data/ietf-dots-data-channel:dots-data/dots-client=dz6pHjaADkaFTbjr0JGBpw/aliases/alias=web HTTP/1.1~Content-Length: 83~~{"ietf-dots-data-channel:alias":[{"name":"web","target-prefix":["192.0.2.80/32"]}]}
GET_CLIENT GET /restconf/data/ietf-dots-data-channel:dots-data/dots-client=dz6pHjaADkaFTbjr0JGBpw HTTP/1.1~~
GET_WEB GET /restconf/data/ietf-dots-data-channel:dots-data/dots-client=dz6pHjaADkaFTbjr0JGBpw/aliases/alias=web HTTP/1.1~~
AND_CLIENT  HTTP/1.1~Content-Length: 74~~{"ietf-dots-data-channel:dots-client":[{"cuid":"dz6pHjaADkaFTbjr0JGBpw"}]}
AND_WEB  HTTP/1.1~Content-Length: 83~~{"ietf-dots-data-channel:alias":[{"name":"web","target-prefix":["192.0.2.80/32"]}]}
ALIAS  HTTP/1.1~Content-Length: 83~~{"ietf-dots-data-channel:alias":[{"name":"
TO ","target-prefix":["
END "]}]}
LIST  HTTP/1.1~Content-Length: 193~~{"ietf-dots-data-channel:acl":[{"name":"
DROPS ","type":"ipv4-acl-type","aces":{"ace":[{"name":"e","matches":{"udp":{"source-port":{"operator":"eq","port":123}}},"actions":{"forwarding":"drop"}}]}}]}
YANG HTTP/1.1 200 OK~Content-Type: application/yang-data+json~Content-Length:
NOTHING HTTP/1.1 200 OK~Content-Type: application/yang-data+json~Content-Length: 115~~{"ietf-dots-data-channel:dots-client":[{"acls":{"acl":[]},"aliases":{"alias":[]},"cuid":"dz6pHjaADkaFTbjr0JGBpw"}]}
HELD HTTP/1.1 200 OK~Content-Type: application/yang-data+json~Content-Length: 163~~{"ietf-dots-data-channel:dots-client":[{"acls":{"acl":[]},"aliases":{"alias":[{"name":"web","target-prefix":["192.0.2.80/32"]}]},"cuid":"dz6pHjaADkaFTbjr0JGBpw"}]}
CREATED HTTP/1.1 201 Created~Content-Length: 0~~
NO_CONTENT HTTP/1.1 204 No Content~~
BAD_REQUEST HTTP/1.1 400 Bad Request~Content-Length: 0~~
CLOSED HTTP/1.1 400 Bad Request~Connection: close~Content-Length: 0~~
NOT_FOUND HTTP/1.1 404 Not Found~Content-Length: 0~~
GONE HTTP/1.1 404 Not Found~Connection: close~Content-Length: 0~~
NOT_ALLOWED HTTP/1.1 405 Method Not Allowed~Allow:
CONFLICT HTTP/1.1 409 Conflict~Content-Length: 0~~
FULL HTTP/1.1 503 Service Unavailable~Content-Length: 0~~"#;

/// Puts the bytes of a text that is no name.
fn push_bytes(bytes: &mut Vec<u8>, text: &str) -> Option<()> {
    for byte in text.as_bytes() {
        if *byte == b'~' {
            bytes.extend_from_slice(b"\r\n").ok()?;
        } else {
            bytes.push(*byte).ok()?;
        }
    }
    Some(())
}

/// The bytes of a text.
fn bytes_of(alloc: Global, text: &str) -> Option<Vec<u8>> {
    let mut bytes = Vec::new(alloc);
    for part in text.split('^') {
        let (count, part) = repeated(TEXTS, part);
        for _ in 0..count {
            push_bytes(&mut bytes, part)?;
        }
    }
    Some(bytes)
}

/// Puts the lines of a script by which a text comes on a connection, in pieces of at most so many bytes.
pub fn push_pieces(alloc: Global, text: &mut String, line: &str, size: usize) -> Option<()>
    requires { 0 < size }
{
    let (at, rest) = line.split_once(" piece ")?;
    let (conn, words) = rest.split_once(' ')?;
    let bytes = bytes_of(alloc, words)?;
    for piece in bytes.as_slice().chunks(size) {
        let digits = hex::encode(alloc, piece).ok()?;
        write!(text, "{at} piece {conn} {digits}\n").ok()?;
    }
    Some(())
}

/// Puts the line of a text that is sent on a connection.
pub fn push_sent(alloc: Global, text: &mut String, line: &str) -> Option<()> {
    let (conn, words) = line.strip_prefix("conn ")?.split_once(' ')?;
    let bytes = bytes_of(alloc, words)?;
    let digits = hex::encode(alloc, bytes.as_slice()).ok()?;
    write!(text, "conn {conn} {digits}\n").ok()
}
