//! Pieces of a connection, one after the other, and how what stands at its front is answered.

ghost use Rattle.std.specs.Prelude.{◌≡◌, true, IfSome, is_some};
ghost use Rattle.stream_table.specs.Places.{conn_at};
ghost use Rattle.dots_registry.specs.RegistryValues.{IsOf};
ghost use Rattle.dots_data.specs.Accepting.{IsInUse};

use crate::message_rows::{begins, carry_out, settings};
use dots_data::{Desk, RestStream, caller_at, front};
use dots_lists::{List, NoMemory};
use dots_registry::Registry;
use dots_settings::Settings;
use http_cut::HeadRoom;
use list_json::JsonRoom;
use rest_answers::{RestFront, refusal};
use std::alloc::Global;
use std::test::Fail;
use stream_table::{LinePlace, StreamTable};

/// A piece, with `~` for each end of a line, and behind the bar what stands at the front then: that more is waited for, or how the reply to it begins
/// or, where it has a body, ends. Where the connection is gone another is opened (RFC 9112, sections 2, 6 and 9; RFC 8783, sections 5 to 7).
const ROWS: &str = r#"GET /restconf/data/ietf-dots-data-channe|waits
l:dots-data/dots-client=x HTTP/1.1~~|HTTP/1.1 404 Not Found~Content-Length: 0~~
PUT /restconf/data/ietf-dots-data-channel:dots-data/dots-client=x HTTP/1.1~Content-Length: 53~~{"ietf-dots-data-channel:dots-client":[{"cuid":"x"}]}GET /restconf/data/ietf-dots-data-channel:dots-data/dots-client=x/aliases HTTP/1.1~~|HTTP/1.1 201 Created~Content-Length: 0~~
|~~{"ietf-dots-data-channel:aliases":{"alias":[]}}
PUT /restconf/data/ietf-dots-data-channel:dots-data/dots-client=x/aliases/alias=web HTTP/1.1~Content-Length: 82~~{"ietf-dots-data-channel:alias":[{"name":"web","target-prefix"|waits
:["192.0.2.1/32"]}]}PUT /restconf/data/ietf-dots-data-channel:dots-data/dots-client=x HTTP/1.1~Content-Length: 53~~{"ietf-dots-data-channel:dots-client":[{"cuid":"x"}]}|HTTP/1.1 201 Created~Content-Length: 0~~
|HTTP/1.1 204 No Content~~
|waits
GET~~PUT /restconf/data/ietf-dots-data-channel:dots-data/dots-client=x HTTP/1.1~Content-Length: 53~~{"ietf-dots-data-channel:dots-client":[{"cuid":"x"}]}|HTTP/1.1 400 Bad Request~Connection: close~
PUT /restconf/data/ietf-dots-data-channel:dots-data/dots-client=x HTTP/1.1~Transfer-Encoding: chunked~~|HTTP/1.1 411 Length Required~Connection: close~
PUT /restconf/data/ietf-dots-data-channel:dots-data/dots-client=x HTTP/1.1~Content-Length: 8193~~|HTTP/1.1 413 
GET /restconf/data/ietf-dots-data-channel:dots-data/dots-client=x/acls HTTP/1.1~Connection: close~~PUT /restconf/data/ietf-dots-data-channel:dots-data/dots-client=x HTTP/1.1~Content-Length: 53~~{"ietf-dots-data-channel:dots-client":[{"cuid":"x"}]}|~Connection: close~Content-Type: application/yang-data+json~Content-Length: 42~~{"ietf-dots-data-channel:acls":{"acl":[]}}
|waits
DELETE /restconf/data/ietf-dots-data-channel:dots-data/dots-client=y HTTP/1.0~~|HTTP/1.1 404 Not Found~Connection: close~"#;

/// The bytes of a text that has `~` for each end of a line.
fn bytes_of(alloc: Global, text: &str) -> Result<List<u8>, NoMemory> {
    let mut bytes = List::new(alloc);
    for byte in text.as_bytes() {
        if *byte == b'~' {
            bytes.push(b'\r')?;
            bytes.push(b'\n')?;
        } else {
            bytes.push(*byte)?;
        }
    }
    Ok(bytes)
}

/// What serves the requests of a connection.
#[derive(Drop)]
struct Rooms {
    heads: HeadRoom,
    json: JsonRoom,
}

/// Where the connection stands, which is opened where it isn't open.
fn place_of(table: &mut StreamTable<RestStream>) -> Option<LinePlace>
    ensures { IfSome result (λ place. is_some (conn_at place table.new) ≡ true) }
{
    if let Some(place) = table.place(1) {
        return Some(place);
    }
    match table.open(0, 1) {
        Ok(()) => table.place(1),
        Err(_) => None,
    }
}

/// Carries out what stands at the front of the connection, and says whether that is as wanted.
fn turn(
    alloc: Global,
    settings: &Settings,
    registry: &mut Registry,
    table: &mut StreamTable<RestStream>,
    rooms: &mut Rooms,
    want: &[u8],
) -> bool
    requires settings { IsOf settings.now registry.old }
    requires in_use { IsInUse settings.now registry.old }
    ensures settings { IsOf settings.now registry.new }
    ensures in_use { IsInUse settings.now registry.new }
{
    let Some(place) = table.place(1) else {
        return false;
    };
    let Some(caller) = caller_at(settings, table, place) else {
        return false;
    };
    let desk = Desk {
        alloc,
        settings,
        registry: &*registry,
    };
    match front(
        &desk,
        &mut rooms.heads,
        &mut rooms.json,
        table,
        place,
        caller,
    ) {
        RestFront::Waits => want == b"waits".as_slice(),
        RestFront::Refused(fault) => {
            table.forget(1);
            begins(&refusal(alloc, fault), want)
        }
        RestFront::Answered {
            size,
            close,
            answer,
        } => {
            if close {
                table.forget(1);
            } else {
                table.discard(place, size);
            }
            carry_out(registry, settings, answer, want)
        }
    }
}

/// Takes the piece of a row, and says whether what stands at the front then is as wanted.
fn holds(
    alloc: Global,
    settings: &Settings,
    registry: &mut Registry,
    table: &mut StreamTable<RestStream>,
    rooms: &mut Rooms,
    row: &str,
) -> bool
    requires settings { IsOf settings.now registry.old }
    requires in_use { IsInUse settings.now registry.old }
    ensures settings { IsOf settings.now registry.new }
    ensures in_use { IsInUse settings.now registry.new }
{
    let Some((piece, want)) = row.split_once('|') else {
        return false;
    };
    let (Ok(piece), Ok(want)) = (bytes_of(alloc, piece), bytes_of(alloc, want)) else {
        return false;
    };
    let Some(place) = place_of(table) else {
        return false;
    };
    let all = table.take(place, piece.items()) == piece.items().len();
    all && turn(alloc, settings, registry, table, rooms, want.items())
}

/// Takes the pieces of the rows, and says whether each is answered as wanted.
fn all_hold(
    alloc: Global,
    settings: &Settings,
    registry: &mut Registry,
    table: &mut StreamTable<RestStream>,
    rooms: &mut Rooms,
) -> bool
    requires settings { IsOf settings.now registry.old }
    requires in_use { IsInUse settings.now registry.old }
{
    let mut all = true;
    for row in ROWS.lines() {
        all &= holds(alloc, settings, registry, table, rooms, row);
    }
    all
}

fn make_rooms(alloc: Global) -> Result<Rooms, NoMemory> {
    Ok(Rooms {
        heads: HeadRoom::new(alloc)?,
        json: JsonRoom::new(alloc),
    })
}

/// The same over a new registry of these settings.
fn all_hold_anew(alloc: Global, settings: &Settings) -> Result<bool, Fail> {
    let mut rooms = make_rooms(alloc)?;
    let mut table = StreamTable::new(alloc, settings)?;
    let mut registry = Registry::new(alloc, settings)?;
    let all = all_hold(alloc, settings, &mut registry, &mut table, &mut rooms);
    registry.let_go();
    Ok(all)
}

#[test]
fn what_stands_at_the_front_is_answered(rt: HostRuntime) -> Result<(), Fail> {
    let settings = settings(rt.alloc())?;
    let all = all_hold_anew(rt.alloc(), &settings);
    assert!(rt; all? == true);
    Ok(())
}
