//! Events that come to a host in memory.

use dots_host::{Bytes, Event, MemoryHost};
use std::alloc::Global;

fn bytes_of(alloc: Global, digits: &str) -> Option<Bytes> {
    Some(Bytes::from_vec(hex::decode(alloc, digits).ok()?))
}

/// An event of a peer or a connection: `from` with a peer and a datagram, `open` with a connection and a peer, `piece` with a connection and its
/// bytes, or `close` with a connection.
fn event_with_number(alloc: Global, words: &str) -> Option<Event> {
    let (kind, rest) = words.split_once(' ')?;
    let (number, last) = rest.split_once(' ').unwrap_or((rest, ""));
    let number = number.parse::<u32>().ok()?;
    match kind {
        "from" => Some(Event::Datagram {
            from: number,
            bytes: bytes_of(alloc, last)?,
        }),
        "open" => Some(Event::Opened {
            conn: number,
            from: last.parse::<u32>().ok()?,
        }),
        "piece" => Some(Event::Piece {
            conn: number,
            bytes: bytes_of(alloc, last)?,
        }),
        "close" => Some(Event::Closed { conn: number }),
        _ => None,
    }
}

fn event_of(alloc: Global, words: &str) -> Option<Event> {
    match words {
        "restart" => Some(Event::Restart),
        "end" => Some(Event::End),
        _ => event_with_number(alloc, words),
    }
}

/// Lets the event of a line come, as `at 1000 restart`, where that can be done.
fn push(alloc: Global, host: &mut MemoryHost, line: &str) -> Option<()> {
    let (time, words) = line.strip_prefix("at ")?.split_once(' ')?;
    let at = time.parse::<u64>().ok()?;
    if at >= 1 << 48 {
        return None;
    }
    let event = event_of(alloc, words)?;
    if !event.is_given() {
        drop(event);
        return None;
    }
    host.push(event, at).ok()
}

/// Lets the events of these lines come, where that can be done.
pub fn push_all(alloc: Global, host: &mut MemoryHost, events: &str) -> Option<()> {
    for line in events.lines() {
        push(alloc, host, line)?;
    }
    Some(())
}
