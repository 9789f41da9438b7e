//! Acts of a host and of those around it, as lines of text.
//!
//! A line is an act, and may have bytes behind ` = `. Those of the host are:
//!
//! - `next` and an event: the next event is this. An event is its name, its numbers and its bytes, as in `from 5 = ask` and `opened 0 3`
//! - `at`, a second and an event: the same, and that it comes at this second, up to which the clock is set before
//! - `after`, a second and an event: the same, and that it comes later than that
//! - `within`, a number and an event: one of so many next events is this
//! - `ok` or `no`, and a call: it goes well, or not. A call is `to` a peer, `conn`, `close`, `read` and `write` at a place, or `sync`.
//!   A read that goes well gives these bytes, and one that doesn't is of as many
//! - `size`: the disk has so many bytes, and `#` is a remark
//! - `wall` and a number: from now on the wall clock is so many seconds ahead of the other
//!
//! [`Around`] has the acts of others. `times` and a number stand before an act that is done so often.

ghost use Rattle.std.specs.Prelude.{◌≡◌, ◌+◌, ◌≤◌, length, true};

use crate::hosts::around::Around;
use crate::hosts::set_clock::SetClock;
use crate::hosts::words::{NO_NUMBER, bytes_of, first_word, number, word};
use dots_host::{Disk, Host, MAX_EVENT_BYTES, Out, Sent, What, Wire};

type Room = [u8; MAX_EVENT_BYTES];

/// The name of an event, its numbers and its bytes.
type Parts<'a> = (&'a str, u64, u64, &'a [u8]);

fn parts(what: What, room: &Room) -> Parts<'_> {
    match what {
        What::Datagram { from, len } => ("from", from.into(), NO_NUMBER, front(room, len)),
        What::Opened { conn, from } => ("opened", conn.into(), from.into(), &[]),
        What::Piece { conn, len } => ("piece", conn.into(), NO_NUMBER, front(room, len)),
        What::Closed { conn } => ("closed", conn.into(), NO_NUMBER, &[]),
        What::Tick => ("tick", NO_NUMBER, NO_NUMBER, &[]),
        What::Restart => ("restart", NO_NUMBER, NO_NUMBER, &[]),
        What::End => ("end", NO_NUMBER, NO_NUMBER, &[]),
        What::Failed => ("failed", NO_NUMBER, NO_NUMBER, &[]),
    }
}

fn front(room: &Room, len: usize) -> &[u8] {
    room.get(..len).unwrap_or(&[])
}

/// When the next event comes, where it is this.
fn next<W: Wire>(wire: &mut W, event: &str, bytes: &[u8]) -> Option<u64> {
    let mut room: Room = [0; MAX_EVENT_BYTES];
    let got = wire.next(&mut room);
    let asked = (word(event, 0), number(event, 1), number(event, 2), bytes);
    if parts(got.what, &room) == asked {
        Some(got.at)
    } else {
        None
    }
}

fn is_within<W: Wire>(wire: &mut W, count: u64, event: &str, bytes: &[u8]) -> bool {
    for _ in 0..count {
        if next(wire, event, bytes).is_some() {
            return true;
        }
    }
    false
}

/// Whether so many bytes stand at the place on the disk.
fn is_on<D: Disk>(disk: &D, at: u64, bytes: &[u8]) -> bool
    ensures { result ≡ true → at + length bytes.now ≤ D.extent disk.now }
{
    let len = bytes.len() as u64;
    let size = disk.size();
    len <= size && at <= size - len
}

/// Whether a read goes well and gives these bytes. None where it gives others, or there is no such place.
fn reads<D: Disk>(disk: &mut D, at: u64, bytes: &[u8]) -> Option<bool> {
    let mut room: Room = [9; MAX_EVENT_BYTES];
    let into = room.get_mut(..bytes.len())?;
    if !is_on(disk, at, into) {
        return None;
    }
    if disk.read(at, into).is_err() {
        return Some(false);
    }
    if &*into == bytes { Some(true) } else { None }
}

/// Whether a write goes well. None where there is no such place.
pub fn writes<D: Disk>(disk: &mut D, at: u64, bytes: &[u8]) -> Option<bool> {
    if !is_on(disk, at, bytes) {
        return None;
    }
    Some(disk.write_at(at, bytes).is_ok())
}

fn out_of<'a>(words: &str, bytes: &'a [u8]) -> Option<Out<'a>> {
    let number = u32::try_from(number(words, 1)).ok()?;
    match word(words, 0) {
        "to" => Some(Out::To {
            peer: number,
            bytes,
        }),
        "conn" => Some(Out::Conn {
            conn: number,
            bytes,
        }),
        "close" => Some(Out::Close { conn: number }),
        _ => None,
    }
}

/// Whether a send is done. None where it isn't one.
fn sends<W: Wire>(wire: &mut W, words: &str, bytes: &[u8]) -> Option<bool> {
    match out_of(words, bytes) {
        Some(out) => Some(wire.send(&out) == Sent::Done),
        None => None,
    }
}

/// Whether a call goes well. None where it can't be made.
fn call<H: Host>(host: &mut H, words: &str, bytes: &[u8]) -> Option<bool> {
    match word(words, 0) {
        "read" => reads(host, number(words, 1), bytes),
        "write" => writes(host, number(words, 1), bytes),
        "sync" => Some(host.sync().is_ok()),
        _ => sends(host, words, bytes),
    }
}

/// Whether an event comes as the act says.
fn comes<W: Wire>(
    wire: &mut W,
    clock: &SetClock<'_>,
    act: &str,
    words: &str,
    bytes: &[u8],
) -> bool {
    let (_, event) = first_word(words);
    let number = number(words, 0);
    match act {
        "next" => next(wire, words, bytes).is_some(),
        "at" => {
            clock.set(number);
            next(wire, event, bytes) == Some(number)
        }
        "after" => next(wire, event, bytes).unwrap_or(0) > number,
        "within" => is_within(wire, number, event, bytes),
        _ => false,
    }
}

/// Whether an act of the host goes as it says.
fn goes<H: Host>(host: &mut H, clock: &SetClock<'_>, act: &str, words: &str, bytes: &[u8]) -> bool {
    match act {
        "ok" => call(host, words, bytes) == Some(true),
        "no" => call(host, words, bytes) == Some(false),
        "size" => host.size() == number(words, 0),
        "wall" => {
            clock.set_wall(number(words, 0));
            true
        }
        "#" => true,
        _ => comes(host, clock, act, words, bytes),
    }
}

/// Whether an act of the host or of others goes as it says.
fn goes_among<H: Host>(host: &mut H, around: &mut Around<'_>, words: &str, bytes: &[u8]) -> bool {
    let (act, rest) = first_word(words);
    match around.goes(act, rest, bytes) {
        Some(went) => went,
        None => goes(host, around.clock, act, rest, bytes),
    }
}

fn goes_each_time<H: Host>(
    host: &mut H,
    around: &mut Around<'_>,
    words: &str,
    bytes: &[u8],
) -> bool {
    let (count, words) = match words.strip_prefix("times ") {
        Some(rest) => (number(rest, 0), first_word(rest).1),
        None => (1, words),
    };
    for _ in 0..count {
        if !goes_among(host, around, words, bytes) {
            return false;
        }
    }
    true
}

fn line_goes<H: Host>(host: &mut H, around: &mut Around<'_>, line: &str) -> bool {
    let (words, text) = line.split_once(" = ").unwrap_or((line, ""));
    match bytes_of(around.rt.alloc(), text) {
        Some(bytes) => goes_each_time(host, around, words, bytes.as_slice()),
        None => false,
    }
}

/// Whether each line goes as it says.
pub fn all_go<H: Host>(host: &mut H, around: &mut Around<'_>, lines: &str) -> bool {
    for line in lines.lines() {
        if !line_goes(host, around, line) {
            return false;
        }
    }
    true
}
