//! A client that reads late: what the system doesn't take is kept by the host, and comes once the client reads. Where no place is free, a new
//! connection takes that of one that the server has closed over what is kept.

use dots_edge::FileSocketHost;
use dots_host::{MAX_EVENT_BYTES, Out, Sent, What, Wire};
use std::io::Read;
use std::net::{Ipv4Addr, Shutdown, SocketAddr, TcpStream};

const HOST_FILE: &[u8] = b"http 127.0.0.1:0\npeer 3 127.0.0.1:1\n";

/// How many sends are tried at most: 64 MiB, more than a system takes where nobody reads.
const MOST_SENDS: usize = 16_384;

/// How many of the 128 sends that can be kept aren't sent, so that the system may take fewer of one connection than of another.
const SPARE: usize = 64;

/// How many places a host has for connections.
const PLACES: u32 = 128;

/// How many events are waited for at most. All but the last are ticks, one a second.
const MOST_EVENTS: u32 = 20;

type Room = [u8; MAX_EVENT_BYTES];

/// Who ends the connection before the client reads.
#[derive(Clone, Copy)]
enum Ender {
    Client,
    Server,
}

/// How many bytes a client has read by now, and whether the connection has ended for it.
#[derive(Clone, Copy)]
struct Taken {
    count: usize,
    ended: bool,
}

/// The byte that each place of a send of this number has.
fn byte_of(number: usize) -> u8 {
    (number % 251) as u8
}

fn sends<W: Wire>(wire: &mut W, conn: u32, number: usize) -> bool {
    let bytes: Room = [byte_of(number); MAX_EVENT_BYTES];
    let bytes = bytes.as_slice();
    wire.send(&Out::Conn { conn, bytes }) == Sent::Done
}

/// How many sends are done before one is lost, or so many where none is.
fn count_sent<W: Wire>(wire: &mut W, conn: u32, most: usize) -> usize {
    for number in 0..most {
        if !sends(wire, conn, number) {
            return number;
        }
    }
    most
}

fn next<W: Wire>(wire: &mut W) -> What {
    let mut room: Room = [0; MAX_EVENT_BYTES];
    wire.next(&mut room).what
}

fn is_opened(what: What, number: u32) -> bool {
    match what {
        What::Opened { conn, from } => conn == number && from == 3,
        _ => false,
    }
}

/// Whether a connection of this number is opened among so many events.
fn opens<W: Wire>(wire: &mut W, number: u32, events: u32) -> bool {
    for _ in 0..events {
        if is_opened(next(wire), number) {
            return true;
        }
    }
    false
}

fn is_closed(what: What, number: u32) -> bool {
    match what {
        What::Closed { conn } => conn == number,
        _ => false,
    }
}

/// Whether the end of the connection comes, behind ticks at most.
fn closes<W: Wire>(wire: &mut W, number: u32) -> bool {
    for _ in 0..MOST_EVENTS {
        if is_closed(next(wire), number) {
            return true;
        }
    }
    false
}

/// A client. It doesn't wait for what it reads.
fn client(rt: &HostRuntime, port: u16) -> Option<TcpStream> {
    let address = SocketAddr::from((Ipv4Addr::LOCALHOST, port));
    let stream = TcpStream::connect(rt, address).ok()?;
    stream.set_nonblocking(true).ok()?;
    Some(stream)
}

/// A client whose connection the host has opened under this number.
fn connected<W: Wire>(wire: &mut W, rt: &HostRuntime, port: u16, number: u32) -> Option<TcpStream> {
    let stream = client(rt, port)?;
    if opens(wire, number, MOST_EVENTS) {
        Some(stream)
    } else {
        None
    }
}

/// Whether these are the bytes that were sent from this place on.
fn are_sent(bytes: &[u8], from: usize) -> bool {
    for (place, byte) in bytes.iter().enumerate() {
        if *byte != byte_of(from.saturating_add(place) / MAX_EVENT_BYTES) {
            return false;
        }
    }
    true
}

/// Reads on what has come. None where it isn't what was sent.
fn read_on(stream: &mut TcpStream, from: usize) -> Option<Taken> {
    let mut room: Room = [0; MAX_EVENT_BYTES];
    let mut count = from;
    for _ in 0..MOST_SENDS {
        match stream.read(&mut room) {
            Ok(0) => return Some(Taken { count, ended: true }),
            Ok(len) => {
                if !are_sent(&room[..len], count) {
                    return None;
                }
                count = count.saturating_add(len);
            }
            Err(_) => return Some(Taken {
                count,
                ended: false,
            }),
        }
    }
    None
}

/// Whether the connection can be ended so. To one that the server has closed no more can be sent.
fn ends<W: Wire>(wire: &mut W, stream: &TcpStream, ender: Ender) -> bool {
    match ender {
        Ender::Client => stream.shutdown(Shutdown::Write).is_ok(),
        Ender::Server => {
            wire.send(&Out::Close { conn: 0 }) == Sent::Done
                && wire.send(&Out::Close { conn: 0 }) == Sent::Lost
                && !sends(wire, 0, 0)
        }
    }
}

/// Reads all while the host goes on: whether these were so many bytes, and then came the end, which the host handed in or not.
fn reads_all<W: Wire>(
    wire: &mut W,
    stream: &mut TcpStream,
    from: Taken,
    want: usize,
    told: bool,
) -> bool {
    let mut count = from.count;
    let mut was_told = false;
    for _ in 0..MOST_EVENTS {
        if is_closed(next(wire), 0) {
            was_told = true;
        }
        match read_on(stream, count) {
            Some(taken) if taken.ended => return taken.count == want && was_told == told,
            Some(taken) => count = taken.count,
            None => return false,
        }
    }
    false
}

/// Whether all of so many sends come, some of which were kept.
fn comes_late<W: Wire>(wire: &mut W, stream: &mut TcpStream, count: usize, ender: Ender) -> bool {
    let want = count.saturating_mul(MAX_EVENT_BYTES);
    if count_sent(wire, 0, count) != count || !ends(wire, stream, ender) {
        return false;
    }
    let told = match ender {
        Ender::Client => true,
        Ender::Server => false,
    };
    match read_on(stream, 0) {
        Some(taken) => !taken.ended
            && taken.count < want
            && reads_all(wire, stream, taken, want, told),
        None => false,
    }
}

/// How many sends are taken and kept on a connection before one is lost. The host tells that it has ended then.
fn most_on<W: Wire>(wire: &mut W, conn: u32) -> Option<usize> {
    let count = count_sent(wire, conn, MOST_SENDS);
    if closes(wire, conn) && count > SPARE {
        Some(count)
    } else {
        None
    }
}

fn most_sends<W: Wire>(wire: &mut W, rt: &HostRuntime, port: u16) -> Option<usize> {
    let stream = connected(wire, rt, port, 0)?;
    let most = most_on(wire, 0);
    drop(stream);
    most
}

fn goes<W: Wire>(wire: &mut W, rt: &HostRuntime, port: u16, ender: Ender) -> bool {
    let Some(most) = most_sends(wire, rt, port) else {
        return false;
    };
    match connected(wire, rt, port, 0) {
        Some(mut stream) => comes_late(wire, &mut stream, most.saturating_sub(SPARE), ender),
        None => false,
    }
}

/// Whether each place gets a connection.
fn fills<W: Wire>(wire: &mut W, rt: &HostRuntime, port: u16, streams: &mut Vec<TcpStream>) -> bool {
    for number in 0..PLACES {
        let Some(stream) = connected(wire, rt, port, number) else {
            return false;
        };
        if streams.push(stream).is_err() {
            return false;
        }
    }
    true
}

/// A client, whose connection of this number the server has closed over what is kept, and how many sends were done on it. The one that had the
/// number before has ended.
fn left_closing<W: Wire>(
    wire: &mut W,
    rt: &HostRuntime,
    port: u16,
    conn: u32,
) -> Option<(TcpStream, usize)> {
    let count = most_on(wire, conn)?.saturating_sub(SPARE);
    let stream = connected(wire, rt, port, conn)?;
    let is_sent = count_sent(wire, conn, count) == count;
    if is_sent && wire.send(&Out::Close { conn }) == Sent::Done {
        Some((stream, count))
    } else {
        None
    }
}

/// Whether a client reads a part of so many sends, and then the end.
fn is_cut<W: Wire>(wire: &mut W, stream: &mut TcpStream, count: usize) -> bool {
    let mut read = 0;
    for _ in 0..MOST_EVENTS {
        match read_on(stream, read) {
            Some(taken) if taken.ended => {
                return taken.count < count.saturating_mul(MAX_EVENT_BYTES);
            }
            Some(taken) => read = taken.count,
            None => return false,
        }
        next(wire);
    }
    false
}

/// A client that gets the place of this number, whose connection then reads no more than a part.
fn takes_place<W: Wire>(
    wire: &mut W,
    rt: &HostRuntime,
    port: u16,
    conn: u32,
    closing: &mut (TcpStream, usize),
) -> Option<TcpStream> {
    let stream = connected(wire, rt, port, conn)?;
    if is_cut(wire, &mut closing.0, closing.1) && sends(wire, conn, 0) {
        Some(stream)
    } else {
        None
    }
}

/// Whether further connections get the places of two that the server has closed, first that of the one that moved longest ago. The others are
/// open still.
fn take_places<W: Wire>(wire: &mut W, rt: &HostRuntime, port: u16) -> bool {
    let Some(mut first) = left_closing(wire, rt, port, 7) else {
        return false;
    };
    let Some(mut second) = left_closing(wire, rt, port, 3) else {
        return false;
    };
    let one = takes_place(wire, rt, port, 7, &mut first);
    let other = takes_place(wire, rt, port, 3, &mut second);
    one.is_some() && other.is_some() && sends(wire, 4, 0) && sends(wire, 8, 0)
}

fn gives_places_up<W: Wire>(wire: &mut W, rt: &HostRuntime, port: u16) -> bool {
    let mut streams = Vec::new(rt.alloc());
    fills(wire, rt, port, &mut streams) && take_places(wire, rt, port)
}

fn gives_up_over_host(rt: &HostRuntime) -> bool {
    match FileSocketHost::open(rt.alloc(), rt, HOST_FILE) {
        Ok(mut host) => {
            let port = host.http_port();
            let gives = gives_places_up(&mut host, rt, port);
            drop(host);
            gives
        }
        Err(_) => false,
    }
}

fn goes_over_host(rt: &HostRuntime, ender: Ender) -> bool {
    match FileSocketHost::open(rt.alloc(), rt, HOST_FILE) {
        Ok(mut host) => {
            let port = host.http_port();
            let goes = goes(&mut host, rt, port, ender);
            drop(host);
            goes
        }
        Err(_) => false,
    }
}

#[test]
fn late_readers_get_all(rt: HostRuntime) {
    assert!(rt; goes_over_host(&rt, Ender::Server), "the server closes");
    assert!(rt;
        goes_over_host(&rt, Ender::Client),
        "the client sends no more"
    );
}

#[test]
fn closing_connections_give_their_places_up(rt: HostRuntime) {
    assert!(rt; gives_up_over_host(&rt));
}
