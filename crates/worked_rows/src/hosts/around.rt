//! The clients of a host over loopback, and the file of its journal.

use crate::hosts::acts::writes;
use crate::hosts::set_clock::SetClock;
use crate::hosts::words::{first_word, number, word};
use dots_edge::FileSocketHost;
use dots_host::Disk;
use std::fs;
use std::io::{Read, Write};
use std::net::{Ipv4Addr, Net, SocketAddr, TcpStream, UdpSocket};

fn local(port: u16) -> SocketAddr {
    SocketAddr::from((Ipv4Addr::LOCALHOST, port))
}

/// What is around a host: two sockets of a peer, connections to the host, and the file of its journal.
///
/// Acts of theirs are:
///
/// - `ports` and two numbers: those on which the host accepts connections and receives datagrams
/// - `connect`: a further connection is made, and `leave`: all are closed
/// - `stream` and `write`, `read` or `ended`: over the first connection bytes are written, or come, or it has ended
/// - `socket`, 0 or 1, and `send` or `hear`: the one socket or the other sends or receives a datagram
/// - `file`, a path, and `cut` or `has` and a number, `put` or `holds` and bytes, or `remove`: the file is cut to so many bytes, has so
///   many, is made of these or holds these, or is removed
/// - `second` and a host file: a second host of this file writes nothing
#[derive(Drop)]
pub struct Around<'a> {
    pub rt: &'a HostRuntime,
    pub clock: &'a SetClock<'a>,
    /// The port on which the host accepts connections.
    pub http: u16,
    /// The port on which the host receives datagrams.
    pub signal: u16,
    one: Option<UdpSocket>,
    other: Option<UdpSocket>,
    streams: Vec<TcpStream>,
}

fn bound(rt: &HostRuntime) -> Option<UdpSocket> {
    UdpSocket::bind(rt, local(0)).ok()
}

/// Whether a datagram of these bytes, at most eight, is received.
fn hears(socket: &UdpSocket, want: &[u8]) -> bool {
    let mut bytes = [0; 9];
    match socket.recv_from(&mut bytes) {
        Ok((count, _)) => bytes.get(..count) == Some(want),
        Err(_) => false,
    }
}

fn socket_goes(socket: &UdpSocket, act: &str, bytes: &[u8], to: u16) -> bool {
    match act {
        "send" => socket.send_to(bytes, local(to)).is_ok(),
        "hear" => hears(socket, bytes),
        _ => false,
    }
}

/// Whether these bytes, of which there are five, come.
fn reads(stream: &mut TcpStream, want: &[u8]) -> bool {
    let mut bytes = [0; 5];
    stream.read_exact(&mut bytes).is_ok() && bytes.as_slice() == want
}

fn is_ended(stream: &mut TcpStream) -> bool {
    let mut byte = [0; 1];
    match stream.read(&mut byte) {
        Ok(count) => count == 0,
        Err(_) => false,
    }
}

fn stream_goes(stream: &mut TcpStream, act: &str, bytes: &[u8]) -> bool {
    match act {
        "write" => stream.write_all(bytes).is_ok(),
        "read" => reads(stream, bytes),
        "ended" => is_ended(stream),
        _ => false,
    }
}

fn cut(rt: &HostRuntime, path: &str, len: u64) -> bool {
    match fs::File::options().write(true).open(rt, path) {
        Ok(file) => file.set_len(len).is_ok(),
        Err(_) => false,
    }
}

fn has_length(rt: &HostRuntime, path: &str, len: u64) -> bool {
    match fs::metadata(rt, path) {
        Ok(file) => file.len() == len,
        Err(_) => false,
    }
}

/// Whether a file is made of the bytes.
fn is_put(rt: &HostRuntime, path: &str, bytes: &[u8]) -> bool {
    match fs::File::create(rt, path) {
        Ok(mut file) => file.write_all(bytes).is_ok(),
        Err(_) => false,
    }
}

/// Whether the file holds these bytes alone, of which there are five at most.
fn holds(rt: &HostRuntime, path: &str, bytes: &[u8]) -> bool {
    let mut found = [0; 5];
    let Some(front) = found.get_mut(..bytes.len()) else {
        return false;
    };
    match fs::File::open(rt, path) {
        Ok(mut file) => file.read_exact(front).is_ok() && &*front == bytes,
        Err(_) => false,
    }
}

fn file_goes(rt: &HostRuntime, words: &str, bytes: &[u8]) -> bool {
    let (path, act) = first_word(words);
    match word(act, 0) {
        "cut" => cut(rt, path, number(act, 1)),
        "has" => has_length(rt, path, number(act, 1)),
        "put" => is_put(rt, path, bytes),
        "holds" => holds(rt, path, bytes) && has_length(rt, path, bytes.len() as u64),
        "remove" => fs::remove_file(rt, path).is_ok(),
        _ => false,
    }
}

/// Whether neither a sync nor a write goes well.
fn is_shut<D: Disk>(disk: &mut D) -> bool {
    disk.sync().is_err() && writes(disk, 0, b"z") == Some(false)
}

fn is_second_shut(rt: &HostRuntime, file: &str) -> bool {
    match FileSocketHost::open(rt.alloc(), rt, file.as_bytes()) {
        Ok(mut host) => {
            let is_shut = is_shut(&mut host);
            drop(host);
            is_shut
        }
        Err(_) => false,
    }
}

impl<'a> Around<'a> {
    /// A peer with two ports.
    pub fn new(rt: &'a HostRuntime, clock: &'a SetClock<'a>) -> Around<'a> {
        Around {
            rt,
            clock,
            http: 0,
            signal: 0,
            one: bound(rt),
            other: bound(rt),
            streams: Vec::new(rt.alloc()),
        }
    }

    /// The first of the peer's ports.
    pub fn port(&self) -> Option<u16> {
        let address = self.one.as_ref()?.local_addr().ok()?;
        Some(address.port())
    }

    fn connect(&mut self) -> bool {
        match TcpStream::connect(self.rt, local(self.http)) {
            Ok(stream) => self.streams.push(stream).is_ok(),
            Err(_) => false,
        }
    }

    fn stream_goes(&mut self, act: &str, bytes: &[u8]) -> bool {
        match self.streams.first_mut() {
            Some(stream) => stream_goes(stream, act, bytes),
            None => false,
        }
    }

    fn socket_goes(&self, words: &str, bytes: &[u8]) -> bool {
        let socket = if number(words, 0) == 0 {
            &self.one
        } else {
            &self.other
        };
        match socket {
            Some(socket) => socket_goes(socket, word(words, 1), bytes, self.signal),
            None => false,
        }
    }

    fn has_ports(&self, words: &str) -> bool {
        u64::from(self.http) == number(words, 0) && u64::from(self.signal) == number(words, 1)
    }

    /// Whether an act goes as it says. None where it isn't one of these.
    pub fn goes(&mut self, act: &str, words: &str, bytes: &[u8]) -> Option<bool> {
        match act {
            "connect" => Some(self.connect()),
            "leave" => {
                self.streams.clear();
                Some(true)
            }
            "stream" => Some(self.stream_goes(words, bytes)),
            "socket" => Some(self.socket_goes(words, bytes)),
            "file" => Some(file_goes(self.rt, words, bytes)),
            "second" => Some(is_second_shut(self.rt, words)),
            "ports" => Some(self.has_ports(words)),
            _ => None,
        }
    }
}
