//! A socket for datagrams.

ghost use Rattle.std.specs.Prelude.{◌≡◌, [], length, IfOk, OnErr};
ghost use Rattle.dots_edge.specs.Events.{IsReceived};
ghost use Rattle.dots_edge.specs.Logs.{IsNext};
ghost use Rattle.dots_edge.specs.Datagrams.{HasReceived, HasSent, is_for};

use crate::address::mapped;
use crate::answer::Answer;
use crate::socket_log::SocketLog;
use dots_host::Sent;
use mio::net::UdpSocket;
use std::io;
use std::io::ErrorKind;
use std::net::SocketAddr;

/// What a receive gives.
#[derive(Clone, Copy)]
pub enum Received {
    /// A datagram of so many bytes, at the front of the room; of a longer one as many as the room has.
    Datagram {
        len: usize,
        from: SocketAddr,
        /// The place of the socket on which it came.
        via: usize,
    },
    /// No datagram waits at any socket.
    Nothing,
    /// There was none this time.
    Again,
}

/// A socket for datagrams.
#[derive(Drop)]
pub struct Signal {
    socket: UdpSocket,
    /// Whether it is one of IPv6, which sends to IPv4 by mapped addresses.
    is_v6: bool,
    /// What it gave.
    came: SocketLog,
    /// What it took.
    taken: SocketLog,
}

impl Signal {
    /// The socket, of which nothing was asked yet.
    pub fn new(socket: UdpSocket, is_v6: bool) -> Signal
        ensures { result.is_v6 ≡ is_v6 }
    {
        Signal {
            socket,
            is_v6,
            came: SocketLog::new(),
            taken: SocketLog::new(),
        }
    }

    /// The socket itself.
    pub fn socket(&self) -> &UdpSocket {
        &self.socket
    }

    /// Whether it is for the family, IPv6 or IPv4.
    pub fn is_for(&self, is_v6: bool) -> bool
        ensures { result ≡ is_for is_v6 self.now }
    {
        self.is_v6 == is_v6
    }

    /// Receives a datagram that waits at the socket, which has this place.
    pub fn receive(&mut self, via: usize, room: &mut [u8]) -> io::Result<Received>
        ensures range { IfOk result (λ received. IsReceived received (length room.old)) }
        ensures ok { IfOk result (λ received. HasReceived received via room.new self.old.came self.new.came) }
        ensures err { OnErr result (IsNext self.old.came Answer.Failed [] self.new.came) }
        ensures kept { self.new ≡ record self.old { came = self.new.came } }
    {
        match self.socket.recv_from(room) {
            Ok((len, from)) => {
                self.came.note(Answer::Went(len), &room[..len]);
                Ok(Received::Datagram { len, from, via })
            }
            Err(error) => match error.kind() {
                ErrorKind::WouldBlock => {
                    self.came.note(Answer::Nothing, &room[..0]);
                    Ok(Received::Nothing)
                }
                ErrorKind::Interrupted | ErrorKind::ConnectionRefused => {
                    self.came.note(Answer::Again, &room[..0]);
                    Ok(Received::Again)
                }
                _ => {
                    self.came.note(Answer::Failed, &room[..0]);
                    Err(error)
                }
            },
        }
    }

    /// Sends a datagram. It is lost where the socket doesn't take all of it now.
    pub fn send(&mut self, bytes: &[u8], to: SocketAddr) -> Sent
        ensures sent { HasSent result bytes.now self.old.taken self.new.taken }
        ensures kept { self.new ≡ record self.old { taken = self.new.taken } }
    {
        let to = if self.is_v6 && to.is_ipv4() {
            mapped(to)
        } else {
            to
        };
        let answer = match self.socket.send_to(bytes, to) {
            Ok(count) => self.taken.note(Answer::Went(count), &bytes[..count]),
            Err(error) => self.taken.note(Answer::of(error.kind()), &bytes[..0]),
        };
        match answer {
            Answer::Went(count) if count == bytes.len() => Sent::Done,
            _ => Sent::Lost,
        }
    }
}
