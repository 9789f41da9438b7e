//! The sockets of a host file, and the wait for them and the connections.

ghost use Rattle.std.specs.Prelude.{◌≡◌, ◌+◌, ◌<◌, ◌≤◌, ◌==◌, true, false, if◌then◌else◌, length, position, vec_len, IfOk, OnOk, OnErr, nat_lt};
ghost use Rattle.dots_edge.specs.Turns.{whose_turn};
ghost use Rattle.dots_edge.specs.Events.{IsReceived};
ghost use Rattle.dots_edge.specs.Answers.{has_failed};
ghost use Rattle.dots_edge.specs.Accepts.{HasAccepted, HasGivenAt, IsAdmitted, IsAny, SameListenersBeside, times_tried};
ghost use Rattle.dots_edge.specs.Datagrams.{HasAsked, HasFailed, HasReceivedAt, HasFailedAt, IsSomething, IsSentFrom, SameSignalsBeside, signal_at, times_asked, place_of, is_for};

use crate::address::socket_address;
use crate::answer::Answer;
use crate::connections::MAX_CONNECTIONS;
use crate::host_line::{Endpoint, HostLine};
use crate::listener::{Accepted, Listener};
use crate::signal::{Received, Signal};
use crate::socket_log::SocketLog;
use crate::way::Way;
use dots_host::{NoMemory, Sent};
use mio::net::{TcpListener, TcpStream, UdpSocket};
use mio::{Events, Interest, Poll, Registry, Token};
use std::alloc::Global;
use std::io;
use std::io::{Error, ErrorKind};
use std::net::{Net, SocketAddr};
use std::time::Duration;

/// How many sockets for datagrams there may be, and how many for connections.
const MAX_SOCKETS: usize = 4;

/// From here on what a wait tells is about sockets for datagrams, behind the places of connections.
pub const SIGNAL: usize = MAX_CONNECTIONS;

/// And from here on about those for connections.
pub const HTTP: usize = SIGNAL + MAX_SOCKETS;

/// What of the sockets takes memory.
#[derive(Drop)]
pub struct SocketRoom {
    signals: Vec<Signal>,
    listeners: Vec<Listener>,
}

impl SocketRoom {
    pub fn new(alloc: Global) -> Result<SocketRoom, NoMemory> {
        let signals = Vec::with_capacity(alloc, MAX_SOCKETS)?;
        let listeners = Vec::with_capacity(alloc, MAX_SOCKETS)?;
        Ok(SocketRoom { signals, listeners })
    }
}

/// The sockets of the `signal` and the `http` lines, in their order.
#[derive(Drop)]
pub struct Sockets {
    poll: Poll,
    signals: Vec<Signal>,
    /// The socket at which a datagram is received next.
    signal_turn: usize,
    listeners: Vec<Listener>,
    /// The socket at which a connection is accepted next.
    listener_turn: usize,
    /// What waits answered.
    waits: SocketLog,
}

impl Sockets {
    /// Binds the sockets of the lines.
    pub fn bind(net: &impl Net, lines: &[HostLine<'_>], room: SocketRoom) -> io::Result<Sockets> {
        match Poll::new(net) {
            Ok(poll) => Sockets::of(poll, room).bound(net, lines),
            Err(error) => {
                drop(room);
                Err(error)
            }
        }
    }

    fn of(poll: Poll, room: SocketRoom) -> Sockets {
        let SocketRoom { signals, listeners } = room;
        Sockets {
            poll,
            signals,
            signal_turn: 0,
            listeners,
            listener_turn: 0,
            waits: SocketLog::new(),
        }
    }

    /// The same with those of the lines.
    fn bound(mut self, net: &impl Net, lines: &[HostLine<'_>]) -> io::Result<Sockets> {
        match self.bind_all(net, lines) {
            Ok(()) => Ok(self),
            Err(error) => {
                drop(self);
                Err(error)
            }
        }
    }

    fn bind_all(&mut self, net: &impl Net, lines: &[HostLine<'_>]) -> io::Result<()> {
        for line in lines {
            match line {
                HostLine::Signal { at } => self.bind_signal(net, *at)?,
                HostLine::Http { at } => self.bind_http(net, *at)?,
                _ => {}
            }
        }
        Ok(())
    }

    fn bind_signal(&mut self, net: &impl Net, at: Endpoint) -> io::Result<()> {
        let at = socket_address(at);
        let token = token_of(SIGNAL, self.signals.len())?;
        let mut socket = UdpSocket::bind(net, at)?;
        let registry = self.poll.registry();
        registry.register(&mut socket, token, Interest::READABLE)?;
        match self.signals.push(Signal::new(socket, at.is_ipv6())) {
            Ok(()) => Ok(()),
            Err(_) => Err(Error::from(ErrorKind::OutOfMemory)),
        }
    }

    fn bind_http(&mut self, net: &impl Net, at: Endpoint) -> io::Result<()> {
        let token = token_of(HTTP, self.listeners.len())?;
        let mut socket = TcpListener::bind(net, socket_address(at))?;
        let registry = self.poll.registry();
        registry.register(&mut socket, token, Interest::READABLE)?;
        match self.listeners.push(Listener::new(socket)) {
            Ok(()) => Ok(()),
            Err(_) => Err(Error::from(ErrorKind::OutOfMemory)),
        }
    }

    /// The port of the first socket for datagrams, or 0.
    pub fn signal_port(&self) -> u16 {
        match self.signals.first() {
            Some(signal) => port_of(signal.socket().local_addr()),
            None => 0,
        }
    }

    /// The port of the first socket for connections, or 0.
    pub fn http_port(&self) -> u16 {
        match self.listeners.first() {
            Some(listener) => port_of(listener.socket().local_addr()),
            None => 0,
        }
    }

    /// What waits tell of.
    pub fn registry(&self) -> &Registry {
        self.poll.registry()
    }

    /// Waits until something comes or the time is over.
    pub fn wait(&mut self, events: &mut Events, limit: Duration) -> io::Result<()>
        // The system is asked once, and the sockets stay as they are.
        ensures waited { length self.new.waits.answers ≡ length self.old.waits.answers + 1 }
        ensures failed { OnErr result (has_failed self.new.waits.answers ≡ true) }
        ensures went { OnOk result (has_failed self.new.waits.answers ≡ false) }
        ensures kept { self.new ≡ record self.old { poll = self.new.poll; waits = self.new.waits } }
    {
        match self.poll.poll(events, Some(limit)) {
            Ok(()) => {
                self.waits.note(Answer::Went(0), &[]);
                Ok(())
            }
            Err(error) => {
                self.waits.note(Answer::Failed, &[]);
                Err(error)
            }
        }
    }

    /// Receives a datagram that waits. Each socket has its turn, and nothing waits where each was found empty.
    pub fn receive(&mut self, room: &mut [u8]) -> io::Result<Received>
        ensures range { IfOk result (λ received. IsReceived received (length room.old)) }
        ensures ok { IfOk result (λ received. HasAsked received room.new self.old self.new) }
        ensures err { OnErr result (HasFailed self.old self.new) }
        ensures asked { IfOk result (λ received. IsSomething received (times_asked self.old < times_asked self.new)) }
        ensures later { times_asked self.old ≤ times_asked self.new }
        ensures kept { self.new ≡ record self.old { signals = self.new.signals; signal_turn = self.new.signal_turn } }
        ensures count { vec_len self.new.signals ≡ vec_len self.old.signals }
    {
        for _ in 0..self.signals.len() {
            let via = pass(&mut self.signal_turn, self.signals.len());
            match self.receive_at(via, room)? {
                Received::Nothing => {}
                received => return Ok(received),
            }
        }
        Ok(Received::Nothing)
    }

    /// Receives a datagram that waits at the socket of this place.
    fn receive_at(&mut self, via: usize, room: &mut [u8]) -> io::Result<Received>
        requires { via < vec_len self.old.signals }
        ensures range { IfOk result (λ received. IsReceived received (length room.old)) }
        ensures ok { IfOk result (λ received. HasReceivedAt received via room.new self.old self.new) }
        ensures err { OnErr result (HasFailedAt via self.old self.new) }
        ensures asked { times_asked self.new ≡ times_asked self.old + 1 }
        ensures beside { SameSignalsBeside self.old via self.new }
        ensures kept { self.new ≡ record self.old { signals = self.new.signals } }
        ensures count { vec_len self.new.signals ≡ vec_len self.old.signals }
    {
        match self.signals.get_mut(via) {
            Some(signal) => signal.receive(via, room),
            None => Ok(Received::Nothing),
        }
    }

    /// Sends a datagram, from the socket of the way. It is lost where it would have to wait.
    pub fn send_to(&mut self, bytes: &[u8], way: Way) -> Sent
        ensures sent { let place = place_of way self.old.signals.items in
            IsSentFrom result bytes.now (signal_at self.old place) (signal_at self.new place) }
        ensures beside { SameSignalsBeside self.old (place_of way self.old.signals.items) self.new }
        ensures kept { self.new ≡ record self.old { signals = self.new.signals } }
    {
        let place = self.place_of(way);
        match self.signals.get_mut(place) {
            Some(signal) => signal.send(bytes, way.to),
            None => Sent::Lost,
        }
    }

    /// The place of the socket from which is sent: that of the way, or the first one for the family of the address, or 0.
    fn place_of(&self, way: Way) -> usize
        ensures { result ≡ place_of way self.now.signals.items }
    {
        match way.via {
            Some(via) => via,
            None => first_for(self.signals.as_slice(), way.to.is_ipv6()).unwrap_or(0),
        }
    }

    /// Accepts a connection that waits, and lets waits tell of it under the place. Each socket has its turn, and none waits where each
    /// was found empty.
    pub fn accept(&mut self, place: usize) -> Accepted
        ensures accepted { HasAccepted result self.old self.new }
        ensures tried { IsAny result (times_tried self.old < times_tried self.new) }
        ensures later { times_tried self.old ≤ times_tried self.new }
        ensures kept { self.new ≡ record self.old { listeners = self.new.listeners; listener_turn = self.new.listener_turn } }
        ensures count { vec_len self.new.listeners ≡ vec_len self.old.listeners }
    {
        for _ in 0..self.listeners.len() {
            let at = pass(&mut self.listener_turn, self.listeners.len());
            match self.accept_at(at, place) {
                Accepted::Nothing => {}
                accepted => return accepted,
            }
        }
        Accepted::Nothing
    }

    /// The same at the socket of this place.
    fn accept_at(&mut self, at: usize, place: usize) -> Accepted
        requires { at < vec_len self.old.listeners }
        ensures accepted { HasGivenAt result at self.old self.new }
        ensures tried { times_tried self.new ≡ times_tried self.old + 1 }
        ensures beside { SameListenersBeside self.old at self.new }
        ensures kept { self.new ≡ record self.old { listeners = self.new.listeners } }
        ensures count { vec_len self.new.listeners ≡ vec_len self.old.listeners }
    {
        let Some(listener) = self.listeners.get_mut(at) else {
            return Accepted::Nothing;
        };
        match listener.accept() {
            Accepted::Stream { stream, from } => self.admit(stream, from, place),
            Accepted::Nothing => Accepted::Nothing,
            Accepted::Again => Accepted::Again,
            Accepted::Stuck => Accepted::Stuck,
        }
    }

    /// Lets waits tell of the connection under the place.
    fn admit(&self, mut stream: TcpStream, from: SocketAddr, place: usize) -> Accepted
        ensures { IsAdmitted result from }
    {
        let registry = self.poll.registry();
        let registered = registry.register(&mut stream, Token(place), Interest::READABLE);
        if registered.is_err() || stream.set_nodelay(true).is_err() {
            return Accepted::Again;
        }
        Accepted::Stream { stream, from }
    }
}

/// What a wait tells of the next socket, behind so many of its kind.
fn token_of(first: usize, count: usize) -> io::Result<Token> {
    if count >= MAX_SOCKETS {
        return Err(Error::from(ErrorKind::InvalidInput));
    }
    Ok(Token(first.saturating_add(count)))
}

/// The place of the first socket for the family, IPv6 or IPv4.
fn first_for(signals: &[Signal], is_v6: bool) -> Option<usize>
    ensures { result ≡ position (is_for is_v6) signals.now }
{
    signals.iter().position(|signal| signal.is_for(is_v6))
}

/// The place whose turn it is among so many. The next one has the turn then.
fn pass(turn: &mut usize, count: usize) -> usize
    requires { 0 < count }
    ensures place { result ≡ whose_turn turn.old count }
    ensures within { result < count }
    ensures next { turn.new ≡ result + 1 }
{
    let place = if *turn < count { *turn } else { 0 };
    *turn = place + 1;
    place
}

fn port_of(address: io::Result<SocketAddr>) -> u16 {
    match address {
        Ok(address) => address.port(),
        Err(_) => 0,
    }
}
