//! What comes to the sockets, in turn.

ghost use Rattle.std.specs.Prelude.{◌≡◌, ◌+◌, ◌≤◌, ◌⊎◌, ℕ, List, length, take, false, true, None, Some, IfOk, OnOk, OnErr, IfSome};
ghost use Rattle.dots_host.specs.Acts.{IsWithin, OnFailed};
ghost use Rattle.dots_host.specs.declared.TheConstants.{MAX_EVENT_BYTES};
ghost use Rattle.mio.specs.Events.{items};
ghost use Rattle.dots_edge.specs.declared.waiting.Accepting.TheVariants as accepting;
ghost use Rattle.dots_edge.specs.Restarts.{OnRestart};
ghost use Rattle.dots_edge.specs.Answers.{has_failed};
ghost use Rattle.dots_edge.specs.Datagrams.{AreEmpty, GaveLast, OnDatagram, has_failed_at, signal_at, last_asked, times_asked};
ghost use Rattle.dots_edge.specs.Accepts.{AreQuiet, times_tried};
ghost use Rattle.dots_edge.specs.Places.{OnOpened, OnPiece, IsForOneMore, OpensAt, AreOpen, SameOpen, Follows, IsGiven, CameAt, AreTried, at_place};
ghost use Rattle.dots_edge.specs.Noted.{retried, IsNoted, AreMarked};

use crate::answer::Answer;
use crate::connections::Connections;
use crate::listener::Accepted;
use crate::passing::Ticks;
use crate::peers::Peers;
use crate::rooms::Rooms;
use crate::signal::Received;
use crate::socket_log::SocketLog;
use crate::sockets::Sockets;
use crate::waiting::{Accepting, Waiting, note};
use dots_host::{MAX_EVENT_BYTES, Out, Sent, What};
use mio::Events;
use std::io;
use std::io::{Error, ErrorKind};
use std::time::{Clock, Duration};

/// After so many events the sockets are looked at, also where more is left to hand in.
const EVENTS_BEFORE_A_LOOK: u32 = 64;

/// How many datagrams that are too long are passed in one go, and how many connections that are gone.
const PASSED_AT_ONCE: u32 = 64;

/// The sockets, the connections and the peers, and whose turn it is.
#[derive(Drop)]
pub struct Ends {
    sockets: Sockets,
    connections: Connections,
    peers: Peers,
    events: Events,
    /// Where a datagram is received.
    datagram: Vec<u8>,
    waiting: Waiting,
    /// Whether a connection is accepted before the next piece is read.
    opens_first: bool,
    ticks: Ticks,
    /// The time of the present event, by a clock that doesn't fall.
    time: Duration,
    /// How many events were handed in since the sockets were looked at.
    since_look: u32,
    /// What the clock answered.
    clock: SocketLog,
    // That no datagram waits, or no connection, is known from the sockets.
    ghost empty: { waiting.datagrams ≡ false → AreEmpty sockets.signals.items },
    ghost quiet: { waiting.connections ≡ accepting.No → AreQuiet sockets.listeners.items },
}

impl Ends {
    ghost use Rattle.dots_edge.specs.Drained.{IsDrained, HasBroken, HasTired};
    ghost use Rattle.dots_edge.specs.Handed.{IsHanded};
    ghost use Rattle.dots_edge.specs.Came.{HasCome, Passed};

    pub fn new(sockets: Sockets, rooms: Rooms) -> Ends
        ensures { result.connections ≡ rooms.connections }
    {
        let Rooms {
            connections,
            peers,
            events,
            datagram,
        } = rooms;
        Ends {
            sockets,
            connections,
            peers,
            events,
            datagram,
            waiting: Waiting {
                datagrams: true,
                connections: Accepting::Yes,
            },
            opens_first: true,
            ticks: Ticks::new(),
            time: Duration::ZERO,
            since_look: 0,
            clock: SocketLog::new(),
        }
    }

    pub fn sockets(&self) -> &Sockets {
        &self.sockets
    }

    /// The next event. It waits only where every source was found empty.
    pub fn next<R: Clock>(&mut self, rt: &R, into: &mut [u8]) -> io::Result<What>
        requires { length into.old ≡ MAX_EVENT_BYTES }
        ensures within { IfOk result (λ what. IsWithin what MAX_EVENT_BYTES) }
        ensures event { IfOk result (λ what. OnFailed what ⊥) }
        ensures restart { IfOk result (λ what. OnRestart what ⊥) }
        // A number is opened that wasn't open for the server, one that was is closed, and none else begins or ends to be.
        ensures follows { IfOk result (λ what. Follows (Some what) self.old.connections self.new.connections) }
        ensures err { OnErr result (SameOpen self.old.connections self.new.connections) }
        // An event is what a socket gave since, with its very bytes, or what the clock says.
        ensures came { IfOk result (λ what. HasCome what into.new self.old self.new) }
        // It fails only where a call of the system failed.
        ensures broken { OnErr result (HasBroken self.new ⊎ HasTired self.old self.new) }
    {
        for _ in 0..u64::MAX {
            self.time = self.read_clock(rt)?;
            if let Some(what) = self.next_now(into)? {
                return Ok(what);
            }
            if self.is_drained() {
                self.rest()?;
            }
        }
        Err(Error::from(ErrorKind::TimedOut))
    }

    /// The time now, by the clock that doesn't fall.
    fn read_clock<R: Clock>(&mut self, rt: &R) -> io::Result<Duration>
        ensures read { length self.new.clock.answers ≡ length self.old.clock.answers + 1 }
        ensures failed { OnErr result (has_failed self.new.clock.answers ≡ true) }
        ensures went { IfOk result (λ _. has_failed self.new.clock.answers ≡ false) }
        ensures connections { self.new.connections ≡ self.old.connections }
        ensures kept { (self.new.sockets ≡ self.old.sockets) × (self.new.ticks ≡ self.old.ticks) }
    {
        match rt.monotonic() {
            Ok(time) => {
                self.clock.note(Answer::Went(0), &[]);
                Ok(time)
            }
            Err(error) => {
                self.clock.note(Answer::Failed, &[]);
                Err(error)
            }
        }
    }

    /// The next event that is there: a tick, the end of a stale connection, a datagram, or what came to a connection.
    fn next_now(&mut self, into: &mut [u8]) -> io::Result<Option<What>>
        requires { length into.old ≡ MAX_EVENT_BYTES }
        ensures within { IfOk result (λ found. IfSome found (λ what. IsWithin what MAX_EVENT_BYTES)) }
        ensures event { IfOk result (λ found. IfSome found (λ what. OnFailed what ⊥)) }
        ensures restart { IfOk result (λ found. IfSome found (λ what. OnRestart what ⊥)) }
        ensures follows { IfOk result (λ found. Follows found self.old.connections self.new.connections) }
        ensures err { OnErr result (SameOpen self.old.connections self.new.connections) }
        ensures came { IfOk result (λ found. IfSome found (λ what. HasCome what into.new self.old self.new)) }
        ensures passed { IfOk result (λ found. found ≡ None → Passed self.old self.new) }
        ensures broken { OnErr result (HasBroken self.new) }
        ensures clock { self.new.clock ≡ self.old.clock }
        ensures time { self.new.time ≡ self.old.time }
    {
        if self.ticks.is_due(self.time) {
            self.tick();
            return Ok(Some(What::Tick));
        }
        if let Some(conn) = self.connections.next_stale(self.time) {
            return Ok(Some(What::Closed { conn }));
        }
        if let Some(what) = self.next_after_a_look(into)? {
            return Ok(Some(what));
        }
        self.since_look = self.since_look.saturating_add(1);
        if let Some(what) = self.next_datagram(into)? {
            return Ok(Some(what));
        }
        Ok(self.next_of_connections(into))
    }

    /// After many events looks at the sockets, and what came to the connections has a turn.
    fn next_after_a_look(&mut self, into: &mut [u8]) -> io::Result<Option<What>>
        requires { length into.old ≡ MAX_EVENT_BYTES }
        ensures within { IfOk result (λ found. IfSome found (λ what. IsWithin what MAX_EVENT_BYTES)) }
        ensures event { IfOk result (λ found. IfSome found (λ what. OnFailed what ⊥)) }
        ensures restart { IfOk result (λ found. IfSome found (λ what. OnRestart what ⊥)) }
        ensures follows { IfOk result (λ found. Follows found self.old.connections self.new.connections) }
        ensures err { OnErr result (SameOpen self.old.connections self.new.connections) }
        ensures waited { 64 ≤ self.old.since_look →
            length self.new.sockets.waits.answers ≡ length self.old.sockets.waits.answers + 1 }
        ensures came { IfOk result (λ found. IfSome found (λ what. HasCome what into.new self.old self.new)) }
        ensures passed { IfOk result (λ found. found ≡ None → Passed self.old self.new) }
        ensures broken { OnErr result (HasBroken self.new) }
        ensures clock { self.new.clock ≡ self.old.clock }
        ensures kept { (self.new.ticks ≡ self.old.ticks) × (self.new.time ≡ self.old.time) }
    {
        if self.since_look < EVENTS_BEFORE_A_LOOK {
            return Ok(None);
        }
        self.look(Duration::ZERO)?;
        Ok(self.next_of_connections(into))
    }

    /// From now on stale connections are looked for, and accepting is tried again.
    fn tick(&mut self)
        ensures swept { self.new.connections ≡ record self.old.connections { swept = 0 } }
        ensures accepting { self.new.waiting ≡ retried self.old.waiting }
        ensures sockets { self.new.sockets ≡ self.old.sockets }
        ensures kept { (self.new.peers ≡ self.old.peers) × (self.new.ticks ≡ self.old.ticks) × (self.new.time ≡ self.old.time)
            × (self.new.since_look ≡ self.old.since_look) × (self.new.opens_first ≡ self.old.opens_first) × (self.new.clock ≡ self.old.clock) }
    {
        self.connections.sweep();
        self.waiting.retry();
    }

    /// Whether every source was found empty.
    fn is_drained(&self) -> bool
        ensures drained { result ≡ true → IsDrained self.now }
        ensures accepting { result ≡ false → self.now.waiting.datagrams ≡ false → self.now.connections.looks ≡ 0 →
            self.now.waiting.connections ≡ Accepting.Yes }
    {
        !self.waiting.datagrams && !self.may_accept() && self.connections.is_drained()
    }

    /// Whether a connection may wait, and there is a place for it.
    fn may_accept(&self) -> bool
        ensures yes { result ≡ true → self.now.waiting.connections ≡ Accepting.Yes }
        ensures no { result ≡ false → self.now.waiting.connections ≡ Accepting.Yes → AreOpen self.now.connections }
    {
        match self.waiting.connections {
            Accepting::Yes => self.connections.place_for_one().is_some(),
            _ => false,
        }
    }

    /// Waits until something comes or the next tick is due. While a source wasn't found empty this could last although
    /// something is there, since no wait tells of it again.
    fn rest(&mut self) -> io::Result<()>
        requires { IsDrained self.old }
        ensures open { SameOpen self.old.connections self.new.connections }
        ensures waited { length self.new.sockets.waits.answers ≡ length self.old.sockets.waits.answers + 1 }
        ensures broken { OnErr result (HasBroken self.new) }
        ensures passed { OnOk result (Passed self.old self.new) }
        ensures clock { self.new.clock ≡ self.old.clock }
    {
        let left = self.ticks.left(self.time);
        self.look(left)
    }

    /// Looks at the sockets, and waits until something comes or the time is over.
    fn look(&mut self, limit: Duration) -> io::Result<()>
        ensures open { SameOpen self.old.connections self.new.connections }
        // The system is asked once, and what it tells is taken in.
        ensures waited { length self.new.sockets.waits.answers ≡ length self.old.sockets.waits.answers + 1 }
        ensures waiting { OnOk result (IsNoted (items self.new.events) self.old.waiting self.new.waiting) }
        ensures marked { OnOk result (AreMarked (items self.new.events) self.old.connections self.new.connections) }
        ensures looked { OnOk result (self.new.since_look ≡ 0) }
        ensures broken { OnErr result (HasBroken self.new) }
        ensures passed { OnOk result (Passed self.old self.new) }
        ensures clock { self.new.clock ≡ self.old.clock }
        ensures kept { (self.new.ticks ≡ self.old.ticks) × (self.new.time ≡ self.old.time) }
    {
        self.sockets.wait(&mut self.events, limit)?;
        self.since_look = 0;
        note(&self.events, &mut self.waiting, &mut self.connections);
        Ok(())
    }

    /// The datagram that came next. One that is too long is passed.
    fn next_datagram(&mut self, into: &mut [u8]) -> io::Result<Option<What>>
        requires { length into.old ≡ MAX_EVENT_BYTES }
        ensures within { IfOk result (λ found. IfSome found (λ what. IsWithin what MAX_EVENT_BYTES)) }
        ensures event { IfOk result (λ found. IfSome found (λ what. OnFailed what ⊥)) }
        ensures restart { IfOk result (λ found. IfSome found (λ what. OnRestart what ⊥)) }
        ensures same { self.new.connections ≡ self.old.connections }
        ensures none { IfOk result (λ found. Follows found self.old.connections self.new.connections) }
        // A datagram is what a socket gave last.
        ensures came { IfOk result (λ found. OnDatagram found (λ from len.
            GaveLast (signal_at self.new.sockets (last_asked self.new.sockets)) (take len into.new))) }
        // There is none only where each socket was found empty, or after so many that were too long or none.
        ensures empty { IfOk result (λ found. found ≡ None →
            (self.new.waiting.datagrams ≡ false) ⊎ (times_asked self.old.sockets + 64 ≤ times_asked self.new.sockets)) }
        ensures broken { OnErr result (HasBroken self.new) }
        ensures whence { IfOk result (λ found. IfSome found (λ what. HasCome what into.new self.old self.new)) }
        ensures passed { IfOk result (λ found. found ≡ None → Passed self.old self.new) }
        ensures clock { self.new.clock ≡ self.old.clock }
        ensures kept { (self.new.ticks ≡ self.old.ticks) × (self.new.time ≡ self.old.time) }
    {
        if !self.waiting.datagrams {
            return Ok(None);
        }
        for _ in 0..PASSED_AT_ONCE {
            match self.sockets.receive(self.datagram.as_mut_slice())? {
                Received::Datagram { len, from, via } if len <= MAX_EVENT_BYTES => {
                    let datagram = &self.datagram.as_slice()[..len];
                    into[..len].copy_from_slice(datagram);
                    let from = self.peers.note_datagram(from, via, datagram);
                    return Ok(Some(What::Datagram { from, len }));
                }
                Received::Nothing => {
                    self.waiting.datagrams = false;
                    return Ok(None);
                }
                _ => {}
            }
        }
        Ok(None)
    }

    /// A new connection or what came on one, the two in turn.
    fn next_of_connections(&mut self, into: &mut [u8]) -> Option<What>
        requires { length into.old ≡ MAX_EVENT_BYTES }
        ensures within { IfSome result (λ what. IsWithin what MAX_EVENT_BYTES) }
        ensures event { IfSome result (λ what. OnFailed what ⊥) }
        ensures restart { IfSome result (λ what. OnRestart what ⊥) }
        ensures follows { Follows result self.old.connections self.new.connections }
        ensures none { result ≡ None → AreTried self.old.connections self.new.connections }
        ensures waits { self.new.sockets.waits ≡ self.old.sockets.waits }
        ensures came { IfSome result (λ what. HasCome what into.new self.old self.new) }
        ensures passed { result ≡ None → Passed self.old self.new }
        ensures clock { self.new.clock ≡ self.old.clock }
        ensures kept { (self.new.ticks ≡ self.old.ticks) × (self.new.time ≡ self.old.time) }
    {
        self.opens_first = !self.opens_first;
        if self.opens_first {
            if let Some(what) = self.next_opened() {
                return Some(what);
            }
            return self.next_piece(into);
        }
        if let Some(what) = self.next_piece(into) {
            return Some(what);
        }
        self.next_opened()
    }

    /// What came on a connection.
    fn next_piece(&mut self, into: &mut [u8]) -> Option<What>
        requires { length into.old ≡ MAX_EVENT_BYTES }
        ensures within { IfSome result (λ what. IsWithin what MAX_EVENT_BYTES) }
        ensures event { IfSome result (λ what. OnFailed what ⊥) }
        ensures restart { IfSome result (λ what. OnRestart what ⊥) }
        ensures follows { Follows result self.old.connections self.new.connections }
        ensures came { OnPiece result (λ conn len.
            CameAt (at_place self.old.connections conn) (take len into.new) (at_place self.new.connections conn)) }
        ensures none { result ≡ None → AreTried self.old.connections self.new.connections }
        ensures sockets { self.new.sockets ≡ self.old.sockets }
        ensures whence { IfSome result (λ what. HasCome what into.new self.old self.new) }
        ensures passed { result ≡ None → Passed self.old self.new }
        ensures clock { self.new.clock ≡ self.old.clock }
        ensures kept { (self.new.ticks ≡ self.old.ticks) × (self.new.time ≡ self.old.time) }
    {
        self.connections
            .next_piece(into, self.time, self.sockets.registry())
    }

    /// A new connection, where there is a place for it.
    fn next_opened(&mut self) -> Option<What>
        // Where no place was free that of one that the server has closed is taken, and no other connection ends for it.
        ensures place { OnOpened result (IsForOneMore self.old.connections) }
        ensures opened { OnOpened result (OpensAt self.old.connections self.new.connections) }
        ensures none { result ≡ None → self.new.connections ≡ self.old.connections }
        // There is none only where none can be accepted, or after so many that were gone.
        ensures cause { result ≡ None → self.new.waiting.connections ≡ Accepting.Yes →
            AreOpen self.old.connections ⊎ (times_tried self.old.sockets + 64 ≤ times_tried self.new.sockets) }
        ensures waits { self.new.sockets.waits ≡ self.old.sockets.waits }
        ensures clock { self.new.clock ≡ self.old.clock }
        ensures within { IfSome result (λ what. IsWithin what MAX_EVENT_BYTES) }
        ensures event { IfSome result (λ what. OnFailed what ⊥) }
        ensures restart { IfSome result (λ what. OnRestart what ⊥) }
        ensures follows { Follows result self.old.connections self.new.connections }
        ensures came { (room : List ℕ) → IfSome result (λ what. HasCome what room self.old self.new) }
        ensures passed { result ≡ None → Passed self.old self.new }
        ensures kept { (self.new.ticks ≡ self.old.ticks) × (self.new.time ≡ self.old.time) }
    {
        if !self.may_accept() {
            return None;
        }
        let place = self.connections.place_for_one()?;
        for _ in 0..PASSED_AT_ONCE {
            match self.sockets.accept(place) {
                Accepted::Stream { stream, from } => {
                    self.connections.open(place, stream, self.time);
                    let from = self.peers.number_of(from);
                    let conn = place as u32;
                    return Some(What::Opened { conn, from });
                }
                Accepted::Nothing => {
                    self.waiting.connections = Accepting::No;
                    return None;
                }
                Accepted::Again => {}
                Accepted::Stuck => {
                    self.waiting.connections = Accepting::Stuck;
                    return None;
                }
            }
        }
        None
    }

    /// Sends.
    pub fn send(&mut self, out: &Out) -> Sent
        // Only what is open for the server is sent on or closed, and nothing else begins or ends to be open.
        ensures given { IsGiven out.now result self.old.connections self.new.connections }
        ensures handed { IsHanded out.now result self.old self.new }
    {
        match out {
            Out::To { peer, bytes } => match self.peers.way_for(*peer, *bytes) {
                Some(way) => self.sockets.send_to(*bytes, way),
                None => Sent::Lost,
            },
            Out::Conn { conn, bytes } => {
                let registry = self.sockets.registry();
                self.connections.send(*conn, *bytes, self.time, registry)
            }
            Out::Close { conn } => self.connections.close(*conn),
        }
    }
}
