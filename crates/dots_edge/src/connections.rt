ghost use Rattle.std.specs.Prelude.{◌≡◌, ◌==◌, ◌<◌, ◌≤◌, ◌+◌, ◌-◌, ◌%◌, ◌⊎◌, ℕ, true, false, None, Some, is_some, if◌then◌else◌, length, take, vec_len, IfOk, IfSome};
ghost use Rattle.dots_host.specs.Acts.{IsWithin, OnFailed};
ghost use Rattle.dots_host.specs.declared.TheConstants.{MAX_EVENT_BYTES};
ghost use Rattle.dots_edge.specs.Restarts.{OnRestart};
ghost use Rattle.dots_edge.specs.Events.{IsPiece, OnBytes, OnNoBytes, IfBytes};
ghost use Rattle.dots_edge.specs.Idle.{idle_at, calls_at, ahead, AreIdleBeyond, AreSound, WasTried};

use crate::connection::{Connection, Piece};
use crate::gone::Gone;
use crate::place::{close_at, closing_since, first_of, mark_at, send_at, turn_at};
use dots_host::{MAX_EVENT_BYTES, NoMemory, Sent, What};
use mio::net::TcpStream;
use mio::{Registry, Token};
use std::alloc::Global;
use std::time::Duration;

/// How many connections are open at most.
pub const MAX_CONNECTIONS: usize = 128;

/// The open connections, each at the place that is its number.
#[derive(Drop)]
pub struct Connections {
    alloc: Global,
    places: Vec<Option<Connection>>,
    /// The place that is looked at next.
    turn: usize,
    /// How many places from there on may have something to read, or a socket that takes some of the rest.
    pub looks: usize,
    /// The place from which on stale connections are closed.
    swept: usize,
    /// What is known of the connection that went last of those that the server hadn't closed.
    gone: Gone,
    ghost sized: { vec_len places ≡ 128 },
    // Nothing can be done at the places behind these before a wait tells of them.
    ghost idle: { AreIdleBeyond places.items turn looks },
    // That a connection has nothing to read, or takes nothing, is known from its socket.
    ghost sound: { AreSound places.items },
}

impl Connections {
    ghost use Rattle.dots_edge.specs.Places.{at_place, is_open, closing_since, AreTaken, MovedFirst, IsForOneMore, AreOpen, NoneCloses, SameBeside, SameOpen, OthersStay, ClosesAt, Follows, marked, unwritten_at, stale_at, retried, swept, ends_at, AreSwept, NoneEnds, AreTried, AreIdle, AreSpent, CameAt, OnPiece, IsSentAt, closed_at};
    ghost use Rattle.dots_edge.specs.Gone.{WentFrom, HasStopped, HasGone, HasComeOn, GoesOn, AreOn};

    /// Places for connections, none of which is open.
    #[tactic(auto, using(crate::proofs::PlaceLemmas::none_more))]
    pub fn new(alloc: Global) -> Result<Connections, NoMemory>
        ensures { IfOk result (λ all. (conn : ℕ) → at_place all conn ≡ None) }
    {
        let mut places = Vec::with_capacity(alloc, MAX_CONNECTIONS)?;
        for _ in 0..MAX_CONNECTIONS {
            places.push_reserved(None);
        }
        Ok(Connections {
            alloc,
            places,
            turn: 0,
            looks: 0,
            swept: MAX_CONNECTIONS,
            gone: Gone::none(),
        })
    }

    /// A place for one connection more: one where none is, and where each has one, that of the connection that moved longest ago of those
    /// that the server has closed.
    pub fn place_for_one(&self) -> Option<usize>
        ensures range { IfSome result (λ place. place < 128) }
        // One that is open for the server never gives its place up, and one that the server has closed only where no place is free.
        ensures place { IfSome result (IsForOneMore self.now) }
        ensures none { result ≡ None → AreOpen self.now }
    {
        match self.free_place() {
            Some(place) => Some(place),
            None => self.oldest_closing(),
        }
    }

    /// A place where no connection is.
    fn free_place(&self) -> Option<usize>
        ensures place { IfSome result (λ place. (place < 128) × (at_place self.now place ≡ None)) }
        ensures none { result ≡ None → AreTaken self.now 128 }
    {
        for place in 0..MAX_CONNECTIONS {
            if let Some(None) = self.places.get(place) {
                return Some(place);
            }
        }
        None
    }

    /// The place of the connection that moved longest ago of those that the server has closed.
    fn oldest_closing(&self) -> Option<usize>
        ensures place { IfSome result (λ place. (place < 128) × (is_some (closing_since (at_place self.now place)) ≡ true)) }
        ensures oldest { IfSome result (MovedFirst self.now) }
        ensures none { result ≡ None → NoneCloses self.now 128 }
    {
        let mut first: Option<(usize, Duration)> = None;
        for place in 0..MAX_CONNECTIONS {
            first = first_of(first, place, self.closing_since(place));
        }
        match first {
            Some((place, _)) => Some(place),
            None => None,
        }
    }

    /// When the connection at the place last moved, where the server has closed it.
    fn closing_since(&self, place: usize) -> Option<Duration>
        requires { place < 128 }
        ensures { result ≡ closing_since (at_place self.now place) }
    {
        match self.places.get(place) {
            Some(place) => closing_since(place),
            None => None,
        }
    }

    /// Puts a connection to its place. One that the server has closed ends there.
    pub fn open(&mut self, place: usize, stream: TcpStream, now: Duration)
        requires place { place < 128 }
        requires over { is_open self.old place ≡ false }
        ensures looks { self.new.looks ≡ 128 }
        ensures opened { is_open self.new place ≡ true }
        ensures beside { SameBeside self.old place self.new }
    {
        self.end(place);
        let alloc = self.alloc;
        if let Some(free) = self.places.get_mut(place) {
            *free = Some(Connection::new(alloc, stream, Token(place), now));
        }
        self.looks = MAX_CONNECTIONS;
    }

    /// Lets the connection at the place go, and answers its number where the server hasn't closed it.
    fn end(&mut self, place: usize) -> Option<u32>
        requires { place < 128 }
        ensures answer { result ≡ if is_open self.old place then Some place else None }
        ensures ended { at_place self.new place ≡ None }
        ensures went { is_open self.old place ≡ true → WentFrom (at_place self.old place) self.new.gone }
        ensures beside { SameBeside self.old place self.new }
        ensures kept { (self.new.turn ≡ self.old.turn) × (self.new.looks ≡ self.old.looks) × (self.new.swept ≡ self.old.swept) }
    {
        let connection = self.places.get_mut(place)?.take()?;
        if connection.is_closing() {
            connection.close();
            return None;
        }
        self.gone = connection.leave();
        Some(place as u32)
    }

    /// Whether none may have something to read, or a socket that takes some of its rest.
    pub fn is_drained(&self) -> bool
        ensures looks { result ≡ (self.now.looks == 0) }
        ensures idle { result ≡ true → AreIdle self.now }
        ensures spent { result ≡ true → AreSpent self.now }
    {
        self.looks == 0
    }

    /// Something may have come at a place, or its socket may take more.
    pub fn mark(&mut self, place: usize)
        ensures looks { self.new.looks ≡ 128 }
        ensures open { SameOpen self.old self.new }
        ensures marked { at_place self.new place ≡ marked (at_place self.old place) }
        ensures on { AreOn self.old self.new }
        ensures beside { SameBeside self.old place self.new }
        ensures swept { self.new.swept ≡ self.old.swept }
    {
        self.looks = MAX_CONNECTIONS;
        if let Some(place) = self.places.get_mut(place) {
            mark_at(place);
        }
    }

    /// The next piece or end of a connection: one read or write of each in turn.
    pub fn next_piece(
        &mut self,
        into: &mut [u8],
        now: Duration,
        registry: &Registry,
    ) -> Option<What>
        requires { length into.old ≡ MAX_EVENT_BYTES }
        ensures within { IfSome result (λ what. IsWithin what MAX_EVENT_BYTES) }
        ensures event { IfSome result (λ what. OnFailed what ⊥) }
        ensures restart { IfSome result (λ what. OnRestart what ⊥) }
        ensures follows { Follows result self.old self.new }
        // A piece is what the socket of its connection gave.
        ensures came { OnPiece result (λ conn len. CameAt (at_place self.old conn) (take len into.new) (at_place self.new conn)) }
        // It gives pieces and ends alone. A connection ends where it broke, or where its socket is at its end or failed. Without an event no
        // byte came.
        ensures whence { IfSome result (λ what. HasComeOn what into.new self.old self.new now) }
        ensures on { result ≡ None → AreOn self.old self.new }
        // There is none only where each connection was tried of which something could be done.
        ensures none { result ≡ None → AreTried self.old self.new }
    {
        for _ in 0..MAX_CONNECTIONS {
            if self.looks == 0 {
                return None;
            }
            if let Some(what) = self.look(into, now, registry) {
                return Some(what);
            }
        }
        None
    }

    /// What a turn of the connection gives whose turn it is.
    fn look(&mut self, into: &mut [u8], now: Duration, registry: &Registry) -> Option<What>
        requires looks { 0 < self.old.looks }
        requires room { length into.old ≡ MAX_EVENT_BYTES }
        ensures within { IfSome result (λ what. IsWithin what MAX_EVENT_BYTES) }
        ensures event { IfSome result (λ what. OnFailed what ⊥) }
        ensures restart { IfSome result (λ what. OnRestart what ⊥) }
        ensures follows { Follows result self.old self.new }
        ensures turn { self.new.turn ≡ self.old.turn % 128 + 1 }
        ensures beside { SameBeside self.old (self.old.turn % 128) self.new }
        ensures place { OnPiece result (λ conn _. conn ≡ self.old.turn % 128) }
        ensures came { OnPiece result (λ conn len. CameAt (at_place self.old conn) (take len into.new) (at_place self.new conn)) }
        ensures whence { IfSome result (λ what. HasComeOn what into.new self.old self.new now) }
        ensures on { result ≡ None → AreOn self.old self.new }
        ensures none { result ≡ None →
            WasTried (at_place self.old (self.old.turn % 128)) (at_place self.new (self.old.turn % 128)) }
    {
        let place = self.turn % MAX_CONNECTIONS;
        match self.turn_of(place, into, now, registry) {
            Piece::Bytes(len) => {
                self.go_on(place);
                let conn = place as u32;
                Some(What::Piece { conn, len })
            }
            Piece::Nothing => {
                self.pass(place);
                None
            }
            Piece::Again => {
                self.go_on(place);
                None
            }
            Piece::Ended => self.let_go(place),
        }
    }

    /// A turn of the connection at the place.
    fn turn_of(
        &mut self,
        place: usize,
        into: &mut [u8],
        now: Duration,
        registry: &Registry,
    ) -> Piece
        requires place { place < 128 }
        requires looks { ahead self.old.turn place < self.old.looks }
        ensures piece { IsPiece result (length into.old) }
        ensures open { SameOpen self.old self.new }
        ensures beside { SameBeside self.old place self.new }
        ensures kept { (self.new.turn ≡ self.old.turn) × (self.new.looks ≡ self.old.looks) }
        ensures nothing { result ≡ Piece.Nothing → idle_at (at_place self.new place) ≡ true }
        ensures came_open { OnBytes result (is_open self.old place ≡ true) }
        ensures came { IfBytes result (λ count. CameAt (at_place self.old place) (take count into.new) (at_place self.new place)) }
        ensures some { IfBytes result (λ count. 0 < count) }
        ensures same { OnNoBytes result (GoesOn (at_place self.old place) (at_place self.new place)) }
        ensures over { result ≡ Piece.Ended → is_open self.old place ≡ true → HasStopped (at_place self.new place) }
        ensures called { result ≡ Piece.Again → calls_at (at_place self.old place) < calls_at (at_place self.new place) }
    {
        match self.places.get_mut(place) {
            Some(place) => turn_at(place, into, now, registry),
            None => Piece::Nothing,
        }
    }

    /// The next place has the turn, and all are looked at.
    fn go_on(&mut self, place: usize)
        requires { place < 128 }
        ensures turn { self.new.turn ≡ place + 1 }
        ensures places { self.new.places ≡ self.old.places }
    {
        self.turn = place + 1;
        self.looks = MAX_CONNECTIONS;
    }

    /// The next place has the turn, since nothing can be done at this one.
    fn pass(&mut self, place: usize)
        requires place { place ≡ self.old.turn % 128 }
        requires idle { idle_at (at_place self.old place) ≡ true }
        ensures turn { self.new.turn ≡ place + 1 }
        ensures places { self.new.places ≡ self.old.places }
        ensures gone { self.new.gone ≡ self.old.gone }
    {
        self.turn = place + 1;
        self.looks = self.looks.saturating_sub(1);
    }

    /// Lets the connection go whose turn it is, and answers that it ended where the server hasn't closed it.
    fn let_go(&mut self, place: usize) -> Option<What>
        requires place { place ≡ self.old.turn % 128 }
        ensures answer { result ≡ if is_open self.old place then Some (What.Closed place) else None }
        ensures turn { self.new.turn ≡ place + 1 }
        ensures ended { at_place self.new place ≡ None }
        ensures went { is_open self.old place ≡ true → WentFrom (at_place self.old place) self.new.gone }
        ensures beside { SameBeside self.old place self.new }
    {
        let ended = self.end(place);
        self.pass(place);
        match ended {
            Some(conn) => Some(What::Closed { conn }),
            None => None,
        }
    }

    /// From now on stale connections are looked for.
    pub fn sweep(&mut self)
        ensures { self.new ≡ record self.old { swept = 0 } }
    {
        self.swept = 0;
    }

    /// Closes the next stale connection, and answers its number where the server hasn't closed it. The rest of any other is tried again,
    /// since a wait tells of a socket only once a good part of its buffer is free.
    pub fn next_stale(&mut self, now: Duration) -> Option<u32>
        ensures range { IfSome result (λ conn. conn < 128) }
        ensures ended { IfSome result (ClosesAt self.old self.new) }
        ensures none { result ≡ None → SameOpen self.old self.new }
        // The places up to that of the one that it answers were swept, or all of them.
        ensures swept { AreSwept self.old now self.old.swept self.new.swept self.new }
        ensures last { IfSome result (λ conn. (self.new.swept ≡ conn + 1) × (stale_at now (at_place self.old conn) ≡ true)) }
        ensures first { IfSome result (λ conn. NoneEnds self.old now self.old.swept conn) }
        // The one that it answers is over, and otherwise no byte came.
        ensures gone { IfSome result (λ conn. HasGone (at_place self.old conn) self.new.gone now) }
        ensures on { result ≡ None → AreOn self.old self.new }
        ensures all { result ≡ None → (128 ≤ self.new.swept) × NoneEnds self.old now self.old.swept 128 }
    {
        for _ in 0..MAX_CONNECTIONS {
            if self.swept >= MAX_CONNECTIONS {
                return None;
            }
            if let Some(conn) = self.sweep_one(now) {
                return Some(conn);
            }
        }
        None
    }

    /// Sweeps the next place: the connection there goes where it is stale, and else its rest is tried again.
    fn sweep_one(&mut self, now: Duration) -> Option<u32>
        requires { self.old.swept < 128 }
        ensures answer { result ≡ if ends_at now (at_place self.old self.old.swept) then Some self.old.swept else None }
        ensures swept { at_place self.new self.old.swept ≡ swept now (at_place self.old self.old.swept) }
        ensures went { IfSome result (λ _. WentFrom (at_place self.old self.old.swept) self.new.gone) }
        ensures beside { SameBeside self.old self.old.swept self.new }
        ensures next { self.new.swept ≡ self.old.swept + 1 }
    {
        let place = self.swept;
        self.swept += 1;
        if self.is_stale(place, now) {
            return self.end(place);
        }
        self.try_again(place);
        None
    }

    /// The socket of the place may take some of its rest.
    fn try_again(&mut self, place: usize)
        ensures open { SameOpen self.old self.new }
        ensures place { at_place self.new place ≡ retried (at_place self.old place) }
        ensures beside { SameBeside self.old place self.new }
        ensures swept { self.new.swept ≡ self.old.swept }
    {
        if self.has_rest(place) {
            self.mark(place);
        }
    }

    fn has_rest(&self, place: usize) -> bool
        ensures { result ≡ unwritten_at (at_place self.now place) }
    {
        match self.places.get(place) {
            Some(Some(connection)) => connection.has_rest(),
            _ => false,
        }
    }

    fn is_stale(&self, place: usize, now: Duration) -> bool
        ensures { result ≡ stale_at now (at_place self.now place) }
    {
        match self.places.get(place) {
            Some(Some(connection)) => connection.is_stale(now),
            _ => false,
        }
    }

    /// Sends on a connection. It is lost where none of that number is open.
    pub fn send(&mut self, conn: u32, bytes: &[u8], now: Duration, registry: &Registry) -> Sent
        ensures done { result ≡ Sent.Done → is_open self.old conn ≡ true }
        ensures open { SameOpen self.old self.new }
        // The bytes go behind all that was sent on it, and what its socket hasn't taken is kept. All other connections keep theirs.
        ensures sent { IsSentAt (at_place self.old conn) bytes.now result (at_place self.new conn) }
        ensures beside { SameBeside self.old conn self.new }
    {
        self.looks = MAX_CONNECTIONS;
        match self.places.get_mut(conn as usize) {
            Some(place) => send_at(place, bytes, now, registry),
            None => Sent::Lost,
        }
    }

    /// Closes a connection, where something is kept once that is written. It is lost where none of that number is open.
    pub fn close(&mut self, conn: u32) -> Sent
        ensures done { result ≡ Sent.Done → ClosesAt self.old self.new conn }
        ensures lost { result ≡ Sent.Lost → (is_open self.old conn ≡ false) × SameOpen self.old self.new }
        ensures place { at_place self.new conn ≡ closed_at (at_place self.old conn) }
        ensures beside { SameBeside self.old conn self.new }
    {
        match self.places.get_mut(conn as usize) {
            Some(place) => close_at(place),
            None => Sent::Lost,
        }
    }
}
