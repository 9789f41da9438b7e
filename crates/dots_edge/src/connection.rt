ghost use Rattle.std.specs.Prelude.{◌≡◌, ◌==◌, ◌<◌, ◌≤◌, ◌+◌, ◌∷◌, ◌++◌, ◌⊎◌, [], length, drop, true, false, not, None, Some, unwrap_or, if◌then◌else◌, is_ok, OnOk};
ghost use Rattle.dots_edge.specs.Answers.{went, HasEnded};
ghost use Rattle.dots_edge.specs.Events.{IsPiece, AfterRead, OnBytes, OnNoBytes, SameCame, HasRead};
ghost use Rattle.dots_edge.specs.Sends.{TookOn, TookOrRests, TookAll, IsLost, HasWrittenOn, HasTried};
ghost use Rattle.dots_edge.specs.Idle.{is_unwritten, is_idle, is_sound, calls_of};
ghost use Rattle.dots_edge.specs.Passing.{is_stale};
ghost use Rattle.dots_edge.specs.Gone.{gone_of};

use crate::answer::Answer;
use crate::calls::{read_once, write_once};
use crate::gone::Gone;
use crate::passing::have_passed;
use crate::rest::Rest;
use crate::socket_log::SocketLog;
use dots_host::Sent;
use mio::net::TcpStream;
use mio::{Interest, Registry, Token};
use std::alloc::Global;
use std::io;
use std::io::Read;
use std::net::Shutdown;
use std::time::Duration;

/// After so many seconds without a byte in or out a connection is closed.
const IDLE_SECONDS: u32 = 300;

/// And after so many since the first byte that no send on it has answered.
const UNANSWERED_SECONDS: u32 = 30;

/// How often the bytes that have come are read and dropped before a close.
const DROPPED_READS: u32 = 16;

/// What a turn of a connection gives.
#[derive(Clone, Copy)]
pub enum Piece {
    /// So many bytes, at the front of the room.
    Bytes(usize),
    /// Nothing is there now, and the socket takes nothing.
    Nothing,
    /// The call was interrupted, or some of the rest was written, and there may be more to do.
    Again,
    /// The connection has ended, or is of no use any more.
    Ended,
}

/// A connection of a peer.
///
/// What its socket doesn't take at once is kept, and written on as the socket takes it. Until then nothing is read.
#[derive(Drop)]
pub struct Connection {
    stream: TcpStream,
    /// Under what waits tell of it.
    token: Token,
    /// Whether there may be something to read.
    ready: bool,
    /// Whether the socket may take some of the rest.
    takes: bool,
    /// Whether waits tell when the socket takes more, too.
    watches_writes: bool,
    /// When the last byte came or went, or a send was kept.
    moved: Duration,
    /// When the first byte came that no send has answered.
    asked: Option<Duration>,
    /// Whether bytes of a send were lost.
    broken: bool,
    /// Whether the server has closed it. It lives until the rest is written or a new connection needs its place.
    closing: bool,
    /// What the socket gave.
    came: SocketLog,
    /// What of the sends the socket took.
    taken: SocketLog,
    /// What was sent and the socket hasn't taken yet.
    rest: Rest,
}

impl Connection {
    /// A connection that was accepted now.
    pub fn new(alloc: Global, stream: TcpStream, token: Token, now: Duration) -> Connection
        ensures fields { result ≡ record {
          stream = stream;
          token = token;
          ready = true;
          takes = false;
          watches_writes = false;
          moved = now;
          asked = None;
          broken = false;
          closing = false;
          came = result.came;
          taken = result.taken;
          rest = result.rest;
        } }
        ensures rest { result.rest.bytes.items ≡ [] }
        ensures came { result.came.bytes ≡ [] }
        ensures taken { result.taken.bytes ≡ [] }
        ensures sound { is_sound result ≡ true }
    {
        Connection {
            stream,
            token,
            ready: true,
            takes: false,
            watches_writes: false,
            moved: now,
            asked: None,
            broken: false,
            closing: false,
            came: SocketLog::new(),
            taken: SocketLog::new(),
            rest: Rest::new(alloc),
        }
    }

    /// Something may have come, or the socket may take more.
    pub fn mark(&mut self)
        ensures marked { self.new ≡ record self.old { ready = true; takes = true } }
        ensures sound { is_sound self.new ≡ true }
    {
        self.ready = true;
        self.takes = true;
    }

    /// Writes on what is kept, and else reads what has come.
    pub fn turn(&mut self, into: &mut [u8], now: Duration, registry: &Registry) -> Piece
        ensures piece { IsPiece result (length into.old) }
        ensures broken { self.old.broken ≡ true → result ≡ Piece.Ended }
        // Nothing is read while something is kept.
        ensures rest { 0 < length self.old.rest.bytes.items → IsPiece result 0 × (into.new ≡ into.old) }
        // What is kept goes on in its order, or all of it is lost and the connection ends.
        ensures written { 0 < length self.old.rest.bytes.items → self.old.broken ≡ false →
            HasWrittenOn result now self.old self.new ⊎ (IsLost self.new × (result ≡ Piece.Ended)) }
        // Where nothing is kept it is a read, which changes nothing else.
        ensures after { self.old.rest.bytes.items ≡ [] → AfterRead result now self.old self.new }
        ensures kept { self.old.rest.bytes.items ≡ [] →
            self.new ≡ record self.old { moved = self.new.moved; asked = self.new.asked; ready = self.new.ready; came = self.new.came } }
        ensures closing { self.new.closing ≡ self.old.closing }
        // Nothing comes on one that the server has closed.
        ensures open { OnBytes result (self.old.closing ≡ false) }
        // It gives nothing exactly where nothing can be done until a wait tells of it.
        ensures idle { is_idle self.old ≡ true → (result ≡ Piece.Nothing) × (self.new ≡ self.old) }
        ensures nothing { result ≡ Piece.Nothing → is_idle self.new ≡ true }
        // Else the socket is called once, and what it answered is what the turn gives.
        ensures read { self.old.broken ≡ false → self.old.closing ≡ false → self.old.rest.bytes.items ≡ [] → self.old.ready ≡ true →
            HasRead result into.new self.old self.new }
        ensures bytes { OnBytes result (HasRead result into.new self.old self.new) }
        // Else no byte comes from it. It ends for the server where it broke, or where its socket is at its end or failed.
        ensures same { OnNoBytes result (SameCame self.old.came self.new.came) }
        ensures over { result ≡ Piece.Ended → self.old.closing ≡ false → (self.new.broken ≡ true) ⊎ HasEnded self.new.came.answers }
        ensures tried { self.old.broken ≡ false → 0 < length self.old.rest.bytes.items → self.old.takes ≡ true →
            HasTried result self.old self.new }
        ensures called { result ≡ Piece.Again → calls_of self.new ≡ calls_of self.old + 1 }
        ensures sound { is_sound self.old ≡ true → is_sound self.new ≡ true }
    {
        if self.is_over() {
            return Piece::Ended;
        }
        if !self.rest.is_empty() {
            return self.write_on(now, registry);
        }
        if !self.ready {
            return Piece::Nothing;
        }
        self.read(into, now)
    }

    /// Whether nothing comes or goes on it any more.
    fn is_over(&self) -> bool
        ensures over { result ≡ true → (self.now.broken ≡ true) ⊎ ((self.now.closing ≡ true) × (self.now.rest.bytes.items ≡ [])) }
        ensures goes { result ≡ false → (self.now.broken ≡ false) × (self.now.rest.bytes.items ≡ [] → self.now.closing ≡ false) }
    {
        self.broken || self.closing && self.rest.is_empty()
    }

    /// Reads what has come.
    fn read(&mut self, into: &mut [u8], now: Duration) -> Piece
        requires { self.old.ready ≡ true }
        ensures piece { IsPiece result (length into.old) }
        ensures kept { self.new ≡ record self.old { moved = self.new.moved; asked = self.new.asked; ready = self.new.ready; came = self.new.came } }
        ensures after { AfterRead result now self.old self.new }
        ensures read { HasRead result into.new self.old self.new }
        ensures called { calls_of self.new ≡ calls_of self.old + 1 }
        ensures sound { is_sound self.old ≡ true → is_sound self.new ≡ true }
    {
        match read_once(&mut self.stream, &mut self.came, into) {
            Answer::Went(0) => Piece::Ended,
            Answer::Went(count) => {
                self.note_bytes(now);
                Piece::Bytes(count)
            }
            Answer::Nothing => {
                self.ready = false;
                Piece::Nothing
            }
            Answer::Again => Piece::Again,
            Answer::Failed => Piece::Ended,
        }
    }

    fn note_bytes(&mut self, now: Duration)
        ensures { self.new ≡ record self.old { moved = now; asked = Some (unwrap_or self.old.asked now) } }
    {
        self.moved = now;
        if self.asked.is_none() {
            self.asked = Some(now);
        }
    }

    /// Writes on what is kept, where the socket may take some of it.
    fn write_on(&mut self, now: Duration, registry: &Registry) -> Piece
        requires unbroken { self.old.broken ≡ false }
        requires rest { 0 < length self.old.rest.bytes.items }
        ensures piece { IsPiece result 0 }
        ensures none { OnBytes result ⊥ }
        ensures written { HasWrittenOn result now self.old self.new ⊎ (IsLost self.new × (result ≡ Piece.Ended)) }
        ensures closing { self.new.closing ≡ self.old.closing }
        ensures waits { self.old.takes ≡ false → (result ≡ Piece.Nothing) × (self.new ≡ self.old) }
        ensures nothing { result ≡ Piece.Nothing → (self.new.takes ≡ false) × (self.new.rest.bytes.items ≡ self.old.rest.bytes.items) }
        ensures tried { self.old.takes ≡ true → HasTried result self.old self.new }
        ensures called { result ≡ Piece.Again → calls_of self.new ≡ calls_of self.old + 1 }
        ensures came { self.new.came ≡ self.old.came }
        ensures sound { is_sound self.old ≡ true → is_sound self.new ≡ true }
    {
        if !self.takes {
            return Piece::Nothing;
        }
        match self.write_rest() {
            Answer::Went(count) => self.pass(count, now, registry),
            Answer::Nothing => {
                self.takes = false;
                Piece::Nothing
            }
            Answer::Again => Piece::Again,
            Answer::Failed => {
                self.lose();
                Piece::Ended
            }
        }
    }

    /// Has the socket take some of the rest.
    fn write_rest(&mut self) -> Answer
        ensures kept { self.new ≡ record self.old { taken = self.new.taken; rest = self.new.rest } }
        ensures took { TookOn self.old self.new }
        // What is kept are the last bytes, in their order.
        ensures count { self.new.rest.bytes.items ≡ drop (went result) self.old.rest.bytes.items }
        ensures answers { self.new.taken.answers ≡ result ∷ self.old.taken.answers }
    {
        let answer = write_once(&mut self.stream, &mut self.taken, self.rest.as_slice());
        if let Answer::Went(count) = answer {
            self.rest.pass(count);
        }
        answer
    }

    /// The socket took so many bytes of the rest now. A connection that the server has closed ends behind the last of them.
    fn pass(&mut self, count: usize, now: Duration, registry: &Registry) -> Piece
        requires { self.old.broken ≡ false }
        ensures piece { IsPiece result 0 }
        ensures went { (self.new ≡ record self.old { moved = if count == 0 then self.old.moved else now; watches_writes = self.new.watches_writes })
            ⊎ (IsLost self.new × (result ≡ Piece.Ended)) }
        ensures closing { self.new.closing ≡ self.old.closing }
        ensures ends { result ≡ Piece.Ended → IsLost self.new ⊎ ((self.new.closing ≡ true) × (self.new.rest.bytes.items ≡ [])) }
        ensures ended { self.new.closing ≡ true → self.new.rest.bytes.items ≡ [] → result ≡ Piece.Ended }
        ensures none { (result ≡ Piece.Again) ⊎ (result ≡ Piece.Ended) }
        ensures logs { (self.new.came ≡ self.old.came) × (self.new.taken ≡ self.old.taken) }
        ensures sound { is_sound self.old ≡ true → is_sound self.new ≡ true }
    {
        if count > 0 {
            self.moved = now;
        }
        if self.closing && self.rest.is_empty() {
            return Piece::Ended;
        }
        if self.watch(registry).is_err() {
            self.lose();
            return Piece::Ended;
        }
        Piece::Again
    }

    /// Sends all of the bytes, or loses them: those that the socket doesn't take now are kept. After a loss the connection is of no use.
    pub fn send(&mut self, bytes: &[u8], now: Duration, registry: &Registry) -> Sent
        ensures done { result ≡ Sent.Done → (self.old.broken ≡ false) × (self.new.broken ≡ false)
            × (self.new.moved ≡ now) × (self.new.asked ≡ None) × (self.new.ready ≡ self.old.ready) }
        // The bytes go behind all others, and what the socket hasn't taken of them is kept.
        ensures sent { result ≡ Sent.Done → TookOrRests self.old bytes.now self.new }
        ensures lost { result ≡ Sent.Lost → (self.new.broken ≡ true) × (self.new.ready ≡ true) }
        ensures left { result ≡ Sent.Lost → self.new.rest.bytes.items ≡ [] }
        ensures closing { self.new.closing ≡ self.old.closing }
        // Where nothing was kept it is lost only where the socket didn't take all of the bytes.
        ensures cause { result ≡ Sent.Lost → self.old.broken ≡ false → self.old.rest.bytes.items ≡ [] → self.old.watches_writes ≡ false →
            TookAll self.old bytes.now self.new → ⊥ }
        ensures sound { is_sound self.old ≡ true → is_sound self.new ≡ true }
    {
        if self.broken || self.give(bytes).is_err() || self.watch(registry).is_err() {
            self.lose();
            return Sent::Lost;
        }
        self.moved = now;
        self.asked = None;
        Sent::Done
    }

    /// Gives the rest to the socket, and the bytes where that leaves none. Keeps what the socket doesn't take now.
    fn give(&mut self, bytes: &[u8]) -> io::Result<()>
        ensures kept { self.new ≡ record self.old { takes = self.new.takes; taken = self.new.taken; rest = self.new.rest } }
        ensures sent { OnOk result (TookOrRests self.old bytes.now self.new) }
        ensures takes { OnOk result (self.new.takes ≡ true) }
        // Where the socket takes all at once nothing fails, and nothing is kept.
        ensures all { self.old.rest.bytes.items ≡ [] → TookAll self.old bytes.now self.new →
            (is_ok result ≡ true) × (self.new.rest.bytes.items ≡ []) }
    {
        if self.has_rest() {
            self.write_rest().count()?;
        }
        let count = if self.rest.is_empty() {
            write_once(&mut self.stream, &mut self.taken, bytes).count()?
        } else {
            0
        };
        self.rest.keep(&bytes[count..])?;
        self.takes = true;
        Ok(())
    }

    /// Has waits tell when the socket takes more, too, while there is a rest.
    fn watch(&mut self, registry: &Registry) -> io::Result<()>
        ensures kept { self.new ≡ record self.old { watches_writes = self.new.watches_writes } }
        ensures watches { OnOk result (self.new.watches_writes ≡ is_unwritten self.old) }
        ensures same { self.old.watches_writes ≡ is_unwritten self.old → is_ok result ≡ true }
    {
        let wanted = !self.rest.is_empty();
        if wanted == self.watches_writes {
            return Ok(());
        }
        let interests = if wanted {
            Interest::READABLE | Interest::WRITABLE
        } else {
            Interest::READABLE
        };
        registry.reregister(&mut self.stream, self.token, interests)?;
        self.watches_writes = wanted;
        Ok(())
    }

    /// It is of no use from now on, and what was kept is lost.
    fn lose(&mut self)
        ensures kept { self.new ≡ record self.old { ready = true; broken = true; rest = self.new.rest } }
        ensures rest { self.new.rest.bytes.items ≡ [] }
    {
        self.broken = true;
        self.ready = true;
        self.rest.clear();
    }

    /// Whether something is kept.
    pub fn has_rest(&self) -> bool
        ensures { result ≡ is_unwritten self.now }
    {
        !self.rest.is_empty()
    }

    /// Whether the server has closed it.
    pub fn is_closing(&self) -> bool
        ensures { result ≡ self.now.closing }
    {
        self.closing
    }

    /// When it last moved, where the server has closed it.
    pub fn closing_since(&self) -> Option<Duration>
        ensures { result ≡ if self.now.closing then Some self.now.moved else None }
    {
        if self.closing { Some(self.moved) } else { None }
    }

    /// The server has closed it. It lives until the rest is written or a new connection needs its place.
    pub fn begin_to_close(&mut self)
        ensures closing { self.new ≡ record self.old { closing = true } }
        ensures sound { is_sound self.new ≡ is_sound self.old }
    {
        self.closing = true;
    }

    /// Whether it was idle or left its sender without an answer for too long.
    pub fn is_stale(&self, now: Duration) -> bool
        ensures { result ≡ is_stale self.now.moved self.now.asked now }
    {
        if have_passed(IDLE_SECONDS, self.moved, now) {
            return true;
        }
        match self.asked {
            Some(asked) => have_passed(UNANSWERED_SECONDS, asked, now),
            None => false,
        }
    }

    /// Lets it go, and what is known of it is left.
    pub fn leave(self) -> Gone
        ensures { result ≡ gone_of self }
    {
        let Connection {
            came,
            moved,
            asked,
            broken,
            ..
        } = self;
        Gone {
            came,
            moved,
            asked,
            broken,
        }
    }

    /// Closes it. What has come by now is dropped before, since a close over bytes that weren't read takes back what was sent.
    pub fn close(mut self) {
        if self.stream.shutdown(Shutdown::Write).is_err() {
            return;
        }
        let mut dropped = [0; 4096];
        for _ in 0..DROPPED_READS {
            match self.stream.read(&mut dropped) {
                Ok(0) => return,
                Ok(_) => {}
                Err(_) => return,
            }
        }
    }
}
