//! The client.

ghost use Rattle.std.specs.Prelude.{◌≡◌, ◌≤◌, ◌<◌, ◌%◌, ◌^◌, [], false, length, slice_get, option_map, Some, None, IfOk, IfErr, IfSome, IfNone, IsSome};
ghost use Rattle.std.specs.Borrow.{sem};
ghost use Rattle.coap_message.specs.Message.{spelling};
ghost use Rattle.dots_client.specs.Requests.{asking, withdrawing};
ghost use Rattle.dots_client.specs.declared.client.TheConstants.{MAX_MID, MAX_ROOM};
ghost use Rattle.dots_client.specs.declared.request.Request.{Request};
ghost use Rattle.dots_client.specs.Client.{WaitingValue, IsKnown, is_empty, Faults, ask_fault, mid_for, mid_after, new_request, bytes_for, asked_at, tick_answer, tick_after};
ghost use Rattle.dots_client.specs.Receiving.{Receives, Answers, YieldsOrLacks};
ghost use Rattle.dots_client.specs.Steps.{Sets, Removes, Drops, IsOf};

use crate::answers::{Answer, answer_of};
use crate::ask::{Ask, AskFault};
use crate::beats::{beat_answer, is_beat};
use crate::granted::Granted;
use crate::heard::Heard;
use crate::ledger::{drop_row, retain_granted, row_of, set_row};
use crate::request::Request;
use crate::requests::{asking, withdrawing};
use crate::waiting::Waiting;
use acl_lists::Asked;
use coap_message::{Kind, Message, decode};
use dots_lists::{Bytes, Name, NoMemory};
use std::alloc::Global;
use std::marker::Model;

/// The mids of new asks are below this number.
pub const MAX_MID: u32 = 3_221_225_471;

/// The most requests that a client may have room for.
pub const MAX_ROOM: usize = 65_536;

/// A client of the signal channel.
#[derive(Drop)]
pub struct ClientCore {
    alloc: Global,
    cuid: Name,
    /// Of the next new ask.
    mid: u32,
    /// Of the next request.
    number: u64,
    waiting: Waiting,
    ledger: Vec<Granted>,
}

impl Model for ClientCore {
    ghost use Rattle.std.specs.Prelude.{◌≤◌};
    ghost use Rattle.dots_client.specs.Client.{ClientValue};

    ghost Value = { ClientValue };

    ghost view = { λ core. record {
      cuid = core.cuid;
      room = core.waiting.room;
      mid = core.mid;
      number = core.number;
      waiting = core.waiting.waiting;
      ledger = core.ledger.items;
    } };

    ghost invariant = { λ core. core.mid ≤ 3221225471 };
}

impl ClientCore {
    ghost use Rattle.std.specs.Io.BufRead.{Rests};
    ghost use Rattle.dots_client.specs.contracts.client.ClientCore.{the_row};

    /// A client of this name, with room for so many requests that wait, whose first mid and number are 1.
    pub fn new(alloc: Global, cuid: Name, room: usize) -> Result<Self, NoMemory>
        requires { room ≤ MAX_ROOM }
        ensures { IfOk result (λ core. core ≡ record { cuid = cuid; room = room; mid = 1; number = 1; waiting = []; ledger = [] }) }
    {
        ClientCore::starting(alloc, cuid, room, 1, 1)
    }

    /// The same, with the mid of the first new ask, at most [`MAX_MID`], and the number of the first request.
    pub fn starting(
        alloc: Global,
        cuid: Name,
        room: usize,
        mid: u32,
        number: u64,
    ) -> Result<Self, NoMemory>
        requires room { room ≤ MAX_ROOM }
        requires mid { mid ≤ MAX_MID }
        ensures { IfOk result (λ core. core ≡ record { cuid = cuid; room = room; mid = mid; number = number; waiting = []; ledger = [] }) }
    {
        let waiting = Waiting::new(alloc, room)?;
        Ok(ClientCore {
            alloc,
            cuid,
            mid,
            number,
            waiting,
            ledger: Vec::new(alloc),
        })
    }

    /// What was granted, in the order of the mids.
    pub fn ledger(&self) -> &[Granted]
        ensures { result.now ≡ self.now.ledger }
    {
        self.ledger.as_slice()
    }

    /// Whether no request waits for its answer.
    pub fn is_idle(&self) -> bool
        ensures { result ≡ is_empty self.now.waiting }
    {
        self.waiting.is_empty()
    }

    /// The Message ID of the next request.
    pub fn next_id(&self) -> u16
        ensures { result ≡ self.now.number % 2 ^ 16 }
    {
        (self.number % 65_536) as u16
    }

    /// Asks at the time `now`, in seconds, and answers the mid. [`ClientCore::tick`] hands the request out as soon as it is called, and
    /// again 3 to 4 seconds later by a random word, and so on. What is refreshed or withdrawn stands in the ledger.
    pub fn ask(&mut self, ask: &Ask, now: u64, word: u32) -> Result<u32, AskFault>
        requires known { IsKnown ask.now self.old.ledger }
        ensures ok { IfOk result (λ mid. (ask_fault self.old ask.now ≡ None) × (mid ≡ mid_for self.old ask.now) × (self.new ≡ asked_at self.old ask.now now word)) }
        ensures err { IfErr result (λ fault. (self.new ≡ self.old) × Faults fault (ask_fault self.old ask.now)) }
    {
        if let Some(fault) = self.fault_of(ask) {
            return Err(fault);
        }
        let mid = self.mid_for(ask);
        let next = self.mid_after(ask);
        let Ok((request, bytes)) = self.request_for(ask, mid) else {
            return Err(AskFault::NoMemory);
        };
        self.waiting
            .push(request, bytes, now.saturating_mul(1000), word);
        self.mid = next;
        self.number = self.number.wrapping_add(1);
        Ok(mid)
    }

    /// Takes a datagram of the server at the time `now`, in seconds.
    pub fn got(&mut self, bytes: &[u8], now: u64) -> Heard
        ensures { Receives self.old bytes.now now result self.new }
    {
        let Ok(message) = decode(bytes) else {
            return Heard::Nothing;
        };
        if is_beat(&message) {
            return Heard::Beat(beat_answer(&message));
        }
        let Some(place) = self.place_of(&message) else {
            return Heard::Nothing;
        };
        self.answered(place, &message, now)
    }

    /// The next message that is due at the time `now`, in seconds. It is called until None comes. Grants whose lifetime has passed
    /// leave the ledger.
    pub fn tick(&mut self, now: u64) -> Option<&Bytes>
        ensures* after { sem 𝓛 (Rests the_row self.entry (λ core. core ≡ tick_after now self.old)) }
        ensures answer { option_map (λ bytes. bytes.now) result ≡ tick_answer now self.old }
    {
        retain_granted(&mut self.ledger, now);
        self.waiting.tick(now.saturating_mul(1000))
    }

    /// Why nothing is asked, but for want of memory.
    fn fault_of(&self, ask: &Ask) -> Option<AskFault>
        ensures { result ≡ ask_fault self.now ask.now }
    {
        match ask {
            Ask::New { .. } => {
                if self.mid == MAX_MID && !(self.waiting.is_empty() && self.ledger.is_empty()) {
                    return Some(AskFault::MidSpent);
                }
            }
            Ask::Refresh { mid, .. } | Ask::Withdraw { mid } => {
                if self.waiting.has_mid(*mid) {
                    return Some(AskFault::Busy { mid: *mid });
                }
            }
        }
        if self.waiting.has_room() {
            return None;
        }
        Some(AskFault::Full {
            number: self.number,
        })
    }

    /// The mid of the request.
    fn mid_for(&self, ask: &Ask) -> u32
        ensures mid { result ≡ mid_for self.now ask.now }
    {
        match ask {
            Ask::New { .. } => { if self.mid == MAX_MID { 0 } else { self.mid } }
            Ask::Refresh { mid, .. } | Ask::Withdraw { mid } => *mid,
        }
    }

    /// The mid of the next new ask.
    fn mid_after(&self, ask: &Ask) -> u32
        ensures mid { result ≡ mid_after self.now ask.now }
        ensures within { result ≤ MAX_MID }
    {
        match ask {
            Ask::New { .. } => self.mid_for(ask) + 1,
            Ask::Refresh { .. } | Ask::Withdraw { .. } => self.mid,
        }
    }

    /// The request of this mid, and its message.
    fn request_for(&self, ask: &Ask, mid: u32) -> Result<(Request, Bytes), NoMemory>
        requires known { IsKnown ask.now self.now.ledger }
        requires mid { mid ≡ mid_for self.now ask.now }
        ensures { IfOk result (λ made. (made.0 ≡ new_request self.now ask.now) × (made.1 ≡ bytes_for self.now ask.now)) }
    {
        match ask {
            Ask::New { asked, lifetime } => self.asking(mid, asked, *lifetime),
            Ask::Refresh { lifetime, .. } => {
                let Some(row) = row_of(self.ledger.as_slice(), mid) else {
                    unreachable!();
                };
                self.asking(mid, &row.asked, *lifetime)
            }
            Ask::Withdraw { .. } => self.withdrawing(mid),
        }
    }

    fn asking(&self, mid: u32, asked: &Asked, lifetime: i32) -> Result<(Request, Bytes), NoMemory>
        ensures { IfOk result (λ made. (made.0 ≡ record { number = self.now.number; mid = mid; scope = Some asked.now; handed = false })
            × (made.1 ≡ spelling (asking self.now.number self.now.cuid mid asked.now lifetime))) }
    {
        let bytes = asking(self.alloc, self.number, &self.cuid, mid, asked, lifetime)?;
        let scope = asked.copy(self.alloc)?;
        Ok((self.request(mid, Some(scope)), bytes))
    }

    fn withdrawing(&self, mid: u32) -> Result<(Request, Bytes), NoMemory>
        ensures { IfOk result (λ made. (made.0 ≡ record { number = self.now.number; mid = mid; scope = None; handed = false })
            × (made.1 ≡ spelling (withdrawing self.now.number self.now.cuid mid))) }
    {
        let bytes = withdrawing(self.alloc, self.number, &self.cuid, mid)?;
        Ok((self.request(mid, None), bytes))
    }

    /// The next request, which isn't handed out yet.
    fn request(&self, mid: u32, scope: Option<Asked>) -> Request
        ensures { result ≡ record { number = self.now.number; mid = mid; scope = scope; handed = false } }
    {
        Request {
            number: self.number,
            mid,
            scope,
            handed: false,
        }
    }

    /// The place of the request that a message answers.
    fn place_of(&self, message: &Message<'_>) -> Option<usize>
        ensures some { IfSome result (IsOf self.now message.now) }
        ensures none { IfNone result ((request : Request) → Answers self.now message.now request → ⊥) }
    {
        if message.kind() != Kind::Non || message.code() / 32 == 0 {
            return None;
        }
        self.waiting.place(message.token())
    }

    /// Takes the answer to the request at a place.
    fn answered(&mut self, place: usize, message: &Message<'_>, now: u64) -> Heard
        requires { IsOf self.old message.now place }
        ensures { YieldsOrLacks self.old message.now now result self.new }
    {
        match answer_of(self.alloc, self.waiting.request(place), message) {
            Ok(Answer::Granted { lifetime }) => self.granted(place, lifetime, now),
            Ok(Answer::Withdrawn) => self.withdrawn(place),
            Ok(Answer::Refused) => self.refused(place, message.code()),
            Err(NoMemory) => Heard::NoMemory,
        }
    }

    /// Ends the request at a place, for a mitigation, and sets its row.
    fn granted(&mut self, place: usize, lifetime: i32, now: u64) -> Heard
        requires place { place < length self.old.waiting }
        requires scope { (w : WaitingValue) → slice_get self.old.waiting place ≡ Some w → IsSome w.request.scope }
        ensures { Sets self.old place lifetime now result self.new }
    {
        if self.ledger.reserve(1).is_err() {
            return Heard::NoMemory;
        }
        let Request { mid, scope, .. } = self.waiting.end(place);
        let Some(asked) = scope else {
            unreachable!();
        };
        let row = Granted {
            mid,
            asked,
            lifetime,
            at: now,
        };
        set_row(&mut self.ledger, row);
        Heard::Granted { mid }
    }

    /// Ends the request at a place, for a withdrawal, and removes its row.
    fn withdrawn(&mut self, place: usize) -> Heard
        requires { place < length self.old.waiting }
        ensures { Removes self.old place result self.new }
    {
        let Request { mid, .. } = self.waiting.end(place);
        drop_row(&mut self.ledger, mid);
        Heard::Withdrawn { mid }
    }

    /// Ends the request at a place.
    fn refused(&mut self, place: usize, code: u8) -> Heard
        requires { place < length self.old.waiting }
        ensures { Drops self.old place code result self.new }
    {
        let Request { mid, .. } = self.waiting.end(place);
        Heard::Refused { mid, code }
    }
}
