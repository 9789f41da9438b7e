//! The exchanges that wait.

ghost use Rattle.std.specs.Prelude.{◌≡◌, ◌<◌, ◌≤◌, ◌++◌, ◌∷◌, [], length, false, Some, None, IfOk, OnErr, option_map};
ghost use Rattle.std.specs.List.{find};
ghost use Rattle.std.specs.VecDeque.{deque_capacity, deque_len};
ghost use Rattle.dots_gateway.specs.Exchanges.{AreApart, AreRestorable, restored, at_time, is_full, is_from, is_passed, exchange_for, with_one};

use crate::dropping::{drop_over, is_over};
use crate::exchange::{Exchange, Key, LAST_NUMBER, Waiting, exchange_for};
use crate::restoring::{put_back, time_after};
use crate::searching::{number_in, of_number};
use coap_message::Message;
use dots_lists::{Bytes, NoMemory};
use std::alloc::Global;
use std::collections::{HashMap, VecDeque};
use std::marker::Model;

/// Exchanges in the order of their numbers. That of a client's request is found by its hash, and that of a number by halving.
#[derive(Drop)]
pub struct Exchanges {
    waiting: VecDeque<Waiting>,
    /// For each of them, the number of the next one of the same request. Only those that were restored may have one.
    links: VecDeque<Option<u64>>,
    /// The number of the first exchange of each request.
    numbers: HashMap<Key, u64>,
    /// How many there may be.
    room: usize,
    /// The number of the next one.
    next: u64,
    /// In seconds.
    time: u64,
}

impl Model for Exchanges {
    ghost use Rattle.std.specs.Prelude.{◌≡◌, ◌≤◌, []};
    ghost use Rattle.std.specs.HashMap.{spare};
    ghost use Rattle.std.specs.VecDeque.{deque_capacity};
    ghost use Rattle.dots_gateway.specs.Exchanges.{ExchangesValue};
    ghost use Rattle.dots_gateway.specs.Finding.{AreLinked, AreNumbered, AreSound};

    ghost Value = { ExchangesValue };

    ghost view = { λ e. record { room = e.room; next = e.next; time = e.time; waiting = e.waiting.items } };

    ghost invariant = { λ e. record {
      sound : AreSound (record { room = e.room; next = e.next; time = e.time; waiting = e.waiting.items });
      numbered : AreNumbered e.numbers.entries e.waiting.items;
      linked : AreLinked e.links.items e.waiting.items;
      reserved : (e.room ≤ deque_capacity e.waiting) × (e.room ≤ deque_capacity e.links);
      unused : e.next ≡ 1 → (e.waiting.items ≡ []) × (e.room ≤ spare e.numbers);
    } };
}

impl Exchanges {
    /// No exchanges, at the time 0, with room for so many. The first number is 1.
    pub fn new(alloc: Global, room: usize) -> Result<Self, NoMemory>
        ensures { IfOk result (λ e. e ≡ record { room = room; next = 1; time = 0; waiting = [] }) }
    {
        let waiting = VecDeque::with_capacity(alloc, room)?;
        let links = VecDeque::with_capacity(alloc, room)?;
        let numbers = HashMap::with_capacity(alloc, room)?;
        Ok(Exchanges {
            waiting,
            links,
            numbers,
            room,
            next: 1,
            time: 0,
        })
    }

    /// The number of the next exchange.
    pub fn next(&self) -> u64
        ensures { result ≡ self.now.next }
    {
        self.next
    }

    /// Whether there is no room for one more, or no number.
    pub fn is_full(&self) -> bool
        ensures { result ≡ is_full self.now }
    {
        self.waiting.len() >= self.room || self.next == LAST_NUMBER
    }

    /// How many wait at the time `now`, in seconds, or at their own time, if that is later.
    pub fn count(&self, now: u64) -> usize
        ensures count { result ≡ length (at_time now self.now).waiting }
        ensures apart { AreApart self.now.waiting }
    {
        let now = now.max(self.time);
        self.waiting
            .iter()
            .filter(|waiting| !is_over(waiting, now))
            .count()
    }

    /// The time is now `now`, in seconds, unless it was later before. Exchanges that are over go. Takes no memory.
    pub fn pass_time(&mut self, now: u64)
        ensures { self.new ≡ at_time now self.old }
    {
        self.time = now.max(self.time);
        drop_over(
            &mut self.waiting,
            &mut self.links,
            &mut self.numbers,
            self.time,
        );
    }

    /// The exchange of a peer's request with this Message ID.
    pub fn of_request(&self, peer: u32, id: u16) -> Option<&Waiting>
        ensures { option_map (λ k. k.now) result ≡ find (is_from peer id) self.now.waiting }
    {
        match self.numbers.get(&Key { peer, id }) {
            Some(number) => of_number(&self.waiting, *number),
            None => None,
        }
    }

    /// The exchange that was passed on with this token and this Message ID.
    pub fn of_answer(&self, token: &[u8], id: u16) -> Option<&Waiting>
        ensures { option_map (λ k. k.now) result ≡ find (is_passed token.now id) self.now.waiting }
    {
        let Some(number) = number_in(token) else {
            return None;
        };
        let found = of_number(&self.waiting, number);
        if number % 65_536 != u64::from(id) {
            return None;
        }
        found
    }

    /// Exchanges that waited before a crash, in their order, and the number of the next one. Their datagrams were lost. None was passed on
    /// since the start. Takes no memory.
    pub fn restore(&mut self, exchanges: &[Exchange], next: u64)
        requires fresh { self.old.next ≡ 1 }
        requires room { length exchanges.now ≤ self.old.room }
        requires order { AreRestorable exchanges.now next }
        ensures { self.new ≡ restored exchanges.now next self.old }
    {
        put_back(
            &mut self.waiting,
            &mut self.links,
            &mut self.numbers,
            exchanges,
        );
        self.next = next;
        self.time = time_after(exchanges, self.time);
    }

    /// One more, of a request that came at this time in a datagram.
    pub fn add(
        &mut self,
        alloc: Global,
        peer: u32,
        message: &Message<'_>,
        datagram: &[u8],
    ) -> Result<Exchange, NoMemory>
        requires room { is_full self.old ≡ false }
        requires new { find (is_from peer message.now.identifier) self.old.waiting ≡ None }
        ensures exchange { IfOk result (λ exchange. exchange ≡ exchange_for self.old peer message.now) }
        ensures ok { IfOk result (λ exchange. self.new ≡ with_one exchange datagram.now self.old) }
        ensures err { OnErr result (self.new ≡ self.old) }
    {
        let asked = Bytes::from_slice(alloc, datagram)?;
        let exchange = exchange_for(self.next, self.time, peer, message);
        let id = message.id();
        self.numbers.insert(Key { peer, id }, self.next)?;
        put_last(&mut self.waiting, &exchange, asked);
        self.links.push_back_reserved(None);
        self.next += 1;
        Ok(exchange)
    }
}

/// Puts an exchange behind the others, beside the datagram that asked.
fn put_last(waiting: &mut VecDeque<Waiting>, exchange: &Exchange, asked: Bytes)
    requires { deque_len waiting.old < deque_capacity waiting.old }
    ensures items { waiting.new.items ≡ waiting.old.items ++ record { exchange = exchange.now; asked = Some asked } ∷ [] }
    ensures capacity { deque_capacity waiting.new ≡ deque_capacity waiting.old }
{
    waiting.push_back_reserved(Waiting {
        exchange: *exchange,
        asked: Some(asked),
    });
}
