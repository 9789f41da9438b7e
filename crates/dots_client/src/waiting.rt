//! Requests that wait for their answers, beside their messages.

ghost use Rattle.std.specs.Prelude.{◌≡◌, ◌<◌, ◌≤◌, ◌++◌, ◌%◌, ◌^◌, length, nat_lt, [], ◌∷◌, position, slice_get, option_map, unwrap_or, vec_len, vec_capacity, IfOk, IfSome};
ghost use Rattle.std.specs.Borrow.{sem};
ghost use Rattle.std.specs.Io.BufRead.{Rests};
ghost use Rattle.std.specs.List.{list_any, remove};
ghost use Rattle.coap_exchange.specs.Firsts.{replace_first};
ghost use Rattle.coap_exchange.specs.Sent.{given};
ghost use Rattle.dots_client.specs.Client.{is_new, handed, is_of, waits_for, is_empty, due_answer, due_after, repeat_answer, repeat_after};
ghost use Rattle.dots_client.specs.Receiving.{has_token, waits_by};
ghost use Rattle.dots_client.specs.Waiting.{pairs};

use crate::request::Request;
use coap_exchange::{Sender, Turn};
use dots_lists::{Bytes, NoMemory};
use std::alloc::Global;
use std::marker::Model;

/// Requests in the order of asking, each with its message.
#[derive(Drop)]
pub struct Waiting {
    requests: Vec<Request>,
    sender: Sender,
}

impl Model for Waiting {
    ghost use Rattle.std.specs.Prelude.{◌≡◌, ◌≤◌, length, vec_capacity};
    ghost use Rattle.dots_client.specs.Waiting.{RequestsValue, pairs};

    ghost Value = { RequestsValue };

    ghost view = { λ waiting. record { room = waiting.sender.room; waiting = pairs waiting.requests.items waiting.sender.sent } };

    ghost invariant = { λ waiting. (length waiting.requests.items ≡ length waiting.sender.sent) × (waiting.sender.room ≤ vec_capacity waiting.requests) };
}

impl Waiting {
    ghost use Rattle.dots_client.specs.contracts.waiting.Waiting.{the_row};

    /// No requests, and room for so many. This is the only call that takes memory.
    pub fn new(alloc: Global, room: usize) -> Result<Self, NoMemory>
        ensures { IfOk result (λ waiting. waiting ≡ record { room = room; waiting = [] }) }
    {
        let requests = Vec::with_capacity(alloc, room)?;
        let sender = Sender::new(alloc, room)?;
        Ok(Waiting { requests, sender })
    }

    /// Whether there is room for one more.
    pub fn has_room(&self) -> bool
        ensures { result ≡ nat_lt (length self.now.waiting) self.now.room }
    {
        self.sender.has_room()
    }

    /// Whether none waits.
    pub fn is_empty(&self) -> bool
        ensures { result ≡ is_empty self.now.waiting }
    {
        self.requests.as_slice().is_empty()
    }

    /// Whether one of this mid waits.
    pub fn has_mid(&self, mid: u32) -> bool
        ensures { result ≡ list_any (waits_for mid) self.now.waiting }
    {
        is_among(self.requests.as_slice(), mid)
    }

    /// Puts a request behind the others, with its message, which is sent at the time `now`, in milliseconds, with a random word.
    pub fn push(&mut self, request: Request, bytes: Bytes, now: u64, word: u32)
        requires { length self.old.waiting < self.old.room }
        ensures { self.new ≡ record self.old { waiting = self.old.waiting ++ record { request = request; sent = given bytes (request.number % 2 ^ 16) now word } ∷ [] } }
    {
        let id = (request.number % 65_536) as u16;
        match self.sender.send(bytes, id, now, word) {
            Ok(()) => self.requests.push_reserved(request),
            Err(_) => unreachable!(),
        }
    }

    /// The place of the first one with this token.
    pub fn place(&self, token: &[u8]) -> Option<usize>
        ensures { result ≡ position (waits_by token.now) self.now.waiting }
    {
        place_of(self.requests.as_slice(), token)
    }

    /// The request at a place.
    pub fn request(&self, place: usize) -> &Request
        requires { place < length self.now.waiting }
        ensures { option_map (λ w. w.request) (slice_get self.now.waiting place) ≡ Some result.now }
    {
        &self.requests[place]
    }

    /// Takes the request at a place out, which was answered.
    pub fn end(&mut self, place: usize) -> Request
        requires { place < length self.old.waiting }
        ensures gone { self.new ≡ record self.old { waiting = remove self.old.waiting place } }
        ensures value { option_map (λ w. w.request) (slice_get self.old.waiting place) ≡ Some result }
    {
        self.sender.remove(place);
        self.requests.remove(place)
    }

    /// The next message that is due at the time `now`, in milliseconds: first a request that wasn't handed out yet.
    pub fn tick(&mut self, now: u64) -> Option<&Bytes>
        ensures* after { sem 𝓛 (Rests the_row self.entry (λ waiting. waiting ≡ record { room = self.old.room; waiting = due_after now self.old.waiting })) }
        ensures answer { option_map (λ bytes. bytes.now) result ≡ due_answer now self.old.waiting }
    {
        match next_place(&mut self.requests, &mut self.sender, now) {
            Some(place) => Some(self.sender.bytes(place)),
            None => None,
        }
    }
}

/// Whether one of the requests is of this mid.
fn is_among(requests: &[Request], mid: u32) -> bool
    ensures { result ≡ list_any (is_of mid) requests.now }
{
    requests.iter().any(|request| request.mid == mid)
}

/// The place of the first request with this token.
fn place_of(requests: &[Request], token: &[u8]) -> Option<usize>
    ensures { result ≡ position (has_token token.now) requests.now }
{
    requests
        .iter()
        .position(|request| request.number.to_be_bytes().as_slice() == token)
}

/// The place of the message that is to be sent.
fn next_place(requests: &mut Vec<Request>, sender: &mut Sender, now: u64) -> Option<usize>
    requires beside { length requests.old.items ≡ length sender.old.sent }
    ensures beside { length requests.new.items ≡ length sender.new.sent }
    ensures after { pairs requests.new.items sender.new.sent ≡ due_after now (pairs requests.old.items sender.old.sent) }
    ensures answer { option_map (λ place. unwrap_or (option_map (λ s. s.bytes) (slice_get sender.new.sent place)) []) result ≡ due_answer now (pairs requests.old.items sender.old.sent) }
    ensures within { IfSome result (λ place. place < length sender.new.sent) }
    ensures capacity { vec_capacity requests.new ≡ vec_capacity requests.old }
    ensures room { sender.new.room ≡ sender.old.room }
{
    match hand_out(requests) {
        Some(place) => Some(place),
        None => repeat_next(requests, sender, now),
    }
}

/// Hands the first request out that wasn't yet.
fn hand_out(requests: &mut Vec<Request>) -> Option<usize>
    ensures place { result ≡ position is_new requests.old.items }
    ensures handed { requests.new.items ≡ replace_first is_new (λ r. handed r ∷ []) requests.old.items }
    ensures capacity { vec_capacity requests.new ≡ vec_capacity requests.old }
{
    match place_new(requests.as_slice()) {
        Some(place) => {
            requests[place].handed = true;
            Some(place)
        }
        None => None,
    }
}

/// The place of the first request that wasn't handed out yet.
fn place_new(requests: &[Request]) -> Option<usize>
    ensures { result ≡ position is_new requests.now }
{
    requests.iter().position(|request| !request.handed)
}

/// Repeats the first message that may be repeated of those that are due. Those before it are given up.
fn repeat_next(requests: &mut Vec<Request>, sender: &mut Sender, now: u64) -> Option<usize>
    requires beside { length requests.old.items ≡ length sender.old.sent }
    ensures beside { length requests.new.items ≡ length sender.new.sent }
    ensures after { pairs requests.new.items sender.new.sent ≡ repeat_after now (pairs requests.old.items sender.old.sent) }
    ensures answer { option_map (λ place. unwrap_or (option_map (λ s. s.bytes) (slice_get sender.new.sent place)) []) result ≡ repeat_answer now (pairs requests.old.items sender.old.sent) }
    ensures within { IfSome result (λ place. place < length sender.new.sent) }
    ensures capacity { vec_capacity requests.new ≡ vec_capacity requests.old }
    ensures room { sender.new.room ≡ sender.old.room }
{
    while let Some(turn) = sender.turn(now) {
        match turn {
            Turn::Again { place } => return Some(place),
            Turn::GaveUp { place, .. } => give_up(requests, place),
        }
    }
    None
}

/// Lets the request at a place go.
fn give_up(requests: &mut Vec<Request>, place: usize)
    requires { place < vec_len requests.old }
    ensures items { requests.new.items ≡ remove requests.old.items place }
    ensures capacity { vec_capacity requests.new ≡ vec_capacity requests.old }
{
    let _given_up = requests.remove(place);
}
