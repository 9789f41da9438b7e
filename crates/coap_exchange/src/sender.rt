//! Confirmable messages that are sent again until they are acknowledged.

ghost use Rattle.std.specs.Prelude.{◌≡◌, ℕ, ◌+◌, ◌<◌, ◌≤◌, ◌++◌, ◌∷◌, [], length, nat_lt, option_map, position, slice_get, vec_capacity, Some, IfOk, IfSome, OnOk, OnErr};
ghost use Rattle.std.specs.Borrow.{sem};
ghost use Rattle.std.specs.List.{list_any, remove};
ghost use Rattle.coap_exchange.specs.Firsts.{replace_at, without_first};
ghost use Rattle.coap_exchange.specs.Resending.{has_id, after_timeout, turned, answer_to_timeout, resending, resending_of, resending_by, turn_of, IsTurnIn, IsPlaceOf};
ghost use Rattle.coap_exchange.specs.Sent.{is_due, given};

use crate::sent::Sent;
use dots_lists::{Bytes, NoMemory};
use std::alloc::Global;
use std::marker::Model;

/// What is to be done for a message whose timeout is over.
#[derive(Drop)]
pub enum Resend<'a> {
    /// Send these bytes again, which are those of the message.
    Again(&'a Bytes),
    /// Nothing more: the message of this Message ID was repeated three times, and no acknowledgement came.
    GaveUp { id: u16 },
}

/// There is no room for one more message.
#[derive(Clone, Copy)]
pub enum SendFault {
    Busy,
}

/// Messages that are sent again until they are acknowledged or given up (RFC 7252, section 4.2).
#[derive(Drop)]
pub struct Sender {
    sent: Vec<Sent>,
    room: usize,
}

impl Model for Sender {
    ghost use Rattle.std.specs.Prelude.{◌≤◌, vec_capacity};
    ghost use Rattle.coap_exchange.specs.Resending.{SenderValue};

    ghost Value = { SenderValue };

    ghost view = { λ sender. record { room = sender.room; sent = sender.sent.items } };

    ghost invariant = { λ sender. sender.room ≤ vec_capacity sender.sent };
}

/// What a timeout comes to, by the place of its message among those that waited: they stand in the order in which they were given.
#[derive(Clone, Copy)]
pub enum Turn {
    /// The message at this place is to be sent again.
    Again { place: usize },
    /// The message at this place, which has this Message ID, is given up, and those behind it move up.
    GaveUp { place: usize, id: u16 },
}

impl Sender {
    ghost use Rattle.std.specs.Io.BufRead.{Rests};
    ghost use Rattle.coap_exchange.specs.contracts.sender.Sender.{the_row};

    /// No messages, and room for so many. This is the only call that takes memory.
    pub fn new(alloc: Global, room: usize) -> Result<Self, NoMemory>
        ensures { IfOk result (λ sender. sender ≡ record { room = room; sent = [] }) }
    {
        Ok(Sender {
            sent: Vec::with_capacity(alloc, room)?,
            room,
        })
    }

    /// Whether there is room for one more message.
    pub fn has_room(&self) -> bool
        ensures { result ≡ nat_lt (length self.now.sent) self.now.room }
    {
        self.sent.len() < self.room
    }

    /// Takes a message that is sent at the time `now`, in milliseconds. Its timeouts begin with 3,000 to 4,000 milliseconds,
    /// by a random word, and double (RFC 7252, section 4.2). Busy exactly where the room is used; then nothing changes.
    pub fn send(&mut self, bytes: Bytes, id: u16, now: u64, word: u32) -> Result<(), SendFault>
        ensures fits { OnOk result (length self.old.sent < self.old.room) }
        ensures given { OnOk result (self.new ≡ record self.old { sent = self.old.sent ++ given bytes id now word ∷ [] }) }
        ensures busy { OnErr result (self.old.room ≤ length self.old.sent) }
        ensures kept { OnErr result (self.new ≡ self.old) }
    {
        if self.sent.len() >= self.room {
            return Err(SendFault::Busy);
        }
        self.sent.push_reserved(Sent::new(bytes, id, now, word));
        Ok(())
    }

    /// Whether a message with this Message ID waits for its acknowledgement. Of these the one that was given first is
    /// acknowledged, and goes.
    pub fn acknowledged(&mut self, id: u16) -> bool
        ensures answer { result ≡ list_any (has_id id) self.old.sent }
        ensures gone { self.new ≡ record self.old { sent = without_first (has_id id) self.old.sent } }
    {
        take_first(&mut self.sent, id)
    }

    /// What is to be done at the time `now`, in milliseconds, for the message that was given first of those whose timeout is
    /// over. A message that was given at n is repeated at n + W, n + 3·W and n + 7·W, where W is its initial timeout, and
    /// given up at n + 15·W. A call goes on by one of these times, so it is called until None comes.
    pub fn next_due(&mut self, now: u64) -> Option<Resend<'_>>
        ensures* after { sem 𝓛 (Rests the_row self.entry (λ sender. sender ≡ record { room = self.old.room; sent = turned now self.old.sent })) }
        ensures answer { option_map resending_of result ≡ resending now self.old.sent }
    {
        match take_turn(&mut self.sent, now)? {
            Turn::Again { place } => Some(Resend::Again(self.sent[place].bytes())),
            Turn::GaveUp { id, .. } => Some(Resend::GaveUp { id }),
        }
    }

    /// The same as [`Sender::next_due`], and answers places, for a caller that keeps something beside each message.
    pub fn turn(&mut self, now: u64) -> Option<Turn>
        ensures turned { self.new ≡ record self.old { sent = turned now self.old.sent } }
        ensures answer { IsTurnIn now self.old.sent result }
    {
        take_turn(&mut self.sent, now)
    }

    /// The bytes of the message at a place.
    pub fn bytes(&self, place: usize) -> &Bytes
        requires { place < length self.now.sent }
        ensures { option_map (λ s. s.bytes) (slice_get self.now.sent place) ≡ Some result.now }
    {
        self.sent[place].bytes()
    }

    /// Takes the message at a place out, as one that is acknowledged, and those behind it move up.
    pub fn remove(&mut self, place: usize)
        requires { place < length self.old.sent }
        ensures { self.new ≡ record self.old { sent = remove self.old.sent place } }
    {
        let _acknowledged = self.sent.remove(place);
    }
}

/// Takes the first message of this Message ID out, and says whether there was one.
fn take_first(sent: &mut Vec<Sent>, id: u16) -> bool
    ensures answer { result ≡ list_any (has_id id) sent.old.items }
    ensures gone { sent.new.items ≡ without_first (has_id id) sent.old.items }
    ensures capacity { vec_capacity sent.new ≡ vec_capacity sent.old }
{
    match place_of(sent.as_slice(), id) {
        Some(place) => {
            let _acknowledged = sent.remove(place);
            true
        }
        None => false,
    }
}

/// The place of the first message of this Message ID.
fn place_of(sent: &[Sent], id: u16) -> Option<usize>
    ensures { result ≡ position (has_id id) sent.now }
{
    sent.iter().position(|message| message.id() == id)
}

/// The place of the first message whose timeout is over.
fn place_due(sent: &[Sent], now: u64) -> Option<usize>
    ensures { result ≡ position (is_due now) sent.now }
{
    sent.iter().position(|message| message.is_due(now))
}

/// The timeout of the first message whose timeout is over.
fn take_turn(sent: &mut Vec<Sent>, now: u64) -> Option<Turn>
    ensures turned { sent.new.items ≡ turned now sent.old.items }
    ensures answer { option_map (resending_by sent.new.items) result ≡ resending now sent.old.items }
    ensures within { IfSome result (IsPlaceOf (length sent.new.items)) }
    ensures turn { IsTurnIn now sent.old.items result }
    ensures capacity { vec_capacity sent.new ≡ vec_capacity sent.old }
{
    match place_due(sent.as_slice(), now) {
        Some(place) => Some(turn_at(sent, place)),
        None => None,
    }
}

/// The timeout of the message at this place.
fn turn_at(sent: &mut Vec<Sent>, place: usize) -> Turn
    requires { place < length sent.old.items }
    ensures turned { sent.new.items ≡ replace_at place after_timeout sent.old.items }
    ensures answer { Some (resending_by sent.new.items result) ≡ option_map answer_to_timeout (slice_get sent.old.items place) }
    ensures within { IsPlaceOf (length sent.new.items) result }
    ensures turn { Some result ≡ option_map (turn_of place) (slice_get sent.old.items place) }
    ensures capacity { vec_capacity sent.new ≡ vec_capacity sent.old }
{
    if sent[place].may_repeat() {
        sent[place].repeat();
        return Turn::Again { place };
    }
    let given_up = sent.remove(place);
    Turn::GaveUp {
        place,
        id: given_up.id(),
    }
}
