//! The last messages of one peer and domain.

ghost use Rattle.std.specs.Prelude.{◌≡◌, ◌≤◌, ℕ, false, map, filter, length, option_map, option_copied, vec_capacity, IfOk};
ghost use Rattle.std.specs.Bool.{OnFalse};
ghost use Rattle.dots_history.specs.Entries.{may_repeat};
ghost use Rattle.dots_history.specs.Places.{last_of};
ghost use Rattle.dots_history.specs.Slots.{Rises, number_in};
ghost use Rattle.dots_history.specs.KeptPlaces.{union};
ghost use Rattle.dots_history.specs.Tables.{pushed};
ghost use Rattle.coap_exchange.specs.Rings.{RingValue, empty_ring, grown, answers, reply_to, slot_of, slots_of, renumbered, ring_renumbered};

use crate::message::Message;
use crate::pair::Pair;
use dots_history::{MessageKey, SlotList, is_remembered, number_in};
use dots_lists::NoMemory;
use std::alloc::Global;
use std::marker::Model;

/// The last messages of one peer and domain, in the order in which they were accepted.
#[derive(Drop)]
pub struct Ring {
    pair: Pair,
    messages: Vec<Message>,
    room: usize,
}

impl Model for Ring {
    ghost use Rattle.std.specs.Prelude.{◌≤◌, length, vec_capacity};
    ghost use Rattle.coap_exchange.specs.Rings.{RingValue};

    ghost Value = { RingValue };

    ghost view = { λ ring. record { pair = ring.pair; room = ring.room; messages = ring.messages.items } };

    ghost invariant = { λ ring. (1 ≤ ring.room) × (length ring.messages.items ≤ ring.room) × (ring.room ≤ vec_capacity ring.messages) };
}

impl Ring {
    /// No messages, and room for so many.
    pub fn new(alloc: Global, pair: Pair, room: usize) -> Result<Self, NoMemory>
        requires { 1 ≤ room }
        ensures { IfOk result (λ ring. ring ≡ empty_ring room pair) }
    {
        Ok(Ring {
            pair,
            messages: Vec::with_capacity(alloc, room)?,
            room,
        })
    }

    /// One more message, which is the last. The first goes where there is no room.
    pub fn push(&mut self, message: Message)
        ensures { self.new ≡ grown message self.old }
    {
        push_last(&mut self.messages, self.room, message);
    }

    /// The reply to a repeat at this time of the message of this Message ID.
    pub fn reply_to(&self, id: u16, now: u64) -> Option<&[u8]>
        ensures { option_copied result ≡ reply_to id now self.now.messages }
    {
        let message = last_repeated(self.messages.as_slice(), id, now)?;
        Some(message.reply.items())
    }

    /// Puts the slot of each message into the list.
    pub fn slots(&self, into: &mut SlotList)
        requires { length (union (slots_of self.now.messages) into.old.items) ≤ into.old.room }
        ensures { into.new ≡ record into.old { items = union (slots_of self.now.messages) into.old.items } }
    {
        put_slots(self.messages.as_slice(), into);
    }

    /// Gives each message its new slot: the slot that is in the list becomes its place there.
    pub fn renumber(&mut self, keep: &[u32])
        requires { Rises keep.now }
        ensures { self.new ≡ ring_renumbered keep.now self.old }
    {
        renumber_messages(&mut self.messages, keep);
    }
}

/// Pushes a message to the end of the last so many.
fn push_last(messages: &mut Vec<Message>, room: usize, message: Message)
    requires some { 1 ≤ room }
    requires few { length messages.old.items ≤ room }
    requires reserved { room ≤ vec_capacity messages.old }
    ensures items { messages.new.items ≡ pushed room message messages.old.items }
    ensures few { length messages.new.items ≤ room }
    ensures capacity { vec_capacity messages.new ≡ vec_capacity messages.old }
{
    if messages.len() < room {
        messages.push_reserved(message);
        return;
    }
    let _oldest = messages.remove(0);
    messages.push_reserved(message);
}

/// The last of these messages that had this Message ID and may still be repeated at this time.
fn last_repeated(messages: &[Message], id: u16, now: u64) -> Option<&Message>
    ensures { option_copied result ≡ last_of (filter (answers id now) messages.now) }
{
    let mut found = None;
    for message in messages {
        if has_id(message.key, id) && is_remembered(now, id, message.time, message.key) {
            found = Some(message);
        }
    }
    found
}

/// Whether the message had this Message ID. Most had another, and of these the time isn't looked at.
#[tactic(auto, unfolding(dots_history::specs::Entries::may_repeat))]
fn has_id(key: MessageKey, id: u16) -> bool
    ensures { OnFalse result ((now at : ℕ) → may_repeat now id at key ≡ false) }
{
    match key {
        MessageKey::Http => false,
        MessageKey::Non(other) => other == id,
        MessageKey::Con(other) => other == id,
    }
}

/// Puts the slot of each message into the list.
fn put_slots(messages: &[Message], into: &mut SlotList)
    requires { length (union (slots_of messages.now) into.old.items) ≤ into.old.room }
    ensures { into.new ≡ record into.old { items = union (slots_of messages.now) into.old.items } }
{
    for message in messages {
        into.put(message.slot);
    }
}

fn renumber_messages(messages: &mut Vec<Message>, keep: &[u32])
    requires { Rises keep.now }
    ensures items { messages.new.items ≡ map (renumbered keep.now) messages.old.items }
    ensures capacity { vec_capacity messages.new ≡ vec_capacity messages.old }
{
    renumber_all(messages.as_mut_slice(), keep);
}

fn renumber_all(messages: &mut [Message], keep: &[u32])
    requires { Rises keep.now }
    ensures { messages.new ≡ map (renumbered keep.now) messages.old }
{
    for message in messages.iter_mut() {
        renumber_one(message, keep);
    }
}

fn renumber_one(message: &mut Message, keep: &[u32])
    requires { Rises keep.now }
    ensures { message.new ≡ renumbered keep.now message.old }
{
    message.slot = number_in(keep, message.slot);
}
