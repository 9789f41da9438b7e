ghost use Rattle.std.specs.Prelude.{◌≡◌, ◌≤◌, ℕ, List, length, option_map, Some, true, false, IfSome, IfNone, if◌then◌else◌};
ghost use Rattle.coap_block.specs.declared.awaiting.Awaiting as awaiting;
ghost use Rattle.std.specs.Option.{ForSome};
ghost use Rattle.coap_message.specs.Message.{spelling};
ghost use Rattle.coap_block.specs.Blocks.{awaited_by, asked_for, is_reply, seen_of};
ghost use Rattle.coap_block.specs.Knowing.{asked_with, AsksBlock};
ghost use Rattle.coap_block.specs.Option.{IsBlock};

use crate::asks::{Asks, asks_of};
use crate::block::BlockOption;
use crate::cut::{write_request, write_without_block};
use crate::room::Room;
use coap_message::codes::{CONTENT, GET};
use coap_message::{Message, Token};

/// A GET whose reply is awaited.
#[derive(Clone, Copy)]
pub struct Awaiting {
    pub peer: u32,
    /// The Message ID.
    pub id: u16,
    pub token: Token,
    pub block: Option<BlockOption>,
}

impl Awaiting {
    /// Whether the message is the reply, where it is sent to this peer.
    pub fn is_reply(&self, peer: u32, message: &Message<'_>) -> bool
        ensures { (request : List ℕ) → result ≡ is_reply (asked_with request self.now) peer message.now }
    {
        self.peer == peer
            && message.code() == CONTENT
            && message.id() == self.id
            && message.token() == self.token.bytes()
    }
}

/// The GET that is awaited, where the message to the peer is its reply.
pub fn replied(awaited: Option<Awaiting>, peer: u32, message: &Message<'_>) -> Option<Awaiting>
    ensures some { IfSome result (λ one. (awaited ≡ Some one)
        × ((request : List ℕ) → is_reply (asked_with request one) peer message.now ≡ true)) }
    ensures none { IfNone result ((one : awaiting.Awaiting) (request : List ℕ) → awaited ≡ Some one
        → is_reply (asked_with request one) peer message.now ≡ false) }
{
    let one = awaited?;
    if !one.is_reply(peer, message) {
        return None;
    }
    Some(one)
}

/// The reply to a message is awaited from now on.
fn await_reply(
    request: &mut Room,
    peer: u32,
    message: &Message<'_>,
    block: Option<BlockOption>,
) -> Option<Awaiting>
    requires size { length (spelling message.now) ≤ request.old.most }
    requires block { ForSome block IsBlock }
    ensures awaits { option_map (asked_with request.new.filled) result ≡ Some (asked_for peer message.now block) }
    ensures block { AsksBlock result }
    ensures most { request.new.most ≡ request.old.most }
{
    write_request(request, message);
    let token = Token::new(message.token())?;
    Some(Awaiting {
        peer,
        id: message.id(),
        token,
        block,
    })
}

/// A message came: what is awaited after it, and whether it is seen as it was written, or as it is.
pub fn see_message(
    room: &mut Room,
    request: &mut Room,
    peer: u32,
    message: &Message<'_>,
) -> (Option<Awaiting>, bool)
    requires room { length (spelling message.now) ≤ room.old.most }
    requires request { length (spelling message.now) ≤ request.old.most }
    ensures seen { spelling (seen_of message.now) ≡ (if result.1 then room.new.filled else spelling message.now) }
    ensures awaits { option_map (asked_with request.new.filled) result.0 ≡ awaited_by peer message.now }
    ensures block { AsksBlock result.0 }
    ensures room { room.new.most ≡ room.old.most }
    ensures request { request.new.most ≡ request.old.most }
{
    if message.code() != GET {
        return (None, false);
    }
    match asks_of(message) {
        Asks::Whole => (await_reply(request, peer, message, None), false),
        Asks::Block(block) => {
            write_without_block(room, message);
            (await_reply(request, peer, message, Some(block)), true)
        }
        Asks::Neither => (None, false),
    }
}
