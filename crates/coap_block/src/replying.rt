//! What becomes of a reply.

ghost use Rattle.std.specs.Prelude.{◌≡◌, ◌≤◌, ◌<◌, ◌==◌, ◌&&◌, bytes_eq, List, length, find, OnOk, OnErr, if◌then◌else◌};
ghost use Rattle.std.specs.Option.{ForSome, option_copied};
ghost use Rattle.coap_message.specs.Message.{spelling};
ghost use Rattle.coap_block.specs.Blocks.{IsAnswered, Asked, answer_of, wanted_block, block_answer, later_of, head_size, stored_for, body_or, keeping, without_peer};
ghost use Rattle.coap_block.specs.Blocks.{first};
ghost use Rattle.coap_block.specs.declared.stored.StoredBody.{StoredBody};
ghost use Rattle.coap_block.specs.Knowing.{asked_with};
ghost use Rattle.coap_block.specs.Option.{IsBlock};

use crate::awaiting::Awaiting;
use crate::block::BlockOption;
use crate::cut::{begins_within, write_cut, write_plain};
use crate::room::Room;
use crate::stored::StoredBody;
use coap_message::Message;
use coap_message::codes::{BAD_REQUEST, INTERNAL_SERVER_ERROR};
use dots_lists::{Bytes, NoMemory};

/// The greatest exponent of a size.
const LARGEST: u8 = 6;

/// The most bytes of a payload that isn't cut unasked, and of what stands before a payload that is cut.
pub const MOST_WHOLE: usize = 1024;

/// The first block of 1,024 bytes, to which a payload is cut unasked.
pub const FIRST_BLOCK: BlockOption = BlockOption {
    number: 0,
    more: false,
    exponent: LARGEST,
};

/// The most peers of which a body is stored.
pub const MAX_STORED: usize = 64;

/// The block that a reply is cut to, or None where it stays whole.
fn wanted_block(asked: Option<BlockOption>, payload: &[u8]) -> Option<BlockOption>
    requires { ForSome asked IsBlock }
    ensures value { result ≡ wanted_block asked payload.now }
    ensures is { ForSome result IsBlock }
{
    if asked.is_some() {
        return asked;
    }
    if payload.len() <= MOST_WHOLE {
        return None;
    }
    Some(FIRST_BLOCK)
}

/// The body that is stored for this peer and this request.
fn stored_for<'a>(stored: &'a [StoredBody], peer: u32, request: &[u8]) -> Option<&'a StoredBody>
    ensures { option_copied result ≡ find (λ body. body.peer == peer && bytes_eq body.request request.now) stored.now }
{
    stored.iter().find(|body| body.peer == peer && body.request.items() == request)
}

/// Takes out the body of a peer.
fn retain_others(stored: &mut Vec<StoredBody>, peer: u32)
    ensures items { stored.new.items ≡ without_peer peer stored.old.items }
    ensures fewer { length stored.new.items ≤ length stored.old.items }
{
    stored.retain(|body| body.peer != peer);
}

/// Keeps a body as the one of its peer. For want of memory the peer has none.
pub fn keep(
    stored: &mut Vec<StoredBody>,
    peer: u32,
    request: &[u8],
    body: &[u8],
) -> Result<(), NoMemory>
    requires few { length stored.old.items ≤ MAX_STORED }
    ensures ok { OnOk result (stored.new.items ≡ keeping stored.old.items peer request.now body.now) }
    ensures err { OnErr result (stored.new.items ≡ without_peer peer stored.old.items) }
    ensures few { length stored.new.items ≤ MAX_STORED }
{
    retain_others(stored, peer);
    if stored.len() >= MAX_STORED {
        return Err(NoMemory);
    }
    let alloc = *stored.allocator();
    let request = Bytes::from_slice(alloc, request)?;
    let body = Bytes::from_slice(alloc, body)?;
    stored.push(StoredBody {
        peer,
        request,
        body,
    })?;
    Ok(())
}

/// Keeps the payload of a reply and cuts it to its first block, or writes that there is no memory.
fn answer_first(
    room: &mut Room,
    stored: &mut Vec<StoredBody>,
    request: &[u8],
    awaited: &Awaiting,
    message: &Message<'_>,
    block: &BlockOption,
)
    requires is { IsBlock block.now }
    requires size { block.now.exponent < 7 }
    requires head { head_size message.now ≤ MOST_WHOLE }
    requires few { length stored.old.items ≤ MAX_STORED }
    requires room { room.old.most ≡ 4096 }
    ensures answered { IsAnswered (first block.now) (asked_with request.now awaited.now) message.now
        stored.old.items room.new.filled stored.new.items }
    ensures few { length stored.new.items ≤ MAX_STORED }
    ensures most { room.new.most ≡ room.old.most }
{
    match keep(stored, awaited.peer, request, message.payload()) {
        Ok(()) => write_cut(room, message, block, message.payload()),
        Err(NoMemory) => write_plain(room, message, INTERNAL_SERVER_ERROR, &[]),
    }
}

/// Cuts a later block from the body, or refuses one that isn't there.
fn answer_later(room: &mut Room, message: &Message<'_>, block: &BlockOption, body: &[u8])
    requires is { IsBlock block.now }
    requires size { block.now.exponent < 7 }
    requires head { head_size message.now ≤ MOST_WHOLE }
    requires room { room.old.most ≡ 4096 }
    ensures answered { (asked : Asked) (stored : List StoredBody)
        → IsAnswered (later_of block.now body.now) asked message.now stored room.new.filled stored }
    ensures most { room.new.most ≡ room.old.most }
{
    if begins_within(body, block) {
        write_cut(room, message, block, body);
    } else {
        write_plain(room, message, BAD_REQUEST, b"block");
    }
}

/// Answers with a block.
fn answer_block(
    room: &mut Room,
    stored: &mut Vec<StoredBody>,
    request: &[u8],
    awaited: &Awaiting,
    message: &Message<'_>,
    block: &BlockOption,
)
    requires is { IsBlock block.now }
    requires head { head_size message.now ≤ MOST_WHOLE }
    requires few { length stored.old.items ≤ MAX_STORED }
    requires room { room.old.most ≡ 4096 }
    ensures answered { let asked = asked_with request.now awaited.now in
        let body = body_or (stored_for stored.old.items asked) message.now.payload in
        IsAnswered (block_answer block.now body) asked message.now stored.old.items room.new.filled stored.new.items }
    ensures few { length stored.new.items ≤ MAX_STORED }
    ensures most { room.new.most ≡ room.old.most }
{
    if block.exponent > LARGEST {
        write_plain(room, message, BAD_REQUEST, b"block");
        return;
    }
    if block.number == 0 {
        answer_first(room, stored, request, awaited, message, block);
        return;
    }
    let body = match stored_for(stored.as_slice(), awaited.peer, request) {
        Some(stored) => stored.body.items(),
        None => message.payload(),
    };
    answer_later(room, message, block, body);
}

/// Answers the request with the reply: whether what leaves was written, or the reply leaves as it is. It has so many bytes
/// before its payload.
pub fn answer_reply(
    room: &mut Room,
    stored: &mut Vec<StoredBody>,
    request: &[u8],
    awaited: &Awaiting,
    message: &Message<'_>,
    before: usize,
) -> bool
    requires block { ForSome awaited.now.block IsBlock }
    requires before { before ≡ head_size message.now }
    requires few { length stored.old.items ≤ MAX_STORED }
    requires room { room.old.most ≡ 4096 }
    ensures answered { let asked = asked_with request.now awaited.now in
        IsAnswered (answer_of stored.old.items asked message.now) asked message.now stored.old.items
        (if result then room.new.filled else spelling message.now) stored.new.items }
    ensures few { length stored.new.items ≤ MAX_STORED }
    ensures most { room.new.most ≡ room.old.most }
{
    if before > MOST_WHOLE {
        return false;
    }
    match wanted_block(awaited.block, message.payload()) {
        Some(block) => {
            answer_block(room, stored, request, awaited, message, &block);
            true
        }
        None => false,
    }
}
