//! A reply that is cut, and those that stand in for one.

ghost use Rattle.std.specs.Prelude.{◌≡◌, ◌≤◌, ◌<◌, ◌+◌, ◌*◌, ◌++◌, ◌^◌, [], length};
ghost use Rattle.coap_message.specs.Message.{options_bytes, spelling};
ghost use Rattle.coap_block.specs.Blocks.{with_block, cut_to, head_size, part_of, follows, begins_within};
ghost use Rattle.coap_block.specs.Option.{IsBlock, block_size};
ghost use Rattle.coap_block.specs.Spelling.{among};
ghost use Rattle.coap_block.specs.declared.spelling.Which.TheVariants as which;

use crate::block::BlockOption;
use crate::room::Room;
use crate::spelling::{BLOCK2, Which, put_head, put_option, put_options, put_payload};
use coap_message::Message;

/// The place at which a block begins.
fn start_of(block: &BlockOption) -> usize
    requires is { IsBlock block.now }
    requires size { block.now.exponent < 7 }
    ensures value { result ≡ block.now.number * block_size block.now.exponent }
    ensures bound { result < 2 ^ 31 }
{
    block.number as usize * block.size()
}

/// Whether the block begins before the body's end.
pub fn begins_within(body: &[u8], block: &BlockOption) -> bool
    requires is { IsBlock block.now }
    requires size { block.now.exponent < 7 }
    ensures { result ≡ begins_within body.now block.now }
{
    start_of(block) < body.len()
}

/// The part of a body that a block is.
fn part_of<'a>(body: &'a [u8], block: &BlockOption) -> &'a [u8]
    requires is { IsBlock block.now }
    requires size { block.now.exponent < 7 }
    ensures value { result.now ≡ part_of body.now block.now }
    ensures bound { length result.now ≤ 1024 }
{
    let start = start_of(block).min(body.len());
    let end = (start + block.size()).min(body.len());
    &body[start..end]
}

/// Whether bytes of the body follow a block.
fn follows(body: &[u8], block: &BlockOption) -> bool
    requires is { IsBlock block.now }
    requires size { block.now.exponent < 7 }
    ensures { result ≡ follows body.now block.now }
{
    start_of(block) + block.size() < body.len()
}

/// Writes the options of a message with a Block2 among them.
fn put_with_block(room: &mut Room, message: &Message<'_>, block: &BlockOption)
    requires is { IsBlock block.now }
    requires room { length room.old.filled + 3 * length (options_bytes 0 message.now.options) + 6 ≤ room.old.most }
    ensures { room.new ≡ record room.old {
      filled = room.old.filled
          ++ options_bytes 0 (with_block message.now.options block.now);
    } }
{
    let mut options = message.options();
    let last = put_options(room, 0, &mut options, Which::UpToBlock);
    let value = block.value();
    put_option(room, last, BLOCK2, value.bytes());
    let mut options = message.options();
    put_options(room, BLOCK2, &mut options, Which::BehindBlock);
}

/// Writes the reply cut to a block of the body.
pub fn write_cut(room: &mut Room, message: &Message<'_>, block: &BlockOption, body: &[u8])
    requires is { IsBlock block.now }
    requires size { block.now.exponent < 7 }
    requires head { head_size message.now ≤ 1024 }
    requires room { room.old.most ≡ 4096 }
    ensures { room.new ≡ record room.old { filled = spelling (cut_to message.now block.now body.now) } }
{
    let answered = BlockOption {
        number: block.number,
        more: follows(body, block),
        exponent: block.exponent,
    };
    room.clear();
    put_head(room, message, message.code());
    put_with_block(room, message, &answered);
    put_payload(room, part_of(body, block));
}

/// Writes a reply of this code without options, in place of a message.
pub fn write_plain(room: &mut Room, message: &Message<'_>, code: u8, text: &[u8])
    requires text { length text.now ≤ 28 }
    requires head { head_size message.now ≤ 1024 }
    requires room { room.old.most ≡ 4096 }
    ensures { room.new ≡ record room.old { filled = spelling (record message.now { code = code; options = []; payload = text.now }) } }
{
    room.clear();
    put_head(room, message, code);
    put_payload(room, text);
}

/// Writes a message without its Block2.
pub fn write_without_block(room: &mut Room, message: &Message<'_>)
    requires size { length (spelling message.now) ≤ room.old.most }
    ensures { room.new ≡ record room.old { filled = spelling (record message.now { options = among which.ButBlock message.now.options }) } }
{
    room.clear();
    put_head(room, message, message.code());
    let mut options = message.options();
    put_options(room, 0, &mut options, Which::ButBlock);
    put_payload(room, message.payload());
}

/// Writes the path and the query of a message, spelled as options.
pub fn write_request(room: &mut Room, message: &Message<'_>)
    requires size { length (spelling message.now) ≤ room.old.most }
    ensures { room.new ≡ record room.old { filled = options_bytes 0 (among which.PathAndQuery message.now.options) } }
{
    room.clear();
    let mut options = message.options();
    put_options(room, 0, &mut options, Which::PathAndQuery);
}
