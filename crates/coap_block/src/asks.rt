ghost use Rattle.std.specs.Prelude.{◌≡◌, [], ◌∷◌, MatchOption};
ghost use Rattle.coap_block.specs.Blocks.{asks_of, blocks_in, IsReadable};

use crate::block::BlockOption;
use crate::spelling::BLOCK2;
use coap_message::{Message, Options};

/// What a request asks of blocks.
#[derive(Clone, Copy)]
pub enum Asks {
    /// It has no Block2.
    Whole,
    /// It has one, for this block.
    Block(BlockOption),
    /// It has several, or one that can't be read.
    Neither,
}

/// The value of the next Block2.
fn next_block<'a>(options: &mut Options<'a>) -> Option<&'a [u8]>
    ensures { MatchOption result (blocks_in options.old ≡ [])
        (λ value. blocks_in options.old ≡ (record { number = 23; value = value.now }) ∷ blocks_in options.new) }
{
    while let Some(row) = options.next() {
        if row.number == BLOCK2 {
            return Some(row.value);
        }
    }
    None
}

/// What a message asks of blocks.
pub fn asks_of(message: &Message<'_>) -> Asks
    ensures value { result ≡ asks_of (blocks_in message.now.options) }
    ensures block { IsReadable result }
{
    let mut options = message.options();
    let Some(value) = next_block(&mut options) else {
        return Asks::Whole;
    };
    if next_block(&mut options).is_some() {
        return Asks::Neither;
    }
    match BlockOption::read(value) {
        Some(block) => Asks::Block(block),
        None => Asks::Neither,
    }
}
