//! Laws about blocks. No program needs to call these functions.

ghost use Rattle.std.specs.Prelude.{◌≡◌, ◌≤◌, [], length, List, ℕ};
ghost use Rattle.coap_message.specs.Message.{CoapMessage, IsMessage};
ghost use Rattle.coap_block.specs.declared.asks.Asks.TheVariants as asks;
ghost use Rattle.coap_block.specs.declared.block.BlockOption.{BlockOption};
ghost use Rattle.coap_block.specs.Blocks.{asks_of, blocks_in, cut_to, follows};
ghost use Rattle.coap_block.specs.Option.{IsBlock, block_of, block_number, shortest};

/// The value that is written of a block is read as that block.
pub fn value_again()
    ensures { (block : BlockOption) → IsBlock block → block_of (shortest (block_number block)) ≡ block }
{}

/// A reply that is cut is a message again, whose one Block2 is that of the block, and says that more follow exactly where
/// bytes of the body do.
pub fn cut_is_message()
    ensures is { (message : CoapMessage) (block : BlockOption) (body : List ℕ)
        → IsMessage message → IsBlock block → message.code ≡ 69 → IsMessage (cut_to message block body) }
    ensures block { (message : CoapMessage) (block : BlockOption) (body : List ℕ)
        → IsBlock block → blocks_in message.options ≡ []
        → asks_of (blocks_in (cut_to message block body).options) ≡ asks.Block (record block { more = follows body block }) }
{}
