//! Memory for the reply of an entry, and for the slots of a compaction, that is taken once.

ghost use Rattle.std.specs.Prelude.{◌≡◌, IfOk};
ghost use Rattle.std.specs.List.{range_with_len};
ghost use Rattle.gateway_agent.specs.Stores.{AreReplies};

use dots_lists::{Bytes, NoMemory};
use std::alloc::Global;

/// Bytes of each size that a reply may have: that of a number, and behind it a token of up to 8.
pub fn spare_replies(alloc: Global) -> Result<Vec<Bytes>, NoMemory>
    ensures { IfOk result (λ replies. AreReplies replies.items) }
{
    let zeros = [0; 16];
    let mut replies = Vec::with_capacity(alloc, 9)?;
    for token in 0..9 {
        let reply = Bytes::from_slice(alloc, &zeros[..8 + token])?;
        replies.push_reserved(reply);
    }
    Ok(replies)
}

/// The numbers of so many slots.
pub fn slot_numbers(alloc: Global, slots: u32) -> Result<Vec<u32>, NoMemory>
    ensures { IfOk result (λ numbers. numbers.items ≡ range_with_len 0 slots) }
{
    let mut numbers = Vec::with_capacity(alloc, slots as usize)?;
    for slot in 0..slots {
        numbers.push_reserved(slot);
    }
    Ok(numbers)
}
