//! Adding to a text.

ghost use Rattle.std.specs.Prelude.{◌≡◌, ◌++◌, codes, decimal, flat_map, OnOk};

use dots_lists::NoMemory;
use itoa::Buffer;

/// Adds the pieces, one after the other.
pub fn add(text: &mut Vec<u8>, pieces: &[&[u8]]) -> Result<(), NoMemory>
    ensures { OnOk result (text.new.items ≡ text.old.items ++ flat_map (λ piece. piece.now) pieces.now) }
{
    for piece in pieces {
        text.extend_from_slice(piece)?;
    }
    Ok(())
}

/// Adds the words, a number and a colon.
pub fn add_head(text: &mut Vec<u8>, words: &[u8], number: u64) -> Result<(), NoMemory>
    ensures { OnOk result (text.new.items ≡ text.old.items ++ words.now ++ decimal number ++ codes ": ") }
{
    let mut buffer = Buffer::new();
    let pieces = [words, buffer.format(number).as_bytes(), b": ".as_slice()];
    add(text, &pieces)
}
