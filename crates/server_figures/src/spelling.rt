//! Names in a text.

ghost use Rattle.std.specs.Prelude.{◌≡◌, ◌<◌, ◌++◌, flat_map, IfOk, OnOk};
ghost use Rattle.server_figures.specs.Lines.{hex_digit, is_unreserved, spelled_byte, spelled};

use dots_lists::NoMemory;
use std::alloc::Global;

/// The name, of which what isn't a letter, a digit, `-`, `.`, `_` or `~` is written as `%XX`.
pub fn spelled(alloc: Global, name: &[u8]) -> Result<Vec<u8>, NoMemory>
    ensures { IfOk result (λ text. text.items ≡ spelled name.now) }
{
    let mut text = Vec::new(alloc);
    add_bytes(&mut text, name)?;
    Ok(text)
}

fn add_bytes(text: &mut Vec<u8>, name: &[u8]) -> Result<(), NoMemory>
    ensures { OnOk result (text.new.items ≡ text.old.items ++ flat_map spelled_byte name.now) }
{
    for byte in name {
        add_byte(text, *byte)?;
    }
    Ok(())
}

#[tactic(auto, unfolding(crate::specs::Lines::spelled_byte))]
fn add_byte(text: &mut Vec<u8>, byte: u8) -> Result<(), NoMemory>
    ensures { OnOk result (text.new.items ≡ text.old.items ++ spelled_byte byte) }
{
    if is_unreserved(byte) {
        text.push(byte)?;
        return Ok(());
    }
    text.extend_from_slice(&[b'%', hex_digit(byte / 16), hex_digit(byte % 16)])?;
    Ok(())
}

fn is_unreserved(byte: u8) -> bool
    ensures { result ≡ is_unreserved byte }
{
    byte.is_ascii_alphanumeric()
        || (byte == b'-' || (byte == b'.' || (byte == b'_' || byte == b'~')))
}

/// The digit of a number below 16.
fn hex_digit(number: u8) -> u8
    requires { number < 16 }
    ensures { result ≡ hex_digit number }
{
    if number < 10 {
        return b'0' + number;
    }
    55 + number
}
