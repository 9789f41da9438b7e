//! Parts of lines.

ghost use Rattle.std.specs.Prelude.{◌≡◌, ◌++◌, decimal, OnOk};
ghost use Rattle.ip_scope.specs.PrefixText.{prefix_text};
ghost use Rattle.dots_machine.specs.Report.{ports_text};

use dots_lists::NoMemory;
use ip_scope::{PortRange, Prefix, write_prefix};
use itoa::Buffer;

pub fn add_words(text: &mut Vec<u8>, words: &[u8]) -> Result<(), NoMemory>
    ensures { OnOk result (text.new.items ≡ text.old.items ++ words.now) }
{
    text.extend_from_slice(words)?;
    Ok(())
}

pub fn add_number(text: &mut Vec<u8>, number: u64) -> Result<(), NoMemory>
    ensures { OnOk result (text.new.items ≡ text.old.items ++ decimal number) }
{
    let mut buffer = Buffer::new();
    text.extend_from_slice(buffer.format(number).as_bytes())?;
    Ok(())
}

/// Adds words and a number.
pub fn add_numbered(text: &mut Vec<u8>, words: &[u8], number: u64) -> Result<(), NoMemory>
    ensures { OnOk result (text.new.items ≡ text.old.items ++ words.now ++ decimal number) }
{
    add_words(text, words)?;
    add_number(text, number)
}

pub fn add_prefix(text: &mut Vec<u8>, prefix: &Prefix) -> Result<(), NoMemory>
    ensures { OnOk result (text.new.items ≡ text.old.items ++ prefix_text prefix.now) }
{
    let mut room = [0; 43];
    let len = write_prefix(prefix, &mut room);
    text.extend_from_slice(&room[..len])?;
    Ok(())
}

/// Adds `L-U`.
pub fn add_range(text: &mut Vec<u8>, range: &PortRange) -> Result<(), NoMemory>
    ensures { OnOk result (text.new.items ≡ text.old.items ++ ports_text range.now) }
{
    add_number(text, u64::from(range.lower()))?;
    add_numbered(text, b"-", u64::from(range.upper()))
}
