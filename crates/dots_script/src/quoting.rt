//! Fields in quotation marks.

ghost use Rattle.std.specs.Prelude.{◌≡◌, ◌<◌, ◌++◌, codes, length, take, flat_map, OnOk};
ghost use Rattle.dots_script.specs.Quoting.{escaped, hex_digit, in_quotes, quoted};

use dots_lists::NoMemory;

/// The most bytes of a field that are shown.
const MOST_QUOTED: usize = 128;

/// Adds the field in quotation marks, its first 128 bytes alone where it has more.
pub fn add_quoted(text: &mut Vec<u8>, field: &[u8]) -> Result<(), NoMemory>
    ensures { OnOk result (text.new.items ≡ text.old.items ++ quoted field.now) }
{
    if field.len() <= MOST_QUOTED {
        return add_in_quotes(text, field);
    }
    add_in_quotes(text, front_of(field))?;
    text.extend_from_slice(b"...")?;
    Ok(())
}

/// Adds the field in quotation marks, and ends the line.
pub fn end_quoted(text: &mut Vec<u8>, field: &[u8]) -> Result<(), NoMemory>
    ensures { OnOk result (text.new.items ≡ text.old.items ++ quoted field.now ++ codes "\n") }
{
    add_quoted(text, field)?;
    text.extend_from_slice(b"\n")?;
    Ok(())
}

/// The bytes that are shown of a longer field.
fn front_of(field: &[u8]) -> &[u8]
    requires { 128 < length field.now }
    ensures { result.now ≡ take 128 field.now }
{
    &field[..MOST_QUOTED]
}

fn add_in_quotes(text: &mut Vec<u8>, bytes: &[u8]) -> Result<(), NoMemory>
    ensures { OnOk result (text.new.items ≡ text.old.items ++ in_quotes bytes.now) }
{
    text.push(b'"')?;
    add_escaped(text, bytes)?;
    text.push(b'"')?;
    Ok(())
}

fn add_escaped(text: &mut Vec<u8>, bytes: &[u8]) -> Result<(), NoMemory>
    ensures { OnOk result (text.new.items ≡ text.old.items ++ flat_map escaped bytes.now) }
{
    for byte in bytes {
        add_byte(text, *byte)?;
    }
    Ok(())
}

fn add_byte(text: &mut Vec<u8>, byte: u8) -> Result<(), NoMemory>
    ensures { OnOk result (text.new.items ≡ text.old.items ++ escaped byte) }
{
    if byte == b'"' || byte == b'\\' {
        text.extend_from_slice(&[b'\\', byte])?;
        return Ok(());
    }
    if byte >= b' ' && byte <= b'~' {
        text.push(byte)?;
        return Ok(());
    }
    text.extend_from_slice(&[b'\\', b'x', hex_digit(byte / 16), hex_digit(byte % 16)])?;
    Ok(())
}

/// The digit of a number below 16.
fn hex_digit(number: u8) -> u8
    requires { number < 16 }
    ensures { result ≡ hex_digit number }
{
    if number < 10 {
        return b'0' + number;
    }
    87 + number
}
