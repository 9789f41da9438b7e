ghost use Rattle.std.specs.Prelude.{◌≡◌, ◌≤◌, ◌+◌, ℕ, length};
ghost use Rattle.coap_message.specs.Message.{nibble, extension, option_bytes};
ghost use Rattle.coap_message.specs.CodeValues.{option_value};
ghost use Rattle.coap_message.specs.Writing.{put_at};

use crate::option::OptionRow;

/// Writes the bytes at a place, and answers the place behind them.
pub(crate) fn put(into: &mut [u8], at: usize, bytes: &[u8]) -> usize
    requires { at + length bytes.now ≤ length into.old }
    ensures behind { result ≡ at + length bytes.now }
    ensures written { into.new ≡ put_at at bytes.now into.old }
{
    let behind = at + bytes.len();
    into[at..behind].copy_from_slice(bytes);
    behind
}

fn nibble_of(number: usize) -> u8
    ensures value { result ≡ nibble number }
    ensures bound { result ≤ 14 }
{
    if number < 13 {
        number as u8
    } else if number < 269 {
        13
    } else {
        14
    }
}

/// How many bytes the extension of a delta or a length has.
pub(crate) fn extension_len(number: usize) -> usize
    ensures value { result ≡ length (extension number) }
    ensures bound { result ≤ 2 }
{
    if number < 13 {
        0
    } else if number < 269 {
        1
    } else {
        2
    }
}

fn put_extension(into: &mut [u8], at: usize, number: usize) -> usize
    requires bound { number ≤ 65804 }
    requires room { at + length (extension number) ≤ length into.old }
    ensures behind { result ≡ at + length (extension number) }
    ensures written { into.new ≡ put_at at (extension number) into.old }
{
    if number < 13 {
        put(into, at, &[])
    } else if number < 269 {
        put(into, at, &[(number - 13) as u8])
    } else {
        put(into, at, &((number - 269) as u16).to_be_bytes())
    }
}

/// Writes an option behind one with the number `previous`.
pub(crate) fn put_option(into: &mut [u8], at: usize, previous: u16, row: &OptionRow) -> usize
    requires rises { previous ≤ row.now.number }
    requires size { length row.now.value.now ≤ 65804 }
    requires room { at + length (option_bytes previous (option_value row.now)) ≤ length into.old }
    ensures behind { result ≡ at + length (option_bytes previous (option_value row.now)) }
    ensures written { into.new ≡ put_at at (option_bytes previous (option_value row.now)) into.old }
{
    let delta = (row.number - previous) as usize;
    let first = 16 * nibble_of(delta) + nibble_of(row.value.len());
    let behind = put(into, at, &[first]);
    let behind = put_extension(into, behind, delta);
    let behind = put_extension(into, behind, row.value.len());
    put(into, behind, row.value)
}
