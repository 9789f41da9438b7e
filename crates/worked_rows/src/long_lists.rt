//! Lists that are longer than a block: sixteen mitigations of sixteen addresses each, or fifteen.

use std::alloc::Global;
use std::fmt::Write;

/// A GET or a PUT behind its Message ID, up to the cuid, and the cuid.
const PATH: &str =
    "4abb2e77656c6c2d6b6e6f776e04646f7473086d697469676174650d0e637569643d647a3670486a6141446b614654626a72304a47427077";

/// How many hexadecimal digits a block of 1,024 bytes has, and one of 64.
const LARGE: usize = 2048;

const SMALL: usize = 128;

/// Puts the bytes of a text in hexadecimal.
fn push_hex(text: &mut String, part: &str) -> Option<()> {
    for byte in part.as_bytes() {
        write!(text, "{byte:02x}").ok()?;
    }
    Some(())
}

/// Puts the address of this number of 192.0.2.0/24, as a text in CBOR.
fn push_address(alloc: Global, text: &mut String, number: u32) -> Option<()> {
    let address = format!(in alloc; "192.0.2.{number}/32").ok()?;
    let head = address.as_bytes().len().checked_add(0x60)?;
    write!(text, "{head:02x}").ok()?;
    push_hex(text, address.as_str())
}

/// Puts the array of the sixteen addresses of a mitigation.
fn push_addresses(alloc: Global, text: &mut String, turn: u8) -> Option<()> {
    let first = u32::from(turn) * 16;
    text.push_str("90").ok()?;
    for number in first..first + 16 {
        push_address(alloc, text, number)?;
    }
    Some(())
}

/// The mid of a mitigation.
fn mid_of(turn: u8) -> u32 {
    u32::from(turn) + 101
}

/// Puts the line of a request for a mitigation, the line of its reply and those that are reported of it.
fn push_request(alloc: Global, row: &mut String, turn: u8) -> Option<()> {
    let mid = mid_of(turn);
    let option = format!(in alloc; "mid={mid}").ok()?;
    write!(row, "< at 1000 from 0 510300{turn:02x}{PATH}07").ok()?;
    push_hex(row, option.as_str())?;
    row.push_str("12010fffa101a10281a206").ok()?;
    push_addresses(alloc, row, turn)?;
    write!(
        row,
        "0e190e10\n> to 0 514100{turn:02x}4ac2010fffa101a10281a20518{mid:02x}0e190e10\n"
    )
    .ok()?;
    for number in u32::from(turn) * 16..u32::from(turn) * 16 + 16 {
        write!(
            row,
            "= scrub net1 dz6pHjaADkaFTbjr0JGBpw {mid} 192.0.2.{number}/32 any any\n"
        )
        .ok()?;
    }
    Some(())
}

/// The body of a list of so many in hexadecimal, of which `head` is the array's first byte: 3600 s are left of each mitigation, which began at 1000 and
/// is being mitigated.
fn list_of(alloc: Global, head: &str, count: u8) -> Option<String> {
    let mut text = format!(in alloc; "a101a102{head}").ok()?;
    for turn in 0..count {
        let mid = mid_of(turn);
        write!(text, "a50518{mid:02x}06").ok()?;
        push_addresses(alloc, &mut text, turn)?;
        text.push_str("0e190e100f1903e81002").ok()?;
    }
    Some(text)
}

/// Puts the line of a GET with this Message ID and Block2, and that of the block that is the reply.
fn push_get(row: &mut String, id: u8, asked: &str, told: &str, block: &str) -> Option<()> {
    write!(
        row,
        "< at 1000 from 0 510100{id:02x}{PATH}{asked}\n> to 0 514500{id:02x}4ac2010f{told}ff{block}\n"
    )
    .ok()
}

/// Puts the requests for the list: without an option and for the rest of it, and for two blocks of 64 bytes.
fn push_gets(row: &mut String, list: &str) -> Option<()> {
    push_get(row, 0x20, "", "b10e", list.get(..LARGE)?)?;
    push_get(row, 0x21, "c116", "b11e", list.get(LARGE..2 * LARGE)?)?;
    push_get(row, 0x22, "c126", "b12e", list.get(2 * LARGE..3 * LARGE)?)?;
    push_get(row, 0x23, "c136", "b136", list.get(3 * LARGE..)?)?;
    push_get(row, 0x24, "c102", "b10a", list.get(..SMALL)?)?;
    push_get(row, 0x25, "c112", "b11a", list.get(SMALL..2 * SMALL)?)
}

/// The row of a run in which the mitigations are asked for and their list is read, behind the words and the settings.
pub fn long_list(alloc: Global) -> Option<String> {
    let mut row = String::new(alloc);
    for turn in 0..16 {
        push_request(alloc, &mut row, turn)?;
    }
    let list = list_of(alloc, "90", 16)?;
    push_gets(&mut row, list.as_str())?;
    Some(row)
}

/// A GET with Observe 0 and Message ID 32 of all mitigations, and the head of its reply and of the notification behind it, up to their blocks.
const OBSERVE: &str = "\
< at 1000 from 0 51010020+OBSERVE+CUID
> to 0 514500204a610162010fb10eff";

const NOTICE: &str = "> to 0 514503e84a610262010fb10eff";

/// Puts requests for what follows the first block of a list, with another token, and their replies.
fn push_rest(row: &mut String, list: &str) -> Option<()> {
    let path = PATH.get(2..)?;
    let two = list.get(LARGE..2 * LARGE)?;
    let three = list.get(2 * LARGE..3 * LARGE)?;
    let four = list.get(3 * LARGE..)?;
    write!(
        row,
        "< at 1009 from 0 510100214b{path}c116\n> to 0 514500214bc2010fb11eff{two}\n\
         < at 1009 from 0 510100224b{path}c126\n> to 0 514500224bc2010fb12eff{three}\n\
         < at 1009 from 0 510100234b{path}c136\n> to 0 514500234bc2010fb136ff{four}\n"
    )
    .ok()
}

/// The row of a run in which fifteen mitigations are observed and one more is asked for. The observer is notified of all, and fetches the
/// rest nine seconds later: it is of the same list.
pub fn long_notice(alloc: Global) -> Option<String> {
    let mut row = String::new(alloc);
    for turn in 0..15 {
        push_request(alloc, &mut row, turn)?;
    }
    let old = list_of(alloc, "8f", 15)?;
    let first = old.get(..LARGE)?;
    write!(&mut row, "{OBSERVE}{first}\n").ok()?;
    push_request(alloc, &mut row, 15)?;
    let new = list_of(alloc, "90", 16)?;
    let first = new.get(..LARGE)?;
    write!(&mut row, "{NOTICE}{first}\n").ok()?;
    push_rest(&mut row, new.as_str())?;
    Some(row)
}
