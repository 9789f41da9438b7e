//! Hexadecimal text, and how faults are printed.

use crate::row::Row;
use crate::tables::{Rows, Worded, all_hold};
use cbor_profile::CborFault;
use coap_message::{CoapFault, Printed, lines_of};
use dots_lists::{MAX_BYTES, read_hex};
use std::alloc::Global;

/// Pairs of digits and the bytes that are read of them, and texts of which none are read.
const DIGITS: &str = "\
0aFf = 0aff
0g = none
000 = none
0x00 = none
Aa09 = aa09";

/// The bytes that are read of the digits of a row.
pub fn read(alloc: Global, row: &mut Row<'_>) -> Option<String> {
    let mut room = [0; MAX_BYTES];
    match read_hex(row.rest().as_bytes(), &mut room) {
        Some(len) => hex::encode(alloc, &room[..len]).ok(),
        None => String::from_str(alloc, "none").ok(),
    }
}

/// A fault without a place, and one deep inside, with its place.
fn are_printed(alloc: Global) -> bool {
    let deep = CoapFault::NumberTooLarge { at: 4_096 };
    match format!(in alloc; "{}; {deep}", CborFault::NoMemory) {
        Ok(text) => text.as_str() == "out of memory; an option's number is above 65535 at 4096",
        Err(_) => false,
    }
}

/// Whether an empty word is shown as one that isn't hexadecimal.
fn is_nothing_printed(alloc: Global) -> bool {
    match lines_of(alloc, b"") {
        Ok(Printed::Fault(lines)) => lines.items() == b"fault hex\n".as_slice(),
        _ => false,
    }
}

#[test]
fn digits_are_read(rt: HostRuntime) {
    assert!(rt; are_printed(rt.alloc()) && is_nothing_printed(rt.alloc()));
    all_hold(&rt, rt.alloc(), Rows::Worded(Worded::Digits), DIGITS);
}
