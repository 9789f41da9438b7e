//! Texts of JSON (RFC 8259) that are read one after the other in one room.

use crate::row::Row;
use list_json::{JsonRoom, read_json};
use std::alloc::Global;

/// The value that the text is, printed, or its fault.
fn printed(alloc: Global, room: &mut JsonRoom, text: &str) -> Option<String> {
    match read_json(alloc, room, text.as_bytes()) {
        Ok(value) => value.to_string(alloc).ok(),
        Err(fault) => format!(in alloc; "{fault:?}").ok(),
    }
}

fn holds(alloc: Global, room: &mut JsonRoom, text: &str) -> bool {
    let row = Row::new(text, " = ");
    match printed(alloc, room, row.rest()) {
        Some(printed) => printed.as_str() == row.want(),
        None => false,
    }
}

/// Texts and how their values are printed. Arrays may be 127 deep.
const TEXTS: &str = r#"{"b":1,"a":[true,null]} = {"a":[true,null],"b":1}
"\u0041\ud83d\ude00\n" = "A😀\n"
{"a":1,"a":2} = {"a":2}
[18446744073709551615, -9223372036854775808, 0.5] = [18446744073709551615,-9223372036854775808,0.5]
 = NotJson
[1,] = NotJson
[1 2] = NotJson
{"a":} = NotJson
1 1 = NotJson
01 = NotJson
1e400 = NotJson
-1e400 = NotJson
"\ud800" = NotJson
 {}  = {}
[[[[[[[[[[[[[[[[[[[[[[[[[[[[[[[[[[[[[[[[[[[[[[[[[[[[[[[[[[[[[[[[[[[[[[[[[[[[[[[[[[[[[[[[[[[[[[[[[[[[[[[[[[[[[[[[[[[[[[[[[[[[[[[]]]]]]]]]]]]]]]]]]]]]]]]]]]]]]]]]]]]]]]]]]]]]]]]]]]]]]]]]]]]]]]]]]]]]]]]]]]]]]]]]]]]]]]]]]]]]]]]]]]]]]]]]]]]]]]]]]]]]]]]]]]]]]] = [[[[[[[[[[[[[[[[[[[[[[[[[[[[[[[[[[[[[[[[[[[[[[[[[[[[[[[[[[[[[[[[[[[[[[[[[[[[[[[[[[[[[[[[[[[[[[[[[[[[[[[[[[[[[[[[[[[[[[[[[[[[[[[]]]]]]]]]]]]]]]]]]]]]]]]]]]]]]]]]]]]]]]]]]]]]]]]]]]]]]]]]]]]]]]]]]]]]]]]]]]]]]]]]]]]]]]]]]]]]]]]]]]]]]]]]]]]]]]]]]]]]]]]]]]]]]]
[[[[[[[[[[[[[[[[[[[[[[[[[[[[[[[[[[[[[[[[[[[[[[[[[[[[[[[[[[[[[[[[[[[[[[[[[[[[[[[[[[[[[[[[[[[[[[[[[[[[[[[[[[[[[[[[[[[[[[[[[[[[[[[[]]]]]]]]]]]]]]]]]]]]]]]]]]]]]]]]]]]]]]]]]]]]]]]]]]]]]]]]]]]]]]]]]]]]]]]]]]]]]]]]]]]]]]]]]]]]]]]]]]]]]]]]]]]]]]]]]]]]]]]]]]]]]]]] = NotJson"#;

fn are_read_in_one_room(alloc: Global) -> bool {
    let mut room = JsonRoom::new(alloc);
    let mut right = true;
    for row in TEXTS.lines() {
        right &= holds(alloc, &mut room, row);
    }
    right
}

#[test]
fn texts_are_read_in_one_room(rt: HostRuntime) {
    assert!(rt; are_read_in_one_room(rt.alloc()));
}
