//! Which bytes are texts.

use dots_lists::Text;
use std::alloc::Global;

/// RFC 3629: no overlong forms, no surrogates, nothing past U+10FFFF. Bytes in hexadecimal, and whether they are a text.
const TEXTS: &str = "\
41e289a2ce912e|yes
ff|no
c080|no
eda080|no
f4908080|no";

/// Whether this is what is said of bytes in hexadecimal.
fn holds(alloc: Global, row: &str) -> Option<bool> {
    let (digits, want) = row.split_once('|')?;
    let bytes = hex::decode(alloc, digits).ok()?;
    let text = Text::new(alloc, bytes.as_slice()).ok()?;
    Some(text.is_some() == (want == "yes"))
}

#[test]
fn texts_are_utf_8(rt: HostRuntime) {
    for row in TEXTS.lines() {
        assert!(rt; holds(rt.alloc(), row) == Some(true), "at {row}");
    }
}
