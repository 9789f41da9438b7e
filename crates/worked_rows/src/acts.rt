//! What a host was called for, as text.

use dots_host::{Act, OwnedOut};
use std::alloc::Global;
use std::fmt::Write;

/// Puts the line of a send.
fn push_send(alloc: Global, text: &mut String, out: &OwnedOut) -> Option<()> {
    match out {
        OwnedOut::To { peer, bytes } => {
            let digits = hex::encode(alloc, bytes.items()).ok()?;
            write!(text, "to {peer} {digits}\n").ok()
        }
        OwnedOut::Conn { conn, bytes } => {
            let digits = hex::encode(alloc, bytes.items()).ok()?;
            write!(text, "conn {conn} {digits}\n").ok()
        }
        OwnedOut::Close { conn } => write!(text, "close {conn}\n").ok(),
    }
}

/// The lines of the sends, where each was done.
pub fn sends_of(alloc: Global, acts: &[Act]) -> Option<String> {
    let mut text = String::new(alloc);
    for act in acts {
        match act {
            Act::Gave { out, done: true } => push_send(alloc, &mut text, out)?,
            Act::Gave { .. } => text.push_str("a send that is lost\n").ok()?,
            _ => {}
        }
    }
    Some(text)
}

/// How many writes and syncs there are before the first event, and behind each event.
pub fn calls_of(alloc: Global, acts: &[Act]) -> Option<String> {
    let mut text = String::new(alloc);
    let mut writes: u32 = 0;
    let mut syncs: u32 = 0;
    for act in acts {
        match act {
            Act::Took { .. } => {
                write!(text, "{writes}/{syncs} ").ok()?;
                writes = 0;
                syncs = 0;
            }
            Act::Wrote { .. } => writes = writes.saturating_add(1),
            Act::Synced { .. } => syncs = syncs.saturating_add(1),
            _ => {}
        }
    }
    Some(text)
}
