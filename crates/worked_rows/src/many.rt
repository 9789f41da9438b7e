//! Many lines of a kind.

use crate::texts::{ASK, DONE};
use std::fmt::Write;

/// A line with two digits of its turn, from 0 on, in place of `%`. A text without `%` has no line feed.
fn push_numbered(text: &mut String, turn: u32, line: &str) -> Option<()> {
    match line.split_once('%') {
        Some((front, back)) => write!(text, "{front}{turn:02}{back}\n").ok(),
        None => text.push_str(line).ok(),
    }
}

/// The line of a turn behind a mark. A request for the same mitigation comes at 1000, 1001 and so on, with the Message ID 1, 2 and so
/// on; the reply to the first is 2.01, and 2.04 to each later one.
fn push_turn(text: &mut String, mark: &str, turn: u32, line: &str) -> Option<()> {
    let at = turn.saturating_add(1000);
    let number = turn.saturating_add(1);
    let code = if turn == 0 { "5141" } else { "5144" };
    match mark {
        "<" => write!(text, "at {at} from 0 5103{number:04x}{ASK}\n").ok(),
        ">" => write!(text, "to 0 {code}{number:04x}{DONE}\n").ok(),
        _ => push_numbered(text, turn, line),
    }
}

/// So many lines behind a mark: the requests, the replies to them, or the line that stands behind the number.
pub fn push_many(text: &mut String, mark: &str, words: &str) -> Option<()> {
    let (count, line) = words.split_once(' ').unwrap_or((words, ""));
    for turn in 0..count.parse::<u32>().ok()? {
        push_turn(text, mark, turn, line)?;
    }
    Some(())
}
