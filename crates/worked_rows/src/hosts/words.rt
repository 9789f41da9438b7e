//! Words, numbers and bytes of a line.

use dots_host::MAX_EVENT_BYTES;
use std::alloc::Global;

/// What is read where there is no number, and what an event has in place of one.
pub const NO_NUMBER: u64 = u64::MAX;

/// The first word, and the rest.
pub fn first_word(words: &str) -> (&str, &str) {
    words.split_once(' ').unwrap_or((words, ""))
}

/// The word at this place.
pub fn word(words: &str, place: usize) -> &str {
    words.split(' ').nth(place).unwrap_or("")
}

/// The number that the word at this place writes.
pub fn number(words: &str, place: usize) -> u64 {
    word(words, place).parse::<u64>().unwrap_or(NO_NUMBER)
}

/// The bytes of a text: `FULL` are as many as an event has at most, `LONG` one more, and behind `0x` stands hexadecimal.
pub fn bytes_of(alloc: Global, text: &str) -> Option<Vec<u8>> {
    match text {
        "FULL" => vec![in alloc; 7u8; MAX_EVENT_BYTES].ok(),
        "LONG" => vec![in alloc; 7u8; MAX_EVENT_BYTES + 1].ok(),
        _ => match text.strip_prefix("0x") {
            Some(digits) => hex::decode(alloc, digits).ok(),
            None => Vec::from_slice(alloc, text.as_bytes()).ok(),
        },
    }
}
