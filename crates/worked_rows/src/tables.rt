//! Runs of the program as rows of text.
//!
//! A table begins with lines that all its rows have, and the rows stand apart by an empty line. In front of a line stands its mark:
//!
//! - `$` the words of the command line
//! - `:` a line of the settings, or of the script that is checked, and `:|` its last line, which lacks its line feed; `:&` the lines
//!   of [`SETTINGS`]; `:*` a line that is repeated so many times, with the number of each from 0 on in place of `%`, or without
//!   `%` a text that is repeated in one line
//! - `<` a line of the script that is served, and `<|` its last line, which lacks its line feed; `<*` so many requests, each a
//!   message of its own; `<~` a text of HTTP that comes on a connection, in pieces as large as they may be, and `<.` one that comes byte
//!   by byte
//! - `>` a line that is sent, and `>*` the replies to so many requests; `>~` a text of HTTP that is sent on a connection
//! - `=` a line that is reported
//! - `?` the exit status, where it isn't 0
//! - `!` what fails: a `read` of the settings, or a `write` of the report, and which one
//! - `#` a remark
//!
//! A row with the size of a disk runs over a host in memory, which keeps all its calls. The others run over a script.
//!
//! - `@` the size of the disk in bytes
//! - `*` a place on the disk, and bytes that stand there before the run
//! - `+` a place on the disk, and bytes that stand there in the end
//! - `%` how many writes and syncs there are before the first event, and behind each event
//!
//! The last word of a line is names of [`NAMES`], texts that are repeated, as `3*81`, and other texts, joined by `+`, which alone stands for no
//! text. How a text of HTTP is written is said in [`http_texts`](crate::http_texts).

use crate::http_texts::{push_pieces, push_sent};
use crate::many::push_many;
use crate::texts::{NAMES, SETTINGS};
use std::alloc::Global;

/// Whether this is a mark.
fn is_mark(mark: &[u8]) -> bool {
    match mark {
        [one] => b"$:<>=?!#@*+%".contains(one),
        [b'<' | b'>', b'~'] | [b'<', b'.'] => true,
        [b':' | b'<' | b'>', how] => b"|&*".contains(how),
        _ => false,
    }
}

/// The lines of a row, with those that all rows of its table have in front.
#[derive(Clone, Copy)]
pub struct Row<'a> {
    pub lines: &'a str,
}

impl<'a> Row<'a> {
    /// Whether each line has a mark.
    pub fn is_read(self) -> bool {
        let mut all = true;
        for line in self.lines.lines() {
            let (mark, _) = line.split_once(' ').unwrap_or((line, ""));
            all &= is_mark(mark.as_bytes());
        }
        all
    }

    /// What stands behind a mark in its last line, and nothing where there is none.
    pub fn word(self, mark: &str) -> &'a str {
        let mut word = "";
        for line in self.lines.lines() {
            word = line.strip_prefix(mark).unwrap_or(word);
        }
        word
    }

    /// The number behind a mark, and 0 where there is none.
    pub fn number(self, mark: &str) -> u64 {
        match self.word(mark) {
            "" => 0,
            digits => digits.parse::<u64>().unwrap_or(u64::MAX),
        }
    }

    /// The lines behind a mark.
    pub fn text(self, alloc: Global, mark: &str) -> Option<String> {
        let mut text = String::new(alloc);
        for line in self.lines.lines() {
            if let Some(rest) = line.strip_prefix(mark) {
                push(alloc, &mut text, mark, rest)?;
            }
        }
        Some(text)
    }

    /// Whether these are the lines behind a mark.
    pub fn has(self, alloc: Global, mark: &str, bytes: &[u8]) -> bool {
        match self.text(alloc, mark) {
            Some(text) => text.as_bytes() == bytes,
            None => false,
        }
    }
}

/// Puts what stands behind the first character of a mark.
fn push(alloc: Global, text: &mut String, mark: &str, rest: &str) -> Option<()> {
    let (how, words) = rest.split_once(' ').unwrap_or((rest, ""));
    let end = if mark == "%" { " " } else { "\n" };
    match how {
        "" => push_line(text, words, end),
        "|" => text.push_str(words).ok(),
        "&" => text.push_str(SETTINGS).ok(),
        "." => push_pieces(alloc, text, words, 1),
        "~" if mark == ">" => push_sent(alloc, text, words),
        "~" => push_pieces(alloc, text, words, 4096),
        _ => push_many(text, mark, words),
    }
}

/// What a part of a word stands for: the text behind a name of these, else itself.
fn meaning<'a>(names: &'a str, part: &'a str) -> &'a str {
    for line in names.lines() {
        if let Some((name, text)) = line.split_once(' ') {
            if name == part {
                return text;
            }
        }
    }
    part
}

/// How often a part of a word stands there, and what it is: a text that is repeated, or what one of these names stands for, or itself.
pub fn repeated<'a>(names: &'a str, part: &'a str) -> (u32, &'a str) {
    if let Some((digits, text)) = part.split_once('*') {
        if let Ok(count) = digits.parse::<u32>() {
            return (count, text);
        }
    }
    (1, meaning(names, part))
}

/// Puts a line, with what its names stand for, and its end.
fn push_line(text: &mut String, line: &str, end: &str) -> Option<()> {
    let mut word = line;
    if let Some((front, last)) = line.rsplit_once(' ') {
        text.push_str(front).ok()?;
        text.push_str(" ").ok()?;
        word = last;
    }
    for part in word.split('+') {
        let (count, part) = repeated(NAMES, part);
        for _ in 0..count {
            text.push_str(part).ok()?;
        }
    }
    text.push_str(end).ok()
}
