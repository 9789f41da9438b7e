//! Entries from words: a second, and words whose bytes make the rest of the entry's record.
//!
//! A word is a name of [`NAMES`], or digits of bytes in hexadecimal. NOW stands for the second, in eight bytes, and a prefix for what a
//! request asks that names it alone, and for its target. Entries stand apart by semicolons, and a dash stands for none.

use crate::registry::texts::NAMES;
use crate::registry::words::number;
use acl_lists::PrefixList;
use dots_history::Entry;
use dots_host::MemorySource;
use dots_lists::List;
use dots_settings::{Settings, read_settings};
use ip_scope::{Family, Prefix, parse_prefix};
use slot_journal::entry_of;
use slot_store::Format;
use std::alloc::Global;
use std::test::Fail;

pub fn settings(alloc: Global, text: &str) -> Result<Settings, Fail> {
    let mut source = MemorySource::new(alloc, text.as_bytes())?;
    match read_settings(alloc, &mut source) {
        Ok(settings) => Ok(settings),
        Err(_) => Err(Fail::from("settings")),
    }
}

/// The digits behind a name, else the word itself.
fn meaning(word: &str) -> &str {
    for line in NAMES.lines() {
        if let Some((name, digits)) = line.split_once(' ') {
            if name == word {
                return digits;
            }
        }
    }
    word
}

pub fn scope(word: &str) -> Result<Prefix, Fail> {
    match parse_prefix(word.as_bytes()) {
        Ok(prefix) => Ok(prefix),
        Err(_) => Err(Fail::from("a prefix")),
    }
}

/// A list of one prefix.
pub fn prefixes(alloc: Global, word: &str) -> Result<PrefixList, Fail> {
    let scope = scope(word)?;
    let mut prefixes = List::new(alloc);
    prefixes.push(scope)?;
    Ok(prefixes)
}

/// The bytes of a prefix: the version, the length and the lowest address.
fn prefix_bytes(prefix: Prefix) -> [u8; 18] {
    let mut bytes = [0; 18];
    bytes[0] = match prefix.family() {
        Family::V4 => 4,
        Family::V6 => 6,
    };
    bytes[1] = prefix.length();
    bytes[2..].copy_from_slice(&prefix.number().to_be_bytes());
    bytes
}

/// One prefix and nothing else is asked for, and it is the one target.
fn request_bytes(prefix: Prefix) -> [u8; 45] {
    let prefix = prefix_bytes(prefix);
    let mut bytes = [0; 45];
    bytes[0] = 1;
    bytes[1..19].copy_from_slice(&prefix);
    bytes[23] = 1;
    bytes[24] = 1;
    bytes[25..43].copy_from_slice(&prefix);
    bytes
}

fn push_bytes(bytes: &mut Vec<u8>, part: &[u8]) -> Result<(), Fail> {
    bytes.extend_from_slice(part)?;
    Ok(())
}

fn push_digits(alloc: Global, bytes: &mut Vec<u8>, digits: &str) -> Result<(), Fail> {
    let part = hex::decode(alloc, digits)?;
    push_bytes(bytes, part.as_slice())
}

fn push_word(alloc: Global, bytes: &mut Vec<u8>, second: u64, word: &str) -> Result<(), Fail> {
    if word == "NOW" {
        return push_bytes(bytes, &second.to_be_bytes());
    }
    if word.contains('/') {
        return push_bytes(bytes, &request_bytes(scope(word)?));
    }
    push_digits(alloc, bytes, meaning(word))
}

/// The bytes of these words at a second.
pub fn push_words(
    alloc: Global,
    bytes: &mut Vec<u8>,
    second: u64,
    words: &str,
) -> Result<(), Fail> {
    for word in words.split(' ') {
        push_word(alloc, bytes, second, word)?;
    }
    Ok(())
}

/// The entry of a record, at another second, which may be out of bounds.
fn entry_at(alloc: Global, second: u64, record: &[u8]) -> Result<Entry, Fail> {
    match entry_of(alloc, record, Format::One) {
        Ok(mut entry) => {
            entry.time = second;
            Ok(entry)
        }
        Err(_) => Err(Fail::from("an entry")),
    }
}

/// The entry of these words.
pub fn entry(alloc: Global, text: &str) -> Result<Entry, Fail> {
    let (second, words) = text.split_once(' ').ok_or("a second")?;
    let second = number(second)?;
    let mut record = Vec::from_slice(alloc, &[0; 8])?;
    push_words(alloc, &mut record, second, words)?;
    entry_at(alloc, second, record.as_slice())
}

/// Puts the entries of a text behind others.
pub fn push_entries(alloc: Global, entries: &mut List<Entry>, texts: &str) -> Result<(), Fail> {
    for text in texts.split("; ") {
        if text != "-" {
            entries.push(entry(alloc, text)?)?;
        }
    }
    Ok(())
}
