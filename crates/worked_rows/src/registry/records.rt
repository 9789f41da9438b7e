//! What the records of entries are read as.

use crate::registry::entries::push_words;
use crate::registry::spelled::Spelled;
use crate::registry::words::flag;
use dots_history::{Entry, is_within_bounds};
use slot_journal::{EntryFault, MAX_RECORD, entry_of, record_into, record_len};
use slot_store::Format;
use std::alloc::Global;
use std::test::Fail;

/// How many bytes stand in front of the change in the rows with faults.
const HEAD: usize = 23;

/// Whether the record of the entry in this format is these bytes.
fn is_record(entry: &Entry, format: Format, bytes: &[u8]) -> bool {
    if !is_within_bounds(entry) {
        return false;
    }
    let mut room = [0; MAX_RECORD];
    let count = record_len(entry, format);
    record_into(entry, format, &mut room);
    &room[..count] == bytes
}

/// Whether what is written of the entry in the other format is read as an entry with these bytes in this one.
fn is_the_same(
    alloc: Global,
    entry: &Entry,
    format: Format,
    bytes: &[u8],
) -> Result<bool, EntryFault> {
    let other = match format {
        Format::One => Format::Two,
        Format::Two => Format::One,
    };
    let mut room = [0; MAX_RECORD];
    let count = if is_within_bounds(entry) {
        record_into(entry, other, &mut room)
    } else {
        0
    };
    let again = entry_of(alloc, &room[..count], other)?;
    let is_record = is_record(&again, format, bytes);
    drop(again);
    Ok(is_record)
}

/// Whether the entry of these bytes is written as it was read, and is the same by way of the other format.
fn is_written(alloc: Global, format: Format, bytes: &[u8]) -> Result<bool, EntryFault> {
    let entry = entry_of(alloc, bytes, format)?;
    let is_written = is_record(&entry, format, bytes);
    let is_the_same = is_the_same(alloc, &entry, format, bytes);
    drop(entry);
    Ok(is_written && is_the_same?)
}

/// Whether the entry of these bytes is written as it was read, or the place of the first fault behind the head.
fn spell_read(
    alloc: Global,
    spelled: &mut Spelled,
    format: Format,
    bytes: &[u8],
) -> Result<(), Fail> {
    match is_written(alloc, format, bytes) {
        Ok(is_written) => spelled.push(flag(is_written)),
        Err(EntryFault::NotEntry { at }) if HEAD <= at => spelled.push_number((at - HEAD) as u64),
        Err(_) => return Err(Fail::from("a fault behind the head")),
    }
    Ok(())
}

fn spell_words(
    alloc: Global,
    spelled: &mut Spelled,
    format: Format,
    bytes: &mut Vec<u8>,
    words: &str,
) -> Result<(), Fail> {
    push_words(alloc, bytes, 0, words)?;
    spell_read(alloc, spelled, format, bytes.as_slice())
}

/// The same of the bytes of these words, a record of this format.
pub fn spell_record(
    alloc: Global,
    spelled: &mut Spelled,
    format: Format,
    words: &str,
) -> Result<(), Fail> {
    let mut bytes = Vec::new(alloc);
    spell_words(alloc, spelled, format, &mut bytes, words)
}
