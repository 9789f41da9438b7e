//! Items of CBOR (RFC 8949).

use crate::cbor_examples::{DETERMINISTIC, FAULTS, OTHERS, UNSUPPORTED};
use crate::row::Row;
use crate::tables::{Rows, all_hold};
use cbor_profile::{CborFault, Item, ItemList, PairList, decode, encode, is_valid};
use dots_lists::Bytes;
use std::alloc::Global;

/// The deterministic encoding of what the bytes spell.
fn written_again(alloc: Global, bytes: &[u8]) -> Result<Bytes, CborFault> {
    let item = decode(alloc, bytes)?;
    let encoding = encode(alloc, &item);
    drop(item);
    Ok(encoding?)
}

/// That in hexadecimal, or the words of the first fault.
fn worded(alloc: Global, bytes: &[u8]) -> Option<String> {
    match written_again(alloc, bytes) {
        Ok(encoding) => hex::encode(alloc, encoding.items()).ok(),
        Err(fault) => format!(in alloc; "{fault}").ok(),
    }
}

/// Whether each item in front of a row is answered with what stands behind them, or with itself where nothing does.
pub fn are_answered(alloc: Global, row: &mut Row<'_>) -> Option<bool> {
    let mut right = true;
    for digits in row.rest().split(' ') {
        let bytes = row.bytes(alloc, digits);
        let worded = worded(alloc, bytes.as_slice())?;
        right &= worded.as_str() == row.want_or(digits);
    }
    Some(right)
}

#[test]
fn items_are_read_and_written(rt: HostRuntime) {
    all_hold(&rt, rt.alloc(), Rows::Items, DETERMINISTIC);
    all_hold(&rt, rt.alloc(), Rows::Items, OTHERS);
    all_hold(&rt, rt.alloc(), Rows::Items, FAULTS);
    all_hold(&rt, rt.alloc(), Rows::Items, UNSUPPORTED);
}

/// The value beside an unsigned key of a map.
fn value_at(item: &Item, key: u64) -> Option<&Item> {
    for (other, value) in item.as_map()? {
        if other.as_unsigned() == Some(key) {
            return Some(value);
        }
    }
    None
}

/// The first value of the array beside an unsigned key of a map.
fn first_at(item: &Item, key: u64) -> Option<&Item> {
    value_at(item, key)?.as_array()?.first()
}

/// The lifetime and the first prefix of the first scope of a mitigation request.
fn first_scope(item: &Item) -> Option<(u64, &str)> {
    let scope = first_at(value_at(item, 1)?, 2)?;
    let lifetime = value_at(scope, 14)?.as_unsigned()?;
    Some((lifetime, first_at(scope, 6)?.as_text()?.as_str()))
}

/// Whether the bytes are a map, in which a mitigation request has its first scope.
fn is_request(alloc: Global, bytes: &[u8]) -> bool {
    match decode(alloc, bytes) {
        Ok(item) => matches!(first_scope(&item), Some((3600, "192.0.2.0/24"))),
        Err(_) => false,
    }
}

/// Whether an array of this one item is valid.
fn is_valid_alone(alloc: Global, item: Item) -> Option<bool> {
    let mut items = ItemList::new(alloc);
    items.push(item).ok()?;
    Some(is_valid(&Item::Array(items)))
}

/// Whether the array of the item in front of a row is `valid`, or `invalid`.
pub fn is_judged(alloc: Global, row: &mut Row<'_>) -> Option<bool> {
    let digits = row.rest();
    let bytes = row.bytes(alloc, digits);
    let item = decode(alloc, bytes.as_slice()).ok()?;
    Some(is_valid_alone(alloc, item)? == (row.want() == "valid"))
}

/// Valid items nest sixteen deep.
const ARRAYS: &str = "\
81818181818181818181818181818100 = valid
8181818181818181818181818181818100 = invalid
d818c1c1c1c1c1c1c1c1c1c1c1c1c1c100 = valid
c1c1c1c1c1c1c1c1c1c1c1c1c1c1c1c100 = invalid";

/// Whether a map of the keys in front of a row is `valid`, or `invalid`.
pub fn is_map_judged(alloc: Global, row: &mut Row<'_>) -> Option<bool> {
    let mut pairs = PairList::new(alloc);
    for word in row.rest().split(' ') {
        let key = row.read::<u64>(word);
        pairs.push((Item::Unsigned(key), Item::Null)).ok()?;
    }
    Some(is_valid(&Item::Map(pairs)) == (row.want() == "valid"))
}

/// The keys of valid items rise.
const MAPS: &str = "\
255 256 = valid
256 255 = invalid
7 7 = invalid";

#[test]
fn items_are_valid(rt: HostRuntime) {
    let request = b"\xa1\x01\xa1\x02\x81\xa2\x06\x81\x6c192.0.2.0/24\x0e\x19\x0e\x10";
    assert!(rt; is_request(rt.alloc(), request));
    all_hold(&rt, rt.alloc(), Rows::Arrays, ARRAYS);
    all_hold(&rt, rt.alloc(), Rows::Maps, MAPS);
}
