//! Reading an item from any of its spellings.

ghost use Rattle.std.specs.Prelude.{◌≡◌, ◌≢◌, ◌≤◌, ◌<◌, ◌+◌, ◌^◌, ◌⊎◌, ℕ, List, [], length, map, IfOk, OnOk, IfErr, Ok, Err, Some};
ghost use Rattle.std.specs.List.{AllByRecursion};
ghost use Rattle.cbor_profile.specs.declared.fault.CborFault.{CborFault};
ghost use Rattle.cbor_profile.specs.declared.fault.CborFault.TheVariants.{NoMemory};
ghost use Rattle.cbor_profile.specs.Tree.{Tree, pairs_of};
ghost use Rattle.cbor_profile.specs.Valid.{IsValid, IsSound, KeysRise};
ghost use Rattle.cbor_profile.specs.ItemReading.{item_read, Gives, simple, items_at, pair_at, pairs_at, as_array, as_map, array_at, map_at, tag_at, open_array_at, open_map_at, value_at, indefinite_at, item_at, parts_of, whole};
ghost use Rattle.cbor_profile.specs.ItemTrees.{tree_of, tree_pairs};
ghost use Rattle.cbor_profile.specs.Gathering.{gathered, IsGathered};
ghost use Rattle.cbor_profile.specs.Spelling.{Spells};
ghost use Rattle.cbor_profile.specs.Breaking.{Refuses};

use crate::argument::read_argument;
use crate::fault::CborFault;
use crate::gathering::{Gathered, comes_last, compare_to_last};
use crate::head::{BREAK, Start, start_of};
use crate::head_bytes::{FALSE, TRUE};
use crate::item::{Item, ItemList, PairList};
use crate::major::Major;
use crate::strings::{read_byte_parts, read_byte_string, read_text, read_text_parts};
use std::alloc::Global;
use std::cmp::Ordering;

/// How deep the arrays, maps and tags of a valid item nest at most.
pub const MAX_DEPTH: u8 = 16;

/// An item that is all of the bytes, as `whole` reads it.
#[tactic(auto, unfolding(crate::specs::ItemReading::whole))]
fn read_whole(alloc: Global, bytes: &[u8]) -> Result<Item, CborFault>
    ensures { Gives tree_of result (whole bytes.now) }
{
    let (item, rest) = read_item(alloc, bytes.len(), bytes, MAX_DEPTH)?;
    if !rest.is_empty() {
        return Err(CborFault::Trailing {
            at: bytes.len() - rest.len(),
        });
    }
    Ok(item)
}

/// The item at the front, which nests at most `levels` deep, and the bytes behind it. The input ends at the place
/// `end`. Most keys and many values are numbers below 24, whose item is their byte.
#[cycle(reader)]
#[inline(always)]
fn read_item(
    alloc: Global,
    end: usize,
    bytes: &[u8],
    levels: u8,
) -> Result<(Item, &[u8]), CborFault>
    requires { length bytes.now ≤ end }
    ensures value { Gives item_read result (item_at levels end bytes.now) }
    ensures sound { IfOk result (λ read. IsSound (tree_of read.0)) }
    ensures shorter { IfOk result (λ read. length read.1.now ≤ length bytes.now) }
{
    match bytes.split_first() {
        Some((first, rest)) if *first < 24 => Ok((Item::Unsigned(*first as u64), rest)),
        _ => read_long_item(alloc, end, bytes, levels),
    }
}

/// The same, by way of what the first byte begins.
#[cycle(reader)]
#[tactic(auto, unfolding(crate::specs::ItemReading::item_with, crate::specs::ItemReading::begun_at))]
fn read_long_item(
    alloc: Global,
    end: usize,
    bytes: &[u8],
    levels: u8,
) -> Result<(Item, &[u8]), CborFault>
    requires { length bytes.now ≤ end }
    ensures value { Gives item_read result (item_at levels end bytes.now) }
    ensures shorter { IfOk result (λ read. length read.1.now ≤ length bytes.now) }
{
    let Some((first, rest)) = bytes.split_first() else {
        return Err(CborFault::Short { at: end });
    };
    let at = end - bytes.len();
    match start_of(*first) {
        Start::Value(major, info) => read_value(alloc, end, at, major, info, rest, levels),
        Start::Indefinite(major) => read_indefinite(alloc, end, at, major, rest, levels),
        Start::Reserved => Err(CborFault::Reserved { at }),
        Start::Unsupported => Err(CborFault::Unsupported { at }),
    }
}

/// The item whose initial byte has this major type and additional information, and stands at the place `at`.
#[cycle(reader)]
#[tactic(auto, unfolding(crate::specs::ItemReading::value_at))]
fn read_value(
    alloc: Global,
    end: usize,
    at: usize,
    major: Major,
    info: u8,
    bytes: &[u8],
    levels: u8,
) -> Result<(Item, &[u8]), CborFault>
    requires { length bytes.now ≤ end }
    ensures value { Gives item_read result (value_at (parts_of levels end) end at major info bytes.now) }
    ensures shorter { IfOk result (λ read. length read.1.now ≤ length bytes.now) }
{
    match major {
        Major::Unsigned => {
            let (number, rest) = read_argument(end, info, bytes)?;
            Ok((Item::Unsigned(number), rest))
        }
        Major::Negative => {
            let (number, rest) = read_argument(end, info, bytes)?;
            Ok((Item::Negative(number), rest))
        }
        Major::Bytes => read_byte_string(alloc, end, at, info, bytes),
        Major::Text => read_text(alloc, end, at, info, bytes),
        Major::Array if levels > 0 => read_array(alloc, end, info, bytes, levels - 1),
        Major::Map if levels > 0 => read_map(alloc, end, info, bytes, levels - 1),
        Major::Tag if levels > 0 => read_tag(alloc, end, info, bytes, levels - 1),
        Major::Array | Major::Map | Major::Tag => Err(CborFault::Deep { at }),
        Major::Simple => Ok((simple_item(info), bytes)),
    }
}

/// The simple value of this number: false, true or null (RFC 8949, section 3.3).
fn simple_item(number: u8) -> Item
    ensures { tree_of result ≡ simple number }
{
    match number as u64 {
        FALSE => Item::Bool(false),
        TRUE => Item::Bool(true),
        _ => Item::Null,
    }
}

/// The item of indefinite length of this major type, behind its initial byte.
#[cycle(reader)]
#[tactic(auto, unfolding(crate::specs::ItemReading::indefinite_at))]
fn read_indefinite(
    alloc: Global,
    end: usize,
    at: usize,
    major: Major,
    bytes: &[u8],
    levels: u8,
) -> Result<(Item, &[u8]), CborFault>
    requires { length bytes.now ≤ end }
    ensures value { Gives item_read result (indefinite_at (parts_of levels end) end at major bytes.now) }
    ensures shorter { IfOk result (λ read. length read.1.now ≤ length bytes.now) }
{
    match major {
        Major::Bytes => read_byte_parts(alloc, end, bytes),
        Major::Text => read_text_parts(alloc, end, bytes),
        Major::Array if levels > 0 => read_open_array(alloc, end, bytes, levels - 1),
        Major::Map if levels > 0 => read_open_map(alloc, end, bytes, levels - 1),
        Major::Array | Major::Map => Err(CborFault::Deep { at }),
        _ => Err(CborFault::Reserved { at }),
    }
}

/// For how many of so many parts room is made at first: each takes a byte at least, and most lists are short.
fn first_room(count: u64, bytes: &[u8]) -> usize
    ensures { result ≤ 16 }
{
    count.min(bytes.len() as u64).min(16) as usize
}

#[cycle(reader)]
fn read_array(
    alloc: Global,
    end: usize,
    info: u8,
    bytes: &[u8],
    levels: u8,
) -> Result<(Item, &[u8]), CborFault>
    requires { length bytes.now ≤ end }
    ensures value { Gives item_read result (array_at (item_at levels end) end info bytes.now) }
    ensures shorter { IfOk result (λ read. length read.1.now ≤ length bytes.now) }
{
    let (count, rest) = read_argument(end, info, bytes)?;
    read_items(alloc, end, count, rest, levels)
}

/// The array of so many items.
#[cycle(reader)]
fn read_items(
    alloc: Global,
    end: usize,
    count: u64,
    bytes: &[u8],
    levels: u8,
) -> Result<(Item, &[u8]), CborFault>
    requires { length bytes.now ≤ end }
    ensures value { Gives item_read result (as_array (items_at (item_at levels end) count bytes.now)) }
    ensures shorter { IfOk result (λ read. length read.1.now ≤ length bytes.now) }
{
    let mut items = ItemList::with_room(alloc, first_room(count, bytes))?;
    let mut rest = bytes;
    for _ in 0..count {
        let (item, after) = read_item(alloc, end, rest, levels)?;
        items = items.with_room_for_one()?;
        items.push_within(item);
        rest = after;
    }
    Ok((Item::Array(items), rest))
}

#[cycle(reader)]
fn read_tag(
    alloc: Global,
    end: usize,
    info: u8,
    bytes: &[u8],
    levels: u8,
) -> Result<(Item, &[u8]), CborFault>
    requires { length bytes.now ≤ end }
    ensures value { Gives item_read result (tag_at (item_at levels end) end info bytes.now) }
    ensures shorter { IfOk result (λ read. length read.1.now ≤ length bytes.now) }
{
    let (number, rest) = read_argument(end, info, bytes)?;
    let (item, rest) = read_item(alloc, end, rest, levels)?;
    Ok((Item::Tag(number, Box::new(alloc, item)?), rest))
}

/// The array of the items up to the end of an indefinite length. Each takes a byte at least.
#[cycle(reader)]
fn read_open_array(
    alloc: Global,
    end: usize,
    bytes: &[u8],
    levels: u8,
) -> Result<(Item, &[u8]), CborFault>
    requires { length bytes.now ≤ end }
    ensures value { Gives item_read result (open_array_at (item_at levels end) end bytes.now) }
    ensures shorter { IfOk result (λ read. length read.1.now ≤ length bytes.now) }
{
    let mut items = ItemList::new(alloc);
    let mut rest = bytes;
    for _ in 0..bytes.len() {
        let Some((first, behind)) = rest.split_first() else {
            return Err(CborFault::Short { at: end });
        };
        if *first == BREAK {
            return Ok((Item::Array(items), behind));
        }
        let (item, after) = read_item(alloc, end, rest, levels)?;
        items.push(item)?;
        rest = after;
    }
    Err(CborFault::Short { at: end })
}

#[cycle(reader)]
fn read_map(
    alloc: Global,
    end: usize,
    info: u8,
    bytes: &[u8],
    levels: u8,
) -> Result<(Item, &[u8]), CborFault>
    requires { length bytes.now ≤ end }
    ensures value { Gives item_read result (map_at (item_at levels end) end info bytes.now) }
    ensures shorter { IfOk result (λ read. length read.1.now ≤ length bytes.now) }
{
    let (count, rest) = read_argument(end, info, bytes)?;
    read_pairs(alloc, end, count, rest, levels)
}

/// The map of so many pairs, in the order of their keys. Most keys are numbers below 24, each after the last.
#[cycle(reader)]
fn read_pairs(
    alloc: Global,
    end: usize,
    count: u64,
    bytes: &[u8],
    levels: u8,
) -> Result<(Item, &[u8]), CborFault>
    requires { length bytes.now ≤ end }
    ensures value { Gives item_read result (as_map (pairs_at (item_at levels end) end count [] bytes.now)) }
    ensures shorter { IfOk result (λ read. length read.1.now ≤ length bytes.now) }
{
    let mut pairs = PairList::with_room(alloc, first_room(count, bytes))?;
    let mut rest = bytes;
    for done in 0..count {
        match rest.split_first() {
            Some((first, after_key)) if *first < 24 && comes_last(pairs.items(), *first as u64) => {
                let (value, after) = read_item(alloc, end, after_key, levels)?;
                pairs = pairs.with_room_for_one()?;
                pairs.push_within((Item::Unsigned(*first as u64), value));
                rest = after;
            }
            _ => return read_other_pairs(alloc, end, count - done, pairs, rest, levels),
        }
    }
    Ok((Item::Map(pairs), rest))
}

/// The map with so many pairs more, in the order of their keys. Senders mostly put them so, and then each comes behind the last.
#[cycle(reader)]
#[inline(never)]
fn read_other_pairs(
    alloc: Global,
    end: usize,
    count: u64,
    pairs: PairList,
    bytes: &[u8],
    levels: u8,
) -> Result<(Item, &[u8]), CborFault>
    requires within { length bytes.now ≤ end }
    requires rise { KeysRise (pairs_of (tree_pairs pairs)) }
    requires sound { AllByRecursion (λ p. IsSound p.0) (tree_pairs pairs) }
    ensures value { Gives item_read result (as_map (pairs_at (item_at levels end) end count (tree_pairs pairs) bytes.now)) }
    ensures shorter { IfOk result (λ read. length read.1.now ≤ length bytes.now) }
{
    let mut pairs = pairs;
    let mut rest = bytes;
    for done in 0..count {
        let (key, after_key) = read_item(alloc, end, rest, levels)?;
        match compare_to_last(pairs.items(), &key) {
            Ordering::Less => {
                let (value, after) = read_item(alloc, end, after_key, levels)?;
                pairs.push((key, value))?;
                rest = after;
            }
            Ordering::Equal => {
                return Err(CborFault::Duplicate {
                    at: end - rest.len(),
                });
            }
            Ordering::Greater => {
                return read_late_pairs(alloc, end, count - done, pairs, rest, levels);
            }
        }
    }
    Ok((Item::Map(pairs), rest))
}

/// The map with so many pairs more, whose keys may come in any order.
#[cycle(reader)]
#[cold]
#[inline(never)]
fn read_late_pairs(
    alloc: Global,
    end: usize,
    count: u64,
    pairs: PairList,
    bytes: &[u8],
    levels: u8,
) -> Result<(Item, &[u8]), CborFault>
    requires within { length bytes.now ≤ end }
    requires rise { KeysRise (pairs_of (tree_pairs pairs)) }
    requires sound { AllByRecursion (λ p. IsSound p.0) (tree_pairs pairs) }
    ensures value { Gives item_read result (as_map (pairs_at (item_at levels end) end count (tree_pairs pairs) bytes.now)) }
    ensures shorter { IfOk result (λ read. length read.1.now ≤ length bytes.now) }
{
    let mut pairs = Gathered::Rising(pairs);
    let mut rest = bytes;
    for _ in 0..count {
        let after = read_pair(alloc, end, &mut pairs, rest, levels)?;
        rest = after;
    }
    Ok((Item::Map(pairs.into_list(alloc)?), rest))
}

/// The map of the pairs up to the end of an indefinite length, in the order of their keys. Each takes a byte at least.
#[cycle(reader)]
fn read_open_map(
    alloc: Global,
    end: usize,
    bytes: &[u8],
    levels: u8,
) -> Result<(Item, &[u8]), CborFault>
    requires { length bytes.now ≤ end }
    ensures value { Gives item_read result (open_map_at (item_at levels end) end bytes.now) }
    ensures shorter { IfOk result (λ read. length read.1.now ≤ length bytes.now) }
{
    let mut pairs = Gathered::new(alloc);
    let mut rest = bytes;
    for _ in 0..bytes.len() {
        let Some((first, behind)) = rest.split_first() else {
            return Err(CborFault::Short { at: end });
        };
        if *first == BREAK {
            return Ok((Item::Map(pairs.into_list(alloc)?), behind));
        }
        let after = read_pair(alloc, end, &mut pairs, rest, levels)?;
        rest = after;
    }
    Err(CborFault::Short { at: end })
}

/// Puts the next pair in its place among those before it, and answers the bytes behind it.
#[cycle(reader)]
#[tactic(auto, unfolding(crate::specs::ItemReading::pair_at))]
fn read_pair<'a>(
    alloc: Global,
    end: usize,
    pairs: &mut Gathered,
    bytes: &'a [u8],
    levels: u8,
) -> Result<&'a [u8], CborFault>
    requires within { length bytes.now ≤ end }
    requires gathered { IsGathered pairs.old }
    ensures value { Gives (λ rest. (gathered pairs.new, rest.now)) result (pair_at (item_at levels end) end (gathered pairs.old) bytes.now) }
    ensures gathered { OnOk result (IsGathered pairs.new) }
    ensures shorter { IfOk result (λ rest. length rest.now ≤ length bytes.now) }
{
    let (key, after_key) = read_item(alloc, end, bytes, levels)?;
    let Some(place) = pairs.find_place(alloc, &key)? else {
        return Err(CborFault::Duplicate {
            at: end - bytes.len(),
        });
    };
    let (value, rest) = read_item(alloc, end, after_key, levels)?;
    pairs.put(place, key, value)?;
    Ok(rest)
}

/// The item that the bytes spell, all of them (RFC 8949, section 3). The pairs of a map stand in bytewise order of
/// their keys' deterministic encodings, in whatever order they were spelled.
pub fn decode(alloc: Global, bytes: &[u8]) -> Result<Item, CborFault>
    // What is read is valid, and the bytes spell it.
    ensures found { IfOk result (λ item. IsValid (tree_of item) × Spells bytes.now (tree_of item) 0) }
    // What is spelled is read, unless memory runs out.
    ensures only { (tree : Tree) → Spells bytes.now tree 0 → Gives tree_of result (Ok tree) }
    // Otherwise the first fault is answered, unless memory runs out.
    ensures fault { IfErr result (λ fault. fault ≢ NoMemory → Refuses bytes.now fault) }
    ensures first { (fault : CborFault) → Refuses bytes.now fault → Gives tree_of result (Err fault) }
{
    read_whole(alloc, bytes)
}
