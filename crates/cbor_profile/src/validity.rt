//! Whether an item is valid.

ghost use Rattle.std.specs.Prelude.{◌<◌, ◌^◌, ◌↔◌, [], length, IsTrue, IsUtf8, IfSome, map};
ghost use Rattle.cbor_profile.specs.Canon.{canon};
ghost use Rattle.cbor_profile.specs.Valid.{IsValid, IsSound, IsBefore};
ghost use Rattle.cbor_profile.specs.ItemTrees.{tree_of, items_of, pairs_of};
ghost use Rattle.cbor_profile.specs.Within.{IsWithin, AreWithin, ArePairsWithin, canon_of};

use crate::item::Item;
use crate::order::compare;
use crate::reading::MAX_DEPTH;
use dots_lists::{Bytes, Text};

/// Whether the arrays and maps of the item nest at most [`MAX_DEPTH`] deep, and the keys of each map rise in
/// bytewise order of their encodings.
pub fn is_valid(item: &Item) -> bool
    ensures { IsTrue result ↔ IsValid (tree_of item.now) }
{
    is_within(item, MAX_DEPTH)
}

/// Whether the item is sound and nests at most `levels` deep.
#[cycle(validity)]
fn is_within(item: &Item, levels: u8) -> bool
    ensures { IsTrue result ↔ IsWithin levels (tree_of item.now) }
{
    match item {
        Item::Unsigned(number) | Item::Negative(number) => is_sound_number(*number),
        Item::Bytes(bytes) => is_sound_string(bytes),
        Item::Text(text) => is_sound_text(text),
        Item::Array(list) => levels > 0 && are_within(list.items(), levels - 1),
        Item::Map(list) => levels > 0 && are_pairs_within(list.items(), levels - 1),
        Item::Tag(number, inner) => {
            is_sound_number(*number) && levels > 0 && is_within(inner, levels - 1)
        }
        Item::Bool(_) | Item::Null => true,
    }
}

/// True: each number that is held is below 2^64.
fn is_sound_number(number: u64) -> bool
    ensures yes { IsTrue result }
    ensures below { number < 2 ^ 64 }
{
    let _number = number;
    true
}

/// True: each string is shorter than 2^64 bytes, as all that is held in memory.
fn is_sound_string(bytes: &Bytes) -> bool
    ensures yes { IsTrue result }
    ensures short { length bytes.now < 2 ^ 64 }
{
    let _bytes = bytes.items();
    true
}

/// True: each text is UTF-8, and shorter than 2^64 bytes as all that is held in memory.
fn is_sound_text(text: &Text) -> bool
    ensures yes { IsTrue result }
    ensures utf8 { IsUtf8 text.now }
    ensures short { length text.now < 2 ^ 64 }
{
    let _bytes = text.bytes();
    true
}

#[cycle(validity)]
fn are_within(items: &[Item], levels: u8) -> bool
    ensures { IsTrue result ↔ AreWithin levels (items_of (map tree_of items.now)) }
{
    for item in items {
        if !is_within(item, levels) {
            return false;
        }
    }
    true
}

#[cycle(validity)]
fn are_pairs_within(pairs: &[(Item, Item)], levels: u8) -> bool
    ensures { IsTrue result ↔ ArePairsWithin levels [] (pairs_of (map (λ p. (tree_of p.0, tree_of p.1)) pairs.now)) }
{
    let mut last = None;
    for (key, value) in pairs {
        if !is_within(key, levels) || !is_within(value, levels) || !rises(last, key) {
            return false;
        }
        last = Some(key);
    }
    true
}

/// Whether the encoding of `key` comes after that of `last`, if there is one.
fn rises(last: Option<&Item>, key: &Item) -> bool
    requires last_sound { IfSome last (λ item. IsSound (tree_of item.now)) }
    requires key_sound { IsSound (tree_of key.now) }
    ensures { IsTrue result ↔ IsBefore (canon_of last.entry) (canon (tree_of key.now)) }
{
    match last {
        Some(last) => compare(last, key).is_lt(),
        None => true,
    }
}
