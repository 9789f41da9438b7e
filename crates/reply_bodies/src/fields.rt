//! Maps, field by field in ascending order of their keys.

ghost use Rattle.std.specs.Prelude.{◌≡◌, ◌++◌, ◌<◌, ◌^◌, length, IfOk, IfSome, OnOk, IsUtf8, FitsSigned};
ghost use Rattle.std.specs.Int.{w32};
ghost use Rattle.cbor_profile.specs.Tree.{unsigned, text, array};
ghost use Rattle.cbor_profile.specs.ItemTrees.{tree_of, trees, tree_pairs, items_of};
ghost use Rattle.cbor_profile.specs.Within.{IsWithin};
ghost use Rattle.reply_bodies.specs.Maps.{field, listed, numbered, sole, integer};

use cbor_profile::{Item, ItemList, PairList};
use dots_lists::{NoMemory, Text};
use std::alloc::Global;
use std::str;

/// Puts a field behind those that are there.
pub fn put(fields: &mut PairList, key: u8, value: Item) -> Result<(), NoMemory>
    ensures { OnOk result (tree_pairs fields.new ≡ tree_pairs fields.old ++ field key (tree_of value)) }
{
    fields.push((Item::Unsigned(u64::from(key)), value))
}

/// Puts an array, where it has an item.
pub fn put_list(fields: &mut PairList, key: u8, items: ItemList) -> Result<(), NoMemory>
    ensures put { OnOk result (tree_pairs fields.new ≡ tree_pairs fields.old ++ listed key (trees items)) }
    ensures few { length (trees items) < 2 ^ 64 }
{
    if items.items().len() == 0 {
        return Ok(());
    }
    put(fields, key, Item::Array(items))
}

/// Puts a number, where there is one.
pub fn put_number(fields: &mut PairList, key: u8, number: Option<u32>) -> Result<(), NoMemory>
    ensures put { OnOk result (tree_pairs fields.new ≡ tree_pairs fields.old ++ numbered key number) }
    ensures fits { IfSome number (λ n. n < 2 ^ 64) }
{
    match number {
        Some(number) => put(fields, key, number_item(u64::from(number))),
        None => Ok(()),
    }
}

/// A map of one field.
pub fn sole(alloc: Global, key: u8, value: Item) -> Result<Item, NoMemory>
    ensures { IfOk result (λ item. tree_of item ≡ sole key (tree_of value)) }
{
    let mut fields = PairList::new(alloc);
    put(&mut fields, key, value)?;
    Ok(Item::Map(fields))
}

/// The items as an array.
pub fn array_of(items: ItemList) -> Item
    ensures is { tree_of result ≡ array (items_of (trees items)) }
    ensures few { length (trees items) < 2 ^ 64 }
{
    let _count = items.items().len();
    Item::Array(items)
}

/// A number.
pub fn number_item(number: u64) -> Item
    ensures is { tree_of result ≡ unsigned number }
    ensures fits { number < 2 ^ 64 }
{
    Item::Unsigned(number)
}

/// A whole number.
pub fn integer(number: i32) -> Item
    ensures is { tree_of result ≡ integer number }
    ensures fits { FitsSigned w32 number }
{
    if number < 0 {
        return Item::Negative((-1 - number) as u64);
    }
    Item::Unsigned(number as u64)
}

/// A text, whose bytes are UTF-8.
pub fn text_of(alloc: Global, bytes: &[u8]) -> Result<Item, NoMemory>
    requires { IsUtf8 bytes.now }
    ensures is { IfOk result (λ item. tree_of item ≡ text bytes.now) }
    ensures within { OnOk result (IsWithin 1 (text bytes.now)) }
{
    let _count = bytes.len();
    let text = unsafe { str::from_utf8_unchecked(bytes) };
    Ok(Item::Text(Text::from_string(String::from_str(alloc, text)?)))
}
