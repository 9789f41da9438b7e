//! Writing the deterministic encoding of an item.

ghost use Rattle.std.specs.Prelude.{◌≡◌, ◌++◌, length, IfOk, OnOk, map};
ghost use Rattle.cbor_profile.specs.Head.{head};
ghost use Rattle.cbor_profile.specs.Parts.{number_of};
ghost use Rattle.cbor_profile.specs.Canon.{canon, canon_items, canon_pairs};
ghost use Rattle.cbor_profile.specs.Tree.{array, mapping};
ghost use Rattle.cbor_profile.specs.Valid.{IsValid};
ghost use Rattle.cbor_profile.specs.ItemTrees.{tree_of, trees, tree_pairs, items_of, pairs_of};

use crate::head_bytes::{FALSE, HeadBytes, NULL, TRUE};
use crate::item::{Item, ItemList, PairList};
use crate::major::Major;
use dots_lists::{Bytes, NoMemory};
use std::alloc::Global;

/// The deterministic encoding of a valid item (RFC 8949, section 4.2.1).
pub fn encode(alloc: Global, item: &Item) -> Result<Bytes, NoMemory>
    requires { IsValid (tree_of item.now) }
    ensures { IfOk result (λ bytes. bytes ≡ canon (tree_of item.now)) }
{
    let mut out = Vec::new(alloc);
    write_item(&mut out, item)?;
    Ok(Bytes::from_vec(out))
}

#[cycle(writer)]
pub(crate) fn write_item(out: &mut Vec<u8>, item: &Item) -> Result<(), NoMemory>
    ensures { OnOk result (out.new.items ≡ out.old.items ++ canon (tree_of item.now)) }
{
    match item {
        Item::Unsigned(number) => write_head(out, Major::Unsigned, *number),
        Item::Negative(number) => write_head(out, Major::Negative, *number),
        Item::Bytes(bytes) => write_string(out, Major::Bytes, bytes.items()),
        Item::Text(text) => write_string(out, Major::Text, text.bytes()),
        Item::Array(items) => write_array(out, items),
        Item::Map(pairs) => write_map(out, pairs),
        Item::Tag(number, inner) => write_tag(out, *number, inner),
        Item::Bool(false) => write_head(out, Major::Simple, FALSE),
        Item::Bool(true) => write_head(out, Major::Simple, TRUE),
        Item::Null => write_head(out, Major::Simple, NULL),
    }
}

/// Writes a string behind its length.
fn write_string(out: &mut Vec<u8>, major: Major, bytes: &[u8]) -> Result<(), NoMemory>
    ensures { OnOk result (out.new.items ≡ out.old.items ++ (head (number_of major) (length bytes.now) ++ bytes.now)) }
{
    write_head(out, major, bytes.len() as u64)?;
    out.extend_from_slice(bytes)?;
    Ok(())
}

#[cycle(writer)]
fn write_array(out: &mut Vec<u8>, list: &ItemList) -> Result<(), NoMemory>
    ensures { OnOk result (out.new.items ≡ out.old.items ++ canon (array (items_of (trees list.now)))) }
{
    let items = list.items.as_slice();
    write_head(out, Major::Array, items.len() as u64)?;
    write_items(out, items)
}

#[cycle(writer)]
pub(crate) fn write_items(out: &mut Vec<u8>, items: &[Item]) -> Result<(), NoMemory>
    ensures { OnOk result (out.new.items ≡ out.old.items ++ canon_items (items_of (map tree_of items.now))) }
{
    for item in items {
        write_item(out, item)?;
    }
    Ok(())
}

#[cycle(writer)]
fn write_map(out: &mut Vec<u8>, list: &PairList) -> Result<(), NoMemory>
    ensures { OnOk result (out.new.items ≡ out.old.items ++ canon (mapping (pairs_of (tree_pairs list.now)))) }
{
    let pairs = list.items.as_slice();
    write_head(out, Major::Map, pairs.len() as u64)?;
    write_pairs(out, pairs)
}

#[cycle(writer)]
fn write_pairs(out: &mut Vec<u8>, pairs: &[(Item, Item)]) -> Result<(), NoMemory>
    ensures { OnOk result (out.new.items ≡ out.old.items
        ++ canon_pairs (pairs_of (map (λ p. (tree_of p.0, tree_of p.1)) pairs.now))) }
{
    for (key, value) in pairs {
        write_item(out, key)?;
        write_item(out, value)?;
    }
    Ok(())
}

#[cycle(writer)]
fn write_tag(out: &mut Vec<u8>, number: u64, inner: &Item) -> Result<(), NoMemory>
    ensures { OnOk result (out.new.items ≡ out.old.items ++ (head 6 number ++ canon (tree_of inner.now))) }
{
    write_head(out, Major::Tag, number)?;
    write_item(out, inner)
}

/// Writes a head in its shortest form.
fn write_head(out: &mut Vec<u8>, major: Major, argument: u64) -> Result<(), NoMemory>
    ensures { OnOk result (out.new.items ≡ out.old.items ++ head (number_of major) argument) }
{
    let bytes = HeadBytes::new(major, argument);
    out.extend_from_slice(bytes.as_slice())?;
    Ok(())
}
