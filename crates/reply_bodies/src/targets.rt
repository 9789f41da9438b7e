//! What a mitigation was asked for (RFC 9132, section 4.4.1).

ghost use Rattle.std.specs.Prelude.{◌≡◌, ◌++◌, map, IfOk, OnOk};
ghost use Rattle.cbor_profile.specs.Tree.{text, unsigned};
ghost use Rattle.cbor_profile.specs.ItemTrees.{tree_of, trees, tree_pairs};
ghost use Rattle.cbor_profile.specs.Within.{IsWithin};
ghost use Rattle.reply_bodies.specs.Mitigations.{prefix_tree, range_tree, asked_fields};
ghost use Rattle.reply_bodies.specs.Within.{AreFieldsWithin, AllWithin};

use crate::fields::{number_item, put, put_list, text_of};
use crate::keys::{
    ALIAS_NAME, LOWER_PORT, TARGET_FQDN, TARGET_PORT_RANGE, TARGET_PREFIX, TARGET_PROTOCOL,
    UPPER_PORT,
};
use acl_lists::Asked;
use cbor_profile::{Item, ItemList, PairList};
use dots_lists::{Name, NoMemory};
use ip_scope::{MAX_PREFIX_TEXT, PortRange, Prefix, write_prefix};
use std::alloc::Global;

/// A prefix as its canonical text (RFC 5952, section 4).
fn prefix_item(alloc: Global, prefix: &Prefix) -> Result<Item, NoMemory>
    ensures is { IfOk result (λ item. tree_of item ≡ prefix_tree prefix.now) }
    ensures within { OnOk result (IsWithin 1 (prefix_tree prefix.now)) }
{
    let mut text = [0; MAX_PREFIX_TEXT];
    let len = write_prefix(prefix, &mut text);
    text_of(alloc, &text[..len])
}

/// Prefixes in their order.
pub fn prefix_items(alloc: Global, prefixes: &[Prefix]) -> Result<ItemList, NoMemory>
    ensures is { IfOk result (λ items. trees items ≡ map prefix_tree prefixes.now) }
    ensures within { OnOk result (AllWithin 1 (map prefix_tree prefixes.now)) }
{
    let mut items = ItemList::new(alloc);
    for prefix in prefixes {
        items.push(prefix_item(alloc, prefix)?)?;
    }
    Ok(items)
}

/// A range with both of its ports.
fn range_item(alloc: Global, range: &PortRange) -> Result<Item, NoMemory>
    ensures is { IfOk result (λ item. tree_of item ≡ range_tree range.now) }
    ensures within { OnOk result (IsWithin 1 (range_tree range.now)) }
{
    let lower = number_item(u64::from(range.lower()));
    let upper = number_item(u64::from(range.upper()));
    let mut fields = PairList::new(alloc);
    put(&mut fields, LOWER_PORT, lower)?;
    put(&mut fields, UPPER_PORT, upper)?;
    Ok(Item::Map(fields))
}

/// Port ranges in their order.
fn range_items(alloc: Global, ranges: &[PortRange]) -> Result<ItemList, NoMemory>
    ensures is { IfOk result (λ items. trees items ≡ map range_tree ranges.now) }
    ensures within { OnOk result (AllWithin 1 (map range_tree ranges.now)) }
{
    let mut items = ItemList::new(alloc);
    for range in ranges {
        items.push(range_item(alloc, range)?)?;
    }
    Ok(items)
}

/// Protocol numbers in their order.
fn protocol_items(alloc: Global, protocols: &[u8]) -> Result<ItemList, NoMemory>
    ensures is { IfOk result (λ items. trees items ≡ map unsigned protocols.now) }
    ensures within { OnOk result (AllWithin 1 (map unsigned protocols.now)) }
{
    let mut items = ItemList::new(alloc);
    for protocol in protocols {
        items.push(number_item(u64::from(*protocol)))?;
    }
    Ok(items)
}

/// Names in their order.
fn name_items(alloc: Global, names: &[Name]) -> Result<ItemList, NoMemory>
    ensures is { IfOk result (λ items. trees items ≡ map text names.now) }
    ensures within { OnOk result (AllWithin 1 (map text names.now)) }
{
    let mut items = ItemList::new(alloc);
    for name in names {
        items.push(text_of(alloc, name.bytes())?)?;
    }
    Ok(items)
}

/// Puts the lists that have an item.
pub fn put_asked(alloc: Global, fields: &mut PairList, asked: &Asked) -> Result<(), NoMemory>
    ensures put { OnOk result (tree_pairs fields.new ≡ tree_pairs fields.old ++ asked_fields asked.now) }
    ensures within { OnOk result (AreFieldsWithin 2 6 14 (asked_fields asked.now)) }
{
    let prefixes = prefix_items(alloc, asked.prefixes.items())?;
    put_list(fields, TARGET_PREFIX, prefixes)?;
    let ports = range_items(alloc, asked.ports.items())?;
    put_list(fields, TARGET_PORT_RANGE, ports)?;
    let protocols = protocol_items(alloc, asked.protocols.items())?;
    put_list(fields, TARGET_PROTOCOL, protocols)?;
    let names = name_items(alloc, asked.names.items())?;
    put_list(fields, TARGET_FQDN, names)?;
    let aliases = name_items(alloc, asked.aliases.items())?;
    put_list(fields, ALIAS_NAME, aliases)
}
