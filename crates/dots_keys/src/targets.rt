//! The targets in a scope (RFC 9132, section 4.4.1).

ghost use Rattle.std.specs.Prelude.{◌≡◌, option_map};
ghost use Rattle.cbor_profile.specs.Kind.{items_in};
ghost use Rattle.acl_lists.specs.declared.limits.TheConstants.{MAX_ITEMS, MAX_NAMES};
ghost use Rattle.cbor_profile.specs.ItemTrees.{tree_of};
ghost use Rattle.ip_scope.specs.PrefixReader.{prefix_in};
ghost use Rattle.dots_keys.specs.FieldValues.{items_seen};
ghost use Rattle.dots_keys.specs.Mitigations.{at_most, array_under, prefix_of, protocol_of, name_of, range_of};
ghost use Rattle.dots_keys.specs.Results.{Gives};

use crate::ports::range_of;
use crate::refusing::invalid;
use crate::reject::Reject;
use acl_lists::{ByteList, MAX_ITEMS, MAX_NAMES, NameList, PortList, PrefixList};
use cbor_profile::Item;
use dots_lists::{Bytes, List, Name};
use ip_scope::{Prefix, parse_prefix};
use std::alloc::Global;

/// `target-prefix`, `target-port-range`, `target-protocol`, `target-fqdn` and `alias-name`.
pub const TARGET_PREFIX: u8 = 6;

pub const TARGET_PORT_RANGE: u8 = 7;

pub const TARGET_PROTOCOL: u8 = 10;

pub const TARGET_FQDN: u8 = 11;

pub const ALIAS_NAME: u8 = 13;

/// The items of an array of at most so many.
fn at_most(item: &Item, most: usize) -> Option<&[Item]>
    ensures { option_map (λ items. items_seen items.now) result ≡ at_most most (items_in (tree_of item.now)) }
{
    let Some(items) = item.as_array() else {
        return None;
    };
    if items.len() > most {
        return None;
    }
    Some(items)
}

/// The prefix that a text writes.
fn prefix_in(text: &[u8]) -> Option<Prefix>
    ensures { result ≡ prefix_in text.now }
{
    parse_prefix(text).ok()
}

fn prefix_of(item: &Item) -> Result<Prefix, Reject>
    ensures { result ≡ prefix_of (tree_of item.now) }
{
    let Some(text) = item.as_text() else {
        return Err(invalid(TARGET_PREFIX));
    };
    prefix_in(text.bytes()).ok_or(invalid(TARGET_PREFIX))
}

fn protocol_of(item: &Item) -> Result<u8, Reject>
    ensures { result ≡ protocol_of (tree_of item.now) }
{
    let Some(number) = item.as_unsigned() else {
        return Err(invalid(TARGET_PROTOCOL));
    };
    if number > u64::from(u8::MAX) {
        return Err(invalid(TARGET_PROTOCOL));
    }
    Ok(number as u8)
}

/// The name in an item of an array under this key.
fn name_of(alloc: Global, key: u8, item: &Item) -> Result<Name, Reject>
    ensures { Gives result (name_of key (tree_of item.now)) }
{
    let Some(text) = item.as_text() else {
        return Err(invalid(key));
    };
    let Some(name) = Name::new(alloc, text.bytes())? else {
        return Err(invalid(key));
    };
    Ok(name)
}

/// `target-prefix`: at most 32 texts of prefixes.
pub fn prefixes_in(alloc: Global, item: &Item) -> Result<PrefixList, Reject>
    ensures { Gives result (array_under 6 MAX_ITEMS prefix_of (tree_of item.now)) }
{
    let items = at_most(item, MAX_ITEMS).ok_or(invalid(TARGET_PREFIX))?;
    let mut prefixes = List::new(alloc);
    for item in items {
        prefixes.push(prefix_of(item)?)?;
    }
    Ok(prefixes)
}

/// `target-port-range`: at most 32 ranges of ports.
pub fn ports_of(alloc: Global, item: &Item) -> Result<PortList, Reject>
    ensures { Gives result (array_under 7 MAX_ITEMS range_of (tree_of item.now)) }
{
    let items = at_most(item, MAX_ITEMS).ok_or(invalid(TARGET_PORT_RANGE))?;
    let mut ports = List::new(alloc);
    for item in items {
        ports.push(range_of(item)?)?;
    }
    Ok(ports)
}

/// `target-protocol`: at most 32 numbers of protocols.
pub fn protocols_of(alloc: Global, item: &Item) -> Result<ByteList, Reject>
    ensures { Gives result (array_under 10 MAX_ITEMS protocol_of (tree_of item.now)) }
{
    let items = at_most(item, MAX_ITEMS).ok_or(invalid(TARGET_PROTOCOL))?;
    let mut protocols = Bytes::new(alloc);
    for item in items {
        protocols.push(protocol_of(item)?)?;
    }
    Ok(protocols)
}

/// `target-fqdn` or `alias-name`, as the key says: at most 8 names.
pub fn names_of(alloc: Global, key: u8, item: &Item) -> Result<NameList, Reject>
    ensures { Gives result (array_under key MAX_NAMES (name_of key) (tree_of item.now)) }
{
    let items = at_most(item, MAX_NAMES).ok_or(invalid(key))?;
    let mut names = List::new(alloc);
    for item in items {
        names.push(name_of(alloc, key, item)?)?;
    }
    Ok(names)
}
