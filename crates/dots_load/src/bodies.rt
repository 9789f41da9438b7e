//! The body of a request for a mitigation.

ghost use Rattle.std.specs.Prelude.{◌≡◌, ◌+◌, ◌<◌, ◌^◌, ◌≤◌, [], ◌∷◌, length, IfOk, OnOk, string_bytes};
ghost use Rattle.cbor_profile.specs.Canon.{canon};
ghost use Rattle.cbor_profile.specs.Valid.{IsValid};
ghost use Rattle.cbor_profile.specs.Tree.{text, array, unsigned, items_of};
ghost use Rattle.cbor_profile.specs.ItemTrees.{tree_of, tree_pairs};
ghost use Rattle.dots_load.specs.Requests.{sole, only, scope_tree, scope_body, prefix_text};

use cbor_profile::{Item, ItemList, PairList, encode};
use dots_lists::{Bytes, NoMemory, Text};
use std::alloc::Global;

/// The number of mitigation-scope, scope, target-prefix and lifetime (RFC 9132, section 6).
const MITIGATION_SCOPE: u64 = 1;

const SCOPE: u64 = 2;

const TARGET_PREFIX: u64 = 6;

const LIFETIME: u64 = 14;

/// A mitigation of one prefix for so many seconds.
pub fn scope_body(alloc: Global, domain: u32, third: u32, lifetime: u32) -> Result<Bytes, NoMemory>
    requires domain { domain < 1000 }
    requires third { third < 1000 }
    requires lifetime { lifetime < 1000 }
    ensures body { IfOk result (λ body. body ≡ scope_body (prefix_text domain third) lifetime) }
    ensures short { IfOk result (λ body. length body ≤ 64) }
{
    let prefix = format!(in alloc; "10.{domain}.{third}.0/24")?;
    let body = scope_item(alloc, Text::from_string(prefix), lifetime)?;
    encode(alloc, &body)
}

fn scope_item(alloc: Global, prefix: Text, lifetime: u32) -> Result<Item, NoMemory>
    ensures { IfOk result (λ body. tree_of body ≡ scope_tree prefix lifetime) }
{
    let prefix = only(alloc, Item::Text(prefix))?;
    let mut fields = PairList::new(alloc);
    fields.push((Item::Unsigned(TARGET_PREFIX), prefix))?;
    fields.push((
        Item::Unsigned(LIFETIME),
        Item::Unsigned(u64::from(lifetime)),
    ))?;
    let scopes = only(alloc, Item::Map(fields))?;
    let inner = sole(alloc, SCOPE, scopes)?;
    sole(alloc, MITIGATION_SCOPE, inner)
}

/// An array of one item.
fn only(alloc: Global, item: Item) -> Result<Item, NoMemory>
    ensures { IfOk result (λ list. tree_of list ≡ only (tree_of item)) }
{
    let mut items = ItemList::new(alloc);
    items.push(item)?;
    Ok(Item::Array(items))
}

/// A map of one field.
fn sole(alloc: Global, key: u64, value: Item) -> Result<Item, NoMemory>
    ensures { IfOk result (λ map. tree_of map ≡ sole key (tree_of value)) }
{
    let mut fields = PairList::new(alloc);
    fields.push((Item::Unsigned(key), value))?;
    Ok(Item::Map(fields))
}
