//! Mitigations as a client is told of them (RFC 9132, sections 4.4.1.3 and 4.4.2).

ghost use Rattle.std.specs.Prelude.{◌≡◌, ◌++◌, map, IfOk, OnOk};
ghost use Rattle.cbor_profile.specs.Valid.{IsValid};
ghost use Rattle.cbor_profile.specs.ItemTrees.{tree_of, trees, tree_pairs};
ghost use Rattle.cbor_profile.specs.Within.{IsWithin};
ghost use Rattle.reply_bodies.specs.Mitigations.{granted_scope, granted_tree, config_fields, config_part, state_fields, state_part, trigger_fields, trigger_part, scope_of, views_tree, mitigations_with};
ghost use Rattle.reply_bodies.specs.Within.{AreFieldsWithin, AllWithin};

use crate::fields::{array_of, integer, number_item, put, sole};
use crate::keys::{
    LIFETIME, MID, MITIGATION_SCOPE, MITIGATION_START, SCOPE, STATUS, TRIGGER_MITIGATION,
};
use crate::targets::put_asked;
use acl_lists::Asked;
use cbor_profile::{Item, ItemList, PairList};
use dots_keys::Content;
use dots_lists::{List, NoMemory};
use std::alloc::Global;

/// A mitigation, and what of it is to be told.
#[derive(Clone, Copy)]
pub struct MitigationView<'a> {
    pub mid: u32,
    /// What its last request named.
    pub asked: &'a Asked,
    /// The seconds that are left of its lifetime, or -1 where that is indefinite.
    pub left: i32,
    /// When it was first accepted, in seconds.
    pub start: u64,
    /// A number of RFC 9132, section 4.4.2: 2 where the mitigation stands and filters, 8 where it stands and waits for a lost signal, 5 where
    /// it is terminating.
    pub status: u8,
    /// Whether it filters at once, and not only while the signal of its client is lost (`trigger-mitigation`).
    pub trigger: bool,
    /// Which part of it is told.
    pub content: Content,
}

/// Mitigations in the order in which they are told.
pub type ViewList<'a> = List<MitigationView<'a>>;

/// A mitigation that is granted.
fn granted_scope(alloc: Global, mid: u32, lifetime: i32) -> Result<Item, NoMemory>
    ensures is { IfOk result (λ item. tree_of item ≡ granted_scope mid lifetime) }
    ensures within { OnOk result (IsWithin 5 (granted_scope mid lifetime)) }
{
    let mut fields = PairList::new(alloc);
    put(&mut fields, MID, number_item(u64::from(mid)))?;
    put(&mut fields, LIFETIME, integer(lifetime))?;
    Ok(Item::Map(fields))
}

/// Puts what was asked for and the seconds that are left.
fn put_config(
    alloc: Global,
    fields: &mut PairList,
    view: &MitigationView<'_>,
) -> Result<(), NoMemory>
    ensures put { OnOk result (tree_pairs fields.new ≡ tree_pairs fields.old ++ config_fields view.now) }
    ensures within { OnOk result (AreFieldsWithin 2 6 15 (config_fields view.now)) }
{
    put_asked(alloc, fields, view.asked)?;
    put(fields, LIFETIME, integer(view.left))
}

/// The same, where it is to be told.
fn put_config_part(
    alloc: Global,
    fields: &mut PairList,
    view: &MitigationView<'_>,
) -> Result<(), NoMemory>
    ensures put { OnOk result (tree_pairs fields.new ≡ tree_pairs fields.old ++ config_part view.now.content view.now) }
    ensures within { OnOk result (AreFieldsWithin 2 6 15 (config_part view.now.content view.now)) }
{
    match view.content {
        Content::State => Ok(()),
        Content::All | Content::Config => put_config(alloc, fields, view),
    }
}

/// Puts the start and the status.
fn put_state(fields: &mut PairList, view: &MitigationView<'_>) -> Result<(), NoMemory>
    ensures put { OnOk result (tree_pairs fields.new ≡ tree_pairs fields.old ++ state_fields view.now) }
    ensures within { OnOk result (AreFieldsWithin 2 15 17 (state_fields view.now)) }
{
    put(fields, MITIGATION_START, number_item(view.start))?;
    put(fields, STATUS, number_item(u64::from(view.status)))
}

/// The same, where it is to be told.
fn put_state_part(fields: &mut PairList, view: &MitigationView<'_>) -> Result<(), NoMemory>
    ensures put { OnOk result (tree_pairs fields.new ≡ tree_pairs fields.old ++ state_part view.now.content view.now) }
    ensures within { OnOk result (AreFieldsWithin 2 15 17 (state_part view.now.content view.now)) }
{
    match view.content {
        Content::Config => Ok(()),
        Content::All | Content::State => put_state(fields, view),
    }
}

/// Puts that it waits for a lost signal, where it does.
fn put_trigger(fields: &mut PairList, view: &MitigationView<'_>) -> Result<(), NoMemory>
    ensures put { OnOk result (tree_pairs fields.new ≡ tree_pairs fields.old ++ trigger_fields view.now.trigger) }
    ensures within { OnOk result (AreFieldsWithin 2 17 46 (trigger_fields view.now.trigger)) }
{
    if view.trigger {
        return Ok(());
    }
    put(fields, TRIGGER_MITIGATION, Item::Bool(false))
}

/// The same, where it is to be told.
fn put_trigger_part(fields: &mut PairList, view: &MitigationView<'_>) -> Result<(), NoMemory>
    ensures put { OnOk result (tree_pairs fields.new ≡ tree_pairs fields.old ++ trigger_part view.now.content view.now) }
    ensures within { OnOk result (AreFieldsWithin 2 17 46 (trigger_part view.now.content view.now)) }
{
    match view.content {
        Content::State => Ok(()),
        Content::All | Content::Config => put_trigger(fields, view),
    }
}

/// A mitigation that is told.
fn scope_of(alloc: Global, view: &MitigationView<'_>) -> Result<Item, NoMemory>
    ensures is { IfOk result (λ item. tree_of item ≡ scope_of view.now) }
    ensures within { OnOk result (IsWithin 5 (scope_of view.now)) }
{
    let mut fields = PairList::new(alloc);
    put(&mut fields, MID, number_item(u64::from(view.mid)))?;
    put_config_part(alloc, &mut fields, view)?;
    put_state_part(&mut fields, view)?;
    put_trigger_part(&mut fields, view)?;
    Ok(Item::Map(fields))
}

/// Mitigations in their order.
fn scopes_of(alloc: Global, views: &[MitigationView<'_>]) -> Result<ItemList, NoMemory>
    ensures is { IfOk result (λ items. trees items ≡ map scope_of views.now) }
    ensures within { OnOk result (AllWithin 5 (map scope_of views.now)) }
{
    let mut items = ItemList::new(alloc);
    for view in views {
        items.push(scope_of(alloc, view)?)?;
    }
    Ok(items)
}

/// {1: {2: [scope, ..]}}
pub fn mitigations_with(alloc: Global, scopes: ItemList) -> Result<Item, NoMemory>
    ensures is { IfOk result (λ item. tree_of item ≡ mitigations_with (trees scopes)) }
    ensures valid { AllWithin 5 (trees scopes) → OnOk result (IsValid (mitigations_with (trees scopes))) }
{
    let inner = sole(alloc, SCOPE, array_of(scopes))?;
    sole(alloc, MITIGATION_SCOPE, inner)
}

/// A mitigation that is granted.
pub fn granted_item(alloc: Global, mid: u32, lifetime: i32) -> Result<Item, NoMemory>
    ensures is { IfOk result (λ item. tree_of item ≡ granted_tree mid lifetime) }
    ensures valid { OnOk result (IsValid (granted_tree mid lifetime)) }
{
    let mut scopes = ItemList::new(alloc);
    scopes.push(granted_scope(alloc, mid, lifetime)?)?;
    mitigations_with(alloc, scopes)
}

/// Mitigations that are told, in their order.
pub fn views_item(alloc: Global, views: &[MitigationView<'_>]) -> Result<Item, NoMemory>
    ensures is { IfOk result (λ item. tree_of item ≡ views_tree views.now) }
    ensures valid { OnOk result (IsValid (views_tree views.now)) }
{
    let scopes = scopes_of(alloc, views)?;
    mitigations_with(alloc, scopes)
}
