//! Why a mitigation isn't granted (RFC 9132, section 4.4.1.3).

ghost use Rattle.std.specs.Prelude.{◌≡◌, ◌++◌, IfOk, OnOk};
ghost use Rattle.cbor_profile.specs.Valid.{IsValid};
ghost use Rattle.cbor_profile.specs.ItemTrees.{tree_of, tree_pairs};
ghost use Rattle.cbor_profile.specs.Within.{IsWithin};
ghost use Rattle.reply_bodies.specs.Conflicts.{status_and_cause, higher, other, collision, information, conflict_scope, conflict_tree};

use crate::fields::{array_of, number_item, put, put_number, sole};
use crate::keys::{
    CONFLICT_CAUSE, CONFLICT_INFORMATION, CONFLICT_SCOPE, CONFLICT_STATUS, MID, RETRY_TIMER,
    TARGET_PREFIX,
};
use crate::scope::mitigations_with;
use crate::targets::prefix_items;
use acl_lists::PrefixList;
use cbor_profile::{Item, ItemList, PairList};
use dots_lists::NoMemory;
use ip_scope::Prefix;
use std::alloc::Global;

/// `conflict-status`: the mitigation that is asked for is inactive, since others conflict with it.
pub const INACTIVE: u8 = 1;

/// `conflict-cause`: targets overlap, and the `cuid` is in use by another client.
pub const OVERLAPPING_TARGETS: u8 = 1;

pub const CUID_COLLISION: u8 = 3;

/// `retry-timer`: the seconds after which the same may be asked again.
pub const RETRY_AFTER: u8 = 120;

/// A request that conflicts with what there is.
#[derive(Drop)]
pub struct Conflict {
    /// The mid that was asked for; None where a request has none.
    pub mid: Option<u32>,
    pub cause: ConflictCause,
}

/// What a request conflicts with.
#[derive(Drop)]
pub enum ConflictCause {
    /// With a mitigation of the same client, which has this higher mid and overlaps.
    Higher(u32),
    /// With mitigations of other clients, which meet these prefixes of the request.
    Other(PrefixList),
    /// With another peer, which uses the same `cuid`.
    Collision,
}

/// The status, and a cause.
fn status_and_cause(alloc: Global, cause: u8) -> Result<PairList, NoMemory>
    ensures { IfOk result (λ fields. tree_pairs fields ≡ status_and_cause cause) }
{
    let mut fields = PairList::new(alloc);
    put(
        &mut fields,
        CONFLICT_STATUS,
        number_item(u64::from(INACTIVE)),
    )?;
    put(&mut fields, CONFLICT_CAUSE, number_item(u64::from(cause)))?;
    Ok(fields)
}

/// Of a higher mid of the same client.
fn higher(alloc: Global, mid: u32) -> Result<Item, NoMemory>
    ensures is { IfOk result (λ item. tree_of item ≡ higher mid) }
    ensures within { OnOk result (IsWithin 4 (higher mid)) }
{
    let own = sole(alloc, MID, number_item(u64::from(mid)))?;
    let mut fields = status_and_cause(alloc, OVERLAPPING_TARGETS)?;
    put(&mut fields, CONFLICT_SCOPE, own)?;
    Ok(Item::Map(fields))
}

/// Of other clients, whose mitigations meet these prefixes.
fn other(alloc: Global, prefixes: &[Prefix]) -> Result<Item, NoMemory>
    ensures is { IfOk result (λ item. tree_of item ≡ other prefixes.now) }
    ensures within { OnOk result (IsWithin 4 (other prefixes.now)) }
{
    let prefixes = array_of(prefix_items(alloc, prefixes)?);
    let met = sole(alloc, TARGET_PREFIX, prefixes)?;
    let mut fields = status_and_cause(alloc, OVERLAPPING_TARGETS)?;
    put(
        &mut fields,
        RETRY_TIMER,
        number_item(u64::from(RETRY_AFTER)),
    )?;
    put(&mut fields, CONFLICT_SCOPE, met)?;
    Ok(Item::Map(fields))
}

/// Of another peer with the same `cuid`.
fn collision(alloc: Global) -> Result<Item, NoMemory>
    ensures is { IfOk result (λ item. tree_of item ≡ collision) }
    ensures within { OnOk result (IsWithin 4 collision) }
{
    let fields = status_and_cause(alloc, CUID_COLLISION)?;
    Ok(Item::Map(fields))
}

fn information(alloc: Global, cause: &ConflictCause) -> Result<Item, NoMemory>
    ensures is { IfOk result (λ item. tree_of item ≡ information cause.now) }
    ensures within { OnOk result (IsWithin 4 (information cause.now)) }
{
    match cause {
        ConflictCause::Higher(mid) => higher(alloc, *mid),
        ConflictCause::Other(prefixes) => other(alloc, prefixes.items()),
        ConflictCause::Collision => collision(alloc),
    }
}

/// The mid that was asked for, and what it conflicts with.
fn conflict_scope(alloc: Global, conflict: &Conflict) -> Result<Item, NoMemory>
    ensures is { IfOk result (λ item. tree_of item ≡ conflict_scope conflict.now) }
    ensures within { OnOk result (IsWithin 5 (conflict_scope conflict.now)) }
{
    let information = information(alloc, &conflict.cause)?;
    let mut fields = PairList::new(alloc);
    put_number(&mut fields, MID, conflict.mid)?;
    put(&mut fields, CONFLICT_INFORMATION, information)?;
    Ok(Item::Map(fields))
}

/// The whole body.
pub fn conflict_item(alloc: Global, conflict: &Conflict) -> Result<Item, NoMemory>
    ensures is { IfOk result (λ item. tree_of item ≡ conflict_tree conflict.now) }
    ensures valid { OnOk result (IsValid (conflict_tree conflict.now)) }
{
    let mut scopes = ItemList::new(alloc);
    scopes.push(conflict_scope(alloc, conflict)?)?;
    mitigations_with(alloc, scopes)
}
