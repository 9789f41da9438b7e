//! The body of a request for a mitigation (RFC 9132, section 4.4.1).

ghost use Rattle.std.specs.Prelude.{◌≡◌, IfOk, OnOk};
ghost use Rattle.cbor_profile.specs.Canon.{canon};
ghost use Rattle.cbor_profile.specs.Valid.{IsValid};
ghost use Rattle.cbor_profile.specs.ItemTrees.{tree_of};
ghost use Rattle.cbor_profile.specs.Within.{IsWithin};
ghost use Rattle.reply_bodies.specs.Requests.{request_scope, request_tree};

use crate::fields::{integer, put};
use crate::keys::LIFETIME;
use crate::scope::mitigations_with;
use crate::targets::put_asked;
use acl_lists::Asked;
use cbor_profile::{Item, ItemList, PairList, encode};
use dots_lists::{Bytes, NoMemory};
use std::alloc::Global;

/// What is asked for, for a lifetime in seconds, or -1 for an indefinite one.
fn request_scope(alloc: Global, asked: &Asked, lifetime: i32) -> Result<Item, NoMemory>
    ensures is { IfOk result (λ item. tree_of item ≡ request_scope asked.now lifetime) }
    ensures within { OnOk result (IsWithin 5 (request_scope asked.now lifetime)) }
{
    let mut fields = PairList::new(alloc);
    put_asked(alloc, &mut fields, asked)?;
    put(&mut fields, LIFETIME, integer(lifetime))?;
    Ok(Item::Map(fields))
}

fn request_item(alloc: Global, asked: &Asked, lifetime: i32) -> Result<Item, NoMemory>
    ensures is { IfOk result (λ item. tree_of item ≡ request_tree asked.now lifetime) }
    ensures valid { OnOk result (IsValid (request_tree asked.now lifetime)) }
{
    let mut scopes = ItemList::new(alloc);
    scopes.push(request_scope(alloc, asked, lifetime)?)?;
    mitigations_with(alloc, scopes)
}

/// The body of a request for a mitigation, for a lifetime in seconds, or -1 for an indefinite one, in its deterministic encoding
/// (RFC 8949, section 4.2.1).
pub fn request_body(alloc: Global, asked: &Asked, lifetime: i32) -> Result<Bytes, NoMemory>
    ensures body { IfOk result (λ body. body ≡ canon (request_tree asked.now lifetime)) }
    ensures valid { OnOk result (IsValid (request_tree asked.now lifetime)) }
{
    let item = request_item(alloc, asked, lifetime)?;
    encode(alloc, &item)
}
