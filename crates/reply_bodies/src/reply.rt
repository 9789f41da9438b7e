//! The replies that have a body of CBOR.

ghost use Rattle.std.specs.Prelude.{◌≡◌, IfOk, OnOk};
ghost use Rattle.cbor_profile.specs.Canon.{canon};
ghost use Rattle.cbor_profile.specs.Valid.{IsValid};
ghost use Rattle.cbor_profile.specs.ItemTrees.{tree_of};
ghost use Rattle.reply_bodies.specs.Replies.{reply_tree};

use crate::conflict::{Conflict, conflict_item};
use crate::scope::{ViewList, granted_item, views_item};
use crate::session::{SessionView, beat_item, session_item};
use cbor_profile::{Item, encode};
use dots_lists::{Bytes, NoMemory};
use std::alloc::Global;

/// A reply that has a body of CBOR.
#[derive(Drop)]
pub enum Reply<'a> {
    /// A mitigation is granted for so many seconds, or -1 for an indefinite time (RFC 9132, section 4.4.1.3).
    Granted { mid: u32, lifetime: i32 },
    /// Mitigations that are told to a client (section 4.4.2).
    Mitigations(ViewList<'a>),
    /// A request conflicts with what there is (section 4.4.1.3).
    Conflict(Conflict),
    /// The configuration of a session (section 4.5.1).
    Session(SessionView),
    /// A heartbeat, and whether the peer was heard of late (section 4.7).
    Beat { heard: bool },
}

/// The body of a reply, in its deterministic encoding (RFC 8949, section 4.2.1).
pub fn body_of(alloc: Global, reply: &Reply<'_>) -> Result<Bytes, NoMemory>
    ensures body { IfOk result (λ body. body ≡ canon (reply_tree reply.now)) }
    ensures valid { OnOk result (IsValid (reply_tree reply.now)) }
{
    let item = item_of(alloc, reply)?;
    encode(alloc, &item)
}

fn item_of(alloc: Global, reply: &Reply<'_>) -> Result<Item, NoMemory>
    ensures is { IfOk result (λ item. tree_of item ≡ reply_tree reply.now) }
    ensures valid { OnOk result (IsValid (reply_tree reply.now)) }
{
    match reply {
        Reply::Granted { mid, lifetime } => granted_item(alloc, *mid, *lifetime),
        Reply::Mitigations(views) => views_item(alloc, views.items()),
        Reply::Conflict(conflict) => conflict_item(alloc, conflict),
        Reply::Session(view) => session_item(alloc, view),
        Reply::Beat { heard } => beat_item(alloc, *heard),
    }
}
