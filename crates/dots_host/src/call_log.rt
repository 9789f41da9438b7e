//! The calls of a host so far, in a log that exists in proofs alone.
//!
//! A [`CallLog`] takes no bytes, and keeping it takes no memory and no time. What a host does it can't know: a host keeps
//! it beside each call, and says by its own invariant how what it holds follows from the calls in its log.

ghost use Rattle.std.specs.Prelude.{◌≡◌, List, [], ◌∷◌, ◌++◌};
ghost use Rattle.std.specs.Coded.{coded_list};
ghost use Rattle.dots_host.specs.declared.act.Act.{Act};
ghost use Rattle.dots_host.specs.contracts.act.Act as act_row;

use crate::event::What;
use crate::out::{Out, Sent};
use std::marker::Model;

/// The calls of a host so far, in order. It has no bytes.
#[derive(Drop)]
pub struct CallLog {
    pub ghost acts: { List Act } by { coded_list act_row.the_row.coded },
}

impl Model for CallLog {
    ghost use base.Fml.{ftrue};

    ghost also_owns = { λ _. ftrue };
}

/// A call of a host.
#[derive(Clone, Copy)]
pub enum Call<'a> {
    /// It handed in an event, whose bytes stand at the front of the room, with a time in seconds beside it.
    Took { what: What, room: &'a [u8], at: u64 },
    /// It was handed a send.
    Gave { out: Out<'a>, sent: Sent },
    /// Its disk was read.
    Read { ok: bool },
    /// The bytes were written to its disk, from the byte `at` on.
    Wrote { at: u64, bytes: &'a [u8], ok: bool },
    /// Its disk was synced.
    Synced { ok: bool },
}

impl CallLog {
    ghost use Rattle.dots_host.specs.LoggedCalls.{act_of};

    /// No call yet.
    pub fn new() -> CallLog
        ensures { result.acts ≡ [] }
    {
        CallLog {}
    }

    /// The log with one call more.
    pub fn after(&self, _call: &Call<'_>) -> CallLog
        ensures { result.acts ≡ self.now.acts ++ act_of _call.now ∷ [] }
    {
        CallLog {}
    }
}
