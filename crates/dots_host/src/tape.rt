ghost use Rattle.std.specs.Prelude.{◌≡◌, ◌<◌, [], ◌∷◌, ◌++◌, length, true, false, MatchBool};
ghost use Rattle.dots_host.specs.declared.act.Act.TheVariants as act;
ghost use Rattle.dots_host.specs.Acts.{IsWithin, Adds, event_of, owned_of, is_done, taken, given};
ghost use Rattle.dots_host.specs.Memory.{told};

use crate::act::Act;
use crate::copying::{copy_event, copy_out, is_done};
use crate::event::Got;
use crate::out::{Out, Sent};
use std::alloc::Global;
use std::marker::Model;

/// The calls of a memory host so far. Where a call can't be recorded for want of memory, the tape says from
/// then on that it isn't whole.
#[derive(Drop)]
pub struct Tape {
    acts: Vec<Act>,
    whole: bool,
}

impl Model for Tape {
    ghost use Rattle.std.specs.Prelude.{◌-◌, vec_len, vec_capacity};
    ghost use Rattle.dots_host.specs.Memory.{Taped};

    ghost Value = { Taped };

    ghost view = { λ tape. record { acts = tape.acts.items; whole = tape.whole; room = vec_capacity tape.acts - vec_len tape.acts } };
}

impl Tape {
    pub fn new(alloc: Global) -> Self
        ensures { (result.acts ≡ []) × (result.whole ≡ true) }
    {
        Tape {
            acts: Vec::new(alloc),
            whole: true,
        }
    }

    pub fn acts(&self) -> &[Act]
        ensures { result.now ≡ self.now.acts }
    {
        self.acts.as_slice()
    }

    pub fn is_whole(&self) -> bool
        ensures { result ≡ self.now.whole }
    {
        self.whole
    }

    /// Makes room for one more call, or gives up being whole.
    pub fn make_room(&mut self) -> bool
        ensures acts { self.new.acts ≡ self.old.acts }
        ensures whole { MatchBool result ((self.new.whole ≡ self.old.whole) × (0 < self.new.room))
            (self.new.whole ≡ false) }
    {
        if self.acts.reserve(1).is_ok() {
            return true;
        }
        self.whole = false;
        false
    }

    /// Gives up being whole.
    pub fn forget(&mut self)
        ensures acts { self.new.acts ≡ self.old.acts }
        ensures whole { self.new.whole ≡ false }
    {
        self.whole = false;
    }

    /// Records a call, for which there is room.
    pub fn log(&mut self, act: Act)
        requires { 0 < self.old.room }
        ensures acts { self.new.acts ≡ self.old.acts ++ act ∷ [] }
        ensures whole { self.new.whole ≡ self.old.whole }
    {
        self.acts.push_reserved(act);
    }

    /// Records that an event was handed in, its bytes at the front of the room, and answers whether that could be done.
    pub fn record_taken(&mut self, alloc: Global, got: Got, room: &[u8]) -> bool
        requires { IsWithin got.what (length room.now) }
        ensures acts { MatchBool result
            (self.new.acts ≡ self.old.acts ++ act.Took (event_of got.what room.now) got.at ∷ []) (self.new.acts ≡ self.old.acts) }
        ensures whole { MatchBool result (self.new.whole ≡ self.old.whole) (self.new.whole ≡ false) }
        ensures adds { Adds (told self.old.whole self.old.acts) (length self.old.acts)
            (told self.new.whole self.new.acts) (length self.new.acts) (taken got room.now) }
    {
        let Ok(event) = copy_event(alloc, got.what, room) else {
            self.forget();
            return false;
        };
        if !self.make_room() {
            return false;
        }
        self.log(Act::Took { event, at: got.at });
        true
    }

    /// Records a send, and answers whether that could be done.
    pub fn record_given(&mut self, alloc: Global, out: &Out, sent: Sent) -> bool
        ensures acts { MatchBool result
            (self.new.acts ≡ self.old.acts ++ act.Gave (owned_of out.now) (is_done sent) ∷ []) (self.new.acts ≡ self.old.acts) }
        ensures whole { MatchBool result (self.new.whole ≡ self.old.whole) (self.new.whole ≡ false) }
        ensures adds { Adds (told self.old.whole self.old.acts) (length self.old.acts)
            (told self.new.whole self.new.acts) (length self.new.acts) (given out.now sent) }
    {
        let Ok(out) = copy_out(alloc, out) else {
            self.forget();
            return false;
        };
        if !self.make_room() {
            return false;
        }
        let done = is_done(sent);
        self.log(Act::Gave { out, done });
        true
    }
}
