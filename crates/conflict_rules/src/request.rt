//! How a live mitigation stands to a request.

ghost use Rattle.std.specs.Prelude.{◌≡◌, true, false};
ghost use Rattle.dots_history.specs.Entries.{overlaps, replaces, targets_meet, share_alias};
ghost use Rattle.conflict_rules.specs.ByOverlap.{rivals};
ghost use Rattle.dots_history.specs.declared.change.Change.TheVariants as change;

use acl_lists::Asked;
use dots_history::{Put, TargetList, share_name, some_target_meets};
use std::marker::Model;

/// A request as a mitigation, by what counts for an overlap. Contracts see it as the mitigation that it asks for.
#[derive(Drop)]
pub(crate) struct Request<'a> {
    pub(crate) mid: u32,
    pub(crate) asked: &'a Asked,
    pub(crate) targets: &'a TargetList,
    pub(crate) trigger: bool,
}

impl<'a> Model for Request<'a> {
    ghost use Rattle.dots_history.specs.declared.put.Put.{Put};
    ghost use Rattle.conflict_rules.specs.Wanted.{wanted};

    ghost Value = { Put };

    ghost view = { λ request. wanted request.mid request.asked.now request.targets.now request.trigger };
}

impl Request<'_> {
    /// Whether it overlaps with a mitigation of its own client: their targets meet, or they share an alias.
    #[tactic(auto, unfolding(dots_history::specs::Entries::overlaps, dots_history::specs::Entries::targets_meet, dots_history::specs::Entries::share_alias))]
    fn overlaps_own(&self, put: &Put) -> bool
        ensures { result ≡ overlaps true put.now self.now }
    {
        some_target_meets(put.targets.items(), self.targets.items())
            || share_name(put.asked.aliases.items(), self.asked.aliases.items())
    }

    /// Whether it overlaps with a mitigation of another client: their targets meet.
    #[tactic(auto, unfolding(dots_history::specs::Entries::overlaps, dots_history::specs::Entries::targets_meet))]
    pub(crate) fn overlaps_another(&self, put: &Put) -> bool
        ensures { result ≡ overlaps false put.now self.now }
    {
        some_target_meets(put.targets.items(), self.targets.items())
    }

    /// Whether it can't stay beside a mitigation of its own client: they have the same trigger value and overlap.
    pub(crate) fn rivals(&self, put: &Put) -> bool
        ensures { result ≡ rivals put.now self.now }
    {
        put.trigger == self.trigger && self.overlaps_own(put)
    }

    /// Whether it would take the place of a mitigation of its own client: it has its mid, or can't stay beside it.
    #[tactic(auto, unfolding(dots_history::specs::Entries::replaces))]
    pub(crate) fn replaces(&self, put: &Put) -> bool
        ensures { result ≡ replaces (change.Put put.now) (change.Put self.now) }
    {
        put.mid == self.mid || self.rivals(put)
    }
}
