//! What the definitions come to: each function's contract is a law, and its body does nothing.

ghost use Rattle.std.specs.Prelude.{◌≡◌, ◌≢◌, ℕ, ◌/◌, ◌%◌, ◌^◌, ◌≤◌, nat_lt, if◌then◌else◌, List, length, Some, slice_get};
ghost use Rattle.ip_scope.specs.Prefix.{PrefixValue};
ghost use Rattle.dots_history.specs.declared.entry.Entry.{Entry};
ghost use Rattle.dots_history.specs.declared.put.Put.{Put};
ghost use Rattle.dots_history.specs.declared.put.Target.{Target};
ghost use Rattle.dots_history.specs.declared.change.Change.TheVariants as change;
ghost use Rattle.dots_history.specs.Entries.{ends};
ghost use Rattle.dots_history.specs.Histories.{mitigations};
ghost use Rattle.conflict_rules.specs.declared.live.Live.{Live};
ghost use Rattle.conflict_rules.specs.Wanted.{wanted};
ghost use Rattle.conflict_rules.specs.Live.{would_end};
ghost use Rattle.conflict_rules.specs.ByOverlap.{resolved, meets_another, meeting, is_contested};
ghost use Rattle.conflict_rules.specs.Judgements.{StandsIn};
ghost use Rattle.conflict_rules.specs.Neighbours.{StandBeside};

/// Bit i of the number of a contested request is 1 exactly where its resolved prefix i meets a standing mitigation of
/// another client, and past its prefixes there is no bit.
pub fn meeting_by_place()
    ensures bit { (live : List Live) (cuid : List ℕ) (targets : List Target) (i : ℕ) (prefix : PrefixValue) → slice_get (resolved targets) i ≡ Some prefix
        → meeting live cuid targets / 2 ^ i % 2 ≡ (if meets_another live cuid prefix then 1 else 0) }
    ensures beyond { (live : List Live) (cuid : List ℕ) (targets : List Target) (i : ℕ) → length (resolved targets) ≤ i → meeting live cuid targets / 2 ^ i ≡ 0 }
{}

/// A request is contested exactly where a resolved prefix of it meets a standing mitigation of another client, so that some
/// bit of the number is set.
pub fn contested_by_a_prefix()
    ensures { (live : List Live) (cuid : List ℕ) (request : Put) → is_contested live cuid request ≡ nat_lt 0 (meeting live cuid request.targets) }
{}

/// What a request would end is what its entry ends in a history, where it is accepted: of the domain's live mitigations
/// those of its client that have its mid, or have its trigger value and overlap with it.
pub fn request_ends()
    ensures { (earlier later : Entry) (m : Live) (put : Put) → earlier.domain ≡ later.domain → earlier.cuid ≡ m.cuid → earlier.change ≡ change.Put m.put → later.change ≡ change.Put put
        → ends earlier later ≡ would_end later.cuid (wanted put.mid put.asked put.targets put.trigger) m }
{}

/// What stands is told by the live mitigations: where two histories have the same, any two that stand in the one stand beside each
/// other in the other, too, each of the same client, and granted the same. So it is with what a compaction keeps of a history.
pub fn what_is_live_stands()
    ensures { (t : ℕ) (few all : List Entry) → mitigations t few ≡ mitigations t all
        → (domain i j : ℕ) (a b : Entry) (one other : Put) → i ≢ j → StandsIn domain t few i a one → StandsIn domain t few j b other
        → StandBeside domain t all a.cuid b.cuid one other }
{}
