//! What the order of prefixes comes to: each function's contract is a law, and its body does nothing.

ghost use Rattle.std.specs.Prelude.{◌≡◌, ℕ, List};
ghost use Rattle.std.specs.List.Sorted.{IsPermutation};
ghost use Rattle.ip_scope.specs.declared.family.Family.{Family};
ghost use Rattle.ip_scope.specs.Prefix.{PrefixValue, IsPrefix, holds};
ghost use Rattle.filter_table.specs.declared.rank.Rank.{Rank};
ghost use Rattle.filter_table.specs.Covers.{covers};
ghost use Rattle.filter_table.specs.RankLaws.{AreRanked};
ghost use Rattle.filter_table.specs.Ranks.{rank_of, ranked};

/// The order of the slots is an order of all of them: by family and length, then number, then place.
pub fn ranks_are_in_order()
    ensures order { (ranks : List Rank) → AreRanked (ranked ranks) }
    ensures all { (ranks : List Rank) → IsPermutation ranks (ranked ranks) }
{}

/// The rank of a prefix covers the addresses that the prefix holds.
pub fn ranks_cover()
    ensures { (prefix : PrefixValue) (place slot : ℕ) (family : Family) (number : ℕ) → IsPrefix prefix
        → covers family number (rank_of prefix place slot) ≡ holds prefix family number }
{}
