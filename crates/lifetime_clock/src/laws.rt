//! What the definitions come to: each function's contract is a law, and its body does nothing.
ghost use Rattle.std.specs.Prelude.{◌≤◌};
ghost use Rattle.lifetime_clock.specs.Times.{Times, IsMap, HasItsKeysIn, count};

/// Where the keys of one map are among those of another, it has at most as many. So the count is that of the keys.
pub fn count_is_of_keys()
    ensures { (times other : Times) → IsMap times → IsMap other → HasItsKeysIn times other → count times ≤ count other }
{}
