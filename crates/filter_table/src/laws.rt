//! What the definitions come to: each function's contract is a law, and its body does nothing.

ghost use Rattle.std.specs.Prelude.{◌≡◌, ℕ, Bool, List, None, map};
ghost use Rattle.filter_table.specs.declared.placed.PlacedAcl.{PlacedAcl};
ghost use Rattle.filter_table.specs.TableRows.{PlacedScrub, scrub_in, with_scrub, without_mitigation, woken, with_acl, without_acl, activated, renumbered, place_of_scrub, scrub_at_place, place_of_acl, acl_at_place};
ghost use Rattle.filter_table.specs.Laws.{AreInOrder, HaveTheirSlots};

/// The rows of mitigations stay in order of place, whatever call is made.
pub fn scrubs_stay_in_order()
    ensures installed { (scrub : PlacedScrub) (placed : List PlacedScrub) → AreInOrder place_of_scrub placed → AreInOrder place_of_scrub (with_scrub scrub placed) }
    ensures removed { (domain : ℕ) (cuid : List ℕ) (mid : ℕ) (placed : List PlacedScrub) → AreInOrder place_of_scrub placed
        → AreInOrder place_of_scrub (without_mitigation domain cuid mid placed) }
    ensures woken { (domain : ℕ) (cuid : List ℕ) (mid : ℕ) (active : Bool) (placed : List PlacedScrub) → AreInOrder place_of_scrub placed
        → AreInOrder place_of_scrub (map (woken domain cuid mid active) placed) }
    ensures renumbered { (placed : List PlacedScrub) → AreInOrder place_of_scrub (renumbered place_of_scrub scrub_at_place placed) }
{}

/// The rows of access lists stay in order of place, whatever call is made.
pub fn acls_stay_in_order()
    ensures set { (list : PlacedAcl) (placed : List PlacedAcl) → AreInOrder place_of_acl placed → AreInOrder place_of_acl (with_acl list placed) }
    ensures dropped { (domain : ℕ) (cuid name : List ℕ) (placed : List PlacedAcl) → AreInOrder place_of_acl placed
        → AreInOrder place_of_acl (without_acl domain cuid name placed) }
    ensures activated { (domain : ℕ) (cuid : List ℕ) (active : Bool) (placed : List PlacedAcl) → AreInOrder place_of_acl placed
        → AreInOrder place_of_acl (map (activated domain cuid active) placed) }
    ensures renumbered { (placed : List PlacedAcl) → AreInOrder place_of_acl (renumbered place_of_acl acl_at_place placed) }
{}

/// No two rows come to have one slot, whatever call is made.
pub fn slots_stay_apart()
    ensures installed { (scrub : PlacedScrub) (placed : List PlacedScrub) → scrub_in scrub.slot placed ≡ None → HaveTheirSlots placed → HaveTheirSlots (with_scrub scrub placed) }
    ensures removed { (domain : ℕ) (cuid : List ℕ) (mid : ℕ) (placed : List PlacedScrub) → HaveTheirSlots placed
        → HaveTheirSlots (without_mitigation domain cuid mid placed) }
    ensures woken { (domain : ℕ) (cuid : List ℕ) (mid : ℕ) (active : Bool) (placed : List PlacedScrub) → HaveTheirSlots placed
        → HaveTheirSlots (map (woken domain cuid mid active) placed) }
    ensures renumbered { (placed : List PlacedScrub) → HaveTheirSlots placed → HaveTheirSlots (renumbered place_of_scrub scrub_at_place placed) }
{}
