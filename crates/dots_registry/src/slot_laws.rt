//! Laws of the slots that a compaction keeps: each function's contract is a law, and its body does nothing.

ghost use Rattle.std.specs.Prelude.{◌≡◌, ℕ, ◌++◌, ◌∷◌, [], true, List, length, map};
ghost use Rattle.std.specs.List.{list_all};
ghost use Rattle.dots_history.specs.declared.entry.Entry.{Entry};
ghost use Rattle.dots_history.specs.Histories.{Within, Calm};
ghost use Rattle.dots_history.specs.Keeping.{names, kept, kept_places};
ghost use Rattle.dots_history.specs.Slots.{Rises};
ghost use Rattle.dots_history.specs.Filed.{Filed, entry_of, slot_of, refiled};
ghost use Rattle.dots_history.specs.KeptPlaces.{at_places, union};
ghost use Rattle.live_mitigations.specs.Rows.{LiveTable};
ghost use Rattle.live_mitigations.specs.LiveValues.{is_inside, SlotsAre};
ghost use Rattle.held_resources.specs.Rows.{rows_of};
ghost use Rattle.coap_exchange.specs.Rings.{RingValue};
ghost use Rattle.dots_registry.specs.Kept.{RingsAre, last_slot, kept_slots, KeptValue, AreOf, filed_kept, named_slots, filed};
ghost use Rattle.dots_registry.specs.RegistryValues.{has_ring};

/// The slots that are kept at a time are those in which the entries stand that the view of the history names.
pub fn kept_slots_are_named()
    ensures { (n t : ℕ) (tables : List LiveTable) (rings : List RingValue) (filed : List Filed) (items : List ℕ) → Rises items → SlotsAre t tables filed
        → list_all (is_inside (length tables)) (map entry_of filed) ≡ true → RingsAre n rings filed → list_all (has_ring rings) (map entry_of filed) ≡ true
        → union (kept_slots tables rings (last_slot filed) (rows_of filed)) items
        ≡ union (at_places (map slot_of filed) (kept_places (names n t) [] 0 (map entry_of filed))) items }
{}

/// What the view of a calm history names has the slots that are kept: the entries that it doesn't name have none. Where the slots rise, those of
/// what it names rise too, and with new numbers what it names stands in the first slots, in order.
pub fn what_is_named_has_the_slots()
    ensures stay { (n t : ℕ) (slots : KeptValue) (rings : List RingValue) (all : List Filed) → Within 0 (map entry_of all) t → Calm (map entry_of all)
        → AreOf n t slots rings all → AreOf n t slots rings (filed_kept n t all) }
    ensures rise { (n t : ℕ) (all : List Filed) → Rises (map slot_of all) → Rises (named_slots n t all) }
    ensures first { (n t : ℕ) (all : List Filed) → Rises (map slot_of all)
        → map (refiled (named_slots n t all)) (filed_kept n t all) ≡ filed (kept n t (map entry_of all)) }
{}

/// Entries in the first slots are these entries, their slots rise, and one more stands in the next slot.
pub fn entries_stand_in_the_first_slots()
    ensures entries { (entries : List Entry) → map entry_of (filed entries) ≡ entries }
    ensures rise { (entries : List Entry) → Rises (map slot_of (filed entries)) }
    ensures more { (entries : List Entry) (e : Entry) → filed (entries ++ e ∷ []) ≡ filed entries ++ record { entry = e; slot = length entries } ∷ [] }
{}
