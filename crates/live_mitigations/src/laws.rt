//! What the definitions come to: each function's contract is a law, and its body does nothing.

ghost use Rattle.std.specs.Prelude.{◌≡◌, ℕ, ◌<◌, ◌≤◌, ◌++◌, ◌∷◌, ◌==◌, ◌&&◌, [], List, length, map, nat_lt, nat_le, true};
ghost use Rattle.std.specs.List.{list_any, list_all};
ghost use Rattle.dots_history.specs.declared.entry.Entry.{Entry};
ghost use Rattle.dots_history.specs.declared.status.Status.{Status};
ghost use Rattle.dots_history.specs.Histories.{Mitigation, live, tally, mitigations};
ghost use Rattle.dots_history.specs.Entries.{same_client};
ghost use Rattle.dots_history.specs.Tables.{Client, is_of, has_mid, AreApart, is_due, end_of, bare};
ghost use Rattle.dots_history.specs.Views.{mitigations_at, mitigations_with};
ghost use Rattle.live_mitigations.specs.Ends.{never, second_of, first_end};
ghost use Rattle.dots_history.specs.Slots.{Rises};
ghost use Rattle.dots_history.specs.Filed.{Filed, entry_of, slot_of};
ghost use Rattle.dots_history.specs.KeptPlaces.{at_places, union, live_places, withdrawal_places};
ghost use Rattle.live_mitigations.specs.Rows.{LiveTable};
ghost use Rattle.live_mitigations.specs.Numbers.{all_numbers};
ghost use Rattle.live_mitigations.specs.LiveValues.{LiveValue, Represents, ComesTo, SlotsAre, rows_for, is_inside};

/// A mitigation is live exactly before the first second at which it is over; and one of several is over exactly from the
/// first of these seconds on.
pub fn mitigations_end_at_a_second()
    ensures live { (t : ℕ) (put : Entry) (s : Status) → t < never → live t put s ≡ nat_lt t (second_of (end_of put s)) }
    ensures first { (t : ℕ) (ms : List Mitigation) → t < never → list_any (is_due t) ms ≡ nat_le (first_end ms) t }
{}

/// What represents a history comes to it at each later time.
pub fn what_stands_comes_later()
    ensures { (now : ℕ) (live : LiveValue) (entries : List Entry) → live.time ≤ now → Represents live entries → ComesTo now live entries }
{}

/// Of what is kept of a domain no two mitigations of a client have one mid, and no two of them with one
/// trigger value overlap.
pub fn what_is_kept_is_apart()
    ensures mid { (client : Client) (mid domain : ℕ) (live : LiveValue) (entries : List Entry) → domain < live.domains → Represents live entries
        → tally (λ m. is_of client m.put && has_mid mid m.put) (rows_for live domain) ≤ 1 }
    ensures apart { (domain : ℕ) (live : LiveValue) (entries : List Entry) → domain < live.domains → Represents live entries → AreApart (rows_for live domain) }
{}

/// The slots that are kept at a time are those of the entries that a compaction keeps for the live mitigations: of each that is live,
/// and of its first withdrawal.
pub fn live_slots_are_named()
    ensures { (t : ℕ) (tables : List LiveTable) (filed : List Filed) (items : List ℕ) → Rises items → SlotsAre t tables filed
        → list_all (is_inside (length tables)) (map entry_of filed) ≡ true
        → union (all_numbers tables) items
        ≡ union (at_places (map slot_of filed) (union (live_places t (map entry_of filed)) (withdrawal_places t (map entry_of filed)))) items }
{}
