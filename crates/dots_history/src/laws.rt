//! What the definitions come to: each function's contract is a law, and its body does nothing.

ghost use Rattle.std.specs.Prelude.{◌≡◌, ℕ, suc, true, List, ◌∷◌, ◌++◌, length, drop, Some, slice_get};
ghost use Rattle.dots_history.specs.declared.entry.Entry.{Entry};
ghost use Rattle.dots_history.specs.declared.status.Status.TheVariants.{Open};
ghost use Rattle.dots_history.specs.Histories.{status, live, stays, held, remembered, Calm};
ghost use Rattle.dots_history.specs.Rows.{is_lost_in};
ghost use Rattle.dots_history.specs.Places.{Live, IsHeld, IsLost, IsCalm, NamedAt, last_repeated};
ghost use Rattle.dots_history.specs.Keeping.{names, tracks};

/// By the status that the later entries leave a mitigation it is live exactly where it stands or is terminating by the
/// places of the entries.
pub fn live_by_places()
    ensures there { (entries : List Entry) (i t : ℕ) (put : Entry) → slice_get entries i ≡ Some put
        → live t put (status put Open (drop (suc i) entries)) ≡ true → Live entries i t put }
    ensures back { (entries : List Entry) (i t : ℕ) (put : Entry) → Live entries i t put
        → live t put (status put Open (drop (suc i) entries)) ≡ true }
{}

/// What was written stays by the later entries exactly where it is held by the places of the entries.
pub fn held_by_places()
    ensures there { (entries : List Entry) (i : ℕ) (e : Entry) → slice_get entries i ≡ Some e → stays e (drop (suc i) entries) ≡ true → IsHeld entries i e }
    ensures back { (entries : List Entry) (i : ℕ) (e : Entry) → IsHeld entries i e → stays e (drop (suc i) entries) ≡ true }
{}

/// The signal of a peer is lost by what is held exactly where it is by the places of the entries: an entry says so, and
/// no later one of that peer and domain that it is lost or back.
pub fn lost_by_places()
    ensures there { (entries : List Entry) (peer domain : ℕ) → is_lost_in (held entries) peer domain ≡ true → IsLost entries peer domain }
    ensures back { (entries : List Entry) (peer domain : ℕ) → IsLost entries peer domain → is_lost_in (held entries) peer domain ≡ true }
{}

/// The remembered reply is that of the last entry which the message may be that of, among the last n signal entries of
/// its peer and domain: those are taken first, and of them those whose message it may be.
pub fn remembered_by_lasts()
    ensures { (n t peer domain id : ℕ) (entries : List Entry) → remembered n t peer domain id entries ≡ last_repeated n t peer domain id entries }
{}

/// The view names an entry, by those before it with what was done to each and those after it, exactly where it does by
/// the places of the entries.
pub fn named_by_places()
    ensures there { (n t : ℕ) (before later : List Entry) (e : Entry) → names n t (tracks before) e later ≡ true
        → NamedAt n t (before ++ e ∷ later) (length before) e }
    ensures back { (n t : ℕ) (before later : List Entry) (e : Entry) → NamedAt n t (before ++ e ∷ later) (length before) e
        → names n t (tracks before) e later ≡ true }
{}

/// A history is calm by its entries, each with those after it, exactly where it is by their places.
pub fn calm_by_places()
    ensures there { (entries : List Entry) → Calm entries → IsCalm entries }
    ensures back { (entries : List Entry) → IsCalm entries → Calm entries }
{}
