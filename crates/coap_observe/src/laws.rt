//! What the definitions come to: each function's contract is a law, and its body does nothing.

ghost use Rattle.std.specs.Prelude.{◌≡◌, ◌≢◌, ℕ, ◌+◌, ◌<◌, true, false, List, Some, option_map, slice_get};
ghost use Rattle.coap_observe.specs.declared.observer.Observer.{Observer};
ghost use Rattle.coap_observe.specs.Observed.{ObservedValue, Sending, next_number, number_after, is_due, notified, numbers_of};
ghost use Rattle.coap_observe.specs.Observing.{own_of, number_for, entered};
ghost use Rattle.coap_observe.specs.Seen.{Lists, list_for};

/// An observer is due exactly where what there is to see isn't what it was notified of last.
pub fn observers_are_due_where_lists_differ()
    ensures due { (lists : Lists) (o : ObservedValue) → is_due lists o ≡ true → o.seen ≢ list_for lists o.observer }
    ensures notified { (lists : Lists) (o : ObservedValue) → is_due lists o ≡ false → o.seen ≡ list_for lists o.observer }
    ensures after { (lists : Lists) (id : ℕ) (o : ObservedValue) → is_due lists (notified id (list_for lists o.observer) o) ≡ false }
{}

/// The numbers of an observer rise by one with each reply and notification, in 24 bits. So of all that is sent to it, no two within
/// 2^24 have the same number (RFC 7641, section 3.4).
pub fn numbers_are_in_order()
    ensures rise { (n k : ℕ) → next_number (number_after k n) ≡ number_after (k + 1) n }
    ensures apart { (n j k : ℕ) → j < k → k < j + 16777216 → number_after j n ≢ number_after k n }
    ensures reply { (observer : Observer) (seen : List (ℕ × ℕ)) (observed : List ObservedValue)
        → option_map (λ o. o.number) (own_of observer (entered observer seen observed)) ≡ Some (next_number (number_for observer observed)) }
    ensures sendings { (o : ObservedValue) (sendings : List Sending) (j k first second : ℕ) → o.number < 16777216
        → slice_get (numbers_of o sendings) j ≡ Some first → slice_get (numbers_of o sendings) k ≡ Some second
        → j < k → k < j + 16777216 → first ≢ second }
    ensures notice { (id : ℕ) (seen : List (ℕ × ℕ)) (o : ObservedValue) → (notified id seen o).number ≡ next_number o.number }
{}
