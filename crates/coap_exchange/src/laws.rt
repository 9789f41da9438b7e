//! What the definitions come to: each function's contract is a law, and its body does nothing.

ghost use Rattle.std.specs.Prelude.{◌≡◌, ℕ, ◌+◌, ◌*◌, ◌++◌, ◌∷◌, [], true, false, List, Some, map, option_map, slice_get};
ghost use Rattle.std.specs.List.{list_any};
ghost use Rattle.dots_history.specs.declared.entry.Entry.{Entry};
ghost use Rattle.dots_history.specs.Entries.{is_signal};
ghost use Rattle.dots_history.specs.Histories.{remembered};
ghost use Rattle.dots_history.specs.Places.{lasts};
ghost use Rattle.dots_history.specs.Slots.{Rises, number_in};
ghost use Rattle.coap_exchange.specs.declared.pair.Pair.{Pair};
ghost use Rattle.coap_exchange.specs.Noting.{Call, after_call, after_calls, noted_by, all_noted, AllHave, message_of, AllRemember};
ghost use Rattle.coap_exchange.specs.declared.message.Message.{Message};
ghost use Rattle.coap_exchange.specs.Pairs.{is_pair};
ghost use Rattle.coap_exchange.specs.Resending.{GaveUp, answer_to_timeout};
ghost use Rattle.coap_exchange.specs.Sent.{given, repeated, due_at, timeout_of};
ghost use Rattle.coap_exchange.specs.Rings.{RingValue, empty_ring, ring_of, messages_of, reply_to, noted, ring_renumbered};

/// After any list of calls what is remembered of a peer and domain is the last so many of what was noted of them, with the slots as
/// they are numbered last; and each call keeps it so.
pub fn rings_have_the_last()
    ensures start { (n : ℕ) (pairs : List Pair) → AllHave n (map (empty_ring n) pairs) (λ peer domain. []) }
    ensures step { (n : ℕ) (rings : List RingValue) (notes : ℕ → ℕ → List Message) (call : Call) → AllHave n rings notes
        → AllHave n (after_call rings call) (λ peer domain. noted_by peer domain (notes peer domain) call) }
    ensures all { (room : ℕ) (pairs : List Pair) (calls : List Call) (peer domain : ℕ) → list_any (is_pair peer domain) pairs ≡ true
        → messages_of peer domain (after_calls (map (empty_ring room) pairs) calls) ≡ lasts room (all_noted peer domain [] calls) }
{}

/// Rings go on standing for a history: empty ones for the empty history; with the message of a signal entry noted for the
/// history with that entry; as they are where an entry is no signal entry; and with new slots as before. For such a history
/// the reply to a repeat is that of the entry which the definitions of histories name (RFC 7252, section 4.5).
pub fn rings_remember_histories()
    ensures start { (n : ℕ) (pairs : List Pair) → AllRemember n (map (empty_ring n) pairs) [] }
    ensures noted { (n slot : ℕ) (rings : List RingValue) (entries : List Entry) (e : Entry) → is_signal e.change ≡ true → AllRemember n rings entries
        → AllRemember n (noted e.peer e.domain (message_of slot e) rings) (entries ++ e ∷ []) }
    ensures other { (n : ℕ) (rings : List RingValue) (entries : List Entry) (e : Entry) → is_signal e.change ≡ false → AllRemember n rings entries
        → AllRemember n rings (entries ++ e ∷ []) }
    ensures moved { (n : ℕ) (keep : List ℕ) (rings : List RingValue) (entries : List Entry) → AllRemember n rings entries
        → AllRemember n (map (ring_renumbered keep) rings) entries }
    ensures replies { (n now peer domain id : ℕ) (rings : List RingValue) (entries : List Entry) (r : RingValue) → AllRemember n rings entries
        → ring_of peer domain rings ≡ Some r
        → reply_to id now (messages_of peer domain rings) ≡ option_map (λ e. e.reply) (remembered n now peer domain id entries) }
{}

/// Which peers and domains have rings never changes.
pub fn rings_stay()
    ensures noted { (peer domain : ℕ) (message : Message) (rings : List RingValue) → map (λ r. r.pair) (noted peer domain message rings) ≡ map (λ r. r.pair) rings }
    ensures moved { (keep : List ℕ) (rings : List RingValue) → map (λ r. r.pair) (map (ring_renumbered keep) rings) ≡ map (λ r. r.pair) rings }
{}

/// A slot that is kept gets its place among those that are kept.
pub fn slots_become_places()
    ensures { (keep : List ℕ) (place slot : ℕ) → Rises keep → slice_get keep place ≡ Some slot → number_in keep slot ≡ place }
{}

/// A message that is given at n is due at n + W, n + 3·W and n + 7·W, when it is repeated, and at n + 15·W, when it is given
/// up, where W is its initial timeout in milliseconds (RFC 7252, section 4.2).
pub fn timeouts_double()
    ensures first { (bytes : List ℕ) (id n word : ℕ) → due_at (given bytes id n word) ≡ n + timeout_of word }
    ensures second { (bytes : List ℕ) (id n word : ℕ) → due_at (repeated (given bytes id n word)) ≡ n + 3 * timeout_of word }
    ensures third { (bytes : List ℕ) (id n word : ℕ) → due_at (repeated (repeated (given bytes id n word))) ≡ n + 7 * timeout_of word }
    ensures last { (bytes : List ℕ) (id n word : ℕ) → due_at (repeated (repeated (repeated (given bytes id n word)))) ≡ n + 15 * timeout_of word }
    ensures up { (bytes : List ℕ) (id n word : ℕ) → answer_to_timeout (repeated (repeated (repeated (given bytes id n word)))) ≡ GaveUp id }
{}
