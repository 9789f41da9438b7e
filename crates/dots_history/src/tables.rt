//! What the tables of a server cite of a history.

ghost use Rattle.std.specs.Prelude.{◌≡◌, ℕ, ◌≤◌, ◌<◌, ◌++◌, ◌∷◌, ◌&&◌, ◌==◌, [], true, false, not, if◌then◌else◌, List, length, drop, filter, map};
ghost use Rattle.std.specs.List.{list_any, All};
ghost use Rattle.ip_scope.specs.Prefix.{PrefixValue};
ghost use Rattle.acl_lists.specs.declared.packet.Packet.{Packet};
ghost use Rattle.dots_history.specs.declared.entry.Entry.{Entry};
ghost use Rattle.dots_history.specs.declared.status.Status.{Status};
ghost use Rattle.dots_history.specs.Entries.{same_client, is_signal, signals};
ghost use Rattle.dots_history.specs.Histories.{Mitigation, tally, live, seconds_left, mitigations, held};
ghost use Rattle.dots_history.specs.Keeping.{names, kept, kept_places};
ghost use Rattle.dots_history.specs.Slots.{Rises};
ghost use Rattle.dots_history.specs.Rows.{plain_rows, acl_rows, is_mitigating, fate};
ghost use Rattle.dots_history.specs.Capacities.{is_setting};
ghost use Rattle.dots_history.specs.KeptPlaces.{at_places, union, live_places, withdrawal_places, recent_places, last_places, held_places};
ghost use Rattle.dots_history.specs.Tables.{Client, client_of, is_of, bare, bare_mitigation, has_mid, AreApart, writes_alias, writes_acl, end_of, is_before, seconds_until, is_due, ring, pushed};
ghost use Rattle.dots_history.specs.Views.{mitigations_at, mitigations_with, mitigations_of};

/// A client is a value: entries are of one client exactly where they are of the same domain and cuid.
pub fn clients_are_values()
    ensures same { (a b : Entry) → same_client a b ≡ is_of (client_of a) b }
    ensures of { (client : Client) (e : Entry) → is_of client e ≡ true → client_of e ≡ client }
    ensures own { (e : Entry) → is_of (client_of e) e ≡ true }
{}

/// All but the remembered replies is the same for entries without their message and reply: the live mitigations, what
/// is held, the rows, who is mitigating, and the fate of each packet.
pub fn messages_matter_to_repeats_alone()
    ensures live { (t : ℕ) (entries : List Entry) → mitigations t (map bare entries) ≡ map bare_mitigation (mitigations t entries) }
    ensures written { (entries : List Entry) → held (map bare entries) ≡ map bare (held entries) }
    ensures rows { (t : ℕ) (entries : List Entry) → plain_rows t (map bare entries) ≡ plain_rows t entries }
    ensures lists { (t : ℕ) (entries : List Entry) → acl_rows t (map bare entries) ≡ acl_rows t entries }
    ensures mitigating { (t : ℕ) (entries : List Entry) (e : Entry) → is_mitigating t (map bare entries) (bare e) ≡ is_mitigating t entries e }
    ensures fates { (prefixes : ℕ → List PrefixValue) (t : ℕ) (entries : List Entry) (packet : Packet)
        → fate prefixes t (map bare entries) packet ≡ fate prefixes t entries packet }
{}

/// There is at most one live mitigation of a client and mid, and no two live ones of a client overlap; at most one
/// alias and one access list of a client and name is held, and one session configuration of a peer.
pub fn there_is_one_at_most()
    ensures mid { (client : Client) (mid t : ℕ) (entries : List Entry)
        → tally (λ (m : Mitigation). is_of client m.put && has_mid mid m.put) (mitigations t entries) ≤ 1 }
    ensures apart { (t : ℕ) (entries : List Entry) → AreApart (mitigations t entries) }
    ensures alias { (client : Client) (name : List ℕ) (entries : List Entry)
        → tally (λ (e : Entry). is_of client e && writes_alias name e.change) (held entries) ≤ 1 }
    ensures acl { (client : Client) (name : List ℕ) (entries : List Entry)
        → tally (λ (e : Entry). is_of client e && writes_acl name e.change) (held entries) ≤ 1 }
    ensures configuration { (peer : ℕ) (entries : List Entry) → tally (λ (e : Entry). is_setting e.change && (e.peer == peer)) (held entries) ≤ 1 }
{}

/// A mitigation has an end, by what was done to it: it is live exactly before that; while it is, the seconds left are
/// those until then; and of the mitigations that are live now those are live later that aren't due.
pub fn a_mitigation_has_an_end()
    ensures lives { (t : ℕ) (put : Entry) (s : Status) → live t put s ≡ is_before t (end_of put s) }
    ensures left { (t : ℕ) (put : Entry) (s : Status) → live t put s ≡ true → seconds_left t put s ≡ seconds_until t (end_of put s) }
    ensures due { (u : ℕ) (ms : List Mitigation) → mitigations_at u ms ≡ filter (λ m. not (is_due u m)) ms }
    ensures none_due { (u : ℕ) (ms : List Mitigation) → list_any (is_due u) ms ≡ false → mitigations_at u ms ≡ ms }
{}

/// One more entry acts on the live mitigations of its own domain alone; on those of the others time alone acts; and an
/// entry that is no signal entry acts on none.
pub fn entries_act_in_their_domain()
    ensures own { (domain : ℕ) (e : Entry) (ms : List Mitigation) → (e.domain == domain) ≡ true
        → mitigations_of domain (mitigations_with e ms) ≡ mitigations_with e (mitigations_of domain ms) }
    ensures others { (domain : ℕ) (e : Entry) (ms : List Mitigation) → (e.domain == domain) ≡ false
        → mitigations_of domain (mitigations_with e ms) ≡ mitigations_at e.time (mitigations_of domain ms) }
    ensures quiet { (e : Entry) (ms : List Mitigation) → is_signal e.change ≡ false → mitigations_with e ms ≡ mitigations_at e.time ms }
{}

/// The last so many signal entries of a peer and domain are a ring: one more of theirs goes to its end, and the first
/// goes where the ring is full; any other entry leaves it as it is.
pub fn messages_are_remembered_in_a_ring()
    ensures push { (n peer domain : ℕ) (e : Entry) (entries : List Entry)
        → ring n peer domain (entries ++ e ∷ []) ≡ (if signals peer domain e then pushed n e (ring n peer domain entries) else ring n peer domain entries) }
    ensures room { (n : ℕ) (e : Entry) (es : List Entry) → length es < n → pushed n e es ≡ es ++ e ∷ [] }
    ensures full { (n : ℕ) (e : Entry) (es : List Entry) → length es ≡ n → pushed n e es ≡ drop 1 (es ++ e ∷ []) }
    ensures few { (n peer domain : ℕ) (entries : List Entry) → length (ring n peer domain entries) ≤ n }
{}

/// What stands at the places that a view names is what it names; these places rise and are places of the history, the
/// last of which is among them; and they are the union of the places of the live mitigations, of their first
/// withdrawals, of the last so many signal entries of each peer and domain, of the last entry and of what is held.
pub fn kept_places_are_places()
    ensures there { (n t : ℕ) (entries : List Entry) → at_places entries (kept_places (names n t) [] 0 entries) ≡ kept n t entries }
    ensures rise { (n t : ℕ) (entries : List Entry) → Rises (kept_places (names n t) [] 0 entries) }
    ensures inside { (n t : ℕ) (entries : List Entry) → All (λ place. place < length entries) (kept_places (names n t) [] 0 entries) }
    ensures last { (n t : ℕ) (entries : List Entry) (e : Entry)
        → list_any (λ place. place == length entries) (kept_places (names n t) [] 0 (entries ++ e ∷ [])) ≡ true }
    ensures union { (n t : ℕ) (entries : List Entry) → kept_places (names n t) [] 0 entries
        ≡ union (union (live_places t entries) (withdrawal_places t entries))
        (union (union (recent_places n entries) (last_places entries)) (held_places entries)) }
{}
