//! What time and later entries make of a history.

ghost use Rattle.std.specs.Prelude.{◌≡◌, ◌≤◌, ◌+◌, ◌*◌, ◌++◌, ◌∷◌, [], ℕ, true, false, ◌==◌, List, length, filter, None};
ghost use Rattle.std.specs.List.{list_all, list_any};
ghost use Rattle.dots_history.specs.declared.entry.Entry.{Entry};
ghost use Rattle.dots_history.specs.declared.status.Status.{Status};
ghost use Rattle.dots_history.specs.declared.status.Status.TheVariants.{Ended};
ghost use Rattle.dots_history.specs.Histories.{Within, IsPart, Kept, Calm, status, live, view, mitigations, recent, held, last, remembered, alone};
ghost use Rattle.dots_history.specs.Rows.{plain_rows, acl_rows, is_mitigating, is_active, fate};
ghost use Rattle.acl_lists.specs.Fates.{fate_by_rows};
ghost use Rattle.ip_scope.specs.Prefix.{PrefixValue, holds};
ghost use Rattle.acl_lists.specs.declared.ace.Ace.{Ace};
ghost use Rattle.acl_lists.specs.declared.acl.Acl.{Acl};
ghost use Rattle.acl_lists.specs.declared.acl.Activation.{Activation};
ghost use Rattle.acl_lists.specs.declared.packet.Packet.{Packet};
ghost use Rattle.acl_lists.specs.Matching.{ace_matches};
ghost use Rattle.dots_history.specs.Keeping.{kept, HasPeerOfEach};
ghost use Rattle.dots_settings.specs.Settings.{SettingsValue};
ghost use Rattle.dots_history.specs.Calm.{IsCalmBy, is_own, capacities_of};
ghost use Rattle.dots_history.specs.Capacities.{Capacities, KeepsCapacities, belongs, most_named};
ghost use Rattle.dots_history.specs.Firsts.{IsFirstEnder};
ghost use Rattle.dots_history.specs.HistoryReading.{SaySame};
ghost use Rattle.dots_history.specs.Turns.{Turn, TurnsRise, time_after, applied, view_after};
ghost use Rattle.dots_history.specs.Views.{view_at, view_with, mitigations_of};
ghost use Rattle.dots_history.specs.Containing.{scrubs_inside, lists_inside};

/// A mitigation that is ended stays ended whatever is appended, and one that isn't live is never live again, whatever
/// comes later. The first entry that ends a mitigation is one.
pub fn what_is_over_stays_over()
    ensures ended { (put : Entry) (s : Status) (later more : List Entry) → status put s later ≡ Ended → status put s (later ++ more) ≡ Ended }
    ensures dead { (put : Entry) (s : Status) (low high : ℕ) (later : List Entry)
        → live low put s ≡ false → Within low later high → live high put (status put s later) ≡ false }
    ensures first { (put : Entry) (later : List Entry) (j k : ℕ) → IsFirstEnder put later j → IsFirstEnder put later k → j ≡ k }
{}

/// Views go on: the view at a later time is a function of the view now, in which the mitigations that are no longer
/// live are left out; the view with one more entry, at its time, is a function of the view at any time up to that, and
/// of the entry. So histories whose views are equal at a time keep equal views, whatever is appended to both.
pub fn views_go_on()
    ensures ageing { (n t u : ℕ) (entries : List Entry) → t ≤ u → view n u entries ≡ view_at u (view n t entries) }
    ensures adding { (n t : ℕ) (e : Entry) (entries : List Entry) → t ≤ e.time → view n e.time (entries ++ e ∷ []) ≡ view_with n e (view n t entries) }
    ensures going_on { (n t u : ℕ) (xs ys more : List Entry) → view n t xs ≡ view n t ys → Within t more u → view n u (xs ++ more) ≡ view n u (ys ++ more) }
{}

/// Keeping composes: a history keeps itself; what keeps a part that keeps the whole keeps the whole; what keeps it at a
/// time keeps it later; and the same entries may be appended to both.
pub fn keeping_composes()
    ensures itself { (n t : ℕ) (entries : List Entry) → Kept n t entries entries }
    ensures twice { (n t : ℕ) (fewest few all : List Entry) → Kept n t fewest few → Kept n t few all → Kept n t fewest all }
    ensures later { (n t u : ℕ) (few all : List Entry) → t ≤ u → Kept n t few all → Kept n u few all }
    ensures appended { (n t u : ℕ) (few all more : List Entry) → Kept n t few all → Within t more u → Kept n u (few ++ more) (all ++ more) }
{}

/// From a history and its view at a time, a list of turns in each of which time moves or an entry is accepted makes the
/// view of the history with these entries, at the time of the last turn.
pub fn turns_make_the_view()
    ensures { (n low : ℕ) (before : List Entry) (turns : List Turn) → TurnsRise low turns
        → view_after n (view n low before) turns ≡ view n (time_after low turns) (before ++ applied turns) }
{}

/// What is read of a history is a function of its view: histories of one view say the same.
pub fn views_are_read()
    ensures { (n t : ℕ) (xs ys : List Entry) → view n t xs ≡ view n t ys → SaySame n t xs ys }
{}

/// Dropping what a view doesn't name: of a calm history the entries that its view names are a part with the same view,
/// calm again, and no mitigation is live by them, then or at any later time, which isn't live by all of them. They are
/// at most two for each live mitigation, and one for each of the others that the view has.
pub fn what_is_named_has_the_view()
    ensures view { (n t : ℕ) (entries : List Entry) → Within 0 entries t → Calm entries → Kept n t (kept n t entries) entries }
    ensures calm { (n t high : ℕ) (entries : List Entry) → Within 0 entries high → Calm entries → Calm (kept n t entries) }
    ensures lives { (n t u : ℕ) (entries : List Entry) → Within 0 entries u → Calm entries → IsPart (mitigations u (kept n t entries)) (mitigations u entries) }
    ensures few { (n t : ℕ) (entries : List Entry)
        → length (kept n t entries) ≤ 2 * length (mitigations t entries) + length (recent n entries) + length (held entries) + length (last entries) }
{}

/// A history that keeps its capacities has a view that names at most so many entries: for each domain two for each live
/// mitigation, one for each registered client and one for each alias and access list of those; the remembered messages
/// of each peer and domain; one session configuration of each peer; and the last entry.
pub fn capacities_bound_what_is_named()
    ensures { (room : Capacities) (n t : ℕ) (entries : List Entry) → list_all (belongs room) entries ≡ true → KeepsCapacities room t entries
        → length (kept n t entries) ≤ most_named room n }
{}

/// By the settings of a server: the empty history is calm; of a calm history the entries that its view names are calm
/// again, and they are at most so many as the settings' capacities say.
pub fn calm_by_settings()
    ensures empty { (settings : SettingsValue) (t : ℕ) → IsCalmBy settings t [] }
    ensures named { (settings : SettingsValue) (n t : ℕ) (entries : List Entry) → IsCalmBy settings t entries → IsCalmBy settings t (kept n t entries) }
    ensures few { (settings : SettingsValue) (n t : ℕ) (entries : List Entry) → IsCalmBy settings t entries
        → length (kept n t entries) ≤ most_named (capacities_of settings) n }
{}

/// The empty history is calm; and an entry of the settings' own that has the peer of each live mitigation that it
/// touches keeps a history of such entries calm. That the session configurations of a peer are of one domain follows
/// from the settings.
pub fn calm_goes_on()
    ensures empty { Calm [] }
    ensures more { (settings : SettingsValue) (entries : List Entry) (e : Entry) → Calm entries → HasPeerOfEach entries e
        → list_all (is_own settings) entries ≡ true → is_own settings e ≡ true → Calm (entries ++ e ∷ []) }
{}

/// What a domain comes to is what its own entries come to alone: its live mitigations and the replies to its repeats;
/// which of its clients mitigate, and whether a list of theirs is active; its scrub rows and list rows, and so the fate
/// of a packet by these; and, of a calm history, what is held of it, its registrations, aliases, access lists and
/// session configurations.
pub fn domains_are_apart()
    ensures mitigations { (domain t : ℕ) (entries : List Entry) → mitigations t (alone domain entries) ≡ mitigations_of domain (mitigations t entries) }
    ensures replies { (n t peer domain id : ℕ) (entries : List Entry)
        → remembered n t peer domain id (alone domain entries) ≡ remembered n t peer domain id entries }
    ensures mitigating { (domain t : ℕ) (entries : List Entry) (e : Entry) → (e.domain == domain) ≡ true
        → is_mitigating t (alone domain entries) e ≡ is_mitigating t entries e }
    ensures active { (domain t : ℕ) (entries : List Entry) (e : Entry) (a : Activation) → (e.domain == domain) ≡ true
        → is_active t (alone domain entries) e a ≡ is_active t entries e a }
    ensures rows { (domain t : ℕ) (entries : List Entry)
        → plain_rows t (alone domain entries) ≡ filter (λ row. row.domain == domain) (plain_rows t entries) }
    ensures lists { (domain t : ℕ) (entries : List Entry) → acl_rows t (alone domain entries) ≡ filter (λ row. row.domain == domain) (acl_rows t entries) }
    ensures fates { (prefixes : ℕ → List PrefixValue) (domain t : ℕ) (entries : List Entry) (packet : Packet)
        → fate prefixes t (alone domain entries) packet ≡ fate_by_rows prefixes (filter (λ row. row.domain == domain) (plain_rows t entries))
        (filter (λ row. row.domain == domain) (acl_rows t entries)) packet }
    ensures written { (domain : ℕ) (entries : List Entry) → Calm entries → held (alone domain entries) ≡ alone domain (held entries) }
{}

/// Where the entries are the settings' own, the prefix of each scrub row lies inside the domain of its client, and so
/// does each destination in a list row; and an entry of a list without a destination matches only packets that go to
/// the domain.
pub fn filters_lie_inside()
    ensures scrubs { (settings : SettingsValue) (t : ℕ) (entries : List Entry) → list_all (is_own settings) entries ≡ true
        → list_all (scrubs_inside settings) (plain_rows t entries) ≡ true }
    ensures lists { (settings : SettingsValue) (t : ℕ) (entries : List Entry) → list_all (is_own settings) entries ≡ true
        → list_all (lists_inside settings) (acl_rows t entries) ≡ true }
    ensures anywhere { (acl : Acl) (ace : Ace) (domain : List PrefixValue) (packet : Packet) → ace.destination ≡ None
        → ace_matches acl ace domain packet ≡ true
        → list_any (λ (prefix : PrefixValue). holds prefix packet.destination.family packet.destination.number) domain ≡ true }
{}
