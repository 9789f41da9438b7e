//! When a history is calm, entry by entry, by the settings of a server.

ghost use Rattle.std.specs.Prelude.{◌≡◌, ℕ, ◌≤◌, ◌++◌, ◌∷◌, ◌&&◌, [], true, List};
ghost use Rattle.dots_settings.specs.Settings.{SettingsValue};
ghost use Rattle.dots_history.specs.declared.entry.Entry.{Entry};
ghost use Rattle.dots_history.specs.Histories.{IsHistory, tally, held};
ghost use Rattle.dots_history.specs.Keeping.{kept};
ghost use Rattle.dots_history.specs.Calm.{IsCalmBy};
ghost use Rattle.dots_history.specs.Capacities.{is_registration};
ghost use Rattle.dots_history.specs.Fits.{last_time, joins, is_calm};
ghost use Rattle.dots_history.specs.Tables.{Client, is_of};

/// The empty history is calm, and an entry that joins a calm history keeps it calm; what stands before an entry of a
/// calm history is calm, and the entry joins it.
pub fn entries_join()
    ensures empty { (settings : SettingsValue) → is_calm settings [] ≡ true }
    ensures more { (settings : SettingsValue) (entries : List Entry) (e : Entry) → is_calm settings entries ≡ true → joins settings entries e ≡ true
        → is_calm settings (entries ++ e ∷ []) ≡ true }
    ensures parts { (settings : SettingsValue) (entries : List Entry) (e : Entry) (more : List Entry) → is_calm settings (entries ++ e ∷ more) ≡ true
        → (is_calm settings entries ≡ true) × (joins settings entries e ≡ true) }
{}

/// What a view names of a calm history is calm again, entry by entry: each of its entries joins those of them before
/// it.
pub fn what_is_named_is_calm()
    ensures { (settings : SettingsValue) (n t : ℕ) (entries : List Entry) → is_calm settings entries ≡ true → is_calm settings (kept n t entries) ≡ true }
{}

/// A calm history is a history; it is calm at its end, at each time from its last entry on; and what is calm at a time
/// is calm later.
pub fn calm_holds_at_the_end()
    ensures history { (settings : SettingsValue) (entries : List Entry) → is_calm settings entries ≡ true → IsHistory entries }
    ensures end { (settings : SettingsValue) (t : ℕ) (entries : List Entry) → is_calm settings entries ≡ true → last_time entries ≤ t
        → IsCalmBy settings t entries }
    ensures later { (settings : SettingsValue) (t u : ℕ) (entries : List Entry) → IsCalmBy settings t entries → t ≤ u → IsCalmBy settings u entries }
{}

/// In a calm history at most one registration of a client is held.
pub fn clients_register_once()
    ensures { (settings : SettingsValue) (client : Client) (entries : List Entry) → is_calm settings entries ≡ true
        → tally (λ (e : Entry). is_registration e.change && is_of client e) (held entries) ≤ 1 }
{}
