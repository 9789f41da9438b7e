//! Laws of the session configurations of a history (RFC 9132, section 4.5): each function's contract is a law, and its body does nothing.

ghost use Rattle.std.specs.Prelude.{◌≡◌, ℕ, ◌≤◌, ◌<◌, ◌++◌, ◌∷◌, ◌^◌, [], true, List, length};
ghost use Rattle.std.specs.List.{list_all};
ghost use Rattle.dots_settings.specs.declared.limits.Limits.{Limits};
ghost use Rattle.dots_settings.specs.Settings.{SettingsValue};
ghost use Rattle.dots_settings.specs.Lookups.{role_of};
ghost use Rattle.dots_history.specs.declared.entry.Entry.{Entry};
ghost use Rattle.dots_history.specs.Entries.{is_configuration};
ghost use Rattle.dots_history.specs.Bounds.{change_within, within_bounds};
ghost use Rattle.dots_history.specs.Histories.{held, alone};
ghost use Rattle.dots_history.specs.Calm.{may_configure, is_own};
ghost use Rattle.dots_history.specs.Held.{config_of};
ghost use Rattle.dots_registry.specs.RegistryValues.{RegistryValue, Represents, IsOf, time_of};
ghost use Rattle.dots_registry.specs.Fitting.{fits_now};
ghost use Rattle.dots_registry.specs.Limits.{ClientsKeepLimits};

/// An entry that sets or clears the configuration of a session (RFC 9132, section 4.5), which has the domain in which its peer
/// configures it, and no cuid, is the settings' own. An entry with no cuid is within bounds, where its time, its reply and what it
/// sets are. What is configured fits the history at the registry's time, where the clients keep their limits, which they do after
/// it too.
pub fn what_is_configured_is_own_and_fits()
    ensures own { (settings : SettingsValue) (e : Entry) → is_configuration e.change ≡ true
        → may_configure (role_of settings e.peer) e.domain ≡ true → e.cuid ≡ [] → is_own settings e ≡ true }
    ensures bounded { (e : Entry) → e.time < 2 ^ 48 → e.cuid ≡ [] → length e.reply ≤ 64 → change_within e.change ≡ true
        → within_bounds e ≡ true }
    ensures fits { (settings : SettingsValue) (registry : RegistryValue) (entries : List Entry) (e : Entry) → is_configuration e.change ≡ true
        → IsOf settings registry → Represents registry entries → ClientsKeepLimits settings.limits (time_of registry) entries
        → is_own settings e ≡ true → within_bounds e ≡ true → e.time ≡ time_of registry
        → fits_now settings registry entries e ≡ true }
    ensures limits { (limits : Limits) (t : ℕ) (entries : List Entry) (e : Entry) → is_configuration e.change ≡ true
        → ClientsKeepLimits limits t entries → e.time ≡ t → ClientsKeepLimits limits t (entries ++ e ∷ []) }
{}

/// What a peer has configured is read of the entries of the domain in which it configures its session alone, where the entries are
/// the settings' own.
pub fn configurations_are_of_one_domain()
    ensures { (settings : SettingsValue) (entries : List Entry) (peer domain : ℕ) → list_all (is_own settings) entries ≡ true
        → may_configure (role_of settings peer) domain ≡ true
        → config_of peer (held entries) ≡ config_of peer (held (alone domain entries)) }
{}
