//! What holds of what goes over to other settings: each function's contract is a law, and its body does nothing.

ghost use Rattle.std.specs.Prelude.{◌≡◌, ◌≤◌, ℕ, List, map, Some, true};
ghost use Rattle.dots_settings.specs.Settings.{SettingsValue, IsSettings};
ghost use Rattle.dots_history.specs.declared.entry.Entry.{Entry};
ghost use Rattle.dots_history.specs.Histories.{IsPart, alone};
ghost use Rattle.dots_history.specs.Keeping.{kept};
ghost use Rattle.dots_history.specs.Fits.{last_time, is_calm};
ghost use Rattle.host_checks.specs.Migrating.{with_domain, carried, all_carried, migrated, AreNoLess, KeepsDomain, KeepsLines, KeepsLinesOf, StandsThere};

/// What is taken is calm by the new settings, and each entry of it is one of those that were there, in their order, with its domain found by
/// name.
pub fn what_is_taken()
    ensures calm { (old new : SettingsValue) (entries : List Entry) → is_calm new (migrated old new entries) ≡ true }
    ensures part { (old new : SettingsValue) (entries : List Entry) → IsPart (migrated old new entries) (all_carried old new entries) }
{}

/// Of a domain whose entries are all the new settings' own, no entry is left out, where no limit became less. They are where the lines that
/// concern the domain say what they said. What stands of it then is what stood.
pub fn a_domain_is_kept()
    ensures entries { (old new : SettingsValue) (domain number : ℕ) (entries : List Entry) → IsSettings old → IsSettings new → is_calm old entries ≡ true
        → KeepsDomain old new domain number entries → alone number (migrated old new entries) ≡ map (λ e. with_domain e number) (alone domain entries) }
    ensures lines { (old new : SettingsValue) (domain number : ℕ) (entries : List Entry) → IsSettings old → KeepsLines old new domain number → is_calm old entries ≡ true
        → KeepsDomain old new domain number entries }
    ensures stands { (old new : SettingsValue) (domain number n t : ℕ) (history : List Entry) → IsSettings old → IsSettings new → is_calm old history ≡ true
        → last_time history ≤ t → KeepsLines old new domain number → StandsThere n t domain number history (migrated old new (kept n t history)) }
{}

/// Where the lines that concern the domains of all entries say what they said, and no limit became less, nothing is left out.
pub fn nothing_is_left_out()
    ensures { (old new : SettingsValue) (entries : List Entry) → IsSettings old → IsSettings new → is_calm old entries ≡ true → AreNoLess old.limits new.limits
        → KeepsLinesOf old new entries → map Some (migrated old new entries) ≡ map (carried old new) entries }
{}
