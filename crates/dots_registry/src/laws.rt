//! What the definitions come to: each function's contract is a law, and its body does nothing.

ghost use Rattle.std.specs.Prelude.{◌≡◌, ℕ, ◌<◌, true, List};
ghost use Rattle.std.specs.List.{list_all};
ghost use Rattle.dots_settings.specs.Settings.{SettingsValue};
ghost use Rattle.dots_history.specs.declared.entry.Entry.{Entry};
ghost use Rattle.dots_history.specs.Histories.{Kept, Calm};
ghost use Rattle.dots_history.specs.Keeping.{kept};
ghost use Rattle.dots_history.specs.Calm.{is_own};
ghost use Rattle.dots_history.specs.Containing.{scrubs_inside, lists_inside};
ghost use Rattle.live_mitigations.specs.LiveValues.{rows_for};
ghost use Rattle.held_resources.specs.Tables.{SameButSlots};
ghost use Rattle.coap_exchange.specs.Rings.{messages_of, reply_to};
ghost use Rattle.dots_registry.specs.RegistryValues.{RegistryValue, Represents, IsOf, SameSize, time_of, domains_of, number_remembered};
ghost use Rattle.dots_registry.specs.Fitting.{FitsIn, fits_now};

/// A registry that represents a history represents each part of it that has its view, so for what the view names of a calm
/// history: entries that a compaction leaves out change nothing of it.
pub fn parts_with_the_view_are_represented()
    ensures part { (registry : RegistryValue) (few all : List Entry) → Kept (number_remembered registry) (time_of registry) few all
        → Represents registry all → Represents registry few }
    ensures named { (registry : RegistryValue) (entries : List Entry) → Calm entries → Represents registry entries
        → Represents registry (kept (number_remembered registry) (time_of registry) entries) }
{}

/// Registries of one size and time that represent one history keep the same mitigations and, but for slots, the same things, answer the same replies,
/// and have the same rows.
pub fn registries_are_one()
    ensures mitigations { (a b : RegistryValue) (entries : List Entry) → SameSize a b → Represents a entries → Represents b entries
        → (domain : ℕ) → domain < domains_of a → rows_for a.live domain ≡ rows_for b.live domain }
    ensures things { (a b : RegistryValue) (entries : List Entry) → SameSize a b → Represents a entries → Represents b entries → SameButSlots a.held b.held }
    ensures replies { (a b : RegistryValue) (entries : List Entry) → SameSize a b → Represents a entries → Represents b entries
        → (now peer domain id : ℕ) → reply_to id now (messages_of peer domain a.rings) ≡ reply_to id now (messages_of peer domain b.rings) }
    ensures scrubs { (a b : RegistryValue) (entries : List Entry) → SameSize a b → Represents a entries → Represents b entries → a.filters.scrubs ≡ b.filters.scrubs }
    ensures acls { (a b : RegistryValue) (entries : List Entry) → SameSize a b → Represents a entries → Represents b entries → a.filters.acls ≡ b.filters.acls }
{}

/// Where the entries are the settings' own, the prefix of each row of a mitigation lies inside the domain of its client, and so
/// does each destination in a row of an access list.
pub fn rows_lie_inside()
    ensures scrubs { (settings : SettingsValue) (registry : RegistryValue) (entries : List Entry) → Represents registry entries
        → list_all (is_own settings) entries ≡ true → list_all (scrubs_inside settings) registry.filters.scrubs ≡ true }
    ensures lists { (settings : SettingsValue) (registry : RegistryValue) (entries : List Entry) → Represents registry entries
        → list_all (is_own settings) entries ≡ true → list_all (lists_inside settings) registry.filters.acls ≡ true }
{}

/// Whether an entry fits is the same for all histories that a registry represents; and what fits one of them can be applied.
pub fn what_fits_is_one()
    ensures same { (settings : SettingsValue) (registry : RegistryValue) (xs ys : List Entry) (e : Entry) → IsOf settings registry
        → Represents registry xs → Represents registry ys → fits_now settings registry xs e ≡ fits_now settings registry ys e }
    ensures some { (settings : SettingsValue) (registry : RegistryValue) (entries : List Entry) (e : Entry) → IsOf settings registry
        → Represents registry entries → fits_now settings registry entries e ≡ true → FitsIn registry e }
{}
