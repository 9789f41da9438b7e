//! What the definitions come to: each function's contract is a law, and its body does nothing.

ghost use Rattle.std.specs.Prelude.{◌≡◌, ◌++◌, ◌∷◌, [], true, List};
ghost use Rattle.dots_settings.specs.Settings.{SettingsValue};
ghost use Rattle.dots_settings.specs.Lookups.{role_of};
ghost use Rattle.dots_history.specs.declared.entry.Entry.{Entry};
ghost use Rattle.dots_history.specs.Calm.{may_act};
ghost use Rattle.http_cut.specs.Requests.{Request};
ghost use Rattle.dots_registry.specs.RegistryValues.{RegistryValue, Represents, IsOf, time_of};
ghost use Rattle.rest_answers.specs.declared.caller.Caller.{Caller};
ghost use Rattle.rest_answers.specs.Answer.{RestAnswer};
ghost use Rattle.rest_answers.specs.Answers.{Answers};
ghost use Rattle.dots_data.specs.Accepting.{IsInUse, IsAcceptable, CanCarryOut};

/// What the rules accept can be carried out: a registry in use takes the entry of each request that is accepted from a caller that may act for
/// its domain.
pub fn accepted_can_be_carried_out()
    ensures { (settings : SettingsValue) (registry : RegistryValue) (caller : Caller) (message : Request) (answered : RestAnswer)
        → IsOf settings registry → IsInUse settings registry → may_act settings (role_of settings caller.peer) caller.domain ≡ true
        → ((history : List Entry) → Represents registry history → Answers settings (time_of registry) history caller message answered)
        → CanCarryOut settings registry answered }
{}

/// A registry of no entries at time 0 is in use; and one in use stays so when it takes an entry that can be taken.
pub fn registries_stay_in_use()
    ensures new { (settings : SettingsValue) (registry : RegistryValue) → Represents registry [] → time_of registry ≡ 0 → IsInUse settings registry }
    ensures taking { (settings : SettingsValue) (registry next : RegistryValue) (entry : Entry) → IsInUse settings registry → IsAcceptable settings registry entry
        → ((history : List Entry) → Represents registry history → Represents next (history ++ entry ∷ [])) → time_of next ≡ entry.time → IsInUse settings next }
{}
