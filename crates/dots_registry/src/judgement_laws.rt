//! Laws of what a registry's judgement comes to in a history: each function's contract is a law, and its body does nothing.

ghost use Rattle.std.specs.Prelude.{◌≡◌, ℕ, ◌≤◌, ◌<◌, ◌++◌, ◌∷◌, ◌^◌, ◌||◌, [], true, List, length, Result, Ok};
ghost use Rattle.std.specs.List.{list_any, list_all};
ghost use Rattle.dots_lists.specs.Name.{is_name};
ghost use Rattle.dots_settings.specs.declared.limits.Limits.{Limits};
ghost use Rattle.dots_settings.specs.Settings.{SettingsValue};
ghost use Rattle.dots_settings.specs.Lookups.{role_of, prefixes_of};
ghost use Rattle.dots_history.specs.declared.entry.Entry.{Entry};
ghost use Rattle.dots_history.specs.declared.put.Put.{Put};
ghost use Rattle.dots_history.specs.declared.change.Change.TheVariants as change;
ghost use Rattle.dots_history.specs.declared.entry.MessageKey.TheVariants as key;
ghost use Rattle.dots_history.specs.Entries.{is_loss};
ghost use Rattle.dots_settings.specs.declared.peer.Role.TheVariants as role;
ghost use Rattle.dots_history.specs.Bounds.{asked_within, within_bounds};
ghost use Rattle.dots_history.specs.Histories.{alone};
ghost use Rattle.dots_history.specs.Calm.{may_act, is_client_of, all_inside, name_inside, is_own, IsCalmBy};
ghost use Rattle.dots_history.specs.Fits.{fits};
ghost use Rattle.dots_history.specs.Tables.{Client};
ghost use Rattle.conflict_rules.specs.ByMid.{has_mid};
ghost use Rattle.conflict_rules.specs.Lives.{lives_of};
ghost use Rattle.conflict_rules.specs.declared.fault.PutFault.{PutFault};
ghost use Rattle.conflict_rules.specs.declared.judging.Judged.{Judged};
ghost use Rattle.conflict_rules.specs.Requests.{Request};
ghost use Rattle.dots_registry.specs.RegistryValues.{RegistryValue, Represents, IsOf, time_of};
ghost use Rattle.dots_registry.specs.Fitting.{fits_now};
ghost use Rattle.conflict_rules.specs.ByHistory.{collides, judge_request};
ghost use Rattle.conflict_rules.specs.Statuses.{views_in};
ghost use Rattle.dots_registry.specs.Limits.{ClientsKeepLimits};
ghost use Rattle.conflict_rules.specs.Judgements.{IsTaken, HasMid, IsJudged};

/// The entry of what is granted is the settings' own, where the peer may act for the domain, what it asked for lies inside the
/// domain, and it filters at once or is asked for by a client of the domain; it is within bounds, where the entries and what was asked for are; and it fits the history at the registry's
/// time, where the clients keep their limits, which they do after it too.
pub fn what_is_granted_is_own_and_fits()
    ensures own { (settings : SettingsValue) (t : ℕ) (entries : List Entry) (domain : ℕ) (request : Request) (judged : Judged) (e : Entry)
        → list_all (is_own settings) entries ≡ true
        → may_act settings (role_of settings request.peer) domain ≡ true
        → (request.trigger || is_client_of (role_of settings request.peer) domain) ≡ true
        → all_inside (prefixes_of settings domain) request.asked.prefixes ≡ true
        → list_all (name_inside settings (prefixes_of settings domain)) request.asked.names ≡ true
        → judge_request settings t entries domain request ≡ Ok judged
        → e.peer ≡ request.peer → e.domain ≡ domain → e.cuid ≡ request.cuid → e.change ≡ change.Put judged.put
        → is_own settings e ≡ true }
    ensures bounded { (settings : SettingsValue) (t : ℕ) (entries : List Entry) (domain : ℕ) (request : Request) (judged : Judged) (e : Entry)
        → list_all within_bounds entries ≡ true
        → asked_within request.asked ≡ true
        → e.time < 2 ^ 48 → is_name e.cuid ≡ true → length e.reply ≤ 64
        → judge_request settings t entries domain request ≡ Ok judged
        → e.peer ≡ request.peer → e.domain ≡ domain → e.cuid ≡ request.cuid → e.change ≡ change.Put judged.put
        → within_bounds e ≡ true }
    ensures fits { (settings : SettingsValue) (registry : RegistryValue) (entries : List Entry) (domain : ℕ) (request : Request) (judged : Judged) (e : Entry)
        → IsOf settings registry → Represents registry entries → ClientsKeepLimits settings.limits (time_of registry) entries
        → is_own settings e ≡ true → within_bounds e ≡ true → e.time ≡ time_of registry
        → judge_request settings (time_of registry) entries domain request ≡ Ok judged
        → e.peer ≡ request.peer → e.domain ≡ domain → e.cuid ≡ request.cuid → e.change ≡ change.Put judged.put
        → fits_now settings registry entries e ≡ true }
    ensures limits { (settings : SettingsValue) (t : ℕ) (entries : List Entry) (domain : ℕ) (request : Request) (judged : Judged) (e : Entry)
        → ClientsKeepLimits settings.limits t entries → e.time ≡ t
        → judge_request settings t entries domain request ≡ Ok judged
        → e.peer ≡ request.peer → e.domain ≡ domain → e.cuid ≡ request.cuid → e.change ≡ change.Put judged.put
        → ClientsKeepLimits settings.limits t (entries ++ e ∷ []) }
{}

/// The entry of a withdrawal is the settings' own, where the peer may act for the domain; it is within bounds; and it fits the
/// history at the registry's time, where the clients keep their limits, which they do after it too.
pub fn what_is_withdrawn_is_own_and_fits()
    ensures own { (settings : SettingsValue) (mid : ℕ) (e : Entry) → e.change ≡ change.Withdraw mid
        → may_act settings (role_of settings e.peer) e.domain ≡ true → is_own settings e ≡ true }
    ensures bounded { (mid : ℕ) (e : Entry) → e.change ≡ change.Withdraw mid
        → e.time < 2 ^ 48 → is_name e.cuid ≡ true → length e.reply ≤ 64 → within_bounds e ≡ true }
    ensures fits { (settings : SettingsValue) (registry : RegistryValue) (entries : List Entry) (mid : ℕ) (e : Entry) → e.change ≡ change.Withdraw mid
        → IsOf settings registry → Represents registry entries → ClientsKeepLimits settings.limits (time_of registry) entries
        → is_own settings e ≡ true → within_bounds e ≡ true → e.time ≡ time_of registry
        → fits_now settings registry entries e ≡ true }
    ensures limits { (limits : Limits) (t : ℕ) (entries : List Entry) (mid : ℕ) (e : Entry) → e.change ≡ change.Withdraw mid
        → ClientsKeepLimits limits t entries → e.time ≡ t → ClientsKeepLimits limits t (entries ++ e ∷ []) }
{}

/// An entry that says that the signal of a client peer is lost or back, which has the peer's domain, no cuid, no message and no
/// reply, is the settings' own; it is within bounds; and it fits the history at the registry's time, where the clients keep their
/// limits, which they do after it too.
pub fn what_is_lost_is_own_and_fits()
    ensures own { (settings : SettingsValue) (e : Entry) → is_loss e.change ≡ true → role_of settings e.peer ≡ role.Client e.domain
        → e.domain < length settings.domains → e.cuid ≡ [] → e.key ≡ key.Http → is_own settings e ≡ true }
    ensures bounded { (e : Entry) → is_loss e.change ≡ true → e.time < 2 ^ 48 → e.cuid ≡ [] → e.reply ≡ [] → within_bounds e ≡ true }
    ensures fits { (settings : SettingsValue) (registry : RegistryValue) (entries : List Entry) (e : Entry) → is_loss e.change ≡ true
        → IsOf settings registry → Represents registry entries → ClientsKeepLimits settings.limits (time_of registry) entries
        → is_own settings e ≡ true → within_bounds e ≡ true → e.time ≡ time_of registry
        → fits_now settings registry entries e ≡ true }
    ensures limits { (limits : Limits) (t : ℕ) (entries : List Entry) (e : Entry) → is_loss e.change ≡ true
        → ClientsKeepLimits limits t entries → e.time ≡ t → ClientsKeepLimits limits t (entries ++ e ∷ []) }
{}

/// The clients of the empty history keep their limits; those of a history keep them later; an entry that fits leaves them kept; and
/// those of a calm history keep them.
pub fn client_limits_go_on()
    ensures empty { (limits : Limits) (t : ℕ) → ClientsKeepLimits limits t [] }
    ensures later { (limits : Limits) (t u : ℕ) (entries : List Entry) → t ≤ u → ClientsKeepLimits limits t entries → ClientsKeepLimits limits u entries }
    ensures fitting { (settings : SettingsValue) (t : ℕ) (entries : List Entry) (e : Entry) → ClientsKeepLimits settings.limits t entries → t ≤ e.time
        → fits settings entries e ≡ true → ClientsKeepLimits settings.limits e.time (entries ++ e ∷ []) }
    ensures calm { (settings : SettingsValue) (t : ℕ) (entries : List Entry) → IsCalmBy settings t entries → ClientsKeepLimits settings.limits t entries }
{}

/// A domain's judgements are those of its own entries alone: histories that have the same entries of a domain judge each request
/// for it alike, say alike whether a client's name is in use by another peer, and show the same live mitigations.
pub fn judgements_are_apart()
    ensures judged { (settings : SettingsValue) (t : ℕ) (one other : List Entry) (domain : ℕ) (request : Request) → alone domain one ≡ alone domain other
        → judge_request settings t one domain request ≡ judge_request settings t other domain request }
    ensures collides { (t : ℕ) (one other : List Entry) (peer : ℕ) (client : Client) → alone client.domain one ≡ alone client.domain other
        → collides t one peer client ≡ collides t other peer client }
    ensures shown { (t : ℕ) (one other : List Entry) (domain : ℕ) (cuid : List ℕ) → alone domain one ≡ alone domain other
        → views_in domain cuid t one ≡ views_in domain cuid t other }
{}

/// A request is judged exactly as it is by the places of the entries: the first rule that applies, by what stands, lives or is held
/// at a place, gives the result.
pub fn judgement_by_places()
    ensures there { (settings : SettingsValue) (t : ℕ) (entries : List Entry) (domain : ℕ) (request : Request) (result : Result Judged PutFault)
        → judge_request settings t entries domain request ≡ result
        → IsJudged settings t entries (record { domain = domain; cuid = request.cuid }) request result }
    ensures back { (settings : SettingsValue) (t : ℕ) (entries : List Entry) (domain : ℕ) (request : Request) (result : Result Judged PutFault)
        → IsJudged settings t entries (record { domain = domain; cuid = request.cuid }) request result
        → judge_request settings t entries domain request ≡ result }
{}

/// A client's name is in use by another peer, and a mitigation of a mid of the client stands, exactly where they do by the places
/// of the entries; and at most one stands of a mid.
pub fn names_and_mids_by_places()
    ensures taken { (t : ℕ) (entries : List Entry) (peer : ℕ) (client : Client) → collides t entries peer client ≡ true → IsTaken t entries client peer }
    ensures collides { (t : ℕ) (entries : List Entry) (peer : ℕ) (client : Client) → IsTaken t entries client peer → collides t entries peer client ≡ true }
    ensures stands { (t : ℕ) (entries : List Entry) (client : Client) (mid : ℕ) → list_any (has_mid client.cuid mid) (lives_of client.domain t entries) ≡ true
        → (put : Put) × HasMid t entries client mid put }
    ensures back { (t : ℕ) (entries : List Entry) (client : Client) (mid : ℕ) (put : Put) → HasMid t entries client mid put
        → list_any (has_mid client.cuid mid) (lives_of client.domain t entries) ≡ true }
    ensures one { (t : ℕ) (entries : List Entry) (client : Client) (mid : ℕ) (a b : Put) → HasMid t entries client mid a → HasMid t entries client mid b → a ≡ b }
{}
