//! What the definitions come to: each function's contract is a law, and its body does nothing.

ghost use Rattle.std.specs.Prelude.{◌≡◌, ◌<◌, ◌≤◌, ◌⊎◌, ◌^◌, ◌++◌, ◌∷◌, ℕ, List, [], false, true, Some, None, length, map};
ghost use Rattle.dots_settings.specs.Settings.{IsSettings, SettingsValue};
ghost use Rattle.dots_history.specs.declared.entry.Entry.{Entry};
ghost use Rattle.dots_gateway.specs.declared.exchange.Exchange.{Exchange};
ghost use Rattle.dots_gateway.specs.declared.exchange.Waiting.{Waiting};
ghost use Rattle.dots_gateway.specs.Exchanges.{left_at, waiting_again};
ghost use Rattle.dots_history.specs.Calm.{is_own};
ghost use Rattle.slot_journal.specs.Values.{IsEntry};
ghost use Rattle.slot_journal.specs.Untaken.{IsApart};
ghost use Rattle.gateway_agent.specs.Crashes.{AreAlike, HasThe, HasYoung};
ghost use Rattle.gateway_agent.specs.Exchanges.{IsStore, last_time, young_at};
ghost use Rattle.gateway_agent.specs.Forms.{entry_of, exchange_domain, exchange_in, is_of_request};
ghost use Rattle.gateway_agent.specs.Refusing.{IsStray};

/// An exchange of a request of the signal channel is read back from its entry, and an entry of which one is read is its entry.
pub fn one_form()
    ensures back { (x : Exchange) → is_of_request x ≡ true → x.number < 2 ^ 64 → exchange_in (entry_of x) ≡ Some x }
    ensures only { (e : Entry) (x : Exchange) → IsEntry e → exchange_in e ≡ Some x → e ≡ entry_of x }
{}

/// No server has an entry in the domain of these entries. So a server refuses a disk that holds one, at its first slot, and a store
/// refuses one that holds a server's.
pub fn no_servers()
    ensures own { (settings : SettingsValue) (e : Entry) → IsSettings settings → e.domain ≡ exchange_domain → is_own settings e ≡ false }
    ensures server { (settings : SettingsValue) (x : Exchange) (later : List Entry) → IsSettings settings → IsApart settings (entry_of x ∷ later) 0 }
    ensures store { (settings : SettingsValue) (most : ℕ) (e : Entry) (later : List Entry) → IsSettings settings → is_own settings e ≡ true
        → (exchange_in e ≡ None) × IsStray most (e ∷ later) 0 }
{}

/// The young exchanges of a store are its last ones, and they are no more than may be young at once.
pub fn young_are_last()
    ensures last { (most now : ℕ) (exchanges : List Exchange) → IsStore most exchanges → (gone : List Exchange) × (exchanges ≡ gone ++ young_at now exchanges) }
    ensures few { (most now : ℕ) (exchanges : List Exchange) → IsStore most exchanges → last_time exchanges ≤ now → length (young_at now exchanges) ≤ most }
{}

/// The young exchanges are those that wait, once they are put back into a gateway.
pub fn young_wait()
    ensures { (now : ℕ) (exchanges : List Exchange) → map (λ (k : Waiting). k.exchange) (left_at now (map waiting_again exchanges)) ≡ young_at now exchanges }
{}

/// Whatever a crash leaves while an exchange is kept, the store that a disk then holds is one: in it the exchanges that were young are young, or
/// these and the new one, and its last number is that of the same.
pub fn young_survive()
    ensures { (settings : SettingsValue) (most now : ℕ) (exchanges found : List Exchange) (x : Exchange) (image : ℕ → ℕ)
        → HasYoung settings most now exchanges x image → IsStore most found → HasThe settings found image
        → AreAlike now found exchanges ⊎ AreAlike now found (exchanges ++ x ∷ []) }
{}
