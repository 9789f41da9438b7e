//! Laws of what clients and peers hold: each function's contract is a law, and its body does nothing.

ghost use Rattle.std.specs.Prelude.{◌≡◌, ℕ, ◌&&◌, ◌++◌, ◌∷◌, [], true, false, List, length, map};
ghost use Rattle.dots_settings.specs.Settings.{SettingsValue};
ghost use Rattle.dots_history.specs.declared.entry.Entry.{Entry};
ghost use Rattle.dots_history.specs.Histories.{held};
ghost use Rattle.dots_history.specs.Rows.{is_lost_in};
ghost use Rattle.dots_history.specs.Entries.{is_loss};
ghost use Rattle.dots_history.specs.Calm.{is_of_settings};
ghost use Rattle.dots_history.specs.Capacities.{loses_as};
ghost use Rattle.dots_history.specs.Filed.{Filed, entry_of, slot_of, refiled};
ghost use Rattle.dots_history.specs.KeptPlaces.{at_places, held_places};
ghost use Rattle.dots_history.specs.Fits.{fits, registers_rightly, is_of_mitigations};
ghost use Rattle.dots_history.specs.Tables.{Client, is_of};
ghost use Rattle.dots_history.specs.Held.{aliases_of, acls_of, is_registered, of_client, of_peer};
ghost use Rattle.held_resources.specs.Tables.{Tables, Represents, SameButSlots, sizes_of, lost_after, lost_in};
ghost use Rattle.held_resources.specs.Rows.{rows_of, rows_with, slots_in, renumbered};
ghost use Rattle.held_resources.specs.Accepting.{accepts, accepts_by, keeps_rooms};

/// Clients are apart: whether a client is registered, its aliases and its access lists are what its own entries come to alone, and
/// one more entry of another client changes none of them.
pub fn clients_are_apart()
    ensures registered { (client : Client) (entries : List Entry) → is_registered client (held (of_client client entries)) ≡ is_registered client (held entries) }
    ensures aliases { (client : Client) (entries : List Entry) → aliases_of client (held (of_client client entries)) ≡ aliases_of client (held entries) }
    ensures acls { (client : Client) (entries : List Entry) → acls_of client (held (of_client client entries)) ≡ acls_of client (held entries) }
    ensures still_registered { (client : Client) (e : Entry) (entries : List Entry) → is_of client e ≡ false
        → is_registered client (held (entries ++ e ∷ [])) ≡ is_registered client (held entries) }
    ensures same_aliases { (client : Client) (e : Entry) (entries : List Entry) → is_of client e ≡ false
        → aliases_of client (held (entries ++ e ∷ [])) ≡ aliases_of client (held entries) }
    ensures same_acls { (client : Client) (e : Entry) (entries : List Entry) → is_of client e ≡ false
        → acls_of client (held (entries ++ e ∷ [])) ≡ acls_of client (held entries) }
{}

/// Signals are apart: whether the signal of a peer is lost in a domain is what the entries of the peer in this domain come to alone. One
/// more of them says by its change whether it is lost. One that is of another peer or domain, or is no loss, leaves it as it was. By
/// tables that represent the history it is the same.
pub fn signals_are_apart()
    ensures alone { (peer domain : ℕ) (entries : List Entry) → is_lost_in (held (of_peer peer domain entries)) peer domain ≡ is_lost_in (held entries) peer domain }
    ensures told { (peer domain : ℕ) (e : Entry) (entries : List Entry) → loses_as e (peer, domain) ≡ true
        → is_lost_in (held (entries ++ e ∷ [])) peer domain ≡ lost_after e.change (is_lost_in (held entries) peer domain) }
    ensures still { (peer domain : ℕ) (e : Entry) (entries : List Entry) → is_loss e.change && loses_as e (peer, domain) ≡ false
        → is_lost_in (held (entries ++ e ∷ [])) peer domain ≡ is_lost_in (held entries) peer domain }
    ensures tables { (tables : Tables) (entries : List Entry) (peer domain : ℕ) → Represents tables entries
        → lost_in tables peer domain ≡ is_lost_in (held entries) peer domain }
{}

/// A mitigation that is put or withdrawn changes nothing of what is held, so tables that represent a history represent it with
/// such an entry as they are.
pub fn mitigations_hold_nothing()
    ensures { (tables : Tables) (e : Entry) (entries : List Entry) → is_of_mitigations e.change ≡ true → Represents tables entries
        → Represents tables (entries ++ e ∷ []) }
{}

/// What fits a history by the settings is accepted; of an entry of the settings' own the condition is what is asked of what is
/// held; and it is the same for all histories that the tables represent.
pub fn what_fits_is_accepted()
    ensures fits { (settings : SettingsValue) (before : List Entry) (e : Entry) → fits settings before e ≡ true → accepts (sizes_of settings) before e ≡ true }
    ensures own { (settings : SettingsValue) (before : List Entry) (e : Entry) → is_of_settings settings e ≡ true
        → accepts (sizes_of settings) before e ≡ (registers_rightly (held before) e && keeps_rooms (sizes_of settings).rooms e (held (before ++ e ∷ []))) }
    ensures same { (tables : Tables) (xs ys : List Entry) (e : Entry) → Represents tables xs → Represents tables ys
        → accepts tables.sizes xs e ≡ accepts tables.sizes ys e }
{}

/// Tables of one size that represent one history are the same but for the slots: nothing of them is left open.
pub fn tables_are_one()
    ensures { (a b : Tables) (entries : List Entry) → a.sizes ≡ b.sizes → Represents a entries → Represents b entries → SameButSlots a b }
{}

/// The rows of a history whose entries stand in slots go on with each entry in a slot, and with new numbers of the slots; and there are
/// as many as things are held.
pub fn rows_go_on()
    ensures none { rows_of [] ≡ [] }
    ensures more { (filed : List Filed) (x : Filed) → rows_of (filed ++ x ∷ []) ≡ rows_with x (rows_of filed) }
    ensures moved { (keep : List ℕ) (filed : List Filed) → map (renumbered keep) (rows_of filed) ≡ rows_of (map (refiled keep) filed) }
    ensures many { (filed : List Filed) → length (rows_of filed) ≡ length (held (map entry_of filed)) }
{}

/// Their slots are those in which the entries stand that a compaction keeps for what is held, in order.
pub fn held_slots_are_named()
    ensures { (filed : List Filed) → slots_in (rows_of filed) ≡ at_places (map slot_of filed) (held_places (map entry_of filed)) }
{}
