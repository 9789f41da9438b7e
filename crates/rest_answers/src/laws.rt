//! What the definitions come to: each function's contract is a law, and its body does nothing.

ghost use Rattle.std.specs.Prelude.{◌≡◌, ◌⊎◌, ◌<◌, ◌^◌, ◌∷◌, ◌++◌, ℕ, Bool, true, false, List, Some, codes};
ghost use Rattle.dots_host.specs.declared.out.OwnedOut.{OwnedOut};
ghost use Rattle.dots_host.specs.declared.out.OwnedOut.TheVariants as owned;
ghost use Rattle.dots_settings.specs.Settings.{SettingsValue, IsSettings};
ghost use Rattle.dots_settings.specs.Lookups.{role_of};
ghost use Rattle.dots_history.specs.declared.entry.Entry.{Entry};
ghost use Rattle.dots_history.specs.Bounds.{within_bounds};
ghost use Rattle.dots_history.specs.Histories.{alone};
ghost use Rattle.dots_history.specs.Calm.{may_act, is_own};
ghost use Rattle.dots_history.specs.Fits.{fits};
ghost use Rattle.stream_table.specs.Lines.{Line, PeerLines, AreOf, line_of};
ghost use Rattle.stream_table.specs.Places.{AreApart};
ghost use Rattle.data_channel.specs.declared.request.RestRequest.{RestRequest};
ghost use Rattle.data_channel.specs.Within.{IsWithin};
ghost use Rattle.rest_answers.specs.declared.answer.RestAnswer.TheVariants as answers;
ghost use Rattle.rest_answers.specs.declared.caller.Caller.{Caller as CallerValue};
ghost use Rattle.rest_answers.specs.Known.{Known, known_of};
ghost use Rattle.rest_answers.specs.Replies.{unavailable};
ghost use Rattle.rest_answers.specs.Answers.{rest_answer, IsOf};
ghost use Rattle.rest_answers.specs.Room.{KeepsRoom};
ghost use Rattle.rest_answers.specs.Turns.{RestFront, caller_of, IsFront, is_waiting, HasSize, HttpTurn, with_piece, AddsOne, LackMemory, IsEarly};

/// The reply to an accepted change says success, and that for want of memory a failure: so a reply shows which of the two it is.
pub fn accepted_is_success()
    ensures accepted { (known : Known) (caller : CallerValue) (close : Bool) (asked : RestRequest) (reply : List ℕ) (entry : Entry)
        → rest_answer known caller close asked ≡ answers.Accept reply entry → (rest : List ℕ) × (reply ≡ codes "HTTP/1.1 2" ++ rest) }
    ensures unavailable { (close : Bool) → (rest : List ℕ) × (unavailable close ≡ codes "HTTP/1.1 5" ++ rest) }
{}

/// An accepted entry is of the caller and of the client that was asked for, at the time at which it was asked, came by HTTP, and is of no
/// mitigation.
pub fn accepted_is_of_its_caller()
    ensures { (known : Known) (caller : CallerValue) (close : Bool) (asked : RestRequest) (reply : List ℕ) (entry : Entry)
        → rest_answer known caller close asked ≡ answers.Accept reply entry → IsOf known.time caller asked entry }
{}

/// Of a caller that may act for its domain an accepted entry is the settings' own, so what it writes lies inside the domain. Where what is
/// asked is within bounds, so is the entry, before 2^48. And it fits the history, where that keeps the capacities.
pub fn accepted_is_own_and_fits()
    ensures own { (settings : SettingsValue) (t : ℕ) (history : List Entry) (caller : CallerValue) (close : Bool) (asked : RestRequest) (reply : List ℕ) (entry : Entry)
        → may_act settings (role_of settings caller.peer) caller.domain ≡ true
        → rest_answer (known_of settings t history caller asked) caller close asked ≡ answers.Accept reply entry → is_own settings entry ≡ true }
    ensures bounded { (known : Known) (caller : CallerValue) (close : Bool) (asked : RestRequest) (reply : List ℕ) (entry : Entry)
        → IsWithin asked → known.time < 2 ^ 48
        → rest_answer known caller close asked ≡ answers.Accept reply entry → within_bounds entry ≡ true }
    ensures fits { (settings : SettingsValue) (t : ℕ) (history : List Entry) (caller : CallerValue) (close : Bool) (asked : RestRequest) (reply : List ℕ) (entry : Entry)
        → may_act settings (role_of settings caller.peer) caller.domain ≡ true → KeepsRoom settings.limits t history → t < 2 ^ 48
        → rest_answer (known_of settings t history caller asked) caller close asked ≡ answers.Accept reply entry → fits settings history entry ≡ true }
{}

/// Each connection has a caller, who may act for its domain: that is so of the rows of the settings' clients.
pub fn each_connection_has_a_caller()
    ensures { (settings : SettingsValue) (conn : ℕ) (lines : List PeerLines) (line : Line) → IsSettings settings → AreOf settings.peers lines → line_of conn lines ≡ Some line
        → (caller : CallerValue) × (caller_of settings conn lines ≡ Some caller) × (may_act settings (role_of settings caller.peer) caller.domain ≡ true) }
{}

/// One thing stands at the front of the same bytes, by the same history at the same time: any two fronts are one, or the same request is answered
/// in both, and in one of them by 500 for want of memory. Where no head can come any more that may be refused at once or only where one would have
/// ended. What stands there stays where bytes follow, and a request is no longer than what is held.
pub fn one_thing_is_at_the_front()
    ensures one { (settings : SettingsValue) (t : ℕ) (history : List Entry) (caller : CallerValue) (held : List ℕ) (one other : RestFront)
        → IsFront settings t history caller held one → IsFront settings t history caller held other → (one ≡ other) ⊎ (LackMemory one other ⊎ IsEarly held one other) }
    ensures stays { (settings : SettingsValue) (t : ℕ) (history : List Entry) (caller : CallerValue) (held more : List ℕ) (front : RestFront)
        → IsFront settings t history caller held front → is_waiting front ≡ false → IsFront settings t history caller (held ++ more) front }
    ensures size { (settings : SettingsValue) (t : ℕ) (history : List Entry) (caller : CallerValue) (held : List ℕ) (front : RestFront)
        → IsFront settings t history caller held front → HasSize held front }
{}

/// The first send of a turn is on its connection, and fixes it: of two turns of a connection in one state that begin with the same send all sends are
/// the same, and they leave the same history and the same connections.
pub fn first_send_fixes_a_turn()
    ensures begins { (settings : SettingsValue) (conn t : ℕ) (history : List Entry) (lines : List PeerLines) (sends : List OwnedOut) (after : List Entry) (behind : List PeerLines)
        → HttpTurn settings conn t history lines sends after behind → (reply : List ℕ) × (rest : List OwnedOut) × (sends ≡ owned.Conn conn reply ∷ rest) }
    ensures fixes { (settings : SettingsValue) (conn t : ℕ) (history : List Entry) (lines : List PeerLines) (out : OwnedOut) (rest others : List OwnedOut)
        (after other : List Entry) (behind beside : List PeerLines)
        → HttpTurn settings conn t history lines (out ∷ rest) after behind → HttpTurn settings conn t history lines (out ∷ others) other beside
        → (rest ≡ others) × (after ≡ other) × (behind ≡ beside) }
{}

/// A turn adds nothing to the history, or one entry behind it: of the peer and the domain of the connection's caller, at the time of the turn.
pub fn a_turn_adds_one_entry_of_its_caller()
    ensures { (settings : SettingsValue) (conn t : ℕ) (history : List Entry) (lines : List PeerLines) (sends : List OwnedOut) (after : List Entry) (behind : List PeerLines)
        (caller : CallerValue) → HttpTurn settings conn t history lines sends after behind → caller_of settings conn lines ≡ Some caller → AddsOne t caller history after }
{}

/// A turn is the same however the bytes came. Where more bytes are held behind those of the connection, it has the same sends and adds the same to the
/// history, and these bytes are held behind what it leaves.
pub fn a_turn_stays_where_bytes_follow()
    ensures { (settings : SettingsValue) (conn t : ℕ) (history : List Entry) (lines : List PeerLines) (more : List ℕ) (sends : List OwnedOut) (after : List Entry)
        (behind : List PeerLines) → AreApart lines → HttpTurn settings conn t history lines sends after behind
        → HttpTurn settings conn t history (with_piece conn more lines) sends after (with_piece conn more behind) }
{}

/// What is known of a request, and so what it is answered, goes by the entries of the caller's domain alone. A turn of a connection is the same by any
/// other history with the same entries of that domain, adds the same there, and what it adds is of that domain.
pub fn a_turn_goes_by_its_domain()
    ensures known { (settings : SettingsValue) (t : ℕ) (one other : List Entry) (caller : CallerValue) (asked : RestRequest) → alone caller.domain one ≡ alone caller.domain other
        → known_of settings t one caller asked ≡ known_of settings t other caller asked }
    ensures turn { (settings : SettingsValue) (conn t : ℕ) (one other : List Entry) (lines : List PeerLines) (sends : List OwnedOut) (after : List Entry) (behind : List PeerLines)
        (caller : CallerValue) → HttpTurn settings conn t one lines sends after behind → caller_of settings conn lines ≡ Some caller → alone caller.domain one ≡ alone caller.domain other
        → (extra : List Entry) × (after ≡ one ++ extra) × (alone caller.domain extra ≡ extra) × HttpTurn settings conn t other lines sends (other ++ extra) behind }
{}
