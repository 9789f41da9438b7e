//! What the definitions come to: each function's contract is a law, and its body does nothing.

ghost use Rattle.std.specs.Prelude.{◌≡◌, ℕ, ◌+◌, ◌≤◌, List, Option, Ok, map, filter, filter_map, count_by};
ghost use Rattle.dots_history.specs.declared.config.Config.{Config};
ghost use Rattle.dots_settings.specs.Settings.{SettingsValue, IsSettings};
ghost use Rattle.dots_keys.specs.declared.request.ConfigBody.{ConfigBody};
ghost use Rattle.session_core.specs.declared.contact.Beat.{Beat};
ghost use Rattle.session_core.specs.declared.contact.PeerContact.{PeerContact};
ghost use Rattle.session_core.specs.Negotiating.{AreAccepted, negotiated};
ghost use Rattle.session_core.specs.Contacts.{unheard};
ghost use Rattle.session_core.specs.Beating.{Beating, has_lost, IsNextLost, has_due, due_beat, IsNextBeat};
ghost use Rattle.session_core.specs.Places.{row_peer};
ghost use Rattle.session_core.specs.Spacing.{Call, Run, AreSince, Tick, without_lost, with_beat};

/// Each value of a configuration that is taken is in its range, the defaults too (RFC 9132, section 4.5.2).
pub fn what_is_taken_is_in_range()
    ensures { (held : Option ℕ) (sid : ℕ) (body : ConfigBody) (config : Config) → negotiated held sid body ≡ Ok config
        → AreAccepted config.mitigating × AreAccepted config.idle }
{}

/// Between two heartbeats to a peer at least the interval passes, as it is at the second one, whatever calls came before and whatever
/// calls stand between them, these of no earlier time than the first (RFC 9132, section 4.7).
pub fn beats_keep_the_interval()
    ensures { (settings : SettingsValue) (early late : Beating) (at later : ℕ) (beat next : Beat) (before between : List Call)
        (a b c d : List PeerContact) → IsSettings settings → Run (map unheard settings.peers) before a → IsNextBeat early at a b beat
        → Run b between c → AreSince at between → IsNextBeat late later c d next → next.peer ≡ beat.peer
        → at + (late next.peer).0 ≤ later }
{}

/// Where sessions that are lost are asked for at one time until there is none, and then heartbeats until none is due, the peers are all
/// those whose sessions are lost, and the heartbeats are those of all others that are due one, each once and in the order of the
/// settings. Then each peer has taken its turn: what was lost is forgotten, and what was due is sent.
pub fn each_peer_has_its_turn()
    ensures { (by : Beating) (now : ℕ) (lost : List ℕ) (given : List Beat) (old new : List PeerContact) → Tick by now old lost given new
        → (lost ≡ map row_peer (filter (has_lost by now) old)) × (given ≡ filter_map (due_beat by now) (map (without_lost by now) old))
        × (new ≡ map (with_beat by now) (map (without_lost by now) old)) }
{}

/// Who asks at one time until there is none comes to an end: each session that is lost and is answered leaves one fewer, and so does each
/// heartbeat.
pub fn each_answer_leaves_fewer()
    ensures lost { (by : Beating) (now : ℕ) (old new : List PeerContact) (peer : ℕ) → IsNextLost by now old new peer
        → count_by (has_lost by now) old ≡ count_by (has_lost by now) new + 1 }
    ensures beats { (by : Beating) (now : ℕ) (old new : List PeerContact) (beat : Beat) → IsNextBeat by now old new beat
        → count_by (has_due by now) old ≡ count_by (has_due by now) new + 1 }
{}
