//! What the definitions come to: each function's contract is a law, and its body does nothing.

ghost use Rattle.std.specs.Prelude.{◌≡◌, ℕ, List, flat_map, Some};
ghost use Rattle.dots_settings.specs.declared.peer.PeerRow.{PeerRow};
ghost use Rattle.dots_settings.specs.Settings.{SettingsValue, IsSettings};
ghost use Rattle.stream_table.specs.Lines.{Line, PeerLines, no_lines, AreOf, IsClientOf, emptied, forgotten, opened, buffering, line_of, peer_of};

/// There is a row for each client of the settings, in their order: so it is at the start, and so it stays, whatever is opened, forgotten or buffered.
pub fn each_client_has_a_row()
    ensures begun { (peers : List PeerRow) → AreOf peers (flat_map no_lines peers) }
    ensures emptied { (peers : List PeerRow) (rows : List PeerLines) → AreOf peers rows → AreOf peers (emptied rows) }
    ensures forgotten { (peers : List PeerRow) (conn : ℕ) (rows : List PeerLines) → AreOf peers rows → AreOf peers (forgotten conn rows) }
    ensures opened { (peers : List PeerRow) (peer conn : ℕ) (rows : List PeerLines) → AreOf peers rows → AreOf peers (opened peer conn rows) }
    ensures buffering { (peers : List PeerRow) (conn : ℕ) (becomes : List ℕ → List ℕ) (rows : List PeerLines) → AreOf peers rows → AreOf peers (buffering conn becomes rows) }
{}

/// Where that is so, each connection is of a client: its peer is one of the settings, for a domain of theirs.
pub fn each_connection_is_of_a_client()
    ensures { (settings : SettingsValue) (rows : List PeerLines) (conn : ℕ) (line : Line) → IsSettings settings → AreOf settings.peers rows → line_of conn rows ≡ Some line
        → (peer : ℕ) × (domain : ℕ) × (peer_of conn rows ≡ Some peer) × IsClientOf settings peer domain }
{}
