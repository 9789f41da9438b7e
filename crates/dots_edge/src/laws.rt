//! What the definitions come to: each function's contract is a law, and its body does nothing.

ghost use Rattle.std.specs.Prelude.{◌≡◌, ◌++◌, ◌∷◌, ℕ, List, Option, Some, true, false};
ghost use Rattle.dots_edge.specs.declared.head.Head.{Head};
ghost use Rattle.dots_edge.specs.declared.way.Way.{Way};
ghost use Rattle.dots_edge.specs.Headers.{is_response};
ghost use Rattle.dots_edge.specs.Returns.{way_of, is_answered, goes_to};
ghost use Rattle.dots_edge.specs.Passed.{Passed, came, reached, last_way, last_get, IsRecent};

/// After all that passed a peer is known to be where its last datagram came from, and what is known of GETs with a token is where the
/// last of them came from: neither of an older one, nor of a request that isn't a GET.
pub fn the_last_counts()
    ensures last { (known : Option Way) (passed : List Passed) → (reached known passed).last ≡ last_way known passed }
    ensures get { (known : Option Way) (passed : List Passed) (token : List ℕ) (way : Way)
        → way_of token (reached known passed).getters ≡ Some way → last_get token passed ≡ Some way }
{}

/// A notification goes to where the last GET with its token came from, whatever requests with that token came from elsewhere since.
/// So it is at least as long as fewer than 136 datagrams passed since that GET.
pub fn notifications_go_to_the_observer()
    ensures { (known : Option Way) (newer earlier : List Passed) (get sent : Head) (way : Way) → IsRecent get way newer
        → sent.token ≡ get.token → is_response sent ≡ true
        → is_answered (reached known (newer ++ came way (Some get) ∷ earlier)).asked sent ≡ false
        → goes_to (Some sent) (reached known (newer ++ came way (Some get) ∷ earlier)) ≡ Some way }
{}
