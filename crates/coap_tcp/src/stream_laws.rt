//! Laws about connections. No program needs to call these functions.

ghost use Rattle.std.specs.Prelude.{◌≡◌, ◌≢◌, ◌⊎◌, ◌++◌, ◌<◌, ◌≤◌, [], ◌∷◌, ℕ, List, Bool, true, false, length};
ghost use Rattle.coap_tcp.specs.Frames.{AreBytes, FrameValue, IsFrame, frame_bytes};
ghost use Rattle.coap_tcp.specs.FrameReading.{frame_at, takes};
ghost use Rattle.coap_tcp.specs.Streams.{joined};
ghost use Rattle.coap_tcp.specs.Turns.{TurnValue, begins, aborts, serves, plain, pong_bytes, turn_at};
ghost use Rattle.coap_tcp.specs.Connections.{StreamValue, IsConnection, AreRead};

use crate::codes::{ABORT, CSM, PLAIN_ABORT, PLAIN_CSM, PONG};

/// However a connection is cut into pieces, its turns are the same.
pub fn however_cut()
    // They are those of all of its bytes.
    ensures whole { (s : StreamValue) (pieces : List (List ℕ)) (turns : List TurnValue) → AreBytes (s.bytes ++ joined pieces)
        → AreRead s pieces turns → IsConnection s.begun (s.bytes ++ joined pieces) turns }
    ensures same { (s : StreamValue) (pieces parts : List (List ℕ)) (turns others : List TurnValue) → AreBytes (s.bytes ++ joined pieces)
        → joined pieces ≡ joined parts → AreRead s pieces turns → AreRead s parts others → turns ≡ others }
    // However they are cut, they can be read.
    ensures each { (s : StreamValue) (pieces : List (List ℕ)) → AreBytes (s.bytes ++ joined pieces)
        → (turns : List TurnValue) × AreRead s pieces turns }
{}

/// All bytes are those of a connection, and it has one list of turns.
pub fn one_connection()
    ensures each { (begun : Bool) (bytes : List ℕ) → AreBytes bytes → (turns : List TurnValue) × IsConnection begun bytes turns }
    ensures one { (begun : Bool) (bytes : List ℕ) (turns others : List TurnValue)
        → IsConnection begun bytes turns → IsConnection begun bytes others → turns ≡ others }
{}

/// A connection begins, or ends with an Abort at once: nothing is done before the CSM came.
pub fn begun_first()
    ensures { (bytes : List ℕ) (turn : TurnValue) (turns : List TurnValue) → IsConnection false bytes (turn ∷ turns)
        → (turn ≡ begins) ⊎ ((turn ≡ aborts) × (turns ≡ [])) }
{}

/// A message that is served can be spelled as a datagram, and the connection had begun before it.
pub fn served_frame()
    ensures frame { (begun : Bool) (bytes : List ℕ) (f : FrameValue) → AreBytes bytes → turn_at begun bytes ≡ serves f → IsFrame f }
    ensures code { (begun : Bool) (bytes : List ℕ) (f : FrameValue) → turn_at begun bytes ≡ serves f → f.code ≢ 0 }
    ensures begun { (begun : Bool) (bytes : List ℕ) (f : FrameValue) → turn_at begun bytes ≡ serves f → begun ≡ true }
{}

/// What a server sends by itself are frames that are read as themselves, whatever follows.
pub fn own_frames()
    ensures csm { (more : List ℕ) → (PLAIN_CSM ≡ frame_bytes (plain CSM []))
        × (frame_at (PLAIN_CSM ++ more) ≡ takes (plain CSM [])) }
    ensures abort { (more : List ℕ) → (PLAIN_ABORT ≡ frame_bytes (plain ABORT []))
        × (frame_at (PLAIN_ABORT ++ more) ≡ takes (plain ABORT [])) }
    ensures pong { (token more : List ℕ) → length token ≤ 8 → frame_at (pong_bytes token ++ more) ≡ takes (plain PONG token) }
{}
