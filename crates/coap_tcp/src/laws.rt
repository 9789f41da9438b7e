//! Laws about frames and streams. No program needs to call these functions.

ghost use Rattle.std.specs.Prelude.{◌≡◌, ◌++◌, ◌<◌, ◌≤◌, [], ℕ, List, length};
ghost use Rattle.coap_message.specs.declared.parts.Parts.{Parts};
ghost use Rattle.coap_message.specs.Parts.{InRange, IsValid};
ghost use Rattle.coap_tcp.specs.Datagrams.{frame_of, rest_of};
ghost use Rattle.coap_tcp.specs.declared.fault.FrameFault.{FrameFault};
ghost use Rattle.coap_tcp.specs.Frames.{AreBytes, BeginsWith, FrameValue, IsFrame, frame_bytes};
ghost use Rattle.coap_tcp.specs.FrameReading.{FrameCutValue, frame_at, refuses, takes, waits};
ghost use Rattle.coap_tcp.specs.Streams.{AreRead, IsStream, joined};

/// What is read at the front of some bytes is what is spelled there, and no bytes begin with two frames.
pub fn one_frame()
    ensures read { (bytes : List ℕ) (f : FrameValue) → AreBytes bytes → frame_at bytes ≡ takes f → (behind : List ℕ) × BeginsWith bytes f behind }
    ensures spelled { (bytes : List ℕ) (f : FrameValue) (behind : List ℕ) → BeginsWith bytes f behind → frame_at bytes ≡ takes f }
    ensures alone { (bytes : List ℕ) (f g : FrameValue) (behind other : List ℕ) → BeginsWith bytes f behind → BeginsWith bytes g other → (f ≡ g) × (behind ≡ other) }
{}

/// What is decided stays so, whatever bytes follow.
pub fn decided_once()
    ensures frame { (bytes more : List ℕ) (f : FrameValue) → frame_at bytes ≡ takes f → frame_at (bytes ++ more) ≡ takes f }
    ensures fault { (bytes more : List ℕ) (fault : FrameFault) → frame_at bytes ≡ refuses fault → frame_at (bytes ++ more) ≡ refuses fault }
    // No frame begins what is refused, however it goes on.
    ensures never { (bytes more behind : List ℕ) (fault : FrameFault) (f : FrameValue) → frame_at bytes ≡ refuses fault → BeginsWith (bytes ++ more) f behind → ⊥ }
{}

/// A frame has at most 4,108 bytes, and where more is waited for there are fewer.
pub fn greatest_frame()
    ensures frame { (f : FrameValue) → IsFrame f → length (frame_bytes f) ≤ 4108 }
    ensures waits { (bytes : List ℕ) → AreBytes bytes → frame_at bytes ≡ waits → length bytes < 4108 }
{}

/// The bytes of a stream have one list of frames, one end and one rest.
pub fn one_stream()
    ensures { (bytes : List ℕ) (frames others : List FrameValue) (end other : FrameCutValue) (rest left : List ℕ) → IsStream bytes frames end rest → IsStream bytes others other left → (frames ≡ others) × (end ≡ other) × (rest ≡ left) }
{}

/// However a stream is cut into pieces, its frames and its first fault are the same.
pub fn however_cut()
    // They are those of all of its bytes.
    ensures whole { (buffered : List ℕ) (pieces : List (List ℕ)) (frames : List FrameValue) (end : FrameCutValue) → AreRead buffered pieces frames end → (rest : List ℕ) × IsStream (buffered ++ joined pieces) frames end rest }
    ensures same { (pieces parts : List (List ℕ)) (frames others : List FrameValue) (end other : FrameCutValue) → joined pieces ≡ joined parts → AreRead [] pieces frames end → AreRead [] parts others other → (frames ≡ others) × (end ≡ other) }
{}

/// A frame that was written is read again, where its rest isn't too long.
pub fn written_frame()
    ensures { (parts : Parts) (more : List ℕ) → IsValid parts → InRange parts → length (rest_of parts) ≤ 4096 → frame_at (frame_bytes (frame_of parts) ++ more) ≡ takes (frame_of parts) }
{}
