//! Writing a text in pieces.

ghost use Rattle.std.specs.Prelude.{flat_map};
ghost use Rattle.dots_host.specs.AgentWriting.{Wrote};

use crate::failed::Failed;
use crate::sink::Sink;
use crate::writing::write_all;

/// Writes the pieces, one after the other. Where the sink fails a beginning of them was written.
pub fn write_pieces<K: Sink>(sink: &mut K, pieces: &[&[u8]]) -> Result<(), Failed>
    ensures { Wrote (K.holds sink.old) (K.faults sink.old) (K.holds sink.new) (K.faults sink.new) result (flat_map (λ piece. piece.now) pieces.now) }
{
    for piece in pieces {
        match write_all(sink, piece) {
            Ok(()) => {}
            Err(Failed) => return Err(Failed),
        }
    }
    Ok(())
}
