ghost use Rattle.std.specs.Prelude.{OnOk, OnErr};
ghost use Rattle.std.specs.Io.KnownBytes.{Appends};
ghost use Rattle.dots_host.specs.Causes.{HasCause};
ghost use Rattle.dots_host.specs.Writing.{AppendsBeginning};

use crate::failed::Failed;
use crate::sink::Sink;

/// Writes all of the bytes, in one call of the sink where that takes them all. Where the sink fails a beginning
/// of them was written.
pub fn write_all<K: Sink>(sink: &mut K, bytes: &[u8]) -> Result<(), Failed>
    ensures ok { OnOk result (Appends (K.holds sink.old) (K.holds sink.new) bytes.now) }
    ensures err { OnErr result (AppendsBeginning (K.holds sink.old) (K.holds sink.new) bytes.now) }
    ensures cause { HasCause (K.faults sink.old) (K.faults sink.new) result }
{
    let mut written = 0;
    while written < bytes.len() {
        match sink.write(&bytes[written..]) {
            Ok(count) => written += count,
            Err(Failed) => return Err(Failed),
        }
    }
    Ok(())
}
