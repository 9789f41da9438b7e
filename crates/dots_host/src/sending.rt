ghost use Rattle.std.specs.Prelude.{◌≡◌, [], ◌∷◌};
ghost use Rattle.dots_host.specs.declared.out.OwnedOut.TheVariants as owned;
ghost use Rattle.dots_host.specs.Sending.{Handed};

use crate::out::Out;
use crate::wire::Wire;

/// Sends a datagram to a peer.
pub fn send_to<W: Wire>(wire: &mut W, peer: u32, bytes: &[u8])
    ensures handed { Handed (W.acts wire.old) (W.moment wire.old) (W.acts wire.new) (W.moment wire.new) (owned.To peer bytes.now ∷ []) }
    ensures faults { W.faults wire.new ≡ W.faults wire.old }
    ensures leads { W.leads wire.old wire.new }
{
    let _sent = wire.send(&Out::To { peer, bytes });
}
