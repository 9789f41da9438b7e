//! Sending what a gateway says.

ghost use Rattle.std.specs.Prelude.{◌≡◌, [], ◌∷◌};
ghost use Rattle.dots_host.specs.declared.out.OwnedOut.TheVariants as owned;
ghost use Rattle.dots_host.specs.Runs.{Added, Gives};
ghost use Rattle.gateway_agent.specs.Passing.{sends_of};

use dots_gateway::Passed;
use dots_host::{Out, Wire};

/// Sends a datagram to a peer.
pub fn send_to<W: Wire>(wire: &mut W, peer: u32, bytes: &[u8])
    ensures gives { Added (W.acts wire.old) (W.acts wire.new) (Gives (W.moment wire.old) (owned.To peer bytes.now ∷ [])) }
    ensures faults { W.faults wire.new ≡ W.faults wire.old }
    ensures beside { W.beside wire.old wire.new }
    ensures leads { W.leads wire.old wire.new }
{
    let _sent = wire.send(&Out::To { peer, bytes });
}

/// Sends what is said of a datagram, if anything is.
pub fn give<W: Wire>(wire: &mut W, upstream: u32, said: &Passed)
    ensures gives { Added (W.acts wire.old) (W.acts wire.new) (Gives (W.moment wire.old) (sends_of upstream said.now)) }
    ensures faults { W.faults wire.new ≡ W.faults wire.old }
    ensures beside { W.beside wire.old wire.new }
    ensures leads { W.leads wire.old wire.new }
{
    match said {
        Passed::Forward { bytes, .. } => send_to(wire, upstream, bytes.items()),
        Passed::Reply { to, bytes } => send_to(wire, *to, bytes.items()),
        Passed::Nothing | Passed::NoMemory => {}
    }
}
