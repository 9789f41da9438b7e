ghost use Rattle.std.specs.Prelude.{◌≡◌, ◌∷◌, []};
ghost use Rattle.dots_host.specs.Runs.{Added};
ghost use Rattle.dots_host.specs.declared.out.OwnedOut.TheVariants as owned;
ghost use Rattle.dots_host.specs.Becoming.{KeepsMedia};
ghost use Rattle.session_core.specs.Notifying.{SentTo};

use dots_host::{Host, Out};

/// Sends a datagram to a peer. Whether it left makes no difference.
pub fn send_to<H: Host>(host: &mut H, peer: u32, bytes: &[u8])
    ensures acts { Added (H.acts host.old) (H.acts host.new) (SentTo (H.moment host.old) (H.moment host.new) (owned.To peer bytes.now ∷ [])) }
    ensures media { KeepsMedia (H.media host.old) (H.media host.new) }
    ensures extent { H.extent host.new ≡ H.extent host.old }
    ensures disk { H.Disk.faults host.new ≡ H.Disk.faults host.old }
    ensures wire { H.Wire.faults host.new ≡ H.Wire.faults host.old }
    ensures leads { H.leads host.old host.new }
{
    let _ = host.send(&Out::To { peer, bytes });
}
