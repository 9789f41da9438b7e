//! Connections to the data channel (RFC 8783, section 3).

ghost use Rattle.std.specs.Prelude.{◌≡◌, [], ◌∷◌};
ghost use Rattle.dots_host.specs.Runs.{Added};
ghost use Rattle.dots_host.specs.declared.out.OwnedOut.TheVariants as owned;
ghost use Rattle.dots_host.specs.Becoming.{KeepsMedia};
ghost use Rattle.stream_table.specs.Lines.{opened, opening, forgotten};
ghost use Rattle.dots_machine.specs.Machine.{turned_away};
ghost use Rattle.session_core.specs.Notifying.{SentTo};

use crate::server::Server;
use dots_host::{Host, Out};

impl Server {
    /// Takes a connection that a peer opened, or closes it. What had its number before is let go.
    pub(crate) fn open_connection<H: Host>(&mut self, host: &mut H, peer: u32, conn: u32)
        ensures lines { self.new ≡ record self.old { lines = opened peer conn self.old.lines } }
        ensures sent { Added (H.acts host.old) (H.acts host.new) (SentTo (H.moment host.old) (H.moment host.new) (turned_away conn (opening peer conn self.old.lines))) }
        ensures media { KeepsMedia (H.media host.old) (H.media host.new) }
        ensures extent { H.extent host.new ≡ H.extent host.old }
        ensures disk { H.Disk.faults host.new ≡ H.Disk.faults host.old }
        ensures wire { H.Wire.faults host.new ≡ H.Wire.faults host.old }
        ensures leads { H.leads host.old host.new }
    {
        match self.lines.open(peer, conn) {
            Ok(()) => return,
            Err(_) => {
                close(host, conn);
                return;
            }
        }
    }

    /// Lets a connection go that was closed.
    pub(crate) fn forget_connection(&mut self, conn: u32)
        ensures { self.new ≡ record self.old { lines = forgotten conn self.old.lines } }
    {
        self.lines.forget(conn);
    }

    /// Closes a connection, and lets it go.
    pub(crate) fn end_connection<H: Host>(&mut self, host: &mut H, conn: u32)
        ensures lines { self.new ≡ record self.old { lines = forgotten conn self.old.lines } }
        ensures sent { Added (H.acts host.old) (H.acts host.new) (SentTo (H.moment host.old) (H.moment host.new) (owned.Close conn ∷ [])) }
        ensures media { KeepsMedia (H.media host.old) (H.media host.new) }
        ensures extent { H.extent host.new ≡ H.extent host.old }
        ensures disk { H.Disk.faults host.new ≡ H.Disk.faults host.old }
        ensures wire { H.Wire.faults host.new ≡ H.Wire.faults host.old }
        ensures leads { H.leads host.old host.new }
    {
        close(host, conn);
        self.forget_connection(conn);
    }
}

/// Closes a connection. Whether the host did makes no difference.
fn close<H: Host>(host: &mut H, conn: u32)
    ensures acts { Added (H.acts host.old) (H.acts host.new) (SentTo (H.moment host.old) (H.moment host.new) (owned.Close conn ∷ [])) }
    ensures media { KeepsMedia (H.media host.old) (H.media host.new) }
    ensures extent { H.extent host.new ≡ H.extent host.old }
    ensures disk { H.Disk.faults host.new ≡ H.Disk.faults host.old }
    ensures wire { H.Wire.faults host.new ≡ H.Wire.faults host.old }
    ensures leads { H.leads host.old host.new }
{
    let _ = host.send(&Out::Close { conn });
}
