//! Sending what is due.

ghost use Rattle.std.specs.Prelude.{◌≡◌, List, ℕ, is_some};
ghost use Rattle.dots_host.specs.Sending.{Handed};
ghost use Rattle.dots_client.specs.Client.{tick_answer, tick_after};
ghost use Rattle.ask_agent.specs.Asking.{Drains, messages_in, to_server};

use dots_client::ClientCore;
use dots_host::{Wire, send_to};

/// Sends to the server all that is due at the time `now`, in seconds.
pub fn send_due<W: Wire>(core: &mut ClientCore, wire: &mut W, server: u32, now: u64)
    ensures sends { (messages : List (List ℕ)) × Drains now core.old messages core.new
        × Handed (W.acts wire.old) (W.moment wire.old) (W.acts wire.new) (W.moment wire.new) (to_server server messages) }
    ensures faults { W.faults wire.new ≡ W.faults wire.old }
    ensures leads { W.leads wire.old wire.new }
{
    while send_next(core, wire, server, now) {}
}

/// Sends the next message that is due, and says whether there was one.
fn send_next<W: Wire>(core: &mut ClientCore, wire: &mut W, server: u32, now: u64) -> bool
    ensures any { result ≡ is_some (tick_answer now core.old) }
    ensures after { core.new ≡ tick_after now core.old }
    ensures sends { Handed (W.acts wire.old) (W.moment wire.old) (W.acts wire.new) (W.moment wire.new) (to_server server (messages_in (tick_answer now core.old))) }
    ensures faults { W.faults wire.new ≡ W.faults wire.old }
    ensures leads { W.leads wire.old wire.new }
{
    match core.tick(now) {
        Some(bytes) => {
            send_to(wire, server, bytes.items());
            return true;
        }
        None => return false,
    }
}
