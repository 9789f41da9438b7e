//! Refusing a request that can't be passed on.

ghost use Rattle.std.specs.Prelude.{◌≡◌, ◌≢◌, ◌≤◌, List, length};
ghost use Rattle.dots_host.specs.declared.out.OwnedOut.{OwnedOut};
ghost use Rattle.dots_host.specs.Runs.{Added, Gives};
ghost use Rattle.gateway_agent.specs.Passing.{Refuses, FaultSends};

use crate::giving::send_to;
use coap_message::codes::{INTERNAL_SERVER_ERROR, SERVICE_UNAVAILABLE};
use coap_message::decode;
use dots_gateway::GatewayFault;
use dots_host::Wire;
use dots_keys::{Exchange, is_request, plain};

/// What a request is answered where no more may wait.
const FULL_TEXT: &[u8] = b"gateway full";

/// Answers a request with a code and a text, and nothing else. Takes no memory.
pub fn refuse<W: Wire>(wire: &mut W, peer: u32, datagram: &[u8], code: u8, text: &[u8])
    requires code { code ≢ 0 }
    requires text { length text.now ≤ 12 }
    ensures refuses { (outs : List OwnedOut) × Refuses peer datagram.now code text.now outs
        × Added (W.acts wire.old) (W.acts wire.new) (Gives (W.moment wire.old) outs) }
    ensures faults { W.faults wire.new ≡ W.faults wire.old }
    ensures beside { W.beside wire.old wire.new }
    ensures leads { W.leads wire.old wire.new }
{
    let Ok(message) = decode(datagram) else {
        return;
    };
    if !is_request(&message) {
        return;
    }
    let reply = plain(code, &Exchange::of(&message), text);
    send_to(wire, peer, reply.bytes());
}

/// Answers a request that isn't passed on: with 5.03 where no more may wait, and with 5.00 where memory ran out. Takes no memory.
pub fn refuse_for<W: Wire>(wire: &mut W, peer: u32, datagram: &[u8], fault: GatewayFault)
    ensures refuses { (outs : List OwnedOut) × FaultSends peer datagram.now fault outs
        × Added (W.acts wire.old) (W.acts wire.new) (Gives (W.moment wire.old) outs) }
    ensures faults { W.faults wire.new ≡ W.faults wire.old }
    ensures beside { W.beside wire.old wire.new }
    ensures leads { W.leads wire.old wire.new }
{
    match fault {
        GatewayFault::TableFull => {
            return refuse(wire, peer, datagram, SERVICE_UNAVAILABLE, FULL_TEXT);
        }
        GatewayFault::NoMemory => return refuse(wire, peer, datagram, INTERNAL_SERVER_ERROR, &[]),
    }
}
