//! What a datagram is.

ghost use Rattle.std.specs.Prelude.{IfOk, IfErr};
ghost use Rattle.coap_message.specs.Message.{IsMessage, spelling};
ghost use Rattle.dots_machine.specs.Requests.{IsReceived};
ghost use Rattle.dots_server.specs.Receiving.{IsGrantable, Lacks};

use coap_message::{Message, decode};
use dots_keys::{Exchange, Reject, dismissed, dismissed_unread, read_request};
use dots_machine::Received;
use std::alloc::Global;

/// What the datagram of a gateway, or of a client, is. For want of memory the exchange of the message is answered.
pub fn receive(alloc: Global, datagram: &[u8], gateway: bool) -> Result<Received, Exchange>
    ensures received { IfOk result (IsReceived datagram.now gateway) }
    ensures grantable { IfOk result IsGrantable }
    ensures lacks { IfErr result (Lacks datagram.now gateway) }
{
    match decode(datagram) {
        Ok(message) => receive_message(alloc, &message, gateway),
        Err(_) => Ok(Received::Unread(dismissed_unread(datagram))),
    }
}

/// What a message is.
fn receive_message(
    alloc: Global,
    message: &Message<'_>,
    gateway: bool,
) -> Result<Received, Exchange>
    requires { IsMessage message.now }
    ensures received { IfOk result (IsReceived (spelling message.now) gateway) }
    ensures grantable { IfOk result IsGrantable }
    ensures lacks { IfErr result (Lacks (spelling message.now) gateway) }
{
    if let Some(answer) = dismissed(message) {
        return Ok(Received::Dismissed(answer));
    }
    let exchange = Exchange::of(message);
    match read_request(alloc, message, gateway) {
        Ok(request) => Ok(Received::Asked { exchange, request }),
        Err(reject) => match reject {
            Reject::NoMemory => Err(exchange),
            _ => Ok(Received::Refused { exchange, reject }),
        },
    }
}
