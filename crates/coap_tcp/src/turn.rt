ghost use Rattle.std.specs.Prelude.{◌≡◌, ◌≢◌, ◌≤◌, length};
ghost use Rattle.coap_tcp.specs.FrameReading.{frame_value};
ghost use Rattle.coap_tcp.specs.Turns.{is_request, first_turn, later_turn, turn_value, IfServes};

use crate::codes::{ABORT, CSM, PING, RELEASE};
use crate::frame::Frame;
use crate::pong::Pong;

/// What is to be done with what stands at the front of a connection.
#[derive(Drop)]
pub enum Turn<'a> {
    /// Nothing whole is there yet.
    Waits,
    /// The first message is there, and the connection begins.
    Begins,
    /// Nothing is to be done with the message.
    Passes,
    /// These bytes are sent.
    Answers(Pong),
    /// The request of this frame is served.
    Serves(Frame<'a>),
    /// [`PLAIN_ABORT`](crate::PLAIN_ABORT) is sent, and the connection is closed.
    Aborts,
    /// The connection is closed, and nothing is sent.
    Closes,
}

/// Whether a code is that of a request: of class 0, and not that of an empty message (RFC 7252, section 12.1).
fn is_request(code: u8) -> bool
    ensures { result ≡ is_request code }
{
    code / 32 == 0 && code % 32 != 0
}

/// The turn of the first message of a connection.
pub(crate) fn first_turn<'a>(frame: &Frame) -> Turn<'a>
    ensures { turn_value result ≡ first_turn (frame_value frame.now) }
{
    if frame.code == CSM {
        return Turn::Begins;
    }
    Turn::Aborts
}

/// The turn of a message of a connection that has begun.
pub(crate) fn later_turn<'a>(frame: Frame<'a>) -> Turn<'a>
    requires { length frame.token.now ≤ 8 }
    ensures turn { turn_value result ≡ later_turn (frame_value frame.entry) }
    ensures served { IfServes result (λ served. (frame_value served ≡ frame_value frame.entry) × (served.length ≡ frame.entry.length)) }
{
    if frame.code == PING {
        return Turn::Answers(Pong::new(frame.token));
    }
    if frame.code == RELEASE || frame.code == ABORT {
        return Turn::Closes;
    }
    if is_request(frame.code) {
        return Turn::Serves(frame);
    }
    Turn::Passes
}
