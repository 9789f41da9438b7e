//! Events and sends with copies of their bytes.

ghost use Rattle.std.specs.Prelude.{◌≡◌, length, IfOk};
ghost use Rattle.dots_host.specs.Acts.{IsWithin, event_of, owned_of, is_done};

use crate::event::{Event, What};
use crate::out::{Out, OwnedOut, Sent};
use dots_lists::{Bytes, NoMemory};
use std::alloc::Global;

/// An event with a copy of its bytes, which stand at the front of the room.
pub fn copy_event(alloc: Global, what: What, room: &[u8]) -> Result<Event, NoMemory>
    requires { IsWithin what (length room.now) }
    ensures { IfOk result (λ event. event ≡ event_of what room.now) }
{
    match what {
        What::Datagram { from, len } => {
            let bytes = Bytes::from_slice(alloc, &room[..len])?;
            return Ok(Event::Datagram { from, bytes });
        }
        What::Piece { conn, len } => {
            let bytes = Bytes::from_slice(alloc, &room[..len])?;
            return Ok(Event::Piece { conn, bytes });
        }
        What::Opened { conn, from } => return Ok(Event::Opened { conn, from }),
        What::Closed { conn } => return Ok(Event::Closed { conn }),
        What::Tick => return Ok(Event::Tick),
        What::Restart => return Ok(Event::Restart),
        What::End => return Ok(Event::End),
        What::Failed => return Ok(Event::Failed),
    }
}

/// A send with a copy of its bytes.
pub fn copy_out(alloc: Global, out: &Out) -> Result<OwnedOut, NoMemory>
    ensures { IfOk result (λ copy. copy ≡ owned_of out.now) }
{
    match out {
        Out::To { peer, bytes } => {
            let bytes = Bytes::from_slice(alloc, bytes)?;
            Ok(OwnedOut::To { peer: *peer, bytes })
        }
        Out::Conn { conn, bytes } => {
            let bytes = Bytes::from_slice(alloc, bytes)?;
            Ok(OwnedOut::Conn { conn: *conn, bytes })
        }
        Out::Close { conn } => Ok(OwnedOut::Close { conn: *conn }),
    }
}

/// Whether a send left.
pub fn is_done(sent: Sent) -> bool
    ensures { result ≡ is_done sent }
{
    match sent {
        Sent::Done => true,
        Sent::Lost => false,
    }
}
