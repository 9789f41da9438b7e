//! What may wait at the sockets.

ghost use Rattle.std.specs.Prelude.{◌≡◌};
ghost use Rattle.mio.specs.Events.{items};
ghost use Rattle.dots_edge.specs.Noted.{retried, IsNoted, AreMarked};
ghost use Rattle.dots_edge.specs.Places.{SameOpen};
ghost use Rattle.dots_edge.specs.Gone.{AreOn};

use crate::connections::Connections;
use crate::sockets::{HTTP, SIGNAL};
use mio::Events;

/// Whether a connection may wait to be accepted.
#[derive(Clone, Copy)]
pub enum Accepting {
    No,
    Yes,
    /// One may, but none can be accepted now, as for want of descriptors. After the next tick it is tried again.
    Stuck,
}

/// What may wait at the sockets. Once a wait has told of a socket, no other does before it was found empty.
#[derive(Clone, Copy)]
pub struct Waiting {
    pub datagrams: bool,
    pub connections: Accepting,
}

impl Waiting {
    /// Accepting is tried again where it was stuck.
    pub fn retry(&mut self)
        ensures { self.new ≡ retried self.old }
    {
        if let Accepting::Stuck = self.connections {
            self.connections = Accepting::Yes;
        }
    }
}

/// Takes in what a wait told.
pub fn note(events: &Events, waiting: &mut Waiting, connections: &mut Connections)
    ensures open { SameOpen connections.old connections.new }
    // What may wait is what it told, beside what might before.
    ensures waiting { IsNoted (items events.now) waiting.old waiting.new }
    ensures marked { AreMarked (items events.now) connections.old connections.new }
    ensures on { AreOn connections.old connections.new }
{
    for event in events {
        let place = event.token().0;
        if place < SIGNAL {
            connections.mark(place);
        } else if place < HTTP {
            waiting.datagrams = true;
        } else {
            waiting.connections = Accepting::Yes;
        }
    }
}
