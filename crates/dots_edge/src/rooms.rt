//! What of a host takes memory.

ghost use Rattle.std.specs.Prelude.{IfOk};
ghost use Rattle.dots_edge.specs.Places.{NoneOpen};

use crate::connections::Connections;
use crate::host_line::HostLine;
use crate::peers::Peers;
use dots_host::NoMemory;
use mio::Events;
use std::alloc::Global;

/// The room for a datagram: one byte more than an event has, so that a longer one is seen.
const ROOM: usize = 4097;

/// How many sockets a wait tells of at most.
const READY_AT_ONCE: usize = 64;

/// What of a host takes memory.
#[derive(Drop)]
pub struct Rooms {
    pub connections: Connections,
    pub peers: Peers,
    pub events: Events,
    /// Where a datagram is received.
    pub datagram: Vec<u8>,
}

impl Rooms {
    /// Rooms for the lines of a host file. No connection is open.
    pub fn new(alloc: Global, lines: &[HostLine<'_>]) -> Result<Rooms, NoMemory>
        ensures { IfOk result (λ rooms. NoneOpen rooms.connections) }
    {
        let datagram = vec![in alloc; 0u8; ROOM]?;
        let connections = Connections::new(alloc)?;
        let events = Events::with_capacity(alloc, READY_AT_ONCE)?;
        let peers = Peers::new(alloc, lines)?;
        Ok(Rooms {
            connections,
            peers,
            events,
            datagram,
        })
    }
}
