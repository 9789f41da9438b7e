//! Which connections are taken: two of each client, and a number once.

ghost use Rattle.std.specs.Prelude.{[]};

use dots_host::MemorySource;
use dots_lists::NoMemory;
use dots_settings::{Settings, read_settings};
use std::alloc::Global;
use stream_table::{Buffers, Refused, StreamTable};

/// Peers 2 and 0 are clients, and peer 3 is a gateway.
const SETTINGS: &[u8] =
    b"domain net1\ndomain net2\nprefix net1 192.0.2.0/24\nclient 2 net1\ngateway 3\nclient 0 net2\n";

/// The steps: a connection of a number is opened from a peer, and whether it is taken; or, where the peer is 9, it is closed.
const STEPS: [(u32, u32, char); 11] = [
    (2, 7, 't'),
    (2, 8, 't'),
    (2, 9, 'n'),
    (3, 9, 's'),
    (1, 9, 's'),
    (0, 9, 't'),
    (0, 8, 't'),
    (2, 6, 't'),
    (2, 5, 'n'),
    (9, 7, 'c'),
    (2, 5, 't'),
];

/// A stream without room.
#[derive(Drop)]
struct Nothing;

impl Buffers for Nothing {
    ghost bytes = { λ nothing. [] };

    ghost most = { 0 };

    fn new(_alloc: Global) -> Result<Self, NoMemory> {
        Ok(Nothing)
    }

    fn take(&mut self, _piece: &[u8]) -> usize {
        0
    }

    fn discard(&mut self, _n: usize) {}

    fn clear(&mut self) {}
}

fn letter_of(table: &mut StreamTable<Nothing>, peer: u32, conn: u32) -> char {
    if peer == 9 {
        table.forget(conn);
        return 'c';
    }
    match table.open(peer, conn) {
        Ok(()) => 't',
        Err(Refused::Third) => 'n',
        Err(Refused::Stranger) => 's',
    }
}

fn are_taken(alloc: Global, settings: &Settings) -> Option<bool> {
    let mut table = StreamTable::<Nothing>::new(alloc, settings).ok()?;
    let mut right = true;
    for (peer, conn, want) in STEPS {
        right &= letter_of(&mut table, peer, conn) == want;
    }
    table.clear();
    Some(right && table.place(9).is_none())
}

fn are_as_said(alloc: Global) -> Option<bool> {
    let mut source = MemorySource::new(alloc, SETTINGS).ok()?;
    let settings = read_settings(alloc, &mut source).ok()?;
    let taken = are_taken(alloc, &settings);
    drop(settings);
    taken
}

#[test]
fn two_connections_of_each_client_are_taken(rt: HostRuntime) {
    assert!(rt; are_as_said(rt.alloc()) == Some(true));
}
