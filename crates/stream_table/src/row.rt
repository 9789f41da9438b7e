//! The connections of one peer.

ghost use Rattle.std.specs.Prelude.{◌≡◌, ◌-◌, ◌≤◌, [], length, min, take, drop, is_some, true, false, MatchOption, IfOk, Some, option_map};
ghost use Rattle.std.specs.List.{list_any};
ghost use Rattle.stream_table.specs.Lines.{Line, is_number, is_of, has_room, row_opened, row_forgotten, row_emptied};
ghost use Rattle.stream_table.specs.Numbers.{line_in};
ghost use Rattle.stream_table.specs.Places.{conn_of, row_with, with_more};

use crate::buffers::Buffers;
use crate::numbers::Numbers;
use crate::seat::Seat;
use dots_lists::NoMemory;
use std::alloc::Global;
use std::marker::Model;
use std::mem;

/// The connections of a client peer: at most two. Both streams are there from the start.
#[derive(Drop)]
pub struct Row<B: Buffers> {
    peer: u32,
    numbers: Numbers,
    older: B,
    newer: B,
}

impl<B: Buffers> Model for Row<B> {
    ghost use Rattle.stream_table.specs.Lines.{PeerLines};
    ghost use Rattle.stream_table.specs.Numbers.{numbered_lines};

    ghost Value = { PeerLines };

    ghost view = { λ row. record { peer = row.peer; lines = numbered_lines row.numbers (B.bytes row.older) (B.bytes row.newer) } };
}

impl<B: Buffers + Drop> Row<B> {
    /// The row of a peer of which nothing is open.
    pub fn new(alloc: Global, peer: u32) -> Result<Self, NoMemory>
        ensures { IfOk result (λ row. row ≡ record { peer = peer; lines = [] }) }
    {
        let older = B::new(alloc)?;
        let newer = B::new(alloc)?;
        Ok(Row {
            peer,
            numbers: Numbers::Free,
            older,
            newer,
        })
    }

    pub fn is_of(&self, peer: u32) -> bool
        ensures { result ≡ is_of peer self.now }
    {
        self.peer == peer
    }

    pub fn peer(&self) -> u32
        ensures { result ≡ self.now.peer }
    {
        self.peer
    }

    /// Where the connection of this number stands.
    pub fn seat_of(&self, conn: u32) -> Option<Seat>
        ensures { MatchOption result (list_any (is_number conn) self.now.lines ≡ false)
            (λ seat. option_map conn_of (line_in seat self.now.lines) ≡ Some conn) }
    {
        self.numbers.seat_of(conn)
    }

    /// Puts a connection behind the others, where fewer than two are open; else answers false.
    pub fn open(&mut self, conn: u32) -> bool
        ensures answer { result ≡ has_room self.old }
        ensures row { self.new ≡ row_opened conn self.old }
    {
        match self.numbers {
            Numbers::Free => {
                self.older.clear();
                self.numbers = Numbers::One(conn);
                true
            }
            Numbers::One(older) => {
                self.newer.clear();
                self.numbers = Numbers::Two(older, conn);
                true
            }
            Numbers::Two(_, _) => false,
        }
    }

    /// Lets the connection of this number go.
    pub fn forget(&mut self, conn: u32)
        ensures { self.new ≡ row_forgotten conn self.old }
    {
        match self.numbers {
            Numbers::Free => {}
            Numbers::One(only) => {
                if only == conn {
                    self.numbers = Numbers::Free;
                }
            }
            Numbers::Two(older, newer) => {
                if older == conn {
                    mem::swap(&mut self.older, &mut self.newer);
                    self.numbers = if newer == conn {
                        Numbers::Free
                    } else {
                        Numbers::One(newer)
                    };
                } else if newer == conn {
                    self.numbers = Numbers::One(older);
                }
            }
        }
    }

    /// Lets all connections go.
    pub fn clear(&mut self)
        ensures { self.new ≡ row_emptied self.old }
    {
        self.numbers = Numbers::Free;
    }

    /// What is buffered of the connection at this place.
    pub fn stream(&self, seat: Seat) -> &B
        requires { is_some (line_in seat self.now.lines) ≡ true }
        ensures { (line : Line) → line_in seat self.now.lines ≡ Some line → B.bytes result.now ≡ line.buffered }
    {
        match seat {
            Seat::Older => &self.older,
            Seat::Newer => &self.newer,
        }
    }

    /// Takes as many bytes of a piece as the stream at this place has room for, and answers how many.
    pub fn take(&mut self, seat: Seat, piece: &[u8]) -> usize
        requires { is_some (line_in seat self.old.lines) ≡ true }
        ensures count { (line : Line) → line_in seat self.old.lines ≡ Some line → result ≡ min (length piece.now) (B.most - length line.buffered) }
        ensures row { self.new ≡ row_with seat (with_more (take result piece.now)) self.old }
    {
        match seat {
            Seat::Older => self.older.take(piece),
            Seat::Newer => self.newer.take(piece),
        }
    }

    /// Drops bytes from the front of the stream at this place.
    pub fn discard(&mut self, seat: Seat, n: usize)
        requires { (line : Line) × (line_in seat self.old.lines ≡ Some line) × (n ≤ length line.buffered) }
        ensures { self.new ≡ row_with seat (drop n) self.old }
    {
        match seat {
            Seat::Older => self.older.discard(n),
            Seat::Newer => self.newer.discard(n),
        }
    }
}
