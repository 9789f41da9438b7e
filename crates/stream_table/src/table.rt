//! The connections of all peers.

ghost use Rattle.std.specs.Prelude.{◌≡◌, ℕ, ◌-◌, ◌<◌, ◌≤◌, ◌++◌, length, min, take, drop, map, find, flat_map, position, slice_get, option_map, is_some, true, Some, None, MatchOption, IfOk, OnOk};
ghost use Rattle.stream_table.specs.Lines.{Line, is_of, no_lines, emptied, row_emptied, forgotten, row_forgotten, opened, opening, taken_in, with_row, row_opened, has_room, line_of, peer_in, peer_of};
ghost use Rattle.stream_table.specs.Places.{line_at, conn_at, IsAt, NowBuffers, row_with, with_place, with_more};

use crate::buffers::Buffers;
use crate::place::LinePlace;
use crate::refused::Refused;
use crate::row::Row;
use dots_lists::NoMemory;
use dots_settings::{PeerRow, Role, Settings};
use std::alloc::Global;
use std::marker::Model;

/// The open connections of the client peers of the settings: at most two of each.
///
/// A connection is found by going through the rows, of which there are at most 64.
#[derive(Drop)]
pub struct StreamTable<B: Buffers> {
    rows: Vec<Row<B>>,
}

impl<B: Buffers> Model for StreamTable<B> {
    ghost use Rattle.std.specs.Prelude.{List};
    ghost use Rattle.stream_table.specs.Lines.{PeerLines};
    ghost use Rattle.stream_table.specs.Places.{AreApart};

    ghost Value = { List PeerLines };

    ghost view = { λ table. table.rows.items };

    ghost invariant = { λ table. AreApart table.rows.items };
}

impl<B: Buffers + Drop> StreamTable<B> {
    /// A row for each client of the settings, in their order; nothing is open. This is the only call that takes memory, that of two
    /// streams for each client.
    pub fn new(alloc: Global, settings: &Settings) -> Result<Self, NoMemory>
        ensures { IfOk result (λ table. table ≡ flat_map no_lines settings.now.peers) }
    {
        let rows = empty_rows(alloc, settings)?;
        Ok(StreamTable { rows })
    }

    /// Where the connection of this number stands; None exactly where it stands nowhere. It stands there until a connection is opened or
    /// forgotten, or all are.
    pub fn place(&self, conn: u32) -> Option<LinePlace>
        ensures { MatchOption result (line_of conn self.now ≡ None) (λ place. IsAt conn place self.now) }
    {
        for (row, lines) in self.rows.iter().enumerate() {
            if let Some(seat) = lines.seat_of(conn) {
                return Some(LinePlace { row, seat });
            }
        }
        None
    }

    /// A connection of this number is opened from this peer. What had the number before is let go. It is taken where the peer is a client
    /// of the settings, fewer than two of whose connections are open then. Takes no memory.
    pub fn open(&mut self, peer: u32, conn: u32) -> Result<(), Refused>
        ensures answer { result ≡ opening peer conn self.old }
        ensures rows { self.new ≡ opened peer conn self.old }
    {
        forget_in(&mut self.rows, conn); // in whatever row it stands
        open_in(&mut self.rows, peer, conn)
    }

    /// The connection of this number is let go, with what is buffered of it. Where none has the number nothing changes. Takes no memory.
    pub fn forget(&mut self, conn: u32)
        ensures { self.new ≡ forgotten conn self.old }
    {
        forget_in(&mut self.rows, conn);
    }

    /// All connections are let go. Takes no memory.
    pub fn clear(&mut self)
        ensures { self.new ≡ emptied self.old }
    {
        clear_in(&mut self.rows);
    }

    /// The peer of the connection at this place.
    pub fn peer(&self, place: LinePlace) -> u32
        requires { is_some (conn_at place self.now) ≡ true }
        ensures { (conn : ℕ) → conn_at place self.now ≡ Some conn → peer_of conn self.now ≡ Some result }
    {
        peer_at(&self.rows, place)
    }

    /// What is buffered of the connection at this place.
    pub fn stream(&self, place: LinePlace) -> &B
        requires { is_some (conn_at place self.now) ≡ true }
        ensures { (line : Line) → line_at place self.now ≡ Some line → B.bytes result.now ≡ line.buffered }
    {
        stream_in(&self.rows, place)
    }

    /// Takes as many bytes of a piece as there is room for at this place, and answers how many. Takes no memory.
    pub fn take(&mut self, place: LinePlace, piece: &[u8]) -> usize
        requires { is_some (conn_at place self.old) ≡ true }
        ensures count { (line : Line) → line_at place self.old ≡ Some line → result ≡ min (length piece.now) (B.most - length line.buffered) }
        ensures held { (line : Line) → line_at place self.old ≡ Some line
            → NowBuffers place (with_more (take result piece.now)) self.old self.new line }
    {
        take_in(&mut self.rows, place, piece)
    }

    /// Drops bytes from the front of what is buffered at this place, those of a request that is answered. Takes no memory.
    pub fn discard(&mut self, place: LinePlace, n: usize)
        requires { (line : Line) × (line_at place self.old ≡ Some line) × (n ≤ length line.buffered) }
        ensures { (line : Line) → line_at place self.old ≡ Some line → NowBuffers place (drop n) self.old self.new line }
    {
        discard_in(&mut self.rows, place, n);
    }
}

fn empty_rows<B: Buffers + Drop>(
    alloc: Global,
    settings: &Settings,
) -> Result<Vec<Row<B>>, NoMemory>
    ensures { IfOk result (λ rows. rows.items ≡ flat_map no_lines settings.now.peers) }
{
    let mut rows = Vec::new(alloc);
    for row in settings.peers() {
        add_client(alloc, &mut rows, row)?;
    }
    Ok(rows)
}

/// Puts a row for the peer behind the others where it is a client.
fn add_client<B: Buffers + Drop>(
    alloc: Global,
    rows: &mut Vec<Row<B>>,
    peer: &PeerRow,
) -> Result<(), NoMemory>
    ensures { OnOk result (rows.new.items ≡ rows.old.items ++ no_lines peer.now) }
{
    if let Role::Client(_) = peer.role {
        let row = Row::new(alloc, peer.peer)?;
        rows.push(row)?;
        return Ok(());
    }
    Ok(())
}

fn forget_in<B: Buffers + Drop>(rows: &mut Vec<Row<B>>, conn: u32)
    ensures { rows.new.items ≡ forgotten conn rows.old.items }
{
    forget_all(rows.as_mut_slice(), conn);
}

fn forget_all<B: Buffers + Drop>(rows: &mut [Row<B>], conn: u32)
    ensures { rows.new ≡ map (row_forgotten conn) rows.old }
{
    for row in rows.iter_mut() {
        row.forget(conn);
    }
}

fn clear_in<B: Buffers + Drop>(rows: &mut Vec<Row<B>>)
    ensures { rows.new.items ≡ emptied rows.old.items }
{
    clear_all(rows.as_mut_slice());
}

fn clear_all<B: Buffers + Drop>(rows: &mut [Row<B>])
    ensures { rows.new ≡ map row_emptied rows.old }
{
    for row in rows.iter_mut() {
        row.clear();
    }
}

/// Opens a connection whose number no row has.
fn open_in<B: Buffers + Drop>(rows: &mut Vec<Row<B>>, peer: u32, conn: u32) -> Result<(), Refused>
    ensures answer { result ≡ taken_in (find (is_of peer) rows.old.items) }
    ensures rows { rows.new.items ≡ with_row peer (row_opened conn) rows.old.items }
{
    let Some(at) = row_of(rows.as_slice(), peer) else {
        return Err(Refused::Stranger);
    };
    if open_at(rows, at, conn) {
        return Ok(());
    }
    Err(Refused::Third)
}

/// Where the row of this peer stands.
fn row_of<B: Buffers + Drop>(rows: &[Row<B>], peer: u32) -> Option<usize>
    ensures { result ≡ position (is_of peer) rows.now }
{
    rows.iter().position(|row| row.is_of(peer))
}

fn open_at<B: Buffers + Drop>(rows: &mut Vec<Row<B>>, at: usize, conn: u32) -> bool
    requires { at < length rows.old.items }
    ensures answer { Some result ≡ option_map has_room (slice_get rows.old.items at) }
    ensures rows { rows.new.items ≡ with_place at (row_opened conn) rows.old.items }
{
    rows[at].open(conn)
}

fn peer_at<B: Buffers + Drop>(rows: &Vec<Row<B>>, place: LinePlace) -> u32
    requires { is_some (line_at place rows.now.items) ≡ true }
    ensures { option_map peer_in (slice_get rows.now.items place.row) ≡ Some result }
{
    rows[place.row].peer()
}

fn stream_in<B: Buffers + Drop>(rows: &Vec<Row<B>>, place: LinePlace) -> &B
    requires { is_some (line_at place rows.now.items) ≡ true }
    ensures { (line : Line) → line_at place rows.now.items ≡ Some line → B.bytes result.now ≡ line.buffered }
{
    rows[place.row].stream(place.seat)
}

fn take_in<B: Buffers + Drop>(rows: &mut Vec<Row<B>>, place: LinePlace, piece: &[u8]) -> usize
    requires { is_some (line_at place rows.old.items) ≡ true }
    ensures count { (line : Line) → line_at place rows.old.items ≡ Some line → result ≡ min (length piece.now) (B.most - length line.buffered) }
    ensures rows { rows.new.items ≡ with_place place.row (row_with place.seat (with_more (take result piece.now))) rows.old.items }
{
    rows[place.row].take(place.seat, piece)
}

fn discard_in<B: Buffers + Drop>(rows: &mut Vec<Row<B>>, place: LinePlace, n: usize)
    requires { (line : Line) × (line_at place rows.old.items ≡ Some line) × (n ≤ length line.buffered) }
    ensures { rows.new.items ≡ with_place place.row (row_with place.seat (drop n)) rows.old.items }
{
    rows[place.row].discard(place.seat, n);
}
