//! The sessions with all peers.

ghost use Rattle.std.specs.Prelude.{◌≡◌, ◌<◌, ◌+◌, ℕ, length, map, position, slice_get, option_and_then, option_map, count_by, is_some, true, Some, IfOk, MatchOption, ⊤};
ghost use Rattle.std.specs.List.{list_any};
ghost use Rattle.session_core.specs.Contacts.{is_of, unheard, row_heard, heard_from, row_begun, begun_with, number_in, number_of, row_numbered, numbered};
ghost use Rattle.session_core.specs.Beating.{Beating, Agrees, has_session, NoneLost, IsNextLost, has_waited, NoneBeats, IsNextBeat, turn_loses, row_turned};
ghost use Rattle.session_core.specs.Places.{row_peer, AreFirsts, with_place};

use crate::configs::Configs;
use crate::contact::{Beat, PeerContact};
use dots_lists::NoMemory;
use dots_settings::Settings;
use std::alloc::Global;
use std::collections::HashMap;
use std::marker::Model;

/// The sessions with the peers of the settings, in their order (RFC 9132, sections 4.5 and 4.7), and the Message IDs of the messages to
/// them that begin here. The row of a peer is found at once, by its hash.
#[derive(Drop)]
pub struct Sessions {
    rows: Vec<PeerContact>,
    /// Where the row of each peer stands.
    places: HashMap<u32, usize>,
}

impl Model for Sessions {
    ghost use Rattle.std.specs.Prelude.{List, map};
    ghost use Rattle.session_core.specs.declared.contact.PeerContact.{PeerContact};
    ghost use Rattle.session_core.specs.Places.{row_peer, AreFirsts};

    ghost Value = { List PeerContact };

    ghost view = { λ sessions. sessions.rows.items };

    ghost invariant = { λ sessions. AreFirsts 0 sessions.places.entries (map row_peer sessions.rows.items) };
}

impl Sessions {
    /// No sessions, and no peer was heard. This is the only call that takes memory.
    pub fn new(alloc: Global, settings: &Settings) -> Result<Self, NoMemory>
        ensures { IfOk result (λ made. made ≡ map unheard settings.now.peers) }
    {
        let rows = unheard_rows(alloc, settings)?;
        let places = places_of(alloc, rows.as_slice())?;
        Ok(Sessions { rows, places })
    }

    /// Where the row of this peer stands.
    fn place(&self, peer: u32) -> Option<usize>
        ensures { result ≡ position (is_of peer) self.now }
    {
        self.places.get(&peer).copied()
    }

    /// Whether there may be a session with this peer: it is a client or a gateway of the settings.
    pub fn holds(&self, peer: u32) -> bool
        ensures { result ≡ list_any (is_of peer) self.now }
    {
        self.place(peer).is_some()
    }

    /// Whether a session with this peer has begun, be it forgotten or not.
    pub fn has_begun(&self, peer: u32) -> bool
        ensures { result ≡ is_some (number_of peer self.now) }
    {
        match self.place(peer) {
            Some(at) => self.rows[at].has_begun(),
            None => false,
        }
    }

    /// The Message ID of the next message that begins here, to this peer; None exactly where no session with it has begun. Nothing changes.
    pub fn next_number(&self, peer: u32) -> Option<u16>
        ensures { result ≡ number_of peer self.now }
    {
        match self.place(peer) {
            Some(at) => self.rows[at].next_number(),
            None => None,
        }
    }

    /// A message of this peer, which the settings have, is heard at the time `now`, in seconds. A session begins where there is none.
    pub fn heard(&mut self, peer: u32, now: u64)
        requires { list_any (is_of peer) self.old ≡ true }
        ensures { self.new ≡ heard_from peer now self.old }
    {
        if let Some(at) = self.place(peer) {
            hear_at(&mut self.rows, at, now);
        }
    }

    /// A session with this peer, which the settings have, begins at the time `now`, in seconds, as if a message of the peer was heard.
    /// Where there is one nothing changes. Takes no memory.
    pub fn begin(&mut self, peer: u32, now: u64)
        requires { list_any (is_of peer) self.old ≡ true }
        ensures { self.new ≡ begun_with peer now self.old }
    {
        if let Some(at) = self.place(peer) {
            begin_at(&mut self.rows, at, now);
        }
    }

    /// How many peers there are.
    pub fn len(&self) -> usize
        ensures { result ≡ length self.now }
    {
        self.rows.len()
    }

    /// The peer at this place, in the order of the settings.
    pub fn peer_at(&self, place: usize) -> u32
        requires { place < length self.now }
        ensures { option_map row_peer (slice_get self.now place) ≡ Some result }
    {
        self.rows[place].peer
    }

    /// The turn of the peer at this place at a tick at the time `now`, in seconds. A session with it begins where it is watched and has none,
    /// as if a message of it was heard. Then its session is forgotten where it is lost by this interval in seconds and number of heartbeats
    /// that may be missed, and this is answered (RFC 9132, section 4.7). Takes no memory.
    pub fn turn_at(&mut self, place: usize, watched: bool, beat: (u64, u64), now: u64) -> bool
        requires { place < length self.old }
        ensures lost { option_map (turn_loses watched beat now) (slice_get self.old place) ≡ Some result }
        ensures after { self.new ≡ with_place place (row_turned watched beat now) self.old }
    {
        turn_at(&mut self.rows, place, watched, beat, now)
    }

    /// The Message ID of the next message that begins here, to a peer with which a session has begun, be it forgotten or not. They rise
    /// by one in 16 bits, from the time at which the first session began.
    pub fn number(&mut self, peer: u32) -> u16
        requires { is_some (number_of peer self.old) ≡ true }
        ensures number { Some result ≡ number_of peer self.old }
        ensures after { self.new ≡ numbered peer self.old }
    {
        match self.place(peer) {
            Some(at) => number_at(&mut self.rows, at),
            None => unreachable!(),
        }
    }

    /// Forgets the first session, in the order of the settings, that is lost at the time `now`, in seconds, and answers its peer; None
    /// exactly where there is none (RFC 9132, section 4.7). A session is lost where the interval of the peer
    /// isn't 0 and the peer was heard longer ago than the missed heartbeats that are allowed take. Whatever the configurations say, each
    /// answer leaves one session fewer. Takes no memory.
    pub fn next_lost<C: Configs>(&mut self, configs: &C, now: u64) -> Option<u32>
        ensures first { (by : Beating) → Agrees (C.Says configs.now) by
            → MatchOption result (NoneLost by now self.old self.new) (λ peer. IsNextLost by now self.old self.new peer) }
        ensures peers { map row_peer self.new ≡ map row_peer self.old }
        ensures fewer { MatchOption result ⊤ (λ peer. count_by has_session self.old ≡ count_by has_session self.new + 1) }
    {
        lost_among(&mut self.rows, configs, now)
    }

    /// The heartbeat of the first peer, in the order of the settings, that is due one at the time `now`, in seconds; it counts as sent
    /// (RFC 9132, section 4.7). None exactly where none is due. One is due where the interval of the peer isn't 0 and has passed since
    /// the last heartbeat, or since the session began. No session is forgotten, so [`Sessions::next_lost`] is to be asked until None
    /// before. Whatever the configurations say, each answer leaves one session fewer whose last heartbeat, or beginning, was before `now`.
    /// Takes no memory.
    pub fn next_beat<C: Configs>(&mut self, configs: &C, now: u64) -> Option<Beat>
        ensures first { (by : Beating) → Agrees (C.Says configs.now) by
            → MatchOption result (NoneBeats by now self.old self.new) (λ beat. IsNextBeat by now self.old self.new beat) }
        ensures peers { map row_peer self.new ≡ map row_peer self.old }
        ensures fewer { MatchOption result ⊤ (λ beat. count_by (has_waited now) self.old ≡ count_by (has_waited now) self.new + 1) }
    {
        beat_among(&mut self.rows, configs, now)
    }
}

/// A row for each peer of the settings, none of which was heard.
fn unheard_rows(alloc: Global, settings: &Settings) -> Result<Vec<PeerContact>, NoMemory>
    ensures { IfOk result (λ rows. rows.items ≡ map unheard settings.now.peers) }
{
    let mut rows = Vec::new(alloc);
    for row in settings.peers() {
        rows.push(PeerContact::unheard(row.peer))?;
    }
    Ok(rows)
}

/// The first place of each peer. They are entered from the last to the first.
fn places_of(alloc: Global, rows: &[PeerContact]) -> Result<HashMap<u32, usize>, NoMemory>
    ensures { IfOk result (λ places. AreFirsts 0 places.entries (map row_peer rows.now)) }
{
    let mut places = HashMap::new(alloc);
    let mut at = rows.len();
    while at > 0 {
        at -= 1;
        places.insert(rows[at].peer, at)?;
    }
    Ok(places)
}

/// The peer at this place is heard.
fn hear_at(rows: &mut Vec<PeerContact>, at: usize, now: u64)
    requires { at < length rows.old.items }
    ensures { rows.new.items ≡ with_place at (row_heard now) rows.old.items }
{
    rows[at].hear(now);
}

/// A session with the peer at this place begins.
fn begin_at(rows: &mut Vec<PeerContact>, at: usize, now: u64)
    requires { at < length rows.old.items }
    ensures { rows.new.items ≡ with_place at (row_begun now) rows.old.items }
{
    rows[at].begin(now);
}

/// The turn at a tick of the peer at this place: whether its session was lost, which is forgotten then.
fn turn_at(
    rows: &mut Vec<PeerContact>,
    at: usize,
    watched: bool,
    beat: (u64, u64),
    now: u64,
) -> bool
    requires { at < length rows.old.items }
    ensures lost { option_map (turn_loses watched beat now) (slice_get rows.old.items at) ≡ Some result }
    ensures after { rows.new.items ≡ with_place at (row_turned watched beat now) rows.old.items }
{
    rows[at].turn(watched, beat, now)
}

/// The Message ID of the next message to the peer at this place; the one behind it is the next then.
fn number_at(rows: &mut Vec<PeerContact>, at: usize) -> u16
    requires at { at < length rows.old.items }
    requires begun { is_some (option_and_then number_in (slice_get rows.old.items at)) ≡ true }
    ensures number { Some result ≡ option_and_then number_in (slice_get rows.old.items at) }
    ensures after { rows.new.items ≡ with_place at row_numbered rows.old.items }
{
    rows[at].take_number()
}

fn lost_among<C: Configs>(rows: &mut Vec<PeerContact>, configs: &C, now: u64) -> Option<u32>
    ensures first { (by : Beating) → Agrees (C.Says configs.now) by
        → MatchOption result (NoneLost by now rows.old.items rows.new.items) (λ peer. IsNextLost by now rows.old.items rows.new.items peer) }
    ensures peers { map row_peer rows.new.items ≡ map row_peer rows.old.items }
    ensures fewer { MatchOption result ⊤ (λ peer. count_by has_session rows.old.items ≡ count_by has_session rows.new.items + 1) }
{
    next_lost(rows.as_mut_slice(), configs, now)
}

fn next_lost<C: Configs>(rows: &mut [PeerContact], configs: &C, now: u64) -> Option<u32>
    ensures first { (by : Beating) → Agrees (C.Says configs.now) by
        → MatchOption result (NoneLost by now rows.old rows.new) (λ peer. IsNextLost by now rows.old rows.new peer) }
    ensures peers { map row_peer rows.new ≡ map row_peer rows.old }
    ensures fewer { MatchOption result ⊤ (λ peer. count_by has_session rows.old ≡ count_by has_session rows.new + 1) }
{
    for row in rows.iter_mut() {
        if row.has_lost(configs, now) {
            row.forget();
            return Some(row.peer);
        }
    }
    None
}

fn beat_among<C: Configs>(rows: &mut Vec<PeerContact>, configs: &C, now: u64) -> Option<Beat>
    ensures first { (by : Beating) → Agrees (C.Says configs.now) by
        → MatchOption result (NoneBeats by now rows.old.items rows.new.items) (λ beat. IsNextBeat by now rows.old.items rows.new.items beat) }
    ensures peers { map row_peer rows.new.items ≡ map row_peer rows.old.items }
    ensures fewer { MatchOption result ⊤ (λ beat. count_by (has_waited now) rows.old.items ≡ count_by (has_waited now) rows.new.items + 1) }
{
    next_beat(rows.as_mut_slice(), configs, now)
}

fn next_beat<C: Configs>(rows: &mut [PeerContact], configs: &C, now: u64) -> Option<Beat>
    ensures first { (by : Beating) → Agrees (C.Says configs.now) by
        → MatchOption result (NoneBeats by now rows.old rows.new) (λ beat. IsNextBeat by now rows.old rows.new beat) }
    ensures peers { map row_peer rows.new ≡ map row_peer rows.old }
    ensures fewer { MatchOption result ⊤ (λ beat. count_by (has_waited now) rows.old ≡ count_by (has_waited now) rows.new + 1) }
{
    for row in rows.iter_mut() {
        if let Some(beat) = row.due_beat(configs, now) {
            row.send_beat(now);
            return Some(beat);
        }
    }
    None
}
