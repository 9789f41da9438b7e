ghost use Rattle.std.specs.Prelude.{◌≡◌, ℕ, List, ◌+◌, ◌*◌, ◌<◌, ◌≤◌, [], ◌++◌, length, take, drop, IfOk, OnErr};
ghost use Rattle.std.specs.Io.KnownBytes.{Keeps, Consumes, IsAtEnd};
ghost use Rattle.dots_host.specs.Causes.{HasCause};
ghost use Rattle.dots_script.specs.Lines.{to_come};

use dots_host::{Failed, NoMemory, Source};
use std::alloc::Global;
use std::marker::Model;

/// The room for bytes that were read ahead: longer than twice the longest line, so that what is left fits before
/// what it moves from.
const BLOCK: usize = 32_768;

/// Bytes that were read ahead of their use. Those that are left move to the front of the room only when the room
/// behind them is used up.
#[derive(Drop)]
pub struct Block {
    room: Vec<u8>,
    start: usize,
    end: usize,
}

impl Model for Block {
    ghost use Rattle.std.specs.Prelude.{List, ℕ, ◌≤◌, ◌≡◌, length, take, drop};

    ghost Value = { List ℕ };

    ghost view = { λ block. drop block.start (take block.end block.room.items) };

    ghost invariant = { λ block. (block.start ≤ block.end) × (block.end ≤ 32768) × (length block.room.items ≡ 32768) };
}

impl Block {
    /// An empty block.
    pub fn new(alloc: Global) -> Result<Self, NoMemory>
        ensures { IfOk result (λ block. block ≡ []) }
    {
        let room = vec![in alloc; 0u8; BLOCK]?;
        Ok(Block {
            room,
            start: 0,
            end: 0,
        })
    }

    /// The bytes that were read ahead.
    pub fn bytes(&self) -> &[u8]
        ensures { result.now ≡ self.now }
    {
        &self.room[self.start..self.end]
    }

    /// Passes the first bytes, so many.
    pub fn pass(&mut self, count: usize)
        requires { count ≤ length self.old }
        ensures { self.new ≡ drop count self.old }
    {
        self.start += count;
    }

    /// Reads more bytes behind those that are there, and answers how many came: 0 only at the end.
    pub fn fill<S: Source>(&mut self, source: &mut S) -> Result<usize, Failed>
        requires { length self.old ≤ 8400 }
        ensures more { IfOk result (λ count.
            (more : List ℕ) × (length more ≡ count) × (self.new ≡ self.old ++ more)) }
        ensures kept { Keeps (to_come self.old (S.left source.old))
            (to_come self.new (S.left source.new)) }
        ensures ends { IfOk result (λ count. count ≡ 0 → IsAtEnd (S.left source.new)) }
        ensures cause { HasCause (S.faults source.old) (S.faults source.new) result }
    {
        let room = self.room.as_mut_slice();
        let (start, end) = settle(room, self.start, self.end);
        self.start = start;
        self.end = end;
        match read_behind(source, room, end) {
            Ok(count) => {
                self.end = end + count;
                return Ok(count);
            }
            Err(Failed) => return Err(Failed),
        }
    }
}

/// Moves the bytes between two places to the front where no room is behind them, and answers where they then
/// stand.
fn settle(room: &mut [u8], start: usize, end: usize) -> (usize, usize)
    requires places { (start ≤ end) × (end ≤ length room.old) }
    requires room { (length room.old ≡ 32768) × (end ≤ start + 8400) }
    ensures places { (result.0 ≤ result.1) × (result.1 < length room.new) }
    ensures kept { drop result.0 (take result.1 room.new) ≡ drop start (take end room.old) }
{
    if end < BLOCK {
        return (start, end);
    }
    let count = move_to_front(room, start);
    (0, count)
}

/// Moves the bytes that stand at a place and behind it to the front, and answers how many they are.
fn move_to_front(room: &mut [u8], start: usize) -> usize
    requires { (start ≤ length room.old) × (length room.old ≤ 2 * start) }
    ensures count { result + start ≡ length room.old }
    ensures moved { take result room.new ≡ drop start room.old }
{
    let count = room.len() - start;
    let (front, back) = room.split_at_mut(start);
    front[..count].copy_from_slice(back);
    count
}

/// Reads into the room behind a place.
fn read_behind<S: Source>(source: &mut S, room: &mut [u8], end: usize) -> Result<usize, Failed>
    requires { end < length room.old }
    ensures within { IfOk result (λ count. end + count ≤ length room.new) }
    ensures front { take end room.new ≡ take end room.old }
    ensures read { IfOk result (λ count.
        Consumes (S.left source.old) (S.left source.new) (take count (drop end room.new))) }
    ensures ends { IfOk result (λ count. count ≡ 0 → IsAtEnd (S.left source.new)) }
    ensures unread { OnErr result (Keeps (S.left source.old) (S.left source.new)) }
    ensures cause { HasCause (S.faults source.old) (S.faults source.new) result }
{
    source.read(&mut room[end..])
}
