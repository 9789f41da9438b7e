ghost use Rattle.std.specs.Prelude.{◌≡◌, ◌<◌, ◌≤◌, ◌-◌, ◌++◌, [], length, min, take, drop, IfOk};
ghost use Rattle.http_cut.specs.Requests.{IsCut, cut_value, waits};
ghost use Rattle.http_cut.specs.Streams.{IfRequest};

use crate::cutting::{cut_known, needed};
use crate::place::Place;
use crate::request::Cut;
use crate::room::HeadRoom;
use dots_lists::NoMemory;
use std::alloc::Global;
use std::marker::Model;

/// The greatest number of bytes that a stream buffers: a head and a body of 8,192 bytes each.
const GREATEST_BUFFERED: usize = 16_384;

/// The bytes of a connection that came and aren't answered yet, at most 16,384.
///
/// It remembers how far the head at its front came, and how many bytes the request needs where its body is waited for. So
/// each byte of a head is looked at once as it comes, and none of a body: a stream costs time linear in its bytes, however
/// it is cut into pieces. Where it is cut once behind each piece, a head is parsed once if the request came whole with the
/// piece in which its head ended, and else three times at most. A request that is discarded costs the moving of what is buffered
/// behind it.
#[derive(Drop)]
pub struct Stream {
    bytes: Vec<u8>,
    place: Place,
    /// How many bytes the request at the front needs, where that was looked up.
    needed: Option<usize>,
}

impl Model for Stream {
    ghost use Rattle.std.specs.Prelude.{ℕ, List, ◌≤◌, length, vec_capacity};
    ghost use Rattle.http_cut.specs.Places.{IsKnown};

    ghost Value = { List ℕ };

    ghost view = { λ stream. stream.bytes.items };

    ghost invariant = { λ stream. (length stream.bytes.items ≤ 16384) × (16384 ≤ vec_capacity stream.bytes)
        × IsKnown stream.bytes.items stream.place stream.needed };
}

impl Stream {
    /// A stream of which nothing came yet. `NoMemory` only where its room isn't found.
    pub fn new(alloc: Global) -> Result<Stream, NoMemory>
        ensures { IfOk result (λ stream. stream ≡ []) }
    {
        let bytes = Vec::with_capacity(alloc, GREATEST_BUFFERED)?;
        Ok(Stream {
            bytes,
            place: Place::Blank,
            needed: None,
        })
    }

    /// Takes as many bytes of the piece as there is room for, and answers how many. Takes no memory.
    pub fn take(&mut self, piece: &[u8]) -> usize
        ensures count { result ≡ min (length piece.now) (16384 - length self.old) }
        ensures held { self.new ≡ self.old ++ take result piece.now }
        ensures bound { length self.new ≤ 16384 }
    {
        self.look_up_need(piece);
        let count = piece.len().min(GREATEST_BUFFERED - self.bytes.len());
        let came = &piece[..count];
        self.place = self.place.behind(came);
        self.bytes.extend_from_slice(came).unwrap();
        count
    }

    /// Looks up how many bytes the request at the front needs, once its head is there, as more bytes come.
    fn look_up_need(&mut self, piece: &[u8])
        ensures { self.new ≡ self.old }
    {
        if !piece.is_empty() && self.place.is_end() && self.needed.is_none() {
            self.needed = Some(needed(self.bytes.as_slice()));
        }
    }

    /// What stands at the front of the bytes that are buffered. Takes no memory.
    ///
    /// Where a head ended and the body isn't known to be waited for, it goes through the head once, at most 8,192 bytes, and
    /// looks up a few of its fields. Else it looks at no byte, so that a head that can't come is refused only where it would
    /// have ended.
    pub fn cut<'a>(&'a self, room: &mut HeadRoom) -> Cut<'a>
        ensures cut { IsCut self.now (cut_value result) }
        // Where more is waited for, there is room for it.
        ensures room { cut_value result ≡ waits → length self.now < 16384 }
        ensures size { IfRequest result (λ request. (0 < request.length) × (request.length ≤ length self.now)) }
    {
        cut_known(
            self.bytes.as_slice(),
            self.place,
            self.needed,
            room.spans.as_mut_slice(),
        )
    }

    /// Drops bytes from the front, those of a request that is answered. Takes no memory.
    pub fn discard(&mut self, n: usize)
        requires { n ≤ length self.old }
        ensures { self.new ≡ drop n self.old }
    {
        let len = self.bytes.len();
        self.bytes.as_mut_slice().copy_within(n.., 0);
        self.bytes.truncate(len - n);
        self.place = Place::Blank.behind(self.bytes.as_slice());
        self.needed = None;
    }

    /// Drops all bytes, those of a connection that is gone. Takes no memory.
    pub fn clear(&mut self)
        ensures { self.new ≡ [] }
    {
        self.bytes.clear();
        self.place = Place::Blank;
        self.needed = None;
    }
}
