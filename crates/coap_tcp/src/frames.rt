ghost use Rattle.std.specs.Prelude.{◌≡◌, ◌<◌, ◌≤◌, ◌-◌, ◌++◌, [], length, min, take, drop, IfOk};
ghost use Rattle.coap_tcp.specs.Frames.{BeginsWith, frame_bytes};
ghost use Rattle.coap_tcp.specs.FrameReading.{IfFrame, frame_at, frame_value, cut_value, waits};

use crate::cutting::cut_buffered;
use crate::frame::FrameCut;
use dots_lists::NoMemory;
use std::alloc::Global;
use std::marker::Model;

/// The greatest number of bytes that are buffered.
const GREATEST_BUFFERED: usize = 8_192;

/// The bytes of a connection that came and aren't taken yet, at most 8,192. The longest frame has 4,108.
#[derive(Drop)]
pub struct Frames {
    bytes: Vec<u8>,
}

impl Model for Frames {
    ghost use Rattle.std.specs.Prelude.{ℕ, List, ◌≤◌, length, vec_capacity};

    ghost Value = { List ℕ };

    ghost view = { λ frames. frames.bytes.items };

    ghost invariant = { λ frames. (length frames.bytes.items ≤ 8192) × (8192 ≤ vec_capacity frames.bytes) };
}

impl Frames {
    /// Room for a stream of which nothing came yet. `NoMemory` only where the room isn't found.
    pub fn new(alloc: Global) -> Result<Frames, NoMemory>
        ensures { IfOk result (λ frames. frames ≡ []) }
    {
        let bytes = Vec::with_capacity(alloc, GREATEST_BUFFERED)?;
        Ok(Frames { bytes })
    }

    /// Takes as many bytes of the piece as there is room for, and answers how many. Takes no memory.
    pub fn take(&mut self, piece: &[u8]) -> usize
        ensures count { result ≡ min (length piece.now) (8192 - length self.old) }
        ensures held { self.new ≡ self.old ++ take result piece.now }
        ensures bound { length self.new ≤ 8192 }
    {
        let count = piece.len().min(GREATEST_BUFFERED - self.bytes.len());
        self.bytes.extend_from_slice(&piece[..count]).unwrap();
        count
    }

    /// What stands at the front of the bytes that are buffered. Takes no memory.
    ///
    /// It looks at no more than the header where the frame isn't there whole, and else goes through the options once.
    pub fn cut<'a>(&'a self) -> FrameCut<'a>
        ensures cut { cut_value result ≡ frame_at self.now }
        // A frame is spelled at the front of what is buffered.
        ensures begins { IfFrame result (λ frame. BeginsWith self.now (frame_value frame) (drop frame.length self.now)) }
        ensures length { IfFrame result (λ frame. frame.length ≡ length (frame_bytes (frame_value frame))) }
        ensures size { IfFrame result (λ frame. (0 < frame.length) × (frame.length ≤ length self.now)) }
        // Where more is waited for, there is room for it.
        ensures room { cut_value result ≡ waits → length self.now < 4108 }
    {
        cut_buffered(self.bytes.as_slice())
    }

    /// Drops bytes from the front, those of a frame that is done. Takes no memory.
    pub fn discard(&mut self, n: usize)
        requires { n ≤ length self.old }
        ensures { self.new ≡ drop n self.old }
    {
        let len = self.bytes.len();
        self.bytes.as_mut_slice().copy_within(n.., 0);
        self.bytes.truncate(len - n);
    }

    /// Drops all bytes, those of a connection that is gone. Takes no memory.
    pub fn clear(&mut self)
        ensures { self.new ≡ [] }
    {
        self.bytes.clear();
    }
}
