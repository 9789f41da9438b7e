ghost use Rattle.std.specs.Prelude.{◌≡◌, ◌≢◌, ◌-◌, ◌<◌, ◌≤◌, ◌++◌, [], length, min, take, drop, false, IfOk};
ghost use Rattle.coap_tcp.specs.Frames.{BeginsWith};
ghost use Rattle.coap_tcp.specs.FrameReading.{frame_value};
ghost use Rattle.coap_tcp.specs.Turns.{turn_at, turn_value, waits, IfServes};
ghost use Rattle.coap_tcp.specs.Connections.{turn_size, behind, with_piece};

use crate::codes::CSM;
use crate::frame::FrameCut;
use crate::frames::Frames;
use crate::turn::{Turn, first_turn, later_turn};
use dots_lists::NoMemory;
use std::alloc::Global;
use std::marker::Model;
use stream_table::Buffers;

/// A connection of the signal channel: whether its first message came, and the bytes that came and aren't done, at most 8,192.
#[derive(Drop)]
pub struct SignalStream {
    frames: Frames,
    begun: bool,
}

impl Model for SignalStream {
    ghost use Rattle.coap_tcp.specs.Connections.{StreamValue};

    ghost Value = { StreamValue };

    ghost view = { λ stream. record { begun = stream.begun; bytes = stream.frames } };
}

impl SignalStream {
    /// Room for a connection of which nothing came yet. `NoMemory` only where the room isn't found.
    pub fn new(alloc: Global) -> Result<SignalStream, NoMemory>
        ensures { IfOk result (λ stream. stream ≡ record { begun = false; bytes = [] }) }
    {
        let frames = Frames::new(alloc)?;
        Ok(SignalStream {
            frames,
            begun: false,
        })
    }

    /// Takes as many bytes of the piece as there is room for, and answers how many. Takes no memory.
    pub fn take(&mut self, piece: &[u8]) -> usize
        ensures count { result ≡ min (length piece.now) (8192 - length self.old.bytes) }
        ensures held { self.new ≡ with_piece (take result piece.now) self.old }
        ensures bound { length self.new.bytes ≤ 8192 }
    {
        self.frames.take(piece)
    }

    /// What is to be done with what stands at the front. Takes no memory.
    ///
    /// It looks at no more than the header where the message isn't there whole, and else goes through the options once.
    pub fn turn<'a>(&'a self) -> Turn<'a>
        ensures turn { turn_value result ≡ turn_at self.now.begun self.now.bytes }
        // A request is spelled at the front of what is buffered, and it can be spelled as a datagram.
        ensures served { IfServes result (λ frame. BeginsWith self.now.bytes (frame_value frame) (drop frame.length self.now.bytes)) }
        ensures code { IfServes result (λ frame. frame.code ≢ 0) }
        ensures size { IfServes result (λ frame. frame.length ≡ turn_size self.now.bytes) }
        // Where more is waited for, there is room for it.
        ensures room { turn_value result ≡ waits → length self.now.bytes < 4108 }
    {
        match self.frames.cut() {
            FrameCut::Message(frame) => {
                if self.begun {
                    return later_turn(frame);
                }
                first_turn(&frame)
            }
            FrameCut::More => Turn::Waits,
            FrameCut::Refused(_) => Turn::Aborts,
        }
    }

    /// How many bytes the turn at the front takes: those of its message, and none where nothing whole is there or the stream
    /// has a fault. Takes no memory.
    pub fn turn_size(&self) -> usize
        ensures value { result ≡ turn_size self.now.bytes }
        ensures bound { result ≤ length self.now.bytes }
    {
        match self.frames.cut() {
            FrameCut::Message(frame) => frame.length,
            FrameCut::More => 0,
            FrameCut::Refused(_) => 0,
        }
    }

    /// Whether the connection has begun, or begins with the message at the front.
    fn is_begun(&self) -> bool
        ensures { result ≡ (behind self.now).begun }
    {
        if let FrameCut::Message(frame) = self.frames.cut() {
            return self.begun || frame.code == CSM;
        }
        self.begun
    }

    /// Drops the bytes of the turn at the front, and keeps whether the connection has begun. Takes no memory.
    pub fn done(&mut self)
        ensures { self.new ≡ behind self.old }
    {
        let size = self.turn_size();
        self.discard(size);
    }

    /// Makes it a connection of which nothing came yet. Takes no memory.
    pub fn clear(&mut self)
        ensures { self.new ≡ record { begun = false; bytes = [] } }
    {
        self.frames.clear();
        self.begun = false;
    }
}

impl Buffers for SignalStream {
    ghost bytes = { λ stream. stream.bytes };

    ghost most = { 8192 };

    fn new(alloc: Global) -> Result<Self, NoMemory> {
        SignalStream::new(alloc)
    }

    fn take(&mut self, piece: &[u8]) -> usize {
        self.take(piece)
    }

    /// Where the bytes are those of the turn at the front, this is [`SignalStream::done`].
    fn discard(&mut self, n: usize)
        requires { n ≤ length self.old.bytes }
        ensures bytes { self.new.bytes ≡ drop n self.old.bytes }
        ensures turn { n ≡ turn_size self.old.bytes → self.new ≡ behind self.old }
    {
        self.begun = self.begun || (n > 0 && self.is_begun());
        self.frames.discard(n);
    }

    fn clear(&mut self) {
        self.clear();
    }
}
