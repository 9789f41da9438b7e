ghost use Rattle.std.specs.Prelude.{◌≡◌, ◌<◌, ◌≤◌, [], length, IfOk};
ghost use Rattle.http_cut.specs.Requests.{IsCut, cut_value, waits};
ghost use Rattle.http_cut.specs.Streams.{IfRequest};

use dots_lists::NoMemory;
use http_cut::{Cut, HeadRoom, Stream};
use std::alloc::Global;
use std::marker::Model;
use stream_table::Buffers;

/// The bytes of a connection of the data channel that came and aren't answered yet, at most 16,384: a head and a body of 8,192 bytes each.
#[derive(Drop)]
pub struct RestStream {
    stream: Stream,
}

impl Model for RestStream {
    ghost use Rattle.std.specs.Prelude.{ℕ, List};

    ghost Value = { List ℕ };

    ghost view = { λ buffered. buffered.stream };
}

impl RestStream {
    /// What stands at the front of the bytes that are held (RFC 9112, section 2.1). Takes no memory.
    pub fn cut<'a>(&'a self, room: &mut HeadRoom) -> Cut<'a>
        ensures cut { IsCut self.now (cut_value result) }
        // Where more is waited for, there is room for it.
        ensures room { cut_value result ≡ waits → length self.now < 16384 }
        ensures size { IfRequest result (λ request. (0 < request.length) × (request.length ≤ length self.now)) }
    {
        self.stream.cut(room)
    }
}

impl Buffers for RestStream {
    ghost bytes = { λ buffered. buffered };

    ghost most = { 16384 };

    fn new(alloc: Global) -> Result<Self, NoMemory> {
        let stream = Stream::new(alloc)?;
        Ok(RestStream { stream })
    }

    fn take(&mut self, piece: &[u8]) -> usize {
        self.stream.take(piece)
    }

    fn discard(&mut self, n: usize) {
        self.stream.discard(n);
    }

    fn clear(&mut self) {
        self.stream.clear();
    }
}
