ghost use Rattle.std.specs.Prelude.{◌≡◌, ◌<◌, ℕ, List, Option, None, length, IfOk, OnOk, option_and_then};
ghost use Rattle.std.specs.Io.{ReadsAtMost, WritesAtMost};
ghost use Rattle.std.specs.Io.KnownBytes.{ReadConsumes, WriteAppends};
ghost use Rattle.dots_host.specs.Causes.{HasCause};

use crate::failed::Failed;
use crate::sink::Sink;
use crate::source::Source;
use std::io::{Read, Write};

/// A source over a reader of std, which tells what the reader tells of its bytes: for a file, nothing.
/// Without a reader every read fails.
#[derive(Drop)]
pub struct StdSource<R> {
    reader: Option<R>,
    faults: u64,
}

impl<R> StdSource<R> {
    /// A source over the reader, as `None` where a file can't be opened. Takes no memory.
    pub fn new(reader: Option<R>) -> Self
        ensures { result ≡ record { reader = reader; faults = 0 } }
    {
        StdSource { reader, faults: 0 }
    }

    fn fail(&mut self) -> Result<usize, Failed>
        ensures reader { self.new.reader ≡ self.old.reader }
        ensures cause { HasCause self.old.faults self.new.faults result }
        ensures err { OnOk result ⊥ }
    {
        self.faults = self.faults.saturating_add(1);
        Err(Failed)
    }
}

impl<R: Read> Source for StdSource<R> {
    ghost left = { λ source. option_and_then R.remaining source.reader };

    ghost faults = { λ source. source.faults };

    fn read(&mut self, into: &mut [u8]) -> Result<usize, Failed>
        ensures bound { ReadsAtMost result into.new }
        ensures bytes { ReadConsumes (option_and_then R.remaining self.old.reader)
            (option_and_then R.remaining self.new.reader) result into.new }
        ensures cause { HasCause self.old.faults self.new.faults result }
        ensures no_fault { OnOk result (self.new.faults ≡ self.old.faults) }
        ensures no_reader { self.old.reader ≡ None → OnOk result ⊥ }
    {
        let Some(reader) = &mut self.reader else {
            return self.fail();
        };
        match reader.read(into) {
            Ok(count) => Ok(count),
            Err(_) => self.fail(),
        }
    }
}

/// A sink over a writer of std, which tells what the writer tells of its bytes: for a file, nothing.
/// It holds none back.
#[derive(Drop)]
pub struct StdSink<W> {
    writer: W,
    faults: u64,
}

impl<W> StdSink<W> {
    /// A sink over the writer. Takes no memory.
    pub fn new(writer: W) -> Self
        ensures { result ≡ record { writer = writer; faults = 0 } }
    {
        StdSink { writer, faults: 0 }
    }

    fn fail(&mut self) -> Result<usize, Failed>
        ensures writer { self.new.writer ≡ self.old.writer }
        ensures cause { HasCause self.old.faults self.new.faults result }
        ensures err { OnOk result ⊥ }
    {
        self.faults = self.faults.saturating_add(1);
        Err(Failed)
    }
}

impl<W: Write> Sink for StdSink<W> {
    ghost holds = { λ sink. W.contents sink.writer };

    ghost faults = { λ sink. sink.faults };

    fn write(&mut self, bytes: &[u8]) -> Result<usize, Failed>
        ensures bound { WritesAtMost result bytes.now }
        ensures progress { 0 < length bytes.now → IfOk result (λ count. 0 < count) }
        ensures written { WriteAppends (W.contents self.old.writer)
            (W.contents self.new.writer) result bytes.now }
        ensures cause { HasCause self.old.faults self.new.faults result }
        ensures no_fault { OnOk result (self.new.faults ≡ self.old.faults) }
    {
        match self.writer.write(bytes) {
            Ok(0) if !bytes.is_empty() => self.fail(),
            Ok(count) => Ok(count),
            Err(_) => self.fail(),
        }
    }
}
