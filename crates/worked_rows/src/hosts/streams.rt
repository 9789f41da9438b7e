//! Sources and sinks.

use dots_host::{
    Failed, MemorySink, MemorySource, NoMemory, Sink, Source, StdSink, StdSource, write_all,
};
use std::alloc::Global;

type Counts = [Result<usize, Failed>; 3];

/// Whether three reads answer so, each into three bytes of a room that then holds these bytes.
fn reads<S: Source>(source: &mut S, want: &Counts, bytes: &[u8; 9]) -> bool {
    let mut room = [0; 9];
    let [first, second, third] = want;
    source.read(&mut room[..3]) == *first
        && source.read(&mut room[3..6]) == *second
        && source.read(&mut room[6..]) == *third
        && room == *bytes
}

/// A source in memory, of which the second call fails.
fn memory_reads(alloc: Global) -> bool {
    let want = [Ok(3), Err(Failed), Ok(2)];
    match MemorySource::new(alloc, b"abcde") {
        Ok(mut source) => {
            source.fail_at(2).is_ok() && reads(&mut source, &want, b"abc\0\0\0de\0")
        }
        Err(_) => false,
    }
}

fn reads_through() -> bool {
    let mut source = StdSource::new(Some(b"abcde".as_slice()));
    reads(&mut source, &[Ok(3), Ok(2), Ok(0)], b"abcde\0\0\0\0")
}

/// Whether three writes answer so.
fn writes<K: Sink>(sink: &mut K, texts: [&[u8]; 3], want: &Counts) -> bool {
    let [first, second, third] = texts;
    [sink.write(first), sink.write(second), sink.write(third)] == *want
}

/// The texts of which three writes are made.
const TEXTS: [&[u8]; 3] = [b"ab", b"xy", b"cde"];

/// A sink over a list, of which the second call fails.
pub fn failing_sink(alloc: Global) -> Result<MemorySink, NoMemory> {
    let mut sink = MemorySink::new(alloc);
    sink.fail_at(2)?;
    Ok(sink)
}

fn memory_writes(alloc: Global) -> bool {
    let want = [Ok(2), Err(Failed), Ok(3)];
    match failing_sink(alloc) {
        Ok(mut sink) => writes(&mut sink, TEXTS, &want) && sink.bytes() == b"abcde".as_slice(),
        Err(_) => false,
    }
}

/// The same of a writer over a list.
fn writes_through(alloc: Global) -> bool {
    let mut held = Vec::new(alloc);
    let want = [Ok(2), Ok(2), Ok(3)];
    writes(&mut StdSink::new(&mut held), TEXTS, &want) && held.as_slice() == b"abxycde".as_slice()
}

/// Whether a writer with room for three bytes takes these, and then no more.
fn is_full() -> bool {
    let mut room = [0; 3];
    let texts = [b"abcd".as_slice(), b"d".as_slice(), b"".as_slice()];
    writes(
        &mut StdSink::new(room.as_mut_slice()),
        texts,
        &[Ok(3), Err(Failed), Ok(0)],
    ) && room == *b"abc"
}

fn is_filled() -> bool {
    let mut room = [0; 3];
    write_all(&mut StdSink::new(room.as_mut_slice()), b"abcd") == Err(Failed) && room == *b"abc"
}

/// A full writer takes 0 bytes of some, and that is a failure.
#[test]
fn sources_give_their_bytes_and_sinks_take_them(rt: HostRuntime) {
    let alloc = rt.alloc();
    assert!(rt; memory_reads(alloc) && reads_through(), "sources");
    assert!(rt; memory_writes(alloc) && writes_through(alloc), "sinks");
    assert!(rt; is_full() && is_filled(), "full writers");
}
