//! Taking the bytes of a stream and cutting its front, again and again.

ghost use Rattle.std.specs.Prelude.{◌≡◌, ◌<◌, ◌-◌, ◌++◌, length, take, drop, IfOk, IfErr};
ghost use Rattle.http_cut.specs.Requests.{CutValue, IsCut, refuses};
ghost use Rattle.dots_bench.specs.Fronts.{size_in};

use anyhow::{Result, ensure};
use http_cut::{Cut, HeadRoom, HttpFault, Stream};
use std::alloc::Global;

/// A stream of which these bytes came.
fn stream_of(alloc: Global, bytes: &[u8]) -> Result<Stream> {
    let mut stream = Stream::new(alloc)?;
    let count = stream.take(bytes);
    ensure!(count == bytes.len(), "more bytes than a stream holds");
    Ok(stream)
}

/// Cuts two streams in turns, so often, and adds up what stands at their fronts.
fn sum_of_cuts(streams: [&Stream; 2], room: &mut HeadRoom, times: u64) -> Result<u64> {
    let mut sum: u64 = 0;
    for turn in 0..times {
        sum = sum.wrapping_add(cut_front(streams[(turn % 2) as usize], room)?);
    }
    Ok(sum)
}

/// Cuts two streams that hold the bytes, in turns, so often, and adds up what stands at their fronts.
pub fn repeat_cut(alloc: Global, copies: [&[u8]; 2], times: u64) -> Result<u64> {
    let mut room = HeadRoom::new(alloc)?;
    let first = stream_of(alloc, copies[0])?;
    let second = stream_of(alloc, copies[1])?;
    sum_of_cuts([&first, &second], &mut room, times)
}

/// How many bytes the request at the front has; 0 where it isn't there whole.
fn cut_front(stream: &Stream, room: &mut HeadRoom) -> Result<u64, HttpFault>
    ensures found { IfOk result (λ size. (as_cut : CutValue) × IsCut stream.now as_cut × (size ≡ size_in as_cut)) }
    ensures refused { IfErr result (λ fault. IsCut stream.now (refuses fault)) }
{
    match stream.cut(room) {
        Cut::Request(request) => return Ok(request.length as u64),
        Cut::More => return Ok(0),
        Cut::Refused(fault) => return Err(fault),
    }
}

/// Takes the bytes in pieces of so many and cuts behind each, in turns of the two copies, so often, and adds up the
/// requests that it found and dropped.
pub fn repeat_taking(alloc: Global, copies: [&[u8]; 2], piece: usize, times: u64) -> Result<u64>
    requires { 0 < piece }
{
    let mut room = HeadRoom::new(alloc)?;
    let mut stream = Stream::new(alloc)?;
    let mut sum: u64 = 0;
    for turn in 0..times {
        let bytes = copies[(turn % 2) as usize];
        sum = sum.wrapping_add(take_pieces(&mut stream, &mut room, bytes, piece)?);
    }
    Ok(sum)
}

/// Takes the bytes in pieces of so many and cuts behind each, and adds up the requests that it found and dropped.
fn take_pieces(
    stream: &mut Stream,
    room: &mut HeadRoom,
    bytes: &[u8],
    piece: usize,
) -> Result<u64, HttpFault>
    requires { 0 < piece }
{
    let mut sum: u64 = 0;
    for bytes in bytes.chunks(piece) {
        sum = sum.wrapping_add(take_front(stream, room, bytes)?);
    }
    Ok(sum)
}

/// Takes a piece, and drops the request that is there whole then: how many bytes it had, and 0 where none is.
fn take_front(stream: &mut Stream, room: &mut HeadRoom, piece: &[u8]) -> Result<u64, HttpFault>
    ensures { IfOk result (λ size. stream.new ≡ drop size (stream.old ++ take (16384 - length stream.old) piece.now)) }
{
    let _count = stream.take(piece);
    match stream.cut(room) {
        Cut::Request(request) => {
            let length = request.length;
            stream.discard(length);
            Ok(length as u64)
        }
        Cut::More => Ok(0),
        Cut::Refused(fault) => Err(fault),
    }
}
