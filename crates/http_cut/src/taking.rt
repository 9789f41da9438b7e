//! The requests of a stream that comes in pieces.
ghost use Rattle.std.specs.Prelude.{◌≡◌, ◌⊎◌, ◌++◌, ℕ, List, flat_map, IfOk, OnErr, false};
ghost use Rattle.http_cut.specs.declared.stream_end.StreamEnd.{StreamEnd};
ghost use Rattle.http_cut.specs.Requests.{Request};
ghost use Rattle.http_cut.specs.Streams.{AreTakenTo, AreTakenOf, IsStream, IsFirst, IsOpen, IsBuffered, Buffers, any_closes, is_waiting};
ghost use Rattle.http_cut.specs.Owned.{owned_values};

use crate::owned::{RequestList, copy_of};
use crate::request::Cut;
use crate::room::HeadRoom;
use crate::stream::Stream;
use crate::stream_end::StreamEnd;
use dots_lists::NoMemory;
use std::alloc::Global;

/// The requests of a stream, in their order, and how it goes on behind them.
#[derive(Drop)]
pub struct Taken {
    pub requests: RequestList,
    /// `NoMemory` where it isn't found for the request that is buffered then.
    pub end: Result<StreamEnd, NoMemory>,
}

fn is_waiting(end: &Result<StreamEnd, NoMemory>) -> bool
    ensures { result ≡ is_waiting end.now }
{
    matches!(end, Ok(StreamEnd::Waits))
}

/// Takes out the requests that are buffered whole, as far as one that closes.
fn take_out(
    alloc: Global,
    stream: &mut Stream,
    room: &mut HeadRoom,
    out: &mut RequestList,
) -> Result<StreamEnd, NoMemory>
    ensures { AreTakenTo stream.old (owned_values out.old) (owned_values out.new) stream.new result }
{
    'requests: loop {
        match stream.cut(room) {
            Cut::More => return Ok(StreamEnd::Waits),
            Cut::Refused(fault) => return Ok(StreamEnd::Refused(fault)),
            Cut::Request(request) => {
                let length = request.length;
                let close = request.close;
                let copy = copy_of(alloc, &request)?;
                out.push(copy)?;
                stream.discard(length);
                if close {
                    return Ok(StreamEnd::Closes);
                }
            }
        }
    }
}

/// Takes a piece of the stream, and out of it the requests that are whole then. Where none is waited for any more, the
/// bytes behind what is buffered are left.
fn take_piece(
    alloc: Global,
    stream: &mut Stream,
    room: &mut HeadRoom,
    out: &mut RequestList,
    piece: &[u8],
) -> Result<StreamEnd, NoMemory>
    ensures { AreTakenOf stream.old piece.now (owned_values out.old) (owned_values out.new) stream.new result }
{
    let mut rest = piece;
    'bytes: loop {
        let end = take_out(alloc, stream, room, out);
        if !is_waiting(&end) {
            return end;
        }
        if rest.is_empty() {
            return Ok(StreamEnd::Waits);
        }
        let count = stream.take(rest);
        let (_, behind) = rest.split_at(count);
        rest = behind;
    }
}

/// Takes the pieces one by one, as far as requests are waited for.
fn take_pieces(
    alloc: Global,
    stream: &mut Stream,
    room: &mut HeadRoom,
    out: &mut RequestList,
    pieces: &[&[u8]],
) -> Result<StreamEnd, NoMemory>
    ensures { AreTakenOf stream.old (flat_map (λ piece. piece.now) pieces.now) (owned_values out.old) (owned_values out.new) stream.new result }
{
    let buffered = take_out(alloc, stream, room, out);
    if !is_waiting(&buffered) {
        return buffered;
    }
    for piece in pieces {
        let end = take_piece(alloc, stream, room, out, piece);
        if !is_waiting(&end) {
            return end;
        }
    }
    Ok(StreamEnd::Waits)
}

/// The requests of a stream of which some bytes are buffered, and the rest comes in these pieces.
///
/// However the bytes are cut into pieces, the requests are those at the front of all of them, one behind the other, as
/// far as there are any and none asks for closing before, and so is how the stream goes on, but that a stream in which no
/// head can come any more is refused at once or later, until a head would have ended. What came behind the requests is
/// buffered, and no byte of it is dropped. Where memory isn't found for a copy of a request, the requests before it are handed
/// out, and what is buffered begins with it.
pub fn take_requests(
    alloc: Global,
    stream: &mut Stream,
    room: &mut HeadRoom,
    pieces: &[&[u8]],
) -> Taken
    // What is buffered is the rest of all that came, in each case.
    ensures held { IsBuffered stream.old (flat_map (λ piece. piece.now) pieces.now) (owned_values result.requests) stream.new }
    ensures stream { IfOk result.end (λ end. (rest : List ℕ)
        × IsStream (stream.old ++ flat_map (λ piece. piece.now) pieces.now) (owned_values result.requests) end rest
        × Buffers end stream.new rest) }
    // The bytes have no other requests, and no other end but where no head can come.
    ensures only { IfOk result.end (λ end. (requests : List Request) (other : StreamEnd) (rest : List ℕ)
        → IsStream (stream.old ++ flat_map (λ piece. piece.now) pieces.now) requests other rest
        → (owned_values result.requests ≡ requests) × ((end ≡ other) ⊎ IsOpen rest)) }
    // For this request memory wasn't found, and it is the next.
    ensures lacked { OnErr result.end ((any_closes (owned_values result.requests) ≡ false)
        × ((request : Request) × IsFirst stream.new request)) }
{
    let mut requests = RequestList::new(alloc);
    let end = take_pieces(alloc, stream, room, &mut requests, pieces);
    Taken { requests, end }
}
