//! The calls of a connection's socket, each of which is taken down in its log.

ghost use Rattle.std.specs.Prelude.{◌≡◌, ◌<◌, ◌≤◌, [], ◌∷◌, ◌++◌, length, take};
ghost use Rattle.dots_edge.specs.Answers.{went};

use crate::answer::Answer;
use crate::socket_log::SocketLog;
use mio::net::TcpStream;
use std::io::{Read, Write};

/// What the socket gives at one read. The bytes stand at the front of the room.
pub fn read_once(stream: &mut TcpStream, came: &mut SocketLog, into: &mut [u8]) -> Answer
    ensures count { went result ≤ length into.old }
    ensures answers { came.new.answers ≡ result ∷ came.old.answers }
    ensures bytes { came.new.bytes ≡ came.old.bytes ++ take (went result) into.new }
    ensures same { stream.new ≡ stream.old }
{
    match stream.read(into) {
        Ok(count) => came.note(Answer::Went(count), &into[..count]),
        Err(error) => came.note(Answer::of(error.kind()), &into[..0]),
    }
}

/// How many of the bytes the socket takes at one write. It takes one at least, where it takes some and there are any.
pub fn write_once(stream: &mut TcpStream, taken: &mut SocketLog, bytes: &[u8]) -> Answer
    ensures count { went result ≤ length bytes.now }
    ensures some { result ≡ Answer.Went 0 → bytes.now ≡ [] }
    ensures answers { taken.new.answers ≡ result ∷ taken.old.answers }
    ensures bytes { taken.new.bytes ≡ taken.old.bytes ++ take (went result) bytes.now }
    ensures same { stream.new ≡ stream.old }
{
    match stream.write(bytes) {
        Ok(0) if !bytes.is_empty() => taken.note(Answer::Failed, &bytes[..0]),
        Ok(count) => taken.note(Answer::Went(count), &bytes[..count]),
        Err(error) => taken.note(Answer::of(error.kind()), &bytes[..0]),
    }
}
