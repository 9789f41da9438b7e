//! What stands at a place for a connection.

ghost use Rattle.std.specs.Prelude.{◌≡◌, ◌<◌, true, false, length, take, None};
ghost use Rattle.dots_edge.specs.Gone.{GoesOn, HasStopped};
ghost use Rattle.dots_edge.specs.Events.{IsPiece, OnBytes, OnNoBytes, IfBytes};
ghost use Rattle.dots_edge.specs.Idle.{idle_at, sound_at, calls_at};
ghost use Rattle.dots_edge.specs.Places.{is_opened, marked, closed_at, closing_since, first_of, CameAt, IsSentAt};

use crate::connection::{Connection, Piece};
use dots_host::Sent;
use mio::Registry;
use std::time::Duration;

/// Something may have come at the place, or its socket may take more.
pub fn mark_at(place: &mut Option<Connection>)
    ensures opened { is_opened place.new ≡ is_opened place.old }
    ensures marked { place.new ≡ marked place.old }
    ensures sound { sound_at place.old ≡ true → sound_at place.new ≡ true }
{
    if let Some(connection) = place {
        connection.mark();
    }
}

/// A turn of the connection at the place, or nothing where none is.
pub fn turn_at(
    place: &mut Option<Connection>,
    into: &mut [u8],
    now: Duration,
    registry: &Registry,
) -> Piece
    ensures piece { IsPiece result (length into.old) }
    ensures opened { is_opened place.new ≡ is_opened place.old }
    // It gives nothing exactly where nothing can be done.
    ensures idle { idle_at place.old ≡ true → (result ≡ Piece.Nothing) × (place.new ≡ place.old) }
    ensures nothing { result ≡ Piece.Nothing → idle_at place.new ≡ true }
    // Bytes came on a connection that is open for the server, and are those that its socket gave.
    ensures open { OnBytes result (is_opened place.old ≡ true) }
    ensures came { IfBytes result (λ count. CameAt place.old (take count into.new) place.new) }
    ensures some { IfBytes result (λ count. 0 < count) }
    // Else none came on it. It ends where it broke, or where its socket is at its end or failed.
    ensures same { OnNoBytes result (GoesOn place.old place.new) }
    ensures over { result ≡ Piece.Ended → is_opened place.old ≡ true → HasStopped place.new }
    ensures called { result ≡ Piece.Again → calls_at place.old < calls_at place.new }
    ensures sound { sound_at place.old ≡ true → sound_at place.new ≡ true }
{
    match place {
        Some(connection) => connection.turn(into, now, registry),
        None => Piece::Nothing,
    }
}

/// Sends at the place. It is lost where no connection is open.
pub fn send_at(
    place: &mut Option<Connection>,
    bytes: &[u8],
    now: Duration,
    registry: &Registry,
) -> Sent
    ensures done { result ≡ Sent.Done → is_opened place.old ≡ true }
    ensures opened { is_opened place.new ≡ is_opened place.old }
    ensures sent { IsSentAt place.old bytes.now result place.new }
    ensures sound { sound_at place.old ≡ true → sound_at place.new ≡ true }
{
    match place {
        Some(connection) if !connection.is_closing() => connection.send(bytes, now, registry),
        _ => Sent::Lost,
    }
}

/// Closes the connection of the place.
pub fn close_at(place: &mut Option<Connection>) -> Sent
    ensures done { result ≡ Sent.Done → is_opened place.old ≡ true }
    ensures lost { result ≡ Sent.Lost → is_opened place.old ≡ false }
    ensures closed { is_opened place.new ≡ false }
    ensures place { place.new ≡ closed_at place.old }
    ensures idle { idle_at place.old ≡ true → idle_at place.new ≡ true }
    ensures sound { sound_at place.old ≡ true → sound_at place.new ≡ true }
{
    match place {
        Some(connection) if connection.is_closing() => return Sent::Lost,
        Some(connection) if connection.has_rest() => {
            connection.begin_to_close();
            return Sent::Done;
        }
        _ => {}
    }
    match place.take() {
        Some(connection) => {
            connection.close();
            Sent::Done
        }
        None => Sent::Lost,
    }
}

/// When the connection at the place last moved, where the server has closed it.
pub fn closing_since(place: &Option<Connection>) -> Option<Duration>
    ensures { result ≡ closing_since place.now }
{
    match place {
        Some(connection) => connection.closing_since(),
        None => None,
    }
}

/// Which moved first: what did so far, or one more that the server has closed.
pub fn first_of(
    first: Option<(usize, Duration)>,
    place: usize,
    since: Option<Duration>,
) -> Option<(usize, Duration)>
    ensures { result ≡ first_of first place since }
{
    match (first, since) {
        (Some((_, first)), Some(since)) if since.as_nanos() < first.as_nanos() => {
            Some((place, since))
        }
        (None, Some(since)) => Some((place, since)),
        _ => first,
    }
}
