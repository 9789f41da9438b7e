//! What stands at the front of a connection.

ghost use Rattle.std.specs.Prelude.{◌≡◌, ◌<◌, ℕ, true, List, Some, IfSome, is_some, length};
ghost use Rattle.dots_settings.specs.Lookups.{role_of};
ghost use Rattle.dots_history.specs.declared.entry.Entry.{Entry};
ghost use Rattle.dots_history.specs.Calm.{may_act};
ghost use Rattle.stream_table.specs.Lines.{Line};
ghost use Rattle.stream_table.specs.Places.{line_at, conn_at};
ghost use Rattle.dots_registry.specs.RegistryValues.{Represents, IsOf, time_of};
ghost use Rattle.rest_answers.specs.Turns.{caller_of, IsFront, is_waiting, HasSize};
ghost use Rattle.dots_data.specs.Accepting.{IsInUse, FrontCanBeCarriedOut};

use crate::deciding::decide_rest;
use crate::desk::Desk;
use crate::stream::RestStream;
use dots_settings::{Role, Settings};
use http_cut::{Cut, HeadRoom};
use installed_filters::Staged;
use list_json::JsonRoom;
use rest_answers::{Caller, RestFront};
use stream_table::{LinePlace, StreamTable};

/// Who asks on the connection at this place: its peer, and the domain of which that is a client. None where the peer is no client of the settings.
pub fn caller_at(
    settings: &Settings,
    table: &StreamTable<RestStream>,
    place: LinePlace,
) -> Option<Caller>
    requires { is_some (conn_at place table.now) ≡ true }
    ensures caller { (conn : ℕ) → conn_at place table.now ≡ Some conn → result ≡ caller_of settings.now conn table.now }
    ensures acts { IfSome result (λ caller. may_act settings.now (role_of settings.now caller.peer) caller.domain ≡ true) }
{
    let peer = table.peer(place);
    match settings.domain_of(peer) {
        Role::Client(domain) => Some(Caller { peer, domain }),
        Role::Gateway | Role::Stranger => None,
    }
}

/// What stands at the front of the connection at this place, of this caller, by the history that the registry represents. The rooms serve one
/// request after the other. Nothing is changed.
///
/// A request is answered by the rules, or by 500 where memory ran out. What is accepted can be carried out, which takes no memory.
pub fn front(
    desk: &Desk<'_>,
    heads: &mut HeadRoom,
    room: &mut JsonRoom,
    table: &StreamTable<RestStream>,
    place: LinePlace,
    caller: Caller,
) -> RestFront<Staged>
    requires is_of { IsOf desk.now.settings.now desk.now.registry.now }
    requires in_use { IsInUse desk.now.settings.now desk.now.registry.now }
    requires acts { may_act desk.now.settings.now (role_of desk.now.settings.now caller.peer) caller.domain ≡ true }
    requires there { is_some (conn_at place table.now) ≡ true }
    ensures stands { (line : Line) (entries : List Entry) → line_at place table.now ≡ Some line → Represents desk.now.registry.now entries
        → IsFront desk.now.settings.now (time_of desk.now.registry.now) entries caller line.buffered result }
    // Where more is waited for, there is room for it.
    ensures room { (line : Line) → line_at place table.now ≡ Some line → is_waiting result ≡ true → length line.buffered < 16384 }
    ensures size { (line : Line) → line_at place table.now ≡ Some line → HasSize line.buffered result }
    ensures ready { FrontCanBeCarriedOut desk.now.settings.now desk.now.registry.now result }
{
    match table.stream(place).cut(heads) {
        Cut::More => RestFront::Waits,
        Cut::Refused(fault) => RestFront::Refused(fault),
        Cut::Request(message) => RestFront::Answered {
            size: message.length,
            close: message.close,
            answer: decide_rest(desk, room, caller, &message),
        },
    }
}
