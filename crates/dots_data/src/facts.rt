//! What is known of a request.

ghost use Rattle.std.specs.Prelude.{◌≡◌, ◌<◌, List};
ghost use Rattle.dots_history.specs.declared.entry.Entry.{Entry};
ghost use Rattle.dots_history.specs.Histories.{held};
ghost use Rattle.dots_history.specs.Tables.{Client};
ghost use Rattle.dots_registry.specs.RegistryValues.{Represents, IsOf, time_of, domains_of};
ghost use Rattle.data_channel.specs.Asking.{kind_of, cuid_of, name_of};
ghost use Rattle.rest_answers.specs.Known.{is_there, is_full, facts_of};
ghost use Rattle.dots_data.specs.Rooms.{room_of};

use crate::desk::Desk;
use data_channel::{RestFacts, RestKind, RestRequest, cuid_of, kind_of, name_of};
use dots_registry::Registry;
use held_resources::RoomKind;
use rest_answers::{Caller, is_faulty};

/// What is known of a request of this caller.
pub fn facts(desk: &Desk<'_>, caller: Caller, request: &RestRequest) -> RestFacts
    requires is_of { IsOf desk.now.settings.now desk.now.registry.now }
    requires inside { caller.domain < domains_of desk.now.registry.now }
    ensures { (entries : List Entry) → Represents desk.now.registry.now entries
        → result ≡ facts_of desk.now.settings.now (time_of desk.now.registry.now) entries caller request.now }
{
    let registry = desk.registry;
    let cuid = cuid_of(request).bytes();
    RestFacts {
        fault: is_faulty(desk.settings, caller.domain, request),
        taken: registry.collides(caller.domain, cuid, caller.peer),
        registered: registry.registered(caller.domain, cuid),
        there: is_there(registry, caller.domain, request),
        full: registry
            .room_for(caller.domain, cuid, room_of(kind_of(request)))
            .is_some(),
    }
}

/// Whether what a request for this domain is about is there.
fn is_there(registry: &Registry, domain: u16, request: &RestRequest) -> bool
    ensures { (entries : List Entry) → Represents registry.now entries
        → result ≡ is_there (kind_of request.now) (name_of request.now) (record { domain = domain; cuid = cuid_of request.now }) (held entries) }
{
    let cuid = cuid_of(request).bytes();
    match (kind_of(request), name_of(request)) {
        (RestKind::Alias, Some(name)) => registry.alias(domain, cuid, name).is_some(),
        (RestKind::Acl, Some(name)) => registry.acl(domain, cuid, name).is_some(),
        _ => registry.registered(domain, cuid),
    }
}

/// Of what there may be only so many.
fn room_of(kind: RestKind) -> RoomKind
    ensures { result ≡ room_of kind }
{
    match kind {
        RestKind::Client => RoomKind::Client,
        RestKind::Alias | RestKind::Aliases => RoomKind::Alias,
        RestKind::Acl | RestKind::Acls => RoomKind::Acl,
    }
}
