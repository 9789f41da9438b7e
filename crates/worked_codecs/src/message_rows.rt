//! Messages of two peers, one after the other, and how their replies begin or, where they have a body, end.

ghost use Rattle.dots_registry.specs.RegistryValues.{IsOf};
ghost use Rattle.dots_data.specs.Accepting.{IsInUse, CanCarryOut};

use dots_data::{Desk, decide_rest};
use dots_host::MemorySource;
use dots_registry::Registry;
use dots_settings::{Role, Settings, read_settings};
use http_cut::HttpRequest;
use installed_filters::Staged;
use list_json::JsonRoom;
use rest_answers::{Caller, RestAnswer, RestReply};
use std::alloc::Global;
use std::test::Fail;

/// One client and one alias of it are all that there may be.
const SETTINGS: &str = "\
domain net1
prefix net1 192.0.2.0/24
client 0 net1
client 1 net1
capacity clients 1
capacity aliases 1
";

/// A letter for the peer, the method, the path, and behind bars the body and what is wanted of the reply (RFC 8783, sections 5
/// to 7).
const ROWS: &str =
    r#"a GET /restconf/data/ietf-dots-data-channel:dots-data/dots-client=x||HTTP/1.1 404
a GET /restconf/data/ietf-dots-data-channel:dots-data/dots-client=x/aliases||HTTP/1.1 404
a POST /restconf/data/ietf-dots-data-channel:dots-data|{"ietf-dots-data-channel:dots-client":[{"cuid":"x"}]}|HTTP/1.1 201
a POST /restconf/data/ietf-dots-data-channel:dots-data|{"ietf-dots-data-channel:dots-client":[{"cuid":"x"}]}|HTTP/1.1 409
a PUT /restconf/data/ietf-dots-data-channel:dots-data/dots-client=x|{"ietf-dots-data-channel:dots-client":[{"cuid":"x"}]}|HTTP/1.1 204
a PUT /restconf/data/ietf-dots-data-channel:dots-data/dots-client=y|{"ietf-dots-data-channel:dots-client":[{"cuid":"y"}]}|HTTP/1.1 503
b GET /restconf/data/ietf-dots-data-channel:dots-data/dots-client=x||HTTP/1.1 409
a GET /restconf/data/ietf-dots-data-channel:dots-data/dots-client=x/aliases||{"ietf-dots-data-channel:aliases":{"alias":[]}}
a PUT /restconf/data/ietf-dots-data-channel:dots-data/dots-client=x/aliases/alias=web|{"ietf-dots-data-channel:alias":[{"name":"web","target-prefix":["198.51.100.1/32"]}]}|HTTP/1.1 400
a PUT /restconf/data/ietf-dots-data-channel:dots-data/dots-client=x/aliases/alias=web|{"ietf-dots-data-channel:alias":[{"name":"web","target-prefix":["192.0.2.1/32"]}]}|HTTP/1.1 201
a PUT /restconf/data/ietf-dots-data-channel:dots-data/dots-client=x/aliases/alias=web|{"ietf-dots-data-channel:alias":[{"name":"web","target-prefix":["192.0.2.1/32"]}]}|HTTP/1.1 204
a POST /restconf/data/ietf-dots-data-channel:dots-data/dots-client=x|{"ietf-dots-data-channel:alias":[{"name":"mail","target-prefix":["192.0.2.1/32"]}]}|HTTP/1.1 503
a POST /restconf/data/ietf-dots-data-channel:dots-data/dots-client=x|{"ietf-dots-data-channel:acl":[{"name":"l","type":"ipv4-acl-type","aces":{"ace":[{"name":"e","matches":{"ipv4":{"source-ipv4-network":"198.51.100.0/24","destination-ipv4-network":"192.0.2.0/24"}},"actions":{"forwarding":"drop"}}]}}]}|HTTP/1.1 201
a GET /restconf/data/ietf-dots-data-channel:dots-data/dots-client=x||{"ietf-dots-data-channel:dots-client":[{"acls":{"acl":[{"aces":{"ace":[{"actions":{"forwarding":"drop"},"matches":{"ipv4":{"destination-ipv4-network":"192.0.2.0/24","source-ipv4-network":"198.51.100.0/24"}},"name":"e"}]},"activation-type":"activate-when-mitigating","name":"l","type":"ipv4-acl-type"}]},"aliases":{"alias":[{"name":"web","target-prefix":["192.0.2.1/32"]}]},"cuid":"x"}]}
a DELETE /restconf/data/ietf-dots-data-channel:dots-data/dots-client=x/acls/acl=l||HTTP/1.1 204
a DELETE /restconf/data/ietf-dots-data-channel:dots-data/dots-client=x/acls/acl=l||HTTP/1.1 404
a PUT /restconf/data/ietf-dots-data-channel:dots-data/dots-client=x/acls||HTTP/1.1 405
a DELETE /restconf/data/ietf-dots-data-channel:dots-data/dots-client=x||HTTP/1.1 204
a GET /restconf/data/ietf-dots-data-channel:dots-data/dots-client=x/aliases/alias=web||HTTP/1.1 404"#;

/// Whether the bytes of a reply begin so.
pub fn begins(reply: &RestReply, want: &[u8]) -> bool {
    let mut bytes = [0; 1024];
    let size = reply.write(&mut bytes);
    bytes[..size].starts_with(want)
}

/// Takes what is accepted, and says whether the reply is as wanted.
pub fn carry_out(
    registry: &mut Registry,
    settings: &Settings,
    answer: RestAnswer<Staged>,
    want: &[u8],
) -> bool
    requires settings { IsOf settings.now registry.old }
    requires in_use { IsInUse settings.now registry.old }
    requires ready { CanCarryOut settings.now registry.old answer }
    ensures settings { IsOf settings.now registry.new }
    ensures in_use { IsInUse settings.now registry.new }
{
    match answer {
        RestAnswer::Reply(reply) => begins(&reply, want),
        RestAnswer::LongReply(bytes) => bytes.items().ends_with(want),
        RestAnswer::Accept { reply, entry } => {
            registry.apply(entry, 0);
            begins(&reply, want)
        }
    }
}

/// Takes a message, and says whether its reply is as wanted.
fn answers(
    alloc: Global,
    settings: &Settings,
    registry: &mut Registry,
    message: &HttpRequest<'_>,
    peer: u32,
    want: &[u8],
) -> bool
    requires settings { IsOf settings.now registry.old }
    requires in_use { IsInUse settings.now registry.old }
    ensures settings { IsOf settings.now registry.new }
    ensures in_use { IsInUse settings.now registry.new }
{
    let Role::Client(domain) = settings.domain_of(peer) else {
        return false;
    };
    let mut room = JsonRoom::new(alloc);
    let desk = Desk {
        alloc,
        settings,
        registry: &*registry,
    };
    let answer = decide_rest(&desk, &mut room, Caller { peer, domain }, message);
    carry_out(registry, settings, answer, want)
}

/// The letter, the method, the path, the body and what is wanted of a row.
fn parts(row: &str) -> Option<(&str, &str, &str, &str, &str)> {
    let (peer, rest) = row.split_once(' ')?;
    let (method, rest) = rest.split_once(' ')?;
    let (target, rest) = rest.split_once('|')?;
    let (body, want) = rest.split_once('|')?;
    Some((peer, method, target, body, want))
}

/// Takes the message of a row, and says whether its reply is as wanted.
fn holds(alloc: Global, settings: &Settings, registry: &mut Registry, row: &str) -> bool
    requires settings { IsOf settings.now registry.old }
    requires in_use { IsInUse settings.now registry.old }
    ensures settings { IsOf settings.now registry.new }
    ensures in_use { IsInUse settings.now registry.new }
{
    let Some((peer, method, target, body, want)) = parts(row) else {
        return false;
    };
    let message = HttpRequest {
        method: method.as_bytes(),
        target: target.as_bytes(),
        media: None,
        close: false,
        body: body.as_bytes(),
        length: 0,
    };
    let peer = if peer == "a" { 0 } else { 1 };
    answers(alloc, settings, registry, &message, peer, want.as_bytes())
}

/// Takes the messages of the rows, and says whether each reply is as wanted.
fn all_hold(alloc: Global, settings: &Settings, registry: &mut Registry) -> bool
    requires settings { IsOf settings.now registry.old }
    requires in_use { IsInUse settings.now registry.old }
{
    let mut all = true;
    for row in ROWS.lines() {
        all &= holds(alloc, settings, registry, row);
    }
    all
}

/// The same over a new registry of these settings.
fn all_hold_anew(alloc: Global, settings: &Settings) -> Result<bool, Fail> {
    let mut registry = Registry::new(alloc, settings)?;
    let all = all_hold(alloc, settings, &mut registry);
    registry.let_go();
    Ok(all)
}

pub fn settings(alloc: Global) -> Result<Settings, Fail> {
    let mut source = MemorySource::new(alloc, SETTINGS.as_bytes())?;
    match read_settings(alloc, &mut source) {
        Ok(settings) => Ok(settings),
        Err(_) => Err(Fail::from("settings")),
    }
}

#[test]
fn messages_are_answered(rt: HostRuntime) -> Result<(), Fail> {
    let settings = settings(rt.alloc())?;
    let all = all_hold_anew(rt.alloc(), &settings);
    assert!(rt; all? == true);
    Ok(())
}
