//! What a registry says, in letters: an alias and an access list are the first letters of their names.

ghost use Rattle.std.specs.Prelude.{◌≡◌, ◌<◌, List, true};
ghost use Rattle.dots_history.specs.declared.entry.Entry.{Entry};
ghost use Rattle.dots_registry.specs.RegistryValues.{Represents, IsOf, domains_of};

use crate::registry::entries::prefixes;
use crate::registry::packets::{letter, letters, packets};
use crate::registry::spelled::Spelled;
use crate::registry::taking::take_all;
use crate::registry::words::{NONE, digit, number, small};
use acl_lists::{Acl, Alias, Asked};
use conflict_rules::{Judged, PutFault};
use dots_keys::{MitigationBody, MitigationPath};
use dots_lists::{Bytes, List, Name};
use dots_registry::Registry;
use dots_settings::Settings;
use held_resources::RoomKind;
use std::alloc::Global;
use std::test::Fail;

fn name(alloc: Global, text: &str) -> Result<Name, Fail> {
    match Name::new(alloc, text.as_bytes())? {
        Some(name) => Ok(name),
        None => Err(Fail::from("a name")),
    }
}

/// The domain and the cuid of a client.
fn client(word: &str) -> (u16, &'static [u8]) {
    match word.as_bytes() {
        [b'A'] => (0, b"a"),
        [b'B'] => (0, b"b"),
        _ => (1, b"a"),
    }
}

fn spell_aliases(spelled: &mut Spelled, aliases: &[Alias]) {
    for alias in aliases {
        spelled.push(letter(&alias.name));
    }
    spelled.push(b' ');
}

fn spell_acls(spelled: &mut Spelled, acls: &[Acl]) {
    for acl in acls {
        spelled.push(letter(&acl.name));
    }
    spelled.push(b' ');
}

/// The number that is reached.
fn room(registry: &Registry, domain: u16, cuid: &[u8], kind: RoomKind) -> u8 {
    match registry.room_for(domain, cuid, kind) {
        Some(number) => digit(number),
        None => NONE,
    }
}

/// The peer that registered the client.
fn registrant(registry: &Registry, domain: u16, cuid: &[u8]) -> u8 {
    match registry.registrant(domain, cuid) {
        Some(peer) => digit(u64::from(peer)),
        None => NONE,
    }
}

fn alias_letter(alias: Option<&Alias>) -> u8 {
    match alias {
        Some(alias) => letter(&alias.name),
        None => NONE,
    }
}

fn acl_letter(acl: Option<&Acl>) -> u8 {
    match acl {
        Some(acl) => letter(&acl.name),
        None => NONE,
    }
}

/// The alias `web` and the list `ok`.
fn named(alloc: Global, registry: &Registry, domain: u16, cuid: &[u8]) -> Result<[u8; 2], Fail> {
    let web = name(alloc, "web")?;
    let ok = name(alloc, "ok")?;
    Ok([
        alias_letter(registry.alias(domain, cuid, &web)),
        acl_letter(registry.acl(domain, cuid, &ok)),
    ])
}

/// Which numbers of clients, of aliases and of access lists are reached.
fn rooms(registry: &Registry, domain: u16, cuid: &[u8]) -> [u8; 4] {
    [
        room(registry, domain, cuid, RoomKind::Client),
        room(registry, domain, cuid, RoomKind::Alias),
        room(registry, domain, cuid, RoomKind::Acl),
        b' ',
    ]
}

/// Who registered a client, its aliases and its access lists, which numbers are reached, and its alias `web` and its list `ok`.
fn spell_held(
    alloc: Global,
    spelled: &mut Spelled,
    registry: &Registry,
    word: &str,
) -> Result<(), Fail> {
    let (domain, cuid) = client(word);
    spelled.extend(&[registrant(registry, domain, cuid), b' ']);
    spell_aliases(spelled, registry.aliases(domain, cuid));
    spell_acls(spelled, registry.acls(domain, cuid));
    spelled.extend(&rooms(registry, domain, cuid));
    spelled.extend(&named(alloc, registry, domain, cuid)?);
    Ok(())
}

/// The sid of the session configuration of a peer.
fn sid(registry: &Registry, peer: u32) -> u8 {
    match registry.config(peer) {
        Some((sid, _)) => digit(u64::from(sid)),
        None => NONE,
    }
}

fn spell_sid(spelled: &mut Spelled, registry: &Registry, peer: &str) -> Result<(), Fail> {
    let peer = u32::from(small(peer)?);
    spelled.push(sid(registry, peer));
    Ok(())
}

/// The fates of packets at a second.
fn spell_fates(
    spelled: &mut Spelled,
    registry: &mut Registry,
    settings: &Settings,
    second: &str,
) -> Result<(), Fail> {
    let now = number(second)?;
    if registry.time() <= now && now < u64::MAX {
        registry.tick(now);
    }
    for packet in &packets() {
        spelled.extend(&letters(registry.filters().fate(packet, settings)));
    }
    Ok(())
}

/// Whether there is such a domain.
fn has_domain(registry: &Registry, settings: &Settings, domain: u16) -> bool
    requires { IsOf settings.now registry.now }
    ensures { result ≡ true → domain < domains_of registry.now }
{
    domain < settings.domains()
}

/// A request for 192.0.2.128/25, for an hour.
fn body(alloc: Global) -> Result<MitigationBody, Fail> {
    let prefixes = prefixes(alloc, "192.0.2.128/25")?;
    Ok(MitigationBody {
        asked: Asked {
            prefixes,
            ports: List::new(alloc),
            protocols: Bytes::new(alloc),
            names: List::new(alloc),
            aliases: List::new(alloc),
        },
        lifetime: 3600,
        trigger: true,
    })
}

fn path(alloc: Global) -> Result<MitigationPath, Fail> {
    Ok(MitigationPath {
        cdid: None,
        cuid: name(alloc, "a")?,
        mid: Some(9),
    })
}

/// The mid that is granted, or `c` where the client's name is in use.
fn granted(judged: &Result<Judged, PutFault>) -> u8 {
    match judged {
        Ok(judged) => digit(u64::from(judged.put.mid)),
        Err(PutFault::Collision) => b'c',
        Err(_) => NONE,
    }
}

/// What is granted to a peer that asks so in the first domain.
fn judged(
    registry: &Registry,
    settings: &Settings,
    path: &MitigationPath,
    body: &MitigationBody,
    peer: u32,
) -> u8
    requires { IsOf settings.now registry.now }
{
    if path.mid.is_none() || body.lifetime < 1 || !has_domain(registry, settings, 0) {
        return NONE;
    }
    let judged = registry.judge_put(settings, path, body, peer, 0);
    let letter = granted(&judged);
    drop(judged);
    letter
}

fn judge_path(
    alloc: Global,
    registry: &Registry,
    settings: &Settings,
    path: &MitigationPath,
    peer: u32,
) -> Result<u8, Fail>
    requires { IsOf settings.now registry.now }
{
    let body = body(alloc)?;
    let letter = judged(registry, settings, path, &body, peer);
    drop(body);
    Ok(letter)
}

/// What is granted to a peer that asks for mid 9 of the client A.
fn judge(alloc: Global, registry: &Registry, settings: &Settings, peer: u32) -> Result<u8, Fail>
    requires { IsOf settings.now registry.now }
{
    let path = path(alloc)?;
    judge_path(alloc, registry, settings, &path, peer)
}

fn spell_judged(
    alloc: Global,
    spelled: &mut Spelled,
    registry: &Registry,
    settings: &Settings,
    peer: &str,
) -> Result<(), Fail>
    requires { IsOf settings.now registry.now }
{
    let peer = u32::from(small(peer)?);
    spelled.push(judge(alloc, registry, settings, peer)?);
    Ok(())
}

/// Tells what is asked: `held` of a client, `sid` of a peer, `judge` for a peer, or the fates at a second.
fn spell(
    alloc: Global,
    spelled: &mut Spelled,
    registry: &mut Registry,
    settings: &Settings,
    question: &str,
) -> Result<(), Fail>
    requires { IsOf settings.now registry.old }
{
    let (what, of) = question.split_once(' ').ok_or("a question")?;
    match what {
        "held" => spell_held(alloc, spelled, registry, of),
        "sid" => spell_sid(spelled, registry, of),
        "judge" => spell_judged(alloc, spelled, registry, settings, of),
        _ => spell_fates(spelled, registry, settings, of),
    }
}

fn spell_after(
    alloc: Global,
    spelled: &mut Spelled,
    registry: &mut Registry,
    settings: &Settings,
    entries: &str,
    question: &str,
) -> Result<(), Fail>
    requires settings { IsOf settings.now registry.old }
    requires represents { (entries : List Entry) × Represents registry.old entries }
{
    take_all(alloc, registry, settings, entries, spelled)?;
    if question == "fit" {
        return Ok(());
    }
    spelled.clear();
    spell(alloc, spelled, registry, settings, question)
}

/// What is told after these entries, or which of them fit.
pub fn spell_registry(
    alloc: Global,
    spelled: &mut Spelled,
    settings: &Settings,
    asked: &str,
) -> Result<(), Fail> {
    let (entries, question) = asked.split_once(" ? ").ok_or("a question")?;
    let mut registry = Registry::new(alloc, settings)?;
    let went = spell_after(alloc, spelled, &mut registry, settings, entries, question);
    registry.let_go();
    went
}
