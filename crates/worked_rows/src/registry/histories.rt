//! What the plain programs say of a history.

use crate::registry::entries::{push_entries, scope};
use crate::registry::packets::v4;
use crate::registry::spelled::Spelled;
use crate::registry::words::{NONE, digit, flag, number};
use acl_lists::{Acl, Alias, Packet, ace_matches};
use dots_history::{
    Change, Entry, ends, held, is_calm, is_live_after, is_within_bounds, mitigations, remembered,
};
use dots_lists::List;
use dots_settings::Settings;
use std::alloc::Global;
use std::test::Fail;

/// Whether the first of these is live after the others.
fn is_live(t: u64, entries: &[Entry]) -> bool {
    match entries {
        [first, later @ ..] => is_live_after(t, first, later),
        [] => false,
    }
}

/// Whether the second of these ends the first.
fn is_ended(entries: &[Entry]) -> bool {
    match entries {
        [first, second] => ends(first, second),
        _ => false,
    }
}

/// Whether the last of these is within bounds.
fn is_bounded(entries: &[Entry]) -> bool {
    match entries {
        [.., last] => is_within_bounds(last),
        [] => false,
    }
}

/// The change of the one entry.
fn only(entries: &[Entry]) -> Result<&Change, Fail> {
    match entries {
        [entry] => Ok(&entry.change),
        _ => Err(Fail::from("one entry")),
    }
}

/// How many prefixes the copy of an alias has.
fn copied_of(alloc: Global, alias: &Alias) -> Result<u64, Fail> {
    let copy = alias.copy(alloc)?;
    let count = copy.asked.prefixes.items().len();
    drop(copy);
    Ok(count as u64)
}

fn copied(alloc: Global, entries: &[Entry]) -> Result<u64, Fail> {
    match only(entries)? {
        Change::SetAlias(alias) => copied_of(alloc, alias),
        _ => Err(Fail::from("an alias")),
    }
}

/// A packet of UDP from port 123 of 203.0.113.7 to port 80 of 192.0.2.80, with its ports or without.
fn packet(ports: Option<(u16, u16)>) -> Packet {
    Packet {
        source: v4(0xcb00_7107),
        destination: v4(0xc000_0250),
        protocol: 17,
        ports,
    }
}

/// Whether the one entry of the list matches the packet, where the domain has this prefix.
fn matches(acl: &Acl, domain: &str, packet: Packet) -> Result<bool, Fail> {
    let domain = [scope(domain)?];
    match acl.aces.items() {
        [ace] => Ok(ace_matches(acl, ace, &domain, &packet)),
        _ => Err(Fail::from("one entry")),
    }
}

/// Whether the one entry of the list matches the packet, whether it does where the domain ends before its destination, and whether it
/// matches one without ports.
fn spell_matches_of(spelled: &mut Spelled, acl: &Acl) -> Result<(), Fail> {
    for (domain, ports) in &[
        ("192.0.2.0/24", Some((123, 80))),
        ("192.0.2.0/26", Some((123, 80))),
        ("192.0.2.0/24", None),
    ] {
        spelled.push(flag(matches(acl, domain, packet(*ports))?));
    }
    Ok(())
}

fn spell_matches(spelled: &mut Spelled, entries: &[Entry]) -> Result<(), Fail> {
    match only(entries)? {
        Change::SetAcl(acl) => spell_matches_of(spelled, acl),
        _ => Err(Fail::from("a list")),
    }
}

/// How many there are of what is named, whatever the time.
fn count_of(alloc: Global, what: &str, entries: &[Entry]) -> Result<u64, Fail> {
    match what {
        "held" => Ok(held(alloc, entries)?.len() as u64),
        "copied" => copied(alloc, entries),
        _ => Err(Fail::from("a question")),
    }
}

/// Tells what is so whatever the time.
fn spell_whole(
    alloc: Global,
    spelled: &mut Spelled,
    settings: &Settings,
    what: &str,
    entries: &[Entry],
) -> Result<(), Fail> {
    match what {
        "ended" => spelled.push(flag(is_ended(entries))),
        "bounded" => spelled.push(flag(is_bounded(entries))),
        "calm" => spelled.push(flag(is_calm(settings, entries))),
        "matches" => return spell_matches(spelled, entries),
        _ => spelled.push(digit(count_of(alloc, what, entries)?)),
    }
    Ok(())
}

/// When the message of this number that peer 0 repeats for domain 0 came, where so many are remembered.
fn spell_one(spelled: &mut Spelled, count: usize, t: u64, id: u16, entries: &[Entry]) {
    match remembered(count, t, 0, 0, id, entries) {
        Some(entry) => spelled.push_number(entry.time),
        None => spelled.push(NONE),
    }
}

/// The same where one is remembered, and where two are.
fn spell_came(spelled: &mut Spelled, t: u64, id: u16, entries: &[Entry]) {
    spell_one(spelled, 1, t, id, entries);
    spelled.push(b' ');
    spell_one(spelled, 2, t, id, entries);
}

/// How many mitigations are live at a time.
fn count_at(alloc: Global, what: &str, t: u64, entries: &[Entry]) -> Result<u64, Fail> {
    match what {
        "mitigations" => Ok(mitigations(alloc, t, entries)?.len() as u64),
        _ => Err(Fail::from("a question")),
    }
}

/// Tells what is so at a time.
fn spell_at(
    alloc: Global,
    spelled: &mut Spelled,
    what: &str,
    t: u64,
    entries: &[Entry],
) -> Result<(), Fail> {
    match what {
        "live" => spelled.push(flag(is_live(t, entries))),
        "330" => spell_came(spelled, t, 330, entries),
        "331" => spell_came(spelled, t, 331, entries),
        _ => spelled.push(digit(count_at(alloc, what, t, entries)?)),
    }
    Ok(())
}

fn spell(
    alloc: Global,
    spelled: &mut Spelled,
    settings: &Settings,
    question: &str,
    entries: &[Entry],
) -> Result<(), Fail> {
    match question.split_once(' ') {
        Some((what, t)) => spell_at(alloc, spelled, what, number(t)?, entries),
        None => spell_whole(alloc, spelled, settings, question, entries),
    }
}

fn spell_after(
    alloc: Global,
    spelled: &mut Spelled,
    settings: &Settings,
    entries: &mut List<Entry>,
    asked: &str,
) -> Result<(), Fail> {
    let (texts, question) = asked.split_once(" ? ").ok_or("a question")?;
    push_entries(alloc, entries, texts)?;
    spell(alloc, spelled, settings, question, entries.items())
}

/// What is said of entries.
pub fn spell_history(
    alloc: Global,
    spelled: &mut Spelled,
    settings: &Settings,
    asked: &str,
) -> Result<(), Fail> {
    let mut entries = List::new(alloc);
    spell_after(alloc, spelled, settings, &mut entries, asked)
}
