//! What is judged of a request by the live mitigations of its domain.
//!
//! A live mitigation is read as the entry that put it; one of second 0 was withdrawn, and is terminating.

use crate::registry::entries::{entry, prefixes};
use crate::registry::spelled::Spelled;
use crate::registry::words::{flag, number, two};
use conflict_rules::{
    Judgement, Live, MidJudgement, Which, are_few, collides, judge_mid, judge_overlap,
};
use dots_history::{Change, Entry, Target, TargetList};
use dots_lists::{Bytes, List};
use dots_settings::Limits;
use std::alloc::Global;
use std::test::Fail;

/// Capacities for live mitigations of a client and of a domain.
fn limits(client: u32, domain: u32) -> Limits {
    Limits {
        client_mitigations: client,
        domain_mitigations: domain,
        clients: 8,
        aliases: 16,
        acls: 8,
        remembered: 64,
        observers: 8,
    }
}

/// What is judged by the mid, and the number beside it.
fn by_mid(request: &Live, live: &[Live]) -> (&'static str, u128) {
    let put = &request.put;
    match judge_mid(
        live,
        request.peer,
        request.cuid.bytes(),
        put.mid,
        &put.asked,
        put.trigger,
    ) {
        MidJudgement::Collision => ("collision ", 0),
        MidJudgement::Refresh { at } => ("refresh ", at as u128),
        MidJudgement::Changed => ("changed ", 0),
        MidJudgement::New => ("new ", 0),
    }
}

/// What is judged by overlaps and room, and the number beside it.
fn by_overlap(request: &Live, live: &[Live], limits: Limits) -> (&'static str, u128) {
    let put = &request.put;
    if !are_few(&put.targets) {
        return ("many ", 0);
    }
    let cuid = request.cuid.bytes();
    match judge_overlap(
        live,
        cuid,
        put.mid,
        &put.asked,
        &put.targets,
        &limits,
        put.trigger,
    ) {
        Judgement::Higher { mid } => ("higher ", u128::from(mid)),
        Judgement::Other { meeting } => ("other ", meeting),
        Judgement::Full {
            which: Which::Client,
            number,
        } => ("client ", u128::from(number)),
        Judgement::Full {
            which: Which::Domain,
            number,
        } => ("domain ", u128::from(number)),
        Judgement::Fresh => ("fresh ", 0),
    }
}

/// Whether the name of the request's client is in use by another peer.
fn use_of(request: &Live, live: &[Live]) -> (&'static str, u128) {
    match collides(live, request.peer, request.cuid.bytes()) {
        true => ("used ", 0),
        false => ("free ", 0),
    }
}

/// What is judged within capacities, which are two numbers.
fn within(by: &str, request: &Live, live: &[Live]) -> Result<(&'static str, u128), Fail> {
    let (client, domain) = two(by)?;
    Ok(by_overlap(request, live, limits(u32::from(client), u32::from(domain))))
}

/// What is judged of a request, by its client's name, by its mid, or within capacities.
fn judged(by: &str, request: &Live, live: &[Live]) -> Result<(&'static str, u128), Fail> {
    match by {
        "use" => Ok(use_of(request, live)),
        "mid" => Ok(by_mid(request, live)),
        _ => within(by, request, live),
    }
}

/// What is judged of the last of these by the others.
fn spell_last(spelled: &mut Spelled, by: &str, list: &[Live]) -> Result<(), Fail> {
    let [live @ .., request] = list else {
        return Err(Fail::from("a request"));
    };
    let (word, number) = judged(by, request, live)?;
    spelled.extend(word.as_bytes());
    spelled.push_number(number);
    Ok(())
}

/// The mitigation that an entry puts.
fn live_of(entry: Entry) -> Result<Live, Fail> {
    let Entry {
        time,
        peer,
        cuid,
        change,
        ..
    } = entry;
    match change {
        Change::Put(put) => Ok(Live {
            peer,
            cuid,
            put,
            standing: time > 0,
        }),
        other => {
            drop(other);
            Err(Fail::from("a mitigation"))
        }
    }
}

/// Puts the mitigations of a text behind others.
fn push_mitigations(alloc: Global, live: &mut List<Live>, texts: &str) -> Result<(), Fail> {
    for text in texts.split("; ") {
        live.push(live_of(entry(alloc, text)?)?)?;
    }
    Ok(())
}

fn target(alloc: Global) -> Result<Target, Fail> {
    Ok(Target {
        prefixes: prefixes(alloc, "192.0.2.0/24")?,
        ports: List::new(alloc),
        protocols: Bytes::new(alloc),
    })
}

fn spell_few_of(
    alloc: Global,
    spelled: &mut Spelled,
    targets: &mut TargetList,
    count: u64,
) -> Result<(), Fail> {
    for _ in 0..count {
        targets.push(target(alloc)?)?;
    }
    spelled.push(flag(are_few(targets)));
    Ok(())
}

/// Whether so many targets of one prefix are few.
fn spell_few(alloc: Global, spelled: &mut Spelled, count: u64) -> Result<(), Fail> {
    let mut targets = List::new(alloc);
    spell_few_of(alloc, spelled, &mut targets, count)
}

/// What is judged of the last of these mitigations, where the others are live.
fn spell_request(
    alloc: Global,
    spelled: &mut Spelled,
    by: &str,
    list: &mut List<Live>,
    texts: &str,
) -> Result<(), Fail> {
    push_mitigations(alloc, list, texts)?;
    spell_last(spelled, by, list.items())
}

fn spell_requested(
    alloc: Global,
    spelled: &mut Spelled,
    by: &str,
    texts: &str,
) -> Result<(), Fail> {
    let mut list = List::new(alloc);
    spell_request(alloc, spelled, by, &mut list, texts)
}

/// What is judged of a request, or whether so many targets are few.
pub fn spell_judged(alloc: Global, spelled: &mut Spelled, asked: &str) -> Result<(), Fail> {
    match asked.split_once(" ? ") {
        Some((count, "few")) => spell_few(alloc, spelled, number(count)?),
        Some((texts, by)) => spell_requested(alloc, spelled, by, texts),
        None => Err(Fail::from("a question")),
    }
}
