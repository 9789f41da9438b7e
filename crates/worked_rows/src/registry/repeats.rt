//! Which repeats get the reply of an accepted message.
//!
//! A step is one of these: a message is noted, which came `non`-confirmable, `con`firmable or by `http`, of a peer and a domain, with
//! its Message ID, its second, its slot and the one byte of its reply; the slots are numbered anew, so that of those that `moved` the
//! first becomes 0 and the second 1; and a peer of a domain may `look` for the reply to a Message ID at a second, of which the byte is
//! told.

use crate::registry::spelled::Spelled;
use crate::registry::words::{NONE, byte, digit, first, four, two};
use coap_exchange::Remembered;
use dots_history::MessageKey;
use dots_lists::Bytes;
use dots_settings::Settings;
use std::alloc::Global;
use std::test::Fail;

fn key_of(verb: &str, id: u16) -> MessageKey {
    match verb {
        "non" => MessageKey::Non(id),
        "con" => MessageKey::Con(id),
        _ => MessageKey::Http,
    }
}

fn note(alloc: Global, remembered: &mut Remembered, verb: &str, step: &str) -> Result<(), Fail> {
    let (peer, rest) = first(step)?;
    let (domain, rest) = first(rest)?;
    let (id, second, slot, answer) = four(rest)?;
    let (peer, slot) = (u32::from(peer), u32::from(slot));
    if remembered.holds(peer, domain) {
        let reply = Bytes::from_slice(alloc, &[byte(answer)?])?;
        remembered.note(
            peer,
            domain,
            key_of(verb, id),
            u64::from(second),
            slot,
            reply,
        );
    }
    Ok(())
}

fn moved(remembered: &mut Remembered, step: &str) -> Result<(), Fail> {
    let (lower, upper) = two(step)?;
    if lower < upper {
        remembered.moved(&[u32::from(lower), u32::from(upper)]);
    }
    Ok(())
}

fn look(spelled: &mut Spelled, remembered: &Remembered, step: &str) -> Result<(), Fail> {
    let (peer, domain, id, now) = four(step)?;
    spelled.push(
        match remembered.look(u32::from(peer), domain, id, u64::from(now)) {
            Some([byte]) => digit(u64::from(*byte)),
            Some(_) => b'?',
            None => NONE,
        },
    );
    Ok(())
}

fn take(
    alloc: Global,
    spelled: &mut Spelled,
    remembered: &mut Remembered,
    step: &str,
) -> Result<(), Fail> {
    let (verb, step) = step.split_once(' ').ok_or("a step")?;
    match verb {
        "non" | "con" | "http" => note(alloc, remembered, verb, step),
        "moved" => moved(remembered, step),
        "look" => look(spelled, remembered, step),
        _ => Err(Fail::from("a verb")),
    }
}

fn take_all(
    alloc: Global,
    spelled: &mut Spelled,
    remembered: &mut Remembered,
    steps: &str,
) -> Result<(), Fail> {
    for step in steps.split("; ") {
        take(alloc, spelled, remembered, step)?;
    }
    Ok(())
}

pub fn spell_repeats(
    alloc: Global,
    spelled: &mut Spelled,
    settings: &Settings,
    steps: &str,
) -> Result<(), Fail> {
    let mut remembered = Remembered::new(alloc, settings)?;
    take_all(alloc, spelled, &mut remembered, steps)
}
