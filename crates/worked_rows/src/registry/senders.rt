//! When messages are sent again.
//!
//! A step is one of these: at 10,000 a message of this byte is handed in to `send`, with a Message ID and a random word; one is
//! `acknowledged`; and it is asked what there is to do `at` a time. The first two tell whether that went, and the last the byte of a
//! message that is sent again behind an `m`, the Message ID of one that is given up behind an `x`, or two dashes.

use crate::registry::spelled::Spelled;
use crate::registry::words::{NONE, byte, digit, flag, number, small, three};
use coap_exchange::{Resend, Sender};
use dots_lists::Bytes;
use std::alloc::Global;
use std::test::Fail;

fn send(alloc: Global, spelled: &mut Spelled, sender: &mut Sender, step: &str) -> Result<(), Fail> {
    let (message, id, word) = three(step)?;
    let bytes = Bytes::from_slice(alloc, &[byte(message)?])?;
    let is_taken = sender.send(bytes, id, 10_000, u32::from(word)).is_ok();
    spelled.push(flag(is_taken));
    Ok(())
}

fn acknowledged(spelled: &mut Spelled, sender: &mut Sender, step: &str) -> Result<(), Fail> {
    let id = small(step)?;
    spelled.push(flag(sender.acknowledged(id)));
    Ok(())
}

/// What there is to do.
fn due(sender: &mut Sender, now: u64) -> [u8; 2] {
    match sender.next_due(now) {
        Some(Resend::Again(bytes)) => match bytes.items() {
            [byte] => [b'm', digit(u64::from(*byte))],
            _ => [b'm', NONE],
        },
        Some(Resend::GaveUp { id }) => [b'x', digit(u64::from(id))],
        None => [NONE, NONE],
    }
}

fn at(spelled: &mut Spelled, sender: &mut Sender, step: &str) -> Result<(), Fail> {
    let now = number(step)?;
    spelled.extend(&due(sender, now));
    Ok(())
}

fn take(alloc: Global, spelled: &mut Spelled, sender: &mut Sender, step: &str) -> Result<(), Fail> {
    let (verb, step) = step.split_once(' ').ok_or("a step")?;
    match verb {
        "send" => send(alloc, spelled, sender, step),
        "acknowledged" => acknowledged(spelled, sender, step),
        "at" => at(spelled, sender, step),
        _ => Err(Fail::from("a verb")),
    }
}

fn take_all(
    alloc: Global,
    spelled: &mut Spelled,
    sender: &mut Sender,
    steps: &str,
) -> Result<(), Fail> {
    for step in steps.split("; ") {
        take(alloc, spelled, sender, step)?;
    }
    Ok(())
}

/// What the steps tell where two messages may wait.
pub fn spell_sender(alloc: Global, spelled: &mut Spelled, steps: &str) -> Result<(), Fail> {
    let mut sender = Sender::new(alloc, 2)?;
    take_all(alloc, spelled, &mut sender, steps)
}
