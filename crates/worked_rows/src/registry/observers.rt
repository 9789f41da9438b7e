//! What observers are told.
//!
//! A step is one of these: a peer `register`s for a client of a domain, with a token of one byte, and the number of the reply is told
//! behind an `r`, with 0 for none; it `deregister`s a token; it `reset`s a Message ID; there is from now on this to `see`; the first
//! observer that is due is `notify`ed, with this Message ID, by which its token and the number are told, with 0 where it is gone, or two dashes where none is due;
//! and with `among` the first of the domain that is named before the Message ID.

use crate::registry::plain_views::PlainViews;
use crate::registry::spelled::Spelled;
use crate::registry::words::{NONE, byte, digit, small, three, two};
use coap_message::Token;
use coap_observe::{DueAmong, Notice, Observer, Observers};
use dots_keys::Content;
use dots_lists::Name;
use dots_settings::Settings;
use std::alloc::Global;
use std::test::Fail;

fn observer(alloc: Global, peer: u32, domain: u16, token: u8) -> Result<Observer, Fail> {
    let token = Token::new(&[token]).ok_or("a token")?;
    match Name::new(alloc, b"client")? {
        Some(cuid) => Ok(Observer {
            peer,
            domain,
            token,
            cuid,
            mid: None,
            content: Content::All,
        }),
        None => Err(Fail::from("a name")),
    }
}

/// The number of the reply, or a mark where nobody of this domain is such a peer.
fn registered(observers: &mut Observers, views: &PlainViews<'_>, observer: Observer) -> u8 {
    if observers.holds(observer.peer, observer.domain) {
        digit(u64::from(observers.register(observer, views).unwrap_or(0)))
    } else {
        drop(observer);
        b'!'
    }
}

fn register(
    alloc: Global,
    spelled: &mut Spelled,
    observers: &mut Observers,
    views: &PlainViews<'_>,
    step: &str,
) -> Result<(), Fail> {
    let (peer, domain, token) = three(step)?;
    let observer = observer(alloc, u32::from(peer), domain, byte(token)?)?;
    let number = registered(observers, views, observer);
    spelled.extend(&[b'r', number]);
    Ok(())
}

fn deregister(observers: &mut Observers, step: &str) -> Result<(), Fail> {
    let (peer, token) = two(step)?;
    observers.deregister(u32::from(peer), &[byte(token)?]);
    Ok(())
}

fn reset(observers: &mut Observers, step: &str) -> Result<(), Fail> {
    let (peer, id) = two(step)?;
    observers.reset(u32::from(peer), id);
    Ok(())
}

/// Mitigations by their mids, each with its status.
fn see(views: &mut PlainViews<'static>, step: &str) -> Result<(), Fail> {
    *views = match step {
        "nothing" => PlainViews { list: &[] },
        "1:2" => PlainViews { list: &[(1, 2)] },
        "1:5" => PlainViews { list: &[(1, 5)] },
        "1:5,2:2" => PlainViews {
            list: &[(1, 5), (2, 2)],
        },
        _ => return Err(Fail::from("a list")),
    };
    Ok(())
}

/// The token and the number of a notification.
fn bytes_of_notice(notice: &Notice<'_>) -> [u8; 2] {
    let number = if notice.gone { 0 } else { notice.number };
    let token = match notice.observer.token.bytes() {
        [byte] => *byte,
        _ => 0,
    };
    [digit(u64::from(token)), digit(u64::from(number))]
}

/// Notifies the first of these observers that is due.
fn notified(
    observers: &mut Observers,
    views: &PlainViews<'_>,
    among: DueAmong,
    id: u16,
) -> [u8; 2] {
    let Some(notice) = observers.next_due(views, among, 0) else {
        return [NONE, NONE];
    };
    let place = notice.place;
    let bytes = bytes_of_notice(&notice);
    observers.notified(views, place, id);
    bytes
}

fn notify(
    spelled: &mut Spelled,
    observers: &mut Observers,
    views: &PlainViews<'_>,
    step: &str,
) -> Result<(), Fail> {
    let id = small(step)?;
    spelled.extend(&notified(observers, views, DueAmong::Anybody, id));
    Ok(())
}

fn among(
    spelled: &mut Spelled,
    observers: &mut Observers,
    views: &PlainViews<'_>,
    step: &str,
) -> Result<(), Fail> {
    let (domain, id) = two(step)?;
    let among = DueAmong::Nobody.joined(domain);
    spelled.extend(&notified(observers, views, among, id));
    Ok(())
}

fn take(
    alloc: Global,
    spelled: &mut Spelled,
    observers: &mut Observers,
    views: &mut PlainViews<'static>,
    step: &str,
) -> Result<(), Fail> {
    let (verb, step) = step.split_once(' ').ok_or("a step")?;
    match verb {
        "register" => register(alloc, spelled, observers, views, step),
        "deregister" => deregister(observers, step),
        "reset" => reset(observers, step),
        "see" => see(views, step),
        "notify" => notify(spelled, observers, views, step),
        "among" => among(spelled, observers, views, step),
        _ => Err(Fail::from("a verb")),
    }
}

fn take_all(
    alloc: Global,
    spelled: &mut Spelled,
    observers: &mut Observers,
    steps: &str,
) -> Result<(), Fail> {
    let mut views = PlainViews { list: &[] };
    for step in steps.split("; ") {
        take(alloc, spelled, observers, &mut views, step)?;
    }
    Ok(())
}

pub fn spell_observers(
    alloc: Global,
    spelled: &mut Spelled,
    settings: &Settings,
    steps: &str,
) -> Result<(), Fail> {
    let mut observers = Observers::new(alloc, settings)?;
    take_all(alloc, spelled, &mut observers, steps)
}
