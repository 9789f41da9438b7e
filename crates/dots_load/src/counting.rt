//! Counting what a host was asked to do.

ghost use Rattle.std.specs.Prelude.{◌≡◌, ◌==◌, count_by, string_bytes, IfOk};
ghost use Rattle.dots_host.specs.Acts.{wire_acts};
ghost use Rattle.dots_load.specs.Calls.{gives, takes};
ghost use Rattle.dots_load.specs.Report.{has_code, is_no_end, other, unavailable, sends_in, load_text};

use coap_message::codes::{CHANGED, CONFLICT, CONTENT, CREATED, DELETED, INTERNAL_SERVER_ERROR};
use dots_host::{Act, Event, OwnedOut};
use dots_lists::NoMemory;
use std::alloc::Global;

/// The report over all calls of a host, with so many rows in the end.
pub fn report_of(alloc: Global, acts: &[Act], rows: usize) -> Result<String, NoMemory>
    ensures { IfOk result (λ text. string_bytes text ≡ load_text (wire_acts 0 acts.now) rows) }
{
    let events = count_events(acts);
    let created = count_replies(acts, CREATED);
    let changed = count_replies(acts, CHANGED);
    let deleted = count_replies(acts, DELETED);
    let content = count_replies(acts, CONTENT);
    let conflict = count_replies(acts, CONFLICT);
    let other = count_others(acts);
    Ok(format!(in alloc;
        "events {events}\ncreated {created}\nchanged {changed}\ndeleted {deleted}\ncontent {content}\nconflict {conflict}\nother {other}\nrows {rows}\n"
    )?)
}

/// Whether no reply says 5.00.
pub fn is_served(acts: &[Act]) -> bool
    ensures { result ≡ (count_by unavailable (sends_in (wire_acts 0 acts.now)) == 0) }
{
    count_replies(acts, INTERNAL_SERVER_ERROR) == 0
}

/// How many events other than End were taken.
fn count_events(acts: &[Act]) -> usize
    ensures { result ≡ count_by (takes is_no_end) acts.now }
{
    acts.iter().filter(|act| is_event(act)).count()
}

fn is_event(act: &Act) -> bool
    ensures { result ≡ takes is_no_end act.now }
{
    match act {
        Act::Took { event, .. } => match event {
            Event::End => false,
            _ => true,
        },
        _ => false,
    }
}

/// How many sends are datagrams of a code.
fn count_replies(acts: &[Act], code: u8) -> usize
    ensures { result ≡ count_by (gives (has_code code)) acts.now }
{
    acts.iter().filter(|act| is_reply(act, code)).count()
}

fn is_reply(act: &Act, code: u8) -> bool
    ensures { result ≡ gives (has_code code) act.now }
{
    match act {
        Act::Gave { out, .. } => has_code(out, code),
        _ => false,
    }
}

/// How many sends are of none of the codes that have a line.
fn count_others(acts: &[Act]) -> usize
    ensures { result ≡ count_by (gives other) acts.now }
{
    acts.iter().filter(|act| is_other(act)).count()
}

fn is_other(act: &Act) -> bool
    ensures { result ≡ gives other act.now }
{
    match act {
        Act::Gave { out, .. } => {
            !(has_code(out, CREATED)
                || (has_code(out, CHANGED)
                    || (has_code(out, DELETED)
                        || (has_code(out, CONTENT) || has_code(out, CONFLICT)))))
        }
        _ => false,
    }
}

/// Whether it is a datagram of a code.
fn has_code(out: &OwnedOut, code: u8) -> bool
    ensures { result ≡ has_code code out.now }
{
    match out {
        OwnedOut::To { bytes, .. } => match bytes.items() {
            [_, found, ..] => *found == code,
            _ => false,
        },
        _ => false,
    }
}
