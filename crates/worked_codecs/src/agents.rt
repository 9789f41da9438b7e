//! What a client asks, hands out and hears (RFC 9132, section 4.4).
//!
//! A row begins with the first mid of a client, whose name is that of the key `abc` and whose first number is 1. Its steps are a new ask at a
//! time for a lifetime, what is due at a time, what is heard of a datagram at a time, and the ledger.

use crate::row::Row;
use crate::tables::{Rows, Worded, all_hold, name};
use acl_lists::Asked;
use dots_client::{Ask, AskFault, ClientCore, Heard, MAX_MID, cuid_of};
use dots_lists::{Bytes, List, Name};
use ip_scope::parse_prefix;
use std::alloc::Global;

/// A mitigation that is asked for, handed out again after more than three seconds and granted; the last mid, and the one after it; a
/// request for which there is no room; an answer by another token, and a refusal; and heartbeats, of which the second has come too far.
const CLIENTS: &str = "\
1 new 1000 3600 192.0.2.0/24 tick 1000 tick 1000 = 1 580300010000000000000001bb2e77656c6c2d6b6e6f776e04646f7473086d697469676174650d0e637569643d756e6757763438427a2d704251554465586134694977056d69643d3112010fffa101a10281a206816c3139322e302e322e302f32340e190e10 -
1 new 1000 3600 192.0.2.0/24 tick 1000 tick 1003 tick 1004 = 1 580300010000000000000001bb2e77656c6c2d6b6e6f776e04646f7473086d697469676174650d0e637569643d756e6757763438427a2d704251554465586134694977056d69643d3112010fffa101a10281a206816c3139322e302e322e302f32340e190e10 - 580300010000000000000001bb2e77656c6c2d6b6e6f776e04646f7473086d697469676174650d0e637569643d756e6757763438427a2d704251554465586134694977056d69643d3112010fffa101a10281a206816c3139322e302e322e302f32340e190e10
1 new 1000 3600 192.0.2.0/24 got 1005 584100010000000000000001c2010fffa101a10281a205010e190e10 ledger = 1 granted:1 1/3600/1005
3221225471 new 1 60 192.0.2.0/24 new 1 60 192.0.2.0/24 new 1 60 192.0.2.0/24 = 0 1 full:3
1 new 1 60 192.0.2.0/24 got 2 5841000100000000000000ffc2010fffa101a10281a205010e183c got 2 588400010000000000000001 ledger = 1 - refused:1:132 -
1 got 1 50031234bb2e77656c6c2d6b6e6f776e04646f7473026862 got 1 50031234bb2e77656c6c2d6b6e6f776e04646f74730268625100 = 50441234 50801234";

/// A client with room for two requests.
fn client_of(alloc: Global, mid: u32) -> Option<ClientCore> {
    if mid > MAX_MID {
        return None;
    }
    let cuid = name_of(alloc)?;
    ClientCore::starting(alloc, cuid, 2, mid, 1).ok()
}

/// The name of the key `abc`.
fn name_of(alloc: Global) -> Option<Name> {
    let cuid = cuid_of(b"abc");
    let text = str::from_utf8(&cuid).ok()?;
    name(alloc, text)
}

/// A scope of this one prefix.
fn scope(alloc: Global, text: &str) -> Option<Asked> {
    let prefix = parse_prefix(text.as_bytes()).ok()?;
    let mut prefixes = List::new(alloc);
    prefixes.push(prefix).ok()?;
    Some(Asked {
        prefixes,
        ports: List::new(alloc),
        protocols: Bytes::new(alloc),
        names: List::new(alloc),
        aliases: List::new(alloc),
    })
}

/// The answer to a new ask.
fn asked(alloc: Global, client: &mut ClientCore, row: &mut Row<'_>) -> Option<String> {
    let now = row.number(" ");
    let lifetime = row.number(" ");
    let asked = scope(alloc, row.text(" "))?;
    let word = u32::from(client.next_id());
    let ask = Ask::New { asked, lifetime };
    match client.ask(&ask, now, word) {
        Ok(mid) => format!(in alloc; "{mid}").ok(),
        Err(AskFault::Busy { mid }) => format!(in alloc; "busy:{mid}").ok(),
        Err(AskFault::Full { number }) => format!(in alloc; "full:{number}").ok(),
        Err(AskFault::MidSpent) => String::from_str(alloc, "spent").ok(),
        Err(AskFault::NoMemory) => None,
    }
}

/// The message that is due.
fn due(alloc: Global, client: &mut ClientCore, row: &mut Row<'_>) -> Option<String> {
    let now = row.number(" ");
    match client.tick(now) {
        Some(message) => hex::encode(alloc, message.items()).ok(),
        None => String::from_str(alloc, "-").ok(),
    }
}

/// What is heard of a datagram.
fn heard(alloc: Global, client: &mut ClientCore, row: &mut Row<'_>) -> Option<String> {
    let now = row.number(" ");
    let word = row.text(" ");
    let datagram = row.bytes(alloc, word);
    match client.got(datagram.as_slice(), now) {
        Heard::Granted { mid } => format!(in alloc; "granted:{mid}").ok(),
        Heard::Withdrawn { mid } => format!(in alloc; "withdrawn:{mid}").ok(),
        Heard::Refused { mid, code } => format!(in alloc; "refused:{mid}:{code}").ok(),
        Heard::Beat(answer) => hex::encode(alloc, answer.bytes()).ok(),
        Heard::Nothing => String::from_str(alloc, "-").ok(),
        Heard::NoMemory => None,
    }
}

/// The first row of the ledger.
fn granted(alloc: Global, client: &ClientCore) -> Option<String> {
    match client.ledger().first() {
        Some(row) => {
            let (mid, lifetime, at) = (row.mid, row.lifetime, row.at);
            format!(in alloc; "{mid}/{lifetime}/{at}").ok()
        }
        None => String::from_str(alloc, "-").ok(),
    }
}

fn step(alloc: Global, client: &mut ClientCore, row: &mut Row<'_>) -> Option<String> {
    match row.text(" ") {
        "new" => asked(alloc, client, row),
        "tick" => due(alloc, client, row),
        "got" => heard(alloc, client, row),
        "ledger" => granted(alloc, client),
        _ => None,
    }
}

/// What the steps of a row tell, one after the other.
fn steps(alloc: Global, client: &mut ClientCore, row: &mut Row<'_>) -> Option<String> {
    let mut worded = String::new(alloc);
    for _ in 0..8 {
        if row.rest().is_empty() {
            return Some(worded);
        }
        if !worded.is_empty() {
            worded.push_str(" ").ok()?;
        }
        let text = step(alloc, client, row)?;
        worded.push_str(text.as_str()).ok()?;
    }
    None
}

/// What the steps of a row tell.
pub fn worded(alloc: Global, row: &mut Row<'_>) -> Option<String> {
    let mid = row.number(" ");
    let mut client = client_of(alloc, mid)?;
    steps(alloc, &mut client, row)
}

#[test]
fn clients_ask_and_hear(rt: HostRuntime) {
    assert!(rt; cuid_of(b"abc").as_slice() == b"ungWv48Bz-pBQUDeXa4iIw".as_slice());
    all_hold(&rt, rt.alloc(), Rows::Worded(Worded::Clients), CLIENTS);
}
