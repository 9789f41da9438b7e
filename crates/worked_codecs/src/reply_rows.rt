//! Bodies of replies, in hexadecimal.

use crate::row::Row;
use crate::tables::{Rows, Worded, all_hold, name};
use acl_lists::{Asked, PrefixList};
use dots_lists::{Bytes, List};
use ip_scope::{PortRange, Prefix, parse_prefix};
use reply_bodies::{
    Conflict, ConflictCause, Content, Current, MitigationView, Reply, SessionView, ViewList,
    body_of,
};
use std::alloc::Global;

/// What is told, and its body (RFC 9132, sections 4.4.1.3, 4.4.2, 4.5.1 and 4.7).
///
/// `worded` has the content, the mids, the seconds left, the start, the status, and what was asked for: prefixes behind `p=`, ranges behind
/// `r=`, protocols behind `n=`, host names behind `f=` and aliases behind `g=`. A conflict has the mid that was asked for. A session has its
/// sid, and the values while a mitigation is active and while none is. What isn't there is `-`.
const BODIES: &str = "granted 123 3600 = a101a10281a205187b0e190e10
granted 123 -1 = a101a10281a205187b0e20
told a 123 1 1000 5 p=192.0.2.0/24 = a101a10281a505187b06816c3139322e302e322e302f32340e010f1903e81005
told c 123 -1 1000 2 p=192.0.2.0/24 = a101a10281a305187b06816c3139322e302e322e302f32340e20
told n 123 -1 1000 2 p=192.0.2.0/24 = a101a10281a305187b0f1903e81002
told a 123 1 1000 8 p=192.0.2.0/24 = a101a10281a605187b06816c3139322e302e322e302f32340e010f1903e81008182df4
told c 123 -1 1000 8 p=192.0.2.0/24 = a101a10281a405187b06816c3139322e302e322e302f32340e20182df4
told n 123 -1 1000 8 p=192.0.2.0/24 = a101a10281a305187b0f1903e81008
told n 7,123 60 1000 2 = a101a10282a305070f1903e81002a305187b0f1903e81002
told c 1 60 0 2 r=80-80 r=8000-8010 g=web = a101a10281a4050107\
82a2081850091850a208191f4009191f4a0d81637765620e183c
told c 1 60 0 2 p=2001:DB8:1:0::/48 n=6 n=17 f=a.example = a101a10281a50501\
06816f323030313a6462383a313a3a2f34380a8206110b8169612e6578616d706c650e183c
conflict 123 higher 124 = a101a10281a205187b11a31201130115a105187c
conflict - higher 124 = a101a10281a111a31201130115a105187c
conflict 7 other 192.0.2.128/25 = a101a10281a2050711a41201130114187815a106816e3139322e302e322e3132382f3235
conflict - other 192.0.2.1/32 192.0.2.0/32 = a101a10281a111a41201130114187815a10682\
6c3139322e302e322e312f33326c3139322e302e322e302f3332
conflict 7 collision = a101a10281a2050711a212011303
conflict - collision = a101a10281a111a212011303
session - 30 15 3 200 150 5 30 15 3 200 150 5 = a1181ea21820\
a61821a11824181e1825a118240f1826a11824031827a1182bc4822118c81828a1182bc4822118961832a1182405182c\
a61821a11824181e1825a118240f1826a11824031827a1182bc4822118c81828a1182bc4822118961832a1182405
session 6 60 15 3 200 150 5 0 3 2 100 110 100 = a1181ea3181f061820\
a61821a11824183c1825a118240f1826a11824031827a1182bc4822118c81828a1182bc4822118961832a1182405182c\
a61821a11824001825a11824031826a11824021827a1182bc4822118641828a1182bc48221186e1832a118241864
beat true = a11831a11833f5
beat false = a11831a11833f4";

fn prefix(text: &str) -> Option<Prefix> {
    parse_prefix(text.as_bytes()).ok()
}

fn range(row: &mut Row<'_>, text: &str) -> Option<PortRange> {
    let (lower, upper) = text.split_once('-').unwrap_or((text, ""));
    PortRange::new(row.read::<u16>(lower), row.read::<u16>(upper))
}

fn prefixes(alloc: Global, texts: &str) -> Option<PrefixList> {
    let mut prefixes = List::new(alloc);
    for text in texts.split(' ') {
        prefixes.push(prefix(text)?).ok()?;
    }
    Some(prefixes)
}

fn nothing_asked(alloc: Global) -> Asked {
    Asked {
        prefixes: List::new(alloc),
        ports: List::new(alloc),
        protocols: Bytes::new(alloc),
        names: List::new(alloc),
        aliases: List::new(alloc),
    }
}

/// Asks for what stands behind a mark, too.
fn ask(alloc: Global, asked: &mut Asked, row: &mut Row<'_>, mark: &str, word: &str) -> Option<()> {
    match mark {
        "p" => asked.prefixes.push(prefix(word)?).ok(),
        "r" => asked.ports.push(range(row, word)?).ok(),
        "n" => asked.protocols.push(row.read::<u8>(word)).ok(),
        "f" => asked.names.push(name(alloc, word)?).ok(),
        "g" => asked.aliases.push(name(alloc, word)?).ok(),
        _ => None,
    }
}

/// Asks for all that the words of a row say, each behind its mark.
fn ask_all(alloc: Global, asked: &mut Asked, row: &mut Row<'_>) -> Option<()> {
    for word in row.rest().split_whitespace() {
        let (mark, word) = word.split_once('=').unwrap_or((word, ""));
        ask(alloc, asked, row, mark, word)?;
    }
    Some(())
}

fn content(word: &str) -> Content {
    match word {
        "c" => Content::Config,
        "n" => Content::State,
        _ => Content::All,
    }
}

/// The body in hexadecimal.
fn written_reply(alloc: Global, reply: &Reply<'_>) -> Option<String> {
    let body = body_of(alloc, reply).ok()?;
    hex::encode(alloc, body.items()).ok()
}

/// A view of a mitigation with each of these mids.
fn views_of<'a>(
    alloc: Global,
    row: &mut Row<'_>,
    mids: &str,
    view: MitigationView<'a>,
) -> Option<ViewList<'a>> {
    let mut views = ViewList::new(alloc);
    for word in mids.split(',') {
        let mid = row.read::<u32>(word);
        views.push(MitigationView { mid, ..view }).ok()?;
    }
    Some(views)
}

/// What is told of mitigations for which nothing is asked yet. Those of status 8 wait for a lost signal, and no other.
fn worded_of(alloc: Global, asked: &mut Asked, row: &mut Row<'_>) -> Option<String> {
    let letter = row.text(" ");
    let mids = row.text(" ");
    let left = row.number::<i32>(" ");
    let start = row.number::<u64>(" ");
    let status = row.number::<u8>(" ");
    ask_all(alloc, asked, row)?;
    let view = MitigationView {
        mid: 0,
        asked,
        left,
        start,
        status,
        trigger: status != 8,
        content: content(letter),
    };
    let views = views_of(alloc, row, mids, view)?;
    written_reply(alloc, &Reply::Mitigations(views))
}

fn mitigations(alloc: Global, row: &mut Row<'_>) -> Option<String> {
    let mut asked = nothing_asked(alloc);
    worded_of(alloc, &mut asked, row)
}

fn cause_of(alloc: Global, row: &mut Row<'_>) -> Option<ConflictCause> {
    match row.text(" ") {
        "higher" => Some(ConflictCause::Higher(row.number::<u32>(" "))),
        "other" => Some(ConflictCause::Other(prefixes(alloc, row.rest())?)),
        _ => Some(ConflictCause::Collision),
    }
}

fn conflict(alloc: Global, row: &mut Row<'_>) -> Option<String> {
    let mid = row.number_or_none();
    let cause = cause_of(alloc, row)?;
    written_reply(alloc, &Reply::Conflict(Conflict { mid, cause }))
}

fn current(row: &mut Row<'_>) -> Current {
    Current {
        interval: row.number::<u64>(" "),
        missing: row.number::<u64>(" "),
        retransmit: row.number::<u64>(" "),
        timeout: row.number::<u64>(" "),
        factor: row.number::<u64>(" "),
        rate: row.number::<u64>(" "),
    }
}

fn session(alloc: Global, row: &mut Row<'_>) -> Option<String> {
    let view = SessionView {
        sid: row.number_or_none(),
        mitigating: current(row),
        idle: current(row),
    };
    written_reply(alloc, &Reply::Session(view))
}

fn beat(alloc: Global, row: &mut Row<'_>) -> Option<String> {
    let heard = row.rest() == "true";
    written_reply(alloc, &Reply::Beat { heard })
}

fn granted(alloc: Global, row: &mut Row<'_>) -> Option<String> {
    let mid = row.number::<u32>(" ");
    let lifetime = row.number::<i32>(" ");
    written_reply(alloc, &Reply::Granted { mid, lifetime })
}

/// The body that the words in front of a row have.
pub fn spelled(alloc: Global, row: &mut Row<'_>) -> Option<String> {
    match row.text(" ") {
        "granted" => granted(alloc, row),
        "told" => mitigations(alloc, row),
        "conflict" => conflict(alloc, row),
        "session" => session(alloc, row),
        "beat" => beat(alloc, row),
        _ => None,
    }
}

#[test]
fn bodies_of_replies(rt: HostRuntime) {
    all_hold(&rt, rt.alloc(), Rows::Worded(Worded::Replies), BODIES);
}
