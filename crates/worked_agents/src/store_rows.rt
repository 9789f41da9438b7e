//! What a gateway keeps of its exchanges on a disk, and what is left of them after a crash.
//!
//! Tables stand between lines of three equal signs. Each begins with a disk of zeros, on which a store opens. The steps of a table are put
//! to it: exchanges are kept, the bytes of a slot of the first half are read, and a store opens anew on what the disk holds, as after a crash.
//! It tells the numbers of the exchanges and the next one. Those that are young at a time wait again in a gateway, which has room for as many
//! as may be young.

use crate::row::Row;
use coap_message::Token;
use dots_gateway::{Exchange, GatewayCore};
use dots_history::MessageKey;
use dots_host::{Disk, MemoryDisk};
use dots_settings::{Settings, settings_of};
use gateway_agent::Store;
use slot_journal::bytes_needed;
use std::alloc::Global;
use std::process::Abort;

/// Settings by which a half has 24 slots, and 16 exchanges may be young at once.
const SETTINGS: &str = "\
domain net1
prefix net1 192.0.2.0/24
client 0 net1
capacity client-mitigations 1
capacity domain-mitigations 1
capacity clients 1
capacity aliases 1
capacity acls 1
capacity remembered 1
";

/// Exchanges whose bytes on the disk are those of the layout of a record, and a crash between two of them; numbers and times that go back,
/// which are not kept; a full half, of which the exchanges that are at most 246 seconds old are left, and those alone, though the
/// last is left whatever its age; as many young exchanges as there may be; and those that wait again at a time, which isn't before that of
/// the last one.
const TABLES: &str = "\
open = next 1
keep 1 0 non 330 4a 1000 = kept
slot 0 = a5002600000000000003e800000000fffe0001014a000900000000000000014a07202e82a9603cc33e
open = 1 next 2
keep 2 1 con 7 0102030405060708 1001 = kept
slot 1 = a5002d00000000000003e900000001fffe000200070010000000000000000201020304050607080748b3189db630bc4f
open = 1 2 next 3
keep 2 1 con 8 01 1002 = no
keep 3 1 con 8 01 1000 = no
keep 18446744073709551615 1 con 8 01 1002 = no
keep 18446744073709551614 1 con 8 01 1002 = kept
open = 1 2 18446744073709551614 next 18446744073709551615
===
fill 1 24 1000 123 = kept
keep 25 0 non 1 - 4075 = kept
open = 23 24 25 next 26
===
fill 1 24 1000 123 = kept
keep 25 0 non 1 - 4076 = kept
open = 24 25 next 26
===
fill 1 24 1000 123 = kept
keep 30 0 non 1 - 100000 = kept
open = 24 30 next 31
===
wait 1000 = next 1
fill 1 24 1000 123 = kept
wait 0 = 22 23 24 next 25
wait 3952 = 22 23 24 next 25
wait 3953 = 23 24 next 25
wait 4075 = 23 24 next 25
wait 4198 = 24 next 25
wait 4199 = next 25
===
fill 1 16 1000 0 = kept
wait 1246 = 1 2 3 4 5 6 7 8 9 10 11 12 13 14 15 16 next 17
wait 1247 = next 17
===
fill 1 16 1000 0 = kept
keep 17 0 non 1 - 1246 = no
keep 17 0 non 1 - 1247 = kept
open = 1 2 3 4 5 6 7 8 9 10 11 12 13 14 15 16 17 next 18";

/// A store and its disk.
#[derive(Drop)]
struct Opened {
    store: Store,
    disk: MemoryDisk,
}

/// The numbers of exchanges and the next one, as text.
fn worded(alloc: Global, exchanges: &[Exchange], next: u64) -> Option<String> {
    let mut text = String::new(alloc);
    for exchange in exchanges {
        let number = exchange.number;
        let word = format!(in alloc; "{number} ").ok()?;
        text.push_str(word.as_str()).ok()?;
    }
    let word = format!(in alloc; "next {next}").ok()?;
    text.push_str(word.as_str()).ok()?;
    Some(text)
}

/// A disk with these bytes.
fn disk_with(alloc: Global, settings: &Settings, image: &[u8]) -> Option<MemoryDisk> {
    let size = bytes_needed(settings);
    if image.len() as u64 > size {
        return None;
    }
    let mut disk = MemoryDisk::new(alloc, size);
    disk.load(image).ok()?;
    Some(disk)
}

/// A store on a disk with these bytes, and what it tells of its exchanges.
fn open(alloc: Global, settings: &Settings, image: &[u8]) -> Option<(Opened, String)> {
    let mut disk = disk_with(alloc, settings, image)?;
    let (store, exchanges, next) = Store::open(alloc, &mut disk, settings).ok()?;
    let text = worded(alloc, exchanges.items(), next)?;
    Some((Opened { store, disk }, text))
}

/// Lets the young exchanges of a store that opens on these bytes wait again in a gateway, and tells them, where as many wait then.
fn wait(alloc: Global, settings: &Settings, image: &[u8], row: &mut Row<'_>) -> Option<String> {
    let now = row.number(" ");
    let mut disk = disk_with(alloc, settings, image)?;
    let (store, _, next) = Store::open(alloc, &mut disk, settings).ok()?;
    let mut core = GatewayCore::new(alloc, settings, 9, store.most_young()).ok()?;
    let young = store.young(now);
    core.restore(young, next);
    if core.waiting(now) != young.len() {
        return None;
    }
    worded(alloc, young, next)
}

/// Keeps an exchange where it may be kept.
fn keep(opened: &mut Opened, exchange: &Exchange) -> &'static str {
    let now = exchange.time;
    if !opened.store.can_keep(exchange, now) || opened.store.bytes_needed() > opened.disk.size() {
        return "no";
    }
    match opened.store.keep(&mut opened.disk, exchange, now) {
        Ok(()) => "kept",
        Err(_) => "fault",
    }
}

fn key(row: &mut Row<'_>) -> MessageKey {
    match row.text(" ") {
        "con" => MessageKey::Con(row.number(" ")),
        "non" => MessageKey::Non(row.number(" ")),
        _ => MessageKey::Http,
    }
}

fn token(alloc: Global, row: &mut Row<'_>) -> Option<Token> {
    match row.text(" ") {
        "-" => Token::new(&[]),
        word => Token::new(row.bytes(alloc, word).as_slice()),
    }
}

/// The exchange of the words of a row.
fn exchange(alloc: Global, row: &mut Row<'_>) -> Option<Exchange> {
    let number = row.number(" ");
    let peer = row.number(" ");
    let key = key(row);
    let token = token(alloc, row)?;
    let time = row.number(" ");
    Some(Exchange {
        number,
        peer,
        key,
        token,
        time,
    })
}

/// Keeps so many exchanges with the numbers from one on, each so many seconds after the one before it.
fn fill(opened: &mut Opened, row: &mut Row<'_>) -> Option<&'static str> {
    let first: u64 = row.number(" ");
    let count: u64 = row.number(" ");
    let mut time: u64 = row.number(" ");
    let step: u64 = row.number(" ");
    let token = Token::new(&[])?;
    for place in 0..count {
        let number = first.saturating_add(place);
        time = time.saturating_add(step);
        let exchange = Exchange {
            number,
            peer: 0,
            key: MessageKey::Non(1),
            token,
            time,
        };
        if keep(opened, &exchange) != "kept" {
            return None;
        }
    }
    Some("kept")
}

/// The bytes of a slot of the first half: its gate, the length of the record, and the record.
fn slot(alloc: Global, opened: &Opened, row: &mut Row<'_>) -> Option<String> {
    let slot: usize = row.number(" ");
    let image = opened.disk.image();
    let at = slot.checked_add(1)?.checked_mul(8192)?;
    let here = image.get(at..)?;
    let length = usize::from(*here.get(1)?) * 256 + usize::from(*here.get(2)?);
    hex::encode(alloc, here.get(..length + 3)?).ok()
}

/// Puts a step to a store, and answers what it tells, with the store then.
fn step(
    alloc: Global,
    settings: &Settings,
    mut opened: Opened,
    row: &mut Row<'_>,
) -> Option<(Opened, String)> {
    let text = match row.text(" ") {
        "open" => return open(alloc, settings, opened.disk.image()),
        "wait" => wait(alloc, settings, opened.disk.image(), row)?,
        "keep" => {
            let exchange = exchange(alloc, row)?;
            String::from_str(alloc, keep(&mut opened, &exchange)).ok()?
        }
        "fill" => String::from_str(alloc, fill(&mut opened, row)?).ok()?,
        "slot" => slot(alloc, &opened, row)?,
        _ => return None,
    };
    Some((opened, text))
}

/// The first line that doesn't hold.
fn first_wrong<'a>(alloc: Global, settings: &Settings, lines: &'a str) -> Option<&'a str> {
    let Some((mut opened, _)) = open(alloc, settings, &[]) else {
        return Some(lines);
    };
    for line in lines.split("\n") {
        let mut row = Row::new(line, " = ");
        let Some((next, text)) = step(alloc, settings, opened, &mut row) else {
            return Some(line);
        };
        opened = next;
        if text.as_str() != row.want() || !row.is_read() {
            return Some(line);
        }
    }
    None
}

fn all_hold(rt: &impl Abort, alloc: Global) {
    let Ok(settings) = settings_of(alloc, SETTINGS.as_bytes()) else {
        assert!(rt; false, "the settings");
        return;
    };
    for table in TABLES.split("\n===\n") {
        let wrong = first_wrong(alloc, &settings, table).unwrap_or("");
        assert!(rt; wrong.is_empty(), "at {wrong}");
    }
}

#[test]
fn exchanges_survive(rt: HostRuntime) {
    all_hold(&rt, rt.alloc());
}
