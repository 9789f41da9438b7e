//! Lifetimes that are granted (RFC 9132, section 4.4.1), and deadlines.

use crate::row::Row;
use crate::tables::{Rows, all_hold};
use dots_lists::NoMemory;
use lifetime_clock::{Deadlines, grant};
use std::alloc::Global;

/// Seconds that are asked for, the ceiling, and whether indefinite lifetimes are granted, in front of what is granted.
const GRANTS: &str = "\
-1 3600 indefinite = -1
-1 3600 bounded = 3600
1 1 bounded = 1
3599 3600 bounded = 3599
3600 3600 indefinite = 3600
3601 3600 indefinite = 3600";

/// Whether the seconds behind a row are granted.
pub fn is_granted(row: &mut Row<'_>) -> bool {
    let asked = row.number::<i32>(" ");
    let ceiling = row.number::<i32>(" ");
    let indefinite = row.rest() == "indefinite";
    let want = row.read_want::<i32>();
    (asked == -1 || asked > 0) && grant(asked, ceiling, indefinite) == want
}

/// The deadlines of the rows, set one after another, with as much room as there are rows.
pub fn deadlines_of(alloc: Global, rows: &[(u32, u64)]) -> Result<Deadlines, NoMemory> {
    let mut deadlines = Deadlines::new(alloc, rows.len())?;
    for (key, at) in rows {
        deadlines.set(*key, *at);
    }
    Ok(deadlines)
}

/// Keys with their times, as they are set; keys that are then cleared; and a time, in front of the keys that are due at it,
/// where there are some.
const DUE: &str = "\
# no room
; 7; 18446744073709551615
# one, at its borders
7@10; ; 9
4294967295@18446744073709551615; ; 18446744073709551615 = 4294967295
# the full room, in order of time
3@20 1@30 2@10 0@40; ; 30 = 2 3 1
# moved later, and earlier
1@10 2@30 1@40 2@20; ; 40 = 2 1
# cleared: one that isn't there, and one twice
1@10 2@20 3@30; 9 1 1; 40 = 2 3";

fn times_in(alloc: Global, row: &mut Row<'_>) -> Option<Vec<(u32, u64)>> {
    let mut times = Vec::new(alloc);
    for word in row.text("; ").split_whitespace() {
        let (key, at) = word.split_once('@').unwrap_or((word, ""));
        times
            .push((row.read::<u32>(key), row.read::<u64>(at)))
            .ok()?;
    }
    Some(times)
}

/// Whether these keys are due, one after the other, and then none, once the keys in front of them are cleared.
fn hands_out(deadlines: &mut Deadlines, row: &mut Row<'_>) -> bool {
    for word in row.text("; ").split_whitespace() {
        deadlines.clear(row.read::<u32>(word));
    }
    let now = row.number::<u64>(" ");
    let mut right = true;
    for word in row.want().split_whitespace() {
        right &= deadlines.due(now) == Some(row.read::<u32>(word));
    }
    right && deadlines.due(now).is_none()
}

/// Whether what is due is what a row says.
pub fn is_due(alloc: Global, row: &mut Row<'_>) -> Option<bool> {
    let times = times_in(alloc, row)?;
    let mut deadlines = deadlines_of(alloc, times.as_slice()).ok()?;
    Some(hands_out(&mut deadlines, row))
}

/// So many keys with rising times: each is so many more than the one before, modulo their count. A step of 1 makes them rise,
/// and a step that is one less than their count makes them fall.
fn in_steps(alloc: Global, count: u32, step: u32) -> Result<Vec<(u32, u64)>, NoMemory> {
    let mut rows = Vec::new(alloc);
    let mut key: u32 = 0;
    for at in 0..count {
        rows.push((key, u64::from(at)))?;
        key = key.wrapping_add(step) % count.max(1);
    }
    Ok(rows)
}

/// How deep brackets nest in a text.
fn nesting(text: &str) -> u32 {
    let (mut open, mut most): (u32, u32) = (0, 0);
    for byte in text.as_bytes() {
        match *byte {
            b'(' => open = open.saturating_add(1),
            b')' => open = open.saturating_sub(1),
            _ => {}
        }
        most = most.max(open);
    }
    most
}

/// The levels of the tree that the deadlines stand in, of which each is a bracket in what `Debug` prints.
fn levels(alloc: Global, deadlines: &Deadlines) -> Option<u32> {
    let text = format!(in alloc; "{deadlines:?}").ok()?;
    Some(nesting(text.as_str()))
}

/// Clears the keys below 300, from 700 on below 1000, and each second one between them.
fn clear_at_both_ends(deadlines: &mut Deadlines) {
    for key in 0..1_000u32 {
        if key < 300 || key >= 700 || key % 2 == 0 {
            deadlines.clear(key);
        }
    }
}

/// The levels that are left of a thousand deadlines where keys were cleared, if any are, and so many were then handed out.
fn levels_left(alloc: Global, step: u32, clears: bool, taken: u32) -> Option<u32> {
    let rows = in_steps(alloc, 1_000, step).ok()?;
    let mut deadlines = deadlines_of(alloc, rows.as_slice()).ok()?;
    if clears {
        clear_at_both_ends(&mut deadlines);
    }
    for _ in 0..taken {
        let _key = deadlines.due(u64::MAX);
    }
    levels(alloc, &deadlines)
}

/// Whether so many levels are left as a row says.
pub fn is_low(alloc: Global, row: &mut Row<'_>) -> Option<bool> {
    let step = row.number::<u32>(" ");
    let clears = row.text(" ") == "fewer";
    let taken = row.number::<u32>(" ");
    let least = row.number::<u32>(" ");
    let most = row.number::<u32>(" ");
    let levels = levels_left(alloc, step, clears, taken)?;
    Some((least..=most).contains(&levels))
}

/// Keys that rise, fall and come in turns by their step; `all` of them, or `fewer` once keys are taken out at both ends and between;
/// how many are then handed out; and the least and the most levels.
///
/// A tree in which no side of a branch is more than a level higher than the other has 10 to 14 levels for 1000 branches, 8 to 10
/// for 200, and 7 to 9 for 100.
const LOW: &str = "\
1 all 0 10 14
1 fewer 0 8 10
1 fewer 100 7 9
999 all 0 10 14
999 fewer 0 8 10
999 fewer 100 7 9
617 all 0 10 14
617 fewer 0 8 10
617 fewer 100 7 9";

/// Whether the keys of the rows, whose times rise, are handed out in their order.
fn hands_out_all(deadlines: &mut Deadlines, rows: &[(u32, u64)]) -> bool {
    let mut right = true;
    for (key, _) in rows {
        right &= deadlines.due(u64::MAX) == Some(*key);
    }
    right && deadlines.due(u64::MAX).is_none()
}

/// Whether sixty thousand keys that rise or fall with their times, by the step of a row, are handed out in this order. In a tree that
/// isn't balanced the calls would nest too deep.
pub fn keeps_many(alloc: Global, row: &mut Row<'_>) -> Option<bool> {
    let step = row.number::<u32>(" ");
    let rows = in_steps(alloc, 60_000, step).ok()?;
    let mut deadlines = deadlines_of(alloc, rows.as_slice()).ok()?;
    Some(hands_out_all(&mut deadlines, rows.as_slice()))
}

#[test]
fn lifetimes_and_deadlines(rt: HostRuntime) {
    all_hold(&rt, rt.alloc(), Rows::Grants, GRANTS);
    all_hold(&rt, rt.alloc(), Rows::Due, DUE);
    all_hold(&rt, rt.alloc(), Rows::Low, LOW);
    all_hold(&rt, rt.alloc(), Rows::Many, "1\n59999");
}
