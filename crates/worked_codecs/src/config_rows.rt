//! Which configurations of sessions are taken (RFC 9132, section 4.5.2).

use crate::row::Row;
use crate::tables::{Rows, Worded, all_hold};
use dots_history::{Config, Values};
use dots_keys::{ConfigBody, Offer};
use session_core::{ConfigFault, negotiate};
use std::alloc::Global;

/// What is held in the rows, under whatever `sid`.
const HELD: Values = Values {
    interval: 90,
    missing: 4,
    retransmit: 5,
    timeout: 600,
    factor: 170,
    rate: 8,
};

const NOTHING: Offer = Offer {
    interval: None,
    missing: None,
    retransmit: None,
    timeout: None,
    factor: None,
    rate: None,
};

fn put(offer: &mut Offer, key: &str, value: u64) {
    match key {
        "33" => offer.interval = Some(value),
        "37" => offer.missing = Some(value),
        "38" => offer.retransmit = Some(value),
        "39" => offer.timeout = Some(value),
        "40" => offer.factor = Some(value),
        "50" => offer.rate = Some(value),
        _ => {}
    }
}

/// The values that the next word offers, each behind its key; `-` offers none.
fn offer(row: &mut Row<'_>) -> Offer {
    let mut offer = NOTHING;
    let word = row.text(" ");
    if word != "-" {
        for part in word.split(',') {
            let (key, value) = part.split_once(':').unwrap_or((part, ""));
            put(&mut offer, key, row.read::<u64>(value));
        }
    }
    offer
}

fn judged(held: Option<u32>, sid: u32, body: &ConfigBody) -> Result<Config, ConfigFault> {
    let config = Config {
        mitigating: HELD,
        idle: HELD,
    };
    match held {
        Some(kept) => negotiate(Some((kept, &config)), sid, body),
        None => negotiate(None, sid, body),
    }
}

/// What becomes of the configuration of a row: the `sid` that is held, the one that is given, and what is offered for a mitigation and
/// for idle times.
pub fn outcome(alloc: Global, row: &mut Row<'_>) -> Option<String> {
    let held = row.number_or_none();
    let sid = row.number::<u32>(" ");
    let body = ConfigBody {
        mitigating: offer(row),
        idle: offer(row),
    };
    match judged(held, sid, &body) {
        Ok(_) => String::from_str(alloc, "taken").ok(),
        Err(ConfigFault::Range { key }) => format!(in alloc; "range {key}").ok(),
        Err(ConfigFault::OlderSid { kept }) => format!(in alloc; "older {kept}").ok(),
    }
}

/// Each value is taken from the least to the greatest of its range, in both halves, and refused with its key beside it.
const RANGES: &str = "\
- 1 33:14 - = range 33
- 1 - 33:14 = range 33
- 1 33:15 - = taken
- 1 - 33:15 = taken
- 1 33:240 - = taken
- 1 - 33:240 = taken
- 1 33:241 - = range 33
- 1 - 33:241 = range 33
- 1 37:2 - = range 37
- 1 - 37:2 = range 37
- 1 37:3 - = taken
- 1 - 37:3 = taken
- 1 37:20 - = taken
- 1 - 37:20 = taken
- 1 37:21 - = range 37
- 1 - 37:21 = range 37
- 1 38:1 - = range 38
- 1 - 38:1 = range 38
- 1 38:2 - = taken
- 1 - 38:2 = taken
- 1 38:15 - = taken
- 1 - 38:15 = taken
- 1 38:16 - = range 38
- 1 - 38:16 = range 38
- 1 39:99 - = range 39
- 1 - 39:99 = range 39
- 1 39:100 - = taken
- 1 - 39:100 = taken
- 1 39:3000 - = taken
- 1 - 39:3000 = taken
- 1 39:3001 - = range 39
- 1 - 39:3001 = range 39
- 1 40:109 - = range 40
- 1 - 40:109 = range 40
- 1 40:110 - = taken
- 1 - 40:110 = taken
- 1 40:400 - = taken
- 1 - 40:400 = taken
- 1 40:401 - = range 40
- 1 - 40:401 = range 40
- 1 50:0 - = range 50
- 1 - 50:0 = range 50
- 1 50:1 - = taken
- 1 - 50:1 = taken
- 1 50:100 - = taken
- 1 - 50:100 = taken
- 1 50:101 - = range 50
- 1 - 50:101 = range 50";

/// An interval of 0 is taken, and stands for no heartbeats; no other value may be 0.
const ZERO: &str = "\
- 1 33:0 - = taken
- 1 37:0 - = range 37
- 1 38:0 - = range 38
- 1 39:0 - = range 39
- 1 40:0 - = range 40
- 1 50:0 - = range 50";

/// A higher `sid` that is held comes before any range, and the values of a mitigation before those of idle times.
const FIRST: &str = "\
# the order of a day: an interval of 10, then 60, then 90 under the same sid, 60 under a higher one, and a lower one
- 5 33:10 - = range 33
- 5 33:60 - = taken
5 5 33:90 - = taken
5 6 33:60 - = taken
6 4 33:60 - = older 6
# a value out of its range besides
6 5 33:10 - = older 6
6 6 33:10 - = range 33
6 7 33:10 - = range 33
# a value of either half
- 1 50:0 33:10 = range 50
- 1 33:10 50:0 = range 33
- 1 50:1 33:10 = range 33";

/// Of two values of a half that are out of their ranges the one with the lower key is told.
const LOWER: &str = "\
- 1 - 33:5000,37:5000 = range 33
- 1 - 37:5000,38:5000 = range 37
- 1 - 38:5000,39:5000 = range 38
- 1 - 39:5000,40:5000 = range 39
- 1 - 40:5000,50:5000 = range 40
- 1 - 33:5000,50:5000 = range 33";

/// Whether these values are held for a mitigation and for idle times where these are offered.
fn gives(mitigating: Offer, idle: Offer, want: Config) -> bool {
    match judged(Some(5), 5, &ConfigBody { mitigating, idle }) {
        Ok(config) => config.mitigating == want.mitigating && config.idle == want.idle,
        Err(_) => false,
    }
}

/// What isn't given takes its default, whatever is held.
fn are_defaults() -> bool {
    let default = Values {
        interval: 30,
        missing: 15,
        retransmit: 3,
        timeout: 200,
        factor: 150,
        rate: 5,
    };
    let longer = Values {
        interval: 60,
        ..default
    };
    let given = Offer {
        interval: Some(60),
        ..NOTHING
    };
    let first = Config {
        mitigating: longer,
        idle: default,
    };
    let second = Config {
        mitigating: default,
        idle: longer,
    };
    gives(given, NOTHING, first) && gives(NOTHING, given, second)
}

#[test]
fn configurations_are_judged(rt: HostRuntime) {
    assert!(rt; are_defaults());
    all_hold(&rt, rt.alloc(), Rows::Worded(Worded::Configs), RANGES);
    all_hold(&rt, rt.alloc(), Rows::Worded(Worded::Configs), ZERO);
    all_hold(&rt, rt.alloc(), Rows::Worded(Worded::Configs), FIRST);
    all_hold(&rt, rt.alloc(), Rows::Worded(Worded::Configs), LOWER);
}
