//! What observers are told, when messages are sent again, and which repeats are known.

use crate::registry::tables::{Part, Table, all_hold};
use std::test::Fail;

/// The day of one network: mid 1 is observed from 28800 on. Refreshes change nothing that is told, the withdrawal at 40000 is told
/// with the next number, and when the mitigation is over the observer is told so and goes.
const A_DAY: Table = (
    "",
    "see 1:2; register 0 0 1; see 1:2; notify 1; see 1:5; notify 1; notify 2; see nothing; notify 2; notify 3 = r1--12--10--",
);

/// On such a day a reset of the notification of 40000, which had Message ID 1, ends the observation, so that nothing is told when the
/// mitigation is over. One of another message ends nothing.
const A_DAY_WITH_A_RESET: Table = (
    "see 1:2; register 0 0 1; see 1:5; notify 1; ",
    "\
reset 0 1; see nothing; notify 2 = r112--
reset 0 2; see nothing; notify 2 = r11210",
);

/// Two observers of peer 0 are there, the first was told of a change before, with Message ID 7. A third has no room, but each of the
/// two may register again, and its numbers go on. Another peer has room of its own. The notification with Message ID 7 was to the
/// first, and one with 9 there was none. One that was told is due again only when something changes.
const TWO_OF_A_PEER: Table = (
    "see 1:2; register 0 0 1; register 0 0 2; see 1:5; notify 7; ",
    "\
notify 8; register 0 0 3 = r1r11222r0
notify 8; register 0 0 1 = r1r11222r3
notify 8; register 0 0 2 = r1r11222r3
notify 8; register 1 0 3 = r1r11222r1
reset 0 7; register 0 0 3 = r1r112r1
reset 0 9; register 0 0 3 = r1r112r0
reset 1 7; register 0 0 3 = r1r112r0
deregister 0 2; notify 8 = r1r112--
deregister 0 1; notify 8 = r1r11222
notify 8; notify 9 = r1r11222--
see 1:5,2:2; notify 8 = r1r11213",
);

/// A gateway's observer that registers with its token for another domain moves there, with its numbers.
const A_GATEWAY: Table = (
    "register 3 0 1; register 3 0 2; ",
    "\
register 3 1 1 = r1r1r2
register 3 0 4 = r1r1r0
register 3 1 4 = r1r1r1",
);

/// The first of four observers goes, and the others move down and are found where they then stand: the second was told of a change
/// with Message ID 7.
const MOVING_DOWN: Table = (
    "see 1:2; register 0 0 1; register 1 0 2; register 3 0 3; register 3 1 4; deregister 0 1; see 1:5; notify 7; ",
    "\
deregister 3 3; notify 8 = r1r1r1r12242
notify 8; notify 9 = r1r1r1r1223242
reset 1 7; notify 8 = r1r1r1r12232
reset 1 7; register 1 0 2 = r1r1r1r122r1
deregister 0 1; register 1 0 2 = r1r1r1r122r3
deregister 3 3; register 3 1 4 = r1r1r1r122r2
register 3 0 4; notify 8 = r1r1r1r122r232",
);

/// One that registers after another has gone is the last, and one that registers again keeps its place.
const THE_LAST: Table = (
    "see 1:2; register 0 0 1; register 1 0 2; deregister 0 1; register 3 0 3; register 0 0 4; register 1 0 2; see 1:5; ",
    "notify 7; notify 8; notify 9; notify 10 = r1r1r1r1r2233242--",
);

/// Where one domain alone may have changed, only its observers are looked at.
const ONE_DOMAIN: Table = (
    "see 1:2; register 0 0 1; register 3 1 4; register 3 0 3; see 1:5; ",
    "among 1 7; among 1 8; among 0 9; notify 10; notify 11 = r1r1r142--1232--",
);

#[test]
fn observers_are_notified(rt: HostRuntime) -> Result<(), Fail> {
    let tables = [
        A_DAY,
        A_DAY_WITH_A_RESET,
        ONE_DOMAIN,
        TWO_OF_A_PEER,
        A_GATEWAY,
        MOVING_DOWN,
        THE_LAST,
    ];
    all_hold(&rt, rt.alloc(), Part::Observers, &tables)
}

/// Two messages were given at 10,000 with the words 0 and 1000, so their first timeouts are 3,000 and 4,000 milliseconds. Each is
/// repeated after one, three and seven of these, and given up after fifteen.
///
/// Where several times have passed, each call goes on by one, and the message that was given first comes first.
///
/// What is acknowledged isn't sent again, and there is no room for a third message while two wait.
const SENT_AGAIN: Table = (
    "send 1 7 0; send 2 8 1000; ",
    "\
at 12999; at 13000; at 13999; at 14000; at 18999; at 19000; at 22000; at 31000; at 38000; at 54999; at 55000; at 69999; at 70000; at 100000 = yy--m1--m2--m1m2m1m2--x7--x8--
at 100000; at 100000; at 100000; at 100000; at 100000; at 100000; at 100000; at 100000; at 100000 = yym1m1m1x7m2m2m2x8--
acknowledged 7; send 3 9 0; at 20000 = yyyym2
acknowledged 9; send 3 9 0; at 20000 = yynnm1",
);

#[test]
fn messages_are_sent_again(rt: HostRuntime) -> Result<(), Fail> {
    all_hold(&rt, rt.alloc(), Part::Sender, &[SENT_AGAIN])
}

/// Message 1 is known for 145 seconds where it was non-confirmable and for 247 where it was confirmable (RFC 7252, section 4.8.2).
///
/// The age is that of the entry that is looked at: a repeat that was remembered anew is known for its own time.
///
/// Peers and domains that the settings don't put together have nothing.
const KNOWN: Table = (
    "",
    "\
non 0 0 1 1000 0 7; look 0 0 1 1000; look 0 0 1 1145; look 0 0 1 1146 = 77-
con 0 0 1 1000 0 7; look 0 0 1 1247; look 0 0 1 1248 = 7-
non 0 0 2 1000 0 7; look 0 0 1 1000 = -
http 0 0 0 1000 0 7; look 0 0 1 1000 = -
con 0 0 1 1000 0 7; non 0 0 1 1010 1 8; look 0 0 1 1155; look 0 0 1 1156; look 0 0 1 1247; look 0 0 1 1248 = 877-
look 0 1 1 0; look 1 65535 1 0; look 2 0 1 0; look 3 2 1 0 = ----",
);

/// Of two remembered ones the last that counts is taken, an older one is forgotten, and each peer and domain has its own two.
const THE_LAST_TWO: Table = (
    "non 0 0 1 1000 0 7; non 0 0 2 1000 1 8; ",
    "\
non 0 0 3 1000 2 9; look 0 0 1 1000; look 0 0 2 1000 = -8
non 0 0 2 1000 2 9; look 0 0 2 1000 = 9
non 1 0 2 1000 2 9; look 0 0 1 1000; look 1 0 2 1000 = 79
non 3 0 2 1000 2 9; look 3 0 2 1000 = 9
non 3 1 2 1000 2 9; look 3 0 2 1000 = -
non 3 65535 2 1000 2 9; look 3 65535 2 1000 = 9
moved 0 1; look 0 0 2 1000 = 8",
);

#[test]
fn repeats_are_known(rt: HostRuntime) -> Result<(), Fail> {
    all_hold(&rt, rt.alloc(), Part::Repeats, &[KNOWN, THE_LAST_TWO])
}
