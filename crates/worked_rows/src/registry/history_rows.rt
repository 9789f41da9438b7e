//! Which mitigations are live, what is held, which histories are calm, and which packets an entry of an
//! access list matches.

use crate::registry::tables::{Part, Table, all_hold};
use std::test::Fail;

/// RFC 9132, section 4.4.4: a withdrawn mitigation goes on for 120 seconds, and a second withdrawal changes nothing.
/// Section 4.4.1: which mitigation ends an earlier one. RFC 7252, section 4.8.2: how long a message is remembered.
const LIFETIMES: Table = (
    "1000 A NON PUT M123 192.0.2.0/24 HOUR NOW; ",
    "\
- ? live 4599 = y
- ? live 4600 = n
1100 A CON WITHDRAW M123; 1200 A CON WITHDRAW M123 ? live 1219 = y
1100 A CON WITHDRAW M123; 1200 A CON WITHDRAW M123 ? live 1220 = n
1100 A CON WITHDRAW M9 ? live 4599 = y
1100 A NON PUT M123 198.51.100.0/24 HOUR NOW ? ended = y
1100 A NON PUT M124 192.0.2.128/25 HOUR NOW ? ended = y
1100 A NON PUT M124 192.0.0.0/16 HOUR NOW ? ended = y
1100 A NON PUT M124 198.51.100.0/24 HOUR NOW ? ended = n
1100 ELSEWHERE NON PUT M123 192.0.2.0/24 HOUR NOW ? ended = n
1100 A NON WAIT M123 192.0.2.0/24 HOUR NOW ? ended = y
1100 A NON WAIT M124 192.0.2.128/25 HOUR NOW ? ended = n
1100 A CON WITHDRAW M123 ? 330 1145 = - 1000
1100 A CON WITHDRAW M123 ? 330 1146 = - -
1100 A CON WITHDRAW M123 ? 331 1347 = 1100 1100
1100 A CON WITHDRAW M123 ? 331 1348 = - -",
);

const BOUNDS: Table = (
    "",
    "\
281474976710655 A NON PUT M123 192.0.2.0/24 HOUR NOW ? bounded = y
281474976710656 A NON PUT M123 192.0.2.0/24 HOUR NOW ? bounded = n",
);

/// A refresh takes the place of the first grant: mid 123 ends at 8300.
const REFRESHED: Table = (
    "1000 A NON PUT M123 192.0.2.0/24 HOUR NOW; 1100 A NON PUT M123 192.0.2.0/24 TWO_HOURS NOW; ",
    "\
- ? mitigations 1100 = 1
- ? mitigations 8299 = 1
- ? mitigations 8300 = 0",
);

/// A client that leaves takes its aliases and lists along, and they don't come back with it (RFC 8783, sections 5.2, 6.3
/// and 7.2).
const HELD: Table = (
    "",
    "\
1000 A HTTP WEB ? copied = 1
1000 A HTTP WEB ? held = 1
1000 A HTTP WEB; 1001 A HTTP DROP_WEB ? held = 0
1000 A HTTP WEB; 1000 A HTTP NO; 1001 A HTTP LEAVE; 1002 A HTTP REGISTER ? held = 1
1000 A HTTP NO; 1000 A HTTP OK; 1001 A HTTP DROP_NO ? held = 1
1000 PEER_0 HTTP LOST; 1001 PEER_0 HTTP LOST ? held = 1
1000 PEER_0 HTTP LOST; 1001 PEER_1 HTTP BACK ? held = 1
1000 PEER_0 HTTP LOST; 1001 PEER_0 HTTP BACK ? held = 0",
);

/// Of the first rows each but the first is refused at its last entry, though what the first refused one comes to at 50 seconds
/// keeps the capacity. Of a client that registers and leaves the view names the last entry alone, which is calm though nobody
/// is registered.
///
/// A session configuration that is set in one domain and cleared in another isn't held, but it is by the entries of its
/// domain alone. With one message remembered, peer 0 puts mid 1 for ever, and peer 1 withdraws mid 1 and then mid 2: the view
/// names the first and the last, by which mid 1 would stand again. Neither history is calm.
const CALM: Table = (
    "",
    "\
0 PEER_0 CON CONFIG_9; 1 A HTTP REGISTER; 2 A HTTP WEB; 3 A NON PUT M1 192.0.2.0/24 HUNDRED NOW; 4 A NON PUT M2 192.0.2.0/24 HUNDRED NOW; \
5 B HTTP REGISTER; 200 B NON PUT M1 192.0.2.0/24 HUNDRED NOW ? calm = y
0 A NON PUT M1 192.0.2.0/24 SECOND NOW; 0 B NON PUT M1 192.0.2.1/32 HUNDRED NOW ? calm = n
0 A HTTP WEB; 0 A HTTP REGISTER ? calm = n
0 A HTTP REGISTER; 1 A HTTP REGISTER ? calm = n
0 A NON PUT M1 192.0.2.0/24 HUNDRED NOW; 1 STRAYED CON WITHDRAW M2 ? calm = n
281474976710656 A NON PUT M1 192.0.2.0/24 HUNDRED NOW ? calm = n
5 A NON PUT M1 192.0.2.0/24 HUNDRED NOW; 4 A CON WITHDRAW M1 ? calm = n
0 A NON PUT M1 198.51.100.0/24 HUNDRED NOW ? calm = n
0 A HTTP REGISTER; 1 A HTTP LEAVE ? calm = y
0 PEER_0 HTTP LOST; 1 PEER_0 HTTP BACK ? calm = y
0 A HTTP LOST ? calm = n
1 A HTTP LEAVE ? calm = y
0 PEER_0 CON CONFIG_9; 1 AWAY CON CLEAR ? held = 0
0 PEER_0 CON CONFIG_9 ? held = 1
0 PEER_0 CON CONFIG_9; 1 AWAY CON CLEAR ? calm = n
0 A NON PUT M1 192.0.2.0/24 EVER NOW; 1 STRAYED CON WITHDRAW M1; 200 STRAYED CON WITHDRAW M2 ? mitigations 200 = 0
0 A NON PUT M1 192.0.2.0/24 EVER NOW; 200 STRAYED CON WITHDRAW M2 ? mitigations 200 = 1
0 A NON PUT M1 192.0.2.0/24 EVER NOW; 1 STRAYED CON WITHDRAW M1; 200 STRAYED CON WITHDRAW M2 ? calm = n",
);

/// Which packets an entry matches (RFC 8783, section 7.2; RFC 8519, section 4.2). An entry without a destination matches what goes to
/// the domain, in the list's family. A packet without ports fails every test of a port.
const MATCHES: Table = (
    "",
    "\
0 A HTTP LIST_V4 FROM_113 ANY ANY ANY ANY ACCEPTS ? matches = yny
0 A HTTP LIST_V4 FROM_112 ANY ANY ANY ANY ACCEPTS ? matches = nnn
0 A HTTP LIST_V4 ANY TO_80 ANY ANY ANY ACCEPTS ? matches = yyy
0 A HTTP LIST_V4 ANY TO_81 ANY ANY ANY ACCEPTS ? matches = nnn
0 A HTTP LIST_V4 ANY ANY UDP ANY ANY ACCEPTS ? matches = yny
0 A HTTP LIST_V4 ANY ANY TCP ANY ANY ACCEPTS ? matches = nnn
0 A HTTP LIST_V4 ANY ANY ANY ANY ANY ACCEPTS ? matches = yny
0 A HTTP LIST_V6 ANY ANY ANY ANY ANY ACCEPTS ? matches = nnn
0 A HTTP LIST_V4 ANY ANY ANY IS_123 ANY ACCEPTS ? matches = ynn
0 A HTTP LIST_V4 ANY ANY ANY IS_80 ANY ACCEPTS ? matches = nnn
0 A HTTP LIST_V4 ANY ANY ANY ISNT_123 ANY ACCEPTS ? matches = nnn
0 A HTTP LIST_V4 ANY ANY ANY ISNT_10 ANY ACCEPTS ? matches = ynn
0 A HTTP LIST_V4 ANY ANY ANY UP_TO_123 ANY ACCEPTS ? matches = ynn
0 A HTTP LIST_V4 ANY ANY ANY FROM_124 ANY ACCEPTS ? matches = nnn
0 A HTTP LIST_V4 ANY ANY ANY IN_100_TO_123 ANY ACCEPTS ? matches = ynn",
);

#[test]
fn histories_come_to_this(rt: HostRuntime) -> Result<(), Fail> {
    let tables = [LIFETIMES, BOUNDS, REFRESHED, HELD, CALM, MATCHES];
    all_hold(&rt, rt.alloc(), Part::History, &tables)
}
