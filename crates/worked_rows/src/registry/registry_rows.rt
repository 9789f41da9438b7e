//! What a registry says after entries of all kinds: RFC 8783, sections 5 to 7, and RFC 9132, sections 4.4.1 and 4.5. What the signal
//! channel shows of mitigations stands in `worked_rows`.

use crate::registry::tables::{Part, all_hold};
use std::test::Fail;

/// Lists and aliases stand in order of writing, and one that is written anew comes last. A client that leaves takes its own along,
/// and leaves those of others; what it held doesn't come back with it. Clients of one domain and of one cuid are apart.
const HELD: &str = "\
0 A HTTP REGISTER; 1 A HTTP OK; 2 A HTTP NO ? held A = 0  on --- -o
0 A HTTP REGISTER; 1 A HTTP OK; 2 A HTTP NO; 3 A HTTP OK ? held A = 0  no --- -o
0 A HTTP REGISTER; 1 A HTTP OK; 2 A HTTP NO; 3 A HTTP DROP_OK ? held A = 0  n --- --
0 A HTTP REGISTER; 1 A HTTP WEB; 2 A HTTP DNS ? held A = 0 wd  -2- w-
0 A HTTP REGISTER; 1 A HTTP WEB; 2 A HTTP DNS; 3 A HTTP WEB ? held A = 0 dw  -2- w-
0 A HTTP REGISTER; 1 A HTTP WEB; 2 A HTTP OK; 3 A HTTP DROP_WEB ? held A = 0  o --- -o
0 A HTTP REGISTER; 1 A HTTP WEB; 2 A HTTP OK; 3 A HTTP LEAVE ? held A = -   --- --
0 A HTTP REGISTER; 1 A HTTP WEB; 2 A HTTP OK; 3 A HTTP LEAVE; 4 A HTTP REGISTER ? held A = 0   --- --
0 A HTTP REGISTER; 1 A HTTP WEB; 2 A HTTP OK; 3 B HTTP REGISTER; 4 FAR HTTP REGISTER ? held B = 1   --- --
0 A HTTP REGISTER; 1 A HTTP WEB; 2 A HTTP OK; 3 B HTTP REGISTER; 4 FAR HTTP REGISTER ? held FAR = 2   --- --
0 A HTTP REGISTER; 1 A HTTP WEB; 2 B HTTP REGISTER; 3 FAR HTTP REGISTER; 4 B HTTP LEAVE; 5 FAR HTTP LEAVE ? held A = 0 w  --- w-";

/// A peer has the session configuration that it set last, until it deletes it; what another peer sets is that peer's.
const SESSIONS: &str = "\
0 PEER_0 NON CONFIG_5 ? sid 0 = 5
0 PEER_0 NON CONFIG_5; 1 PEER_0 NON CONFIG_6 ? sid 0 = 6
0 PEER_0 NON CONFIG_5; 1 GATEWAY NON CONFIG_9 ? sid 0 = 5
0 PEER_0 NON CONFIG_5; 1 PEER_0 NON CLEAR ? sid 0 = -";

/// A client registers once, writes nothing before that, and nothing beyond its capacity.
const REGISTERING: &str = "\
0 A HTTP REGISTER; 1 A HTTP REGISTER ? fit = yn
0 A HTTP WEB ? fit = n
0 B HTTP REGISTER; 1 A HTTP OK ? fit = yn
0 A HTTP REGISTER; 1 A HTTP WEB; 2 A HTTP DNS; 3 A HTTP DNS; 4 A HTTP NTP ? fit = yyyyn
0 A HTTP REGISTER; 1 A HTTP WEB; 2 B HTTP REGISTER; 3 B HTTP WEB; 4 A HTTP DNS ? fit = yyyyy";

/// Two live mitigations of a client fit, and three of a domain, where a withdrawn one counts for 120 seconds. Nothing fits that is
/// before the time, of no domain, or outside its own.
const ROOM: &str = "\
800 A NON PUT_1; 800 A NON PUT_2; 1000 A NON PUT_3 ? fit = yyn
800 A NON PUT_1; 800 A NON PUT_2; 880 A NON WITHDRAW_2; 1000 A NON PUT_3 ? fit = yyyy
800 A NON PUT_1; 800 A NON PUT_2; 881 A NON WITHDRAW_2; 1000 A NON PUT_3 ? fit = yyyn
800 A NON PUT_1; 800 A NON PUT_2; 1000 B NON PUT_3; 1000 B NON PUT_4 ? fit = yyyn
800 A NON PUT_1; 800 A NON PUT_2; 1000 B NON PUT_3; 1000 FAR NON PUT_FAR ? fit = yyyy
800 A NON PUT_1; 799 A NON PUT_2 ? fit = yn
1000 NOWHERE NON PUT_3 ? fit = n
1000 A NON PUT_FAR ? fit = n";

/// RFC 8783, section 7.2: a list with `activate-when-mitigating` filters exactly while a mitigation of its client is live, standing or
/// terminating, and one with `deactivate` never; and lists go when their client leaves. RFC 8519, section 2: the first list that
/// matches decides. Lists come before mitigations, of which the greatest mid scrubs whose protocols and ports match.
const FATES: &str = "\
900 A HTTP REGISTER; 901 A HTTP OK; 902 A HTTP NO; 1000 A NON PUT_NET ? fates 4599 = aodndns5s5
900 A HTTP REGISTER; 901 A HTTP OK; 902 A HTTP NO; 1000 A NON PUT_NET ? fates 4600 = aop-p-p-p-
900 A HTTP REGISTER; 901 A HTTP NO; 902 A HTTP OK; 1000 A NON PUT_NET ? fates 1000 = dndndns5s5
900 A HTTP REGISTER; 901 A HTTP OK; 902 A HTTP NO; 1000 A NON PUT_NET; 1100 A NON WITHDRAW_NET ? fates 1219 = aodndns5s5
900 A HTTP REGISTER; 901 A HTTP OK; 902 A HTTP NO; 1000 A NON PUT_NET; 1100 A NON WITHDRAW_NET ? fates 1220 = aop-p-p-p-
900 A HTTP REGISTER; 901 A HTTP OK; 902 A HTTP NO; 1000 A NON PUT_NET; 1100 A HTTP LEAVE ? fates 1100 = s5s5s5s5s5
900 B HTTP REGISTER; 901 B HTTP NO; 1000 A NON PUT_NET ? fates 1000 = s5s5s5s5s5
1000 A NON PUT_NET; 1001 B NON PUT_4 ? fates 1001 = s5s5s5s5s5
900 A HTTP REGISTER; 901 A HTTP OFF; 1000 A NON PUT_NET ? fates 1000 = s5s5s5s5s5
1000 B NON PUT_4; 1001 A NON PUT_NET ? fates 1001 = s5s5s5s5s5
1000 A NON PUT_DNS ? fates 1000 = s6s6p-p-p-
1000 A NON PUT_DNS; 1000 B NON PUT_NET ? fates 1000 = s6s6s5s5s5";

/// RFC 9132, section 4.4.1: a mitigation with `trigger-mitigation` false filters exactly while the signal of its own client peer is lost,
/// and so do the lists that are active while its client mitigates.
const WAITING: &str = "\
1000 A NON WAIT_NET ? fates 1000 = p-p-p-p-p-
1000 A NON WAIT_NET; 1001 PEER_0 HTTP LOST ? fates 1001 = s5s5s5s5s5
1000 A NON WAIT_NET; 1001 PEER_1 HTTP LOST ? fates 1001 = p-p-p-p-p-
1000 A NON WAIT_NET; 1001 PEER_0 HTTP LOST ? fates 4599 = s5s5s5s5s5
1000 A NON WAIT_NET; 1001 PEER_0 HTTP LOST ? fates 4600 = p-p-p-p-p-
1000 A NON WAIT_NET; 1001 PEER_0 HTTP LOST; 1002 PEER_0 HTTP BACK ? fates 1002 = p-p-p-p-p-
1000 A NON WAIT_NET; 1001 PEER_0 HTTP LOST; 1002 PEER_1 HTTP BACK ? fates 1002 = s5s5s5s5s5
1000 PEER_0 HTTP LOST; 1001 A NON WAIT_NET ? fates 1001 = s5s5s5s5s5
1000 A NON PUT_NET; 1001 PEER_0 HTTP BACK ? fates 1001 = s5s5s5s5s5
900 A HTTP REGISTER; 901 A HTTP OK; 902 A HTTP NO; 1000 A NON WAIT_NET ? fates 1000 = aop-p-p-p-
900 A HTTP REGISTER; 901 A HTTP OK; 902 A HTTP NO; 1000 A NON WAIT_NET; 1001 PEER_0 HTTP LOST ? fates 1001 = aodndns5s5
900 A HTTP REGISTER; 901 A HTTP OK; 902 A HTTP NO; 1000 A NON WAIT_NET; 1001 PEER_0 HTTP LOST; 1002 PEER_0 HTTP BACK ? fates 1002 = aop-p-p-p-
1000 PEER_0 HTTP LOST; 1001 PEER_0 HTTP LOST; 1002 PEER_0 HTTP BACK; 1003 PEER_0 HTTP BACK ? fit = yyyy
1000 GATED NON WAIT_NET ? fit = n
1000 A HTTP LOST ? fit = n
1000 GATEWAY HTTP LOST ? fit = n";

/// RFC 9132, section 4.4.1.3: the name of a client that another peer registered is in use.
const JUDGED: &str = "\
0 A HTTP REGISTER ? judge 0 = 9
0 A HTTP REGISTER ? judge 1 = c
0 B HTTP REGISTER ? judge 1 = 9";

#[test]
fn registries_say_what_stands(rt: HostRuntime) -> Result<(), Fail> {
    let tables = [
        ("", HELD),
        ("", SESSIONS),
        ("", REGISTERING),
        ("", ROOM),
        ("", FATES),
        ("", WAITING),
        ("", JUDGED),
    ];
    all_hold(&rt, rt.alloc(), Part::Registry, &tables)
}
