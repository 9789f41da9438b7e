//! What of a journal a server finds once it went over to other settings, by the operator's manual.

use crate::registry::moved::is_found;
use crate::registry::texts::SETTINGS;
use std::alloc::Global;
use std::process::Abort;
use std::test::Fail;

/// What stands goes over; what is over only where it is among the last two messages of its peer.
const SAME: &str = "\
1100 ? 800 A NON PUT_1; 900 A HTTP REGISTER; 901 A HTTP WEB; 1000 FAR NON PUT_FAR = \
800 A NON PUT_1; 900 A HTTP REGISTER; 901 A HTTP WEB; 1000 FAR NON PUT_FAR
1150 ? 1000 A NON PUT_NET; 1100 A CON WITHDRAW_NET = 1000 A NON PUT_NET; 1100 A CON WITHDRAW_NET
9000 ? 800 A NON PUT_1; 1000 A NON PUT_3; 1001 A CON WITHDRAW_2; 1002 B HTTP REGISTER = \
1000 A NON PUT_3; 1001 A CON WITHDRAW_2; 1002 B HTTP REGISTER
900 ? - = -";

/// A domain stands in front, and the two that were there have changed places.
const SWAPPED: &str = "\
domain net0
domain net2
domain net1
client 4 net0
client 2 net2
client 1 net1
client 0 net1
gateway 3
prefix net0 203.0.113.0/24
prefix net1 192.0.2.0/24
prefix net2 198.51.100.0/24
capacity aliases 2
capacity client-mitigations 2
capacity domain-mitigations 3
capacity remembered 2
capacity observers 2
";

/// Domains are found by their names: the cuid `a` of the first is that of the third then.
const BY_NAME: &str = "\
1100 ? 800 A NON PUT_1; 900 A HTTP REGISTER; 901 A HTTP WEB; 1000 FAR NON PUT_FAR; 1001 PEER_0 NON CONFIG_5 = \
800 0000000000020161 NON PUT_1; 900 0000000000020161 HTTP REGISTER; 901 0000000000020161 HTTP WEB; 1000 FAR NON PUT_FAR; \
1001 00000000000200 NON CONFIG_5
1100 ? 1000 GATED NON PUT_NET; 1001 GATEWAY NON CONFIG_9 = 1000 0000000300020161 NON PUT_NET; 1001 GATEWAY NON CONFIG_9";

/// The second domain is gone, a peer, half of the addresses, and room for all aliases but one.
const LESS: &str = "\
domain net1
prefix net1 192.0.2.0/25
client 0 net1
gateway 3
capacity aliases 1
capacity client-mitigations 2
capacity domain-mitigations 3
capacity remembered 2
capacity observers 2
";

/// What the settings don't have is left out, and nothing stands again for that.
const LEFT: &str = "\
1100 ? 800 A NON PUT_1; 1000 FAR NON PUT_FAR = 800 A NON PUT_1
1100 ? 800 A NON PUT_1; 1000 B NON PUT_4 = 800 A NON PUT_1
1100 ? 900 A HTTP REGISTER; 901 A HTTP WEB; 902 A HTTP DNS = 900 A HTTP REGISTER; 901 A HTTP WEB
1100 ? 800 A NON PUT_1; 1000 A CON PUT_NET = -
1100 ? 800 A NON PUT_1; 1000 A CON PUT_3 = 800 A NON PUT_1; 1000 A CON PUT_3";

/// Each row holds, of journals of these settings.
fn all_found(rt: &impl Abort, alloc: Global, new: &str, rows: &str) -> Result<(), Fail> {
    for row in rows.lines() {
        assert!(rt; is_found(alloc, SETTINGS, new, row)?, "at {row}");
    }
    Ok(())
}

#[test]
fn what_counts_goes_over(rt: HostRuntime) -> Result<(), Fail> {
    all_found(&rt, rt.alloc(), SETTINGS, SAME)?;
    all_found(&rt, rt.alloc(), SWAPPED, BY_NAME)?;
    all_found(&rt, rt.alloc(), LESS, LEFT)
}
