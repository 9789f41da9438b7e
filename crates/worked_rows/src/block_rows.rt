//! Replies in blocks.

pub const BLOCKS: &str = "\
$ replay settings
:&

# The first block of 16 bytes says that more follow, and the last that none do.
< at 1000 from 0 REQUEST
< at 1100 from 0 51010020+MITIGATE+CUID+MID_123+c0
< at 1101 from 0 51010022+MITIGATE+CUID+MID_123+c120
> to 0 REPLY
> to 0 514500204ac2010fb108ffa101a10281a505187b06816c3139322e
> to 0 514500224ac2010fb120ff1002
= ROW

# A later block is cut from the body that the first was cut from: 3,500 s were left then, and 3,499 now.
< at 1000 from 0 REQUEST
< at 1100 from 0 51010020+MITIGATE+CUID+MID_123+c0
< at 1101 from 0 51010022+MITIGATE+CUID+MID_123+c110
> to 0 REPLY
> to 0 514500204ac2010fb108ffa101a10281a505187b06816c3139322e
> to 0 514500224ac2010fb118ff302e322e302f32340e190dac0f1903e8
= ROW

# and without a first one from the body of its own reply
< at 1000 from 0 REQUEST
< at 1101 from 0 51010022+MITIGATE+CUID+MID_123+c110
> to 0 REPLY
> to 0 514500224ac2010fb118ff302e322e302f32340e190dab0f1903e8
= ROW

# as after a restart
< at 1000 from 0 REQUEST
< at 1100 from 0 51010020+MITIGATE+CUID+MID_123+c0
< at 1101 restart
< at 1102 from 0 51010022+MITIGATE+CUID+MID_123+c110
> to 0 REPLY
> to 0 514500204ac2010fb108ffa101a10281a505187b06816c3139322e
> to 0 514500224ac2010fb118ff302e322e302f32340e190daa0f1903e8
= ROW

# to another peer, which asks by the same path and query
< at 1000 from 0 REQUEST
< at 1000 from 2 START+CUID+MID_123+NET2
< at 1100 from 0 51010020+MITIGATE+CUID+MID_123+c0
< at 1101 from 2 51010020+MITIGATE+CUID+MID_123+c110
> to 0 REPLY
> to 2 REPLY
> to 0 514500204ac2010fb108ffa101a10281a505187b06816c3139322e
> to 2 514500204ac2010fb118ff35312e3130302e302f32350e190dab0f
= ROW
= scrub net2 dz6pHjaADkaFTbjr0JGBpw 123 198.51.100.0/25 any any

# and for another path, by which the body that is stored isn't lost
< at 1000 from 0 REQUEST
< at 1000 from 0 51030002+ASK_SECOND
< at 1100 from 0 51010020+MITIGATE+CUID+MID_123+c0
< at 1101 from 0 51010021+MITIGATE+CUID+MID_124+c110
< at 1102 from 0 51010022+MITIGATE+CUID+MID_123+c110
> to 0 REPLY
> to 0 51410002+CBOR+a101a10281a205187c0e190e10
> to 0 514500204ac2010fb108ffa101a10281a505187b06816c3139322e
> to 0 514500214ac2010fb118ff3a6462383a313a3a2f36340e190dab0f
> to 0 514500224ac2010fb118ff302e322e302f32340e190dac0f1903e8
= ROW
= ROW_SECOND

# A block that begins behind the body isn't there, nor is one of a size that there isn't.
< at 1000 from 0 REQUEST
< at 1100 from 0 51010024+MITIGATE+CUID+MID_123+c130
< at 1100 from 0 51010026+MITIGATE+CUID+MID_123+c107
> to 0 REPLY
> to 0 518000244aff626c6f636b
> to 0 518000264aff626c6f636b
= ROW

# What isn't there has no blocks.
< at 1100 from 0 51010020+MITIGATE+CUID+MID_123+c0
> to 0 518400204aff616273656e74

# A notification that isn't long leaves whole, whatever block its observer asked for. What is stored for its peer stays.
< at 1000 from 0 REQUEST
< at 1001 from 0 51010002+OBSERVE+CUID+MID_123+c0
< at 1010 from 0 51040003+MITIGATE+CUID+MID_123
< at 1011 from 0 51010004+MITIGATE+CUID+MID_123+c110
> to 0 REPLY
> to 0 514500024a610162010fb108ffa101a10281a505187b06816c3139322e
> to 0 514200034a
> to 0 514503e84a6102+SEEN+a101a10281a505187b06816c3139322e302e322e302f32340e18780f1903e81005
> to 0 514500044ac2010fb118ff302e322e302f32340e190e0f0f1903e8
= ROW

# Block2 is critical, and no request but a GET may have it.
< at 1000 from 0 41030001+MITIGATE+CUID+MID_123+12010fb0ffa101a10281a206+81+INSIDE+LIFETIME_3600
> to 0 618200014aff6f7074696f6e203233";
