//! What is found again after a restart, which leaves the disk alone.

pub const RESTARTS: &str = "\
$ replay settings
:&

# The time after a restart is that of the restart or of the last entry, whichever is later, and nothing else of the time before is
# kept. So it may fall, and what had ended stands again.
< at 1000 from 0 REQUEST
< at 4599 restart
> to 0 REPLY
= ROW

< at 1000 from 0 REQUEST
< at 4600 restart
> to 0 REPLY

# earlier than the entry
< at 1000 from 0 REQUEST
< at 500 restart
< at 500 from 0 51010002+MITIGATE+CUID+MID_123
> to 0 REPLY
> to 0 51450002+CBOR+a101a10281a505187b06816c3139322e302e322e302f32340e190e100f1903e81002
= ROW

# the mitigation has ended, and 2,600 seconds of it are to come
< at 1000 from 0 REQUEST
< at 4600 tick
< at 4600 from 0 51010002+MITIGATE+CUID+MID_123
< at 2000 restart
< at 2000 from 0 51010003+MITIGATE+CUID+MID_123
> to 0 REPLY
> to 0 518400024aff616273656e74
> to 0 51450003+CBOR+a101a10281a505187b06816c3139322e302e322e302f32340e190a280f1903e81002
= ROW

# before anything was accepted
< at 5000 restart
< at 1000 restart
< at 1000 from 0 REQUEST
< at 1000 from 0 51010002+MITIGATE+CUID+MID_123+43633d6e
> to 0 REPLY
> to 0 51450002+CBOR+a101a10281a305187b0f1903e81002
= ROW

# twice, and nothing between
< at 1000 from 0 REQUEST
< at 1001 restart
< at 1002 restart
> to 0 REPLY
= ROW

# A request that was refused isn't found, and the same message may ask anew.
< at 1000 from 0 START+CUID+MID_123+BODY+81+OUTSIDE+LIFETIME_3600
< at 1005 restart
< at 1005 from 0 51010002+MITIGATE+CUID+MID_123
< at 1010 from 0 REQUEST
> to 0 OUTSIDE_DOMAIN
> to 0 518400024aff616273656e74
> to 0 REPLY
= ROW

# it met the mitigation of another client
< at 1000 from 0 REQUEST
< at 1000 from 1 51030002+MITIGATE+B_7+BODY+816e3139322e302e322e3132382f3235+LIFETIME_3600
< at 1005 restart
< at 1005 from 1 51010003+MITIGATE+B_7
> to 0 REPLY
> to 1 51890002+CBOR+a101a10281a2050711a41201130114187815a106816e3139322e302e322e3132382f3235
> to 1 518400034aff616273656e74
= ROW

# What was accepted is found with all its times: a refresh has the end that it was granted, what was withdrawn is terminating for
# 120 seconds and not longer, and what was asked for in place of another has its place.
< at 1000 from 0 REQUEST
< at 1100 from 0 51030003+MITIGATE+CUID+MID_123+BODY+81+INSIDE+0e191c20
< at 8299 restart
> to 0 REPLY
> to 0 51440003+CBOR+a101a10281a205187b0e191c20
= ROW

< at 1000 from 0 REQUEST
< at 1100 from 0 51030003+MITIGATE+CUID+MID_123+BODY+81+INSIDE+0e191c20
< at 8300 restart
> to 0 REPLY
> to 0 51440003+CBOR+a101a10281a205187b0e191c20

< at 1000 from 0 REQUEST
< at 1100 from 0 51040002+MITIGATE+CUID+MID_123
< at 1150 restart
< at 1219 from 0 51010003+MITIGATE+CUID+MID_123
> to 0 REPLY
> to 0 514200024a
> to 0 51450003+CBOR+a101a10281a505187b06816c3139322e302e322e302f32340e010f1903e81005
= ROW

< at 1000 from 0 REQUEST
< at 1100 from 0 51040002+MITIGATE+CUID+MID_123
< at 1220 restart
> to 0 REPLY
> to 0 514200024a

# the time falls to that of the withdrawal, the last entry
< at 1000 from 0 REQUEST
< at 1100 from 0 51040002+MITIGATE+CUID+MID_123
< at 1220 tick
< at 1000 restart
< at 1000 from 0 51010003+MITIGATE+CUID+MID_123
> to 0 REPLY
> to 0 514200024a
> to 0 500303e8+BEAT+f4
> to 0 51450003+CBOR+a101a10281a505187b06816c3139322e302e322e302f32340e18780f1903e81005
= ROW

< at 1000 from 0 REQUEST
< at 1000 from 0 51030002+MITIGATE+CUID+MID_124+NET1
< at 1005 restart
< at 1005 from 0 51030003+MITIGATE+CUID+MID_123+NET1
> to 0 REPLY
> to 0 51410002+CBOR+a101a10281a205187c0e190e10
> to 0 51890003+CBOR+a101a10281a205187b11a31201130115a105187c
= scrub net1 dz6pHjaADkaFTbjr0JGBpw 124 192.0.2.0/24 any any

# Each domain finds its own, in the order of acceptance; a name stays its peer's, and what meets a mitigation is still refused.
< at 1000 from 0 REQUEST
< at 1000 from 2 START+CUID+MID_123+NET2
< at 1005 restart
< at 1006 from 1 START+CUID+MID_123+NET1
< at 1006 from 1 51030002+MITIGATE+B_7+BODY+816e3139322e302e322e3132382f3235+LIFETIME_3600
> to 0 REPLY
> to 2 REPLY
> to 1 COLLISION
> to 1 51890002+CBOR+a101a10281a2050711a41201130114187815a106816e3139322e302e322e3132382f3235
= ROW
= scrub net2 dz6pHjaADkaFTbjr0JGBpw 123 198.51.100.0/25 any any

# a refresh is a new entry, behind the other
< at 1000 from 0 51030001+MITIGATE+CUID+MID_123+BODY+816c3139322e302e322e302f3235+LIFETIME_3600
< at 1000 from 0 51030002+MITIGATE+CUID+MID_124+BODY+816e3139322e302e322e3132382f3235+LIFETIME_3600
< at 1002 from 0 51030003+MITIGATE+CUID+MID_123+BODY+816c3139322e302e322e302f3235+LIFETIME_3600
< at 1003 restart
< at 1003 from 0 51010004+MITIGATE+CUID+43633d6e
> to 0 51410001+CBOR+a101a10281a205187b0e190e10
> to 0 51410002+CBOR+a101a10281a205187c0e190e10
> to 0 51440003+CBOR+a101a10281a205187b0e190e10
> to 0 51450004+CBOR+a101a10282a305187c0f1903e81002a305187b0f1903e81002
= scrub net1 dz6pHjaADkaFTbjr0JGBpw 124 192.0.2.128/25 any any
= scrub net1 dz6pHjaADkaFTbjr0JGBpw 123 192.0.2.0/25 any any

# A message that comes again after a restart gets the same reply: the mitigation is that of the first, and ends with it.
< at 1000 from 0 REQUEST
< at 1005 restart
< at 1010 from 0 REQUEST
> to 0 REPLY
> to 0 REPLY
= ROW

< at 1000 from 0 REQUEST
< at 1005 restart
< at 1010 from 0 REQUEST
< at 4600 tick
> to 0 REPLY
> to 0 REPLY

# the last second in which it is remembered, and the next
< at 1000 from 0 REQUEST
< at 1145 restart
< at 1145 from 0 REQUEST
< at 4600 tick
> to 0 REPLY
> to 0 REPLY

< at 1000 from 0 REQUEST
< at 1146 restart
< at 1146 from 0 REQUEST
< at 4745 tick
> to 0 REPLY
> to 0 REFRESHED
= ROW

# another message asks for a refresh
< at 1000 from 0 REQUEST
< at 1005 restart
< at 1010 from 0 51030002+MITIGATE+CUID+MID_123+NET1
< at 4609 tick
> to 0 REPLY
> to 0 51440002+CBOR+a101a10281a205187b0e190e10
= ROW";
