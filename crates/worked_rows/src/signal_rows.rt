//! Mitigations that wait for a lost signal.

pub const SIGNALS: &str = "\
$ replay settings
:&

# A mitigation that waits is granted and shown with `trigger-mitigation` false and status 8, and filters nothing.
< at 1000 from 0 51030001+MITIGATE+CUID+MID_123+NET1_WAITS
< at 1000 from 0 51010002+MITIGATE+CUID+MID_123
> to 0 REPLY
> to 0 51450002+CBOR+a101a10281a605187b06816c3139322e302e322e302f32340e190e100f1903e81008182df4

# It filters once its client wasn't heard for more than 15 intervals, and not a second before.
< at 1000 from 0 51030001+MITIGATE+CUID+MID_123+NET1_WAITS
< at 1450 tick
> to 0 REPLY
> to 0 500303e8+BEAT+f4

< at 1000 from 0 51030001+MITIGATE+CUID+MID_123+NET1_WAITS
< at 1450 tick
< at 1451 tick
< at 1452 tick
> to 0 REPLY
> to 0 500303e8+BEAT+f4
= ROW

# It filters on after a restart, until its client is heard.
< at 1000 from 0 51030001+MITIGATE+CUID+MID_123+NET1_WAITS
< at 1450 tick
< at 1451 tick
< at 1455 restart
< at 1456 tick
> to 0 REPLY
> to 0 500303e8+BEAT+f4
= ROW

< at 1000 from 0 51030001+MITIGATE+CUID+MID_123+NET1_WAITS
< at 1450 tick
< at 1451 tick
< at 1455 restart
< at 1460 from 0 51030009+BEAT_4A+f5
> to 0 REPLY
> to 0 500303e8+BEAT+f4
> to 0 514400094a

# Whatever can be read is heard, what is refused, too. What can't be read isn't, nor is what another peer of the domain sends.
< at 1000 from 0 51030001+MITIGATE+CUID+MID_123+NET1_WAITS
< at 1500 tick
< at 1501 from 0 400112
< at 1502 from 1 40001234
> to 0 REPLY
> to 1 70001234
= ROW

< at 1000 from 0 51030001+MITIGATE+CUID+MID_123+NET1_WAITS
< at 1500 tick
< at 1501 from 0 510300094abb2e77656c6c2d6b6e6f776e04646f747303686262
> to 0 REPLY
> to 0 518400094aff70617468

# Who reads it is heard by that, and so reads that it waits. An observer is told that it filters, with status 2, and that it waits again.
< at 1000 from 0 51030001+MITIGATE+CUID+MID_123+NET1_WAITS
< at 1500 tick
< at 1501 from 0 51010002+MITIGATE+CUID+MID_123
> to 0 REPLY
> to 0 51450002+CBOR+a101a10281a605187b06816c3139322e302e322e302f32340e190c1b0f1903e81008182df4

< at 1000 from 0 51030001+MITIGATE+CUID+MID_123+NET1_WAITS
< at 1001 from 0 51010002+OBSERVE+CUID+MID_123+43633d6e
< at 1500 tick
< at 1501 from 0 40001234
> to 0 REPLY
> to 0 514500024a6101+SEEN+a101a10281a305187b0f1903e81008
> to 0 514503e84a6102+SEEN+a101a10281a305187b0f1903e81002
> to 0 70001234
> to 0 514503e94a6103+SEEN+a101a10281a305187b0f1903e81008

# After a restart a session begins at the first tick, so that a silence is noticed by a server that heard nobody.
< at 1000 from 0 51030001+MITIGATE+CUID+MID_123+NET1_WAITS
< at 1001 restart
< at 1010 tick
< at 1460 tick
> to 0 REPLY
> to 0 500303f2+BEAT+f4

< at 1000 from 0 51030001+MITIGATE+CUID+MID_123+NET1_WAITS
< at 1001 restart
< at 1010 tick
< at 1460 tick
< at 1461 tick
> to 0 REPLY
> to 0 500303f2+BEAT+f4
= ROW

# One that waits and one that filters at once stand beside each other, each by its own rule; and a mitigation doesn't change from one to the other.
< at 1000 from 0 51030001+MITIGATE+CUID+MID_123+NET1_WAITS
< at 1000 from 0 51030002+MITIGATE+CUID+MID_124+NET1
< at 1001 from 0 51030003+MITIGATE+CUID+MID_123+NET1
> to 0 REPLY
> to 0 51410002+CBOR+a101a10281a205187c0e190e10
> to 0 518000034aff6368616e676564
= scrub net1 dz6pHjaADkaFTbjr0JGBpw 124 192.0.2.0/24 any any

< at 1000 from 0 51030001+MITIGATE+CUID+MID_123+NET1_WAITS
< at 1000 from 0 51030002+MITIGATE+CUID+MID_124+NET1
< at 1500 tick
> to 0 REPLY
> to 0 51410002+CBOR+a101a10281a205187c0e190e10
= ROW
= scrub net1 dz6pHjaADkaFTbjr0JGBpw 124 192.0.2.0/24 any any

# Of two that wait and overlap the later one ends the other, and it filters in its place.
< at 1000 from 0 51030001+MITIGATE+CUID+MID_123+NET1_WAITS
< at 1000 from 0 51030002+MITIGATE+CUID+MID_124+NET1_WAITS
< at 1500 tick
> to 0 REPLY
> to 0 51410002+CBOR+a101a10281a205187c0e190e10
= scrub net1 dz6pHjaADkaFTbjr0JGBpw 124 192.0.2.0/24 any any

# Two clients are lost at one tick, and one of them is heard again.
< at 1000 from 0 51030001+MITIGATE+CUID+MID_123+NET1_WAITS
< at 1000 from 2 51030001+MITIGATE+CUID+MID_123+NET2_WAITS
< at 1500 tick
> to 0 REPLY
> to 2 REPLY
= ROW
= scrub net2 dz6pHjaADkaFTbjr0JGBpw 123 198.51.100.0/25 any any

< at 1000 from 0 51030001+MITIGATE+CUID+MID_123+NET1_WAITS
< at 1000 from 2 51030001+MITIGATE+CUID+MID_123+NET2_WAITS
< at 1500 tick
< at 1501 from 2 40001234
> to 0 REPLY
> to 2 REPLY
> to 2 70001234
= ROW

# A gateway's signal says nothing of the clients behind it, so none of its mitigations waits.
< at 1000 from 3 START+CDID_NET1+CUID+MID_123+NET1_WAITS
> to 3 518000014aff696e76616c6964203435

# A client with nothing that waits is lost without a trace.
< at 1000 from 0 REQUEST
< at 1500 tick
< at 1501 from 0 40001234
> to 0 REPLY
> to 0 70001234
= ROW";
