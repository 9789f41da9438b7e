//! Scopes with host names, ports and protocols; lifetimes.

/// Host names inside the domain of the client, outside it, and with an address that is no target; two sample packets; and
/// lifetimes without end.
pub const SCOPES: &str = "\
$ replay settings
: domain net1
: prefix net1 192.0.2.0/24
: prefix net1 2001:db8:1::/48
: client 0 net1
: name www.example.net 192.0.2.80/32
: name www.example.net 2001:db8:1::80/128
: name out.example.net 198.51.100.9/32
: name both.example.net 192.0.2.81/32
: name both.example.net 127.0.0.1/32
: indefinite yes
: packet 203.0.113.5 192.0.2.9 17 4000 53
: packet 203.0.113.5 192.0.2.9 1 - -

# a name
< at 1000 from 0 HEAD+MID_123+12010fffa101a10281+a20b816f7777772e6578616d706c652e6e65740e190e10
> to 0 REPLY
= scrub net1 dz6pHjaADkaFTbjr0JGBpw 123 192.0.2.80/32 any any
= scrub net1 dz6pHjaADkaFTbjr0JGBpw 123 2001:db8:1::80/128 any any
= packet 1 pass
= packet 2 pass

# the same in capitals
< at 1000 from 0 HEAD+MID_123+12010fffa101a10281+a20b816f5757572e4578616d706c652e4e45540e190e10
> to 0 REPLY
= scrub net1 dz6pHjaADkaFTbjr0JGBpw 123 192.0.2.80/32 any any
= scrub net1 dz6pHjaADkaFTbjr0JGBpw 123 2001:db8:1::80/128 any any
= packet 1 pass
= packet 2 pass

# two lines of a name, whose letters stand in another case in each
: name WWW.example 192.0.2.1/32
: name www.Example 192.0.2.2/32
< at 1000 from 0 HEAD+MID_123+12010fffa101a10281+a20b816b7777772e4558414d504c450e190e10
> to 0 REPLY
= scrub net1 dz6pHjaADkaFTbjr0JGBpw 123 192.0.2.1/32 any any
= scrub net1 dz6pHjaADkaFTbjr0JGBpw 123 192.0.2.2/32 any any
= packet 1 pass
= packet 2 pass

# names whose address may not be asked for
< at 1000 from 0 HEAD+MID_123+12010fffa101a10281+a20b816f6f75742e6578616d706c652e6e65740e190e10
> to 0 OUTSIDE_DOMAIN
= packet 1 pass
= packet 2 pass

< at 1000 from 0 HEAD+MID_123+12010fffa101a10281+a20b8170626f74682e6578616d706c652e6e65740e190e10
> to 0 NOT_A_TARGET
= packet 1 pass
= packet 2 pass

# one that the settings don't have
< at 1000 from 0 HEAD+MID_123+12010fffa101a10281+a20b816e6e6f2e6578616d706c652e6e65740e190e10
> to 0 UNKNOWN_NAME
= packet 1 pass
= packet 2 pass

# a prefix at fault comes before a name at fault
< at 1000 from 0 HEAD+MID_123+12010fffa101a10281+a306816c3132372e302e302e312f33320b816e6e6f2e6578616d706c652e6e65740e190e10
> to 0 NOT_A_TARGET
= packet 1 pass
= packet 2 pass

# ports and protocols
< at 1000 from 0 HEAD+MID_123+12010fffa101a10281+a406816c3139322e302e322e302f32340782a2081850091851a1081901bb0a8206110e190e10
> to 0 REPLY
= scrub net1 dz6pHjaADkaFTbjr0JGBpw 123 192.0.2.0/24 6,17 80-81,443-443
= packet 1 pass
= packet 2 pass

# an alias
< at 1000 from 0 HEAD+MID_123+12010fffa101a10281+a20d81637765620e190e10
> to 0 UNKNOWN_ALIAS
= packet 1 pass
= packet 2 pass

# A lifetime without end is granted where the settings say so.
< at 1000 from 0 HEAD+MID_123+12010fffa101a10281a206816c3139322e302e322e302f32340e+20
< at 86000 from 77 00
> to 0 514100014ac2010fffa101a10281a205187b0e20
= ROW
= packet 1 scrubbed 123
= packet 2 scrubbed 123";

pub const LIFETIMES: &str = "\
$ replay settings
:&

# A lifetime is cut to the ceiling.
# invalid 14
< at 1000 from 0 HEAD+MID_123+12010fffa101a10281a206816c3139322e302e322e302f32340e+00
< at 86000 from 77 00
> to 0 518000014aff696e76616c6964203134

< at 1000 from 0 HEAD+MID_123+12010fffa101a10281a206816c3139322e302e322e302f32340e+21
< at 86000 from 77 00
> to 0 518000014aff696e76616c6964203134

< at 1000 from 0 HEAD+MID_123+12010fffa101a10281a206816c3139322e302e322e302f32340e+20
< at 86000 from 77 00
> to 0 514100014ac2010fffa101a10281a205187b0e1a00015180
= ROW

< at 1000 from 0 HEAD+MID_123+12010fffa101a10281a206816c3139322e302e322e302f32340e+1a7fffffff
< at 86000 from 77 00
> to 0 514100014ac2010fffa101a10281a205187b0e1a00015180
= ROW";
