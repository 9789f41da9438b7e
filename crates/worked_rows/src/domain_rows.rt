//! Domains, their clients and gateways, and prefixes of the second family.

pub const DOMAINS: &str = "\
$ replay settings
:&

# A gateway names the domain by `cdid`; without one, or with that of no domain, it asks for none. A client asks for its own domain,
# whatever its `cdid` says.
< at 1000 from 3 START+CDID_NET2+CUID+MID_123+NET2
> to 3 REPLY
= scrub net2 dz6pHjaADkaFTbjr0JGBpw 123 198.51.100.0/25 any any

< at 1000 from 3 START+CUID+MID_123+NET2
> to 3 NO_PARAMETER

< at 1000 from 3 START+CDID_NET9+CUID+MID_123+NET2
> to 3 NO_PARAMETER

< at 1000 from 0 START+CDID_NET2+CUID+MID_123+NET1
> to 0 REPLY
= ROW

# The same cuid and mid stand in another domain, for a client of it and for a gateway; and in the same domain the cuid is in use,
# for whatever prefixes: the last asks for 2001:db8:1::/64.
< at 1000 from 0 REQUEST
< at 1000 from 2 START+CUID+MID_123+NET2
> to 0 REPLY
> to 2 REPLY
= ROW
= scrub net2 dz6pHjaADkaFTbjr0JGBpw 123 198.51.100.0/25 any any

< at 1000 from 0 REQUEST
< at 1000 from 3 START+CDID_NET2+CUID+MID_123+NET2
> to 0 REPLY
> to 3 REPLY
= ROW
= scrub net2 dz6pHjaADkaFTbjr0JGBpw 123 198.51.100.0/25 any any

< at 1000 from 0 REQUEST
< at 1000 from 1 START+CUID+MID_123+12010fffa101a10281a206816f323030313a6462383a313a3a2f36340e190e10
> to 0 REPLY
> to 1 COLLISION
= ROW

# Prefixes of the second family: inside the domain, outside it, and loopback and multicast.
< at 1000 from 0 START+CUID+MID_123+BODY+816f323030313a6462383a313a3a2f3634+LIFETIME_3600
> to 0 REPLY
= scrub net1 dz6pHjaADkaFTbjr0JGBpw 123 2001:db8:1::/64 any any

< at 1000 from 0 START+CUID+MID_123+BODY+816f323030313a6462383a323a3a2f3634+LIFETIME_3600
> to 0 OUTSIDE_DOMAIN

< at 1000 from 0 START+CUID+MID_123+BODY+81673a3a312f313238+LIFETIME_3600
> to 0 NOT_A_TARGET

< at 1000 from 0 START+CUID+MID_123+BODY+816b666630323a3a312f313238+LIFETIME_3600
> to 0 NOT_A_TARGET";
