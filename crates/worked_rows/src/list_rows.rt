//! Reports over journals with access lists.

/// A waiting list of IPv4, with each kind of test; one of IPv6 that is active at once; and one that is not active. Another domain's client has
/// one of IPv4 and one of IPv6, both active at once.
pub const LISTS: &str = "\
$ replay settings
: domain net1
: prefix net1 192.0.2.0/24
: prefix net1 2001:db8:1::/48
: prefix net1 198.51.100.0/24
: domain net2
: prefix net2 203.0.113.0/24
: client 0 net1
: client 1 net2
: capacity remembered 1
: capacity domain-mitigations 2
: capacity client-mitigations 2
: capacity clients 1
: capacity aliases 1
: capacity acls 4
: packet 198.18.0.1 192.0.2.9 17 4000 53
@ 958464
* 0 a5444f54534a4e4c010000000000003a+04b4c6521be5be24c8bf8ae71eecbcb03ecbf4e21bc9f0a2318818db4d3b3230
* 8192 a5002b+AT_999+CLIENT+HTTP+07
* 16384 a50099+AT_999+CLIENT+HTTP+LIST_W
* 24576 a5006d+AT_999+CLIENT+HTTP+LIST_I
* 32768 a50039+AT_999+CLIENT+HTTP+LIST_X
* 40960 a5002b+AT_999+CLIENT_NET2+HTTP+07
* 49152 a50039+AT_999+CLIENT_NET2+HTTP+LIST_N
* 57344 a50039+AT_999+CLIENT_NET2+HTTP+LIST_M

# no mitigation is live: the two lists that are active at once, of which one of IPv6 has no prefix to go to in a domain of IPv4
= acl net1 dz6pHjaADkaFTbjr0JGBpw i b1 accept 2001:db8:ffff::/48 2001:db8:1::/48 6 =0 5-5
= acl net1 dz6pHjaADkaFTbjr0JGBpw i b2 drop any 2001:db8:1::1/128 any any any
= acl net2 dz6pHjaADkaFTbjr0JGBpw n d1 drop any 203.0.113.0/24 any any any
= packet 1 pass

# while one is live, the list that waits for it comes first, as it was written first
< at 1000 from 0 REQUEST
> to 0 REPLY
= ROW
= acl net1 dz6pHjaADkaFTbjr0JGBpw w a1 accept 203.0.113.0/24 192.0.2.80/32 6 any =443
= acl net1 dz6pHjaADkaFTbjr0JGBpw w a2 drop any 192.0.2.0/25 17 !53 <=1023
= acl net1 dz6pHjaADkaFTbjr0JGBpw w a3 drop any 192.0.2.0/24 any any any
= acl net1 dz6pHjaADkaFTbjr0JGBpw w a3 drop any 198.51.100.0/24 any any any
= acl net1 dz6pHjaADkaFTbjr0JGBpw w a4 accept any 192.0.2.0/24 17 >=1024 80-90
= acl net1 dz6pHjaADkaFTbjr0JGBpw w a4 accept any 198.51.100.0/24 17 >=1024 80-90
= acl net1 dz6pHjaADkaFTbjr0JGBpw i b1 accept 2001:db8:ffff::/48 2001:db8:1::/48 6 =0 5-5
= acl net1 dz6pHjaADkaFTbjr0JGBpw i b2 drop any 2001:db8:1::1/128 any any any
= acl net2 dz6pHjaADkaFTbjr0JGBpw n d1 drop any 203.0.113.0/24 any any any
= packet 1 dropped w

# it waits again where none is left
< at 1000 from 0 REQUEST
< at 4600 from 77 00
> to 0 REPLY
= acl net1 dz6pHjaADkaFTbjr0JGBpw i b1 accept 2001:db8:ffff::/48 2001:db8:1::/48 6 =0 5-5
= acl net1 dz6pHjaADkaFTbjr0JGBpw i b2 drop any 2001:db8:1::1/128 any any any
= acl net2 dz6pHjaADkaFTbjr0JGBpw n d1 drop any 203.0.113.0/24 any any any
= packet 1 pass

# a mitigation of another domain's client wakes no list
< at 1000 from 1 5103+0002+MITIGATE+CUID+MID_123+12010fffa101a10281a206816e3230332e302e3131332e302f32340e190e10
> to 1 5141+0002+DONE
= scrub net2 dz6pHjaADkaFTbjr0JGBpw 123 203.0.113.0/24 any any
= acl net1 dz6pHjaADkaFTbjr0JGBpw i b1 accept 2001:db8:ffff::/48 2001:db8:1::/48 6 =0 5-5
= acl net1 dz6pHjaADkaFTbjr0JGBpw i b2 drop any 2001:db8:1::1/128 any any any
= acl net2 dz6pHjaADkaFTbjr0JGBpw n d1 drop any 203.0.113.0/24 any any any
= packet 1 pass

# a list that is written anew goes behind the others, and one that is dropped is gone
* 65536 a5006d+AT_999+CLIENT+HTTP+LIST_I
* 73728 a5002d+AT_999+CLIENT_NET2+HTTP+06016e
* 81920 a5003a+AT_999+CLIENT+HTTP+LIST_X_NOW
= acl net1 dz6pHjaADkaFTbjr0JGBpw i b1 accept 2001:db8:ffff::/48 2001:db8:1::/48 6 =0 5-5
= acl net1 dz6pHjaADkaFTbjr0JGBpw i b2 drop any 2001:db8:1::1/128 any any any
= acl net1 dz6pHjaADkaFTbjr0JGBpw x c1 accept any 192.0.2.0/24 1 any any
= acl net1 dz6pHjaADkaFTbjr0JGBpw x c1 accept any 198.51.100.0/24 1 any any
= packet 1 pass";
