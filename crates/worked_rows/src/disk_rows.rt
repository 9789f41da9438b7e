//! Disks that are recovered, and disks that are refused for what they are.

/// A journal of the first format with two entries, on which one byte is changed. The first record is that of 104 bytes, and the number of
/// its change is at 8237. The byte that says the format of the half that isn't in use is not looked at.
pub const CHANGED: &str = "\
$ replay settings
: domain net1
: prefix net1 192.0.2.0/24
: prefix net1 2001:db8:1::/48
: client 0 net1
: capacity remembered 1
: capacity domain-mitigations 2
: capacity client-mitigations 2
: capacity clients 1
: capacity aliases 1
: capacity acls 1
@ 466944
* 0 HEADER
* 8192 a50068+AT_5+CLIENT+010001+0000+PUT+AT_5
* 16384 a50068+AT_6+CLIENT+010002+0000+PUT_SECOND+AT_6

* 0 a5
= ROW
= ROW_SECOND

* 0 00
= not ours 8192
? 7

* 1 00
= not ours 1
? 7

* 8 02
= not ours 8
? 7

* 11 01
= not ours 11
? 7

* 12 01
= not ours 12
? 7

* 15 1d
= not ours 15
? 7

* 48 02
= ROW
= ROW_SECOND

* 48 01

* 49 01
= not ours 49
? 7

* 49 02
= not ours 8192
? 7

* 50 01
= ROW
= ROW_SECOND

* 48 01
* 50 01
= not ours 50
? 7

* 49 01
* 51 01
= not ours 49
? 7

* 51 01
= not ours 51
? 7

* 63 01
= not ours 63
? 7

* 64 01
= ROW
= ROW_SECOND

* 8192 00
= not ours 16384
? 7

* 8194 67
= not ours 8192
? 7

* 8237 0d
= ROW_SECOND

* 8237 0e
= not ours 8192
? 7

* 8299 01
= ROW
= ROW_SECOND

* 16384 5a
= ROW

* 16385 ff
= not ours 16384
? 7";

/// A journal of the second format with two entries, on which one byte is changed: of the first record's time, cuid and trigger value, of its
/// seal, its length, and of the format.
pub const SEALED: &str = "\
$ replay settings
: domain net1
: prefix net1 192.0.2.0/24
: prefix net1 2001:db8:1::/48
: client 0 net1
: capacity remembered 1
: capacity domain-mitigations 2
: capacity client-mitigations 2
: capacity clients 1
: capacity aliases 1
: capacity acls 1
@ 466944
* 0 HEADER
* 48 000202
* 8192 a50071+AT_5+CLIENT+010001+0000+PUT+AT_5+01+9b41369e56f3c99d
* 16384 a50071+AT_6+CLIENT+010002+0000+PUT_SECOND+AT_6+01+7eaa1f26cc77e08f

* 0 a5
= ROW
= ROW_SECOND

* 8202 04
= not ours 8192
? 7

* 8195 01
= not ours 8192
? 7

* 8210 7b
= not ours 8192
? 7

* 8237 0d
= not ours 8192
? 7

* 8299 00
= not ours 8192
? 7

* 8299 02
= not ours 8192
? 7

* 8300 00
= not ours 8192
? 7

* 8307 00
= not ours 8192
? 7

* 8308 01
= ROW
= ROW_SECOND

* 8194 72
= not ours 8192
? 7

* 16394 07
= not ours 16384
? 7

* 49 00
= not ours 8192
? 7

* 49 03
= not ours 49
? 7

* 50 00
= ROW
= ROW_SECOND

* 48 01
* 50 00";

/// Files of other programs, and disks that are too small, whatever they hold. A disk whose gates are all zero holds nothing.
pub const FOREIGN: &str = "\
$ replay settings
: domain net1
: prefix net1 192.0.2.0/24
: prefix net1 2001:db8:1::/48
: client 0 net1
: capacity remembered 1
: capacity domain-mitigations 2
: capacity client-mitigations 2
: capacity clients 1
: capacity aliases 1
: capacity acls 1
@ 466944

# nothing

* 0 78
* 1 78
* 8191 78

* 0 78
* 8192 78
= not ours 8192
? 7

* 0 a5
* 1 78
= not ours 1
? 7

* 0 a5444f54534a4e4c78
= not ours 8
? 7

@ 466943
= disk needed 466944 found 466943
? 10

@ 466943
* 0 a5
= disk needed 466944 found 466943
? 10";

/// How large a disk is needed. A compaction under the first settings keeps 8 entries, so a half has 24 slots; under the second
/// 2·(2·64 + 8 + 8·24) of the networks, 64·(3 + 3) of the remembered messages, 3 + 1 session configurations, and the last entry: 1,045, so that
/// it has 2,098.
pub const SIZES: &str = "\
$ replay settings
@ 1
? 10

: domain net1
: prefix net1 192.0.2.0/24
: client 0 net1
: capacity remembered 1
: capacity domain-mitigations 1
: capacity client-mitigations 1
: capacity clients 1
: capacity aliases 1
: capacity acls 1
= disk needed 401408 found 1

: domain net1
: prefix net1 192.0.2.0/24
: prefix net1 2001:db8:1::/48
: domain net2
: prefix net2 198.51.100.0/24
: client 0 net1
: client 1 net1
: client 2 net2
: gateway 3
: ceiling 86400
= disk needed 34381824 found 1";

/// The journal under other settings, with the digests of both.
pub const OTHERS: &str = "\
$ replay settings
@ 466944
* 0 HEADER
* 8192 a50068+AT_5+CLIENT+010001+0000+PUT+AT_5
* 16384 a50068+AT_6+CLIENT+010002+0000+PUT_SECOND+AT_6

# the client in the second line
: domain net1
: client 0 net1
: prefix net1 192.0.2.0/24
: prefix net1 2001:db8:1::/48
: capacity remembered 1
: capacity domain-mitigations 2
: capacity client-mitigations 2
: capacity clients 1
: capacity aliases 1
: capacity acls 1
= settings changed 2a262545a31576ee08e48a397ce4546e6a80cb6d0af8557982d69918576ca6ca DIGEST_ORDER
? 8

# another ceiling
: domain net1
: prefix net1 192.0.2.0/24
: prefix net1 2001:db8:1::/48
: client 0 net1
: capacity remembered 1
: capacity domain-mitigations 2
: capacity client-mitigations 2
: capacity clients 1
: capacity aliases 1
: capacity acls 1
: ceiling 86399
= settings changed 2a262545a31576ee08e48a397ce4546e6a80cb6d0af8557982d69918576ca6ca DIGEST_CEILING
? 8

# the same, and the name of the format is another
: domain net1
: prefix net1 192.0.2.0/24
: prefix net1 2001:db8:1::/48
: client 0 net1
: capacity remembered 1
: capacity domain-mitigations 2
: capacity client-mitigations 2
: capacity clients 1
: capacity aliases 1
: capacity acls 1
: ceiling 86399
* 1 00
= not ours 1
? 7

# a remark and a sample packet, of which a journal knows nothing
: # beside a packet
: domain net1
: prefix net1 192.0.2.0/24
: prefix net1 2001:db8:1::/48
: client 0 net1
: capacity remembered 1
: capacity domain-mitigations 2
: capacity client-mitigations 2
: capacity clients 1
: capacity aliases 1
: capacity acls 1
: packet 198.18.0.1 192.0.2.9 17 4000 53
= ROW
= ROW_SECOND
= packet 1 scrubbed 123";

/// Entries that don't join those before them are told by their slots.
pub const JOINS: &str = "\
$ replay settings
: domain net1
: prefix net1 192.0.2.0/24
: prefix net1 2001:db8:1::/48
: client 0 net1
: capacity remembered 1
: capacity domain-mitigations 2
: capacity client-mitigations 2
: capacity clients 1
: capacity aliases 1
: capacity acls 1
@ 466944
* 0 HEADER

# a registration and a mitigation
* 8192 a5002b+AT_5+CLIENT+HTTP+07
* 16384 a50068+AT_6+CLIENT+010001+0000+PUT+AT_6
= ROW

# a time before that of the entry before it
* 8192 a50068+AT_6+CLIENT+010001+0000+PUT+AT_6
* 16384 a5002b+AT_5+CLIENT+HTTP+07
= not ours 16384
? 7

# a second registration
* 8192 a5002b+AT_5+CLIENT+HTTP+07
* 16384 a5002b+AT_6+CLIENT+HTTP+07
= not ours 16384
? 7

# an alias without a registration
* 8192 a50046+AT_5+CLIENT+HTTP+ALIAS
= not ours 8192
? 7

# a prefix outside the domain
* 8192 a5002b+AT_5+CLIENT+HTTP+07
* 16384 a50068+AT_6+CLIENT+010001+0000+PUT+AT_6
* 24576 a50068+AT_6+CLIENT+010002+0000+PUT_OUTSIDE+AT_6
= not ours 24576
? 7

# a peer that may not act
* 8192 a50068+AT_5+CLIENT+010001+0000+PUT+AT_5
* 16384 a5002f+AT_6+STRANGER+02000b+0000+WITHDRAW
= not ours 16384
? 7

# one mitigation too many
* 8192 a50068+AT_5+CLIENT+010001+0000+PUT+AT_5
* 16384 a50068+AT_5+CLIENT+010002+0000+PUT_SECOND+AT_5
* 24576 a50068+AT_5+CLIENT+010003+0000+PUT_THIRD+AT_5
= not ours 24576
? 7

# an exchange that a gateway keeps
* 8192 a5001e00000000000003e800000000fffe0001014a000900000000000000014a07
= not ours 8192
? 7";
