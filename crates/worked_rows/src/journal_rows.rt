//! What runs leave on their disks, and what they are called for.

/// An entry is written and synced in two calls, and its gate opened in two more. A compaction writes a record or closes a gate for
/// each of 28 slots, writes the format of the half, syncs, and writes and syncs the selector. What is refused or comes again takes none,
/// and a restart begins with a sync.
pub const JOURNALS: &str = "\
$ replay settings
: domain net1
: prefix net1 192.0.2.0/24
: prefix net1 2001:db8:1::/48
: client 0 net1
: capacity remembered 1
: capacity domain-mitigations 2
: capacity client-mitigations 2
: capacity clients 1
: capacity aliases 1
: capacity acls 1
@ 466944

# the bytes on the disk behind a request: the header, the selector, the formats of the halves and the zeros behind them, a slot, and the
# gate of the next
<* 1
>* 1
= ROW
% 2/3 2/2
+ 0 HEADER
+ 48 00020200000000000000000000000000
+ 8192 a50087+00000000000003e8+CLIENT+0100010016+51410001+DONE+PUT+AT_1000+01+290a1e2ed6fa0112
+ 16384 00

# the 29th finds all 28 slots in use; one that is refused; a restart; and the last once more
<* 29
< at 1029 from 0 5103+001e+ASK_END
< at 1030 restart
< at 1031 from 0 5103+001d+ASK
>* 29
> to 0 5180+001e+INVALID
> to 0 5144+001d+DONE
= ROW
% 2/3
% 2/2 2/2 2/2 2/2 2/2 2/2 2/2 2/2 2/2 2/2 2/2 2/2 2/2 2/2
% 2/2 2/2 2/2 2/2 2/2 2/2 2/2 2/2 2/2 2/2 2/2 2/2 2/2 2/2
% 32/4 0/0 0/1 0/0

# a registration and an alias in one piece are two entries, the same registration again is none, and the alias is one; what is read and what is
# refused is none
< at 1000 open 1 0
<~ at 1000 piece 1 PUT_CLIENT^PUT ^WEB^ALIAS^web^TO^192.0.2.10/32^END
<~ at 1000 piece 1 PUT_CLIENT^PUT_WEB^GET_CLIENT^PUT ^CLIENT^/aliases/alias=dns^ALIAS^dns^TO^192.0.2.53/32^END
>~ conn 1 CREATED
>~ conn 1 CREATED
>~ conn 1 NO_CONTENT
>~ conn 1 NO_CONTENT
>~ conn 1 HELD
>~ conn 1 FULL
% 2/3 0/0 4/4 2/2
+ 8192 a50033+AT_1000+CLIENT+HTTP+07+b2b30e8e520e9f57
+ 16384 a5004e+AT_1000+CLIENT+HTTP+0303776562010420000000000000000000000000c000020a00000000+1be0768db613a3e2
+ 24576 a5004e+AT_1000+CLIENT+HTTP+0303776562010420000000000000000000000000c000025000000000+f85f58d9aaa71115
+ 32768 00

# a hundred, a restart, and the last once more
<* 100
< at 1100 restart
< at 1101 from 0 5103+0064+ASK
>* 100
> to 0 5144+0064+DONE
= ROW

# an entry of each kind in the first format, and two compactions, which write the second: the first into the other half, by the 23rd request,
# the other back, by the 44th; a refresh keeps the start
* 0 HEADER
* 8192 a5002b+AT_999+CLIENT+HTTP+07
* 16384 a50046+AT_999+CLIENT+HTTP+ALIAS
* 24576 a50038+AT_999+CLIENT+HTTP+ACL
* 32768 a50068+AT_999+CLIENT+010009+0000+PUT_SECOND+AT_999
* 40960 a5002f+AT_999+CLIENT+02000a+0000+WITHDRAW_SECOND
* 49152 a50049+AT_999+SESSION+02000b+0000+CONFIG
<* 44
>* 44
= ROW_SECOND
= ROW
= acl net1 dz6pHjaADkaFTbjr0JGBpw d e drop any 192.0.2.0/24 any any any
+ 48 000202
+ 237568 a50033+AT_999+CLIENT+HTTP+07+8520e2d4783df910
+ 245760 a5004e+AT_999+CLIENT+HTTP+ALIAS+9bf0811202a0d891
+ 253952 a50040+AT_999+CLIENT+HTTP+ACL+b6a071c77d6da897
+ 262144 a50071+AT_999+CLIENT+010009+0000+PUT_SECOND+AT_999+01+e2ca2b06799d0ffd
+ 270336 a50037+AT_999+CLIENT+02000a+0000+WITHDRAW_SECOND+c445abb9070cc288
+ 278528 a50051+AT_999+SESSION+02000b+0000+CONFIG+39f6d41ebba33416
+ 286720 a50087+00000000000003fd+CLIENT+0100160016+51440016+DONE+PUT+AT_1000+01+276c59abb02a76f5
+ 294912 a50087+00000000000003fe+CLIENT+0100170016+51440017+DONE+PUT+AT_1000+01+23aff8b22df00994
+ 8192 a50033+AT_999+CLIENT+HTTP+07+8520e2d4783df910
+ 16384 a5004e+AT_999+CLIENT+HTTP+ALIAS+9bf0811202a0d891
+ 24576 a50040+AT_999+CLIENT+HTTP+ACL+b6a071c77d6da897
+ 32768 a50071+AT_999+CLIENT+010009+0000+PUT_SECOND+AT_999+01+e2ca2b06799d0ffd
+ 40960 a50037+AT_999+CLIENT+02000a+0000+WITHDRAW_SECOND+c445abb9070cc288
+ 49152 a50051+AT_999+SESSION+02000b+0000+CONFIG+39f6d41ebba33416
+ 57344 a50087+0000000000000412+CLIENT+01002b0016+5144002b+DONE+PUT+AT_1000+01+031d73a3662f0991
+ 65536 a50087+0000000000000413+CLIENT+01002c0016+5144002c+DONE+PUT+AT_1000+01+419f5d416b5eb91b
+ 73728 00";

/// A journal of the first format: what is appended is of it, and the first compaction writes the second format into the other half. The same
/// is answered as over a disk that wasn't formatted. What waits for a lost signal has a number of its own in the first format.
pub const FIRST_FORMAT: &str = "\
$ replay settings
: domain net1
: prefix net1 192.0.2.0/24
: prefix net1 2001:db8:1::/48
: client 0 net1
: capacity remembered 1
: capacity domain-mitigations 2
: capacity client-mitigations 2
: capacity clients 1
: capacity aliases 1
: capacity acls 1
@ 466944
* 0 HEADER

<* 1
>* 1
= ROW
% 0/1 2/2
+ 0 HEADER
+ 48 000000
+ 8192 a5007e+00000000000003e8+CLIENT+0100010016+51410001+DONE+PUT+AT_1000
+ 16384 00

<* 29
< at 1029 from 0 5103+001e+ASK_END
< at 1030 restart
< at 1031 from 0 5103+001d+ASK
>* 29
> to 0 5180+001e+INVALID
> to 0 5144+001d+DONE
= ROW
+ 48 010002
+ 237568 a50087+0000000000000403+CLIENT+01001c0016+5144001c+DONE+PUT+AT_1000+01+3b392c4b6375a778
+ 245760 a50087+0000000000000404+CLIENT+01001d0016+5144001d+DONE+PUT+AT_1000+01+bab650530cbd5edd
+ 253952 00

<* 100
< at 1100 restart
< at 1101 from 0 5103+0064+ASK
>* 100
> to 0 5144+0064+DONE
= ROW
+ 49 0202";

/// `end` has a time beside it, and moves none; what happens to a connection does.
pub const TIMES: &str = "\
$ replay settings
: domain net1
: prefix net1 192.0.2.0/24
: prefix net1 2001:db8:1::/48
: client 0 net1
: capacity remembered 1
: capacity domain-mitigations 2
: capacity client-mitigations 2
: capacity clients 1
: capacity aliases 1
: capacity acls 1
@ 466944
<* 1
>* 1

< at 9999 end
= ROW

< at 4599 open 5 0
= ROW

< at 4600 open 5 0

< at 4600 piece 5 00

< at 4600 close 5";

/// The header of a journal under the settings of most rows has their digest. Packets, empty lines and comments leave it as it is, and
/// the last line may lack its line feed. The gateway asks in the first domain, the client in its own, and a stranger isn't answered.
pub const DIGESTS: &str = "\
$ replay settings
@ 34381824
< at 1000 from 3 START+CDID_NET1+CUID+MID_123+NET1
< at 1000 from 2 START+CUID+MID_123+NET2
< at 1000 from 4 START+CUID+MID_123+NET2
> to 3 REPLY
> to 2 REPLY
= ROW
= scrub net2 dz6pHjaADkaFTbjr0JGBpw 123 198.51.100.0/25 any any
+ 0 a5444f54534a4e4c0100000000000832+DIGEST_SETTINGS

:&

: # more
:
: packet 203.0.113.5 192.0.2.9 17 4000 53
: domain net1
: prefix net1 192.0.2.0/24
: prefix net1 2001:db8:1::/48
: domain net2
: prefix net2 198.51.100.0/24
: client 0 net1
: client 1 net1
: client 2 net2
: gateway 3
: packet 2001:db8::1 2001:db8:1::1 58 - -
:| ceiling 86400
= packet 1 scrubbed 123
= packet 2 pass";
