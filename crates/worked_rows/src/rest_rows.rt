//! The data channel: what comes on connections, and what is answered (RFC 8783; RFC 8040; RFC 9112).

/// Registrations, aliases and access lists.
pub const REST: &str = r#"$ replay settings
:&

# A registration and an alias, in one piece; the same alias again, and the same registration, which keeps it.
< at 1000 open 1 0
<~ at 1000 piece 1 PUT_CLIENT^PUT_WEB
<~ at 1001 piece 1 PUT_WEB^PUT_CLIENT
<~ at 1002 piece 1 GET_CLIENT
>~ conn 1 CREATED
>~ conn 1 CREATED
>~ conn 1 NO_CONTENT
>~ conn 1 NO_CONTENT
>~ conn 1 HELD

# the same byte by byte
< at 1000 open 1 0
<. at 1000 piece 1 PUT_CLIENT^PUT_WEB
<. at 1001 piece 1 PUT_WEB^PUT_CLIENT
<. at 1002 piece 1 GET_CLIENT
>~ conn 1 CREATED
>~ conn 1 CREATED
>~ conn 1 NO_CONTENT
>~ conn 1 NO_CONTENT
>~ conn 1 HELD

# A POST answers where the new resource is, and refuses one that is there.
< at 1000 open 1 0
<~ at 1000 piece 1 POST ^ROOT^AND_CLIENT^POST ^ROOT^AND_CLIENT^POST ^CLIENT^AND_WEB^POST ^CLIENT^AND_WEB
<~ at 1001 piece 1 GET_WEB^GET ^CLIENT^/aliases/alias=x HTTP/1.1~~^PATCH ^WEB^ HTTP/1.1~~
<~ at 1002 piece 1 POST ^ROOT^ HTTP/1.1~Content-Length: 55~~{"ietf-dots-data-channel:dots-client":[{"cuid":"a/b"}]}
>~ conn 1 HTTP/1.1 201 Created~Location: ^CLIENT^~Content-Length: 0~~
>~ conn 1 CONFLICT
>~ conn 1 HTTP/1.1 201 Created~Location: ^WEB^~Content-Length: 0~~
>~ conn 1 CONFLICT
>~ conn 1 YANG^ 83~~{"ietf-dots-data-channel:alias":[{"name":"web","target-prefix":["192.0.2.80/32"]}]}
>~ conn 1 NOT_FOUND
>~ conn 1 NOT_ALLOWED^ GET, PUT, DELETE~Content-Length: 0~~
>~ conn 1 HTTP/1.1 201 Created~Location: ^ROOT^/dots-client=a%2Fb~Content-Length: 0~~

# A ninth access list finds no room, and one that is there is written anew. What is read of a list has its members in order, and the defaults.
< at 1000 open 1 0
<~ at 1000 piece 1 PUT_CLIENT
<~ at 1000 piece 1 PUT ^CLIENT^/acls/acl=a^LIST^a^DROPS^PUT ^CLIENT^/acls/acl=b^LIST^b^DROPS^PUT ^CLIENT^/acls/acl=c^LIST^c^DROPS
<~ at 1000 piece 1 PUT ^CLIENT^/acls/acl=d^LIST^d^DROPS^PUT ^CLIENT^/acls/acl=e^LIST^e^DROPS^PUT ^CLIENT^/acls/acl=f^LIST^f^DROPS
<~ at 1000 piece 1 PUT ^CLIENT^/acls/acl=g^LIST^g^DROPS^PUT ^CLIENT^/acls/acl=h^LIST^h^DROPS^PUT ^CLIENT^/acls/acl=i^LIST^i^DROPS
<~ at 1000 piece 1 PUT ^CLIENT^/acls/acl=a^LIST^a^DROPS^GET ^CLIENT^/acls/acl=h HTTP/1.1~~
>~ conn 1 CREATED
>~ conn 1 CREATED
>~ conn 1 CREATED
>~ conn 1 CREATED
>~ conn 1 CREATED
>~ conn 1 CREATED
>~ conn 1 CREATED
>~ conn 1 CREATED
>~ conn 1 CREATED
>~ conn 1 FULL
>~ conn 1 NO_CONTENT
>~ conn 1 YANG^ 256~~{"ietf-dots-data-channel:acl":[{"aces":{"ace":[{"actions":{"forwarding":"drop"},"matches":{"udp":{"source-port-range-or-operator":{"operator":"eq","port":123}}},"name":"e"}]},"activation-type":"activate-when-mitigating","name":"h","type":"ipv4-acl-type"}]}

# What is refused changes nothing, and the connection goes on. Of a GET the query is ignored, and of a media type its parameters.
< at 1000 open 1 0
<~ at 1000 piece 1 PUT_WEB^PUT_CLIENT^PUT_WEB
<~ at 1001 piece 1 GET /restconf/data HTTP/1.1~~^GET ^ROOT^/dots-client= HTTP/1.1~~^DELETE ^CLIENT^?a=b HTTP/1.1~~
<~ at 1001 piece 1 GET ^ROOT^ HTTP/1.1~~^HEAD ^CLIENT^ HTTP/1.1~~^DELETE ^CLIENT^/aliases HTTP/1.1~~
<~ at 1001 piece 1 PUT ^WEB^ HTTP/1.1~Content-Type: text/plain~Content-Length: 2~~{}^PUT ^WEB^ HTTP/1.1~Content-Length: 1~~{
<~ at 1001 piece 1 PUT ^CLIENT^/aliases/alias=dns^AND_WEB^PUT ^WEB^ALIAS^web^TO^10.20.30.4/32^END^PUT ^WEB^ALIAS^web^TO^127.0.0.10/32^END
<~ at 1002 piece 1 GET ^CLIENT^?a=b HTTP/1.1~~^PUT ^CLIENT^ HTTP/1.1~Content-Type: application/yang-data+json; a=b~Content-Length: 74~~{"ietf-dots-data-channel:dots-client":[{"cuid":"dz6pHjaADkaFTbjr0JGBpw"}]}
>~ conn 1 NOT_FOUND
>~ conn 1 CREATED
>~ conn 1 CREATED
>~ conn 1 NOT_FOUND
>~ conn 1 BAD_REQUEST
>~ conn 1 BAD_REQUEST
>~ conn 1 NOT_ALLOWED^ POST~Content-Length: 0~~
>~ conn 1 NOT_ALLOWED^ GET, PUT, POST, DELETE~Content-Length: 0~~
>~ conn 1 NOT_ALLOWED^ GET~Content-Length: 0~~
>~ conn 1 HTTP/1.1 415 Unsupported Media Type~Content-Length: 0~~
>~ conn 1 BAD_REQUEST
>~ conn 1 BAD_REQUEST
>~ conn 1 BAD_REQUEST
>~ conn 1 BAD_REQUEST
>~ conn 1 HELD
>~ conn 1 NO_CONTENT

# A mitigation by an alias keeps the prefixes that the alias had then; one by an alias that isn't held is refused. A client that is deleted has no
# aliases any more, and its mitigations stay.
< at 1000 open 1 0
<~ at 1000 piece 1 PUT_CLIENT^PUT_WEB
< at 1001 from 0 51030001+MITIGATE+CUID+MID_123+BY_WEB
<~ at 1002 piece 1 PUT ^WEB^ALIAS^web^TO^192.0.2.81/32^END
< at 1003 from 0 51030002+MITIGATE+CUID+MID_124+12010fffa101a10281a20d8161780e190e10
<~ at 1004 piece 1 DELETE ^CLIENT^ HTTP/1.1~~^GET_CLIENT^PUT_CLIENT^GET_CLIENT
< at 1005 from 0 51030003+MITIGATE+CUID+MID_124+BY_WEB
>~ conn 1 CREATED
>~ conn 1 CREATED
> to 0 REPLY
>~ conn 1 NO_CONTENT
> to 0 518000024aff756e6b6e6f776e20616c696173
>~ conn 1 NO_CONTENT
>~ conn 1 NOT_FOUND
>~ conn 1 CREATED
>~ conn 1 NOTHING
> to 0 518000034aff756e6b6e6f776e20616c696173
= scrub net1 dz6pHjaADkaFTbjr0JGBpw 123 192.0.2.80/32 any any

# An alias of 32 prefixes, named four times with a prefix besides, comes to 129, one more than a mitigation may have: 4.00 with `too many`. One of these
# names that isn't held comes first, and 128 are granted.
< at 1000 open 1 0
<~ at 1000 piece 1 PUT_CLIENT^PUT ^WEB^ HTTP/1.1~Content-Length: 579~~{"ietf-dots-data-channel:alias":[{"name":"^web^","target-prefix":[^31*"192.0.2.80/32",^"192.0.2.80/32^END
< at 1001 from 0 51030001+MITIGATE+CUID+MID_123+12010fffa101a10281a30681+INSIDE+0d84+4*63776562+LIFETIME_3600
< at 1001 from 0 51030001+MITIGATE+CUID+MID_123+12010fffa101a10281a30681+INSIDE+0d85+4*63776562+6178+LIFETIME_3600
< at 1001 from 0 51030001+MITIGATE+CUID+MID_123+12010fffa101a10281a20d84+4*63776562+LIFETIME_3600
< at 1002 from 0 51040002+MITIGATE+CUID+MID_123
< at 1122 from 77 00
>~ conn 1 CREATED
>~ conn 1 CREATED
> to 0 518000014aff746f6f206d616e79
> to 0 UNKNOWN_ALIAS
> to 0 REPLY
> to 0 514200024a

# A name that another peer of the domain uses is refused, whichever channel has it.
< at 1000 open 1 0
< at 1000 open 2 1
<~ at 1000 piece 1 PUT_CLIENT
<~ at 1000 piece 2 PUT_CLIENT^GET_CLIENT^DELETE ^CLIENT^ HTTP/1.1~~
< at 1000 from 1 START+CUID+MID_123+NET1
>~ conn 1 CREATED
>~ conn 2 CONFLICT
>~ conn 2 CONFLICT
>~ conn 2 CONFLICT
> to 1 COLLISION

< at 1000 from 0 REQUEST
< at 1000 open 2 1
<~ at 1000 piece 2 PUT_CLIENT
> to 0 REPLY
>~ conn 2 CONFLICT
= ROW

# Another domain has its own clients, and what is done there touches none of this one.
< at 1000 open 1 0
< at 1000 open 2 2
<~ at 1000 piece 1 PUT_CLIENT^PUT_WEB
<~ at 1001 piece 2 GET_CLIENT^PUT_CLIENT^GET_CLIENT^PUT_WEB
<~ at 1001 piece 2 PUT ^WEB^ HTTP/1.1~Content-Length: 85~~{"ietf-dots-data-channel:alias":[{"name":"web","target-prefix":["198.51.100.1/32"]}]}
< at 1002 from 0 51030001+MITIGATE+CUID+MID_123+BY_WEB
< at 1002 from 2 51030001+MITIGATE+CUID+MID_123+BY_WEB
<~ at 1003 piece 2 DELETE ^CLIENT^ HTTP/1.1~~
<~ at 1004 piece 1 GET_CLIENT
>~ conn 1 CREATED
>~ conn 1 CREATED
>~ conn 2 NOT_FOUND
>~ conn 2 CREATED
>~ conn 2 NOTHING
>~ conn 2 BAD_REQUEST
>~ conn 2 CREATED
> to 0 REPLY
> to 2 REPLY
>~ conn 2 NO_CONTENT
>~ conn 1 HELD
= scrub net1 dz6pHjaADkaFTbjr0JGBpw 123 192.0.2.80/32 any any
= scrub net2 dz6pHjaADkaFTbjr0JGBpw 123 198.51.100.1/32 any any

# A day of one network: it registers, writes two aliases and a list, and sets its session. It asks by an alias, and observes; heartbeats and refreshes
# come; it withdraws; and two minutes later, at the first tick, there is nothing to see.
< at 28000 open 1 0
<~ at 28000 piece 1 PUT_CLIENT^PUT_WEB
<~ at 28000 piece 1 PUT ^CLIENT^/aliases/alias=dns^ALIAS^dns^TO^192.0.2.53/32^END
<~ at 28000 piece 1 PUT ^CLIENT^/acls/acl=d^LIST^d^DROPS
< at 28000 from 0 51030001+CONFIGURE+057369643d31+12010fffa1181ea21820a11821a11824183c182ca11821a11824183c
< at 28001 close 1
< at 28800 from 0 51030002+MITIGATE+CUID+056d69643d31+BY_WEB
< at 28801 from 0 51010003+OBSERVE+CUID+056d69643d31
< at 28860 from 0 51030004+BEAT_4A+f5
< at 28920 from 0 51030005+BEAT_4A+f5
< at 32000 from 0 51030006+MITIGATE+CUID+056d69643d31+BY_WEB
< at 35200 from 0 51030007+MITIGATE+CUID+056d69643d31+BY_WEB
< at 38400 from 0 51030008+MITIGATE+CUID+056d69643d31+BY_WEB
< at 40000 from 0 51040009+MITIGATE+CUID+056d69643d31
< at 40120 tick
>~ conn 1 CREATED
>~ conn 1 CREATED
>~ conn 1 CREATED
>~ conn 1 CREATED
> to 0 514100014a
> to 0 51410002+CBOR+a101a10281a205010e190e10
> to 0 514500034a6101+SEEN+a101a10281a505010d81637765620e190e0f0f1970801002
> to 0 514400044a
> to 0 514400054a
> to 0 51440006+CBOR+a101a10281a205010e190e10
> to 0 51440007+CBOR+a101a10281a205010e190e10
> to 0 51440008+CBOR+a101a10281a205010e190e10
> to 0 514200094a
> to 0 51456d604a6102+SEEN+a101a10281a505010d81637765620e18780f1970801005
> to 0 51846d614aff616273656e74
> to 0 50036d62+BEAT+f4"#;

/// What becomes of connections and of what comes on them.
pub const FRONTS: &str = r#"$ replay settings
:&

# A body that is no JSON, as long as one may be, is refused, and the connection goes on.
< at 1000 open 1 0
<~ at 1000 piece 1 PUT ^CLIENT^ HTTP/1.1~Content-Length: 8192~~^8192*x
<~ at 1000 piece 1 GET_CLIENT
>~ conn 1 BAD_REQUEST
>~ conn 1 NOT_FOUND

# Behind what is no request the connection is closed, and nothing more that comes on it is read; and what comes elsewhere is answered as ever. A
# longer body is announced.
< at 1000 open 1 0
<~ at 1000 piece 1 PUT ^CLIENT^ HTTP/1.1~Content-Length: 8193~~
<~ at 1000 piece 1 PUT_CLIENT
< at 1000 open 1 0
<~ at 1000 piece 1 GET_CLIENT
< at 1000 from 0 REQUEST
>~ conn 1 HTTP/1.1 413 Payload Too Large~Connection: close~Content-Length: 0~~
> close 1
>~ conn 1 NOT_FOUND
> to 0 REPLY
= ROW

# the body is to come in chunks
< at 1000 open 1 0
<~ at 1000 piece 1 PUT ^CLIENT^ HTTP/1.1~Transfer-Encoding: chunked~~^PUT_CLIENT
<~ at 1000 piece 1 PUT_CLIENT
< at 1000 from 0 REQUEST
>~ conn 1 HTTP/1.1 411 Length Required~Connection: close~Content-Length: 0~~
> close 1
> to 0 REPLY
= ROW

# no head has so many bytes
< at 1000 open 1 0
<~ at 1000 piece 1 8192*A
< at 1000 from 0 REQUEST
>~ conn 1 CLOSED
> close 1
> to 0 REPLY
= ROW

# the length of the body is said twice
< at 1000 open 1 0
<~ at 1000 piece 1 GET_CLIENT^GET ^CLIENT^ HTTP/1.1~Content-Length: 0~Content-Length: 0~~
< at 1000 from 0 REQUEST
>~ conn 1 NOT_FOUND
>~ conn 1 CLOSED
> close 1
> to 0 REPLY
= ROW

# a field has no name
< at 1000 open 1 0
<~ at 1000 piece 1 GET / HTTP/1.1~: x~~
< at 1000 from 0 REQUEST
>~ conn 1 CLOSED
> close 1
> to 0 REPLY
= ROW

# A hundred fields are as none.
< at 1000 open 1 0
<~ at 1000 piece 1 PUT_CLIENT^PUT_WEB^GET ^CLIENT^ HTTP/1.1~^100*a:~^~
< at 1000 from 0 REQUEST
>~ conn 1 CREATED
>~ conn 1 CREATED
>~ conn 1 HELD
> to 0 REPLY
= ROW

# Behind a request that closes its connection, or is of HTTP/1.0, nothing is read.
< at 1000 open 1 0
<~ at 1000 piece 1 GET ^CLIENT^ HTTP/1.1~Connection: close~~^PUT_CLIENT
<~ at 1000 piece 1 PUT_CLIENT
< at 1001 open 1 0
<~ at 1001 piece 1 GET ^CLIENT^ HTTP/1.0~~^PUT_CLIENT
< at 1002 open 1 0
<~ at 1002 piece 1 GET_CLIENT
>~ conn 1 GONE
> close 1
>~ conn 1 GONE
> close 1
>~ conn 1 NOT_FOUND

# Of two connections each has its own requests, and what comes on a third one, which is closed, isn't read.
< at 1000 open 1 0
< at 1000 open 2 0
< at 1000 open 3 0
<~ at 1000 piece 1 PUT ^ROOT^/dots-client=dz6pHjaADk
<~ at 1000 piece 2 GET ^ROOT^/dots-cli
<~ at 1000 piece 3 PUT_CLIENT
<~ at 1000 piece 2 ent=dz6pHjaADkaFTbjr0JGBpw HTTP/1.1~~
<~ at 1000 piece 1 aFTbjr0JGBpw^AND_CLIENT^GET_CL
<~ at 1000 piece 2 GET_CLIENT
> close 3
>~ conn 2 NOT_FOUND
>~ conn 1 CREATED
>~ conn 2 NOTHING

# What comes on a connection that isn't there isn't read: of a gateway, of a stranger, of one that was never opened, and of one that was closed.
< at 1000 open 1 3
< at 1000 open 2 77
<~ at 1000 piece 1 PUT_CLIENT
<~ at 1000 piece 2 PUT_CLIENT
<~ at 1000 piece 9 PUT_CLIENT
< at 1001 open 4 0
< at 1001 close 4
<~ at 1001 piece 4 PUT_CLIENT
< at 1002 open 5 0
<~ at 1002 piece 5 GET_CLIENT
> close 1
> close 2
>~ conn 5 NOT_FOUND

# A connection that is opened anew begins anew, and so does one behind a restart; what was accepted is there still.
< at 1000 open 1 0
<~ at 1000 piece 1 PUT_CLIENT^GET /rest
< at 1000 open 1 0
<~ at 1001 piece 1 GET_CLIENT^PUT ^CLIENT^/aliases/ali
< at 1002 restart
<~ at 1002 piece 1 as=web^AND_WEB
< at 1003 open 1 0
<~ at 1003 piece 1 GET_CLIENT^PUT_WEB
< at 1004 restart
< at 1004 open 1 0
<~ at 1004 piece 1 GET_CLIENT
>~ conn 1 CREATED
>~ conn 1 NOTHING
>~ conn 1 NOTHING
>~ conn 1 CREATED
>~ conn 1 HELD

# Observers are told behind the replies to a piece, also where no request is whole.
< at 1000 from 0 REQUEST
< at 1001 from 0 51010002+OBSERVE+CUID+MID_123+43633d6e
< at 1002 open 1 0
<~ at 4600 piece 1 GET_CLIENT^GET_CLIENT^GET /rest
> to 0 REPLY
> to 0 514500024a6101+SEEN+a101a10281a305187b0f1903e81002
>~ conn 1 NOT_FOUND
>~ conn 1 NOT_FOUND
> to 0 518403e84aff616273656e74

< at 1000 from 0 REQUEST
< at 1001 from 0 51010002+OBSERVE+CUID+MID_123+43633d6e
< at 1002 open 1 0
<~ at 4600 piece 1 GET /rest
> to 0 REPLY
> to 0 514500024a6101+SEEN+a101a10281a305187b0f1903e81002
> to 0 518403e84aff616273656e74"#;

/// Lists that a client wrote decide on packets: `ok` accepts what comes from 203.0.113.0/24, and `no` drops UDP while the client mitigates.
pub const REST_FATES: &str = r#"$ replay settings
:&
: packet 203.0.113.5 192.0.2.9 17 4000 53
: packet 198.18.0.1 192.0.2.9 17 4000 53
: packet 198.18.0.1 192.0.2.9 6 4000 443
< at 900 open 1 0
<~ at 900 piece 1 PUT_CLIENT^PUT ^CLIENT^/acls/acl=ok HTTP/1.1~Content-Length: 223~~{"ietf-dots-data-channel:acl":[{"name":"ok","type":"ipv4-acl-type","activation-type":"immediate","aces":{"ace":[{"name":"e","matches":{"ipv4":{"source-ipv4-network":"203.0.113.0/24"}},"actions":{"forwarding":"accept"}}]}}]}
<~ at 900 piece 1 PUT ^CLIENT^/acls/acl=no HTTP/1.1~Content-Length: 211~~{"ietf-dots-data-channel:acl":[{"name":"no","type":"ipv4-acl-type","activation-type":"activate-when-mitigating","aces":{"ace":[{"name":"e","matches":{"ipv4":{"protocol":17}},"actions":{"forwarding":"drop"}}]}}]}
>~ conn 1 CREATED
>~ conn 1 CREATED
>~ conn 1 CREATED

# before any mitigation
= acl net1 dz6pHjaADkaFTbjr0JGBpw ok e accept 203.0.113.0/24 192.0.2.0/24 any any any
= packet 1 accepted ok
= packet 2 pass
= packet 3 pass

# while one lives
< at 1000 from 0 REQUEST
> to 0 REPLY
= ROW
= acl net1 dz6pHjaADkaFTbjr0JGBpw ok e accept 203.0.113.0/24 192.0.2.0/24 any any any
= acl net1 dz6pHjaADkaFTbjr0JGBpw no e drop any 192.0.2.0/24 17 any any
= packet 1 accepted ok
= packet 2 dropped no
= packet 3 scrubbed 123

# once it has ended
< at 1000 from 0 REQUEST
< at 4600 tick
> to 0 REPLY
= acl net1 dz6pHjaADkaFTbjr0JGBpw ok e accept 203.0.113.0/24 192.0.2.0/24 any any any
= packet 1 accepted ok
= packet 2 pass
= packet 3 pass

# without the lists
< at 1000 from 0 REQUEST
<~ at 1001 piece 1 DELETE ^CLIENT^/acls/acl=no HTTP/1.1~~^DELETE ^CLIENT^/acls/acl=ok HTTP/1.1~~
> to 0 REPLY
>~ conn 1 NO_CONTENT
>~ conn 1 NO_CONTENT
= ROW
= packet 1 scrubbed 123
= packet 2 scrubbed 123
= packet 3 scrubbed 123"#;
