//! What is told of settings and scripts that are checked.

/// Settings, nearly all of which are at fault, and what is told of them.
pub const SETTINGS: &str = "\
$ check settings
? 3

: domain net1
: prefx net1 192.0.2.0/24
= settings line 2
= line 2: the first word of a line is domain, prefix, client, gateway, upstream, name, ceiling, indefinite, capacity or packet: \"prefx\"

: domain net1 +
= settings line 1
= line 1: a domain line is: domain NAME, with one space between two fields: \"domain net1 \"

: domain Net1
= settings line 1
= line 1: the name of a domain is 1 to 64 of a to z, 0 to 9, dot and hyphen: \"Net1\"

: domain net1
: prefix net1 192.0.2.0/33
= settings line 2
= line 2: the length of an IPv4 prefix is at most 32: \"192.0.2.0/33\"

: domain net1
: prefix net1 2001:db8::/129
= settings line 2
= line 2: the length of an IPv6 prefix is at most 128: \"2001:db8::/129\"

: domain net1
: prefix net1 192.0.2.0
= settings line 2
= line 2: a prefix is an address, a slash and a length, as 192.0.2.0/24 or 2001:db8::/32: \"192.0.2.0\"

: domain net1
: prefix net1 192.0.2/24
= settings line 2
= line 2: no IPv4 or IPv6 address stands before the slash, as in 192.0.2.0/24 or 2001:db8::/32: \"192.0.2/24\"

: domain net1
: prefix net1 192.0.2.0/024
= settings line 2
= line 2: the length of a prefix is a number, without leading zeros: \"192.0.2.0/024\"

: client 4294967296 net1
= settings line 1
= line 1: a peer is a number from 0 to 4294967295, without leading zeros: \"4294967296\"

: upstream
= settings line 1
= line 1: an upstream line is: upstream PEER, with one space between two fields: \"upstream\"

: upstream 4294967296
= settings line 1
= line 1: a peer is a number from 0 to 4294967295, without leading zeros: \"4294967296\"

: ceiling 0
= settings line 1
= line 1: the ceiling is a number of seconds from 1 to 604800, without leading zeros: \"0\"

: indefinite maybe
= settings line 1
= line 1: this word is yes or no: \"maybe\"

: capacity cells 1
= settings line 1
= line 1: a capacity is client-mitigations, domain-mitigations, clients, aliases, acls, remembered or observers: \"cells\"

: capacity clients 9
= settings capacity 1
= line 1: the limit of this capacity is a number from 1 to 8: \"9\"

: packet 192.0.2.1 192.0.2.2 17 - 53
= settings line 1
= line 1: a port is a number from 0 to 65535, without leading zeros, or both ports are -: \"-\"

: domain net1
: # again
: domain net1
= settings twice 3
= line 3: a line above declares this domain already: \"net1\"

: upstream 9
: upstream 8
= settings twice 2
= line 2: a line above names the upstream already, or this peer as a client or a gateway: \"8\"

: gateway 9
: upstream 9
= settings twice 2
= line 2: a line above names the upstream already, or this peer as a client or a gateway: \"9\"

: upstream 9
: client 9 net1
= settings twice 2
= line 2: a line above names this peer already, as a client, a gateway or the upstream: \"9\"

: gateway 3
: upstream 9
= domains: 0
= clients: 0
= gateways: 1
= upstream: 9
= host names: 0
= ceiling in seconds: 86400
= lifetimes without end: no
= client-mitigations: 16
= domain-mitigations: 64
= clients of a domain: 8
= aliases: 16
= acls: 8
= remembered: 64
= observers: 8
= sample packets: 0
? 0

: domain net1
: client 0 net2
= settings unknown 2
= line 2: no line above declares this domain: \"net2\"

: domain a
: domain b
: prefix a 192.0.2.0/24
: prefix b 192.0.2.0/25
= settings overlap 3 4
= line 4: this prefix overlaps one of another domain, which stands in line 3: \"192.0.2.0/25\"";

/// Scripts and what is told of them.
pub const SCRIPTS: &str = "\
$ check-script

= events: 0

: # none
:
= events: 0

: at 1000 from 0 50030002
: at 1001 from 0 50030002
= events: 2

: at 5 tick
= events: 1

: at 1000 from 0 50030002
: at 1001 tick
: #
: at 1001 tick
= events: 3

: at 1000 from 0 50030002
: at 1000 frm 0 5003
= script line 2: \"at 1000 frm 0 5003\"
= line 2: the third word of a line is from, open, piece, close, tick or restart: \"frm\"
? 3

: at 5 tock
= script line 1: \"at 5 tock\"
= line 1: the third word of a line is from, open, piece, close, tick or restart: \"tock\"
? 3

: at 6 restart
= events: 1

: at 5 tick
: at 6 restart
: at 7 restart
= events: 3

: at 5 tick
: at 6 restarts
= script line 2: \"at 6 restarts\"
= line 2: the third word of a line is from, open, piece, close, tick or restart: \"restarts\"
? 3

: at 5 tick 0
= script line 1: \"at 5 tick 0\"
= line 1: a tick line is: at SECONDS tick, with one space between two fields: \"at 5 tick 0\"
? 3

: at 5 tick +
= script line 1: \"at 5 tick \"
= line 1: a tick line is: at SECONDS tick, with one space between two fields: \"at 5 tick \"
? 3

: at 5 restart x
= script line 1: \"at 5 restart x\"
= line 1: a restart line is: at SECONDS restart, with one space between two fields: \"at 5 restart x\"
? 3

: at 5 restart +
= script line 1: \"at 5 restart \"
= line 1: a restart line is: at SECONDS restart, with one space between two fields: \"at 5 restart \"
? 3

: at 05 tick
= script line 1: \"at 05 tick\"
= line 1: the time is a number of seconds below 281474976710656, without leading zeros: \"05\"
? 3

: in 5 tick
= script line 1: \"in 5 tick\"
= line 1: the first word of a line is at: \"in\"
? 3

: at 1000 open 5 0
: at 1000 piece 5 474554
: at 1001 close 5
= events: 3

: at 5 open 4294967296 0
= script line 1: \"at 5 open 4294967296 0\"
= line 1: a connection is a number from 0 to 4294967295, without leading zeros: \"4294967296\"
? 3

: at 5 open 7 00
= script line 1: \"at 5 open 7 00\"
= line 1: a peer is a number from 0 to 4294967295, without leading zeros: \"00\"
? 3

: at 5 open 7
= script line 1: \"at 5 open 7\"
= line 1: an open line is: at SECONDS open CONN PEER, with one space between two fields: \"at 5 open 7\"
? 3

: at 5 piece 07 00
= script line 1: \"at 5 piece 07 00\"
= line 1: a connection is a number from 0 to 4294967295, without leading zeros: \"07\"
? 3

: at 5 piece 7 000
= script line 1: \"at 5 piece 7 000\"
= line 1: a piece is 1 to 4096 bytes in hexadecimal, two digits each: \"000\"
? 3

: at 5 piece 7 0g
= script line 1: \"at 5 piece 7 0g\"
= line 1: a piece is 1 to 4096 bytes in hexadecimal, two digits each: \"0g\"
? 3

: at 5 piece 7
= script line 1: \"at 5 piece 7\"
= line 1: a piece line is: at SECONDS piece CONN HEX, with one space between two fields: \"at 5 piece 7\"
? 3

: at 5 close x
= script line 1: \"at 5 close x\"
= line 1: a connection is a number from 0 to 4294967295, without leading zeros: \"x\"
? 3

: at 5 close 7 0
= script line 1: \"at 5 close 7 0\"
= line 1: a close line is: at SECONDS close CONN, with one space between two fields: \"at 5 close 7 0\"
? 3

: at 5 opened 7 0
= script line 1: \"at 5 opened 7 0\"
= line 1: the third word of a line is from, open, piece, close, tick or restart: \"opened\"
? 3

: at 5
= script line 1: \"at 5\"
= line 1: a line is: at SECONDS, and one of: from PEER HEX, open CONN PEER, piece CONN HEX, close CONN, tick, restart, with one space between two fields: \"at 5\"
? 3

: at 1000 from 0 500
= script line 1: \"at 1000 from 0 500\"
= line 1: a datagram is 1 to 4096 bytes in hexadecimal, two digits each: \"500\"
? 3

: at 01 from 0 50
= script line 1: \"at 01 from 0 50\"
= line 1: the time is a number of seconds below 281474976710656, without leading zeros: \"01\"
? 3

: at 1 from x 50
= script line 1: \"at 1 from x 50\"
= line 1: a peer is a number from 0 to 4294967295, without leading zeros: \"x\"
? 3

: at 1 from  0 50
= script line 1: \"at 1 from  0 50\"
= line 1: a from line is: at SECONDS from PEER HEX, with one space between two fields: \"at 1 from  0 50\"
? 3

: #
:| at 1 from 0 50
= script line 2: \"at 1 from 0 50\"
= line 2: the last line does not end with a line feed: \"at 1 from 0 50\"
? 3

:| at 5 tick
= script line 1: \"at 5 tick\"
= line 1: the last line does not end with a line feed: \"at 5 tick\"
? 3";
