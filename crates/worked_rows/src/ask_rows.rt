//! Runs of a client over a script: what it sends, and what it reports.

/// The first request of the client with the key `abc`, for 192.0.2.0/24 and 3600 s, and what follows.
pub const ASKED: &str = "\
$ ask settings host
: server 9
: spki 616263

# A request that isn't answered is sent again when 3,001 ms have passed. Its grant is reported with the time when it came.
: at 1000 new 3600 192.0.2.0/24
< at 1000 tick
< at 1003 tick
< at 1004 tick
< at 1005 from 9 58410001+00000000+00000001+GRANTED_1
> to 9 58030001+00000000+00000001+CLIENT_ABC+056d69643d31+NET1
> to 9 58030001+00000000+00000001+CLIENT_ABC+056d69643d31+NET1
= granted 1 3600 1005

# another peer grants nothing
: at 1000 new 3600 192.0.2.0/24
< at 1000 tick
< at 1001 from 8 58410001+00000000+00000001+GRANTED_1
> to 9 58030001+00000000+00000001+CLIENT_ABC+056d69643d31+NET1

# the last mid was given, no request waits and nothing is granted: the first new one has mid 0
: mid 3221225471
: at 1000 new 3600 192.0.2.0/24
: at 1000 new 3600 192.0.2.0/24
< at 1000 tick
> to 9 58030001+00000000+00000001+CLIENT_ABC+056d69643d30+NET1
> to 9 58030002+00000000+00000002+CLIENT_ABC+056d69643d31+NET1

# the last mid is given, and a request waits
: mid 3221225470
: at 1000 new 3600 192.0.2.0/24
: at 1001 new 3600 192.0.2.0/24
< at 1001 tick
> to 9 58030001+00000000+00000001+CLIENT_ABC+0d016d69643d33323231323235343730+NET1
= ask 2 spent

# nothing is granted under this mid
: at 1000 refresh 7 60
: at 1000 withdraw 8
: at 2000 withdraw 9
< at 1000 tick
= ask 1 unknown 7
= ask 2 unknown 8

# A withdrawal waits for its answer, so that the mitigation can't be refreshed.
: number 255
: at 1000 new 3600 192.0.2.0/24
: at 1002 withdraw 1
: at 1003 refresh 1 60
< at 1000 tick
< at 1001 from 9 58410001+00000000+000000ff+GRANTED_1
< at 1003 tick
> to 9 580300ff+00000000+000000ff+CLIENT_ABC+056d69643d31+NET1
> to 9 58040100+00000000+00000100+CLIENT_ABC+056d69643d31
= ask 3 busy 1
= granted 1 3600 1001

# it is withdrawn
: at 1000 new 3600 192.0.2.0/24
: at 1002 withdraw 1
< at 1000 tick
< at 1001 from 9 58410001+00000000+00000001+GRANTED_1
< at 1002 tick
< at 1003 from 9 58420002+00000000+00000002
> to 9 58030001+00000000+00000001+CLIENT_ABC+056d69643d31+NET1
> to 9 58040002+00000000+00000002+CLIENT_ABC+056d69643d31

# a lifetime that has passed, and one without an end
: at 1000 new 60 192.0.2.0/24
: at 1000 new -1 192.0.2.0/24
< at 1000 tick
< at 1001 from 9 58410001+00000000+00000001+c2010fff+a101a10281a205010e183c
< at 1001 from 9 58410002+00000000+00000002+c2010fff+a101a10281a205020e20
< at 1061 tick
> to 9 58030001+00000000+00000001+CLIENT_ABC+056d69643d31+12010fff+a101a10281a206816c3139322e302e322e302f32340e183c
> to 9 58030002+00000000+00000002+CLIENT_ABC+056d69643d32+12010fff+a101a10281a206816c3139322e302e322e302f32340e20
= granted 2 -1 1001

# heartbeats of the server and of another peer
< at 1000 from 9 50031234+bb2e77656c6c2d6b6e6f776e+04646f7473+026862
< at 1000 from 8 50031234+bb2e77656c6c2d6b6e6f776e+04646f7473+026862
> to 9 50441234
";

/// Settings with a fault, and a report that fails.
pub const FAULTS: &str = "\
$ ask settings host
: server 9

# no name
? 3
= settings line 2

# asked before there is a name
: at 1000 new 3600 192.0.2.0/24
: spki 616263
? 3
= settings line 2

# the report can't be written
: spki 616263
: at 1000 refresh 7 60
< at 1000 tick
! write 1
? 9

# a line of the script that is none
: spki 616263
< at 1000 tock
? 5
";

/// A client that asks once, of the name that the key `abc` has. The line behind the last event is none, so it isn't read.
pub const PROTECTED: &str = "\
$ protect host 9 ungWv48Bz-pBQUDeXa4iIw 3600 192.0.2.0/24

# it is granted
< at 1000 tick
< at 1001 from 8 58410001+00000000+00000001+GRANTED_1
< at 1001 from 9 58410001+00000000+00000001+GRANTED_1
< over
> to 9 58030001+00000000+00000001+CLIENT_ABC+056d69643d31+NET1
= granted 1 3600

# The grant is of another mid.
< at 1000 tick
< at 1001 from 9 58410001+00000000+00000001+c2010fff+a101a10281a205020e190e10
< over
> to 9 58030001+00000000+00000001+CLIENT_ABC+056d69643d31+NET1
= refused 1 2.01
? 12

# it is refused
< at 1000 tick
< at 1003 from 9 58890001+00000000+00000001
< over
> to 9 58030001+00000000+00000001+CLIENT_ABC+056d69643d31+NET1
= refused 1 4.09
? 12

# No answer comes: it is sent four times, and given up.
< at 1000 tick
< at 1004 tick
< at 1010 tick
< at 1022 tick
< at 1045 tick
< at 1046 tick
< over
> to 9 58030001+00000000+00000001+CLIENT_ABC+056d69643d31+NET1
> to 9 58030001+00000000+00000001+CLIENT_ABC+056d69643d31+NET1
> to 9 58030001+00000000+00000001+CLIENT_ABC+056d69643d31+NET1
> to 9 58030001+00000000+00000001+CLIENT_ABC+056d69643d31+NET1
= no answer
? 13

# the end comes before an answer, and before any event
< at 1000 tick
> to 9 58030001+00000000+00000001+CLIENT_ABC+056d69643d31+NET1
= no answer
? 13

= no answer
? 13

# the wire fails, and the line can't be written
< over
? 5

< at 1000 tick
! write 1
> to 9 58030001+00000000+00000001+CLIENT_ABC+056d69643d31+NET1
? 9

# a lifetime without an end, and two prefixes
$ protect host 9 ungWv48Bz-pBQUDeXa4iIw -1 192.0.2.0/25,192.0.2.128/25
< at 1000 tick
< at 1001 from 9 58410001+00000000+00000001+c2010fff+a101a10281a205010e20
> to 9 58030001+00000000+00000001+CLIENT_ABC+056d69643d31+12010fffa101a10281a206826c3139322e302e322e302f32356e3139322e302e322e3132382f32350e20
= granted 1 -1

# Words that aren't of their form: the first is named, and no event is taken.
$ protect host 09 ungWv48Bz-pBQUDeXa4iIw 0 192.0.2.0/33
< over
= words SERVER
? 2

$ protect host 9  0 192.0.2.0/33
= words NAME
? 2

$ protect host 9 ungWv48Bz-pBQUDeXa4iIw 0 192.0.2.0/33
= words LIFETIME
? 2

$ protect host 9 ungWv48Bz-pBQUDeXa4iIw 3600 192.0.2.0/33
= words PREFIXES
? 2

$ protect host 9 ungWv48Bz-pBQUDeXa4iIw 3600
= words
? 2

$ protect -host 9 ungWv48Bz-pBQUDeXa4iIw 3600 192.0.2.0/24
= words
? 2
";
