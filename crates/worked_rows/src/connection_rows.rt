//! Connections to the data channel, of which a client has two at most.

pub const CONNECTIONS: &str = "\
$ replay settings
:&

# Two connections of a client are taken, and a third is closed.
< at 1000 open 1 0
< at 1000 open 2 0
< at 1000 open 3 0
> close 3

# Each client has its own two, whichever domain is theirs.
< at 1000 open 1 0
< at 1000 open 2 1
< at 1000 open 3 2
< at 1000 open 4 0
< at 1000 open 5 1
< at 1000 open 6 2
< at 1000 open 7 2
< at 1000 open 8 1
< at 1000 open 9 0
> close 7
> close 8
> close 9

# That of a stranger is closed, and so is that of a gateway, the first too.
< at 1000 open 1 77
< at 1000 open 2 3
> close 1
> close 2

# One that is closed makes room, the older or the newer.
< at 1000 open 1 0
< at 1000 open 2 0
< at 1001 close 1
< at 1001 open 3 0
< at 1001 open 4 0
< at 1002 close 3
< at 1002 open 5 0
< at 1002 open 6 0
< at 1003 close 2
< at 1003 close 5
< at 1003 open 7 0
< at 1003 open 8 0
< at 1003 open 9 0
> close 4
> close 6
> close 9

# One that isn't open makes none, nor one that wasn't taken, nor one of another client.
< at 1000 open 1 0
< at 1000 open 2 0
< at 1000 open 3 1
< at 1000 open 4 0
< at 1001 close 4
< at 1001 close 9
< at 1001 close 3
< at 1001 open 5 0
> close 4
> close 5

# A number is opened anew: what had it is forgotten before, so it is one connection.
< at 1000 open 1 0
< at 1000 open 1 0
< at 1000 open 2 0
< at 1000 open 3 0
> close 3

< at 1000 open 1 0
< at 1000 open 2 0
< at 1000 open 1 0
< at 1000 open 3 0
> close 3

# by another client
< at 1000 open 1 0
< at 1000 open 2 0
< at 1000 open 1 1
< at 1000 open 3 0
< at 1000 open 4 0
< at 1000 open 5 1
< at 1000 open 6 1
> close 4
> close 6

# by a stranger, whose connection is closed
< at 1000 open 1 0
< at 1000 open 2 0
< at 1000 open 1 77
< at 1000 open 3 0
< at 1000 open 4 0
> close 1
> close 4

# by a client that has two others
< at 1000 open 1 0
< at 1000 open 2 0
< at 1000 open 3 1
< at 1000 open 3 0
< at 1000 open 4 1
< at 1000 open 5 1
< at 1000 open 6 1
> close 3
> close 6

# A restart forgets all connections, and nothing is sent to them.
< at 1000 open 1 0
< at 1000 open 2 0
< at 1001 restart
< at 1001 open 3 0
< at 1001 open 4 0
< at 1001 open 5 0
> close 5

# They are forgotten by nothing else: neither by a datagram of their client, nor by a tick, nor as time passes.
< at 1000 open 1 0
< at 1000 open 2 0
< at 1000 from 0 REQUEST
< at 1001 tick
< at 1001 piece 9 00
< at 4600 from 77 00
< at 900000 open 3 0
> to 0 REPLY
> close 3

# A mitigation has ended as a connection opens or closes, and its observer isn't told before another event.
< at 1000 from 0 REQUEST
< at 1001 from 0 51010002+OBSERVE+CUID+MID_123+43633d6e
< at 4600 open 1 77
< at 4600 close 1
< at 4600 piece 1 00
> to 0 REPLY
> to 0 514500024a6101+SEEN+a101a10281a305187b0f1903e81002
> close 1
> to 0 518403e84aff616273656e74";
