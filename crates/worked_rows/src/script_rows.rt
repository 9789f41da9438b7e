//! A request over a script, and the time.

pub const SCRIPTS: &str = "\
$ replay settings
:&

# A mitigation ends 3600 s after it was accepted, at that second, and the time doesn't fall.
< at 1000 from 0 REQUEST
> to 0 REPLY
= ROW

# one datagram of four bytes
< at 1000 from 0 50030002
> to 0 50840002ff70617468

# a stranger moves the time
< at 1000 from 0 REQUEST
< at 5000 from 77 00
> to 0 REPLY

< at 1000 from 0 REQUEST
< at 4600 from 77 00
> to 0 REPLY

< at 1000 from 0 REQUEST
< at 4599 from 77 00
> to 0 REPLY
= ROW

< at 1000 from 0 REQUEST
< at 500 from 77 00
> to 0 REPLY
= ROW

# what comes on a connection is answered there, and changes nothing of what is answered to a datagram
< at 999 open 5 0
<~ at 999 piece 5 GET / HTTP/1.1~~
< at 1000 from 0 REQUEST
< at 1000 piece 5 00
< at 1001 close 5
>~ conn 5 NOT_FOUND
> to 0 REPLY
= ROW

# an opened connection moves the time, and so do its bytes and its end
< at 1000 from 0 REQUEST
< at 4600 open 5 0
> to 0 REPLY

< at 1000 from 0 REQUEST
< at 4600 piece 5 00
> to 0 REPLY

< at 1000 from 0 REQUEST
< at 4600 close 5
> to 0 REPLY

# half a byte of a connection is a fault
< at 1000 from 0 REQUEST
< at 1001 piece 5 000
> to 0 REPLY
? 5

# a connection has a number below 2^32
< at 1000 from 0 REQUEST
< at 1001 open 4294967296 0
> to 0 REPLY
? 5

# an end of a connection names nothing else
< at 1000 from 0 REQUEST
< at 1001 close 5 0
> to 0 REPLY
? 5

# an empty script

# a last line without its line feed is a fault, so the run ends without a report
< at 1000 from 0 REQUEST
<| at 1001 from 0 50030002
> to 0 REPLY
? 5

# the report can't be written
! write 1
< at 1000 from 0 REQUEST
> to 0 REPLY
? 9";
