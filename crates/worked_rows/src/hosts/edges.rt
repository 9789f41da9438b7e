//! The host of real sockets and a real file.

use crate::hosts::acts::all_go;
use crate::hosts::around::Around;
use crate::hosts::set_clock::SetClock;
use dots_edge::FileSocketHost;
use std::fs::{File, Files};
use std::net::Net;
use std::time::Clock;

/// Whether the acts go over a host.
fn goes_on<R: Files<File = File> + Net + Clock + Drop>(
    host: &mut FileSocketHost<R>,
    around: &mut Around<'_>,
    acts: &str,
) -> bool {
    around.http = host.http_port();
    around.signal = host.signal_port();
    all_go(host, around, acts)
}

/// Whether the acts go over a host of this file.
fn goes_over<R: Files<File = File> + Net + Clock + Drop>(
    of: R,
    around: &mut Around<'_>,
    file: &str,
    acts: &str,
) -> bool {
    match FileSocketHost::open(around.rt.alloc(), of, file.as_bytes()) {
        Ok(mut host) => {
            let goes = goes_on(&mut host, around, acts);
            drop(host);
            goes
        }
        Err(_) => false,
    }
}

/// The host file of this text, `PORT` standing for the first port of the peer.
fn host_file(around: &Around<'_>, text: &str) -> Option<String> {
    let alloc = around.rt.alloc();
    let port = around.port()?;
    let digits = format!(in alloc; "{port}").ok()?;
    text.replace(alloc, "PORT", digits.as_str()).ok()
}

fn goes_among(around: &mut Around<'_>, text: &str, acts: &str) -> bool {
    match host_file(around, text) {
        Some(file) => goes_over(around.clock, around, file.as_str(), acts),
        None => false,
    }
}

fn row_goes(rt: &HostRuntime, row: &str) -> bool {
    let (text, acts) = row.split_once("\n--\n").unwrap_or((row, ""));
    let clock = SetClock::new(rt);
    let mut around = Around::new(rt, &clock);
    let goes = goes_among(&mut around, text, acts);
    drop(around);
    goes
}

/// Rows stand apart by `==`. Each has a host file and acts over its host, with `--` between them. An empty line in front of that ends the
/// line above it.
const ROWS: &str = "\
http 127.0.0.1:0
peer 3 127.0.0.1:1

--
# A connection is opened, has a piece, an answer, and is closed by the client.
connect
next opened 0 3
stream write = ask
next piece 0 = ask
ok conn 0 = reply
stream read = reply
leave
next closed 0
no conn 0 = reply
==
http 127.0.0.1:0
peer 3 127.0.0.1:1

--
# The server closes a connection over bytes that it hasn't read: the client still gets the answer and then the end.
connect
next opened 0 3
stream write = more than is read
ok conn 0 = reply
ok close 0
stream read = reply
stream ended
no close 0
==
http 127.0.0.1:0
peer 3 127.0.0.1:1

--
# A second connection is opened soon, although much of the first waits.
connect
next opened 0 3
times 100 stream write = FULL
next piece 0 = FULL
connect
within 70 opened 1 3
==
signal 127.0.0.1:0
peer 5 127.0.0.1

--
# A reply goes to the port from which its datagram came, of two ports of one peer, and nowhere before one came.
no to 5 = no!
socket 0 send = abcd
socket 1 send
next from 5 = abcd
ok to 5 = one
next from 5
ok to 5 = two
socket 0 hear = one
socket 1 hear = two
==
signal 127.0.0.1:0
peer 5 127.0.0.1

--
# Two ports of a peer use the token 01: a GET comes from the one, which may have registered an observer there, and a DELETE from the other.
# Each reply goes back to where its request came from, and a notification to where the GET came from, however often.
socket 0 send = 0x4101000101
next from 5 = 0x4101000101
ok to 5 = 0x6145000101
socket 0 hear = 0x6145000101
socket 1 send = 0x4104000701
next from 5 = 0x4104000701
ok to 5 = 0x6142000701
ok to 5 = 0x4145009901
socket 1 hear = 0x6142000701
socket 0 hear = 0x4145009901
ok to 5 = 0x4145009a01
socket 0 hear = 0x4145009a01
# So it is where the notification has the Message ID that the DELETE had, once that has its reply. The reply to a NON is a NON.
socket 1 send = 0x5104000b01
next from 5 = 0x5104000b01
ok to 5 = 0x5142000b01
ok to 5 = 0x5145000b01
socket 1 hear = 0x5142000b01
socket 0 hear = 0x5145000b01
# A request of the server's own goes to where the peer was heard last, and so does a notification with a token that no GET had.
ok to 5 = 0x5003000c
socket 1 hear = 0x5003000c
ok to 5 = 0x5145000d02
socket 1 hear = 0x5145000d02
# A RST has no token, and goes back to where that came from to which it replies.
socket 0 send = 0x4000000e
next from 5 = 0x4000000e
ok to 5 = 0x7000000e
socket 0 hear = 0x7000000e
# A later GET with the token moves the observer.
socket 1 send = 0x4101000f01
next from 5 = 0x4101000f01
socket 0 send = 0x4000001000
next from 5 = 0x4000001000
ok to 5 = 0x5145001101
socket 1 hear = 0x5145001101
==
signal 127.0.0.1:0
peer 5 127.0.0.1

--
# A datagram of 4,096 bytes is handed in, and a longer one isn't.
socket 0 send = LONG
socket 0 send = FULL
next from 5 = FULL
==
signal 127.0.0.1:0
peer 5 127.0.0.1

--
# Datagrams that wait are handed in one after the other: a wait between them would hand in a tick.
times 140 socket 0 send = x
times 140 next from 5 = x
==
signal 127.0.0.1:0
peer 5 127.0.0.1:PORT

--
# A message to a peer that wasn't heard goes to the port of its line.
ok to 5 = new
socket 0 hear = new
==
signal 127.0.0.1:0
events 1

--
# A tick comes once a second has passed and nothing else has come, and after as many events as are said the end.
after 1700000000 tick
after 1700000000 end
==
http 127.0.0.1:0
peer 3 127.0.0.1

--
# A connection whose byte wasn't answered is closed after 30 seconds, and an idle one after 300, neither before.
connect
at 0 opened 0 3
stream write = x
at 0 piece 0 = x
at 29 tick
connect
at 29 opened 1 3
at 30 tick
at 30 closed 0
at 328 tick
connect
at 328 opened 0 3
at 329 tick
at 329 closed 1
==
?
--
# Nothing goes over a host that isn't open.
ports 0 0
next failed
no close 0
no read 0 = FULL
no write 0 = FULL
no sync
==
signal 192.0.2.1:0

--
ports 0 0
next failed
no close 0
no read 0 = FULL
no write 0 = FULL
no sync
==
journal /no/such/folder/j

--
ports 0 0
next failed
no close 0
no read 0 = FULL
no write 0 = FULL
no sync
==
events 0

--
# Without a journal line the wire alone works: here it ends at once.
next end
no read 0 = FULL
==
journal worked_rows_journal_kept

--
# What was written is read again, with zeros around it, also at the end of the disk. A second host can't open the file.
ok read 0 = 0x0000000000
ok write 8195 = abc
ok sync
ok write 4194303 = xy
ok sync
ok read 8194 = 0x0061626300
ok read 4194302 = 0x0078790000
ok read 1073741819 = 0x0000000000
second journal worked_rows_journal_kept
==
journal worked_rows_journal_kept

--
# The next host reads what the first wrote.
ok read 8194 = 0x0061626300
ok write 0 = q
ok sync
file worked_rows_journal_kept has 8388608
file worked_rows_journal_kept remove
==
journal worked_rows_journal_cut

--
# A read and a sync see that the file was cut by another hand.
ok write 0 = abc
ok sync
file worked_rows_journal_cut cut 2
no read 0 = abc
no sync
file worked_rows_journal_cut remove
==
events 0

--
# Files that are no journals: a text, one of a page and a bit, and one whose first slot has something behind the header.
file worked_rows_text put = text
file worked_rows_page put = LONG
file worked_rows_slot put = 0x0000000000
file worked_rows_slot cut 65
file worked_rows_slot cut 4096
==
journal worked_rows_text

--
# Nothing is written to it.
ports 0 0
next failed
no write 0 = FULL
no sync
file worked_rows_text holds = text
file worked_rows_text remove
==
journal worked_rows_page

--
next failed
no write 0 = FULL
file worked_rows_page has 4097
file worked_rows_page remove
==
journal worked_rows_slot

--
# Whole pages of zeros may be a journal, and one whose gate is open. The gate is the byte 0xa5.
ok read 0 = 0x0000000000
ok write 0 = 0xa5
ok write 4096 = abc
file worked_rows_slot has 4194304
==
journal worked_rows_slot

--
ok read 0 = 0xa500000000
ok write 0 = 0x00
==
journal worked_rows_slot

--
# Here something stands in the first slot, behind a gate that isn't open.
next failed
no read 0 = FULL
file worked_rows_slot remove
==
journal .

--
next failed
no read 0 = FULL
==
journal worked_rows_reserved
reserve 12000

--
# What is reserved is there from the start on, as whole pages, and the disk has no more.
size 12288
file worked_rows_reserved has 12288
ok write 12285 = abc
ok sync
file worked_rows_reserved has 12288
file worked_rows_reserved remove
==
journal worked_rows_lost

--
# A file that is gone from its path is seen at the next tick, and no call of the disk goes well then.
ok write 0 = q
ok sync
file worked_rows_lost remove
ok sync
next tick
no read 0 = FULL
no write 0 = q
no sync
next tick
==
journal worked_rows_other

--
# The same of one that another file took the place of.
ok sync
file worked_rows_other remove
file worked_rows_other put = text
next tick
no write 0 = q
file worked_rows_other holds = text
file worked_rows_other remove
==
http 127.0.0.1:0
peer 3 127.0.0.1

--
# The time goes on by the clock that isn't set, whatever the wall clock says.
connect
at 100 opened 0 3
wall 31536000
at 101 tick
wall 0
at 102 tick
==
signal 127.0.0.1:0
signal 127.0.0.2:0
peer 5 127.0.0.1

--
# Datagrams that wait at the first of two sockets are handed in one after the other.
times 140 socket 0 send = x
times 140 next from 5 = x
ok to 5 = one
socket 0 hear = one";

#[test]
fn rows_of_the_edge(rt: HostRuntime) {
    for row in ROWS.split("\n==\n") {
        assert!(rt; row_goes(&rt, row), "at {row}");
    }
}
