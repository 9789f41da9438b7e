//! What host files say, and their faults.

use crate::hosts::words::{number, word};
use dots_edge::{HostFault, read_host_file};
use std::alloc::Global;

/// Rows stand apart by `==`. The first line of each is how many lines say something, or the fault and its line, and the others are the
/// host file.
const FILES: &str = "\
said 16
# all of them
journal /var/lib/dots/journal
reserve 1073741824

signal 192.0.2.53:4646
signal 192.0.2.53:4647
signal [2001:db8::53]:4646
signal 192.0.2.54:4646
http 127.0.0.1:0
http [::1]:0
peer 0 192.0.2.1
peer 0 2001:db8::1
peer 4294967294 [2001:db8::2]:65535
peer 7 192.0.2.2:1
events 9999999999999999999
filters /var/lib/dots/filters
filters-nft /var/lib/dots/filters.nft
figures /var/lib/node/dots.prom
==
line 1
?
==
line 3
# c

journal
==
line 1
journal a b
==
line 1
signal 127.0.0.1
==
line 1
signal ::1:5
==
line 1
signal [127.0.0.1]:5
==
line 1
signal 127.0.0.1:65536
==
line 1
http 127.0.0.1:05
==
line 1
peer 4294967295 10.0.0.1
==
twice 2
peer 0 10.0.0.1
peer 1 ::ffff:10.0.0.1
==
twice 2
journal a
journal b
==
twice 2
signal 127.0.0.1:1
signal [::ffff:127.0.0.1]:1
==
twice 2
reserve 0
reserve 0
==
line 1
reserve 1073741825
==
many 6
http 127.0.0.1:1
http 127.0.0.1:2
signal 127.0.0.1:1
http 127.0.0.1:3
http 127.0.0.1:4
http 127.0.0.1:5
==
said 2
signal 0.0.0.0:4646
http [::]:80
==
wildcard 3
peer 0 192.0.2.1
signal [::]:4646
signal 127.0.0.1:4647
==
wildcard 2
http 127.0.0.1:80
http [::ffff:0.0.0.0]:81
==
twice 2
events 1
events 1
==
line 1
events -1
==
line 1
filters
==
line 1
filters-nft a b
==
line 2
filters -
filters-nft
==
line 1
figures
==
line 1
figures a b
==
twice 2
figures a
figures b
==
twice 2
figures a
filters-nft a
==
twice 2
figures a
journal a.new
==
twice 3
filters a
events 0
figures a
==
line 1
filter a
==
twice 2
filters a
filters b
==
twice 2
filters-nft a
filters-nft b
==
twice 3
journal a
filters b
filters-nft a
==
twice 2
journal a.new
filters a
==
twice 3
events 0
filters a
filters-nft a.new
==
said 3
filters b.new
filters-nft a.ne
journal a.old.new";

/// What a host file has, and its number.
fn found(alloc: Global, file: &str) -> (&'static str, u64) {
    match read_host_file(alloc, file.as_bytes()) {
        Ok(lines) => ("said", lines.len() as u64),
        Err(HostFault::Line { n }) => ("line", n),
        Err(HostFault::Twice { n }) => ("twice", n),
        Err(HostFault::Many { n }) => ("many", n),
        Err(HostFault::Wildcard { n }) => ("wildcard", n),
        Err(HostFault::NoMemory) => ("memory", 0),
    }
}

fn holds(alloc: Global, row: &str) -> bool {
    let (want, file) = row.split_once('\n').unwrap_or((row, ""));
    found(alloc, file) == (word(want, 0), number(want, 1))
}

#[test]
fn host_files_are_read(rt: HostRuntime) {
    for row in FILES.split("\n==\n") {
        assert!(rt; holds(rt.alloc(), row), "at {row}");
    }
}
