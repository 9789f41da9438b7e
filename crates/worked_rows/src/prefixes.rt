//! Prefixes as text.

use ip_scope::{BadPrefix, MAX_PREFIX_TEXT, parse_prefix, write_prefix};

/// Prefixes, and how they are written (RFC 4291, sections 2.2 and 2.3; RFC 5952, section 4), or which fault they have.
const PREFIXES: &str = "\
0.0.0.0/0|0.0.0.0/0
192.0.2.7/24|192.0.2.0/24
255.255.255.255/32|255.255.255.255/32
10.99.100.9/9|10.0.0.0/9
::/0|::/0
0:0:0:0:0:0:0:1/128|::1/128
FF01:0:0:0:0:0:0:101/128|ff01::101/128
0:0:0:0:0:0:13.1.68.3/128|::d01:4403/128
::FFFF:129.144.52.38/128|::ffff:8190:3426/128
::ffff:192.0.2.1/128|::ffff:c000:201/128
2001:0DB8::CD30:0:0:0:0/60|2001:db8:0:cd30::/60
2001:0DB8:0:CD30::/60|2001:db8:0:cd30::/60
2001:DB8:0:0:1:0:0:1/128|2001:db8::1:0:0:1/128
2001:0db8::0001/128|2001:db8::1/128
2001:db8:0:0:0:0:2:1/128|2001:db8::2:1/128
2001:db8::1:1:1:1:1/128|2001:db8:0:1:1:1:1:1/128
2001:0:0:1:0:0:0:1/128|2001:0:0:1::1/128
2001:DB8::AABB/127|2001:db8::aaba/127
1:2:3:4:5:6:7::/128|1:2:3:4:5:6:7:0/128
ffff:ffff:ffff:ffff:ffff:ffff:255.255.255.255/128|ffff:ffff:ffff:ffff:ffff:ffff:ffff:ffff/128
192.0.2.0/33|length
192.0.2.0/999|length
::/129|length
|no prefix
192.0.2.0|no prefix
192.0.2.0/|no prefix
192.0.2.0/024|no prefix
192.0.2.0/24 |no prefix
192.0.2.0/1000|no prefix
192.0.2.0/+8|no prefix
192.0.02.0/24|no prefix
192.0.256.0/24|no prefix
192.0.2/24|no prefix
1:2:3:4:5:6:7/64|no prefix
1:2:3:4::5:6:7:8/64|no prefix
1::2::3/64|no prefix
12345::/64|no prefix
::g/64|no prefix
::192.0.2.1:1/64|no prefix
::/0/0|no prefix";

/// Whether a text is read as a prefix that is written so, or has this fault.
fn holds(row: &str) -> bool {
    let (text, want) = row.split_once('|').unwrap_or((row, ""));
    let mut into = [0; MAX_PREFIX_TEXT];
    match parse_prefix(text.as_bytes()) {
        Ok(prefix) => {
            let length = write_prefix(&prefix, &mut into);
            &into[..length] == want.as_bytes()
        }
        Err(BadPrefix::Length) => want == "length",
        Err(BadPrefix::NotPrefix) => want == "no prefix",
    }
}

#[test]
fn prefixes_are_read_and_written(rt: HostRuntime) {
    for row in PREFIXES.lines() {
        assert!(rt; holds(row), "at {row}");
    }
}
