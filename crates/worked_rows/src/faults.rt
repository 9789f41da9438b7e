//! Which settings are refused, and by which line.

/// One blank stands between the fields, and nothing else does: a line with a tab, a second blank, a carriage return, a
/// capital in a domain or a number with leading zeros has none of the forms.
pub const FAULTY: &str = "\
$ replay settings
? 3

:| \x20
= settings line 1

:| domain\tnet1
= settings line 1

:| domain  net1
= settings line 1

: domain net1\r+
= settings line 1

:| Domain net1
= settings line 1

:| gateway 03
= settings line 1

:| gateway +3
= settings line 1

:| gateway 4294967296
= settings line 1

:| gateway 4294967295
? 0

:| upstream
= settings line 1

:| upstream 9 net1
= settings line 1

:| upstream 09
= settings line 1

:| upstream 4294967296
= settings line 1

:| upstream 4294967295
? 0

:| name a b 192.0.2.1/32
= settings line 1

:| name a 192.0.2.1
= settings line 1

:| name a 192.0.2.1/033
= settings line 1

:| name a 192.0.2.1/33
= settings line 1

:| capacity clients 01
= settings line 1

:| packet 192.0.2.1 192.0.2.2 256 1 2
= settings line 1

: #
:
: ceiling 604801
= settings line 3

: domain a
:
: domain a
= settings twice 3

: gateway 1
: client 1 a
= settings twice 2

: upstream 9
: upstream 8
= settings twice 2

: domain a
: client 9 a
: upstream 9
= settings twice 3

: gateway 9
: upstream 9
= settings twice 2

: upstream 9
: client 9 a
= settings twice 2

: upstream 9
: gateway 9
= settings twice 2

: ceiling 1
: ceiling 1
= settings twice 2

: indefinite no
: indefinite yes
= settings twice 2

: capacity acls 1
: capacity acls 9
= settings twice 2

: client 1 a
= settings unknown 1

: prefix a ::/0
: domain a
= settings unknown 1

: domain a
: prefix a ::/9
: domain b
: prefix b ::/8
= settings overlap 2 4

: domain a
: prefix a ::/8
: prefix a ::/8
? 0

: capacity clients 0
= settings capacity 1

: capacity aliases 17
= settings capacity 1

: capacity clients 100000000000000000000000
= settings capacity 1

:* 16 domain d%
? 0

:* 17 domain d%
= settings capacity 17

: domain a
:* 17 prefix a 10.1%.0.0/16
= settings capacity 18

: domain a
:* 65 client 1% a
= settings capacity 66

:* 5 gateway 1%
= settings capacity 5

:* 65 name n% 10.0.0.0/8
= settings capacity 65

:* 5 name a 10.1%.0.0/16
= settings capacity 5";

/// The byte after the last that a file may have is too much, in its line. What stands in that line isn't judged.
pub const LARGE: &str = "\
$ replay settings
? 3

:* 65536 #
? 0

:* 65537 #
= settings capacity 1

:
:* 65536 #
= settings capacity 2

:
:| x
:* 65535 #
= settings capacity 2";

/// The first read fails, or the second, which would tell the end; the line at fault isn't judged then. There is no third read.
pub const UNREAD: &str = "\
$ replay settings
: x

! read 1
? 5

! read 2
? 5

! read 3
= settings line 1
? 3";
