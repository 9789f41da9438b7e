//! Sessions: their configuration, and heartbeats both ways.

pub const SESSIONS: &str = "\
$ replay settings
:&

# Nothing is configured at first, and the defaults are shown. A value out of its range is refused with its key; a sid is set, set again and
# replaced by a higher one; a lower one is refused; and what is given up is gone.
< at 1000 from 0 51010001+CONFIGURE
< at 1001 from 0 51030002+CONFIGURE+057369643d35+OFFER+0a
< at 1002 from 0 51030003+CONFIGURE+057369643d35+OFFER+183c
< at 1003 from 0 51030004+CONFIGURE+057369643d35+OFFER+185a
< at 1004 from 0 51030005+CONFIGURE+057369643d36+OFFER+183c
< at 1005 from 0 51030006+CONFIGURE+057369643d34+OFFER+183c
< at 1006 from 0 51010007+CONFIGURE
< at 1007 from 0 51010008+CONFIGURE+057369643d36
< at 1008 from 0 51010009+CONFIGURE+057369643d35
< at 1009 from 0 5104000a+CONFIGURE+057369643d35
< at 1010 from 0 5104000b+CONFIGURE+057369643d36
< at 1011 from 0 5101000c+CONFIGURE
> to 0 51450001+CBOR+a1181ea21820+VALUES+182c+VALUES
> to 0 519600024aff72616e6765203333
> to 0 514100034a
> to 0 514400044a
> to 0 514100054a
> to 0 518900064aff736964
> to 0 51450007+CBOR+a1181ea3181f061820+VALUES+182c+VALUES_60
> to 0 51450008+CBOR+a1181ea3181f061820+VALUES+182c+VALUES_60
> to 0 518400094aff616273656e74
> to 0 5142000a4a
> to 0 5142000b4a
> to 0 5145000c+CBOR+a1181ea21820+VALUES+182c+VALUES

# A repeat is answered as the message was, and sets nothing anew. What is configured is each peer's own, a gateway's too, and is there after a
# restart.
< at 1000 from 0 51030001+CONFIGURE+057369643d35+OFFER+183c
< at 1001 from 0 51040002+CONFIGURE+057369643d35
< at 1002 from 0 51030001+CONFIGURE+057369643d35+OFFER+183c
< at 1003 from 0 51010003+CONFIGURE
< at 1004 from 3 51030001+CONFIGURE+057369643d35+OFFER+183c
< at 1005 restart
< at 1006 from 3 51010002+CONFIGURE
< at 1007 from 1 51010002+CONFIGURE
> to 0 514100014a
> to 0 514200024a
> to 0 514100014a
> to 0 51450003+CBOR+a1181ea21820+VALUES+182c+VALUES
> to 3 514100014a
> to 3 51450002+CBOR+a1181ea3181f051820+VALUES+182c+VALUES_60
> to 1 51450002+CBOR+a1181ea21820+VALUES+182c+VALUES

# A heartbeat is answered, and the server's own come each 30 s from the time at which the peer was heard first, with Message IDs that begin with
# this time. Their status is whether the peer was heard within the interval. Other paths are none, and what can't be read isn't answered.
< at 1000 from 0 51030009+BEAT_4A+f5
< at 1029 tick
< at 1030 tick
< at 1059 tick
< at 1061 tick
< at 1090 tick
< at 1091 tick
> to 0 514400094a
> to 0 500303e8+BEAT+f5
> to 0 500303e9+BEAT+f4
> to 0 500303ea+BEAT+f4

< at 1000 from 0 510300094abb2e77656c6c2d6b6e6f776e04646f747303686262
< at 1000 from 0 510300094abb2e77656c6c2d6b6e6f776e04646f747302686262
> to 0 518400094aff70617468

# A ping is heard, and so are an acknowledgement and a refused request; what can't be read isn't heard, and a stranger never is. Peers are sent
# theirs in the order of the settings.
< at 1000 from 2 40001234
< at 1000 from 1 60001235
< at 1000 from 0 510300094abb2e77656c6c2d6b6e6f776e04646f747303686262
< at 1000 from 3 400112
< at 1000 from 77 40001234
< at 1030 tick
> to 2 70001234
> to 0 518400094aff70617468
> to 0 500303e8+BEAT+f5
> to 1 500303e8+BEAT+f5
> to 2 500303e8+BEAT+f5

# A session is forgotten once the peer wasn't heard for 15 intervals. It begins again when the peer is heard, and Message IDs go on. A restart
# forgets them.
< at 1000 from 0 40001234
< at 1450 tick
< at 1451 tick
< at 1500 from 0 40001235
< at 1529 tick
< at 1530 tick
< at 1531 restart
< at 1561 tick
< at 1600 from 0 40001236
< at 1630 tick
> to 0 70001234
> to 0 500303e8+BEAT+f4
> to 0 70001235
> to 0 500303e9+BEAT+f5
> to 0 70001236
> to 0 50030640+BEAT+f5

# The interval is the peer's own: that of idle times, and while a mitigation of the peer filters that of mitigating times. With an interval of 0
# there are no heartbeats.
< at 1000 from 0 51030001+CONFIGURE+057369643d35+OFFER+183c
< at 1030 tick
< at 1060 tick
< at 1060 from 0 51030002+MITIGATE+CUID+MID_123+NET1
< at 1089 tick
< at 1090 tick
< at 1091 from 0 51030003+CONFIGURE+057369643d35+12010fffa1181ea11820a11821a1182400
< at 1500 tick
> to 0 514100014a
> to 0 500303e8+BEAT+f5
> to 0 51410002+CBOR+a101a10281a205187b0e190e10
> to 0 500303e9+BEAT+f5
> to 0 514400034a
= ROW";
