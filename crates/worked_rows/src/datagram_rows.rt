//! Datagrams that ask for nothing, bodies in other spellings, and bodies that are refused.

pub const DATAGRAMS: &str = "\
$ replay settings
:&

# Messages that ask for nothing that is served; a stranger, 77, is never answered.
# a ping, and a confirmable message that can't be read
< at 1000 from 0 40001234
< at 1000 from 77 40001234
< at 1000 from 0 40011235ff
< at 1000 from 77 40011235ff
> to 0 70001234
> to 0 70001235

# three bytes; a non-confirmable request with an option that isn't known
< at 1000 from 0 400112
< at 1000 from 77 400112
< at 1000 from 0 5001123690
< at 1000 from 77 5001123690
< at 1000 from 0 4001123790
< at 1000 from 77 4001123790
> to 0 60821237ff6f7074696f6e2039

# another version, an empty non-confirmable message, an acknowledgement, a response
< at 1000 from 0 00011235
< at 1000 from 77 00011235
< at 1000 from 0 50001234
< at 1000 from 77 50001234
< at 1000 from 0 60001234
< at 1000 from 77 60001234
< at 1000 from 0 40451238
< at 1000 from 77 40451238
< at 1000 from 0 50451238
< at 1000 from 77 50451238
> to 0 70001238

# an option that isn't known and is critical, a second Content-Format, and a Uri-Host
< at 1000 from 0 41011239aa1133
< at 1000 from 77 41011239aa1133
< at 1000 from 0 41031239aac000
< at 1000 from 77 41031239aac000
< at 1000 from 0 41031239aac00000
< at 1000 from 77 41031239aac00000
< at 1000 from 0 41031239aa3100
< at 1000 from 77 41031239aa3100
> to 0 61821239aaff6f7074696f6e2031
> to 0 61841239aaff70617468
> to 0 61841239aaff70617468
> to 0 61841239aaff70617468

# Accept of three bytes, and twice
< at 1000 from 0 41031239aad304010203
< at 1000 from 77 41031239aad304010203
< at 1000 from 0 41031239aad10400010f
< at 1000 from 77 41031239aad10400010f
> to 0 61821239aaff6f7074696f6e203137
> to 0 61821239aaff6f7074696f6e203137

# paths that there aren't, with their tokens
< at 1000 from 0 5103000249
< at 1000 from 77 5103000249
< at 1000 from 0 52050002494a
< at 1000 from 77 52050002494a
> to 0 5184000249ff70617468
> to 0 52840002494aff70617468

# The request of all rows, confirmable: it is acknowledged with the same reply.
< at 1000 from 0 410300014abb2e77656c6c2d6b6e6f776e04646f7473086d697469676174650d0e637569643d647a3670486a6141446b614654626a72304a47427077076d69643d31323312010fffa101a10281a206816c3139322e302e322e302f32340e190e10
> to 0 614100014ac2010fffa101a10281a205187b0e190e10
= ROW

# The request of all rows with its body in another spelling: longer arguments, indefinite lengths and a text in parts.
< at 1000 from 0 HEAD+MID_123+12010fff+bf1801bf18029fbf18069f780c3139322e302e322e302f3234ff180e1a00000e10ffffffff
> to 0 REPLY
= ROW

< at 1000 from 0 HEAD+MID_123+12010fff+bf1801bf18029fbf18069f7f663139322e302e66322e302f3234ffff180e1a00000e10ffffffff
> to 0 REPLY
= ROW

# Bodies that can't be decoded: two lifetimes, a body that is cut, one with a byte behind it; and none at all. Items that aren't the
# body of a request are refused by their key.
< at 1000 from 0 HEAD+MID_123+12010fffa101a10281a306816c3139322e302e322e302f32340e190e100e190e10
> to 0 NO_CBOR

< at 1000 from 0 HEAD+MID_123+12010fffa101a10281a2
> to 0 NO_CBOR

< at 1000 from 0 HEAD+MID_123+12010fff0000
> to 0 NO_CBOR

< at 1000 from 0 HEAD+MID_123+12010f
> to 0 NO_CBOR

# invalid 0
< at 1000 from 0 HEAD+MID_123+12010fff00
> to 0 518000014aff696e76616c69642030

# missing 14
< at 1000 from 0 HEAD+MID_123+12010fffa101a10281a106816c3139322e302e322e302f3234
> to 0 518000014aff6d697373696e67203134

# missing 6
< at 1000 from 0 HEAD+MID_123+12010fffa101a10281a206800e190e10
> to 0 518000014aff6d697373696e672036

# Messages that can't be what they say, and a body of 3,900 arrays in one another: a request behind them is answered as ever.
# a token of nine bytes; an option of a length that can't be; one whose number is too large
< at 1000 from 0 49030001
< at 1000 from 0 40030002f0
< at 1000 from 0 40030003e0ffff
< at 1000 from 0 51030004+MITIGATE+CUID+056d69643d31+12010fff+3900*81
< at 1000 from 0 REQUEST
> to 0 70000001
> to 0 70000002
> to 0 70000003
> to 0 518000044aff63626f72
> to 0 REPLY
= ROW";
