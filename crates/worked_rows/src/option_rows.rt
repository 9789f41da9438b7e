//! Paths, methods, options and queries.

pub const OPTIONS: &str = "\
$ replay settings
:&

# What is wrong with the path, the method and the options of a request decides in this order; then it is looked at the body.
# parameters in another order
< at 1000 from 0 START+056d69643d3706637569643d62+NET1
> to 0 NO_PATH

# a method that the resource hasn't
< at 1000 from 0 510200014abb2e77656c6c2d6b6e6f776e04646f7473086d69746967617465+B_7+NET1
> to 0 518500014aff6d6574686f64

# no mid
< at 1000 from 0 START+CUID+NET1
> to 0 NO_PARAMETER

# a mid that isn't a number
< at 1000 from 0 START+06637569643d62056d69643d61+NET1
> to 0 NO_PARAMETER

# a Hop-Limit of 0
< at 1000 from 0 START+B_7+12010f4100ffa101a10281a206816c3139322e302e322e302f32340e190e10
> to 0 HOP_LIMIT

# which comes before a missing mid
< at 1000 from 0 START+CUID+12010f4100ff00
> to 0 HOP_LIMIT

# Accept 50 comes before Content-Format 60
< at 1000 from 0 START+B_7+113c5132ff00
> to 0 518600014aff616363657074

# and both come before the body
< at 1000 from 0 START+B_7+113cff00
> to 0 518f00014aff636f6e74656e7420666f726d6174

# A Hop-Limit that isn't 0 makes no difference, and neither do a missing Content-Format, Accept 271 and keys that are to be ignored.
# Other keys that aren't known are refused.
< at 1000 from 0 HEAD+MID_123+12010f4101ffa101a10281a206816c3139322e302e322e302f32340e190e10
> to 0 REPLY
= ROW

< at 1000 from 0 HEAD+MID_123+ffa101a10281a206816c3139322e302e322e302f32340e190e10
> to 0 REPLY
= ROW

< at 1000 from 0 HEAD+MID_123+12010f52010fffa101a10281a206816c3139322e302e322e302f32340e190e10
> to 0 REPLY
= ROW

< at 1000 from 0 HEAD+MID_123+12010fffa101a10281a306816c3139322e302e322e302f32340e190e10188200
> to 0 REPLY
= ROW

< at 1000 from 0 HEAD+MID_123+12010fffa101a10281a306816c3139322e302e322e302f32340e190e10183c00
> to 0 518000014aff756e6b6e6f776e203630

# What is wrong with the path of a request is answered.
< at 1000 from 0 510100014abb2e77656c6c2d6b6e6f776e04646f7473086d69746967617465+CUID
> to 0 ABSENT

< at 1000 from 0 510400014abb2e77656c6c2d6b6e6f776e04646f7473086d69746967617465+CUID
> to 0 NO_PARAMETER

< at 1000 from 0 510400014abb2e77656c6c2d6b6e6f776e04646f7473086d69746967617465+B_7
> to 0 DELETED

# A GET with a query that isn't one of the contents.
< at 1000 from 0 510100014abb2e77656c6c2d6b6e6f776e04646f7473086d69746967617465+CUID+43633d61
> to 0 ABSENT

< at 1000 from 0 510100014abb2e77656c6c2d6b6e6f776e04646f7473086d69746967617465+CUID+43633d78
> to 0 QUERY

< at 1000 from 0 510100014abb2e77656c6c2d6b6e6f776e04646f7473086d69746967617465+CUID+43633d6103633d61
> to 0 QUERY";
