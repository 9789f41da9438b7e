//! Words that are shown as messages of CoAP (RFC 7252, section 3), and words that spell none.

pub const SHOWN: &str = "\
? 1

$ show 51450001Abc2010fFFa101
= non 2.05 1 ab
= option 12 010f
= payload a101
? 0

$ show 400112
= fault short 3

$ show 80010001
= fault version 0

$ show 49030001
= fault token-length 0

$ show 4000000100
= fault empty-with-more 4

$ show 40030002f0
= fault reserved-nibble 4

$ show 40030003e0ffff
= fault number-too-large 4

$ show 4001123
= fault hex";
