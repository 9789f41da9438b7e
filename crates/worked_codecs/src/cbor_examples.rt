//! Items of CBOR in hexadecimal, many of them of RFC 8949, appendix A.

/// The examples of the appendix that are their own deterministic encodings, an array of the greatest depth, and a
/// mitigation request.
pub const DETERMINISTIC: &str = "\
00 01 0a 17 1818 1819 1864 1903e8 1a000f4240 1b000000e8d4a51000 1bffffffffffffffff c249010000000000000000
3bffffffffffffffff c349010000000000000000 20 29 3863 3903e7 f4 f5 f6
c074323031332d30332d32315432303a30343a30305a c11a514b67b0 d74401020304 d818456449455446
d82076687474703a2f2f7777772e6578616d706c652e636f6d 40 4401020304 60 6161 6449455446 62225c 62c3bc 63e6b0b4
64f0908591 80 83010203 8301820203820405 98190102030405060708090a0b0c0d0e0f101112131415161718181819 a0
a201020304 a26161016162820203 826161a161626163 a56161614161626142616361436164614461656145
8181818181818181818181818181818100 a101a10281a206816c3139322e302e322e302f32340e190e10";

/// Other spellings, each in front of the deterministic encoding of what it spells. The last ten are not of the appendix; in
/// three of them keys fall, come in no order, and are longer than they need be.
pub const OTHERS: &str = "\
5f42010243030405ff = 450102030405
7f657374726561646d696e67ff = 6973747265616d696e67
9fff = 80
9f018202039f0405ffff = 8301820203820405
9f01820203820405ff = 8301820203820405
83018202039f0405ff = 8301820203820405
83019f0203ff820405 = 8301820203820405
9f0102030405060708090a0b0c0d0e0f101112131415161718181819ff = 98190102030405060708090a0b0c0d0e0f101112131415161718181819
bf61610161629f0203ffff = a26161016162820203
826161bf61626163ff = 826161a161626163
bf6346756ef563416d7421ff = a263416d74216346756ef5
1817 = 17
1b0000000000000000 = 00
5800 = 40
7f780161ff = 6161
b9000203041b000000000000000102 = a201020304
5fff = 40
bfff = a0
a3030002010102 = a3010202010300
bf020061620120020103616104810005616306ff = a7010302002002616104616201616306810005
a218010019000001 = a200010100";

/// The examples of the appendix that are floats and other simple values.
pub const UNSUPPORTED: &str = "\
f90000 f98000 f93c00 fb3ff199999999999a f93e00 f97bff fa47c35000 fa7f7fffff fb7e37e43c8800759c f90001 f90400 = a float or another simple value at 0
f9c400 fbc010666666666666 f97c00 f97e00 f9fc00 fa7f800000 fa7fc00000 faff800000 fb7ff0000000000000 = a float or another simple value at 0
fb7ff8000000000000 fbfff0000000000000 f7 f0 f8ff = a float or another simple value at 0";

/// What spells no item, each in front of its first fault and the place of that.
pub const FAULTS: &str = "\
820119 = the input ends inside the item at 3
 = the input ends inside the item at 0
816261 = the input ends inside the item at 3
9f01 = the input ends inside the item at 2
9bffffffffffffffff00 = the input ends inside the item at 10
82011c = a byte that means nothing at 2
ff = a byte that means nothing at 0
811f = a byte that means nothing at 1
bf01ff = a byte that means nothing at 2
5f41616161ff = a byte that means nothing at 3
5f5fffff = a byte that means nothing at 1
8161ff = a text isn't UTF-8 at 1
7f616161ffff = a text isn't UTF-8 at 3
a20101011c = a key comes twice at 3
a20101180100 = a key comes twice at 3
a302000100011c = a key comes twice at 5
a302000100021c = a key comes twice at 5
bf02000100030018011c = a key comes twice at 7
a101a10281a306816c3139322e302e322e302f32340e190e100e190e10 = a key comes twice at 25
8201e0 = a float or another simple value at 2
81f3 = a float or another simple value at 1
c1fb41d452d9ec200000 = a float or another simple value at 1
818181818181818181818181818181818100 = items nest too deep at 16
0000 = bytes after the item at 1
82010203 = bytes after the item at 3";
