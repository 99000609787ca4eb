// What a processor's own instructions (Intel Xeon) gave at 16 bits, with the flags that the manual leaves undefined as 0.

pub const SUMS: &str = "\
0 0 1 0 2 1 0 0 2 ffff 5 0 2 0 2 0 2 0 2
1 ffff 0 0 3 0 3 2 1 2 1 ffff 5 1 0 ffff 4 fffe 4
7fff 1 0 8000 c 8000 c 7ffe 0 7ffe 0 8001 5 1 0 7fff 0 7ffe 0
8000 8000 1 0 b 1 9 0 2 ffff 5 8000 d 8000 4 8000 4 0 2
8000 ffff 1 7fff 9 8000 5 8001 5 8000 5 8000 d 8000 4 ffff 4 7fff 0
0 ffff 1 ffff 4 0 3 1 1 0 3 0 2 0 2 ffff 4 ffff 4
7fff 0 1 7fff 0 8000 c 7fff 0 7ffe 0 8001 5 0 2 7fff 0 7fff 0
0 8000 0 8000 4 8000 4 8000 d 8000 d 0 2 0 2 8000 4 8000 4
419d ac5e 0 edfb 4 edfb 4 953f d 953f d be63 5 1c 0 eddf 4 edc3 4
a086 4a47 1 eacd 4 eace 4 563f 8 563e 8 5f7a 1 6 0 eac7 4 eac1 4
";

pub const SHIFTS: &str = "\
a913 0 f a913 f a913 f a913 f a913 f a913 f
8001 1 8 2 9 4000 9 c000 5 3 9 c000 1
7fff 1 e fffe c 3fff 1 3fff 1 fffe e bfff f
c000 1 8 8000 5 6000 8 e000 4 8001 1 6000 8
e54c 2 6 9530 5 3953 0 f953 4 9533 7 3953 6
1fd9 7 6 ec80 5 3f 1 3f 1 ec8f 7 b23f 7
ee85 8 8 8500 4 ee 1 ffee 5 85ee 0 85ee 1
f594 9 f 2800 1 7a 1 fffa 5 29eb 7 ca7a 7
d615 10 9 0 2 0 2 ffff 5 d615 1 d615 1
ba40 11 4 0 2 0 2 ffff 5 7481 5 5d20 4
74e 1f 0 0 2 0 2 0 2 3a7 1 e9c 0
d711 20 f d711 f d711 f d711 f d711 f d711 f
bf5e 21 0 7ebc 9 5faf 8 dfaf 4 7ebd 9 5faf 8
772f 3f 1 0 2 0 2 0 2 bb97 1 ee5e 1
17a5 40 a 17a5 a 17a5 a 17a5 a 17a5 a 17a5 a
f45f ff 7 0 2 0 2 ffff 5 fa2f 7 e8bf 7
";

pub const PRODUCTS: &str = "\
0 ffff 0 0 0 0 0 0
1 ffff ffff 0 0 ffff ffff 0
ffff ffff 1 fffe 1 1 0 0
8000 8000 0 4000 1 0 4000 1
8000 ffff 8000 7fff 1 8000 0 1
7fff 2 fffe 0 0 fffe 0 1
fffe 3 fffa 2 1 fffa ffff 0
fe37 8e0b 6e5d 8d0d 1 6e5d cb 1
29d7 2e44 bf1c 78f 1 bf1c 78f 1
100 80 8000 0 0 8000 0 1
";

pub const QUOTIENTS: &str = "\
0 7 2 3 1 0 3 1 0
ffff fff9 2 0 0 2 fffd ffff 0
0 7 fffe 0 7 0 fffd 1 0
ffff fff9 fffe 0 0 2 3 ffff 0
0 5 0 0 0 1 0 0 1
ffff ffff 0 0 0 1 0 0 1
8000 0 ffff 8000 8000 0 0 0 2
ffff 8000 ffff 0 0 2 0 0 2
0 7fff 1 7fff 0 0 7fff 0 0
0 8000 1 8000 0 0 0 0 2
ffff 8000 1 0 0 2 8000 0 0
1 0 1 0 0 2 0 0 2
ffff 0 ffff 0 0 2 0 0 2
d18 9c42 8ffa 1749 17f8 0 e213 38b4 0
965 95f7 3b1c 28b2 1c7f 0 28b2 1c7f 0
f295 c3d0 7fa8 0 0 2 e51a 84c0 0
8000 0 8000 0 0 2 0 0 2
4000 0 8000 8000 0 0 8000 0 0
3fff ffff 8000 7fff 7fff 0 8001 7fff 0
";
