// What a processor's own instructions (Intel Xeon) gave at 8 bits, with the flags that the manual leaves undefined as 0.

pub const SUMS: &str = "\
0 0 1 0 2 1 0 0 2 ff 5 0 2 0 2 0 2 0 2
1 ff 0 0 3 0 3 2 1 2 1 ff 5 1 0 ff 4 fe 4
7f 1 0 80 c 80 c 7e 0 7e 0 81 5 1 0 7f 0 7e 0
80 80 1 0 b 1 9 0 2 ff 5 80 d 80 4 80 4 0 2
80 ff 1 7f 9 80 5 81 5 80 5 80 d 80 4 ff 4 7f 0
0 ff 1 ff 4 0 3 1 1 0 3 0 2 0 2 ff 4 ff 4
7f 0 1 7f 0 80 c 7f 0 7e 0 81 5 0 2 7f 0 7f 0
0 80 0 80 4 80 4 80 d 80 d 0 2 0 2 80 4 80 4
a5 7a 0 1f 1 1f 1 2b 8 2b 8 5b 1 20 0 ff 4 df 4
7e 7c 1 fa c fb c 2 0 1 0 82 5 7c 0 7e 0 2 0
";

pub const SHIFTS: &str = "\
66 0 f 66 f 66 f 66 f 66 f 66 f
81 1 1 2 9 40 9 c0 5 3 9 c0 1
7f 1 0 fe c 3f 1 3f 1 fe 8 bf 9
c0 1 2 80 5 60 8 e0 4 81 3 60 a
12 2 0 48 0 4 1 4 1 48 0 84 1
cf 7 8 80 5 1 1 ff 5 e7 1 9f 1
c5 8 8 0 2 0 2 ff 5 c5 1 c5 1
b4 9 5 0 2 0 2 ff 5 69 5 5a 4
2e 10 6 0 2 0 2 0 2 2e 6 2e 6
fc 11 3 0 2 0 2 ff 5 f9 3 7e 2
41 1f 5 0 2 0 2 0 2 a0 4 82 5
50 20 c 50 c 50 c 50 c 50 c 50 c
5d 21 1 ba c 2e 1 2e 1 ba 8 ae 9
bf 3f 6 0 2 0 2 ff 5 df 7 7f 6
f7 40 0 f7 0 f7 0 f7 0 f7 0 f7 0
14 ff 8 0 2 0 2 0 2 a 0 28 0
";

pub const PRODUCTS: &str = "\
0 ff 0 0 0 0 0 0
1 ff ff 0 0 ff ff 0
ff ff 1 fe 1 1 0 0
80 80 0 40 1 0 40 1
80 ff 80 7f 1 80 0 1
7f 2 fe 0 0 fe 0 1
fe 3 fa 2 1 fa ff 0
a0 b5 20 71 1 20 1c 1
c6 13 b2 e 1 b2 fb 1
10 8 80 0 0 80 0 1
";

pub const QUOTIENTS: &str = "\
0 7 2 3 1 0 3 1 0
ff f9 2 0 0 2 fd ff 0
0 7 fe 0 7 0 fd 1 0
ff f9 fe 0 0 2 3 ff 0
0 5 0 0 0 1 0 0 1
ff ff 0 0 0 1 0 0 1
80 0 ff 80 80 0 0 0 2
ff 80 ff 0 0 2 0 0 2
0 7f 1 7f 0 0 7f 0 0
0 80 1 80 0 0 0 0 2
ff 80 1 0 0 2 80 0 0
1 0 1 0 0 2 0 0 2
ff 0 ff 0 0 2 0 0 2
13 fb c4 1a 13 0 ab f 0
17 58 58 43 50 0 43 50 0
fd 4b 74 0 0 2 fb 8f 0
80 0 80 0 0 2 0 0 2
40 0 80 80 0 0 80 0 0
3f ff 80 7f 7f 0 81 7f 0
";
