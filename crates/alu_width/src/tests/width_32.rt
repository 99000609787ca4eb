// What a processor's own instructions (Intel Xeon) gave at 32 bits, with the flags that the manual leaves undefined as 0.

pub const SUMS: &str = "\
0 0 1 0 2 1 0 0 2 ffffffff 5 0 2 0 2 0 2 0 2
1 ffffffff 0 0 3 0 3 2 1 2 1 ffffffff 5 1 0 ffffffff 4 fffffffe 4
7fffffff 1 0 80000000 c 80000000 c 7ffffffe 0 7ffffffe 0 80000001 5 1 0 7fffffff 0 7ffffffe 0
80000000 80000000 1 0 b 1 9 0 2 ffffffff 5 80000000 d 80000000 4 80000000 4 0 2
80000000 ffffffff 1 7fffffff 9 80000000 5 80000001 5 80000000 5 80000000 d 80000000 4 ffffffff 4 7fffffff 0
0 ffffffff 1 ffffffff 4 0 3 1 1 0 3 0 2 0 2 ffffffff 4 ffffffff 4
7fffffff 0 1 7fffffff 0 80000000 c 7fffffff 0 7ffffffe 0 80000001 5 0 2 7fffffff 0 7fffffff 0
0 80000000 0 80000000 4 80000000 4 80000000 d 80000000 d 0 2 0 2 80000000 4 80000000 4
1bb7458d 826ce846 0 9e242dd3 4 9e242dd3 4 994a5d47 d 994a5d47 d e448ba73 5 2244004 0 9bffedcf 4 99dbadcb 4
b576e016 dd0ac856 1 9281a86c 5 9281a86d 5 d86c17c0 5 d86c17bf 5 4a891fea 1 9502c016 4 fd7ee856 4 687c2840 0
";

pub const SHIFTS: &str = "\
5f840846 0 f 5f840846 f 5f840846 f 5f840846 f 5f840846 f 5f840846 f
80000001 1 5 2 9 40000000 9 c0000000 5 3 d c0000000 5
7fffffff 1 a fffffffe c 3fffffff 1 3fffffff 1 fffffffe a bfffffff b
c0000000 1 e 80000000 5 60000000 8 e0000000 4 80000001 7 60000000 e
ea312032 2 2 a8c480c8 5 3a8c480c 1 fa8c480c 5 a8c480cb 3 ba8c480c 3
ee786c6f 7 7 3c363780 1 1dcf0d8 1 ffdcf0d8 5 3c3637f7 7 dfdcf0d8 7
1f00e279 8 d e27900 1 1f00e2 0 1f00e2 0 e2791f 5 791f00e2 4
5942e406 9 e 85c80c00 4 2ca172 0 2ca172 0 85c80cb2 6 32ca172 6
e46d88e 10 f d88e0000 4 e46 1 e46 1 d88e0e46 6 d88e0e46 7
1692fe12 11 e fc240000 5 b49 0 b49 0 fc242d25 7 7f090b49 6
e65638d0 1f 1 0 2 1 1 ffffffff 5 732b1c68 0 ccac71a1 1
b40031a0 20 3 b40031a0 3 b40031a0 3 b40031a0 3 b40031a0 3 b40031a0 3
da01e5b0 21 b b403cb60 5 6d00f2d8 8 ed00f2d8 4 b403cb61 3 6d00f2d8 a
31046daf 3f 4 80000000 5 0 2 0 2 988236d7 5 6208db5e 4
df328269 40 d df328269 d df328269 d df328269 d df328269 d df328269 d
d12fc0d7 ff 6 80000000 5 1 1 ffffffff 5 e897e06b 7 a25f81af 7
";

pub const PRODUCTS: &str = "\
0 ffffffff 0 0 0 0 0 0
1 ffffffff ffffffff 0 0 ffffffff ffffffff 0
ffffffff ffffffff 1 fffffffe 1 1 0 0
80000000 80000000 0 40000000 1 0 40000000 1
80000000 ffffffff 80000000 7fffffff 1 80000000 0 1
7fffffff 2 fffffffe 0 0 fffffffe 0 1
fffffffe 3 fffffffa 2 1 fffffffa ffffffff 0
bfd1b983 ff901a30 1ada1690 bf7de161 1 1ada1690 1c0dae 1
527b604 3ad0f868 5bb5d1a0 12f3481 1 5bb5d1a0 12f3481 1
10000 8000 80000000 0 0 80000000 0 1
";

pub const QUOTIENTS: &str = "\
0 7 2 3 1 0 3 1 0
ffffffff fffffff9 2 0 0 2 fffffffd ffffffff 0
0 7 fffffffe 0 7 0 fffffffd 1 0
ffffffff fffffff9 fffffffe 0 0 2 3 ffffffff 0
0 5 0 0 0 1 0 0 1
ffffffff ffffffff 0 0 0 1 0 0 1
80000000 0 ffffffff 80000000 80000000 0 0 0 2
ffffffff 80000000 ffffffff 0 0 2 0 0 2
0 7fffffff 1 7fffffff 0 0 7fffffff 0 0
0 80000000 1 80000000 0 0 0 0 2
ffffffff 80000000 1 0 0 2 80000000 0 0
1 0 1 0 0 2 0 0 2
ffffffff 0 ffffffff 0 0 2 0 0 2
aa64398 d0eee91f efcc930d b5e7377 e501b714 0 0 0 2
880696b e5545379 5cdb059f 17704d74 32d4f46d 0 17704d74 32d4f46d 0
f647cbab 33b4d13c 74038861 0 0 2 ea8d7185 973f25d7 0
80000000 0 80000000 0 0 2 0 0 2
40000000 0 80000000 80000000 0 0 80000000 0 0
3fffffff ffffffff 80000000 7fffffff 7fffffff 0 80000001 7fffffff 0
";
