/// Instructions, each alone: every operation at each width, with registers, memory and numbers, and each that locks
/// memory. Each is a line: its bytes, and behind a blank its text (as
/// `llvm-mc -triple=x86_64 -x86-asm-syntax=intel -show-encoding` gives them).
pub const FORMS: &str = "\
00C8 add al, cl\n\
007CDFF0 add byte ptr [rdi + 8*rbx - 16], bh\n\
024CDFF0 add cl, byte ptr [rdi + 8*rbx - 16]\n\
8044DFF0FB add byte ptr [rdi + 8*rbx - 16], -5\n\
08C8 or al, cl\n\
087CDFF0 or byte ptr [rdi + 8*rbx - 16], bh\n\
0A4CDFF0 or cl, byte ptr [rdi + 8*rbx - 16]\n\
804CDFF0FB or byte ptr [rdi + 8*rbx - 16], -5\n\
10C8 adc al, cl\n\
107CDFF0 adc byte ptr [rdi + 8*rbx - 16], bh\n\
124CDFF0 adc cl, byte ptr [rdi + 8*rbx - 16]\n\
8054DFF0FB adc byte ptr [rdi + 8*rbx - 16], -5\n\
18C8 sbb al, cl\n\
187CDFF0 sbb byte ptr [rdi + 8*rbx - 16], bh\n\
1A4CDFF0 sbb cl, byte ptr [rdi + 8*rbx - 16]\n\
805CDFF0FB sbb byte ptr [rdi + 8*rbx - 16], -5\n\
20C8 and al, cl\n\
207CDFF0 and byte ptr [rdi + 8*rbx - 16], bh\n\
224CDFF0 and cl, byte ptr [rdi + 8*rbx - 16]\n\
8064DFF0FB and byte ptr [rdi + 8*rbx - 16], -5\n\
28C8 sub al, cl\n\
287CDFF0 sub byte ptr [rdi + 8*rbx - 16], bh\n\
2A4CDFF0 sub cl, byte ptr [rdi + 8*rbx - 16]\n\
806CDFF0FB sub byte ptr [rdi + 8*rbx - 16], -5\n\
30C8 xor al, cl\n\
307CDFF0 xor byte ptr [rdi + 8*rbx - 16], bh\n\
324CDFF0 xor cl, byte ptr [rdi + 8*rbx - 16]\n\
8074DFF0FB xor byte ptr [rdi + 8*rbx - 16], -5\n\
38C8 cmp al, cl\n\
387CDFF0 cmp byte ptr [rdi + 8*rbx - 16], bh\n\
3A4CDFF0 cmp cl, byte ptr [rdi + 8*rbx - 16]\n\
807CDFF0FB cmp byte ptr [rdi + 8*rbx - 16], -5\n\
84C8 test al, cl\n\
F644DFF0FB test byte ptr [rdi + 8*rbx - 16], -5\n\
86E0 xchg ah, al\n\
88C8 mov al, cl\n\
887CDFF0 mov byte ptr [rdi + 8*rbx - 16], bh\n\
8A7CDFF0 mov bh, byte ptr [rdi + 8*rbx - 16]\n\
C644DFF0FB mov byte ptr [rdi + 8*rbx - 16], -5\n\
B1FB mov cl, -5\n\
FEC1 inc cl\n\
FE44DFF0 inc byte ptr [rdi + 8*rbx - 16]\n\
FEC9 dec cl\n\
FE4CDFF0 dec byte ptr [rdi + 8*rbx - 16]\n\
F6D1 not cl\n\
F654DFF0 not byte ptr [rdi + 8*rbx - 16]\n\
F6D9 neg cl\n\
F65CDFF0 neg byte ptr [rdi + 8*rbx - 16]\n\
0FC0C8 xadd al, cl\n\
6601C8 add ax, cx\n\
660154DFF0 add word ptr [rdi + 8*rbx - 16], dx\n\
66034CDFF0 add cx, word ptr [rdi + 8*rbx - 16]\n\
668144DFF0E803 add word ptr [rdi + 8*rbx - 16], 1000\n\
6609C8 or ax, cx\n\
660954DFF0 or word ptr [rdi + 8*rbx - 16], dx\n\
660B4CDFF0 or cx, word ptr [rdi + 8*rbx - 16]\n\
66814CDFF0E803 or word ptr [rdi + 8*rbx - 16], 1000\n\
6611C8 adc ax, cx\n\
661154DFF0 adc word ptr [rdi + 8*rbx - 16], dx\n\
66134CDFF0 adc cx, word ptr [rdi + 8*rbx - 16]\n\
668154DFF0E803 adc word ptr [rdi + 8*rbx - 16], 1000\n\
6619C8 sbb ax, cx\n\
661954DFF0 sbb word ptr [rdi + 8*rbx - 16], dx\n\
661B4CDFF0 sbb cx, word ptr [rdi + 8*rbx - 16]\n\
66815CDFF0E803 sbb word ptr [rdi + 8*rbx - 16], 1000\n\
6621C8 and ax, cx\n\
662154DFF0 and word ptr [rdi + 8*rbx - 16], dx\n\
66234CDFF0 and cx, word ptr [rdi + 8*rbx - 16]\n\
668164DFF0E803 and word ptr [rdi + 8*rbx - 16], 1000\n\
6629C8 sub ax, cx\n\
662954DFF0 sub word ptr [rdi + 8*rbx - 16], dx\n\
662B4CDFF0 sub cx, word ptr [rdi + 8*rbx - 16]\n\
66816CDFF0E803 sub word ptr [rdi + 8*rbx - 16], 1000\n\
6631C8 xor ax, cx\n\
663154DFF0 xor word ptr [rdi + 8*rbx - 16], dx\n\
66334CDFF0 xor cx, word ptr [rdi + 8*rbx - 16]\n\
668174DFF0E803 xor word ptr [rdi + 8*rbx - 16], 1000\n\
6639C8 cmp ax, cx\n\
663954DFF0 cmp word ptr [rdi + 8*rbx - 16], dx\n\
663B4CDFF0 cmp cx, word ptr [rdi + 8*rbx - 16]\n\
66817CDFF0E803 cmp word ptr [rdi + 8*rbx - 16], 1000\n\
6685C8 test ax, cx\n\
66F744DFF0E803 test word ptr [rdi + 8*rbx - 16], 1000\n\
6687CA xchg cx, dx\n\
6689C8 mov ax, cx\n\
668954DFF0 mov word ptr [rdi + 8*rbx - 16], dx\n\
668B54DFF0 mov dx, word ptr [rdi + 8*rbx - 16]\n\
66C744DFF0E803 mov word ptr [rdi + 8*rbx - 16], 1000\n\
66B9E803 mov cx, 1000\n\
66FFC1 inc cx\n\
66FF44DFF0 inc word ptr [rdi + 8*rbx - 16]\n\
66FFC9 dec cx\n\
66FF4CDFF0 dec word ptr [rdi + 8*rbx - 16]\n\
66F7D1 not cx\n\
66F754DFF0 not word ptr [rdi + 8*rbx - 16]\n\
66F7D9 neg cx\n\
66F75CDFF0 neg word ptr [rdi + 8*rbx - 16]\n\
660FC1C8 xadd ax, cx\n\
668D44DFF0 lea ax, [rdi + 8*rbx - 16]\n\
660FB6C1 movzx ax, cl\n\
660FBE4CDFF0 movsx cx, byte ptr [rdi + 8*rbx - 16]\n\
660F4CC1 cmovl ax, cx\n\
660F4754DFF0 cmova dx, word ptr [rdi + 8*rbx - 16]\n\
01C8 add eax, ecx\n\
0154DFF0 add dword ptr [rdi + 8*rbx - 16], edx\n\
034CDFF0 add ecx, dword ptr [rdi + 8*rbx - 16]\n\
8144DFF090EEFEFF add dword ptr [rdi + 8*rbx - 16], -70000\n\
09C8 or eax, ecx\n\
0954DFF0 or dword ptr [rdi + 8*rbx - 16], edx\n\
0B4CDFF0 or ecx, dword ptr [rdi + 8*rbx - 16]\n\
814CDFF090EEFEFF or dword ptr [rdi + 8*rbx - 16], -70000\n\
11C8 adc eax, ecx\n\
1154DFF0 adc dword ptr [rdi + 8*rbx - 16], edx\n\
134CDFF0 adc ecx, dword ptr [rdi + 8*rbx - 16]\n\
8154DFF090EEFEFF adc dword ptr [rdi + 8*rbx - 16], -70000\n\
19C8 sbb eax, ecx\n\
1954DFF0 sbb dword ptr [rdi + 8*rbx - 16], edx\n\
1B4CDFF0 sbb ecx, dword ptr [rdi + 8*rbx - 16]\n\
815CDFF090EEFEFF sbb dword ptr [rdi + 8*rbx - 16], -70000\n\
21C8 and eax, ecx\n\
2154DFF0 and dword ptr [rdi + 8*rbx - 16], edx\n\
234CDFF0 and ecx, dword ptr [rdi + 8*rbx - 16]\n\
8164DFF090EEFEFF and dword ptr [rdi + 8*rbx - 16], -70000\n\
29C8 sub eax, ecx\n\
2954DFF0 sub dword ptr [rdi + 8*rbx - 16], edx\n\
2B4CDFF0 sub ecx, dword ptr [rdi + 8*rbx - 16]\n\
816CDFF090EEFEFF sub dword ptr [rdi + 8*rbx - 16], -70000\n\
31C8 xor eax, ecx\n\
3154DFF0 xor dword ptr [rdi + 8*rbx - 16], edx\n\
334CDFF0 xor ecx, dword ptr [rdi + 8*rbx - 16]\n\
8174DFF090EEFEFF xor dword ptr [rdi + 8*rbx - 16], -70000\n\
39C8 cmp eax, ecx\n\
3954DFF0 cmp dword ptr [rdi + 8*rbx - 16], edx\n\
3B4CDFF0 cmp ecx, dword ptr [rdi + 8*rbx - 16]\n\
817CDFF090EEFEFF cmp dword ptr [rdi + 8*rbx - 16], -70000\n\
85C8 test eax, ecx\n\
F744DFF090EEFEFF test dword ptr [rdi + 8*rbx - 16], -70000\n\
87CA xchg ecx, edx\n\
89C8 mov eax, ecx\n\
8954DFF0 mov dword ptr [rdi + 8*rbx - 16], edx\n\
8B54DFF0 mov edx, dword ptr [rdi + 8*rbx - 16]\n\
C744DFF090EEFEFF mov dword ptr [rdi + 8*rbx - 16], -70000\n\
B990EEFEFF mov ecx, -70000\n\
FFC1 inc ecx\n\
FF44DFF0 inc dword ptr [rdi + 8*rbx - 16]\n\
FFC9 dec ecx\n\
FF4CDFF0 dec dword ptr [rdi + 8*rbx - 16]\n\
F7D1 not ecx\n\
F754DFF0 not dword ptr [rdi + 8*rbx - 16]\n\
F7D9 neg ecx\n\
F75CDFF0 neg dword ptr [rdi + 8*rbx - 16]\n\
0FC1C8 xadd eax, ecx\n\
8D44DFF0 lea eax, [rdi + 8*rbx - 16]\n\
0FB6C1 movzx eax, cl\n\
0FBE4CDFF0 movsx ecx, byte ptr [rdi + 8*rbx - 16]\n\
0F4CC1 cmovl eax, ecx\n\
0F4754DFF0 cmova edx, dword ptr [rdi + 8*rbx - 16]\n\
0FB744DFF0 movzx eax, word ptr [rdi + 8*rbx - 16]\n\
0FBFD1 movsx edx, cx\n\
4801C8 add rax, rcx\n\
480154DFF0 add qword ptr [rdi + 8*rbx - 16], rdx\n\
48034CDFF0 add rcx, qword ptr [rdi + 8*rbx - 16]\n\
488144DFF090EEFEFF add qword ptr [rdi + 8*rbx - 16], -70000\n\
4809C8 or rax, rcx\n\
480954DFF0 or qword ptr [rdi + 8*rbx - 16], rdx\n\
480B4CDFF0 or rcx, qword ptr [rdi + 8*rbx - 16]\n\
48814CDFF090EEFEFF or qword ptr [rdi + 8*rbx - 16], -70000\n\
4811C8 adc rax, rcx\n\
481154DFF0 adc qword ptr [rdi + 8*rbx - 16], rdx\n\
48134CDFF0 adc rcx, qword ptr [rdi + 8*rbx - 16]\n\
488154DFF090EEFEFF adc qword ptr [rdi + 8*rbx - 16], -70000\n\
4819C8 sbb rax, rcx\n\
481954DFF0 sbb qword ptr [rdi + 8*rbx - 16], rdx\n\
481B4CDFF0 sbb rcx, qword ptr [rdi + 8*rbx - 16]\n\
48815CDFF090EEFEFF sbb qword ptr [rdi + 8*rbx - 16], -70000\n\
4821C8 and rax, rcx\n\
482154DFF0 and qword ptr [rdi + 8*rbx - 16], rdx\n\
48234CDFF0 and rcx, qword ptr [rdi + 8*rbx - 16]\n\
488164DFF090EEFEFF and qword ptr [rdi + 8*rbx - 16], -70000\n\
4829C8 sub rax, rcx\n\
482954DFF0 sub qword ptr [rdi + 8*rbx - 16], rdx\n\
482B4CDFF0 sub rcx, qword ptr [rdi + 8*rbx - 16]\n\
48816CDFF090EEFEFF sub qword ptr [rdi + 8*rbx - 16], -70000\n\
4831C8 xor rax, rcx\n\
483154DFF0 xor qword ptr [rdi + 8*rbx - 16], rdx\n\
48334CDFF0 xor rcx, qword ptr [rdi + 8*rbx - 16]\n\
488174DFF090EEFEFF xor qword ptr [rdi + 8*rbx - 16], -70000\n\
4839C8 cmp rax, rcx\n\
483954DFF0 cmp qword ptr [rdi + 8*rbx - 16], rdx\n\
483B4CDFF0 cmp rcx, qword ptr [rdi + 8*rbx - 16]\n\
48817CDFF090EEFEFF cmp qword ptr [rdi + 8*rbx - 16], -70000\n\
4885C8 test rax, rcx\n\
48F744DFF090EEFEFF test qword ptr [rdi + 8*rbx - 16], -70000\n\
4887CA xchg rcx, rdx\n\
4889C8 mov rax, rcx\n\
488954DFF0 mov qword ptr [rdi + 8*rbx - 16], rdx\n\
488B54DFF0 mov rdx, qword ptr [rdi + 8*rbx - 16]\n\
48C744DFF090EEFEFF mov qword ptr [rdi + 8*rbx - 16], -70000\n\
48C7C190EEFEFF mov rcx, -70000\n\
48FFC1 inc rcx\n\
48FF44DFF0 inc qword ptr [rdi + 8*rbx - 16]\n\
48FFC9 dec rcx\n\
48FF4CDFF0 dec qword ptr [rdi + 8*rbx - 16]\n\
48F7D1 not rcx\n\
48F754DFF0 not qword ptr [rdi + 8*rbx - 16]\n\
48F7D9 neg rcx\n\
48F75CDFF0 neg qword ptr [rdi + 8*rbx - 16]\n\
480FC1C8 xadd rax, rcx\n\
488D44DFF0 lea rax, [rdi + 8*rbx - 16]\n\
480FB6C1 movzx rax, cl\n\
480FBE4CDFF0 movsx rcx, byte ptr [rdi + 8*rbx - 16]\n\
480F4CC1 cmovl rax, rcx\n\
480F4754DFF0 cmova rdx, qword ptr [rdi + 8*rbx - 16]\n\
480FB744DFF0 movzx rax, word ptr [rdi + 8*rbx - 16]\n\
480FBFD1 movsx rdx, cx\n\
0FC0E0 xadd al, ah\n\
00CF add bh, cl\n\
0FBEC7 movsx eax, bh\n\
4863C1 movsxd rax, ecx\n\
486354DFF0 movsxd rdx, dword ptr [rdi + 8*rbx - 16]\n\
51 push rcx\n\
6A4D push 77\n\
FF74DFF0 push qword ptr [rdi + 8*rbx - 16]\n\
5A pop rdx\n\
8F44DFF0 pop qword ptr [rdi + 8*rbx - 16]\n\
5C pop rsp\n\
54 push rsp\n\
C9 leave\n\
6698 cbw\n\
98 cwde\n\
4898 cdqe\n\
6699 cwd\n\
99 cdq\n\
4899 cqo\n\
90 nop\n\
F390 pause\n\
F30F1EFA endbr64\n\
0FAEF0 mfence\n\
0F0B ud2\n\
0F90C1 seto cl\n\
0F9344DFF0 setae byte ptr [rdi + 8*rbx - 16]\n\
0F96C2 setbe dl\n\
0F9FC4 setg ah\n\
4C8D150C000000 lea r10, [rip + 12]\n\
8B050A300000 mov eax, dword ptr [rip + 12298]\n\
480107 add qword ptr [rdi], rax\n\
48B88877665544332211 mov rax, 0x1122334455667788\n\
48890C24 mov qword ptr [rsp], rcx\n\
87C0 xchg eax, eax\n\
F0007CDFF0 lock add byte ptr [rdi + 8*rbx - 16], bh\n\
F08044DFF0FB lock add byte ptr [rdi + 8*rbx - 16], -5\n\
F0087CDFF0 lock or byte ptr [rdi + 8*rbx - 16], bh\n\
F0804CDFF0FB lock or byte ptr [rdi + 8*rbx - 16], -5\n\
F0107CDFF0 lock adc byte ptr [rdi + 8*rbx - 16], bh\n\
F08054DFF0FB lock adc byte ptr [rdi + 8*rbx - 16], -5\n\
F0187CDFF0 lock sbb byte ptr [rdi + 8*rbx - 16], bh\n\
F0805CDFF0FB lock sbb byte ptr [rdi + 8*rbx - 16], -5\n\
F0207CDFF0 lock and byte ptr [rdi + 8*rbx - 16], bh\n\
F08064DFF0FB lock and byte ptr [rdi + 8*rbx - 16], -5\n\
F0287CDFF0 lock sub byte ptr [rdi + 8*rbx - 16], bh\n\
F0806CDFF0FB lock sub byte ptr [rdi + 8*rbx - 16], -5\n\
F0307CDFF0 lock xor byte ptr [rdi + 8*rbx - 16], bh\n\
F08074DFF0FB lock xor byte ptr [rdi + 8*rbx - 16], -5\n\
F0FE44DFF0 lock inc byte ptr [rdi + 8*rbx - 16]\n\
F0FE4CDFF0 lock dec byte ptr [rdi + 8*rbx - 16]\n\
F0F654DFF0 lock not byte ptr [rdi + 8*rbx - 16]\n\
867CDFF0 xchg byte ptr [rdi + 8*rbx - 16], bh\n\
F00FC07CDFF0 lock xadd byte ptr [rdi + 8*rbx - 16], bh\n\
F00FB07CDFF0 lock cmpxchg byte ptr [rdi + 8*rbx - 16], bh\n\
F6E1 mul cl\n\
F664DFF0 mul byte ptr [rdi + 8*rbx - 16]\n\
F6E9 imul cl\n\
F66CDFF0 imul byte ptr [rdi + 8*rbx - 16]\n\
F6F1 div cl\n\
F674DFF0 div byte ptr [rdi + 8*rbx - 16]\n\
F6F9 idiv cl\n\
F67CDFF0 idiv byte ptr [rdi + 8*rbx - 16]\n\
C0C000 rol al, 0\n\
D0C0 rol al\n\
C0C005 rol al, 5\n\
C0C00B rol al, 11\n\
C0C021 rol al, 33\n\
D2C0 rol al, cl\n\
C044DFF003 rol byte ptr [rdi + 8*rbx - 16], 3\n\
D244DFF0 rol byte ptr [rdi + 8*rbx - 16], cl\n\
C044DFF000 rol byte ptr [rdi + 8*rbx - 16], 0\n\
C0C800 ror al, 0\n\
D0C8 ror al\n\
C0C805 ror al, 5\n\
C0C80B ror al, 11\n\
C0C821 ror al, 33\n\
D2C8 ror al, cl\n\
C04CDFF003 ror byte ptr [rdi + 8*rbx - 16], 3\n\
D24CDFF0 ror byte ptr [rdi + 8*rbx - 16], cl\n\
C04CDFF000 ror byte ptr [rdi + 8*rbx - 16], 0\n\
C0E000 shl al, 0\n\
D0E0 shl al\n\
C0E005 shl al, 5\n\
C0E00B shl al, 11\n\
C0E021 shl al, 33\n\
D2E0 shl al, cl\n\
C064DFF003 shl byte ptr [rdi + 8*rbx - 16], 3\n\
D264DFF0 shl byte ptr [rdi + 8*rbx - 16], cl\n\
C064DFF000 shl byte ptr [rdi + 8*rbx - 16], 0\n\
C0E800 shr al, 0\n\
D0E8 shr al\n\
C0E805 shr al, 5\n\
C0E80B shr al, 11\n\
C0E821 shr al, 33\n\
D2E8 shr al, cl\n\
C06CDFF003 shr byte ptr [rdi + 8*rbx - 16], 3\n\
D26CDFF0 shr byte ptr [rdi + 8*rbx - 16], cl\n\
C06CDFF000 shr byte ptr [rdi + 8*rbx - 16], 0\n\
C0F800 sar al, 0\n\
D0F8 sar al\n\
C0F805 sar al, 5\n\
C0F80B sar al, 11\n\
C0F821 sar al, 33\n\
D2F8 sar al, cl\n\
C07CDFF003 sar byte ptr [rdi + 8*rbx - 16], 3\n\
D27CDFF0 sar byte ptr [rdi + 8*rbx - 16], cl\n\
C07CDFF000 sar byte ptr [rdi + 8*rbx - 16], 0\n\
66F00154DFF0 lock add word ptr [rdi + 8*rbx - 16], dx\n\
66F08144DFF0E803 lock add word ptr [rdi + 8*rbx - 16], 1000\n\
66F00954DFF0 lock or word ptr [rdi + 8*rbx - 16], dx\n\
66F0814CDFF0E803 lock or word ptr [rdi + 8*rbx - 16], 1000\n\
66F01154DFF0 lock adc word ptr [rdi + 8*rbx - 16], dx\n\
66F08154DFF0E803 lock adc word ptr [rdi + 8*rbx - 16], 1000\n\
66F01954DFF0 lock sbb word ptr [rdi + 8*rbx - 16], dx\n\
66F0815CDFF0E803 lock sbb word ptr [rdi + 8*rbx - 16], 1000\n\
66F02154DFF0 lock and word ptr [rdi + 8*rbx - 16], dx\n\
66F08164DFF0E803 lock and word ptr [rdi + 8*rbx - 16], 1000\n\
66F02954DFF0 lock sub word ptr [rdi + 8*rbx - 16], dx\n\
66F0816CDFF0E803 lock sub word ptr [rdi + 8*rbx - 16], 1000\n\
66F03154DFF0 lock xor word ptr [rdi + 8*rbx - 16], dx\n\
66F08174DFF0E803 lock xor word ptr [rdi + 8*rbx - 16], 1000\n\
66F0FF44DFF0 lock inc word ptr [rdi + 8*rbx - 16]\n\
66F0FF4CDFF0 lock dec word ptr [rdi + 8*rbx - 16]\n\
66F0F754DFF0 lock not word ptr [rdi + 8*rbx - 16]\n\
668754DFF0 xchg word ptr [rdi + 8*rbx - 16], dx\n\
66F00FC154DFF0 lock xadd word ptr [rdi + 8*rbx - 16], dx\n\
66F00FB154DFF0 lock cmpxchg word ptr [rdi + 8*rbx - 16], dx\n\
66F7E1 mul cx\n\
66F764DFF0 mul word ptr [rdi + 8*rbx - 16]\n\
66F7E9 imul cx\n\
66F76CDFF0 imul word ptr [rdi + 8*rbx - 16]\n\
66F7F1 div cx\n\
66F774DFF0 div word ptr [rdi + 8*rbx - 16]\n\
66F7F9 idiv cx\n\
66F77CDFF0 idiv word ptr [rdi + 8*rbx - 16]\n\
660FAFC1 imul ax, cx\n\
660FAF54DFF0 imul dx, word ptr [rdi + 8*rbx - 16]\n\
6669C1E803 imul ax, cx, 1000\n\
666B54DFF0FB imul dx, word ptr [rdi + 8*rbx - 16], -5\n\
66C1C000 rol ax, 0\n\
66D1C0 rol ax\n\
66C1C005 rol ax, 5\n\
66C1C00B rol ax, 11\n\
66C1C021 rol ax, 33\n\
66D3C0 rol ax, cl\n\
66C144DFF003 rol word ptr [rdi + 8*rbx - 16], 3\n\
66D344DFF0 rol word ptr [rdi + 8*rbx - 16], cl\n\
66C1C800 ror ax, 0\n\
66D1C8 ror ax\n\
66C1C805 ror ax, 5\n\
66C1C80B ror ax, 11\n\
66C1C821 ror ax, 33\n\
66D3C8 ror ax, cl\n\
66C14CDFF003 ror word ptr [rdi + 8*rbx - 16], 3\n\
66D34CDFF0 ror word ptr [rdi + 8*rbx - 16], cl\n\
66C1E000 shl ax, 0\n\
66D1E0 shl ax\n\
66C1E005 shl ax, 5\n\
66C1E00B shl ax, 11\n\
66C1E021 shl ax, 33\n\
66D3E0 shl ax, cl\n\
66C164DFF003 shl word ptr [rdi + 8*rbx - 16], 3\n\
66D364DFF0 shl word ptr [rdi + 8*rbx - 16], cl\n\
66C1E800 shr ax, 0\n\
66D1E8 shr ax\n\
66C1E805 shr ax, 5\n\
66C1E80B shr ax, 11\n\
66C1E821 shr ax, 33\n\
66D3E8 shr ax, cl\n\
66C16CDFF003 shr word ptr [rdi + 8*rbx - 16], 3\n\
66D36CDFF0 shr word ptr [rdi + 8*rbx - 16], cl\n\
66C1F800 sar ax, 0\n\
66D1F8 sar ax\n\
66C1F805 sar ax, 5\n\
66C1F80B sar ax, 11\n\
66C1F821 sar ax, 33\n\
66D3F8 sar ax, cl\n\
66C17CDFF003 sar word ptr [rdi + 8*rbx - 16], 3\n\
66D37CDFF0 sar word ptr [rdi + 8*rbx - 16], cl\n\
F00154DFF0 lock add dword ptr [rdi + 8*rbx - 16], edx\n\
F08144DFF090EEFEFF lock add dword ptr [rdi + 8*rbx - 16], -70000\n\
F00954DFF0 lock or dword ptr [rdi + 8*rbx - 16], edx\n\
F0814CDFF090EEFEFF lock or dword ptr [rdi + 8*rbx - 16], -70000\n\
F01154DFF0 lock adc dword ptr [rdi + 8*rbx - 16], edx\n\
F08154DFF090EEFEFF lock adc dword ptr [rdi + 8*rbx - 16], -70000\n\
F01954DFF0 lock sbb dword ptr [rdi + 8*rbx - 16], edx\n\
F0815CDFF090EEFEFF lock sbb dword ptr [rdi + 8*rbx - 16], -70000\n\
F02154DFF0 lock and dword ptr [rdi + 8*rbx - 16], edx\n\
F08164DFF090EEFEFF lock and dword ptr [rdi + 8*rbx - 16], -70000\n\
F02954DFF0 lock sub dword ptr [rdi + 8*rbx - 16], edx\n\
F0816CDFF090EEFEFF lock sub dword ptr [rdi + 8*rbx - 16], -70000\n\
F03154DFF0 lock xor dword ptr [rdi + 8*rbx - 16], edx\n\
F08174DFF090EEFEFF lock xor dword ptr [rdi + 8*rbx - 16], -70000\n\
F0FF44DFF0 lock inc dword ptr [rdi + 8*rbx - 16]\n\
F0FF4CDFF0 lock dec dword ptr [rdi + 8*rbx - 16]\n\
F0F754DFF0 lock not dword ptr [rdi + 8*rbx - 16]\n\
8754DFF0 xchg dword ptr [rdi + 8*rbx - 16], edx\n\
F00FC154DFF0 lock xadd dword ptr [rdi + 8*rbx - 16], edx\n\
F00FB154DFF0 lock cmpxchg dword ptr [rdi + 8*rbx - 16], edx\n\
F7E1 mul ecx\n\
F764DFF0 mul dword ptr [rdi + 8*rbx - 16]\n\
F7E9 imul ecx\n\
F76CDFF0 imul dword ptr [rdi + 8*rbx - 16]\n\
F7F1 div ecx\n\
F774DFF0 div dword ptr [rdi + 8*rbx - 16]\n\
F7F9 idiv ecx\n\
F77CDFF0 idiv dword ptr [rdi + 8*rbx - 16]\n\
0FAFC1 imul eax, ecx\n\
0FAF54DFF0 imul edx, dword ptr [rdi + 8*rbx - 16]\n\
69C190EEFEFF imul eax, ecx, -70000\n\
6B54DFF0FB imul edx, dword ptr [rdi + 8*rbx - 16], -5\n\
C1C000 rol eax, 0\n\
D1C0 rol eax\n\
C1C005 rol eax, 5\n\
C1C01F rol eax, 31\n\
C1C021 rol eax, 33\n\
D3C0 rol eax, cl\n\
C144DFF003 rol dword ptr [rdi + 8*rbx - 16], 3\n\
D344DFF0 rol dword ptr [rdi + 8*rbx - 16], cl\n\
C144DFF000 rol dword ptr [rdi + 8*rbx - 16], 0\n\
C1C800 ror eax, 0\n\
D1C8 ror eax\n\
C1C805 ror eax, 5\n\
C1C81F ror eax, 31\n\
C1C821 ror eax, 33\n\
D3C8 ror eax, cl\n\
C14CDFF003 ror dword ptr [rdi + 8*rbx - 16], 3\n\
D34CDFF0 ror dword ptr [rdi + 8*rbx - 16], cl\n\
C14CDFF000 ror dword ptr [rdi + 8*rbx - 16], 0\n\
C1E000 shl eax, 0\n\
D1E0 shl eax\n\
C1E005 shl eax, 5\n\
C1E01F shl eax, 31\n\
C1E021 shl eax, 33\n\
D3E0 shl eax, cl\n\
C164DFF003 shl dword ptr [rdi + 8*rbx - 16], 3\n\
D364DFF0 shl dword ptr [rdi + 8*rbx - 16], cl\n\
C164DFF000 shl dword ptr [rdi + 8*rbx - 16], 0\n\
C1E800 shr eax, 0\n\
D1E8 shr eax\n\
C1E805 shr eax, 5\n\
C1E81F shr eax, 31\n\
C1E821 shr eax, 33\n\
D3E8 shr eax, cl\n\
C16CDFF003 shr dword ptr [rdi + 8*rbx - 16], 3\n\
D36CDFF0 shr dword ptr [rdi + 8*rbx - 16], cl\n\
C16CDFF000 shr dword ptr [rdi + 8*rbx - 16], 0\n\
C1F800 sar eax, 0\n\
D1F8 sar eax\n\
C1F805 sar eax, 5\n\
C1F81F sar eax, 31\n\
C1F821 sar eax, 33\n\
D3F8 sar eax, cl\n\
C17CDFF003 sar dword ptr [rdi + 8*rbx - 16], 3\n\
D37CDFF0 sar dword ptr [rdi + 8*rbx - 16], cl\n\
C17CDFF000 sar dword ptr [rdi + 8*rbx - 16], 0\n\
F0480154DFF0 lock add qword ptr [rdi + 8*rbx - 16], rdx\n\
F0488144DFF090EEFEFF lock add qword ptr [rdi + 8*rbx - 16], -70000\n\
F0480954DFF0 lock or qword ptr [rdi + 8*rbx - 16], rdx\n\
F048814CDFF090EEFEFF lock or qword ptr [rdi + 8*rbx - 16], -70000\n\
F0481154DFF0 lock adc qword ptr [rdi + 8*rbx - 16], rdx\n\
F0488154DFF090EEFEFF lock adc qword ptr [rdi + 8*rbx - 16], -70000\n\
F0481954DFF0 lock sbb qword ptr [rdi + 8*rbx - 16], rdx\n\
F048815CDFF090EEFEFF lock sbb qword ptr [rdi + 8*rbx - 16], -70000\n\
F0482154DFF0 lock and qword ptr [rdi + 8*rbx - 16], rdx\n\
F0488164DFF090EEFEFF lock and qword ptr [rdi + 8*rbx - 16], -70000\n\
F0482954DFF0 lock sub qword ptr [rdi + 8*rbx - 16], rdx\n\
F048816CDFF090EEFEFF lock sub qword ptr [rdi + 8*rbx - 16], -70000\n\
F0483154DFF0 lock xor qword ptr [rdi + 8*rbx - 16], rdx\n\
F0488174DFF090EEFEFF lock xor qword ptr [rdi + 8*rbx - 16], -70000\n\
F048FF44DFF0 lock inc qword ptr [rdi + 8*rbx - 16]\n\
F048FF4CDFF0 lock dec qword ptr [rdi + 8*rbx - 16]\n\
F048F754DFF0 lock not qword ptr [rdi + 8*rbx - 16]\n\
488754DFF0 xchg qword ptr [rdi + 8*rbx - 16], rdx\n\
F0480FC154DFF0 lock xadd qword ptr [rdi + 8*rbx - 16], rdx\n\
F0480FB154DFF0 lock cmpxchg qword ptr [rdi + 8*rbx - 16], rdx\n\
48F7E1 mul rcx\n\
48F764DFF0 mul qword ptr [rdi + 8*rbx - 16]\n\
48F7E9 imul rcx\n\
48F76CDFF0 imul qword ptr [rdi + 8*rbx - 16]\n\
480FAFC1 imul rax, rcx\n\
480FAF54DFF0 imul rdx, qword ptr [rdi + 8*rbx - 16]\n\
4869C190EEFEFF imul rax, rcx, -70000\n\
486B54DFF0FB imul rdx, qword ptr [rdi + 8*rbx - 16], -5\n\
48C1C000 rol rax, 0\n\
48D1C0 rol rax\n\
48C1C005 rol rax, 5\n\
48C1C01F rol rax, 31\n\
48C1C041 rol rax, 65\n\
48D3C0 rol rax, cl\n\
48C144DFF003 rol qword ptr [rdi + 8*rbx - 16], 3\n\
48D344DFF0 rol qword ptr [rdi + 8*rbx - 16], cl\n\
48C1C800 ror rax, 0\n\
48D1C8 ror rax\n\
48C1C805 ror rax, 5\n\
48C1C81F ror rax, 31\n\
48C1C841 ror rax, 65\n\
48D3C8 ror rax, cl\n\
48C14CDFF003 ror qword ptr [rdi + 8*rbx - 16], 3\n\
48D34CDFF0 ror qword ptr [rdi + 8*rbx - 16], cl\n\
48C1E000 shl rax, 0\n\
48D1E0 shl rax\n\
48C1E005 shl rax, 5\n\
48C1E01F shl rax, 31\n\
48C1E041 shl rax, 65\n\
48D3E0 shl rax, cl\n\
48C164DFF003 shl qword ptr [rdi + 8*rbx - 16], 3\n\
48D364DFF0 shl qword ptr [rdi + 8*rbx - 16], cl\n\
48C1E800 shr rax, 0\n\
48D1E8 shr rax\n\
48C1E805 shr rax, 5\n\
48C1E81F shr rax, 31\n\
48C1E841 shr rax, 65\n\
48D3E8 shr rax, cl\n\
48C16CDFF003 shr qword ptr [rdi + 8*rbx - 16], 3\n\
48D36CDFF0 shr qword ptr [rdi + 8*rbx - 16], cl\n\
48C1F800 sar rax, 0\n\
48D1F8 sar rax\n\
48C1F805 sar rax, 5\n\
48C1F81F sar rax, 31\n\
48C1F841 sar rax, 65\n\
48D3F8 sar rax, cl\n\
48C17CDFF003 sar qword ptr [rdi + 8*rbx - 16], 3\n\
48D37CDFF0 sar qword ptr [rdi + 8*rbx - 16], cl\n\
8627 xchg byte ptr [rdi], ah\n\
F00FC027 lock xadd byte ptr [rdi], ah\n\
F6E4 mul ah\n\
F6F7 div bh\n\
D2E5 shl ch, cl\n\
C0CC09 ror ah, 9\n\
D3C1 rol ecx, cl\n\
48D3F9 sar rcx, cl\n\
";
