use super::*;
use std::process::Abort;

fn x(number: u8) -> XReg {
    XReg { number }
}

// Words as `llvm-mc -triple=aarch64 -mattr=+lse` and GNU as give them for the line above each.

fn registers() -> [(A64<XReg>, u32); 10] {
    [
        // add x1, x2, x3
        (A64::Add(true, x(1), x(2), x(3), 0, 0), 0x8B03_0041),
        // add w28, wzr, w17, asr #31
        (A64::Add(false, x(28), x(31), x(17), 2, 31), 0x0B91_7FFC),
        // neg x0, x5
        (A64::Sub(true, x(0), x(31), x(5), 0, 0), 0xCB05_03E0),
        // sub x4, x6, xzr, lsr #63
        (A64::Sub(true, x(4), x(6), x(31), 1, 63), 0xCB5F_FCC4),
        // cmp x8, x9
        (A64::Subs(true, x(31), x(8), x(9), 0, 0), 0xEB09_011F),
        // subs w10, w11, w12, lsl #7
        (A64::Subs(false, x(10), x(11), x(12), 0, 7), 0x6B0C_1D6A),
        // and x13, x14, x15, lsr #32
        (A64::And(true, x(13), x(14), x(15), 1, 32), 0x8A4F_81CD),
        // mov x7, x0
        (A64::Orr(true, x(7), x(31), x(0), 0, 0), 0xAA00_03E7),
        // orr w1, w2, w3, asr #5
        (A64::Orr(false, x(1), x(2), x(3), 2, 5), 0x2A83_1441),
        // eor x16, x17, x19, lsl #1
        (A64::Eor(true, x(16), x(17), x(19), 0, 1), 0xCA13_0630),
    ]
}

fn immediates() -> [(A64<XReg>, u32); 14] {
    [
        // add x4, x4, #8
        (A64::AddImm(true, x(4), x(4), 8), 0x9100_2084),
        // add w20, w21, #4095
        (A64::AddImm(false, x(20), x(21), 4095), 0x113F_FEB4),
        // sub x4, x4, #8
        (A64::SubImm(true, x(4), x(4), 8), 0xD100_2084),
        // sub w22, w23, #1
        (A64::SubImm(false, x(22), x(23), 1), 0x5100_06F6),
        // movz x7, #0x4000
        (A64::Movz(true, x(7), 0x4000, 0), 0xD288_0007),
        // movz w24, #0xffff, lsl #16
        (A64::Movz(false, x(24), 0xffff, 1), 0x52BF_FFF8),
        // movk x7, #0x40, lsl #16
        (A64::Movk(true, x(7), 0x40, 1), 0xF2A0_0807),
        // movk x25, #0x8000, lsl #48
        (A64::Movk(true, x(25), 0x8000, 3), 0xF2F0_0019),
        // movn x26, #0
        (A64::Movn(true, x(26), 0, 0), 0x9280_001A),
        // movn w27, #0x1234
        (A64::Movn(false, x(27), 0x1234, 0), 0x1282_469B),
        // lsr x1, x2, #3
        (A64::Ubfm(true, x(1), x(2), 3, 63), 0xD343_FC41),
        // uxtb w3, w4
        (A64::Ubfm(false, x(3), x(4), 0, 7), 0x5300_1C83),
        // sxtw x5, w6
        (A64::Sbfm(true, x(5), x(6), 0, 31), 0x9340_7CC5),
        // asr w7, w8, #31
        (A64::Sbfm(false, x(7), x(8), 31, 31), 0x131F_7D07),
    ]
}

fn sources() -> [(A64<XReg>, u32); 12] {
    [
        // lslv x1, x2, x3
        (A64::Lslv(true, x(1), x(2), x(3)), 0x9AC3_2041),
        // lsrv w4, wzr, w5
        (A64::Lsrv(false, x(4), x(31), x(5)), 0x1AC5_27E4),
        // asrv x6, x7, xzr
        (A64::Asrv(true, x(6), x(7), x(31)), 0x9ADF_28E6),
        // rorv w8, w9, w10
        (A64::Rorv(false, x(8), x(9), x(10)), 0x1ACA_2D28),
        // udiv x11, x12, x13
        (A64::Udiv(true, x(11), x(12), x(13)), 0x9ACD_098B),
        // sdiv w14, w15, w16
        (A64::Sdiv(false, x(14), x(15), x(16)), 0x1AD0_0DEE),
        // madd x17, x19, x20, x21
        (A64::Madd(true, x(17), x(19), x(20), x(21)), 0x9B14_5671),
        // msub w22, w23, w24, w25
        (A64::Msub(false, x(22), x(23), x(24), x(25)), 0x1B18_E6F6),
        // smulh x26, x27, x28
        (A64::Smulh(x(26), x(27), x(28)), 0x9B5C_7F7A),
        // umulh x0, xzr, x1
        (A64::Umulh(x(0), x(31), x(1)), 0x9BC1_7FE0),
        // csel x2, x3, x4, ne
        (A64::Csel(true, x(2), x(3), x(4), 1), 0x9A84_1062),
        // csinc w5, wzr, wzr, le
        (A64::Csinc(false, x(5), x(31), x(31), 13), 0x1A9F_D7E5),
    ]
}

fn branches() -> [(A64<XReg>, u32); 15] {
    [
        // b #8
        (A64::B(2), 0x1400_0002),
        // b #-134217728
        (A64::B(-0x200_0000), 0x1600_0000),
        // b.hi #-4
        (A64::BCond(8, -1), 0x54FF_FFE8),
        // b.eq #1048572
        (A64::BCond(0, 0x3_ffff), 0x547F_FFE0),
        // cbz x16, #8
        (A64::Cbz(true, x(16), 2), 0xB400_0050),
        // cbz w3, #-4
        (A64::Cbz(false, x(3), -1), 0x34FF_FFE3),
        // cbnz x17, #-1048576
        (A64::Cbnz(true, x(17), -0x4_0000), 0xB580_0011),
        // dmb ish
        (A64::DmbFull, 0xD503_3BBF),
        // dmb ishld
        (A64::DmbLd, 0xD503_39BF),
        // dmb ishst
        (A64::DmbSt, 0xD503_3ABF),
        // nop
        (A64::Nop, 0xD503_201F),
        // brk #1
        (A64::Brk(1), 0xD420_0020),
        // brk #4
        (A64::Brk(4), 0xD420_0080),
        // svc #1
        (A64::Svc(1), 0xD400_0021),
        // svc #3
        (A64::Svc(3), 0xD400_0061),
    ]
}

fn accesses() -> [(A64<XReg>, u32); 16] {
    [
        // ldr x16, [x4]
        (A64::Ldr(8, x(16), x(4), 0), 0xF940_0090),
        // ldr w1, [x2, #16380]
        (A64::Ldr(4, x(1), x(2), 4095), 0xB97F_FC41),
        // ldrh w3, [x5, #2]
        (A64::Ldr(2, x(3), x(5), 1), 0x7940_04A3),
        // ldrb w6, [x7, #3]
        (A64::Ldr(1, x(6), x(7), 3), 0x3940_0CE6),
        // str xzr, [x8, #8]
        (A64::Str(8, x(31), x(8), 1), 0xF900_051F),
        // str w9, [x10, #8]
        (A64::Str(4, x(9), x(10), 2), 0xB900_0949),
        // strh w11, [x12]
        (A64::Str(2, x(11), x(12), 0), 0x7900_018B),
        // strb w1, [x2, #3]
        (A64::Str(1, x(1), x(2), 3), 0x3900_0C41),
        // cas x1, x2, [x3]
        (A64::Cas(8, x(1), x(2), x(3)), 0xC8A1_7C62),
        // casb w4, w5, [x6]
        (A64::Cas(1, x(4), x(5), x(6)), 0x08A4_7CC5),
        // swp x7, x8, [x9]
        (A64::Swp(8, x(7), x(8), x(9)), 0xF827_8128),
        // swph w10, w11, [x12]
        (A64::Swp(2, x(10), x(11), x(12)), 0x782A_818B),
        // ldadd w13, w14, [x15]
        (A64::Ldadd(4, x(13), x(14), x(15)), 0xB82D_01EE),
        // ldclr x16, x17, [x19]
        (A64::Ldclr(8, x(16), x(17), x(19)), 0xF830_1271),
        // ldeorh w20, w21, [x22]
        (A64::Ldeor(2, x(20), x(21), x(22)), 0x7834_22D5),
        // ldsetb w23, w24, [x25]
        (A64::Ldset(1, x(23), x(24), x(25)), 0x3837_3338),
    ]
}

fn compare(rt: &impl Abort, listing: &[(A64<XReg>, u32)]) {
    for (instr, word) in listing {
        assert_eq!(rt; decode_word(*word), Some(*instr), "{word:08x}");
        if let Some(read) = decode_word(*word) {
            assert_eq!(rt; encode(read), *word, "{word:08x}");
        }
    }
}

#[test]
fn reads_and_writes_words(rt: HostRuntime) {
    compare(&rt, &registers());
    compare(&rt, &immediates());
    compare(&rt, &sources());
    compare(&rt, &branches());
    compare(&rt, &accesses());
}

// words that the processor knows and no row has
#[test]
fn reads_nothing_else(rt: HostRuntime) {
    for word in [
        0xD400_0001, // svc #0
        0xD400_0081, // svc #4
        0xD420_0000, // brk #0
        0xD420_00A0, // brk #5
        0xAA00_03F2, // mov x18, x0
        0x9100_23BD, // add x29, x29, #8
        0xF940_03E0, // ldr x0, [sp]
        0xF900_0032, // str x18, [x1]
        0xF940_003F, // ldr xzr, [x1]
        0xAA01_03FF, // mov xzr, x1
        0xC8BF_7C41, // cas xzr, x1, [x2]
        0xF821_805F, // swp x1, xzr, [x2]
        0xF821_005F, // stadd x1, [x2]
        0xC8E1_FC62, // casal x1, x2, [x3]
        0xF861_0062, // ldaddl x1, x2, [x3]
        0xD503_3FDF, // isb
        0xD503_3FBF, // dmb sy
        0x5400_004E, // b.al #8
        0x9A83_E041, // csel x1, x2, x3, al
        0x93C2_0C41, // ror x1, x2, #3
        0xCAC3_0C41, // eor x1, x2, x3, ror #3
        0xEA03_0041, // ands x1, x2, x3
        0xAB03_0041, // adds x1, x2, x3
        0xF100_0441, // subs x1, x2, #1
        0x9140_0441, // add x1, x2, #1, lsl #12
        0x9400_0002, // bl #8
        0xD65F_03C0, // ret
        0xF863_6841, // ldr x1, [x2, x3]
        0xB980_0041, // ldrsw x1, [x2]
        0xB37D_0C41, // bfi x1, x2, #3, #4
        0xDA83_0441, // csneg x1, x2, x3, eq
        0xB400_005F, // cbz xzr, #8
        0x9B03_7C41, // madd x1, x2, x3, xzr
        0xD440_0020, // hlt #1
    ] {
        assert_eq!(rt; decode_word(word), None, "{word:08x}");
    }
}
