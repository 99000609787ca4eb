ghost use Rattle.std.specs.Prelude.{◌≡◌, ◌+◌, ◌*◌, ◌^◌, ◌<◌, Some};
ghost use Rattle.a64_code.specs.Ranges.{IsEncodable, IsDistance};
ghost use Rattle.a64_code.specs.Decoding.{a64_of};
ghost use Rattle.a64_code.specs.Words.{IsSpelling, word_of, form, wide_field, access, rd, rn, ra, rm, shift};
ghost use Rattle.a64_code.specs.Words.{imm12, imm16, hw, immr, imms, cond, imm19, imm26};

use crate::{A64, XReg};

/// The word of an instruction whose operands are in range (`IsEncodable`), which is read back as it.
pub fn encode(a: A64<XReg>) -> u32
    requires { IsEncodable a }
    ensures value { result ≡ word_of a }
    ensures spells { IsSpelling result a }
    ensures read_back { a64_of result ≡ Some a }
{
    word_of(a)
}

/// The sum of the fixed bits and the fields.
fn word_of(a: A64<XReg>) -> u32
    requires { IsEncodable a }
    ensures { result ≡ word_of a }
{
    match a {
        A64::Add(x, d, n, m, kind, amount) => {
            0x0B00_0000 + form(x) + shift(kind, amount) + three(d, n, m)
        }
        A64::Sub(x, d, n, m, kind, amount) => {
            0x4B00_0000 + form(x) + shift(kind, amount) + three(d, n, m)
        }
        A64::Subs(x, d, n, m, kind, amount) => {
            0x6B00_0000 + form(x) + shift(kind, amount) + three(d, n, m)
        }
        A64::And(x, d, n, m, kind, amount) => {
            0x0A00_0000 + form(x) + shift(kind, amount) + three(d, n, m)
        }
        A64::Orr(x, d, n, m, kind, amount) => {
            0x2A00_0000 + form(x) + shift(kind, amount) + three(d, n, m)
        }
        A64::Eor(x, d, n, m, kind, amount) => {
            0x4A00_0000 + form(x) + shift(kind, amount) + three(d, n, m)
        }
        A64::AddImm(x, d, n, number) => 0x1100_0000 + form(x) + imm12(number) + two(d, n),
        A64::SubImm(x, d, n, number) => 0x5100_0000 + form(x) + imm12(number) + two(d, n),
        A64::Movz(x, d, value, quarter) => 0x5280_0000 + form(x) + hw(quarter) + half(value, d),
        A64::Movk(x, d, value, quarter) => 0x7280_0000 + form(x) + hw(quarter) + half(value, d),
        A64::Movn(x, d, value, quarter) => 0x1280_0000 + form(x) + hw(quarter) + half(value, d),
        A64::Lslv(x, d, n, m) => 0x1AC0_2000 + form(x) + three(d, n, m),
        A64::Lsrv(x, d, n, m) => 0x1AC0_2400 + form(x) + three(d, n, m),
        A64::Asrv(x, d, n, m) => 0x1AC0_2800 + form(x) + three(d, n, m),
        A64::Rorv(x, d, n, m) => 0x1AC0_2C00 + form(x) + three(d, n, m),
        A64::Udiv(x, d, n, m) => 0x1AC0_0800 + form(x) + three(d, n, m),
        A64::Sdiv(x, d, n, m) => 0x1AC0_0C00 + form(x) + three(d, n, m),
        A64::Madd(x, d, n, m, a) => 0x1B00_0000 + form(x) + ra(a) + three(d, n, m),
        A64::Msub(x, d, n, m, a) => 0x1B00_8000 + form(x) + ra(a) + three(d, n, m),
        A64::Smulh(d, n, m) => 0x9B40_7C00 + three(d, n, m),
        A64::Umulh(d, n, m) => 0x9BC0_7C00 + three(d, n, m),
        A64::Ubfm(x, d, n, r, s) => 0x5300_0000 + wide(x) + bitfield(r, s) + two(d, n),
        A64::Sbfm(x, d, n, r, s) => 0x1300_0000 + wide(x) + bitfield(r, s) + two(d, n),
        A64::Csel(x, d, n, m, condition) => {
            0x1A80_0000 + form(x) + cond(condition) + three(d, n, m)
        }
        A64::Csinc(x, d, n, m, condition) => {
            0x1A80_0400 + form(x) + cond(condition) + three(d, n, m)
        }
        A64::B(distance) => 0x1400_0000 + imm26(distance),
        A64::BCond(condition, distance) => { 0x5400_0000 + imm19(distance) + u32::from(condition) }
        A64::Cbz(x, t, distance) => 0x3400_0000 + form(x) + imm19(distance) + low(t),
        A64::Cbnz(x, t, distance) => 0x3500_0000 + form(x) + imm19(distance) + low(t),
        A64::Ldr(size, t, n, number) => 0x3940_0000 + access(size) + imm12(number) + two(t, n),
        A64::Str(size, t, n, number) => 0x3900_0000 + access(size) + imm12(number) + two(t, n),
        A64::Cas(size, s, t, n) => 0x08A0_7C00 + access(size) + three(t, n, s),
        A64::Swp(size, s, t, n) => 0x3820_8000 + access(size) + three(t, n, s),
        A64::Ldadd(size, s, t, n) => 0x3820_0000 + access(size) + three(t, n, s),
        A64::Ldclr(size, s, t, n) => 0x3820_1000 + access(size) + three(t, n, s),
        A64::Ldeor(size, s, t, n) => 0x3820_2000 + access(size) + three(t, n, s),
        A64::Ldset(size, s, t, n) => 0x3820_3000 + access(size) + three(t, n, s),
        A64::DmbFull => 0xD503_3BBF,
        A64::DmbLd => 0xD503_39BF,
        A64::DmbSt => 0xD503_3ABF,
        A64::Nop => 0xD503_201F,
        A64::Brk(number) => 0xD420_0000 + imm16(number),
        A64::Svc(number) => 0xD400_0001 + imm16(number),
    }
}

/// The value of a field, from its lowest bit on.
fn at(low: u32, value: u32) -> u32
    requires fits { value * 2 ^ low < 2 ^ 32 }
    requires bit { low < 32 }
    ensures { result ≡ value * 2 ^ low }
{
    value << low
}

/// Bit 31, which the X form has.
fn form(x: bool) -> u32
    ensures { result ≡ form x }
{
    if x { 0x8000_0000 } else { 0 }
}

/// Bits 31 and 22, which the X form of a bitfield has.
fn wide(x: bool) -> u32
    ensures { result ≡ form x + wide_field x }
{
    if x { 0x8040_0000 } else { 0 }
}

/// Rd or Rt.
fn low(r: XReg) -> u32
    ensures { result ≡ rd r }
{
    u32::from(r.number)
}

/// Rd or Rt, and Rn.
fn two(d: XReg, n: XReg) -> u32
    ensures { result ≡ rn n + rd d }
{
    at(5, u32::from(n.number)) + low(d)
}

/// Rd or Rt, Rn, and Rm or Rs.
fn three(d: XReg, n: XReg, m: XReg) -> u32
    ensures { result ≡ rm m + rn n + rd d }
{
    at(16, u32::from(m.number)) + two(d, n)
}

fn ra(a: XReg) -> u32
    ensures { result ≡ ra a }
{
    at(10, u32::from(a.number))
}

fn shift(kind: u8, amount: u8) -> u32
    ensures { result ≡ shift kind amount }
{
    at(22, u32::from(kind)) + at(10, u32::from(amount))
}

fn imm12(number: u16) -> u32
    ensures { result ≡ imm12 number }
{
    at(10, u32::from(number))
}

fn imm16(number: u16) -> u32
    ensures { result ≡ imm16 number }
{
    at(5, u32::from(number))
}

/// 16 bits, and Rd.
fn half(value: u16, d: XReg) -> u32
    ensures { result ≡ imm16 value + rd d }
{
    imm16(value) + low(d)
}

fn hw(quarter: u8) -> u32
    ensures { result ≡ hw quarter }
{
    at(21, u32::from(quarter))
}

fn bitfield(r: u8, s: u8) -> u32
    ensures { result ≡ immr r + imms s }
{
    at(16, u32::from(r)) + at(10, u32::from(s))
}

fn cond(condition: u8) -> u32
    ensures { result ≡ cond condition }
{
    at(12, u32::from(condition))
}

/// A distance in 19 bits, two's complement, from bit 5 on.
#[tactic(auto, unfolding(word_arith::specs::Signed::low_bits))]
fn imm19(distance: i32) -> u32
    ensures value { result ≡ imm19 distance }
    ensures small { result < 2 ^ 24 }
{
    at(5, distance.rem_euclid(0x8_0000).unsigned_abs())
}

/// A distance in 26 bits, two's complement.
#[tactic(auto, unfolding(word_arith::specs::Signed::low_bits))]
fn imm26(distance: i32) -> u32
    ensures value { result ≡ imm26 distance }
    ensures small { result < 2 ^ 26 }
{
    distance.rem_euclid(0x400_0000).unsigned_abs()
}

/// The size of an access, in bits 30 and 31.
fn access(size: u8) -> u32
    ensures { result ≡ access size }
{
    match size {
        8 => 0xC000_0000,
        4 => 0x8000_0000,
        2 => 0x4000_0000,
        _ => 0,
    }
}
