ghost use Rattle.std.specs.Prelude.{◌≡◌, ◌↔◌, ◌+◌, ◌≤◌, ◌<◌, ◌^◌, Some, None};
ghost use Rattle.word_arith.specs.Bits.{field};
ghost use Rattle.a64_code.specs.declared.instr.XReg.{XReg};
ghost use Rattle.a64_code.specs.declared.instr.A64.{A64};
ghost use Rattle.a64_code.specs.Words.{IsSpelling};
ghost use Rattle.a64_code.specs.Decoding.{form_in, register_in, size_in, distance_in};
ghost use Rattle.a64_code.specs.Decoding.{logical, sum, sum_imm, move_wide, bitfield, two_sources};
ghost use Rattle.a64_code.specs.Decoding.{select, registers, three_sources, atomic, access};
ghost use Rattle.a64_code.specs.Decoding.{compare, exception, system, branch, candidate};
ghost use Rattle.a64_code.specs.Decoding.{held_against, a64_of};

use crate::encoding::encode;
use crate::ranges::is_encodable;
use crate::{A64, XReg};

#[cfg(test)]
mod tests;

/// The instruction that a word spells; `None` where it spells none.
pub fn decode_word(word: u32) -> Option<A64<XReg>>
    ensures spelled { (a : A64 XReg) → (result ≡ Some a) ↔ IsSpelling word a }
    ensures none { (result ≡ None) ↔ ((a : A64 XReg) → ¬ IsSpelling word a) }
    ensures machine { result ≡ a64_of word }
{
    held_against(word, candidate(word))
}

/// The candidate, where its operands are in range and its word is this one.
fn held_against(word: u32, candidate: Option<A64<XReg>>) -> Option<A64<XReg>>
    ensures { result ≡ held_against word candidate }
{
    match candidate {
        Some(a) if is_encodable(a) && encode(a) == word => Some(a),
        _ => None,
    }
}

/// The only instruction that the word can spell, read by its class of encodings.
fn candidate(word: u32) -> Option<A64<XReg>>
    ensures { result ≡ candidate word }
{
    match field(word, 24, 5) {
        0x08 => {
            let (size, s) = (size_in(word), register_in(word, 16));
            Some(A64::Cas(size, s, register_in(word, 0), register_in(word, 5)))
        }
        0x0A => logical(word),
        0x0B => sum(word),
        0x11 => sum_imm(word),
        0x12 => move_wide(word),
        0x13 => bitfield(word),
        0x14..=0x17 => branch(word),
        0x18 => atomic(word),
        0x19 => access(word),
        0x1A => registers(word),
        0x1B => three_sources(word),
        _ => None,
    }
}

fn logical(word: u32) -> Option<A64<XReg>>
    ensures { result ≡ logical word }
{
    let (x, d, n) = (form_in(word), register_in(word, 0), register_in(word, 5));
    let (m, kind, amount) = (register_in(word, 16), byte(word, 22, 2), byte(word, 10, 6));
    match field(word, 29, 2) {
        0 => Some(A64::And(x, d, n, m, kind, amount)),
        1 => Some(A64::Orr(x, d, n, m, kind, amount)),
        2 => Some(A64::Eor(x, d, n, m, kind, amount)),
        _ => None,
    }
}

fn sum(word: u32) -> Option<A64<XReg>>
    ensures { result ≡ sum word }
{
    let (x, d, n) = (form_in(word), register_in(word, 0), register_in(word, 5));
    let (m, kind, amount) = (register_in(word, 16), byte(word, 22, 2), byte(word, 10, 6));
    match field(word, 29, 2) {
        0 => Some(A64::Add(x, d, n, m, kind, amount)),
        2 => Some(A64::Sub(x, d, n, m, kind, amount)),
        3 => Some(A64::Subs(x, d, n, m, kind, amount)),
        _ => None,
    }
}

fn sum_imm(word: u32) -> Option<A64<XReg>>
    ensures { result ≡ sum_imm word }
{
    let (x, d, n) = (form_in(word), register_in(word, 0), register_in(word, 5));
    match field(word, 29, 2) {
        0 => Some(A64::AddImm(x, d, n, half(word, 10, 12))),
        2 => Some(A64::SubImm(x, d, n, half(word, 10, 12))),
        _ => None,
    }
}

fn move_wide(word: u32) -> Option<A64<XReg>>
    ensures { result ≡ move_wide word }
{
    let (x, d) = (form_in(word), register_in(word, 0));
    let (value, quarter) = (half(word, 5, 16), byte(word, 21, 2));
    match field(word, 29, 2) {
        0 => Some(A64::Movn(x, d, value, quarter)),
        2 => Some(A64::Movz(x, d, value, quarter)),
        3 => Some(A64::Movk(x, d, value, quarter)),
        _ => None,
    }
}

fn bitfield(word: u32) -> Option<A64<XReg>>
    ensures { result ≡ bitfield word }
{
    let (x, d, n) = (form_in(word), register_in(word, 0), register_in(word, 5));
    let (immr, imms) = (byte(word, 16, 6), byte(word, 10, 6));
    match field(word, 29, 2) {
        0 => Some(A64::Sbfm(x, d, n, immr, imms)),
        2 => Some(A64::Ubfm(x, d, n, immr, imms)),
        _ => None,
    }
}

fn registers(word: u32) -> Option<A64<XReg>>
    ensures { result ≡ registers word }
{
    match field(word, 21, 3) {
        4 => select(word),
        6 => two_sources(word),
        _ => None,
    }
}

fn two_sources(word: u32) -> Option<A64<XReg>>
    ensures { result ≡ two_sources word }
{
    let (x, d) = (form_in(word), register_in(word, 0));
    let (n, m) = (register_in(word, 5), register_in(word, 16));
    match field(word, 10, 6) {
        2 => Some(A64::Udiv(x, d, n, m)),
        3 => Some(A64::Sdiv(x, d, n, m)),
        8 => Some(A64::Lslv(x, d, n, m)),
        9 => Some(A64::Lsrv(x, d, n, m)),
        10 => Some(A64::Asrv(x, d, n, m)),
        11 => Some(A64::Rorv(x, d, n, m)),
        _ => None,
    }
}

fn select(word: u32) -> Option<A64<XReg>>
    ensures { result ≡ select word }
{
    let (x, d) = (form_in(word), register_in(word, 0));
    let (n, m) = (register_in(word, 5), register_in(word, 16));
    match field(word, 10, 2) {
        0 => Some(A64::Csel(x, d, n, m, byte(word, 12, 4))),
        1 => Some(A64::Csinc(x, d, n, m, byte(word, 12, 4))),
        _ => None,
    }
}

fn three_sources(word: u32) -> Option<A64<XReg>>
    ensures { result ≡ three_sources word }
{
    let (d, n) = (register_in(word, 0), register_in(word, 5));
    let (m, a) = (register_in(word, 16), register_in(word, 10));
    match (field(word, 21, 3), field(word, 15, 1)) {
        (2, _) => Some(A64::Smulh(d, n, m)),
        (6, _) => Some(A64::Umulh(d, n, m)),
        (_, 0) => Some(A64::Madd(form_in(word), d, n, m, a)),
        _ => Some(A64::Msub(form_in(word), d, n, m, a)),
    }
}

fn atomic(word: u32) -> Option<A64<XReg>>
    ensures { result ≡ atomic word }
{
    let (size, s) = (size_in(word), register_in(word, 16));
    let (t, n) = (register_in(word, 0), register_in(word, 5));
    match field(word, 10, 6) {
        0 => Some(A64::Ldadd(size, s, t, n)),
        4 => Some(A64::Ldclr(size, s, t, n)),
        8 => Some(A64::Ldeor(size, s, t, n)),
        12 => Some(A64::Ldset(size, s, t, n)),
        32 => Some(A64::Swp(size, s, t, n)),
        _ => None,
    }
}

fn access(word: u32) -> Option<A64<XReg>>
    ensures { result ≡ access word }
{
    let (size, number) = (size_in(word), half(word, 10, 12));
    let (t, n) = (register_in(word, 0), register_in(word, 5));
    match field(word, 22, 2) {
        0 => Some(A64::Str(size, t, n, number)),
        1 => Some(A64::Ldr(size, t, n, number)),
        _ => None,
    }
}

/// Branches, exceptions, barriers.
fn branch(word: u32) -> Option<A64<XReg>>
    ensures { result ≡ branch word }
{
    match field(word, 29, 3) {
        0 => Some(A64::B(far(word))),
        1 | 5 => compare(word),
        2 => Some(A64::BCond(byte(word, 0, 4), near(word))),
        6 if field(word, 24, 2) == 0 => exception(word),
        6 => system(word),
        _ => None,
    }
}

fn compare(word: u32) -> Option<A64<XReg>>
    ensures { result ≡ compare word }
{
    let (x, t) = (form_in(word), register_in(word, 0));
    match field(word, 24, 2) {
        0 => Some(A64::Cbz(x, t, near(word))),
        1 => Some(A64::Cbnz(x, t, near(word))),
        _ => None,
    }
}

fn exception(word: u32) -> Option<A64<XReg>>
    ensures { result ≡ exception word }
{
    match field(word, 0, 5) {
        0 => Some(A64::Brk(half(word, 5, 16))),
        1 => Some(A64::Svc(half(word, 5, 16))),
        _ => None,
    }
}

fn system(word: u32) -> Option<A64<XReg>>
    ensures { result ≡ system word }
{
    match word {
        0xD503_201F => Some(A64::Nop),
        0xD503_3BBF => Some(A64::DmbFull),
        0xD503_39BF => Some(A64::DmbLd),
        0xD503_3ABF => Some(A64::DmbSt),
        _ => None,
    }
}

/// The bits of a field, by its lowest bit and its width.
fn field(word: u32, low: u32, width: u32) -> u32
    requires inside { low < 32 }
    requires small { width < 32 }
    ensures { result ≡ field low width word }
{
    (word >> low) % (1 << width)
}

/// A field of at most 8 bits.
fn byte(word: u32, low: u32, width: u32) -> u8
    requires inside { low < 32 }
    requires small { width ≤ 8 }
    ensures { result ≡ field low width word }
{
    field(word, low, width) as u8
}

/// A field of at most 16 bits.
fn half(word: u32, low: u32, width: u32) -> u16
    requires inside { low < 32 }
    requires small { width ≤ 16 }
    ensures { result ≡ field low width word }
{
    field(word, low, width) as u16
}

/// The register whose number begins at a bit.
fn register_in(word: u32, low: u32) -> XReg
    requires { low < 32 }
    ensures { result ≡ register_in low word }
{
    XReg {
        number: byte(word, low, 5),
    }
}

/// Whether bit 31 is set, which the X form has.
fn form_in(word: u32) -> bool
    ensures { result ≡ form_in word }
{
    field(word, 31, 1) == 1
}

/// The size of an access in bytes, by bits 30 and 31.
fn size_in(word: u32) -> u8
    ensures { result ≡ size_in word }
{
    1 << field(word, 30, 2)
}

/// A distance in 19 bits from bit 5 on.
#[tactic(auto, unfolding(word_arith::specs::Signed::signed))]
fn near(word: u32) -> i32
    ensures { result ≡ distance_in 5 19 word }
{
    let bits = field(word, 5, 19) as i32;
    if bits < 0x4_0000 {
        bits
    } else {
        bits - 0x8_0000
    }
}

/// A distance in 26 bits from bit 0 on.
#[tactic(auto, unfolding(word_arith::specs::Signed::signed))]
fn far(word: u32) -> i32
    ensures { result ≡ distance_in 0 26 word }
{
    let bits = field(word, 0, 26) as i32;
    if bits < 0x200_0000 {
        bits
    } else {
        bits - 0x400_0000
    }
}
