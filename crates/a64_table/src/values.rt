ghost use Rattle.std.specs.Prelude.{◌≡◌, ℕ, ◌+◌, ◌-◌, ◌*◌, ◌/◌, ◌%◌, ◌^◌, ◌<◌, Bool};
ghost use Rattle.word_arith.specs.Width.{IsWidth};
ghost use Rattle.word_arith.specs.ArmWords.{subs_value, bitfield_move};
ghost use Rattle.a64_code.specs.Ranges.{bits, IsOperand, IsEncodable, IsShift, IsQuarter};
ghost use Rattle.a64_table.specs.State.{xregs, value, held};
ghost use Rattle.a64_table.specs.Values.{low, shifted, even_holds, holds, subs_flags, a64_value};

use crate::state::{A64State, Nzcv};
use crate::words;
use a64_code::{A64, XReg};

/// What a word that only computes gives its result register; `None` for every other word.
pub(crate) fn computed(instr: A64<XReg>, state: &A64State) -> Option<u64>
    requires { IsEncodable instr }
    ensures { result ≡ a64_value instr (value xregs (held state.now)) (held state.now).nzcv }
{
    let value = match instr {
        A64::Add(x, _, n, m, kind, amount) => {
            sum(x, state.value(n), second(x, state, m, kind, amount))
        }
        A64::Sub(x, _, n, m, kind, amount) => {
            words::difference(bits(x), cut(x, state, n), second(x, state, m, kind, amount))
        }
        A64::And(x, _, n, m, kind, amount) => {
            low(x, state.value(n) & second(x, state, m, kind, amount))
        }
        A64::Orr(x, _, n, m, kind, amount) => {
            low(x, state.value(n) | second(x, state, m, kind, amount))
        }
        A64::Eor(x, _, n, m, kind, amount) => {
            low(x, state.value(n) ^ second(x, state, m, kind, amount))
        }
        A64::AddImm(x, _, n, number) => sum(x, state.value(n), u64::from(number)),
        A64::SubImm(x, _, n, number) => {
            words::difference(bits(x), cut(x, state, n), u64::from(number))
        }
        A64::Movz(x, _, v, quarter) => in_quarter(x, v, quarter),
        A64::Movk(x, d, v, quarter) => {
            words::with_quarter(cut(x, state, d), 16 * u32::from(quarter), v)
        }
        A64::Movn(x, _, v, quarter) => low(x, u64::MAX) - in_quarter(x, v, quarter),
        A64::Lslv(x, _, n, m) => {
            words::shifted_left(bits(x), cut(x, state, n), cut(x, state, m))
        }
        A64::Lsrv(x, _, n, m) => {
            words::shifted_right(bits(x), cut(x, state, n), cut(x, state, m))
        }
        A64::Asrv(x, _, n, m) => {
            words::shifted_by_sign(bits(x), cut(x, state, n), cut(x, state, m))
        }
        A64::Rorv(x, _, n, m) => {
            words::turned_right(bits(x), cut(x, state, n), cut(x, state, m))
        }
        A64::Udiv(x, _, n, m) => words::quotient(bits(x), cut(x, state, n), cut(x, state, m)),
        A64::Sdiv(x, _, n, m) => {
            words::signed_quotient(bits(x), cut(x, state, n), cut(x, state, m))
        }
        A64::Madd(x, _, n, m, a) => {
            let (n, m) = (cut(x, state, n), cut(x, state, m));
            words::product_added(bits(x), cut(x, state, a), n, m)
        }
        A64::Msub(x, _, n, m, a) => {
            let (n, m) = (cut(x, state, n), cut(x, state, m));
            words::product_taken(bits(x), cut(x, state, a), n, m)
        }
        A64::Smulh(_, n, m) => words::signed_upper_product(state.value(n), state.value(m)),
        A64::Umulh(_, n, m) => words::upper_product(state.value(n), state.value(m)),
        A64::Ubfm(x, _, n, immr, imms) => moved(false, x, cut(x, state, n), immr, imms),
        A64::Sbfm(x, _, n, immr, imms) => moved(true, x, cut(x, state, n), immr, imms),
        A64::Csel(x, _, n, m, code) => {
            if holds(code, state.nzcv()) {
                cut(x, state, n)
            } else {
                cut(x, state, m)
            }
        }
        A64::Csinc(x, _, n, m, code) => {
            if holds(code, state.nzcv()) {
                cut(x, state, n)
            } else {
                sum(x, state.value(m), 1)
            }
        }
        A64::Subs(..)
        | A64::B(_)
        | A64::BCond(..)
        | A64::Cbz(..)
        | A64::Cbnz(..)
        | A64::Ldr(..)
        | A64::Str(..)
        | A64::Cas(..)
        | A64::Swp(..)
        | A64::Ldadd(..)
        | A64::Ldclr(..)
        | A64::Ldeor(..)
        | A64::Ldset(..)
        | A64::DmbFull
        | A64::DmbLd
        | A64::DmbSt
        | A64::Nop
        | A64::Brk(_)
        | A64::Svc(_) => return None,
    };
    Some(value)
}

/// The low bits of a register that a form works on.
pub(crate) fn cut(x: bool, state: &A64State, r: XReg) -> u64
    requires { IsOperand r }
    ensures value { result ≡ low x (value xregs (held state.now) r) }
    ensures fits { result < 2 ^ bits x }
{
    low(x, state.value(r))
}

/// The second operand of a form: a register, shifted.
pub(crate) fn second(x: bool, state: &A64State, r: XReg, kind: u8, amount: u8) -> u64
    requires { IsOperand r }
    ensures value { result ≡ shifted x kind amount (value xregs (held state.now) r) }
    ensures fits { result < 2 ^ bits x }
{
    shifted(x, kind, amount, state.value(r))
}

/// Bits of a form moved down or up, extended by zeros or by the sign.
fn moved(sign: bool, x: bool, v: u64, immr: u8, imms: u8) -> u64
    requires v_fits { v < 2 ^ bits x }
    requires immr_fits { immr < bits x }
    requires imms_fits { imms < bits x }
    ensures { result ≡ bitfield_move sign (bits x) immr imms v }
{
    words::bits_moved(sign, bits(x), u32::from(immr), u32::from(imms), v)
}

/// 16 bits in a quarter of a word.
fn in_quarter(x: bool, v: u16, quarter: u8) -> u64
    requires { quarter < bits x / 16 }
    ensures value { result ≡ v * 2 ^ (16 * quarter) }
    ensures fits { result < 2 ^ bits x }
{
    u64::from(v) << (16 * u32::from(quarter))
}

/// How many bits a form works on.
pub(crate) fn bits(x: bool) -> u32
    ensures value { result ≡ bits x }
    ensures width { IsWidth result }
{
    if x { 64 } else { 32 }
}

/// The low bits that a form works on.
pub(crate) fn low(x: bool, v: u64) -> u64
    ensures value { result ≡ low x v }
    ensures fits { result < 2 ^ bits x }
{
    if x { v } else { v % 0x1_0000_0000 }
}

/// The second operand: shifted by `LSL`, `LSR` or `ASR`.
fn shifted(x: bool, kind: u8, amount: u8, v: u64) -> u64
    ensures value { result ≡ shifted x kind amount v }
    ensures fits { result < 2 ^ bits x }
{
    let (w, v, amount) = (bits(x), low(x, v), u64::from(amount));
    match kind {
        0 => words::shifted_left(w, v, amount),
        1 => words::shifted_right(w, v, amount),
        _ => words::shifted_by_sign(w, v, amount),
    }
}

/// A sum in a form.
fn sum(x: bool, a: u64, b: u64) -> u64
    ensures { result ≡ low x (a + b) }
{
    low(x, a.wrapping_add(b))
}

/// Whether a condition, 0 (`EQ`) to 13 (`LE`), holds.
#[tactic(auto, unfolding(crate::specs::Values::holds))]
pub(crate) fn holds(code: u8, flags: Nzcv) -> bool
    requires { code < 14 }
    ensures { result ≡ holds code flags }
{
    let even = match code / 2 {
        0 => flags.z,
        1 => flags.c,
        2 => flags.n,
        3 => flags.v,
        4 => flags.c && !flags.z,
        5 => flags.n == flags.v,
        _ => !flags.z && flags.n == flags.v,
    };
    even != (code % 2 == 1)
}

/// The flags of a difference of words of w bits.
#[tactic(auto, unfolding(crate::specs::Values::subs_flags))]
pub(crate) fn difference_flags(w: u32, a: u64, b: u64) -> Nzcv
    requires width { IsWidth w }
    requires a_fits { a < 2 ^ w }
    requires b_fits { b < 2 ^ w }
    ensures { result ≡ subs_flags w a b }
{
    let value = words::difference(w, a, b);
    Nzcv {
        n: words::top_bit(w, value),
        z: value == 0,
        c: a >= b,
        v: !words::fits_signed(w, words::exact_difference(w, a, b)),
    }
}
