ghost use Rattle.std.specs.Prelude.{◌≡◌, ◌%◌, ◌^◌, ◌<◌, ◌+◌, ◌≤◌, false};
ghost use Rattle.word_arith.specs.Bits.{bit, top_bit};
ghost use Rattle.word_arith.specs.Masks.{ones};
ghost use Rattle.word_arith.specs.Signed.{sign_extend};
ghost use Rattle.alu_width.specs.Sums.{outcome, sum_outcome, difference_outcome, logic_value};
ghost use Rattle.alu_width.specs.Products.{product};
ghost use Rattle.alu_width.specs.Quotients.{quotient};
ghost use Rattle.x64_syntax.specs.Operands.{bits};
ghost use Rattle.x64_table.specs.Outcomes.{alu_outcome, inc_outcome, dec_outcome, neg_outcome, not_value, turn_outcome, product_flags, quotient_flags, filled};

use alu_width::{Alu, DivFault, Flags, Logic, Outcome, Product, Quotient, Rotate, Shift};
use x64_syntax::{AluOp, ShiftOp, Width};

// an operation of `Alu` at a width
macro_rules! at_width {
    ($width:expr, $operation:ident($($argument:expr),*)) => {
        match $width {
            Width::Byte => Alu::<8>::$operation($($argument),*),
            Width::Word => Alu::<16>::$operation($($argument),*),
            Width::Long => Alu::<32>::$operation($($argument),*),
            Width::Quad => Alu::<64>::$operation($($argument),*),
        }
    };
}

/// Ones at each bit of a width.
pub(crate) fn mask(w: Width) -> u64
    ensures value { result ≡ ones (bits w) }
    ensures fits { result + 1 ≡ 2 ^ bits w }
{
    match w {
        Width::Byte => 0xFF,
        Width::Word => 0xFFFF,
        Width::Long => 0xFFFF_FFFF,
        Width::Quad => u64::MAX,
    }
}

/// The bits of a number that a width holds.
pub(crate) fn low_bits(w: Width, n: u64) -> u64
    ensures value { result ≡ n % 2 ^ bits w }
    ensures fits { result < 2 ^ bits w }
{
    n & mask(w)
}

fn sum(w: Width, a: u64, b: u64, carry: bool) -> Outcome
    requires a_fits { a < 2 ^ bits w }
    requires b_fits { b < 2 ^ bits w }
    ensures { result ≡ sum_outcome (bits w) a b (bit carry) }
{
    at_width!(w, adc(a, b, carry))
}

fn difference(w: Width, a: u64, b: u64, borrow: bool) -> Outcome
    requires a_fits { a < 2 ^ bits w }
    requires b_fits { b < 2 ^ bits w }
    ensures { result ≡ difference_outcome (bits w) a b (bit borrow) }
{
    at_width!(w, sbb(a, b, borrow))
}

fn logic(w: Width, op: Logic, a: u64, b: u64) -> Outcome
    requires a_fits { a < 2 ^ bits w }
    requires b_fits { b < 2 ^ bits w }
    ensures { result ≡ outcome (bits w) (logic_value op a b) false false }
{
    at_width!(w, logic(op, a, b))
}

/// ADD, OR, ADC, SBB, AND, SUB, XOR and CMP.
#[tactic(auto, unfolding(crate::specs::Outcomes::alu_outcome))]
pub(crate) fn combine(op: AluOp, w: Width, a: u64, b: u64, flags: Flags) -> Outcome
    requires a_fits { a < 2 ^ bits w }
    requires b_fits { b < 2 ^ bits w }
    ensures { result ≡ alu_outcome op (bits w) a b flags }
{
    match op {
        AluOp::Add => sum(w, a, b, false),
        AluOp::Or => logic(w, Logic::Or, a, b),
        AluOp::Adc => sum(w, a, b, flags.cf),
        AluOp::Sbb => difference(w, a, b, flags.cf),
        AluOp::And => logic(w, Logic::And, a, b),
        AluOp::Sub | AluOp::Cmp => difference(w, a, b, false),
        AluOp::Xor => logic(w, Logic::Xor, a, b),
    }
}

/// INC, which keeps CF.
#[tactic(auto, unfolding(crate::specs::Outcomes::inc_outcome))]
pub(crate) fn increase(w: Width, a: u64, flags: Flags) -> Outcome
    requires { a < 2 ^ bits w }
    ensures { result ≡ inc_outcome (bits w) a flags }
{
    keeping_carry(sum(w, a, 1, false), flags)
}

/// DEC, which keeps CF.
#[tactic(auto, unfolding(crate::specs::Outcomes::dec_outcome))]
pub(crate) fn decrease(w: Width, a: u64, flags: Flags) -> Outcome
    requires { a < 2 ^ bits w }
    ensures { result ≡ dec_outcome (bits w) a flags }
{
    keeping_carry(difference(w, a, 1, false), flags)
}

fn keeping_carry(new: Outcome, old: Flags) -> Outcome
    ensures { result ≡ record new { flags = record new.flags { cf = old.cf } } }
{
    Outcome {
        flags: Flags {
            cf: old.cf,
            ..new.flags
        },
        ..new
    }
}

/// NEG.
pub(crate) fn negate(w: Width, a: u64) -> Outcome
    requires { a < 2 ^ bits w }
    ensures { result ≡ neg_outcome (bits w) a }
{
    difference(w, 0, a, false)
}

/// NOT.
pub(crate) fn complement(w: Width, a: u64) -> u64
    requires { a < 2 ^ bits w }
    ensures { result ≡ not_value (bits w) a }
{
    mask(w) - a
}

/// Shifts and rotates by a count.
#[tactic(auto, unfolding(crate::specs::Outcomes::turn_outcome))]
pub(crate) fn turn(op: ShiftOp, w: Width, a: u64, count: u8, flags: Flags) -> Outcome
    requires { a < 2 ^ bits w }
    ensures { result ≡ turn_outcome op (bits w) a count flags }
{
    match op {
        ShiftOp::Rol => at_width!(w, rotate(Rotate::Rol, a, count, flags)),
        ShiftOp::Ror => at_width!(w, rotate(Rotate::Ror, a, count, flags)),
        ShiftOp::Shl => at_width!(w, shift(Shift::Shl, a, count, flags)),
        ShiftOp::Shr => at_width!(w, shift(Shift::Shr, a, count, flags)),
        ShiftOp::Sar => at_width!(w, shift(Shift::Sar, a, count, flags)),
    }
}

/// The double product of MUL (`signed` false) and IMUL (true).
pub(crate) fn multiply(signed: bool, w: Width, a: u64, b: u64) -> Product
    requires a_fits { a < 2 ^ bits w }
    requires b_fits { b < 2 ^ bits w }
    ensures { result ≡ product signed (bits w) a b }
{
    at_width!(w, mul(signed, a, b))
}

/// The flags after MUL and IMUL: ZF and SF are undefined, so 0.
#[tactic(auto, unfolding(crate::specs::Outcomes::product_flags))]
pub(crate) fn product_flags(product: Product, old: Flags) -> Flags
    ensures { result ≡ product_flags product old }
{
    Flags {
        cf: product.over,
        zf: false,
        sf: false,
        of: product.over,
    }
}

/// DIV (`signed` false) and IDIV (true) of a double word by a word.
///
/// # Errors
/// As `Alu::div`.
pub(crate) fn divide(
    signed: bool,
    w: Width,
    high: u64,
    low: u64,
    by: u64,
) -> Result<Quotient, DivFault>
    requires high_fits { high < 2 ^ bits w }
    requires low_fits { low < 2 ^ bits w }
    requires by_fits { by < 2 ^ bits w }
    ensures { result ≡ quotient signed (bits w) high low by }
{
    at_width!(w, div(signed, high, low, by))
}

/// The flags after DIV and IDIV: all are undefined, so 0.
#[tactic(auto, unfolding(crate::specs::Outcomes::quotient_flags))]
pub(crate) fn quotient_flags(old: Flags) -> Flags
    ensures { result ≡ quotient_flags old }
{
    Flags {
        cf: false,
        zf: false,
        sf: false,
        of: false,
    }
}

/// Whether the highest bit of a width is set.
#[tactic(auto, unfolding(word_arith::specs::Bits::top_bit))]
fn is_negative(w: Width, a: u64) -> bool
    ensures { result ≡ top_bit (bits w) a }
{
    a > mask(w) / 2
}

/// A number of width `from` extended by its sign to the width `to`, or cut to it where that is narrower.
pub(crate) fn extend(to: Width, from: Width, a: u64) -> u64
    requires { a < 2 ^ bits from }
    ensures { result ≡ sign_extend (bits to) (bits from) a }
{
    low_bits(to, extend_whole(from, a))
}

/// A number of a width extended by its sign to 64 bits.
#[tactic(auto, using(word_arith::proofs::ExtendLemmas::sign_extend_is))]
fn extend_whole(from: Width, a: u64) -> u64
    requires { a < 2 ^ bits from }
    ensures { result ≡ sign_extend 64 (bits from) a }
{
    if is_negative(from, a) {
        a + (u64::MAX - mask(from))
    } else {
        a
    }
}

/// Copies of the top bit at each bit of a width.
#[tactic(auto, unfolding(crate::specs::Outcomes::filled))]
pub(crate) fn fill(w: Width, a: u64) -> u64
    ensures { result ≡ filled (bits w) a }
{
    if is_negative(w, a) { mask(w) } else { 0 }
}
