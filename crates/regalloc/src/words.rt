ghost use Rattle.std.specs.Prelude.{◌≡◌};
ghost use Rattle.a64_table.specs.Rows.{a64_result, a64_operands};
ghost use Rattle.a64_block.specs.Registers.{numbers};
ghost use Rattle.regalloc.specs.Uses.{filled, mentioned};

use crate::registers::ZERO;
use a64_code::A64;

/// The number that a word sets.
pub fn result_of(word: A64<u32>) -> Option<u32>
    ensures { result ≡ a64_result numbers word }
{
    match word {
        A64::Add(_, d, _, _, _, _) => Some(d),
        A64::Sub(_, d, _, _, _, _) => Some(d),
        A64::Subs(_, d, _, _, _, _) => Some(d),
        A64::And(_, d, _, _, _, _) => Some(d),
        A64::Orr(_, d, _, _, _, _) => Some(d),
        A64::Eor(_, d, _, _, _, _) => Some(d),
        A64::AddImm(_, d, _, _) => Some(d),
        A64::SubImm(_, d, _, _) => Some(d),
        A64::Movz(_, d, _, _) => Some(d),
        A64::Movk(_, d, _, _) => Some(d),
        A64::Movn(_, d, _, _) => Some(d),
        A64::Lslv(_, d, _, _) => Some(d),
        A64::Lsrv(_, d, _, _) => Some(d),
        A64::Asrv(_, d, _, _) => Some(d),
        A64::Rorv(_, d, _, _) => Some(d),
        A64::Udiv(_, d, _, _) => Some(d),
        A64::Sdiv(_, d, _, _) => Some(d),
        A64::Madd(_, d, _, _, _) => Some(d),
        A64::Msub(_, d, _, _, _) => Some(d),
        A64::Smulh(d, _, _) => Some(d),
        A64::Umulh(d, _, _) => Some(d),
        A64::Ubfm(_, d, _, _, _) => Some(d),
        A64::Sbfm(_, d, _, _, _) => Some(d),
        A64::Csel(_, d, _, _, _) => Some(d),
        A64::Csinc(_, d, _, _, _) => Some(d),
        A64::Ldr(_, t, _, _) => Some(t),
        A64::Cas(_, s, _, _) => Some(s),
        A64::Swp(_, _, t, _) => Some(t),
        A64::Ldadd(_, _, t, _) => Some(t),
        A64::Ldclr(_, _, t, _) => Some(t),
        A64::Ldeor(_, _, t, _) => Some(t),
        A64::Ldset(_, _, t, _) => Some(t),
        A64::Svc(number) => (number == 1).then_some(0),
        A64::B(_)
        | A64::BCond(_, _)
        | A64::Cbz(_, _, _)
        | A64::Cbnz(_, _, _)
        | A64::Str(_, _, _, _)
        | A64::DmbFull
        | A64::DmbLd
        | A64::DmbSt
        | A64::Nop
        | A64::Brk(_) => None,
    }
}

/// The numbers that a word reads, filled up with the one that reads as 0.
fn operands_of(word: A64<u32>) -> [u32; 3]
    ensures { result ≡ filled (a64_operands numbers word) }
{
    match word {
        A64::Add(_, _, n, m, _, _) => [n, m, ZERO],
        A64::Sub(_, _, n, m, _, _) => [n, m, ZERO],
        A64::Subs(_, _, n, m, _, _) => [n, m, ZERO],
        A64::And(_, _, n, m, _, _) => [n, m, ZERO],
        A64::Orr(_, _, n, m, _, _) => [n, m, ZERO],
        A64::Eor(_, _, n, m, _, _) => [n, m, ZERO],
        A64::AddImm(_, _, n, _) => [n, ZERO, ZERO],
        A64::SubImm(_, _, n, _) => [n, ZERO, ZERO],
        A64::Movk(_, d, _, _) => [d, ZERO, ZERO],
        A64::Lslv(_, _, n, m) => [n, m, ZERO],
        A64::Lsrv(_, _, n, m) => [n, m, ZERO],
        A64::Asrv(_, _, n, m) => [n, m, ZERO],
        A64::Rorv(_, _, n, m) => [n, m, ZERO],
        A64::Udiv(_, _, n, m) => [n, m, ZERO],
        A64::Sdiv(_, _, n, m) => [n, m, ZERO],
        A64::Madd(_, _, n, m, a) => [n, m, a],
        A64::Msub(_, _, n, m, a) => [n, m, a],
        A64::Smulh(_, n, m) => [n, m, ZERO],
        A64::Umulh(_, n, m) => [n, m, ZERO],
        A64::Ubfm(_, _, n, _, _) => [n, ZERO, ZERO],
        A64::Sbfm(_, _, n, _, _) => [n, ZERO, ZERO],
        A64::Csel(_, _, n, m, _) => [n, m, ZERO],
        A64::Csinc(_, _, n, m, _) => [n, m, ZERO],
        A64::Cbz(_, t, _) => [t, ZERO, ZERO],
        A64::Cbnz(_, t, _) => [t, ZERO, ZERO],
        A64::Ldr(_, _, n, _) => [n, ZERO, ZERO],
        A64::Str(_, t, n, _) => [t, n, ZERO],
        A64::Cas(_, s, t, n) => [s, t, n],
        A64::Swp(_, s, _, n) => [s, n, ZERO],
        A64::Ldadd(_, s, _, n) => [s, n, ZERO],
        A64::Ldclr(_, s, _, n) => [s, n, ZERO],
        A64::Ldeor(_, s, _, n) => [s, n, ZERO],
        A64::Ldset(_, s, _, n) => [s, n, ZERO],
        A64::Svc(_) => [7, ZERO, ZERO],
        A64::Movz(_, _, _, _)
        | A64::Movn(_, _, _, _)
        | A64::B(_)
        | A64::BCond(_, _)
        | A64::DmbFull
        | A64::DmbLd
        | A64::DmbSt
        | A64::Nop
        | A64::Brk(_) => [ZERO; 3],
    }
}

/// The numbers of a word, filled up with the one that reads as 0.
pub fn numbers_of(word: A64<u32>) -> [u32; 4]
    ensures { result ≡ mentioned word }
{
    let [first, second, third] = operands_of(word);
    [result_of(word).unwrap_or(ZERO), first, second, third]
}
