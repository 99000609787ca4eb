ghost use Rattle.std.specs.Prelude.{◌≡◌};
ghost use Rattle.flag_use.specs.Instructions.{even_reads, condition_reads, operation_reads, reads};

use crate::flag::Flag;
use x64_syntax::{AluOp, Instr};

/// Whether the condition of an even code reads a flag.
fn even_reads(flag: Flag, code: u8) -> bool
    ensures { result ≡ even_reads flag code }
{
    match flag {
        Flag::Cf => code == 2 || code == 6,
        Flag::Zf => code == 4 || code == 6 || code == 14,
        Flag::Sf => code == 8 || code == 12 || code == 14,
        Flag::Of => code == 0 || code == 12 || code == 14,
    }
}

/// Whether the condition of a code reads a flag (Intel SDM volume 2, appendix B, table B-10).
fn condition_reads(flag: Flag, code: u8) -> bool
    ensures { result ≡ condition_reads flag code }
{
    even_reads(flag, code - code % 2)
}

/// Whether an operation reads a flag.
fn operation_reads(flag: Flag, op: AluOp) -> bool
    ensures { result ≡ operation_reads flag op }
{
    match (op, flag) {
        (AluOp::Adc | AluOp::Sbb, Flag::Cf) => true,
        _ => false,
    }
}

/// Whether an instruction reads a flag.
pub(crate) fn reads(flag: Flag, instr: &Instr) -> bool
    ensures { result ≡ reads flag instr.now }
{
    match *instr {
        Instr::Jcc(condition, _) | Instr::SetCc(condition, _) | Instr::CmovCc(condition, _, _, _) =>
            { condition_reads(flag, condition.code) }
        Instr::Alu(op, _, _, _, _) => operation_reads(flag, op),
        Instr::Test(_, _, _)
        | Instr::Xchg(_, _, _, _)
        | Instr::Mov(_, _, _)
        | Instr::Lea(_, _, _)
        | Instr::MovZx(_, _, _, _)
        | Instr::MovSx(_, _, _, _)
        | Instr::MovSxd(_, _)
        | Instr::Push(_)
        | Instr::Pop(_)
        | Instr::Leave
        | Instr::Ret
        | Instr::Call(_)
        | Instr::Jmp(_)
        | Instr::CallInd(_)
        | Instr::JmpInd(_)
        | Instr::Inc(_, _, _)
        | Instr::Dec(_, _, _)
        | Instr::Not(_, _, _)
        | Instr::Neg(_, _)
        | Instr::Mul(_, _)
        | Instr::ImulOne(_, _)
        | Instr::Div(_, _)
        | Instr::Idiv(_, _)
        | Instr::ImulTwo(_, _, _)
        | Instr::ImulThree(_, _, _, _)
        | Instr::Shift(_, _, _, _)
        | Instr::Widen(_)
        | Instr::SignFill(_)
        | Instr::Cmpxchg(_, _, _, _)
        | Instr::Xadd(_, _, _, _)
        | Instr::Nop
        | Instr::Pause
        | Instr::Endbr
        | Instr::Mfence
        | Instr::Ud2 => false,
    }
}
