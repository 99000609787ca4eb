ghost use Rattle.std.specs.Prelude.{◌≡◌};
ghost use Rattle.std.specs.List.{list_any};
ghost use Rattle.frame_marks.specs.Operands.{alu_written, is_absent, is_beside, is_memory_beside, is_number, is_part, is_register, names, operands, rsp, rbp, told, written};

use x64_syntax::{AluOp, Instr, Mem, Operand};

/// The number of the stack pointer.
pub(crate) const RSP: u8 = 4;

/// The number of the frame pointer.
pub(crate) const RBP: u8 = 5;

/// Some operands of one instruction, in order.
#[derive(Clone, Copy)]
pub(crate) enum Operands {
    Empty,
    One(Operand),
    Two(Operand, Operand),
    Three(Operand, Operand, Operand),
}

/// The operands of an instruction.
pub(crate) fn operands_of(instr: &Instr) -> Operands
    ensures { told result ≡ operands instr.now }
{
    match *instr {
        Instr::Alu(_, _, to, from, _)
        | Instr::Test(_, to, from)
        | Instr::Xchg(_, to, from, _)
        | Instr::Mov(_, to, from)
        | Instr::Lea(_, to, from)
        | Instr::MovZx(_, _, to, from)
        | Instr::MovSx(_, _, to, from)
        | Instr::MovSxd(to, from)
        | Instr::CmovCc(_, _, to, from)
        | Instr::ImulTwo(_, to, from)
        | Instr::Shift(_, _, to, from)
        | Instr::Cmpxchg(_, to, from, _)
        | Instr::Xadd(_, to, from, _) => Operands::Two(to, from),
        Instr::ImulThree(_, to, from, by) => Operands::Three(to, from, by),
        Instr::Push(one)
        | Instr::Pop(one)
        | Instr::CallInd(one)
        | Instr::JmpInd(one)
        | Instr::SetCc(_, one)
        | Instr::Inc(_, one, _)
        | Instr::Dec(_, one, _)
        | Instr::Not(_, one, _)
        | Instr::Neg(_, one)
        | Instr::Mul(_, one)
        | Instr::ImulOne(_, one)
        | Instr::Div(_, one)
        | Instr::Idiv(_, one) => Operands::One(one),
        Instr::Leave
        | Instr::Ret
        | Instr::Call(_)
        | Instr::Jmp(_)
        | Instr::Jcc(_, _)
        | Instr::Widen(_)
        | Instr::SignFill(_)
        | Instr::Nop
        | Instr::Pause
        | Instr::Endbr
        | Instr::Mfence
        | Instr::Ud2 => Operands::Empty,
    }
}

/// What CMP and the other operations write of their operands.
fn alu_written(op: AluOp, to: Operand) -> Operands
    ensures { told result ≡ alu_written op to }
{
    match op {
        AluOp::Cmp => Operands::Empty,
        AluOp::Add | AluOp::Or | AluOp::Adc | AluOp::Sbb | AluOp::And | AluOp::Sub | AluOp::Xor => {
            Operands::One(to)
        }
    }
}

/// Those of its operands that an instruction writes.
pub(crate) fn written_by(instr: &Instr) -> Operands
    ensures { told result ≡ written instr.now }
{
    match *instr {
        Instr::Alu(op, _, to, _, _) => alu_written(op, to),
        Instr::Xchg(_, to, from, _) | Instr::Xadd(_, to, from, _) => Operands::Two(to, from),
        Instr::Mov(_, to, _)
        | Instr::Lea(_, to, _)
        | Instr::MovZx(_, _, to, _)
        | Instr::MovSx(_, _, to, _)
        | Instr::MovSxd(to, _)
        | Instr::Pop(to)
        | Instr::SetCc(_, to)
        | Instr::CmovCc(_, _, to, _)
        | Instr::Inc(_, to, _)
        | Instr::Dec(_, to, _)
        | Instr::Not(_, to, _)
        | Instr::Neg(_, to)
        | Instr::ImulTwo(_, to, _)
        | Instr::ImulThree(_, to, _, _)
        | Instr::Shift(_, _, to, _)
        | Instr::Cmpxchg(_, to, _, _) => Operands::One(to),
        Instr::Test(_, _, _)
        | Instr::Push(_)
        | Instr::CallInd(_)
        | Instr::JmpInd(_)
        | Instr::Mul(_, _)
        | Instr::ImulOne(_, _)
        | Instr::Div(_, _)
        | Instr::Idiv(_, _)
        | Instr::Leave
        | Instr::Ret
        | Instr::Call(_)
        | Instr::Jmp(_)
        | Instr::Jcc(_, _)
        | Instr::Widen(_)
        | Instr::SignFill(_)
        | Instr::Nop
        | Instr::Pause
        | Instr::Endbr
        | Instr::Mfence
        | Instr::Ud2 => Operands::Empty,
    }
}

/// Whether the base or the index of memory is this register.
fn is_part(register: u8, part: Option<u8>) -> bool
    ensures { result ≡ is_part register part }
{
    match part {
        Some(number) => number == register,
        None => false,
    }
}

/// Whether an operand names a register.
pub(crate) fn names(register: u8, operand: Operand) -> bool
    ensures { result ≡ names register operand }
{
    match operand {
        Operand::Reg(r) => r.number == register,
        Operand::Mem(m) => is_part(register, m.base) || is_part(register, m.index),
        Operand::Imm(_) => false,
    }
}

/// Whether an operand is a register, or a part of it.
pub(crate) fn is_register(register: u8, operand: Operand) -> bool
    ensures { result ≡ is_register register operand }
{
    match operand {
        Operand::Reg(r) => r.number == register,
        Operand::Mem(_) | Operand::Imm(_) => false,
    }
}

/// Whether an operand is a number.
pub(crate) fn is_number(operand: Operand) -> bool
    ensures { result ≡ is_number operand }
{
    match operand {
        Operand::Imm(_) => true,
        Operand::Reg(_) | Operand::Mem(_) => false,
    }
}

/// Whether a base or an index is absent.
fn is_absent(part: Option<u8>) -> bool
    ensures { result ≡ is_absent part }
{
    match part {
        Some(_) => false,
        None => true,
    }
}

/// Whether memory is at a register and an offset, without an index.
pub(crate) fn is_beside(register: u8, m: Mem) -> bool
    ensures { result ≡ is_beside register m }
{
    is_part(register, m.base) && is_absent(m.index)
}

/// Whether an operand is such memory.
pub(crate) fn is_memory_beside(register: u8, operand: Operand) -> bool
    ensures { result ≡ is_memory_beside register operand }
{
    match operand {
        Operand::Mem(m) => is_beside(register, m),
        Operand::Reg(_) | Operand::Imm(_) => false,
    }
}
