use crate::{Cond, Operand, Width};

/// The operations of the first eight opcode groups, in the order in which ModRM's reg field numbers them.
#[derive(Clone, Copy, Debug, PartialEq, Eq)]
pub enum AluOp {
    Add,
    Or,
    Adc,
    Sbb,
    And,
    Sub,
    Xor,
    Cmp,
}

/// Shifts and rotates.
#[derive(Clone, Copy, Debug, PartialEq, Eq)]
pub enum ShiftOp {
    Rol,
    Ror,
    Shl,
    Shr,
    Sar,
}

/// An instruction. Operands stand as the manual writes them, the destination first.
///
/// A `bool` says that the access to memory is locked: F0 stands before the instruction, or it is `Xchg`
/// with memory. In `MovZx` and `MovSx` the first width is the destination's and the second the source's.
/// An immediate is sign-extended to the instruction's width where it is shorter, and to 64 bits in `Push`.
/// The count of `Shift` is an immediate of 8 bits without sign, or the register 1 (`cl`). The number of
/// `Call`, `Jmp` and `Jcc` is the sign-extended displacement modulo 2^64, counted from the address after
/// the instruction. `Widen` is CBW, CWDE and CDQE, and `SignFill` is CWD, CDQ and CQO.
#[derive(Clone, Copy, Debug, PartialEq, Eq)]
pub enum Instr {
    Alu(AluOp, Width, Operand, Operand, bool),
    Test(Width, Operand, Operand),
    Xchg(Width, Operand, Operand, bool),
    Mov(Width, Operand, Operand),
    Lea(Width, Operand, Operand),
    MovZx(Width, Width, Operand, Operand),
    MovSx(Width, Width, Operand, Operand),
    MovSxd(Operand, Operand),
    Push(Operand),
    Pop(Operand),
    Leave,
    Ret,
    Call(u64),
    Jmp(u64),
    CallInd(Operand),
    JmpInd(Operand),
    Jcc(Cond, u64),
    SetCc(Cond, Operand),
    CmovCc(Cond, Width, Operand, Operand),
    Inc(Width, Operand, bool),
    Dec(Width, Operand, bool),
    Not(Width, Operand, bool),
    Neg(Width, Operand),
    Mul(Width, Operand),
    ImulOne(Width, Operand),
    Div(Width, Operand),
    Idiv(Width, Operand),
    ImulTwo(Width, Operand, Operand),
    ImulThree(Width, Operand, Operand, Operand),
    Shift(ShiftOp, Width, Operand, Operand),
    Widen(Width),
    SignFill(Width),
    Cmpxchg(Width, Operand, Operand, bool),
    Xadd(Width, Operand, Operand, bool),
    Nop,
    Pause,
    Endbr,
    Mfence,
    Ud2,
}
