use x64_syntax::{AluOp, ShiftOp, Width};

/// The bytes of an opcode, with those that an exactly spelled instruction has after it.
#[derive(Clone, Copy)]
pub enum Code {
    One(u8),
    Two(u8, u8),
    Three(u8, u8, u8),
    Four(u8, u8, u8, u8),
}

/// The width of an instruction or operand; `Operand` is the width that REX.W and 66 choose.
#[derive(Clone, Copy)]
pub enum Size {
    Byte,
    Word,
    Long,
    Quad,
    Operand,
}

/// Where an operand is taken from.
#[derive(Clone, Copy)]
pub enum Place {
    /// There is no such operand.
    Absent,
    /// ModRM's r/m field: a register or memory.
    Rm(Size),
    /// ModRM's r/m field, which must be memory.
    Memory(Size),
    /// ModRM's reg field.
    Reg(Size),
    /// The low three bits of the opcode.
    Low(Size),
    /// The register 0.
    Accumulator(Size),
    /// The register CL.
    Count,
    /// The number 1.
    One,
    /// An immediate of 8 bits, sign-extended.
    Short,
    /// An immediate of 8 bits, without sign.
    Unsigned,
    /// An immediate of 16 bits at that width and else of 32, sign-extended.
    Full,
    /// An immediate of the instruction's whole width.
    Whole,
}

/// Whether F0 may or must stand before a row's instruction; with a register it never may.
#[derive(Clone, Copy)]
pub enum Lock {
    Never,
    WithMemory,
    AlwaysWithMemory,
}

/// What may stand before a row's opcode.
#[derive(Clone, Copy)]
pub enum Before {
    Anything,
    /// No 66.
    NoWord,
    /// Neither prefix nor REX.
    Nothing,
    WithW,
    WithoutW,
    WithB,
    WithoutB,
}

/// An instruction without its operands. Numbers are condition codes; the width of `MovZx` and `MovSx`
/// is their source's.
#[derive(Clone, Copy)]
pub enum Name {
    Alu(AluOp),
    Test,
    Xchg,
    Mov,
    Lea,
    MovZx(Width),
    MovSx(Width),
    MovSxd,
    Push,
    Pop,
    Leave,
    Ret,
    Call,
    Jmp,
    CallInd,
    JmpInd,
    Jcc(u8),
    SetCc(u8),
    CmovCc(u8),
    Inc,
    Dec,
    Not,
    Neg,
    Mul,
    ImulOne,
    Div,
    Idiv,
    ImulTwo,
    ImulThree,
    Shift(ShiftOp),
    Widen,
    SignFill,
    Cmpxchg,
    Xadd,
    Nop,
    Pause,
    Endbr,
    Mfence,
    Ud2,
}

/// A row of the opcode table: a code, the number in ModRM's reg field where that is part of the opcode,
/// the instruction's width, its operands, and what may stand before it.
#[derive(Clone, Copy)]
pub struct Row {
    pub code: Code,
    pub digit: Option<u8>,
    pub size: Size,
    pub to: Place,
    pub from: Place,
    pub by: Place,
    pub name: Name,
    pub lock: Lock,
    pub before: Before,
}

/// What stands before an opcode: whether 66 and F0 are among the prefixes, the REX byte, and how many
/// bytes that is together.
#[derive(Clone, Copy)]
pub struct Front {
    pub word: bool,
    pub lock: bool,
    pub rex: Option<u8>,
    pub length: usize,
}
