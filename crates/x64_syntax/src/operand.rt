/// A width of an operand: 8, 16, 32 or 64 bits.
#[derive(Clone, Copy, Debug, PartialEq, Eq)]
pub enum Width {
    Byte,
    Word,
    Long,
    Quad,
}

/// A general register by its number, 0 (`rax`) to 15 (`r15`), as ModRM and REX number them.
///
/// `high` is true for `ah`, `ch`, `dh` and `bh`, whose numbers are 0 to 3, and false for all others.
#[derive(Clone, Copy, Debug, PartialEq, Eq)]
pub struct Reg {
    pub number: u8,
    pub high: bool,
}

/// A memory operand: the sum of the base, the index times the scale, and the offset, modulo 2^64.
///
/// Base and index are register numbers, 0 to 15. The scale is 1, 2, 4 or 8, and 1 without an index.
/// Where `rip` is true the offset counts from the address after the instruction, and there is neither
/// base nor index.
#[derive(Clone, Copy, Debug, PartialEq, Eq)]
pub struct Mem {
    pub base: Option<u8>,
    pub index: Option<u8>,
    pub scale: u8,
    pub offset: i64,
    pub rip: bool,
}

/// An operand: a register, memory, or a number below 2 to the power of the instruction's width.
#[derive(Clone, Copy, Debug, PartialEq, Eq)]
pub enum Operand {
    Reg(Reg),
    Mem(Mem),
    Imm(u64),
}

/// A condition by its code, 0 to 15 without 10 and 11: the low four bits of the opcodes of Jcc, SETcc and CMOVcc.
#[derive(Clone, Copy, Debug, PartialEq, Eq)]
pub struct Cond {
    pub code: u8,
}
