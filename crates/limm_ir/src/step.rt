use ev_graph::TrapKind;

/// A temporary of a block, which holds 64 bits.
#[derive(Clone, Copy, Debug, PartialEq, Eq)]
pub struct Temp(pub u32);

/// A fence: `Frm` orders earlier reads before later accesses, `Fww` earlier writes before later
/// writes, and `Fsc` all.
#[derive(Clone, Copy, Debug, PartialEq, Eq)]
pub enum IrFence {
    Frm,
    Fww,
    Fsc,
}

/// An operation on two numbers of 64 bits, modulo 2^64.
#[derive(Clone, Copy, Debug, PartialEq, Eq)]
pub enum IrOp {
    Add,
    Sub,
    And,
    Or,
    Xor,
    /// A shift to the left by the second number modulo 64.
    Shl,
    /// A shift to the right by zeros, by the second number modulo 64.
    Shr,
    /// A shift to the right by the sign, by the second number modulo 64.
    Sar,
    /// A turn to the right by the second number modulo 64.
    Ror,
    /// The low half of the product.
    Mul,
    /// The high half of the product of two numbers without sign.
    HighU,
    /// The high half of the product of two numbers with sign.
    HighS,
    /// The quotient of two numbers without sign; by 0 it is 0.
    DivU,
    /// The quotient of two numbers with sign, towards 0; by 0 it is 0.
    DivS,
    /// 1 where both are equal, else 0.
    Eq,
    /// 1 where the first is less, without sign, else 0.
    LessU,
    /// 1 where the first is less, with sign, else 0.
    LessS,
    /// The low bytes of the first, as many as the second says, without sign.
    ZeroExt,
    /// The low bytes of the first, as many as the second says, with sign.
    SignExt,
}

/// What a locked step writes, from the old value and a given one.
#[derive(Clone, Copy, Debug, PartialEq, Eq)]
pub enum RmwOp {
    /// The given value.
    Swap,
    /// Their sum.
    Add,
    /// The old value without the bits of the given one.
    Clear,
    /// The bits in which they differ.
    Flip,
    /// The bits of both.
    Set,
}

/// A step of a block. Results stand first, then addresses, then values; the last two fields of an
/// access are its size in bytes and the address of its x86 instruction.
///
/// Registers are those of x86, 0 to 15; flags are 0 (CF), 1 (ZF), 2 (SF) and 3 (OF). The default stands
/// in places of an inline list that are not used.
#[derive(Clone, Copy, Debug, Default, PartialEq, Eq)]
pub enum IrStep {
    /// A temporary gets a number.
    Const(Temp, u64),
    /// A temporary gets what a register holds.
    GetReg(Temp, u8),
    /// A register gets what a temporary holds.
    SetReg(u8, Temp),
    /// A temporary gets what a flag is.
    GetFlag(Temp, u8),
    /// A flag gets what a temporary holds.
    SetFlag(u8, Temp),
    /// A temporary gets the value of an operation.
    Op(IrOp, Temp, Temp, Temp),
    /// A temporary gets the third where the second is not 0, else the fourth.
    Select(Temp, Temp, Temp, Temp),
    /// A read.
    Load(Temp, Temp, u8, u64),
    /// A write.
    Store(Temp, Temp, u8, u64),
    /// A locked pair: result (the old value), address, value.
    Rmw(RmwOp, Temp, Temp, Temp, u8, u64),
    /// A locked read, with the write where the old value is the expected one: result (the old
    /// value), address, expected value, new value.
    Cas(Temp, Temp, Temp, Temp, u8, u64),
    Fence(IrFence),
    /// Register 0 gets a value from outside.
    #[default]
    Input,
    /// The value of register 7 goes out.
    Output,
    /// The thread ends where the temporary is not 0.
    TrapIf(Temp, TrapKind),
}
