use a64_code::A64;
use ev_graph::{List, TrapKind};

/// How a block of words ends, over registers of type `R`.
#[derive(Clone, Copy, Debug, PartialEq, Eq)]
pub enum AEnd<R> {
    /// The block at an x86 address is next.
    Goto(u64),
    /// The block at the first address where the register is not 0, else that at the second.
    Branch(R, u64, u64),
    /// The return address that a register holds says where to go on.
    Return(R),
    /// The entry of a table, by its number; the table is named by its pattern's first address.
    Indexed(R, u64),
    /// The thread ends.
    Stop(TrapKind),
}

/// A block: the address of its first x86 instruction, its words, and its end.
///
/// Over `u32` registers are numbers: 0 to 15 are those of x86, 16 to 19 the flags CF, ZF, SF and OF,
/// 20 is the zero register, and greater numbers are temporaries.
#[derive(Drop)]
pub struct ABlock<R> {
    pub first: u64,
    pub steps: List<A64<R>>,
    pub end: AEnd<R>,
}
