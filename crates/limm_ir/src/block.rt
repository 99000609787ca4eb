use crate::step::{IrStep, Temp};
use ev_graph::{List, TrapKind};

/// How a block ends.
#[derive(Clone, Copy, Debug, PartialEq, Eq)]
pub enum IrEnd {
    /// The block at an x86 address is next.
    Goto(u64),
    /// The block at the first address where the temporary is not 0, else that at the second.
    Branch(Temp, u64, u64),
    /// The return address that a temporary holds says where to go on.
    Return(Temp),
    /// The entry of a table, by its number; the table is named by its pattern's first address.
    Indexed(Temp, u64),
    /// The thread ends.
    Stop(TrapKind),
}

/// A block: the address of its first x86 instruction, its steps, and its end.
#[derive(Drop)]
pub struct IrBlock {
    pub first: u64,
    pub steps: List<IrStep>,
    pub end: IrEnd,
}
