use crate::Instr;

/// How control goes on after an instruction: as the instruction itself says (`Plain`), by a direct call
/// or jump to the listed input or output function (`ListedIn`, `ListedOut`), or through a table of
/// addresses (`TableJump`).
///
/// `ListedIn` and `ListedOut` fit `Call` and `Jmp` alone, and `TableJump` fits a `JmpInd` alone.
#[derive(Clone, Copy, PartialEq, Eq)]
pub enum Flow {
    Plain,
    ListedIn,
    ListedOut,
    TableJump,
}

/// An instruction at an address, with its length in bytes, 1 to 15, and its flow.
#[derive(Clone, Copy, PartialEq, Eq)]
pub struct Placed {
    pub address: u64,
    pub length: u8,
    pub instr: Instr,
    pub flow: Flow,
}
