/// An access of an execution, named by its thread and by how many accesses stand before it there.
#[derive(Clone, Copy, Debug, PartialEq, Eq)]
pub struct EventId {
    pub thread: u32,
    pub index: u32,
}

/// Whether an access reads or writes.
#[derive(Clone, Copy, Debug, PartialEq, Eq)]
pub enum AccessKind {
    Read,
    Write,
}

/// A read or write of `size` bytes, 1 to 8, from `address` on.
///
/// `value` is little-endian and below 256 to the power of `size`. A locked read and the locked write
/// after it are one atomic pair. `place` is the address of the instruction.
#[derive(Clone, Copy, Debug, PartialEq, Eq)]
pub struct Access {
    pub id: EventId,
    pub kind: AccessKind,
    pub locked: bool,
    pub address: u64,
    pub size: u8,
    pub value: u64,
    pub place: u64,
}

/// The fences of the intermediate form (`Frm`, `Fww`, `Fsc`), of x86 (`Mfence`) and of Arm (`DMB`
/// with the options `ISHLD`, `ISHST` and `ISH`).
#[derive(Clone, Copy, Debug, PartialEq, Eq)]
pub enum FenceKind {
    Frm,
    Fww,
    Fsc,
    Mfence,
    DmbLd,
    DmbSt,
    DmbFull,
}

/// A fence, and the address of its instruction.
#[derive(Clone, Copy, PartialEq, Eq)]
pub struct FenceItem {
    pub kind: FenceKind,
    pub place: u64,
}

/// A value that comes in or goes out, and the address of its instruction.
#[derive(Clone, Copy, PartialEq, Eq)]
pub struct Transfer {
    pub value: u64,
    pub place: u64,
}

/// What a thread makes, one after another.
#[derive(Clone, Copy, PartialEq, Eq)]
pub enum Item {
    Access(Access),
    Fence(FenceItem),
    Input(Transfer),
    Output(Transfer),
}

/// Why a thread ends before it halts.
#[derive(Clone, Copy, Debug, PartialEq, Eq)]
pub enum TrapKind {
    BadAccess,
    Divide,
    Invalid,
    BadReturn,
    BadJump,
}

/// How far a thread has come: `Running` where its run is cut.
#[derive(Clone, Copy, Debug, PartialEq, Eq)]
pub enum End {
    Running,
    Halted,
    Trap(TrapKind),
}
