use crate::List;

/// How an instruction's slot accesses memory: a locked slot is one atomic pair.
#[derive(Clone, Copy, PartialEq, Eq)]
pub enum SlotKind {
    Read,
    Write,
    Locked,
}

/// An access that an instruction makes, by the instruction's address.
#[derive(Clone, Copy, PartialEq, Eq)]
pub struct Slot {
    pub address: u64,
    pub kind: SlotKind,
}

/// Slots, sorted by address and then `Read` before `Write`.
#[derive(Drop)]
pub struct Marks {
    pub slots: List<Slot>,
}
