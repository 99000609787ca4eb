use crate::{End, EventId, Item, List};

/// What one thread made, and how it ended.
#[derive(Drop)]
pub struct ThreadRun {
    pub items: List<Item>,
    pub end: End,
}

/// Where a byte that is read comes from.
#[derive(Clone, Copy, Debug, PartialEq, Eq)]
pub enum Source {
    Start,
    From(EventId),
}

/// The sources of a read, byte by byte.
#[derive(Drop)]
pub struct ReadFrom {
    pub read: EventId,
    pub bytes: List<Source>,
}

/// The stack of one thread: the bytes from `lo` to below `hi`.
#[derive(Clone, Copy, Debug, PartialEq, Eq)]
pub struct Stack {
    pub lo: u64,
    pub hi: u64,
}

/// Two accesses, in order.
#[derive(Clone, Copy, PartialEq, Eq)]
pub struct EventPair {
    pub first: EventId,
    pub second: EventId,
}

/// One run per thread with a stack each, the sources of the reads (`rf`), one order of all writes
/// (`co`), and the locked pairs (`rmw`).
#[derive(Drop)]
pub struct Execution {
    pub stacks: List<Stack>,
    pub threads: List<ThreadRun>,
    pub rf: List<ReadFrom>,
    pub co: List<EventId>,
    pub rmw: List<EventPair>,
}

/// One byte of a read, counted from 0.
#[derive(Clone, Copy, Debug, PartialEq, Eq)]
pub struct ReadByte {
    pub read: EventId,
    pub byte: u8,
}

/// Why `rf` or `co` of an execution is not well formed.
///
/// `CoEntry` counts the entries of `co` from 0.
#[derive(Clone, Copy, Debug, PartialEq, Eq)]
pub enum FormFault {
    BadSource(ReadByte),
    BadValue(ReadByte),
    CoEntry(u32),
    CoMissing(EventId),
}
