use ev_graph::{End, EventId, List, Source, Stack};

/// A value that a thread is given, in the order in which it takes them.
#[derive(Drop)]
pub enum Given {
    /// The value of a read, and its sources: one for each byte, or one for all.
    Read(u64, List<Source>),
    /// The value of an input.
    Input(u64),
}

/// What a text says of a thread: how many accesses, inputs and outputs it makes, how it ends, and
/// the values of its reads and inputs.
#[derive(Drop)]
pub struct GivenThread {
    pub count: u32,
    pub end: End,
    pub values: List<Given>,
}

/// What the text of an execution says: a stack for each thread, the threads, and an order of writes.
#[derive(Drop)]
pub struct ExecFile {
    pub stacks: List<Stack>,
    pub threads: List<GivenThread>,
    pub co: List<EventId>,
}
