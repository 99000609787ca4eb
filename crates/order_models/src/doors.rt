use crate::EdgeKind;
use ev_graph::FenceKind;

/// What has to be the case between two accesses of a thread.
#[derive(Clone, Copy)]
pub enum Opening {
    /// Nothing.
    Always,
    /// A fence of this kind stands between them.
    Fence(FenceKind),
    /// They are the halves of one atomic instruction: the second is the next access after the first,
    /// the first a locked read and the second a locked write.
    Pair,
}

/// Which accesses of a thread may stand at one end.
#[derive(Clone, Copy)]
pub enum Side {
    Reads,
    Writes,
    Any,
    /// Locked reads and locked writes.
    Locked,
    /// A read after which a fence of this kind comes before any other access.
    Before(FenceKind),
    /// A write before which a fence of this kind comes after any other access.
    After(FenceKind),
}

/// One of the ways in which an order keeps an access before a later access of its thread.
#[derive(Clone, Copy)]
pub struct Door {
    pub opening: Opening,
    pub from: Side,
    pub to: Side,
    /// The reason that the door gives.
    pub kind: EdgeKind,
}
