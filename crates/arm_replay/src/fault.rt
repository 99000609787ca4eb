ghost use Rattle.std.specs.Prelude.{◌≡◌};
ghost use Rattle.arm_replay.specs.declared.fault.ReplayFault.TheVariants.{NoMemory as OutOfMemory};

use std::alloc::{AllocError, AllocFailed};

/// How a thread leaves what it is given.
///
/// `COUNT` is how many accesses, inputs and outputs the thread is said to make, and `END` its end.
#[derive(Clone, Copy, Debug, PartialEq, Eq)]
pub enum ReplayKind {
    /// A read or input comes, and the next value is missing or of the other sort.
    Values,
    /// A read's value has neither one source nor one for each byte.
    Sources,
    /// A value does not fit the size of the read.
    Wide,
    /// The thread ends before it has made `COUNT`.
    Early,
    /// The last was a locked read, whose write follows.
    Split,
    /// `COUNT` were made, and values are left.
    Left,
    /// `COUNT` were made, and another would be made before the thread ends.
    More,
    /// The thread has another end than `END`.
    End,
    /// The thread would begin more than a million instructions.
    Steps,
}

/// Where a thread leaves what it is given: `item` is how many accesses, inputs and outputs it has made.
#[derive(Clone, Copy, Debug, PartialEq, Eq)]
pub struct ReplayPlace {
    pub thread: u32,
    pub item: u32,
    pub kind: ReplayKind,
}

/// Why the text of an execution gives none for an image: the first fault, of the layout and then of
/// the threads.
#[derive(Clone, Copy, Debug, PartialEq, Eq)]
pub enum ReplayFault {
    /// There are not as many stacks as threads.
    LayoutThreads,
    /// The stack of this thread is not well placed, or has a byte in common with the image or an
    /// earlier stack.
    Layout(u32),
    /// A thread leaves what it is given.
    Run(ReplayPlace),
    NoMemory,
}

impl From<AllocError> for ReplayFault {
    ghost from_gives = { λ _ fault. fault ≡ OutOfMemory };

    fn from(_error: AllocError) -> ReplayFault {
        ReplayFault::NoMemory
    }
}

impl<T: Drop> From<AllocFailed<T>> for ReplayFault {
    ghost from_gives = { λ _ fault. fault ≡ OutOfMemory };

    fn from(_fault: AllocFailed<T>) -> ReplayFault {
        ReplayFault::NoMemory
    }
}
