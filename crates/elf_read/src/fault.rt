ghost use Rattle.std.specs.Prelude.{◌≡◌};
ghost use Rattle.elf_read.specs.declared.fault.TransFault.TheVariants.{NoMemory as OutOfMemory};

use ev_graph::NoMemory;
use std::alloc::{AllocError, AllocFailed};
use thiserror::Error;

/// Why no instruction begins at a reached address.
#[derive(Clone, Copy, Debug, PartialEq, Eq)]
pub enum BadCodeKind {
    /// A listed call begins there.
    Listed,
    /// It lies in no executable segment.
    Outside,
    /// The segment ends inside the instruction.
    Cut,
    /// No instruction is spelled so.
    Unknown,
    /// The instruction would be longer than 15 bytes.
    TooLong,
}

/// A reached address without an instruction.
#[derive(Clone, Copy, Debug, PartialEq, Eq)]
pub struct CodeFault {
    pub address: u64,
    pub kind: BadCodeKind,
}

/// Why a file is refused. Entries, symbols and addresses are the first that are at fault; program
/// headers and symbols are counted from 0.
#[derive(Clone, Copy, Debug, PartialEq, Eq, Error)]
pub enum FileFault {
    #[error("the file is longer than 64 MiB")]
    TooLong,
    #[error("the file has no whole header")]
    Short,
    #[error("the file does not begin with the magic number")]
    Magic,
    #[error("the file is not of 64 bits, little-endian and version 1")]
    Class,
    #[error("the file has the type {0}")]
    BadType(u16),
    #[error("the file is for machine {0}")]
    Machine(u16),
    #[error("the program header table is not accepted")]
    ProgramTable,
    #[error("segment {0} is not accepted")]
    Segment(u32),
    #[error("the segments have more than 256 MiB")]
    TooBig,
    #[error("the symbol table is not accepted")]
    SymbolTable,
    #[error("there is no thread")]
    NoThread,
    #[error("symbol {0} has the listed name of an earlier one")]
    DoubleName(u64),
    #[error("there is too much code")]
    TooMuchCode,
    #[error("there is no instruction at {a:#x}", a = .0.address)]
    BadCode(CodeFault),
    #[error("there is an indirect jump or call at {0:#x}")]
    Indirect(u64),
    #[error("the instruction at {0:#x} begins inside another")]
    Overlap(u64),
    #[error("the table jump is entered at {0:#x}")]
    TableEntered(u64),
    #[error("the instruction at {0:#x} reads an undefined flag")]
    UndefinedFlag(u64),
}

/// Why a file was not translated.
#[derive(Clone, Copy, Debug, PartialEq, Eq, Error)]
pub enum TransFault {
    #[error("{0}")]
    File(#[from] FileFault),
    #[error("out of memory")]
    NoMemory,
}

impl From<NoMemory> for TransFault {
    ghost from_gives = { λ _ fault. fault ≡ OutOfMemory };

    fn from(_fault: NoMemory) -> TransFault {
        TransFault::NoMemory
    }
}

impl From<AllocError> for TransFault {
    ghost from_gives = { λ _ fault. fault ≡ OutOfMemory };

    fn from(_fault: AllocError) -> TransFault {
        TransFault::NoMemory
    }
}

impl<T: Drop> From<AllocFailed<T>> for TransFault {
    ghost from_gives = { λ _ fault. fault ≡ OutOfMemory };

    fn from(_fault: AllocFailed<T>) -> TransFault {
        TransFault::NoMemory
    }
}
