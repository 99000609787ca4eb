ghost use Rattle.std.specs.Prelude.{◌≡◌};
ghost use Rattle.exec_text.specs.declared.fault.LineFault.TheVariants.{Kind, NoMemory as OutOfMemory};

use ev_graph::NoMemory;
use std::alloc::{AllocError, AllocFailed};
use std::fmt;
use thiserror::Error;

/// How a line leaves the grammar.
#[derive(Clone, Copy, Debug, PartialEq, Eq)]
pub enum TextKind {
    /// It is none of the lines that may come here, or is not there.
    Shape,
    /// It is one of them, but its numbers are beyond the limits.
    Number,
}

impl fmt::Display for TextKind {
    fn fmt<W: fmt::Write>(&self, f: &mut fmt::Formatter<W>) -> fmt::Result {
        f.write_str(match self {
            TextKind::Shape => "no line of this shape may come here",
            TextKind::Number => "a number is too large",
        })
    }
}

/// The first line that leaves the grammar, counted from 1.
#[derive(Clone, Copy, Debug, PartialEq, Eq, Error)]
#[error("line {line}: {kind}")]
pub struct TextFault {
    pub line: u32,
    pub kind: TextKind,
}

/// Why a text was not read.
#[derive(Clone, Copy, Debug, PartialEq, Eq, Error)]
pub enum ReadFault {
    #[error("{0}")]
    Text(#[from] TextFault),
    #[error("out of memory")]
    NoMemory,
}

impl From<NoMemory> for ReadFault {
    fn from(_fault: NoMemory) -> ReadFault {
        ReadFault::NoMemory
    }
}

/// Why a line, or a part of one, was not read.
#[derive(Clone, Copy, PartialEq, Eq)]
pub enum LineFault {
    Kind(TextKind),
    NoMemory,
}

impl From<TextKind> for LineFault {
    ghost from_gives = { λ kind fault. fault ≡ Kind kind };

    fn from(kind: TextKind) -> LineFault {
        LineFault::Kind(kind)
    }
}

impl<T: Drop> From<AllocFailed<T>> for LineFault {
    ghost from_gives = { λ _ fault. fault ≡ OutOfMemory };

    fn from(_fault: AllocFailed<T>) -> LineFault {
        LineFault::NoMemory
    }
}
