ghost use Rattle.std.specs.Prelude.{◌≡◌, ◌<◌, ◌^◌, ◌⊎◌, length, IfOk, IfErr, MatchResult};
ghost use Rattle.exec_text.specs.declared.exec_file.ExecFile.{ExecFile as AnyFile};
ghost use Rattle.exec_text.specs.declared.fault.ReadFault.TheVariants.{Text, NoMemory as OutOfMemory};
ghost use Rattle.exec_text.specs.declared.fault.TextFault.{TextFault as AnyFault};
ghost use Rattle.exec_text.specs.Texts.{IsFault, IsFirstFault, IsText, fault_at};

use crate::exec_file::ExecFile;
use crate::fault::{LineFault, ReadFault, TextFault, TextKind};
use crate::parts::cut;
use crate::stage::Stage;
use std::alloc::Global;

impl LineFault {
    /// The fault of this line.
    fn at(self, line: u32) -> ReadFault
        ensures { result ≡ fault_at line self }
    {
        match self {
            LineFault::Kind(kind) => ReadFault::Text(TextFault { line, kind }),
            LineFault::NoMemory => ReadFault::NoMemory,
        }
    }
}

/// Reads a text line by line.
fn read_lines(alloc: Global, text: &[u8]) -> Result<ExecFile, ReadFault>
    requires { length text.now < 2 ^ 32 }
    ensures says { IfOk result (IsText text.now) }
    ensures fault { IfErr result (IsFault text.now) }
{
    let mut stage = Stage::Begun;
    let mut line = 1;
    let mut rest = text;
    while let Some((bytes, others)) = cut(rest, b'\n') {
        match stage.next(alloc, bytes) {
            Ok(next) => stage = next,
            Err(fault) => return Err(fault.at(line)),
        }
        line += 1;
        rest = others;
    }
    match stage {
        Stage::Ended(file) if rest.is_empty() => Ok(file),
        _ => Err(LineFault::Kind(TextKind::Shape).at(line)),
    }
}

/// What the text of an execution says; else the first line that leaves the grammar, and how.
///
/// Each byte is looked at a few times, however long its line is, and it takes memory in proportion to the
/// text.
pub fn read_exec(alloc: Global, text: &[u8]) -> Result<ExecFile, ReadFault>
    requires { length text.now < 2 ^ 32 }
    ensures says { IfOk result (IsText text.now) }
    ensures fault { IfErr result (IsFault text.now) }
    // A text of the grammar is read, unless memory runs out.
    ensures only_says { (file : AnyFile) → IsText text.now file
        → MatchResult result (λ read. read ≡ file) (λ fault. fault ≡ OutOfMemory) }
    // The first line that leaves the grammar is told, unless memory runs out.
    ensures only_fault { (first : AnyFault) → IsFirstFault text.now first
        → MatchResult result (λ _. ⊥) (λ fault. (fault ≡ Text first) ⊎ (fault ≡ OutOfMemory)) }
{
    read_lines(alloc, text)
}
