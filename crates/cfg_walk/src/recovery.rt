ghost use Rattle.std.specs.Prelude.{◌≤◌, IfOk, length};
ghost use Rattle.elf_read.specs.Elf.{IsProgram, parts_of};
ghost use Rattle.elf_read.specs.FirstFault.{LooksFor, rank};
ghost use Rattle.code_at.specs.Code.{program_of};
ghost use Rattle.cfg_walk.specs.Code.{IsCodeOf, AreBlocks, AreInstructions, AreJust};
ghost use Rattle.cfg_walk.specs.Blocks.{IsSite, IsFunction};
ghost use Rattle.cfg_walk.specs.Faults.{Holds};
ghost use Rattle.cfg_walk.specs.Ends.{EndLow};
ghost use Rattle.cfg_walk.specs.Known.{IsKnown};

use crate::blocks::blocks;
use crate::check::{check, in_order};
use crate::code::Code;
use crate::find::find;
use crate::functions::functions;
use crate::leaders::leaders;
use crate::sites::sites;
use elf_read::{Elf, FileFault, TransFault};
use ev_graph::{List, NoMemory};
use std::alloc::Global;
use x64_syntax::Placed;

/// The reached instructions in the order of their addresses, of a program whose code has no fault.
fn instructions(alloc: Global, elf: &Elf) -> Result<Vec<Placed>, TransFault>
    requires { IsProgram (parts_of elf.now) elf.now.threads }
    ensures first { LooksFor (Holds (program_of elf.now)) (rank FileFault.TooMuchCode) (rank (FileFault.UndefinedFlag 0)) result }
    ensures known { IfOk result (λ placed. IsKnown (program_of elf.now) placed.items) }
    ensures low { IfOk result (λ placed. EndLow placed.items) }
    ensures few { IfOk result (λ placed. length placed.items ≤ 65536) }
{
    let found = find(alloc, elf)?;
    let placed = in_order(found);
    match check(&placed) {
        Ok(()) => Ok(placed),
        Err(fault) => Err(TransFault::File(fault)),
    }
}

/// What the instructions of a program without a fault tell of its code.
fn code_of(alloc: Global, elf: &Elf, placed: Vec<Placed>) -> Result<Code, NoMemory>
    requires known { IsKnown (program_of elf.now) placed.items }
    requires low { EndLow placed.items }
    requires few { length placed.items ≤ 65536 }
    ensures placed { IfOk result (λ code. AreInstructions (program_of elf.now) code.placed) }
    ensures blocks { IfOk result (λ code. AreBlocks (program_of elf.now) code.blocks) }
    ensures sites { IfOk result (λ code. AreJust (IsSite (program_of elf.now)) code.sites) }
    ensures functions { IfOk result (λ code. AreJust (IsFunction (program_of elf.now)) code.functions) }
{
    let leaders = leaders(alloc, elf, &placed)?;
    let blocks = blocks(alloc, &leaders, &placed)?;
    let sites = sites(alloc, &placed)?;
    let functions = functions(alloc, elf, &placed)?;
    Ok(Code {
        placed: List::of(placed),
        blocks: List::of(blocks),
        sites: List::of(sites),
        functions: List::of(functions),
    })
}

/// The code of a program that is reached from where its threads begin (Intel SDM volume 2).
///
/// Refused is the first fault of the code: too much of it, and else, by the least address of each kind, an address without
/// an instruction, code that is not translated so far, and an instruction that begins inside another. Takes time
/// n log n in the reached instructions, at most 65,536, whatever the size of the program.
pub fn recover(alloc: Global, elf: &Elf) -> Result<Code, TransFault>
    requires { IsProgram (parts_of elf.now) elf.now.threads }
    ensures first { LooksFor (Holds (program_of elf.now)) (rank FileFault.TooMuchCode) (rank (FileFault.UndefinedFlag 0)) result }
    ensures code { IfOk result (λ code. IsCodeOf (program_of elf.now) code) }
{
    let placed = instructions(alloc, elf)?;
    let code = code_of(alloc, elf, placed)?;
    Ok(code)
}
