ghost use Rattle.std.specs.Prelude.{◌≡◌, ◌↔◌, IsTrue};
ghost use Rattle.elf_read.specs.Elf.{IsProgram, parts_of};
ghost use Rattle.code_at.specs.Code.{program_of};
ghost use Rattle.jump_table.specs.Pattern.{Jumps, IsIndexed};
ghost use Rattle.jump_table.specs.Steps.{Finds, IsStep, GoesAbove, BoundsAt, MakesCopy};

use crate::entries::is_fixed;
use crate::instructions::{bound_of, copy_of, is_above, jump_of};
use code_at::instruction_at;
use elf_read::Elf;
use x64_syntax::{Instr, Width};

/// The number of rsp, which is no index.
pub(crate) const RSP: u8 = 4;

/// The most that an index is compared with.
const MOST: u64 = 4095;

/// An instruction at an address, and where it ends.
#[derive(Clone, Copy)]
pub(crate) struct Step {
    pub instr: Instr,
    pub end: u64,
}

/// The instruction at an address.
pub(crate) fn step_at(elf: &Elf, address: u64) -> Option<Step>
    requires { IsProgram (parts_of elf.now) elf.now.threads }
    ensures { Finds (IsStep (program_of elf.now) address) result }
{
    match instruction_at(elf, address) {
        Ok(placed) => Some(Step {
            instr: placed.instr,
            end: address + u64::from(placed.length),
        }),
        Err(_) => None,
    }
}

/// Where a `ja` ends that stands at an address.
pub(crate) fn above_at(elf: &Elf, address: u64) -> Option<u64>
    requires { IsProgram (parts_of elf.now) elf.now.threads }
    ensures { Finds (GoesAbove (program_of elf.now) address) result }
{
    let step = step_at(elf, address)?;
    if is_above(&step.instr) {
        Some(step.end)
    } else {
        None
    }
}

/// What `bound_at` finds: the number, and where the instruction ends.
#[derive(Clone, Copy)]
pub(crate) struct Bound {
    pub number: u64,
    pub end: u64,
}

/// The comparison of a 32-bit register with a number that is made at an address.
pub(crate) fn bound_at(elf: &Elf, address: u64, register: u8) -> Option<Bound>
    requires { IsProgram (parts_of elf.now) elf.now.threads }
    ensures { Finds (BoundsAt (program_of elf.now) address register) result }
{
    let step = step_at(elf, address)?;
    let number = bound_of(&step.instr, register)?;
    Some(Bound {
        number,
        end: step.end,
    })
}

/// What `copy_at` finds: the register that gets the copy, and where the instruction ends.
#[derive(Clone, Copy)]
pub(crate) struct CopyTo {
    pub index: u8,
    pub end: u64,
}

/// The copy that is made at an address of a register of this width.
pub(crate) fn copy_at(elf: &Elf, address: u64, width: Width, from: u8) -> Option<CopyTo>
    requires { IsProgram (parts_of elf.now) elf.now.threads }
    ensures { Finds (MakesCopy (program_of elf.now) address width from) result }
{
    let step = step_at(elf, address)?;
    let index = copy_of(&step.instr, width, from)?;
    Some(CopyTo {
        index,
        end: step.end,
    })
}

/// The address of the table through which the jump at an address goes, with an entry for each index
/// up to a bound.
pub(crate) fn jump_at(elf: &Elf, address: u64, index: u8, bound: u64) -> Option<u64>
    requires { IsProgram (parts_of elf.now) elf.now.threads }
    ensures { Finds (Jumps (program_of elf.now) address index bound) result }
{
    let step = step_at(elf, address)?;
    let base = jump_of(&step.instr, index)?;
    if is_indexed(elf, base, index, bound) {
        Some(base)
    } else {
        None
    }
}

/// Whether a register may index the table at an address up to a bound.
fn is_indexed(elf: &Elf, base: u64, index: u8, bound: u64) -> bool
    ensures { IsTrue result ↔ IsIndexed (parts_of elf.now) base index bound }
{
    index != RSP && bound <= MOST && is_fixed(elf, base, 8 * (bound + 1))
}
