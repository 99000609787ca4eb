ghost use Rattle.std.specs.Prelude.{◌≡◌, ◌≢◌};
ghost use Rattle.elf_read.specs.Elf.{IsProgram, parts_of};
ghost use Rattle.code_at.specs.Code.{program_of};
ghost use Rattle.jump_table.specs.Pattern.{Begins, IsToldTable};
ghost use Rattle.jump_table.specs.Steps.{Finds, ComparesAt, MayBegin, SetsAt};

use crate::entries::Table;
use crate::instructions::{Compare, compare_of, set_by};
use crate::steps::{RSP, above_at, bound_at, copy_at, jump_at, step_at};
use elf_read::Elf;
use x64_syntax::{Instr, Width};

/// The form of a pattern, as its first instruction tells it.
#[derive(Clone, Copy)]
pub(crate) enum Form {
    /// A 64-bit register is compared, and is the index.
    Compared(Compare),
    /// A narrower register is compared, and the index is a copy of it.
    Copied(Compare),
    /// The index is set to 32 bits, and compared next.
    Bounded(u8),
}

/// The form of the pattern that may begin with an instruction.
fn form_of(instr: &Instr) -> Option<Form>
    ensures { Finds (MayBegin instr.now) result }
{
    if let Some(index) = set_by(instr) {
        return Some(Form::Bounded(index));
    }
    let found = compare_of(instr)?;
    if found.width == Width::Quad {
        Some(Form::Compared(found))
    } else {
        Some(Form::Copied(found))
    }
}

/// The table of the pattern that begins at an address with `cmp r, N` in 64 bits, if one does;
/// `second` is where that ends.
fn compared(elf: &Elf, first: u64, second: u64, found: Compare) -> Option<Table>
    requires program { IsProgram (parts_of elf.now) elf.now.threads }
    requires wide { found.width ≡ Width.Quad }
    requires stands { ComparesAt (program_of elf.now) first found second }
    ensures { Finds (Begins (program_of elf.now) first) result }
{
    let jump = above_at(elf, second)?;
    let base = jump_at(elf, jump, found.register, found.bound)?;
    Some(Table {
        first,
        jump,
        inside: [second, jump, 0],
        inside_count: 2,
        index: found.register,
        base,
        count: found.bound as u32 + 1,
    })
}

/// The table of the pattern that begins at an address with `cmp q, N` in fewer bits, if one does;
/// `second` is where that ends.
fn copied(elf: &Elf, first: u64, second: u64, found: Compare) -> Option<Table>
    requires program { IsProgram (parts_of elf.now) elf.now.threads }
    requires narrow { found.width ≢ Width.Quad }
    requires stands { ComparesAt (program_of elf.now) first found second }
    ensures { Finds (Begins (program_of elf.now) first) result }
{
    if found.register == RSP {
        return None;
    }
    let third = above_at(elf, second)?;
    let copy = copy_at(elf, third, found.width, found.register)?;
    let base = jump_at(elf, copy.end, copy.index, found.bound)?;
    Some(Table {
        first,
        jump: copy.end,
        inside: [second, third, copy.end],
        inside_count: 3,
        index: copy.index,
        base,
        count: found.bound as u32 + 1,
    })
}

/// The table of the pattern that begins at an address by setting `index` to 32 bits, if one does;
/// `second` is where that ends.
fn bounded(elf: &Elf, first: u64, second: u64, index: u8) -> Option<Table>
    requires program { IsProgram (parts_of elf.now) elf.now.threads }
    requires stands { SetsAt (program_of elf.now) first index second }
    ensures { Finds (Begins (program_of elf.now) first) result }
{
    let bound = bound_at(elf, second, index)?;
    let jump = above_at(elf, bound.end)?;
    let base = jump_at(elf, jump, index, bound.number)?;
    Some(Table {
        first,
        jump,
        inside: [second, bound.end, jump],
        inside_count: 3,
        index,
        base,
        count: bound.number as u32 + 1,
    })
}

/// The table of the pattern that begins at an address; none where no pattern does.
///
/// It takes no memory, and decodes four instructions at most.
pub fn table_at(elf: &Elf, address: u64) -> Option<Table>
    requires { IsProgram (parts_of elf.now) elf.now.threads }
    ensures { IsToldTable (program_of elf.now) address result }
{
    let step = step_at(elf, address)?;
    match form_of(&step.instr)? {
        Form::Compared(found) => compared(elf, address, step.end, found),
        Form::Copied(found) => copied(elf, address, step.end, found),
        Form::Bounded(index) => bounded(elf, address, step.end, index),
    }
}
