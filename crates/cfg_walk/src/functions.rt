ghost use Rattle.std.specs.Prelude.{◌≡◌, ◌++◌, IfOk, OnOk};
ghost use Rattle.std.specs.List.{flat_map};
ghost use Rattle.code_at.specs.Code.{program_of};
ghost use Rattle.cfg_walk.specs.Blocks.{IsFunction};
ghost use Rattle.cfg_walk.specs.Code.{AreJust};
ghost use Rattle.cfg_walk.specs.Known.{IsKnown};
ghost use Rattle.cfg_walk.specs.Ends.{EndLow, called_by};

use crate::addresses::sorted_set;
use crate::way::push_called;
use elf_read::Elf;
use ev_graph::NoMemory;
use std::alloc::Global;
use x64_syntax::Placed;

/// Puts the target of each call that is not listed behind what the list has.
fn push_each_called(into: &mut Vec<u64>, placed: &[Placed]) -> Result<(), NoMemory>
    requires { EndLow placed.now }
    ensures { OnOk result (into.new.items ≡ into.old.items ++ flat_map called_by placed.now) }
{
    for p in placed {
        push_called(into, &p.instr, p.flow, p.address + u64::from(p.length))?;
    }
    Ok(())
}

/// The addresses where the functions of a program begin, in order.
pub(crate) fn functions(alloc: Global, elf: &Elf, placed: &[Placed]) -> Result<Vec<u64>, NoMemory>
    requires known { IsKnown (program_of elf.now) placed.now }
    requires low { EndLow placed.now }
    ensures { IfOk result (λ v. AreJust (IsFunction (program_of elf.now)) v.items) }
{
    let mut addresses = Vec::from_slice(alloc, elf.threads.as_slice())?;
    push_each_called(&mut addresses, placed)?;
    sorted_set(addresses)
}
