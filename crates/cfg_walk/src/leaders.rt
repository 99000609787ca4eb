ghost use Rattle.std.specs.Prelude.{◌≡◌, ◌++◌, IfOk, OnOk};
ghost use Rattle.std.specs.List.{flat_map};
ghost use Rattle.code_at.specs.Code.{program_of};
ghost use Rattle.cfg_walk.specs.Blocks.{IsLeader};
ghost use Rattle.cfg_walk.specs.Code.{AreJust};
ghost use Rattle.cfg_walk.specs.Known.{IsKnown};
ghost use Rattle.cfg_walk.specs.Ends.{EndLow, led_by};

use crate::addresses::sorted_set;
use crate::way::push_led;
use elf_read::Elf;
use ev_graph::NoMemory;
use std::alloc::Global;
use x64_syntax::Placed;

/// Puts the addresses where blocks begin for the sake of each instruction behind what the list has.
fn push_each_led(into: &mut Vec<u64>, placed: &[Placed]) -> Result<(), NoMemory>
    requires { EndLow placed.now }
    ensures { OnOk result (into.new.items ≡ into.old.items ++ flat_map led_by placed.now) }
{
    for p in placed {
        push_led(into, &p.instr, p.flow, p.address + u64::from(p.length))?;
    }
    Ok(())
}

/// Where the blocks of a program begin, in order.
pub(crate) fn leaders(alloc: Global, elf: &Elf, placed: &[Placed]) -> Result<Vec<u64>, NoMemory>
    requires known { IsKnown (program_of elf.now) placed.now }
    requires low { EndLow placed.now }
    ensures { IfOk result (λ v. AreJust (IsLeader (program_of elf.now)) v.items) }
{
    let mut addresses = Vec::from_slice(alloc, elf.threads.as_slice())?;
    push_each_led(&mut addresses, placed)?;
    sorted_set(addresses)
}
