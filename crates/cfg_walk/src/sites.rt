ghost use Rattle.std.specs.Prelude.{◌≡◌, ◌++◌, IfOk, OnOk};
ghost use Rattle.std.specs.List.{flat_map};
ghost use Rattle.code_at.specs.Code.{Program};
ghost use Rattle.cfg_walk.specs.Blocks.{IsSite};
ghost use Rattle.cfg_walk.specs.Code.{AreJust};
ghost use Rattle.cfg_walk.specs.Known.{IsKnown};
ghost use Rattle.cfg_walk.specs.Ends.{EndLow, returned_by};

use crate::addresses::sorted_set;
use crate::way::push_returned_to;
use ev_graph::NoMemory;
use std::alloc::Global;
use x64_syntax::Placed;

/// Puts the address behind each call that is not listed behind what the list has.
fn push_each_site(into: &mut Vec<u64>, placed: &[Placed]) -> Result<(), NoMemory>
    requires { EndLow placed.now }
    ensures { OnOk result (into.new.items ≡ into.old.items ++ flat_map returned_by placed.now) }
{
    for p in placed {
        push_returned_to(into, &p.instr, p.flow, p.address + u64::from(p.length))?;
    }
    Ok(())
}

/// The return sites of the program that has these instructions, in order.
pub(crate) fn sites(alloc: Global, placed: &[Placed]) -> Result<Vec<u64>, NoMemory>
    requires { EndLow placed.now }
    ensures { IfOk result (λ v. (program : Program) → IsKnown program placed.now → AreJust (IsSite program) v.items) }
{
    let mut addresses = Vec::new(alloc);
    push_each_site(&mut addresses, placed)?;
    sorted_set(addresses)
}
