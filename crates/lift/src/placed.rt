ghost use Rattle.std.specs.Prelude.{◌≡◌, ◌≤◌, ◌^◌, IfOk, length, sum_by};
ghost use Rattle.std.specs.List.{AllByRecursion};
ghost use Rattle.limm_ir.specs.Conditions.{IsSelectable};
ghost use Rattle.limm_ir.specs.Costs.{cost_of, fenced_cost};
ghost use Rattle.lift_alu.specs.Meant.{most_words};
ghost use Rattle.lift.specs.Block.{AreLifted, IsLifted, AreStepsFrom, LiftsBlock, first_of, end_from};

use ev_graph::{List, NoMemory};
use lift_alu::{instr_end, lift_instr};
use limm_ir::{IrBlock, IrEnd, IrStep};
use std::alloc::Global;
use x64_syntax::Placed;

/// How many temporaries an instruction has of its own.
const TEMPS: u32 = 256;

/// The block of instructions that stand one behind the other, of which the last alone may end it.
pub(crate) fn lift_placed(alloc: Global, placed: &[Placed]) -> Result<IrBlock, NoMemory>
    requires { AreLifted placed.now }
    ensures first { IfOk result (λ b. b.first ≡ first_of placed.now) }
    ensures end { IfOk result (λ b. b.end ≡ end_from 0 placed.now) }
    ensures meaning { IfOk result (λ b. LiftsBlock placed.now b.steps b.end) }
    ensures few { IfOk result (λ b. cost_of fenced_cost b.steps ≤ sum_by most_words placed.now) }
    ensures selectable { IfOk result (λ b. IsSelectable b.steps b.end) }
    ensures steps { IfOk result (λ b. AreStepsFrom 0 placed.now b.steps) }
{
    let steps = lift_each(alloc, placed)?;
    Ok(IrBlock {
        first: placed.first().map_or(0, |one| one.address),
        steps: List::of(steps),
        end: last_end(placed),
    })
}

/// The steps of instructions, one behind the other.
fn lift_each(alloc: Global, placed: &[Placed]) -> Result<Vec<IrStep>, NoMemory>
    requires each { AllByRecursion IsLifted placed.now }
    requires few { length placed.now ≤ 2 ^ 16 }
    ensures { IfOk result (λ steps. AreStepsFrom 0 placed.now steps.items) }
{
    let mut steps = Vec::new(alloc);
    let mut temps = 0;
    for one in placed {
        let lifted = lift_instr(alloc, one, temps)?;
        steps.extend_from_slice(lifted.as_slice())?;
        temps += TEMPS;
    }
    Ok(steps)
}

/// How the block ends: as its last instruction.
fn last_end(placed: &[Placed]) -> IrEnd
    requires { length placed.now ≤ 2 ^ 16 }
    ensures { result ≡ end_from 0 placed.now }
{
    match placed.last() {
        Some(last) => instr_end(last, TEMPS * (placed.len() as u32 - 1)),
        None => IrEnd::Goto(0),
    }
}
