ghost use Rattle.std.specs.Prelude.{◌≡◌, ◌≤◌, IfOk, length};
ghost use Rattle.std.specs.List.{AllByRecursion};
ghost use Rattle.limm_ir.specs.Conditions.{IsSelectable, IsWellMade, Unset};
ghost use Rattle.limm_ir.specs.Costs.{cost_of, step_cost};
ghost use Rattle.a64_block.specs.Barriers.{barriers_in};
ghost use Rattle.a64_block.specs.Conditions.{IsAllocatable};
ghost use Rattle.isel.specs.Barriers.{step_barriers};
ghost use Rattle.isel.specs.Groups.{selected, selected_end};
ghost use Rattle.isel.specs.Ranges.{IsSmall, HasSmall, Fits, HasSmallEnd};
ghost use Rattle.isel.specs.Selected.{MeansSteps};

use crate::group::{number_of, push_group};
use crate::last_bits::LastBits;
use a64_block::{ABlock, AEnd};
use a64_code::A64;
use ev_graph::{List, NoMemory};
use limm_ir::{IrBlock, IrEnd, IrStep};
use std::alloc::Global;

/// The words of a block, over numbers: 0 to 15 for the registers of x86, 16 to 19 for its flags, 20
/// for zero, and one from 21 on for each temporary.
pub fn select(alloc: Global, block: &IrBlock) -> Result<ABlock<u32>, NoMemory>
    requires { IsSelectable block.now.steps block.now.end }
    ensures first { IfOk result (λ b. b.first ≡ block.now.first) }
    ensures end { IfOk result (λ b. b.end ≡ selected_end block.now.end) }
    ensures meaning { IfOk result (λ b. MeansSteps block.now.steps block.now.end b.steps b.end) }
    ensures allocatable { IfOk result (λ b. IsAllocatable b.steps b.end) }
    ensures barriers { IfOk result (λ b. barriers_in b.steps ≡ step_barriers block.now.steps) }
    ensures few { IfOk result (λ b. length b.steps ≤ cost_of step_cost block.now.steps) }
{
    let words = select_each(alloc, block.steps.as_slice())?;
    Ok(ABlock {
        first: block.first,
        steps: List::of(words),
        end: select_end(block.end),
    })
}

/// The words of steps, one group behind the other.
fn select_each(alloc: Global, steps: &[IrStep]) -> Result<Vec<A64<u32>>, NoMemory>
    requires small { AllByRecursion HasSmall steps.now }
    requires well { (end : IrEnd) × IsWellMade steps.now end }
    ensures words { IfOk result (λ words. words.items ≡ selected (λ t. Unset) steps.now) }
    ensures fit { IfOk result (λ _. AllByRecursion Fits steps.now) }
{
    let mut words = Vec::new(alloc);
    let mut last_bits = LastBits::new(alloc);
    for step in steps {
        push_group(&mut words, *step, &last_bits)?;
        last_bits.note(*step)?;
    }
    Ok(words)
}

/// The end of a block.
fn select_end(end: IrEnd) -> AEnd<u32>
    requires { HasSmallEnd end }
    ensures { result ≡ selected_end end }
{
    match end {
        IrEnd::Goto(address) => AEnd::Goto(address),
        IrEnd::Branch(t, taken, other) => AEnd::Branch(number_of(t), taken, other),
        IrEnd::Return(t) => AEnd::Return(number_of(t)),
        IrEnd::Indexed(t, table) => AEnd::Indexed(number_of(t), table),
        IrEnd::Stop(kind) => AEnd::Stop(kind),
    }
}
