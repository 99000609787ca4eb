ghost use Rattle.std.specs.Prelude.{◌≡◌, ◌≤◌, ◌++◌, IfOk, OnOk};
ghost use Rattle.std.specs.List.{flat_map};
ghost use Rattle.fence_place.specs.Fenced.{fenced, IsFenced, KeepsPlaced};
ghost use Rattle.fence_place.specs.Marked.{IsSorted};
ghost use Rattle.limm_ir.specs.Conditions.{IsWellMade, IsSelectable};
ghost use Rattle.limm_ir.specs.Costs.{cost_of, step_cost, fenced_cost};

use crate::marked::is_marked;
use ev_graph::{List, NoMemory};
use limm_ir::{IrBlock, IrFence, IrStep};
use std::alloc::Global;
use x64_syntax::{Marks, SlotKind};

/// The block with `Frm` behind each read, `Fww` before each write, and `Fsc` on both sides of each
/// locked access; reads and writes that are private have none.
pub fn place(alloc: Global, block: IrBlock, private: &Marks) -> Result<IrBlock, NoMemory>
    requires { IsSorted private.now.slots }
    ensures first { IfOk result (λ b. b.first ≡ block.first) }
    ensures end { IfOk result (λ b. b.end ≡ block.end) }
    ensures fences { IfOk result (λ b. IsFenced private.now.slots block.steps b.steps) }
    ensures meaning { IfOk result (λ b. KeepsPlaced block.steps b.steps) }
    ensures few { IfOk result (λ b. cost_of step_cost b.steps ≤ cost_of fenced_cost block.steps) }
    ensures well { IsWellMade block.steps block.end → IfOk result (λ b. IsWellMade b.steps b.end) }
    ensures selectable { IsSelectable block.steps block.end → IfOk result (λ b. IsSelectable b.steps b.end) }
{
    let steps = fence_each(alloc, block.steps.as_slice(), private)?;
    Ok(IrBlock {
        first: block.first,
        steps: List::of(steps),
        end: block.end,
    })
}

fn fence_each(alloc: Global, steps: &[IrStep], private: &Marks) -> Result<Vec<IrStep>, NoMemory>
    requires { IsSorted private.now.slots }
    ensures { IfOk result (λ with. with.items ≡ flat_map (fenced private.now.slots) steps.now) }
{
    let mut with = Vec::new(alloc);
    for step in steps {
        push_fenced(&mut with, *step, private)?;
    }
    Ok(with)
}

/// Appends one step with its fences.
fn push_fenced(with: &mut Vec<IrStep>, step: IrStep, private: &Marks) -> Result<(), NoMemory>
    requires { IsSorted private.now.slots }
    ensures { OnOk result (with.new.items ≡ with.old.items ++ fenced private.now.slots step) }
{
    match step {
        IrStep::Load(_, _, _, place) => {
            with.push(step)?;
            if !is_marked(private, place, SlotKind::Read) {
                with.push(IrStep::Fence(IrFence::Frm))?;
            }
        }
        IrStep::Store(_, _, _, place) => {
            if !is_marked(private, place, SlotKind::Write) {
                with.push(IrStep::Fence(IrFence::Fww))?;
            }
            with.push(step)?;
        }
        IrStep::Rmw(_, _, _, _, _, _) | IrStep::Cas(_, _, _, _, _, _) => {
            with.push(IrStep::Fence(IrFence::Fsc))?;
            with.push(step)?;
            with.push(IrStep::Fence(IrFence::Fsc))?;
        }
        IrStep::Const(_, _)
        | IrStep::GetReg(_, _)
        | IrStep::SetReg(_, _)
        | IrStep::GetFlag(_, _)
        | IrStep::SetFlag(_, _)
        | IrStep::Op(_, _, _, _)
        | IrStep::Select(_, _, _, _)
        | IrStep::Fence(_)
        | IrStep::Input
        | IrStep::Output
        | IrStep::TrapIf(_, _) => with.push(step)?,
    }
    Ok(())
}
