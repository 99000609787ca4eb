ghost use Rattle.std.specs.Prelude.{◌≡◌, ◌≤◌, ◌++◌, ◌∷◌, List as Sequence, IfOk, OnOk};
ghost use Rattle.fence_merge.specs.Follows.{FollowsPlanOf};
ghost use Rattle.fence_merge.specs.Merged.{gap_steps, merged, step_if, woven};
ghost use Rattle.fence_merge.specs.Roles.{HasPlannedFences, stations, unfenced};
ghost use Rattle.fence_place.specs.Fenced.{IsFenced, KeepsPlaced};
ghost use Rattle.fence_place.specs.Marked.{IsSorted};
ghost use Rattle.fence_plan.specs.Gaps.{gap, gaps_from};
ghost use Rattle.limm_ir.specs.Conditions.{IsWellMade, IsSelectable};
ghost use Rattle.limm_ir.specs.Costs.{cost_of, step_cost, fenced_cost};

use crate::role::{Role, role_of};
use ev_graph::{List, NoMemory};
use fence_plan::gap_between;
use limm_ir::{IrBlock, IrFence, IrStep};
use std::alloc::Global;
use x64_syntax::{Marks, SlotKind};

/// The block with exactly the planned fences in each gap between its accesses that are not
/// private, before the slot that ends the gap or at the block's end.
pub fn merge(alloc: Global, block: IrBlock, private: &Marks) -> Result<IrBlock, NoMemory>
    requires { IsSorted private.now.slots }
    ensures first { IfOk result (λ b. b.first ≡ block.first) }
    ensures end { IfOk result (λ b. b.end ≡ block.end) }
    ensures others { IfOk result (λ b. unfenced b.steps ≡ unfenced block.steps) }
    ensures planned { IfOk result (λ b. HasPlannedFences private.now.slots block.steps b.steps) }
    ensures meaning { IfOk result (λ b. (xs : Sequence IrStep) → IsFenced private.now.slots xs block.steps → KeepsPlaced xs b.steps) }
    ensures few { IfOk result (λ b. (xs : Sequence IrStep) → IsFenced private.now.slots xs block.steps → cost_of step_cost b.steps ≤ cost_of fenced_cost xs) }
    ensures well { IsWellMade block.steps block.end → IfOk result (λ b. IsWellMade b.steps b.end) }
    ensures selectable { IsSelectable block.steps block.end → IfOk result (λ b. IsSelectable b.steps b.end) }
    ensures follows { IfOk result (λ b. (xs : Sequence IrStep) → IsFenced private.now.slots xs block.steps → FollowsPlanOf private.now.slots xs b.steps) }
{
    let steps = merge_steps(alloc, block.steps.as_slice(), private)?;
    Ok(IrBlock {
        first: block.first,
        steps: List::of(steps),
        end: block.end,
    })
}

fn merge_steps(alloc: Global, steps: &[IrStep], private: &Marks) -> Result<Vec<IrStep>, NoMemory>
    requires { IsSorted private.now.slots }
    ensures { IfOk result (λ made. made.items ≡ merged private.now.slots steps.now) }
{
    let mut merging = Merging {
        made: Vec::new(alloc),
        before: None,
        fenced: false,
    };
    for step in steps {
        merging.push(*step, private)?;
    }
    merging.end_gap(None)?;
    Ok(merging.made)
}

/// Merged steps, and how the gap that lasts behind them began: the slot before it, if there is
/// one, and whether a full fence stood in it.
#[derive(Drop)]
struct Merging {
    made: Vec<IrStep>,
    before: Option<SlotKind>,
    fenced: bool,
}

impl Merging {
    fn push(&mut self, step: IrStep, private: &Marks) -> Result<(), NoMemory>
        requires { IsSorted private.now.slots }
        ensures { OnOk result ((xs : Sequence IrStep) →
            self.new.made.items ++ woven private.now.slots xs (gaps_from self.new.before self.new.fenced (stations private.now.slots xs))
            ≡ self.old.made.items ++ woven private.now.slots (step ∷ xs) (gaps_from self.old.before self.old.fenced (stations private.now.slots (step ∷ xs)))) }
    {
        match role_of(&step, private) {
            Role::Boundary(kind) => {
                self.end_gap(Some(kind))?;
                self.made.push(step)?;
                self.before = Some(kind);
                self.fenced = false;
            }
            Role::Fence(IrFence::Fsc) => self.fenced = true,
            Role::Fence(IrFence::Frm) | Role::Fence(IrFence::Fww) => {}
            Role::Other => self.made.push(step)?,
        }
        Ok(())
    }

    /// Writes the fences of the gap, which ends before this slot or at the block's end.
    fn end_gap(&mut self, after: Option<SlotKind>) -> Result<(), NoMemory>
        ensures made { OnOk result (self.new.made.items ≡ self.old.made.items ++ gap_steps (gap self.old.before self.old.fenced after)) }
        ensures before { self.new.before ≡ self.old.before }
        ensures fenced { self.new.fenced ≡ self.old.fenced }
    {
        let gap = gap_between(self.before, self.fenced, after);
        push_if(&mut self.made, gap.frm, IrFence::Frm)?;
        push_if(&mut self.made, gap.fww, IrFence::Fww)?;
        push_if(&mut self.made, gap.fsc, IrFence::Fsc)
    }
}

fn push_if(made: &mut Vec<IrStep>, held: bool, fence: IrFence) -> Result<(), NoMemory>
    ensures { OnOk result (made.new.items ≡ made.old.items ++ step_if held fence) }
{
    if held {
        made.push(IrStep::Fence(fence))?;
    }
    Ok(())
}
