ghost use Rattle.std.specs.Prelude.{◌≡◌, ◌++◌, ◌∷◌, ◌||◌, [], Bool, IfOk, OnOk, List as Sequence, Option as Maybe, length, filter, not};
ghost use Rattle.elf_read.specs.Elf.{IsProgram, parts_of};
ghost use Rattle.x64_syntax.specs.Slots.{placed_slots};
ghost use Rattle.fence_place.specs.Marked.{IsSorted, marked};
ghost use Rattle.x64_syntax.specs.declared.slots.SlotKind.{SlotKind as AnyKind};
ghost use Rattle.fence_plan.specs.Gaps.{Station, gap, gaps_from};
ghost use Rattle.fence_plan.specs.Private.{hides};
ghost use Rattle.lift.specs.Recovered.{IsRecovered};
ghost use Rattle.carry_spec.specs.Plan.{block_plan, station, stations_of, strong};
ghost use Rattle.translate_core.specs.Planned.{ArePlanned};

use crate::block::count_of;
use crate::counted::{count_block, nothing_of, plus};
use carry_spec::{BlockPlan, Summary};
use cfg_walk::Code;
use elf_read::Elf;
use ev_graph::{List as Seq, NoMemory};
use fence_place::is_marked;
use fence_plan::{Gap, gap_between};
use lift::instructions_of;
use std::alloc::Global;
use x64_syntax::{Instr, InstrSlots, List, Marks, Placed, Slot, SlotKind, slots_of};

/// The plans of a code's blocks, and what is counted of them.
#[derive(Drop)]
pub struct Planned {
    pub plan: Seq<BlockPlan>,
    pub summary: Summary,
}

/// The plans of the blocks of recovered code, one for each, and what is counted of them and of the program's
/// threads. The marked slots are private.
///
/// Takes n log n time in the instructions of the code.
pub fn plan_code(
    alloc: Global,
    elf: &Elf,
    code: &Code,
    private: &Marks,
) -> Result<Planned, NoMemory>
    requires program { IsProgram (parts_of elf.now) elf.now.threads }
    requires code { IsRecovered code.now }
    requires private { IsSorted private.now.slots }
    ensures { IfOk result (λ planned. ArePlanned (marked private.now.slots) (length elf.now.threads) code.now code.now.blocks planned.plan planned.summary) }
{
    let count = count_of(code)?;
    let mut plan = Vec::new(alloc);
    let mut summary = nothing_of(elf.threads.as_slice().len() as u32);
    for number in 0..count {
        let instructions = instructions_of(code, number);
        let first = code.blocks.as_slice()[number as usize].first;
        let block = plan_block(alloc, first, instructions, private)?;
        summary = plus(&summary, &count_block(instructions, &block));
        plan.push(block)?;
    }
    Ok(Planned {
        plan: Seq::of(plan),
        summary,
    })
}

/// The plan of the block that begins at an address and has these instructions.
fn plan_block(
    alloc: Global,
    first: u64,
    instructions: &[Placed],
    private: &Marks,
) -> Result<BlockPlan, NoMemory>
    requires { IsSorted private.now.slots }
    ensures { IfOk result (λ plan. plan ≡ block_plan (marked private.now.slots) first instructions.now) }
{
    let mut planning = Planning {
        slots: Vec::new(alloc),
        gaps: Vec::new(alloc),
        before: None,
        fenced: false,
    };
    for placed in instructions {
        planning.pass(placed, private)?;
    }
    planning.end_gap(None)?;
    Ok(BlockPlan {
        first,
        slots: List::of(planning.slots),
        gaps: List::of(planning.gaps),
    })
}

/// Whether a slot is private: it is marked, and not locked.
fn is_hidden(slot: Slot, private: &Marks) -> bool
    requires { IsSorted private.now.slots }
    ensures { result ≡ hides (marked private.now.slots) slot }
{
    match slot.kind {
        SlotKind::Read | SlotKind::Write => is_marked(private, slot.address, slot.kind),
        SlotKind::Locked => false,
    }
}

/// Whether an instruction is a full fence.
fn is_full_fence(instr: &Instr) -> bool
    ensures { (later : Sequence Station) (before : Maybe AnyKind) (fenced : Bool) →
        gaps_from before (fenced || result) later ≡ gaps_from before fenced (strong instr.now ++ later) }
{
    matches!(*instr, Instr::Mfence)
}

/// The plan of a block up to a place, and how the gap that lasts there began: the slot before it, if there is
/// one, and whether a full fence stood in it.
#[derive(Drop)]
struct Planning {
    slots: Vec<Slot>,
    gaps: Vec<Gap>,
    before: Option<SlotKind>,
    fenced: bool,
}

impl Planning {
    /// The gap ends before this slot or at the block's end.
    fn end_gap(&mut self, after: Option<SlotKind>) -> Result<(), NoMemory>
        ensures gaps { OnOk result (self.new.gaps.items ≡ self.old.gaps.items ++ gap self.old.before self.old.fenced after ∷ []) }
        ensures slots { self.new.slots.items ≡ self.old.slots.items }
        ensures before { self.new.before ≡ self.old.before }
        ensures fenced { self.new.fenced ≡ self.old.fenced }
    {
        let gap = gap_between(self.before, self.fenced, after);
        self.gaps.push(gap)?;
        Ok(())
    }

    /// Passes a slot.
    fn pass_slot(&mut self, slot: Slot, private: &Marks) -> Result<(), NoMemory>
        requires { IsSorted private.now.slots }
        ensures slots { OnOk result (self.new.slots.items ≡ self.old.slots.items ++ filter (λ s. not (hides (marked private.now.slots) s)) (slot ∷ [])) }
        ensures gaps { OnOk result ((later : Sequence Station) →
            self.new.gaps.items ++ gaps_from self.new.before self.new.fenced later
            ≡ self.old.gaps.items ++ gaps_from self.old.before self.old.fenced (station (marked private.now.slots) slot ++ later)) }
    {
        if is_hidden(slot, private) {
            return Ok(());
        }
        self.end_gap(Some(slot.kind))?;
        self.slots.push(slot)?;
        self.before = Some(slot.kind);
        self.fenced = false;
        Ok(())
    }

    /// Passes an instruction: the full fence, if it is one, and its slots.
    fn pass(&mut self, placed: &Placed, private: &Marks) -> Result<(), NoMemory>
        requires { IsSorted private.now.slots }
        ensures slots { OnOk result (
            self.new.slots.items ≡ self.old.slots.items ++ filter (λ s. not (hides (marked private.now.slots) s)) (placed_slots placed.now)) }
        ensures gaps { OnOk result ((later : Sequence Station) →
            self.new.gaps.items ++ gaps_from self.new.before self.new.fenced later
            ≡ self.old.gaps.items ++ gaps_from self.old.before self.old.fenced (stations_of (marked private.now.slots) placed.now ++ later)) }
    {
        self.fenced |= is_full_fence(&placed.instr);
        match slots_of(&placed.instr, placed.flow) {
            InstrSlots::Empty => {}
            InstrSlots::One(slot) => self.pass_slot(slot.at(placed.address), private)?,
            InstrSlots::Two(first, second) => {
                self.pass_slot(first.at(placed.address), private)?;
                self.pass_slot(second.at(placed.address), private)?;
            }
        }
        Ok(())
    }
}
