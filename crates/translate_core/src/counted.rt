ghost use Rattle.std.specs.Prelude.{◌≡◌, ◌≤◌, ◌^◌, flat_map, length};
ghost use Rattle.x64_syntax.specs.Slots.{placed_slots};
ghost use Rattle.translate_core.specs.Planned.{AreBelow, counted, gap_counts, nothing_of, plus};

use carry_spec::{BlockPlan, Summary};
use fence_plan::Gap;
use x64_syntax::{Placed, slots_of};

/// The summary of so many threads that run no block.
pub(crate) fn nothing_of(threads: u32) -> Summary
    ensures { result ≡ nothing_of threads }
{
    Summary {
        threads,
        instructions: 0,
        blocks: 0,
        accesses: 0,
        private: 0,
        frm: 0,
        fww: 0,
        fsc: 0,
    }
}

/// Two summaries together.
pub(crate) fn plus(a: &Summary, b: &Summary) -> Summary
    requires { AreBelow (2 ^ 32) (plus a.now b.now) }
    ensures { result ≡ plus a.now b.now }
{
    Summary {
        threads: a.threads + b.threads,
        instructions: a.instructions + b.instructions,
        blocks: a.blocks + b.blocks,
        accesses: a.accesses + b.accesses,
        private: a.private + b.private,
        frm: a.frm + b.frm,
        fww: a.fww + b.fww,
        fsc: a.fsc + b.fsc,
    }
}

/// How many accesses instructions have.
fn count_accesses(instructions: &[Placed]) -> u32
    requires { length instructions.now ≤ 2 ^ 16 }
    ensures { result ≡ length (flat_map placed_slots instructions.now) }
{
    let mut accesses = 0;
    for placed in instructions {
        accesses += slots_of(&placed.instr, placed.flow).count() as u32;
    }
    accesses
}

/// How many gaps hold each kind of fence.
fn count_gaps(gaps: &[Gap]) -> Summary
    requires { length gaps.now ≤ 2 ^ 18 }
    ensures { result ≡ gap_counts gaps.now }
{
    let mut counts = nothing_of(0);
    for gap in gaps {
        counts.frm += u32::from(gap.frm);
        counts.fww += u32::from(gap.fww);
        counts.fsc += u32::from(gap.fsc);
    }
    counts
}

/// What is counted of one block with these instructions and this plan.
pub(crate) fn count_block(instructions: &[Placed], plan: &BlockPlan) -> Summary
    requires few { length instructions.now ≤ 2 ^ 16 }
    requires gaps { length plan.now.gaps ≤ 2 ^ 18 }
    requires slots { length plan.now.slots ≤ length (flat_map placed_slots instructions.now) }
    ensures { result ≡ counted instructions.now plan.now }
{
    let accesses = count_accesses(instructions);
    let fences = count_gaps(plan.gaps.as_slice());
    Summary {
        threads: 0,
        instructions: instructions.len() as u32,
        blocks: 1,
        accesses,
        private: accesses - plan.slots.as_slice().len() as u32,
        frm: fences.frm,
        fww: fences.fww,
        fsc: fences.fsc,
    }
}
