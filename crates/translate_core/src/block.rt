ghost use Rattle.std.specs.Prelude.{◌≡◌, ◌≤◌, ◌<◌, IfOk, List as Sequence, length, sum_by};
ghost use Rattle.x64_syntax.specs.declared.placed.Placed.{Placed as AnyPlaced};
ghost use Rattle.cfg_walk.specs.declared.code.Block.{Block as AnyBlock};
ghost use Rattle.lift_alu.specs.Meant.{most_words};
ghost use Rattle.lift.specs.Recovered.{IsRecovered, IsBlockAt, AreOfBlock};
ghost use Rattle.fence_place.specs.Marked.{IsSorted};
ghost use Rattle.a64_block.specs.Conditions.{IsLayable};
ghost use Rattle.translate_core.specs.Passed.{IsPassed, ArePassed, LeadsOn};

use a64_block::ABlock;
use a64_code::XReg;
use cfg_walk::Code;
use ev_graph::{List, NoMemory};
use fence_merge::merge;
use fence_place::place;
use isel::select;
use lift::lift_block;
use regalloc::allocate;
use std::alloc::Global;
use x64_syntax::Marks;

/// The words of the block of this number, with just the planned fences. The marked slots are private.
///
/// Takes n log n time in the instructions of the block, and the logarithm of those of the code.
fn pass_block(
    alloc: Global,
    code: &Code,
    number: u32,
    private: &Marks,
) -> Result<ABlock<XReg>, NoMemory>
    requires code { IsRecovered code.now }
    requires number { number < length code.now.blocks }
    requires private { IsSorted private.now.slots }
    ensures first { IfOk result (λ b. (one : AnyBlock) → IsBlockAt code.now number one → b.first ≡ one.first) }
    ensures passed { IfOk result (IsPassed private.now.slots code.now) }
    ensures layable { IfOk result (λ b. IsLayable b.steps b.end) }
    ensures leads { IfOk result (λ b. LeadsOn code.now b.end) }
    ensures few { IfOk result (λ b. (ps : Sequence AnyPlaced) → AreOfBlock code.now number ps → length b.steps ≤ sum_by most_words ps) }
{
    let lifted = lift_block(alloc, code, number)?;
    let fenced = place(alloc, lifted, private)?;
    let merged = merge(alloc, fenced, private)?;
    let selected = select(alloc, &merged)?;
    let words = allocate(alloc, selected)?;
    Ok(words)
}

/// How many blocks the code has, where 32 bits number them.
pub(crate) fn count_of(code: &Code) -> Result<u32, NoMemory>
    ensures { IfOk result (λ count. count ≡ length code.now.blocks) }
{
    u32::try_from(code.blocks.as_slice().len())
        .ok()
        .ok_or(NoMemory)
}

/// The words of the blocks of recovered code, one block for each, with just the planned fences. The marked
/// slots are private.
///
/// Takes n log n time in the instructions of the code.
pub fn pass_blocks(
    alloc: Global,
    code: &Code,
    private: &Marks,
) -> Result<List<ABlock<XReg>>, NoMemory>
    requires code { IsRecovered code.now }
    requires private { IsSorted private.now.slots }
    ensures { IfOk result (ArePassed private.now.slots code.now code.now.blocks) }
{
    let count = count_of(code)?;
    let mut blocks = Vec::new(alloc);
    for number in 0..count {
        let block = pass_block(alloc, code, number, private)?;
        blocks.push(block)?;
    }
    Ok(List::of(blocks))
}
