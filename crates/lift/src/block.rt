ghost use Rattle.std.specs.Prelude.{◌≡◌, ◌≤◌, ◌<◌, ◌+◌, ℕ, IfOk, List as Sequence, Some, length, map, slice_get, take, drop, sum_by};
ghost use Rattle.x64_syntax.specs.declared.placed.Placed.{Placed as AnyPlaced};
ghost use Rattle.cfg_walk.specs.declared.code.Block.{Block as AnyBlock};
ghost use Rattle.cfg_walk.specs.Code.{IsIncreasing};
ghost use Rattle.limm_ir.specs.Conditions.{IsSelectable};
ghost use Rattle.limm_ir.specs.Costs.{cost_of, fenced_cost};
ghost use Rattle.lift_alu.specs.Meant.{most_words};
ghost use Rattle.lift.specs.Block.{AreLifted, AreStepsFrom, LiftsBlock, end_from};
ghost use Rattle.lift.specs.Recovered.{IsRecovered, IsBlockAt, AreOfBlock};

use crate::placed::lift_placed;
use cfg_walk::Code;
use ev_graph::NoMemory;
use limm_ir::IrBlock;
use std::alloc::Global;
use x64_syntax::Placed;

/// The place of the instruction at an address.
fn place_of(placed: &[Placed], address: u64) -> usize
    requires { IsIncreasing (map (λ (p : AnyPlaced). p.address) placed.now) }
    ensures { (k : ℕ) (p : AnyPlaced) → slice_get placed.now k ≡ Some p → p.address ≡ address → result ≡ k }
{
    placed.partition_point(|one| one.address < address)
}

/// So many instructions from a place on.
fn part(placed: &[Placed], place: usize, count: usize) -> &[Placed]
    requires { place + count ≤ length placed.now }
    ensures { result.now ≡ take count (drop place placed.now) }
{
    &placed[place..place + count]
}

/// The instructions of the block of this number.
///
/// Takes time in the logarithm of the instructions of the code.
pub fn instructions_of(code: &Code, block: u32) -> &[Placed]
    requires code { IsRecovered code.now }
    requires block { block < length code.now.blocks }
    ensures lifted { AreLifted result.now }
    ensures those { (ps : Sequence AnyPlaced) → AreOfBlock code.now block ps → ps ≡ result.now }
{
    let placed = code.placed.as_slice();
    let block = code.blocks.as_slice()[block as usize];
    let first = place_of(placed, block.first);
    part(placed, first, block.count as usize)
}

/// The steps of a block of recovered code, and its end. Each instruction has 256 temporaries of its own.
///
/// Takes time in the instructions of the block, and in the logarithm of those of the code.
pub fn lift_block(alloc: Global, code: &Code, block: u32) -> Result<IrBlock, NoMemory>
    requires code { IsRecovered code.now }
    requires block { block < length code.now.blocks }
    ensures first { IfOk result (λ b. (one : AnyBlock) → IsBlockAt code.now block one → b.first ≡ one.first) }
    ensures end { IfOk result (λ b. (ps : Sequence AnyPlaced) → AreOfBlock code.now block ps → b.end ≡ end_from 0 ps) }
    ensures meaning { IfOk result (λ b. (ps : Sequence AnyPlaced) → AreOfBlock code.now block ps → LiftsBlock ps b.steps b.end) }
    ensures few { IfOk result (λ b. (ps : Sequence AnyPlaced) → AreOfBlock code.now block ps → cost_of fenced_cost b.steps ≤ sum_by most_words ps) }
    ensures selectable { IfOk result (λ b. IsSelectable b.steps b.end) }
    ensures steps { IfOk result (λ b. (ps : Sequence AnyPlaced) → AreOfBlock code.now block ps → AreStepsFrom 0 ps b.steps) }
{
    let lifted = lift_placed(alloc, instructions_of(code, block))?;
    Ok(lifted)
}
