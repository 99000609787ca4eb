ghost use Rattle.std.specs.Prelude.{◌≤◌, IfOk, length};
ghost use Rattle.code_at.specs.Code.{Program};
ghost use Rattle.cfg_walk.specs.Blocks.{IsLeader};
ghost use Rattle.cfg_walk.specs.Code.{AreBlocks, AreJust};
ghost use Rattle.cfg_walk.specs.Known.{IsKnown};

use crate::Block;
use crate::addresses::has_address;
use ev_graph::NoMemory;
use std::alloc::Global;
use x64_syntax::Placed;

/// The blocks of the program that has these instructions and leaders, in order.
///
/// It counts from the last instruction back; at each leader, the instructions that were counted since the one before are its block.
pub(crate) fn blocks(
    alloc: Global,
    leaders: &[u64],
    placed: &[Placed],
) -> Result<Vec<Block>, NoMemory>
    requires few { length placed.now ≤ 65536 }
    ensures { IfOk result (λ v. (program : Program) → IsKnown program placed.now → AreJust (IsLeader program) leaders.now → AreBlocks program v.items) }
{
    let mut blocks = Vec::new(alloc);
    let mut count = 0;
    for place in (0..placed.len()).rev() {
        let first = placed[place].address;
        count += 1;
        if has_address(leaders, first) {
            blocks.push(Block { first, count })?;
            count = 0;
        }
    }
    blocks.reverse();
    Ok(blocks)
}
