ghost use Rattle.std.specs.Prelude.{◌≡◌, IfOk, length};
ghost use Rattle.a64_block.specs.Barriers.{barriers_in};
ghost use Rattle.a64_block.specs.Conditions.{IsAllocatable, IsLayable};
ghost use Rattle.a64_block.specs.Renamed.{IsRenamedEnd};
ghost use Rattle.regalloc.specs.Allocated.{MeansNumbers};

use crate::renamed::{renamed_end, renamed_words};
use crate::scan::assign_slots;
use crate::uses::last_uses;
use a64_block::ABlock;
use a64_code::XReg;
use ev_graph::{List, NoMemory};
use std::alloc::Global;

/// The block with a register of the machine for each number: Xn for register n of x86, X19 to X22 for
/// CF, ZF, SF and OF, and X16, X17 and X23 to X28 for temporaries. It takes none but for memory.
pub fn allocate(alloc: Global, block: ABlock<u32>) -> Result<ABlock<XReg>, NoMemory>
    requires { IsAllocatable block.steps block.end }
    ensures first { IfOk result (λ b. b.first ≡ block.first) }
    ensures end { IfOk result (λ b. IsRenamedEnd block.end b.end) }
    ensures meaning { IfOk result (λ b. MeansNumbers block.steps block.end b.steps b.end) }
    ensures layable { IfOk result (λ b. IsLayable b.steps b.end) }
    ensures barriers { IfOk result (λ b. barriers_in b.steps ≡ barriers_in block.steps) }
    ensures many { IfOk result (λ b. length b.steps ≡ length block.steps) }
{
    let last = last_uses(alloc, &block)?;
    let slots = assign_slots(alloc, &block, &last)?;
    let words = renamed_words(alloc, block.steps.as_slice(), &slots)?;
    Ok(ABlock {
        first: block.first,
        steps: List::of(words),
        end: renamed_end(block.end, &slots),
    })
}
