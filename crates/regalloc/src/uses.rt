ghost use Rattle.std.specs.Prelude.{◌≡◌, ◌<◌, ℕ, Some, nat_eq, IfOk, OnOk, if◌then◌else◌};
ghost use Rattle.std.specs.List.{list_any};
ghost use Rattle.indexmap.specs.IndexMap.{get};
ghost use Rattle.regalloc.specs.Uses.{AreLast, AreLastIn, end_operand};

use crate::registers::ZERO;
use crate::words::numbers_of;
use a64_block::{ABlock, AEnd};
use a64_code::A64;
use ev_graph::NoMemory;
use indexmap::IndexMap;
use std::alloc::Global;

/// For each temporary of a block, the index of the last word that has it; the end counts as one more
/// word.
pub fn last_uses(alloc: Global, block: &ABlock<u32>) -> Result<IndexMap<u32, usize>, NoMemory>
    ensures { IfOk result (λ last. AreLast block.now.end block.now.steps (get nat_eq last)) }
{
    let words = block.steps.as_slice();
    let mut last = last_in_words(alloc, words)?;
    note_each(&mut last, &[operand_of(block.end)], words.len())?;
    Ok(last)
}

/// The same of the words alone.
fn last_in_words(alloc: Global, words: &[A64<u32>]) -> Result<IndexMap<u32, usize>, NoMemory>
    ensures { IfOk result (λ last. AreLastIn words.now (get nat_eq last)) }
{
    let mut last = IndexMap::new(alloc);
    for (at, word) in words.iter().enumerate() {
        note_each(&mut last, &numbers_of(*word), at)?;
    }
    Ok(last)
}

/// Notes that those of the numbers that are temporaries occur at a place.
fn note_each(last: &mut IndexMap<u32, usize>, numbers: &[u32], at: usize) -> Result<(), NoMemory>
    ensures { OnOk result ((n : ℕ) → 20 < n → get nat_eq last.new n ≡ (if list_any (nat_eq n) numbers.now then Some at else get nat_eq last.old n)) }
{
    for number in numbers {
        if *number > ZERO {
            last.insert(*number, at)?;
        }
    }
    Ok(())
}

/// The number that an end reads, or the one that reads as 0.
fn operand_of(end: AEnd<u32>) -> u32
    ensures { result ≡ end_operand end }
{
    match end {
        AEnd::Branch(number, _, _) => number,
        AEnd::Return(number) => number,
        AEnd::Indexed(number, _) => number,
        AEnd::Goto(_) | AEnd::Stop(_) => ZERO,
    }
}
