ghost use Rattle.std.specs.Prelude.{◌≡◌, ◌+◌, ◌<◌, ◌≤◌, nat_eq, length, slice_index, Some, IsSome, IfOk, OnOk};
ghost use Rattle.indexmap.specs.IndexMap.{get};
ghost use Rattle.a64_block.specs.Conditions.{LiveAtMost};
ghost use Rattle.regalloc.specs.Uses.{AreLast};
ghost use Rattle.regalloc.specs.Slots.{AreSlots, StandsAt};
ghost use Rattle.regalloc.specs.Scan.{HasFree, IsScanned};

use crate::registers::{SLOTS, ZERO};
use crate::words::result_of;
use a64_block::ABlock;
use a64_code::A64;
use ev_graph::NoMemory;
use indexmap::IndexMap;
use std::alloc::Global;

/// What a scan over words has found.
#[derive(Drop)]
struct Scan {
    /// The slot of each temporary that was set.
    slots: IndexMap<u32, usize>,
    /// The last word at which each slot is in use.
    until: [usize; SLOTS],
}

/// The slot of each temporary that a block sets, from the last use of each.
pub fn assign_slots(
    alloc: Global,
    block: &ABlock<u32>,
    last: &IndexMap<u32, usize>,
) -> Result<IndexMap<u32, usize>, NoMemory>
    requires last { AreLast block.now.end block.now.steps (get nat_eq last.now) }
    requires few { LiveAtMost 8 block.now.end block.now.steps }
    ensures { IfOk result (λ slots. AreSlots block.now.end block.now.steps (get nat_eq slots)) }
{
    let mut state = Scan {
        slots: IndexMap::new(alloc),
        until: [0; SLOTS],
    };
    for (at, word) in block.steps.as_slice().iter().enumerate() {
        scan_word(&mut state, block, last, *word, at)?;
    }
    Ok(state.slots)
}

/// Gives a word's result a slot that nothing uses behind the word, if it is a temporary that has none.
fn scan_word(
    state: &mut Scan,
    block: &ABlock<u32>,
    last: &IndexMap<u32, usize>,
    word: A64<u32>,
    at: usize,
) -> Result<(), NoMemory>
    requires last { AreLast block.now.end block.now.steps (get nat_eq last.now) }
    requires few { LiveAtMost 8 block.now.end block.now.steps }
    requires stands { StandsAt block.now.steps at word }
    requires scanned { IsScanned block.now.end block.now.steps (get nat_eq state.old.slots) state.old.until at }
    ensures { OnOk result (IsScanned block.now.end block.now.steps (get nat_eq state.new.slots) state.new.until (at + 1)) }
{
    let Some(number) = result_of(word) else {
        return Ok(());
    };
    if number <= ZERO || state.slots.contains_key(&number) {
        return Ok(());
    }
    let slot = free_slot(&state.until, at);
    state.slots.insert(number, slot)?;
    state.until[slot] = last_use(last, number);
    Ok(())
}

/// The first slot that is not in use behind a word; there is one.
fn free_slot(until: &[usize], at: usize) -> usize
    requires { HasFree until.now at }
    ensures within { result < length until.now }
    ensures free { slice_index until.now result ≤ at }
{
    match until.iter().position(|last| *last <= at) {
        Some(slot) => slot,
        None => unreachable!(),
    }
}

/// The last word that has a number, which some word has.
fn last_use(last: &IndexMap<u32, usize>, number: u32) -> usize
    requires { IsSome (get nat_eq last.now number) }
    ensures { get nat_eq last.now number ≡ Some result }
{
    match last.get(&number) {
        Some(at) => *at,
        None => unreachable!(),
    }
}
