ghost use Rattle.std.specs.Prelude.{◌≡◌, ◌≤◌, ◌^◌, IfOk};
ghost use Rattle.code_layout.specs.Places.{end_size, block_size, blocks_size, starts_from, start_of, AreTold};
ghost use Rattle.code_layout.specs.Places.{firsts};

use a64_block::{ABlock, AEnd};
use a64_code::XReg;
use ev_graph::{List, NoMemory};
use std::alloc::Global;

/// Where blocks stand in the code: the addresses at which they begin, in order, beside each how many
/// words stand before the block, and how many words all blocks take.
#[derive(Drop)]
pub struct Places {
    pub firsts: List<u64>,
    pub starts: List<u64>,
    pub end: u64,
}

/// How many words the end of a block takes.
fn end_size(end: AEnd<XReg>) -> u64
    ensures { result ≡ end_size end }
{
    match end {
        AEnd::Goto(_) | AEnd::Indexed(_, _) | AEnd::Stop(_) => 1,
        AEnd::Return(_) => 2,
        AEnd::Branch(_, _, _) => 3,
    }
}

/// How many words a block takes.
fn block_size(block: &ABlock<XReg>) -> u64
    requires { block_size block.now ≤ 2 ^ 22 }
    ensures { result ≡ block_size block.now }
{
    block.steps.as_slice().len() as u64 + end_size(block.end)
}

impl Places {
    /// The places of blocks that stand one behind the other.
    pub fn of(alloc: Global, blocks: &[ABlock<XReg>]) -> Result<Places, NoMemory>
        requires few { blocks_size blocks.now ≤ 2 ^ 22 }
        ensures firsts { IfOk result (λ places. places.firsts ≡ firsts blocks.now) }
        ensures starts { IfOk result (λ places. places.starts ≡ starts_from 0 blocks.now) }
        ensures end { IfOk result (λ places. places.end ≡ blocks_size blocks.now) }
    {
        let mut firsts = Vec::new(alloc);
        let mut starts = Vec::new(alloc);
        let mut end = 0;
        for block in blocks {
            firsts.push(block.first)?;
            starts.push(end)?;
            end += block_size(block);
        }
        Ok(Places {
            firsts: List::of(firsts),
            starts: List::of(starts),
            end,
        })
    }

    /// How many words stand before the block that begins at an address.
    pub fn start_of(&self, address: u64) -> u64
        requires { AreTold self.now }
        ensures value { result ≡ start_of self.now address }
        ensures low { result ≤ 2 ^ 22 }
    {
        match self.firsts.as_slice().binary_search(&address) {
            Ok(place) => self.starts.as_slice()[place],
            Err(_) => self.end,
        }
    }
}
