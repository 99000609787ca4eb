ghost use Rattle.std.specs.Prelude.{◌≡◌, map, option_and_then, IfOk};
ghost use Rattle.a64_code.specs.Decoding.{a64_of};
ghost use Rattle.a64_table.specs.Machine.{word_at, Shows};
ghost use Rattle.arm_replay.specs.Memories.{AreDecoded};
ghost use Rattle.arm_replay.specs.Threads.{a64_start};

use crate::memory::ThreadMemory;
use a64_code::{A64, XReg, decode_word};
use a64_table::A64State;
use ev_graph::Stack;
use std::alloc::{AllocError, Global};

/// A thread of an image: its number, what it sees, and the instructions of the code, word by word.
#[derive(Clone, Copy)]
pub(crate) struct ImageThread<'a> {
    pub(crate) number: u32,
    pub(crate) memory: ThreadMemory<'a>,
    pub(crate) instrs: &'a [Option<A64<XReg>>],
}

/// The instructions that words spell, `None` where a word spells none.
pub(crate) fn decoded(alloc: Global, words: &[u32]) -> Result<Vec<Option<A64<XReg>>>, AllocError>
    ensures { IfOk result (λ instrs. instrs.items ≡ map a64_of words.now) }
{
    words.iter().map(|word| decode_word(*word)).collect(alloc)
}

/// Thread `number` before its first word.
pub(crate) fn start_state(number: u32, stack: Stack, at: u64) -> A64State
    ensures { Shows result (a64_start number stack at) }
{
    let mut regs = [0; 31];
    regs[4] = stack.hi.saturating_sub(8);
    regs[7] = u64::from(number);
    A64State {
        regs,
        n: false,
        z: false,
        c: false,
        v: false,
        at,
    }
}

impl ImageThread<'_> {
    /// The instruction at an address, where a word of the code begins there and spells one.
    pub(crate) fn instr(&self, address: u64) -> Option<A64<XReg>>
        requires { AreDecoded self.now.memory.image.now self.now.instrs.now }
        ensures { result ≡ option_and_then a64_of (word_at self.now.memory.image.now.code_address self.now.memory.image.now.words address) }
    {
        let first = self.memory.image.code_address;
        if address < first || (address - first) % 4 != 0 {
            return None;
        }
        let place = (address - first) / 4;
        if place >= self.instrs.len() as u64 {
            return None;
        }
        self.instrs[place as usize]
    }
}
