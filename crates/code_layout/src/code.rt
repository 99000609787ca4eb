ghost use Rattle.std.specs.Prelude.{◌≡◌, ◌≤◌, ◌^◌, ◌+◌, ◌*◌, [], ◌∷◌, ◌++◌, length, map, IfOk, OnOk};
ghost use Rattle.std.specs.List.{AllByRecursion};
ghost use Rattle.a64_code.specs.Ranges.{IsEncodable};
ghost use Rattle.a64_code.specs.Words.{word_of};
ghost use Rattle.a64_code.specs.declared.instr.A64.TheVariants as words;
ghost use Rattle.a64_block.specs.Breaks.{break_of};
ghost use Rattle.code_layout.specs.Places.{start_of, blocks_size, AreTold};
ghost use Rattle.code_layout.specs.Search.{Rise};
ghost use Rattle.code_layout.specs.Code.{end_words, blocks_words, AppendsReturns};

use crate::places::Places;
use crate::search::push_search;
use crate::words::{OVER_NEXT, POPPED, ZERO, push_jump};
use a64_block::{ABlock, AEnd, break_of};
use a64_code::{A64, XReg, encode};
use ev_graph::{NoMemory, TrapKind};
use std::alloc::Global;

/// The number of the call that ends a thread.
const HALTS: u16 = 3;

/// Appends the words of a block's end.
fn push_end(code: &mut Vec<A64<XReg>>, end: AEnd<XReg>, places: &Places) -> Result<(), NoMemory>
    requires places { AreTold places.now }
    requires few { length code.old.items ≤ 2 ^ 23 }
    ensures { OnOk result (code.new.items ≡ code.old.items ++ end_words (start_of places.now) places.now.end (length code.old.items) end) }
{
    match end {
        AEnd::Goto(address) => push_jump(code, places.start_of(address)),
        AEnd::Branch(register, taken, other) => {
            code.push(A64::Cbz(true, register, OVER_NEXT))?;
            push_jump(code, places.start_of(taken))?;
            push_jump(code, places.start_of(other))
        }
        AEnd::Return(register) => {
            code.push(A64::Orr(true, POPPED, ZERO, register, 0, 0))?;
            push_jump(code, places.end)
        }
        AEnd::Indexed(_, _) => push_break(code, TrapKind::BadJump),
        AEnd::Stop(kind) => push_break(code, kind),
    }
}

/// Appends the break of a trap.
fn push_break(code: &mut Vec<A64<XReg>>, kind: TrapKind) -> Result<(), NoMemory>
    ensures { OnOk result (code.new.items ≡ code.old.items ++ words.Brk (break_of kind) ∷ []) }
{
    code.push(A64::Brk(break_of(kind)))?;
    Ok(())
}

/// Appends the words of blocks, one behind the other.
pub fn push_blocks(
    code: &mut Vec<A64<XReg>>,
    blocks: &[ABlock<XReg>],
    places: &Places,
) -> Result<(), NoMemory>
    requires places { AreTold places.now }
    requires few { length code.old.items + blocks_size blocks.now ≤ 2 ^ 23 }
    ensures { OnOk result (code.new.items ≡ code.old.items ++ blocks_words (start_of places.now) places.now.end (length code.old.items) blocks.now) }
{
    for block in blocks {
        code.extend_from_slice(block.steps.as_slice())?;
        push_end(code, block.end, places)?;
    }
    Ok(())
}

/// Appends the words that take a return address.
pub fn push_returns(
    code: &mut Vec<A64<XReg>>,
    sites: &[u64],
    places: &Places,
) -> Result<(), NoMemory>
    requires places { AreTold places.now }
    requires sites { Rise sites.now }
    requires few { length code.old.items + 15 * length sites.now + 2 ≤ 2 ^ 23 }
    ensures { OnOk result (AppendsReturns (start_of places.now) sites.now code.old.items code.new.items) }
{
    code.push(A64::Cbnz(true, POPPED, OVER_NEXT))?;
    code.push(A64::Svc(HALTS))?;
    push_search(code, sites, places)
}

/// The instructions as words.
pub fn encoded(alloc: Global, code: &[A64<XReg>]) -> Result<Vec<u32>, NoMemory>
    requires { AllByRecursion IsEncodable code.now }
    ensures { IfOk result (λ words. words.items ≡ map word_of code.now) }
{
    let mut words = Vec::new(alloc);
    for instr in code {
        words.push(encode(*instr))?;
    }
    Ok(words)
}
