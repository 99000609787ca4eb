ghost use Rattle.std.specs.Prelude.{◌≡◌, ◌≤◌, ◌^◌, ◌++◌, length, IfOk, OnOk};
ghost use Rattle.gen_input.specs.Made.{round_code, rounds_code, made_code, thread_symbol, made_file};

use crate::built::build;
use elf_format::Symbol;
use ev_graph::{List, NoMemory};
use std::alloc::{AllocError, Global};

/// Where both threads begin: the code's address.
const THREADS_ADDRESS: u64 = 0x401000;

/// Where the cells stand in memory.
const CELLS_ADDRESS: u64 = 0x800000;

/// `mov edi, 800000`: rdi is the cells' address.
const CELLS_TO_RDI: &[u8] = b"\xBF\x00\x00\x80\x00";

/// `mov [rdi+8], rax`
const STORE: &[u8] = b"\x48\x89\x47\x08";

/// `mov rax, [rdi+16]`
const LOAD: &[u8] = b"\x48\x8B\x47\x10";

/// `lock xadd [rdi+24], rax`
const LOCKED_ADD: &[u8] = b"\xF0\x48\x0F\xC1\x47\x18";

/// `mfence` and `jne` to the next instruction, which ends the block.
const FENCE_AND_JUMP: &[u8] = b"\x0F\xAE\xF0\x75\x00";

/// `ret`
const RETURN: &[u8] = b"\xC3";

/// The instructions of this round.
#[tactic(auto, unfolding(crate::specs::Made::round_code))]
fn round(number: u32) -> &'static [u8]
    ensures { result.now ≡ round_code number }
{
    match number % 4 {
        0 => STORE,
        1 => LOAD,
        2 => LOCKED_ADD,
        _ => FENCE_AND_JUMP,
    }
}

/// Appends the first `count` rounds.
fn push_rounds(code: &mut Vec<u8>, count: u32) -> Result<(), AllocError>
    ensures { OnOk result (code.new.items ≡ code.old.items ++ rounds_code count) }
{
    for number in 0..count {
        code.extend_from_slice(round(number))?;
    }
    Ok(())
}

/// The code of this many rounds. Their sizes are 4, 4, 6 and 5 bytes in turn, so 5 for each are enough.
#[tactic(auto, using(crate::proofs::Rounds::length_rounds))]
fn code(alloc: Global, rounds: u32) -> Result<Vec<u8>, AllocError>
    requires { rounds ≤ 20000 }
    ensures code { IfOk result (λ code. code.items ≡ made_code rounds) }
    ensures length { IfOk result (λ code. length code.items ≤ 2 ^ 20) }
{
    let size = CELLS_TO_RDI.len() + 5 * rounds as usize + RETURN.len();
    let mut code = Vec::with_capacity(alloc, size)?;
    code.extend_from_slice(CELLS_TO_RDI)?;
    push_rounds(&mut code, rounds)?;
    code.extend_from_slice(RETURN)?;
    Ok(code)
}

/// The symbol of a thread that begins with the code.
fn thread(alloc: Global, name: &[u8]) -> Result<Symbol, AllocError>
    ensures { IfOk result (λ symbol. symbol ≡ thread_symbol name.now) }
{
    let name = List::of(Vec::from_slice(alloc, name)?);
    Ok(Symbol {
        name,
        address: THREADS_ADDRESS,
    })
}

/// An executable file as `build` makes it whose two threads, `thread_0` and `thread_1`, both run one
/// code of `n` rounds, with 64 zero cells at 800000.
///
/// The code puts the cells' address into rdi and returns behind the rounds, which are in turn a store, a
/// load, a locked addition, and a fence with a jump to the next instruction. `n` is from 1 to 20,000.
pub fn make(alloc: Global, n: u32) -> Result<Vec<u8>, NoMemory>
    requires least { 1 ≤ n }
    requires most { n ≤ 20000 }
    ensures bytes { IfOk result (λ bytes. bytes.items ≡ made_file n) }
{
    let code = code(alloc, n)?;
    let threads = [thread(alloc, b"thread_0")?, thread(alloc, b"thread_1")?];
    build(alloc, &code, &[0; 64], CELLS_ADDRESS, &threads)
}
