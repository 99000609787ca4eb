ghost use Rattle.std.specs.Prelude.{IfSome};
ghost use Rattle.x64_syntax.specs.Formed.{IsFormed};

use crate::made::Made;
use crate::ran::{Ran, Stop, flag_numbers};
use crate::subject::CODE_AT;
use cfg_walk::Code;
use elf_read::Elf;
use ev_graph::{End, TrapKind};
use std::alloc::AllocError;
use x64_decode::decode_one;
use x64_syntax::{Flow, Instr};
use x64_table::{Next, X64State, XRow, row};

/// No program here takes more instructions.
const MOST_INSTRUCTIONS: u32 = 20_000;

/// A program: its bytes of code at 401000, the file's segments, and what was found in the code.
#[derive(Clone, Copy)]
pub struct Program<'a> {
    pub bytes: &'a [u8],
    pub elf: &'a Elf,
    pub code: &'a Code,
}

/// Runs a program by the rows of x86 from a state.
pub fn run_code(program: Program, start: X64State, mut made: Made) -> Result<Ran, AllocError> {
    let mut state = start;
    for steps in 0..MOST_INSTRUCTIONS {
        let (reached, stop) = step(program, &state, &mut made)?;
        state = reached;
        if let Some(stop) = stop {
            return Ok(ran(made, &state, stop, steps + 1));
        }
    }
    Ok(ran(made, &state, Stop::TooLong, MOST_INSTRUCTIONS))
}

fn ran(made: Made, state: &X64State, stop: Stop, steps: u32) -> Ran {
    Ran {
        made,
        registers: state.regs,
        flags: flag_numbers(state.flags),
        stop,
        steps,
    }
}

/// Takes one instruction: the state behind it, and how the run stops there if it does.
fn step(
    program: Program,
    state: &X64State,
    made: &mut Made,
) -> Result<(X64State, Option<Stop>), AllocError> {
    let (Some((instr, length)), Some(flow)) = (
        instruction_at(program.bytes, state.at),
        flow_at(program.code, state.at),
    ) else {
        return Ok((*state, Some(Stop::Astray)));
    };
    let XRow::Done(items, next) = answer(&instr, length, flow, state, program.elf, made) else {
        return Ok((*state, Some(Stop::Wanting)));
    };
    made.add(&items)?;
    Ok(led(program.code.sites.as_slice(), state, next))
}

/// The instruction at an address and its length.
fn instruction_at(bytes: &[u8], at: u64) -> Option<(Instr, u8)>
    ensures { IfSome result (λ found. IsFormed found.0) }
{
    let offset = at.wrapping_sub(CODE_AT) as usize;
    decode_one(bytes.get(offset..)?).ok()
}

/// How control goes on after the instruction that was found at an address.
fn flow_at(code: &Code, at: u64) -> Option<Flow> {
    let placed = code.placed.as_slice();
    let index = placed
        .binary_search_by_key(&at, |placed| placed.address)
        .ok()?;
    Some(placed.get(index)?.flow)
}

/// What an instruction does on the values that come next.
fn answer(instr: &Instr, length: u8, flow: Flow, state: &X64State, elf: &Elf, made: &Made) -> XRow
    requires { IsFormed instr.now }
{
    let read = match row(instr, length, flow, state, elf, None, None) {
        XRow::WantsRead(wanted) => Some(made.read(&wanted)),
        XRow::WantsInput => None,
        XRow::Done(items, next) => return XRow::Done(items, next),
    };
    match row(instr, length, flow, state, elf, read, None) {
        XRow::WantsInput => row(instr, length, flow, state, elf, read, Some(made.input())),
        answer => answer,
    }
}

/// Where an instruction leads, and how the run stops there if it does.
fn led(sites: &[u64], state: &X64State, next: Next) -> (X64State, Option<Stop>) {
    match next {
        Next::State(reached) => (reached, None),
        Next::Return(reached, 0) => (reached, Some(Stop::Ended(End::Halted))),
        Next::Return(reached, target) => {
            if sites.binary_search(&target).is_ok() {
                (
                    X64State {
                        at: target,
                        ..reached
                    },
                    None,
                )
            } else {
                (reached, Some(Stop::Ended(End::Trap(TrapKind::BadReturn))))
            }
        }
        Next::Indexed(reached, _) => (reached, Some(Stop::Wanting)),
        Next::End(end) => (*state, Some(Stop::Ended(end))),
    }
}
