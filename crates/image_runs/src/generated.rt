use crate::made::CELLS_AT;
use crate::program::program;
use crate::random::Random;
use crate::subject::{Start, Subject};
use crate::tally::Tally;
use alu_width::Flags;
use std::alloc::{AllocError, Global};

const SEED: u64 = 0x9E37_79B9_7F4A_7C15;

/// The stack pointer at the start: 8 below the end of the cells.
const TOP: u64 = CELLS_AT + 0xFF8;

/// Runs so many programs, each from two starts.
pub fn run_generated<R: Print + AllocGlobal>(rt: &R, count: u32) -> anyhow::Result<Tally> {
    let mut tally = Tally::default();
    let mut random = Random::of(SEED);
    for number in 0..count {
        run_program(rt, &mut tally, &mut random, number)?;
    }
    Ok(tally)
}

/// Generates a program, whose name is its number, and runs it.
fn run_program<R: Print + AllocGlobal>(
    rt: &R,
    tally: &mut Tally,
    random: &mut Random,
    number: u32,
) -> anyhow::Result<()> {
    let alloc = rt.alloc();
    let code = program(alloc, Random::of(random.word()))?;
    let cells = cells(alloc, random)?;
    let starts = [start(random), start(random)];
    let name = number.to_string(alloc)?;
    let subject = Subject::of(alloc, code, cells.as_slice())?;
    subject.compare_both(rt, tally, name.as_str(), &starts, Some(cells.as_slice()))
}

/// A page of cells: 16 random words, and 0 behind them.
fn cells(alloc: Global, random: &mut Random) -> Result<Vec<u8>, AllocError> {
    let mut cells = Vec::new(alloc);
    for _ in 0..16_u32 {
        cells.extend_from_slice(&random.word().to_le_bytes())?;
    }
    cells.resize(0x1000, 0)?;
    Ok(cells)
}

/// A start with random registers and flags, but for rsp and rdi.
fn start(random: &mut Random) -> Start {
    let mut registers = [0; 16];
    for register in &mut registers {
        *register = random.word();
    }
    registers[4] = TOP;
    registers[7] = CELLS_AT;
    Start {
        registers,
        flags: Flags {
            cf: random.below(2) == 0,
            zf: random.below(2) == 0,
            sf: random.below(2) == 0,
            of: random.below(2) == 0,
        },
    }
}
