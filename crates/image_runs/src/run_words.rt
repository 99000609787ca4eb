use crate::made::Made;
use crate::ran::{Ran, Stop};
use a64_code::{A64, XReg, decode_word};
use a64_table::{A64State, ANext, ARow, row};
use elf_write::Image;
use std::alloc::AllocError;

/// No image here takes more words.
const MOST_WORDS: u32 = 2_000_000;

/// Runs an image by the rows of A64 from a state.
pub fn run_words(image: &Image, start: A64State, mut made: Made) -> Result<Ran, AllocError> {
    let mut state = start;
    for steps in 0..MOST_WORDS {
        match step(image, &state, &mut made)? {
            Ok(reached) => state = reached,
            Err(stop) => return Ok(ran(made, &state, stop, steps + 1)),
        }
    }
    Ok(ran(made, &state, Stop::TooLong, MOST_WORDS))
}

/// The registers and flags of x86 are X0 to X15 and X19 to X22.
fn ran(made: Made, state: &A64State, stop: Stop, steps: u32) -> Ran {
    let mut registers = [0; 16];
    for (to, from) in registers.iter_mut().zip(state.regs.iter()) {
        *to = *from;
    }
    Ran {
        made,
        registers,
        flags: [
            state.regs[19],
            state.regs[20],
            state.regs[21],
            state.regs[22],
        ],
        stop,
        steps,
    }
}

/// Takes one word: the state behind it, or how the run stops there.
fn step(
    image: &Image,
    state: &A64State,
    made: &mut Made,
) -> Result<Result<A64State, Stop>, AllocError> {
    let index = (state.at.wrapping_sub(image.code_address) / 4) as usize;
    let Some(word) = image.words.as_slice().get(index) else {
        return Ok(Err(Stop::Astray));
    };
    let Some(instr) = decode_word(*word) else {
        return Ok(Err(Stop::Astray));
    };
    let first = row(&instr, state, image, None, None);
    let whole = match first {
        ARow::WantsRead(wanted) => { row(&instr, state, image, Some(made.read(&wanted)), None) }
        ARow::WantsInput => row(&instr, state, image, None, Some(made.input())),
        ARow::Done(_, _, _) => first,
    };
    let ARow::Done(items, _, next) = whole else {
        return Ok(Err(Stop::Wanting));
    };
    made.add(&items)?;
    match next {
        ANext::State(reached) => Ok(Ok(reached)),
        ANext::End(end) => Ok(Err(Stop::Ended(end))),
    }
}
