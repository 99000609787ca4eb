ghost use Rattle.std.specs.Prelude.{◌≤◌, length, IfOk};
ghost use Rattle.gen_input.specs.BuiltFile.{IsShort};

use crate::made::{CELLS_AT, Made};
use crate::ran::{Ran, flag_numbers};
use crate::run_code::{Program, run_code};
use crate::run_words::run_words;
use crate::tally::Tally;
use a64_table::A64State;
use alu_width::Flags;
use anyhow::ensure;
use ev_graph::List;
use gen_input::{Symbol, build};
use std::alloc::{AllocError, Global};
use translate_core::{Translated, translate};
use x64_table::X64State;

/// Where a program's code and its thread begin.
pub const CODE_AT: u64 = 0x401000;

/// The listed function that takes an input.
const INPUT_AT: u64 = 0x402000;

/// The listed function that gives an output.
const OUTPUT_AT: u64 = 0x402010;

/// Code may not reach the listed functions, and cells have at most a page.
const PAGE: usize = 4096;

/// The 64-bit registers of x86 and the flags from which a run starts.
#[derive(Clone, Copy)]
pub struct Start {
    pub registers: [u64; 16],
    pub flags: Flags,
}

/// A program and its translation.
#[derive(Drop)]
pub struct Subject {
    pub bytes: Vec<u8>,
    pub translated: Translated,
}

impl Subject {
    /// The program with this code at 401000, of at most 4,096 bytes, and these cells at 404000, of at most as many.
    pub fn of(alloc: Global, bytes: Vec<u8>, cells: &[u8]) -> anyhow::Result<Subject> {
        ensure!(bytes.len() <= PAGE);
        ensure!(cells.len() <= PAGE);
        let symbols = [
            symbol(alloc, b"thread_0", CODE_AT)?,
            symbol(alloc, b"lsg_input", INPUT_AT)?,
            symbol(alloc, b"lsg_output", OUTPUT_AT)?,
        ];
        let file = build(alloc, &bytes, cells, CELLS_AT, &symbols)?;
        let translated = translate(alloc, &file)?;
        Ok(Subject { bytes, translated })
    }

    /// The run of the program and that of its image.
    pub fn runs(
        &self,
        alloc: Global,
        start: &Start,
        cells: Option<&[u8]>,
    ) -> Result<(Ran, Ran), AllocError> {
        let program = Program {
            bytes: self.bytes.as_slice(),
            elf: &self.translated.elf,
            code: &self.translated.code,
        };
        let image = &self.translated.image;
        let first = image.threads.as_slice().first().copied().unwrap_or(0);
        let wanted = run_code(program, x64_start(start), Made::nothing(alloc, cells)?)?;
        let found = run_words(image, a64_start(start, first), Made::nothing(alloc, cells)?)?;
        Ok((wanted, found))
    }

    /// Compares the run of the program with that of its image, and gives the program's.
    pub fn compare<R: Print + AllocGlobal>(
        &self,
        rt: &R,
        tally: &mut Tally,
        name: &str,
        start: &Start,
        cells: Option<&[u8]>,
    ) -> anyhow::Result<Ran> {
        let (wanted, found) = self.runs(rt.alloc(), start, cells)?;
        tally.compare(rt, name, &wanted, &found)?;
        Ok(wanted)
    }

    /// Compares the runs from two starts.
    pub fn compare_both<R: Print + AllocGlobal>(
        &self,
        rt: &R,
        tally: &mut Tally,
        name: &str,
        starts: &[Start; 2],
        cells: Option<&[u8]>,
    ) -> anyhow::Result<()> {
        tally.programs = tally.programs.wrapping_add(1);
        let [first, second] = starts;
        self.compare(rt, tally, name, first, cells)?;
        self.compare(rt, tally, name, second, cells)?;
        Ok(())
    }
}

fn symbol(alloc: Global, name: &[u8], address: u64) -> Result<Symbol, AllocError>
    requires { length name.now ≤ 32 }
    ensures { IfOk result IsShort }
{
    let name = List::of(Vec::from_slice(alloc, name)?);
    Ok(Symbol { name, address })
}

fn x64_start(start: &Start) -> X64State {
    X64State {
        regs: start.registers,
        flags: start.flags,
        at: CODE_AT,
    }
}

/// The same start for the image's thread, which begins at this address.
fn a64_start(start: &Start, at: u64) -> A64State {
    let mut regs = [0; 31];
    for (to, from) in regs.iter_mut().zip(start.registers.iter()) {
        *to = *from;
    }
    let [cf, zf, sf, of] = flag_numbers(start.flags);
    regs[19] = cf;
    regs[20] = zf;
    regs[21] = sf;
    regs[22] = of;
    A64State {
        regs,
        n: false,
        z: false,
        c: false,
        v: false,
        at,
    }
}
