//! Programs of as much code as is accepted, of shapes on which a recovery that is not linear shows it, to measure it.
//! Nothing rests on it; it calls `recover` of `cfg_walk`, `check_flags` of `flag_use` and `marks` of `frame_marks`.
//! Source: the limit of 65,536 reached addresses.
#![tactic(auto)]

ghost use Rattle.std.specs.Prelude.{◌≤◌, IfOk, length};
ghost use Rattle.elf_read.specs.Elf.{IsProgram, parts_of};
ghost use Rattle.gen_input.specs.BuiltFile.{IsShort};
ghost use Rattle.code_at.specs.Code.{program_of};
ghost use Rattle.cfg_walk.specs.Code.{IsCodeOf};

mod shape;

use cfg_walk::{Code, recover};
use elf_read::{Elf, read_elf};
use ev_graph::List;
use flag_use::check_flags;
use frame_marks::marks;
use gen_input::{Symbol, build};
use shape::Shape;
use std::alloc::Global;
use std::env;
use std::time::CpuClock;

/// The symbol of the first thread.
fn first_thread(alloc: Global) -> anyhow::Result<Symbol>
    ensures { IfOk result IsShort }
{
    let name = List::of(Vec::from_slice(alloc, b"thread_0")?);
    Ok(Symbol {
        name,
        address: 0x401000,
    })
}

/// A program with the code of this shape, where its one thread begins.
fn program(alloc: Global, shape: Shape) -> anyhow::Result<Elf>
    ensures { IfOk result (λ elf. IsProgram (parts_of elf) elf.threads) }
{
    let code = shape.code(alloc)?;
    let symbols = [first_thread(alloc)?];
    let file = build(alloc, &code, &[0; 64], 0x800000, &symbols)?;
    let elf = read_elf(alloc, &file)?;
    Ok(elf)
}

/// Recovers the code of this shape, and prints what came of it; the processor time goes to standard error.
fn measure<R: Print + Eprint + AllocGlobal + CpuClock>(rt: &R, shape: Shape) -> anyhow::Result<()> {
    let elf = program(rt.alloc(), shape)?;
    let before = rt.thread_cpu_time()?;
    let answer = recover(rt.alloc(), &elf);
    let after = rt.thread_cpu_time()?;
    let name = shape.name();
    let took = after.saturating_sub(before).as_millis();
    eprintln!(rt; "{name}: {took} ms")?;
    match answer {
        Ok(code) => measure_searches(rt, name, &code, &elf)?,
        Err(fault) => println!(rt; "{name}: {fault}")?,
    }
    Ok(())
}

/// Looks for undefined flags and for private slots in recovered code, and prints what came of all three.
fn measure_searches<R: Print + Eprint + AllocGlobal + CpuClock>(
    rt: &R,
    name: &str,
    code: &Code,
    elf: &Elf,
) -> anyhow::Result<()>
    requires program { IsProgram (parts_of elf.now) elf.now.threads }
    requires code { IsCodeOf (program_of elf.now) code.now }
{
    let before = rt.thread_cpu_time()?;
    check_flags(rt.alloc(), code, elf)?;
    let between = rt.thread_cpu_time()?;
    let private = marks(rt.alloc(), code, elf)?;
    let after = rt.thread_cpu_time()?;
    let instructions = code.placed.as_slice().len();
    let blocks = code.blocks.as_slice().len();
    let sites = code.sites.as_slice().len();
    let slots = private.slots.as_slice().len();
    println!(rt;
        "{name}: {instructions} instructions, {blocks} blocks, {sites} sites, {slots} private"
    )?;
    let flags = between.saturating_sub(before).as_millis();
    let frames = after.saturating_sub(between).as_millis();
    eprintln!(rt; "{name}: flags {flags} ms, frames {frames} ms")?;
    Ok(())
}

/// Measures one shape by its name, or all where there is none.
fn main(rt: HostRuntime) -> anyhow::Result<()> {
    let name = env::args(&rt)?.nth(1);
    for shape in Shape::ALL {
        if name
            .as_ref()
            .is_none_or(|name| name.as_str() == shape.name())
        {
            measure(&rt, shape)?;
        }
    }
    Ok(())
}
