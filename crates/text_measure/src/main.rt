//! Texts of 16 MiB, of shapes on which a reader that is not linear shows it, to measure the time that reading takes.
//! Nothing rests on it; it calls `read_exec` of `exec_text`.
//! Source: the length of the longest text that is read, 16,777,216 bytes.
#![tactic(auto)]

mod shape;

use exec_text::{ExecFile, read_exec};
use shape::Shape;
use std::env;
use std::time::CpuClock;

/// How many values a text gives to all threads.
fn values_in(file: &ExecFile) -> usize {
    let mut count = 0_usize;
    for thread in file.threads.as_slice() {
        count = count.saturating_add(thread.values.as_slice().len());
    }
    count
}

/// Reads a text of this shape, and prints what came of it; the processor time goes to standard error.
fn measure<R: Print + Eprint + AllocGlobal + CpuClock>(rt: &R, shape: Shape) -> anyhow::Result<()> {
    let text = shape.text(rt.alloc())?;
    let before = rt.thread_cpu_time()?;
    let answer = read_exec(rt.alloc(), text.as_bytes());
    let after = rt.thread_cpu_time()?;
    let name = shape.name();
    match answer {
        Ok(file) => println!(rt; "{name}: {} values", values_in(&file))?,
        Err(fault) => println!(rt; "{name}: {fault}")?,
    }
    let took = after.saturating_sub(before).as_millis();
    eprintln!(rt; "{name}: {took} ms")?;
    Ok(())
}

/// Measures one shape by its name, or all where there is none.
fn main(rt: HostRuntime) -> anyhow::Result<()> {
    let name = env::args(&rt)?.nth(1);
    for shape in Shape::ALL {
        if name
            .as_ref()
            .is_none_or(|name| name.as_str() == shape.name())
        {
            measure(&rt, shape)?;
        }
    }
    Ok(())
}
