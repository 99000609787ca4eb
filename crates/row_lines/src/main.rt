//! Takes x86-64 instructions one at a time, each from a state that a line of standard input gives, and prints what changed.
//! Nothing rests on it; it calls `row` of `x64_table` on what `decode_one` of `x64_decode` answers.
//! Source: Intel SDM volume 2; `scripts/x64-rows` has the lines and compares the answers with a processor's.
#![tactic(auto)]

mod case;
mod step;
#[cfg(test)]
mod tests;
mod window;

use case::Case;
use std::io;
use std::io::Read;
use step::write_outcome;

/// Prints a line for each line of standard input.
fn main(rt: HostRuntime) -> io::Result<()> {
    let mut text = String::new(rt.alloc());
    rt.stdin().read_to_string(&mut text)?;
    let mut answers = String::new(rt.alloc());
    for line in text.as_str().lines() {
        match Case::read(rt.alloc(), line)? {
            Some(case) => write_outcome(&mut answers, case)?,
            None => answers.push_str("no case\n")?,
        }
    }
    print!(rt; "{answers}")?;
    Ok(())
}
