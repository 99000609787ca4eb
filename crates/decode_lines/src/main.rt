//! A listing of x86-64 code: reads bytes from standard input, and prints a line for each instruction.
//! Nothing rests on it; each line's length is the one that `decode_one` of `x64_decode` gives.
//! Source: Intel SDM volume 2, chapters 3 to 5 (mnemonics).
#![tactic(auto)]

mod listing;
mod mnemonic;

use listing::{Style, listing};
use std::io::Read;
use std::{env, io};

/// Prints length and name of each instruction, or with an argument its bytes and operands.
fn main(rt: HostRuntime) -> io::Result<()> {
    let style = if env::args(&rt)?.nth(1).is_some() {
        Style::Operands
    } else {
        Style::Names
    };
    let mut code = Vec::new(rt.alloc());
    rt.stdin().read_to_end(&mut code)?;
    let text = listing(rt.alloc(), code.as_slice(), style)?;
    print!(rt; "{text}")?;
    Ok(())
}
