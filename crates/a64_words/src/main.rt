//! Words of A64 instructions beside their assembly text, to compare them with an assembler's: eight of each variant.
//! Nothing rests on it; each word is the one that `encode` of `a64_code` gives, and `decode_word` gives the instruction back.
//! Source: Arm ARM (DDI 0487), chapter C6 (the assembler symbols of base instructions).
#![tactic(auto)]

mod draw;
mod sample;
mod text;

use a64_code::{decode_word, encode};
use draw::Draw;
use sample::{VARIANTS, sample};
use std::io;
use text::Assembly;

/// How many instructions of each variant are printed.
const EACH: u32 = 8;

/// Prints a line for each instruction: its word, and its text.
fn main(rt: HostRuntime) -> io::Result<()> {
    let mut draw = Draw::new();
    for number in 0..VARIANTS {
        for _ in 0..EACH {
            let word = encode(sample(&mut draw, number));
            if let Some(instr) = decode_word(word) {
                println!(rt; "{word:08x} {}", Assembly(instr))?;
            }
        }
    }
    Ok(())
}
