use crate::window::Window;
use alu_width::Flags;
use std::alloc::{AllocError, Global};
use std::str::SplitAsciiWhitespace;
use x64_table::X64State;

/// Where the instruction of a case stands.
const PLACE: u64 = 0x3000_8000;

/// An instruction's bytes, and the state and memory from which it is taken.
#[derive(Drop)]
pub struct Case {
    pub code: Vec<u8>,
    pub state: X64State,
    pub window: Window,
}

impl Case {
    /// The case of a line: the bytes, the flags (CF 1, ZF 2, SF 4, OF 8), sixteen registers and eight cells of memory,
    /// in hexadecimal; `None` where a word is missing or is no such number.
    pub fn read(alloc: Global, line: &str) -> Result<Option<Case>, AllocError> {
        let mut words = line.split_ascii_whitespace();
        let Some(code) = code_of(alloc, words.next().unwrap_or(""))? else {
            return Ok(None);
        };
        let flags = next_number(&mut words);
        let regs = next_registers(&mut words);
        let window = next_window(&mut words);
        let (Some(flags), Some(regs), Some(window)) = (flags, regs, window) else {
            return Ok(None);
        };
        let state = X64State {
            regs,
            flags: flags_of(flags),
            at: PLACE,
        };
        Ok(Some(Case {
            code,
            state,
            window,
        }))
    }
}

/// The bytes that pairs of hexadecimal digits spell.
fn code_of(alloc: Global, word: &str) -> Result<Option<Vec<u8>>, AllocError> {
    let mut code = Vec::new(alloc);
    for pair in word.as_bytes().chunks_exact(2) {
        match pair {
            [high, low] => match (digit(*high), digit(*low)) {
                (Some(high), Some(low)) => code.push(high << 4 | low)?,
                _ => return Ok(None),
            },
            _ => return Ok(None),
        }
    }
    Ok(Some(code))
}

fn digit(byte: u8) -> Option<u8> {
    match byte {
        b'0'..=b'9' => Some(byte - b'0'),
        b'a'..=b'f' => Some(byte - b'a' + 10),
        _ => None,
    }
}

fn next_number(words: &mut SplitAsciiWhitespace) -> Option<u64> {
    u64::from_str_radix(words.next()?, 16).ok()
}

fn next_registers(words: &mut SplitAsciiWhitespace) -> Option<[u64; 16]> {
    let mut regs = [0; 16];
    for register in &mut regs {
        *register = next_number(words)?;
    }
    Some(regs)
}

fn next_window(words: &mut SplitAsciiWhitespace) -> Option<Window> {
    let mut window = Window { bytes: [0; 64] };
    for number in 0..8 {
        window.set_cell(number, next_number(words)?);
    }
    Some(window)
}

/// The flags of a number.
fn flags_of(bits: u64) -> Flags {
    Flags {
        cf: bits & 1 != 0,
        zf: bits & 2 != 0,
        sf: bits & 4 != 0,
        of: bits & 8 != 0,
    }
}

/// The number of the flags.
pub fn bits_of(flags: Flags) -> u64 {
    u64::from(flags.cf)
        | u64::from(flags.zf) << 1
        | u64::from(flags.sf) << 2
        | u64::from(flags.of) << 3
}
