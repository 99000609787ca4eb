use crate::forms::FORMS;
use crate::subject::{Start, Subject};
use crate::tally::Tally;
use alu_width::Flags;
use std::alloc::{AllocError, Global};

const RETURN: u8 = 0xC3;

/// From here each form runs: rbx is an index, and rsp, rbp and rdi point to cells that may be written.
fn starts() -> [Start; 2] {
    [
        Start {
            registers: [
                0x8000_0000_7FFF_FF80,
                0xFFFF_FFFF_8000_0001,
                0x0000_0001_0000_7FFF,
                3,
                0x404020,
                0x404028,
                1,
                0x404000,
                8,
                0x8000,
                10,
                11,
                12,
                13,
                14,
                15,
            ],
            flags: Flags {
                cf: true,
                zf: false,
                sf: true,
                of: false,
            },
        },
        Start {
            registers: [
                0xFF,
                1,
                0xFFFF_FFFF_FFFF_FFFF,
                3,
                0x404020,
                0x404028,
                0,
                0x404000,
                0,
                0x7F,
                0,
                0,
                0,
                0,
                0,
                0,
            ],
            flags: Flags {
                cf: false,
                zf: true,
                sf: false,
                of: true,
            },
        },
    ]
}

/// Runs each form with a return behind it, on chosen values of reads.
pub fn run_forms<R: Print + AllocGlobal>(rt: &R) -> anyhow::Result<Tally> {
    let mut tally = Tally::default();
    for form in FORMS.lines() {
        run_form(rt, &mut tally, form)?;
    }
    Ok(tally)
}

/// Runs a form from each start.
fn run_form<R: Print + AllocGlobal>(rt: &R, tally: &mut Tally, form: &str) -> anyhow::Result<()> {
    let alloc = rt.alloc();
    let mut code = bytes_of(alloc, form)?;
    code.push(RETURN)?;
    let subject = Subject::of(alloc, code, &[0; 64])?;
    subject.compare_both(rt, tally, form, &starts(), None)
}

/// The bytes of a program, which its line begins with in hexadecimal digits.
pub fn bytes_of(alloc: Global, line: &str) -> Result<Vec<u8>, AllocError> {
    let mut bytes = Vec::new(alloc);
    let mut high = None;
    for letter in line.chars() {
        let Some(digit) = letter.to_digit(16) else {
            break;
        };
        match high {
            None => high = Some(digit),
            Some(first) => {
                bytes.push((16 * (first & 15) + (digit & 15)) as u8)?;
                high = None;
            }
        }
    }
    Ok(bytes)
}
