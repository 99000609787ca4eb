ghost use Rattle.std.specs.Prelude.{◌<◌, ◌≤◌, length};

use crate::mnemonic::mnemonic;
use std::alloc::{AllocError, Global};
use std::fmt::Write;
use x64_decode::{DecodeFault, decode_one};
use x64_syntax::Instr;

/// What a line of a listing says of an instruction.
#[derive(Clone, Copy, PartialEq, Eq)]
pub enum Style {
    /// Its length and its name, as `4 mov`.
    Names,
    /// Its bytes, and the instruction with its operands.
    Operands,
}

/// The lines of a listing. A byte that begins no instruction has a line of its own, which says why.
///
/// It takes as much memory as the text.
pub fn listing(alloc: Global, code: &[u8], style: Style) -> Result<String, AllocError> {
    let mut text = String::new(alloc);
    let mut rest = code;
    while !rest.is_empty() {
        let count = match decode_one(rest) {
            Ok((instr, length)) => {
                let count = usize::from(length);
                write_line(&mut text, &rest[..count], &instr, style)?;
                count
            }
            Err(fault) => {
                writeln!(text, "1 {}", reason(fault))?;
                1
            }
        };
        rest = &rest[count..];
    }
    Ok(text)
}

fn write_line(
    text: &mut String,
    bytes: &[u8],
    instr: &Instr,
    style: Style,
) -> Result<(), AllocError> {
    match style {
        Style::Names => writeln!(text, "{} {}", bytes.len(), mnemonic(instr)),
        Style::Operands => {
            for byte in bytes {
                write!(text, "{byte:02x}")?;
            }
            writeln!(text, " {instr:?}")
        }
    }
}

fn reason(fault: DecodeFault) -> &'static str {
    match fault {
        DecodeFault::Cut => "(cut off)",
        DecodeFault::Unknown => "(unknown)",
        DecodeFault::TooLong => "(too long)",
    }
}
