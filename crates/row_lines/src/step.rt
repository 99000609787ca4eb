ghost use Rattle.x64_syntax.specs.Formed.{IsFormed};

use crate::case::{Case, bits_of};
use crate::window::{Permission, Window};
use ev_graph::{End, TrapKind};
use std::alloc::AllocError;
use std::fmt::Write;
use x64_decode::decode_one;
use x64_syntax::{Flow, Instr};
use x64_table::{Next, X64State, XRow, row};

/// The cases' memory may be read and written.
const ALL: Permission = Permission { writable: true };

/// Writes what the instruction of a case changes, as a line.
pub fn write_outcome(text: &mut String, case: Case) -> Result<(), AllocError> {
    let Case {
        code,
        state,
        window,
    } = case;
    match decode_one(code.as_slice()) {
        Ok((instr, length)) => write_taken(text, &instr, length, &state, &window),
        Err(fault) => writeln!(text, "{fault:?}"),
    }
}

fn write_taken(
    text: &mut String,
    instr: &Instr,
    length: u8,
    state: &X64State,
    window: &Window,
) -> Result<(), AllocError>
    requires { IsFormed instr.now }
{
    let first = row(instr, length, Flow::Plain, state, &ALL, None, None);
    let whole = match first {
        XRow::WantsRead(wanted) => {
            let value = window.read(wanted.address, wanted.size);
            row(instr, length, Flow::Plain, state, &ALL, Some(value), None)
        }
        XRow::WantsInput | XRow::Done(_, _) => first,
    };
    let XRow::Done(made, next) = whole else {
        return writeln!(text, "wants");
    };
    let mut after = *window;
    if let Some(write) = made.write {
        after.write(write.address, write.size, write.value);
    }
    match next {
        Next::State(reached) => {
            write_changes(text, state, &reached)?;
            write_cells(text, window, &after)?;
            write_address(text, state.at.wrapping_add(u64::from(length)), reached.at)
        }
        Next::Return(reached, target) => {
            write_changes(text, state, &reached)?;
            write_address(text, reached.at, target)
        }
        Next::Indexed(_, index) => writeln!(text, "index {index:x}"),
        Next::End(End::Trap(TrapKind::Divide)) => writeln!(text, "divide"),
        Next::End(End::Trap(TrapKind::Invalid)) => writeln!(text, "invalid"),
        Next::End(end) => writeln!(text, "{end:?}"),
    }
}

/// The flags, and the registers that have another value than before.
fn write_changes(text: &mut String, before: &X64State, after: &X64State) -> Result<(), AllocError> {
    write!(text, "{:x}", bits_of(after.flags))?;
    for (number, (old, new)) in before.regs.iter().zip(after.regs.iter()).enumerate() {
        if old != new {
            write!(text, " r{number}={new:x}")?;
        }
    }
    Ok(())
}

/// The cells that have another value than before.
fn write_cells(text: &mut String, before: &Window, after: &Window) -> Result<(), AllocError> {
    for number in 0..8 {
        let (old, new) = (before.cell(number), after.cell(number));
        if old != new {
            write!(text, " m{number}={new:x}")?;
        }
    }
    Ok(())
}

/// The end of the line, with the address of the next instruction where it is not the one behind.
fn write_address(text: &mut String, behind: u64, reached: u64) -> Result<(), AllocError> {
    if reached == behind {
        writeln!(text)
    } else {
        writeln!(text, " at={reached:x}")
    }
}
