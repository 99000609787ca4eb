ghost use Rattle.std.specs.Prelude.{◌≡◌, ◌↔◌, IsTrue};
ghost use Rattle.elf_read.specs.Elf.{IsProgram, parts_of};
ghost use Rattle.code_at.specs.Code.{IsToldAt, IsListed, program_of, listed_at, is_at, target_from, flow_of};
ghost use Rattle.code_at.specs.Kinds.{kind_of};

use crate::window::window_at;
use elf_read::{BadCodeKind, Elf};
use x64_decode::{DecodeFault, decode_one};
use x64_syntax::{Flow, Instr, Placed};

/// The listed call that begins at an address, that of inputs where both do; `Plain` where none does.
fn listed_at(elf: &Elf, address: u64) -> Flow
    ensures { result ≡ listed_at (program_of elf.now) address }
{
    if is_at(elf.input, address) {
        Flow::ListedIn
    } else if is_at(elf.output, address) {
        Flow::ListedOut
    } else {
        Flow::Plain
    }
}

/// Whether a listed call begins at the address.
fn is_listed(elf: &Elf, address: u64) -> bool
    ensures { IsTrue result ↔ IsListed (program_of elf.now) address }
{
    listed_at(elf, address) != Flow::Plain
}

/// Whether the address is given and is this one.
fn is_at(given: Option<u64>, address: u64) -> bool
    ensures { result ≡ is_at given address }
{
    match given {
        Some(there) => there == address,
        None => false,
    }
}

/// Where a displacement leads from the end of an instruction.
fn target_from(end: u64, displacement: u64) -> u64
    ensures { result ≡ target_from end displacement }
{
    end.wrapping_add(displacement)
}

/// How control goes on after an instruction that ends at this address.
fn flow_of(elf: &Elf, end: u64, instr: &Instr) -> Flow
    ensures { result ≡ flow_of (program_of elf.now) end instr.now }
{
    match *instr {
        Instr::Call(displacement) | Instr::Jmp(displacement) => {
            listed_at(elf, target_from(end, displacement))
        }
        Instr::Alu(_, _, _, _, _)
        | Instr::Test(_, _, _)
        | Instr::Xchg(_, _, _, _)
        | Instr::Mov(_, _, _)
        | Instr::Lea(_, _, _)
        | Instr::MovZx(_, _, _, _)
        | Instr::MovSx(_, _, _, _)
        | Instr::MovSxd(_, _)
        | Instr::Push(_)
        | Instr::Pop(_)
        | Instr::Leave
        | Instr::Ret
        | Instr::CallInd(_)
        | Instr::JmpInd(_)
        | Instr::Jcc(_, _)
        | Instr::SetCc(_, _)
        | Instr::CmovCc(_, _, _, _)
        | Instr::Inc(_, _, _)
        | Instr::Dec(_, _, _)
        | Instr::Not(_, _, _)
        | Instr::Neg(_, _)
        | Instr::Mul(_, _)
        | Instr::ImulOne(_, _)
        | Instr::Div(_, _)
        | Instr::Idiv(_, _)
        | Instr::ImulTwo(_, _, _)
        | Instr::ImulThree(_, _, _, _)
        | Instr::Shift(_, _, _, _)
        | Instr::Widen(_)
        | Instr::SignFill(_)
        | Instr::Cmpxchg(_, _, _, _)
        | Instr::Xadd(_, _, _, _)
        | Instr::Nop
        | Instr::Pause
        | Instr::Endbr
        | Instr::Mfence
        | Instr::Ud2 => Flow::Plain,
    }
}

/// The reason for which the decoder's fault stands.
fn kind_of(fault: DecodeFault) -> BadCodeKind
    ensures { result ≡ kind_of fault }
{
    match fault {
        DecodeFault::Cut => BadCodeKind::Cut,
        DecodeFault::Unknown => BadCodeKind::Unknown,
        DecodeFault::TooLong => BadCodeKind::TooLong,
    }
}

/// The instruction that stands at an address, or why none does. It takes no memory.
///
/// The listed calls are no code of the program. The bytes past the segment's memory are not looked at.
pub fn instruction_at(elf: &Elf, address: u64) -> Result<Placed, BadCodeKind>
    requires { IsProgram (parts_of elf.now) elf.now.threads }
    ensures { IsToldAt (program_of elf.now) address result }
{
    if is_listed(elf, address) {
        return Err(BadCodeKind::Listed);
    }
    let Some(window) = window_at(elf, address) else {
        return Err(BadCodeKind::Outside);
    };
    match decode_one(window.as_slice()) {
        Ok((instr, length)) => Ok(Placed {
            address,
            length,
            instr,
            flow: flow_of(elf, address + u64::from(length), &instr),
        }),
        Err(fault) => Err(kind_of(fault)),
    }
}
