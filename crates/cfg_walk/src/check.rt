ghost use Rattle.std.specs.Prelude.{◌≡◌, ◌≤◌, ◌<◌, ◌+◌, ◌-◌, length, map, IsTrue};
ghost use Rattle.elf_read.specs.FirstFault.{Looks};
ghost use Rattle.code_at.specs.Code.{Program};
ghost use Rattle.cfg_walk.specs.Code.{AreInstructions, IsIncreasing};
ghost use Rattle.cfg_walk.specs.Faults.{Holds, IsIndirect, IsOverlapping, is_indirect};
ghost use Rattle.cfg_walk.specs.Searching.{AreFound, address_of};
ghost use Rattle.cfg_walk.specs.Least.{IsLeast};

use elf_read::FileFault;
use x64_syntax::{Instr, Placed};

/// The instructions in the order of their addresses.
pub(crate) fn in_order(mut placed: Vec<Placed>) -> Vec<Placed>
    ensures are { (program : Program) → AreFound program placed.items → AreInstructions program result.items }
    ensures len { length result.items ≡ length placed.items }
{
    placed.sort_unstable_by_key(|p| p.address);
    placed
}

/// Whether an instruction is an indirect call or jump.
fn is_indirect(instr: &Instr) -> bool
    ensures { result ≡ is_indirect instr.now }
{
    match *instr {
        Instr::CallInd(_) | Instr::JmpInd(_) => true,
        Instr::Alu(_, _, _, _, _)
        | Instr::Test(_, _, _)
        | Instr::Xchg(_, _, _, _)
        | Instr::Mov(_, _, _)
        | Instr::Lea(_, _, _)
        | Instr::MovZx(_, _, _, _)
        | Instr::MovSx(_, _, _, _)
        | Instr::MovSxd(_, _)
        | Instr::Push(_)
        | Instr::Pop(_)
        | Instr::Leave
        | Instr::Ret
        | Instr::Call(_)
        | Instr::Jmp(_)
        | Instr::Jcc(_, _)
        | Instr::SetCc(_, _)
        | Instr::CmovCc(_, _, _, _)
        | Instr::Inc(_, _, _)
        | Instr::Dec(_, _, _)
        | Instr::Not(_, _, _)
        | Instr::Neg(_, _)
        | Instr::Mul(_, _)
        | Instr::ImulOne(_, _)
        | Instr::ImulTwo(_, _, _)
        | Instr::ImulThree(_, _, _, _)
        | Instr::Div(_, _)
        | Instr::Idiv(_, _)
        | Instr::Shift(_, _, _, _)
        | Instr::Cmpxchg(_, _, _, _)
        | Instr::Xadd(_, _, _, _)
        | Instr::Widen(_)
        | Instr::SignFill(_)
        | Instr::Nop
        | Instr::Pause
        | Instr::Endbr
        | Instr::Mfence
        | Instr::Ud2 => false,
    }
}

/// The least address of an indirect call or jump.
fn first_indirect(placed: &[Placed]) -> Option<u64>
    ensures { (program : Program) → AreInstructions program placed.now → IsLeast (IsIndirect program) result }
{
    for p in placed {
        if is_indirect(&p.instr) {
            return Some(p.address);
        }
    }
    None
}

/// The least address of an instruction that begins inside another one, of instructions in the order of their addresses.
///
/// It begins inside the one that stands before it: were another between the two, that one would begin inside too.
fn first_overlap(placed: &[Placed]) -> Option<u64>
    requires { IsIncreasing (map address_of placed.now) }
    ensures { (program : Program) → AreInstructions program placed.now → IsLeast (IsOverlapping program) result }
{
    for k in 1..placed.len() {
        if placed[k].address - placed[k - 1].address < u64::from(placed[k - 1].length) {
            return Some(placed[k].address);
        }
    }
    None
}

/// Refuses indirect calls and jumps, and instructions that overlap.
pub(crate) fn check(placed: &[Placed]) -> Result<(), FileFault>
    requires { IsIncreasing (map address_of placed.now) }
    ensures { (program : Program) → AreInstructions program placed.now → Looks (Holds program) 15 18 result }
{
    if let Some(address) = first_indirect(placed) {
        return Err(FileFault::Indirect(address));
    }
    match first_overlap(placed) {
        Some(address) => Err(FileFault::Overlap(address)),
        None => Ok(()),
    }
}
