ghost use Rattle.std.specs.Prelude.{◌≡◌, ◌↔◌, IsTrue, false};
ghost use Rattle.x64_syntax.specs.declared.instr.AluOp.TheVariants as op;
ghost use Rattle.x64_syntax.specs.declared.instr.Instr.TheVariants as instr;
ghost use Rattle.jump_table.specs.Instructions.{register, IsAbove, compare, copy, Sets};
ghost use Rattle.jump_table.specs.Steps.{Finds, Compares, GoesThrough};

use x64_syntax::{AluOp, Instr, Mem, Operand, Width};

/// The code of the condition "above": neither carry nor zero.
const ABOVE: u8 = 7;

/// A comparison of a register with a number, both of this width.
#[derive(Clone, Copy)]
pub(crate) struct Compare {
    pub width: Width,
    pub register: u8,
    pub bound: u64,
}

/// The register that an operand is; none where it is a high byte or no register.
fn register_of(operand: Operand) -> Option<u8>
    ensures { Finds (λ number. operand ≡ register number) result }
{
    match operand {
        Operand::Reg(register) => {
            if register.high {
                None
            } else {
                Some(register.number)
            }
        }
        Operand::Mem(_) | Operand::Imm(_) => None,
    }
}

/// Whether an operand is this register.
fn is_register(operand: Operand, number: u8) -> bool
    ensures { IsTrue result ↔ (operand ≡ register number) }
{
    match operand {
        Operand::Reg(register) => register.number == number && !register.high,
        Operand::Mem(_) | Operand::Imm(_) => false,
    }
}

/// The number that an operand is.
fn number_of(operand: Operand) -> Option<u64>
    ensures { Finds (λ number. operand ≡ Operand.Imm number) result }
{
    match operand {
        Operand::Imm(number) => Some(number),
        Operand::Reg(_) | Operand::Mem(_) => None,
    }
}

/// The comparison of two operands, if a register is compared with a number.
fn compared(width: Width, to: Operand, from: Operand) -> Option<Compare>
    ensures { Finds (Compares (instr.Alu op.Cmp width to from false)) result }
{
    let register = register_of(to)?;
    let bound = number_of(from)?;
    Some(Compare {
        width,
        register,
        bound,
    })
}

/// What an instruction compares, if it compares a register with a number.
pub(crate) fn compare_of(instr: &Instr) -> Option<Compare>
    ensures { Finds (Compares instr.now) result }
{
    match *instr {
        Instr::Alu(AluOp::Cmp, width, to, from, false) => compared(width, to, from),
        _ => None,
    }
}

/// The number with which an instruction compares a 32-bit register, if it does.
pub(crate) fn bound_of(instr: &Instr, register: u8) -> Option<u64>
    ensures { Finds (λ number. instr.now ≡ compare Width.Long register number) result }
{
    let found = compare_of(instr)?;
    if found.width == Width::Long && found.register == register {
        Some(found.bound)
    } else {
        None
    }
}

/// Whether an instruction is `ja`.
pub(crate) fn is_above(instr: &Instr) -> bool
    ensures { IsTrue result ↔ IsAbove instr.now }
{
    match *instr {
        Instr::Jcc(condition, _) => condition.code == ABOVE,
        _ => false,
    }
}

/// The 32-bit register that a MOV, MOVZX, MOVSX, LEA, ADD, SUB or AND sets, if an instruction is
/// one of these.
pub(crate) fn set_by(instr: &Instr) -> Option<u8>
    ensures { Finds (λ number. Sets number instr.now) result }
{
    match *instr {
        Instr::Mov(Width::Long, to, _)
        | Instr::MovZx(Width::Long, _, to, _)
        | Instr::MovSx(Width::Long, _, to, _)
        | Instr::Lea(Width::Long, to, _)
        | Instr::Alu(AluOp::Add | AluOp::Sub | AluOp::And, Width::Long, to, _, _) => {
            register_of(to)
        }
        _ => None,
    }
}

/// The register that a move makes a copy of a register of this width, if it does; the copy is
/// extended by zeros.
pub(crate) fn copy_of(instr: &Instr, width: Width, from: u8) -> Option<u8>
    ensures { Finds (λ to. instr.now ≡ copy width to from) result }
{
    match *instr {
        Instr::Mov(Width::Long, to, source) => {
            if width == Width::Long && is_register(source, from) {
                register_of(to)
            } else {
                None
            }
        }
        Instr::MovZx(Width::Long, source_width, to, source) => {
            if width != Width::Long && source_width == width && is_register(source, from) {
                register_of(to)
            } else {
                None
            }
        }
        _ => None,
    }
}

/// The address of the table that `[index*8+offset]` is in, if an operand is that.
fn base_of(operand: &Mem, index: u8) -> Option<u64>
    ensures { Finds (GoesThrough (instr.JmpInd (Operand.Mem operand.now)) index) result }
{
    match *operand {
        Mem {
            base: None,
            index: Some(number),
            scale: 8,
            offset,
            rip: false,
        } => {
            if number == index {
                Some(offset.cast_unsigned())
            } else {
                None
            }
        }
        _ => None,
    }
}

/// The address of the table through which an instruction jumps by this index, if it does.
pub(crate) fn jump_of(instr: &Instr, index: u8) -> Option<u64>
    ensures { Finds (GoesThrough instr.now index) result }
{
    match *instr {
        Instr::JmpInd(Operand::Mem(operand)) => base_of(&operand, index),
        _ => None,
    }
}
