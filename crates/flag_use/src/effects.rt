ghost use Rattle.std.specs.Prelude.{◌≡◌};
ghost use Rattle.alu_width.specs.Effects.{leaves_undefined, shift_effects, turn_effects};
ghost use Rattle.alu_width.specs.Masked.{masked};
ghost use Rattle.x64_syntax.specs.Operands.{bits};
ghost use Rattle.flag_use.specs.Instructions.{by_number, by_cl, by_count, effects_of, effect_on};
ghost use Rattle.flag_use.specs.Effects.{effect_told, effects_told};

use self::Effect::{Defined, Kept, Undefined};
use crate::flag::Flag;
use alu_width::Shift;
use x64_syntax::{Instr, Operand, ShiftOp, Width};

/// What an instruction does to a flag: it stays as it was, is set by the result, or is left
/// undefined.
#[derive(Clone, Copy)]
pub(crate) enum Effect {
    Kept,
    Defined,
    Undefined,
}

/// What an instruction does to the four flags.
#[derive(Clone, Copy)]
pub(crate) struct Effects {
    pub cf: Effect,
    pub zf: Effect,
    pub sf: Effect,
    pub of: Effect,
}

/// A row of the table of effects.
fn row(cf: Effect, zf: Effect, sf: Effect, of: Effect) -> Effects
    ensures { result ≡ record { cf = cf; zf = zf; sf = sf; of = of } }
{
    Effects { cf, zf, sf, of }
}

impl Effects {
    /// What becomes of one flag.
    fn on(&self, flag: Flag) -> Effect
        ensures { effect_told result ≡ effect_on flag (effects_told self.now) }
    {
        match flag {
            Flag::Cf => self.cf,
            Flag::Zf => self.zf,
            Flag::Sf => self.sf,
            Flag::Of => self.of,
        }
    }

    /// Whether a flag is undefined behind the instruction, from whether it was before.
    pub(crate) fn leave_undefined(&self, flag: Flag, was: bool) -> bool
        ensures { result ≡ leaves_undefined (effect_on flag (effects_told self.now)) was }
    {
        match self.on(flag) {
            Kept => was,
            Defined => false,
            Undefined => true,
        }
    }
}

/// How many bits a width has.
fn bits(width: Width) -> u64
    ensures { result ≡ bits width }
{
    match width {
        Width::Byte => 8,
        Width::Word => 16,
        Width::Long => 32,
        Width::Quad => 64,
    }
}

/// The low bits of a count: 6 for operands of 64 bits, and else 5.
fn masked(bits: u64, count: u64) -> u64
    ensures { result ≡ masked bits count }
{
    count % if bits == 64 { 64 } else { 32 }
}

/// What a rotate by a masked count does.
fn rotate(count: u64) -> Effects
    ensures { effects_told result ≡ turn_effects count }
{
    match count {
        0 => row(Kept, Kept, Kept, Kept),
        1 => row(Defined, Kept, Kept, Defined),
        _ => row(Defined, Kept, Kept, Undefined),
    }
}

/// What a shift of operands of so many bits by a masked count does.
fn shift(op: Shift, bits: u64, count: u64) -> Effects
    ensures { effects_told result ≡ shift_effects op bits count }
{
    match count {
        0 => row(Kept, Kept, Kept, Kept),
        1 => row(Defined, Defined, Defined, Defined),
        _ if op == Shift::Sar || count < bits => row(Defined, Defined, Defined, Undefined),
        _ => row(Undefined, Defined, Defined, Undefined),
    }
}

/// What a shift or a rotate of operands of so many bits by a masked count does.
fn by_number(op: ShiftOp, bits: u64, count: u64) -> Effects
    ensures { effects_told result ≡ by_number op bits count }
{
    match op {
        ShiftOp::Rol | ShiftOp::Ror => rotate(count),
        ShiftOp::Shl => shift(Shift::Shl, bits, count),
        ShiftOp::Shr => shift(Shift::Shr, bits, count),
        ShiftOp::Sar => shift(Shift::Sar, bits, count),
    }
}

/// What a shift or a rotate of operands of so many bits by CL does.
fn by_cl(op: ShiftOp, bits: u64) -> Effects
    ensures { effects_told result ≡ by_cl op bits }
{
    match op {
        ShiftOp::Shl | ShiftOp::Shr if bits < 32 => row(Undefined, Kept, Kept, Undefined),
        _ => row(Kept, Kept, Kept, Undefined),
    }
}

/// What a shift or a rotate of operands of so many bits does, by a number or by CL.
fn by_count(op: ShiftOp, bits: u64, count: &Operand) -> Effects
    ensures { effects_told result ≡ by_count op bits count.now }
{
    match *count {
        Operand::Imm(number) => by_number(op, bits, masked(bits, number)),
        Operand::Reg(_) | Operand::Mem(_) => by_cl(op, bits),
    }
}

/// What an instruction does to the four flags (Intel SDM volume 2, "Flags Affected" of each
/// instruction).
pub(crate) fn effects_of(instr: &Instr) -> Effects
    ensures { effects_told result ≡ effects_of instr.now }
{
    match *instr {
        Instr::Alu(_, _, _, _, _)
        | Instr::Test(_, _, _)
        | Instr::Neg(_, _)
        | Instr::Cmpxchg(_, _, _, _)
        | Instr::Xadd(_, _, _, _) => row(Defined, Defined, Defined, Defined),
        Instr::Inc(_, _, _) | Instr::Dec(_, _, _) => row(Kept, Defined, Defined, Defined),
        Instr::Mul(_, _)
        | Instr::ImulOne(_, _)
        | Instr::ImulTwo(_, _, _)
        | Instr::ImulThree(_, _, _, _) => row(Defined, Undefined, Undefined, Defined),
        Instr::Div(_, _) | Instr::Idiv(_, _) => row(Undefined, Undefined, Undefined, Undefined),
        Instr::Shift(op, width, _, ref count) => by_count(op, bits(width), count),
        Instr::Xchg(_, _, _, _)
        | Instr::Mov(_, _, _)
        | Instr::Lea(_, _, _)
        | Instr::MovZx(_, _, _, _)
        | Instr::MovSx(_, _, _, _)
        | Instr::MovSxd(_, _)
        | Instr::Push(_)
        | Instr::Pop(_)
        | Instr::Leave
        | Instr::Ret
        | Instr::Call(_)
        | Instr::Jmp(_)
        | Instr::CallInd(_)
        | Instr::JmpInd(_)
        | Instr::Jcc(_, _)
        | Instr::SetCc(_, _)
        | Instr::CmovCc(_, _, _, _)
        | Instr::Not(_, _, _)
        | Instr::Widen(_)
        | Instr::SignFill(_)
        | Instr::Nop
        | Instr::Pause
        | Instr::Endbr
        | Instr::Mfence
        | Instr::Ud2 => row(Kept, Kept, Kept, Kept),
    }
}
