ghost use Rattle.std.specs.Prelude.{◌≡◌, drop};
ghost use Rattle.x64_decode.specs.Meaning.{immediate_of, meaning, named};
ghost use Rattle.x64_syntax.specs.Operands.{is_in_memory};
ghost use Rattle.x64_decode.specs.Operands.{full_number, operand_at, whole_number};

use crate::bytes::{byte_or, bytes_from};
use crate::numbers::{eight_bytes, extend_byte, extend_long, four_bytes, two_bytes};
use crate::row::{Front, Name, Place, Row};
use x64_syntax::{Cond, Instr, Operand, Reg, Width};

impl Row {
    /// The instruction that the row means behind a front, with what stands after its code.
    #[tactic(auto, unfolding(crate::specs::Meaning::meaning))]
    pub fn meaning(&self, front: &Front, rest: &[u8]) -> Instr
        ensures { result ≡ meaning front.now self.now rest.now }
    {
        self.name.named(
            front.width_of(self.size),
            self.operand_at(front, rest, self.to),
            self.operand_at(front, rest, self.from),
            self.operand_at(front, rest, self.by),
            front.lock,
        )
    }

    fn operand_at(&self, front: &Front, rest: &[u8], place: Place) -> Operand
        ensures { result ≡ operand_at front.now self.now rest.now place }
    {
        match place {
            Place::Absent => Operand::Imm(0),
            Place::Rm(size) | Place::Memory(size) => front.rm_operand(size, rest),
            Place::Reg(size) => {
                let number = byte_or(rest, 0, 0) / 8 % 8 + 8 * front.rex_bit(Front::R);
                Operand::Reg(front.register(size, number))
            }
            Place::Low(size) => {
                let number = self.code.low_bits() + 8 * front.rex_bit(Front::B);
                Operand::Reg(front.register(size, number))
            }
            Place::Accumulator(_) => Operand::Reg(Reg {
                number: 0,
                high: false,
            }),
            Place::Count => Operand::Reg(Reg {
                number: 1,
                high: false,
            }),
            Place::One => Operand::Imm(1),
            Place::Short => {
                let byte = byte_or(rest, self.operand_size(rest), 0);
                Operand::Imm(extend_byte(byte, front.width_of(self.size)))
            }
            Place::Unsigned => Operand::Imm(u64::from(byte_or(rest, self.operand_size(rest), 0))),
            Place::Full => {
                let bytes = bytes_from(rest, self.operand_size(rest));
                Operand::Imm(full_number(front.width_of(self.size), bytes))
            }
            Place::Whole => {
                let bytes = bytes_from(rest, self.operand_size(rest));
                Operand::Imm(whole_number(front.width_of(self.size), bytes))
            }
        }
    }
}

fn full_number(width: Width, bytes: &[u8]) -> u64
    ensures { result ≡ full_number width bytes.now }
{
    match width {
        Width::Word => u64::from(two_bytes(bytes)),
        Width::Byte | Width::Long | Width::Quad => extend_long(four_bytes(bytes), width),
    }
}

fn whole_number(width: Width, bytes: &[u8]) -> u64
    ensures { result ≡ whole_number width bytes.now }
{
    match width {
        Width::Byte => u64::from(byte_or(bytes, 0, 0)),
        Width::Word => u64::from(two_bytes(bytes)),
        Width::Long => u64::from(four_bytes(bytes)),
        Width::Quad => eight_bytes(bytes),
    }
}

fn immediate_of(operand: Operand) -> u64
    ensures { result ≡ immediate_of operand }
{
    match operand {
        Operand::Imm(number) => number,
        Operand::Reg(_) | Operand::Mem(_) => 0,
    }
}

fn is_in_memory(operand: Operand) -> bool
    ensures { result ≡ is_in_memory operand }
{
    matches!(operand, Operand::Mem(_))
}

impl Name {
    /// The instruction of this name; an exchange with memory is locked also without F0.
    fn named(self, width: Width, to: Operand, from: Operand, by: Operand, locked: bool) -> Instr
        ensures { result ≡ named self width to from by locked }
    {
        match self {
            Name::Alu(op) => Instr::Alu(op, width, to, from, locked),
            Name::Test => Instr::Test(width, to, from),
            Name::Xchg => Instr::Xchg(width, to, from, locked || is_in_memory(to)),
            Name::Mov => Instr::Mov(width, to, from),
            Name::Lea => Instr::Lea(width, to, from),
            Name::MovZx(source) => Instr::MovZx(width, source, to, from),
            Name::MovSx(source) => Instr::MovSx(width, source, to, from),
            Name::MovSxd => Instr::MovSxd(to, from),
            Name::Push => Instr::Push(to),
            Name::Pop => Instr::Pop(to),
            Name::Leave => Instr::Leave,
            Name::Ret => Instr::Ret,
            Name::Call => Instr::Call(immediate_of(to)),
            Name::Jmp => Instr::Jmp(immediate_of(to)),
            Name::CallInd => Instr::CallInd(to),
            Name::JmpInd => Instr::JmpInd(to),
            Name::Jcc(code) => Instr::Jcc(Cond { code }, immediate_of(to)),
            Name::SetCc(code) => Instr::SetCc(Cond { code }, to),
            Name::CmovCc(code) => Instr::CmovCc(Cond { code }, width, to, from),
            Name::Inc => Instr::Inc(width, to, locked),
            Name::Dec => Instr::Dec(width, to, locked),
            Name::Not => Instr::Not(width, to, locked),
            Name::Neg => Instr::Neg(width, to),
            Name::Mul => Instr::Mul(width, to),
            Name::ImulOne => Instr::ImulOne(width, to),
            Name::Div => Instr::Div(width, to),
            Name::Idiv => Instr::Idiv(width, to),
            Name::ImulTwo => Instr::ImulTwo(width, to, from),
            Name::ImulThree => Instr::ImulThree(width, to, from, by),
            Name::Shift(op) => Instr::Shift(op, width, to, from),
            Name::Widen => Instr::Widen(width),
            Name::SignFill => Instr::SignFill(width),
            Name::Cmpxchg => Instr::Cmpxchg(width, to, from, locked),
            Name::Xadd => Instr::Xadd(width, to, from, locked),
            Name::Nop => Instr::Nop,
            Name::Pause => Instr::Pause,
            Name::Endbr => Instr::Endbr,
            Name::Mfence => Instr::Mfence,
            Name::Ud2 => Instr::Ud2,
        }
    }
}
