ghost use Rattle.std.specs.Prelude.{◌≡◌};
ghost use Rattle.x64_decode.specs.Table.{table};

use crate::row::{Before, Code, Lock, Name, Place, Row, Size};
use x64_syntax::{AluOp, ShiftOp, Width};

/// The opcode table, for the decoder to walk.
#[tactic(auto, unfolding(crate::specs::Table::table))]
pub fn rows() -> &'static [Row]
    ensures { result.now ≡ table }
{
    &ROWS
}

const EB: Place = Place::Rm(Size::Byte);

const EV: Place = Place::Rm(Size::Operand);

const E16: Place = Place::Rm(Size::Word);

const E32: Place = Place::Rm(Size::Long);

const E64: Place = Place::Rm(Size::Quad);

const GB: Place = Place::Reg(Size::Byte);

const GV: Place = Place::Reg(Size::Operand);

const G64: Place = Place::Reg(Size::Quad);

const AL: Place = Place::Accumulator(Size::Byte);

const RAX: Place = Place::Accumulator(Size::Operand);

const NO: Place = Place::Absent;

// One row: the code's bytes, the number in ModRM's reg field or `_`, the width, the operands, the
// name, the lock, and what may stand before.
macro_rules! row {
    ([$($byte:expr),*] $digit:tt $size:ident $to:expr, $from:expr, $by:expr; $name:expr, $lock:ident $before:ident) => {
        Row {
            code: code!($($byte),*),
            digit: digit!($digit),
            size: Size::$size,
            to: $to,
            from: $from,
            by: $by,
            name: $name,
            lock: Lock::$lock,
            before: Before::$before,
        }
    };
}

macro_rules! code {
    ($a:expr) => {
        Code::One($a)
    };
    ($a:expr, $b:expr) => {
        Code::Two($a, $b)
    };
    ($a:expr, $b:expr, $c:expr) => {
        Code::Three($a, $b, $c)
    };
    ($a:expr, $b:expr, $c:expr, $d:expr) => {
        Code::Four($a, $b, $c, $d)
    };
}

macro_rules! digit {
    (_) => {
        None
    };
    ($digit:expr) => {
        Some($digit)
    };
}

// The whole table. The groups are, in turn: the operations by their digit, with their lock; the shifts
// by their digit; the registers in an opcode; those that an exchange with the accumulator has; the
// conditions.
macro_rules! table {
    (
        operations { $($k:literal $op:ident $lock:ident)* }
        shifts { $($d:literal $turn:ident)* }
        registers { $($r:literal)* }
        exchanges { $($x:literal)* }
        conditions { $($c:literal)* }
        others { $($other:expr),* $(,)? }
    ) => {
        [
            $(
                row!([8 * $k] _ Byte EB, GB, NO; Name::Alu(AluOp::$op), $lock Anything),
                row!([8 * $k + 1] _ Operand EV, GV, NO; Name::Alu(AluOp::$op), $lock Anything),
                row!([8 * $k + 2] _ Byte GB, EB, NO; Name::Alu(AluOp::$op), Never Anything),
                row!([8 * $k + 3] _ Operand GV, EV, NO; Name::Alu(AluOp::$op), Never Anything),
                row!([8 * $k + 4] _ Byte AL, Place::Short, NO; Name::Alu(AluOp::$op), Never Anything),
                row!([8 * $k + 5] _ Operand RAX, Place::Full, NO; Name::Alu(AluOp::$op), Never Anything),
                row!([0x80] $k Byte EB, Place::Short, NO; Name::Alu(AluOp::$op), $lock Anything),
                row!([0x81] $k Operand EV, Place::Full, NO; Name::Alu(AluOp::$op), $lock Anything),
                row!([0x83] $k Operand EV, Place::Short, NO; Name::Alu(AluOp::$op), $lock Anything),
            )*
            $(
                row!([0xC0] $d Byte EB, Place::Unsigned, NO; Name::Shift(ShiftOp::$turn), Never Anything),
                row!([0xC1] $d Operand EV, Place::Unsigned, NO; Name::Shift(ShiftOp::$turn), Never Anything),
                row!([0xD0] $d Byte EB, Place::One, NO; Name::Shift(ShiftOp::$turn), Never Anything),
                row!([0xD1] $d Operand EV, Place::One, NO; Name::Shift(ShiftOp::$turn), Never Anything),
                row!([0xD2] $d Byte EB, Place::Count, NO; Name::Shift(ShiftOp::$turn), Never Anything),
                row!([0xD3] $d Operand EV, Place::Count, NO; Name::Shift(ShiftOp::$turn), Never Anything),
            )*
            $(
                row!([0x50 + $r] _ Quad Place::Low(Size::Quad), NO, NO; Name::Push, Never NoWord),
                row!([0x58 + $r] _ Quad Place::Low(Size::Quad), NO, NO; Name::Pop, Never NoWord),
                row!([0xB0 + $r] _ Byte Place::Low(Size::Byte), Place::Short, NO; Name::Mov, Never Anything),
                row!([0xB8 + $r] _ Operand Place::Low(Size::Operand), Place::Whole, NO; Name::Mov, Never Anything),
            )*
            $(
                row!([0x90 + $x] _ Operand RAX, Place::Low(Size::Operand), NO; Name::Xchg, Never Anything),
            )*
            $(
                row!([0x70 + $c] _ Quad Place::Short, NO, NO; Name::Jcc($c), Never NoWord),
                row!([0x0F, 0x80 + $c] _ Quad Place::Full, NO, NO; Name::Jcc($c), Never NoWord),
                row!([0x0F, 0x90 + $c] _ Byte EB, NO, NO; Name::SetCc($c), Never Anything),
                row!([0x0F, 0x40 + $c] _ Operand GV, EV, NO; Name::CmovCc($c), Never Anything),
            )*
            $($other,)*
        ]
    };
}

static ROWS: [Row; 260] = table! {
    operations {
        0 Add WithMemory
        1 Or WithMemory
        2 Adc WithMemory
        3 Sbb WithMemory
        4 And WithMemory
        5 Sub WithMemory
        6 Xor WithMemory
        7 Cmp Never
    }
    shifts {
        0 Rol
        1 Ror
        4 Shl
        5 Shr
        7 Sar
    }
    registers { 0 1 2 3 4 5 6 7 }
    exchanges { 1 2 3 4 5 6 7 }
    conditions { 0 1 2 3 4 5 6 7 8 9 12 13 14 15 }
    others {
        row!([0x84] _ Byte EB, GB, NO; Name::Test, Never Anything),
        row!([0x85] _ Operand EV, GV, NO; Name::Test, Never Anything),
        row!([0xA8] _ Byte AL, Place::Short, NO; Name::Test, Never Anything),
        row!([0xA9] _ Operand RAX, Place::Full, NO; Name::Test, Never Anything),
        row!([0xF6] 0 Byte EB, Place::Short, NO; Name::Test, Never Anything),
        row!([0xF7] 0 Operand EV, Place::Full, NO; Name::Test, Never Anything),
        row!([0x86] _ Byte EB, GB, NO; Name::Xchg, WithMemory Anything),
        row!([0x87] _ Operand EV, GV, NO; Name::Xchg, WithMemory Anything),
        row!([0x90] _ Operand RAX, Place::Low(Size::Operand), NO; Name::Xchg, Never WithB),
        row!([0x88] _ Byte EB, GB, NO; Name::Mov, Never Anything),
        row!([0x89] _ Operand EV, GV, NO; Name::Mov, Never Anything),
        row!([0x8A] _ Byte GB, EB, NO; Name::Mov, Never Anything),
        row!([0x8B] _ Operand GV, EV, NO; Name::Mov, Never Anything),
        row!([0xC6] 0 Byte EB, Place::Short, NO; Name::Mov, Never Anything),
        row!([0xC7] 0 Operand EV, Place::Full, NO; Name::Mov, Never Anything),
        row!([0x8D] _ Operand GV, Place::Memory(Size::Operand), NO; Name::Lea, Never Anything),
        row!([0x0F, 0xB6] _ Operand GV, EB, NO; Name::MovZx(Width::Byte), Never Anything),
        row!([0x0F, 0xB7] _ Operand GV, E16, NO; Name::MovZx(Width::Word), Never Anything),
        row!([0x0F, 0xBE] _ Operand GV, EB, NO; Name::MovSx(Width::Byte), Never Anything),
        row!([0x0F, 0xBF] _ Operand GV, E16, NO; Name::MovSx(Width::Word), Never Anything),
        row!([0x63] _ Quad G64, E32, NO; Name::MovSxd, Never WithW),
        row!([0x68] _ Quad Place::Full, NO, NO; Name::Push, Never NoWord),
        row!([0x6A] _ Quad Place::Short, NO, NO; Name::Push, Never NoWord),
        row!([0xFF] 6 Quad E64, NO, NO; Name::Push, Never NoWord),
        row!([0x8F] 0 Quad E64, NO, NO; Name::Pop, Never NoWord),
        row!([0xC9] _ Quad NO, NO, NO; Name::Leave, Never NoWord),
        row!([0xC3] _ Quad NO, NO, NO; Name::Ret, Never NoWord),
        row!([0xE8] _ Quad Place::Full, NO, NO; Name::Call, Never NoWord),
        row!([0xE9] _ Quad Place::Full, NO, NO; Name::Jmp, Never NoWord),
        row!([0xEB] _ Quad Place::Short, NO, NO; Name::Jmp, Never NoWord),
        row!([0xFF] 2 Quad E64, NO, NO; Name::CallInd, Never NoWord),
        row!([0xFF] 4 Quad E64, NO, NO; Name::JmpInd, Never NoWord),
        row!([0xFE] 0 Byte EB, NO, NO; Name::Inc, WithMemory Anything),
        row!([0xFF] 0 Operand EV, NO, NO; Name::Inc, WithMemory Anything),
        row!([0xFE] 1 Byte EB, NO, NO; Name::Dec, WithMemory Anything),
        row!([0xFF] 1 Operand EV, NO, NO; Name::Dec, WithMemory Anything),
        row!([0xF6] 2 Byte EB, NO, NO; Name::Not, WithMemory Anything),
        row!([0xF7] 2 Operand EV, NO, NO; Name::Not, WithMemory Anything),
        row!([0xF6] 3 Byte EB, NO, NO; Name::Neg, Never Anything),
        row!([0xF7] 3 Operand EV, NO, NO; Name::Neg, Never Anything),
        row!([0xF6] 4 Byte EB, NO, NO; Name::Mul, Never Anything),
        row!([0xF7] 4 Operand EV, NO, NO; Name::Mul, Never Anything),
        row!([0xF6] 5 Byte EB, NO, NO; Name::ImulOne, Never Anything),
        row!([0xF7] 5 Operand EV, NO, NO; Name::ImulOne, Never Anything),
        row!([0xF6] 6 Byte EB, NO, NO; Name::Div, Never Anything),
        row!([0xF7] 6 Operand EV, NO, NO; Name::Div, Never WithoutW),
        row!([0xF6] 7 Byte EB, NO, NO; Name::Idiv, Never Anything),
        row!([0xF7] 7 Operand EV, NO, NO; Name::Idiv, Never WithoutW),
        row!([0x0F, 0xAF] _ Operand GV, EV, NO; Name::ImulTwo, Never Anything),
        row!([0x69] _ Operand GV, EV, Place::Full; Name::ImulThree, Never Anything),
        row!([0x6B] _ Operand GV, EV, Place::Short; Name::ImulThree, Never Anything),
        row!([0x98] _ Operand NO, NO, NO; Name::Widen, Never Anything),
        row!([0x99] _ Operand NO, NO, NO; Name::SignFill, Never Anything),
        row!([0x0F, 0xB0] _ Byte Place::Memory(Size::Byte), GB, NO; Name::Cmpxchg, AlwaysWithMemory Anything),
        row!([0x0F, 0xB1] _ Operand Place::Memory(Size::Operand), GV, NO; Name::Cmpxchg, AlwaysWithMemory Anything),
        row!([0x0F, 0xC0] _ Byte EB, GB, NO; Name::Xadd, AlwaysWithMemory Anything),
        row!([0x0F, 0xC1] _ Operand EV, GV, NO; Name::Xadd, AlwaysWithMemory Anything),
        row!([0x90] _ Operand NO, NO, NO; Name::Nop, Never WithoutB),
        row!([0x0F, 0x1F] 0 Operand EV, NO, NO; Name::Nop, Never Anything),
        row!([0xF3, 0x90] _ Operand NO, NO, NO; Name::Pause, Never Nothing),
        row!([0xF3, 0x0F, 0x1E, 0xFA] _ Operand NO, NO, NO; Name::Endbr, Never Nothing),
        row!([0x0F, 0xAE, 0xF0] _ Operand NO, NO, NO; Name::Mfence, Never Nothing),
        row!([0x0F, 0x0B] _ Operand NO, NO, NO; Name::Ud2, Never Nothing),
    }
};
