ghost use Rattle.std.specs.Prelude.{◌≡◌, length, slice_get, ◌∷◌, []};
ghost use Rattle.x64_syntax.specs.Slots.{alu_slots, change_slots, combine_slots, compare_slots, indirect_slots, jump_slots, move_slots, pop_slots, push_slots, read_slots, slots, write_slots, listed, IsReadThenWrite};

use crate::{AluOp, Flow, Instr, Mem, Operand, Slot, SlotKind};

/// Where an instruction's access is: at its memory operand, or on the stack without being named, as
/// of PUSH, POP, CALL, RET and LEAVE.
#[derive(Clone, Copy, PartialEq, Eq)]
pub enum SlotPlace {
    Operand(Mem),
    Stack,
}

/// An access of an instruction: what it does, and where.
#[derive(Clone, Copy, PartialEq, Eq)]
pub struct InstrSlot {
    pub kind: SlotKind,
    pub place: SlotPlace,
}

impl InstrSlot {
    /// The slot of the instruction at an address.
    pub fn at(self, address: u64) -> Slot
        ensures { result ≡ record { address = address; kind = self.kind } }
    {
        Slot {
            address,
            kind: self.kind,
        }
    }
}

/// The accesses of one instruction, in order: at most two, and of two a read and then a write.
#[derive(Clone, Copy, PartialEq, Eq)]
pub enum InstrSlots {
    Empty,
    One(InstrSlot),
    Two(InstrSlot, InstrSlot),
}

impl InstrSlots {
    /// How many accesses there are, 0 to 2.
    pub fn count(&self) -> usize
        ensures { result ≡ length (listed self.now) }
    {
        match self {
            InstrSlots::Empty => 0,
            InstrSlots::One(_) => 1,
            InstrSlots::Two(_, _) => 2,
        }
    }

    /// The access with this number, counted from 0.
    pub fn get(&self, index: usize) -> Option<InstrSlot>
        ensures { result ≡ slice_get (listed self.now) index }
    {
        match (index, *self) {
            (0, InstrSlots::One(first) | InstrSlots::Two(first, _)) => Some(first),
            (1, InstrSlots::Two(_, second)) => Some(second),
            _ => None,
        }
    }
}

/// The accesses that an instruction makes under this flow. It takes no memory.
///
/// A locked pair is one access. A jump to a listed function pops a return address, and a jump through
/// a table of addresses makes no access.
pub fn slots_of(instr: &Instr, flow: Flow) -> InstrSlots
    ensures exact { listed result ≡ slots instr.now flow }
    ensures ordered { IsReadThenWrite result }
{
    match *instr {
        Instr::Alu(op, _, to, from, locked) => alu(op, locked, to, from),
        Instr::Test(_, to, from) => compared(to, from),
        Instr::Mov(_, to, from) => moved(to, from),
        Instr::Xchg(_, to, from, locked)
        | Instr::Cmpxchg(_, to, from, locked)
        | Instr::Xadd(_, to, from, locked) => combined(locked, to, from),
        Instr::MovZx(_, _, _, from)
        | Instr::MovSx(_, _, _, from)
        | Instr::MovSxd(_, from)
        | Instr::CmovCc(_, _, _, from)
        | Instr::ImulTwo(_, _, from)
        | Instr::ImulThree(_, _, from, _)
        | Instr::Mul(_, from)
        | Instr::ImulOne(_, from)
        | Instr::Div(_, from)
        | Instr::Idiv(_, from) => read(from),
        Instr::Inc(_, to, locked) | Instr::Dec(_, to, locked) | Instr::Not(_, to, locked) => {
            changed(locked, to)
        }
        Instr::Neg(_, to) | Instr::Shift(_, _, to, _) => changed(false, to),
        Instr::SetCc(_, to) => written(to),
        Instr::Push(from) | Instr::CallInd(from) => pushed(from),
        Instr::Pop(to) => popped(to),
        Instr::Leave | Instr::Ret => InstrSlots::One(POPPED),
        Instr::Call(_) => InstrSlots::One(PUSHED),
        Instr::Jmp(_) => jumped(flow),
        Instr::JmpInd(to) => jumped_to(flow, to),
        Instr::Lea(_, _, _)
        | Instr::Jcc(_, _)
        | Instr::Widen(_)
        | Instr::SignFill(_)
        | Instr::Nop
        | Instr::Pause
        | Instr::Endbr
        | Instr::Mfence
        | Instr::Ud2 => InstrSlots::Empty,
    }
}

const PUSHED: InstrSlot = InstrSlot {
    kind: SlotKind::Write,
    place: SlotPlace::Stack,
};

const POPPED: InstrSlot = InstrSlot {
    kind: SlotKind::Read,
    place: SlotPlace::Stack,
};

fn on(kind: SlotKind, operand: Mem) -> InstrSlot
    ensures { result ≡ record { kind = kind; place = SlotPlace.Operand operand } }
{
    InstrSlot {
        kind,
        place: SlotPlace::Operand(operand),
    }
}

fn read(from: Operand) -> InstrSlots
    ensures exact { listed result ≡ read_slots from }
    ensures ordered { IsReadThenWrite result }
{
    match from {
        Operand::Mem(operand) => InstrSlots::One(on(SlotKind::Read, operand)),
        Operand::Reg(_) | Operand::Imm(_) => InstrSlots::Empty,
    }
}

fn written(to: Operand) -> InstrSlots
    ensures exact { listed result ≡ write_slots to }
    ensures ordered { IsReadThenWrite result }
{
    match to {
        Operand::Mem(operand) => InstrSlots::One(on(SlotKind::Write, operand)),
        Operand::Reg(_) | Operand::Imm(_) => InstrSlots::Empty,
    }
}

fn changed(locked: bool, to: Operand) -> InstrSlots
    ensures exact { listed result ≡ change_slots locked to }
    ensures ordered { IsReadThenWrite result }
{
    match to {
        Operand::Mem(operand) if locked => InstrSlots::One(on(SlotKind::Locked, operand)),
        Operand::Mem(operand) => {
            InstrSlots::Two(on(SlotKind::Read, operand), on(SlotKind::Write, operand))
        }
        Operand::Reg(_) | Operand::Imm(_) => InstrSlots::Empty,
    }
}

fn compared(to: Operand, from: Operand) -> InstrSlots
    ensures exact { listed result ≡ compare_slots to from }
    ensures ordered { IsReadThenWrite result }
{
    match to {
        Operand::Mem(_) => read(to),
        Operand::Reg(_) | Operand::Imm(_) => read(from),
    }
}

fn moved(to: Operand, from: Operand) -> InstrSlots
    ensures exact { listed result ≡ move_slots to from }
    ensures ordered { IsReadThenWrite result }
{
    match to {
        Operand::Mem(_) => written(to),
        Operand::Reg(_) | Operand::Imm(_) => read(from),
    }
}

fn combined(locked: bool, to: Operand, from: Operand) -> InstrSlots
    ensures exact { listed result ≡ combine_slots locked to from }
    ensures ordered { IsReadThenWrite result }
{
    match to {
        Operand::Mem(_) => changed(locked, to),
        Operand::Reg(_) | Operand::Imm(_) => read(from),
    }
}

fn alu(op: AluOp, locked: bool, to: Operand, from: Operand) -> InstrSlots
    ensures exact { listed result ≡ alu_slots op locked to from }
    ensures ordered { IsReadThenWrite result }
{
    match op {
        AluOp::Cmp => compared(to, from),
        AluOp::Add | AluOp::Or | AluOp::Adc | AluOp::Sbb | AluOp::And | AluOp::Sub | AluOp::Xor =>
            combined(locked, to, from),
    }
}

fn pushed(from: Operand) -> InstrSlots
    ensures exact { listed result ≡ push_slots from }
    ensures ordered { IsReadThenWrite result }
{
    match from {
        Operand::Mem(operand) => InstrSlots::Two(on(SlotKind::Read, operand), PUSHED),
        Operand::Reg(_) | Operand::Imm(_) => InstrSlots::One(PUSHED),
    }
}

fn popped(to: Operand) -> InstrSlots
    ensures exact { listed result ≡ pop_slots to }
    ensures ordered { IsReadThenWrite result }
{
    match to {
        Operand::Mem(operand) => InstrSlots::Two(POPPED, on(SlotKind::Write, operand)),
        Operand::Reg(_) | Operand::Imm(_) => InstrSlots::One(POPPED),
    }
}

fn jumped(flow: Flow) -> InstrSlots
    ensures exact { listed result ≡ jump_slots flow }
    ensures ordered { IsReadThenWrite result }
{
    match flow {
        Flow::ListedIn | Flow::ListedOut => InstrSlots::One(POPPED),
        Flow::Plain | Flow::TableJump => InstrSlots::Empty,
    }
}

fn jumped_to(flow: Flow, to: Operand) -> InstrSlots
    ensures exact { listed result ≡ indirect_slots flow to }
    ensures ordered { IsReadThenWrite result }
{
    match flow {
        Flow::TableJump => InstrSlots::Empty,
        Flow::Plain | Flow::ListedIn | Flow::ListedOut => read(to),
    }
}
