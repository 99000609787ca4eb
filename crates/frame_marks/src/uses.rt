ghost use Rattle.std.specs.Prelude.{◌≡◌};
ghost use Rattle.std.specs.List.{list_any};
ghost use Rattle.x64_syntax.specs.Slots.{listed};
ghost use Rattle.frame_marks.specs.Operands.{operands, rsp, rbp, is_register, told, written};
ghost use Rattle.frame_marks.specs.Uses.{accesses_operand, addresses_frame, changes_pointer, exposes, exposes_framed, is_at_operand, is_endbr, is_leave, is_listed, is_loose, is_loose_framed, is_pop, keeps_frame, returns_to_frame, saves_pointer, sets_pointer};

use crate::operands::{
    Operands, RBP, RSP, is_memory_beside, is_number, is_register, names, operands_of, written_by,
};
use x64_syntax::{AluOp, Flow, Instr, InstrSlot, InstrSlots, Operand, SlotPlace, Width, slots_of};

/// Whether a slot is at a memory operand.
fn is_at_operand(slot: InstrSlot) -> bool
    ensures { result ≡ is_at_operand slot }
{
    match slot.place {
        SlotPlace::Operand(_) => true,
        SlotPlace::Stack => false,
    }
}

/// Whether some slot is at a memory operand.
fn some_at_operand(slots: InstrSlots) -> bool
    ensures { result ≡ list_any is_at_operand (listed slots) }
{
    match slots {
        InstrSlots::Empty => false,
        InstrSlots::One(one) => is_at_operand(one),
        InstrSlots::Two(first, second) => is_at_operand(first) || is_at_operand(second),
    }
}

/// Whether an instruction accesses its memory operand.
fn accesses_operand(instr: &Instr, flow: Flow) -> bool
    ensures { result ≡ accesses_operand instr.now flow }
{
    some_at_operand(slots_of(instr, flow))
}

/// Whether an operand is the address of a frame access.
fn addresses_frame(framed: bool, instr: &Instr, flow: Flow, operand: Operand) -> bool
    ensures { result ≡ addresses_frame framed instr.now flow operand }
{
    accesses_operand(instr, flow)
        && (is_memory_beside(RSP, operand) || framed && is_memory_beside(RBP, operand))
}

/// Whether the instruction is `add rsp, number`, `sub rsp, number` or `pop rbp`.
fn keeps_frame(instr: &Instr) -> bool
    ensures { result ≡ keeps_frame instr.now }
{
    match *instr {
        Instr::Alu(AluOp::Add | AluOp::Sub, Width::Quad, to, from, _) => {
            is_register(RSP, to) && is_number(from)
        }
        Instr::Pop(to) => is_register(RBP, to),
        _ => false,
    }
}

/// Whether the instruction is `mov rsp, rbp` or `lea rsp, [rbp+c]`.
fn returns_to_frame(instr: &Instr) -> bool
    ensures { result ≡ returns_to_frame instr.now }
{
    match *instr {
        Instr::Mov(Width::Quad, to, from) => is_register(RSP, to) && is_register(RBP, from),
        Instr::Lea(Width::Quad, to, from) => is_register(RSP, to) && is_memory_beside(RBP, from),
        _ => false,
    }
}

/// Whether the instruction's use of rsp or rbp by an operand is listed.
fn is_listed(framed: bool, instr: &Instr, flow: Flow, operand: Operand) -> bool
    ensures { result ≡ is_listed framed instr.now flow operand }
{
    addresses_frame(framed, instr, flow, operand)
        || keeps_frame(instr)
        || framed && returns_to_frame(instr)
}

/// Whether an operand uses rsp, in a function without a frame pointer, in a way that is not listed.
fn is_loose(instr: &Instr, flow: Flow, operand: Operand) -> bool
    ensures { result ≡ is_loose instr.now flow operand }
{
    names(RSP, operand) && !is_listed(false, instr, flow, operand)
}

/// Whether an operand uses rsp or rbp, in a function with a frame pointer, in a way that is not
/// listed.
fn is_loose_framed(instr: &Instr, flow: Flow, operand: Operand) -> bool
    ensures { result ≡ is_loose_framed instr.now flow operand }
{
    (names(RSP, operand) || names(RBP, operand)) && !is_listed(true, instr, flow, operand)
}

/// Whether some operand of the instruction is loose, in a function without a frame pointer.
fn some_loose(instr: &Instr, flow: Flow) -> bool
    ensures { result ≡ list_any (is_loose instr.now flow) (operands instr.now) }
{
    match operands_of(instr) {
        Operands::Empty => false,
        Operands::One(a) => is_loose(instr, flow, a),
        Operands::Two(a, b) => is_loose(instr, flow, a) || is_loose(instr, flow, b),
        Operands::Three(a, b, c) => {
            is_loose(instr, flow, a) || is_loose(instr, flow, b) || is_loose(instr, flow, c)
        }
    }
}

/// Whether the instruction is LEAVE.
fn is_leave(instr: &Instr) -> bool
    ensures { result ≡ is_leave instr.now }
{
    matches!(instr, Instr::Leave)
}

/// Whether the instruction exposes the frame of a function without a frame pointer.
pub(crate) fn exposes(instr: &Instr, flow: Flow) -> bool
    ensures { result ≡ exposes instr.now flow }
{
    is_leave(instr) || some_loose(instr, flow)
}

/// Whether the instruction exposes the frame of a function with a frame pointer, unless it sets
/// the frame up.
pub(crate) fn exposes_framed(instr: &Instr, flow: Flow) -> bool
    ensures { result ≡ exposes_framed instr.now flow }
{
    match operands_of(instr) {
        Operands::Empty => false,
        Operands::One(a) => is_loose_framed(instr, flow, a),
        Operands::Two(a, b) => is_loose_framed(instr, flow, a) || is_loose_framed(instr, flow, b),
        Operands::Three(a, b, c) => {
            is_loose_framed(instr, flow, a)
                || is_loose_framed(instr, flow, b)
                || is_loose_framed(instr, flow, c)
        }
    }
}

/// Whether the instruction is `push rbp`.
pub(crate) fn saves_pointer(instr: &Instr) -> bool
    ensures { result ≡ saves_pointer instr.now }
{
    match *instr {
        Instr::Push(from) => is_register(RBP, from),
        _ => false,
    }
}

/// Whether the instruction is `mov rbp, rsp`.
pub(crate) fn sets_pointer(instr: &Instr) -> bool
    ensures { result ≡ sets_pointer instr.now }
{
    match *instr {
        Instr::Mov(Width::Quad, to, from) => is_register(RBP, to) && is_register(RSP, from),
        _ => false,
    }
}

/// Whether the instruction is ENDBR64.
pub(crate) fn is_endbr(instr: &Instr) -> bool
    ensures { result ≡ is_endbr instr.now }
{
    matches!(instr, Instr::Endbr)
}

/// Whether the instruction is POP.
fn is_pop(instr: &Instr) -> bool
    ensures { result ≡ is_pop instr.now }
{
    matches!(instr, Instr::Pop(_))
}

/// Whether some operand that the instruction writes is rbp.
fn writes_pointer(instr: &Instr) -> bool
    ensures { result ≡ list_any (is_register rbp) (written instr.now) }
{
    match written_by(instr) {
        Operands::Empty => false,
        Operands::One(a) => is_register(RBP, a),
        Operands::Two(a, b) => is_register(RBP, a) || is_register(RBP, b),
        Operands::Three(a, b, c) => {
            is_register(RBP, a) || is_register(RBP, b) || is_register(RBP, c)
        }
    }
}

/// Whether the instruction changes rbp otherwise than by LEAVE or POP RBP.
pub(crate) fn changes_pointer(instr: &Instr) -> bool
    ensures { result ≡ changes_pointer instr.now }
{
    !is_pop(instr) && writes_pointer(instr)
}
