ghost use Rattle.std.specs.Prelude.{◌≡◌};
ghost use Rattle.x64_syntax.specs.declared.instr.Instr.TheVariants as instructions;
ghost use Rattle.x64_syntax.specs.declared.placed.Flow.TheVariants as flows;

use crate::lift_instr;
use limm_ir::{IrOp, IrStep, Temp};
use std::test::Fail;
use x64_syntax::{Flow, Instr, Mem, Operand, Placed, Reg, ShiftOp, Width};

const RAX: Operand = Operand::Reg(Reg {
    number: 0,
    high: false,
});

const RCX: Operand = Operand::Reg(Reg {
    number: 1,
    high: false,
});

/// the count of shifts by a register
const CL: Operand = RCX;

const AH: Operand = Operand::Reg(Reg {
    number: 0,
    high: true,
});

/// [rdi]
const AT_RDI: Operand = Operand::Mem(Mem {
    base: Some(7),
    index: None,
    scale: 1,
    offset: 0,
    rip: false,
});

/// [rbx + rcx * 4 + 8]
const INDEXED: Operand = Operand::Mem(Mem {
    base: Some(3),
    index: Some(1),
    scale: 4,
    offset: 8,
    rip: false,
});

/// A shift or a rotate at 0x401000.
fn shifted(op: ShiftOp, width: Width, to: Operand, by: Operand) -> Placed
    ensures { result ≡ record { address = 0x401000; length = 3; instr = instructions.Shift op width to by; flow = flows.Plain } }
{
    Placed {
        address: 0x401000,
        length: 3,
        instr: Instr::Shift(op, width, to, by),
        flow: Flow::Plain,
    }
}

/// shl eax, 1
const SHL_BY_1: [IrStep; 23] = [
    IrStep::GetReg(Temp(0), 0),
    IrStep::Const(Temp(1), 4),
    IrStep::Op(IrOp::ZeroExt, Temp(2), Temp(0), Temp(1)),
    // the value
    IrStep::Const(Temp(3), 1),
    IrStep::Op(IrOp::Shl, Temp(4), Temp(2), Temp(3)),
    IrStep::Const(Temp(5), 4),
    IrStep::Op(IrOp::ZeroExt, Temp(6), Temp(4), Temp(5)),
    // OF: the sign changes
    IrStep::Op(IrOp::Xor, Temp(7), Temp(2), Temp(6)),
    IrStep::Const(Temp(8), 31),
    IrStep::Op(IrOp::Shr, Temp(9), Temp(7), Temp(8)),
    IrStep::SetFlag(3, Temp(9)),
    // ZF
    IrStep::Const(Temp(10), 0),
    IrStep::Op(IrOp::Eq, Temp(11), Temp(6), Temp(10)),
    IrStep::SetFlag(1, Temp(11)),
    // SF
    IrStep::Const(Temp(12), 31),
    IrStep::Op(IrOp::Shr, Temp(13), Temp(6), Temp(12)),
    IrStep::SetFlag(2, Temp(13)),
    // CF: bit 31
    IrStep::Const(Temp(14), 31),
    IrStep::Op(IrOp::Shr, Temp(15), Temp(2), Temp(14)),
    IrStep::Const(Temp(16), 1),
    IrStep::Op(IrOp::And, Temp(17), Temp(15), Temp(16)),
    IrStep::SetFlag(0, Temp(17)),
    IrStep::SetReg(0, Temp(6)),
];

#[test]
fn shl_by_1(rt: HostRuntime) -> Result<(), Fail> {
    let placed = shifted(ShiftOp::Shl, Width::Long, RAX, Operand::Imm(1));
    let lifted = lift_instr(rt.alloc(), &placed, 0).map_err(|_| "no memory")?;
    assert_eq!(rt; lifted.as_slice(), SHL_BY_1.as_slice());
    Ok(())
}

/// shl cl, 9: nothing is left, and CF and OF are 0
const SHL_PAST_THE_WIDTH: [IrStep; 22] = [
    IrStep::GetReg(Temp(0), 1),
    IrStep::Const(Temp(1), 1),
    IrStep::Op(IrOp::ZeroExt, Temp(2), Temp(0), Temp(1)),
    IrStep::Const(Temp(3), 9),
    IrStep::Op(IrOp::Shl, Temp(4), Temp(2), Temp(3)),
    IrStep::Const(Temp(5), 1),
    IrStep::Op(IrOp::ZeroExt, Temp(6), Temp(4), Temp(5)),
    // OF
    IrStep::Const(Temp(7), 0),
    IrStep::SetFlag(3, Temp(7)),
    // ZF
    IrStep::Const(Temp(8), 0),
    IrStep::Op(IrOp::Eq, Temp(9), Temp(6), Temp(8)),
    IrStep::SetFlag(1, Temp(9)),
    // SF
    IrStep::Const(Temp(10), 7),
    IrStep::Op(IrOp::Shr, Temp(11), Temp(6), Temp(10)),
    IrStep::SetFlag(2, Temp(11)),
    // CF
    IrStep::Const(Temp(12), 0),
    IrStep::SetFlag(0, Temp(12)),
    // the rest of rcx stays
    IrStep::GetReg(Temp(13), 1),
    IrStep::Const(Temp(14), 0xFFFF_FFFF_FFFF_FF00),
    IrStep::Op(IrOp::And, Temp(15), Temp(13), Temp(14)),
    IrStep::Op(IrOp::Or, Temp(16), Temp(15), Temp(6)),
    IrStep::SetReg(1, Temp(16)),
];

#[test]
fn shl_past_the_width(rt: HostRuntime) -> Result<(), Fail> {
    let placed = shifted(ShiftOp::Shl, Width::Byte, RCX, Operand::Imm(9));
    let lifted = lift_instr(rt.alloc(), &placed, 0).map_err(|_| "no memory")?;
    assert_eq!(rt; lifted.as_slice(), SHL_PAST_THE_WIDTH.as_slice());
    Ok(())
}

/// shr word ptr [rdi], 35: by 3, masked
const SHR_OF_MEMORY: [IrStep; 18] = [
    IrStep::GetReg(Temp(0), 7),
    IrStep::Load(Temp(1), Temp(0), 2, 0x401000),
    IrStep::Const(Temp(2), 3),
    IrStep::Op(IrOp::Shr, Temp(3), Temp(1), Temp(2)),
    IrStep::Store(Temp(0), Temp(3), 2, 0x401000),
    // OF
    IrStep::Const(Temp(4), 0),
    IrStep::SetFlag(3, Temp(4)),
    // ZF
    IrStep::Const(Temp(5), 0),
    IrStep::Op(IrOp::Eq, Temp(6), Temp(3), Temp(5)),
    IrStep::SetFlag(1, Temp(6)),
    // SF
    IrStep::Const(Temp(7), 15),
    IrStep::Op(IrOp::Shr, Temp(8), Temp(3), Temp(7)),
    IrStep::SetFlag(2, Temp(8)),
    // CF: bit 2
    IrStep::Const(Temp(9), 2),
    IrStep::Op(IrOp::Shr, Temp(10), Temp(1), Temp(9)),
    IrStep::Const(Temp(11), 1),
    IrStep::Op(IrOp::And, Temp(12), Temp(10), Temp(11)),
    IrStep::SetFlag(0, Temp(12)),
];

#[test]
fn shr_of_memory(rt: HostRuntime) -> Result<(), Fail> {
    let placed = shifted(ShiftOp::Shr, Width::Word, AT_RDI, Operand::Imm(35));
    let lifted = lift_instr(rt.alloc(), &placed, 0).map_err(|_| "no memory")?;
    assert_eq!(rt; lifted.as_slice(), SHR_OF_MEMORY.as_slice());
    Ok(())
}

/// shr rax, 1: OF is the sign that was
const SHR_BY_1: [IrStep; 18] = [
    IrStep::GetReg(Temp(0), 0),
    IrStep::Const(Temp(1), 1),
    IrStep::Op(IrOp::Shr, Temp(2), Temp(0), Temp(1)),
    // OF
    IrStep::Const(Temp(3), 63),
    IrStep::Op(IrOp::Shr, Temp(4), Temp(0), Temp(3)),
    IrStep::SetFlag(3, Temp(4)),
    // ZF
    IrStep::Const(Temp(5), 0),
    IrStep::Op(IrOp::Eq, Temp(6), Temp(2), Temp(5)),
    IrStep::SetFlag(1, Temp(6)),
    // SF
    IrStep::Const(Temp(7), 63),
    IrStep::Op(IrOp::Shr, Temp(8), Temp(2), Temp(7)),
    IrStep::SetFlag(2, Temp(8)),
    // CF: bit 0
    IrStep::Const(Temp(9), 0),
    IrStep::Op(IrOp::Shr, Temp(10), Temp(0), Temp(9)),
    IrStep::Const(Temp(11), 1),
    IrStep::Op(IrOp::And, Temp(12), Temp(10), Temp(11)),
    IrStep::SetFlag(0, Temp(12)),
    IrStep::SetReg(0, Temp(2)),
];

#[test]
fn shr_by_1(rt: HostRuntime) -> Result<(), Fail> {
    let placed = shifted(ShiftOp::Shr, Width::Quad, RAX, Operand::Imm(1));
    let lifted = lift_instr(rt.alloc(), &placed, 0).map_err(|_| "no memory")?;
    assert_eq!(rt; lifted.as_slice(), SHR_BY_1.as_slice());
    Ok(())
}

/// shr ax, 16: nothing is left, and CF and OF are 0
const SHR_BY_THE_WIDTH: [IrStep; 20] = [
    IrStep::GetReg(Temp(0), 0),
    IrStep::Const(Temp(1), 2),
    IrStep::Op(IrOp::ZeroExt, Temp(2), Temp(0), Temp(1)),
    IrStep::Const(Temp(3), 16),
    IrStep::Op(IrOp::Shr, Temp(4), Temp(2), Temp(3)),
    // OF
    IrStep::Const(Temp(5), 0),
    IrStep::SetFlag(3, Temp(5)),
    // ZF
    IrStep::Const(Temp(6), 0),
    IrStep::Op(IrOp::Eq, Temp(7), Temp(4), Temp(6)),
    IrStep::SetFlag(1, Temp(7)),
    // SF
    IrStep::Const(Temp(8), 15),
    IrStep::Op(IrOp::Shr, Temp(9), Temp(4), Temp(8)),
    IrStep::SetFlag(2, Temp(9)),
    // CF
    IrStep::Const(Temp(10), 0),
    IrStep::SetFlag(0, Temp(10)),
    // the rest of rax stays
    IrStep::GetReg(Temp(11), 0),
    IrStep::Const(Temp(12), 0xFFFF_FFFF_FFFF_0000),
    IrStep::Op(IrOp::And, Temp(13), Temp(11), Temp(12)),
    IrStep::Op(IrOp::Or, Temp(14), Temp(13), Temp(4)),
    IrStep::SetReg(0, Temp(14)),
];

#[test]
fn shr_by_the_width(rt: HostRuntime) -> Result<(), Fail> {
    let placed = shifted(ShiftOp::Shr, Width::Word, RAX, Operand::Imm(16));
    let lifted = lift_instr(rt.alloc(), &placed, 0).map_err(|_| "no memory")?;
    assert_eq!(rt; lifted.as_slice(), SHR_BY_THE_WIDTH.as_slice());
    Ok(())
}

/// sar al, 31: the sign is left, also in CF
const SAR_PAST_THE_WIDTH: [IrStep; 29] = [
    IrStep::GetReg(Temp(0), 0),
    IrStep::Const(Temp(1), 1),
    IrStep::Op(IrOp::ZeroExt, Temp(2), Temp(0), Temp(1)),
    IrStep::Const(Temp(3), 1),
    IrStep::Op(IrOp::SignExt, Temp(4), Temp(2), Temp(3)),
    IrStep::Const(Temp(5), 31),
    IrStep::Op(IrOp::Sar, Temp(6), Temp(4), Temp(5)),
    IrStep::Const(Temp(7), 1),
    IrStep::Op(IrOp::ZeroExt, Temp(8), Temp(6), Temp(7)),
    // OF
    IrStep::Const(Temp(9), 0),
    IrStep::SetFlag(3, Temp(9)),
    // ZF
    IrStep::Const(Temp(10), 0),
    IrStep::Op(IrOp::Eq, Temp(11), Temp(8), Temp(10)),
    IrStep::SetFlag(1, Temp(11)),
    // SF
    IrStep::Const(Temp(12), 7),
    IrStep::Op(IrOp::Shr, Temp(13), Temp(8), Temp(12)),
    IrStep::SetFlag(2, Temp(13)),
    // CF
    IrStep::Const(Temp(14), 1),
    IrStep::Op(IrOp::SignExt, Temp(15), Temp(2), Temp(14)),
    IrStep::Const(Temp(16), 30),
    IrStep::Op(IrOp::Sar, Temp(17), Temp(15), Temp(16)),
    IrStep::Const(Temp(18), 1),
    IrStep::Op(IrOp::And, Temp(19), Temp(17), Temp(18)),
    IrStep::SetFlag(0, Temp(19)),
    // the rest of rax stays
    IrStep::GetReg(Temp(20), 0),
    IrStep::Const(Temp(21), 0xFFFF_FFFF_FFFF_FF00),
    IrStep::Op(IrOp::And, Temp(22), Temp(20), Temp(21)),
    IrStep::Op(IrOp::Or, Temp(23), Temp(22), Temp(8)),
    IrStep::SetReg(0, Temp(23)),
];

#[test]
fn sar_past_the_width(rt: HostRuntime) -> Result<(), Fail> {
    let placed = shifted(ShiftOp::Sar, Width::Byte, RAX, Operand::Imm(31));
    let lifted = lift_instr(rt.alloc(), &placed, 0).map_err(|_| "no memory")?;
    assert_eq!(rt; lifted.as_slice(), SAR_PAST_THE_WIDTH.as_slice());
    Ok(())
}

/// shl byte ptr [rbx + rcx * 4 + 8], cl
const SHL_OF_MEMORY_BY_CL: [IrStep; 45] = [
    // the count
    IrStep::GetReg(Temp(0), 1),
    IrStep::Const(Temp(1), 31),
    IrStep::Op(IrOp::And, Temp(2), Temp(0), Temp(1)),
    // the address
    IrStep::GetReg(Temp(3), 3),
    IrStep::GetReg(Temp(4), 1),
    IrStep::Const(Temp(5), 2),
    IrStep::Op(IrOp::Shl, Temp(6), Temp(4), Temp(5)),
    IrStep::Op(IrOp::Add, Temp(7), Temp(3), Temp(6)),
    IrStep::Const(Temp(8), 8),
    IrStep::Op(IrOp::Add, Temp(9), Temp(7), Temp(8)),
    IrStep::Load(Temp(10), Temp(9), 1, 0x401000),
    IrStep::Op(IrOp::Shl, Temp(11), Temp(10), Temp(2)),
    IrStep::Const(Temp(12), 1),
    IrStep::Op(IrOp::ZeroExt, Temp(13), Temp(11), Temp(12)),
    IrStep::Store(Temp(9), Temp(13), 1, 0x401000),
    // OF: the sign changes by 1, and else 0
    IrStep::Op(IrOp::Xor, Temp(14), Temp(10), Temp(13)),
    IrStep::Const(Temp(15), 7),
    IrStep::Op(IrOp::Shr, Temp(16), Temp(14), Temp(15)),
    IrStep::Const(Temp(17), 1),
    IrStep::Op(IrOp::Eq, Temp(18), Temp(2), Temp(17)),
    IrStep::Op(IrOp::And, Temp(19), Temp(16), Temp(18)),
    IrStep::GetFlag(Temp(20), 3),
    IrStep::Select(Temp(21), Temp(2), Temp(19), Temp(20)),
    IrStep::SetFlag(3, Temp(21)),
    // ZF
    IrStep::Const(Temp(22), 0),
    IrStep::Op(IrOp::Eq, Temp(23), Temp(13), Temp(22)),
    IrStep::GetFlag(Temp(24), 1),
    IrStep::Select(Temp(25), Temp(2), Temp(23), Temp(24)),
    IrStep::SetFlag(1, Temp(25)),
    // SF
    IrStep::Const(Temp(26), 7),
    IrStep::Op(IrOp::Shr, Temp(27), Temp(13), Temp(26)),
    IrStep::GetFlag(Temp(28), 2),
    IrStep::Select(Temp(29), Temp(2), Temp(27), Temp(28)),
    IrStep::SetFlag(2, Temp(29)),
    // CF: the last bit out, where the count is below 8
    IrStep::Const(Temp(30), 8),
    IrStep::Op(IrOp::Sub, Temp(31), Temp(30), Temp(2)),
    IrStep::Op(IrOp::Shr, Temp(32), Temp(10), Temp(31)),
    IrStep::Const(Temp(33), 1),
    IrStep::Op(IrOp::And, Temp(34), Temp(32), Temp(33)),
    IrStep::Const(Temp(35), 8),
    IrStep::Op(IrOp::LessU, Temp(36), Temp(2), Temp(35)),
    IrStep::Op(IrOp::And, Temp(37), Temp(34), Temp(36)),
    IrStep::GetFlag(Temp(38), 0),
    IrStep::Select(Temp(39), Temp(2), Temp(37), Temp(38)),
    IrStep::SetFlag(0, Temp(39)),
];

#[test]
fn shl_of_memory_by_cl(rt: HostRuntime) -> Result<(), Fail> {
    let placed = shifted(ShiftOp::Shl, Width::Byte, INDEXED, CL);
    let lifted = lift_instr(rt.alloc(), &placed, 0).map_err(|_| "no memory")?;
    assert_eq!(rt; lifted.as_slice(), SHL_OF_MEMORY_BY_CL.as_slice());
    Ok(())
}

/// shr rax, cl
const SHR_BY_CL: [IrStep; 32] = [
    IrStep::GetReg(Temp(0), 1),
    IrStep::Const(Temp(1), 63),
    IrStep::Op(IrOp::And, Temp(2), Temp(0), Temp(1)),
    IrStep::GetReg(Temp(3), 0),
    IrStep::Op(IrOp::Shr, Temp(4), Temp(3), Temp(2)),
    // OF: the sign that was by 1, and else 0
    IrStep::Const(Temp(5), 63),
    IrStep::Op(IrOp::Shr, Temp(6), Temp(3), Temp(5)),
    IrStep::Const(Temp(7), 1),
    IrStep::Op(IrOp::Eq, Temp(8), Temp(2), Temp(7)),
    IrStep::Op(IrOp::And, Temp(9), Temp(6), Temp(8)),
    IrStep::GetFlag(Temp(10), 3),
    IrStep::Select(Temp(11), Temp(2), Temp(9), Temp(10)),
    IrStep::SetFlag(3, Temp(11)),
    // ZF
    IrStep::Const(Temp(12), 0),
    IrStep::Op(IrOp::Eq, Temp(13), Temp(4), Temp(12)),
    IrStep::GetFlag(Temp(14), 1),
    IrStep::Select(Temp(15), Temp(2), Temp(13), Temp(14)),
    IrStep::SetFlag(1, Temp(15)),
    // SF
    IrStep::Const(Temp(16), 63),
    IrStep::Op(IrOp::Shr, Temp(17), Temp(4), Temp(16)),
    IrStep::GetFlag(Temp(18), 2),
    IrStep::Select(Temp(19), Temp(2), Temp(17), Temp(18)),
    IrStep::SetFlag(2, Temp(19)),
    // CF
    IrStep::Const(Temp(20), 1),
    IrStep::Op(IrOp::Sub, Temp(21), Temp(2), Temp(20)),
    IrStep::Op(IrOp::Shr, Temp(22), Temp(3), Temp(21)),
    IrStep::Const(Temp(23), 1),
    IrStep::Op(IrOp::And, Temp(24), Temp(22), Temp(23)),
    IrStep::GetFlag(Temp(25), 0),
    IrStep::Select(Temp(26), Temp(2), Temp(24), Temp(25)),
    IrStep::SetFlag(0, Temp(26)),
    IrStep::SetReg(0, Temp(4)),
];

#[test]
fn shr_by_cl(rt: HostRuntime) -> Result<(), Fail> {
    let placed = shifted(ShiftOp::Shr, Width::Quad, RAX, CL);
    let lifted = lift_instr(rt.alloc(), &placed, 0).map_err(|_| "no memory")?;
    assert_eq!(rt; lifted.as_slice(), SHR_BY_CL.as_slice());
    Ok(())
}

/// sar ecx, cl: the count is read before rcx is written
const SAR_OF_THE_COUNT_BY_CL: [IrStep; 36] = [
    IrStep::GetReg(Temp(0), 1),
    IrStep::Const(Temp(1), 31),
    IrStep::Op(IrOp::And, Temp(2), Temp(0), Temp(1)),
    IrStep::GetReg(Temp(3), 1),
    IrStep::Const(Temp(4), 4),
    IrStep::Op(IrOp::ZeroExt, Temp(5), Temp(3), Temp(4)),
    IrStep::Const(Temp(6), 4),
    IrStep::Op(IrOp::SignExt, Temp(7), Temp(5), Temp(6)),
    IrStep::Op(IrOp::Sar, Temp(8), Temp(7), Temp(2)),
    IrStep::Const(Temp(9), 4),
    IrStep::Op(IrOp::ZeroExt, Temp(10), Temp(8), Temp(9)),
    // OF
    IrStep::Const(Temp(11), 0),
    IrStep::GetFlag(Temp(12), 3),
    IrStep::Select(Temp(13), Temp(2), Temp(11), Temp(12)),
    IrStep::SetFlag(3, Temp(13)),
    // ZF
    IrStep::Const(Temp(14), 0),
    IrStep::Op(IrOp::Eq, Temp(15), Temp(10), Temp(14)),
    IrStep::GetFlag(Temp(16), 1),
    IrStep::Select(Temp(17), Temp(2), Temp(15), Temp(16)),
    IrStep::SetFlag(1, Temp(17)),
    // SF
    IrStep::Const(Temp(18), 31),
    IrStep::Op(IrOp::Shr, Temp(19), Temp(10), Temp(18)),
    IrStep::GetFlag(Temp(20), 2),
    IrStep::Select(Temp(21), Temp(2), Temp(19), Temp(20)),
    IrStep::SetFlag(2, Temp(21)),
    // CF
    IrStep::Const(Temp(22), 4),
    IrStep::Op(IrOp::SignExt, Temp(23), Temp(5), Temp(22)),
    IrStep::Const(Temp(24), 1),
    IrStep::Op(IrOp::Sub, Temp(25), Temp(2), Temp(24)),
    IrStep::Op(IrOp::Sar, Temp(26), Temp(23), Temp(25)),
    IrStep::Const(Temp(27), 1),
    IrStep::Op(IrOp::And, Temp(28), Temp(26), Temp(27)),
    IrStep::GetFlag(Temp(29), 0),
    IrStep::Select(Temp(30), Temp(2), Temp(28), Temp(29)),
    IrStep::SetFlag(0, Temp(30)),
    IrStep::SetReg(1, Temp(10)),
];

#[test]
fn sar_of_the_count_by_cl(rt: HostRuntime) -> Result<(), Fail> {
    let placed = shifted(ShiftOp::Sar, Width::Long, RCX, CL);
    let lifted = lift_instr(rt.alloc(), &placed, 0).map_err(|_| "no memory")?;
    assert_eq!(rt; lifted.as_slice(), SAR_OF_THE_COUNT_BY_CL.as_slice());
    Ok(())
}

/// shl eax, 32: flags stay, and the upper half is cleared
const SHL_BY_MASKED_0: [IrStep; 4] = [
    IrStep::GetReg(Temp(0), 0),
    IrStep::Const(Temp(1), 4),
    IrStep::Op(IrOp::ZeroExt, Temp(2), Temp(0), Temp(1)),
    IrStep::SetReg(0, Temp(2)),
];

#[test]
fn shl_by_masked_0(rt: HostRuntime) -> Result<(), Fail> {
    let placed = shifted(ShiftOp::Shl, Width::Long, RAX, Operand::Imm(32));
    let lifted = lift_instr(rt.alloc(), &placed, 0).map_err(|_| "no memory")?;
    assert_eq!(rt; lifted.as_slice(), SHL_BY_MASKED_0.as_slice());
    Ok(())
}

/// ror byte ptr [rdi], 32: its own value is written
const ROR_OF_MEMORY_BY_MASKED_0: [IrStep; 3] = [
    IrStep::GetReg(Temp(0), 7),
    IrStep::Load(Temp(1), Temp(0), 1, 0x401000),
    IrStep::Store(Temp(0), Temp(1), 1, 0x401000),
];

#[test]
fn ror_of_memory_by_masked_0(rt: HostRuntime) -> Result<(), Fail> {
    let placed = shifted(ShiftOp::Ror, Width::Byte, AT_RDI, Operand::Imm(32));
    let lifted = lift_instr(rt.alloc(), &placed, 0).map_err(|_| "no memory")?;
    assert_eq!(rt; lifted.as_slice(), ROR_OF_MEMORY_BY_MASKED_0.as_slice());
    Ok(())
}

/// rol ax, 1: ZF and SF stay
const ROL_BY_1: [IrStep; 24] = [
    IrStep::GetReg(Temp(0), 0),
    IrStep::Const(Temp(1), 2),
    IrStep::Op(IrOp::ZeroExt, Temp(2), Temp(0), Temp(1)),
    IrStep::Const(Temp(3), 15),
    IrStep::Op(IrOp::Shr, Temp(4), Temp(2), Temp(3)),
    IrStep::Const(Temp(5), 1),
    IrStep::Op(IrOp::Shl, Temp(6), Temp(2), Temp(5)),
    IrStep::Op(IrOp::Or, Temp(7), Temp(4), Temp(6)),
    IrStep::Const(Temp(8), 2),
    IrStep::Op(IrOp::ZeroExt, Temp(9), Temp(7), Temp(8)),
    // OF: the sign differs from CF
    IrStep::Const(Temp(10), 1),
    IrStep::Op(IrOp::And, Temp(11), Temp(9), Temp(10)),
    IrStep::Const(Temp(12), 15),
    IrStep::Op(IrOp::Shr, Temp(13), Temp(9), Temp(12)),
    IrStep::Op(IrOp::Xor, Temp(14), Temp(11), Temp(13)),
    IrStep::SetFlag(3, Temp(14)),
    // CF: bit 0
    IrStep::Const(Temp(15), 1),
    IrStep::Op(IrOp::And, Temp(16), Temp(9), Temp(15)),
    IrStep::SetFlag(0, Temp(16)),
    // the rest of rax stays
    IrStep::GetReg(Temp(17), 0),
    IrStep::Const(Temp(18), 0xFFFF_FFFF_FFFF_0000),
    IrStep::Op(IrOp::And, Temp(19), Temp(17), Temp(18)),
    IrStep::Op(IrOp::Or, Temp(20), Temp(19), Temp(9)),
    IrStep::SetReg(0, Temp(20)),
];

#[test]
fn rol_by_1(rt: HostRuntime) -> Result<(), Fail> {
    let placed = shifted(ShiftOp::Rol, Width::Word, RAX, Operand::Imm(1));
    let lifted = lift_instr(rt.alloc(), &placed, 0).map_err(|_| "no memory")?;
    assert_eq!(rt; lifted.as_slice(), ROL_BY_1.as_slice());
    Ok(())
}

/// rol ah, 9: turned by 1, but OF goes by 9
const ROL_PAST_THE_WIDTH: [IrStep; 24] = [
    IrStep::GetReg(Temp(0), 0),
    IrStep::Const(Temp(1), 8),
    IrStep::Op(IrOp::Shr, Temp(2), Temp(0), Temp(1)),
    IrStep::Const(Temp(3), 1),
    IrStep::Op(IrOp::ZeroExt, Temp(4), Temp(2), Temp(3)),
    IrStep::Const(Temp(5), 7),
    IrStep::Op(IrOp::Shr, Temp(6), Temp(4), Temp(5)),
    IrStep::Const(Temp(7), 1),
    IrStep::Op(IrOp::Shl, Temp(8), Temp(4), Temp(7)),
    IrStep::Op(IrOp::Or, Temp(9), Temp(6), Temp(8)),
    IrStep::Const(Temp(10), 1),
    IrStep::Op(IrOp::ZeroExt, Temp(11), Temp(9), Temp(10)),
    // OF
    IrStep::Const(Temp(12), 0),
    IrStep::SetFlag(3, Temp(12)),
    // CF
    IrStep::Const(Temp(13), 1),
    IrStep::Op(IrOp::And, Temp(14), Temp(11), Temp(13)),
    IrStep::SetFlag(0, Temp(14)),
    // the rest of rax stays
    IrStep::GetReg(Temp(15), 0),
    IrStep::Const(Temp(16), 0xFFFF_FFFF_FFFF_00FF),
    IrStep::Op(IrOp::And, Temp(17), Temp(15), Temp(16)),
    IrStep::Const(Temp(18), 8),
    IrStep::Op(IrOp::Shl, Temp(19), Temp(11), Temp(18)),
    IrStep::Op(IrOp::Or, Temp(20), Temp(17), Temp(19)),
    IrStep::SetReg(0, Temp(20)),
];

#[test]
fn rol_past_the_width(rt: HostRuntime) -> Result<(), Fail> {
    let placed = shifted(ShiftOp::Rol, Width::Byte, AH, Operand::Imm(9));
    let lifted = lift_instr(rt.alloc(), &placed, 0).map_err(|_| "no memory")?;
    assert_eq!(rt; lifted.as_slice(), ROL_PAST_THE_WIDTH.as_slice());
    Ok(())
}

/// ror al, 8: the value stays, and CF is set
const ROR_BY_THE_WIDTH: [IrStep; 20] = [
    IrStep::GetReg(Temp(0), 0),
    IrStep::Const(Temp(1), 1),
    IrStep::Op(IrOp::ZeroExt, Temp(2), Temp(0), Temp(1)),
    IrStep::Const(Temp(3), 8),
    IrStep::Op(IrOp::Shl, Temp(4), Temp(2), Temp(3)),
    IrStep::Const(Temp(5), 0),
    IrStep::Op(IrOp::Shr, Temp(6), Temp(2), Temp(5)),
    IrStep::Op(IrOp::Or, Temp(7), Temp(4), Temp(6)),
    IrStep::Const(Temp(8), 1),
    IrStep::Op(IrOp::ZeroExt, Temp(9), Temp(7), Temp(8)),
    // OF
    IrStep::Const(Temp(10), 0),
    IrStep::SetFlag(3, Temp(10)),
    // CF: the sign
    IrStep::Const(Temp(11), 7),
    IrStep::Op(IrOp::Shr, Temp(12), Temp(9), Temp(11)),
    IrStep::SetFlag(0, Temp(12)),
    // the rest of rax stays
    IrStep::GetReg(Temp(13), 0),
    IrStep::Const(Temp(14), 0xFFFF_FFFF_FFFF_FF00),
    IrStep::Op(IrOp::And, Temp(15), Temp(13), Temp(14)),
    IrStep::Op(IrOp::Or, Temp(16), Temp(15), Temp(9)),
    IrStep::SetReg(0, Temp(16)),
];

#[test]
fn ror_by_the_width(rt: HostRuntime) -> Result<(), Fail> {
    let placed = shifted(ShiftOp::Ror, Width::Byte, RAX, Operand::Imm(8));
    let lifted = lift_instr(rt.alloc(), &placed, 0).map_err(|_| "no memory")?;
    assert_eq!(rt; lifted.as_slice(), ROR_BY_THE_WIDTH.as_slice());
    Ok(())
}

/// rol rcx, 4: to the right by 60
const ROL_OF_64_BITS: [IrStep; 9] = [
    IrStep::GetReg(Temp(0), 1),
    IrStep::Const(Temp(1), 60),
    IrStep::Op(IrOp::Ror, Temp(2), Temp(0), Temp(1)),
    // OF
    IrStep::Const(Temp(3), 0),
    IrStep::SetFlag(3, Temp(3)),
    // CF
    IrStep::Const(Temp(4), 1),
    IrStep::Op(IrOp::And, Temp(5), Temp(2), Temp(4)),
    IrStep::SetFlag(0, Temp(5)),
    IrStep::SetReg(1, Temp(2)),
];

#[test]
fn rol_of_64_bits(rt: HostRuntime) -> Result<(), Fail> {
    let placed = shifted(ShiftOp::Rol, Width::Quad, RCX, Operand::Imm(4));
    let lifted = lift_instr(rt.alloc(), &placed, 0).map_err(|_| "no memory")?;
    assert_eq!(rt; lifted.as_slice(), ROL_OF_64_BITS.as_slice());
    Ok(())
}

/// ror rax, 1: OF is where the two highest bits differ
const ROR_BY_1: [IrStep; 15] = [
    IrStep::GetReg(Temp(0), 0),
    IrStep::Const(Temp(1), 1),
    IrStep::Op(IrOp::Ror, Temp(2), Temp(0), Temp(1)),
    // OF
    IrStep::Const(Temp(3), 62),
    IrStep::Op(IrOp::Shr, Temp(4), Temp(2), Temp(3)),
    IrStep::Const(Temp(5), 1),
    IrStep::Op(IrOp::And, Temp(6), Temp(4), Temp(5)),
    IrStep::Const(Temp(7), 63),
    IrStep::Op(IrOp::Shr, Temp(8), Temp(2), Temp(7)),
    IrStep::Op(IrOp::Xor, Temp(9), Temp(6), Temp(8)),
    IrStep::SetFlag(3, Temp(9)),
    // CF
    IrStep::Const(Temp(10), 63),
    IrStep::Op(IrOp::Shr, Temp(11), Temp(2), Temp(10)),
    IrStep::SetFlag(0, Temp(11)),
    IrStep::SetReg(0, Temp(2)),
];

#[test]
fn ror_by_1(rt: HostRuntime) -> Result<(), Fail> {
    let placed = shifted(ShiftOp::Ror, Width::Quad, RAX, Operand::Imm(1));
    let lifted = lift_instr(rt.alloc(), &placed, 0).map_err(|_| "no memory")?;
    assert_eq!(rt; lifted.as_slice(), ROR_BY_1.as_slice());
    Ok(())
}

/// ror word ptr [rdi], cl
const ROR_OF_MEMORY_BY_CL: [IrStep; 35] = [
    // the count
    IrStep::GetReg(Temp(0), 1),
    IrStep::Const(Temp(1), 31),
    IrStep::Op(IrOp::And, Temp(2), Temp(0), Temp(1)),
    IrStep::GetReg(Temp(3), 7),
    IrStep::Load(Temp(4), Temp(3), 2, 0x401000),
    // to the left by 16 less the places, and to the right by the places
    IrStep::Const(Temp(5), 16),
    IrStep::Const(Temp(6), 15),
    IrStep::Op(IrOp::And, Temp(7), Temp(2), Temp(6)),
    IrStep::Op(IrOp::Sub, Temp(8), Temp(5), Temp(7)),
    IrStep::Op(IrOp::Shl, Temp(9), Temp(4), Temp(8)),
    IrStep::Const(Temp(10), 15),
    IrStep::Op(IrOp::And, Temp(11), Temp(2), Temp(10)),
    IrStep::Op(IrOp::Shr, Temp(12), Temp(4), Temp(11)),
    IrStep::Op(IrOp::Or, Temp(13), Temp(9), Temp(12)),
    IrStep::Const(Temp(14), 2),
    IrStep::Op(IrOp::ZeroExt, Temp(15), Temp(13), Temp(14)),
    IrStep::Store(Temp(3), Temp(15), 2, 0x401000),
    // OF: the two highest bits differ by 1, and else 0
    IrStep::Const(Temp(16), 14),
    IrStep::Op(IrOp::Shr, Temp(17), Temp(15), Temp(16)),
    IrStep::Const(Temp(18), 1),
    IrStep::Op(IrOp::And, Temp(19), Temp(17), Temp(18)),
    IrStep::Const(Temp(20), 15),
    IrStep::Op(IrOp::Shr, Temp(21), Temp(15), Temp(20)),
    IrStep::Op(IrOp::Xor, Temp(22), Temp(19), Temp(21)),
    IrStep::Const(Temp(23), 1),
    IrStep::Op(IrOp::Eq, Temp(24), Temp(2), Temp(23)),
    IrStep::Op(IrOp::And, Temp(25), Temp(22), Temp(24)),
    IrStep::GetFlag(Temp(26), 3),
    IrStep::Select(Temp(27), Temp(2), Temp(25), Temp(26)),
    IrStep::SetFlag(3, Temp(27)),
    // CF
    IrStep::Const(Temp(28), 15),
    IrStep::Op(IrOp::Shr, Temp(29), Temp(15), Temp(28)),
    IrStep::GetFlag(Temp(30), 0),
    IrStep::Select(Temp(31), Temp(2), Temp(29), Temp(30)),
    IrStep::SetFlag(0, Temp(31)),
];

#[test]
fn ror_of_memory_by_cl(rt: HostRuntime) -> Result<(), Fail> {
    let placed = shifted(ShiftOp::Ror, Width::Word, AT_RDI, CL);
    let lifted = lift_instr(rt.alloc(), &placed, 0).map_err(|_| "no memory")?;
    assert_eq!(rt; lifted.as_slice(), ROR_OF_MEMORY_BY_CL.as_slice());
    Ok(())
}

/// rol eax, cl
const ROL_BY_CL: [IrStep; 30] = [
    IrStep::GetReg(Temp(0), 1),
    IrStep::Const(Temp(1), 31),
    IrStep::Op(IrOp::And, Temp(2), Temp(0), Temp(1)),
    IrStep::GetReg(Temp(3), 0),
    IrStep::Const(Temp(4), 4),
    IrStep::Op(IrOp::ZeroExt, Temp(5), Temp(3), Temp(4)),
    IrStep::Const(Temp(6), 32),
    IrStep::Op(IrOp::Sub, Temp(7), Temp(6), Temp(2)),
    IrStep::Op(IrOp::Shr, Temp(8), Temp(5), Temp(7)),
    IrStep::Op(IrOp::Shl, Temp(9), Temp(5), Temp(2)),
    IrStep::Op(IrOp::Or, Temp(10), Temp(8), Temp(9)),
    IrStep::Const(Temp(11), 4),
    IrStep::Op(IrOp::ZeroExt, Temp(12), Temp(10), Temp(11)),
    // OF: the sign differs from CF by 1, and else 0
    IrStep::Const(Temp(13), 1),
    IrStep::Op(IrOp::And, Temp(14), Temp(12), Temp(13)),
    IrStep::Const(Temp(15), 31),
    IrStep::Op(IrOp::Shr, Temp(16), Temp(12), Temp(15)),
    IrStep::Op(IrOp::Xor, Temp(17), Temp(14), Temp(16)),
    IrStep::Const(Temp(18), 1),
    IrStep::Op(IrOp::Eq, Temp(19), Temp(2), Temp(18)),
    IrStep::Op(IrOp::And, Temp(20), Temp(17), Temp(19)),
    IrStep::GetFlag(Temp(21), 3),
    IrStep::Select(Temp(22), Temp(2), Temp(20), Temp(21)),
    IrStep::SetFlag(3, Temp(22)),
    // CF
    IrStep::Const(Temp(23), 1),
    IrStep::Op(IrOp::And, Temp(24), Temp(12), Temp(23)),
    IrStep::GetFlag(Temp(25), 0),
    IrStep::Select(Temp(26), Temp(2), Temp(24), Temp(25)),
    IrStep::SetFlag(0, Temp(26)),
    IrStep::SetReg(0, Temp(12)),
];

#[test]
fn rol_by_cl(rt: HostRuntime) -> Result<(), Fail> {
    let placed = shifted(ShiftOp::Rol, Width::Long, RAX, CL);
    let lifted = lift_instr(rt.alloc(), &placed, 0).map_err(|_| "no memory")?;
    assert_eq!(rt; lifted.as_slice(), ROL_BY_CL.as_slice());
    Ok(())
}

/// rol rax, cl: to the right by 64 less the count
const ROL_OF_64_BITS_BY_CL: [IrStep; 24] = [
    IrStep::GetReg(Temp(0), 1),
    IrStep::Const(Temp(1), 63),
    IrStep::Op(IrOp::And, Temp(2), Temp(0), Temp(1)),
    IrStep::GetReg(Temp(3), 0),
    IrStep::Const(Temp(4), 64),
    IrStep::Op(IrOp::Sub, Temp(5), Temp(4), Temp(2)),
    IrStep::Op(IrOp::Ror, Temp(6), Temp(3), Temp(5)),
    // OF
    IrStep::Const(Temp(7), 1),
    IrStep::Op(IrOp::And, Temp(8), Temp(6), Temp(7)),
    IrStep::Const(Temp(9), 63),
    IrStep::Op(IrOp::Shr, Temp(10), Temp(6), Temp(9)),
    IrStep::Op(IrOp::Xor, Temp(11), Temp(8), Temp(10)),
    IrStep::Const(Temp(12), 1),
    IrStep::Op(IrOp::Eq, Temp(13), Temp(2), Temp(12)),
    IrStep::Op(IrOp::And, Temp(14), Temp(11), Temp(13)),
    IrStep::GetFlag(Temp(15), 3),
    IrStep::Select(Temp(16), Temp(2), Temp(14), Temp(15)),
    IrStep::SetFlag(3, Temp(16)),
    // CF
    IrStep::Const(Temp(17), 1),
    IrStep::Op(IrOp::And, Temp(18), Temp(6), Temp(17)),
    IrStep::GetFlag(Temp(19), 0),
    IrStep::Select(Temp(20), Temp(2), Temp(18), Temp(19)),
    IrStep::SetFlag(0, Temp(20)),
    IrStep::SetReg(0, Temp(6)),
];

#[test]
fn rol_of_64_bits_by_cl(rt: HostRuntime) -> Result<(), Fail> {
    let placed = shifted(ShiftOp::Rol, Width::Quad, RAX, CL);
    let lifted = lift_instr(rt.alloc(), &placed, 0).map_err(|_| "no memory")?;
    assert_eq!(rt; lifted.as_slice(), ROL_OF_64_BITS_BY_CL.as_slice());
    Ok(())
}
