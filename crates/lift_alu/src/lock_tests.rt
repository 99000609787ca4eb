ghost use Rattle.std.specs.Prelude.{◌≡◌, true};
ghost use Rattle.x64_syntax.specs.Formed.{IsFormed};
ghost use Rattle.lift_alu.specs.Built.{is_lifted};

use crate::{SmallSteps, lift_instr};
use limm_ir::{IrOp, IrStep, RmwOp, Temp};
use std::alloc::Global;
use std::test::Fail;
use x64_syntax::{AluOp, Flow, Instr, Mem, Operand, Placed, Reg, Width};

/// Memory at RBX.
const CELL: Operand = Operand::Mem(Mem {
    base: Some(3),
    index: None,
    scale: 1,
    offset: 0,
    rip: false,
});

const RCX: Operand = Operand::Reg(Reg {
    number: 1,
    high: false,
});

/// The steps of an instruction at 0x401000.
fn steps(alloc: Global, instr: Instr) -> Result<SmallSteps, Fail>
    requires formed { IsFormed instr }
    requires lifted { is_lifted instr ≡ true }
{
    let placed = Placed {
        address: 0x401000,
        length: 4,
        instr,
        flow: Flow::Plain,
    };
    let lifted = lift_instr(alloc, &placed, 0).map_err(|_| "no memory")?;
    Ok(lifted)
}

// lock add qword ptr [rbx], rcx
#[test]
fn adds(rt: HostRuntime) -> Result<(), Fail> {
    let lifted = steps(
        rt.alloc(),
        Instr::Alu(AluOp::Add, Width::Quad, CELL, RCX, true),
    )?;
    let wanted = [
        IrStep::GetReg(Temp(0), 1),
        IrStep::GetReg(Temp(1), 3),
        IrStep::Rmw(RmwOp::Add, Temp(2), Temp(1), Temp(0), 8, 0x401000),
        IrStep::Op(IrOp::Add, Temp(3), Temp(2), Temp(0)),
        // OF
        IrStep::Op(IrOp::Xor, Temp(4), Temp(2), Temp(3)),
        IrStep::Op(IrOp::Xor, Temp(5), Temp(0), Temp(3)),
        IrStep::Op(IrOp::And, Temp(6), Temp(4), Temp(5)),
        IrStep::Const(Temp(7), 63),
        IrStep::Op(IrOp::Shr, Temp(8), Temp(6), Temp(7)),
        IrStep::SetFlag(3, Temp(8)),
        // ZF
        IrStep::Const(Temp(9), 0),
        IrStep::Op(IrOp::Eq, Temp(10), Temp(3), Temp(9)),
        IrStep::SetFlag(1, Temp(10)),
        // SF
        IrStep::Const(Temp(11), 63),
        IrStep::Op(IrOp::Shr, Temp(12), Temp(3), Temp(11)),
        IrStep::SetFlag(2, Temp(12)),
        // CF
        IrStep::Op(IrOp::LessU, Temp(13), Temp(3), Temp(2)),
        IrStep::SetFlag(0, Temp(13)),
    ];
    assert_eq!(rt; lifted.as_slice(), wanted.as_slice());
    Ok(())
}

// lock adc byte ptr [rbx], cl
#[test]
fn adds_with_carry(rt: HostRuntime) -> Result<(), Fail> {
    let lifted = steps(
        rt.alloc(),
        Instr::Alu(AluOp::Adc, Width::Byte, CELL, RCX, true),
    )?;
    let wanted = [
        IrStep::GetReg(Temp(0), 1),
        IrStep::Const(Temp(1), 1),
        IrStep::Op(IrOp::ZeroExt, Temp(2), Temp(0), Temp(1)),
        IrStep::GetReg(Temp(3), 3),
        // what is added, with CF
        IrStep::GetFlag(Temp(4), 0),
        IrStep::Op(IrOp::Add, Temp(5), Temp(2), Temp(4)),
        IrStep::Rmw(RmwOp::Add, Temp(6), Temp(3), Temp(5), 1, 0x401000),
        // the sum
        IrStep::Op(IrOp::Add, Temp(7), Temp(6), Temp(2)),
        IrStep::GetFlag(Temp(8), 0),
        IrStep::Op(IrOp::Add, Temp(9), Temp(7), Temp(8)),
        IrStep::Const(Temp(10), 1),
        IrStep::Op(IrOp::ZeroExt, Temp(11), Temp(9), Temp(10)),
        // OF
        IrStep::Op(IrOp::Xor, Temp(12), Temp(6), Temp(11)),
        IrStep::Op(IrOp::Xor, Temp(13), Temp(2), Temp(11)),
        IrStep::Op(IrOp::And, Temp(14), Temp(12), Temp(13)),
        IrStep::Const(Temp(15), 7),
        IrStep::Op(IrOp::Shr, Temp(16), Temp(14), Temp(15)),
        IrStep::SetFlag(3, Temp(16)),
        // ZF
        IrStep::Const(Temp(17), 0),
        IrStep::Op(IrOp::Eq, Temp(18), Temp(11), Temp(17)),
        IrStep::SetFlag(1, Temp(18)),
        // SF
        IrStep::Const(Temp(19), 7),
        IrStep::Op(IrOp::Shr, Temp(20), Temp(11), Temp(19)),
        IrStep::SetFlag(2, Temp(20)),
        // CF
        IrStep::Op(IrOp::Eq, Temp(21), Temp(11), Temp(6)),
        IrStep::GetFlag(Temp(22), 0),
        IrStep::Op(IrOp::And, Temp(23), Temp(21), Temp(22)),
        IrStep::Op(IrOp::LessU, Temp(24), Temp(11), Temp(6)),
        IrStep::Op(IrOp::Or, Temp(25), Temp(23), Temp(24)),
        IrStep::SetFlag(0, Temp(25)),
    ];
    assert_eq!(rt; lifted.as_slice(), wanted.as_slice());
    Ok(())
}

// lock sbb qword ptr [rbx], rcx
#[test]
fn takes_with_borrow(rt: HostRuntime) -> Result<(), Fail> {
    let lifted = steps(
        rt.alloc(),
        Instr::Alu(AluOp::Sbb, Width::Quad, CELL, RCX, true),
    )?;
    let wanted = [
        IrStep::GetReg(Temp(0), 1),
        IrStep::GetReg(Temp(1), 3),
        // 0 minus what is taken, with CF
        IrStep::Const(Temp(2), 0),
        IrStep::GetFlag(Temp(3), 0),
        IrStep::Op(IrOp::Add, Temp(4), Temp(0), Temp(3)),
        IrStep::Op(IrOp::Sub, Temp(5), Temp(2), Temp(4)),
        IrStep::Rmw(RmwOp::Add, Temp(6), Temp(1), Temp(5), 8, 0x401000),
        // the difference
        IrStep::Op(IrOp::Sub, Temp(7), Temp(6), Temp(0)),
        IrStep::GetFlag(Temp(8), 0),
        IrStep::Op(IrOp::Sub, Temp(9), Temp(7), Temp(8)),
        // OF
        IrStep::Op(IrOp::Xor, Temp(10), Temp(6), Temp(0)),
        IrStep::Op(IrOp::Xor, Temp(11), Temp(6), Temp(9)),
        IrStep::Op(IrOp::And, Temp(12), Temp(10), Temp(11)),
        IrStep::Const(Temp(13), 63),
        IrStep::Op(IrOp::Shr, Temp(14), Temp(12), Temp(13)),
        IrStep::SetFlag(3, Temp(14)),
        // ZF
        IrStep::Const(Temp(15), 0),
        IrStep::Op(IrOp::Eq, Temp(16), Temp(9), Temp(15)),
        IrStep::SetFlag(1, Temp(16)),
        // SF
        IrStep::Const(Temp(17), 63),
        IrStep::Op(IrOp::Shr, Temp(18), Temp(9), Temp(17)),
        IrStep::SetFlag(2, Temp(18)),
        // CF
        IrStep::Op(IrOp::Eq, Temp(19), Temp(6), Temp(0)),
        IrStep::GetFlag(Temp(20), 0),
        IrStep::Op(IrOp::And, Temp(21), Temp(19), Temp(20)),
        IrStep::Op(IrOp::LessU, Temp(22), Temp(6), Temp(0)),
        IrStep::Op(IrOp::Or, Temp(23), Temp(21), Temp(22)),
        IrStep::SetFlag(0, Temp(23)),
    ];
    assert_eq!(rt; lifted.as_slice(), wanted.as_slice());
    Ok(())
}

// lock sub dword ptr [rbx], ecx
#[test]
fn takes(rt: HostRuntime) -> Result<(), Fail> {
    let lifted = steps(
        rt.alloc(),
        Instr::Alu(AluOp::Sub, Width::Long, CELL, RCX, true),
    )?;
    let wanted = [
        IrStep::GetReg(Temp(0), 1),
        IrStep::Const(Temp(1), 4),
        IrStep::Op(IrOp::ZeroExt, Temp(2), Temp(0), Temp(1)),
        IrStep::GetReg(Temp(3), 3),
        // 0 minus what is taken
        IrStep::Const(Temp(4), 0),
        IrStep::Op(IrOp::Sub, Temp(5), Temp(4), Temp(2)),
        IrStep::Rmw(RmwOp::Add, Temp(6), Temp(3), Temp(5), 4, 0x401000),
        // the difference
        IrStep::Op(IrOp::Sub, Temp(7), Temp(6), Temp(2)),
        IrStep::Const(Temp(8), 4),
        IrStep::Op(IrOp::ZeroExt, Temp(9), Temp(7), Temp(8)),
        // OF
        IrStep::Op(IrOp::Xor, Temp(10), Temp(6), Temp(2)),
        IrStep::Op(IrOp::Xor, Temp(11), Temp(6), Temp(9)),
        IrStep::Op(IrOp::And, Temp(12), Temp(10), Temp(11)),
        IrStep::Const(Temp(13), 31),
        IrStep::Op(IrOp::Shr, Temp(14), Temp(12), Temp(13)),
        IrStep::SetFlag(3, Temp(14)),
        // ZF
        IrStep::Const(Temp(15), 0),
        IrStep::Op(IrOp::Eq, Temp(16), Temp(9), Temp(15)),
        IrStep::SetFlag(1, Temp(16)),
        // SF
        IrStep::Const(Temp(17), 31),
        IrStep::Op(IrOp::Shr, Temp(18), Temp(9), Temp(17)),
        IrStep::SetFlag(2, Temp(18)),
        // CF
        IrStep::Op(IrOp::LessU, Temp(19), Temp(6), Temp(2)),
        IrStep::SetFlag(0, Temp(19)),
    ];
    assert_eq!(rt; lifted.as_slice(), wanted.as_slice());
    Ok(())
}

// lock and qword ptr [rbx], 127
#[test]
fn clears(rt: HostRuntime) -> Result<(), Fail> {
    let lifted = steps(
        rt.alloc(),
        Instr::Alu(AluOp::And, Width::Quad, CELL, Operand::Imm(127), true),
    )?;
    let wanted = [
        IrStep::Const(Temp(0), 127),
        IrStep::GetReg(Temp(1), 3),
        // the bits that are cleared
        IrStep::Const(Temp(2), u64::MAX),
        IrStep::Op(IrOp::Xor, Temp(3), Temp(0), Temp(2)),
        IrStep::Rmw(RmwOp::Clear, Temp(4), Temp(1), Temp(3), 8, 0x401000),
        IrStep::Op(IrOp::And, Temp(5), Temp(4), Temp(0)),
        // OF
        IrStep::Const(Temp(6), 0),
        IrStep::SetFlag(3, Temp(6)),
        // ZF
        IrStep::Const(Temp(7), 0),
        IrStep::Op(IrOp::Eq, Temp(8), Temp(5), Temp(7)),
        IrStep::SetFlag(1, Temp(8)),
        // SF
        IrStep::Const(Temp(9), 63),
        IrStep::Op(IrOp::Shr, Temp(10), Temp(5), Temp(9)),
        IrStep::SetFlag(2, Temp(10)),
        // CF
        IrStep::Const(Temp(11), 0),
        IrStep::SetFlag(0, Temp(11)),
    ];
    assert_eq!(rt; lifted.as_slice(), wanted.as_slice());
    Ok(())
}

// lock or qword ptr [rbx], rcx
#[test]
fn sets(rt: HostRuntime) -> Result<(), Fail> {
    let lifted = steps(
        rt.alloc(),
        Instr::Alu(AluOp::Or, Width::Quad, CELL, RCX, true),
    )?;
    let wanted = [
        IrStep::GetReg(Temp(0), 1),
        IrStep::GetReg(Temp(1), 3),
        IrStep::Rmw(RmwOp::Set, Temp(2), Temp(1), Temp(0), 8, 0x401000),
        IrStep::Op(IrOp::Or, Temp(3), Temp(2), Temp(0)),
        // OF
        IrStep::Const(Temp(4), 0),
        IrStep::SetFlag(3, Temp(4)),
        // ZF
        IrStep::Const(Temp(5), 0),
        IrStep::Op(IrOp::Eq, Temp(6), Temp(3), Temp(5)),
        IrStep::SetFlag(1, Temp(6)),
        // SF
        IrStep::Const(Temp(7), 63),
        IrStep::Op(IrOp::Shr, Temp(8), Temp(3), Temp(7)),
        IrStep::SetFlag(2, Temp(8)),
        // CF
        IrStep::Const(Temp(9), 0),
        IrStep::SetFlag(0, Temp(9)),
    ];
    assert_eq!(rt; lifted.as_slice(), wanted.as_slice());
    Ok(())
}

// lock xor qword ptr [rbx], rcx
#[test]
fn flips(rt: HostRuntime) -> Result<(), Fail> {
    let lifted = steps(
        rt.alloc(),
        Instr::Alu(AluOp::Xor, Width::Quad, CELL, RCX, true),
    )?;
    let wanted = [
        IrStep::GetReg(Temp(0), 1),
        IrStep::GetReg(Temp(1), 3),
        IrStep::Rmw(RmwOp::Flip, Temp(2), Temp(1), Temp(0), 8, 0x401000),
        IrStep::Op(IrOp::Xor, Temp(3), Temp(2), Temp(0)),
        // OF
        IrStep::Const(Temp(4), 0),
        IrStep::SetFlag(3, Temp(4)),
        // ZF
        IrStep::Const(Temp(5), 0),
        IrStep::Op(IrOp::Eq, Temp(6), Temp(3), Temp(5)),
        IrStep::SetFlag(1, Temp(6)),
        // SF
        IrStep::Const(Temp(7), 63),
        IrStep::Op(IrOp::Shr, Temp(8), Temp(3), Temp(7)),
        IrStep::SetFlag(2, Temp(8)),
        // CF
        IrStep::Const(Temp(9), 0),
        IrStep::SetFlag(0, Temp(9)),
    ];
    assert_eq!(rt; lifted.as_slice(), wanted.as_slice());
    Ok(())
}

// lock inc qword ptr [rbx]
#[test]
fn increments(rt: HostRuntime) -> Result<(), Fail> {
    let lifted = steps(rt.alloc(), Instr::Inc(Width::Quad, CELL, true))?;
    let wanted = [
        IrStep::GetReg(Temp(0), 3),
        IrStep::Const(Temp(1), 1),
        IrStep::Rmw(RmwOp::Add, Temp(2), Temp(0), Temp(1), 8, 0x401000),
        IrStep::Const(Temp(3), 1),
        IrStep::Op(IrOp::Add, Temp(4), Temp(2), Temp(3)),
        // OF
        IrStep::Op(IrOp::Xor, Temp(5), Temp(2), Temp(4)),
        IrStep::Const(Temp(6), 1),
        IrStep::Op(IrOp::Xor, Temp(7), Temp(6), Temp(4)),
        IrStep::Op(IrOp::And, Temp(8), Temp(5), Temp(7)),
        IrStep::Const(Temp(9), 63),
        IrStep::Op(IrOp::Shr, Temp(10), Temp(8), Temp(9)),
        IrStep::SetFlag(3, Temp(10)),
        // ZF
        IrStep::Const(Temp(11), 0),
        IrStep::Op(IrOp::Eq, Temp(12), Temp(4), Temp(11)),
        IrStep::SetFlag(1, Temp(12)),
        // SF
        IrStep::Const(Temp(13), 63),
        IrStep::Op(IrOp::Shr, Temp(14), Temp(4), Temp(13)),
        IrStep::SetFlag(2, Temp(14)),
    ];
    assert_eq!(rt; lifted.as_slice(), wanted.as_slice());
    Ok(())
}

// lock dec qword ptr [rbx]
#[test]
fn decrements(rt: HostRuntime) -> Result<(), Fail> {
    let lifted = steps(rt.alloc(), Instr::Dec(Width::Quad, CELL, true))?;
    let wanted = [
        IrStep::GetReg(Temp(0), 3),
        IrStep::Const(Temp(1), u64::MAX),
        IrStep::Rmw(RmwOp::Add, Temp(2), Temp(0), Temp(1), 8, 0x401000),
        IrStep::Const(Temp(3), 1),
        IrStep::Op(IrOp::Sub, Temp(4), Temp(2), Temp(3)),
        // OF
        IrStep::Const(Temp(5), 1),
        IrStep::Op(IrOp::Xor, Temp(6), Temp(2), Temp(5)),
        IrStep::Op(IrOp::Xor, Temp(7), Temp(2), Temp(4)),
        IrStep::Op(IrOp::And, Temp(8), Temp(6), Temp(7)),
        IrStep::Const(Temp(9), 63),
        IrStep::Op(IrOp::Shr, Temp(10), Temp(8), Temp(9)),
        IrStep::SetFlag(3, Temp(10)),
        // ZF
        IrStep::Const(Temp(11), 0),
        IrStep::Op(IrOp::Eq, Temp(12), Temp(4), Temp(11)),
        IrStep::SetFlag(1, Temp(12)),
        // SF
        IrStep::Const(Temp(13), 63),
        IrStep::Op(IrOp::Shr, Temp(14), Temp(4), Temp(13)),
        IrStep::SetFlag(2, Temp(14)),
    ];
    assert_eq!(rt; lifted.as_slice(), wanted.as_slice());
    Ok(())
}

// lock not word ptr [rbx]
#[test]
fn inverts(rt: HostRuntime) -> Result<(), Fail> {
    let lifted = steps(rt.alloc(), Instr::Not(Width::Word, CELL, true))?;
    let wanted = [
        IrStep::GetReg(Temp(0), 3),
        IrStep::Const(Temp(1), 0xFFFF),
        IrStep::Rmw(RmwOp::Flip, Temp(2), Temp(0), Temp(1), 2, 0x401000),
    ];
    assert_eq!(rt; lifted.as_slice(), wanted.as_slice());
    Ok(())
}

// xchg dword ptr [rbx], ecx
#[test]
fn exchanges(rt: HostRuntime) -> Result<(), Fail> {
    let lifted = steps(rt.alloc(), Instr::Xchg(Width::Long, CELL, RCX, true))?;
    let wanted = [
        IrStep::GetReg(Temp(0), 1),
        IrStep::Const(Temp(1), 4),
        IrStep::Op(IrOp::ZeroExt, Temp(2), Temp(0), Temp(1)),
        IrStep::GetReg(Temp(3), 3),
        IrStep::Rmw(RmwOp::Swap, Temp(4), Temp(3), Temp(2), 4, 0x401000),
        IrStep::SetReg(1, Temp(4)),
    ];
    assert_eq!(rt; lifted.as_slice(), wanted.as_slice());
    Ok(())
}

// lock xadd qword ptr [rbx], rcx
#[test]
fn adds_and_exchanges(rt: HostRuntime) -> Result<(), Fail> {
    let lifted = steps(rt.alloc(), Instr::Xadd(Width::Quad, CELL, RCX, true))?;
    let wanted = [
        IrStep::GetReg(Temp(0), 1),
        IrStep::GetReg(Temp(1), 3),
        IrStep::Rmw(RmwOp::Add, Temp(2), Temp(1), Temp(0), 8, 0x401000),
        IrStep::Op(IrOp::Add, Temp(3), Temp(2), Temp(0)),
        // OF
        IrStep::Op(IrOp::Xor, Temp(4), Temp(2), Temp(3)),
        IrStep::Op(IrOp::Xor, Temp(5), Temp(0), Temp(3)),
        IrStep::Op(IrOp::And, Temp(6), Temp(4), Temp(5)),
        IrStep::Const(Temp(7), 63),
        IrStep::Op(IrOp::Shr, Temp(8), Temp(6), Temp(7)),
        IrStep::SetFlag(3, Temp(8)),
        // ZF
        IrStep::Const(Temp(9), 0),
        IrStep::Op(IrOp::Eq, Temp(10), Temp(3), Temp(9)),
        IrStep::SetFlag(1, Temp(10)),
        // SF
        IrStep::Const(Temp(11), 63),
        IrStep::Op(IrOp::Shr, Temp(12), Temp(3), Temp(11)),
        IrStep::SetFlag(2, Temp(12)),
        // CF
        IrStep::Op(IrOp::LessU, Temp(13), Temp(3), Temp(2)),
        IrStep::SetFlag(0, Temp(13)),
        // RCX
        IrStep::SetReg(1, Temp(2)),
    ];
    assert_eq!(rt; lifted.as_slice(), wanted.as_slice());
    Ok(())
}

// lock cmpxchg dword ptr [rbx], ecx: the upper half of RAX stays where the two are equal
#[test]
fn compares_and_exchanges(rt: HostRuntime) -> Result<(), Fail> {
    let lifted = steps(rt.alloc(), Instr::Cmpxchg(Width::Long, CELL, RCX, true))?;
    let wanted = [
        // what is expected, and what is written
        IrStep::GetReg(Temp(0), 0),
        IrStep::Const(Temp(1), 4),
        IrStep::Op(IrOp::ZeroExt, Temp(2), Temp(0), Temp(1)),
        IrStep::GetReg(Temp(3), 1),
        IrStep::Const(Temp(4), 4),
        IrStep::Op(IrOp::ZeroExt, Temp(5), Temp(3), Temp(4)),
        IrStep::GetReg(Temp(6), 3),
        IrStep::Cas(Temp(7), Temp(6), Temp(2), Temp(5), 4, 0x401000),
        // the difference
        IrStep::Op(IrOp::Sub, Temp(8), Temp(2), Temp(7)),
        IrStep::Const(Temp(9), 4),
        IrStep::Op(IrOp::ZeroExt, Temp(10), Temp(8), Temp(9)),
        // OF
        IrStep::Op(IrOp::Xor, Temp(11), Temp(2), Temp(7)),
        IrStep::Op(IrOp::Xor, Temp(12), Temp(2), Temp(10)),
        IrStep::Op(IrOp::And, Temp(13), Temp(11), Temp(12)),
        IrStep::Const(Temp(14), 31),
        IrStep::Op(IrOp::Shr, Temp(15), Temp(13), Temp(14)),
        IrStep::SetFlag(3, Temp(15)),
        // ZF
        IrStep::Const(Temp(16), 0),
        IrStep::Op(IrOp::Eq, Temp(17), Temp(10), Temp(16)),
        IrStep::SetFlag(1, Temp(17)),
        // SF
        IrStep::Const(Temp(18), 31),
        IrStep::Op(IrOp::Shr, Temp(19), Temp(10), Temp(18)),
        IrStep::SetFlag(2, Temp(19)),
        // CF
        IrStep::Op(IrOp::LessU, Temp(20), Temp(2), Temp(7)),
        IrStep::SetFlag(0, Temp(20)),
        // RAX
        IrStep::Op(IrOp::Eq, Temp(21), Temp(2), Temp(7)),
        IrStep::GetReg(Temp(22), 0),
        IrStep::Select(Temp(23), Temp(21), Temp(22), Temp(7)),
        IrStep::SetReg(0, Temp(23)),
    ];
    assert_eq!(rt; lifted.as_slice(), wanted.as_slice());
    Ok(())
}

// lock cmpxchg byte ptr [rbx], cl: AL gets what was there
#[test]
fn compares_and_exchanges_bytes(rt: HostRuntime) -> Result<(), Fail> {
    let lifted = steps(rt.alloc(), Instr::Cmpxchg(Width::Byte, CELL, RCX, true))?;
    let wanted = [
        // what is expected, and what is written
        IrStep::GetReg(Temp(0), 0),
        IrStep::Const(Temp(1), 1),
        IrStep::Op(IrOp::ZeroExt, Temp(2), Temp(0), Temp(1)),
        IrStep::GetReg(Temp(3), 1),
        IrStep::Const(Temp(4), 1),
        IrStep::Op(IrOp::ZeroExt, Temp(5), Temp(3), Temp(4)),
        IrStep::GetReg(Temp(6), 3),
        IrStep::Cas(Temp(7), Temp(6), Temp(2), Temp(5), 1, 0x401000),
        // the difference
        IrStep::Op(IrOp::Sub, Temp(8), Temp(2), Temp(7)),
        IrStep::Const(Temp(9), 1),
        IrStep::Op(IrOp::ZeroExt, Temp(10), Temp(8), Temp(9)),
        // OF
        IrStep::Op(IrOp::Xor, Temp(11), Temp(2), Temp(7)),
        IrStep::Op(IrOp::Xor, Temp(12), Temp(2), Temp(10)),
        IrStep::Op(IrOp::And, Temp(13), Temp(11), Temp(12)),
        IrStep::Const(Temp(14), 7),
        IrStep::Op(IrOp::Shr, Temp(15), Temp(13), Temp(14)),
        IrStep::SetFlag(3, Temp(15)),
        // ZF
        IrStep::Const(Temp(16), 0),
        IrStep::Op(IrOp::Eq, Temp(17), Temp(10), Temp(16)),
        IrStep::SetFlag(1, Temp(17)),
        // SF
        IrStep::Const(Temp(18), 7),
        IrStep::Op(IrOp::Shr, Temp(19), Temp(10), Temp(18)),
        IrStep::SetFlag(2, Temp(19)),
        // CF
        IrStep::Op(IrOp::LessU, Temp(20), Temp(2), Temp(7)),
        IrStep::SetFlag(0, Temp(20)),
        // RAX
        IrStep::GetReg(Temp(21), 0),
        IrStep::Const(Temp(22), 0xFFFF_FFFF_FFFF_FF00),
        IrStep::Op(IrOp::And, Temp(23), Temp(21), Temp(22)),
        IrStep::Op(IrOp::Or, Temp(24), Temp(23), Temp(7)),
        IrStep::SetReg(0, Temp(24)),
    ];
    assert_eq!(rt; lifted.as_slice(), wanted.as_slice());
    Ok(())
}
