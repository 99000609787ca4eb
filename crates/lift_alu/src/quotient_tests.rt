use crate::lift_instr;
use ev_graph::TrapKind;
use limm_ir::{IrOp, IrStep, Temp};
use std::test::Fail;
use x64_syntax::{Flow, Instr, Mem, Operand, Placed, Reg, Width};

// div cl
#[test]
fn divides_ax(rt: HostRuntime) -> Result<(), Fail> {
    let placed = Placed {
        address: 0x401000,
        length: 2,
        instr: Instr::Div(
            Width::Byte,
            Operand::Reg(Reg {
                number: 1,
                high: false,
            }),
        ),
        flow: Flow::Plain,
    };
    let lifted = lift_instr(rt.alloc(), &placed, 0).map_err(|_| "no memory")?;
    let wanted = [
        // the divisor, which is not 0
        IrStep::GetReg(Temp(0), 1),
        IrStep::Const(Temp(1), 1),
        IrStep::Op(IrOp::ZeroExt, Temp(2), Temp(0), Temp(1)),
        IrStep::Const(Temp(3), 0),
        IrStep::Op(IrOp::Eq, Temp(4), Temp(2), Temp(3)),
        IrStep::TrapIf(Temp(4), TrapKind::Divide),
        // the dividend
        IrStep::GetReg(Temp(5), 0),
        IrStep::Const(Temp(6), 2),
        IrStep::Op(IrOp::ZeroExt, Temp(7), Temp(5), Temp(6)),
        // the quotient, which has 8 bits
        IrStep::Op(IrOp::DivU, Temp(8), Temp(7), Temp(2)),
        IrStep::Const(Temp(9), 8),
        IrStep::Op(IrOp::Shr, Temp(10), Temp(8), Temp(9)),
        IrStep::TrapIf(Temp(10), TrapKind::Divide),
        // the remainder
        IrStep::Op(IrOp::Mul, Temp(11), Temp(8), Temp(2)),
        IrStep::Op(IrOp::Sub, Temp(12), Temp(7), Temp(11)),
        IrStep::Const(Temp(13), 0),
        IrStep::SetFlag(3, Temp(13)),
        IrStep::SetFlag(1, Temp(13)),
        IrStep::SetFlag(2, Temp(13)),
        IrStep::SetFlag(0, Temp(13)),
        // both get into AX
        IrStep::GetReg(Temp(14), 0),
        IrStep::Const(Temp(15), 0xFFFF_FFFF_FFFF_0000),
        IrStep::Op(IrOp::And, Temp(16), Temp(14), Temp(15)),
        IrStep::Const(Temp(17), 8),
        IrStep::Op(IrOp::Shl, Temp(18), Temp(12), Temp(17)),
        IrStep::Op(IrOp::Or, Temp(19), Temp(18), Temp(8)),
        IrStep::Op(IrOp::Or, Temp(20), Temp(16), Temp(19)),
        IrStep::SetReg(0, Temp(20)),
    ];
    assert_eq!(rt; lifted.as_slice(), wanted.as_slice());
    Ok(())
}

// idiv cl
#[test]
fn divides_ax_with_sign(rt: HostRuntime) -> Result<(), Fail> {
    let placed = Placed {
        address: 0x401000,
        length: 2,
        instr: Instr::Idiv(
            Width::Byte,
            Operand::Reg(Reg {
                number: 1,
                high: false,
            }),
        ),
        flow: Flow::Plain,
    };
    let lifted = lift_instr(rt.alloc(), &placed, 0).map_err(|_| "no memory")?;
    let wanted = [
        // the divisor, which is not 0
        IrStep::GetReg(Temp(0), 1),
        IrStep::Const(Temp(1), 1),
        IrStep::Op(IrOp::ZeroExt, Temp(2), Temp(0), Temp(1)),
        IrStep::Const(Temp(3), 0),
        IrStep::Op(IrOp::Eq, Temp(4), Temp(2), Temp(3)),
        IrStep::TrapIf(Temp(4), TrapKind::Divide),
        // what both operands mean
        IrStep::GetReg(Temp(5), 0),
        IrStep::Const(Temp(6), 2),
        IrStep::Op(IrOp::SignExt, Temp(7), Temp(5), Temp(6)),
        IrStep::Const(Temp(8), 1),
        IrStep::Op(IrOp::SignExt, Temp(9), Temp(2), Temp(8)),
        // the quotient, which 8 bits mean
        IrStep::Op(IrOp::DivS, Temp(10), Temp(7), Temp(9)),
        IrStep::Const(Temp(11), 1),
        IrStep::Op(IrOp::SignExt, Temp(12), Temp(10), Temp(11)),
        IrStep::Op(IrOp::Xor, Temp(13), Temp(10), Temp(12)),
        IrStep::TrapIf(Temp(13), TrapKind::Divide),
        // the remainder
        IrStep::Op(IrOp::Mul, Temp(14), Temp(10), Temp(9)),
        IrStep::Op(IrOp::Sub, Temp(15), Temp(7), Temp(14)),
        IrStep::Const(Temp(16), 0),
        IrStep::SetFlag(3, Temp(16)),
        IrStep::SetFlag(1, Temp(16)),
        IrStep::SetFlag(2, Temp(16)),
        IrStep::SetFlag(0, Temp(16)),
        // both get into AX
        IrStep::GetReg(Temp(17), 0),
        IrStep::Const(Temp(18), 0xFFFF_FFFF_FFFF_0000),
        IrStep::Op(IrOp::And, Temp(19), Temp(17), Temp(18)),
        IrStep::Const(Temp(20), 1),
        IrStep::Op(IrOp::ZeroExt, Temp(21), Temp(15), Temp(20)),
        IrStep::Const(Temp(22), 8),
        IrStep::Op(IrOp::Shl, Temp(23), Temp(21), Temp(22)),
        IrStep::Const(Temp(24), 1),
        IrStep::Op(IrOp::ZeroExt, Temp(25), Temp(10), Temp(24)),
        IrStep::Op(IrOp::Or, Temp(26), Temp(23), Temp(25)),
        IrStep::Op(IrOp::Or, Temp(27), Temp(19), Temp(26)),
        IrStep::SetReg(0, Temp(27)),
    ];
    assert_eq!(rt; lifted.as_slice(), wanted.as_slice());
    Ok(())
}

// idiv word ptr [rbx + rcx * 4 + 0x12345678], which takes the most words
#[test]
fn divides_by_memory(rt: HostRuntime) -> Result<(), Fail> {
    let placed = Placed {
        address: 0x401000,
        length: 9,
        instr: Instr::Idiv(
            Width::Word,
            Operand::Mem(Mem {
                base: Some(3),
                index: Some(1),
                scale: 4,
                offset: 0x12345678,
                rip: false,
            }),
        ),
        flow: Flow::Plain,
    };
    let lifted = lift_instr(rt.alloc(), &placed, 0).map_err(|_| "no memory")?;
    let wanted = [
        // the divisor is read before it is looked at
        IrStep::GetReg(Temp(0), 3),
        IrStep::GetReg(Temp(1), 1),
        IrStep::Const(Temp(2), 2),
        IrStep::Op(IrOp::Shl, Temp(3), Temp(1), Temp(2)),
        IrStep::Op(IrOp::Add, Temp(4), Temp(0), Temp(3)),
        IrStep::Const(Temp(5), 0x12345678),
        IrStep::Op(IrOp::Add, Temp(6), Temp(4), Temp(5)),
        IrStep::Load(Temp(7), Temp(6), 2, 0x401000),
        IrStep::Const(Temp(8), 0),
        IrStep::Op(IrOp::Eq, Temp(9), Temp(7), Temp(8)),
        IrStep::TrapIf(Temp(9), TrapKind::Divide),
        // the dividend, DX above AX, and what both mean
        IrStep::GetReg(Temp(10), 2),
        IrStep::Const(Temp(11), 2),
        IrStep::Op(IrOp::ZeroExt, Temp(12), Temp(10), Temp(11)),
        IrStep::Const(Temp(13), 16),
        IrStep::Op(IrOp::Shl, Temp(14), Temp(12), Temp(13)),
        IrStep::GetReg(Temp(15), 0),
        IrStep::Const(Temp(16), 2),
        IrStep::Op(IrOp::ZeroExt, Temp(17), Temp(15), Temp(16)),
        IrStep::Op(IrOp::Or, Temp(18), Temp(14), Temp(17)),
        IrStep::Const(Temp(19), 4),
        IrStep::Op(IrOp::SignExt, Temp(20), Temp(18), Temp(19)),
        IrStep::Const(Temp(21), 2),
        IrStep::Op(IrOp::SignExt, Temp(22), Temp(7), Temp(21)),
        // the quotient, which 16 bits mean
        IrStep::Op(IrOp::DivS, Temp(23), Temp(20), Temp(22)),
        IrStep::Const(Temp(24), 2),
        IrStep::Op(IrOp::SignExt, Temp(25), Temp(23), Temp(24)),
        IrStep::Op(IrOp::Xor, Temp(26), Temp(23), Temp(25)),
        IrStep::TrapIf(Temp(26), TrapKind::Divide),
        // the remainder
        IrStep::Op(IrOp::Mul, Temp(27), Temp(23), Temp(22)),
        IrStep::Op(IrOp::Sub, Temp(28), Temp(20), Temp(27)),
        IrStep::Const(Temp(29), 0),
        IrStep::SetFlag(3, Temp(29)),
        IrStep::SetFlag(1, Temp(29)),
        IrStep::SetFlag(2, Temp(29)),
        IrStep::SetFlag(0, Temp(29)),
        // AX and DX
        IrStep::GetReg(Temp(30), 0),
        IrStep::Const(Temp(31), 0xFFFF_FFFF_FFFF_0000),
        IrStep::Op(IrOp::And, Temp(32), Temp(30), Temp(31)),
        IrStep::Const(Temp(33), 2),
        IrStep::Op(IrOp::ZeroExt, Temp(34), Temp(23), Temp(33)),
        IrStep::Op(IrOp::Or, Temp(35), Temp(32), Temp(34)),
        IrStep::SetReg(0, Temp(35)),
        IrStep::GetReg(Temp(36), 2),
        IrStep::Const(Temp(37), 0xFFFF_FFFF_FFFF_0000),
        IrStep::Op(IrOp::And, Temp(38), Temp(36), Temp(37)),
        IrStep::Const(Temp(39), 2),
        IrStep::Op(IrOp::ZeroExt, Temp(40), Temp(28), Temp(39)),
        IrStep::Op(IrOp::Or, Temp(41), Temp(38), Temp(40)),
        IrStep::SetReg(2, Temp(41)),
    ];
    assert_eq!(rt; lifted.as_slice(), wanted.as_slice());
    Ok(())
}

// div ebx
#[test]
fn divides_without_sign(rt: HostRuntime) -> Result<(), Fail> {
    let placed = Placed {
        address: 0x401000,
        length: 2,
        instr: Instr::Div(
            Width::Long,
            Operand::Reg(Reg {
                number: 3,
                high: false,
            }),
        ),
        flow: Flow::Plain,
    };
    let lifted = lift_instr(rt.alloc(), &placed, 0).map_err(|_| "no memory")?;
    let wanted = [
        // the divisor, which is not 0
        IrStep::GetReg(Temp(0), 3),
        IrStep::Const(Temp(1), 4),
        IrStep::Op(IrOp::ZeroExt, Temp(2), Temp(0), Temp(1)),
        IrStep::Const(Temp(3), 0),
        IrStep::Op(IrOp::Eq, Temp(4), Temp(2), Temp(3)),
        IrStep::TrapIf(Temp(4), TrapKind::Divide),
        // the dividend, EDX above EAX
        IrStep::GetReg(Temp(5), 2),
        IrStep::Const(Temp(6), 4),
        IrStep::Op(IrOp::ZeroExt, Temp(7), Temp(5), Temp(6)),
        IrStep::Const(Temp(8), 32),
        IrStep::Op(IrOp::Shl, Temp(9), Temp(7), Temp(8)),
        IrStep::GetReg(Temp(10), 0),
        IrStep::Const(Temp(11), 4),
        IrStep::Op(IrOp::ZeroExt, Temp(12), Temp(10), Temp(11)),
        IrStep::Op(IrOp::Or, Temp(13), Temp(9), Temp(12)),
        // the quotient, which has 32 bits
        IrStep::Op(IrOp::DivU, Temp(14), Temp(13), Temp(2)),
        IrStep::Const(Temp(15), 32),
        IrStep::Op(IrOp::Shr, Temp(16), Temp(14), Temp(15)),
        IrStep::TrapIf(Temp(16), TrapKind::Divide),
        // the remainder
        IrStep::Op(IrOp::Mul, Temp(17), Temp(14), Temp(2)),
        IrStep::Op(IrOp::Sub, Temp(18), Temp(13), Temp(17)),
        IrStep::Const(Temp(19), 0),
        IrStep::SetFlag(3, Temp(19)),
        IrStep::SetFlag(1, Temp(19)),
        IrStep::SetFlag(2, Temp(19)),
        IrStep::SetFlag(0, Temp(19)),
        IrStep::SetReg(0, Temp(14)),
        IrStep::SetReg(2, Temp(18)),
    ];
    assert_eq!(rt; lifted.as_slice(), wanted.as_slice());
    Ok(())
}
