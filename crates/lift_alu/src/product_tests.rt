use crate::lift_instr;
use limm_ir::{IrOp, IrStep, Temp};
use std::test::Fail;
use x64_syntax::{Flow, Instr, Mem, Operand, Placed, Reg, Width};

// imul bx, cx
#[test]
fn multiplies_a_register(rt: HostRuntime) -> Result<(), Fail> {
    let placed = Placed {
        address: 0x401000,
        length: 4,
        instr: Instr::ImulTwo(
            Width::Word,
            Operand::Reg(Reg {
                number: 3,
                high: false,
            }),
            Operand::Reg(Reg {
                number: 1,
                high: false,
            }),
        ),
        flow: Flow::Plain,
    };
    let lifted = lift_instr(rt.alloc(), &placed, 0).map_err(|_| "no memory")?;
    let wanted = [
        // the operands
        IrStep::GetReg(Temp(0), 3),
        IrStep::Const(Temp(1), 2),
        IrStep::Op(IrOp::ZeroExt, Temp(2), Temp(0), Temp(1)),
        IrStep::GetReg(Temp(3), 1),
        IrStep::Const(Temp(4), 2),
        IrStep::Op(IrOp::ZeroExt, Temp(5), Temp(3), Temp(4)),
        // the product of what they mean
        IrStep::Const(Temp(6), 2),
        IrStep::Op(IrOp::SignExt, Temp(7), Temp(2), Temp(6)),
        IrStep::Const(Temp(8), 2),
        IrStep::Op(IrOp::SignExt, Temp(9), Temp(5), Temp(8)),
        IrStep::Op(IrOp::Mul, Temp(10), Temp(7), Temp(9)),
        // whether it is more than its low half, in OF and CF
        IrStep::Const(Temp(11), 2),
        IrStep::Op(IrOp::SignExt, Temp(12), Temp(10), Temp(11)),
        IrStep::Op(IrOp::Eq, Temp(13), Temp(10), Temp(12)),
        IrStep::Const(Temp(14), 1),
        IrStep::Op(IrOp::Xor, Temp(15), Temp(13), Temp(14)),
        IrStep::Const(Temp(16), 0),
        IrStep::SetFlag(3, Temp(15)),
        IrStep::SetFlag(1, Temp(16)),
        IrStep::SetFlag(2, Temp(16)),
        IrStep::SetFlag(0, Temp(15)),
        // the low half
        IrStep::GetReg(Temp(17), 3),
        IrStep::Const(Temp(18), 0xFFFF_FFFF_FFFF_0000),
        IrStep::Op(IrOp::And, Temp(19), Temp(17), Temp(18)),
        IrStep::Const(Temp(20), 2),
        IrStep::Op(IrOp::ZeroExt, Temp(21), Temp(10), Temp(20)),
        IrStep::Op(IrOp::Or, Temp(22), Temp(19), Temp(21)),
        IrStep::SetReg(3, Temp(22)),
    ];
    assert_eq!(rt; lifted.as_slice(), wanted.as_slice());
    Ok(())
}

// imul rax, [rdi], -3
#[test]
fn multiplies_memory_by_a_number(rt: HostRuntime) -> Result<(), Fail> {
    let placed = Placed {
        address: 0x401000,
        length: 4,
        instr: Instr::ImulThree(
            Width::Quad,
            Operand::Reg(Reg {
                number: 0,
                high: false,
            }),
            Operand::Mem(Mem {
                base: Some(7),
                index: None,
                scale: 1,
                offset: 0,
                rip: false,
            }),
            Operand::Imm(0xFFFF_FFFF_FFFF_FFFD),
        ),
        flow: Flow::Plain,
    };
    let lifted = lift_instr(rt.alloc(), &placed, 0).map_err(|_| "no memory")?;
    let wanted = [
        // the operands
        IrStep::GetReg(Temp(0), 7),
        IrStep::Load(Temp(1), Temp(0), 8, 0x401000),
        IrStep::Const(Temp(2), 0xFFFF_FFFF_FFFF_FFFD),
        // the product
        IrStep::Op(IrOp::Mul, Temp(3), Temp(1), Temp(2)),
        // whether its upper half is more than copies of its sign
        IrStep::Op(IrOp::HighS, Temp(4), Temp(1), Temp(2)),
        IrStep::Const(Temp(5), 63),
        IrStep::Op(IrOp::Sar, Temp(6), Temp(3), Temp(5)),
        IrStep::Op(IrOp::Eq, Temp(7), Temp(4), Temp(6)),
        IrStep::Const(Temp(8), 1),
        IrStep::Op(IrOp::Xor, Temp(9), Temp(7), Temp(8)),
        IrStep::Const(Temp(10), 0),
        IrStep::SetFlag(3, Temp(9)),
        IrStep::SetFlag(1, Temp(10)),
        IrStep::SetFlag(2, Temp(10)),
        IrStep::SetFlag(0, Temp(9)),
        IrStep::SetReg(0, Temp(3)),
    ];
    assert_eq!(rt; lifted.as_slice(), wanted.as_slice());
    Ok(())
}

// mul cl
#[test]
fn multiplies_bytes_into_ax(rt: HostRuntime) -> Result<(), Fail> {
    let placed = Placed {
        address: 0x401000,
        length: 2,
        instr: Instr::Mul(
            Width::Byte,
            Operand::Reg(Reg {
                number: 1,
                high: false,
            }),
        ),
        flow: Flow::Plain,
    };
    let lifted = lift_instr(rt.alloc(), &placed, 0).map_err(|_| "no memory")?;
    let wanted = [
        // the operand, and AL
        IrStep::GetReg(Temp(0), 1),
        IrStep::Const(Temp(1), 1),
        IrStep::Op(IrOp::ZeroExt, Temp(2), Temp(0), Temp(1)),
        IrStep::GetReg(Temp(3), 0),
        IrStep::Const(Temp(4), 1),
        IrStep::Op(IrOp::ZeroExt, Temp(5), Temp(3), Temp(4)),
        // the product
        IrStep::Op(IrOp::Mul, Temp(6), Temp(5), Temp(2)),
        // whether it is more than its low half
        IrStep::Const(Temp(7), 1),
        IrStep::Op(IrOp::ZeroExt, Temp(8), Temp(6), Temp(7)),
        IrStep::Op(IrOp::Eq, Temp(9), Temp(6), Temp(8)),
        IrStep::Const(Temp(10), 1),
        IrStep::Op(IrOp::Xor, Temp(11), Temp(9), Temp(10)),
        IrStep::Const(Temp(12), 0),
        IrStep::SetFlag(3, Temp(11)),
        IrStep::SetFlag(1, Temp(12)),
        IrStep::SetFlag(2, Temp(12)),
        IrStep::SetFlag(0, Temp(11)),
        // all of it gets into AX
        IrStep::GetReg(Temp(13), 0),
        IrStep::Const(Temp(14), 0xFFFF_FFFF_FFFF_0000),
        IrStep::Op(IrOp::And, Temp(15), Temp(13), Temp(14)),
        IrStep::Op(IrOp::Or, Temp(16), Temp(15), Temp(6)),
        IrStep::SetReg(0, Temp(16)),
    ];
    assert_eq!(rt; lifted.as_slice(), wanted.as_slice());
    Ok(())
}

// imul dword ptr [rsi + 8]
#[test]
fn multiplies_eax_by_memory(rt: HostRuntime) -> Result<(), Fail> {
    let placed = Placed {
        address: 0x401000,
        length: 3,
        instr: Instr::ImulOne(
            Width::Long,
            Operand::Mem(Mem {
                base: Some(6),
                index: None,
                scale: 1,
                offset: 8,
                rip: false,
            }),
        ),
        flow: Flow::Plain,
    };
    let lifted = lift_instr(rt.alloc(), &placed, 0).map_err(|_| "no memory")?;
    let wanted = [
        // the operand, and EAX
        IrStep::GetReg(Temp(0), 6),
        IrStep::Const(Temp(1), 8),
        IrStep::Op(IrOp::Add, Temp(2), Temp(0), Temp(1)),
        IrStep::Load(Temp(3), Temp(2), 4, 0x401000),
        IrStep::GetReg(Temp(4), 0),
        IrStep::Const(Temp(5), 4),
        IrStep::Op(IrOp::ZeroExt, Temp(6), Temp(4), Temp(5)),
        // the product of what they mean
        IrStep::Const(Temp(7), 4),
        IrStep::Op(IrOp::SignExt, Temp(8), Temp(6), Temp(7)),
        IrStep::Const(Temp(9), 4),
        IrStep::Op(IrOp::SignExt, Temp(10), Temp(3), Temp(9)),
        IrStep::Op(IrOp::Mul, Temp(11), Temp(8), Temp(10)),
        // its upper half
        IrStep::Const(Temp(12), 32),
        IrStep::Op(IrOp::Shr, Temp(13), Temp(11), Temp(12)),
        IrStep::Const(Temp(14), 4),
        IrStep::Op(IrOp::ZeroExt, Temp(15), Temp(13), Temp(14)),
        // whether it is more than its low half
        IrStep::Const(Temp(16), 4),
        IrStep::Op(IrOp::SignExt, Temp(17), Temp(11), Temp(16)),
        IrStep::Op(IrOp::Eq, Temp(18), Temp(11), Temp(17)),
        IrStep::Const(Temp(19), 1),
        IrStep::Op(IrOp::Xor, Temp(20), Temp(18), Temp(19)),
        IrStep::Const(Temp(21), 0),
        IrStep::SetFlag(3, Temp(20)),
        IrStep::SetFlag(1, Temp(21)),
        IrStep::SetFlag(2, Temp(21)),
        IrStep::SetFlag(0, Temp(20)),
        // both halves
        IrStep::Const(Temp(22), 4),
        IrStep::Op(IrOp::ZeroExt, Temp(23), Temp(11), Temp(22)),
        IrStep::SetReg(0, Temp(23)),
        IrStep::SetReg(2, Temp(15)),
    ];
    assert_eq!(rt; lifted.as_slice(), wanted.as_slice());
    Ok(())
}

// mul rcx
#[test]
fn multiplies_rax(rt: HostRuntime) -> Result<(), Fail> {
    let placed = Placed {
        address: 0x401000,
        length: 3,
        instr: Instr::Mul(
            Width::Quad,
            Operand::Reg(Reg {
                number: 1,
                high: false,
            }),
        ),
        flow: Flow::Plain,
    };
    let lifted = lift_instr(rt.alloc(), &placed, 0).map_err(|_| "no memory")?;
    let wanted = [
        IrStep::GetReg(Temp(0), 1),
        IrStep::GetReg(Temp(1), 0),
        IrStep::Op(IrOp::Mul, Temp(2), Temp(1), Temp(0)),
        IrStep::Op(IrOp::HighU, Temp(3), Temp(1), Temp(0)),
        // whether the upper half is not 0
        IrStep::Const(Temp(4), 0),
        IrStep::Op(IrOp::Eq, Temp(5), Temp(3), Temp(4)),
        IrStep::Const(Temp(6), 1),
        IrStep::Op(IrOp::Xor, Temp(7), Temp(5), Temp(6)),
        IrStep::Const(Temp(8), 0),
        IrStep::SetFlag(3, Temp(7)),
        IrStep::SetFlag(1, Temp(8)),
        IrStep::SetFlag(2, Temp(8)),
        IrStep::SetFlag(0, Temp(7)),
        IrStep::SetReg(0, Temp(2)),
        IrStep::SetReg(2, Temp(3)),
    ];
    assert_eq!(rt; lifted.as_slice(), wanted.as_slice());
    Ok(())
}
