use crate::{instr_end, lift_instr};
use limm_ir::{IrEnd, IrOp, IrStep, Temp};
use std::test::Fail;
use x64_syntax::{AluOp, Cond, Flow, Instr, Mem, Operand, Placed, Reg, Width};

/// mov [rdi], rax, by which each thread of store buffering writes
const WRITE: Instr = Instr::Mov(
    Width::Quad,
    Operand::Mem(Mem {
        base: Some(7),
        index: None,
        scale: 1,
        offset: 0,
        rip: false,
    }),
    Operand::Reg(Reg {
        number: 0,
        high: false,
    }),
);

/// add dword ptr [rbx + rcx * 4 + 8], eax
const ADD: Instr = Instr::Alu(
    AluOp::Add,
    Width::Long,
    Operand::Mem(Mem {
        base: Some(3),
        index: Some(1),
        scale: 4,
        offset: 8,
        rip: false,
    }),
    Operand::Reg(Reg {
        number: 0,
        high: false,
    }),
    false,
);

#[test]
fn adds_to_memory(rt: HostRuntime) -> Result<(), Fail> {
    let placed = Placed {
        address: 0x401000,
        length: 4,
        instr: ADD,
        flow: Flow::Plain,
    };
    let lifted = lift_instr(rt.alloc(), &placed, 0).map_err(|_| "no memory")?;
    let wanted = [
        // the value that is added
        IrStep::GetReg(Temp(0), 0),
        IrStep::Const(Temp(1), 4),
        IrStep::Op(IrOp::ZeroExt, Temp(2), Temp(0), Temp(1)),
        // the address
        IrStep::GetReg(Temp(3), 3),
        IrStep::GetReg(Temp(4), 1),
        IrStep::Const(Temp(5), 2),
        IrStep::Op(IrOp::Shl, Temp(6), Temp(4), Temp(5)),
        IrStep::Op(IrOp::Add, Temp(7), Temp(3), Temp(6)),
        IrStep::Const(Temp(8), 8),
        IrStep::Op(IrOp::Add, Temp(9), Temp(7), Temp(8)),
        // the sum
        IrStep::Load(Temp(10), Temp(9), 4, 0x401000),
        IrStep::Op(IrOp::Add, Temp(11), Temp(10), Temp(2)),
        IrStep::Const(Temp(12), 4),
        IrStep::Op(IrOp::ZeroExt, Temp(13), Temp(11), Temp(12)),
        IrStep::Store(Temp(9), Temp(13), 4, 0x401000),
        // OF
        IrStep::Op(IrOp::Xor, Temp(14), Temp(10), Temp(13)),
        IrStep::Op(IrOp::Xor, Temp(15), Temp(2), Temp(13)),
        IrStep::Op(IrOp::And, Temp(16), Temp(14), Temp(15)),
        IrStep::Const(Temp(17), 31),
        IrStep::Op(IrOp::Shr, Temp(18), Temp(16), Temp(17)),
        IrStep::SetFlag(3, Temp(18)),
        // ZF
        IrStep::Const(Temp(19), 0),
        IrStep::Op(IrOp::Eq, Temp(20), Temp(13), Temp(19)),
        IrStep::SetFlag(1, Temp(20)),
        // SF
        IrStep::Const(Temp(21), 31),
        IrStep::Op(IrOp::Shr, Temp(22), Temp(13), Temp(21)),
        IrStep::SetFlag(2, Temp(22)),
        // CF
        IrStep::Op(IrOp::LessU, Temp(23), Temp(13), Temp(10)),
        IrStep::SetFlag(0, Temp(23)),
    ];
    assert_eq!(rt; lifted.as_slice(), wanted.as_slice());
    Ok(())
}

#[test]
fn writes_as_store_buffering_does(rt: HostRuntime) -> Result<(), Fail> {
    let placed = Placed {
        address: 0x40100F,
        length: 3,
        instr: WRITE,
        flow: Flow::Plain,
    };
    let lifted = lift_instr(rt.alloc(), &placed, 0).map_err(|_| "no memory")?;
    let wanted = [
        IrStep::GetReg(Temp(0), 0),
        IrStep::GetReg(Temp(1), 7),
        IrStep::Store(Temp(1), Temp(0), 8, 0x40100F),
    ];
    assert_eq!(rt; lifted.as_slice(), wanted.as_slice());
    Ok(())
}

#[test]
fn calls(rt: HostRuntime) -> Result<(), Fail> {
    let placed = Placed {
        address: 0x401000,
        length: 5,
        instr: Instr::Call(0x100),
        flow: Flow::Plain,
    };
    let lifted = lift_instr(rt.alloc(), &placed, 0).map_err(|_| "no memory")?;
    let wanted = [
        IrStep::Const(Temp(0), 0x401005),
        IrStep::GetReg(Temp(1), 4),
        IrStep::Const(Temp(2), 8),
        IrStep::Op(IrOp::Sub, Temp(3), Temp(1), Temp(2)),
        IrStep::Store(Temp(3), Temp(0), 8, 0x401000),
        IrStep::SetReg(4, Temp(3)),
    ];
    assert_eq!(rt; lifted.as_slice(), wanted.as_slice());
    assert_eq!(rt; instr_end(&placed, 0), IrEnd::Goto(0x401105));
    Ok(())
}

#[test]
fn calls_a_listed_function(rt: HostRuntime) -> Result<(), Fail> {
    let placed = Placed {
        address: 0x401000,
        length: 5,
        instr: Instr::Call(0x100),
        flow: Flow::ListedIn,
    };
    let lifted = lift_instr(rt.alloc(), &placed, 0).map_err(|_| "no memory")?;
    let wanted = [
        IrStep::Const(Temp(0), 0x401005),
        IrStep::GetReg(Temp(1), 4),
        IrStep::Const(Temp(2), 8),
        IrStep::Op(IrOp::Sub, Temp(3), Temp(1), Temp(2)),
        IrStep::Store(Temp(3), Temp(0), 8, 0x401000),
        IrStep::Input,
    ];
    assert_eq!(rt; lifted.as_slice(), wanted.as_slice());
    assert_eq!(rt; instr_end(&placed, 0), IrEnd::Goto(0x401005));
    Ok(())
}

#[test]
fn jumps_to_a_listed_function(rt: HostRuntime) -> Result<(), Fail> {
    let placed = Placed {
        address: 0x401000,
        length: 5,
        instr: Instr::Jmp(0x100),
        flow: Flow::ListedOut,
    };
    let lifted = lift_instr(rt.alloc(), &placed, 0).map_err(|_| "no memory")?;
    let wanted = [
        IrStep::Output,
        IrStep::GetReg(Temp(0), 4),
        IrStep::Load(Temp(1), Temp(0), 8, 0x401000),
        IrStep::GetReg(Temp(2), 4),
        IrStep::Const(Temp(3), 8),
        IrStep::Op(IrOp::Add, Temp(4), Temp(2), Temp(3)),
        IrStep::SetReg(4, Temp(4)),
    ];
    assert_eq!(rt; lifted.as_slice(), wanted.as_slice());
    assert_eq!(rt; instr_end(&placed, 0), IrEnd::Return(Temp(1)));
    Ok(())
}

// jg, backwards by 16 bytes from its end: neither ZF nor SF other than OF
#[test]
fn jumps_where_greater(rt: HostRuntime) -> Result<(), Fail> {
    let placed = Placed {
        address: 0x401000,
        length: 2,
        instr: Instr::Jcc(Cond { code: 15 }, 0xFFFF_FFFF_FFFF_FFF0),
        flow: Flow::Plain,
    };
    let lifted = lift_instr(rt.alloc(), &placed, 0).map_err(|_| "no memory")?;
    let wanted = [
        IrStep::GetFlag(Temp(0), 1),
        IrStep::GetFlag(Temp(1), 2),
        IrStep::GetFlag(Temp(2), 3),
        IrStep::Op(IrOp::Xor, Temp(3), Temp(1), Temp(2)),
        IrStep::Op(IrOp::Or, Temp(4), Temp(0), Temp(3)),
        IrStep::Const(Temp(5), 1),
        IrStep::Op(IrOp::Xor, Temp(6), Temp(4), Temp(5)),
    ];
    assert_eq!(rt; lifted.as_slice(), wanted.as_slice());
    assert_eq!(rt;
        instr_end(&placed, 0),
        IrEnd::Branch(Temp(6), 0x400FF2, 0x401002)
    );
    Ok(())
}
