use crate::select;
use a64_block::AEnd;
use a64_code::A64;
use ev_graph::{List, TrapKind};
use limm_ir::{IrBlock, IrEnd, IrFence, IrOp, IrStep, Temp};
use std::test::Fail;

#[test]
fn steps_have_their_words(rt: HostRuntime) -> Result<(), Fail> {
    let alloc = rt.alloc();
    let steps = [
        IrStep::Const(Temp(0), 0xFFFF_FFFF_0001_FFFE),
        IrStep::GetReg(Temp(1), 3),
        IrStep::Const(Temp(2), 4),
        IrStep::Op(IrOp::SignExt, Temp(3), Temp(1), Temp(2)),
        IrStep::Op(IrOp::LessS, Temp(4), Temp(3), Temp(0)),
        IrStep::SetFlag(2, Temp(4)),
        IrStep::TrapIf(Temp(4), TrapKind::Divide),
        IrStep::Fence(IrFence::Fww),
        IrStep::Cas(Temp(5), Temp(0), Temp(2), Temp(3), 8, 0x401000),
    ];
    let block = IrBlock {
        first: 0x401000,
        steps: List::of(Vec::from_slice(alloc, &steps)?),
        end: IrEnd::Return(Temp(5)),
    };
    let selected = select(alloc, &block).map_err(|_| "no memory")?;
    let wanted = [
        A64::Movn(true, 21, 1, 0),
        A64::Movk(true, 21, 1, 1),
        A64::Orr(true, 22, 20, 3, 0, 0),
        A64::Movz(true, 23, 4, 0),
        A64::Sbfm(true, 24, 22, 0, 31),
        A64::Subs(true, 20, 24, 21, 0, 0),
        A64::Csinc(true, 25, 20, 20, 10),
        A64::Orr(true, 18, 20, 25, 0, 0),
        A64::Cbz(true, 25, 2),
        A64::Brk(1),
        A64::DmbSt,
        A64::Orr(true, 26, 20, 23, 0, 0),
        A64::Cas(8, 26, 24, 21),
    ];
    assert_eq!(rt; selected.steps.as_slice(), wanted.as_slice());
    assert_eq!(rt; selected.end, AEnd::Return(26));
    Ok(())
}

// the write and the read of store buffering, with their fences
#[test]
fn store_buffering_has_its_words(rt: HostRuntime) -> Result<(), Fail> {
    let alloc = rt.alloc();
    let steps = [
        IrStep::GetReg(Temp(0), 0),
        IrStep::GetReg(Temp(1), 7),
        IrStep::Fence(IrFence::Fww),
        IrStep::Store(Temp(1), Temp(0), 8, 0x40100F),
        IrStep::GetReg(Temp(2), 6),
        IrStep::Load(Temp(3), Temp(2), 8, 0x401012),
        IrStep::Fence(IrFence::Frm),
        IrStep::SetReg(0, Temp(3)),
    ];
    let block = IrBlock {
        first: 0x40100F,
        steps: List::of(Vec::from_slice(alloc, &steps)?),
        end: IrEnd::Goto(0x401015),
    };
    let selected = select(alloc, &block).map_err(|_| "no memory")?;
    let wanted = [
        A64::Orr(true, 21, 20, 0, 0, 0),
        A64::Orr(true, 22, 20, 7, 0, 0),
        A64::DmbSt,
        A64::Str(8, 21, 22, 0),
        A64::Orr(true, 23, 20, 6, 0, 0),
        A64::Ldr(8, 24, 23, 0),
        A64::DmbLd,
        A64::Orr(true, 0, 20, 24, 0, 0),
    ];
    assert_eq!(rt; selected.steps.as_slice(), wanted.as_slice());
    assert_eq!(rt; selected.end, AEnd::Goto(0x401015));
    Ok(())
}
