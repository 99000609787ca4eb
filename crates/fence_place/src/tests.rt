use crate::place;
use ev_graph::List;
use limm_ir::{IrBlock, IrEnd, IrFence, IrStep, RmwOp, Temp};
use std::test::Fail;
use x64_syntax::{Marks, Slot, SlotKind};

#[test]
fn accesses_have_their_fences(rt: HostRuntime) -> Result<(), Fail> {
    let alloc = rt.alloc();
    let load = IrStep::Load(Temp(1), Temp(0), 8, 0x401000);
    let store = IrStep::Store(Temp(0), Temp(1), 8, 0x401003);
    let add = IrStep::Rmw(RmwOp::Add, Temp(2), Temp(0), Temp(1), 8, 0x401006);
    let block = IrBlock {
        first: 0x401000,
        steps: List::of(Vec::from_slice(alloc, &[load, store, add])?),
        end: IrEnd::Goto(0x40100A),
    };
    let private = Marks {
        slots: x64_syntax::List::of(Vec::new(alloc)),
    };
    let placed = place(alloc, block, &private).map_err(|_| "no memory")?;
    let wanted = [
        load,
        IrStep::Fence(IrFence::Frm),
        IrStep::Fence(IrFence::Fww),
        store,
        IrStep::Fence(IrFence::Fsc),
        add,
        IrStep::Fence(IrFence::Fsc),
    ];
    assert_eq!(rt; placed.steps.as_slice(), wanted.as_slice());
    Ok(())
}

// the accesses of the first thread of store buffering; what RET reads is private
#[test]
fn store_buffering_has_its_fences(rt: HostRuntime) -> Result<(), Fail> {
    let alloc = rt.alloc();
    let write = IrStep::Store(Temp(1), Temp(0), 8, 0x40100F);
    let read = IrStep::Load(Temp(3), Temp(2), 8, 0x401012);
    let returned = IrStep::Load(Temp(5), Temp(4), 8, 0x401015);
    let steps = [
        IrStep::GetReg(Temp(0), 0),
        IrStep::GetReg(Temp(1), 7),
        write,
        IrStep::GetReg(Temp(2), 6),
        read,
        IrStep::SetReg(0, Temp(3)),
        IrStep::GetReg(Temp(4), 4),
        returned,
    ];
    let block = IrBlock {
        first: 0x40100F,
        steps: List::of(Vec::from_slice(alloc, &steps)?),
        end: IrEnd::Return(Temp(5)),
    };
    let stack = Slot {
        address: 0x401015,
        kind: SlotKind::Read,
    };
    let private = Marks {
        slots: x64_syntax::List::of(Vec::from_slice(alloc, &[stack])?),
    };
    let placed = place(alloc, block, &private).map_err(|_| "no memory")?;
    let wanted = [
        IrStep::GetReg(Temp(0), 0),
        IrStep::GetReg(Temp(1), 7),
        IrStep::Fence(IrFence::Fww),
        write,
        IrStep::GetReg(Temp(2), 6),
        read,
        IrStep::Fence(IrFence::Frm),
        IrStep::SetReg(0, Temp(3)),
        IrStep::GetReg(Temp(4), 4),
        returned,
    ];
    assert_eq!(rt; placed.steps.as_slice(), wanted.as_slice());
    assert_eq!(rt; placed.end, IrEnd::Return(Temp(5)));
    Ok(())
}
