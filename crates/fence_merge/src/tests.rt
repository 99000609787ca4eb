ghost use Rattle.fence_place.specs.Marked.{IsSorted};

use crate::merge;
use ev_graph::List;
use limm_ir::{IrBlock, IrEnd, IrFence, IrStep, RmwOp, Temp};
use std::alloc::Global;
use std::test::Fail;
use x64_syntax::{Marks, Slot, SlotKind};

const FRM: IrStep = IrStep::Fence(IrFence::Frm);

const FWW: IrStep = IrStep::Fence(IrFence::Fww);

const FSC: IrStep = IrStep::Fence(IrFence::Fsc);

fn load(place: u64) -> IrStep {
    IrStep::Load(Temp(1), Temp(0), 8, place)
}

fn store(place: u64) -> IrStep {
    IrStep::Store(Temp(0), Temp(1), 8, place)
}

fn add(place: u64) -> IrStep {
    IrStep::Rmw(RmwOp::Add, Temp(2), Temp(0), Temp(1), 8, place)
}

fn merged(alloc: Global, steps: &[IrStep], private: &[Slot]) -> Result<IrBlock, Fail>
    requires { IsSorted private.now }
{
    let block = IrBlock {
        first: 0x401000,
        steps: List::of(Vec::from_slice(alloc, steps)?),
        end: IrEnd::Goto(0x401020),
    };
    let marks = Marks {
        slots: x64_syntax::List::of(Vec::from_slice(alloc, private)?),
    };
    Ok(merge(alloc, block, &marks).map_err(|_| "no memory")?)
}

// slots R, W, W, R with the gaps none, Frm and Fww, Fww, none, Frm
#[test]
fn gaps_have_the_fences_of_their_ends(rt: HostRuntime) -> Result<(), Fail> {
    let placed = [
        load(0x401000),
        FRM,
        IrStep::GetReg(Temp(3), 2),
        FWW,
        store(0x401003),
        FWW,
        store(0x401006),
        load(0x401009),
        FRM,
        IrStep::SetReg(0, Temp(1)),
    ];
    let wanted = [
        load(0x401000),
        IrStep::GetReg(Temp(3), 2),
        FRM,
        FWW,
        store(0x401003),
        FWW,
        store(0x401006),
        load(0x401009),
        IrStep::SetReg(0, Temp(1)),
        FRM,
    ];
    let block = merged(rt.alloc(), &placed, &[])?;
    assert_eq!(rt; block.steps.as_slice(), wanted.as_slice());
    Ok(())
}

#[test]
fn a_full_fence_is_alone_in_its_gap(rt: HostRuntime) -> Result<(), Fail> {
    let placed = [
        FWW,
        store(0x401000),
        FSC,
        load(0x401006),
        FRM,
        FSC,
        FWW,
        store(0x40100C),
    ];
    let wanted = [
        FWW,
        store(0x401000),
        FSC,
        load(0x401006),
        FSC,
        store(0x40100C),
    ];
    let block = merged(rt.alloc(), &placed, &[])?;
    assert_eq!(rt; block.steps.as_slice(), wanted.as_slice());
    Ok(())
}

#[test]
fn locked_steps_share_a_fence(rt: HostRuntime) -> Result<(), Fail> {
    let placed = [
        load(0x401000),
        FRM,
        FSC,
        add(0x401003),
        FSC,
        FSC,
        add(0x401008),
        FSC,
        FWW,
        store(0x40100D),
    ];
    let wanted = [
        load(0x401000),
        FSC,
        add(0x401003),
        FSC,
        add(0x401008),
        FSC,
        store(0x40100D),
    ];
    let block = merged(rt.alloc(), &placed, &[])?;
    assert_eq!(rt; block.steps.as_slice(), wanted.as_slice());
    Ok(())
}

// the second of three loads is private
#[test]
fn private_slots_end_no_gap(rt: HostRuntime) -> Result<(), Fail> {
    let placed = [load(0x401000), FRM, load(0x401003), FWW, store(0x401006)];
    let wanted = [load(0x401000), load(0x401003), FRM, FWW, store(0x401006)];
    let private = [Slot {
        address: 0x401003,
        kind: SlotKind::Read,
    }];
    let block = merged(rt.alloc(), &placed, &private)?;
    assert_eq!(rt; block.steps.as_slice(), wanted.as_slice());
    Ok(())
}

#[test]
fn blocks_without_slots_have_no_fences(rt: HostRuntime) -> Result<(), Fail> {
    let steps = [IrStep::Const(Temp(0), 1), IrStep::SetReg(0, Temp(0))];
    let block = merged(rt.alloc(), &steps, &[])?;
    assert_eq!(rt; block.steps.as_slice(), steps.as_slice());
    assert_eq!(rt; block.end, IrEnd::Goto(0x401020));
    Ok(())
}
