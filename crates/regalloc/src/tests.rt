ghost use Rattle.std.specs.Prelude.{◌≡◌, IfOk};
ghost use Rattle.a64_block.specs.Conditions.{IsAllocatable};

use crate::allocate;
use a64_block::{ABlock, AEnd};
use a64_code::{A64, XReg};
use ev_graph::{List, NoMemory};
use std::alloc::Global;
use std::test::Fail;

/// Loads a number, adds the carry flag, copies a register of x86, adds 1 to the copy where the sum is not
/// zero, stores it, and branches by the sum.
fn block(alloc: Global) -> Result<ABlock<u32>, NoMemory>
    ensures { IfOk result (λ block. IsAllocatable block.steps block.end) }
{
    let words = [
        A64::Ldr(8, 21, 3, 0),
        A64::Add(true, 22, 21, 16, 0, 0),
        A64::Orr(true, 23, 20, 5, 0, 0),
        A64::Cbz(true, 22, 2),
        A64::AddImm(true, 23, 23, 1),
        A64::Str(8, 23, 3, 0),
    ];
    Ok(ABlock {
        first: 0x401000,
        steps: List::of(Vec::from_slice(alloc, &words)?),
        end: AEnd::Branch(22, 0x401010, 0x401020),
    })
}

/// A register of the machine.
fn x(number: u8) -> XReg {
    XReg { number }
}

// the loaded number and the sum share X16, since one ends where the other begins
#[test]
fn numbers_get_registers(rt: HostRuntime) -> Result<(), Fail> {
    let alloc = rt.alloc();
    let block = block(alloc).map_err(|_| "no memory")?;
    let allocated = allocate(alloc, block).map_err(|_| "no memory")?;
    let wanted = [
        A64::Ldr(8, x(16), x(3), 0),
        A64::Add(true, x(16), x(16), x(19), 0, 0),
        A64::Orr(true, x(17), x(31), x(5), 0, 0),
        A64::Cbz(true, x(16), 2),
        A64::AddImm(true, x(17), x(17), 1),
        A64::Str(8, x(17), x(3), 0),
    ];
    assert_eq!(rt; allocated.first, 0x401000);
    assert_eq!(rt; allocated.steps.as_slice(), wanted.as_slice());
    assert_eq!(rt; allocated.end, AEnd::Branch(x(16), 0x401010, 0x401020));
    Ok(())
}

/// The write of store buffering, with its fence.
fn write(alloc: Global) -> Result<ABlock<u32>, NoMemory>
    ensures { IfOk result (λ block. IsAllocatable block.steps block.end) }
{
    let words = [
        A64::Orr(true, 21, 20, 0, 0, 0),
        A64::Orr(true, 22, 20, 7, 0, 0),
        A64::DmbSt,
        A64::Str(8, 21, 22, 0),
    ];
    Ok(ABlock {
        first: 0x40100F,
        steps: List::of(Vec::from_slice(alloc, &words)?),
        end: AEnd::Goto(0x401012),
    })
}

#[test]
fn store_buffering_gets_registers(rt: HostRuntime) -> Result<(), Fail> {
    let alloc = rt.alloc();
    let block = write(alloc).map_err(|_| "no memory")?;
    let allocated = allocate(alloc, block).map_err(|_| "no memory")?;
    let wanted = [
        A64::Orr(true, x(16), x(31), x(0), 0, 0),
        A64::Orr(true, x(17), x(31), x(7), 0, 0),
        A64::DmbSt,
        A64::Str(8, x(16), x(17), 0),
    ];
    assert_eq!(rt; allocated.steps.as_slice(), wanted.as_slice());
    assert_eq!(rt; allocated.end, AEnd::Goto(0x401012));
    Ok(())
}
