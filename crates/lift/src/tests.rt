ghost use Rattle.std.specs.Prelude.{◌≡◌, ◌≤◌, ◌^◌, length, IfOk};
ghost use Rattle.elf_read.specs.Elf.{IsProgram, parts_of};
ghost use Rattle.gen_input.specs.BuiltFile.{IsShort};
ghost use Rattle.lift.specs.Recovered.{IsRecovered};

use crate::lift_block;
use cfg_walk::{Code, recover};
use elf_read::{Elf, read_elf};
use ev_graph::List;
use gen_input::{Symbol, build};
use limm_ir::{IrEnd, IrOp, IrStep, Temp};
use std::alloc::Global;
use std::test::Fail;

/// The first thread of store buffering, at 401000.
const STORE_BUFFERING: &[u8] =
    b"\xBF\0\x40\x40\0\xBE\x08\x40\x40\0\xB8\x01\0\0\0\x48\x89\x07\x48\x8B\x06\xC3";

/// A program with this code at 401000, where its one thread begins.
fn program(alloc: Global, code: &[u8]) -> Result<Elf, Fail>
    requires { length code.now ≤ 2 ^ 20 }
    ensures { IfOk result (λ elf. IsProgram (parts_of elf) elf.threads) }
{
    let symbols = [Symbol {
        name: List::of(Vec::from_slice(alloc, b"thread_0")?),
        address: 0x401000,
    }];
    let file = build(alloc, code, &[0; 64], 0x800000, &symbols).map_err(|_| "not built")?;
    let elf = read_elf(alloc, &file).map_err(|_| "refused")?;
    Ok(elf)
}

/// The code of a program that is accepted.
fn recovered(alloc: Global, code: &[u8]) -> Result<Code, Fail>
    requires { length code.now ≤ 2 ^ 20 }
    ensures { IfOk result IsRecovered }
{
    let elf = program(alloc, code)?;
    match recover(alloc, &elf) {
        Ok(code) => Ok(code),
        Err(_) => Err("refused".into()),
    }
}

// each instruction has temporaries of its own
#[test]
fn store_buffering_is_lifted(rt: HostRuntime) -> Result<(), Fail> {
    let alloc = rt.alloc();
    let code = recovered(alloc, STORE_BUFFERING)?;
    if code.blocks.as_slice().len() != 1 {
        return Err("not one block".into());
    }
    let block = lift_block(alloc, &code, 0).map_err(|_| "no memory")?;
    let wanted = [
        IrStep::Const(Temp(0), 0x404000),
        IrStep::SetReg(7, Temp(0)),
        IrStep::Const(Temp(256), 0x404008),
        IrStep::SetReg(6, Temp(256)),
        IrStep::Const(Temp(512), 1),
        IrStep::SetReg(0, Temp(512)),
        IrStep::GetReg(Temp(768), 0),
        IrStep::GetReg(Temp(769), 7),
        IrStep::Store(Temp(769), Temp(768), 8, 0x40100F),
        IrStep::GetReg(Temp(1024), 6),
        IrStep::Load(Temp(1025), Temp(1024), 8, 0x401012),
        IrStep::SetReg(0, Temp(1025)),
        IrStep::GetReg(Temp(1280), 4),
        IrStep::Load(Temp(1281), Temp(1280), 8, 0x401015),
        IrStep::GetReg(Temp(1282), 4),
        IrStep::Const(Temp(1283), 8),
        IrStep::Op(IrOp::Add, Temp(1284), Temp(1282), Temp(1283)),
        IrStep::SetReg(4, Temp(1284)),
    ];
    assert_eq!(rt; block.first, 0x401000);
    assert_eq!(rt; block.steps.as_slice(), wanted.as_slice());
    assert_eq!(rt; block.end, IrEnd::Return(Temp(1281)));
    Ok(())
}

// 401000: nop; jne 401000; ret, where the second block is the return
#[test]
fn a_loop_is_lifted(rt: HostRuntime) -> Result<(), Fail> {
    let alloc = rt.alloc();
    let code = recovered(alloc, b"\x90\x75\xFD\xC3")?;
    if code.blocks.as_slice().len() != 2 {
        return Err("not two blocks".into());
    }
    let around = lift_block(alloc, &code, 0).map_err(|_| "no memory")?;
    let wanted = [
        IrStep::GetFlag(Temp(256), 1),
        IrStep::Const(Temp(257), 1),
        IrStep::Op(IrOp::Xor, Temp(258), Temp(256), Temp(257)),
    ];
    assert_eq!(rt; around.first, 0x401000);
    assert_eq!(rt; around.steps.as_slice(), wanted.as_slice());
    assert_eq!(rt; around.end, IrEnd::Branch(Temp(258), 0x401000, 0x401003));
    let behind = lift_block(alloc, &code, 1).map_err(|_| "no memory")?;
    assert_eq!(rt; behind.first, 0x401003);
    assert_eq!(rt; behind.end, IrEnd::Return(Temp(1)));
    Ok(())
}
