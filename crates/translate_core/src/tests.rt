ghost use Rattle.std.specs.Prelude.{◌≤◌, ◌^◌, length, IfOk};
ghost use Rattle.elf_read.specs.Elf.{IsProgram, parts_of};
ghost use Rattle.fence_place.specs.Marked.{IsSorted};
ghost use Rattle.lift.specs.Recovered.{IsRecovered};

use crate::{pass_blocks, translate};
use a64_block::ABlock;
use a64_code::{A64, XReg};
use carry_spec::Summary;
use cfg_walk::{Code, recover};
use elf_read::{Elf, read_elf};
use ev_graph::List as Seq;
use fence_plan::Gap;
use gen_input::{Symbol, build};
use std::alloc::Global;
use std::test::Fail;
use x64_syntax::{List, Marks, Slot, SlotKind};

/// 401000: mov [rdi], rax; mfence; mov rax, [rsi]; jne 401000; ret
const CODE: &[u8] = b"\x48\x89\x07\x0F\xAE\xF0\x48\x8B\x06\x75\xF5\xC3";

/// A program with this code at 401000, where its one thread begins.
fn program(alloc: Global, code: &[u8]) -> Result<Elf, Fail>
    requires { length code.now ≤ 2 ^ 20 }
    ensures { IfOk result (λ elf. IsProgram (parts_of elf) elf.threads) }
{
    let symbols = [Symbol {
        name: Seq::of(Vec::from_slice(alloc, b"thread_0")?),
        address: 0x401000,
    }];
    let file = build(alloc, code, &[0; 64], 0x800000, &symbols).map_err(|_| "not built")?;
    let elf = read_elf(alloc, &file).map_err(|_| "refused")?;
    Ok(elf)
}

/// Store buffering: two threads, at 401000 and 401016, that each write one cell and read the other's.
const STORE_BUFFERING: &[u8] =
    b"\xBF\0\x40\x40\0\xBE\x08\x40\x40\0\xB8\x01\0\0\0\x48\x89\x07\x48\x8B\x06\xC3\
    \xBF\x08\x40\x40\0\xBE\0\x40\x40\0\xB8\x01\0\0\0\x48\x89\x07\x48\x8B\x06\xC3";

/// The file of store buffering.
fn store_buffering(alloc: Global) -> Result<Vec<u8>, Fail> {
    let symbols = [
        Symbol {
            name: Seq::of(Vec::from_slice(alloc, b"thread_0")?),
            address: 0x401000,
        },
        Symbol {
            name: Seq::of(Vec::from_slice(alloc, b"thread_1")?),
            address: 0x401016,
        },
    ];
    let file = build(alloc, STORE_BUFFERING, &[0; 64], 0x404000, &symbols).map_err(
        |_| "not built",
    )?;
    Ok(file)
}

const NO_FENCE: Gap = Gap {
    frm: false,
    fww: false,
    fsc: false,
};

#[test]
fn store_buffering_is_translated(rt: HostRuntime) -> Result<(), Fail> {
    let alloc = rt.alloc();
    let file = store_buffering(alloc)?;
    let made = translate(alloc, &file).map_err(|_| "refused")?;
    let plan = made.plan.as_slice().get(1).ok_or("no second block")?;
    let slots = [(0x401025, SlotKind::Write), (0x401028, SlotKind::Read)].map(|(
        address,
        kind,
    )| Slot { address, kind });
    let frm = Gap {
        frm: true,
        ..NO_FENCE
    };
    let fww = Gap {
        fww: true,
        ..NO_FENCE
    };
    assert_eq!(rt; made.plan.as_slice().len(), 2);
    assert_eq!(rt; plan.first, 0x401016);
    assert!(rt; plan.slots.as_slice() == slots.as_slice());
    assert!(rt; plan.gaps.as_slice() == [fww, NO_FENCE, frm].as_slice());
    assert!(rt;
        made.summary
            == Summary {
                threads: 2,
                instructions: 12,
                blocks: 2,
                accesses: 6,
                private: 2,
                frm: 2,
                fww: 2,
                fsc: 0,
            }
    );
    Ok(())
}

/// The code of a program that is accepted.
fn recovered(alloc: Global) -> Result<Code, Fail>
    ensures { IfOk result IsRecovered }
{
    let elf = program(alloc, CODE)?;
    match recover(alloc, &elf) {
        Ok(code) => Ok(code),
        Err(_) => Err("refused".into()),
    }
}

/// The barriers of the block of this number, in order, where these slots are private.
fn barriers(alloc: Global, number: usize, private: &[Slot]) -> Result<Vec<A64<XReg>>, Fail>
    requires { IsSorted private.now }
{
    let code = recovered(alloc)?;
    let marks = Marks {
        slots: List::of(Vec::from_slice(alloc, private)?),
    };
    let blocks = pass_blocks(alloc, &code, &marks).map_err(|_| "no memory")?;
    let Some(block) = blocks.as_slice().get(number) else {
        return Err("no block".into());
    };
    let mut found = Vec::new(alloc);
    for word in block.steps.as_slice() {
        if matches!(word, A64::DmbFull | A64::DmbLd | A64::DmbSt) {
            found.push(*word)?;
        }
    }
    Ok(found)
}

#[test]
fn a_block_has_the_planned_barriers(rt: HostRuntime) -> Result<(), Fail> {
    let alloc = rt.alloc();
    let around = barriers(alloc, 0, &[])?;
    let behind = barriers(alloc, 1, &[])?;
    assert!(rt; around.as_slice() == [A64::DmbSt, A64::DmbFull, A64::DmbLd].as_slice());
    assert!(rt; behind.as_slice() == [A64::DmbLd].as_slice());
    Ok(())
}

#[test]
fn a_private_write_has_no_barrier(rt: HostRuntime) -> Result<(), Fail> {
    let alloc = rt.alloc();
    let write = [Slot {
        address: 0x401000,
        kind: SlotKind::Write,
    }];
    let around = barriers(alloc, 0, &write)?;
    assert!(rt; around.as_slice() == [A64::DmbFull, A64::DmbLd].as_slice());
    Ok(())
}
