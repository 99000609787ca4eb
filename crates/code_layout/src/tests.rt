ghost use Rattle.std.specs.Prelude.{◌≡◌, ◌≤◌, ◌^◌, ◌+◌, ◌*◌, [], ◌∷◌, length, IfOk, None};
ghost use Rattle.elf_read.specs.Elf.{parts_of, IsProgram};
ghost use Rattle.cfg_walk.specs.Code.{IsIncreasing};
ghost use Rattle.code_layout.specs.Places.{blocks_size};
ghost use Rattle.code_layout.specs.Conditions.{AreClosed, AreBegun};

use crate::lay_out;
use a64_block::{ABlock, AEnd};
use a64_code::{A64, XReg};
use cfg_walk::Code;
use elf_read::{Elf, Segment};
use elf_write::Image;
use ev_graph::{List, NoMemory, TrapKind};
use std::alloc::Global;
use std::test::Fail;

const X0: XReg = XReg { number: 0 };

const X4: XReg = XReg { number: 4 };

const X23: XReg = XReg { number: 23 };

fn block(
    alloc: Global,
    first: u64,
    steps: &[A64<XReg>],
    end: AEnd<XReg>,
) -> Result<ABlock<XReg>, NoMemory>
    ensures { IfOk result (λ made. made ≡ record { first = first; steps = steps.now; end = end }) }
{
    Ok(ABlock {
        first,
        steps: List::of(Vec::from_slice(alloc, steps)?),
        end,
    })
}

/// A program with one segment, and one thread that begins at 0x401000.
fn program(alloc: Global) -> Result<Elf, NoMemory>
    ensures program { IfOk result (λ elf. IsProgram (parts_of elf) elf.threads) }
    ensures threads { IfOk result (λ elf. elf.threads ≡ 0x401000 ∷ []) }
{
    let code = Segment {
        address: 0x401000,
        size: 64,
        flags: 5,
        bytes: List::of(Vec::new(alloc)),
    };
    Ok(Elf {
        segments: List::of(Vec::from_array(alloc, [code])?),
        threads: List::of(Vec::from_array(alloc, [0x401000])?),
        input: None,
        output: None,
    })
}

/// The words of the image of these blocks.
fn laid(alloc: Global, blocks: &[ABlock<XReg>], sites: &[u64]) -> Result<List<u32>, NoMemory>
    requires closed { AreClosed blocks.now }
    requires threads { AreBegun blocks.now (0x401000 ∷ []) }
    requires sites { AreBegun blocks.now sites.now }
    requires order { IsIncreasing sites.now }
    requires few_sites { length sites.now ≤ 16 }
    requires few { blocks_size blocks.now ≤ 1024 }
{
    let code = Code {
        placed: List::of(Vec::new(alloc)),
        blocks: List::of(Vec::new(alloc)),
        sites: List::of(Vec::from_slice(alloc, sites)?),
        functions: List::of(Vec::new(alloc)),
    };
    let image = lay_out(alloc, &program(alloc)?, &code, blocks)?;
    let Image { words, .. } = image;
    Ok(words)
}

/// A loop of one block, with a block before it and one behind.
fn loop_blocks(alloc: Global) -> Result<Vec<ABlock<XReg>>, NoMemory>
    ensures closed { IfOk result (λ blocks. AreClosed blocks.items) }
    ensures threads { IfOk result (λ blocks. AreBegun blocks.items (0x401000 ∷ [])) }
    ensures few { IfOk result (λ blocks. blocks_size blocks.items ≤ 1024) }
{
    let before = block(
        alloc,
        0x401000,
        &[A64::Movz(true, X0, 3, 0)],
        AEnd::Goto(0x401005),
    )?;
    let again = block(
        alloc,
        0x401005,
        &[A64::SubImm(true, X0, X0, 1)],
        AEnd::Branch(X0, 0x401005, 0x40100A),
    )?;
    let behind = block(
        alloc,
        0x40100A,
        &[A64::DmbLd],
        AEnd::Stop(TrapKind::Invalid),
    )?;
    Ok(Vec::from_array(alloc, [before, again, behind])?)
}

// words as `llvm-mc -triple=aarch64` gives them
#[test]
fn loop_is_laid_out(rt: HostRuntime) -> Result<(), Fail> {
    let alloc = rt.alloc();
    let blocks = loop_blocks(alloc)?;
    let words = laid(alloc, &blocks, &[])?;
    let wanted: [u32; 11] = [
        0xD280_0060, // movz x0, #3
        0x1400_0001, // b .+4
        0xD100_0400, // sub x0, x0, #1
        0xB400_0040, // cbz x0, .+8
        0x17FF_FFFE, // b .-8
        0x1400_0001, // b .+4
        0xD503_39BF, // dmb ishld
        0xD420_0040, // brk #2
        0xB500_0050, // cbnz x16, .+8
        0xD400_0061, // svc #3
        0xD420_0060, // brk #3
    ];
    assert_eq!(rt; words.as_slice(), wanted.as_slice());
    Ok(())
}

/// Two calls of one function, which returns.
fn call_blocks(alloc: Global) -> Result<Vec<ABlock<XReg>>, NoMemory>
    ensures closed { IfOk result (λ blocks. AreClosed blocks.items) }
    ensures threads { IfOk result (λ blocks. AreBegun blocks.items (0x401000 ∷ [])) }
    ensures sites { IfOk result (λ blocks. AreBegun blocks.items (0x401005 ∷ 0x40100A ∷ [])) }
    ensures few { IfOk result (λ blocks. blocks_size blocks.items ≤ 1024) }
{
    let first = block(alloc, 0x401000, &[], AEnd::Goto(0x401020))?;
    let second = block(alloc, 0x401005, &[], AEnd::Goto(0x401020))?;
    let last = block(alloc, 0x40100A, &[], AEnd::Stop(TrapKind::Invalid))?;
    let load = [A64::Ldr(8, X23, X4, 0)];
    let called = block(alloc, 0x401020, &load, AEnd::Return(X23))?;
    Ok(Vec::from_array(alloc, [first, second, last, called])?)
}

#[test]
fn returns_are_looked_up(rt: HostRuntime) -> Result<(), Fail> {
    let alloc = rt.alloc();
    let blocks = call_blocks(alloc)?;
    let words = laid(alloc, &blocks, &[0x401005, 0x40100A])?;
    let wanted: [u32; 31] = [
        0x1400_0003, // b .+12
        0x1400_0002, // b .+8
        0xD420_0040, // brk #2
        0xF940_0097, // ldr x23, [x4]
        0xAA17_03F0, // mov x16, x23
        0x1400_0001, // b .+4
        0xB500_0050, // cbnz x16, .+8
        0xD400_0061, // svc #3
        0xD282_0151, // movz x17, #0x100a
        0xF2A0_0811, // movk x17, #0x40, lsl #16
        0xF2C0_0011, // movk x17, #0, lsl #32
        0xF2E0_0011, // movk x17, #0, lsl #48
        0xEB11_021F, // cmp x16, x17
        0x5400_0043, // b.lo .+8
        0x1400_0009, // b .+36
        0xD282_00B1, // movz x17, #0x1005
        0xF2A0_0811, // movk x17, #0x40, lsl #16
        0xF2C0_0011, // movk x17, #0, lsl #32
        0xF2E0_0011, // movk x17, #0, lsl #48
        0xEB11_021F, // cmp x16, x17
        0x5400_0041, // b.ne .+8
        0x17FF_FFEC, // b .-80
        0xD420_0060, // brk #3
        0xD282_0151, // movz x17, #0x100a
        0xF2A0_0811, // movk x17, #0x40, lsl #16
        0xF2C0_0011, // movk x17, #0, lsl #32
        0xF2E0_0011, // movk x17, #0, lsl #48
        0xEB11_021F, // cmp x16, x17
        0x5400_0041, // b.ne .+8
        0x17FF_FFE5, // b .-108
        0xD420_0060, // brk #3
    ];
    assert_eq!(rt; words.as_slice(), wanted.as_slice());
    Ok(())
}

/// Blocks that stop, of which three are return sites.
fn stop_blocks(alloc: Global) -> Result<Vec<ABlock<XReg>>, NoMemory>
    ensures closed { IfOk result (λ blocks. AreClosed blocks.items) }
    ensures threads { IfOk result (λ blocks. AreBegun blocks.items (0x401000 ∷ [])) }
    ensures sites { IfOk result (λ blocks. AreBegun blocks.items (0x401000 ∷ 0x401001 ∷ 0x7FFF12345678 ∷ [])) }
    ensures few { IfOk result (λ blocks. blocks_size blocks.items ≤ 1024) }
{
    let divides = block(alloc, 0x401000, &[], AEnd::Stop(TrapKind::Divide))?;
    let invalid = block(alloc, 0x401001, &[], AEnd::Stop(TrapKind::Invalid))?;
    let returns = block(alloc, 0x401002, &[], AEnd::Stop(TrapKind::BadReturn))?;
    let jumps = block(alloc, 0x7FFF_1234_5678, &[], AEnd::Stop(TrapKind::BadJump))?;
    Ok(Vec::from_array(alloc, [divides, invalid, returns, jumps])?)
}

#[test]
fn three_sites_are_searched(rt: HostRuntime) -> Result<(), Fail> {
    let alloc = rt.alloc();
    let blocks = stop_blocks(alloc)?;
    let sites = [0x401000, 0x401001, 0x7FFF_1234_5678];
    let words = laid(alloc, &blocks, &sites)?;
    let wanted: [u32; 44] = [
        0xD420_0020, // brk #1
        0xD420_0040, // brk #2
        0xD420_0060, // brk #3
        0xD420_0080, // brk #4
        0xB500_0050, // cbnz x16, .+8
        0xD400_0061, // svc #3
        0xD282_0031, // movz x17, #0x1001
        0xF2A0_0811, // movk x17, #0x40, lsl #16
        0xF2C0_0011, // movk x17, #0, lsl #32
        0xF2E0_0011, // movk x17, #0, lsl #48
        0xEB11_021F, // cmp x16, x17
        0x5400_0043, // b.lo .+8
        0x1400_0009, // b .+36
        0xD282_0011, // movz x17, #0x1000
        0xF2A0_0811, // movk x17, #0x40, lsl #16
        0xF2C0_0011, // movk x17, #0, lsl #32
        0xF2E0_0011, // movk x17, #0, lsl #48
        0xEB11_021F, // cmp x16, x17
        0x5400_0041, // b.ne .+8
        0x17FF_FFED, // b .-76
        0xD420_0060, // brk #3
        0xD28A_CF11, // movz x17, #0x5678
        0xF2A2_4691, // movk x17, #0x1234, lsl #16
        0xF2CF_FFF1, // movk x17, #0x7fff, lsl #32
        0xF2E0_0011, // movk x17, #0, lsl #48
        0xEB11_021F, // cmp x16, x17
        0x5400_0043, // b.lo .+8
        0x1400_0009, // b .+36
        0xD282_0031, // movz x17, #0x1001
        0xF2A0_0811, // movk x17, #0x40, lsl #16
        0xF2C0_0011, // movk x17, #0, lsl #32
        0xF2E0_0011, // movk x17, #0, lsl #48
        0xEB11_021F, // cmp x16, x17
        0x5400_0041, // b.ne .+8
        0x17FF_FFDF, // b .-132
        0xD420_0060, // brk #3
        0xD28A_CF11, // movz x17, #0x5678
        0xF2A2_4691, // movk x17, #0x1234, lsl #16
        0xF2CF_FFF1, // movk x17, #0x7fff, lsl #32
        0xF2E0_0011, // movk x17, #0, lsl #48
        0xEB11_021F, // cmp x16, x17
        0x5400_0041, // b.ne .+8
        0x17FF_FFD9, // b .-156
        0xD420_0060, // brk #3
    ];
    assert_eq!(rt; words.as_slice(), wanted.as_slice());
    Ok(())
}
