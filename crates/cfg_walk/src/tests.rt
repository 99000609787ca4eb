ghost use Rattle.std.specs.Prelude.{◌≤◌, ◌^◌, length, IfOk};
ghost use Rattle.elf_read.specs.Elf.{IsProgram, parts_of};
ghost use Rattle.gen_input.specs.BuiltFile.{IsShort};

use crate::{Code, recover};
use elf_read::{BadCodeKind, CodeFault, Elf, FileFault, TransFault, read_elf};
use ev_graph::{List, NoMemory};
use gen_input::{Symbol, build};
use std::alloc::Global;
use std::test::Fail;

/// An address at which no code stands.
const NOWHERE: u64 = 0x10;

/// A symbol.
fn symbol(alloc: Global, name: &[u8], address: u64) -> Result<Symbol, Fail>
    requires { length name.now ≤ 32 }
    ensures { IfOk result IsShort }
{
    let name = List::of(Vec::from_slice(alloc, name)?);
    Ok(Symbol { name, address })
}

/// A program with this code at 401000, where its one thread begins, and with listed calls at these addresses.
fn program(alloc: Global, code: &[u8], input: u64, output: u64) -> Result<Elf, Fail>
    requires { length code.now ≤ 2 ^ 20 }
    ensures { IfOk result (λ elf. IsProgram (parts_of elf) elf.threads) }
{
    let symbols = [
        symbol(alloc, b"thread_0", 0x401000)?,
        symbol(alloc, b"lsg_input", input)?,
        symbol(alloc, b"lsg_output", output)?,
    ];
    let file = build(alloc, code, &[0; 64], 0x800000, &symbols).map_err(|_| "not built")?;
    let elf = read_elf(alloc, &file).map_err(|_| "refused")?;
    Ok(elf)
}

/// The fault of a program's code.
fn fault_of(alloc: Global, code: &[u8], input: u64) -> Result<FileFault, Fail>
    requires { length code.now ≤ 2 ^ 20 }
{
    match recover(alloc, &program(alloc, code, input, NOWHERE)?) {
        Err(TransFault::File(fault)) => Ok(fault),
        Err(TransFault::NoMemory) => Err("no memory".into()),
        Ok(_) => Err("accepted".into()),
    }
}

/// The code of a program that is accepted.
fn code_of(alloc: Global, code: &[u8], input: u64, output: u64) -> Result<Code, Fail>
    requires { length code.now ≤ 2 ^ 20 }
{
    match recover(alloc, &program(alloc, code, input, output)?) {
        Ok(code) => Ok(code),
        Err(_) => Err("refused".into()),
    }
}

/// No instruction stands at this address, for this reason.
fn bad(address: u64, kind: BadCodeKind) -> FileFault {
    FileFault::BadCode(CodeFault { address, kind })
}

#[test]
fn the_first_fault_is_told_at_its_least_address(rt: HostRuntime) -> Result<(), Fail> {
    let alloc = rt.alloc();
    let overlap = fault_of(alloc, b"\xEB\xFF\xC0\xC3", NOWHERE)?;
    assert_eq!(rt; overlap, FileFault::Overlap(0x401001));
    let outside = fault_of(alloc, b"\xE9\xFB\x2F\0\0", NOWHERE)?;
    assert_eq!(rt; outside, bad(0x404000, BadCodeKind::Outside));
    let long = fault_of(alloc, b"ffffffffffffff\x66\x90\xC3", NOWHERE)?;
    assert_eq!(rt; long, bad(0x401000, BadCodeKind::TooLong));
    let cut = fault_of(alloc, b"\x48\x8B", NOWHERE)?;
    assert_eq!(rt; cut, bad(0x401000, BadCodeKind::Cut));
    let listed = fault_of(alloc, b"\xC3", 0x401000)?;
    assert_eq!(rt; listed, bad(0x401000, BadCodeKind::Listed));
    let indirect = fault_of(alloc, b"\xFF\xE0", NOWHERE)?;
    assert_eq!(rt; indirect, FileFault::Indirect(0x401000));
    Ok(())
}

#[test]
fn faults_come_by_rank_and_address(rt: HostRuntime) -> Result<(), Fail> {
    let alloc = rt.alloc();
    // je to the second 06, which is found first; the first one is at the lesser address.
    let least = fault_of(alloc, b"\x74\x02\x06\x90\x06", NOWHERE)?;
    assert_eq!(rt; least, bad(0x401002, BadCodeKind::Unknown));
    // jmp rax, which nothing overlaps, stands behind an overlap.
    let behind = fault_of(alloc, b"\x74\x03\xEB\xFF\xC0\xFF\xE0", NOWHERE)?;
    assert_eq!(rt; behind, FileFault::Indirect(0x401005));
    Ok(())
}

#[test]
fn a_call_makes_blocks_a_site_and_a_function(rt: HostRuntime) -> Result<(), Fail> {
    let code = code_of(
        rt.alloc(),
        b"\x53\xE8\x02\0\0\0\x5B\xC3\xC3",
        NOWHERE,
        NOWHERE,
    )?;
    assert_eq!(rt; code.placed.as_slice().len(), 5);
    let mut blocks = Vec::new(rt.alloc());
    for block in code.blocks.as_slice() {
        blocks.push((block.first, block.count))?;
    }
    let wanted = [(0x401000, 2), (0x401006, 2), (0x401008, 1)];
    assert_eq!(rt; blocks.as_slice(), wanted.as_slice());
    assert_eq!(rt; code.sites.as_slice(), [0x401006].as_slice());
    assert_eq!(rt; code.functions.as_slice(), [0x401000, 0x401008].as_slice());
    Ok(())
}

#[test]
fn listed_calls_and_jumps_are_not_followed(rt: HostRuntime) -> Result<(), Fail> {
    let bytes = b"\xE8\x08\0\0\0\x48\x89\xC7\xE9\x01\0\0\0\x06\x06";
    let code = code_of(rt.alloc(), bytes, 0x40100D, 0x40100E)?;
    assert_eq!(rt; code.placed.as_slice().len(), 3);
    assert_eq!(rt; code.blocks.as_slice().len(), 2);
    assert!(rt; code.sites.as_slice().is_empty());
    assert_eq!(rt; code.functions.as_slice(), [0x401000].as_slice());
    Ok(())
}

#[test]
fn the_limit_is_exact(rt: HostRuntime) -> Result<(), Fail> {
    let mut bytes = Vec::new(rt.alloc());
    bytes.resize(65_535, 0x90)?;
    bytes.push(0xC3)?;
    let code = code_of(rt.alloc(), &bytes, NOWHERE, NOWHERE)?;
    assert_eq!(rt; code.placed.as_slice().len(), 65_536);
    assert_eq!(rt; code.blocks.as_slice().len(), 1);
    let mut more = Vec::new(rt.alloc());
    more.resize(65_536, 0x90)?;
    more.push(0xC3)?;
    let fault = fault_of(rt.alloc(), &more, NOWHERE)?;
    assert_eq!(rt; fault, FileFault::TooMuchCode);
    Ok(())
}

/// Puts an address behind what the list has, as an entry of a table: eight bytes, the lowest first.
fn push_entry(into: &mut Vec<u8>, address: u32) -> Result<(), NoMemory> {
    for byte in address.to_le_bytes() {
        into.push(byte)?;
    }
    for _ in 0..4 {
        into.push(0)?;
    }
    Ok(())
}

/// Code that jumps through one table of 4,096 entries by 15 patterns, each `cmp edi, 4095; ja; mov edi, edi; jmp`, and then
/// does nothing so many times and returns. The `ja` leads to the next pattern, and each entry to the return.
fn fifteen_patterns(alloc: Global, nops: u32) -> Result<Vec<u8>, Fail>
    requires { nops ≤ 10000 }
{
    let mut code = Vec::new(alloc);
    let exit = 0x401000 + 15 * 17 + nops;
    for _ in 0..15 {
        code.extend_from_slice(b"\x81\xFF\xFF\x0F\0\0\x77\x09\x89\xFF\xFF\x24\xFD")?;
        code.extend_from_slice(&(exit + 1).to_le_bytes())?;
    }
    code.resize(15 * 17 + nops as usize, 0x90)?;
    code.push(0xC3)?;
    for _ in 0..4096 {
        push_entry(&mut code, exit)?;
    }
    Ok(code)
}

/// The fault of code that a test has made, which is short.
fn fault_of_made(alloc: Global, code: &[u8]) -> Result<FileFault, Fail> {
    if code.len() > 0x100000 {
        return Err("too much for a test".into());
    }
    fault_of(alloc, code, NOWHERE)
}

#[test]
fn the_entries_of_a_table_are_code(rt: HostRuntime) -> Result<(), Fail> {
    let alloc = rt.alloc();
    // cmp edi, 1; ja to the return; mov edi, edi; jmp [rdi*8+40100F]; ret; a table of 40100E and 500000.
    let head = b"\x83\xFF\x01\x77\x09\x89\xFF\xFF\x24\xFD\x0F\x10\x40\0\xC3";
    let mut code = Vec::from_slice(alloc, head)?;
    push_entry(&mut code, 0x40100E)?;
    push_entry(&mut code, 0x500000)?;
    let outside = fault_of_made(alloc, &code)?;
    assert_eq!(rt; outside, bad(0x500000, BadCodeKind::Outside));
    Ok(())
}

#[test]
fn entries_count_for_each_pattern(rt: HostRuntime) -> Result<(), Fail> {
    let alloc = rt.alloc();
    // 15 patterns of 4 instructions and 4,096 entries, 4,035 instructions that do nothing, and a return are 65,536.
    let all = fault_of_made(alloc, &fifteen_patterns(alloc, 4035)?)?;
    assert_eq!(rt; all, FileFault::Indirect(0x40100A));
    let more = fault_of_made(alloc, &fifteen_patterns(alloc, 4036)?)?;
    assert_eq!(rt; more, FileFault::TooMuchCode);
    Ok(())
}
