ghost use Rattle.std.specs.Prelude.{◌≤◌, ◌^◌, length, IfOk};
ghost use Rattle.elf_read.specs.Elf.{IsProgram, parts_of};
ghost use Rattle.gen_input.specs.BuiltFile.{IsShort};

use crate::instruction_at;
use elf_read::{BadCodeKind, Elf, read_elf};
use ev_graph::List;
use gen_input::{Symbol, build};
use std::alloc::Global;
use std::test::Fail;
use x64_syntax::{Flow, Instr};

/// Where the code of a test begins.
const CODE: u64 = 0x401000;

/// Where cells stand that may not be executed.
const CELLS: u64 = 0x800000;

/// An address at which no code stands.
const NOWHERE: u64 = 0x10;

/// A symbol.
fn symbol(alloc: Global, name: &[u8], address: u64) -> Result<Symbol, Fail>
    requires { length name.now ≤ 32 }
    ensures { IfOk result IsShort }
{
    let name = List::of(Vec::from_slice(alloc, name)?);
    Ok(Symbol { name, address })
}

/// A program with this code, and with listed calls at these addresses.
fn program(alloc: Global, code: &[u8], input: u64, output: u64) -> Result<Elf, Fail>
    requires { length code.now ≤ 2 ^ 20 }
    ensures { IfOk result (λ elf. IsProgram (parts_of elf) elf.threads) }
{
    let symbols = [
        symbol(alloc, b"thread_0", CODE)?,
        symbol(alloc, b"lsg_input", input)?,
        symbol(alloc, b"lsg_output", output)?,
    ];
    let file = build(alloc, code, &[0; 64], CELLS, &symbols).map_err(|_| "not built")?;
    let elf = read_elf(alloc, &file).map_err(|_| "refused")?;
    Ok(elf)
}

/// Why no instruction stands at an address.
fn bad_at(elf: &Elf, address: u64) -> Result<BadCodeKind, Fail>
    requires { IsProgram (parts_of elf.now) elf.now.threads }
{
    match instruction_at(elf, address) {
        Ok(_) => Err("an instruction".into()),
        Err(kind) => Ok(kind),
    }
}

/// How control goes on after the instruction at an address.
fn flow_at(elf: &Elf, address: u64) -> Result<Flow, Fail>
    requires { IsProgram (parts_of elf.now) elf.now.threads }
{
    match instruction_at(elf, address) {
        Ok(placed) => Ok(placed.flow),
        Err(_) => Err("no instruction".into()),
    }
}

#[test]
fn instructions_stand_at_their_addresses(rt: HostRuntime) -> Result<(), Fail> {
    // nop; ret
    let elf = program(rt.alloc(), b"\x90\xC3", NOWHERE, NOWHERE)?;
    match instruction_at(&elf, CODE + 1) {
        Ok(placed) => {
            assert_eq!(rt; placed.address, CODE + 1);
            assert_eq!(rt; placed.length, 1);
            assert_eq!(rt; placed.instr, Instr::Ret);
            assert!(rt; placed.flow == Flow::Plain);
        }
        Err(_) => return Err("no instruction".into()),
    }
    Ok(())
}

#[test]
fn code_ends_with_its_segment(rt: HostRuntime) -> Result<(), Fail> {
    // nop; the first two bytes of mov rax, [rip + ..]
    let elf = program(rt.alloc(), b"\x90\x48\x8B", NOWHERE, NOWHERE)?;
    let cut = bad_at(&elf, CODE + 1)?;
    assert_eq!(rt; cut, BadCodeKind::Cut);
    let before = bad_at(&elf, CODE - 1)?;
    assert_eq!(rt; before, BadCodeKind::Outside);
    let behind = bad_at(&elf, CODE + 3)?;
    assert_eq!(rt; behind, BadCodeKind::Outside);
    let cells = bad_at(&elf, CELLS)?;
    assert_eq!(rt; cells, BadCodeKind::Outside);
    Ok(())
}

#[test]
fn bytes_that_begin_no_instruction_are_told_apart(rt: HostRuntime) -> Result<(), Fail> {
    // 06 is no instruction in 64-bit mode; fifteen 66 and nop have 16 bytes
    let elf = program(rt.alloc(), b"\x06ffffffffffffff\x66\x90", NOWHERE, NOWHERE)?;
    let unknown = bad_at(&elf, CODE)?;
    assert_eq!(rt; unknown, BadCodeKind::Unknown);
    let long = bad_at(&elf, CODE + 1)?;
    assert_eq!(rt; long, BadCodeKind::TooLong);
    Ok(())
}

#[test]
fn listed_calls_are_no_code(rt: HostRuntime) -> Result<(), Fail> {
    // call to CODE + 7; jmp to CODE + 8; nop; ret
    let elf = program(
        rt.alloc(),
        b"\xE8\x02\0\0\0\xEB\x01\x90\xC3",
        CODE + 7,
        CODE + 8,
    )?;
    let input = flow_at(&elf, CODE)?;
    assert!(rt; input == Flow::ListedIn);
    let output = flow_at(&elf, CODE + 5)?;
    assert!(rt; output == Flow::ListedOut);
    let listed = bad_at(&elf, CODE + 7)?;
    assert_eq!(rt; listed, BadCodeKind::Listed);
    let both = program(rt.alloc(), b"\xEB\x00\xC3", CODE + 2, CODE + 2)?;
    let first = flow_at(&both, CODE)?;
    assert!(rt; first == Flow::ListedIn);
    Ok(())
}

#[test]
fn targets_are_taken_modulo_2_to_the_64(rt: HostRuntime) -> Result<(), Fail> {
    // jmp -0x401015: back from 401005 to 2^64 - 16
    let elf = program(
        rt.alloc(),
        b"\xE9\xEB\xEF\xBF\xFF\xC3",
        0xFFFF_FFFF_FFFF_FFF0,
        NOWHERE,
    )?;
    let flow = flow_at(&elf, CODE)?;
    assert!(rt; flow == Flow::ListedIn);
    Ok(())
}
