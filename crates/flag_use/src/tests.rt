ghost use Rattle.std.specs.Prelude.{◌≤◌, ◌^◌, length, vec_len, IfOk};
ghost use Rattle.elf_read.specs.Elf.{IsProgram, parts_of};
ghost use Rattle.gen_input.specs.BuiltFile.{IsShort};

use crate::check_flags;
use cfg_walk::recover;
use elf_read::{Elf, FileFault, TransFault, read_elf};
use ev_graph::List;
use gen_input::{Symbol, build};
use std::alloc::Global;
use std::test::Fail;

/// Where the listed calls are: behind the code of the tests that call them.
const INPUT: u64 = 0x40100B;

const OUTPUT: u64 = 0x401011;

/// An address at which no code stands.
const NOWHERE: u64 = 0x10;

/// A symbol.
fn symbol(alloc: Global, name: &[u8], address: u64) -> Result<Symbol, Fail>
    requires { length name.now ≤ 32 }
    ensures { IfOk result IsShort }
{
    let name = List::of(Vec::from_slice(alloc, name)?);
    Ok(Symbol { name, address })
}

/// A program with this code at 401000, where its one thread begins, and with listed calls at these
/// addresses.
fn program(alloc: Global, code: &[u8], input: u64, output: u64) -> Result<Elf, Fail>
    requires { length code.now ≤ 2 ^ 20 }
    ensures { IfOk result (λ elf. IsProgram (parts_of elf) elf.threads) }
{
    let symbols = [
        symbol(alloc, b"thread_0", 0x401000)?,
        symbol(alloc, b"lsg_input", input)?,
        symbol(alloc, b"lsg_output", output)?,
    ];
    let file = build(alloc, code, &[0; 64], 0x800000, &symbols).map_err(|_| "not built")?;
    let elf = read_elf(alloc, &file).map_err(|_| "refused")?;
    Ok(elf)
}

/// The address for which a program is refused, or none where it is accepted.
fn refusal_with(alloc: Global, code: &[u8], input: u64, output: u64) -> Result<Option<u64>, Fail>
    requires { length code.now ≤ 2 ^ 20 }
{
    let elf = program(alloc, code, input, output)?;
    let code = recover(alloc, &elf).map_err(|_| "not recovered")?;
    match check_flags(alloc, &code, &elf) {
        Ok(()) => Ok(None),
        Err(TransFault::File(FileFault::UndefinedFlag(address))) => Ok(Some(address)),
        Err(_) => Err("another fault".into()),
    }
}

/// The same of a program without listed calls.
fn refusal(alloc: Global, code: &[u8]) -> Result<Option<u64>, Fail>
    requires { length code.now ≤ 2 ^ 20 }
{
    refusal_with(alloc, code, NOWHERE, NOWHERE)
}

#[test]
fn zf_is_undefined_behind_a_product(rt: HostRuntime) -> Result<(), Fail> {
    let alloc = rt.alloc();
    // imul eax, edi; je; ret
    let read = refusal(alloc, b"\x0F\xAF\xC7\x74\0\xC3")?;
    assert_eq!(rt; read, Some(0x401003));
    // imul eax, edi; test eax, eax; je; ret
    let tested = refusal(alloc, b"\x0F\xAF\xC7\x85\xC0\x74\0\xC3")?;
    assert_eq!(rt; tested, None);
    // imul eax, edi; jo; ret
    let carry = refusal(alloc, b"\x0F\xAF\xC7\x70\0\xC3")?;
    assert_eq!(rt; carry, None);
    Ok(())
}

#[test]
fn one_path_of_two_is_enough_and_the_least_address_is_told(rt: HostRuntime) -> Result<(), Fail> {
    let alloc = rt.alloc();
    // test eax, eax; je 401007; imul eax, edi; 401007: sete al; ret
    let one = refusal(alloc, b"\x85\xC0\x74\x03\x0F\xAF\xC7\x0F\x94\xC0\xC3")?;
    assert_eq!(rt; one, Some(0x401007));
    // imul eax, edi; jmp 401008; 401005: js 401007; ret; 401008: je 401005; ret
    let least = refusal(alloc, b"\x0F\xAF\xC7\xEB\x03\x78\0\xC3\x74\xFB\xC3")?;
    assert_eq!(rt; least, Some(0x401005));
    Ok(())
}

#[test]
fn a_call_goes_to_its_target_alone(rt: HostRuntime) -> Result<(), Fail> {
    let alloc = rt.alloc();
    // imul eax, edi; call 40100B; 401008: je; ret; 40100B: test eax, eax; ret
    let defines = refusal(alloc, b"\x0F\xAF\xC7\xE8\x03\0\0\0\x74\0\xC3\x85\xC0\xC3")?;
    assert_eq!(rt; defines, None);
    // the same, and 40100B: ret
    let keeps = refusal(alloc, b"\x0F\xAF\xC7\xE8\x03\0\0\0\x74\0\xC3\xC3")?;
    assert_eq!(rt; keeps, Some(0x401008));
    // the same, and 40100B: jmp 40100B, so that no path comes to 401008
    let loops = refusal(alloc, b"\x0F\xAF\xC7\xE8\x03\0\0\0\x74\0\xC3\xEB\xFE")?;
    assert_eq!(rt; loops, None);
    Ok(())
}

#[test]
fn a_return_goes_to_each_return_site(rt: HostRuntime) -> Result<(), Fail> {
    // call 401010; 401005: je; call 401013; 40100C: test eax, eax; ret; nop;
    // 401010: test eax, eax; ret; 401013: imul eax, edi; ret
    let code = b"\xE8\x0B\0\0\0\x74\0\xE8\x07\0\0\0\x85\xC0\xC3\x90\x85\xC0\xC3\x0F\xAF\xC7\xC3";
    let other = refusal(rt.alloc(), code)?;
    assert_eq!(rt; other, Some(0x401005));
    Ok(())
}

#[test]
fn listed_calls_fall_through_and_listed_jumps_return(rt: HostRuntime) -> Result<(), Fail> {
    let alloc = rt.alloc();
    // imul eax, edi; call lsg_input; 401008: je; ret
    let call = refusal_with(
        alloc,
        b"\x0F\xAF\xC7\xE8\x03\0\0\0\x74\0\xC3",
        INPUT,
        NOWHERE,
    )?;
    assert_eq!(rt; call, Some(0x401008));
    // call 401009; 401005: je; ret; nop; 401009: imul eax, edi; jmp lsg_output
    let code = b"\xE8\x04\0\0\0\x74\0\xC3\x90\x0F\xAF\xC7\xE9\0\0\0\0";
    let jump = refusal_with(alloc, code, NOWHERE, OUTPUT)?;
    assert_eq!(rt; jump, Some(0x401005));
    Ok(())
}

#[test]
fn shifts_by_a_number(rt: HostRuntime) -> Result<(), Fail> {
    let alloc = rt.alloc();
    // shl eax, 2; jo; ret, and jb in place of jo
    let overflow = refusal(alloc, b"\xC1\xE0\x02\x70\0\xC3")?;
    assert_eq!(rt; overflow, Some(0x401003));
    let carry = refusal(alloc, b"\xC1\xE0\x02\x72\0\xC3")?;
    assert_eq!(rt; carry, None);
    // shl eax, 1; jo; ret, and shl eax, 33
    let once = refusal(alloc, b"\xD1\xE0\x70\0\xC3")?;
    assert_eq!(rt; once, None);
    let masked = refusal(alloc, b"\xC1\xE0\x21\x70\0\xC3")?;
    assert_eq!(rt; masked, None);
    // shl rax, 33; jo; ret, and shl rax, 64
    let long = refusal(alloc, b"\x48\xC1\xE0\x21\x70\0\xC3")?;
    assert_eq!(rt; long, Some(0x401004));
    let none = refusal(alloc, b"\x48\xC1\xE0\x40\x70\0\xC3")?;
    assert_eq!(rt; none, None);
    // shl al, 8; jb; ret, and sar al, 8
    let past = refusal(alloc, b"\xC0\xE0\x08\x72\0\xC3")?;
    assert_eq!(rt; past, Some(0x401003));
    let sign = refusal(alloc, b"\xC0\xF8\x08\x72\0\xC3")?;
    assert_eq!(rt; sign, None);
    Ok(())
}

#[test]
fn shifts_and_rotates_by_cl(rt: HostRuntime) -> Result<(), Fail> {
    let alloc = rt.alloc();
    // rol eax, cl; jo; ret, and jb in place of jo
    let overflow = refusal(alloc, b"\xD3\xC0\x70\0\xC3")?;
    assert_eq!(rt; overflow, Some(0x401002));
    let carry = refusal(alloc, b"\xD3\xC0\x72\0\xC3")?;
    assert_eq!(rt; carry, None);
    // shl al, cl; jb; ret, and shl eax, cl
    let narrow = refusal(alloc, b"\xD2\xE0\x72\0\xC3")?;
    assert_eq!(rt; narrow, Some(0x401002));
    let wide = refusal(alloc, b"\xD3\xE0\x72\0\xC3")?;
    assert_eq!(rt; wide, None);
    Ok(())
}

#[test]
fn adc_and_sbb_read_the_carry(rt: HostRuntime) -> Result<(), Fail> {
    let alloc = rt.alloc();
    // div edi; adc eax, eax; ret
    let register = refusal(alloc, b"\xF7\xF7\x11\xC0\xC3")?;
    assert_eq!(rt; register, Some(0x401002));
    // div edi; lock sbb [rdi], eax; ret
    let locked = refusal(alloc, b"\xF7\xF7\xF0\x19\x07\xC3")?;
    assert_eq!(rt; locked, Some(0x401002));
    // div edi; inc eax; cmovb eax, edi; ret
    let kept = refusal(alloc, b"\xF7\xF7\xFF\xC0\x0F\x42\xC7\xC3")?;
    assert_eq!(rt; kept, Some(0x401004));
    Ok(())
}

/// 32,766 times a call of what stands behind the ret, and the ret. Then imul eax, edi; ret.
fn nested_calls(alloc: Global) -> Result<Vec<u8>, Fail>
    ensures { IfOk result (λ code. vec_len code ≤ 2 ^ 20) }
{
    let mut code = Vec::new(alloc);
    for _ in 0..32_766_u32 {
        code.extend_from_slice(b"\xE8\x01\0\0\0\xC3")?;
    }
    code.extend_from_slice(b"\x0F\xAF\xC7\xC3")?;
    Ok(code)
}

#[test]
fn many_returns_go_to_many_sites(rt: HostRuntime) -> Result<(), Fail> {
    let code = nested_calls(rt.alloc())?;
    let accepted = refusal(rt.alloc(), &code)?;
    assert_eq!(rt; accepted, None);
    Ok(())
}
