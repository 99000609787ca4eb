ghost use Rattle.std.specs.Prelude.{◌≤◌, ◌^◌, length, IfOk};
ghost use Rattle.elf_read.specs.Elf.{IsProgram, parts_of};
ghost use Rattle.gen_input.specs.BuiltFile.{IsShort};

use crate::marks;
use crate::uses::{exposes, exposes_framed};
use cfg_walk::recover;
use elf_read::{Elf, read_elf};
use ev_graph::List;
use gen_input::{Symbol, build};
use std::alloc::Global;
use std::test::Fail;
use x64_syntax::{Flow, Instr, Marks, Mem, Operand, Reg, SlotKind, Width};

/// An address at which no code stands.
const NOWHERE: u64 = 0x10;

/// A symbol.
fn symbol(alloc: Global, name: &[u8], address: u64) -> Result<Symbol, Fail>
    requires { length name.now ≤ 32 }
    ensures { IfOk result IsShort }
{
    let name = List::of(Vec::from_slice(alloc, name)?);
    Ok(Symbol { name, address })
}

/// A program with this code at 401000, where its first thread begins; its second begins at
/// another address.
fn program(alloc: Global, code: &[u8], second: u64, output: u64) -> Result<Elf, Fail>
    requires { length code.now ≤ 2 ^ 20 }
    ensures { IfOk result (λ elf. IsProgram (parts_of elf) elf.threads) }
{
    let symbols = [
        symbol(alloc, b"thread_0", 0x401000)?,
        symbol(alloc, b"thread_1", second)?,
        symbol(alloc, b"lsg_output", output)?,
    ];
    let file = build(alloc, code, &[0; 64], 0x800000, &symbols).map_err(|_| "not built")?;
    let elf = read_elf(alloc, &file).map_err(|_| "refused")?;
    Ok(elf)
}

/// The private slots of a program.
fn marks_of(alloc: Global, code: &[u8], second: u64, output: u64) -> Result<Marks, Fail>
    requires { length code.now ≤ 2 ^ 20 }
{
    let elf = program(alloc, code, second, output)?;
    match recover(alloc, &elf) {
        Ok(code) => Ok(marks(alloc, &code, &elf)?),
        Err(_) => Err("its code is refused".into()),
    }
}

/// How many private slots a short program of one thread has.
fn count(alloc: Global, code: &[u8]) -> Result<usize, Fail> {
    if code.len() > 100 {
        return Err("the code is not short".into());
    }
    let marks = marks_of(alloc, code, 0x401000, NOWHERE)?;
    Ok(marks.slots.as_slice().len())
}

/// The private slots by their addresses and kinds.
fn told(alloc: Global, marks: &Marks) -> Result<Vec<(u64, char)>, Fail> {
    let mut all = Vec::new(alloc);
    for slot in marks.slots.as_slice() {
        let kind = match slot.kind {
            SlotKind::Read => 'R',
            SlotKind::Write => 'W',
            SlotKind::Locked => 'L',
        };
        all.push((slot.address, kind))?;
    }
    Ok(all)
}

#[test]
fn all_slots_of_a_private_frame(rt: HostRuntime) -> Result<(), Fail> {
    // 401000: push rbx; call 401008; pop rbx; ret; ret
    let code = b"\x53\xE8\x02\0\0\0\x5B\xC3\xC3";
    let marks = marks_of(rt.alloc(), code, 0x401000, NOWHERE)?;
    let wanted = [
        (0x401000, 'W'),
        (0x401001, 'W'),
        (0x401006, 'R'),
        (0x401007, 'R'),
        (0x401008, 'R'),
    ];
    assert_eq!(rt; told(rt.alloc(), &marks)?.as_slice(), wanted.as_slice());
    Ok(())
}

#[test]
fn an_address_of_the_frame_exposes_it(rt: HostRuntime) -> Result<(), Fail> {
    // 401000: push rbx; lea rdi, [rsp+8]; call 40100d; pop rbx; ret; 40100d: ret
    let code = b"\x53\x48\x8D\x7C\x24\x08\xE8\x02\0\0\0\x5B\xC3\xC3";
    let marks = marks_of(rt.alloc(), code, 0x401000, NOWHERE)?;
    assert_eq!(rt;
        told(rt.alloc(), &marks)?.as_slice(),
        [(0x40100d, 'R')].as_slice()
    );
    Ok(())
}

#[test]
fn reads_come_before_writes(rt: HostRuntime) -> Result<(), Fail> {
    // add [rsp-8], rax; ret
    let marks = marks_of(rt.alloc(), b"\x48\x01\x44\x24\xF8\xC3", 0x401000, NOWHERE)?;
    let wanted = [(0x401000, 'R'), (0x401000, 'W'), (0x401005, 'R')];
    assert_eq!(rt; told(rt.alloc(), &marks)?.as_slice(), wanted.as_slice());
    Ok(())
}

#[test]
fn listed_calls_and_jumps_use_the_stack(rt: HostRuntime) -> Result<(), Fail> {
    // call 40100a; jmp 40100a, where the listed function for outputs is
    let marks = marks_of(
        rt.alloc(),
        b"\xE8\x05\0\0\0\xE9\0\0\0\0\x06",
        0x401000,
        0x40100A,
    )?;
    let wanted = [(0x401000, 'W'), (0x401005, 'R')];
    assert_eq!(rt; told(rt.alloc(), &marks)?.as_slice(), wanted.as_slice());
    Ok(())
}

#[test]
fn a_function_as_a_compiler_lays_it_out(rt: HostRuntime) -> Result<(), Fail> {
    // 401000: endbr64; 401004: push rbx; mov ebx, 1; 40100a: mov eax, ebx; mov rax, [404000]
    // test rax, rax; je 40101c; pause; jmp 40100a; 40101c: mov rbx, [404008]; add rbx, 1
    // mov [404008], rbx; mov rdi, rbx; 401031: call 401043, which is listed; mov [404000], 0
    // 401041: pop rbx; 401042: ret
    let code = b"\xF3\x0F\x1E\xFA\x53\xBB\x01\0\0\0\x89\xD8\x48\x8B\x05\xED\x2F\0\0\x48\x85\xC0\
        \x74\x04\xF3\x90\xEB\xEE\x48\x8B\x1D\xE5\x2F\0\0\x48\x83\xC3\x01\x48\x89\x1D\xDA\x2F\0\0\
        \x48\x89\xDF\xE8\x0D\0\0\0\x48\xC7\x05\xBF\x2F\0\0\0\0\0\0\x5B\xC3\xC3";
    let marks = marks_of(rt.alloc(), code, 0x401000, 0x401043)?;
    let wanted = [
        (0x401004, 'W'),
        (0x401031, 'W'),
        (0x401041, 'R'),
        (0x401042, 'R'),
    ];
    assert_eq!(rt; told(rt.alloc(), &marks)?.as_slice(), wanted.as_slice());
    Ok(())
}

#[test]
fn each_body_that_has_a_slot_counts(rt: HostRuntime) -> Result<(), Fail> {
    // 401000: call 401007; jmp 40100c; 401007: lea rax, [rsp+8]; 40100c: ret
    // The function at 401007 exposes its frame, and shares the last instruction.
    let shared = b"\xE8\x02\0\0\0\xEB\x05\x48\x8D\x44\x24\x08\xC3";
    let marks = marks_of(rt.alloc(), shared, 0x401000, NOWHERE)?;
    assert_eq!(rt;
        told(rt.alloc(), &marks)?.as_slice(),
        [(0x401000, 'W')].as_slice()
    );
    // 401000: push rbp; mov rbp, rsp; 401004: mov rax, [rbp-8]; pop rbp; ret
    // A thread begins at 401004, where no frame pointer is set up.
    let code = b"\x55\x48\x89\xE5\x48\x8B\x45\xF8\x5D\xC3";
    let marks = marks_of(rt.alloc(), code, 0x401004, NOWHERE)?;
    let wanted = [(0x401000, 'W'), (0x401008, 'R'), (0x401009, 'R')];
    assert_eq!(rt; told(rt.alloc(), &marks)?.as_slice(), wanted.as_slice());
    Ok(())
}

#[test]
fn uses_of_rsp_without_a_frame_pointer(rt: HostRuntime) -> Result<(), Fail> {
    for (code, private) in [
        // mov rax, 1122334455667788; mov [rsp-8], rax; mov ecx, [rsp-8]; mov edx, [rsp-4]
        (
            &b"\x48\xB8\x88\x77\x66\x55\x44\x33\x22\x11\x48\x89\x44\x24\xF8\x8B\x4C\x24\xF8\x8B\x54\x24\xFC\xC3"[..],
            4_usize,
        ),
        // add rsp, 8
        (b"\x48\x83\xC4\x08\xC3", 1),
        // sub rsp, 8
        (b"\x48\x83\xEC\x08\xC3", 1),
        // add esp, 8
        (b"\x83\xC4\x08\xC3", 0),
        // add rsp, rax
        (b"\x48\x01\xC4\xC3", 0),
        // and rsp, -16
        (b"\x48\x83\xE4\xF0\xC3", 0),
        // push rsp
        (b"\x54\xC3", 0),
        // pop rsp
        (b"\x5C\xC3", 0),
        // mov rsp, rax
        (b"\x48\x89\xC4\xC3", 0),
        // mov rax, rsp
        (b"\x48\x89\xE0\xC3", 0),
        // mov al, spl
        (b"\x40\x88\xE0\xC3", 0),
        // mov ah, al, which names no part of rsp
        (b"\x88\xC4\xC3", 1),
        // lea rsp, [rsp+8]
        (b"\x48\x8D\x64\x24\x08\xC3", 0),
        // mov [rsp-8], rsp
        (b"\x48\x89\x64\x24\xF8\xC3", 0),
        // mov [rsp+rax-8], rax
        (b"\x48\x89\x44\x04\xF8\xC3", 0),
        // mov rax, [rbx]
        (b"\x48\x8B\x03\xC3", 1),
        // mov rax, [rbp-8]
        (b"\x48\x8B\x45\xF8\xC3", 1),
        // push [rsp+8]
        (b"\xFF\x74\x24\x08\xC3", 3),
        // push [rbx]
        (b"\xFF\x33\xC3", 2),
        // pop [rsp+8]
        (b"\x8F\x44\x24\x08\xC3", 3),
        // nop [rsp+8]
        (b"\x0F\x1F\x44\x24\x08\xC3", 1),
        // leave
        (b"\xC9\xC3", 0),
        // mov rbp, rsp
        (b"\x48\x89\xE5\xC3", 0),
        // mov rsp, rbp
        (b"\x48\x89\xEC\xC3", 0),
        // lea rsp, [rbp-8]
        (b"\x48\x8D\x65\xF8\xC3", 0),
        // push rbp; pop rbp
        (b"\x55\x5D\xC3", 3),
    ] {
        assert_eq!(rt; count(rt.alloc(), code)?, private, "of {code:?}");
    }
    Ok(())
}

#[test]
fn uses_of_rsp_and_rbp_with_a_frame_pointer(rt: HostRuntime) -> Result<(), Fail> {
    // Each begins with push rbp; mov rbp, rsp, and ends with pop rbp; ret or leave; ret.
    for (code, private) in [
        (&b"\x55\x48\x89\xE5\x5D\xC3"[..], 3_usize),
        (b"\x55\x48\x89\xE5\xC9\xC3", 3),
        // endbr64 before
        (b"\xF3\x0F\x1E\xFA\x55\x48\x89\xE5\x5D\xC3", 3),
        // nop before: no frame pointer
        (b"\x90\x55\x48\x89\xE5\x5D\xC3", 0),
        // mov rax, [rbp-8]
        (b"\x55\x48\x89\xE5\x48\x8B\x45\xF8\x5D\xC3", 4),
        // add [rbp-8], rax
        (b"\x55\x48\x89\xE5\x48\x01\x45\xF8\x5D\xC3", 5),
        // mov rax, [rbp+rax-8]
        (b"\x55\x48\x89\xE5\x48\x8B\x44\x05\xF8\x5D\xC3", 0),
        // lea rax, [rbp-8]
        (b"\x55\x48\x89\xE5\x48\x8D\x45\xF8\x5D\xC3", 0),
        // mov rax, rbp
        (b"\x55\x48\x89\xE5\x48\x89\xE8\x5D\xC3", 0),
        // cmp rax, rbp
        (b"\x55\x48\x89\xE5\x48\x39\xE8\x5D\xC3", 0),
        // mov rsp, rbp
        (b"\x55\x48\x89\xE5\x48\x89\xEC\x5D\xC3", 3),
        // lea rsp, [rbp-8]
        (b"\x55\x48\x89\xE5\x48\x8D\x65\xF8\x5D\xC3", 3),
        // lea rsp, [rbp+rax-8]
        (b"\x55\x48\x89\xE5\x48\x8D\x64\x05\xF8\x5D\xC3", 0),
        // push rbp once more
        (b"\x55\x48\x89\xE5\x55\x5D\xC3", 0),
        // je 401000: its own first push rbp and mov rbp, rsp again
        (b"\x55\x48\x89\xE5\x74\xFA\x5D\xC3", 3),
        // xor ebp, ebp: rbp is no frame pointer
        (b"\x55\x48\x89\xE5\x31\xED\x5D\xC3", 0),
        // mov bpl, al
        (b"\x55\x48\x89\xE5\x40\x88\xC5\x5D\xC3", 0),
    ] {
        assert_eq!(rt; count(rt.alloc(), code)?, private, "of {code:?}");
    }
    Ok(())
}

/// `lock xadd [base-8], register`
fn locked_add(base: u8, number: u8) -> Instr {
    let to = Mem {
        base: Some(base),
        index: None,
        scale: 1,
        offset: -8,
        rip: false,
    };
    let from = Reg {
        number,
        high: false,
    };
    Instr::Xadd(Width::Quad, Operand::Mem(to), Operand::Reg(from), true)
}

#[test]
fn a_locked_access_to_a_frame_does_not_expose_it(rt: HostRuntime) -> Result<(), Fail> {
    assert!(rt; !exposes(&locked_add(4, 0), Flow::Plain));
    assert!(rt; exposes(&locked_add(4, 4), Flow::Plain));
    assert!(rt; !exposes_framed(&locked_add(5, 0), Flow::Plain));
    assert!(rt; exposes_framed(&locked_add(5, 5), Flow::Plain));
    Ok(())
}
