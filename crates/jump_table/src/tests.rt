ghost use Rattle.std.specs.Prelude.{◌≡◌, ◌≤◌, ◌^◌, length, IfOk};
ghost use Rattle.elf_read.specs.Elf.{IsProgram, parts_of};
ghost use Rattle.gen_input.specs.BuiltFile.{IsShort};

use crate::{Table, table_at};
use elf_read::{Elf, read_elf};
use ev_graph::List;
use gen_input::{Symbol, build};
use std::alloc::Global;
use std::test::Fail;

/// Where the code of a test begins.
const CODE: u64 = 0x401000;

/// Where the table of a test stands, if it stands behind its pattern.
const BASE: u64 = CODE + 32;

/// Where cells stand that may be read and written.
const CELLS: u64 = 0x404000;

/// An address at which no code stands.
const NOWHERE: u64 = 0x10;

/// Flags of a segment: R, R and W, and R and X.
const R: u8 = 4;

const RW: u8 = 6;

const RX: u8 = 5;

/// Where a file of `build` has the flags of the cells' segment, and its size in the file.
const CELLS_FLAGS: usize = 124;

const CELLS_FILE_SIZE: usize = 152;

/// Six entries: 500000, 500001, ..., 500005.
const ENTRIES: [u8; 48] = [
    0, 0, 0x50, 0, 0, 0, 0, 0, 1, 0, 0x50, 0, 0, 0, 0, 0, 2, 0, 0x50, 0, 0, 0, 0, 0, 3, 0, 0x50, 0,
    0, 0, 0, 0, 4, 0, 0x50, 0, 0, 0, 0, 0, 5, 0, 0x50, 0, 0, 0, 0, 0,
];

/// A switch over edi with six cases: `cmp edi, 5; ja; mov edi, edi; jmp [rdi*8+401038]`, the cases
/// from 40100e on, six bytes each, the default at 401032, and the table.
const SWITCH: [u8; 104] = *b"\x83\xFF\x05\x77\x2D\x89\xFF\xFF\x24\xFD\x38\x10\x40\0\
    \xB8\x00\0\0\0\xC3\xB8\x01\0\0\0\xC3\xB8\x02\0\0\0\xC3\
    \xB8\x03\0\0\0\xC3\xB8\x04\0\0\0\xC3\xB8\x05\0\0\0\xC3\
    \x31\xC0\xC3\0\0\0\
    \x0E\x10\x40\0\0\0\0\0\x14\x10\x40\0\0\0\0\0\x1A\x10\x40\0\0\0\0\0\
    \x20\x10\x40\0\0\0\0\0\x26\x10\x40\0\0\0\0\0\x2C\x10\x40\0\0\0\0\0";

/// A symbol.
fn symbol(alloc: Global, name: &[u8], address: u64) -> Result<Symbol, Fail>
    requires { length name.now ≤ 32 }
    ensures { IfOk result IsShort }
{
    let name = List::of(Vec::from_slice(alloc, name)?);
    Ok(Symbol { name, address })
}

/// Sets a byte of a file.
fn set(file: &mut Vec<u8>, place: usize, byte: u8) {
    if let Some(cell) = file.get_mut(place) {
        *cell = byte;
    }
}

/// What a test's program is made of: its code, its cells with their address and the flags of their
/// segment, and where the listed function of outputs is.
#[derive(Clone, Copy)]
struct Input<'a> {
    code: &'a [u8],
    cells: &'a [u8],
    cells_address: u64,
    cells_flags: u8,
    output: u64,
}

/// The program that is made of this.
fn program(alloc: Global, input: &Input) -> Result<Elf, Fail>
    requires code { length input.now.code.now ≤ 2 ^ 20 }
    requires cells { length input.now.cells.now ≤ 4096 }
    ensures { IfOk result (λ elf. IsProgram (parts_of elf) elf.threads) }
{
    let symbols = [
        symbol(alloc, b"thread_0", CODE)?,
        symbol(alloc, b"lsg_output", input.output)?,
    ];
    let mut file = build(
        alloc,
        input.code,
        input.cells,
        input.cells_address,
        &symbols,
    )
    .map_err(|_| "not built")?;
    set(&mut file, CELLS_FLAGS, input.cells_flags);
    let elf = read_elf(alloc, &file).map_err(|_| "refused")?;
    Ok(elf)
}

/// The program of this code alone.
fn code_alone(alloc: Global, code: &[u8]) -> Result<Elf, Fail>
    requires { length code.now ≤ 2 ^ 20 }
    ensures { IfOk result (λ elf. IsProgram (parts_of elf) elf.threads) }
{
    program(
        alloc,
        &Input {
            code,
            cells: &[0; 64],
            cells_address: 0x800000,
            cells_flags: RW,
            output: NOWHERE,
        },
    )
}

/// The table of the pattern that begins a code with this head, before six entries at `BASE`.
fn table_behind(alloc: Global, head: &[u8]) -> Result<Option<Table>, Fail>
    requires { length head.now ≤ 32 }
{
    let mut code = Vec::new(alloc);
    code.extend_from_slice(head)?;
    code.extend_from_slice(&[0; 32][head.len()..])?;
    code.extend_from_slice(&ENTRIES)?;
    let elf = code_alone(alloc, &code)?;
    Ok(table_at(&elf, CODE))
}

/// The entry of this number of the table whose pattern begins at an address.
fn entry_of(elf: &Elf, address: u64, k: u32) -> Result<u64, Fail>
    requires { IsProgram (parts_of elf.now) elf.now.threads }
{
    match table_at(elf, address) {
        Some(table) => {
            if k < table.count {
                Ok(table.entry(elf, k))
            } else {
                Err("no such entry".into())
            }
        }
        None => Err("no table".into()),
    }
}

/// The table of a pattern at `CODE`, with six entries at `BASE`, whose other instructions begin so
/// many bytes behind the first.
fn table_with(index: u8, behind: &[u8]) -> Option<Table> {
    let place = |bytes: u8| CODE + u64::from(bytes);
    match *behind {
        [branch, jump] => Some(Table {
            first: CODE,
            jump: place(jump),
            inside: [place(branch), place(jump), 0],
            inside_count: 2,
            index,
            base: BASE,
            count: 6,
        }),
        [second, third, jump] => Some(Table {
            first: CODE,
            jump: place(jump),
            inside: [place(second), place(third), place(jump)],
            inside_count: 3,
            index,
            base: BASE,
            count: 6,
        }),
        _ => None,
    }
}

#[test]
fn a_switch_has_its_table(rt: HostRuntime) -> Result<(), Fail> {
    let elf = code_alone(rt.alloc(), &SWITCH)?;
    let table = table_at(&elf, CODE);
    let expected = Table {
        first: 0x401000,
        jump: 0x401007,
        inside: [0x401003, 0x401005, 0x401007],
        inside_count: 3,
        index: 7,
        base: 0x401038,
        count: 6,
    };
    assert_eq!(rt; table, Some(expected));
    for k in 0..6 {
        let entry = entry_of(&elf, CODE, k)?;
        assert_eq!(rt; entry, 0x40100E + 6 * u64::from(k));
    }
    Ok(())
}

#[test]
fn no_pattern_begins_elsewhere(rt: HostRuntime) -> Result<(), Fail> {
    let elf = code_alone(rt.alloc(), &SWITCH)?;
    for address in CODE + 1..CODE + 110 {
        let table = table_at(&elf, address);
        assert_eq!(rt; table, None);
    }
    let before = table_at(&elf, CODE - 1);
    assert_eq!(rt; before, None);
    let far = table_at(&elf, u64::MAX);
    assert_eq!(rt; far, None);
    Ok(())
}

#[test]
fn an_index_is_compared_in_64_bits(rt: HostRuntime) -> Result<(), Fail> {
    // cmp rdi, 5; ja; jmp [rdi*8+401020]
    let low = table_behind(
        rt.alloc(),
        b"\x48\x83\xFF\x05\x77\x00\xFF\x24\xFD\x20\x10\x40\0",
    )?;
    assert_eq!(rt; low, table_with(7, &[4, 6]));
    // cmp r12, 5 with four bytes; ja with four bytes; jmp [r12*8+401020]
    let high = table_behind(
        rt.alloc(),
        b"\x49\x81\xFC\x05\0\0\0\x0F\x87\0\0\0\0\x42\xFF\x24\xE5\x20\x10\x40\0",
    )?;
    assert_eq!(rt; high, table_with(12, &[7, 13]));
    // notrack before the jump means nothing
    let notrack = table_behind(
        rt.alloc(),
        b"\x48\x83\xFF\x05\x77\x00\x3E\xFF\x24\xFD\x20\x10\x40\0",
    )?;
    assert_eq!(rt; notrack, table_with(7, &[4, 6]));
    // in 32 bits there is no such form
    let narrow = table_behind(
        rt.alloc(),
        b"\x83\xFF\x05\x77\x00\xFF\x24\xFD\x20\x10\x40\0",
    )?;
    assert_eq!(rt; narrow, None);
    Ok(())
}

#[test]
fn a_copy_is_the_index(rt: HostRuntime) -> Result<(), Fail> {
    // cmp dil, 5; ja; movzx eax, dil; jmp [rax*8+401020]
    let byte = table_behind(
        rt.alloc(),
        b"\x40\x80\xFF\x05\x77\x00\x40\x0F\xB6\xC7\xFF\x24\xC5\x20\x10\x40\0",
    )?;
    assert_eq!(rt; byte, table_with(0, &[4, 6, 10]));
    // cmp al, 5; ja; movzx eax, al; jmp [rax*8+401020]
    let same = table_behind(
        rt.alloc(),
        b"\x3C\x05\x77\x00\x0F\xB6\xC0\xFF\x24\xC5\x20\x10\x40\0",
    )?;
    assert_eq!(rt; same, table_with(0, &[2, 4, 7]));
    // cmp di, 5; ja; movzx eax, di; jmp [rax*8+401020]
    let word = table_behind(
        rt.alloc(),
        b"\x66\x83\xFF\x05\x77\x00\x0F\xB7\xC7\xFF\x24\xC5\x20\x10\x40\0",
    )?;
    assert_eq!(rt; word, table_with(0, &[4, 6, 9]));
    // cmp edi, 5; ja; mov eax, edi; jmp [rax*8+401020]
    let long = table_behind(
        rt.alloc(),
        b"\x83\xFF\x05\x77\x00\x89\xF8\xFF\x24\xC5\x20\x10\x40\0",
    )?;
    assert_eq!(rt; long, table_with(0, &[3, 5, 7]));
    Ok(())
}

#[test]
fn a_copy_is_of_the_compared_register(rt: HostRuntime) -> Result<(), Fail> {
    // mov eax, esi behind cmp edi, 5
    let other = table_behind(
        rt.alloc(),
        b"\x83\xFF\x05\x77\x00\x89\xF0\xFF\x24\xC5\x20\x10\x40\0",
    )?;
    assert_eq!(rt; other, None);
    // mov rax, rdi
    let wide = table_behind(
        rt.alloc(),
        b"\x83\xFF\x05\x77\x00\x48\x89\xF8\xFF\x24\xC5\x20\x10\x40\0",
    )?;
    assert_eq!(rt; wide, None);
    // movzx eax, di behind cmp dil, 5
    let wider = table_behind(
        rt.alloc(),
        b"\x40\x80\xFF\x05\x77\x00\x0F\xB7\xC7\xFF\x24\xC5\x20\x10\x40\0",
    )?;
    assert_eq!(rt; wider, None);
    // movsx eax, di behind cmp di, 5
    let signed = table_behind(
        rt.alloc(),
        b"\x66\x83\xFF\x05\x77\x00\x0F\xBF\xC7\xFF\x24\xC5\x20\x10\x40\0",
    )?;
    assert_eq!(rt; signed, None);
    // jmp [rcx*8+401020] behind mov eax, edi
    let another = table_behind(
        rt.alloc(),
        b"\x83\xFF\x05\x77\x00\x89\xF8\xFF\x24\xCD\x20\x10\x40\0",
    )?;
    assert_eq!(rt; another, None);
    Ok(())
}

#[test]
fn no_high_byte_and_no_stack_pointer_is_compared(rt: HostRuntime) -> Result<(), Fail> {
    // cmp ah, 5; ja; movzx eax, ah
    let high = table_behind(
        rt.alloc(),
        b"\x80\xFC\x05\x77\x00\x0F\xB6\xC4\xFF\x24\xC5\x20\x10\x40\0",
    )?;
    assert_eq!(rt; high, None);
    // cmp ah, 5; ja; movzx eax, al
    let apart = table_behind(
        rt.alloc(),
        b"\x80\xFC\x05\x77\x00\x0F\xB6\xC0\xFF\x24\xC5\x20\x10\x40\0",
    )?;
    assert_eq!(rt; apart, None);
    // cmp esp, 5; ja; mov eax, esp
    let stack = table_behind(
        rt.alloc(),
        b"\x83\xFC\x05\x77\x00\x89\xE0\xFF\x24\xC5\x20\x10\x40\0",
    )?;
    assert_eq!(rt; stack, None);
    Ok(())
}

#[test]
fn an_index_is_set_before_it_is_compared(rt: HostRuntime) -> Result<(), Fail> {
    // mov eax, [rdi]
    let mov = table_behind(
        rt.alloc(),
        b"\x8B\x07\x83\xF8\x05\x77\x00\xFF\x24\xC5\x20\x10\x40\0",
    )?;
    assert_eq!(rt; mov, table_with(0, &[2, 5, 7]));
    // movzx eax, byte [rdi]
    let movzx = table_behind(
        rt.alloc(),
        b"\x0F\xB6\x07\x83\xF8\x05\x77\x00\xFF\x24\xC5\x20\x10\x40\0",
    )?;
    assert_eq!(rt; movzx, table_with(0, &[3, 6, 8]));
    // movsx eax, di
    let movsx = table_behind(
        rt.alloc(),
        b"\x0F\xBF\xC7\x83\xF8\x05\x77\x00\xFF\x24\xC5\x20\x10\x40\0",
    )?;
    assert_eq!(rt; movsx, table_with(0, &[3, 6, 8]));
    // lea r9d, [rdi-1]
    let lea = table_behind(
        rt.alloc(),
        b"\x44\x8D\x4F\xFF\x41\x83\xF9\x05\x77\x00\x42\xFF\x24\xCD\x20\x10\x40\0",
    )?;
    assert_eq!(rt; lea, table_with(9, &[4, 8, 10]));
    Ok(())
}

#[test]
fn an_index_is_computed_before_it_is_compared(rt: HostRuntime) -> Result<(), Fail> {
    // add eax, 1
    let add = table_behind(
        rt.alloc(),
        b"\x83\xC0\x01\x83\xF8\x05\x77\x00\xFF\x24\xC5\x20\x10\x40\0",
    )?;
    assert_eq!(rt; add, table_with(0, &[3, 6, 8]));
    // sub eax, edi
    let sub = table_behind(
        rt.alloc(),
        b"\x29\xF8\x83\xF8\x05\x77\x00\xFF\x24\xC5\x20\x10\x40\0",
    )?;
    assert_eq!(rt; sub, table_with(0, &[2, 5, 7]));
    // and eax, 7
    let and = table_behind(
        rt.alloc(),
        b"\x83\xE0\x07\x83\xF8\x05\x77\x00\xFF\x24\xC5\x20\x10\x40\0",
    )?;
    assert_eq!(rt; and, table_with(0, &[3, 6, 8]));
    Ok(())
}

#[test]
fn an_index_is_set_to_32_bits_by_few_instructions(rt: HostRuntime) -> Result<(), Fail> {
    // or eax, 1
    let or = table_behind(
        rt.alloc(),
        b"\x83\xC8\x01\x83\xF8\x05\x77\x00\xFF\x24\xC5\x20\x10\x40\0",
    )?;
    assert_eq!(rt; or, None);
    // lea rax, [rdi-1]
    let wide = table_behind(
        rt.alloc(),
        b"\x48\x8D\x47\xFF\x83\xF8\x05\x77\x00\xFF\x24\xC5\x20\x10\x40\0",
    )?;
    assert_eq!(rt; wide, None);
    // mov ax, [rdi]
    let narrow = table_behind(
        rt.alloc(),
        b"\x66\x8B\x07\x83\xF8\x05\x77\x00\xFF\x24\xC5\x20\x10\x40\0",
    )?;
    assert_eq!(rt; narrow, None);
    // mov ecx, [rdi] before cmp eax, 5
    let other = table_behind(
        rt.alloc(),
        b"\x8B\x0F\x83\xF8\x05\x77\x00\xFF\x24\xC5\x20\x10\x40\0",
    )?;
    assert_eq!(rt; other, None);
    // mov eax, [rdi] before cmp rax, 5, where the form in 64 bits begins at the comparison
    let long = table_behind(
        rt.alloc(),
        b"\x8B\x07\x48\x83\xF8\x05\x77\x00\xFF\x24\xC5\x20\x10\x40\0",
    )?;
    assert_eq!(rt; long, None);
    Ok(())
}

#[test]
fn other_jumps_go_through_no_table(rt: HostRuntime) -> Result<(), Fail> {
    // jae for ja
    let at_least = table_behind(
        rt.alloc(),
        b"\x48\x83\xFF\x05\x73\x00\xFF\x24\xFD\x20\x10\x40\0",
    )?;
    assert_eq!(rt; at_least, None);
    // jmp [rdi*4+401020]
    let fours = table_behind(
        rt.alloc(),
        b"\x48\x83\xFF\x05\x77\x00\xFF\x24\xBD\x20\x10\x40\0",
    )?;
    assert_eq!(rt; fours, None);
    // jmp [rax+rdi*8+401020]
    let based = table_behind(
        rt.alloc(),
        b"\x48\x83\xFF\x05\x77\x00\xFF\xA4\xF8\x20\x10\x40\0",
    )?;
    assert_eq!(rt; based, None);
    // call [rdi*8+401020]
    let call = table_behind(
        rt.alloc(),
        b"\x48\x83\xFF\x05\x77\x00\xFF\x14\xFD\x20\x10\x40\0",
    )?;
    assert_eq!(rt; call, None);
    // cmp rdi, rsi
    let register = table_behind(
        rt.alloc(),
        b"\x48\x39\xF7\x77\x00\xFF\x24\xFD\x20\x10\x40\0",
    )?;
    assert_eq!(rt; register, None);
    // cmp qword [rdi], 5
    let memory = table_behind(
        rt.alloc(),
        b"\x48\x83\x3F\x05\x77\x00\xFF\x24\xFD\x20\x10\x40\0",
    )?;
    assert_eq!(rt; memory, None);
    Ok(())
}

/// The table of a pattern that begins a code with this head, with so many more bytes in the code.
fn table_before(alloc: Global, head: &[u8], bytes: &[u8]) -> Result<Option<Table>, Fail>
    requires head { length head.now ≤ 32 }
    requires bytes { length bytes.now ≤ 2 ^ 16 }
{
    let mut code = Vec::new(alloc);
    code.extend_from_slice(head)?;
    code.extend_from_slice(&[0; 32][head.len()..])?;
    code.extend_from_slice(bytes)?;
    let elf = code_alone(alloc, &code)?;
    Ok(table_at(&elf, CODE))
}

/// How many entries a table has.
fn count_of(table: Option<Table>) -> Option<u32> {
    match table {
        Some(table) => Some(table.count),
        None => None,
    }
}

#[test]
fn a_bound_is_at_most_4095(rt: HostRuntime) -> Result<(), Fail> {
    // cmp rdi, fff and cmp rdi, 1000
    let most = table_before(
        rt.alloc(),
        b"\x48\x81\xFF\xFF\x0F\0\0\x77\x00\xFF\x24\xFD\x20\x10\x40\0",
        &[0; 32768],
    )?;
    assert_eq!(rt; count_of(most), Some(4096));
    let more = table_before(
        rt.alloc(),
        b"\x48\x81\xFF\x00\x10\0\0\x77\x00\xFF\x24\xFD\x20\x10\x40\0",
        &[0; 32776],
    )?;
    assert_eq!(rt; more, None);
    Ok(())
}

#[test]
fn a_bound_has_no_sign(rt: HostRuntime) -> Result<(), Fail> {
    // cmp al, c8 is a comparison with 200
    let byte = table_before(
        rt.alloc(),
        b"\x3C\xC8\x77\x00\x0F\xB6\xC0\xFF\x24\xC5\x20\x10\x40\0",
        &[0; 1608],
    )?;
    assert_eq!(rt; count_of(byte), Some(201));
    let short = table_before(
        rt.alloc(),
        b"\x3C\xC8\x77\x00\x0F\xB6\xC0\xFF\x24\xC5\x20\x10\x40\0",
        &[0; 1607],
    )?;
    assert_eq!(rt; short, None);
    // cmp di, -1 is one with 65535, and cmp edi, -1 one with ffffffff
    let word = table_before(
        rt.alloc(),
        b"\x66\x83\xFF\xFF\x77\x00\x0F\xB7\xC7\xFF\x24\xC5\x20\x10\x40\0",
        &[0; 32768],
    )?;
    assert_eq!(rt; word, None);
    let long = table_before(
        rt.alloc(),
        b"\x83\xFF\xFF\x77\x00\x89\xF8\xFF\x24\xC5\x20\x10\x40\0",
        &[0; 32768],
    )?;
    assert_eq!(rt; long, None);
    Ok(())
}

/// `cmp rdi, 5; ja; jmp [rdi*8+404000]`
const TO_CELLS: [u8; 13] = *b"\x48\x83\xFF\x05\x77\x00\xFF\x24\xFD\0\x40\x40\0";

/// The program whose table of six entries is in its cells.
fn table_in_cells(alloc: Global, flags: u8) -> Result<Elf, Fail>
    ensures { IfOk result (λ elf. IsProgram (parts_of elf) elf.threads) }
{
    program(
        alloc,
        &Input {
            code: &TO_CELLS,
            cells: &ENTRIES,
            cells_address: CELLS,
            cells_flags: flags,
            output: NOWHERE,
        },
    )
}

#[test]
fn a_table_is_read_and_never_written(rt: HostRuntime) -> Result<(), Fail> {
    let read = table_in_cells(rt.alloc(), R)?;
    assert_eq!(rt; count_of(table_at(&read, CODE)), Some(6));
    // entries need not lead to code
    let last = entry_of(&read, CODE, 5)?;
    assert_eq!(rt; last, 0x50_0005);
    let executed = table_in_cells(rt.alloc(), RX)?;
    assert_eq!(rt; count_of(table_at(&executed, CODE)), Some(6));
    let written = table_in_cells(rt.alloc(), RW)?;
    assert_eq!(rt; table_at(&written, CODE), None);
    let hidden = table_in_cells(rt.alloc(), 0)?;
    assert_eq!(rt; table_at(&hidden, CODE), None);
    Ok(())
}

#[test]
fn an_entry_past_the_file_has_zeros(rt: HostRuntime) -> Result<(), Fail> {
    // of the six entries, the first and two bytes of the second are in the file
    let symbols = [symbol(rt.alloc(), b"thread_0", CODE)?];
    let mut file = build(rt.alloc(), &TO_CELLS, &ENTRIES, CELLS, &symbols).map_err(
        |_| "not built",
    )?;
    set(&mut file, CELLS_FLAGS, R);
    set(&mut file, CELLS_FILE_SIZE, 10);
    let elf = read_elf(rt.alloc(), &file).map_err(|_| "refused")?;
    let first = entry_of(&elf, CODE, 0)?;
    assert_eq!(rt; first, 0x50_0000);
    let second = entry_of(&elf, CODE, 1)?;
    assert_eq!(rt; second, 1);
    let last = entry_of(&elf, CODE, 5)?;
    assert_eq!(rt; last, 0);
    Ok(())
}

#[test]
fn a_table_ends_with_its_segment(rt: HostRuntime) -> Result<(), Fail> {
    // cmp rdi, 6, with six entries
    let past = table_behind(
        rt.alloc(),
        b"\x48\x83\xFF\x06\x77\x00\xFF\x24\xFD\x20\x10\x40\0",
    )?;
    assert_eq!(rt; past, None);
    // jmp [rdi*8-1]: no segment is there
    let nowhere = table_behind(
        rt.alloc(),
        b"\x48\x83\xFF\x05\x77\x00\xFF\x24\xFD\xFF\xFF\xFF\xFF",
    )?;
    assert_eq!(rt; nowhere, None);
    Ok(())
}

/// `cmp rdi, 5; ja; jmp [rdi*8+401010]`, three bytes, and the first entry.
const TO_BOTH: [u8; 24] = *b"\x48\x83\xFF\x05\x77\x00\xFF\x24\xFD\x10\x10\x40\0\0\0\0\
    \0\0\x50\0\0\0\0\0";

#[test]
fn a_table_lies_in_one_segment(rt: HostRuntime) -> Result<(), Fail> {
    // the cells begin where the code ends, and both may be read
    let elf = program(
        rt.alloc(),
        &Input {
            code: &TO_BOTH,
            cells: &ENTRIES,
            cells_address: CODE + 24,
            cells_flags: R,
            output: NOWHERE,
        },
    )?;
    assert_eq!(rt; table_at(&elf, CODE), None);
    Ok(())
}

#[test]
fn a_pattern_may_go_on_in_the_next_segment(rt: HostRuntime) -> Result<(), Fail> {
    // cmp rdi, 5 ends the code; ja; jmp [rdi*8+401010] and the table are the cells
    let elf = program(
        rt.alloc(),
        &Input {
            code: b"\x48\x83\xFF\x05",
            cells: b"\x77\x00\xFF\x24\xFD\x10\x10\x40\0\0\0\0\
                \x01\0\0\0\0\0\0\0\x02\0\0\0\0\0\0\0\x03\0\0\0\0\0\0\0\
                \x04\0\0\0\0\0\0\0\x05\0\0\0\0\0\0\0\x06\0\0\0\0\0\0\x80",
            cells_address: CODE + 4,
            cells_flags: RX,
            output: NOWHERE,
        },
    )?;
    let expected = Table {
        first: 0x401000,
        jump: 0x401006,
        inside: [0x401004, 0x401006, 0],
        inside_count: 2,
        index: 7,
        base: 0x401010,
        count: 6,
    };
    assert_eq!(rt; table_at(&elf, CODE), Some(expected));
    let last = entry_of(&elf, CODE, 5)?;
    assert_eq!(rt; last, 0x8000_0000_0000_0006);
    Ok(())
}

#[test]
fn no_pattern_runs_through_a_listed_function(rt: HostRuntime) -> Result<(), Fail> {
    let elf = program(
        rt.alloc(),
        &Input {
            code: &SWITCH,
            cells: &ENTRIES,
            cells_address: CELLS,
            cells_flags: RW,
            output: CODE + 5,
        },
    )?;
    assert_eq!(rt; table_at(&elf, CODE), None);
    Ok(())
}
