ghost use Rattle.std.specs.Prelude.{◌≡◌, ◌+◌, ◌<◌, ◌≤◌, ◌^◌, ◌++◌, length, IfOk, OnOk};
ghost use Rattle.std.specs.List.{AllByRecursion};
ghost use Rattle.elf_format.specs.Bytes.{padded};
ghost use Rattle.elf_format.specs.Headers.{program_header};
ghost use Rattle.elf_format.specs.Symbols.{symbol_table, string_table};
ghost use Rattle.gen_input.specs.BuiltFile.{IsShort, cells_at, loaded, built_headers, built_contents, built_sections, built_file};

use elf_format::{
    FileHeader, ProgramHeader, Symbol, pad_to, push_file_header, push_program_header,
    push_section_header, push_string_table, push_symbol_table, push_zeros, string_section,
    symbol_section,
};
use ev_graph::NoMemory;
use std::alloc::{AllocError, Global};

/// Where the code stands in the file, and how many bytes lie between the starts of its later parts.
const PAGE: usize = 4096;

/// Where the code stands in memory, and the program's entry.
const CODE_ADDRESS: u64 = 0x401000;

/// The machine EM_X86_64.
const MACHINE: u16 = 62;

/// Flags of the code's segment: R and X.
const CODE_FLAGS: u32 = 5;

/// Flags of the cells' segment: R and W.
const CELLS_FLAGS: u32 = 6;

/// Where the cells stand behind a code of this size.
fn cells_at(code_size: usize) -> usize
    requires { code_size ≤ 2 ^ 20 }
    ensures { result ≡ cells_at code_size }
{
    (PAGE + code_size).div_ceil(PAGE) * PAGE
}

/// The header and the program headers.
fn push_headers(
    out: &mut Vec<u8>,
    code_size: usize,
    cells_size: usize,
    cells_address: u64,
) -> Result<(), AllocError>
    requires { code_size ≤ 2 ^ 20 }
    ensures { OnOk result (out.new.items ≡ out.old.items ++ built_headers code_size cells_size cells_address) }
{
    let cells_at = cells_at(code_size) as u64;
    let header = FileHeader {
        machine: MACHINE,
        entry: CODE_ADDRESS,
        sections_at: cells_at + 2 * PAGE as u64,
        segment_count: 2,
        section_count: 3,
        names_section: 0,
    };
    push_file_header(out, header)?;
    push_segment(out, CODE_FLAGS, PAGE as u64, CODE_ADDRESS, code_size as u64)?;
    push_segment(out, CELLS_FLAGS, cells_at, cells_address, cells_size as u64)?;
    Ok(())
}

/// Appends the program header of a segment whose bytes are all in the file.
fn push_segment(
    out: &mut Vec<u8>,
    flags: u32,
    offset: u64,
    address: u64,
    size: u64,
) -> Result<(), AllocError>
    ensures { OnOk result (out.new.items ≡ out.old.items ++ program_header (loaded flags offset address size)) }
{
    push_program_header(
        out,
        ProgramHeader {
            flags,
            offset,
            address,
            file_size: size,
            size,
        },
    )?;
    Ok(())
}

/// The file up to the end of the cells: headers, code and cells.
fn contents(
    alloc: Global,
    code: &[u8],
    cells: &[u8],
    cells_address: u64,
) -> Result<Vec<u8>, AllocError>
    requires { length code.now ≤ 2 ^ 20 }
    ensures { IfOk result (λ bytes. bytes.items ≡ built_contents code.now cells.now cells_address) }
{
    let mut out = Vec::new(alloc);
    push_headers(&mut out, code.len(), cells.len(), cells_address)?;
    pad_to(&mut out, PAGE)?;
    out.extend_from_slice(code)?;
    pad_to(&mut out, cells_at(code.len()))?;
    out.extend_from_slice(cells)?;
    Ok(out)
}

/// Appends the section headers, for a symbol table at this place and tables of these sizes.
fn push_sections(
    out: &mut Vec<u8>,
    symbols_at: usize,
    symbols: usize,
    strings: usize,
) -> Result<(), AllocError>
    requires { symbols_at + symbols < 2 ^ 64 }
    ensures { OnOk result (out.new.items ≡ out.old.items ++ built_sections symbols_at symbols strings) }
{
    push_zeros(out, 64)?;
    push_section_header(out, symbol_section(0, symbols_at as u64, symbols as u64))?;
    push_section_header(
        out,
        string_section(0, (symbols_at + symbols) as u64, strings as u64),
    )?;
    Ok(())
}

/// Appends the tables behind cells that stand at this place, and the section headers.
fn push_tables(
    out: &mut Vec<u8>,
    cells_at: usize,
    symbols: &[u8],
    strings: &[u8],
) -> Result<(), AllocError>
    requires cells { cells_at ≤ 2 ^ 32 }
    requires symbols { length symbols.now ≤ 2 ^ 32 }
    ensures { OnOk result (out.new.items ≡ padded (padded out.old.items (cells_at + 4096) ++ (symbols.now ++ strings.now)) (cells_at + 0x2000)
        ++ built_sections (cells_at + 4096) (length symbols.now) (length strings.now)) }
{
    pad_to(out, cells_at + PAGE)?;
    out.extend_from_slice(symbols)?;
    out.extend_from_slice(strings)?;
    pad_to(out, cells_at + 2 * PAGE)?;
    push_sections(out, cells_at + PAGE, symbols.len(), strings.len())?;
    Ok(())
}

/// An executable file for x86-64 (System V gABI, chapters 4 and 5) with this code at 401000, which may
/// be read and executed, these cells at `cells_address`, which may be read and written, and these
/// global symbols of functions.
///
/// The code has at most 1 MiB and the cells 4,096 bytes; there are at most 40 symbols, with names of
/// at most 32 bytes. Nothing is asked of what the code, the address and the names are.
pub fn build(
    alloc: Global,
    code: &[u8],
    cells: &[u8],
    cells_address: u64,
    symbols: &[Symbol],
) -> Result<Vec<u8>, NoMemory>
    requires code { length code.now ≤ 2 ^ 20 }
    requires cells { length cells.now ≤ 4096 }
    requires symbols { length symbols.now ≤ 40 }
    requires names { AllByRecursion IsShort symbols.now }
    ensures bytes { IfOk result (λ bytes. bytes.items ≡ built_file code.now cells.now cells_address symbols.now) }
{
    let mut out = contents(alloc, code, cells, cells_address)?;
    let mut table = Vec::new(alloc);
    push_symbol_table(&mut table, symbols)?;
    let mut strings = Vec::new(alloc);
    push_string_table(&mut strings, symbols)?;
    push_tables(&mut out, cells_at(code.len()), &table, &strings)?;
    Ok(out)
}
