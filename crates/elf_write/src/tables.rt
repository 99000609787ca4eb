ghost use Rattle.std.specs.Prelude.{◌≡◌, ◌≤◌, ◌<◌, ◌^◌, ◌++◌, length, IfOk, OnOk};
ghost use Rattle.std.specs.List.{AllByRecursion};
ghost use Rattle.elf_format.specs.Bytes.{padded};
ghost use Rattle.elf_format.specs.Symbols.{symbol_table, string_table};
ghost use Rattle.elf_read.specs.ElfFile.{thread_name};
ghost use Rattle.elf_write.specs.ImageFile.{thread_symbols, image_sections, section_names};

use crate::places::{Places, SECTION_NAMES};
use elf_format::{
    Symbol, pad_to, push_section_header, push_string_table, push_symbol_table, push_zeros,
    string_section, symbol_section,
};
use ev_graph::{List, NoMemory};
use std::alloc::{AllocError, Global};

/// The symbol table and the string table of an image's threads.
#[derive(Drop)]
pub struct Tables {
    pub symbols: List<u8>,
    pub strings: List<u8>,
}

fn thread_name(alloc: Global, number: usize) -> Result<List<u8>, AllocError>
    ensures { IfOk result (λ name. name ≡ thread_name number) }
{
    let name = format!(in alloc; "thread_{number}")?;
    Ok(List::of(name.into_bytes()))
}

/// The symbols of the threads that begin at these addresses, from `thread_0` on.
fn thread_symbols(alloc: Global, threads: &[u64]) -> Result<Vec<Symbol>, AllocError>
    ensures symbols { IfOk result (λ symbols. symbols.items ≡ thread_symbols 0 threads.now) }
    ensures fit { IfOk result (λ _. AllByRecursion (λ address. address < 2 ^ 64) threads.now) }
{
    let mut symbols = Vec::new(alloc);
    for (number, address) in threads.iter().enumerate() {
        let name = thread_name(alloc, number)?;
        symbols.push(Symbol {
            name,
            address: *address,
        })?;
    }
    Ok(symbols)
}

/// The tables of threads that begin at these addresses.
pub fn thread_tables(alloc: Global, threads: &[u64]) -> Result<Tables, NoMemory>
    requires { length threads.now ≤ 16 }
    ensures symbols { IfOk result (λ found. found.symbols ≡ symbol_table (thread_symbols 0 threads.now)) }
    ensures strings { IfOk result (λ found. found.strings ≡ string_table (thread_symbols 0 threads.now)) }
    ensures fit { IfOk result (λ _. AllByRecursion (λ address. address < 2 ^ 64) threads.now) }
{
    let named = thread_symbols(alloc, threads)?;
    let mut symbols = Vec::new(alloc);
    push_symbol_table(&mut symbols, &named)?;
    let mut strings = Vec::new(alloc);
    push_string_table(&mut strings, &named)?;
    Ok(Tables {
        symbols: List::of(symbols),
        strings: List::of(strings),
    })
}

/// Appends the four section headers of an image, for tables of these sizes.
fn push_sections(
    out: &mut Vec<u8>,
    places: Places,
    symbols: usize,
    strings: usize,
) -> Result<(), AllocError>
    ensures { OnOk result (out.new.items ≡ out.old.items ++ image_sections places symbols strings) }
{
    push_zeros(out, 64)?;
    push_section_header(out, symbol_section(1, places.symbols, symbols as u64))?;
    push_section_header(out, string_section(9, places.strings, strings as u64))?;
    let names = string_section(17, places.names, SECTION_NAMES.len() as u64);
    push_section_header(out, names)?;
    Ok(())
}

/// Appends what follows the parts: tables of symbols and names, and section headers.
pub fn push_tables(out: &mut Vec<u8>, places: Places, tables: &Tables) -> Result<(), AllocError>
    ensures { OnOk result (out.new.items ≡ padded (padded out.old.items places.symbols ++ (tables.now.symbols ++ (tables.now.strings ++ section_names))) places.sections
        ++ image_sections places (length tables.now.symbols) (length tables.now.strings)) }
{
    let symbols = tables.symbols.as_slice();
    let strings = tables.strings.as_slice();
    pad_to(out, places.symbols as usize)?;
    out.extend_from_slice(symbols)?;
    out.extend_from_slice(strings)?;
    out.extend_from_slice(SECTION_NAMES)?;
    pad_to(out, places.sections as usize)?;
    push_sections(out, places, symbols.len(), strings.len())?;
    Ok(())
}
