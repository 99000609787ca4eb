ghost use Rattle.std.specs.Prelude.{◌≡◌, ◌≤◌, ℕ, length, IfOk, OnOk};
ghost use Rattle.elf_read.specs.Checked.{HasProgramTable};
ghost use Rattle.elf_read.specs.Elf.{IsProgram, parts_of};
ghost use Rattle.elf_read.specs.ElfFile.{segments_of, symbols_of, strings_of, symbol_count, threads_of, address_of, input_name, output_name};
ghost use Rattle.elf_read.specs.FileFaults.{Holds};
ghost use Rattle.elf_read.specs.FirstFault.{Clear, Looks, LooksFor, rank};
ghost use Rattle.elf_read.specs.Listed.{Lists};

use crate::elf::Elf;
use crate::fault::{FileFault, TransFault};
use crate::header::{check_identification, check_length, check_target};
use crate::listing::{Listing, has_thread, list, threads};
use crate::program_table::check_program_table;
use crate::sections::{find_symbol_table, strings, symbols};
use crate::segments::{check_memory_size, check_segments, read_segments};
use crate::symbols::has_nameless;
use ev_graph::List;
use std::alloc::{AllocError, Global};

/// Refuses a file for its header.
fn check_header(bytes: &[u8]) -> Result<(), FileFault>
    ensures first { Looks (Holds bytes.now) 1 7 result }
    ensures long { OnOk result (64 ≤ length bytes.now) }
{
    check_length(bytes)?;
    check_identification(bytes)?;
    check_target(bytes)
}

/// Refuses a file for its program headers.
fn check_memory(bytes: &[u8]) -> Result<(), FileFault>
    requires { 64 ≤ length bytes.now }
    ensures first { Looks (Holds bytes.now) 7 10 result }
    ensures table { OnOk result (HasProgramTable bytes.now) }
{
    check_program_table(bytes)?;
    check_segments(bytes)?;
    check_memory_size(bytes)
}

/// The symbol table of a file and its string table.
#[derive(Clone, Copy)]
struct SymbolTable<'a> {
    symbols: &'a [u8],
    strings: &'a [u8],
}

/// The symbol table of a file, unless it is at fault.
fn symbol_table(bytes: &[u8]) -> Result<SymbolTable<'_>, FileFault>
    requires { 64 ≤ length bytes.now }
    ensures first { Looks (Holds bytes.now) 10 11 result }
    ensures symbols { IfOk result (λ table. table.symbols.now ≡ symbols_of bytes.now) }
    ensures strings { IfOk result (λ table. table.strings.now ≡ strings_of bytes.now) }
{
    let Some(at) = find_symbol_table(bytes) else {
        return Err(FileFault::SymbolTable);
    };
    let symbols = symbols(bytes, at);
    let strings = strings(bytes, at);
    if has_nameless(symbols, strings) {
        return Err(FileFault::SymbolTable);
    }
    Ok(SymbolTable { symbols, strings })
}

/// Where a file's symbols with listed names are.
fn listing(bytes: &[u8]) -> Result<Listing, FileFault>
    requires { 64 ≤ length bytes.now }
    ensures first { Looks (Holds bytes.now) 10 13 result }
    ensures listed { IfOk result (Lists (symbols_of bytes.now) (strings_of bytes.now) (symbol_count (symbols_of bytes.now))) }
{
    let table = symbol_table(bytes)?;
    if !has_thread(table.symbols, table.strings) {
        return Err(FileFault::NoThread);
    }
    match list(table.symbols, table.strings) {
        Ok(listing) => Ok(listing),
        Err(i) => Err(FileFault::DoubleName(i as u64)),
    }
}

/// What a file lists, unless it has a fault.
fn check_file(bytes: &[u8]) -> Result<Listing, FileFault>
    ensures first { Looks (Holds bytes.now) 1 13 result }
    ensures table { OnOk result (HasProgramTable bytes.now) }
    ensures listed { IfOk result (Lists (symbols_of bytes.now) (strings_of bytes.now) (symbol_count (symbols_of bytes.now))) }
{
    check_header(bytes)?;
    check_memory(bytes)?;
    listing(bytes)
}

/// The program that a file without a fault holds.
fn program(alloc: Global, bytes: &[u8], listing: &Listing) -> Result<Elf, AllocError>
    requires clear { Clear (Holds bytes.now) 1 13 }
    requires table { HasProgramTable bytes.now }
    requires listed { Lists (symbols_of bytes.now) (strings_of bytes.now) (symbol_count (symbols_of bytes.now)) listing.now }
    ensures segments { IfOk result (λ elf. parts_of elf ≡ segments_of bytes.now) }
    ensures threads { IfOk result (λ elf. elf.threads ≡ threads_of bytes.now) }
    ensures input { IfOk result (λ elf. elf.input ≡ address_of bytes.now input_name) }
    ensures output { IfOk result (λ elf. elf.output ≡ address_of bytes.now output_name) }
    ensures program { IfOk result (λ elf. IsProgram (parts_of elf) elf.threads) }
{
    let segments = read_segments(alloc, bytes)?;
    let threads = threads(alloc, listing)?;
    Ok(Elf {
        segments: List::of(segments),
        threads: List::of(threads),
        input: listing.input,
        output: listing.output,
    })
}

/// Reads an ELF-64 executable for x86-64 (System V gABI, chapters 4 and 5): its segments, where its
/// threads begin, and where its listed calls are.
///
/// A file is refused for its first fault, from TooLong to DoubleName.
pub fn read_elf(alloc: Global, bytes: &[u8]) -> Result<Elf, TransFault>
    ensures first { LooksFor (Holds bytes.now) (rank FileFault.TooLong) (rank FileFault.TooMuchCode) result }
    ensures segments { IfOk result (λ elf. parts_of elf ≡ segments_of bytes.now) }
    ensures threads { IfOk result (λ elf. elf.threads ≡ threads_of bytes.now) }
    ensures input { IfOk result (λ elf. elf.input ≡ address_of bytes.now input_name) }
    ensures output { IfOk result (λ elf. elf.output ≡ address_of bytes.now output_name) }
    ensures program { IfOk result (λ elf. IsProgram (parts_of elf) elf.threads) }
{
    let listing = check_file(bytes).map_err(TransFault::File)?;
    let elf = program(alloc, bytes, &listing)?;
    Ok(elf)
}
