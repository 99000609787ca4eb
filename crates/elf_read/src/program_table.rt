ghost use Rattle.std.specs.Prelude.{◌≡◌, ◌≢◌, ◌≤◌, ◌<◌, ◌+◌, ◌*◌, ◌^◌, ◌⊎◌, ◌↔◌, ℕ, length, IsTrue, OnOk};
ghost use Rattle.elf_read.specs.Bytes.{PassesEnd};
ghost use Rattle.elf_read.specs.Checked.{HasProgramTable};
ghost use Rattle.elf_read.specs.Fields.{e_phentsize, e_phoff, e_phnum, program_header_at, p_type, p_flags, p_offset, p_vaddr, p_filesz, p_memsz};
ghost use Rattle.elf_read.specs.FirstFault.{Looks};
ghost use Rattle.elf_read.specs.FileFaults.{Holds, IsLinkedAtStart};

use crate::bytes::{half_at, passes_end, word_at, xword_at};
use crate::fault::FileFault;

/// The bytes of a program header.
const ENTRY_SIZE: usize = 56;

/// The most program headers that a file may have.
const MOST_ENTRIES: usize = 64;

/// The type of a program header that describes a segment.
pub const PT_LOAD: u32 = 1;

/// The type of one that asks for dynamic linking.
const PT_DYNAMIC: u32 = 2;

/// The type of one that names an interpreter.
const PT_INTERP: u32 = 3;

/// A program header: what its fields say of a segment's place in the file and in memory.
#[derive(Clone, Copy, PartialEq, Eq)]
pub struct ProgramHeader {
    pub kind: u32,
    pub flags: u32,
    pub offset: u64,
    pub address: u64,
    pub file_size: u64,
    pub size: u64,
}

/// How many program headers a file has.
pub fn program_count(bytes: &[u8]) -> usize
    requires { 64 ≤ length bytes.now }
    ensures value { result ≡ e_phnum bytes.now }
    ensures small { result < 2 ^ 16 }
{
    usize::from(half_at(bytes, 56))
}

/// The program header that stands at an offset.
fn header_at(bytes: &[u8], at: usize) -> ProgramHeader
    requires { at + 56 ≤ length bytes.now }
    ensures kind { result.kind ≡ p_type bytes.now at }
    ensures flags { result.flags ≡ p_flags bytes.now at }
    ensures offset { result.offset ≡ p_offset bytes.now at }
    ensures address { result.address ≡ p_vaddr bytes.now at }
    ensures file_size { result.file_size ≡ p_filesz bytes.now at }
    ensures size { result.size ≡ p_memsz bytes.now at }
{
    ProgramHeader {
        kind: word_at(bytes, at),
        flags: word_at(bytes, at + 4),
        offset: xword_at(bytes, at + 8),
        address: xword_at(bytes, at + 16),
        file_size: xword_at(bytes, at + 32),
        size: xword_at(bytes, at + 40),
    }
}

/// The program header of this number.
pub fn program_header(bytes: &[u8], number: usize) -> ProgramHeader
    requires table { HasProgramTable bytes.now }
    requires within { number < e_phnum bytes.now }
    ensures kind { result.kind ≡ p_type bytes.now (program_header_at bytes.now number) }
    ensures flags { result.flags ≡ p_flags bytes.now (program_header_at bytes.now number) }
    ensures offset { result.offset ≡ p_offset bytes.now (program_header_at bytes.now number) }
    ensures address { result.address ≡ p_vaddr bytes.now (program_header_at bytes.now number) }
    ensures file_size { result.file_size ≡ p_filesz bytes.now (program_header_at bytes.now number) }
    ensures size { result.size ≡ p_memsz bytes.now (program_header_at bytes.now number) }
{
    let table = xword_at(bytes, 32) as usize;
    header_at(bytes, table + ENTRY_SIZE * number)
}

/// Whether the program header table has a wrong shape: entries of another size, none or too many, or
/// some past the end.
fn is_misshapen(bytes: &[u8]) -> bool
    requires { 64 ≤ length bytes.now }
    ensures { IsTrue result ↔ ((e_phentsize bytes.now ≢ 56) ⊎ ((e_phnum bytes.now ≡ 0) ⊎ ((64 < e_phnum bytes.now)
        ⊎ PassesEnd bytes.now (e_phoff bytes.now) (56 * e_phnum bytes.now)))) }
{
    let count = program_count(bytes);
    if usize::from(half_at(bytes, 54)) != ENTRY_SIZE {
        return true;
    }
    if count == 0 || count > MOST_ENTRIES {
        return true;
    }
    passes_end(bytes, xword_at(bytes, 32), (ENTRY_SIZE * count) as u64)
}

/// Whether a program header asks for a linker when the program starts.
fn is_linked_at_start(bytes: &[u8]) -> bool
    requires { HasProgramTable bytes.now }
    ensures { IsTrue result ↔ IsLinkedAtStart bytes.now }
{
    for number in 0..program_count(bytes) {
        let kind = program_header(bytes, number).kind;
        if kind == PT_DYNAMIC || kind == PT_INTERP {
            return true;
        }
    }
    false
}

/// Refuses a file whose program header table is not accepted.
pub fn check_program_table(bytes: &[u8]) -> Result<(), FileFault>
    requires { 64 ≤ length bytes.now }
    ensures first { Looks (Holds bytes.now) 7 8 result }
    ensures table { OnOk result (HasProgramTable bytes.now) }
{
    if is_misshapen(bytes) {
        return Err(FileFault::ProgramTable);
    }
    if is_linked_at_start(bytes) {
        return Err(FileFault::ProgramTable);
    }
    Ok(())
}
