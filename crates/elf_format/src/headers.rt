ghost use Rattle.std.specs.Prelude.{◌≡◌, ◌++◌, OnOk};
ghost use Rattle.elf_format.specs.Headers.{file_header, program_header, section_header, symbol_section, string_section};

use crate::field::{Field, push_fields};
use std::alloc::AllocError;

/// Where the first program header stands: directly behind the file's header.
const HEADER_SIZE: u16 = 64;

/// The size of a program header.
const PROGRAM_HEADER_SIZE: u16 = 56;

/// The size of a section header.
const SECTION_HEADER_SIZE: u16 = 64;

/// What the header of one executable file (ET_EXEC) does not share with that of another: the machine,
/// the entry's address, the offset of the section headers, the counts of both tables, and which
/// section has the sections' names.
///
/// The program headers stand directly behind it.
#[derive(Clone, Copy, PartialEq, Eq)]
pub struct FileHeader {
    pub machine: u16,
    pub entry: u64,
    pub sections_at: u64,
    pub segment_count: u16,
    pub section_count: u16,
    pub names_section: u16,
}

/// The program header of a segment that is loaded (PT_LOAD): flags X 1, W 2 and R 4, the offset of its
/// bytes, its address in memory, and its sizes in file and memory.
///
/// Its physical address is its address, and its alignment 4,096.
#[derive(Clone, Copy, PartialEq, Eq)]
pub struct ProgramHeader {
    pub flags: u32,
    pub offset: u64,
    pub address: u64,
    pub file_size: u64,
    pub size: u64,
}

/// A section's header, with flags and address 0; its kind is SHT_SYMTAB 2 or SHT_STRTAB 3.
#[derive(Clone, Copy, PartialEq, Eq)]
pub struct SectionHeader {
    pub name: u32,
    pub kind: u32,
    pub offset: u64,
    pub size: u64,
    pub link: u32,
    pub info: u32,
    pub alignment: u64,
    pub entry_size: u64,
}

/// Appends the 64 bytes of a file's header.
pub fn push_file_header(out: &mut Vec<u8>, header: FileHeader) -> Result<(), AllocError>
    ensures { OnOk result (out.new.items ≡ out.old.items ++ file_header header) }
{
    out.extend_from_slice(b"\x7FELF\x02\x01\x01\0\0\0\0\0\0\0\0\0")?;
    push_fields(
        out,
        &[
            Field::Half(2),
            Field::Half(header.machine),
            Field::Word(1),
            Field::Xword(header.entry),
            Field::Xword(u64::from(HEADER_SIZE)),
            Field::Xword(header.sections_at),
            Field::Word(0),
            Field::Half(HEADER_SIZE),
            Field::Half(PROGRAM_HEADER_SIZE),
            Field::Half(header.segment_count),
            Field::Half(SECTION_HEADER_SIZE),
            Field::Half(header.section_count),
            Field::Half(header.names_section),
        ],
    )
}

/// Appends the 56 bytes of a program header.
pub fn push_program_header(out: &mut Vec<u8>, header: ProgramHeader) -> Result<(), AllocError>
    ensures { OnOk result (out.new.items ≡ out.old.items ++ program_header header) }
{
    push_fields(
        out,
        &[
            Field::Word(1),
            Field::Word(header.flags),
            Field::Xword(header.offset),
            Field::Xword(header.address),
            Field::Xword(header.address),
            Field::Xword(header.file_size),
            Field::Xword(header.size),
            Field::Xword(4096),
        ],
    )
}

/// Appends the 64 bytes of a section header.
pub fn push_section_header(out: &mut Vec<u8>, header: SectionHeader) -> Result<(), AllocError>
    ensures { OnOk result (out.new.items ≡ out.old.items ++ section_header header) }
{
    push_fields(
        out,
        &[
            Field::Word(header.name),
            Field::Word(header.kind),
            Field::Xword(0),
            Field::Xword(0),
            Field::Xword(header.offset),
            Field::Xword(header.size),
            Field::Word(header.link),
            Field::Word(header.info),
            Field::Xword(header.alignment),
            Field::Xword(header.entry_size),
        ],
    )
}

/// The section of a symbol table (SHT_SYMTAB) that stands at an offset, whose names are in number 2
/// and whose first global symbol is number 1.
pub fn symbol_section(name: u32, offset: u64, size: u64) -> SectionHeader
    ensures { result ≡ symbol_section name offset size }
{
    SectionHeader {
        name,
        kind: 2,
        offset,
        size,
        link: 2,
        info: 1,
        alignment: 8,
        entry_size: 24,
    }
}

/// The section of a string table (SHT_STRTAB) that stands at an offset.
pub fn string_section(name: u32, offset: u64, size: u64) -> SectionHeader
    ensures { result ≡ string_section name offset size }
{
    SectionHeader {
        name,
        kind: 3,
        offset,
        size,
        link: 0,
        info: 0,
        alignment: 1,
        entry_size: 0,
    }
}
