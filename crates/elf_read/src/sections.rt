ghost use Rattle.std.specs.Prelude.{◌≡◌, ◌≢◌, ◌≤◌, ◌<◌, ◌+◌, ◌*◌, ◌^◌, ◌↔◌, ℕ, length, IsTrue, IfSome, IfNone};
ghost use Rattle.elf_read.specs.Checked.{HasSectionTable, HasSymbolTable};
ghost use Rattle.elf_read.specs.ElfFile.{section_bytes, symbol_section};
ghost use Rattle.elf_read.specs.Fields.{e_shoff, e_shnum, section_header_at, sh_type, sh_flags, sh_offset, sh_size, sh_link, sh_entsize};
ghost use Rattle.elf_read.specs.FileFaults.{Holds, IsBadSectionTable, IsBadSymbolSection, IsBadStringSection, IsUnreadable};
ghost use Rattle.elf_read.specs.declared.fault.FileFault.TheVariants.{SymbolTable};

use crate::bytes::{half_at, has_flag, passes_end, range_at, word_at, xword_at};

/// The bytes of a section header.
const ENTRY_SIZE: usize = 64;

/// The bytes of a symbol.
const SYMBOL_SIZE: u64 = 24;

/// The type of a symbol table.
const SHT_SYMTAB: u32 = 2;

/// The type of a string table.
const SHT_STRTAB: u32 = 3;

/// The flag of a section whose bytes are compressed.
const SHF_COMPRESSED: u64 = 0x800;

/// A section header: what its fields say of a section's bytes.
#[derive(Clone, Copy, PartialEq, Eq)]
pub struct SectionHeader {
    pub kind: u32,
    pub flags: u64,
    pub offset: u64,
    pub size: u64,
    pub link: u32,
    pub entry_size: u64,
}

/// How many section headers a file has.
fn section_count(bytes: &[u8]) -> usize
    requires { 64 ≤ length bytes.now }
    ensures value { result ≡ e_shnum bytes.now }
    ensures small { result < 2 ^ 16 }
{
    usize::from(half_at(bytes, 60))
}

/// The section header that stands at an offset.
fn section_header(bytes: &[u8], at: usize) -> SectionHeader
    requires { at + 64 ≤ length bytes.now }
    ensures kind { result.kind ≡ sh_type bytes.now at }
    ensures flags { result.flags ≡ sh_flags bytes.now at }
    ensures offset { result.offset ≡ sh_offset bytes.now at }
    ensures size { result.size ≡ sh_size bytes.now at }
    ensures link { result.link ≡ sh_link bytes.now at }
    ensures entry_size { result.entry_size ≡ sh_entsize bytes.now at }
{
    SectionHeader {
        kind: word_at(bytes, at + 4),
        flags: xword_at(bytes, at + 8),
        offset: xword_at(bytes, at + 24),
        size: xword_at(bytes, at + 32),
        link: word_at(bytes, at + 40),
        entry_size: xword_at(bytes, at + 56),
    }
}

/// Where the section header of this number stands.
fn section_header_at(bytes: &[u8], number: usize) -> usize
    requires table { HasSectionTable bytes.now }
    requires within { number < e_shnum bytes.now }
    ensures value { result ≡ section_header_at bytes.now number }
    ensures whole { result + 64 ≤ length bytes.now }
{
    xword_at(bytes, 40) as usize + ENTRY_SIZE * number
}

/// Whether the section header table is bad: none, entries of another size, or some past the end.
fn is_bad_section_table(bytes: &[u8]) -> bool
    requires { 64 ≤ length bytes.now }
    ensures { IsTrue result ↔ IsBadSectionTable bytes.now }
{
    let offset = xword_at(bytes, 40);
    let count = section_count(bytes);
    if offset == 0 {
        return true;
    }
    if count == 0 || usize::from(half_at(bytes, 58)) != ENTRY_SIZE {
        return true;
    }
    passes_end(bytes, offset, (ENTRY_SIZE * count) as u64)
}

/// Where the header of the first symbol table stands.
fn symbol_section(bytes: &[u8]) -> Option<usize>
    requires { HasSectionTable bytes.now }
    ensures value { result ≡ symbol_section bytes.now }
    ensures whole { IfSome result (λ at. at + 64 ≤ length bytes.now) }
{
    for number in 0..section_count(bytes) {
        let at = section_header_at(bytes, number);
        if word_at(bytes, at + 4) == SHT_SYMTAB {
            return Some(at);
        }
    }
    None
}

/// Whether a section's bytes can't be read: some pass the end, or they are compressed.
fn is_unreadable(bytes: &[u8], at: usize) -> bool
    requires { at + 64 ≤ length bytes.now }
    ensures { IsTrue result ↔ IsUnreadable bytes.now at }
{
    let header = section_header(bytes, at);
    if has_flag(header.flags, SHF_COMPRESSED) {
        return true;
    }
    passes_end(bytes, header.offset, header.size)
}

/// Whether a section is no table of symbols.
fn is_bad_symbol_section(bytes: &[u8], at: usize) -> bool
    requires { at + 64 ≤ length bytes.now }
    ensures { IsTrue result ↔ IsBadSymbolSection bytes.now at }
{
    let header = section_header(bytes, at);
    if header.entry_size != SYMBOL_SIZE || header.size % SYMBOL_SIZE != 0 {
        return true;
    }
    is_unreadable(bytes, at)
}

/// Whether a symbol table links to no string table that can be read.
fn is_bad_string_section(bytes: &[u8], at: usize) -> bool
    requires table { HasSectionTable bytes.now }
    requires whole { at + 64 ≤ length bytes.now }
    ensures { IsTrue result ↔ IsBadStringSection bytes.now at }
{
    let link = section_header(bytes, at).link as usize;
    if link >= section_count(bytes) {
        return true;
    }
    let strings = section_header_at(bytes, link);
    if section_header(bytes, strings).kind != SHT_STRTAB {
        return true;
    }
    is_unreadable(bytes, strings)
}

/// Where the header of the file's symbol table stands, if the table and its string table can be read.
pub fn find_symbol_table(bytes: &[u8]) -> Option<usize>
    requires { 64 ≤ length bytes.now }
    ensures none { IfNone result (Holds bytes.now SymbolTable) }
    ensures some { IfSome result (HasSymbolTable bytes.now) }
{
    if is_bad_section_table(bytes) {
        return None;
    }
    let at = symbol_section(bytes)?;
    if is_bad_symbol_section(bytes, at) {
        return None;
    }
    if is_bad_string_section(bytes, at) {
        return None;
    }
    Some(at)
}

/// The bytes of the symbol table whose header stands at an offset.
pub fn symbols(bytes: &[u8], at: usize) -> &[u8]
    requires { HasSymbolTable bytes.now at }
    ensures { result.now ≡ section_bytes bytes.now at }
{
    let header = section_header(bytes, at);
    range_at(bytes, header.offset, header.size)
}

/// The bytes of its string table.
pub fn strings(bytes: &[u8], at: usize) -> &[u8]
    requires { HasSymbolTable bytes.now at }
    ensures { result.now ≡ section_bytes bytes.now (section_header_at bytes.now (sh_link bytes.now at)) }
{
    let link = section_header(bytes, at).link as usize;
    let header = section_header(bytes, section_header_at(bytes, link));
    range_at(bytes, header.offset, header.size)
}
