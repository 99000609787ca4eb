//! The bytes of an ELF-64 file's structures: its header, program headers, section headers, symbols and their names.
//! Others rest on `push_file_header`, `push_program_header`, `push_section_header`, `push_symbol_table` and `push_string_table`, whose bytes are those of `Headers` and `Symbols`.
//! Source: System V gABI, chapters 4 (header, data representation, sections, symbols) and 5 (program headers).
#![tactic(auto)]

mod field;
mod headers;
mod padding;
mod symbol;

pub use field::{Field, push_fields};
pub use headers::{
    FileHeader, ProgramHeader, SectionHeader, push_file_header, push_program_header,
    push_section_header, string_section, symbol_section,
};
pub use padding::{pad_to, push_zeros};
pub use symbol::{Symbol, push_string_table, push_symbol_table};
