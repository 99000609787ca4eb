//! ELF-64 files for x86-64: which are accepted, and what an accepted file says.
//! Others rest on `read_elf`, which refuses a file exactly for its first fault and tells an accepted one exactly, and on `Elf` as a `StartMemory`.
//! Source: System V gABI, chapters 4 (object files, sections, symbols) and 5 (program headers).
#![tactic(auto)]

mod bytes;
mod elf;
mod fault;
mod header;
mod listed;
mod listing;
mod program_table;
mod read;
mod sections;
mod segments;
mod symbols;

pub use elf::{Elf, Segment};
pub use fault::{BadCodeKind, CodeFault, FileFault, TransFault};
pub use read::read_elf;

#[cfg(test)]
mod tests;
