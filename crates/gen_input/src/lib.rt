//! Input files made of a code, cells and symbols.
//! Others rest on `build` and `make`, whose bytes are exactly those of `built_file` and `made_file`.
//! Source: System V gABI, chapters 4 and 5; the layout of these files is this project's own.
#![tactic(auto)]

mod built;
mod made;

pub use built::build;
pub use elf_format::Symbol;
pub use made::make;

#[cfg(test)]
mod tests;
