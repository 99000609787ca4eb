//! Jumps through tables of addresses, as a C compiler writes them for a `switch`.
//! Others rest on `table_at`, which tells by `IsToldTable` just the one that begins at an address,
//! on `Table::entry`, and on the definitions of `specs/Pattern` and `specs/Entries`.
//! Source: Intel SDM volume 2 (CMP, Jcc, JMP, MOV, MOVZX); System V gABI, chapter 5 (segments).
#![tactic(auto)]

mod entries;
mod forms;
mod instructions;
mod steps;

pub use entries::Table;
pub use forms::table_at;

#[cfg(test)]
mod tests;
