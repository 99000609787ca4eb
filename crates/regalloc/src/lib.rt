//! The allocation of the machine's registers to the temporaries of a block.
//! Others rest on `allocate`, by its clauses `first`, `end`, `meaning`, `layable`, `barriers` and `many`.
//! Source: linear scan (Poletto and Sarkar, TOPLAS 21(5), 1999), over eight registers and without spilling.
#![tactic(auto)]

mod allocation;
mod registers;
mod renamed;
mod scan;
#[cfg(test)]
mod tests;
mod uses;
mod words;

pub use allocation::allocate;
