//! The selection of A64 words for the steps of a block, over registers without names.
//! Others rest on `select`, by its clauses `first`, `end`, `meaning`, `allocatable`, `barriers` and `few`.
//! Source: instruction selection by one group of words for each operator, as in Appel, Modern Compiler Implementation, chapter 9.
#![tactic(auto)]

mod group;
mod last_bits;
mod selecting;
#[cfg(test)]
mod tests;

pub use selecting::select;
