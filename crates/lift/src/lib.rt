//! The lifting of blocks of recovered code to blocks of the intermediate form.
//! Others rest on `lift_block`, by its clauses `first`, `end`, `meaning`, `few`, `selectable` and `steps`, and on `instructions_of`.
//! Source: basic blocks as in Aho, Lam, Sethi and Ullman, Compilers, section 8.4.
#![tactic(auto)]

mod block;
mod placed;
#[cfg(test)]
mod tests;

pub use block::{instructions_of, lift_block};
