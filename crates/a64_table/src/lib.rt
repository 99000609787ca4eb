//! What A64 instructions do: the row of each, as a tree, and `row`, which walks it on given values.
//! Others rest on `row`, on the definitions `a64_row`, `a64_words` and `a64_step`, and on the lemmas of proofs/CallerLemmas.
//! Source: Arm ARM (DDI 0487), chapter C6 (base instructions).
#![tactic(auto)]

mod acts;
mod laws;
mod rows;
mod state;
#[cfg(test)]
mod tests;
mod values;
mod words;

pub use ev_graph::{RowItems, Wanted};
pub use laws::{answers_are_paths, rows_are_open};
pub use rows::{ANext, ARow, FenceChoice, row};
pub use state::{A64State, Done, Nzcv};
